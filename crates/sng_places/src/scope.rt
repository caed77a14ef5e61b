//! The place of the first fault of a scope.
ghost use Rattle.std.specs.Prelude.{◌≡◌, ◌⊎◌, OnOk, IfErr, Ok, Err, length, nat_lt};
ghost use Rattle.serde_json.specs.Events.{items_len};
ghost use Rattle.serde_json.specs.View.{view, items_view};
ghost use Rattle.sng_places.specs.ScopePlaces.{scope_check, encoded_check, items_check, pairs_check};

use crate::pair::check_pair;
use crate::stop::ScopeStop;
use crate::text::octets;
use crate::{Flaw, Form, Spot};
use serde_json::Value;
use sng_grants::MAX_PAIRS;
use sng_scope::{PolicyFault, bytes_from, value_from};
use std::alloc::Global;

/// Ends with the first fault of the scope that the value is to be.
pub fn check_scope(alloc: Global, value: &Value) -> Result<(), ScopeStop>
    ensures ok { OnOk result (scope_check (view value.now) ≡ Ok tt) }
    ensures err { IfErr result (λ e. (e ≡ ScopeStop.Memory)
        ⊎ (scope_check (view value.now) ≡ Err e)) }
{
    match value {
        Value::Array(items) => check_items(alloc, Form::Plain, items.as_slice()),
        Value::String(text) => check_encoded(alloc, text.as_str()),
        _ => Err(ScopeStop::at(Form::Plain, Spot::Whole, Flaw::NotScope)),
    }
}

/// The same of the scope whose JSON the text stands for.
fn check_encoded(alloc: Global, text: &str) -> Result<(), ScopeStop>
    ensures ok { OnOk result (encoded_check text.now ≡ Ok tt) }
    ensures err { IfErr result (λ e. (e ≡ ScopeStop.Memory) ⊎ (encoded_check text.now ≡ Err e)) }
{
    let bytes = match bytes_from(alloc, text) {
        Ok(bytes) => bytes,
        Err(PolicyFault::Memory) => return Err(ScopeStop::Memory),
        Err(_) => {
            let text = octets(alloc, text)?;
            return Err(ScopeStop::at(Form::Plain, Spot::Whole, Flaw::Base64(text)));
        }
    };
    let value = match value_from(alloc, bytes.as_slice()) {
        Ok(value) => value,
        Err(PolicyFault::Memory) => return Err(ScopeStop::Memory),
        Err(_) => {
            let text = octets(alloc, text)?;
            let flaw = Flaw::NotEncodedJson(text);
            return Err(ScopeStop::at(Form::Plain, Spot::Whole, flaw));
        }
    };
    match value.as_array() {
        None => Err(ScopeStop::at(Form::Encoded, Spot::Whole, Flaw::NotArray)),
        Some(items) => check_items(alloc, Form::Encoded, items.as_slice()),
    }
}

fn check_items(alloc: Global, form: Form, items: &[Value]) -> Result<(), ScopeStop>
    ensures ok { OnOk result (items_check form (items_view items.now) ≡ Ok tt) }
    ensures err { IfErr result (λ e. (e ≡ ScopeStop.Memory)
        ⊎ (items_check form (items_view items.now) ≡ Err e)) }
{
    let count = item_count(items);
    if count > MAX_PAIRS {
        let flaw = Flaw::TooMany(count, MAX_PAIRS);
        return Err(ScopeStop::at(form, Spot::Whole, flaw));
    }
    check_pairs(alloc, form, items)
}

fn item_count(items: &[Value]) -> usize
    ensures { result ≡ items_len (items_view items.now) }
{
    items.len()
}

fn check_pairs(alloc: Global, form: Form, items: &[Value]) -> Result<(), ScopeStop>
    ensures ok { OnOk result (pairs_check form 0 (items_view items.now) ≡ Ok tt) }
    ensures err { IfErr result (λ e. (e ≡ ScopeStop.Memory)
        ⊎ (pairs_check form 0 (items_view items.now) ≡ Err e)) }
{
    for (index, item) in items.iter().enumerate() {
        check_pair(alloc, form, index, item)?;
    }
    Ok(())
}
