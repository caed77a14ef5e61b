//! The place of the first fault of a pair.
ghost use Rattle.std.specs.Prelude.{◌≡◌, ◌⊎◌, OnOk, IfErr, Ok, Err, Some, None, option_map, unwrap_or, []};
ghost use Rattle.serde_json.specs.Find.{as_str};
ghost use Rattle.serde_json.specs.View.{view, items_view};
ghost use Rattle.sng_text.specs.Texts.{filter_fault};
ghost use Rattle.sng_places.specs.ScopePlaces.{pair_check, two_check, two_of, parts_check, texts_by};
ghost use Rattle.sng_places.specs.ScopePlaces.{filter_by, permissions_by, no_text_from, other_from};

use crate::stop::ScopeStop;
use crate::text::octets;
use crate::{Flaw, Form, Spot};
use serde_json::Value;
use sng_scope::says;
use sng_text::{TextFault, TopicFilter};
use std::alloc::Global;

/// Ends with the first fault of the pair at this place of the scope.
pub fn check_pair(alloc: Global, form: Form, index: usize, value: &Value) -> Result<(), ScopeStop>
    ensures ok { OnOk result (pair_check form index (view value.now) ≡ Ok tt) }
    ensures err { IfErr result (λ e. (e ≡ ScopeStop.Memory)
        ⊎ (pair_check form index (view value.now) ≡ Err e)) }
{
    match value.as_array() {
        None => Err(ScopeStop::at(form, Spot::Pair(index), Flaw::NotPair)),
        Some(items) => match two_of(items.as_slice()) {
            None => Err(ScopeStop::at(form, Spot::Pair(index), Flaw::NotPair)),
            Some((first, second)) => check_two(alloc, form, index, first, second),
        },
    }
}

/// The two of an array of exactly two.
fn two_of(items: &[Value]) -> Option<(&Value, &Value)>
    ensures { option_map (λ two. (view two.0.now, view two.1.now)) result ≡ two_of (items_view items.now) }
{
    match items {
        [first, second] => Some((first, second)),
        _ => None,
    }
}

fn check_two(
    alloc: Global,
    form: Form,
    index: usize,
    first: &Value,
    second: &Value,
) -> Result<(), ScopeStop>
    ensures ok { OnOk result (two_check form index (view first.now) (view second.now) ≡ Ok tt) }
    ensures err { IfErr result (λ e. (e ≡ ScopeStop.Memory)
        ⊎ (two_check form index (view first.now) (view second.now) ≡ Err e)) }
{
    let Some(filter) = first.as_str() else {
        return Err(ScopeStop::at(form, Spot::Filter(index), Flaw::NotText));
    };
    let Some(permissions) = second.as_array() else {
        return Err(ScopeStop::at(form, Spot::Permissions(index), Flaw::NotArray));
    };
    check_parts(alloc, form, index, filter, permissions.as_slice())
}

fn check_parts(
    alloc: Global,
    form: Form,
    index: usize,
    filter: &str,
    permissions: &[Value],
) -> Result<(), ScopeStop>
    ensures ok { OnOk result
        (parts_check form index filter.now (items_view permissions.now) ≡ Ok tt) }
    ensures err { IfErr result (λ e. (e ≡ ScopeStop.Memory)
        ⊎ (parts_check form index filter.now (items_view permissions.now) ≡ Err e)) }
{
    check_texts(form, index, permissions)?;
    check_filter(alloc, form, index, filter)?;
    check_permissions(alloc, form, index, permissions)
}

fn check_texts(form: Form, index: usize, permissions: &[Value]) -> Result<(), ScopeStop>
    ensures { result ≡ texts_by form index (no_text_from 0 (items_view permissions.now)) }
{
    match no_text(permissions) {
        None => Ok(()),
        Some(place) => {
            let spot = Spot::Permission(index, place);
            Err(ScopeStop::at(form, spot, Flaw::NotText))
        }
    }
}

/// The place of the first item that is not a text.
fn no_text(items: &[Value]) -> Option<usize>
    ensures { result ≡ no_text_from 0 (items_view items.now) }
{
    for (place, item) in items.iter().enumerate() {
        if item.as_str().is_none() {
            return Some(place);
        }
    }
    None
}

fn check_filter(alloc: Global, form: Form, index: usize, text: &str) -> Result<(), ScopeStop>
    ensures ok { OnOk result (filter_by form index text.now (filter_fault text.now) ≡ Ok tt) }
    ensures err { IfErr result (λ e. (e ≡ ScopeStop.Memory)
        ⊎ (filter_by form index text.now (filter_fault text.now) ≡ Err e)) }
{
    match TopicFilter::read(alloc, text.as_bytes()) {
        Ok(_) => Ok(()),
        Err(TextFault::Memory) => Err(ScopeStop::Memory),
        Err(fault) => {
            let text = octets(alloc, text)?;
            let flaw = Flaw::Filter(text, fault);
            Err(ScopeStop::at(form, Spot::Filter(index), flaw))
        }
    }
}

fn check_permissions(
    alloc: Global,
    form: Form,
    index: usize,
    permissions: &[Value],
) -> Result<(), ScopeStop>
    ensures ok { OnOk result
        (permissions_by form index (other_from 0 (items_view permissions.now)) ≡ Ok tt) }
    ensures err { IfErr result (λ e. (e ≡ ScopeStop.Memory)
        ⊎ (permissions_by form index (other_from 0 (items_view permissions.now)) ≡ Err e)) }
{
    match other(permissions) {
        None => Ok(()),
        Some((place, text)) => {
            let text = octets(alloc, text)?;
            let spot = Spot::Permission(index, place);
            Err(ScopeStop::at(form, spot, Flaw::Permission(text)))
        }
    }
}

/// The place and the text of the first item that is neither `pub` nor `sub`.
fn other(items: &[Value]) -> Option<(usize, &str)>
    ensures { option_map (λ found. (found.0, found.1.now)) result ≡ other_from 0 (items_view items.now) }
{
    for (place, item) in items.iter().enumerate() {
        if !says(item, "pub") && !says(item, "sub") {
            return Some((place, text_of(item)));
        }
    }
    None
}

/// The text that the value is, and none where it is no text.
fn text_of(value: &Value) -> &str
    ensures { result.now ≡ unwrap_or (as_str (view value.now)) [] }
{
    match value.as_str() {
        None => "",
        Some(text) => text,
    }
}
