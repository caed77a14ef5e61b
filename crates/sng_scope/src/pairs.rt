//! Scopes in JSON: the list of pairs of a topic filter and the permissions on it (RFC 9237, 2; RFC 9431,
//! 2.3).
ghost use Rattle.std.specs.Prelude.{◌≡◌, ◌≤◌, ◌⊎◌, true, false, IfOk, IfErr, Ok, Err, option_map, nat_lt};
ghost use Rattle.std.specs.Prelude.{length};
ghost use Rattle.serde_json.specs.Events.{items_len};
ghost use Rattle.serde_json.specs.View.{view, items_view};
ghost use Rattle.sng_text.specs.Texts.{is_filter};
ghost use Rattle.sng_scope.specs.Scopes.{pair_parts, pair_from, pair_of, pairs_of, scope_of_items};

use crate::permissions::{are_permissions, are_texts, has_text};
use crate::{Pair, PolicyFault, Scope};
use serde_json::Value;
use sng_grants::MAX_PAIRS;
use sng_text::{TextFault, TopicFilter};
use std::alloc::Global;

/// The scope of the pairs, or the first of its faults.
pub fn scope_of_items(alloc: Global, items: &[Value]) -> Result<Scope, PolicyFault>
    ensures ok { IfOk result (λ s. scope_of_items (items_view items.now) ≡ Ok s) }
    ensures err { IfErr result (λ e. (e ≡ PolicyFault.Memory)
        ⊎ (scope_of_items (items_view items.now) ≡ Err e)) }
{
    if is_over_limit(items) {
        return Err(PolicyFault::TooMany);
    }
    pairs_from(alloc, items)
}

/// Whether there are more pairs than a scope may have.
fn is_over_limit(items: &[Value]) -> bool
    ensures value { result ≡ nat_lt MAX_PAIRS (items_len (items_view items.now)) }
    ensures few { result ≡ nat_lt MAX_PAIRS (length items.now) }
{
    items.len() > MAX_PAIRS
}

fn pairs_from(alloc: Global, items: &[Value]) -> Result<Scope, PolicyFault>
    requires { length items.now ≤ MAX_PAIRS }
    ensures ok { IfOk result (λ s. pairs_of (items_view items.now) ≡ Ok s) }
    ensures err { IfErr result (λ e. (e ≡ PolicyFault.Memory)
        ⊎ (pairs_of (items_view items.now) ≡ Err e)) }
{
    let mut scope = Scope::new(alloc);
    for item in items {
        let pair = pair_of(alloc, item)?;
        scope.push(pair).map_err(|_| PolicyFault::Memory)?;
    }
    Ok(scope)
}

fn pair_of(alloc: Global, value: &Value) -> Result<Pair, PolicyFault>
    ensures ok { IfOk result (λ p. pair_of (view value.now) ≡ Ok p) }
    ensures err { IfErr result (λ e. (e ≡ PolicyFault.Memory)
        ⊎ (pair_of (view value.now) ≡ Err e)) }
{
    match pair_parts(value) {
        None => Err(PolicyFault::Shape),
        Some((filter, permissions)) => pair_from(alloc, filter, permissions),
    }
}

/// The text and the array of a pair.
fn pair_parts(value: &Value) -> Option<(&str, &[Value])>
    ensures { option_map (λ parts. (parts.0.now, items_view parts.1.now)) result
        ≡ pair_parts (view value.now) }
{
    let items = value.as_array()?;
    let [filter, permissions] = items.as_slice() else {
        return None;
    };
    let filter = filter.as_str()?;
    let permissions = permissions.as_array()?;
    Some((filter, permissions.as_slice()))
}

/// What the permissions grant on the filter.
fn pair_from(alloc: Global, filter: &str, permissions: &[Value]) -> Result<Pair, PolicyFault>
    ensures ok { IfOk result (λ p. pair_from filter.now (items_view permissions.now) ≡ Ok p) }
    ensures err { IfErr result (λ e. (e ≡ PolicyFault.Memory)
        ⊎ (pair_from filter.now (items_view permissions.now) ≡ Err e)) }
{
    if !are_texts(permissions) {
        return Err(PolicyFault::Shape);
    }
    let filter = filter_from(alloc, filter)?;
    if !are_permissions(permissions) {
        return Err(PolicyFault::BadPermission);
    }
    Ok(Pair {
        filter,
        publishes: has_text(permissions, "pub"),
        subscribes: has_text(permissions, "sub"),
    })
}

fn filter_from(alloc: Global, text: &str) -> Result<TopicFilter, PolicyFault>
    ensures ok { IfOk result (λ f. (f ≡ text.now) × (is_filter text.now ≡ true)) }
    ensures err { IfErr result (λ e. (e ≡ PolicyFault.Memory)
        ⊎ ((e ≡ PolicyFault.BadFilter) × (is_filter text.now ≡ false))) }
{
    match TopicFilter::read(alloc, text.as_bytes()) {
        Ok(filter) => Ok(filter),
        Err(TextFault::Memory) => Err(PolicyFault::Memory),
        Err(_) => Err(PolicyFault::BadFilter),
    }
}
