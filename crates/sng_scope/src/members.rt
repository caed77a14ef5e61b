//! The members of a policy object: the version, the limits, the clients, the sources and the topics.
ghost use Rattle.std.specs.Prelude.{◌≡◌, ◌⊎◌, IfOk, IfErr, OnOk, Ok, Err, MatchResult, nat_lt, length};
ghost use Rattle.std.specs.Prelude.{◌+◌, ◌≤◌};
ghost use Rattle.std.specs.BTreeMap.{insert_entry};
ghost use Rattle.serde_json.specs.Events.{members_len};
ghost use Rattle.serde_json.specs.View.{view, members_view};
ghost use Rattle.sng_scope.specs.Policies.{is_known, are_known, is_version, may_end, may_limit};
ghost use Rattle.sng_scope.specs.Policies.{is_policy_object};
ghost use Rattle.sng_scope.specs.Policies.{members_within, parts_of, policy_of_data};

mod clients;
mod sources;
mod topics;

use crate::limits_form::limits_from;
use crate::{Policy, PolicyFault};
use clients::clients_in;
use serde_json::{Map, Value};
use sources::sources_in;
use std::alloc::Global;
use std::collections::BTreeMap;
use topics::topics_in;

/// The policy that the value is, or the first of its faults.
pub fn policy_from(alloc: Global, value: &Value) -> Result<Policy, PolicyFault>
    ensures ok { IfOk result (λ p. policy_of_data (view value.now) ≡ Ok p) }
    ensures err { IfErr result (λ e. (e ≡ PolicyFault.Memory)
        ⊎ (policy_of_data (view value.now) ≡ Err e)) }
{
    if !is_policy_object(value) {
        return Err(PolicyFault::Shape);
    }
    parts_from(alloc, value)
}

/// The parts of a policy object, one after another.
fn parts_from(alloc: Global, value: &Value) -> Result<Policy, PolicyFault>
    ensures ok { IfOk result (λ p. parts_of (view value.now) ≡ Ok p) }
    ensures err { IfErr result (λ e. (e ≡ PolicyFault.Memory)
        ⊎ (parts_of (view value.now) ≡ Err e)) }
{
    let limits = limits_from(value.get("limits"))?;
    let ends = may_end(value);
    let clients = clients_in(alloc, limits.clients(), ends, value)?;
    let sources = sources_in(alloc, limits.sources(), ends, value)?;
    let topics = topics_in(alloc, limits.topics(), value)?;
    Ok(Policy {
        clients,
        sources,
        topics,
        limits,
    })
}

/// Whether the value is an object of a version that is known, with no member that is unknown.
fn is_policy_object(value: &Value) -> bool
    ensures { result ≡ is_policy_object (view value.now) }
{
    match value.as_object() {
        None => false,
        Some(members) => is_version(value) && are_known(may_limit(value), members),
    }
}

/// Whether the value has the member `version`, the whole number 1, 2 or 4.
pub fn is_version(value: &Value) -> bool
    ensures { result ≡ is_version (view value.now) }
{
    match value.get("version").and_then(Value::as_u64) {
        None => false,
        Some(version) => version == 1 || version == 2 || version == 4,
    }
}

/// Whether its version is 2 or 4, of which scopes may end.
pub fn may_end(value: &Value) -> bool
    ensures { result ≡ may_end (view value.now) }
{
    match value.get("version").and_then(Value::as_u64) {
        None => false,
        Some(version) => version == 2 || version == 4,
    }
}

/// Whether its version is 4, which may set limits.
pub fn may_limit(value: &Value) -> bool
    ensures { result ≡ may_limit (view value.now) }
{
    match value.get("version").and_then(Value::as_u64) {
        None => false,
        Some(version) => version == 4,
    }
}

/// Whether each name is one that a policy may have.
fn are_known(limited: bool, members: &Map<String, Value>) -> bool
    ensures { result ≡ are_known limited (members_view members.now.entries) }
{
    for (name, _) in members {
        if !is_known(limited, name.as_str()) {
            return false;
        }
    }
    true
}

/// Whether a policy may have a member of this name, where it may set limits and where it may not.
pub fn is_known(limited: bool, name: &str) -> bool
    ensures { result ≡ is_known limited name.now }
{
    name == "version"
        || name == "clients"
        || name == "sources"
        || name == "topics"
        || (limited && name == "limits")
}

/// The members of an object that has no more of them than `most`.
fn members_within(value: &Value, most: usize) -> Result<&Map<String, Value>, PolicyFault>
    ensures value { MatchResult result
        (λ ms. members_within most (view value.now) ≡ Ok (members_view ms.now.entries))
        (λ e. members_within most (view value.now) ≡ Err e) }
    ensures few { IfOk result (λ ms. length ms.now.entries ≤ most) }
{
    let Some(members) = value.as_object() else {
        return Err(PolicyFault::Shape);
    };
    if is_over(members, most) {
        return Err(PolicyFault::TooMany);
    }
    Ok(members)
}

/// Whether there are more members than `most`.
fn is_over(members: &Map<String, Value>, most: usize) -> bool
    ensures value { result ≡ nat_lt most (members_len (members_view members.now.entries)) }
    ensures few { result ≡ nat_lt most (length members.now.entries) }
{
    members.len() > most
}

/// The key has the value, in its place in the order.
fn put<K: Ord + Drop, V: Drop>(
    entries: &mut BTreeMap<K, V>,
    key: K,
    value: V,
) -> Result<(), PolicyFault>
    ensures ok { OnOk result (entries.new.entries ≡ insert_entry K.cmp entries.old.entries key value) }
    ensures one_more { OnOk result (length entries.new.entries ≤ length entries.old.entries + 1) }
    ensures err { IfErr result (λ e. e ≡ PolicyFault.Memory) }
{
    match entries.insert(key, value) {
        Ok(_) => Ok(()),
        Err(_) => Err(PolicyFault::Memory),
    }
}
