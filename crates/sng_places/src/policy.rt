//! The place of the first fault of a policy text.
ghost use Rattle.std.specs.Prelude.{◌≡◌, ◌⊎◌, OnOk, IfErr, Ok, Err, MatchResult, codes, option_map, length};
ghost use Rattle.serde_json.specs.Events.{members_len};
ghost use Rattle.serde_json.specs.Find.{get};
ghost use Rattle.serde_json.specs.View.{view, members_view};
ghost use Rattle.sng_places.specs.Places.{text_check, data_check, object_check, version_check, known_check};
ghost use Rattle.sng_places.specs.Places.{unknown_of, part_within, clients_in, sources_in, topics_in};

use crate::entries::{check_clients, check_sources, check_topics};
use crate::limits::{check_limits, limits_in};
use crate::text::octets;
use crate::{Flaw, Location, Part, Stop};
use serde_json::{Map, Value};
use sng_scope::{PolicyFault, is_known, is_version, may_end, may_limit, value_from};
use std::alloc::Global;

/// Ends with the first fault of the policy text, where it stands and what is wrong there. `Ok` for each text
/// that is a policy.
pub fn check_policy(alloc: Global, text: &[u8]) -> Result<(), Stop>
    ensures ok { OnOk result (text_check text.now ≡ Ok tt) }
    ensures err { IfErr result (λ e. (e ≡ Stop.Memory) ⊎ (text_check text.now ≡ Err e)) }
{
    match value_from(alloc, text) {
        Ok(value) => check_value(alloc, &value),
        Err(PolicyFault::Memory) => Err(Stop::Memory),
        Err(_) => Err(Stop::at(Location::Whole, Flaw::NotJson)),
    }
}

fn check_value(alloc: Global, value: &Value) -> Result<(), Stop>
    ensures ok { OnOk result (data_check (view value.now) ≡ Ok tt) }
    ensures err { IfErr result (λ e. (e ≡ Stop.Memory)
        ⊎ (data_check (view value.now) ≡ Err e)) }
{
    check_object(alloc, value)?;
    check_limits(alloc, value.get("limits"))?;
    let limits = limits_in(value);
    let ends = may_end(value);
    check_clients_in(alloc, limits.clients(), ends, value)?;
    check_sources_in(alloc, limits.sources(), ends, value)?;
    check_topics_in(alloc, limits.topics(), value)
}

/// Ends where the value is no object, has not the version 1, 2 or 4, or has a member that is not known.
fn check_object(alloc: Global, value: &Value) -> Result<(), Stop>
    ensures ok { OnOk result (object_check (view value.now) ≡ Ok tt) }
    ensures err { IfErr result (λ e. (e ≡ Stop.Memory)
        ⊎ (object_check (view value.now) ≡ Err e)) }
{
    let Some(members) = value.as_object() else {
        return Err(Stop::at(Location::Whole, Flaw::NotObject));
    };
    check_version(value)?;
    check_known(alloc, may_limit(value), members)
}

fn check_version(value: &Value) -> Result<(), Stop>
    ensures { result ≡ version_check (view value.now) }
{
    if value.get("version").is_none() {
        return Err(Stop::at(Location::Whole, Flaw::NoVersion));
    }
    if !is_version(value) {
        return Err(Stop::at(Location::Version, Flaw::OtherVersion));
    }
    Ok(())
}

fn check_known(alloc: Global, limited: bool, members: &Map<String, Value>) -> Result<(), Stop>
    ensures ok { OnOk result (known_check limited (members_view members.now.entries) ≡ Ok tt) }
    ensures err { IfErr result (λ e. (e ≡ Stop.Memory)
        ⊎ (known_check limited (members_view members.now.entries) ≡ Err e)) }
{
    match unknown_of(limited, members) {
        None => Ok(()),
        Some(name) => {
            let place = Location::Member(octets(alloc, name)?);
            Err(Stop::at(place, Flaw::UnknownMember))
        }
    }
}

/// The first name that is none of a policy's.
fn unknown_of(limited: bool, members: &Map<String, Value>) -> Option<&str>
    ensures { option_map (λ name. name.now) result ≡ unknown_of limited (members_view members.now.entries) }
{
    for (name, _) in members {
        if !is_known(limited, name.as_str()) {
            return Some(name.as_str());
        }
    }
    None
}

fn check_clients_in(alloc: Global, most: usize, ends: bool, policy: &Value) -> Result<(), Stop>
    ensures ok { OnOk result (clients_in most ends (get (codes "clients") (view policy.now)) ≡ Ok tt) }
    ensures err { IfErr result (λ e. (e ≡ Stop.Memory)
        ⊎ (clients_in most ends (get (codes "clients") (view policy.now)) ≡ Err e)) }
{
    match policy.get("clients") {
        None => Ok(()),
        Some(part) => check_clients(alloc, ends, part_within(Part::Clients, most, part)?),
    }
}

fn check_sources_in(alloc: Global, most: usize, ends: bool, policy: &Value) -> Result<(), Stop>
    ensures ok { OnOk result (sources_in most ends (get (codes "sources") (view policy.now)) ≡ Ok tt) }
    ensures err { IfErr result (λ e. (e ≡ Stop.Memory)
        ⊎ (sources_in most ends (get (codes "sources") (view policy.now)) ≡ Err e)) }
{
    match policy.get("sources") {
        None => Ok(()),
        Some(part) => check_sources(alloc, ends, part_within(Part::Sources, most, part)?),
    }
}

fn check_topics_in(alloc: Global, most: usize, policy: &Value) -> Result<(), Stop>
    ensures ok { OnOk result (topics_in most (get (codes "topics") (view policy.now)) ≡ Ok tt) }
    ensures err { IfErr result (λ e. (e ≡ Stop.Memory)
        ⊎ (topics_in most (get (codes "topics") (view policy.now)) ≡ Err e)) }
{
    match policy.get("topics") {
        None => Ok(()),
        Some(part) => check_topics(alloc, part_within(Part::Topics, most, part)?),
    }
}

/// The members of a part that has no more of them than `most`.
fn part_within(part: Part, most: usize, value: &Value) -> Result<&Map<String, Value>, Stop>
    ensures { MatchResult result
        (λ ms. part_within part most (view value.now) ≡ Ok (members_view ms.now.entries))
        (λ e. part_within part most (view value.now) ≡ Err e) }
{
    let Some(members) = value.as_object() else {
        return Err(Stop::at(Location::Part(part), Flaw::NotObject));
    };
    let count = member_count(members);
    if count > most {
        return Err(Stop::at(Location::Part(part), Flaw::TooMany(count, most)));
    }
    Ok(members)
}

fn member_count(members: &Map<String, Value>) -> usize
    ensures { result ≡ members_len (members_view members.now.entries) }
{
    members.len()
}
