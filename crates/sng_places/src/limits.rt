//! The place of the first fault of a policy's limits.
ghost use Rattle.std.specs.Prelude.{◌≡◌, ◌⊎◌, OnOk, IfErr, Ok, Err, codes, option_map};
ghost use Rattle.serde_json.specs.Find.{get};
ghost use Rattle.serde_json.specs.View.{view, members_view};
ghost use Rattle.sng_places.specs.LimitPlaces.{least_of, limit_check, limits_check, limits_in, most_of};
ghost use Rattle.sng_places.specs.LimitPlaces.{no_other, other_limit};

use crate::text::octets;
use crate::{Flaw, LimitName, Location, Stop};
use serde_json::{Map, Value};
use sng_grants::{
    DEFAULT_FLIGHT, DEFAULT_WAITING, Limits, MAX_FLIGHT, MAX_POLICY_CLIENTS, MAX_SOURCES,
    MAX_TOPICS, MAX_WAITING,
};
use sng_scope::{is_limit, limits_from};
use std::alloc::Global;

/// Ends with the first fault of the limits, where they are there.
pub fn check_limits(alloc: Global, value: Option<&Value>) -> Result<(), Stop>
    ensures ok { OnOk result (limits_check (option_map (λ v. view v.now) value.entry) ≡ Ok tt) }
    ensures err { IfErr result (λ e. (e ≡ Stop.Memory)
        ⊎ (limits_check (option_map (λ v. view v.now) value.entry) ≡ Err e)) }
{
    let Some(value) = value else {
        return Ok(());
    };
    let Some(members) = value.as_object() else {
        return Err(Stop::at(Location::Limits, Flaw::NotObject));
    };
    check_names(alloc, members)?;
    check_limit(LimitName::Clients, value.get("clients"))?;
    check_limit(LimitName::InFlight, value.get("in_flight"))?;
    check_limit(LimitName::Sources, value.get("sources"))?;
    check_limit(LimitName::Topics, value.get("topics"))?;
    check_limit(LimitName::Waiting, value.get("waiting"))
}

/// The limits of the policy; where they have a fault, those of a policy that sets none.
pub fn limits_in(policy: &Value) -> Limits
    ensures { result ≡ limits_in (view policy.now) }
{
    match limits_from(policy.get("limits")) {
        Ok(limits) => limits,
        Err(_) => Limits::new(),
    }
}

/// Ends where a member is no limit.
fn check_names(alloc: Global, members: &Map<String, Value>) -> Result<(), Stop>
    ensures ok { OnOk result (no_other (other_limit (members_view members.now.entries)) ≡ Ok tt) }
    ensures err { IfErr result (λ e. (e ≡ Stop.Memory)
        ⊎ (no_other (other_limit (members_view members.now.entries)) ≡ Err e)) }
{
    match other_limit(members) {
        None => Ok(()),
        Some(name) => {
            let place = Location::LimitMember(octets(alloc, name)?);
            Err(Stop::at(place, Flaw::UnknownMember))
        }
    }
}

/// The first name that is that of no limit.
fn other_limit(members: &Map<String, Value>) -> Option<&str>
    ensures { option_map (λ name. name.now) result ≡ other_limit (members_view members.now.entries) }
{
    for (name, _) in members {
        if !is_limit(name.as_str()) {
            return Some(name.as_str());
        }
    }
    None
}

/// Ends where the limit is there and no whole number in its range.
fn check_limit(name: LimitName, value: Option<&Value>) -> Result<(), Stop>
    ensures { result ≡ limit_check name (option_map (λ v. view v.now) value.entry) }
{
    let Some(value) = value else {
        return Ok(());
    };
    let (least, most) = (least_of(name), most_of(name));
    match value.as_u64() {
        None => Err(Stop::at(Location::Limit(name), Flaw::NotLimit(least, most))),
        Some(number) => {
            if least as u64 <= number && number <= most as u64 {
                Ok(())
            } else {
                Err(Stop::at(Location::Limit(name), Flaw::NotLimit(least, most)))
            }
        }
    }
}

/// The least that the limit may be.
fn least_of(name: LimitName) -> usize
    ensures { result ≡ least_of name }
{
    match name {
        LimitName::Clients => 1,
        LimitName::InFlight => DEFAULT_FLIGHT,
        LimitName::Sources | LimitName::Topics => 0,
        LimitName::Waiting => DEFAULT_WAITING,
    }
}

/// The most that the limit may be.
fn most_of(name: LimitName) -> usize
    ensures { result ≡ most_of name }
{
    match name {
        LimitName::Clients => MAX_POLICY_CLIENTS,
        LimitName::InFlight => MAX_FLIGHT,
        LimitName::Sources => MAX_SOURCES,
        LimitName::Topics => MAX_TOPICS,
        LimitName::Waiting => MAX_WAITING,
    }
}
