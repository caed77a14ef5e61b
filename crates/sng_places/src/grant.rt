//! The place of the first fault of a grant: a scope, and in version 2 also an object of a scope and its end.
ghost use Rattle.std.specs.Prelude.{◌≡◌, ◌⊎◌, true, OnOk, IfErr, Ok, Err, option_map};
ghost use Rattle.serde_json.specs.View.{view, members_view};
ghost use Rattle.sng_places.specs.ScopePlaces.{scope_check};
ghost use Rattle.sng_places.specs.Places.{end_check, grant_check, inside};
ghost use Rattle.sng_places.specs.Places.{other_of, unless, stop_at, within};
ghost use Rattle.sng_places.specs.declared.location.Location.TheVariants.{Other};
ghost use Rattle.sng_places.specs.declared.flaw.Flaw.TheVariants.{UnknownMember};

use crate::scope::check_scope;
use crate::stop::ScopeStop;
use crate::text::octets;
use crate::{Flaw, Form, Location, Part, Spot, Stop};
use serde_json::{Map, Value};
use sng_scope::is_grant_member;
use std::alloc::Global;

/// Ends with the first fault of the value of this member, where scopes may end and where they may not.
pub fn check_grant(
    alloc: Global,
    ends: bool,
    part: Part,
    name: &str,
    value: &Value,
) -> Result<(), Stop>
    ensures ok { OnOk result (grant_check ends part name.now (view value.now) ≡ Ok tt) }
    ensures err { IfErr result (λ e. (e ≡ Stop.Memory)
        ⊎ (grant_check ends part name.now (view value.now) ≡ Err e)) }
{
    match ends {
        true => check_ending(alloc, part, name, value),
        false => check_within(alloc, part, name, value),
    }
}

fn check_ending(alloc: Global, part: Part, name: &str, value: &Value) -> Result<(), Stop>
    ensures ok { OnOk result (grant_check true part name.now (view value.now) ≡ Ok tt) }
    ensures err { IfErr result (λ e. (e ≡ Stop.Memory)
        ⊎ (grant_check true part name.now (view value.now) ≡ Err e)) }
{
    match value.as_object() {
        None => check_within(alloc, part, name, value),
        Some(members) => {
            check_others(alloc, part, name, members)?;
            check_end(alloc, part, name, value.get("exp"))?;
            let Some(scope) = value.get("scope") else {
                let place = Location::Value(part, octets(alloc, name)?, Form::Plain, Spot::Whole);
                return Err(Stop::at(place, Flaw::NoScope));
            };
            check_inside(alloc, part, name, scope)
        }
    }
}

/// Ends where a member of the object is not known.
fn check_others(
    alloc: Global,
    part: Part,
    name: &str,
    members: &Map<String, Value>,
) -> Result<(), Stop>
    ensures ok { OnOk result (unless (other_of (members_view members.now.entries))
        (λ other. stop_at (Other part name.now other) UnknownMember) ≡ Ok tt) }
    ensures err { IfErr result (λ e. (e ≡ Stop.Memory)
        ⊎ (unless (other_of (members_view members.now.entries))
        (λ other. stop_at (Other part name.now other) UnknownMember) ≡ Err e)) }
{
    match other_of(members) {
        None => Ok(()),
        Some(other) => {
            let other = octets(alloc, other)?;
            let place = Location::Other(part, octets(alloc, name)?, other);
            Err(Stop::at(place, Flaw::UnknownMember))
        }
    }
}

/// The first name that is none of such an object's.
fn other_of(members: &Map<String, Value>) -> Option<&str>
    ensures { option_map (λ name. name.now) result ≡ other_of (members_view members.now.entries) }
{
    for (name, _) in members {
        if !is_grant_member(name.as_str()) {
            return Some(name.as_str());
        }
    }
    None
}

/// Ends where the end is not a whole number of 64 bits.
fn check_end(alloc: Global, part: Part, name: &str, end: Option<&Value>) -> Result<(), Stop>
    ensures ok { OnOk result (end_check part name.now (option_map (λ v. view v.now) end.entry) ≡ Ok tt) }
    ensures err { IfErr result (λ e. (e ≡ Stop.Memory)
        ⊎ (end_check part name.now (option_map (λ v. view v.now) end.entry) ≡ Err e)) }
{
    let Some(value) = end else {
        return Ok(());
    };
    if value.as_u64().is_none() {
        let place = Location::End(part, octets(alloc, name)?);
        return Err(Stop::at(place, Flaw::NotEnd));
    }
    Ok(())
}

/// Ends with the first fault of the scope in such an object.
fn check_inside(alloc: Global, part: Part, name: &str, value: &Value) -> Result<(), Stop>
    ensures ok { OnOk result (inside part name.now (scope_check (view value.now)) ≡ Ok tt) }
    ensures err { IfErr result (λ e. (e ≡ Stop.Memory)
        ⊎ (inside part name.now (scope_check (view value.now)) ≡ Err e)) }
{
    match check_scope(alloc, value) {
        Ok(()) => Ok(()),
        Err(ScopeStop::Memory) => Err(Stop::Memory),
        Err(ScopeStop::At(found)) => {
            let name = octets(alloc, name)?;
            let place = Location::Scope(part, name, found.form, found.spot);
            Err(Stop::at(place, found.flaw))
        }
    }
}

/// Ends with the first fault of the scope of this member.
fn check_within(alloc: Global, part: Part, name: &str, value: &Value) -> Result<(), Stop>
    ensures ok { OnOk result (within part name.now (scope_check (view value.now)) ≡ Ok tt) }
    ensures err { IfErr result (λ e. (e ≡ Stop.Memory)
        ⊎ (within part name.now (scope_check (view value.now)) ≡ Err e)) }
{
    match check_scope(alloc, value) {
        Ok(()) => Ok(()),
        Err(ScopeStop::Memory) => Err(Stop::Memory),
        Err(ScopeStop::At(found)) => {
            let name = octets(alloc, name)?;
            let place = Location::Value(part, name, found.form, found.spot);
            Err(Stop::at(place, found.flaw))
        }
    }
}
