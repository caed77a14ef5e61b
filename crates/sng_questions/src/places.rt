//! How the place of a fault of a policy text is printed, and what is wrong there.
ghost use Rattle.std.specs.Prelude.{◌≡◌, ◌++◌, OnOk};
ghost use Rattle.sng_places.specs.LimitPlaces.{limit_text};
ghost use Rattle.sng_questions.specs.Places.{part_text, index_text, spot_text, form_text, member_text};
ghost use Rattle.sng_questions.specs.Places.{place_text, position_text, where_text, found_text};

use crate::flaws::push_flaw;
use sng_book::print::{push_decimal, push_name};
use sng_places::{Flaw, Form, Found, LimitName, Location, Part, Position, Spot};
use std::alloc::AllocError;

/// Appends the line of a fault. A text that is not JSON has it at this position.
pub fn push_found(line: &mut Vec<u8>, position: Position, found: &Found) -> Result<(), AllocError>
    ensures { OnOk result (line.new.items ≡ line.old.items ++ found_text position found.now) }
{
    line.extend_from_slice(b"at ")?;
    push_where(line, position, &found.place, &found.flaw)?;
    line.extend_from_slice(b": ")?;
    push_flaw(line, &found.place, &found.flaw)?;
    line.extend_from_slice(b"\n")
}

fn push_where(
    line: &mut Vec<u8>,
    position: Position,
    place: &Location,
    flaw: &Flaw,
) -> Result<(), AllocError>
    ensures { OnOk result (line.new.items ≡ line.old.items ++ where_text position place.now flaw.now) }
{
    match (place, flaw) {
        (Location::Whole, Flaw::NotJson) => push_position(line, position),
        (place, _) => push_place(line, place),
    }
}

fn push_position(line: &mut Vec<u8>, position: Position) -> Result<(), AllocError>
    ensures { OnOk result (line.new.items ≡ line.old.items ++ position_text position) }
{
    line.extend_from_slice(b"line ")?;
    push_decimal(line, position.line as u64)?;
    line.extend_from_slice(b", column ")?;
    push_decimal(line, position.column as u64)
}

/// Appends the place.
pub fn push_place(line: &mut Vec<u8>, place: &Location) -> Result<(), AllocError>
    ensures { OnOk result (line.new.items ≡ line.old.items ++ place_text place.now) }
{
    match place {
        Location::Whole => line.extend_from_slice(b"the policy"),
        Location::Version => line.extend_from_slice(b"version"),
        Location::Member(name) => push_name(line, name.as_slice()),
        Location::Limits => line.extend_from_slice(b"limits"),
        Location::LimitMember(name) => {
            line.extend_from_slice(b"limits.")?;
            push_name(line, name.as_slice())
        }
        Location::Limit(name) => {
            line.extend_from_slice(b"limits.")?;
            push_limit(line, *name)
        }
        Location::Part(part) => push_part(line, *part),
        Location::Name(part, name) => push_member(line, *part, name.as_slice()),
        Location::Value(part, name, form, spot) => {
            push_member(line, *part, name.as_slice())?;
            push_form(line, *form)?;
            push_spot(line, *spot)
        }
        Location::Other(part, name, other) => {
            push_member(line, *part, name.as_slice())?;
            line.extend_from_slice(b".")?;
            push_name(line, other.as_slice())
        }
        Location::End(part, name) => {
            push_member(line, *part, name.as_slice())?;
            line.extend_from_slice(b".exp")
        }
        Location::Scope(part, name, form, spot) => {
            push_member(line, *part, name.as_slice())?;
            line.extend_from_slice(b".scope")?;
            push_form(line, *form)?;
            push_spot(line, *spot)
        }
    }
}

/// Appends the name of the limit.
fn push_limit(line: &mut Vec<u8>, name: LimitName) -> Result<(), AllocError>
    ensures { OnOk result (line.new.items ≡ line.old.items ++ limit_text name) }
{
    match name {
        LimitName::Clients => line.extend_from_slice(b"clients"),
        LimitName::InFlight => line.extend_from_slice(b"in_flight"),
        LimitName::Sources => line.extend_from_slice(b"sources"),
        LimitName::Topics => line.extend_from_slice(b"topics"),
        LimitName::Waiting => line.extend_from_slice(b"waiting"),
    }
}

/// Appends the place of a member of the part.
pub fn push_member(line: &mut Vec<u8>, part: Part, name: &[u8]) -> Result<(), AllocError>
    ensures { OnOk result (line.new.items ≡ line.old.items ++ member_text part name.now) }
{
    push_part(line, part)?;
    line.extend_from_slice(b".")?;
    push_name(line, name)
}

/// Appends the name of the part, which is what its members are, too.
pub fn push_part(line: &mut Vec<u8>, part: Part) -> Result<(), AllocError>
    ensures { OnOk result (line.new.items ≡ line.old.items ++ part_text part) }
{
    match part {
        Part::Clients => line.extend_from_slice(b"clients"),
        Part::Sources => line.extend_from_slice(b"sources"),
        Part::Topics => line.extend_from_slice(b"topics"),
    }
}

fn push_form(line: &mut Vec<u8>, form: Form) -> Result<(), AllocError>
    ensures { OnOk result (line.new.items ≡ line.old.items ++ form_text form) }
{
    match form {
        Form::Plain => Ok(()),
        Form::Encoded => line.extend_from_slice(b" (decoded)"),
    }
}

fn push_spot(line: &mut Vec<u8>, spot: Spot) -> Result<(), AllocError>
    ensures { OnOk result (line.new.items ≡ line.old.items ++ spot_text spot) }
{
    match spot {
        Spot::Whole => Ok(()),
        Spot::Pair(pair) => push_index(line, pair),
        Spot::Filter(pair) => {
            push_index(line, pair)?;
            line.extend_from_slice(b"[0]")
        }
        Spot::Permissions(pair) => {
            push_index(line, pair)?;
            line.extend_from_slice(b"[1]")
        }
        Spot::Permission(pair, permission) => {
            push_index(line, pair)?;
            line.extend_from_slice(b"[1]")?;
            push_index(line, permission)
        }
    }
}

/// Appends a place in an array, from 0.
pub fn push_index(line: &mut Vec<u8>, place: usize) -> Result<(), AllocError>
    ensures { OnOk result (line.new.items ≡ line.old.items ++ index_text place) }
{
    line.extend_from_slice(b"[")?;
    push_decimal(line, place as u64)?;
    line.extend_from_slice(b"]")
}
