//! Members of a policy text that stand more than once: of these the last counts.
use crate::text::octets;
use crate::{Location, Part};
use json::{Error, Scratch, Value};
use std::alloc::{AllocError, Global};

/// The places of the members of the policy that stand more than once, each once and in the byte order of
/// their names: those of the policy itself, then those of its limits, and of its clients, sources and topics.
/// None where the text is not JSON. Only memory can fail.
pub fn repeated_members(alloc: Global, text: &[u8]) -> Result<Vec<Location>, AllocError> {
    let mut scratch = Scratch::new(alloc);
    let mut places = Vec::new(alloc);
    match Value::from_slice(alloc, text, &mut scratch) {
        Ok(policy) => {
            for name in repeated_names(alloc, &policy)?.as_slice() {
                places.push(Location::Member(octets(alloc, name)?))?;
            }
            push_limits(alloc, &mut places, policy.get("limits"))?;
            push_part(alloc, &mut places, Part::Clients, policy.get("clients"))?;
            push_part(alloc, &mut places, Part::Sources, policy.get("sources"))?;
            push_part(alloc, &mut places, Part::Topics, policy.get("topics"))?;
            Ok(places)
        }
        Err(Error::OutOfMemory) => Err(AllocError),
        Err(Error::Invalid) | Err(Error::TooLong) | Err(Error::DuplicateKey) => Ok(places),
    }
}

/// Appends those of the limits, where they are there.
fn push_limits(
    alloc: Global,
    places: &mut Vec<Location>,
    value: Option<&Value<'_>>,
) -> Result<(), AllocError> {
    let Some(value) = value else {
        return Ok(());
    };
    for name in repeated_names(alloc, value)?.as_slice() {
        places.push(Location::LimitMember(octets(alloc, name)?))?;
    }
    Ok(())
}

/// Appends those of a part, where it is there.
fn push_part(
    alloc: Global,
    places: &mut Vec<Location>,
    part: Part,
    value: Option<&Value<'_>>,
) -> Result<(), AllocError> {
    let Some(value) = value else {
        return Ok(());
    };
    for name in repeated_names(alloc, value)?.as_slice() {
        places.push(Location::Name(part, octets(alloc, name)?))?;
    }
    Ok(())
}

/// The names that stand more than once in the object, each once, in byte order.
fn repeated_names<'a>(alloc: Global, value: &Value<'a>) -> Result<Vec<&'a str>, AllocError> {
    let mut repeated = Vec::new(alloc);
    let Value::Object(members) = value else {
        return Ok(repeated);
    };
    let mut names = Vec::with_capacity(alloc, members.len())?;
    for (name, _) in members {
        names.push(*name)?;
    }
    names.sort()?;
    let mut before = None;
    let mut is_reported = false;
    for name in names {
        let is_again = before == Some(name);
        if is_again && !is_reported {
            repeated.push(name)?;
        }
        is_reported = is_again;
        before = Some(name);
    }
    Ok(repeated)
}
