//! The place of the first fault among the members of a part.
ghost use Rattle.std.specs.Prelude.{◌≡◌, ◌⊎◌, OnOk, IfErr, Ok, Err};
ghost use Rattle.serde_json.specs.View.{view, members_view};
ghost use Rattle.sng_places.specs.Places.{client_check, clients_check, sources_check, topic_check};
ghost use Rattle.sng_places.specs.Places.{topics_check};

use crate::grant::check_grant;
use crate::text::octets;
use crate::{Flaw, Form, Location, Part, Spot, Stop};
use serde_json::{Map, Value};
use sng_scope::topic_id_from;
use sng_text::{ClientId, TextFault, TopicName, read_ipv4};
use std::alloc::Global;

/// Ends with the first fault of the clients.
pub fn check_clients(alloc: Global, ends: bool, members: &Map<String, Value>) -> Result<(), Stop>
    ensures ok { OnOk result (clients_check ends (members_view members.now.entries) ≡ Ok tt) }
    ensures err { IfErr result (λ e. (e ≡ Stop.Memory)
        ⊎ (clients_check ends (members_view members.now.entries) ≡ Err e)) }
{
    for (name, value) in members {
        check_client(alloc, name.as_str())?;
        check_grant(alloc, ends, Part::Clients, name.as_str(), value)?;
    }
    Ok(())
}

/// Ends with the first fault of the sources.
pub fn check_sources(alloc: Global, ends: bool, members: &Map<String, Value>) -> Result<(), Stop>
    ensures ok { OnOk result (sources_check ends (members_view members.now.entries) ≡ Ok tt) }
    ensures err { IfErr result (λ e. (e ≡ Stop.Memory)
        ⊎ (sources_check ends (members_view members.now.entries) ≡ Err e)) }
{
    for (name, value) in members {
        if read_ipv4(name.as_bytes()).is_none() {
            let place = Location::Name(Part::Sources, octets(alloc, name.as_str())?);
            return Err(Stop::at(place, Flaw::Source));
        }
        check_grant(alloc, ends, Part::Sources, name.as_str(), value)?;
    }
    Ok(())
}

/// Ends with the first fault of the topics.
pub fn check_topics(alloc: Global, members: &Map<String, Value>) -> Result<(), Stop>
    ensures ok { OnOk result (topics_check (members_view members.now.entries) ≡ Ok tt) }
    ensures err { IfErr result (λ e. (e ≡ Stop.Memory)
        ⊎ (topics_check (members_view members.now.entries) ≡ Err e)) }
{
    for (name, value) in members {
        if topic_id_from(name.as_str()).is_none() {
            let place = Location::Name(Part::Topics, octets(alloc, name.as_str())?);
            return Err(Stop::at(place, Flaw::TopicId));
        }
        check_topic(alloc, name.as_str(), value)?;
    }
    Ok(())
}

fn check_client(alloc: Global, name: &str) -> Result<(), Stop>
    ensures ok { OnOk result (client_check name.now ≡ Ok tt) }
    ensures err { IfErr result (λ e. (e ≡ Stop.Memory) ⊎ (client_check name.now ≡ Err e)) }
{
    match ClientId::read(alloc, name.as_bytes()) {
        Ok(_) => Ok(()),
        Err(TextFault::Memory) => Err(Stop::Memory),
        Err(fault) => {
            let place = Location::Name(Part::Clients, octets(alloc, name)?);
            Err(Stop::at(place, Flaw::ClientId(fault)))
        }
    }
}

/// Ends with the fault of the topic name of this id.
fn check_topic(alloc: Global, id: &str, value: &Value) -> Result<(), Stop>
    ensures ok { OnOk result (topic_check id.now (view value.now) ≡ Ok tt) }
    ensures err { IfErr result (λ e. (e ≡ Stop.Memory)
        ⊎ (topic_check id.now (view value.now) ≡ Err e)) }
{
    let Some(text) = value.as_str() else {
        let place = Location::Value(Part::Topics, octets(alloc, id)?, Form::Plain, Spot::Whole);
        return Err(Stop::at(place, Flaw::NotText));
    };
    match TopicName::read(alloc, text.as_bytes()) {
        Ok(_) => Ok(()),
        Err(TextFault::Memory) => Err(Stop::Memory),
        Err(fault) => {
            let place = Location::Value(Part::Topics, octets(alloc, id)?, Form::Plain, Spot::Whole);
            let text = octets(alloc, text)?;
            Err(Stop::at(place, Flaw::TopicName(text, fault)))
        }
    }
}
