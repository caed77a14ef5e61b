//! Clients, sources and topics as JSON objects.
ghost use Rattle.std.specs.Prelude.{◌≡◌, ◌≤◌, ℕ, true, length, IfOk};
ghost use Rattle.serde_json.specs.View.{view};
ghost use Rattle.sng_text.specs.ClientIds.{is_client_id};
ghost use Rattle.sng_text.specs.Ipv4.{IsAddress};
ghost use Rattle.sng_text.specs.Texts.{is_name};
ghost use Rattle.sng_grants.specs.Laws.{AreInOrder, AreIdsInOrder};
ghost use Rattle.sng_grants.specs.Topics.{IsTopicId};
ghost use Rattle.sng_scope.specs.Bounds.{AreWithin, IsGrant};
ghost use Rattle.sng_scope.specs.Written.{clients_data, sources_data, topics_data};

use super::scopes::grant_value;
use super::texts::{decimal_of, dotted_of, string_of, text_of};
use crate::{Clients, Sources, Topics};
use serde_json::{Map, Value, put};
use std::alloc::{AllocError, Global};

/// The grants by client id.
pub fn clients_value(alloc: Global, clients: &Clients) -> Result<Value, AllocError>
    ensures json { IfOk result (λ v. view v ≡ clients_data clients.now) }
    ensures within { IfOk result
        (λ v. (most : ℕ) → length clients.now ≤ most
        → AreWithin most (λ client. is_client_id client ≡ true) IsGrant clients.now) }
    ensures ordered { IfOk result (λ v. AreInOrder clients.now) }
{
    let mut members = Map::new(alloc);
    let _count = clients.len();
    for (client, grant) in clients.iter() {
        let value = grant_value(alloc, grant)?;
        put(&mut members, alloc, text_of(client.text()), value)?;
    }
    Ok(Value::from(members))
}

/// The grants by IPv4 address.
pub fn sources_value(alloc: Global, sources: &Sources) -> Result<Value, AllocError>
    ensures json { IfOk result (λ v. view v ≡ sources_data sources.now) }
    ensures within { IfOk result
        (λ v. (most : ℕ) → length sources.now ≤ most → AreWithin most IsAddress IsGrant sources.now) }
    ensures ordered { IfOk result (λ v. AreInOrder sources.now) }
{
    let mut members = Map::new(alloc);
    let _count = sources.len();
    for (source, grant) in sources.iter() {
        let value = grant_value(alloc, grant)?;
        let name = dotted_of(alloc, *source)?;
        put(&mut members, alloc, name.as_str(), value)?;
    }
    Ok(Value::from(members))
}

/// The topic names by topic id.
pub fn topics_value(alloc: Global, topics: &Topics) -> Result<Value, AllocError>
    ensures json { IfOk result (λ v. view v ≡ topics_data topics.now) }
    ensures within { IfOk result
        (λ v. (most : ℕ) → length topics.now ≤ most
        → AreWithin most IsTopicId (λ name. is_name name ≡ true) topics.now) }
    ensures ordered { IfOk result (λ v. AreIdsInOrder topics.now) }
{
    let mut members = Map::new(alloc);
    let _count = topics.len();
    for (id, topic) in topics.iter() {
        let value = string_of(alloc, topic.text())?;
        let name = decimal_of(alloc, *id)?;
        put(&mut members, alloc, name.as_str(), value)?;
    }
    Ok(Value::from(members))
}
