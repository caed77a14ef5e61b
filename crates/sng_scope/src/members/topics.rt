//! The member `topics`: an object of topic names by predefined topic id (MQTT-SN 1.2, 6.7).
ghost use Rattle.std.specs.Prelude.{◌≡◌, ◌⊎◌, [], IfOk, IfErr, Ok, Err, codes, length, ◌≤◌};
ghost use Rattle.serde_json.specs.Find.{get};
ghost use Rattle.serde_json.specs.View.{view, members_view};
ghost use Rattle.sng_scope.specs.Policies.{name_of_data, topics_of, topics_onto};

use super::{members_within, put};
use crate::topic_id::topic_id_from;
use crate::{PolicyFault, Topics};
use serde_json::{Map, Value};
use sng_grants::{MAX_TOPICS, Names};
use sng_text::{TextFault, TopicName};
use std::alloc::Global;
use std::collections::BTreeMap;

/// The topics that the policy names, at most so many: none where it has no such member.
pub fn topics_in(alloc: Global, most: usize, policy: &Value) -> Result<Topics, PolicyFault>
    requires { most ≤ MAX_TOPICS }
    ensures ok { IfOk result (λ t. topics_of most (get (codes "topics") (view policy.now)) ≡ Ok t) }
    ensures err { IfErr result (λ e. (e ≡ PolicyFault.Memory)
        ⊎ (topics_of most (get (codes "topics") (view policy.now)) ≡ Err e)) }
    ensures few { IfOk result (λ t. length t ≤ most) }
{
    match policy.get("topics") {
        None => Ok(Topics::new(alloc)),
        Some(topics) => topics_of(alloc, members_within(topics, most)?),
    }
}

/// The members come in the order of their texts, which is not that of the ids: "10" stands before "9". So a
/// tree takes them, where a list would move at each all that stand behind it.
#[tactic(auto, using(crate::proofs::KeyLemmas::ids_more))]
fn topics_of(alloc: Global, members: &Map<String, Value>) -> Result<Topics, PolicyFault>
    requires { length members.now.entries ≤ MAX_TOPICS }
    ensures ok { IfOk result (λ t. topics_onto [] (members_view members.now.entries) ≡ Ok t) }
    ensures err { IfErr result (λ e. (e ≡ PolicyFault.Memory)
        ⊎ (topics_onto [] (members_view members.now.entries) ≡ Err e)) }
    ensures few { IfOk result (λ t. length t ≤ length members.now.entries) }
{
    let mut names = BTreeMap::new(alloc);
    for (name, value) in members {
        let Some(id) = topic_id_from(name.as_str()) else {
            return Err(PolicyFault::BadTopicId);
        };
        let topic = name_from(alloc, value)?;
        put(&mut names, id, topic)?;
    }
    let names = Names::of(alloc, names).map_err(|_| PolicyFault::Memory)?;
    Topics::of(alloc, names).map_err(|_| PolicyFault::Memory)
}

fn name_from(alloc: Global, value: &Value) -> Result<TopicName, PolicyFault>
    ensures ok { IfOk result (λ n. name_of_data (view value.now) ≡ Ok n) }
    ensures err { IfErr result (λ e. (e ≡ PolicyFault.Memory)
        ⊎ (name_of_data (view value.now) ≡ Err e)) }
{
    let Some(text) = value.as_str() else {
        return Err(PolicyFault::Shape);
    };
    match TopicName::read(alloc, text.as_bytes()) {
        Ok(name) => Ok(name),
        Err(TextFault::Memory) => Err(PolicyFault::Memory),
        Err(_) => Err(PolicyFault::BadTopicId),
    }
}
