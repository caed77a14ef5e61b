//! Which sources may ever publish. A publish at QoS -1 names its topic by a short topic name or by a
//! predefined topic id (MQTT-SN 1.2, 6.8).
ghost use Rattle.std.specs.Prelude.{◌≡◌, true, IfOk};
ghost use Rattle.sng_text.specs.Texts.{is_name};
ghost use Rattle.sng_questions.specs.Publishing.{lets_publish, matches_topic, may_publish};

use crate::short_name::matches_short;
use sng_grants::{Pair, Topics};
use sng_text::{Octets, TopicFilter, TopicName, matches};
use std::alloc::{AllocError, Global};

/// Whether the pairs let a source publish some name that it can say. Only memory can fail.
pub fn may_publish(alloc: Global, topics: &Topics, pairs: &[Pair]) -> Result<bool, AllocError>
    ensures { IfOk result (λ may. may ≡ may_publish topics.now pairs.now) }
{
    for pair in pairs {
        if lets_publish(alloc, topics, pair)? {
            return Ok(true);
        }
    }
    Ok(false)
}

fn lets_publish(alloc: Global, topics: &Topics, pair: &Pair) -> Result<bool, AllocError>
    ensures { IfOk result (λ lets. lets ≡ lets_publish topics.now pair.now) }
{
    if !pair.publishes {
        return Ok(false);
    }
    if matches_short(&pair.filter) {
        return Ok(true);
    }
    matches_topic(alloc, topics, &pair.filter)
}

/// Whether the filter matches the name of a predefined topic id. One without wildcards is looked up, and only
/// one with a wildcard is held against each name.
fn matches_topic(alloc: Global, topics: &Topics, filter: &TopicFilter) -> Result<bool, AllocError>
    ensures { IfOk result (λ is. is ≡ matches_topic topics.now filter.now) }
{
    if filter.is_name() {
        return is_predefined(alloc, topics, filter);
    }
    Ok(matches_some(topics, filter))
}

/// Whether the filter, which is a name, is that of a predefined topic id.
fn is_predefined(alloc: Global, topics: &Topics, filter: &TopicFilter) -> Result<bool, AllocError>
    requires { is_name filter.now ≡ true }
    ensures { IfOk result (λ is. is ≡ matches_topic topics.now filter.now) }
{
    let text = Octets::of(alloc, filter.text())?;
    let name = TopicName::of_text(text);
    Ok(has_id(topics, &name))
}

/// Whether the name has a topic id.
#[tactic(auto, using(crate::proofs::PublishingLemmas::found_by_name))]
fn has_id(topics: &Topics, name: &TopicName) -> bool
    ensures { result ≡ matches_topic topics.now name.now }
{
    let _text = name.text();
    topics.id_of(name).is_some()
}

/// Whether the filter matches one of the names.
fn matches_some(topics: &Topics, filter: &TopicFilter) -> bool
    ensures { result ≡ matches_topic topics.now filter.now }
{
    for (_, name) in topics.iter() {
        if matches(filter, name) {
            return true;
        }
    }
    false
}
