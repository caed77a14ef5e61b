//! Whom and what a policy lists at a clock. No call here takes memory, and each finds its entry without a walk
//! over the policy.
ghost use Rattle.std.specs.Prelude.{◌≡◌, ◌↔◌, IsTrue};
ghost use Rattle.std.specs.Option.{option_copied};
ghost use Rattle.sng_grants.specs.Ends.{in_force};
ghost use Rattle.sng_grants.specs.Sources.{grant_of};
ghost use Rattle.sng_policy.specs.Grants.{lists, lists_source, same_end, same_grant, same_scope, topic};
ghost use Rattle.sng_policy.specs.Grants.{topic_id};

use sng_grants::{Grant, Policy};
use sng_text::{ClientId, TopicName};

/// Whether the policy lists the client at the clock.
pub fn lists(policy: &Policy, client: &ClientId, clock: u64) -> bool
    ensures { result ≡ lists (in_force clock policy.now) client.now }
{
    policy.client_scope_at(client, clock).is_some()
}

/// Whether the policy lists the source with this IPv4 address at the clock.
pub fn lists_source(policy: &Policy, source: [u8; 4], clock: u64) -> bool
    ensures { result ≡ lists_source (in_force clock policy.now) source }
{
    policy.source_scope_at(source, clock).is_some()
}

/// Whether the client has the very same scope under both policies, with the same end: the same pairs in the
/// same order, each with the same filter and permissions. It has where neither policy lists it, too. Takes no
/// memory, and one look at each pair, up to the first that differs.
pub fn same_scope(before: &Policy, after: &Policy, client: &ClientId) -> bool
    ensures value { result ≡ same_scope before.now after.now client.now }
    ensures same { IsTrue result
        ↔ (grant_of before.now.clients client.now ≡ grant_of after.now.clients client.now) }
{
    match (before.clients.get(client), after.clients.get(client)) {
        (None, None) => true,
        (Some(grant), Some(other)) => same_grant(grant, other),
        _ => false,
    }
}

/// Whether the two have the same scope and the same end.
fn same_grant(grant: &Grant, other: &Grant) -> bool
    ensures { result ≡ same_grant grant.now other.now }
{
    let same = grant.scope.pairs() == other.scope.pairs();
    same && same_end(grant.until, other.until)
}

/// Whether the two ends are the same.
fn same_end(end: Option<u64>, other: Option<u64>) -> bool
    ensures { result ≡ same_end end other }
{
    match (end, other) {
        (None, None) => true,
        (Some(clock), Some(later)) => clock == later,
        _ => false,
    }
}

/// The name that the policy gives to a predefined topic id (MQTT-SN 1.2, 6.7), where it gives one.
pub fn topic(policy: &Policy, id: u16) -> Option<&TopicName>
    ensures { option_copied result ≡ topic policy.now id }
{
    policy.topics.name(id)
}

/// The least predefined topic id of the name, where the policy gives it one.
pub fn topic_id(policy: &Policy, name: &TopicName) -> Option<u16>
    ensures { result ≡ topic_id policy.now name.now }
{
    policy.topics.id_of(name)
}
