//! The policy in force: what is left of a policy at its clock, which rises. It is judged with no clock, and is
//! let go by what ends.
ghost use Rattle.std.specs.Prelude.{◌≡◌, ◌↔◌, ◌≤◌, false, IsTrue, IfOk, length};
ghost use Rattle.std.specs.Option.{option_copied};
ghost use Rattle.sng_grants.specs.Ends.{in_force, next_end};
ghost use Rattle.sng_grants.specs.Policies.{no_policy};
ghost use Rattle.sng_grants.specs.Sources.{is_reached, scope_of};
ghost use Rattle.sng_policy.specs.Grants.{lists, lists_source, publish_grant, source_grant};
ghost use Rattle.sng_policy.specs.Grants.{subscribe_grant, topic, topic_id};
ghost use Rattle.sng_policy.specs.Laws.{SaysOfFilter, JoinsReceiving};

use crate::names::grant_by;
use crate::subscriptions::subscribe_by;
use crate::{FilterGrant, NameGrant, Permission};
use sng_grants::{Limits, Policy, Scope, is_reached};
use sng_text::{ClientId, Compare, TopicFilter, TopicName};
use std::alloc::{AllocError, Global};
use std::marker::Model;

/// A policy without what has ended. Contracts see a policy. Beside it stands the first end that is still to
/// come, so that a clock that reaches none costs one comparison.
#[derive(Drop)]
pub struct InForce {
    policy: Policy,
    next: Option<u64>,
}

impl Model for InForce {
    ghost use Rattle.std.specs.Prelude.{◌≡◌};
    ghost use Rattle.sng_grants.specs.declared.policy.Policy.{Policy};
    ghost use Rattle.sng_grants.specs.Ends.{next_end};

    ghost Value = { Policy };

    ghost view = { λ f. f.policy };

    ghost invariant = { λ f. f.next ≡ next_end f.policy };
}

impl InForce {
    /// Nothing is granted, and no limit is set.
    pub fn new(alloc: Global) -> InForce
        ensures { result ≡ no_policy }
    {
        InForce::of(Policy::new(alloc))
    }

    /// The policy, of which nothing has ended yet. Takes no memory.
    pub fn of(policy: Policy) -> InForce
        ensures { result ≡ policy }
    {
        let next = policy.next_end();
        InForce { policy, next }
    }

    /// What is in force of the policy at this clock. Takes no memory.
    pub fn at(mut policy: Policy, clock: u64) -> InForce
        ensures { result ≡ in_force clock policy }
    {
        policy.end_at(clock);
        InForce::of(policy)
    }

    /// What is left of it.
    pub fn policy(&self) -> &Policy
        ensures { result.now ≡ self.now }
    {
        &self.policy
    }

    /// The limits that it sets.
    pub fn limits(&self) -> Limits
        ensures { result ≡ self.now.limits }
    {
        self.policy.limits()
    }

    /// Whether a part of it ends by this clock. Takes no memory.
    pub fn ends_by(&self, clock: u64) -> bool
        ensures value { result ≡ is_reached clock (next_end self.now) }
        ensures stays { result ≡ false → in_force clock self.now ≡ self.now }
    {
        is_reached(clock, self.next)
    }

    /// What is left of it at this clock, in memory of its own. Only memory can fail.
    pub fn left(&self, clock: u64) -> Result<InForce, AllocError>
        ensures { IfOk result (λ f. f ≡ in_force clock self.now) }
    {
        let policy = self.policy.copy()?;
        Ok(InForce::at(policy, clock))
    }

    /// An equal one, in memory of its own. Only memory can fail.
    pub fn copy(&self) -> Result<InForce, AllocError>
        ensures { IfOk result (λ f. f ≡ self.now) }
    {
        let policy = self.policy.copy()?;
        Ok(InForce {
            policy,
            next: self.next,
        })
    }

    /// Whether it lists the client. Takes no memory.
    pub fn lists(&self, client: &ClientId) -> bool
        ensures { result ≡ lists self.now client.now }
    {
        self.policy.client_scope(client).is_some()
    }

    /// Whether it lists the source with this IPv4 address. Takes no memory.
    pub fn lists_source(&self, source: [u8; 4]) -> bool
        ensures { result ≡ lists_source self.now source }
    {
        self.policy.source_scope(source).is_some()
    }

    /// The scope that it gives the client, where it lists it. Takes no memory.
    pub fn scope(&self, client: &ClientId) -> Option<&Scope>
        ensures { option_copied result ≡ scope_of self.now.clients client.now }
    {
        self.policy.client_scope(client)
    }

    /// What it says to a publish under the name by the client. Takes no memory.
    pub fn may_publish(&self, client: &ClientId, name: &TopicName) -> NameGrant
        ensures { result ≡ publish_grant self.now client.now name.now }
    {
        grant_by(Permission::Publish, self.policy.client_scope(client), name)
    }

    /// What it says to a publish under the name by the source with this IPv4 address. Takes no memory.
    pub fn source_may_publish(&self, source: [u8; 4], name: &TopicName) -> NameGrant
        ensures { result ≡ source_grant self.now source name.now }
    {
        grant_by(Permission::Publish, self.policy.source_scope(source), name)
    }

    /// What it says to a subscription of the client by the filter, as `may_subscribe` does of a policy.
    pub fn may_subscribe(
        &self,
        alloc: Global,
        client: &ClientId,
        filter: &TopicFilter,
    ) -> Result<FilterGrant, AllocError>
        ensures value { IfOk result (λ grant. grant ≡ subscribe_grant self.now client.now filter.now) }
        ensures meaning { IfOk result (SaysOfFilter (scope_of self.now.clients client.now) filter.now) }
        ensures joins { IfOk result (JoinsReceiving self.now client.now filter.now) }
    {
        let grant = subscribe_by(alloc, self.policy.client_scope(client), filter)?;
        Ok(grant)
    }

    /// The name that it gives to a predefined topic id (MQTT-SN 1.2, 6.7), where it gives one.
    pub fn topic(&self, id: u16) -> Option<&TopicName>
        ensures { option_copied result ≡ topic self.now id }
    {
        self.policy.topics.name(id)
    }

    /// The least predefined topic id of the name, where it gives one.
    pub fn topic_id(&self, name: &TopicName) -> Option<u16>
        ensures { result ≡ topic_id self.now name.now }
    {
        self.policy.topics.id_of(name)
    }
}

impl Compare for InForce {
    fn same(&self, other: &InForce) -> bool {
        self.policy.same(&other.policy)
    }
}
