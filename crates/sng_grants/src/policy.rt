//! A policy: the grants and topics that are in force together.
ghost use Rattle.std.specs.Prelude.{◌≡◌, IfOk};
ghost use Rattle.std.specs.Option.{option_copied};
ghost use Rattle.sng_grants.specs.Ends.{in_force, next_end};
ghost use Rattle.sng_grants.specs.Policies.{ListsWithin, no_policy};
ghost use Rattle.sng_grants.specs.Sources.{scope_of, first_end};

use crate::{Grant, Limits, Listed, MAX_POLICY_CLIENTS, MAX_SOURCES, Scope, Topics, sooner};
use indexmap::map::Iter;
use sng_text::ClientId;
use std::alloc::{AllocError, Global};
use std::marker::Model;

/// The grant of each client that a policy lists, by client id. Contracts see the list of client ids with
/// their grants, in the byte order of the ids.
pub type Clients = Listed<ClientId, Grant, MAX_POLICY_CLIENTS>;

/// The grant of each source that a policy lists, by IPv4 address. Contracts see the list of addresses with
/// their grants, in their order.
pub type Sources = Listed<[u8; 4], Grant, MAX_SOURCES>;

/// Who may do what: clients and sources, each with its scope and the end of that, the names of predefined
/// topic ids, and the limits in force with them. No more of each is listed than these allow.
#[derive(Debug, Drop)]
pub struct Policy {
    pub clients: Clients,
    pub sources: Sources,
    pub topics: Topics,
    pub limits: Limits,
}

impl Model for Policy {
    ghost use Rattle.sng_grants.specs.Policies.{Policy as PolicyRecord, ListsWithin};

    ghost Value = { PolicyRecord };

    ghost view = { λ p. record {
      clients = p.clients;
      sources = p.sources;
      topics = p.topics;
      limits = p.limits;
    } };

    ghost invariant = { λ p. ListsWithin (record {
      clients = p.clients;
      sources = p.sources;
      topics = p.topics;
      limits = p.limits;
    }) };
}

impl Policy {
    /// A policy that grants nothing, and sets no limit.
    pub fn new(alloc: Global) -> Policy
        ensures { result ≡ no_policy }
    {
        Policy {
            clients: Clients::new(alloc),
            sources: Sources::new(alloc),
            topics: Topics::new(alloc),
            limits: Limits::new(),
        }
    }

    /// The limits that the policy sets.
    pub fn limits(&self) -> Limits
        ensures value { result ≡ self.now.limits }
        ensures within { ListsWithin self.now }
    {
        self.limits
    }

    /// The scope of the client, where it is listed, whenever that ends. Takes no memory.
    pub fn client_scope(&self, client: &ClientId) -> Option<&Scope>
        ensures { option_copied result ≡ scope_of self.now.clients client.now }
    {
        match self.clients.get(client) {
            None => None,
            Some(grant) => Some(&grant.scope),
        }
    }

    /// The scope of the client at this clock: none where it is not listed, or its scope has ended by then. Takes
    /// no memory.
    pub fn client_scope_at(&self, client: &ClientId, clock: u64) -> Option<&Scope>
        ensures { option_copied result ≡ scope_of (in_force clock self.now).clients client.now }
    {
        // `len` says that the clients are in order
        let _len = self.clients.len();
        match self.clients.get(client) {
            None => None,
            Some(grant) => grant.at(clock),
        }
    }

    /// The scope of the source with this IPv4 address, where it is listed, whenever that ends. Takes no memory.
    pub fn source_scope(&self, source: [u8; 4]) -> Option<&Scope>
        ensures { option_copied result ≡ scope_of self.now.sources source }
    {
        match self.sources.get(&source) {
            None => None,
            Some(grant) => Some(&grant.scope),
        }
    }

    /// The scope of the source with this IPv4 address at this clock: none where it is not listed, or its scope
    /// has ended by then. Takes no memory.
    pub fn source_scope_at(&self, source: [u8; 4], clock: u64) -> Option<&Scope>
        ensures { option_copied result ≡ scope_of (in_force clock self.now).sources source }
    {
        // `len` says that the sources are in order
        let _len = self.sources.len();
        match self.sources.get(&source) {
            None => None,
            Some(grant) => grant.at(clock),
        }
    }

    /// Only what has not ended by this clock stays listed. Takes no memory.
    pub fn end_at(&mut self, clock: u64)
        ensures { self.new ≡ in_force clock self.old }
    {
        self.clients.end_at(clock);
        self.sources.end_at(clock);
    }

    /// When the first of the grants ends, where one does. Takes no memory.
    pub fn next_end(&self) -> Option<u64>
        ensures { result ≡ next_end self.now }
    {
        sooner(
            first_end(self.clients.iter()),
            first_end(self.sources.iter()),
        )
    }

    /// An equal policy, in memory of its own. Only memory can fail.
    pub fn copy(&self) -> Result<Policy, AllocError>
        ensures { IfOk result (λ p. p ≡ self.now) }
    {
        let clients = self.clients.clone()?;
        let sources = self.sources.clone()?;
        let topics = self.topics.copy()?;
        Ok(Policy {
            clients,
            sources,
            topics,
            limits: self.limits,
        })
    }
}

/// When the first of these ends.
fn first_end<K>(listed: Iter<'_, K, Grant>) -> Option<u64>
    ensures { result ≡ first_end listed.entry }
{
    let mut first = None;
    for (_, grant) in listed {
        first = sooner(first, grant.until);
    }
    first
}
