//! The filters that stand for one client, with no memory for any before the first.
ghost use Rattle.std.specs.Prelude.{◌≡◌, [], IfOk, OnErr};
ghost use Rattle.sng_fan.specs.Subscriptions.{stands, without_filter, IsOneClients};
ghost use Rattle.sng_fan.specs.Greatest.{greatest_qos};

use sng_fan::Held;
use sng_fan::subscriptions::Subscriptions;
use sng_text::{Qos, TopicFilter, TopicName};
use std::alloc::{AllocError, Global};
use std::marker::Model;

/// The filters that stand for one client, in order of first standing, each once. Before the first there need be
/// no memory for any; with it there is room for as many as may stand. Contracts see the list.
#[derive(Debug, Drop)]
pub struct ClientFilters {
    /// None before the first.
    subscriptions: Option<Subscriptions>,
}

impl Model for ClientFilters {
    ghost use Rattle.std.specs.Prelude.{List};
    ghost use Rattle.sng_fan.specs.declared.held.Held.{Held};
    ghost use Rattle.sng_sessions.specs.Filters.{filters_in};

    ghost Value = { List Held };

    ghost view = { λ f. filters_in f.subscriptions };
}

impl ClientFilters {
    /// Nothing stands. Takes no memory.
    pub fn new() -> ClientFilters
        ensures { result ≡ [] }
    {
        ClientFilters {
            subscriptions: None,
        }
    }

    /// The filters that stand, in order of first standing. Takes no memory.
    pub fn filters(&self) -> &[Held]
        ensures value { result.now ≡ self.now }
        ensures once { IsOneClients self.now }
    {
        match &self.subscriptions {
            Some(subscriptions) => subscriptions.filters(),
            None => &[],
        }
    }

    /// The filters that stand, in memory of their own. Only memory can fail.
    pub fn copy(&self, alloc: Global) -> Result<Vec<Held>, AllocError>
        ensures { IfOk result (λ held. held.items ≡ self.now) }
    {
        match &self.subscriptions {
            Some(subscriptions) => subscriptions.copy(),
            None => Ok(Vec::new(alloc)),
        }
    }

    /// Whether the filter stands. Takes no memory.
    pub fn stands(&self, filter: &TopicFilter) -> bool
        ensures { result ≡ stands self.now filter.now }
    {
        match &self.subscriptions {
            Some(subscriptions) => subscriptions.stands(filter),
            None => false,
        }
    }

    /// The greatest QoS among the filters that match the name, where one matches. Takes no memory.
    pub fn greatest(&self, name: &TopicName) -> Option<Qos>
        ensures { result ≡ greatest_qos self.now name.now }
    {
        match &self.subscriptions {
            Some(subscriptions) => subscriptions.greatest(name),
            None => None,
        }
    }

    /// Takes the filters out, with room for as many as may stand, for `put` to bring them back. An `Err` is a
    /// failed allocation; nothing changed.
    pub fn take(&mut self, alloc: Global) -> Result<Subscriptions, AllocError>
        ensures ok { IfOk result (λ subscriptions. subscriptions ≡ self.old) }
        ensures err { OnErr result (self.new ≡ self.old) }
    {
        match self.subscriptions.take() {
            Some(subscriptions) => Ok(subscriptions),
            None => Subscriptions::new(alloc),
        }
    }

    /// These stand from now on. Takes no memory.
    pub fn put(&mut self, subscriptions: Subscriptions)
        ensures { self.new ≡ subscriptions }
    {
        self.subscriptions = Some(subscriptions);
    }

    /// Ends the subscription to the filter, where there is one. Takes no memory.
    pub fn end(&mut self, filter: &TopicFilter)
        ensures { self.new ≡ without_filter self.old filter.now }
    {
        if let Some(subscriptions) = &mut self.subscriptions {
            subscriptions.end(filter);
        }
    }

    /// Ends every subscription.
    pub fn clear(&mut self)
        ensures { self.new ≡ [] }
    {
        self.subscriptions = None;
    }
}
