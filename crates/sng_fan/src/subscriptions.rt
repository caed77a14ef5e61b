//! The filters that stand for one client.
ghost use Rattle.std.specs.Prelude.{◌≡◌, ◌≤◌, ◌⊎◌, [], true, false, length, IfOk, OnOk, OnErr};
ghost use Rattle.std.specs.List.{position_or_len};
ghost use Rattle.sng_fan.specs.declared.limits.TheConstants.{MAX_SUBSCRIPTIONS};
ghost use Rattle.sng_fan.specs.Subscriptions.{has_text, stands, is_full, with_filter, without_filter};
ghost use Rattle.sng_fan.specs.Subscriptions.{IsOneClients};
ghost use Rattle.sng_fan.specs.Greatest.{greatest_from, greatest_qos};

use crate::greatest::raised;
use crate::{FanFault, Held, MAX_SUBSCRIPTIONS};
use sng_text::{Qos, TopicFilter, TopicName, matches};
use std::alloc::{AllocError, Global};
use std::marker::Model;

/// The filters that stand for one client, in order of first standing, each once. Room for as many as may
/// stand is made once, so no later call but `copy` takes memory. Contracts see the list.
#[derive(Debug, Drop)]
pub struct Subscriptions {
    held: Vec<Held>,
}

impl Model for Subscriptions {
    ghost use Rattle.std.specs.Prelude.{◌≤◌, List, vec_capacity};
    ghost use Rattle.sng_fan.specs.declared.held.Held.{Held};
    ghost use Rattle.sng_fan.specs.declared.limits.TheConstants.{MAX_SUBSCRIPTIONS};
    ghost use Rattle.sng_fan.specs.Subscriptions.{IsOneClients};

    ghost Value = { List Held };

    ghost view = { λ s. s.held.items };

    ghost invariant = { λ s. IsOneClients s.held.items × (MAX_SUBSCRIPTIONS ≤ vec_capacity s.held) };
}

impl Subscriptions {
    /// Nothing stands. Only memory can fail.
    pub fn new(alloc: Global) -> Result<Subscriptions, AllocError>
        ensures { IfOk result (λ s. s ≡ []) }
    {
        Ok(Subscriptions {
            held: Vec::with_capacity(alloc, MAX_SUBSCRIPTIONS)?,
        })
    }

    /// The filters that stand, in order of first standing.
    pub fn filters(&self) -> &[Held]
        ensures value { result.now ≡ self.now }
        ensures once { IsOneClients self.now }
    {
        self.held.as_slice()
    }

    /// The filters that stand, in memory of their own. Only memory can fail.
    pub fn copy(&self) -> Result<Vec<Held>, AllocError>
        ensures { IfOk result (λ held. held.items ≡ self.now) }
    {
        let mut copies = Vec::with_capacity(*self.held.allocator(), self.held.len())?;
        for held in &self.held {
            copies.push(held.copy()?)?;
        }
        Ok(copies)
    }

    /// Whether the filter stands.
    pub fn stands(&self, filter: &TopicFilter) -> bool
        ensures { result ≡ stands self.now filter.now }
    {
        self.held.iter().any(|held| held.has_text(filter))
    }

    /// Lets the filter stand at this QoS. Where it stood it keeps its place. Full exactly where
    /// `MAX_SUBSCRIPTIONS` others stand; nothing changes then.
    pub fn add(&mut self, filter: TopicFilter, qos: Qos) -> Result<(), FanFault>
        ensures ok { OnOk result ((is_full self.old filter ≡ false)
            × (self.new ≡ with_filter self.old filter qos)) }
        ensures err { OnErr result ((is_full self.old filter ≡ true) × (self.new ≡ self.old)) }
    {
        let place = place_of(&self.held, &filter);
        if place < self.held.len() {
            let held = &mut self.held[place];
            held.qos = qos;
            return Ok(());
        }
        if self.held.len() >= MAX_SUBSCRIPTIONS {
            return Err(FanFault::Full);
        }
        self.held.push_reserved(Held { filter, qos });
        Ok(())
    }

    /// Ends the subscription to the filter, and returns whether there was one.
    pub fn end(&mut self, filter: &TopicFilter) -> bool
        ensures stood { result ≡ stands self.old filter.now }
        ensures rest { self.new ≡ without_filter self.old filter.now }
    {
        let before = self.held.len();
        self.held.retain(|held| !held.has_text(filter));
        self.held.len() < before
    }

    /// Ends every subscription.
    pub fn clear(&mut self)
        ensures { self.new ≡ [] }
    {
        self.held.clear();
    }

    /// The greatest QoS among the filters that match the name, where one matches.
    pub fn greatest(&self, name: &TopicName) -> Option<Qos>
        ensures { result ≡ greatest_qos self.now name.now }
    {
        greatest(&self.held, name)
    }
}

/// Where the filter is, or how many stand.
fn place_of(held: &[Held], filter: &TopicFilter) -> usize
    ensures { result ≡ position_or_len (has_text filter.now) held.now }
{
    held.iter().take_while(|one| !one.has_text(filter)).count()
}

fn greatest(held: &[Held], name: &TopicName) -> Option<Qos>
    ensures { result ≡ greatest_qos held.now name.now }
{
    let mut greatest = None;
    for one in held {
        if matches(&one.filter, name) {
            greatest = Some(raised(greatest, one.qos));
        }
    }
    greatest
}
