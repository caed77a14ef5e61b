//! The open MsgIds of a client, by which a publish at QoS 2 is told from its repeats (MQTT 3.1.1, 4.3.3;
//! MQTT-SN 1.2, 6.6).
ghost use Rattle.std.specs.Prelude.{◌≡◌, ◌↔◌, ◌||◌, IsTrue, [], not, length};
ghost use Rattle.std.specs.List.{position_or_len};
ghost use Rattle.sng_states.specs.OpenIds.{is_id, has_id, is_full_for, is_from, admitted, without_id};

use crate::MAX_OPEN_IDS;
use arrayvec::ArrayVec;
use std::marker::Model;

/// The MsgIds of a client's publishes at QoS 2 that it has not released yet: a set of at most `MAX_OPEN_IDS`
/// of them, 0 among those that may be. No call takes memory. Contracts see the ids, the least first.
#[derive(Debug, Drop)]
pub struct OpenIds {
    ids: ArrayVec<u16, MAX_OPEN_IDS>,
}

impl Model for OpenIds {
    ghost use Rattle.std.specs.Prelude.{◌≡◌, true, List, ℕ};
    ghost use Rattle.sng_states.specs.OpenIds.{ascends};

    ghost Value = { List ℕ };

    ghost view = { λ o. o.ids.items };

    ghost invariant = { λ o. ascends o.ids.items ≡ true };
}

impl OpenIds {
    /// No id is open.
    pub fn new() -> OpenIds
        ensures { result ≡ [] }
    {
        OpenIds {
            ids: ArrayVec::new(),
        }
    }

    /// Whether the id is open.
    pub fn has(&self, id: u16) -> bool
        ensures { result ≡ has_id id self.now }
    {
        self.ids.iter().any(|one| *one == id)
    }

    /// Whether the id is not open and `MAX_OPEN_IDS` others are.
    pub fn is_full_for(&self, id: u16) -> bool
        ensures { result ≡ is_full_for id self.now }
    {
        !self.has(id) && self.ids.is_full()
    }

    /// Opens the id, and returns whether it is open then. Where it was open nothing changes; where
    /// `MAX_OPEN_IDS` others are open nothing changes either, and the answer is false.
    pub fn admit(&mut self, id: u16) -> bool
        ensures is_open { result ≡ not (is_full_for id self.old) }
        ensures after { self.new ≡ admitted id self.old }
    {
        if self.has(id) {
            return true;
        }
        if self.ids.is_full() {
            return false;
        }
        let place = place_of(&self.ids, id);
        self.ids.insert(place, id);
        true
    }

    /// Closes the id, and returns whether it was open.
    pub fn close(&mut self, id: u16) -> bool
        ensures was_open { result ≡ has_id id self.old }
        ensures after { self.new ≡ without_id id self.old }
    {
        let place = place_among(&self.ids, id);
        if place >= self.ids.len() {
            return false;
        }
        self.ids.remove(place);
        true
    }

    /// Closes every id.
    pub fn clear(&mut self)
        ensures { self.new ≡ [] }
    {
        self.ids.clear();
    }

    /// The same ids, open in a set of their own.
    pub fn copy(&self) -> OpenIds
        ensures { result ≡ self.now }
    {
        let mut copies = ArrayVec::new();
        for id in self.ids.as_slice() {
            copies.push(*id);
        }
        OpenIds { ids: copies }
    }

    /// Whether the same ids are open in both.
    pub fn same(&self, other: &OpenIds) -> bool
        ensures { IsTrue result ↔ (self.now ≡ other.now) }
    {
        self.ids.as_slice() == other.ids.as_slice()
    }
}

/// Where the id is, or how many are open.
fn place_among(ids: &[u16], id: u16) -> usize
    ensures { result ≡ position_or_len (is_id id) ids.now }
{
    ids.iter().take_while(|one| **one != id).count()
}

/// Where the id has its place in the order: behind those that are less.
fn place_of(ids: &[u16], id: u16) -> usize
    ensures { result ≡ position_or_len (is_from id) ids.now }
{
    ids.iter().take_while(|one| **one < id).count()
}
