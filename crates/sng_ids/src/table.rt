//! The table of a client's topic ids: an id for each name that was registered or announced (MQTT-SN 1.2,
//! 6.5).
ghost use Rattle.std.specs.Prelude.{◌≡◌, ◌↔◌, ◌≤◌, ◌+◌, ◌==◌, [], length, true, None, unwrap_or, IfOk, IsOk};
ghost use Rattle.std.specs.Prelude.{OnOk, OnErr, IsErrOf};
ghost use Rattle.std.specs.Option.{option_copied};
ghost use Rattle.sng_ids.specs.declared.limits.TheConstants.{MAX_TOPIC_IDS};
ghost use Rattle.sng_ids.specs.Ids.{id_for, place_of, is_full_for, with_name, confirmed, id_of, name_of};
ghost use Rattle.sng_ids.specs.Ids.{taken_back};

mod copying;

use crate::{IdFault, MAX_TOPIC_IDS};
use indexmap::IndexMap;
use sng_text::TopicName;
use std::alloc::{AllocError, Global};
use std::marker::Model;

/// The topic ids of one client. The names have ids from 1 on, in the order in which they were given, and some
/// ids are confirmed: the client is known to know them. Contracts see the list of the names, each with
/// whether it is confirmed, and the spare: for how many more names there is room at least.
#[derive(Debug, Drop)]
pub struct IdTable {
    names: IndexMap<TopicName, bool>,
}

impl Model for IdTable {
    ghost use Rattle.std.specs.Prelude.{◌≤◌, length};
    ghost use Rattle.indexmap.specs.IndexMap.{spare};
    ghost use Rattle.sng_ids.specs.declared.limits.TheConstants.{MAX_TOPIC_IDS};
    ghost use Rattle.sng_ids.specs.Ids.{Table};

    ghost Value = { Table };

    ghost view = { λ t. record { ids = t.names.entries; spare = spare t.names } };

    ghost invariant = { λ t. length t.names.entries ≤ MAX_TOPIC_IDS };
}

impl IdTable {
    /// A table without ids. Takes no memory.
    pub fn new(alloc: Global) -> IdTable
        ensures { result.ids ≡ [] }
    {
        IdTable {
            names: IndexMap::new(alloc),
        }
    }

    /// How many ids are given, `MAX_TOPIC_IDS` at the most. Takes no memory.
    pub fn len(&self) -> usize
        ensures len { result ≡ length self.now.ids }
        ensures within { length self.now.ids ≤ MAX_TOPIC_IDS }
    {
        self.names.len()
    }

    /// Whether no id is given. Takes no memory.
    pub fn is_empty(&self) -> bool
        ensures { result ≡ (length self.now.ids == 0) }
    {
        self.names.len() == 0
    }

    /// The id that the name has or would get. Takes no memory.
    pub fn id_for(&self, name: &TopicName) -> u16
        ensures { result ≡ id_for name.now self.now.ids }
    {
        self.place_for(name) as u16 + 1
    }

    /// Whether the name has no id and `MAX_TOPIC_IDS` others have one. Takes no memory.
    pub fn is_full_for(&self, name: &TopicName) -> bool
        ensures { result ≡ is_full_for name.now self.now.ids }
    {
        self.names.len() >= MAX_TOPIC_IDS && self.names.get_index_of(name).is_none()
    }

    /// The place that the name has or would get, the first being 0.
    fn place_for(&self, name: &TopicName) -> usize
        ensures place { result ≡ unwrap_or (place_of name.now self.now.ids) (length self.now.ids) }
        ensures within { result ≤ MAX_TOPIC_IDS }
    {
        match self.names.get_index_of(name) {
            Some(place) => place,
            None => self.names.len(),
        }
    }

    /// Makes room for so many more names. Only memory can fail; where it does, no room is lost.
    pub fn room(&mut self, count: usize) -> Result<(), AllocError>
        ensures ids { self.new.ids ≡ self.old.ids }
        ensures ok { OnOk result (count ≤ self.new.spare) }
        ensures there { count ≤ self.old.spare → IsOk result }
        ensures spare { self.old.spare ≤ self.new.spare }
    {
        self.names.reserve(count)
    }

    /// The id of the name: its old one, or else the next, the number of ids plus 1, which is not confirmed
    /// then. Full where `MAX_TOPIC_IDS` are given and the name has none, Memory where an allocation failed,
    /// which cannot be while there is room; nothing changed then.
    pub fn give(&mut self, name: TopicName) -> Result<u16, IdFault>
        ensures ok { IfOk result (λ id. (id ≡ id_for name self.old.ids)
            × (self.new.ids ≡ with_name name self.old.ids)) }
        ensures full { IsErrOf result IdFault.Full ↔ (is_full_for name self.old.ids ≡ true) }
        ensures memory { IsErrOf result IdFault.Memory
            → (place_of name self.old.ids ≡ None) × (self.old.spare ≡ 0) }
        ensures err { OnErr result (self.new.ids ≡ self.old.ids) }
        ensures spare { self.old.spare ≤ self.new.spare + 1 }
    {
        if let Some(place) = self.names.get_index_of(&name) {
            return Ok(place as u16 + 1);
        }
        let place = self.names.len();
        if place >= MAX_TOPIC_IDS {
            return Err(IdFault::Full);
        }
        match self.names.insert(name, false) {
            Ok(_) => Ok(place as u16 + 1),
            Err(_) => Err(IdFault::Memory),
        }
    }

    /// Confirms the id. One that was not given changes nothing. Takes no memory.
    pub fn confirm(&mut self, id: u16)
        ensures ids { self.new.ids ≡ confirmed id self.old.ids }
        ensures spare { self.old.spare ≤ self.new.spare }
    {
        if id == 0 {
            return;
        }
        let place = usize::from(id) - 1;
        if let Some(is_confirmed) = self.names.get_index_mut(place) {
            *is_confirmed = true;
        }
    }

    /// The id of the name, where it has one that is confirmed. Takes no memory.
    pub fn id_of(&self, name: &TopicName) -> Option<u16>
        ensures { result ≡ id_of name.now self.now.ids }
    {
        let (place, _, is_confirmed) = self.names.get_full(name)?;
        if *is_confirmed {
            Some(place as u16 + 1)
        } else {
            None
        }
    }

    /// The name that has the id, confirmed or not. Takes no memory.
    pub fn name_of(&self, id: u16) -> Option<&TopicName>
        ensures { option_copied result ≡ name_of id self.now.ids }
    {
        if id == 0 {
            return None;
        }
        let (name, _) = self.names.get_index(usize::from(id) - 1)?;
        Some(name)
    }

    /// Removes the newest id where it is not confirmed, which undoes a `give` that added it. Takes no memory.
    pub fn take_back(&mut self)
        ensures ids { self.new.ids ≡ taken_back self.old.ids }
        ensures spare { self.old.spare ≤ self.new.spare }
    {
        let before = self.names.len().saturating_sub(1);
        if let Some((_, false)) = self.names.get_index(before) {
            self.names.truncate(before);
        }
    }

    /// Removes every id. Takes no memory.
    pub fn clear(&mut self)
        ensures ids { self.new.ids ≡ [] }
        ensures spare { length self.old.ids + self.old.spare ≤ self.new.spare }
    {
        self.names.clear();
    }
}
