//! The topic ids of one client, and a name with the memory for its id (MQTT-SN 1.2, 6.5).
ghost use Rattle.std.specs.Prelude.{◌≡◌, ◌+◌, ◌<◌, ◌≤◌, [], false, length, IfOk};
ghost use Rattle.std.specs.Option.{option_copied};
ghost use Rattle.sng_ids.specs.declared.limits.TheConstants.{MAX_TOPIC_IDS};
ghost use Rattle.sng_ids.specs.Ids.{id_for, id_of, name_of, is_full_for, with_name, confirmed};

use sng_ids::{IdTable, MAX_TOPIC_IDS};
use sng_text::TopicName;
use std::alloc::{AllocError, Global};
use std::marker::Model;

/// A name that a client is to be told an id of, with the memory for all ids that it may be told: so to tell it
/// takes none. It lies apart, since few messages announce one, and what each of them opens is small then.
/// Contracts see the name.
#[derive(Debug, Drop)]
pub struct NewName {
    held: Box<Named, Global>,
}

#[derive(Debug, Drop)]
struct Named {
    name: TopicName,
    /// No ids, with room for as many as may be.
    table: IdTable,
}

impl Model for NewName {
    ghost use Rattle.std.specs.Prelude.{◌≡◌, ◌≤◌, ℕ, List, []};
    ghost use Rattle.sng_ids.specs.declared.limits.TheConstants.{MAX_TOPIC_IDS};

    ghost Value = { List ℕ };

    ghost view = { λ n. n.held.value.name };

    ghost invariant = { λ n. (n.held.value.table.ids ≡ []) × (MAX_TOPIC_IDS ≤ n.held.value.table.spare) };
}

impl NewName {
    /// The name with that memory. Only memory can fail.
    pub fn new(alloc: Global, name: TopicName) -> Result<NewName, AllocError>
        ensures { IfOk result (λ n. n ≡ name) }
    {
        let mut table = IdTable::new(alloc);
        table.room(MAX_TOPIC_IDS)?;
        let held = Box::new(alloc, Named { name, table })?;
        Ok(NewName { held })
    }

    /// The name.
    pub fn name(&self) -> &TopicName
        ensures { result.now ≡ self.now }
    {
        &self.held.name
    }

    /// The name, and the table with room for all ids.
    fn into_parts(self) -> (TopicName, IdTable)
        ensures name { result.0 ≡ self }
        ensures empty { result.1.ids ≡ [] }
        ensures room { MAX_TOPIC_IDS ≤ result.1.spare }
    {
        let Named { name, table } = Box::into_inner(self.held);
        (name, table)
    }
}

/// The topic ids of one client. Where it has none there need be no memory for any; with its first id it has room
/// for as many as may be, which comes with the name (`NewName`). Contracts see the list of the names, each with
/// whether its id is confirmed.
#[derive(Debug, Drop)]
pub struct ClientIds {
    table: IdTable,
}

impl Model for ClientIds {
    ghost use Rattle.std.specs.Prelude.{◌+◌, ◌<◌, ◌≤◌, length};
    ghost use Rattle.sng_ids.specs.declared.limits.TheConstants.{MAX_TOPIC_IDS};
    ghost use Rattle.sng_ids.specs.Ids.{Ids};

    ghost Value = { Ids };

    ghost view = { λ c. c.table.ids };

    ghost invariant = { λ c. 0 < length c.table.ids → MAX_TOPIC_IDS ≤ length c.table.ids + c.table.spare };
}

impl ClientIds {
    /// No id is given. Takes no memory.
    pub fn new(alloc: Global) -> ClientIds
        ensures { result ≡ [] }
    {
        ClientIds {
            table: IdTable::new(alloc),
        }
    }

    /// How many ids are given, `MAX_TOPIC_IDS` at the most.
    pub fn len(&self) -> usize
        ensures len { result ≡ length self.now }
        ensures within { length self.now ≤ MAX_TOPIC_IDS }
    {
        self.table.len()
    }

    /// The id that the name has or would get. Takes no memory.
    pub fn id_for(&self, name: &TopicName) -> u16
        ensures { result ≡ id_for name.now self.now }
    {
        self.table.id_for(name)
    }

    /// Whether the name has no id and `MAX_TOPIC_IDS` others have one. Takes no memory.
    pub fn is_full_for(&self, name: &TopicName) -> bool
        ensures { result ≡ is_full_for name.now self.now }
    {
        self.table.is_full_for(name)
    }

    /// The id of the name, where it has one that is confirmed. Takes no memory.
    pub fn id_of(&self, name: &TopicName) -> Option<u16>
        ensures { result ≡ id_of name.now self.now }
    {
        self.table.id_of(name)
    }

    /// The name that has the id, confirmed or not. Takes no memory.
    pub fn name_of(&self, id: u16) -> Option<&TopicName>
        ensures { option_copied result ≡ name_of id self.now }
    {
        self.table.name_of(id)
    }

    /// The same ids, in memory of their own for just these. Only memory can fail.
    pub(crate) fn copy(&self) -> Result<IdTable, AllocError>
        ensures { IfOk result (λ table. table.ids ≡ self.now) }
    {
        self.table.copy()
    }

    /// The name has an id from now on: its old one, or else the next, which is not confirmed then. Returns
    /// it. Takes no memory.
    pub fn give(&mut self, name: NewName) -> u16
        requires { is_full_for name self.old ≡ false }
        ensures id { result ≡ id_for name self.old }
        ensures ids { self.new ≡ with_name name self.old }
    {
        let id = self.table.id_for(name.name());
        if usize::from(id) <= self.table.len() {
            return id;
        }
        let (name, table) = name.into_parts();
        make_room(&mut self.table, table);
        match self.table.give(name) {
            Ok(id) => id,
            Err(_) => unreachable!(),
        }
    }

    /// Confirms the id. One that was not given changes nothing.
    pub fn confirm(&mut self, id: u16)
        ensures { self.new ≡ confirmed id self.old }
    {
        self.table.confirm(id);
    }

    /// No id is given any more.
    pub fn clear(&mut self)
        ensures { self.new ≡ [] }
    {
        self.table.clear();
    }
}

/// The table has room for all ids: where it has none, the fresh one takes its place. Takes no memory.
fn make_room(table: &mut IdTable, fresh: IdTable)
    requires room { 0 < length table.old.ids → MAX_TOPIC_IDS ≤ length table.old.ids + table.old.spare }
    requires empty { fresh.ids ≡ [] }
    requires fresh_room { MAX_TOPIC_IDS ≤ fresh.spare }
    ensures ids { table.new.ids ≡ table.old.ids }
    ensures room { MAX_TOPIC_IDS ≤ length table.new.ids + table.new.spare }
{
    if !table.is_empty() {
        return;
    }
    *table = fresh;
}
