//! Predefined topics, found by topic id and by name (MQTT-SN 1.2, 6.7).
ghost use Rattle.std.specs.Prelude.{◌≡◌, ◌≤◌, ◌↔◌, ℕ, List, [], length, All, IsTrue, IfOk};
ghost use Rattle.std.specs.HashMap.{get};
ghost use Rattle.std.specs.Map.{keys_of};
ghost use Rattle.std.specs.Option.{option_copied};
ghost use Rattle.std.specs.Str.{bytes_eq};
ghost use Rattle.sng_grants.specs.Laws.{AreIdsInOrder};
ghost use Rattle.sng_grants.specs.Topics.{IsTopicId, name_of, id_of, indexed};

use crate::{Listed, MAX_TOPICS};
use indexmap::map::Iter;
use sng_text::TopicName;
use std::alloc::{AllocError, Global};
use std::collections::HashMap;
use std::marker::Model;

/// Topic names by predefined topic id.
pub type Names = Listed<u16, TopicName, MAX_TOPICS>;

/// The topic name of each predefined topic id, with an index by name. No id is one of the two that are
/// reserved (MQTT-SN 1.2, 5.3.11). Contracts see the list of ids with their names, in the order of the ids.
#[derive(Debug, Drop)]
pub struct Topics {
    names: Names,
    /// The index, which the topics of `new` do without. It lies apart, since it is large: so a policy is
    /// small, and with it each event, of which only one in many brings a policy.
    ids: Option<Box<Index, Global>>,
}

/// The least id of each name.
type Index = HashMap<TopicName, u16>;

impl Model for Topics {
    ghost use Rattle.std.specs.Prelude.{List, ℕ, ◌≡◌, All};
    ghost use Rattle.std.specs.HashMap.{get};
    ghost use Rattle.std.specs.Map.{keys_of};
    ghost use Rattle.std.specs.Str.{bytes_eq};
    ghost use Rattle.sng_grants.specs.Topics.{IsTopicId, id_of, indexed};

    ghost Value = { List (ℕ × List ℕ) };

    ghost view = { λ t. t.names };

    ghost invariant = { λ t. All IsTopicId (keys_of t.names)
        × ((name : List ℕ) → indexed t.ids (λ index. get bytes_eq index.value name) ≡ id_of t.names name) };
}

impl Topics {
    /// No topic.
    pub fn new(alloc: Global) -> Topics
        ensures { result ≡ [] }
    {
        Topics {
            names: Names::new(alloc),
            ids: None,
        }
    }

    /// The topics with these names, of ids that are not reserved. Only memory can fail.
    pub fn of(alloc: Global, names: Names) -> Result<Topics, AllocError>
        requires { All IsTopicId (keys_of names) }
        ensures { IfOk result (λ t. t ≡ names) }
    {
        let ids = Box::new(alloc, ids_of(alloc, &names)?)?;
        Ok(Topics {
            names,
            ids: Some(ids),
        })
    }

    /// How many topic ids are predefined. Takes no memory.
    pub fn len(&self) -> usize
        ensures len { result ≡ length self.now }
        ensures few { length self.now ≤ MAX_TOPICS }
        ensures ordered { AreIdsInOrder self.now }
        ensures ids { All IsTopicId (keys_of self.now) }
    {
        self.names.len()
    }

    /// Whether no topic id is predefined.
    pub fn is_empty(&self) -> bool
        ensures { IsTrue result ↔ (self.now ≡ []) }
    {
        self.names.is_empty()
    }

    /// The topic name of the id, where it is predefined. Takes no memory.
    pub fn name(&self, id: u16) -> Option<&TopicName>
        ensures { option_copied result ≡ name_of self.now id }
    {
        self.names.get(&id)
    }

    /// The least id of the name, where it has one. Takes no memory.
    pub fn id_of(&self, name: &TopicName) -> Option<u16>
        ensures { result ≡ id_of self.now name.now }
    {
        match &self.ids {
            None => None,
            Some(ids) => ids.get(name).copied(),
        }
    }

    /// The ids with their names, in the order of the ids.
    pub fn iter(&self) -> Iter<'_, u16, TopicName>
        ensures { result ≡ self.now }
    {
        self.names.iter()
    }

    /// Equal topics, in memory of their own. Only memory can fail.
    pub fn copy(&self) -> Result<Topics, AllocError>
        ensures { IfOk result (λ t. t ≡ self.now) }
    {
        let names = self.names.clone()?;
        let ids = copied_index(&self.ids)?;
        Ok(Topics { names, ids })
    }
}

/// An index that finds the same, in memory of its own, where there is one.
fn copied_index(ids: &Option<Box<Index, Global>>) -> Result<Option<Box<Index, Global>>, AllocError>
    ensures { IfOk result (λ copy. (name : List ℕ)
        → indexed copy (λ index. get bytes_eq index.value name)
        ≡ indexed ids.now (λ index. get bytes_eq index.value name)) }
{
    match ids {
        None => Ok(None),
        Some(ids) => {
            let copy = ids.clone()?;
            Ok(Some(copy))
        }
    }
}

/// The least id of each name.
fn ids_of(alloc: Global, names: &Names) -> Result<Index, AllocError>
    ensures { IfOk result (λ ids. (name : List ℕ) → get bytes_eq ids name ≡ id_of names.now name) }
{
    let mut ids = HashMap::new(alloc);
    for (id, name) in names.iter() {
        if !ids.contains_key(name) {
            ids.insert(name.copy()?, *id)?;
        }
    }
    Ok(ids)
}
