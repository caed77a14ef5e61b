//! What a policy lists by key.
ghost use Rattle.std.specs.Prelude.{◌≡◌, ◌+◌, ◌<◌, ◌≤◌, ◌↔◌, IsTrue, [], ◌∷◌, length, IfOk, OnOk, OnErr};
ghost use Rattle.std.specs.BTreeMap.{is_at, insert_entry};
ghost use Rattle.std.specs.List.Sorted.{IsStrictlySortedBy};
ghost use Rattle.std.specs.Map.{lookup, keys_of};
ghost use Rattle.std.specs.Option.{option_copied};
ghost use Rattle.indexmap.specs.IndexMap.{insert_entry as hashed_entry};
ghost use Rattle.sng_grants.specs.Listed.{AreCopies, entries_in};
ghost use Rattle.sng_grants.specs.Sources.{left_at};

use crate::{Grant, Key, is_reached};
use indexmap::IndexMap;
use indexmap::map::{Iter, Slice};
use std::alloc::{AllocError, Global};
use std::collections::BTreeMap;
use std::hash::Hash;
use std::marker::Model;

/// Values by key, at most so many. Contracts see the list of keys with their values, in the order of the
/// keys.
#[derive(Debug, Drop)]
pub struct Listed<K: Ord + Hash, V, const MOST: usize> {
    alloc: Global,
    /// The entries in the order of their keys, found by hash. They lie apart, and are absent while nothing was
    /// listed, since the table is large: so a policy is small, and with it each event, of which only one in
    /// many brings a policy.
    entries: Option<Box<IndexMap<K, V>, Global>>,
}

impl<K: Ord + Hash, V, const MOST: usize> Model for Listed<K, V, MOST> {
    ghost use Rattle.std.specs.Prelude.{List, ◌≤◌, length};
    ghost use Rattle.std.specs.List.Sorted.{IsStrictlySortedBy};
    ghost use Rattle.std.specs.Map.{keys_of};
    ghost use Rattle.sng_grants.specs.Listed.{entries_in};

    ghost Value = { List (K × V) };

    ghost view = { λ l. entries_in l.entries (λ table. table.value.entries) };

    ghost invariant = { λ l. (length (entries_in l.entries (λ table. table.value.entries)) ≤ MOST)
        × IsStrictlySortedBy K.cmp (keys_of (entries_in l.entries (λ table. table.value.entries))) };
}

impl<K: Ord + Hash + Drop, V: Drop, const MOST: usize> Listed<K, V, MOST> {
    /// Nothing is listed.
    pub fn new(alloc: Global) -> Listed<K, V, MOST>
        ensures { result ≡ [] }
    {
        Listed {
            alloc,
            entries: None,
        }
    }

    /// What the tree has, in its order; each entry costs one append.
    pub fn of(alloc: Global, entries: BTreeMap<K, V>) -> Result<Listed<K, V, MOST>, AllocError>
        requires { length entries.entries ≤ MOST }
        ensures { IfOk result (λ l. l ≡ entries.entries) }
    {
        if entries.is_empty() {
            return Ok(Listed::new(alloc));
        }
        let table = table_of(alloc, entries)?;
        Ok(Listed {
            alloc,
            entries: Some(table),
        })
    }

    /// How many keys are listed. Takes no memory.
    pub fn len(&self) -> usize
        ensures len { result ≡ length self.now }
        ensures few { length self.now ≤ MOST }
        ensures ordered { IsStrictlySortedBy K.cmp (keys_of self.now) }
    {
        match &self.entries {
            None => 0,
            Some(entries) => entries.len(),
        }
    }

    /// Whether no key is listed.
    pub fn is_empty(&self) -> bool
        ensures { IsTrue result ↔ (self.now ≡ []) }
    {
        match &self.entries {
            None => true,
            Some(entries) => entries.is_empty(),
        }
    }

    /// The value of the key, where it is listed. Takes no memory.
    pub fn get(&self, key: &K) -> Option<&V>
        ensures { option_copied result ≡ lookup (is_at (K.cmp key.now)) self.now }
    {
        match &self.entries {
            None => None,
            Some(entries) => found(entries, key),
        }
    }

    /// The keys with their values, in the order of the keys.
    pub fn iter(&self) -> Iter<'_, K, V>
        ensures { result ≡ self.now }
    {
        match &self.entries {
            None => Slice::new().iter(),
            Some(entries) => entries.iter(),
        }
    }

    /// Lists the key with its value, in the place of one that it had. An `Err` leaves all as it was. A new
    /// key moves each entry that stands behind its place, and one behind all others moves none: `of` is for
    /// many keys in no order.
    pub fn insert(&mut self, key: K, value: V) -> Result<(), AllocError>
        requires { length self.old < MOST }
        ensures ok { OnOk result (self.new ≡ insert_entry K.cmp self.old key value) }
        ensures one_more { OnOk result (length self.new ≤ length self.old + 1) }
        ensures err { OnErr result (self.new ≡ self.old) }
    {
        match &mut self.entries {
            None => {
                let entries = first_entry(self.alloc, key, value)?;
                self.entries = Some(entries);
                Ok(())
            }
            Some(entries) => put(entries, key, value),
        }
    }
}

/// The value of the key. One entry is compared with the key, which costs less than to look it up by hash.
fn found<'a, K: Ord + Hash, V>(table: &'a IndexMap<K, V>, key: &K) -> Option<&'a V>
    ensures { option_copied result ≡ lookup (K.eq key.now) table.now.entries }
{
    if table.len() > 1 {
        return table.get(key);
    }
    let (one, value) = table.get_index(0)?;
    if key == one { Some(value) } else { None }
}

/// A table of what the tree has, in its order, with no room made for more.
fn table_of<K: Ord + Hash + Drop, V: Drop>(
    alloc: Global,
    entries: BTreeMap<K, V>,
) -> Result<Box<IndexMap<K, V>, Global>, AllocError>
    ensures same { IfOk result (λ table. table.value.entries ≡ entries.entries) }
    ensures ordered { IfOk result (λ table. IsStrictlySortedBy K.cmp (keys_of table.value.entries)) }
{
    let mut table = IndexMap::with_capacity(alloc, entries.len())?;
    for (key, value) in entries {
        add(&mut table, key, value)?;
    }
    Ok(Box::new(alloc, table)?)
}

/// The key has the value. It goes behind the others, where it is none of them.
fn add<K: Ord + Hash + Drop, V: Drop>(
    table: &mut IndexMap<K, V>,
    key: K,
    value: V,
) -> Result<(), AllocError>
    ensures { OnOk result (table.new.entries ≡ hashed_entry K.eq table.old.entries key value) }
{
    table.insert(key, value)?;
    Ok(())
}

/// A table with this entry alone.
fn first_entry<K: Ord + Hash + Drop, V: Drop>(
    alloc: Global,
    key: K,
    value: V,
) -> Result<Box<IndexMap<K, V>, Global>, AllocError>
    ensures { IfOk result (λ table. table.value.entries ≡ (key, value) ∷ []) }
{
    let mut table = IndexMap::new(alloc);
    table.insert(key, value)?;
    Ok(Box::new(alloc, table)?)
}

/// The key has the value, in its place in the order. An `Err` leaves all as it was.
fn put<K: Ord + Hash + Drop, V: Drop>(
    table: &mut IndexMap<K, V>,
    key: K,
    value: V,
) -> Result<(), AllocError>
    requires { IsStrictlySortedBy K.cmp (keys_of table.old.entries) }
    ensures ok { OnOk result (table.new.entries ≡ insert_entry K.cmp table.old.entries key value) }
    ensures err { OnErr result (table.new.entries ≡ table.old.entries) }
{
    match table.binary_search_keys(&key) {
        Ok(_) => table.insert(key, value)?,
        Err(place) => table.shift_insert(place, key, value)?,
    };
    Ok(())
}

impl<K: Ord + Hash + Drop, const MOST: usize> Listed<K, Grant, MOST> {
    /// Only what has not ended by this clock stays listed. Takes no memory.
    pub fn end_at(&mut self, clock: u64)
        ensures { self.new ≡ left_at clock self.old }
    {
        if let Some(entries) = &mut self.entries {
            leave(entries, clock);
        }
    }
}

/// Only what has not ended by this clock is left.
fn leave<K: Ord + Hash + Drop>(table: &mut IndexMap<K, Grant>, clock: u64)
    ensures { table.new.entries ≡ left_at clock table.old.entries }
{
    table.retain(|_, grant| !is_reached(clock, grant.until));
}

impl<K: Key, V: Clone, const MOST: usize> Clone for Listed<K, V, MOST> {
    ghost use Rattle.sng_grants.specs.Listed.{AreCopies};

    // The same keys in the same order, with clones of their values.
    ghost is_clone = { λ listed copy. AreCopies V.is_clone listed copy };

    /// An `Err` tells that memory was wanting, for the keys or the table, or is that of a value's clone.
    fn clone(&self) -> Result<Listed<K, V, MOST>, AllocError> {
        match &self.entries {
            None => Ok(Listed {
                alloc: self.alloc,
                entries: None,
            }),
            Some(entries) => {
                let copy = copy_of(self.alloc, entries)?;
                Ok(Listed {
                    alloc: self.alloc,
                    entries: Some(copy),
                })
            }
        }
    }
}

/// A table of the same keys in the same order, with clones of their values.
fn copy_of<K: Key, V: Clone>(
    alloc: Global,
    table: &IndexMap<K, V>,
) -> Result<Box<IndexMap<K, V>, Global>, AllocError>
    ensures { IfOk result (λ copy. AreCopies V.is_clone table.now.entries copy.value.entries) }
{
    let mut copy = IndexMap::with_capacity(alloc, table.len())?;
    let mut rest = table.iter();
    while let Some((key, value)) = rest.next() {
        add_copy(&mut copy, key, value)?;
    }
    Ok(Box::new(alloc, copy)?)
}

/// As `add`, with a copy of the key and a clone of the value.
fn add_copy<K: Key, V: Clone>(
    table: &mut IndexMap<K, V>,
    key: &K,
    value: &V,
) -> Result<(), AllocError>
    ensures { OnOk result ((copy : V) × (V.is_clone value.now copy)
        × (table.new.entries ≡ hashed_entry K.eq table.old.entries key.now copy)) }
{
    let key = key.copied()?;
    let value = value.clone()?;
    add(table, key, value)
}
