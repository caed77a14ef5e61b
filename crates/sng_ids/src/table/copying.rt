//! An equal table in memory of its own, and whether two tables have the same ids.
ghost use Rattle.std.specs.Prelude.{◌≡◌, ◌↔◌, IfOk, IsTrue};

use crate::IdTable;
use indexmap::IndexMap;
use indexmap::map::Iter;
use sng_text::{Compare, TopicName};
use std::alloc::AllocError;

impl IdTable {
    /// A table of the same ids, in memory of its own and with no room made for more. Only memory can fail.
    pub fn copy(&self) -> Result<IdTable, AllocError>
        ensures { IfOk result (λ table. table.ids ≡ self.now.ids) }
    {
        let mut names = IndexMap::with_capacity(*self.names.allocator(), self.names.len())?;
        let mut rest = self.names.iter();
        while let Some((name, is_confirmed)) = rest.next() {
            names.insert(name.copy()?, *is_confirmed)?;
        }
        names.shrink_to_fit();
        Ok(IdTable { names })
    }

    /// Whether the two have the same ids, with the same ones confirmed. Takes no memory.
    pub fn same(&self, other: &IdTable) -> bool
        ensures { IsTrue result ↔ (self.now.ids ≡ other.now.ids) }
    {
        names_same(self.names.iter(), other.names.iter())
    }
}

/// Whether two lists of names, each with whether its id is confirmed, are the same.
fn names_same(some: Iter<'_, TopicName, bool>, others: Iter<'_, TopicName, bool>) -> bool
    ensures { IsTrue result ↔ (some.entry ≡ others.entry) }
{
    let mut some = some;
    let mut others = others;
    while let Some((name, is_confirmed)) = some.next() {
        let Some((other_name, other_is_confirmed)) = others.next() else {
            return false;
        };
        if !name.same(other_name) || *is_confirmed != *other_is_confirmed {
            return false;
        }
    }
    others.next().is_none()
}
