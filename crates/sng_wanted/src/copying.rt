//! The filters that stand, in as little memory as they take.
ghost use Rattle.std.specs.Prelude.{◌≡◌, ◌↔◌, [], ◌∷◌, ◌++◌, IsTrue, IfOk, OnOk};
ghost use Rattle.sng_wanted.specs.Shown.{shown};

use crate::WantedFilter;
use crate::want::Want;
use indexmap::IndexMap;
use sng_text::{Compare, TopicFilter, all_same};
use std::alloc::{AllocError, Global};
use std::marker::Model;

/// The filters that stand for anybody, in order of first standing, each with the packet id of its open
/// SUBSCRIBE and whether one is owed. It is never changed, and has no room for more. Contracts see them.
#[derive(Debug, Drop)]
pub struct WantedCopy {
    entries: Vec<WantedFilter>,
}

impl Model for WantedCopy {
    ghost use Rattle.std.specs.Prelude.{List};
    ghost use Rattle.sng_history.specs.Links.{Wanted as Entry};

    ghost Value = { List Entry };

    ghost view = { λ w. w.entries.items };
}

impl WantedCopy {
    /// Those of the filters that stand, which are so many, in memory of its own for just these. Only memory
    /// can fail.
    pub(crate) fn of(
        alloc: Global,
        filters: &IndexMap<TopicFilter, Want>,
        count: usize,
    ) -> Result<WantedCopy, AllocError>
        ensures { IfOk result (λ c. c ≡ shown filters.now.entries) }
    {
        let mut entries = Vec::with_capacity(alloc, count)?;
        for (filter, want) in filters.iter() {
            copy_standing(&mut entries, filter, *want)?;
        }
        Ok(WantedCopy { entries })
    }

    /// The filters, in order.
    pub fn entries(&self) -> &[WantedFilter]
        ensures { result.now ≡ self.now }
    {
        self.entries.as_slice()
    }

    /// Whether no filter stands.
    pub fn is_empty(&self) -> bool
        ensures { IsTrue result ↔ (self.now ≡ []) }
    {
        self.entries.is_empty()
    }
}

impl Compare for WantedCopy {
    fn same(&self, other: &WantedCopy) -> bool {
        all_same(self.entries(), other.entries())
    }
}

/// Puts a copy of the filter behind the others, where it stands. Only memory can fail.
fn copy_standing(
    copies: &mut Vec<WantedFilter>,
    filter: &TopicFilter,
    want: Want,
) -> Result<(), AllocError>
    ensures { OnOk result (copies.new.items
        ≡ copies.old.items ++ shown ((filter.now, want) ∷ [])) }
{
    if let Want::Stands(stand) = want {
        copies.push(WantedFilter::new(filter.copy()?, stand))?;
    }
    Ok(())
}
