//! A scope: pairs of a topic filter and what it permits (RFC 9431, 2.3; RFC 9237, 2).
ghost use Rattle.std.specs.Prelude.{◌≡◌, ◌<◌, ◌≤◌, ◌↔◌, true, [], ◌∷◌, ◌++◌, length, All, IsTrue, IfOk, OnOk};
ghost use Rattle.std.specs.Prelude.{OnErr};
ghost use Rattle.sng_text.specs.Texts.{is_filter};
ghost use Rattle.sng_cover.specs.Gathered.{IsProfile};
ghost use Rattle.sng_grants.specs.Scopes.{subscribed};

use crate::MAX_PAIRS;
use sng_cover::Profile;
use sng_text::TopicFilter;
use std::alloc::{AllocError, AllocFailed, Global};
use std::marker::Model;

/// A topic filter with what it permits: both, one or nothing.
#[derive(Debug, Drop, PartialEq, Eq)]
pub struct Pair {
    pub filter: TopicFilter,
    pub publishes: bool,
    pub subscribes: bool,
}

impl Clone for Pair {
    ghost is_clone = { λ pair copy. copy ≡ pair };

    fn clone(&self) -> Result<Pair, AllocError> {
        let filter = self.filter.copy()?;
        Ok(Pair {
            filter,
            publishes: self.publishes,
            subscribes: self.subscribes,
        })
    }
}

/// What is granted to one client or source: at most `MAX_PAIRS` pairs. Contracts see them, in order. Beside
/// them stands the profile of the filters with `sub`, so that no question about the scope makes it anew.
#[derive(Debug, Drop)]
pub struct Scope {
    pairs: Vec<Pair>,
    profile: Profile,
}

impl Model for Scope {
    ghost use Rattle.std.specs.Prelude.{List};
    ghost use Rattle.sng_grants.specs.declared.scope.Pair.{Pair};
    ghost use Rattle.sng_cover.specs.Gathered.{IsProfile};
    ghost use Rattle.sng_grants.specs.Scopes.{IsScope, subscribed};

    ghost Value = { List Pair };

    ghost view = { λ s. s.pairs.items };

    ghost invariant = { λ s. IsScope s.pairs.items × IsProfile s.profile (subscribed s.pairs.items) };
}

impl Scope {
    /// A scope that grants nothing.
    pub fn new(alloc: Global) -> Scope
        ensures { result ≡ [] }
    {
        Scope {
            pairs: Vec::new(alloc),
            profile: Profile::new(),
        }
    }

    /// Whether there is no place for one more pair.
    pub fn is_full(&self) -> bool
        ensures full { IsTrue result ↔ (length self.now ≡ MAX_PAIRS) }
        ensures room { length self.now ≤ MAX_PAIRS }
    {
        self.pairs.len() == MAX_PAIRS
    }

    /// One more pair, behind those that are there. An `Err` leaves the scope as it was.
    pub fn push(&mut self, pair: Pair) -> Result<(), AllocFailed<Pair>>
        requires { length self.old < MAX_PAIRS }
        ensures ok { OnOk result (self.new ≡ self.old ++ pair ∷ []) }
        ensures err { OnErr result (self.new ≡ self.old) }
    {
        // `text` says that the filter is one
        let _text = pair.filter.text();
        let mut profile = self.profile;
        if pair.subscribes {
            profile.add(&pair.filter);
        }
        self.pairs.push(pair)?;
        self.profile = profile;
        Ok(())
    }

    /// The pairs, in order.
    pub fn pairs(&self) -> &[Pair]
        ensures value { result.now ≡ self.now }
        ensures few { length self.now ≤ MAX_PAIRS }
        ensures filters { All (λ pair. is_filter pair.filter ≡ true) self.now }
    {
        self.pairs.as_slice()
    }

    /// What a gap in the union of the filters with `sub` depends on, beside what is asked.
    pub fn profile(&self) -> &Profile
        ensures { IsProfile result.now (subscribed self.now) }
    {
        &self.profile
    }
}

impl Clone for Scope {
    ghost is_clone = { λ scope copy. copy ≡ scope };

    fn clone(&self) -> Result<Scope, AllocError> {
        let pairs = self.pairs.clone()?;
        Ok(Scope {
            pairs,
            profile: self.profile,
        })
    }
}
