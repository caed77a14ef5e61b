//! What a policy keeps of a client or a source: its scope, and the end of that.
ghost use Rattle.std.specs.Prelude.{◌≡◌};
ghost use Rattle.std.specs.Option.{option_copied};
ghost use Rattle.sng_grants.specs.Sources.{endless, is_reached, scope_left, sooner};

use crate::Scope;
use std::alloc::AllocError;

/// A scope that may end.
#[derive(Debug, Drop)]
pub struct Grant {
    pub scope: Scope,
    /// The end, in ms of the clock that the policy is read at: from then on it is as if nothing were listed
    /// here. It never ends where there is none.
    pub until: Option<u64>,
}

impl Grant {
    /// A scope that never ends.
    pub fn of(scope: Scope) -> Grant
        ensures { result ≡ endless scope }
    {
        Grant { scope, until: None }
    }

    /// The scope, unless it has ended by this clock.
    pub fn at(&self, clock: u64) -> Option<&Scope>
        ensures { option_copied result ≡ scope_left clock self.now }
    {
        if is_reached(clock, self.until) {
            None
        } else {
            Some(&self.scope)
        }
    }
}

impl Clone for Grant {
    ghost is_clone = { λ grant copy. copy ≡ grant };

    fn clone(&self) -> Result<Grant, AllocError> {
        let scope = self.scope.clone()?;
        Ok(Grant {
            scope,
            until: self.until,
        })
    }
}

/// Whether the clock has reached the end.
pub fn is_reached(clock: u64, end: Option<u64>) -> bool
    ensures { result ≡ is_reached clock end }
{
    match end {
        None => false,
        Some(end) => end <= clock,
    }
}

/// The sooner of two ends, where there are any.
pub fn sooner(end: Option<u64>, other: Option<u64>) -> Option<u64>
    ensures { result ≡ sooner end other }
{
    match (end, other) {
        (None, _) => other,
        (Some(_), None) => end,
        (Some(first), Some(second)) => { if first <= second { end } else { other } }
    }
}
