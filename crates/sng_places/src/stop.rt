//! What ends the search for a fault.
use crate::{Flaw, Form, Location, Spot};
use std::alloc::AllocError;

/// A fault of a policy text: where it stands, and what is wrong there.
#[derive(Debug, Drop)]
pub struct Found {
    pub place: Location,
    pub flaw: Flaw,
}

/// What ends the search for a fault in a policy text.
#[derive(Debug, Drop)]
pub enum Stop {
    /// The first fault.
    At(Found),
    /// An allocation failed.
    Memory,
}

impl From<AllocError> for Stop {
    ghost use Rattle.std.specs.Prelude.{◌≡◌};
    ghost use Rattle.sng_places.specs.declared.stop.Stop.TheVariants.{Memory};

    ghost from_gives = { λ _ e. e ≡ Memory };

    fn from(_error: AllocError) -> Stop {
        Stop::Memory
    }
}

/// A fault in a scope: where in its value it stands, and what is wrong there.
#[derive(Debug, Drop)]
pub struct ScopeFound {
    pub form: Form,
    pub spot: Spot,
    pub flaw: Flaw,
}

/// What ends the search for a fault in a scope.
#[derive(Debug, Drop)]
pub enum ScopeStop {
    /// The first fault.
    At(ScopeFound),
    /// An allocation failed.
    Memory,
}

impl From<AllocError> for ScopeStop {
    ghost use Rattle.std.specs.Prelude.{◌≡◌};
    ghost use Rattle.sng_places.specs.declared.stop.ScopeStop.TheVariants.{Memory};

    ghost from_gives = { λ _ e. e ≡ Memory };

    fn from(_error: AllocError) -> ScopeStop {
        ScopeStop::Memory
    }
}

impl ScopeStop {
    ghost use Rattle.std.specs.Prelude.{◌≡◌};
    ghost use Rattle.sng_places.specs.ScopePlaces.{stop_at};

    /// The first fault is this.
    pub fn at(form: Form, spot: Spot, flaw: Flaw) -> ScopeStop
        ensures { result ≡ stop_at form spot flaw }
    {
        ScopeStop::At(ScopeFound { form, spot, flaw })
    }
}

impl Stop {
    ghost use Rattle.std.specs.Prelude.{◌≡◌};
    ghost use Rattle.sng_places.specs.Places.{stop_at};

    /// The first fault is this.
    pub fn at(place: Location, flaw: Flaw) -> Stop
        ensures { result ≡ stop_at place flaw }
    {
        Stop::At(Found { place, flaw })
    }
}
