//! Why a script is not read on, or not played on.
use crate::script::LineFault;
use std::alloc::AllocError;

/// Why a script is not read on, or not played on.
#[derive(Clone, Copy, Debug, PartialEq, Eq)]
pub enum Obstacle {
    /// The line could not be read.
    Unreadable,
    /// Allocation failed.
    OutOfMemory,
    /// Input or output failed.
    Failed,
}

impl From<AllocError> for Obstacle {
    ghost use Rattle.std.specs.Prelude.{◌≡◌};
    ghost use Rattle.sng_script.specs.declared.obstacle.Obstacle.TheVariants.{OutOfMemory};

    ghost from_gives = { λ _ obstacle. obstacle ≡ OutOfMemory };

    fn from(_error: AllocError) -> Obstacle {
        Obstacle::OutOfMemory
    }
}

impl From<LineFault> for Obstacle {
    ghost use Rattle.std.specs.Prelude.{◌≡◌};
    ghost use Rattle.sng_script.specs.Obstacles.{obstacle_of};

    ghost from_gives = { λ fault obstacle. obstacle ≡ obstacle_of fault };

    fn from(fault: LineFault) -> Obstacle {
        match fault {
            LineFault::Unreadable => Obstacle::Unreadable,
            LineFault::Memory => Obstacle::OutOfMemory,
        }
    }
}
