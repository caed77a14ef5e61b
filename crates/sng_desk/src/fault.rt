//! Why an act was refused.
ghost use Rattle.std.specs.Prelude.{◌≡◌};

use sng_book::ReturnedEvent;
use thiserror::Error;

/// Why an act was refused.
#[derive(Clone, Copy, Debug, PartialEq, Eq, Error)]
pub enum ActFault {
    /// An allocation failed.
    #[error("out of memory")]
    Memory,
    /// The book has as many rows as it may have, or the share has counted 2^64 - 1.
    #[error("the book is full")]
    BookFull,
}

/// An event that was not acted on, and why.
#[derive(Debug, Drop, Error)]
#[error("{fault}")]
pub struct NotActed {
    /// Why it was not acted on.
    pub fault: ActFault,
    /// The event, as it was handed in.
    pub event: ReturnedEvent,
}

impl From<NotActed> for ActFault {
    ghost from_gives = { λ not fault. fault ≡ not.fault };

    fn from(not: NotActed) -> ActFault {
        not.fault
    }
}
