//! A message with the memory that it takes where it waits.
ghost use Rattle.std.specs.Prelude.{◌≡◌, [], ◌∷◌, IfOk};

use crate::Waiting;
use std::alloc::{AllocError, Global};
use std::collections::LinkedList;
use std::marker::Model;

/// A message that is to wait for a client, with its own place in a queue: so a queue takes no memory as it
/// comes to wait, and none that is empty has any. Contracts see the message.
#[derive(Debug, Drop)]
pub struct Parcel {
    /// The message alone.
    place: LinkedList<Waiting>,
}

impl Model for Parcel {
    ghost use Rattle.std.specs.Prelude.{◌≡◌, [], ◌∷◌};
    ghost use Rattle.sng_queue.specs.Messages.{Message, only};

    ghost Value = { Message };

    ghost view = { λ p. only p.place };

    ghost invariant = { λ p. p.place ≡ only p.place ∷ [] };
}

impl Parcel {
    /// The message with a place for it. Only memory can fail.
    pub fn new(alloc: Global, message: Waiting) -> Result<Parcel, AllocError>
        ensures { IfOk result (λ p. p ≡ message) }
    {
        let mut place = LinkedList::new(alloc);
        place.push_back(message)?;
        Ok(Parcel { place })
    }

    /// The message in its place.
    pub(crate) fn into_place(self) -> LinkedList<Waiting>
        ensures { result ≡ self ∷ [] }
    {
        self.place
    }
}
