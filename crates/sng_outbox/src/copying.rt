//! What waits for the broker and what is in flight to it, in as little memory as it takes.
ghost use Rattle.std.specs.Prelude.{◌≡◌, ◌↔◌, IsTrue, IfOk};
ghost use Rattle.sng_outbox.specs.Sending.{nothing};

use crate::flights::Flights;
use crate::{InFlight, Item};
use std::alloc::{AllocError, Global};
use std::collections::VecDeque;
use std::marker::Model;

/// The items that wait for the broker, the oldest first, and the publishes in flight, in the order of their
/// sending. It is never changed, and has no room for more. Contracts see the two lists.
#[derive(Debug, Drop)]
pub struct OutboxCopy {
    waiting: Vec<Item>,
    in_flight: Vec<InFlight>,
}

impl Model for OutboxCopy {
    ghost use Rattle.sng_outbox.specs.Sending.{Sending};

    ghost Value = { Sending };

    ghost view = { λ o. record { waiting = o.waiting.items; in_flight = o.in_flight.items } };
}

impl OutboxCopy {
    /// What waits and what is in flight, in memory of its own for just these. Only memory can fail.
    pub(crate) fn of(
        alloc: Global,
        waiting: &VecDeque<Item>,
        in_flight: &Flights,
    ) -> Result<OutboxCopy, AllocError>
        ensures { IfOk result
            (λ c. c ≡ record { waiting = waiting.now.items; in_flight = in_flight.now.sent }) }
    {
        Ok(OutboxCopy {
            waiting: copy_items(alloc, waiting)?,
            in_flight: in_flight.copy(alloc)?,
        })
    }

    /// The items that wait, the oldest first.
    pub fn waiting(&self) -> &[Item]
        ensures { result.now ≡ self.now.waiting }
    {
        self.waiting.as_slice()
    }

    /// The publishes in flight, the one sent first being at 0.
    pub fn in_flight(&self) -> &[InFlight]
        ensures { result.now ≡ self.now.in_flight }
    {
        self.in_flight.as_slice()
    }

    /// Whether nothing waits and nothing is in flight.
    pub fn is_empty(&self) -> bool
        ensures { IsTrue result ↔ (self.now ≡ nothing) }
    {
        self.waiting.is_empty() && self.in_flight.is_empty()
    }
}

fn copy_items(alloc: Global, items: &VecDeque<Item>) -> Result<Vec<Item>, AllocError>
    ensures { IfOk result (λ v. v.items ≡ items.now.items) }
{
    let mut copies = Vec::with_capacity(alloc, items.len())?;
    for item in items.iter() {
        copies.push(item.copy()?)?;
    }
    Ok(copies)
}
