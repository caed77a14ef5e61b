//! Which devices are not sent to for a while. What waits for a slow interface fills the send buffer of the
//! socket, which all devices share, so that nothing can be sent to any of them. Whoever found it full is not
//! sent to again until some of it has drained, which leaves room for the others.
ghost use Rattle.std.specs.Prelude.{◌≡◌, ◌≢◌, ◌+◌, ◌<◌, ◌↔◌, length, min, IfOk, IsTrue};
ghost use Rattle.sng_book.specs.declared.address.Address.{Address};
ghost use Rattle.sng_bounds.specs.Counts.{slot_of, rest_of};
ghost use Rattle.sng_bounds.specs.declared.counts.TheConstants.{SLOTS};

use crate::counts::{SLOTS, slot_of};
use sng_book::Address;
use std::alloc::{AllocError, Global};

/// For so long nothing is sent to an address for which the buffer was full, in ms.
pub const REST_MS: u64 = 1000;

/// Until when nothing is sent, by the slots of addresses: two that share one rest at once.
#[derive(Drop)]
pub struct Paths {
    ends: Vec<u64>,
    ghost whole: { length ends.items ≡ SLOTS },
}

impl Paths {
    /// No address rests.
    pub fn new(alloc: Global) -> Result<Paths, AllocError>
        ensures { IfOk result (λ paths. (to : Address) → rest_of paths.ends.items to ≡ 0) }
    {
        Ok(Paths {
            ends: vec![in alloc; 0; SLOTS]?,
        })
    }

    /// Whether nothing is sent to the address at this time, in ms.
    pub fn rests(&self, to: Address, now: u64) -> bool
        ensures { IsTrue result ↔ (now < rest_of self.now.ends.items to) }
    {
        now < self.ends[slot_of(to)]
    }

    /// The buffer was full for the address at this time, in ms.
    pub fn rest(&mut self, to: Address, now: u64)
        ensures rests { rest_of self.new.ends.items to ≡ min (now + REST_MS) u64.MAX }
        ensures others { (other : Address) → slot_of other ≢ slot_of to →
            rest_of self.new.ends.items other ≡ rest_of self.old.ends.items other }
    {
        self.ends[slot_of(to)] = now.saturating_add(REST_MS);
    }
}
