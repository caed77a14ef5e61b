//! How many answers may leave for an address that nobody has: a DISCONNECT that answers a DISCONNECT of
//! another gateway is answered by one more (MQTT-SN 1.2, 6.12), so a forged source would set two gateways to
//! write to one another without end.
ghost use Rattle.std.specs.Prelude.{◌≡◌, ◌≢◌, ◌+◌, ◌<◌, ◌↔◌, ℕ, length, min, false, IfOk, IsTrue};
ghost use Rattle.sng_book.specs.declared.address.Address.{Address};
ghost use Rattle.sng_bounds.specs.Counts.{count_in, kept_in, nothing_counted, slot_of};
ghost use Rattle.sng_bounds.specs.declared.counts.TheConstants.{SLOTS};

use crate::counts::{Count, SLOTS, slot_of};
use sng_book::Address;
use std::alloc::{AllocError, Global};

/// So many answers at most leave for one address in a second, and for all that share its slot.
pub const ANSWERS_A_SECOND: u32 = 5;

/// What left for whom in a second.
#[derive(Drop)]
pub struct Answers {
    counts: Vec<Count>,
    ghost whole: { length counts.items ≡ SLOTS },
}

impl Answers {
    /// Nothing left.
    pub fn new(alloc: Global) -> Result<Answers, AllocError>
        ensures { IfOk result (λ answers. (to : Address)
            → kept_in answers.counts.items to ≡ nothing_counted) }
    {
        Ok(Answers {
            counts: vec![in alloc; Count::new(); SLOTS]?,
        })
    }

    /// Whether one more may leave for the address in this second, counted from any moment. It is counted
    /// then.
    pub fn take(&mut self, to: Address, second: u64) -> bool
        ensures may { IsTrue result ↔ (count_in self.old.counts.items to second < ANSWERS_A_SECOND) }
        ensures counted { IsTrue result → count_in self.new.counts.items to second
            ≡ min (count_in self.old.counts.items to second + 1) u32.MAX }
        ensures held_back { result ≡ false → self.new ≡ self.old }
        ensures others { (other : Address) → slot_of other ≢ slot_of to → (second : ℕ)
            → count_in self.new.counts.items other second ≡ count_in self.old.counts.items other second }
    {
        let slot = slot_of(to);
        if self.counts[slot].at(second) >= ANSWERS_A_SECOND {
            return false;
        }
        self.counts[slot].add(second);
        true
    }
}
