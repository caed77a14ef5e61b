//! Which datagrams are passed over in a flood. The book keeps each row, so a stranger that sends on and on
//! what is denied would fill it. An address from which anything was allowed is not passed over while it is
//! remembered, which the last four of each slot are.
ghost use Rattle.std.specs.Prelude.{◌≡◌, ◌≢◌, ◌+◌, ◌<◌, ◌≤◌, ◌↔◌, ◌⊎◌, length, min, IfOk, IsTrue, None, Some};
ghost use Rattle.sng_book.specs.declared.address.Address.{Address};
ghost use Rattle.sng_bounds.specs.Counts.{count_at, slot_of};
ghost use Rattle.sng_bounds.specs.Floods.{Adds, IsKnown, Knows, denied_at, nobody, nothing, slot_in};
ghost use Rattle.sng_bounds.specs.declared.counts.TheConstants.{SLOTS};

use crate::counts::{Count, SLOTS, slot_of};
use sng_book::Address;
use std::alloc::{AllocError, Global};

/// How many datagrams that make nothing but denials are acted on in a second.
#[derive(Clone, Copy, Debug, PartialEq, Eq)]
pub struct FloodLimits {
    /// Of one address from which nothing was allowed.
    pub each: u32,
    /// Of all such addresses together.
    pub all: u32,
}

/// The last four addresses at a slot from which something was allowed, the last one first.
#[derive(Clone, Copy, Debug, PartialEq, Eq)]
pub struct Known {
    first: Option<Address>,
    second: Option<Address>,
    third: Option<Address>,
    fourth: Option<Address>,
}

impl Known {
    fn new() -> Known
        ensures { result ≡ nobody }
    {
        Known {
            first: None,
            second: None,
            third: None,
            fourth: None,
        }
    }

    /// Whether the address is one of them.
    fn has(self, address: Address) -> bool
        ensures { IsTrue result ↔ IsKnown self address }
    {
        let wanted = Some(address);
        self.first == wanted
            || self.second == wanted
            || self.third == wanted
            || self.fourth == wanted
    }

    /// The address is one of them, instead of the one that was added first, where there are four others.
    fn add(&mut self, address: Address)
        ensures { Adds self.old self.new address }
    {
        if self.has(address) {
            return;
        }
        *self = Known {
            first: Some(address),
            second: self.first,
            third: self.second,
            fourth: self.third,
        };
    }
}

/// What is remembered of the addresses at a slot.
#[derive(Clone, Copy, Debug, PartialEq, Eq)]
pub struct Slot {
    /// From whom something was allowed.
    known: Known,
    /// The datagrams of others that made nothing but denials.
    denied: Count,
}

/// What was denied to whom in a second.
#[derive(Drop)]
pub struct Flood {
    limits: FloodLimits,
    /// The datagrams of all strangers that made nothing but denials.
    denied: Count,
    slots: Vec<Slot>,
    ghost whole: { length slots.items ≡ SLOTS },
}

impl Flood {
    /// Nobody is known, and nothing was denied.
    pub fn new(alloc: Global, limits: FloodLimits) -> Result<Flood, AllocError>
        ensures limits { IfOk result (λ f. f.limits ≡ limits) }
        ensures all { IfOk result (λ f. f.denied ≡ nothing.denied) }
        ensures slots { IfOk result (λ f. (a : Address) → slot_in f.slots.items a ≡ nothing) }
    {
        let slot = Slot {
            known: Known::new(),
            denied: Count::new(),
        };
        Ok(Flood {
            limits,
            denied: Count::new(),
            slots: vec![in alloc; slot; SLOTS]?,
        })
    }

    /// Whether a datagram of the address is acted on in this second, counted from any moment.
    pub fn takes(&self, from: Address, second: u64) -> bool
        ensures { IsTrue result ↔ (Knows self.now.slots.items from
            ⊎ ((denied_at self.now.slots.items from second < self.now.limits.each)
            × (count_at self.now.denied second < self.now.limits.all))) }
    {
        let slot = self.slots[slot_of(from)];
        slot.known.has(from)
            || slot.denied.at(second) < self.limits.each && self.denied.at(second) < self.limits.all
    }

    /// A datagram of the address led to something else than denials: from now on the address is known. Where
    /// four others with this slot are, the one that became known first is forgotten.
    pub fn allow(&mut self, from: Address)
        ensures known { Knows self.new.slots.items from }
        ensures added { Adds (slot_in self.old.slots.items from).known
            (slot_in self.new.slots.items from).known from }
        ensures others { (a : Address) → slot_of a ≢ slot_of from →
            slot_in self.new.slots.items a ≡ slot_in self.old.slots.items a }
        ensures denied { (a : Address) →
            (slot_in self.new.slots.items a).denied ≡ (slot_in self.old.slots.items a).denied }
        ensures all { self.new.denied ≡ self.old.denied }
        ensures limits { self.new.limits ≡ self.old.limits }
    {
        self.slots[slot_of(from)].known.add(from);
    }

    /// A datagram of the address made nothing but denials in this second. It counts where the address is not
    /// known.
    pub fn deny(&mut self, from: Address, second: u64)
        ensures known { Knows self.old.slots.items from → self.new ≡ self.old }
        ensures one { (Knows self.old.slots.items from → ⊥) →
            denied_at self.new.slots.items from second
            ≡ min (denied_at self.old.slots.items from second + 1) u32.MAX }
        ensures all { (Knows self.old.slots.items from → ⊥) →
            count_at self.new.denied second ≡ min (count_at self.old.denied second + 1) u32.MAX }
        ensures others { (a : Address) → slot_of a ≢ slot_of from →
            slot_in self.new.slots.items a ≡ slot_in self.old.slots.items a }
        ensures names { (a : Address) →
            (slot_in self.new.slots.items a).known ≡ (slot_in self.old.slots.items a).known }
        ensures limits { self.new.limits ≡ self.old.limits }
    {
        let slot = self.slots[slot_of(from)];
        if slot.known.has(from) {
            return;
        }
        self.slots[slot_of(from)].denied.add(second);
        self.denied.add(second);
    }
}
