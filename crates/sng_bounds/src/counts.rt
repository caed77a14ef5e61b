//! What is counted of an address in a second. Addresses share slots, so that the room is the same however
//! many there are.
ghost use Rattle.std.specs.Prelude.{◌≡◌, ◌+◌, ◌<◌, min};
ghost use Rattle.sng_bounds.specs.Counts.{count_at, nothing_counted, slot_of};

use sng_book::Address;

/// Addresses have so many slots: strangers that share one share its count. It is a prime number, so that
/// addresses and ports side by side have slots apart.
pub const SLOTS: usize = 4093;

/// A count of one second, which is told by its number.
#[derive(Clone, Copy, Debug, PartialEq, Eq)]
pub struct Count {
    second: u64,
    count: u32,
}

impl Count {
    pub fn new() -> Count
        ensures { result ≡ nothing_counted }
    {
        Count {
            second: 0,
            count: 0,
        }
    }

    /// What was counted in that second.
    pub fn at(self, second: u64) -> u32
        ensures { result ≡ count_at self second }
    {
        if self.second == second { self.count } else { 0 }
    }

    /// Counts one in that second, up to 2^32 - 1.
    pub fn add(&mut self, second: u64)
        ensures { self.new ≡ record { second = second; count = min (count_at self.old second + 1) u32.MAX } }
    {
        let count = self.at(second).saturating_add(1);
        *self = Count { second, count };
    }
}

/// Where an address has its slot.
pub fn slot_of(address: Address) -> usize
    ensures slot { result ≡ slot_of address }
    ensures below { result < SLOTS }
{
    let ip = u64::from(u32::from_be_bytes(address.ip));
    ((ip * 65536 + u64::from(address.port)) % SLOTS as u64) as usize
}
