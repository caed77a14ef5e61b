//! Filings over memory.
ghost use Rattle.std.specs.Prelude.{true};

use crate::memory::Calls;
use sng_desk::Filing;
use std::alloc::Global;

/// Keeps what it takes, in order, as long as there is memory. One call can be refused.
#[derive(Debug, Drop)]
pub struct MemoryFiling<T> {
    taken: Vec<T>,
    calls: Calls,
    handed_back: bool,
}

impl<T> MemoryFiling<T> {
    /// It has taken nothing yet.
    pub fn new(alloc: Global, calls: Calls) -> MemoryFiling<T> {
        MemoryFiling {
            taken: Vec::new(alloc),
            calls,
            handed_back: false,
        }
    }

    /// What it took, in order.
    pub fn into_taken(self) -> Vec<T> {
        let MemoryFiling {
            taken,
            calls: _,
            handed_back: _,
        } = self;
        taken
    }

    /// How many calls there were.
    pub fn calls(&self) -> &Calls {
        &self.calls
    }
}

impl<T: Drop> Filing<T> for MemoryFiling<T> {
    ghost tells = { λ m. true };

    ghost took = { λ m. m.taken.items };

    ghost handed_back = { λ m. m.handed_back };

    fn file(&mut self, item: T) -> Result<(), T> {
        if self.calls.fails() {
            self.handed_back = true;
            return Err(item);
        }
        match self.taken.push(item) {
            Ok(()) => {
                self.handed_back = false;
                Ok(())
            }
            Err(refused) => {
                self.handed_back = true;
                Err(refused.value)
            }
        }
    }
}
