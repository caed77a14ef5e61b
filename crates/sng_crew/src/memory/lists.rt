//! Clock values and policies over memory.
ghost use Rattle.std.specs.Prelude.{take, true};

use sng_desk::{Beats, Got, Policies};
use sng_grants::Policy;

/// Gives some clock values.
#[derive(Debug, Drop)]
pub struct MemoryBeats {
    clocks: Vec<u64>,
    next: usize,
    is_over: bool,
}

impl MemoryBeats {
    /// It gives these clock values, in ms, and has ended then.
    pub fn new(clocks: Vec<u64>) -> MemoryBeats {
        MemoryBeats {
            clocks,
            next: 0,
            is_over: false,
        }
    }
}

impl Beats for MemoryBeats {
    ghost tells = { λ m. true };

    ghost gave = { λ m. take m.next m.clocks.items };

    ghost failures = { λ m. 0 };

    ghost has_ended = { λ m. m.is_over };

    fn next(&mut self) -> Got<u64> {
        if self.clocks.len() <= self.next {
            self.is_over = true;
            return Got::Ended;
        }
        let clock = self.clocks[self.next];
        self.next += 1;
        Got::Came(clock)
    }

    fn ended(&self) -> bool {
        self.is_over
    }
}

/// Gives some policies.
#[derive(Debug, Drop)]
pub struct MemoryPolicies {
    policies: Vec<Policy>,
    next: usize,
    failures: u64,
    is_over: bool,
}

impl MemoryPolicies {
    /// It gives these policies, and has ended then.
    pub fn new(policies: Vec<Policy>) -> MemoryPolicies {
        MemoryPolicies {
            policies,
            next: 0,
            failures: 0,
            is_over: false,
        }
    }
}

impl Policies for MemoryPolicies {
    ghost tells = { λ m. true };

    ghost gave = { λ m. take m.next m.policies.items };

    ghost failures = { λ m. m.failures };

    ghost has_ended = { λ m. m.is_over };

    fn next(&mut self) -> Got<Policy> {
        if self.policies.len() <= self.next {
            self.is_over = true;
            return Got::Ended;
        }
        let Ok(copy) = self.policies[self.next].copy() else {
            if self.failures == u64::MAX {
                return Got::Nothing;
            }
            self.failures += 1;
            return Got::Failed;
        };
        self.next += 1;
        Got::Came(copy)
    }

    fn ended(&self) -> bool {
        self.is_over
    }
}
