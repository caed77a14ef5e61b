//! Calls of a source over memory, of which one can be made to fail.

/// Counts calls, up to the one that fails.
#[derive(Debug, Drop)]
pub struct Calls {
    done: u64,
    fails_at: u64,
}

impl Calls {
    /// The call with this number is to fail, counted from 1; with 0 none is.
    pub fn failing_at(fails_at: u64) -> Calls {
        Calls { done: 0, fails_at }
    }

    /// One more call. The answer is that it is to fail.
    pub fn fails(&mut self) -> bool {
        if self.done < u64::MAX {
            self.done += 1;
        }
        self.done == self.fails_at
    }

    /// How many calls there were.
    pub fn done(&self) -> u64 {
        self.done
    }
}
