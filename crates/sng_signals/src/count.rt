//! Counts of what workers meet: what is to be told once a second, and all that there was.

use std::sync::atomic::{AtomicU64, Ordering};

/// A count to which all workers add. An operator is told what was added since he was told last.
#[derive(Drop)]
pub struct Count {
    untold: AtomicU64,
    total: AtomicU64,
}

impl Count {
    pub fn new() -> Count {
        Count {
            untold: AtomicU64::new(0),
            total: AtomicU64::new(0),
        }
    }

    pub fn add(&self, more: u64) {
        self.untold.fetch_add(more, Ordering::SeqCst);
        self.total.fetch_add(more, Ordering::SeqCst);
    }

    /// What was not told yet. It is taken for told.
    pub fn take(&self) -> u64 {
        self.untold.swap(0, Ordering::SeqCst)
    }

    /// So much of what was taken could not be told.
    pub fn put_back(&self, untold: u64) {
        self.untold.fetch_add(untold, Ordering::SeqCst);
    }

    /// All that was added.
    pub fn total(&self) -> u64 {
        self.total.load(Ordering::SeqCst)
    }
}
