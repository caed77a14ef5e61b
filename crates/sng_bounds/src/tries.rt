//! How many tries to connect failed, and how long the pause before the next one is. A connection that was
//! accepted and did not last is no failed try, but makes the pause longer, too: two gateways with one id
//! would else throw each other out five times a second (MQTT 3.1.1, 3.1.4).
ghost use Rattle.std.specs.Prelude.{◌≡◌, ◌+◌, ◌≤◌, ◌<◌, ◌↔◌, min, IsTrue};
ghost use Rattle.std.specs.Duration.{as_nanos};
ghost use Rattle.sng_bounds.specs.Tries.{pause_of};

use std::time::Duration;

/// A connection lasted where it was up for so many seconds.
pub const LASTING_SECONDS: u64 = 10;

/// The pause after the first try that failed, in ms; each further one doubles it, up to the longest.
const FIRST_PAUSE_MS: u64 = 200;

const LONGEST_PAUSE_MS: u64 = 5000;

/// So often the pause is doubled at most: it is the longest long before.
const DOUBLINGS: u32 = 10;

/// What became of the tries to connect.
#[derive(Clone, Copy, Debug, PartialEq, Eq)]
pub struct Tries {
    /// How many failed in a row.
    pub failed: u32,
    /// How many in a row failed, or gave a connection that did not last.
    pub vain: u32,
}

impl Tries {
    pub fn new() -> Tries
        ensures { result ≡ record { failed = 0; vain = 0 } }
    {
        Tries { failed: 0, vain: 0 }
    }

    /// A try failed.
    pub fn fail(&mut self)
        ensures failed { self.new.failed ≡ min (self.old.failed + 1) u32.MAX }
        ensures vain { self.new.vain ≡ min (self.old.vain + 1) u32.MAX }
    {
        self.failed = self.failed.saturating_add(1);
        self.vain = self.vain.saturating_add(1);
    }

    /// The broker accepted the connection.
    pub fn accept(&mut self)
        ensures { self.new ≡ record self.old { failed = 0 } }
    {
        self.failed = 0;
    }

    /// An accepted connection is over, which was up for this time. Whether it lasted.
    pub fn lose(&mut self, up: Duration) -> bool
        ensures lasted { IsTrue result ↔ (10_000_000_000 ≤ as_nanos up) }
        ensures long { IsTrue result → self.new ≡ record self.old { vain = 0 } }
        ensures short { as_nanos up < 10_000_000_000
            → self.new ≡ record self.old { vain = min (self.old.vain + 1) u32.MAX } }
    {
        let lasted = Duration::from_secs(LASTING_SECONDS).as_nanos() <= up.as_nanos();
        self.vain = if lasted {
            0
        } else {
            self.vain.saturating_add(1)
        };
        lasted
    }

    /// Whether as many failed in a row as may.
    pub fn are_used_up(&self, most: u32) -> bool
        ensures { IsTrue result ↔ (most ≤ self.now.failed) }
    {
        most <= self.failed
    }

    /// How long to wait before the next one, in ms.
    pub fn pause(&self) -> u64
        ensures { result ≡ pause_of self.now.vain }
    {
        let doublings = self.vain.saturating_sub(1).min(DOUBLINGS);
        (FIRST_PAUSE_MS << doublings).min(LONGEST_PAUSE_MS)
    }
}
