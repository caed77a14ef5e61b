//! How often an operator is told that the wall clock is off the clock of the gateway.
ghost use Rattle.std.specs.Prelude.{◌≡◌, Some, None, if◌then◌else◌};
ghost use Rattle.sng_bounds.specs.Drifts.{is_told, may_tell};

use std::time::Duration;

/// Of no more than so many seconds nothing is told.
pub const SECONDS_OFF: u64 = 10;

/// No line follows another sooner than in so many seconds.
pub const SECONDS_BETWEEN: u64 = 60;

/// When it was told last.
#[derive(Clone, Copy, Debug, PartialEq, Eq)]
pub struct Drift {
    last: Option<Duration>,
}

impl Drift {
    /// It was never told.
    pub fn new() -> Drift
        ensures { result ≡ record { last = None } }
    {
        Drift { last: None }
    }

    /// Whether it is told now that the wall clock is so far off. If so, that counts as told.
    pub fn tells(&mut self, now: Duration, off: Duration) -> bool
        ensures told { result ≡ is_told self.old now off }
        ensures last { self.new ≡ (if is_told self.old now off then record { last = Some now } else self.old) }
    {
        let is_told = Duration::from_secs(SECONDS_OFF).as_nanos() < off.as_nanos()
            && self.may_tell(now);
        if is_told {
            self.last = Some(now);
        }
        is_told
    }

    /// Whether the last line is long enough ago.
    fn may_tell(&self, now: Duration) -> bool
        ensures { result ≡ may_tell self.now.last now }
    {
        match self.last {
            None => true,
            Some(last) => {
                Duration::from_secs(SECONDS_BETWEEN).as_nanos()
                    <= now.saturating_sub(last).as_nanos()
            }
        }
    }
}
