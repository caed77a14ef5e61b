//! The clock of a running gateway, in ms of Unix time: what the wall clock showed at the start, and what passed
//! since on the clock that never goes back. So the end of a scope can be written down, and nothing is undone
//! where somebody sets the wall clock.
ghost use Rattle.std.specs.Prelude.{◌≡◌};
ghost use Rattle.std.specs.Duration.{as_nanos};
ghost use Rattle.sng_bounds.specs.UnixClocks.{ms_at, nanos_at, nanos_off};

use std::time::Duration;

/// The clock of a gateway that has begun.
#[derive(Clone, Copy, Debug, PartialEq, Eq)]
pub struct UnixClock {
    /// What the wall clock showed at the start: the time since 1970.
    pub wall: Duration,
    /// What the clock that never goes back showed then.
    pub begun: Duration,
}

impl UnixClock {
    /// The time since 1970 by this clock, where the one that never goes back shows `now`.
    pub fn time(&self, now: Duration) -> Duration
        ensures { as_nanos result ≡ nanos_at self.now now }
    {
        self.wall.saturating_add(now.saturating_sub(self.begun))
    }

    /// The same in whole ms, as ticks have it, or 2^64 - 1 where it is more.
    pub fn ms(&self, now: Duration) -> u64
        ensures { result ≡ ms_at self.now now }
    {
        let ms = self.time(now).as_millis();
        if ms < u128::from(u64::MAX) {
            ms as u64
        } else {
            u64::MAX
        }
    }

    /// How far off this clock the wall clock is that shows `wall`, before it or behind it.
    pub fn off(&self, now: Duration, wall: Duration) -> Duration
        ensures { as_nanos result ≡ nanos_off self.now now wall }
    {
        self.time(now).abs_diff(wall)
    }
}
