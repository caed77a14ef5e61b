//! Times by which workers wait: after so many ms, and whether they have come.

use std::rt::Clock;
use std::time::Duration;

/// The time in seconds since 1970, or 0 where the clock cannot be read.
pub fn seconds<R: Clock>(rt: &R) -> u64 {
    rt.since_1970().unwrap_or(Duration::from_secs(0)).as_secs()
}

/// The time after so many ms.
pub fn time_after<R: Clock>(rt: &R, time: u64) -> Duration {
    let now = rt.monotonic().unwrap_or(Duration::MAX);
    now.saturating_add(Duration::from_millis(time))
}

/// Whether this time has come. It has where the clock cannot be read.
pub fn is_past<R: Clock>(rt: &R, end: Duration) -> bool {
    end <= rt.monotonic().unwrap_or(Duration::MAX)
}
