//! Times as operators write and read them: in ms of Unix time, or as a date and a time with an offset (RFC
//! 3339, 5.6).
#![tactic(auto)]

ghost use Rattle.std.specs.Prelude.{◌≡◌, ◌*◌, pos, option_map};
ghost use Rattle.sng_times.specs.Times.{IsTime, IsUtc, ms_of, ms_read};
ghost use Rattle.jiff_fmt.specs.Temporal.{parse_timestamp};

use arrayvec::ArrayString;
use jiff_core::Timestamp;
use jiff_fmt::temporal::{DateTimePrinter, parse_timestamp};
use std::fmt;
use std::fmt::{Display, Formatter, Write};

/// How many ns a ms has.
const NANOS: i128 = 1_000_000;

/// The first ms of Unix time that has no date: at 9999-12-30T22:00:01Z it is the year 10000 somewhere.
pub const NO_DATE: u64 = 253_402_207_201_000;

/// How many bytes the text of an instant has at most.
pub const UTC_BYTES: usize = 33;

/// The time of the text, in ms of Unix time: a whole number, or a date and a time with an offset, in the form of
/// RFC 3339 or another one of ISO 8601 that `jiff` reads. What is finer than a ms is left out. `None` where the
/// text is neither, or the time lies before 1970.
pub fn read_time(text: &str) -> Option<u64>
    ensures { IsTime text.now result }
{
    match text.parse::<u64>() {
        Ok(count) => Some(count),
        Err(_) => read_instant(text.as_bytes()),
    }
}

/// The time of a text that is a date and a time.
fn read_instant(text: &[u8]) -> Option<u64>
    ensures { result ≡ ms_read (parse_timestamp text.now) }
{
    match parse_timestamp(text) {
        Ok(instant) => ms_of(instant),
        Err(_) => None,
    }
}

/// The whole ms of an instant that is not before 1970.
fn ms_of(instant: Timestamp) -> Option<u64>
    ensures { result ≡ ms_of instant.nanosecond }
{
    if instant.nanosecond < 0 {
        return None;
    }
    Some((instant.nanosecond / NANOS) as u64)
}

/// How many ns so many ms are.
fn nanos_of(ms: u64) -> i128
    ensures { result ≡ pos (ms * 1000000) }
{
    i128::from(ms) * NANOS
}

/// A time in ms of Unix time. It is shown as `1798761600000 ms of Unix time, 2027-01-01T00:00:00Z`: the number,
/// and what `utc` gives.
#[derive(Clone, Copy, Debug, PartialEq, Eq)]
pub struct Time(pub u64);

impl Time {
    /// The date and the time of day in UTC, as RFC 3339 writes them, with a fraction of a second where there is
    /// one. `None` from `NO_DATE` on.
    pub fn utc(self) -> Option<ArrayString<UTC_BYTES>>
        ensures { IsUtc self.0 (option_map (λ text. text.bytes) result) }
    {
        match Timestamp::from_nanosecond(nanos_of(self.0)) {
            Ok(instant) => Some(DateTimePrinter::new().timestamp_text(instant)),
            Err(_) => None,
        }
    }
}

impl Display for Time {
    fn fmt<W: Write>(&self, f: &mut Formatter<W>) -> fmt::Result {
        write!(f, "{} ms of Unix time", self.0)?;
        match self.utc() {
            Some(text) => write!(f, ", {}", text.as_str()),
            None => Ok(()),
        }
    }
}
