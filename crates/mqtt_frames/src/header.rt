//! The fixed header of a packet (MQTT 3.1.1, 2.2): its first byte and its Remaining Length.
ghost use Rattle.std.specs.Prelude.{◌≡◌, ◌-◌};
ghost use Rattle.mqtt_frames.specs.Headers.{length_at, header_at, IsSmall, IsBrief};

use crate::PacketFault;
use crate::kind::{self, Kind};

/// A Remaining Length at the front of bytes.
#[derive(Clone, Copy, Debug)]
pub enum Length {
    /// Its last byte has not come.
    Unfinished,
    /// A fifth byte would follow.
    Overlong,
    /// Its value, and how many bytes spell it.
    Known(usize, usize),
}

/// The Remaining Length at the front of the bytes (2.2.3): one to four bytes, the shortest spelling or a
/// longer one.
pub fn length_at(bytes: &[u8]) -> Length
    ensures value { result ≡ length_at 4 bytes.now }
    ensures small { IsSmall result }
{
    match bytes {
        [a, ..] if *a < 128 => Length::Known(usize::from(*a), 1),
        [a, b, ..] if *b < 128 => Length::Known(group(*a) + 128 * usize::from(*b), 2),
        [a, b, c, ..] if *c < 128 => {
            Length::Known(group(*a) + 128 * (group(*b) + 128 * usize::from(*c)), 3)
        }
        [a, b, c, d, ..] if *d < 128 => Length::Known(
            group(*a) + 128 * (group(*b) + 128 * (group(*c) + 128 * usize::from(*d))),
            4,
        ),
        [_, _, _, _, ..] => Length::Overlong,
        _ => Length::Unfinished,
    }
}

/// The seven bits of a byte that another one follows.
fn group(byte: u8) -> usize
    ensures { result ≡ byte - 128 }
{
    usize::from(byte.saturating_sub(128))
}

/// A fixed header at the front of bytes.
#[derive(Clone, Copy, Debug)]
pub enum Header {
    /// The Remaining Length is not whole.
    Unfinished,
    /// The Remaining Length or the first byte has that fault.
    Faulty(PacketFault),
    /// The kind of packet, the size of the header and the Remaining Length, in bytes.
    Known(Kind, usize, usize),
}

/// The fixed header at the front of the bytes. A fault of the first byte is reported once the Remaining
/// Length is whole.
#[inline(always)]
pub fn header_at(bytes: &[u8]) -> Header
    ensures value { result ≡ header_at bytes.now }
    ensures brief { IsBrief result }
{
    let [first, rest @ ..] = bytes else {
        return Header::Unfinished;
    };
    match length_at(rest) {
        Length::Unfinished => Header::Unfinished,
        Length::Overlong => Header::Faulty(PacketFault::Malformed),
        Length::Known(value, size) => match kind::kind_of(*first) {
            Ok(kind) => Header::Known(kind, 1 + size, value),
            Err(fault) => Header::Faulty(fault),
        },
    }
}
