//! What stands around a variable part: Length and MsgType (MQTT-SN 1.2, 5.2.1 and 5.2.2); and numbers of two
//! octets (5.3).
ghost use Rattle.std.specs.Prelude.{◌≡◌, ◌+◌, ◌/◌, ◌%◌, ◌≤◌, ◌++◌, ◌∷◌, [], IfOk, length};
ghost use Rattle.sng_frames.specs.MessageTypes.{octet_of};
ghost use Rattle.sng_frames.specs.Parts.{number};
ghost use Rattle.sng_frames.specs.Writing.{framed};
ghost use Rattle.sng_frames.specs.declared.limits.TheConstants.{MAX_DATAGRAM};

use crate::{MAX_SHORT_LENGTH, MessageType};
use sng_text::WireBytes;
use std::alloc::{AllocError, Global};

/// The octets of a Length that has three of them, and of a MsgType.
pub(crate) const LONGEST_FRONT: usize = 4;

/// The datagram of that type whose variable part is the two slices, one after the other, with the shortest
/// Length. Allocates once at most, and not at all where the datagram is short.
#[inline(always)]
pub(crate) fn frame(
    alloc: Global,
    kind: MessageType,
    head: &[u8],
    tail: &[u8],
) -> Result<WireBytes, AllocError>
    requires { 4 + length head.now + length tail.now ≤ MAX_DATAGRAM }
    ensures { IfOk result (λ o. o ≡ framed (octet_of kind) (head.now ++ tail.now)) }
{
    let size = head.len() + tail.len();
    if size + 2 <= MAX_SHORT_LENGTH {
        return WireBytes::joined(alloc, &[(size + 2) as u8, kind.octet()], head, tail, &[]);
    }
    let [high, low] = octets((size + 4) as u16);
    WireBytes::joined(alloc, &[0x01, high, low, kind.octet()], head, tail, &[])
}

/// The two octets of a number, the high one first.
pub(crate) fn octets(number: u16) -> [u8; 2]
    ensures { result ≡ number / 256 ∷ number % 256 ∷ [] }
{
    number.to_be_bytes()
}

/// Two octets as a number.
pub(crate) fn number(high: u8, low: u8) -> u16
    ensures { result ≡ number high low }
{
    u16::from_be_bytes([high, low])
}
