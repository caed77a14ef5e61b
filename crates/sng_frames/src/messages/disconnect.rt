//! DISCONNECT (MQTT-SN 1.2, 5.4.21).
ghost use Rattle.std.specs.Prelude.{◌≡◌, IfOk, length};
ghost use Rattle.sng_frames.specs.Grammar.{IsInRange};
ghost use Rattle.sng_frames.specs.Parts.{duration_of};
ghost use Rattle.sng_frames.specs.Reading.{or_malformed};
ghost use Rattle.sng_frames.specs.Writing.{written, duration_part};
ghost use Rattle.sng_frames.specs.declared.frame.SnFrame.TheVariants as frames;

use crate::wire::framing;
use crate::{FrameFault, MessageType};
use sng_text::WireBytes;
use std::alloc::{AllocError, Global};

/// Nothing, or a Duration.
pub(crate) fn decode(part: &[u8]) -> Result<Option<u16>, FrameFault>
    ensures { result ≡ or_malformed (duration_of part.now) }
{
    match part {
        [] => Ok(None),
        [high, low] => Ok(Some(framing::number(*high, *low))),
        _ => Err(FrameFault::Malformed),
    }
}

/// How many octets the variable part has.
pub(crate) fn size(duration: &Option<u16>) -> usize
    ensures { result ≡ length (duration_part duration.now) }
{
    match duration {
        None => 0,
        Some(_) => 2,
    }
}

/// The datagram of a DISCONNECT, with its Duration in seconds where it has one. Allocates once.
pub fn write_disconnect(alloc: Global, duration: Option<u16>) -> Result<WireBytes, AllocError>
    ensures written { IfOk result (λ o. o ≡ written (frames.Disconnect duration)) }
    ensures in_range { IsInRange (frames.Disconnect duration) }
{
    match duration {
        None => framing::frame(alloc, MessageType::Disconnect, &[], &[]),
        Some(duration) => framing::frame(
            alloc,
            MessageType::Disconnect,
            &framing::octets(duration),
            &[],
        ),
    }
}
