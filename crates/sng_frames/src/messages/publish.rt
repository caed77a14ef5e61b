//! PUBLISH (MQTT-SN 1.2, 5.4.12).
ghost use Rattle.std.specs.Prelude.{◌≡◌, ◌≤◌, IfOk, length};
ghost use Rattle.sng_frames.specs.Parts.{publish_of};
ghost use Rattle.sng_frames.specs.Reading.{Reads};
ghost use Rattle.sng_frames.specs.Writing.{written, publish_part};
ghost use Rattle.sng_frames.specs.declared.frame.SnFrame.TheVariants as frames;
ghost use Rattle.sng_frames.specs.declared.limits.TheConstants.{MAX_PAYLOAD};

use crate::messages::part;
use crate::wire::framing;
use crate::{Flags, FrameFault, MessageType};
use sng_text::{Octets, WireBytes};
use std::alloc::{AllocError, Global};

/// A PUBLISH.
#[derive(Debug, Drop)]
pub struct Publish {
    /// All eight bits.
    pub flags: Flags,
    /// The TopicId field: an id, or the two octets of a short name, the first one high.
    pub topic_id: u16,
    /// The MsgId field, of any value.
    pub msg_id: u16,
    /// The data, which may be empty.
    pub payload: Octets,
}

/// Flags, TopicId, MsgId, data.
pub(crate) fn decode(alloc: Global, part: &[u8]) -> Result<Publish, FrameFault>
    ensures { Reads result (publish_of part.now) }
{
    match part {
        [
            flags,
            topic_high,
            topic_low,
            msg_high,
            msg_low,
            payload @ ..,
        ] => Ok(Publish {
            flags: Flags::from_octet(*flags),
            topic_id: framing::number(*topic_high, *topic_low),
            msg_id: framing::number(*msg_high, *msg_low),
            payload: part::octets(alloc, payload)?,
        }),
        _ => Err(FrameFault::Malformed),
    }
}

/// How many octets the variable part has.
pub(crate) fn size(publish: &Publish) -> usize
    ensures { result ≡ length (publish_part publish.now) }
{
    5 + publish.payload.as_slice().len()
}

/// The datagram of a PUBLISH of these fields, whose data are lent. Allocates once, and copies the data once.
#[inline(always)]
pub fn write_publish(
    alloc: Global,
    flags: Flags,
    topic_id: u16,
    msg_id: u16,
    payload: &[u8],
) -> Result<WireBytes, AllocError>
    requires { length payload.now ≤ MAX_PAYLOAD }
    ensures { IfOk result (λ o. o ≡ written (frames.Publish
        (record { flags = flags; topic_id = topic_id; msg_id = msg_id; payload = payload.now }))) }
{
    let [topic_high, topic_low] = framing::octets(topic_id);
    let [msg_high, msg_low] = framing::octets(msg_id);
    let head = [flags.octet(), topic_high, topic_low, msg_high, msg_low];
    framing::frame(alloc, MessageType::Publish, &head, payload)
}
