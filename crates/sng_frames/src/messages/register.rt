//! REGISTER (MQTT-SN 1.2, 5.4.10).
ghost use Rattle.std.specs.Prelude.{◌≡◌, ◌+◌, ◌≤◌, IfOk, length};
ghost use Rattle.sng_frames.specs.Parts.{register_of};
ghost use Rattle.sng_frames.specs.Reading.{Reads};
ghost use Rattle.sng_frames.specs.Writing.{written, register_part};
ghost use Rattle.sng_frames.specs.declared.frame.SnFrame.TheVariants as frames;
ghost use Rattle.sng_frames.specs.declared.limits.TheConstants.{MAX_REGISTERED_NAME};

use crate::messages::part;
use crate::wire::framing;
use crate::{FrameFault, MessageType};
use sng_text::{Octets, WireBytes};
use std::alloc::{AllocError, Global};

/// A REGISTER.
#[derive(Debug, Drop)]
pub struct Register {
    /// The TopicId field, 0 from a client.
    pub topic_id: u16,
    /// The MsgId field, of any value.
    pub msg_id: u16,
    /// The name's bytes, which may be none and need not be a name.
    pub name: Octets,
}

/// TopicId, MsgId, TopicName.
pub(crate) fn decode(alloc: Global, part: &[u8]) -> Result<Register, FrameFault>
    ensures { Reads result (register_of part.now) }
{
    match part {
        [topic_high, topic_low, msg_high, msg_low, name @ ..] => Ok(Register {
            topic_id: framing::number(*topic_high, *topic_low),
            msg_id: framing::number(*msg_high, *msg_low),
            name: part::octets(alloc, name)?,
        }),
        _ => Err(FrameFault::Malformed),
    }
}

/// How many octets the variable part has.
pub(crate) fn size(register: &Register) -> usize
    ensures { result ≡ length (register_part register.now) }
{
    4 + register.name.as_slice().len()
}

/// The datagram of a REGISTER of these fields, whose name is lent. Allocates once.
pub fn write_register(
    alloc: Global,
    topic_id: u16,
    msg_id: u16,
    name: &[u8],
) -> Result<WireBytes, AllocError>
    requires { length name.now ≤ MAX_REGISTERED_NAME }
    ensures { IfOk result (λ o. o ≡ written (frames.Register
        (record { topic_id = topic_id; msg_id = msg_id; name = name.now }))) }
{
    let [topic_high, topic_low] = framing::octets(topic_id);
    let [msg_high, msg_low] = framing::octets(msg_id);
    let head = [topic_high, topic_low, msg_high, msg_low];
    framing::frame(alloc, MessageType::Register, &head, name)
}
