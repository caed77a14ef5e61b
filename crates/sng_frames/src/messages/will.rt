//! The messages of a will: WILLTOPICREQ, WILLTOPIC, WILLMSGREQ and WILLMSG (MQTT-SN 1.2, 5.4.6 to 5.4.9),
//! WILLTOPICUPD, WILLMSGUPD and their answers (5.4.22 to 5.4.25).
ghost use Rattle.std.specs.Prelude.{◌≡◌, ◌+◌, ◌≤◌, Err, Some, IfOk, IsSome, length};
ghost use Rattle.sng_frames.specs.MessageTypes.{octet_of};
ghost use Rattle.sng_frames.specs.Parts.{will_topic_of};
ghost use Rattle.sng_frames.specs.Reading.{Reads};
ghost use Rattle.sng_frames.specs.Writing.{framed, written, will_topic_part};
ghost use Rattle.sng_frames.specs.declared.frame.SnFrame.TheVariants as frames;
ghost use Rattle.sng_frames.specs.declared.limits.TheConstants.{MAX_DATAGRAM};

use crate::messages::part;
use crate::wire::framing;
use crate::{Flags, FrameFault, MessageType, ReturnCode};
use sng_text::{Octets, WireBytes};
use std::alloc::{AllocError, Global};

/// The will topic of a WILLTOPIC or a WILLTOPICUPD.
#[derive(Debug, Drop)]
pub struct WillTopic {
    /// All eight bits, of which QoS and Retain mean something here.
    pub flags: Flags,
    /// The topic's bytes, which may be none and need not be a name.
    pub topic: Octets,
}

/// Nothing, or Flags and a topic.
pub(crate) fn decode_topic(alloc: Global, part: &[u8]) -> Result<Option<WillTopic>, FrameFault>
    ensures reads { Reads result (Some (will_topic_of part.now)) }
    ensures memory { result ≡ Err FrameFault.Memory → IsSome (will_topic_of part.now) }
{
    match part {
        [] => Ok(None),
        [flags, topic @ ..] => Ok(Some(WillTopic {
            flags: Flags::from_octet(*flags),
            topic: part::octets(alloc, topic)?,
        })),
    }
}

/// How many octets the variable part of a will topic has.
pub(crate) fn topic_size(will: &Option<WillTopic>) -> usize
    ensures { result ≡ length (will_topic_part will.now) }
{
    match will {
        None => 0,
        Some(will) => 1 + will.topic.as_slice().len(),
    }
}

/// The datagram of a will topic, of that type.
pub(crate) fn write_topic(
    alloc: Global,
    kind: MessageType,
    will: &Option<WillTopic>,
) -> Result<WireBytes, AllocError>
    requires { length (will_topic_part will.now) + 4 ≤ MAX_DATAGRAM }
    ensures { IfOk result (λ o. o ≡ framed (octet_of kind) (will_topic_part will.now)) }
{
    match will {
        None => framing::frame(alloc, kind, &[], &[]),
        Some(will) => framing::frame(alloc, kind, &[will.flags.octet()], will.topic.as_slice()),
    }
}

/// The datagram of a WILLTOPICREQ. Allocates once.
pub fn write_will_topic_request(alloc: Global) -> Result<WireBytes, AllocError>
    ensures { IfOk result (λ o. o ≡ written frames.WillTopicRequest) }
{
    framing::frame(alloc, MessageType::WillTopicRequest, &[], &[])
}

/// The datagram of a WILLMSGREQ. Allocates once.
pub fn write_will_message_request(alloc: Global) -> Result<WireBytes, AllocError>
    ensures { IfOk result (λ o. o ≡ written frames.WillMessageRequest) }
{
    framing::frame(alloc, MessageType::WillMessageRequest, &[], &[])
}

/// The datagram of a WILLTOPICRESP. Allocates once.
pub fn write_will_topic_response(alloc: Global, code: ReturnCode) -> Result<WireBytes, AllocError>
    ensures { IfOk result (λ o. o ≡ written (frames.WillTopicResponse code)) }
{
    framing::frame(alloc, MessageType::WillTopicResponse, &[code.0], &[])
}

/// The datagram of a WILLMSGRESP. Allocates once.
pub fn write_will_message_response(alloc: Global, code: ReturnCode) -> Result<WireBytes, AllocError>
    ensures { IfOk result (λ o. o ≡ written (frames.WillMessageResponse code)) }
{
    framing::frame(alloc, MessageType::WillMessageResponse, &[code.0], &[])
}
