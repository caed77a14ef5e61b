//! SUBSCRIBE and UNSUBSCRIBE (MQTT-SN 1.2, 5.4.15 and 5.4.17).
ghost use Rattle.std.specs.Prelude.{◌≡◌, ◌+◌, ◌<◌, ◌≤◌, ◌^◌, IfOk, length};
ghost use Rattle.sng_frames.specs.MessageTypes.{octet_of};
ghost use Rattle.sng_frames.specs.Parts.{topic_request_of, fits_type};
ghost use Rattle.sng_frames.specs.Reading.{Reads};
ghost use Rattle.sng_frames.specs.Writing.{framed, topic_request_part};
ghost use Rattle.sng_frames.specs.declared.limits.TheConstants.{MAX_DATAGRAM};

use crate::messages::part;
use crate::wire::framing;
use crate::{Flags, FrameFault, MessageType, TopicIdType};
use sng_text::{Octets, WireBytes};
use std::alloc::{AllocError, Global};

/// A SUBSCRIBE or an UNSUBSCRIBE.
#[derive(Debug, Drop)]
pub struct TopicRequest {
    /// All eight bits.
    pub flags: Flags,
    /// The MsgId field, of any value.
    pub msg_id: u16,
    /// The octets of a predefined id or of a short name, by the TopicIdType, of which there must be two; else
    /// the filter's bytes, which may be none and need not be a filter.
    pub topic: Octets,
}

/// Flags, MsgId, TopicName or TopicId.
pub(crate) fn decode(alloc: Global, part: &[u8]) -> Result<TopicRequest, FrameFault>
    ensures { Reads result (topic_request_of part.now) }
{
    match part {
        [octet, msg_high, msg_low, topic @ ..] => {
            let flags = Flags::from_octet(*octet);
            if !fits_type(flags.id_type, topic) {
                return Err(FrameFault::Malformed);
            }
            Ok(TopicRequest {
                flags,
                msg_id: framing::number(*msg_high, *msg_low),
                topic: part::octets(alloc, topic)?,
            })
        }
        _ => Err(FrameFault::Malformed),
    }
}

/// Whether the octets are as many as the type of topic id asks for.
pub(crate) fn fits_type(id_type: TopicIdType, topic: &[u8]) -> bool
    ensures { result ≡ fits_type id_type topic.now }
{
    match id_type {
        TopicIdType::Predefined | TopicIdType::Short => topic.len() == 2,
        TopicIdType::Normal | TopicIdType::Reserved => true,
    }
}

/// How many octets the variable part has.
pub(crate) fn size(request: &TopicRequest) -> usize
    ensures { result ≡ length (topic_request_part request.now) }
{
    3 + request.topic.as_slice().len()
}

/// The datagram of a request of that type.
pub(crate) fn write(
    alloc: Global,
    kind: MessageType,
    request: &TopicRequest,
) -> Result<WireBytes, AllocError>
    requires { length (topic_request_part request.now) + 4 ≤ MAX_DATAGRAM }
    ensures written { IfOk result (λ o. o ≡ framed (octet_of kind) (topic_request_part request.now)) }
    ensures in_range { request.now.msg_id < 2 ^ 16 }
{
    let [high, low] = framing::octets(request.msg_id);
    let head = [request.flags.octet(), high, low];
    framing::frame(alloc, kind, &head, request.topic.as_slice())
}
