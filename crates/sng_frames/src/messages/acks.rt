//! Acknowledgements: CONNACK (MQTT-SN 1.2, 5.4.5), REGACK (5.4.11), PUBACK (5.4.13), PUBREC, PUBREL and
//! PUBCOMP (5.4.14), SUBACK (5.4.16) and UNSUBACK (5.4.18). Each has a fixed size.
ghost use Rattle.std.specs.Prelude.{◌≡◌, IfOk};
ghost use Rattle.sng_frames.specs.Grammar.{IsInRange};
ghost use Rattle.sng_frames.specs.MessageTypes.{octet_of};
ghost use Rattle.sng_frames.specs.Parts.{topic_ack_of, subscribe_ack_of};
ghost use Rattle.sng_frames.specs.Reading.{or_malformed};
ghost use Rattle.sng_frames.specs.Writing.{framed, topic_ack_part, written};
ghost use Rattle.sng_frames.specs.declared.frame.SnFrame.TheVariants as frames;

use crate::wire::framing;
use crate::{Flags, FrameFault, MessageType, ReturnCode};
use sng_text::WireBytes;
use std::alloc::{AllocError, Global};

/// A REGACK or a PUBACK.
#[derive(Clone, Copy, Debug, PartialEq, Eq)]
pub struct TopicAck {
    /// The TopicId field: an id, or the two octets of a short name, the first one high.
    pub topic_id: u16,
    /// The MsgId of the message that is acknowledged.
    pub msg_id: u16,
    /// Whether it was accepted.
    pub code: ReturnCode,
}

/// A SUBACK.
#[derive(Clone, Copy, Debug, PartialEq, Eq)]
pub struct SubscribeAck {
    /// All eight bits, of which QoS means something here.
    pub flags: Flags,
    /// The TopicId field, 0 where the filter has no id.
    pub topic_id: u16,
    /// The MsgId of the SUBSCRIBE.
    pub msg_id: u16,
    /// Whether it was accepted.
    pub code: ReturnCode,
}

/// How many octets the variable part of a REGACK or PUBACK has.
pub(crate) const TOPIC_ACK_SIZE: usize = 5;

/// How many octets the variable part of a SUBACK has.
pub(crate) const SUBSCRIBE_ACK_SIZE: usize = 6;

/// TopicId, MsgId, ReturnCode.
pub(crate) fn decode_topic_ack(part: &[u8]) -> Result<TopicAck, FrameFault>
    ensures { result ≡ or_malformed (topic_ack_of part.now) }
{
    match part {
        [topic_high, topic_low, msg_high, msg_low, code] => Ok(TopicAck {
            topic_id: framing::number(*topic_high, *topic_low),
            msg_id: framing::number(*msg_high, *msg_low),
            code: ReturnCode(*code),
        }),
        _ => Err(FrameFault::Malformed),
    }
}

/// Flags, TopicId, MsgId, ReturnCode.
pub(crate) fn decode_subscribe_ack(part: &[u8]) -> Result<SubscribeAck, FrameFault>
    ensures { result ≡ or_malformed (subscribe_ack_of part.now) }
{
    match part {
        [flags, topic_high, topic_low, msg_high, msg_low, code] => Ok(SubscribeAck {
            flags: Flags::from_octet(*flags),
            topic_id: framing::number(*topic_high, *topic_low),
            msg_id: framing::number(*msg_high, *msg_low),
            code: ReturnCode(*code),
        }),
        _ => Err(FrameFault::Malformed),
    }
}

/// The datagram of a CONNACK. Allocates once.
pub fn write_connect_ack(alloc: Global, code: ReturnCode) -> Result<WireBytes, AllocError>
    ensures { IfOk result (λ o. o ≡ written (frames.ConnectAck code)) }
{
    framing::frame(alloc, MessageType::ConnectAck, &[code.0], &[])
}

/// The datagram of a REGACK. Allocates once.
pub fn write_register_ack(alloc: Global, ack: TopicAck) -> Result<WireBytes, AllocError>
    ensures { IfOk result (λ o. o ≡ written (frames.RegisterAck ack)) }
{
    write_topic_ack(alloc, MessageType::RegisterAck, ack)
}

/// The datagram of a PUBACK. Allocates once.
pub fn write_publish_ack(alloc: Global, ack: TopicAck) -> Result<WireBytes, AllocError>
    ensures { IfOk result (λ o. o ≡ written (frames.PublishAck ack)) }
{
    write_topic_ack(alloc, MessageType::PublishAck, ack)
}

/// The datagram of a REGACK or PUBACK, by its type.
pub(crate) fn write_topic_ack(
    alloc: Global,
    kind: MessageType,
    ack: TopicAck,
) -> Result<WireBytes, AllocError>
    ensures written { IfOk result (λ o. o ≡ framed (octet_of kind) (topic_ack_part ack)) }
    ensures in_range { IsInRange (frames.RegisterAck ack) }
{
    let [topic_high, topic_low] = framing::octets(ack.topic_id);
    let [msg_high, msg_low] = framing::octets(ack.msg_id);
    let part = [topic_high, topic_low, msg_high, msg_low, ack.code.0];
    framing::frame(alloc, kind, &part, &[])
}

/// The datagram of a SUBACK. Allocates once.
pub fn write_subscribe_ack(alloc: Global, ack: SubscribeAck) -> Result<WireBytes, AllocError>
    ensures written { IfOk result (λ o. o ≡ written (frames.SubscribeAck ack)) }
    ensures in_range { IsInRange (frames.SubscribeAck ack) }
{
    let [topic_high, topic_low] = framing::octets(ack.topic_id);
    let [msg_high, msg_low] = framing::octets(ack.msg_id);
    let part = [
        ack.flags.octet(),
        topic_high,
        topic_low,
        msg_high,
        msg_low,
        ack.code.0,
    ];
    framing::frame(alloc, MessageType::SubscribeAck, &part, &[])
}

/// The datagram of a PUBCOMP. Allocates once.
pub fn write_publish_complete(alloc: Global, msg_id: u16) -> Result<WireBytes, AllocError>
    ensures { IfOk result (λ o. o ≡ written (frames.PublishComplete msg_id)) }
{
    framing::frame(
        alloc,
        MessageType::PublishComplete,
        &framing::octets(msg_id),
        &[],
    )
}

/// The datagram of a PUBREC. Allocates once.
pub fn write_publish_received(alloc: Global, msg_id: u16) -> Result<WireBytes, AllocError>
    ensures { IfOk result (λ o. o ≡ written (frames.PublishReceived msg_id)) }
{
    framing::frame(
        alloc,
        MessageType::PublishReceived,
        &framing::octets(msg_id),
        &[],
    )
}

/// The datagram of a PUBREL. Allocates once.
pub fn write_publish_release(alloc: Global, msg_id: u16) -> Result<WireBytes, AllocError>
    ensures { IfOk result (λ o. o ≡ written (frames.PublishRelease msg_id)) }
{
    framing::frame(
        alloc,
        MessageType::PublishRelease,
        &framing::octets(msg_id),
        &[],
    )
}

/// The datagram of an UNSUBACK. Allocates once.
pub fn write_unsubscribe_ack(alloc: Global, msg_id: u16) -> Result<WireBytes, AllocError>
    ensures { IfOk result (λ o. o ≡ written (frames.UnsubscribeAck msg_id)) }
{
    framing::frame(
        alloc,
        MessageType::UnsubscribeAck,
        &framing::octets(msg_id),
        &[],
    )
}
