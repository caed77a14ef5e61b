//! Decoding a datagram as a frame (MQTT-SN 1.2, 5.2 to 5.5).
ghost use Rattle.std.specs.Prelude.{◌≡◌, ◌≢◌, ◌↔◌, ◌∷◌, Ok, Err, IfOk, IsOkAnd};
ghost use Rattle.sng_frames.specs.Parts.{part_read};
ghost use Rattle.sng_frames.specs.Reading.{Decodes, HoldsBytes, frame_of, octets_read, behind_length};
ghost use Rattle.sng_frames.specs.Reading.{message_of, is_discovery, or_malformed};
ghost use Rattle.sng_frames.specs.declared.fault.FrameFault.TheVariants.{Malformed, NotSupported};
ghost use Rattle.sng_frames.specs.declared.fault.FrameFault.TheVariants.{TooLong, Memory};

use crate::messages::{acks, connect, disconnect, part, ping, publish, register, subscribe, will};
use crate::wire::framing;
use crate::{FrameFault, MAX_DATAGRAM, MessageType, SnFrame};
use std::alloc::Global;

/// The MsgType of an ADVERTISE (5.4.1).
const ADVERTISE: u8 = 0x00;

/// The MsgType of a SEARCHGW (5.4.2).
const SEARCH_GATEWAY: u8 = 0x01;

/// The MsgType of a GWINFO (5.4.3).
const GATEWAY_INFO: u8 = 0x02;

/// The MsgType of forwarder encapsulation (5.5).
const ENCAPSULATED: u8 = 0xfe;

/// The frame that a datagram is. Allocates the copy of the variable part's text or data, where that is long, and
/// nothing else.
///
/// `Malformed`: it has more than `MAX_DATAGRAM` octets, or its Length is not its size, or its variable part
/// does not fit its type. `NotSupported`: it is an ADVERTISE, SEARCHGW or GWINFO, or its MsgType is that of
/// forwarder encapsulation, whatever its Length. `Memory`: it is a frame with text or data, and the
/// allocation of their copy failed.
#[inline(always)]
pub fn decode(alloc: Global, datagram: &[u8]) -> Result<SnFrame, FrameFault>
    ensures ok { IfOk result (λ f. frame_of datagram.now ≡ Ok f) }
    ensures malformed { (result ≡ Err Malformed) ↔ (frame_of datagram.now ≡ Err Malformed) }
    ensures not_supported { (result ≡ Err NotSupported) ↔ (frame_of datagram.now ≡ Err NotSupported) }
    ensures memory { result ≡ Err Memory → IsOkAnd (frame_of datagram.now) HoldsBytes }
    ensures never_too_long { result ≢ Err TooLong }
{
    if datagram.len() > MAX_DATAGRAM {
        return Err(FrameFault::Malformed);
    }
    decode_octets(alloc, datagram.len(), datagram)
}

/// A datagram of that size, from its Length on.
#[inline(always)]
fn decode_octets(alloc: Global, size: usize, octets: &[u8]) -> Result<SnFrame, FrameFault>
    ensures { Decodes result (octets_read size octets.now) }
{
    match octets {
        [] => Err(FrameFault::Malformed),
        [0x01, high, low, message @ ..] => decode_message(
            alloc,
            usize::from(framing::number(*high, *low)),
            size,
            message,
        ),
        [0x01, ..] => Err(FrameFault::Malformed),
        [stated, message @ ..] => decode_message(alloc, usize::from(*stated), size, message),
    }
}

/// What stands behind a Length.
#[inline(always)]
fn decode_message(
    alloc: Global,
    stated: usize,
    size: usize,
    message: &[u8],
) -> Result<SnFrame, FrameFault>
    ensures { Decodes result (behind_length stated size message.now) }
{
    match message {
        [] => Err(FrameFault::Malformed),
        [kind, part @ ..] => decode_counted(alloc, stated, size, *kind, part),
    }
}

/// A MsgType and its variable part, behind a Length that states so many octets.
#[inline(always)]
fn decode_counted(
    alloc: Global,
    stated: usize,
    size: usize,
    kind: u8,
    part: &[u8],
) -> Result<SnFrame, FrameFault>
    ensures { Decodes result (behind_length stated size (kind ∷ part.now)) }
{
    if kind == ENCAPSULATED {
        return Err(FrameFault::NotSupported);
    }
    if stated != size {
        return Err(FrameFault::Malformed);
    }
    decode_typed(alloc, kind, part)
}

/// A MsgType and its variable part.
fn decode_typed(alloc: Global, kind: u8, part: &[u8]) -> Result<SnFrame, FrameFault>
    ensures { Decodes result (message_of kind part.now) }
{
    if is_discovery(kind, part) {
        return Err(FrameFault::NotSupported);
    }
    match MessageType::from_octet(kind) {
        None => Err(FrameFault::Malformed),
        Some(message_type) => decode_part(alloc, message_type, part),
    }
}

/// Whether it is a message by which gateways and clients find each other (5.4.1 to 5.4.3).
fn is_discovery(kind: u8, part: &[u8]) -> bool
    ensures { result ≡ is_discovery kind part.now }
{
    (kind == ADVERTISE && part.len() == 3)
        || (kind == SEARCH_GATEWAY && part.len() == 1)
        || (kind == GATEWAY_INFO && !part.is_empty())
}

/// The variable part of a message of that type.
fn decode_part(alloc: Global, message_type: MessageType, part: &[u8]) -> Result<SnFrame, FrameFault>
    ensures { Decodes result (or_malformed (part_read message_type part.now)) }
{
    match message_type {
        MessageType::Connect => Ok(SnFrame::Connect(connect::decode(alloc, part)?)),
        MessageType::ConnectAck => Ok(SnFrame::ConnectAck(part::code(part)?)),
        MessageType::WillTopicRequest => {
            part::nothing(part)?;
            Ok(SnFrame::WillTopicRequest)
        }
        MessageType::WillTopic => Ok(SnFrame::WillTopic(will::decode_topic(alloc, part)?)),
        MessageType::WillMessageRequest => {
            part::nothing(part)?;
            Ok(SnFrame::WillMessageRequest)
        }
        MessageType::WillMessage => Ok(SnFrame::WillMessage(part::octets(alloc, part)?)),
        MessageType::Register => Ok(SnFrame::Register(register::decode(alloc, part)?)),
        MessageType::RegisterAck => Ok(SnFrame::RegisterAck(acks::decode_topic_ack(part)?)),
        MessageType::Publish => Ok(SnFrame::Publish(publish::decode(alloc, part)?)),
        MessageType::PublishAck => Ok(SnFrame::PublishAck(acks::decode_topic_ack(part)?)),
        MessageType::PublishComplete => Ok(SnFrame::PublishComplete(part::msg_id(part)?)),
        MessageType::PublishReceived => Ok(SnFrame::PublishReceived(part::msg_id(part)?)),
        MessageType::PublishRelease => Ok(SnFrame::PublishRelease(part::msg_id(part)?)),
        MessageType::Subscribe => Ok(SnFrame::Subscribe(subscribe::decode(alloc, part)?)),
        MessageType::SubscribeAck => Ok(SnFrame::SubscribeAck(acks::decode_subscribe_ack(part)?)),
        MessageType::Unsubscribe => Ok(SnFrame::Unsubscribe(subscribe::decode(alloc, part)?)),
        MessageType::UnsubscribeAck => Ok(SnFrame::UnsubscribeAck(part::msg_id(part)?)),
        MessageType::PingRequest => Ok(SnFrame::PingRequest(ping::decode(alloc, part)?)),
        MessageType::PingResponse => {
            part::nothing(part)?;
            Ok(SnFrame::PingResponse)
        }
        MessageType::Disconnect => Ok(SnFrame::Disconnect(disconnect::decode(part)?)),
        MessageType::WillTopicUpdate => {
            Ok(SnFrame::WillTopicUpdate(will::decode_topic(alloc, part)?))
        }
        MessageType::WillTopicResponse => Ok(SnFrame::WillTopicResponse(part::code(part)?)),
        MessageType::WillMessageUpdate => Ok(SnFrame::WillMessageUpdate(part::octets(
            alloc, part,
        )?)),
        MessageType::WillMessageResponse => Ok(SnFrame::WillMessageResponse(part::code(part)?)),
    }
}
