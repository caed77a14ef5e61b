//! Writing packets (MQTT 3.1.1, sections 2 and 3).
ghost use Rattle.std.specs.Prelude.{◌≡◌, ◌≢◌, ◌≤◌, ◌<◌, ◌↔◌, length, Err, IfOk, OnOk, SomeIff, ◌++◌};
ghost use Rattle.mqtt_frames.specs.Packets.{first_byte, body, written};
ghost use Rattle.mqtt_frames.specs.Grammar.{Spells, HasNoSpelling};

use crate::limits::MAX_PACKET;
use crate::{
    Packet, StreamFault, acknowledgements, connect, fields, first, publish, remaining, spellable,
    subscribe, unsubscribe,
};
use std::alloc::{AllocError, Global};

/// The bytes that a packet is sent as, with the shortest Remaining Length. Allocates once.
///
/// `TooLong`: it has more than `MAX_PACKET` bytes. `Malformed`: no bytes spell the packet. `Memory`: the
/// allocation failed.
pub fn encode(alloc: Global, packet: &Packet) -> Result<Vec<u8>, StreamFault>
    ensures written { IfOk result (λ v. v.items ≡ written packet.now) }
    ensures spelled { IfOk result (λ v. Spells packet.now v.items) }
    ensures fits { IfOk result (λ v. length v.items ≤ MAX_PACKET) }
    ensures too_long { (result ≡ Err StreamFault.TooLong) ↔ (MAX_PACKET < length (written packet.now)) }
    ensures malformed { (result ≡ Err StreamFault.Malformed) ↔ HasNoSpelling packet.now }
    ensures supported { result ≢ Err StreamFault.NotSupported }
    ensures never_failed { result ≢ Err StreamFault.Failed }
{
    let Some(rest) = body_size(packet) else {
        return Err(StreamFault::TooLong);
    };
    let all = 1 + remaining::size(rest) + rest;
    if all > MAX_PACKET {
        return Err(StreamFault::TooLong);
    }
    if !spellable::has_spelling(packet) {
        return Err(StreamFault::Malformed);
    }
    Ok(write(alloc, packet, rest)?)
}

/// The bytes of a packet, of which so many stand behind the Remaining Length.
fn write(alloc: Global, packet: &Packet, rest: usize) -> Result<Vec<u8>, AllocError>
    requires counted { rest ≡ length (body packet.now) }
    requires short { rest ≤ MAX_PACKET }
    ensures { IfOk result (λ v. v.items ≡ written packet.now) }
{
    let mut bytes = remaining::front(alloc, first_byte(packet), rest)?;
    push_body(&mut bytes, packet)?;
    Ok(bytes)
}

/// The first byte of a packet (2.2).
fn first_byte(packet: &Packet) -> u8
    ensures { result ≡ first_byte packet.now }
{
    match packet {
        Packet::Connect(_) => first::CONNECT,
        Packet::ConnectAck(_) => first::CONNECT_ACK,
        Packet::Publish(publish) => publish::publish_byte(publish),
        Packet::PublishAck(_) => first::PUBLISH_ACK,
        Packet::Subscribe(_) => first::SUBSCRIBE,
        Packet::SubscribeAck(_) => first::SUBSCRIBE_ACK,
        Packet::Unsubscribe(_) => first::UNSUBSCRIBE,
        Packet::UnsubscribeAck(_) => first::UNSUBSCRIBE_ACK,
        Packet::PingRequest => first::PING_REQUEST,
        Packet::PingResponse => first::PING_RESPONSE,
        Packet::Disconnect => first::DISCONNECT,
    }
}

/// How many bytes the variable header and the payload take; none where they are more than `MAX_PACKET`.
fn body_size(packet: &Packet) -> Option<usize>
    ensures { SomeIff result (length (body packet.now) ≤ MAX_PACKET) (length (body packet.now)) }
{
    match packet {
        Packet::Connect(connect) => fields::within(connect::size(connect)),
        Packet::ConnectAck(_) | Packet::PublishAck(_) | Packet::UnsubscribeAck(_) => {
            Some(acknowledgements::SIZE)
        }
        Packet::Publish(publish) => publish::size(publish),
        Packet::Subscribe(subscribe) => subscribe::size(subscribe.requests.as_slice()),
        Packet::SubscribeAck(answer) => subscribe::ack_size(answer.codes.as_slice()),
        Packet::Unsubscribe(unsubscribe) => unsubscribe::size(unsubscribe.filters.as_slice()),
        Packet::PingRequest | Packet::PingResponse | Packet::Disconnect => Some(0),
    }
}

/// Puts the variable header and the payload behind the other bytes. After an `Err` a part of them may be
/// there.
fn push_body(bytes: &mut Vec<u8>, packet: &Packet) -> Result<(), AllocError>
    ensures { OnOk result (bytes.new.items ≡ bytes.old.items ++ body packet.now) }
{
    match packet {
        Packet::Connect(connect) => connect::push(bytes, connect),
        Packet::ConnectAck(answer) => acknowledgements::push_connect_ack(bytes, answer),
        Packet::Publish(publish) => publish::push(bytes, publish),
        Packet::PublishAck(packet_id) | Packet::UnsubscribeAck(packet_id) => {
            fields::push_number(bytes, usize::from(*packet_id))
        }
        Packet::Subscribe(subscribe) => subscribe::push(bytes, subscribe),
        Packet::SubscribeAck(answer) => subscribe::push_ack(bytes, answer),
        Packet::Unsubscribe(unsubscribe) => unsubscribe::push(bytes, unsubscribe),
        Packet::PingRequest | Packet::PingResponse | Packet::Disconnect => Ok(()),
    }
}
