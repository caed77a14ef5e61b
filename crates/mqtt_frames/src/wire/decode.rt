//! Reading the packet at the front of a stream of bytes (MQTT 3.1.1, sections 2 and 3).
ghost use Rattle.std.specs.Prelude.{◌≡◌, ◌≤◌, ◌<◌, length, IfOk, IfSome};
ghost use Rattle.mqtt_frames.specs.Fronts.{decode, publish_ack_at, IsWithin};
ghost use Rattle.mqtt_frames.specs.Reading.{Gives, body_of};
ghost use Rattle.mqtt_frames.specs.declared.wire.decode.Front.TheVariants as fronts;

use crate::header::{self, Header};
use crate::kind::Kind;
use crate::limits::MAX_PACKET;
use crate::read_fault::ReadFault;
use crate::{
    Packet, PacketFault, acknowledgements, bare, connect, first, publish, subscribe, unsubscribe,
};
use std::alloc::{AllocError, Global};

/// What stands at the front of bytes.
#[derive(Debug, Drop)]
pub enum Front {
    /// Less than a packet, nothing at least.
    Waiting,
    /// A fault.
    Faulty(PacketFault),
    /// A packet, and how many bytes spell it.
    Whole(Packet, usize),
}

/// The packet identifier of the PUBACK at the front of the bytes, where it is spelled in four bytes, the fewest
/// that can spell it (3.4). At QoS 1 most of what a broker sends is such a PUBACK, so it is read where it lies.
#[inline(always)]
pub(crate) fn publish_ack_at(bytes: &[u8]) -> Option<u16>
    ensures value { result ≡ publish_ack_at bytes.now }
    ensures whole { IfSome result (λ packet_id. decode bytes.now ≡ fronts.Whole (Packet.PublishAck packet_id) 4) }
    ensures within { IfSome result (λ packet_id. 4 ≤ length bytes.now) }
{
    match bytes {
        [first::PUBLISH_ACK, 2, high, low, ..] => {
            let packet_id = u16::from(*high) * 256 + u16::from(*low);
            if packet_id == 0 {
                None
            } else {
                Some(packet_id)
            }
        }
        _ => None,
    }
}

/// The packet or the fault at the front of the bytes. The only error is that an allocation failed.
#[inline(always)]
pub fn decode(alloc: Global, bytes: &[u8]) -> Result<Front, AllocError>
    ensures value { IfOk result (λ front. front ≡ decode bytes.now) }
    ensures within { IfOk result (λ front. IsWithin (length bytes.now) front) }
{
    match header::header_at(bytes) {
        Header::Unfinished => Ok(Front::Waiting),
        Header::Faulty(fault) => Ok(Front::Faulty(fault)),
        Header::Known(kind, start, rest) => {
            if start + rest > MAX_PACKET {
                return Ok(Front::Faulty(PacketFault::TooLong));
            }
            if bytes.len() < start + rest {
                return Ok(Front::Waiting);
            }
            let (_, behind) = bytes.split_at(start);
            let (body, _) = behind.split_at(rest);
            match body_of(alloc, kind, body) {
                Ok(packet) => Ok(Front::Whole(packet, start + rest)),
                Err(ReadFault::Packet(fault)) => Ok(Front::Faulty(fault)),
                Err(ReadFault::Memory) => Err(AllocError),
            }
        }
    }
}

/// The packet of the kind whose variable header and payload the bytes are. Allocates a copy of each variable
/// part, and nothing else.
///
/// `NotSupported`: a CONNECT with other flags than CleanSession. `Malformed`: the bytes are those of no
/// packet of the kind. `Memory`: an allocation failed.
pub fn body_of(alloc: Global, kind: Kind, body: &[u8]) -> Result<Packet, ReadFault>
    ensures { Gives (λ packet. packet) result (body_of kind body.now) }
{
    match kind {
        Kind::Connect => connect::connect_of(alloc, body),
        Kind::ConnectAck => Ok(acknowledgements::connect_ack_of(body)?),
        Kind::Publish(flags) => publish::publish_of(alloc, flags, body),
        Kind::PublishAck => Ok(Packet::PublishAck(acknowledgements::whole_id(body)?)),
        Kind::Subscribe => subscribe::subscribe_of(alloc, body),
        Kind::SubscribeAck => subscribe::subscribe_ack_of(alloc, body),
        Kind::Unsubscribe => unsubscribe::unsubscribe_of(alloc, body),
        Kind::UnsubscribeAck => Ok(Packet::UnsubscribeAck(acknowledgements::whole_id(body)?)),
        Kind::PingRequest => bare::ping_request_of(body),
        Kind::PingResponse => bare::ping_response_of(body),
        Kind::Disconnect => bare::disconnect_of(body),
    }
}
