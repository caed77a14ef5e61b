//! The packets that have neither a variable header nor a payload (MQTT 3.1.1, 3.12 to 3.14): reading and
//! writing.
ghost use Rattle.std.specs.Prelude.{◌≡◌, IfOk};
ghost use Rattle.mqtt_frames.specs.Packets.{written};
ghost use Rattle.mqtt_frames.specs.Reading.{Gives, at_end};

use crate::read_fault::ReadFault;
use crate::{Packet, PacketFault, first, remaining};
use sng_text::WireBytes;
use std::alloc::{AllocError, Global};

/// A PINGREQ, where no byte stands behind its fixed header (3.12). It and the two below stand apart: few packets are
/// of their kinds, and what they answer would else be moved for each.
#[inline(never)]
pub fn ping_request_of(body: &[u8]) -> Result<Packet, ReadFault>
    ensures { Gives (λ packet. packet) result (at_end Packet.PingRequest body.now) }
{
    at_end(Packet::PingRequest, body)
}

/// A PINGRESP, where no byte stands behind its fixed header (3.13).
#[inline(never)]
pub fn ping_response_of(body: &[u8]) -> Result<Packet, ReadFault>
    ensures { Gives (λ packet. packet) result (at_end Packet.PingResponse body.now) }
{
    at_end(Packet::PingResponse, body)
}

/// A DISCONNECT, where no byte stands behind its fixed header (3.14).
#[inline(never)]
pub fn disconnect_of(body: &[u8]) -> Result<Packet, ReadFault>
    ensures { Gives (λ packet. packet) result (at_end Packet.Disconnect body.now) }
{
    at_end(Packet::Disconnect, body)
}

/// The packet, where no byte stands behind its fixed header.
fn at_end(packet: Packet, body: &[u8]) -> Result<Packet, ReadFault>
    ensures { Gives (λ packet. packet) result (at_end packet body.now) }
{
    match body {
        [] => Ok(packet),
        _ => Err(ReadFault::Packet(PacketFault::Malformed)),
    }
}

/// A PINGREQ. Allocates once.
pub fn encode_ping_request(alloc: Global) -> Result<WireBytes, AllocError>
    ensures { IfOk result (λ o. o ≡ written Packet.PingRequest) }
{
    Ok(WireBytes::from(remaining::front(alloc, first::PING_REQUEST, 0)?))
}

/// A DISCONNECT. Allocates once.
pub fn encode_disconnect(alloc: Global) -> Result<WireBytes, AllocError>
    ensures { IfOk result (λ o. o ≡ written Packet.Disconnect) }
{
    Ok(WireBytes::from(remaining::front(alloc, first::DISCONNECT, 0)?))
}
