//! CONNACK (MQTT 3.1.1, 3.2), and what PUBACK (3.4) and UNSUBACK (3.11) share: reading and writing.
ghost use Rattle.std.specs.Prelude.{◌≡◌, ◌++◌, IfOk, OnOk};
ghost use Rattle.mqtt_frames.specs.Packets.{body, written};
ghost use Rattle.mqtt_frames.specs.Reading.{session_of, connect_ack_of, whole_id};

use crate::fields::{self, flag};
use crate::{ConnectAck, Packet, PacketFault, first, remaining};
use sng_text::WireBytes;
use std::alloc::{AllocError, Global};

/// How many bytes each of the three takes behind its Remaining Length.
pub const SIZE: usize = 2;

/// A CONNACK by its variable header.
pub fn connect_ack_of(body: &[u8]) -> Result<Packet, PacketFault>
    ensures { result ≡ connect_ack_of body.now }
{
    match body {
        [flags, code] => Ok(Packet::ConnectAck(ConnectAck {
            session_present: session_of(*flags)?,
            code: *code,
        })),
        _ => Err(PacketFault::Malformed),
    }
}

/// Whether there is a session, as the one flag that may be set (3.2.2.2).
fn session_of(flags: u8) -> Result<bool, PacketFault>
    ensures { result ≡ session_of flags }
{
    match flags {
        0 => Ok(false),
        1 => Ok(true),
        _ => Err(PacketFault::Malformed),
    }
}

/// Puts the variable header of a CONNACK behind the other bytes.
pub fn push_connect_ack(bytes: &mut Vec<u8>, answer: &ConnectAck) -> Result<(), AllocError>
    ensures { OnOk result (bytes.new.items ≡ bytes.old.items ++ body (Packet.ConnectAck answer.now)) }
{
    bytes.push(flag(answer.session_present, 1))?;
    bytes.push(answer.code)?;
    Ok(())
}

/// A packet identifier and nothing behind it: a PUBACK or an UNSUBACK.
pub fn whole_id(bytes: &[u8]) -> Result<u16, PacketFault>
    ensures { result ≡ whole_id bytes.now }
{
    let (packet_id, rest) = fields::id_at(bytes)?;
    match rest {
        [] => Ok(packet_id),
        _ => Err(PacketFault::Malformed),
    }
}

/// The PUBACK of a packet identifier. Allocates once.
pub fn encode_publish_ack(alloc: Global, packet_id: u16) -> Result<WireBytes, AllocError>
    ensures { IfOk result (λ o. o ≡ written (Packet.PublishAck packet_id)) }
{
    let mut bytes = remaining::front(alloc, first::PUBLISH_ACK, SIZE)?;
    fields::push_number(&mut bytes, usize::from(packet_id))?;
    Ok(WireBytes::from(bytes))
}
