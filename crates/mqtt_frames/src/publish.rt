//! PUBLISH at QoS 0 and 1 (MQTT 3.1.1, 3.3): reading, size and writing.
ghost use Rattle.std.specs.Prelude.{◌≡◌, ◌≤◌, ◌<◌, ◌+◌, ◌∷◌, ◌++◌, false, length, IfOk, OnOk, SomeIff};
ghost use Rattle.mqtt_frames.specs.Packets.{flag, qos_bits, publish_byte, body, text_bytes, id_bytes};
ghost use Rattle.mqtt_frames.specs.Packets.{written};
ghost use Rattle.mqtt_frames.specs.Parts.{publish_of_parts};
ghost use Rattle.mqtt_frames.specs.Reading.{Gives, publish_of};
ghost use Rattle.mqtt_frames.specs.RemainingLength.{remaining_length};

use crate::fields::{self, flag};
use crate::kind::PublishFlags;
use crate::limits::MAX_PACKET;
use crate::read_fault::ReadFault;
use crate::{Packet, Publish, first, remaining};
use sng_text::{TopicName, WireBytes};
use std::alloc::{AllocError, Global};

/// A PUBLISH by its flags, its variable header and its payload.
pub fn publish_of(alloc: Global, flags: PublishFlags, body: &[u8]) -> Result<Packet, ReadFault>
    ensures { Gives (λ packet. packet) result (publish_of flags body.now) }
{
    let (name, rest) = fields::text_at(body)?;
    let (packet_id, payload) = fields::optional_id_at(flags.identified, rest)?;
    Ok(Packet::Publish(Publish {
        dup: flags.dup,
        retain: flags.retain,
        packet_id,
        name: fields::octets_of(alloc, name)?,
        payload: fields::octets_of(alloc, payload)?,
    }))
}

/// The first byte: packet type 3, DUP, QoS and RETAIN (3.3.1).
pub fn publish_byte(publish: &Publish) -> u8
    ensures { result ≡ publish_byte publish.now }
{
    flags_byte(publish.dup, publish.packet_id, publish.retain)
}

fn flags_byte(dup: bool, packet_id: Option<u16>, retain: bool) -> u8
    ensures { result ≡ 0x30 + flag dup 8 + qos_bits packet_id + flag retain 1 }
{
    let qos = match packet_id {
        None => 0,
        Some(_) => 2,
    };
    first::PUBLISH + flag(dup, 8) + qos + flag(retain, 1)
}

/// How many bytes `push` puts; none where they are more than `MAX_PACKET`.
pub fn size(publish: &Publish) -> Option<usize>
    ensures { SomeIff result (length (body (Packet.Publish publish.now)) ≤ MAX_PACKET)
        (length (body (Packet.Publish publish.now))) }
{
    let payload = publish.payload.as_slice().len();
    if payload > MAX_PACKET {
        return None;
    }
    fields::within(2 + publish.name.as_slice().len() + id_size(publish.packet_id) + payload)
}

fn id_size(packet_id: Option<u16>) -> usize
    ensures { result ≡ length (id_bytes packet_id) }
{
    match packet_id {
        None => 0,
        Some(_) => 2,
    }
}

/// Puts the variable header and the payload behind the other bytes.
pub fn push(bytes: &mut Vec<u8>, publish: &Publish) -> Result<(), AllocError>
    ensures { OnOk result (bytes.new.items ≡ bytes.old.items ++ body (Packet.Publish publish.now)) }
{
    push_parts(
        bytes,
        publish.name.as_slice(),
        publish.packet_id,
        publish.payload.as_slice(),
    )
}

fn push_parts(
    bytes: &mut Vec<u8>,
    name: &[u8],
    packet_id: Option<u16>,
    payload: &[u8],
) -> Result<(), AllocError>
    ensures { OnOk result (bytes.new.items
        ≡ bytes.old.items ++ (text_bytes name.now ++ (id_bytes packet_id ++ payload.now))) }
{
    fields::push_text(bytes, name)?;
    if let Some(packet_id) = packet_id {
        fields::push_number(bytes, usize::from(packet_id))?;
    }
    bytes.extend_from_slice(payload)
}

/// The PUBLISH of a message that is sent for the first time: at QoS 1 with a packet identifier, and else at
/// QoS 0. Allocates once at most, and copies the name and the payload once.
#[inline(always)]
pub fn write_publish(
    alloc: Global,
    name: &TopicName,
    payload: &[u8],
    retain: bool,
    packet_id: Option<u16>,
) -> Result<WireBytes, AllocError>
    ensures { IfOk result (λ o. o ≡ written (publish_of_parts name.now payload.now retain packet_id false)) }
{
    let name = name.text();
    let first = flags_byte(false, packet_id, retain);
    let rest = 2 + name.len() + id_size(packet_id) + payload.len();
    if rest < 128 {
        return match packet_id {
            None => write_brief(alloc, first, rest as u8, name, &[], payload),
            Some(packet_id) => {
                let id = fields::number_bytes(usize::from(packet_id));
                write_brief(alloc, first, rest as u8, name, &id, payload)
            }
        };
    }
    let mut bytes = remaining::front(alloc, first, rest)?;
    push_parts(&mut bytes, name, packet_id, payload)?;
    Ok(WireBytes::from(bytes))
}

/// The packet with this first byte, and with so many bytes behind its fixed header that one byte says how many
/// (2.2.3).
#[inline(always)]
fn write_brief(
    alloc: Global,
    first: u8,
    rest: u8,
    name: &[u8],
    id: &[u8],
    payload: &[u8],
) -> Result<WireBytes, AllocError>
    requires { rest < 128 }
    ensures { IfOk result (λ o. o
        ≡ first ∷ (remaining_length rest ++ (text_bytes name.now ++ (id.now ++ payload.now)))) }
{
    let [high, low] = fields::number_bytes(name.len());
    WireBytes::joined(alloc, &[first, rest, high, low], name, id, payload)
}
