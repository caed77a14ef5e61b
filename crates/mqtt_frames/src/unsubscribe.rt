//! UNSUBSCRIBE (MQTT 3.1.1, 3.10): reading, size and writing.
ghost use Rattle.std.specs.Prelude.{◌≡◌, ◌+◌, ◌<◌, ◌≤◌, ◌++◌, length, IfOk, OnOk, SomeIff};
ghost use Rattle.mqtt_frames.specs.Packets.{body, written, filters_bytes};
ghost use Rattle.mqtt_frames.specs.Parts.{unsubscribe_of_parts};
ghost use Rattle.mqtt_frames.specs.Reading.{Gives, text_at, items_of, unsubscribe_of};

use crate::limits::MAX_PACKET;
use crate::read_fault::ReadFault;
use crate::{List, Packet, PacketFault, Unsubscribe, fields, first, remaining};
use sng_text::{Octets, TopicFilter, WireBytes};
use std::alloc::{AllocError, Global};

/// An UNSUBSCRIBE by its variable header and payload.
pub fn unsubscribe_of(alloc: Global, body: &[u8]) -> Result<Packet, ReadFault>
    ensures { Gives (λ packet. packet) result (unsubscribe_of body.now) }
{
    let (packet_id, rest) = fields::id_at(body)?;
    if rest.is_empty() {
        return Err(ReadFault::Packet(PacketFault::Malformed));
    }
    let filters = filters_of(alloc, rest)?;
    Ok(Packet::Unsubscribe(Unsubscribe {
        packet_id,
        filters: List::from(filters),
    }))
}

/// Topic filters, up to the last byte (3.10.3).
fn filters_of(alloc: Global, bytes: &[u8]) -> Result<Vec<Octets>, ReadFault>
    ensures { Gives (λ v. v.items) result (items_of text_at bytes.now) }
{
    let mut filters = Vec::new(alloc);
    let mut rest = bytes;
    while !rest.is_empty() {
        let (filter, behind) = filter_at(alloc, rest)?;
        filters.push(filter)?;
        rest = behind;
    }
    Ok(filters)
}

fn filter_at(alloc: Global, bytes: &[u8]) -> Result<(Octets, &[u8]), ReadFault>
    ensures { Gives (λ x. (x.0, x.1.now)) result (text_at bytes.now) }
{
    let (filter, rest) = fields::text_at(bytes)?;
    Ok((fields::octets_of(alloc, filter)?, rest))
}

/// How many bytes a packet identifier takes with these filters; none where they are more than `MAX_PACKET`.
pub fn size(filters: &[Octets]) -> Option<usize>
    ensures { SomeIff result (2 + length (filters_bytes filters.now) ≤ MAX_PACKET)
        (2 + length (filters_bytes filters.now)) }
{
    let mut size = 2;
    for filter in filters {
        size += 2 + filter.as_slice().len();
        if size > MAX_PACKET {
            return None;
        }
    }
    Some(size)
}

/// Puts the variable header and the payload behind the other bytes.
pub fn push(bytes: &mut Vec<u8>, unsubscribe: &Unsubscribe) -> Result<(), AllocError>
    ensures { OnOk result (bytes.new.items ≡ bytes.old.items ++ body (Packet.Unsubscribe unsubscribe.now)) }
{
    fields::push_number(bytes, usize::from(unsubscribe.packet_id))?;
    push_filters(bytes, unsubscribe.filters.as_slice())
}

fn push_filters(bytes: &mut Vec<u8>, filters: &[Octets]) -> Result<(), AllocError>
    ensures { OnOk result (bytes.new.items ≡ bytes.old.items ++ filters_bytes filters.now) }
{
    for filter in filters {
        fields::push_text(bytes, filter.as_slice())?;
    }
    Ok(())
}

/// An UNSUBSCRIBE of one filter, under a packet identifier that is not 0. Allocates once.
pub fn encode_unsubscribe(
    alloc: Global,
    packet_id: u16,
    filter: &TopicFilter,
) -> Result<WireBytes, AllocError>
    requires { 0 < packet_id }
    ensures { IfOk result (λ o. o ≡ written (unsubscribe_of_parts packet_id filter.now)) }
{
    let filter = filter.text();
    let mut bytes = remaining::front(alloc, first::UNSUBSCRIBE, 4 + filter.len())?;
    fields::push_number(&mut bytes, usize::from(packet_id))?;
    fields::push_text(&mut bytes, filter)?;
    Ok(WireBytes::from(bytes))
}
