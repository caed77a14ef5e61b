//! The fields of packets (MQTT 3.1.1, 1.5 and 2.3.1): reading them from the front of bytes, and putting them
//! behind other bytes. What is too short for a field is `Malformed`. After an `Err` of writing a part of the
//! field may be there.
ghost use Rattle.std.specs.Prelude.{◌≡◌, ◌≤◌, ◌++◌, IfOk, OnOk, SomeIff};
ghost use Rattle.mqtt_frames.specs.Packets.{flag, number_bytes, text_bytes};
ghost use Rattle.mqtt_frames.specs.Reading.{Reads, number_at, id_at, text_at, optional_id_at};

use crate::PacketFault;
use crate::limits::MAX_PACKET;
use sng_text::Octets;
use std::alloc::{AllocError, Global};

/// A number of two bytes, and what stands behind it (1.5.2).
pub fn number_at(bytes: &[u8]) -> Result<(u16, &[u8]), PacketFault>
    ensures { Reads (λ x. (x.0, x.1.now)) result (number_at bytes.now) }
{
    match bytes {
        // Sums in place of `u16::from_be_bytes`: the definition is one, and the prover computes with it.
        [high, low, rest @ ..] => Ok((u16::from(*high) * 256 + u16::from(*low), rest)),
        _ => Err(PacketFault::Malformed),
    }
}

/// A packet identifier, which is not 0, and what stands behind it (2.3.1).
pub fn id_at(bytes: &[u8]) -> Result<(u16, &[u8]), PacketFault>
    ensures { Reads (λ x. (x.0, x.1.now)) result (id_at bytes.now) }
{
    let (packet_id, rest) = number_at(bytes)?;
    if packet_id == 0 {
        return Err(PacketFault::Malformed);
    }
    Ok((packet_id, rest))
}

/// A packet identifier where there is one, and what stands behind it (3.3.2.2).
pub fn optional_id_at(identified: bool, bytes: &[u8]) -> Result<(Option<u16>, &[u8]), PacketFault>
    ensures { Reads (λ x. (x.0, x.1.now)) result (optional_id_at identified bytes.now) }
{
    if !identified {
        return Ok((None, bytes));
    }
    let (packet_id, rest) = id_at(bytes)?;
    Ok((Some(packet_id), rest))
}

/// A text, and what stands behind it (1.5.3).
pub fn text_at(bytes: &[u8]) -> Result<(&[u8], &[u8]), PacketFault>
    ensures { Reads (λ x. (x.0.now, x.1.now)) result (text_at bytes.now) }
{
    let (count, rest) = number_at(bytes)?;
    let count = usize::from(count);
    if rest.len() < count {
        return Err(PacketFault::Malformed);
    }
    Ok(rest.split_at(count))
}

/// The bytes, copied.
pub fn octets_of(alloc: Global, bytes: &[u8]) -> Result<Octets, AllocError>
    ensures { IfOk result (λ o. o ≡ bytes.now) }
{
    Octets::of(alloc, bytes)
}

/// The weight of a flag that is set.
pub fn flag(is_set: bool, weight: u8) -> u8
    ensures { result ≡ flag is_set weight }
{
    if is_set { weight } else { 0 }
}

/// The size, where it is at most `MAX_PACKET`.
pub fn within(size: usize) -> Option<usize>
    ensures { SomeIff result (size ≤ MAX_PACKET) size }
{
    if size <= MAX_PACKET { Some(size) } else { None }
}

/// Two bytes, the high one first (1.5.2).
pub fn number_bytes(number: usize) -> [u8; 2]
    ensures { result ≡ number_bytes number }
{
    // Divisions in place of `u16::to_be_bytes`: the definition divides, and the prover computes with it.
    [(number / 256 % 256) as u8, (number % 256) as u8]
}

/// Two bytes, the high one first (1.5.2).
pub fn push_number(bytes: &mut Vec<u8>, number: usize) -> Result<(), AllocError>
    ensures { OnOk result (bytes.new.items ≡ bytes.old.items ++ number_bytes number) }
{
    bytes.extend_from_slice(&number_bytes(number))
}

/// A text behind its length (1.5.3).
pub fn push_text(bytes: &mut Vec<u8>, text: &[u8]) -> Result<(), AllocError>
    ensures { OnOk result (bytes.new.items ≡ bytes.old.items ++ text_bytes text.now) }
{
    push_number(bytes, text.len())?;
    bytes.extend_from_slice(text)
}
