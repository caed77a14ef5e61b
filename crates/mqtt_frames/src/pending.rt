//! The bytes of an unfinished packet, and the piece that comes behind them (MQTT 3.1.1, 4.2).
ghost use Rattle.std.specs.Prelude.{◌≡◌, ◌+◌, ◌≤◌, ◌++◌, length, take, drop, IfOk, OnOk, OnErr};
ghost use Rattle.mqtt_frames.specs.Reading.{body_of};
ghost use Rattle.mqtt_frames.specs.Headers.{header_at, IsBrief};
ghost use Rattle.mqtt_frames.specs.Fronts.{decode};
ghost use Rattle.mqtt_frames.specs.Streams.{read_all, with_packets, behind_body, read_of, ending_of, Lacks};
ghost use Rattle.mqtt_frames.specs.declared.header.Header.TheVariants as headers;
ghost use Rattle.mqtt_frames.specs.declared.wire.decode.Front.TheVariants as fronts;

use crate::header::{self, Header};
use crate::kind::Kind;
use crate::limits::MAX_PACKET;
use crate::read_fault::ReadFault;
use crate::wire::decode::{self, Front};
use crate::{Packet, PacketFault};
use std::alloc::{AllocError, Global};

/// The most bytes of a fixed header: the first byte, and four of Remaining Length (2.2).
const LONGEST_HEADER: usize = 5;

/// What came of a piece.
#[derive(Debug, Drop)]
pub struct Taken {
    /// The packets that are whole, in order.
    pub packets: Vec<Packet>,
    /// The fault that stands behind them.
    pub fault: Option<PacketFault>,
    /// So many bytes at least are missing of the packet that is held, as far as is known.
    pub missing: usize,
}

/// Takes the next piece. Where no fault comes of it, the bytes of the packet that is unfinished then are
/// held; where an allocation failed, those of before.
#[tactic(auto, using(crate::proofs::PieceLemmas::lacks_none))]
pub fn take(alloc: Global, held: &mut Vec<u8>, piece: &[u8]) -> Result<Taken, AllocError>
    requires { decode held.old.items ≡ fronts.Waiting }
    ensures ok { IfOk result (λ taken.
        read_all (held.old.items ++ piece.now) ≡ read_of taken.packets.items taken.fault held.new.items) }
    ensures missing { IfOk result (λ taken. Lacks held.new.items taken.missing) }
    ensures err { OnErr result (held.new.items ≡ held.old.items) }
{
    if held.is_empty() {
        return read_behind(alloc, held, Vec::new(alloc), piece);
    }
    match header_of(held, piece)? {
        Header::Unfinished => {
            held.extend_from_slice(piece)?;
            Ok(Taken {
                packets: Vec::new(alloc),
                fault: None,
                missing: 0,
            })
        }
        Header::Faulty(fault) => Ok(Taken {
            packets: Vec::new(alloc),
            fault: Some(fault),
            missing: 0,
        }),
        Header::Known(kind, start, rest) => complete(alloc, held, kind, start, rest, piece),
    }
}

/// The fixed header of the packet that the held bytes begin, as far as the piece goes on with it.
fn header_of(held: &mut Vec<u8>, piece: &[u8]) -> Result<Header, AllocError>
    ensures same { held.new.items ≡ held.old.items }
    ensures ok { IfOk result (λ header. header ≡ header_at (held.old.items ++ piece.now)) }
    ensures brief { IfOk result (λ header. IsBrief header) }
{
    let before = held.len();
    if before >= LONGEST_HEADER {
        return Ok(header::header_at(held.as_slice()));
    }
    held.extend_from_slice(first_bytes(piece))?;
    let header = header::header_at(held.as_slice());
    held.truncate(before);
    Ok(header)
}

/// The first bytes of the piece, as many as a fixed header has at most.
fn first_bytes(piece: &[u8]) -> &[u8]
    ensures { result.now ≡ take LONGEST_HEADER piece.now }
{
    if piece.len() <= LONGEST_HEADER {
        return piece;
    }
    piece.split_at(LONGEST_HEADER).0
}

/// Takes a piece behind bytes that begin a packet of that kind, whose header has `start` bytes, and `rest`
/// stand behind the header.
fn complete(
    alloc: Global,
    held: &mut Vec<u8>,
    kind: Kind,
    start: usize,
    rest: usize,
    piece: &[u8],
) -> Result<Taken, AllocError>
    requires waiting { decode held.old.items ≡ fronts.Waiting }
    requires header { headers.Known kind start rest ≡ header_at (held.old.items ++ piece.now) }
    requires brief { IsBrief (headers.Known kind start rest) }
    ensures ok { IfOk result (λ taken.
        read_all (held.old.items ++ piece.now) ≡ read_of taken.packets.items taken.fault held.new.items) }
    ensures missing { IfOk result (λ taken. Lacks held.new.items taken.missing) }
    ensures err { OnErr result (held.new.items ≡ held.old.items) }
{
    let total = start + rest;
    if total > MAX_PACKET {
        return Ok(Taken {
            packets: Vec::new(alloc),
            fault: Some(PacketFault::TooLong),
            missing: 0,
        });
    }
    let before = held.len();
    let missing = total - before;
    if piece.len() < missing {
        // room for the whole packet at once: no byte of it moves again
        held.reserve_exact(missing)?;
        held.extend_from_slice(piece)?;
        return Ok(Taken {
            packets: Vec::new(alloc),
            fault: None,
            missing: missing - piece.len(),
        });
    }
    let (part, behind) = piece.split_at(missing);
    held.extend_from_slice(part)?;
    let taken = completed(alloc, held, kind, start, behind);
    if taken.is_err() {
        held.truncate(before);
    }
    taken
}

/// Reads the packet that the held bytes are as a whole, and what stands behind it.
#[tactic(auto, using(crate::proofs::PieceLemmas::lacks_none))]
fn completed(
    alloc: Global,
    held: &mut Vec<u8>,
    kind: Kind,
    start: usize,
    behind: &[u8],
) -> Result<Taken, AllocError>
    requires { start ≤ length held.old.items }
    ensures ok { IfOk result (λ taken. behind_body (body_of kind (drop start held.old.items)) behind.now
        ≡ read_of taken.packets.items taken.fault held.new.items) }
    ensures missing { IfOk result (λ taken. Lacks held.new.items taken.missing) }
    ensures err { OnErr result (held.new.items ≡ held.old.items) }
{
    let (_, body) = held.as_slice().split_at(start);
    match decode::body_of(alloc, kind, body) {
        Ok(packet) => {
            let mut packets = Vec::new(alloc);
            packets.push(packet)?;
            read_behind(alloc, held, packets, behind)
        }
        Err(ReadFault::Packet(fault)) => Ok(Taken {
            packets: Vec::new(alloc),
            fault: Some(fault),
            missing: 0,
        }),
        Err(ReadFault::Memory) => Err(AllocError),
    }
}

/// Reads bytes that stand behind packets, and holds those of an unfinished packet in place of what was held.
#[tactic(auto, using(crate::proofs::PieceLemmas::lacks_none))]
fn read_behind(
    alloc: Global,
    held: &mut Vec<u8>,
    packets: Vec<Packet>,
    bytes: &[u8],
) -> Result<Taken, AllocError>
    ensures ok { IfOk result (λ taken. with_packets packets.items (read_all bytes.now)
        ≡ read_of taken.packets.items taken.fault held.new.items) }
    ensures missing { IfOk result (λ taken. Lacks held.new.items taken.missing) }
    ensures err { OnErr result (held.new.items ≡ held.old.items) }
{
    let (packets, ending) = read_all(alloc, packets, bytes)?;
    match ending {
        Remainder::Rest(rest) => {
            hold(alloc, held, rest)?;
            Ok(Taken {
                packets,
                fault: None,
                missing: 0,
            })
        }
        Remainder::Fault(fault) => Ok(Taken {
            packets,
            fault: Some(fault),
            missing: 0,
        }),
    }
}

/// Holds these bytes in place of the others, in the same memory where they fit.
fn hold(alloc: Global, held: &mut Vec<u8>, bytes: &[u8]) -> Result<(), AllocError>
    ensures ok { OnOk result (held.new.items ≡ bytes.now) }
    ensures err { OnErr result (held.new.items ≡ held.old.items) }
{
    if bytes.len() > held.capacity() {
        *held = Vec::from_slice(alloc, bytes)?;
        return Ok(());
    }
    held.clear();
    held.extend_from_slice(bytes)
}

/// How the reading of bytes ended.
#[derive(Debug, Drop)]
pub enum Remainder<'a> {
    /// With the bytes of an unfinished packet, or none.
    Rest(&'a [u8]),
    /// With a fault.
    Fault(PacketFault),
}

/// Adds the packets at the front of the bytes to others, and says how the reading ended.
fn read_all(
    alloc: Global,
    packets: Vec<Packet>,
    bytes: &[u8],
) -> Result<(Vec<Packet>, Remainder<'_>), AllocError>
    ensures { IfOk result (λ read. with_packets packets.items (read_all bytes.now)
        ≡ record { packets = read.0.items; ending = ending_of read.1 }) }
{
    let mut packets = packets;
    let mut rest = bytes;
    loop {
        if let Some(packet_id) = decode::publish_ack_at(rest) {
            packets.push(Packet::PublishAck(packet_id))?;
            rest = rest.split_at(4).1;
            continue;
        }
        match decode::decode(alloc, rest)? {
            Front::Waiting => return Ok((packets, Remainder::Rest(rest))),
            Front::Faulty(fault) => return Ok((packets, Remainder::Fault(fault))),
            Front::Whole(packet, size) => {
                packets.push(packet)?;
                rest = rest.split_at(size).1;
            }
        }
    }
}
