//! What a connection gives, and the packets that it completes.
ghost use Rattle.std.specs.Prelude.{◌≡◌, ◌≤◌, ◌+◌, ◌*◌, [], length};
ghost use Rattle.mqtt_frames.specs.Streams.{fed};
ghost use Rattle.sng_crew.specs.Streaming.{accepts, is_fault};
ghost use Rattle.sng_crew.specs.Turning.{Heard, Took};

use crate::connection::{ReadAnswer, Upstream};
use crate::limits::MAX_PACKETS;
use mqtt_frames::{Packet, Stream, StreamFault};
use std::alloc::Global;

/// The packets that were heard, and whether the connection is lost behind them.
#[derive(Debug, Drop)]
pub struct Fed {
    pub packets: Vec<Packet>,
    pub broken: bool,
}

/// Asks a connection for a piece, and the stream for its packets. Where the connection is lost, or there is
/// no memory for the piece, it is broken.
pub fn hear<U: Upstream>(alloc: Global, up: &mut U, stream: &mut Stream) -> Fed
    ensures heard { Heard U.tells U.did up.old up.new stream.old stream.new result.packets.items
        result.broken }
    ensures few { length result.packets.items ≤ MAX_PACKETS }
{
    match up.read() {
        ReadAnswer::Nothing => nothing(alloc, false),
        ReadAnswer::Gone => nothing(alloc, true),
        ReadAnswer::Piece(bytes) => take(alloc, stream, bytes.as_slice()),
    }
}

fn nothing(alloc: Global, broken: bool) -> Fed
    ensures { (result.packets.items ≡ []) × (result.broken ≡ broken) }
{
    Fed {
        packets: Vec::new(alloc),
        broken,
    }
}

/// Feeds a piece, and then an empty one, to which the stream tells a fault that it kept.
fn take(alloc: Global, stream: &mut Stream, piece: &[u8]) -> Fed
    ensures took { Took stream.old stream.new piece.now result.packets.items result.broken }
    ensures few { 2 * length result.packets.items ≤ 2 + length piece.now }
{
    match stream.feed(alloc, piece) {
        Err(StreamFault::Memory) => nothing(alloc, true),
        Err(_) => {
            let _known = tells_fault(alloc, stream);
            nothing(alloc, true)
        }
        Ok(packets) => {
            let broken = tells_fault(alloc, stream);
            Fed { packets, broken }
        }
    }
}

/// Whether the stream tells a fault to an empty piece, which takes no memory.
fn tells_fault(alloc: Global, stream: &mut Stream) -> bool
    ensures fault { result ≡ is_fault (fed stream.old []).0 }
    ensures left { stream.new ≡ (fed stream.old []).1 }
{
    match stream.feed(alloc, &[]) {
        Ok(_) => false,
        Err(_) => true,
    }
}

/// Whether the packet is a CONNACK that accepts the connection (MQTT 3.1.1, 3.2.2.3).
pub fn accepts(packet: &Packet) -> bool
    ensures { result ≡ accepts packet.now }
{
    match packet {
        Packet::ConnectAck(answer) => answer.code == 0,
        _ => false,
    }
}
