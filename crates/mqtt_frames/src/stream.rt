//! A stream of packets that comes in pieces (MQTT 3.1.1, 4.2 and 4.8).
ghost use Rattle.std.specs.Prelude.{◌≡◌, ◌≢◌, ◌+◌, ◌*◌, ◌≤◌, [], length, Ok, Err, IfOk, IfErr};
ghost use Rattle.mqtt_frames.specs.Faults.{stream_fault};
ghost use Rattle.mqtt_frames.specs.Streams.{Reading, Kept, Failed, fed, TakesMemory};

use crate::pending::{self, Taken};
use crate::{Packet, PacketFault, StreamFault};
use std::alloc::Global;
use std::marker::Model;

/// What a stream does with the next piece.
#[derive(Clone, Copy, Debug)]
pub enum StreamStatus {
    /// It reads it.
    Reading,
    /// It reports a fault that stands behind packets that were answered.
    Kept(PacketFault),
    /// It fails, since a fault was reported.
    Failed,
}

/// A stream of packets, cut into pieces anyhow. It holds the bytes of an unfinished packet, and no others.
/// Contracts see those bytes, or that a fault is kept, or that one was reported.
#[derive(Debug, Drop)]
pub struct Stream {
    status: StreamStatus,
    /// The bytes of an unfinished packet; none after a fault.
    held: Vec<u8>,
    /// So many bytes at least are missing of the packet that is held, as far as is known.
    missing: usize,
}

impl Model for Stream {
    ghost use Rattle.mqtt_frames.specs.Streams.{State, state_of, IsReady, Lacks};

    ghost Value = { State };

    ghost view = { λ s. state_of s.status s.held.items };

    ghost invariant = { λ s. IsReady s.status s.held.items × Lacks s.held.items s.missing };
}

impl Stream {
    /// A stream of which nothing has come. Takes no memory.
    pub fn new(alloc: Global) -> Stream
        ensures { result ≡ Reading [] }
    {
        Stream {
            status: StreamStatus::Reading,
            held: Vec::new(alloc),
            missing: 0,
        }
    }

    /// Takes the next piece, and answers the packets that are whole now, in order: at most one, and one more
    /// for every two bytes of the piece.
    ///
    /// A fault behind packets is kept and reported by the next call; where no packet stands before it, this
    /// call reports it. `Malformed`: the bytes spell no packet. `NotSupported`: a packet of a kind that is
    /// not read. `TooLong`: a packet of more than `MAX_PACKET` bytes. `Failed`: one of the three was reported
    /// before. After these every call answers `Failed`. `Memory`: an allocation failed, and the stream is as
    /// it was; the same piece may come again.
    pub fn feed(&mut self, alloc: Global, piece: &[u8]) -> Result<Vec<Packet>, StreamFault>
        ensures ok { IfOk result (λ packets. fed self.old piece.now ≡ (Ok packets.items, self.new)) }
        ensures most { IfOk result (λ packets. 2 * length packets.items ≤ 2 + length piece.now) }
        ensures err { IfErr result (λ fault.
            fault ≢ StreamFault.Memory → fed self.old piece.now ≡ (Err fault, self.new)) }
        ensures memory { result ≡ Err StreamFault.Memory
            → (self.new ≡ self.old) × TakesMemory self.old piece.now }
        ensures kept { (fault : PacketFault) → self.old ≡ Kept fault
            → (result ≡ Err (stream_fault fault)) × (self.new ≡ Failed) }
        ensures failed { self.old ≡ Failed → (result ≡ Err StreamFault.Failed) × (self.new ≡ Failed) }
    {
        match self.status {
            StreamStatus::Failed => Err(StreamFault::Failed),
            StreamStatus::Kept(fault) => {
                self.status = StreamStatus::Failed;
                Err(StreamFault::from(fault))
            }
            StreamStatus::Reading => {
                if piece.is_empty() {
                    return Ok(Vec::new(alloc));
                }
                if piece.len() < self.missing {
                    self.held.extend_from_slice(piece)?;
                    self.missing -= piece.len();
                    return Ok(Vec::new(alloc));
                }
                let taken = pending::take(alloc, &mut self.held, piece)?;
                let Taken {
                    packets,
                    fault,
                    missing,
                } = taken;
                match fault {
                    None => {
                        self.missing = missing;
                        Ok(packets)
                    }
                    Some(fault) => {
                        // what was held is freed
                        self.held = Vec::new(alloc);
                        self.missing = 0;
                        if packets.is_empty() {
                            self.status = StreamStatus::Failed;
                            return Err(StreamFault::from(fault));
                        }
                        self.status = StreamStatus::Kept(fault);
                        Ok(packets)
                    }
                }
            }
        }
    }
}
