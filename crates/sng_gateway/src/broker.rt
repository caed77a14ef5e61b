//! The broker's bytes in a script: what a piece of them brings, and how a fault of them is told.
ghost use Rattle.std.specs.Prelude.{◌≡◌, ◌++◌, IfOk, OnOk, OnErr};
ghost use Rattle.sng_gateway.specs.Deeds.{arrival, fault_line, fault_text, name_of, stream_behind};

use mqtt_frames::{Packet, Stream, StreamFault};
use sng_book::Event;
use sng_book::print::push_decimal;
use std::alloc::{AllocError, Global};

/// Feeds a piece to the stream: the packets that are whole with it, and the fault behind them. A fault that
/// the stream keeps behind packets is asked for at once, by an empty piece. An `Err` is a failed allocation,
/// and leaves the stream as it was.
pub fn arrival(
    alloc: Global,
    stream: &mut Stream,
    piece: &[u8],
) -> Result<(Vec<Packet>, Option<StreamFault>), AllocError>
    ensures ok { IfOk result (λ came. arrival stream.old piece.now
        ≡ record { packets = came.0.items; fault = came.1; stream = stream.new }) }
    ensures err { OnErr result (stream.new ≡ stream.old) }
{
    let packets = match stream.feed(alloc, piece) {
        Ok(packets) => packets,
        Err(StreamFault::Memory) => return Err(AllocError),
        Err(fault) => return Ok((Vec::new(alloc), Some(fault))),
    };
    match stream.feed(alloc, &[]) {
        Ok(_) => Ok((packets, None)),
        Err(StreamFault::Memory) => Err(AllocError),
        Err(fault) => Ok((packets, Some(fault))),
    }
}

/// Begins the stream anew where the broker accepted a connection.
pub fn begin_stream(alloc: Global, stream: &mut Stream, event: &Event)
    ensures { stream.new ≡ stream_behind event.now stream.old }
{
    match event {
        Event::Up => *stream = Stream::new(alloc),
        Event::Datagram(_, _)
        | Event::Broker(_)
        | Event::Down
        | Event::Take
        | Event::Replace(_)
        | Event::Tick(_) => {}
    }
}

/// Appends the line that tells of a fault of the stream.
pub fn push_fault_line(line: &mut Vec<u8>, fault: StreamFault) -> Result<(), AllocError>
    ensures { OnOk result (line.new.items ≡ line.old.items ++ fault_line fault) }
{
    line.extend_from_slice(b"refused broker ")?;
    push_fault(line, fault)?;
    line.extend_from_slice(b"\n")
}

/// Appends the number of a fault and its name.
fn push_fault(line: &mut Vec<u8>, fault: StreamFault) -> Result<(), AllocError>
    ensures { OnOk result (line.new.items ≡ line.old.items ++ fault_text fault) }
{
    push_decimal(line, u64::from(fault.number()))?;
    line.extend_from_slice(b" ")?;
    line.extend_from_slice(name_of(fault).as_bytes())
}

/// The name of a fault, as it is told behind its number.
fn name_of(fault: StreamFault) -> &'static str
    ensures { result.now ≡ name_of fault }
{
    match fault {
        StreamFault::Malformed => "Malformed",
        StreamFault::NotSupported => "NotSupported",
        StreamFault::TooLong => "TooLong",
        StreamFault::Failed => "Failed",
        StreamFault::Memory => "Memory",
    }
}
