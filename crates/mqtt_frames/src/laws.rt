//! The laws of writing and reading. Each function here only states one: its contract is the law, and calling
//! it does nothing.
ghost use Rattle.std.specs.Prelude.{◌≡◌};
ghost use Rattle.mqtt_frames.specs.Laws.{WritesASpelling, SpellsOne, ReadsASpelling, ReadsWhatIsSpelled};
ghost use Rattle.mqtt_frames.specs.Laws.{ReadsWhatIsWritten};
ghost use Rattle.mqtt_frames.specs.Laws.{WritesTheShortest};
ghost use Rattle.mqtt_frames.specs.FrontLaws.{ReadsWhatStandsThere, WaitsForTheUnfinished, RefusesTheTooLong};
ghost use Rattle.mqtt_frames.specs.FrontLaws.{RefusesTheUnsupported, RefusesTheRest};
ghost use Rattle.mqtt_frames.specs.StreamLaws.{ReadsTheStream, ReadsWhatStands, FaultIsNoPacket, IsCutAnyhow};

use crate::limits::{MAX_PACKET, MAX_REMAINING};

/// The number of each limit.
pub fn limits()
    ensures most_of_a_packet { MAX_PACKET ≡ 70000 }
    ensures most_that_remains { MAX_REMAINING ≡ 268435455 }
{}

/// A packet that has a spelling is written as bytes that spell it, where `MAX_REMAINING` bytes at most stand
/// behind its Remaining Length.
pub fn what_is_written_is_spelled()
    ensures { WritesASpelling }
{}

/// No bytes spell two packets.
pub fn bytes_spell_one_packet()
    ensures { SpellsOne }
{}

/// What spells a packet in at most `MAX_PACKET` bytes is read as it, whatever follows.
pub fn what_is_spelled_is_read()
    ensures { ReadsASpelling }
{}

/// A packet at the front of bytes is spelled by just those bytes, at most `MAX_PACKET` of them.
pub fn what_is_read_is_spelled()
    ensures { ReadsWhatIsSpelled }
{}

/// What is written is read again, whatever follows.
pub fn what_is_written_is_read_again()
    ensures { ReadsWhatIsWritten }
{}

/// Packets that are spelled one behind the other are read, and behind them what follows.
pub fn a_spelled_stream_is_read()
    ensures { ReadsTheStream }
{}

/// The packets that are read from bytes are spelled, one behind the other, up to an unfinished packet or a
/// fault.
pub fn a_stream_is_what_stands()
    ensures { ReadsWhatStands }
{}

/// Where a fault is reported no packet of at most `MAX_PACKET` bytes stands, whatever follows.
pub fn a_fault_is_no_packet()
    ensures { FaultIsNoPacket }
{}

/// However the bytes are cut, the packets that were answered, the fault that was reported or is kept, and
/// what is held, are those of all the bytes.
pub fn a_stream_is_cut_anyhow()
    ensures { IsCutAnyhow }
{}

/// What is written is the shortest spelling, and the only one of its length.
pub fn the_shortest_is_written()
    ensures { WritesTheShortest }
{}

/// A packet is read exactly where the first bytes spell it, at most `MAX_PACKET` of them. With the next four
/// this parts all bytes by what stands at their front.
pub fn a_packet_stands()
    ensures { ReadsWhatStandsThere }
{}

/// More bytes are waited for exactly where a packet is not finished.
pub fn the_unfinished_waits()
    ensures { WaitsForTheUnfinished }
{}

/// Too long are just the packets of more than `MAX_PACKET` bytes.
pub fn the_too_long_is_refused()
    ensures { RefusesTheTooLong }
{}

/// Not supported are just the packets of QoS 2, and a CONNECT of other flags than CleanSession.
pub fn the_unsupported_is_refused()
    ensures { RefusesTheUnsupported }
{}

/// Malformed are all other bytes.
pub fn the_rest_is_malformed()
    ensures { RefusesTheRest }
{}
