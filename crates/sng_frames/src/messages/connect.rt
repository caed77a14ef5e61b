//! CONNECT (MQTT-SN 1.2, 5.4.4).
ghost use Rattle.std.specs.Prelude.{◌≡◌, ◌+◌, ◌≤◌, IfOk, length};
ghost use Rattle.sng_frames.specs.Grammar.{IsInRange};
ghost use Rattle.sng_frames.specs.Parts.{connect_of};
ghost use Rattle.sng_frames.specs.Reading.{Reads};
ghost use Rattle.sng_frames.specs.Writing.{written, connect_part};
ghost use Rattle.sng_frames.specs.declared.frame.SnFrame.TheVariants as frames;
ghost use Rattle.sng_frames.specs.declared.limits.TheConstants.{MAX_DATAGRAM};

use crate::messages::part;
use crate::wire::framing;
use crate::{Flags, FrameFault, MessageType};
use sng_text::{ClientId, WireBytes};
use std::alloc::{AllocError, Global};

/// A CONNECT.
#[derive(Debug, Drop)]
pub struct Connect {
    /// All eight bits, of which Will and CleanSession mean something here.
    pub flags: Flags,
    /// The ProtocolId field, of any value; 1 is MQTT-SN 1.2.
    pub protocol_id: u8,
    /// For how many seconds at most the client is silent.
    pub duration: u16,
    /// The client's id.
    pub client_id: ClientId,
}

/// Flags, ProtocolId, Duration, ClientId.
pub(crate) fn decode(alloc: Global, part: &[u8]) -> Result<Connect, FrameFault>
    ensures { Reads result (connect_of part.now) }
{
    match part {
        [flags, protocol_id, high, low, text @ ..] => Ok(Connect {
            flags: Flags::from_octet(*flags),
            protocol_id: *protocol_id,
            duration: framing::number(*high, *low),
            client_id: part::client_id(alloc, text)?,
        }),
        _ => Err(FrameFault::Malformed),
    }
}

/// How many octets the variable part has.
pub(crate) fn size(connect: &Connect) -> usize
    ensures { result ≡ length (connect_part connect.now) }
{
    4 + connect.client_id.text().len()
}

/// The datagram of a CONNECT.
pub(crate) fn write(alloc: Global, connect: &Connect) -> Result<WireBytes, AllocError>
    requires { length (connect_part connect.now) + 4 ≤ MAX_DATAGRAM }
    ensures written { IfOk result (λ o. o ≡ written (frames.Connect connect.now)) }
    ensures in_range { IsInRange (frames.Connect connect.now) }
{
    let [high, low] = framing::octets(connect.duration);
    let head = [connect.flags.octet(), connect.protocol_id, high, low];
    framing::frame(alloc, MessageType::Connect, &head, connect.client_id.text())
}
