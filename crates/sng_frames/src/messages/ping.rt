//! PINGREQ and PINGRESP (MQTT-SN 1.2, 5.4.19 and 5.4.20).
ghost use Rattle.std.specs.Prelude.{◌≡◌, ◌+◌, ◌≤◌, Err, Some, IfOk, length};
ghost use Rattle.sng_frames.specs.Grammar.{IsInRange};
ghost use Rattle.sng_frames.specs.Parts.{ping_of};
ghost use Rattle.sng_frames.specs.Reading.{Reads};
ghost use Rattle.sng_frames.specs.Writing.{written, ping_part};
ghost use Rattle.sng_frames.specs.declared.frame.SnFrame.TheVariants as frames;
ghost use Rattle.sng_frames.specs.declared.limits.TheConstants.{MAX_DATAGRAM};

use crate::messages::part;
use crate::wire::framing;
use crate::{FrameFault, MessageType};
use sng_text::{ClientId, WireBytes};
use std::alloc::{AllocError, Global};

/// Nothing, or a ClientId.
pub(crate) fn decode(alloc: Global, part: &[u8]) -> Result<Option<ClientId>, FrameFault>
    ensures reads { Reads result (ping_of part.now) }
    ensures memory { result ≡ Err FrameFault.Memory → ping_of part.now ≡ Some (Some part.now) }
{
    if part.is_empty() {
        return Ok(None);
    }
    Ok(Some(part::client_id(alloc, part)?))
}

/// How many octets the variable part has.
pub(crate) fn size(client_id: &Option<ClientId>) -> usize
    ensures { result ≡ length (ping_part client_id.now) }
{
    match client_id {
        None => 0,
        Some(client_id) => client_id.text().len(),
    }
}

/// The datagram of a PINGREQ.
pub(crate) fn write(alloc: Global, client_id: &Option<ClientId>) -> Result<WireBytes, AllocError>
    requires { length (ping_part client_id.now) + 4 ≤ MAX_DATAGRAM }
    ensures written { IfOk result (λ o. o ≡ written (frames.PingRequest client_id.now)) }
    ensures in_range { IsInRange (frames.PingRequest client_id.now) }
{
    match client_id {
        None => framing::frame(alloc, MessageType::PingRequest, &[], &[]),
        Some(client_id) => framing::frame(alloc, MessageType::PingRequest, &[], client_id.text()),
    }
}

/// The datagram of a PINGRESP. Allocates once.
pub fn write_ping_response(alloc: Global) -> Result<WireBytes, AllocError>
    ensures { IfOk result (λ o. o ≡ written frames.PingResponse) }
{
    framing::frame(alloc, MessageType::PingResponse, &[], &[])
}
