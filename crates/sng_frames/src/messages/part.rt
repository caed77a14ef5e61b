//! Fields that several messages share (MQTT-SN 1.2, 5.3), from the octets of a variable part. Each function
//! allocates at most once.
ghost use Rattle.std.specs.Prelude.{◌≡◌, Some};
ghost use Rattle.sng_frames.specs.Parts.{nothing_of, code_of, number_of, client_id_of};
ghost use Rattle.sng_frames.specs.Reading.{Reads, or_malformed};

use crate::wire::framing;
use crate::{FrameFault, ReturnCode};
use sng_text::{ClientId, Octets, TextFault};
use std::alloc::Global;

/// Nothing.
pub(crate) fn nothing(part: &[u8]) -> Result<(), FrameFault>
    ensures { result ≡ or_malformed (nothing_of part.now) }
{
    if part.is_empty() {
        Ok(())
    } else {
        Err(FrameFault::Malformed)
    }
}

/// A ReturnCode (5.3.10).
pub(crate) fn code(part: &[u8]) -> Result<ReturnCode, FrameFault>
    ensures { result ≡ or_malformed (code_of part.now) }
{
    match part {
        [code] => Ok(ReturnCode(*code)),
        _ => Err(FrameFault::Malformed),
    }
}

/// A MsgId (5.3.7).
pub(crate) fn msg_id(part: &[u8]) -> Result<u16, FrameFault>
    ensures { result ≡ or_malformed (number_of part.now) }
{
    match part {
        [high, low] => Ok(framing::number(*high, *low)),
        _ => Err(FrameFault::Malformed),
    }
}

/// A ClientId (5.3.1).
pub(crate) fn client_id(alloc: Global, text: &[u8]) -> Result<ClientId, FrameFault>
    ensures { Reads result (client_id_of text.now) }
{
    ClientId::read(alloc, text).map_err(|fault| match fault {
        TextFault::Memory => FrameFault::Memory,
        _ => FrameFault::Malformed,
    })
}

/// Any octets.
pub(crate) fn octets(alloc: Global, part: &[u8]) -> Result<Octets, FrameFault>
    ensures { Reads result (Some part.now) }
{
    Ok(Octets::of(alloc, part)?)
}
