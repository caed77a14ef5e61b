//! The Remaining Length of a packet (MQTT 3.1.1, 2.2.3): seven bits to a byte, the low ones first, and 128
//! more in each byte but the last.
ghost use Rattle.std.specs.Prelude.{◌≡◌, ◌∷◌, ◌++◌, IfOk, OnOk, ◌<◌, ◌≤◌, ◌+◌, ◌/◌, ◌^◌, length};
ghost use Rattle.mqtt_frames.specs.RemainingLength.{remaining_length};

use std::alloc::{AllocError, Global};

/// How many bytes spell the number.
pub fn size(number: usize) -> usize
    ensures value { result ≡ length (remaining_length number) }
    ensures small { result ≤ number / 128 + 2 }
{
    let mut rest = number;
    let mut bytes = 1;
    while rest >= 128 {
        rest /= 128;
        bytes += 1;
    }
    bytes
}

/// The front of a packet: its first byte and its Remaining Length, with room for so many bytes behind them.
#[inline(always)]
pub fn front(alloc: Global, first: u8, rest: usize) -> Result<Vec<u8>, AllocError>
    requires { rest + rest / 128 + 3 < 2 ^ 64 }
    ensures { IfOk result (λ v. v.items ≡ first ∷ remaining_length rest) }
{
    let mut bytes = Vec::with_capacity(alloc, 1 + size(rest) + rest)?;
    bytes.push(first)?;
    push(&mut bytes, rest)?;
    Ok(bytes)
}

/// Puts the bytes that spell the number behind the others. After an `Err` some of them may be there.
pub fn push(bytes: &mut Vec<u8>, number: usize) -> Result<(), AllocError>
    ensures { OnOk result (bytes.new.items ≡ bytes.old.items ++ remaining_length number) }
{
    let mut rest = number;
    while rest >= 128 {
        bytes.push((rest % 128 + 128) as u8)?;
        rest /= 128;
    }
    bytes.push(rest as u8)?;
    Ok(())
}
