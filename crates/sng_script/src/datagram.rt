//! Octets in hex digits.
ghost use Rattle.hex.specs.Hex.{is_hex_digit};
ghost use Rattle.std.specs.List.{AllPass};
ghost use Rattle.std.specs.Prelude.{◌≡◌, ◌≢◌, ◌↔◌, ◌≤◌, ◌*◌, [], length, Some, IfOk, IfErr, IsTrue};
ghost use Rattle.sng_script.specs.Lines.{datagram_of, piece_of};
ghost use Rattle.sng_script.specs.Obstacles.{fault_of};
ghost use Rattle.sng_text.specs.declared.wire_bytes.TheConstants.{MOST_WIRE_BYTES};

use crate::digits::read_digits;
use crate::script::LineFault;
use sng_text::{MOST_WIRE_BYTES, WireBytes};
use std::alloc::Global;

/// The bytes of a datagram: those of the digits. A `-` stands for no bytes.
pub fn read_datagram(alloc: Global, digits: &[u8]) -> Result<WireBytes, LineFault>
    ensures ok { IfOk result (λ octets. datagram_of digits.now ≡ Some octets) }
    ensures err { IfErr result (λ fault. fault ≡ fault_of (datagram_of digits.now)) }
{
    if digits == b"-".as_slice() {
        return Ok(WireBytes::from(Vec::new(alloc)));
    }
    read_piece(alloc, digits)
}

/// The bytes of the digits, two for each, in upper or lower case. There is one byte at least. A text that is
/// not this is unreadable, also where memory is wanting.
#[inline(always)]
pub fn read_piece(alloc: Global, digits: &[u8]) -> Result<WireBytes, LineFault>
    ensures ok { IfOk result (λ octets. piece_of digits.now ≡ Some octets) }
    ensures err { IfErr result (λ fault. fault ≡ fault_of (piece_of digits.now)) }
{
    if digits.is_empty() {
        return Err(LineFault::Unreadable);
    }
    if digits.len() <= 2 * MOST_WIRE_BYTES {
        return read_few(alloc, digits);
    }
    // memory is taken before the digits are read, so that its want says nothing of them
    let Ok(mut bytes) = vec![in alloc; 0; digits.len() / 2] else {
        return Err(fault_of(digits));
    };
    if !read_digits(digits, &mut bytes) {
        return Err(LineFault::Unreadable);
    }
    Ok(WireBytes::from(bytes))
}

/// The same for as few bytes as `WireBytes` keep in line, which are put together without memory of their own.
fn read_few(alloc: Global, digits: &[u8]) -> Result<WireBytes, LineFault>
    requires few { length digits.now ≤ 2 * MOST_WIRE_BYTES }
    requires some { digits.now ≢ [] }
    ensures ok { IfOk result (λ octets. piece_of digits.now ≡ Some octets) }
    ensures err { IfErr result (λ fault. fault ≡ fault_of (piece_of digits.now)) }
{
    let mut room = [0; MOST_WIRE_BYTES];
    let bytes = &mut room[..digits.len() / 2];
    if !read_digits(digits, bytes) {
        return Err(LineFault::Unreadable);
    }
    WireBytes::of(alloc, bytes).map_err(|_| LineFault::Memory)
}

/// Why a text is not read as bytes: because it spells none, or else for want of memory.
fn fault_of(text: &[u8]) -> LineFault
    ensures { result ≡ fault_of (piece_of text.now) }
{
    if text.is_empty() || text.len() % 2 == 1 {
        return LineFault::Unreadable;
    }
    if !are_digits(text) {
        return LineFault::Unreadable;
    }
    LineFault::Memory
}

/// Whether all of it are hex digits, of either case.
fn are_digits(text: &[u8]) -> bool
    ensures { IsTrue result ↔ AllPass is_hex_digit text.now }
{
    text.iter().all(|byte| byte.is_ascii_hexdigit())
}
