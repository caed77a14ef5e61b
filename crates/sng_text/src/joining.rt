//! The bytes of four slices, one after the other, as a datagram or a packet is put together: in room that is there
//! where they are few, and else in memory of their own.
ghost use Rattle.std.specs.Prelude.{◌≡◌, ◌↔◌, ◌+◌, ◌-◌, ◌^◌, ◌<◌, ◌≤◌, ◌++◌, IfOk, IfSome, None, length, min, take};

use std::alloc::{AllocError, Global};

/// Puts the slices at the front of the bytes, and returns how many bytes they have. `None` where they have more than
/// there is room for: then the bytes are as they were.
#[inline(always)]
pub(crate) fn put_all(
    bytes: &mut [u8],
    first: &[u8],
    second: &[u8],
    third: &[u8],
    fourth: &[u8],
) -> Option<usize>
    ensures room { length bytes.new ≡ length bytes.old }
    ensures count { IfSome result (λ count. count ≤ length bytes.new) }
    ensures none { (result ≡ None) ↔ (length bytes.old
        < length first.now + length second.now + length third.now + length fourth.now) }
    ensures same { result ≡ None → bytes.new ≡ bytes.old }
    ensures put { IfSome result
        (λ count. take count bytes.new ≡ first.now ++ second.now ++ third.now ++ fourth.now) }
{
    if count(first, second, third, fourth) > bytes.len() {
        return None;
    }
    let at = put(bytes, 0, first);
    let at = put(bytes, at, second);
    let at = put(bytes, at, third);
    Some(put(bytes, at, fourth))
}

/// How many bytes the slices have; where a `usize` is too small for that, its greatest.
#[inline(always)]
fn count(first: &[u8], second: &[u8], third: &[u8], fourth: &[u8]) -> usize
    ensures { result ≡ min (length first.now + length second.now + length third.now + length fourth.now)
        (2 ^ 64 - 1) }
{
    let front = first.len().saturating_add(second.len());
    front
        .saturating_add(third.len())
        .saturating_add(fourth.len())
}

/// Puts the piece at this place, and returns the place behind it.
#[inline(always)]
fn put(bytes: &mut [u8], at: usize, piece: &[u8]) -> usize
    requires { at + length piece.now ≤ length bytes.old }
    ensures place { result ≡ at + length piece.now }
    ensures room { length bytes.new ≡ length bytes.old }
    ensures put { take (at + length piece.now) bytes.new ≡ take at bytes.old ++ piece.now }
{
    let end = at + piece.len();
    bytes[at..end].copy_from_slice(piece);
    end
}

/// The bytes of the slices in memory of their own. Only memory can fail.
#[inline(always)]
pub(crate) fn joined(
    alloc: Global,
    first: &[u8],
    second: &[u8],
    third: &[u8],
    fourth: &[u8],
) -> Result<Vec<u8>, AllocError>
    ensures { IfOk result (λ v. v.items ≡ first.now ++ second.now ++ third.now ++ fourth.now) }
{
    let mut bytes = Vec::with_capacity(alloc, count(first, second, third, fourth))?;
    bytes.extend_from_slice(first)?;
    bytes.extend_from_slice(second)?;
    bytes.extend_from_slice(third)?;
    bytes.extend_from_slice(fourth)?;
    Ok(bytes)
}
