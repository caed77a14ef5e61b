//! The bytes of a datagram or a packet as one value, as they come or go at once. More of them lie in line than of
//! what `Octets` keep: an event and what a step lets out have the room anyway, and what a sensor says mostly fits.
ghost use Rattle.std.specs.Prelude.{◌≡◌, ◌==◌, ◌≤◌, ◌++◌, IfOk, length};

use crate::joining;
use std::alloc::{AllocError, Global};
use std::marker::Model;

/// How many bytes lie in line at most: a PUBLISH to or from a client with 39 bytes of payload, or one of the broker
/// with a name and a payload of 40 together (MQTT-SN 1.2, 5.4.12; MQTT 3.1.1, 3.3). Beside their number and the
/// word for which of the two it is, they fill six words of memory.
pub const MOST_WIRE_BYTES: usize = 46;

/// The bytes of a datagram or a packet, which lie in line where they are few. Contracts see their list.
#[derive(Debug, Drop)]
pub struct WireBytes {
    kept: Kept,
}

/// The two ways to keep them. A caller is told by neither which it is.
#[derive(Debug, Drop)]
enum Kept {
    /// The first so many of these.
    Short(u8, [u8; MOST_WIRE_BYTES]),
    /// In memory of their own.
    Long(Vec<u8>),
}

impl Model for WireBytes {
    ghost use Rattle.std.specs.Prelude.{List, ℕ};
    ghost use Rattle.sng_text.specs.WireBytes.{bytes_of, IsFit};

    ghost Value = { List ℕ };

    ghost view = { λ w. bytes_of w.kept };

    ghost invariant = { λ w. IsFit w.kept };
}

impl From<Vec<u8>> for WireBytes {
    ghost use Rattle.std.specs.Prelude.{◌≡◌};

    ghost from_gives = { λ v w. w ≡ v.items };

    fn from(bytes: Vec<u8>) -> WireBytes {
        if bytes.len() <= MOST_WIRE_BYTES {
            return short(bytes.as_slice());
        }
        WireBytes {
            kept: Kept::Long(bytes),
        }
    }
}

impl WireBytes {
    /// These bytes. Only memory can fail, and only where they are many.
    pub fn of(alloc: Global, bytes: &[u8]) -> Result<WireBytes, AllocError>
        ensures { IfOk result (λ w. w ≡ bytes.now) }
    {
        if bytes.len() <= MOST_WIRE_BYTES {
            return Ok(short(bytes));
        }
        Ok(WireBytes {
            kept: Kept::Long(Vec::from_slice(alloc, bytes)?),
        })
    }

    /// The bytes of the four slices, one after the other. Only memory can fail, and only where they are many.
    #[inline(always)]
    pub fn joined(
        alloc: Global,
        first: &[u8],
        second: &[u8],
        third: &[u8],
        fourth: &[u8],
    ) -> Result<WireBytes, AllocError>
        ensures { IfOk result (λ w. w ≡ first.now ++ second.now ++ third.now ++ fourth.now) }
    {
        let mut bytes = [0; MOST_WIRE_BYTES];
        match joining::put_all(&mut bytes[..], first, second, third, fourth) {
            Some(count) => Ok(WireBytes {
                kept: Kept::Short(count as u8, bytes),
            }),
            None => Ok(WireBytes::from(joining::joined(alloc, first, second, third, fourth)?)),
        }
    }

    /// The bytes, where they lie.
    pub fn as_slice(&self) -> &[u8]
        ensures { result.now ≡ self.now }
    {
        match &self.kept {
            Kept::Short(count, bytes) => &bytes[..usize::from(*count)],
            Kept::Long(bytes) => bytes.as_slice(),
        }
    }

    /// How many bytes there are.
    pub fn len(&self) -> usize
        ensures { result ≡ length self.now }
    {
        self.as_slice().len()
    }

    /// Whether there is no byte.
    pub fn is_empty(&self) -> bool
        ensures { result ≡ (length self.now == 0) }
    {
        self.as_slice().is_empty()
    }

    /// Equal bytes. Only memory can fail, and only where they are many.
    pub fn copy(&self) -> Result<WireBytes, AllocError>
        ensures { IfOk result (λ w. w ≡ self.now) }
    {
        let kept = match &self.kept {
            Kept::Short(count, bytes) => Kept::Short(*count, *bytes),
            Kept::Long(bytes) => Kept::Long(bytes.clone()?),
        };
        Ok(WireBytes { kept })
    }
}

/// These few bytes in line.
fn short(few: &[u8]) -> WireBytes
    requires { length few.now ≤ MOST_WIRE_BYTES }
    ensures { result ≡ few.now }
{
    let mut bytes = [0; MOST_WIRE_BYTES];
    bytes[..few.len()].copy_from_slice(few);
    let kept = Kept::Short(few.len() as u8, bytes);
    WireBytes { kept }
}
