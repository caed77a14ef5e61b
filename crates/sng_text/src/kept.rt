//! Where the bytes of a name, a filter, a client id or a message lie. Most are short, and those lie in line: to
//! make, copy or drop one takes no memory.
ghost use Rattle.std.specs.Prelude.{◌≡◌, ◌<◌, ◌≤◌, All, IfOk, length, vec_len};
ghost use Rattle.sng_text.specs.Kept.{front_of};

use std::alloc::{AllocError, Global};
use std::marker::Model;

/// How many bytes of a name, a filter, a client id or a message lie in line at most. Beside their number and the
/// word for which of the two it is, they fill four words of memory; a `Vec` would fill as many.
pub const MOST_SHORT: usize = 30;

/// Some bytes, short ones in line. Contracts see their list.
#[derive(Debug, Drop)]
pub struct Text {
    kept: Kept,
}

/// The two ways to keep them. A caller is told by neither which it is.
#[derive(Debug, Drop)]
enum Kept {
    /// The first so many of these; those behind are 0, so that the front needs no count.
    Short(u8, [u8; MOST_SHORT]),
    /// In memory of their own.
    Long(Vec<u8>),
}

impl Model for Text {
    ghost use Rattle.std.specs.Prelude.{List, ℕ};

    ghost Value = { List ℕ };

    ghost use Rattle.sng_text.specs.Kept.{bytes_of, IsFit};

    ghost view = { λ t. bytes_of t.kept };

    ghost invariant = { λ t. IsFit t.kept };
}

impl Text {
    /// A text of these bytes. Only memory can fail, and only where they are long.
    pub fn of(alloc: Global, bytes: &[u8]) -> Result<Text, AllocError>
        ensures { IfOk result (λ t. t ≡ bytes.now) }
    {
        if bytes.len() <= MOST_SHORT {
            return Ok(short(bytes));
        }
        let bytes = Vec::from_slice(alloc, bytes)?;
        Ok(long(bytes))
    }

    /// A text of these bytes, in their memory where they are long. Takes no memory.
    pub fn of_vec(bytes: Vec<u8>) -> Text
        ensures { result ≡ bytes.items }
    {
        if bytes.len() <= MOST_SHORT {
            return short(bytes.as_slice());
        }
        long(bytes)
    }

    /// The bytes, where they lie.
    pub fn as_slice(&self) -> &[u8]
        ensures { result.now ≡ self.now }
    {
        match &self.kept {
            Kept::Short(count, bytes) => &bytes[..usize::from(*count)],
            Kept::Long(bytes) => bytes.as_slice(),
        }
    }

    /// The first sixteen bytes as one number, the first one high, with zeros behind a shorter text. Takes
    /// no memory.
    pub(crate) fn front(&self) -> u128
        ensures value { result ≡ front_of self.now }
        ensures bytes { All (λ b. b < 256) self.now }
    {
        match &self.kept {
            Kept::Short(_, bytes) => first_sixteen(bytes),
            Kept::Long(bytes) => first_sixteen(bytes.as_slice()),
        }
    }

    /// An equal text. Only memory can fail, and only where it is long.
    pub fn copy(&self) -> Result<Text, AllocError>
        ensures { IfOk result (λ t. t ≡ self.now) }
    {
        let kept = match &self.kept {
            Kept::Short(count, bytes) => Kept::Short(*count, *bytes),
            Kept::Long(bytes) => Kept::Long(bytes.clone()?),
        };
        Ok(Text { kept })
    }
}

/// These few bytes in line.
fn short(text: &[u8]) -> Text
    requires { length text.now ≤ MOST_SHORT }
    ensures { result ≡ text.now }
{
    let mut bytes = [0; MOST_SHORT];
    bytes[..text.len()].copy_from_slice(text);
    let kept = Kept::Short(text.len() as u8, bytes);
    Text { kept }
}

/// These bytes in their memory, which are too many to lie in line.
fn long(bytes: Vec<u8>) -> Text
    requires { MOST_SHORT < vec_len bytes }
    ensures { result ≡ bytes.items }
{
    let kept = Kept::Long(bytes);
    Text { kept }
}

/// The first sixteen bytes as one number, the first one high: written out, so that it is two loads.
#[tactic(auto, unfolding(crate::specs::Kept::front_of))]
fn first_sixteen(bytes: &[u8]) -> u128
    requires { 16 ≤ length bytes.now }
    ensures value { result ≡ front_of bytes.now }
    ensures bytes { All (λ b. b < 256) bytes.now }
{
    u128::from_be_bytes([
        bytes[0], bytes[1], bytes[2], bytes[3], bytes[4], bytes[5], bytes[6], bytes[7], bytes[8],
        bytes[9], bytes[10], bytes[11], bytes[12], bytes[13], bytes[14], bytes[15],
    ])
}
