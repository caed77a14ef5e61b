//! Bytes as one value.
ghost use Rattle.std.specs.Prelude.{◌≡◌, ◌==◌, IfOk, length};

use crate::kept::Text;
use std::alloc::{AllocError, Global};
use std::marker::Model;

/// Some bytes, which lie in line where they are few. Contracts see their list.
#[derive(Debug, Drop)]
pub struct Octets {
    bytes: Text,
}

impl Model for Octets {
    ghost use Rattle.std.specs.Prelude.{List, ℕ};

    ghost Value = { List ℕ };

    ghost view = { λ o. o.bytes };
}

impl From<Vec<u8>> for Octets {
    ghost from_gives = { λ v o. o ≡ v.items };

    fn from(bytes: Vec<u8>) -> Octets {
        Octets {
            bytes: Text::of_vec(bytes),
        }
    }
}

impl Octets {
    /// These bytes. Only memory can fail, and only where they are many.
    pub fn of(alloc: Global, bytes: &[u8]) -> Result<Octets, AllocError>
        ensures { IfOk result (λ o. o ≡ bytes.now) }
    {
        let bytes = Text::of(alloc, bytes)?;
        Ok(Octets { bytes })
    }

    /// The bytes, as a slice.
    pub fn as_slice(&self) -> &[u8]
        ensures { result.now ≡ self.now }
    {
        self.bytes.as_slice()
    }

    /// How many bytes there are.
    pub fn len(&self) -> usize
        ensures { result ≡ length self.now }
    {
        self.as_slice().len()
    }

    /// Whether there is no byte.
    pub fn is_empty(&self) -> bool
        ensures { result ≡ (length self.now == 0) }
    {
        self.as_slice().is_empty()
    }

    /// The bytes, where they lie.
    pub(crate) fn into_text(self) -> Text
        ensures { result ≡ self }
    {
        self.bytes
    }

    /// An equal value. Only memory can fail, and only where the bytes are many.
    pub fn copy(&self) -> Result<Octets, AllocError>
        ensures { IfOk result (λ o. o ≡ self.now) }
    {
        let bytes = self.bytes.copy()?;
        Ok(Octets { bytes })
    }
}
