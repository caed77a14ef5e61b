//! Client ids (MQTT-SN 1.2, 5.3.1).
ghost use Rattle.std.specs.Prelude.{◌≡◌, ◌<◌, ◌⊎◌, true, Err, Some, None, All, IfOk, IfErr};
ghost use Rattle.sng_text.specs.ClientIds.{is_client_id, client_id_fault};
ghost use Rattle.sng_text.specs.Kept.{front_of};

use crate::kept::Text;
use crate::{MAX_CLIENT_ID, TextFault, bytes};
use std::alloc::{AllocError, Global};
use std::marker::Model;

/// A client id: 1 to `MAX_CLIENT_ID` characters (Unicode scalar values) of UTF-8 without U+0000. Contracts
/// see its text.
#[derive(Debug, Drop)]
pub struct ClientId {
    text: Text,
}

impl Model for ClientId {
    ghost use Rattle.std.specs.Prelude.{◌≡◌, true, List, ℕ};
    ghost use Rattle.sng_text.specs.ClientIds.{is_client_id};

    ghost Value = { List ℕ };

    ghost view = { λ i. i.text };

    ghost invariant = { λ i. is_client_id i.text ≡ true };
}

impl ClientId {
    /// The client id that the bytes are, or the first of their faults: Empty, NotUtf8, Null, TooLong, Memory.
    pub fn read(alloc: Global, text: &[u8]) -> Result<ClientId, TextFault>
        ensures ok { IfOk result (λ i. (i ≡ text.now) × (client_id_fault text.now ≡ None)) }
        ensures err { IfErr result (λ f. (f ≡ TextFault.Memory) ⊎ (client_id_fault text.now ≡ Some f)) }
        ensures memory { result ≡ Err TextFault.Memory → client_id_fault text.now ≡ None }
    {
        // Not by `owned`, which does not say that a fault of the text is never a failed allocation.
        if let Some(fault) = client_id_fault(text) {
            return Err(fault);
        }
        let text = Text::of(alloc, text).map_err(|_| TextFault::Memory)?;
        Ok(ClientId { text })
    }

    /// The client id's bytes.
    pub fn text(&self) -> &[u8]
        ensures value { result.now ≡ self.now }
        ensures client_id { is_client_id self.now ≡ true }
    {
        self.text.as_slice()
    }

    /// The first sixteen bytes as one number: of two ids where it differs, it says which comes first.
    pub(crate) fn front(&self) -> u128
        ensures value { result ≡ front_of self.now }
        ensures bytes { All (λ b. b < 256) self.now }
    {
        self.text.front()
    }

    /// An equal client id. Only memory can fail, and only where the id is long.
    pub fn copy(&self) -> Result<ClientId, AllocError>
        ensures { IfOk result (λ i. i ≡ self.now) }
    {
        let text = self.text.copy()?;
        Ok(ClientId { text })
    }
}

impl Clone for ClientId {
    ghost is_clone = { λ id copy. copy ≡ id };

    fn clone(&self) -> Result<ClientId, AllocError> {
        self.copy()
    }
}

fn client_id_fault(text: &[u8]) -> Option<TextFault>
    ensures { result ≡ client_id_fault text.now }
{
    if text.is_empty() {
        return Some(TextFault::Empty);
    }
    match bytes::character_count(text) {
        None => Some(TextFault::NotUtf8),
        Some(count) => {
            if bytes::has_byte(0, text) {
                Some(TextFault::Null)
            } else if count > MAX_CLIENT_ID {
                Some(TextFault::TooLong)
            } else {
                None
            }
        }
    }
}
