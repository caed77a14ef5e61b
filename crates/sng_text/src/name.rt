//! Topic names (MQTT 3.1.1, 4.7).
ghost use Rattle.std.specs.Prelude.{◌≡◌, ◌⊎◌, true, Some, None, IfOk, IfErr};
ghost use Rattle.std.specs.Cmp.{partial_equiv_from_equiv};
ghost use Rattle.std.specs.Cmp.Lexicographic.{nat_list_eq_equiv};
ghost use Rattle.std.specs.Cmp.Rules.{hashing};
ghost use Rattle.std.specs.Hash as fed;
ghost use Rattle.std.specs.Str.{bytes_eq};
ghost use Rattle.std.proofs.Common.{rules};
ghost use Rattle.sng_text.specs.Texts.{is_name, name_fault};

use crate::kept::Text;
use crate::reading::{bytes_fault, owned};
use crate::{MAX_NAME, Octets, RefusedText, TextFault, bytes};
use std::alloc::{AllocError, Global};
use std::hash::{Hash, Hasher};
use std::marker::Model;

/// A topic name: 1 to `MAX_NAME` bytes of UTF-8 without U+0000, `+` and `#`. Contracts see its text.
#[derive(Debug, Drop)]
pub struct TopicName {
    text: Text,
}

impl Model for TopicName {
    ghost use Rattle.std.specs.Prelude.{◌≡◌, true, List, ℕ};
    ghost use Rattle.sng_text.specs.Texts.{is_name};

    ghost Value = { List ℕ };

    ghost view = { λ n. n.text };

    ghost invariant = { λ n. is_name n.text ≡ true };
}

impl TopicName {
    /// The name that the bytes are, or the first of their faults.
    pub fn read(alloc: Global, text: &[u8]) -> Result<TopicName, TextFault>
        ensures ok { IfOk result (λ n. (n ≡ text.now) × (name_fault text.now ≡ None)) }
        ensures err { IfErr result (λ f. (f ≡ TextFault.Memory) ⊎ (name_fault text.now ≡ Some f)) }
    {
        let text = owned(alloc, text, name_fault(text))?;
        Ok(TopicName { text })
    }

    /// The name that the octets are, or the octets with the first of their faults. Takes no memory.
    pub fn of_octets(octets: Octets) -> Result<TopicName, RefusedText>
        ensures ok { IfOk result (λ n. (n ≡ octets) × (name_fault octets ≡ None)) }
        ensures err { IfErr result (λ r. (name_fault octets ≡ Some r.fault) × (r.octets ≡ octets)) }
    {
        match name_fault(octets.as_slice()) {
            Some(fault) => Err(RefusedText { fault, octets }),
            None => Ok(TopicName {
                text: octets.into_text(),
            }),
        }
    }

    /// The name with this text, which the caller has shown to be one. Takes no memory.
    pub fn of_text(text: Octets) -> TopicName
        requires { is_name text ≡ true }
        ensures { result ≡ text }
    {
        TopicName {
            text: text.into_text(),
        }
    }

    /// The name's bytes.
    pub fn text(&self) -> &[u8]
        ensures value { result.now ≡ self.now }
        ensures name { is_name self.now ≡ true }
    {
        self.text.as_slice()
    }

    /// An equal name. Only memory can fail, and only where the name is long.
    pub fn copy(&self) -> Result<TopicName, AllocError>
        ensures { IfOk result (λ n. n ≡ self.now) }
    {
        let text = self.text.copy()?;
        Ok(TopicName { text })
    }
}

impl Clone for TopicName {
    ghost is_clone = { λ name copy. copy ≡ name };

    fn clone(&self) -> Result<TopicName, AllocError> {
        self.copy()
    }
}

impl PartialEq for TopicName {
    ghost eq = { bytes_eq };

    ghost laws = { partial_equiv_from_equiv nat_list_eq_equiv };

    fn eq(&self, other: &TopicName) -> bool {
        self.text() == other.text()
    }
}

impl Eq for TopicName {
    ghost laws = { nat_list_eq_equiv };
}

impl Hash for TopicName {
    ghost hash_input = { fed.slice fed.u8 };

    ghost respects_eq = { Prim.search (hashing, rules) };

    fn hash<H: Hasher>(&self, state: &mut H) {
        self.text().hash(state);
    }
}

fn name_fault(text: &[u8]) -> Option<TextFault>
    ensures { result ≡ name_fault text.now }
{
    match bytes_fault(MAX_NAME, text) {
        Some(fault) => Some(fault),
        None if bytes::is_plain(text) => None,
        None => Some(TextFault::Wildcard),
    }
}
