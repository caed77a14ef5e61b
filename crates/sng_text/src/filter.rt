//! Topic filters (MQTT 3.1.1, 4.7).
ghost use Rattle.std.specs.Prelude.{◌≡◌, ◌<◌, ◌≤◌, ◌⊎◌, true, Some, None, IfOk, IfErr, length};
ghost use Rattle.std.specs.Cmp.{partial_equiv_from_equiv};
ghost use Rattle.std.specs.Cmp.Lexicographic.{nat_list_eq_equiv};
ghost use Rattle.std.specs.Cmp.Rules.{hashing};
ghost use Rattle.std.specs.Hash as fed;
ghost use Rattle.std.specs.Str.{bytes_eq};
ghost use Rattle.std.proofs.Common.{rules};
ghost use Rattle.sng_text.specs.Levels.{levels_of};
ghost use Rattle.sng_text.specs.Texts.{is_filter, is_name, filter_fault, is_in_place};

use crate::kept::Text;
use crate::reading::{bytes_fault, owned};
use crate::{Levels, MAX_FILTER, Octets, RefusedText, TextFault, TopicName, bytes};
use std::alloc::{AllocError, Global};
use std::hash::{Hash, Hasher};
use std::marker::Model;

/// A topic filter: 1 to `MAX_FILTER` bytes of UTF-8 without U+0000, in which `+` is a level of its own and
/// `#` the last level. Contracts see its text.
#[derive(Debug, Drop)]
pub struct TopicFilter {
    text: Text,
}

impl Model for TopicFilter {
    ghost use Rattle.std.specs.Prelude.{◌≡◌, true, List, ℕ};
    ghost use Rattle.sng_text.specs.Texts.{is_filter};

    ghost Value = { List ℕ };

    ghost view = { λ f. f.text };

    ghost invariant = { λ f. is_filter f.text ≡ true };
}

impl TopicFilter {
    /// The filter that the bytes are, or the first of their faults.
    pub fn read(alloc: Global, text: &[u8]) -> Result<TopicFilter, TextFault>
        ensures ok { IfOk result (λ f. (f ≡ text.now) × (filter_fault text.now ≡ None)) }
        ensures err { IfErr result (λ e. (e ≡ TextFault.Memory) ⊎ (filter_fault text.now ≡ Some e)) }
    {
        let text = owned(alloc, text, filter_fault(text))?;
        Ok(TopicFilter { text })
    }

    /// The filter that the octets are, or the octets with the first of their faults. Takes no memory.
    pub fn of_octets(octets: Octets) -> Result<TopicFilter, RefusedText>
        ensures ok { IfOk result (λ f. (f ≡ octets) × (filter_fault octets ≡ None)) }
        ensures err { IfErr result (λ r. (filter_fault octets ≡ Some r.fault) × (r.octets ≡ octets)) }
    {
        match filter_fault(octets.as_slice()) {
            Some(fault) => Err(RefusedText { fault, octets }),
            None => Ok(TopicFilter {
                text: octets.into_text(),
            }),
        }
    }

    /// The filter whose text is the name's: no level of a name is a wildcard. A name of more than
    /// `MAX_FILTER` bytes is TooLong.
    pub fn of_name(alloc: Global, name: &TopicName) -> Result<TopicFilter, TextFault>
        ensures ok { IfOk result (λ f. (f ≡ name.now) × (length name.now ≤ MAX_FILTER)) }
        ensures err { IfErr result (λ e. (e ≡ TextFault.Memory)
            ⊎ ((e ≡ TextFault.TooLong) × (MAX_FILTER < length name.now))) }
    {
        if name.text().len() > MAX_FILTER {
            return Err(TextFault::TooLong);
        }
        let text = Text::of(alloc, name.text()).map_err(|_| TextFault::Memory)?;
        Ok(TopicFilter { text })
    }

    /// The filter's bytes.
    pub fn text(&self) -> &[u8]
        ensures value { result.now ≡ self.now }
        ensures filter { is_filter self.now ≡ true }
    {
        self.text.as_slice()
    }

    /// Whether the filter is a topic name: none of its levels is a wildcard.
    pub fn is_name(&self) -> bool
        ensures { result ≡ is_name self.now }
    {
        bytes::is_plain(self.text())
    }

    /// An equal filter. Only memory can fail, and only where the filter is long.
    pub fn copy(&self) -> Result<TopicFilter, AllocError>
        ensures { IfOk result (λ f. f ≡ self.now) }
    {
        let text = self.text.copy()?;
        Ok(TopicFilter { text })
    }
}

impl Clone for TopicFilter {
    ghost is_clone = { λ filter copy. copy ≡ filter };

    fn clone(&self) -> Result<TopicFilter, AllocError> {
        self.copy()
    }
}

impl PartialEq for TopicFilter {
    ghost eq = { bytes_eq };

    ghost laws = { partial_equiv_from_equiv nat_list_eq_equiv };

    fn eq(&self, other: &TopicFilter) -> bool {
        self.text() == other.text()
    }
}

impl Eq for TopicFilter {
    ghost laws = { nat_list_eq_equiv };
}

impl Hash for TopicFilter {
    ghost hash_input = { fed.slice fed.u8 };

    ghost respects_eq = { Prim.search (hashing, rules) };

    fn hash<H: Hasher>(&self, state: &mut H) {
        self.text().hash(state);
    }
}

fn filter_fault(text: &[u8]) -> Option<TextFault>
    ensures { result ≡ filter_fault text.now }
{
    match bytes_fault(MAX_FILTER, text) {
        Some(fault) => Some(fault),
        None if is_in_place(text) => None,
        None => Some(TextFault::Wildcard),
    }
}

/// Whether each wildcard is a level of its own, and `#` the last.
fn is_in_place(text: &[u8]) -> bool
    ensures { result ≡ is_in_place (levels_of text.now) }
{
    let mut is_over = false;
    for level in Levels::of(text) {
        if is_over {
            return false;
        }
        if !bytes::is_ordinary(level) {
            if !bytes::is_hash(level) {
                return false;
            }
            is_over = true;
        }
    }
    true
}
