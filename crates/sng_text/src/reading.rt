//! What the readers of names, filters and client ids share.
ghost use Rattle.std.specs.Prelude.{◌≡◌, ◌⊎◌, Bool, Some, None, IfOk, IfErr, MatchOption, if◌then◌else◌};
ghost use Rattle.sng_text.specs.Texts.{text_fault};

use crate::kept::Text;
use crate::{TextFault, bytes};
use std::alloc::Global;

/// The text as a value of its own, or its fault where it has one.
pub fn owned(alloc: Global, text: &[u8], fault: Option<TextFault>) -> Result<Text, TextFault>
    ensures ok { IfOk result (λ t. (t ≡ text.now) × (fault ≡ None)) }
    ensures err { IfErr result (λ f. (f ≡ TextFault.Memory) ⊎ (fault ≡ Some f)) }
{
    if let Some(fault) = fault {
        return Err(fault);
    }
    Text::of(alloc, text).map_err(|_| TextFault::Memory)
}

/// The first fault of a name or a filter of at most so many bytes, that of its wildcards aside.
pub fn bytes_fault(most: usize, text: &[u8]) -> Option<TextFault>
    ensures { MatchOption result
        ((fit : Bool) → text_fault most text.now fit ≡ (if fit then None else Some TextFault.Wildcard))
        (λ fault. (fit : Bool) → text_fault most text.now fit ≡ Some fault) }
{
    if text.is_empty() {
        Some(TextFault::Empty)
    } else if text.len() > most {
        Some(TextFault::TooLong)
    } else if !bytes::is_utf8(text) {
        Some(TextFault::NotUtf8)
    } else if bytes::has_byte(0, text) {
        Some(TextFault::Null)
    } else {
        None
    }
}
