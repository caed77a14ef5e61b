//! Texts of a policy, kept for what is reported of them.
ghost use Rattle.std.specs.Prelude.{◌≡◌, IfOk};

use sng_text::Octets;
use std::alloc::{AllocError, Global};

/// The bytes of the text, in memory of their own. Only memory can fail.
pub fn octets(alloc: Global, text: &str) -> Result<Octets, AllocError>
    ensures { IfOk result (λ o. o ≡ text.now) }
{
    let bytes = Vec::from_slice(alloc, text.as_bytes())?;
    Ok(Octets::from(bytes))
}
