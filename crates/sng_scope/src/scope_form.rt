//! The two forms of a scope in JSON: an array of pairs, or a text that is unpadded base64url of such an array
//! (RFC 4648, 5).
ghost use Rattle.std.specs.Prelude.{◌≡◌, ◌⊎◌, IfOk, IfErr, Ok, Err};
ghost use Rattle.serde_json.specs.View.{view};
ghost use Rattle.sng_scope.specs.Texts.{bytes_of, scope_of_encoded, scope_of_data};

use crate::json_text::value_from;
use crate::pairs::scope_of_items;
use crate::{PolicyFault, Scope};
use base64::DecodeAllocError;
use base64::engine::general_purpose::URL_SAFE_NO_PAD;
use serde_json::Value;
use std::alloc::Global;

/// The scope that the value is, or the first of its faults.
pub fn scope_from(alloc: Global, value: &Value) -> Result<Scope, PolicyFault>
    ensures ok { IfOk result (λ s. scope_of_data (view value.now) ≡ Ok s) }
    ensures err { IfErr result (λ e. (e ≡ PolicyFault.Memory)
        ⊎ (scope_of_data (view value.now) ≡ Err e)) }
{
    match value {
        Value::Array(items) => scope_of_items(alloc, items.as_slice()),
        Value::String(text) => scope_of_encoded(alloc, text.as_str()),
        _ => Err(PolicyFault::Shape),
    }
}

/// The scope whose JSON the text stands for.
fn scope_of_encoded(alloc: Global, text: &str) -> Result<Scope, PolicyFault>
    ensures ok { IfOk result (λ s. scope_of_encoded text.now ≡ Ok s) }
    ensures err { IfErr result (λ e. (e ≡ PolicyFault.Memory)
        ⊎ (scope_of_encoded text.now ≡ Err e)) }
{
    let bytes = bytes_from(alloc, text)?;
    let value = value_from(alloc, bytes.as_slice())?;
    match value.as_array() {
        None => Err(PolicyFault::Shape),
        Some(items) => scope_of_items(alloc, items.as_slice()),
    }
}

/// The bytes that the text of unpadded base64url stands for.
pub fn bytes_from(alloc: Global, text: &str) -> Result<Vec<u8>, PolicyFault>
    ensures ok { IfOk result (λ bytes. bytes_of text.now ≡ Ok bytes.items) }
    ensures err { IfErr result (λ e. (e ≡ PolicyFault.Memory) ⊎ (bytes_of text.now ≡ Err e)) }
{
    match URL_SAFE_NO_PAD.decode(alloc, text.as_bytes()) {
        Ok(bytes) => Ok(bytes),
        Err(DecodeAllocError::OutOfMemory) => Err(PolicyFault::Memory),
        Err(DecodeAllocError::DecodeError(_)) => Err(PolicyFault::BadBase64),
    }
}
