//! JSON values from their texts (RFC 8259).
ghost use Rattle.std.specs.Prelude.{◌≡◌, ◌⊎◌, IfOk, IfErr, Ok, Err};
ghost use Rattle.serde_json.specs.View.{view};
ghost use Rattle.sng_scope.specs.Texts.{value_of};

use crate::PolicyFault;
use serde_json::Value;
use std::alloc::Global;

/// The JSON value of the text. It nests at most 127 deep; text that nests deeper is NotJson.
pub fn value_from(alloc: Global, text: &[u8]) -> Result<Value, PolicyFault>
    ensures ok { IfOk result (λ v. value_of text.now ≡ Ok (view v)) }
    ensures err { IfErr result (λ e. (e ≡ PolicyFault.Memory) ⊎ (value_of text.now ≡ Err e)) }
{
    match Value::from_slice(alloc, text) {
        Ok(value) => Ok(value),
        Err(error) => {
            if error.is_memory() {
                Err(PolicyFault::Memory)
            } else {
                Err(PolicyFault::NotJson)
            }
        }
    }
}
