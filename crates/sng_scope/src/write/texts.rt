//! Texts as JSON strings: those that are UTF-8, and keys in decimal.
ghost use Rattle.std.specs.Prelude.{◌≡◌, ◌++◌, IfOk, OnOk, string_bytes, codes};
ghost use Rattle.std.specs.Fmt.{decimal};
ghost use Rattle.std.specs.Str.{IsUtf8};
ghost use Rattle.serde_json.specs.Data.{string};
ghost use Rattle.serde_json.specs.View.{view};
ghost use Rattle.sng_text.specs.Ipv4.{IsAddress};
ghost use Rattle.sng_scope.specs.Written.{dotted};

use serde_json::Value;
use std::alloc::{AllocError, Global};

/// The bytes as a text.
pub fn text_of(bytes: &[u8]) -> &str
    requires { IsUtf8 bytes.now }
    ensures { result.now ≡ bytes.now }
{
    match str::from_utf8(bytes) {
        Ok(text) => text,
        Err(_) => unreachable!(),
    }
}

/// The bytes as a string.
pub fn string_of(alloc: Global, bytes: &[u8]) -> Result<Value, AllocError>
    requires { IsUtf8 bytes.now }
    ensures { IfOk result (λ v. view v ≡ string bytes.now) }
{
    Value::try_from_str(alloc, text_of(bytes))
}

/// The number in decimal.
pub fn decimal_of(alloc: Global, number: u16) -> Result<String, AllocError>
    ensures { IfOk result (λ text. string_bytes text ≡ decimal number) }
{
    format!(in alloc; "{number}")
}

/// The address in dotted decimal.
pub fn dotted_of(alloc: Global, address: [u8; 4]) -> Result<String, AllocError>
    ensures text { IfOk result (λ text. string_bytes text ≡ dotted address) }
    ensures within { IfOk result (λ text. IsAddress address) }
{
    let [first, second, third, fourth] = address;
    let mut text = decimal_of(alloc, u16::from(first))?;
    push_part(alloc, &mut text, second)?;
    push_part(alloc, &mut text, third)?;
    push_part(alloc, &mut text, fourth)?;
    Ok(text)
}

/// Appends a point and the number.
fn push_part(alloc: Global, text: &mut String, number: u8) -> Result<(), AllocError>
    ensures { OnOk result
        (string_bytes text.new ≡ string_bytes text.old ++ codes "." ++ decimal number) }
{
    let digits = decimal_of(alloc, u16::from(number))?;
    text.push_str(".")?;
    text.push_str(digits.as_str())
}
