//! Whole numbers in decimal digits.
ghost use Rattle.std.specs.Prelude.{◌≡◌, ◌++◌, OnOk, decimal};
ghost use Rattle.sng_metrics.specs.Numbers.{number_of};

use itoa::Buffer;
use sng_text::ipv4::is_digit;
use std::alloc::AllocError;

/// Appends the number in decimal digits.
pub(crate) fn push_number(text: &mut Vec<u8>, number: u128) -> Result<(), AllocError>
    ensures { OnOk result (text.new.items ≡ text.old.items ++ decimal number) }
{
    let mut digits = Buffer::new();
    text.extend_from_slice(digits.format(number).as_bytes())
}

/// The number that one decimal digit or more write, where 64 bits hold it.
pub(crate) fn number_of(digits: &[u8]) -> Option<u64>
    ensures { result ≡ number_of digits.now }
{
    if digits.is_empty() {
        return None;
    }
    let mut number = 0u64;
    for digit in digits {
        if !is_digit(*digit) {
            return None;
        }
        number = u64::try_from(10 * u128::from(number) + u128::from(*digit - b'0')).ok()?;
    }
    Some(number)
}
