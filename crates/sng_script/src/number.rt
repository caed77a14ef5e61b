//! Numbers in decimal digits.
ghost use Rattle.std.specs.Prelude.{◌≡◌};
ghost use Rattle.sng_script.specs.Lines.{number_of};

use sng_text::ipv4::is_digit;

/// The number that one decimal digit or more write, leading zeros included, where 64 bits hold it.
pub fn number_of(digits: &[u8]) -> Option<u64>
    ensures { result ≡ number_of digits.now }
{
    if digits.is_empty() {
        return None;
    }
    let mut number = 0u64;
    for digit in digits {
        if !is_digit(*digit) {
            return None;
        }
        number = u64::try_from(10 * u128::from(number) + u128::from(*digit - b'0')).ok()?;
    }
    Some(number)
}
