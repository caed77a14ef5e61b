//! Hex digits, of either case, two for each byte. What a digit stands for is looked up: a script spells most of
//! what it says in such digits, and to compare each with the ranges of digits takes longer.
ghost use Rattle.std.specs.Prelude.{◌≡◌, length, true, false, MatchResult};
ghost use Rattle.hex.specs.Hex.{decode_sized, hex_digit_value};
ghost use Rattle.sng_script.specs.Digits.{pair_of};

/// What stands for a byte that is no hex digit.
const NO_DIGIT: u8 = 255;

/// What each byte stands for as a hex digit.
#[rattlefmt::skip]
static DIGITS: [u8; 256] = [
    255, 255, 255, 255, 255, 255, 255, 255, 255, 255, 255, 255, 255, 255, 255, 255,
    255, 255, 255, 255, 255, 255, 255, 255, 255, 255, 255, 255, 255, 255, 255, 255,
    255, 255, 255, 255, 255, 255, 255, 255, 255, 255, 255, 255, 255, 255, 255, 255,
      0,   1,   2,   3,   4,   5,   6,   7,   8,   9, 255, 255, 255, 255, 255, 255,
    255,  10,  11,  12,  13,  14,  15, 255, 255, 255, 255, 255, 255, 255, 255, 255,
    255, 255, 255, 255, 255, 255, 255, 255, 255, 255, 255, 255, 255, 255, 255, 255,
    255,  10,  11,  12,  13,  14,  15, 255, 255, 255, 255, 255, 255, 255, 255, 255,
    255, 255, 255, 255, 255, 255, 255, 255, 255, 255, 255, 255, 255, 255, 255, 255,
    255, 255, 255, 255, 255, 255, 255, 255, 255, 255, 255, 255, 255, 255, 255, 255,
    255, 255, 255, 255, 255, 255, 255, 255, 255, 255, 255, 255, 255, 255, 255, 255,
    255, 255, 255, 255, 255, 255, 255, 255, 255, 255, 255, 255, 255, 255, 255, 255,
    255, 255, 255, 255, 255, 255, 255, 255, 255, 255, 255, 255, 255, 255, 255, 255,
    255, 255, 255, 255, 255, 255, 255, 255, 255, 255, 255, 255, 255, 255, 255, 255,
    255, 255, 255, 255, 255, 255, 255, 255, 255, 255, 255, 255, 255, 255, 255, 255,
    255, 255, 255, 255, 255, 255, 255, 255, 255, 255, 255, 255, 255, 255, 255, 255,
    255, 255, 255, 255, 255, 255, 255, 255, 255, 255, 255, 255, 255, 255, 255, 255,
];

/// Puts the bytes that the digits spell in their places, and returns whether they spell just so many. Where they
/// do not, what the places then hold is not specified.
pub fn read_digits(digits: &[u8], bytes: &mut [u8]) -> bool
    ensures { MatchResult (decode_sized digits.now (length bytes.old))
        (λ read. (result ≡ true) × (bytes.new ≡ read))
        (λ _. result ≡ false) }
{
    if digits.len() % 2 != 0 {
        return false;
    }
    if digits.len() / 2 != bytes.len() {
        return false;
    }
    for place in 0..bytes.len() {
        match byte_of(digits[2 * place], digits[2 * place + 1]) {
            Some(byte) => bytes[place] = byte,
            None => return false,
        }
    }
    true
}

/// The byte of two digits, where both are digits.
#[inline(always)]
fn byte_of(high: u8, low: u8) -> Option<u8>
    ensures { result ≡ pair_of high low }
{
    let high = digit(high)?;
    let low = digit(low)?;
    Some(high * 16 + low)
}

/// What the byte stands for as a hex digit, where it is one.
#[inline(always)]
fn digit(byte: u8) -> Option<u8>
    ensures { result ≡ hex_digit_value byte }
{
    let value = DIGITS[usize::from(byte)];
    if value == NO_DIGIT { None } else { Some(value) }
}
