//! Tests on the bytes of a text.
ghost use Rattle.std.specs.Prelude.{◌≡◌, length, if◌then◌else◌, Some, None};
ghost use Rattle.std.specs.Str.{is_utf8, chars};
ghost use Rattle.sng_text.specs.Common.{first_is};
ghost use Rattle.sng_text.specs.Levels.{levels_of};
ghost use Rattle.sng_text.specs.Texts.{has_byte, is_plain, is_plus, is_hash, is_ordinary};

use std::str;

/// Whether the byte is in the text.
pub fn has_byte(byte: u8, text: &[u8]) -> bool
    ensures { result ≡ has_byte byte text.now }
{
    for b in text {
        if *b == byte {
            return true;
        }
    }
    false
}

/// Whether the text has no wildcard.
pub fn is_plain(text: &[u8]) -> bool
    ensures { result ≡ is_plain text.now }
{
    !has_byte(b'+', text) && !has_byte(b'#', text)
}

/// Whether the bytes are UTF-8.
pub fn is_utf8(text: &[u8]) -> bool
    ensures { result ≡ is_utf8 text.now }
{
    str::from_utf8(text).is_ok()
}

/// How many characters the bytes spell, in one pass. None where they are not UTF-8.
pub fn character_count(text: &[u8]) -> Option<usize>
    ensures { result ≡ (if is_utf8 text.now then Some (length (chars text.now)) else None) }
{
    match str::from_utf8(text) {
        Ok(text) => Some(text.chars().count()),
        Err(_) => None,
    }
}

/// Whether the level is `+` alone.
pub fn is_plus(level: &[u8]) -> bool
    ensures { result ≡ is_plus level.now }
{
    level == b"+".as_slice()
}

/// Whether the level is `#` alone.
pub fn is_hash(level: &[u8]) -> bool
    ensures { result ≡ is_hash level.now }
{
    level == b"#".as_slice()
}

/// Whether the level may stand anywhere in a filter.
pub fn is_ordinary(level: &[u8]) -> bool
    ensures { result ≡ is_ordinary level.now }
{
    is_plain(level) || is_plus(level)
}

/// Whether the first level of the text is `+`, read off its first bytes.
pub fn begins_plus(text: &[u8]) -> bool
    ensures { result ≡ first_is is_plus (levels_of text.now) }
{
    match text {
        [b'+'] => true,
        [b'+', second, ..] => *second == b'/',
        _ => false,
    }
}

/// Whether the first level of the text is `#`, read off its first bytes.
pub fn begins_hash(text: &[u8]) -> bool
    ensures { result ≡ first_is is_hash (levels_of text.now) }
{
    match text {
        [b'#'] => true,
        [b'#', second, ..] => *second == b'/',
        _ => false,
    }
}
