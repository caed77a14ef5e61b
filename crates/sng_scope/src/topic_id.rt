//! Topic ids as texts: decimal numbers from 1 to 65534 without leading zeros (MQTT-SN 1.2, 5.3.11).
ghost use Rattle.std.specs.Prelude.{◌≡◌};
ghost use Rattle.sng_scope.specs.Numerals.{are_digits, is_numeral, topic_id_of};

use sng_text::ipv4::{is_digit, is_leading};

const LAST_ID: u16 = 65534;

/// The topic id that the text is, where it is one.
pub fn topic_id_from(text: &str) -> Option<u16>
    ensures { result ≡ topic_id_of text.now }
{
    if !is_numeral(text.as_bytes()) {
        return None;
    }
    match text.parse::<u16>() {
        Ok(id) => { if id <= LAST_ID { Some(id) } else { None } }
        Err(_) => None,
    }
}

/// Whether the text is digits, of which the first is no 0.
fn is_numeral(text: &[u8]) -> bool
    ensures { result ≡ is_numeral text.now }
{
    match text {
        [] => false,
        [first, others @ ..] => is_leading(*first) && are_digits(others),
    }
}

fn are_digits(text: &[u8]) -> bool
    ensures { result ≡ are_digits text.now }
{
    for byte in text {
        if !is_digit(*byte) {
            return false;
        }
    }
    true
}
