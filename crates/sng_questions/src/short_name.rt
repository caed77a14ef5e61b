//! Short topic names: topic names of two bytes (MQTT-SN 1.2, 6.7).
ghost use Rattle.std.specs.Prelude.{◌≡◌, nat_le};
ghost use Rattle.sng_questions.specs.ShortNames.{fewest_bytes, fewest_of, matches_short};
ghost use Rattle.sng_text.specs.Levels.{levels_of};

use sng_text::bytes::{is_hash, is_plus};
use sng_text::{TopicFilter, split_level};

/// How many bytes a short topic name has.
pub const SHORT_NAME: usize = 2;

/// Whether the filter matches some short topic name. Takes no memory.
pub fn matches_short(filter: &TopicFilter) -> bool
    ensures { result ≡ matches_short filter.now }
{
    if filter.is_name() {
        return filter.text().len() == SHORT_NAME;
    }
    fits_in(filter.text(), SHORT_NAME + 1)
}

/// Whether some name that the levels match has no more than these bytes, with a slash in front of each of
/// its levels.
fn fits_in(text: &[u8], bytes: usize) -> bool
    ensures { result ≡ nat_le (fewest_bytes (levels_of text.now)) bytes }
{
    let (level, rest) = split_level(text);
    if is_hash(level) {
        return true;
    }
    let fewest = fewest_of(level);
    if bytes <= fewest {
        return false;
    }
    match rest {
        None => true,
        Some(rest) => fits_in(rest, bytes - fewest - 1),
    }
}

/// How many bytes a level of a name has at least that this one matches.
fn fewest_of(level: &[u8]) -> usize
    ensures { result ≡ fewest_of level.now }
{
    if is_plus(level) { 0 } else { level.len() }
}
