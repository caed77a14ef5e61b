//! The levels with which two texts begin alike (MQTT 3.1.1, 4.7.1.1).
ghost use Rattle.std.specs.Prelude.{◌≡◌, length, min};
ghost use Rattle.sng_text.specs.Common.{AreLeft};
ghost use Rattle.sng_text.specs.Levels.{levels_of, levels_left};

use std::cmp;

/// What is left of two texts behind the levels with which both begin. None where no level is left of one.
/// Where both have one, these two differ. Takes one walk over the bytes up to there.
pub fn past_common<'a, 'b>(text: &'a [u8], other: &'b [u8]) -> (Option<&'a [u8]>, Option<&'b [u8]>)
    ensures { AreLeft (levels_of text.now) (levels_of other.now)
        (levels_left result.0) (levels_left result.1) }
{
    let shorter = shorter(text, other);
    let mut start = 0;
    for at in 0..shorter {
        if text[at] != other[at] {
            return (Some(&text[start..]), Some(&other[start..]));
        }
        if text[at] == b'/' {
            start = at + 1;
        }
    }
    // one of the texts is over, which ends its level as a slash does
    if text.len() == other.len() {
        (None, None)
    } else if other.len() < text.len() {
        if text[shorter] == b'/' {
            (Some(&text[shorter + 1..]), None)
        } else {
            (Some(&text[start..]), Some(&other[start..]))
        }
    } else if other[shorter] == b'/' {
        (None, Some(&other[shorter + 1..]))
    } else {
        (Some(&text[start..]), Some(&other[start..]))
    }
}

/// How far both texts go.
fn shorter(text: &[u8], other: &[u8]) -> usize
    ensures { result ≡ min (length text.now) (length other.now) }
{
    cmp::min(text.len(), other.len())
}
