//! Which names a filter matches (MQTT 3.1.1, 4.7).
ghost use Rattle.std.specs.Prelude.{◌≡◌, true};
ghost use Rattle.sng_text.specs.Levels.{levels_of};
ghost use Rattle.sng_text.specs.Matching.{matches, match_items, items_of, has_rest, begins_wild, is_reserved};
ghost use Rattle.sng_text.specs.Texts.{all_plain};

use crate::{TopicFilter, TopicName, bytes, past_common, split_level};

/// Whether the filter matches the name, level by level. A filter that begins with a wildcard matches no name
/// that begins with `$`. Takes no memory.
pub fn matches(filter: &TopicFilter, name: &TopicName) -> bool
    ensures { result ≡ matches filter.now name.now }
{
    let filter = filter.text();
    let name = name.text();
    if is_reserved(name) && begins_wild(filter) {
        return false;
    }
    match_levels(filter, name)
}

/// Whether the filter's first level is a wildcard, read off its first bytes.
#[tactic(auto, using(crate::proofs::MatchLemmas::begins_wild_first))]
pub fn begins_wild(filter: &[u8]) -> bool
    ensures { result ≡ begins_wild (items_of (levels_of filter.now)) (has_rest (levels_of filter.now)) }
{
    bytes::begins_hash(filter) || bytes::begins_plus(filter)
}

/// Whether the name begins with `$`.
pub fn is_reserved(name: &[u8]) -> bool
    ensures { result ≡ is_reserved name.now }
{
    match name {
        [] => false,
        [first, ..] => *first == b'$',
    }
}

/// The same, `$` aside. What both have in common at first is walked as bytes, and the walk ends at the first
/// level that does not fit.
fn match_levels(filter: &[u8], name: &[u8]) -> bool
    requires { all_plain (levels_of name.now) ≡ true }
    ensures { result ≡ match_items (items_of (levels_of filter.now))
        (has_rest (levels_of filter.now)) (levels_of name.now) }
{
    let (left, found) = past_common(filter, name);
    let Some(left) = left else {
        return found.is_none();
    };
    let Some(found) = found else {
        return bytes::begins_hash(left);
    };
    if bytes::begins_hash(left) {
        return true;
    }
    if !bytes::begins_plus(left) {
        return false;
    }
    match (split_level(left).1, split_level(found).1) {
        (None, found) => found.is_none(),
        (Some(left), None) => bytes::begins_hash(left),
        (Some(left), Some(found)) => match_levels(left, found),
    }
}
