//! Whether a granted filter matches the asked filter's candidates as far as both go, read off the two filters
//! alone (MQTT 3.1.1, 4.7): a candidate has the asked filter's literal levels, and elsewhere a level that no
//! granted filter names, so there only a wildcard can match.
ghost use Rattle.std.specs.Prelude.{◌≡◌, ◌≤◌, true, false, length};
ghost use Rattle.sng_text.specs.Common.{first_is};
ghost use Rattle.sng_text.specs.Levels.{levels_of, levels_left};
ghost use Rattle.sng_text.specs.Texts.{is_filter, is_in_place, is_plus};
ghost use Rattle.sng_cover.specs.Reaches.{fits, fits_levels, after_first};

use crate::alike::past_alike;
use sng_text::bytes::{begins_hash, begins_plus};
use sng_text::matching::{begins_wild, is_reserved};
use sng_text::{TopicFilter, split_level};

/// Whether the granted filter's levels fit the asked filter's candidates. Ends at the first level that does
/// not fit.
pub fn fits(asked: &TopicFilter, granted: &TopicFilter) -> bool
    ensures value { result ≡ fits asked.now granted.now }
    ensures granted_is { is_filter granted.now ≡ true }
{
    let asked = asked.text();
    let granted = granted.text();
    if is_reserved(asked) && begins_wild(granted) {
        return false;
    }
    fits_levels(asked, granted)
}

/// The same, `$` aside.
fn fits_levels(asked: &[u8], granted: &[u8]) -> bool
    requires { is_in_place (levels_of granted.now) ≡ true }
    ensures { result ≡ fits_levels (levels_of asked.now) (levels_of granted.now) }
{
    let (left, own) = past_alike(granted, asked);
    let Some(left) = left else {
        return true;
    };
    if begins_hash(left) {
        return true;
    }
    if !begins_plus(left) {
        return false;
    }
    match past_pluses(past_level(own), split_level(left).1) {
        (_, None) => true,
        (None, Some(left)) => begins_hash(left),
        (Some(own), Some(left)) => fits_levels(own, left),
    }
}

/// What is left of the asked filter and of the granted one behind the granted one's levels `+`, each of which
/// fits whatever the asked filter has at its place.
fn past_pluses<'a, 'b>(
    own: Option<&'a [u8]>,
    left: Option<&'b [u8]>,
) -> (Option<&'a [u8]>, Option<&'b [u8]>)
    ensures same { fits_levels (levels_left result.0) (levels_left result.1)
        ≡ fits_levels (levels_left own.entry) (levels_left left.entry) }
    ensures in_place { is_in_place (levels_left left.entry) ≡ true
        → is_in_place (levels_left result.1) ≡ true }
    ensures fewer { length (levels_left result.1) ≤ length (levels_left left.entry) }
    ensures other { first_is is_plus (levels_left result.1) ≡ false }
{
    let mut own = own;
    let mut left = left;
    while let Some(text) = left {
        if !begins_plus(text) {
            break;
        }
        own = past_level(own);
        left = split_level(text).1;
    }
    (own, left)
}

/// What is left behind one level.
fn past_level(left: Option<&[u8]>) -> Option<&[u8]>
    ensures { levels_left result ≡ after_first (levels_left left.entry) }
{
    split_level(left?).1
}
