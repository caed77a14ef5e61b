//! Which filters a SUBSCRIBE is owed of, and how many SUBSCRIBEs are open (MQTT 3.1.1, 2.3.1 and 3.8).
ghost use Rattle.std.specs.Prelude.{◌≡◌, ◌<◌, ◌≤◌, ◌+◌, ◌||◌, ◌&&◌, ℕ, true, false, length, is_some};
ghost use Rattle.std.specs.Prelude.{IfOk};
ghost use Rattle.std.specs.List.{list_any};
ghost use Rattle.sng_history.specs.declared.limits.TheConstants.{MAX_OPEN_SUBSCRIBES};
ghost use Rattle.sng_history.specs.Links.{open_id, is_filter_of};
ghost use Rattle.sng_wanted.specs.Shown.{shown, owed_at, filter_at};

use crate::places::standing;
use crate::want::Want;
use indexmap::IndexMap;
use sng_text::TopicFilter;
use std::alloc::AllocError;

/// Whether a SUBSCRIBE of the filter at the place is owed.
pub fn owed_at(filters: &IndexMap<TopicFilter, Want>, place: usize) -> bool
    ensures { result ≡ owed_at filters.now.entries place }
{
    match filters.get_index(place) {
        Some((_, Want::Stands(stand))) => stand.owed,
        Some((_, Want::Ended)) | None => false,
    }
}

/// The same once one is owed, where this says so.
pub fn owed_then(filters: &IndexMap<TopicFilter, Want>, place: usize, owes: bool) -> bool
    ensures { result ≡ (owes || owed_at filters.now.entries place) }
{
    owes || owed_at(filters, place)
}

/// The first place, from this one on, at which a filter is owed, or past the end.
pub fn owed_from(filters: &IndexMap<TopicFilter, Want>, from: usize) -> usize
    ensures before { (p : ℕ) → from ≤ p → p < result → owed_at filters.now.entries p ≡ false }
    ensures there { result < length filters.now.entries → owed_at filters.now.entries result ≡ true }
    ensures on { from ≤ result }
{
    for place in from..filters.len() {
        if owed_at(filters, place) {
            return place;
        }
    }
    filters.len().max(from)
}

/// A copy of the filter that is kept at the place. Only memory can fail.
pub fn filter_at(
    filters: &IndexMap<TopicFilter, Want>,
    place: usize,
) -> Result<Option<TopicFilter>, AllocError>
    ensures { IfOk result (λ filter. filter ≡ filter_at filters.now.entries place) }
{
    match filters.get_index(place) {
        None => Ok(None),
        Some((filter, _)) => Ok(Some(filter.copy()?)),
    }
}

/// The place before which none is owed, once one at this place is owed, where this says so.
pub fn owed_too(first_owed: usize, place: usize, owes: bool) -> usize
    ensures within { result ≤ first_owed }
    ensures here { owes ≡ true → result ≤ place }
{
    if owes {
        first_owed.min(place)
    } else {
        first_owed
    }
}

/// Whether the filter has an open SUBSCRIBE.
pub fn has_open(filters: &IndexMap<TopicFilter, Want>, filter: &TopicFilter) -> bool
    ensures { result ≡ list_any (λ w. is_filter_of filter.now w && is_some w.open_id)
        (shown filters.now.entries) }
{
    match standing(filters, filter) {
        None => false,
        Some((_, stand)) => stand.open_id.is_some(),
    }
}

/// How many SUBSCRIBEs are open, where so many were and one filter has this open packet id in place of that.
pub fn recount(opens: usize, before: Option<u16>, after: Option<u16>) -> usize
    requires before { length (open_id before) ≤ opens }
    requires few { opens ≤ MAX_OPEN_SUBSCRIBES }
    ensures { result + length (open_id before) ≡ opens + length (open_id after) }
{
    match (before, after) {
        (Some(_), None) => opens - 1,
        (None, Some(_)) => opens + 1,
        (Some(_), Some(_)) | (None, None) => opens,
    }
}
