//! The filters as they are kept: where each is, and how those that ended are swept out.
ghost use Rattle.std.specs.Prelude.{◌≡◌, ◌<◌, ◌≤◌, ◌+◌, [], ◌∷◌, ◌++◌, true, false, length, filter, IfSome};
ghost use Rattle.indexmap.specs.IndexMap.{spare};
ghost use Rattle.indexmap.specs.Layout.{set_value_at};
ghost use Rattle.sng_history.specs.Links.{wants};
ghost use Rattle.sng_wanted.specs.Shown.{shown, is_standing, open_at, Absent, Apart, IsPlaceOf, HasRoom};
ghost use Rattle.sng_wanted.specs.Shown.{want_of, IsStandingAt};
ghost use Rattle.sng_wanted.specs.Shown.{IsIndexed, IsOpenOnce, IsPlaceOpen, NoneOwedBefore};

use crate::want::{Stand, Want};
use indexmap::IndexMap;
use sng_text::TopicFilter;
use std::mem;

/// The place of the filter, where it is kept.
fn place_of(filters: &IndexMap<TopicFilter, Want>, filter: &TopicFilter) -> Option<usize>
    ensures place { IsPlaceOf filters.now.entries filter.now result }
    ensures apart { Apart filters.now.entries }
    ensures within { IfSome result (λ place. place < length filters.now.entries) }
{
    // No filter has two entries.
    let _count = filters.len();
    let (place, _, _) = filters.get_full(filter)?;
    Some(place)
}

/// What is kept at the place.
fn want_at(filters: &IndexMap<TopicFilter, Want>, place: usize) -> Option<Want>
    ensures { result ≡ want_of filters.now.entries place }
{
    let (_, want) = filters.get_index(place)?;
    Some(*want)
}

/// The place of the filter that stands, and how it does.
pub fn standing(
    filters: &IndexMap<TopicFilter, Want>,
    filter: &TopicFilter,
) -> Option<(usize, Stand)>
    ensures { IsStandingAt filters.now.entries filter.now result }
{
    let place = place_of(filters, filter)?;
    match want_at(filters, place)? {
        Want::Ended => None,
        Want::Stands(stand) => Some((place, stand)),
    }
}

/// Keeps this at the place.
pub fn change(filters: &mut IndexMap<TopicFilter, Want>, place: usize, want: Want)
    requires { place < length filters.old.entries }
    ensures entries { filters.new.entries ≡ set_value_at filters.old.entries place want }
    ensures room { spare filters.new ≡ spare filters.old }
{
    if let Some(kept) = filters.get_index_mut(place) {
        *kept = want;
    }
}

/// The packet id of the open SUBSCRIBE of the filter at the place.
fn open_at(filters: &IndexMap<TopicFilter, Want>, place: usize) -> Option<u16>
    ensures { result ≡ open_at filters.now.entries place }
{
    match want_at(filters, place)? {
        Want::Ended => None,
        Want::Stands(stand) => stand.open_id,
    }
}

/// The place of the filter whose open SUBSCRIBE has this packet id.
pub fn place_open(
    filters: &IndexMap<TopicFilter, Want>,
    places: &[usize],
    packet_id: u16,
) -> Option<usize>
    requires { IsIndexed filters.now.entries places.now }
    ensures { IsPlaceOpen filters.now.entries packet_id result }
{
    let place = places[usize::from(packet_id)];
    let open_id = open_at(filters, place)?;
    if open_id == packet_id {
        Some(place)
    } else {
        None
    }
}

/// Notes the places of the filters with an open SUBSCRIBE anew.
fn find_places(filters: &IndexMap<TopicFilter, Want>, places: &mut [usize])
    requires whole { length places.old ≡ 65536 }
    requires once { IsOpenOnce filters.now.entries }
    ensures { IsIndexed filters.now.entries places.new }
{
    for place in 0..filters.len() {
        if let Some(packet_id) = open_at(filters, place) {
            places[usize::from(packet_id)] = place;
        }
    }
}

/// Whether the filter is not kept, and one more has room, where there is room for twice so many.
fn fits(filters: &IndexMap<TopicFilter, Want>, filter: &TopicFilter, room: usize) -> bool
    ensures { result ≡ true → Absent filter.now filters.now.entries
        × (length filters.now.entries < room + room) }
{
    match place_of(filters, filter) {
        None => filters.len().saturating_sub(room) < room,
        Some(_) => false,
    }
}

/// Makes room for the filter, which is not wanted, where there is room for twice so many. Where it is kept as
/// one that ended, or there is no place, all that ended are swept out. Answers before which place none is owed,
/// which is known of the one that is given. Takes no memory.
pub fn make_room(
    filters: &mut IndexMap<TopicFilter, Want>,
    other: &mut IndexMap<TopicFilter, Want>,
    places: &mut Vec<usize>,
    filter: &TopicFilter,
    room: usize,
    first_owed: usize,
) -> usize
    requires new { wants (shown filters.old.entries) filter.now ≡ false }
    requires few { length (shown filters.old.entries) < room }
    requires indexed { IsIndexed filters.old.entries places.old.items }
    requires owed { NoneOwedBefore filters.old.entries first_owed }
    requires room { HasRoom (room + room) (length filters.old.entries) (spare filters.old) }
    requires empty { other.old.entries ≡ [] }
    requires other_room { room + room ≤ spare other.old }
    ensures absent { Absent filter.now filters.new.entries }
    ensures place { length filters.new.entries < room + room }
    ensures shown { shown filters.new.entries ≡ shown filters.old.entries }
    ensures indexed { IsIndexed filters.new.entries places.new.items }
    ensures owed { NoneOwedBefore filters.new.entries result }
    ensures room { HasRoom (room + room) (length filters.new.entries) (spare filters.new) }
    ensures empty { other.new.entries ≡ [] }
    ensures other_room { room + room ≤ spare other.new }
{
    if fits(filters, filter, room) {
        return first_owed;
    }
    sweep(filters, other);
    find_places(filters, places);
    0
}

/// Takes the filters out that ended, in one pass. The others stay in order. Takes no memory.
fn sweep(filters: &mut IndexMap<TopicFilter, Want>, other: &mut IndexMap<TopicFilter, Want>)
    requires few { length (shown filters.old.entries) < spare other.old }
    requires empty { other.old.entries ≡ [] }
    ensures entries { filters.new.entries ≡ filter is_standing filters.old.entries }
    ensures room { spare other.old ≤ length filters.new.entries + spare filters.new }
    ensures empty { other.new.entries ≡ [] }
    ensures other_room { length filters.old.entries + spare filters.old ≤ spare other.new }
{
    move_standing(filters, other);
    mem::swap(filters, other);
}

/// Moves the filters that stand to the other map, in order, and leaves this one empty.
fn move_standing(from: &mut IndexMap<TopicFilter, Want>, to: &mut IndexMap<TopicFilter, Want>)
    requires few { length (shown from.old.entries) < spare to.old }
    requires empty { to.old.entries ≡ [] }
    ensures entries { to.new.entries ≡ filter is_standing from.old.entries }
    ensures room { spare to.old ≤ length to.new.entries + spare to.new }
    ensures empty { from.new.entries ≡ [] }
    ensures from_room { length from.old.entries + spare from.old ≤ spare from.new }
{
    // No filter has two entries.
    let _count = from.len();
    for (filter, want) in from.drain(..) {
        keep_standing(to, filter, want);
    }
}

/// Puts the filter behind the others, where it stands.
fn keep_standing(to: &mut IndexMap<TopicFilter, Want>, text: TopicFilter, want: Want)
    requires absent { Absent text to.old.entries }
    requires room { 0 < spare to.old }
    ensures entries { to.new.entries ≡ to.old.entries ++ filter is_standing ((text, want) ∷ []) }
    ensures room { length to.old.entries + spare to.old ≤ length to.new.entries + spare to.new }
{
    if let Want::Stands(_) = want {
        let _new = to.insert(text, want).unwrap();
    }
}
