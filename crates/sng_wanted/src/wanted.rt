//! The filters that stand for anybody, in order of first standing.
ghost use Rattle.std.specs.Prelude.{◌≡◌, ◌≤◌, ◌<◌, ◌+◌, [], ◌∷◌, ◌++◌, None, true, false, length, map};
ghost use Rattle.std.specs.Prelude.{IfOk, OnOk, OnErr, IsOk};
ghost use Rattle.std.specs.List.{list_any};
ghost use Rattle.std.specs.Option.{option_copied};
ghost use Rattle.sng_history.specs.declared.limits.TheConstants.{MAX_OPEN_SUBSCRIBES};
ghost use Rattle.sng_history.specs.Good.{WantedOnce};
ghost use Rattle.sng_history.specs.Links.{wants, opened, owing, closed, is_open, may_open, open_ids};
ghost use Rattle.sng_history.specs.Packets.{filter_open};
ghost use Rattle.sng_wanted.specs.Filters.{without_wanted, reopened, forgiven, id_for, owed_for, first_owed};
ghost use Rattle.sng_wanted.specs.Filters.{IsFree};
ghost use Rattle.sng_wanted.specs.Shown.{shown};

use crate::WantedCopy;
use crate::owing::{filter_at, has_open, owed_from, owed_then, owed_too, recount};
use crate::places::{change, make_room, place_open, standing};
use crate::want::{Stand, Want};
use indexmap::IndexMap;
use sng_history::MAX_OPEN_SUBSCRIBES;
use sng_text::TopicFilter;
use std::alloc::{AllocError, Global};
use std::marker::Model;

/// How many numbers a packet id has, 0 among them, which is none.
const NUMBERS: usize = 65_536;

/// The filters that stand for anybody, in order of first standing, each with the packet id of its open
/// SUBSCRIBE, and whether one is owed. No more SUBSCRIBEs are open than may be. Found by filter and by packet id
/// in one look-up each. `room` makes room ahead, which may fail; beside it no call but `new`, `next_owed`,
/// `filters` and `copy` takes memory. One that ends stays where it is, and is swept out later. Contracts see
/// those that stand, and for how many there is room.
#[derive(Drop)]
pub struct Wanted {
    filters: IndexMap<TopicFilter, Want>,
    /// Empty: where a sweep moves those that stand.
    other: IndexMap<TopicFilter, Want>,
    /// For the packet id of an open SUBSCRIBE the place of its filter.
    places: Vec<usize>,
    /// How many filters stand.
    count: usize,
    /// How many SUBSCRIBEs are open.
    opens: usize,
    /// For how many filters there is room. Twice as many are kept at the most, those that ended among them: so a
    /// sweep for lack of room comes only after as many filters ended.
    room: usize,
    /// No SUBSCRIBE is owed of a filter before this place.
    first_owed: usize,
}

impl Model for Wanted {
    ghost use Rattle.std.specs.Prelude.{◌≡◌, ◌≤◌, ◌+◌, [], length};
    ghost use Rattle.indexmap.specs.IndexMap.{spare};
    ghost use Rattle.sng_history.specs.declared.limits.TheConstants.{MAX_OPEN_SUBSCRIBES};
    ghost use Rattle.sng_history.specs.Links.{open_ids};
    ghost use Rattle.sng_wanted.specs.Filters.{WantedRoom};
    ghost use Rattle.sng_wanted.specs.Shown.{shown, IsIndexed, HasRoom, NoneOwedBefore};

    ghost Value = { WantedRoom };

    ghost view = { λ w. record { wanted = shown w.filters.entries; room = w.room } };

    ghost invariant = { λ w. IsIndexed w.filters.entries w.places.items
        × (w.count ≡ length (shown w.filters.entries))
        × (w.opens ≡ length (open_ids (shown w.filters.entries)))
        × (w.opens ≤ MAX_OPEN_SUBSCRIBES)
        × NoneOwedBefore w.filters.entries w.first_owed
        × (w.count ≤ w.room)
        × HasRoom (w.room + w.room) (length w.filters.entries) (spare w.filters)
        × (w.other.entries ≡ []) × (w.room + w.room ≤ spare w.other) };
}

impl Wanted {
    /// No filter stands. Only memory can fail.
    pub fn new(alloc: Global) -> Result<Wanted, AllocError>
        ensures { IfOk result (λ w. w.wanted ≡ []) }
    {
        Ok(Wanted {
            filters: IndexMap::new(alloc),
            other: IndexMap::new(alloc),
            places: vec![in alloc; 0; NUMBERS]?,
            count: 0,
            opens: 0,
            room: 0,
            first_owed: 0,
        })
    }

    /// Makes room for so many more filters. An `Err` is a failed allocation, which cannot be while there is room,
    /// and nothing changes.
    pub fn room(&mut self, count: usize) -> Result<(), AllocError>
        ensures wanted { self.new.wanted ≡ self.old.wanted }
        ensures ok { OnOk result (length self.new.wanted + count ≤ self.new.room) }
        ensures more { self.old.room ≤ self.new.room }
        ensures there { length self.old.wanted + count ≤ self.old.room → IsOk result }
        ensures err { OnErr result (self.new ≡ self.old) }
    {
        let needed = self.count.checked_add(count).ok_or(AllocError)?;
        if needed <= self.room {
            return Ok(());
        }
        let room = needed.max(self.room.saturating_mul(2));
        let kept = room.checked_mul(2).ok_or(AllocError)?;
        self.filters
            .reserve(kept.saturating_sub(self.filters.len()))?;
        self.other.reserve(kept)?;
        self.room = room;
        Ok(())
    }

    /// How many filters stand. None stands twice.
    pub fn len(&self) -> usize
        ensures len { result ≡ length self.now.wanted }
        ensures once { WantedOnce self.now.wanted }
    {
        let _kept = self.filters.len();
        self.count
    }

    /// How many SUBSCRIBEs are open, `MAX_OPEN_SUBSCRIBES` at the most.
    pub fn opens(&self) -> usize
        ensures opens { result ≡ length (open_ids self.now.wanted) }
        ensures few { length (open_ids self.now.wanted) ≤ MAX_OPEN_SUBSCRIBES }
    {
        self.opens
    }

    /// Whether the filter stands.
    pub fn is_wanted(&self, filter: &TopicFilter) -> bool
        ensures { result ≡ wants self.now.wanted filter.now }
    {
        match standing(&self.filters, filter) {
            None => false,
            Some(_) => true,
        }
    }

    /// The packet id of the filter's open SUBSCRIBE.
    pub fn open_id(&self, filter: &TopicFilter) -> Option<u16>
        ensures { result ≡ id_for self.now.wanted filter.now }
    {
        let (_, stand) = standing(&self.filters, filter)?;
        stand.open_id
    }

    /// Whether a SUBSCRIBE of the filter is owed.
    pub fn is_owed(&self, filter: &TopicFilter) -> bool
        ensures { result ≡ owed_for self.now.wanted filter.now }
    {
        match standing(&self.filters, filter) {
            None => false,
            Some((_, stand)) => stand.owed,
        }
    }

    /// Whether one more SUBSCRIBE may be open, or one of the filter is, which the next takes the place of.
    pub fn may_open(&self, filter: &TopicFilter) -> bool
        ensures { result ≡ may_open self.now.wanted filter.now }
    {
        self.opens < MAX_OPEN_SUBSCRIBES || has_open(&self.filters, filter)
    }

    /// The filter whose open SUBSCRIBE has this packet id.
    pub fn opened_by(&self, packet_id: u16) -> Option<&TopicFilter>
        ensures { option_copied result ≡ filter_open self.now.wanted packet_id }
    {
        let place = place_open(&self.filters, &self.places, packet_id)?;
        let (filter, _) = self.filters.get_index(place)?;
        Some(filter)
    }

    /// A copy of the first filter, in order of first standing, of which a SUBSCRIBE is owed. Contracts see no
    /// change: the next look begins where this one found it. Only memory can fail.
    pub fn next_owed(&mut self) -> Result<Option<TopicFilter>, AllocError>
        ensures first { IfOk result (λ filter. filter ≡ first_owed self.old.wanted) }
        ensures same { self.new ≡ self.old }
    {
        self.first_owed = owed_from(&self.filters, self.first_owed);
        filter_at(&self.filters, self.first_owed)
    }

    /// The filter, for which there is room, stands from now on, behind all others. Takes no memory.
    pub fn add(&mut self, filter: TopicFilter)
        requires new { wants self.old.wanted filter ≡ false }
        requires room { length self.old.wanted < self.old.room }
        ensures { self.new ≡ record self.old {
          wanted = self.old.wanted ++ record { filter = filter; open_id = None; owed = false } ∷ [];
        } }
    {
        self.first_owed = make_room(
            &mut self.filters,
            &mut self.other,
            &mut self.places,
            &filter,
            self.room,
            self.first_owed,
        );
        let stand = Stand {
            open_id: None,
            owed: false,
        };
        let _new = self.filters.insert(filter, Want::Stands(stand)).unwrap();
        self.count += 1;
    }

    /// The filter stands no more, and nothing of it is owed: the packet id of its open SUBSCRIBE, where it had
    /// one. Takes no memory.
    pub fn end(&mut self, filter: &TopicFilter) -> Option<u16>
        ensures open_id { result ≡ id_for self.old.wanted filter.now }
        ensures wanted { self.new ≡ record self.old { wanted = without_wanted self.old.wanted filter.now } }
    {
        let (place, stand) = standing(&self.filters, filter)?;
        change(&mut self.filters, place, Want::Ended);
        self.count -= 1;
        self.opens = recount(self.opens, stand.open_id, None);
        stand.open_id
    }

    /// The SUBSCRIBE with this packet id, which no other has and which may be open, is open for the filter from
    /// now on, and no earlier one of it; none of it is owed. Takes no memory.
    pub fn open(&mut self, filter: &TopicFilter, packet_id: u16)
        requires free { list_any (is_open packet_id) self.old.wanted ≡ false }
        requires may { may_open self.old.wanted filter.now ≡ true }
        ensures { self.new ≡ record self.old { wanted = opened self.old.wanted filter.now packet_id } }
    {
        let Some((place, stand)) = standing(&self.filters, filter) else {
            return;
        };
        let now = Stand {
            open_id: Some(packet_id),
            owed: false,
        };
        change(&mut self.filters, place, Want::Stands(now));
        self.opens = recount(self.opens, stand.open_id, now.open_id);
        self.places[usize::from(packet_id)] = place;
    }

    /// A SUBSCRIBE of the filter is owed. Takes no memory.
    pub fn owe(&mut self, filter: &TopicFilter)
        ensures { self.new ≡ record self.old { wanted = owing self.old.wanted filter.now } }
    {
        let Some((place, stand)) = standing(&self.filters, filter) else {
            return;
        };
        let now = Stand {
            open_id: stand.open_id,
            owed: true,
        };
        change(&mut self.filters, place, Want::Stands(now));
        self.first_owed = owed_too(self.first_owed, place, true);
    }

    /// No SUBSCRIBE of the filter is owed any more, as where one that came to be owed is taken back. Takes no
    /// memory.
    pub fn forgive(&mut self, filter: &TopicFilter)
        ensures { self.new ≡ record self.old { wanted = forgiven self.old.wanted filter.now } }
    {
        let Some((place, stand)) = standing(&self.filters, filter) else {
            return;
        };
        let now = Stand {
            open_id: stand.open_id,
            owed: false,
        };
        change(&mut self.filters, place, Want::Stands(now));
    }

    /// In place of the open SUBSCRIBE with this packet id, the former one, which no other filter has, is open
    /// again, or none, and where this says so one is owed. Where none has this packet id nothing changes. Takes
    /// no memory.
    pub fn reopen(&mut self, packet_id: u16, former: Option<u16>, owes: bool)
        requires { IsFree self.old.wanted former }
        ensures { self.new ≡ record self.old { wanted = reopened self.old.wanted packet_id former owes } }
    {
        let Some(place) = place_open(&self.filters, &self.places, packet_id) else {
            return;
        };
        let now = Stand {
            open_id: former,
            owed: owed_then(&self.filters, place, owes),
        };
        change(&mut self.filters, place, Want::Stands(now));
        self.opens = recount(self.opens, Some(packet_id), former);
        self.first_owed = owed_too(self.first_owed, place, owes);
        if let Some(former) = former {
            self.places[usize::from(former)] = place;
        }
    }

    /// The SUBSCRIBE with this packet id is open no more. Takes no memory.
    pub fn close(&mut self, packet_id: u16)
        ensures { self.new ≡ record self.old { wanted = closed self.old.wanted packet_id } }
    {
        self.reopen(packet_id, None, false);
    }

    /// Copies of the filters that stand, in order. Only memory can fail.
    pub fn filters(&self, alloc: Global) -> Result<Vec<TopicFilter>, AllocError>
        ensures { IfOk result (λ filters. filters.items ≡ map (λ w. w.filter) self.now.wanted) }
    {
        let mut filters = Vec::with_capacity(alloc, self.count)?;
        for (filter, want) in self.filters.iter() {
            copy_standing(&mut filters, filter, *want)?;
        }
        Ok(filters)
    }

    /// The filters that stand, in order, as they do, in memory of their own for just these. Only memory can fail.
    pub fn copy(&self, alloc: Global) -> Result<WantedCopy, AllocError>
        ensures { IfOk result (λ c. c ≡ self.now.wanted) }
    {
        WantedCopy::of(alloc, &self.filters, self.count)
    }
}

/// Puts a copy of the filter behind the others, where it stands. Only memory can fail.
fn copy_standing(
    copies: &mut Vec<TopicFilter>,
    filter: &TopicFilter,
    want: Want,
) -> Result<(), AllocError>
    ensures { OnOk result (copies.new.items
        ≡ copies.old.items ++ map (λ w. w.filter) (shown ((filter.now, want) ∷ []))) }
{
    if let Want::Stands(_) = want {
        copies.push(filter.copy()?)?;
    }
    Ok(())
}
