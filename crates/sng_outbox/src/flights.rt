//! The publishes in flight, in the order of their sending, each found by its packet id (MQTT 3.1.1, 2.3.1 and
//! 4.3.2).
ghost use Rattle.std.specs.Prelude.{◌≡◌, ◌+◌, ◌≤◌, ◌<◌, [], ◌∷◌, ◌++◌, false, length, filter, set, slice_get};
ghost use Rattle.std.specs.Prelude.{None, is_some, IfOk, OnOk, OnErr, IsOk};
ghost use Rattle.std.specs.Option.{option_copied};
ghost use Rattle.std.specs.Vec.{vec_capacity};
ghost use Rattle.sng_outbox.specs.Flights.{sent_in, flight_at, id_at, IsOnce, IsIndexed, IsPlaceOf};
ghost use Rattle.sng_outbox.specs.Sending.{is_in_flight, without_first};

use crate::{InFlight, Publication};
use std::alloc::{AllocError, Global};
use std::marker::Model;

/// How many numbers a packet id has, 0 among them, which is none.
const NUMBERS: usize = 65_536;

/// The publishes in flight, in the order of their sending, no two with one packet id. One that ends leaves a
/// gap, and the gaps are swept out once there are more of them than publishes, so that an end costs one look-up
/// in the mean. Contracts see the publishes, and for how many slots there is memory: two for each publish are
/// enough.
#[derive(Debug, Drop)]
pub struct Flights {
    slots: Vec<Option<InFlight>>,
    /// For the packet id of each its place among the slots.
    places: Vec<usize>,
    /// How many are in flight.
    count: usize,
}

impl Model for Flights {
    ghost use Rattle.std.specs.Prelude.{◌≡◌, ◌+◌, ◌≤◌, length, vec_capacity};
    ghost use Rattle.sng_outbox.specs.Flights.{Tracked, sent_in, IsIndexed};

    ghost Value = { Tracked };

    ghost view = { λ f. record { sent = sent_in f.slots.items; slots = vec_capacity f.slots } };

    ghost invariant = { λ f. IsIndexed f.slots.items f.places.items
        × (f.count ≡ length (sent_in f.slots.items))
        × (length f.slots.items ≤ f.count + f.count) };
}

impl Flights {
    /// Nothing is in flight. Only memory can fail.
    pub fn new(alloc: Global) -> Result<Flights, AllocError>
        ensures { IfOk result (λ f. f.sent ≡ []) }
    {
        Ok(Flights {
            slots: Vec::new(alloc),
            places: vec![in alloc; 0; NUMBERS]?,
            count: 0,
        })
    }

    /// How many are in flight.
    pub fn len(&self) -> usize
        ensures { result ≡ length self.now.sent }
    {
        self.count
    }

    /// Makes memory for so many slots in all. An `Err` is a failed allocation, and nothing changes.
    pub fn room(&mut self, slots: usize) -> Result<(), AllocError>
        ensures sent { self.new.sent ≡ self.old.sent }
        ensures ok { OnOk result (slots ≤ self.new.slots) }
        ensures more { self.old.slots ≤ self.new.slots }
        ensures there { slots ≤ self.old.slots → IsOk result }
        ensures err { OnErr result (self.new ≡ self.old) }
    {
        self.slots.reserve(slots.saturating_sub(self.slots.len()))
    }

    /// The publish is in flight behind the others, with a packet id that none of them has. Takes no memory.
    pub fn push(&mut self, packet_id: u16, publication: Publication)
        requires new { is_in_flight self.old.sent packet_id ≡ false }
        requires room { length self.old.sent + length self.old.sent < self.old.slots }
        ensures { self.new ≡ record self.old {
          sent = self.old.sent ++ record { packet_id = packet_id; publication = publication } ∷ [];
        } }
    {
        self.places[usize::from(packet_id)] = self.slots.len();
        self.slots.push_reserved(Some(InFlight {
            packet_id,
            publication,
        }));
        self.count += 1;
    }

    /// Takes the publish with this packet id out, and returns whether there was one. Where there was none
    /// nothing changes. Takes no memory.
    pub fn remove(&mut self, packet_id: u16) -> bool
        ensures found { result ≡ is_in_flight self.old.sent packet_id }
        ensures rest { self.new ≡ record self.old { sent = without_first self.old.sent packet_id } }
    {
        let Some(place) = place_of(&self.slots, &self.places, packet_id) else {
            return false;
        };
        leave_gap(&mut self.slots, place);
        self.count -= 1;
        sweep_sparse(&mut self.slots, &mut self.places, self.count);
        true
    }

    /// Sweeps the gaps out, so that each place is found by one look-up. Contracts see no change. Takes no
    /// memory.
    pub fn tidy(&mut self)
        ensures { self.new ≡ self.old }
    {
        if self.slots.len() <= self.count {
            return;
        }
        sweep(&mut self.slots, &mut self.places);
    }

    /// The publish at this place, the one sent first being at 0. Behind `tidy` this is one look-up, and else a
    /// walk.
    pub fn get(&self, place: usize) -> Option<&InFlight>
        ensures { option_copied result ≡ slice_get self.now.sent place }
    {
        if self.slots.len() <= self.count {
            return flight_at(&self.slots, place);
        }
        nth(&self.slots, place)
    }

    /// Copies of the publishes, in order, in memory of their own for just these. Only memory can fail.
    pub fn copy(&self, alloc: Global) -> Result<Vec<InFlight>, AllocError>
        ensures { IfOk result (λ v. v.items ≡ self.now.sent) }
    {
        let mut copies = Vec::with_capacity(alloc, self.count)?;
        for slot in &self.slots {
            copy_slot(&mut copies, slot)?;
        }
        Ok(copies)
    }
}

/// The publish at the place among the slots, where one is in flight there.
fn flight_at(slots: &[Option<InFlight>], place: usize) -> Option<&InFlight>
    ensures { option_copied result ≡ flight_at slots.now place }
{
    match slots.get(place) {
        Some(Some(sent)) => Some(sent),
        Some(None) | None => None,
    }
}

/// The packet id at the place among the slots, where something is in flight there.
fn id_at(slots: &[Option<InFlight>], place: usize) -> Option<u16>
    ensures { result ≡ id_at slots.now place }
{
    match slots.get(place) {
        Some(Some(sent)) => Some(sent.packet_id),
        Some(None) | None => None,
    }
}

/// The place of the publish with this packet id.
fn place_of(slots: &[Option<InFlight>], places: &[usize], packet_id: u16) -> Option<usize>
    requires { IsIndexed slots.now places.now }
    ensures { IsPlaceOf slots.now packet_id result }
{
    let place = places[usize::from(packet_id)];
    let there = id_at(slots, place)?;
    if there == packet_id {
        Some(place)
    } else {
        None
    }
}

/// The publish before which so many are in flight.
fn nth(slots: &[Option<InFlight>], place: usize) -> Option<&InFlight>
    ensures { option_copied result ≡ slice_get (sent_in slots.now) place }
{
    let mut before = place;
    for slot in slots {
        let Some(sent) = slot else {
            continue;
        };
        if before == 0 {
            return Some(sent);
        }
        before -= 1;
    }
    None
}

/// The publish at the place is in flight no more.
fn leave_gap(slots: &mut Vec<Option<InFlight>>, place: usize)
    requires { place < length slots.old.items }
    ensures items { slots.new.items ≡ set slots.old.items place None }
    ensures capacity { vec_capacity slots.new ≡ vec_capacity slots.old }
{
    slots[place] = None;
}

/// Sweeps the gaps out where there are more of them than publishes, of which there are so many. Takes no
/// memory.
fn sweep_sparse(slots: &mut Vec<Option<InFlight>>, places: &mut Vec<usize>, count: usize)
    requires indexed { IsIndexed slots.old.items places.old.items }
    requires count { count ≡ length (sent_in slots.old.items) }
    ensures sent { sent_in slots.new.items ≡ sent_in slots.old.items }
    ensures few { length slots.new.items ≤ count + count }
    ensures capacity { vec_capacity slots.new ≡ vec_capacity slots.old }
    ensures indexed { IsIndexed slots.new.items places.new.items }
{
    let gaps = slots.len().saturating_sub(count);
    if gaps <= count {
        return;
    }
    sweep(slots, places);
}

/// Sweeps the gaps out, and notes where each publish is now. Takes no memory.
fn sweep(slots: &mut Vec<Option<InFlight>>, places: &mut Vec<usize>)
    requires { IsIndexed slots.old.items places.old.items }
    ensures sent { sent_in slots.new.items ≡ sent_in slots.old.items }
    ensures len { length slots.new.items ≡ length (sent_in slots.old.items) }
    ensures capacity { vec_capacity slots.new ≡ vec_capacity slots.old }
    ensures indexed { IsIndexed slots.new.items places.new.items }
{
    drop_gaps(slots);
    find_places(slots, places);
}

/// The slots without the gaps, in order.
fn drop_gaps(slots: &mut Vec<Option<InFlight>>)
    ensures items { slots.new.items ≡ filter is_some slots.old.items }
    ensures capacity { vec_capacity slots.new ≡ vec_capacity slots.old }
{
    slots.retain(|slot| slot.is_some());
}

/// Notes the places of the publishes anew.
fn find_places(slots: &[Option<InFlight>], places: &mut [usize])
    requires whole { length places.old ≡ 65536 }
    requires once { IsOnce slots.now }
    ensures { IsIndexed slots.now places.new }
{
    for place in 0..slots.len() {
        if let Some(packet_id) = id_at(slots, place) {
            places[usize::from(packet_id)] = place;
        }
    }
}

/// Puts a copy of what is in flight there behind the others. Only memory can fail.
fn copy_slot(copies: &mut Vec<InFlight>, slot: &Option<InFlight>) -> Result<(), AllocError>
    ensures { OnOk result (copies.new.items ≡ copies.old.items ++ sent_in (slot.now ∷ [])) }
{
    if let Some(sent) = slot {
        copies.push(sent.copy()?)?;
    }
    Ok(())
}
