//! What is kept of the link to the broker (MQTT 3.1.1, 2.3.1, 3.8, 3.9, 3.10, 4.3.2 and 4.6).
ghost use Rattle.std.specs.Prelude.{◌≡◌, ◌≤◌, ◌<◌, ◌+◌, ◌∷◌, [], ◌++◌, ℕ, suc, true, length, IsOk, IfOk, OnOk, OnErr};
ghost use Rattle.std.specs.Option.{option_copied};
ghost use Rattle.sng_grants.specs.declared.limits.TheConstants.{MAX_FLIGHT};
ghost use Rattle.sng_outbox.specs.Sending.{publishes};
ghost use Rattle.sng_history.specs.Links.{idle, wants, link_after, filters_wanted, outgoing, resumed};
ghost use Rattle.sng_history.specs.Links.{subscribes_sent};
ghost use Rattle.sng_history.specs.Exits.{agains_of, beginning, exits_of, leaving};
ghost use Rattle.sng_history.specs.Packets.{has_place, answered, filter_open, Acknowledges, Grants};
ghost use Rattle.sng_history.specs.Standing.{places_left};
ghost use Rattle.sng_history.specs.State.{with_wanted};
ghost use Rattle.sng_history.specs.Room.{has_flight, room_in};
ghost use Rattle.sng_history.specs.Ticking.{is_ping_due, pinged, placed, with_item};
ghost use Rattle.sng_link.specs.Flights.{without_wanted};
ghost use Rattle.sng_link.specs.Rooms.{room_of, load_of, HasPlaces, HasFilters};

use crate::LinkCopy;
use crate::again::begin;
use crate::room::Room;
use crate::taking::take;
use sng_book::{Denial, Outcome, OutsPair, Place, RoomDenial};
use sng_grants::Limits;
use sng_history::PING_MS;
use sng_outbox::{Item, Outbox, PacketIds, Publication};
use sng_policy::InForce;
use sng_text::{Qos, TopicFilter};
use sng_wanted::Wanted;
use std::alloc::{AllocError, Global};
use std::marker::Model;

/// What waits for the broker, the publishes in flight to it, the filters that are wanted upstream, the packet
/// ids in use, which are those of the publishes in flight and of the open SUBSCRIBEs, and when the connection
/// began, or was last asked whether it is there. It knows no limit of a policy: `room` and `room_for_filters`
/// make room ahead, which may fail, and a call that adds something asks for that room and takes no memory.
/// Contracts see the link of a history, and for how much there is room.
#[derive(Drop)]
pub struct Link {
    outbox: Outbox,
    ids: PacketIds,
    wanted: Wanted,
    /// The clock, in ms, as the connection began, or as the last PINGREQ came to wait on it.
    pinged: u64,
}

impl Model for Link {
    ghost use Rattle.sng_link.specs.Flights.{link_of, ids_in_use, AreMarked, OwedAreClosed};
    ghost use Rattle.sng_link.specs.Rooms.{LinkRoom};

    ghost Value = { LinkRoom };

    ghost view = { λ l. record {
      link = link_of l.outbox.sending l.ids l.wanted.wanted l.pinged;
      places = l.outbox.places;
      flights = l.outbox.flights;
      filters = l.wanted.room;
    } };

    ghost invariant = { λ l. AreMarked (ids_in_use l.outbox.sending.in_flight l.wanted.wanted) l.ids.marks
        × OwedAreClosed l.wanted.wanted };
}

impl Link {
    /// Nothing waits, and nothing was sent. Only memory can fail.
    pub fn new(alloc: Global) -> Result<Link, AllocError>
        ensures { IfOk result (λ link. link.link ≡ idle) }
    {
        Ok(Link {
            outbox: Outbox::new(alloc)?,
            ids: PacketIds::new(alloc)?,
            wanted: Wanted::new(alloc)?,
            pinged: 0,
        })
    }

    /// Makes room for so many more items, whatever they are. An `Err` is a failed allocation, which cannot be
    /// while there is room, and nothing changes.
    #[inline(always)]
    pub fn room(&mut self, count: usize) -> Result<(), AllocError>
        ensures link { self.new.link ≡ self.old.link }
        ensures places { OnOk result (HasPlaces count self.new) }
        ensures more { (self.old.places ≤ self.new.places) × (self.old.flights ≤ self.new.flights)
            × (self.new.filters ≡ self.old.filters) }
        ensures there { HasPlaces count self.old → IsOk result }
        ensures err { OnErr result (self.new ≡ self.old) }
    {
        self.outbox.room(count)
    }

    /// Makes room for so many more filters that are wanted. An `Err` is a failed allocation, which cannot be
    /// while there is room, and nothing changes.
    pub fn room_for_filters(&mut self, count: usize) -> Result<(), AllocError>
        ensures link { self.new.link ≡ self.old.link }
        ensures filters { OnOk result (HasFilters count self.new) }
        ensures more { (self.new.places ≡ self.old.places) × (self.new.flights ≡ self.old.flights)
            × (self.old.filters ≤ self.new.filters) }
        ensures there { HasFilters count self.old → IsOk result }
        ensures err { OnErr result (self.new ≡ self.old) }
    {
        self.wanted.room(count)
    }

    /// Whether the limits let one more publish at this QoS in: among those of QoS 1 that wait and are in
    /// flight, then among what waits.
    pub fn room_in(&self, limits: Limits, qos: Qos) -> Outcome
        ensures { result ≡ room_in limits self.now.link qos }
    {
        if !self.has_flight(limits, qos) {
            Outcome::Denied(Denial::Room(RoomDenial::Full(Place::InFlight)))
        } else if !self.has_place(limits) {
            Outcome::Denied(Denial::Room(RoomDenial::Full(Place::Outbox)))
        } else {
            Outcome::Allowed
        }
    }

    /// Whether the limits let one more publish at this QoS wait or be in flight.
    fn has_flight(&self, limits: Limits, qos: Qos) -> bool
        ensures { result ≡ has_flight limits self.now.link qos }
    {
        match qos {
            Qos::AtMostOnce => true,
            Qos::AtLeastOnce => self.outbox.load() < limits.in_flight(),
        }
    }

    /// Whether the limits let one more item wait.
    pub fn has_place(&self, limits: Limits) -> bool
        ensures { result ≡ has_place limits self.now.link }
    {
        self.outbox.len() < limits.waiting()
    }

    /// How many items more the limits let wait: none where more wait than they allow.
    pub fn places_left(&self, limits: Limits) -> usize
        ensures { result ≡ places_left limits self.now.link }
    {
        limits.waiting().saturating_sub(self.outbox.len())
    }

    /// How many items wait.
    pub fn items(&self) -> usize
        ensures { result ≡ length self.now.link.waiting }
    {
        self.outbox.len()
    }

    /// How many publishes are in flight.
    pub fn in_flight(&self) -> usize
        ensures { result ≡ length self.now.link.in_flight }
    {
        self.outbox.in_flight()
    }

    /// The room for publishes that the limits leave.
    pub fn room_left(&self, limits: Limits) -> Room
        ensures { result ≡ room_of limits self.now.link }
    {
        Room {
            places: self.places_left(limits),
            flights: limits.in_flight().saturating_sub(self.outbox.load()),
        }
    }

    /// Whether the filter is wanted.
    pub fn wants(&self, filter: &TopicFilter) -> bool
        ensures { result ≡ wants self.now.link.wanted filter.now }
    {
        self.wanted.is_wanted(filter)
    }

    /// The filter whose open SUBSCRIBE has this packet id (3.9).
    pub fn filter_open(&self, packet_id: u16) -> Option<&TopicFilter>
        ensures { option_copied result ≡ filter_open self.now.link.wanted packet_id }
    {
        self.wanted.opened_by(packet_id)
    }

    /// The publish waits behind all else. Takes no memory.
    pub fn push(&mut self, publication: Publication)
        requires { HasPlaces 1 self.old }
        ensures next { self.new
            ≡ record self.old { link = with_item self.old.link (Item.Publish publication) } }
        ensures room { (count : ℕ) → HasPlaces (suc count) self.old → HasPlaces count self.new }
    {
        self.outbox.push(Item::Publish(publication));
    }

    /// The publish waits behind all else, where the limits let it in. Takes no memory.
    pub fn place(&mut self, limits: Limits, publication: Publication)
        requires { HasPlaces 1 self.old }
        ensures next { self.new ≡ record self.old { link = placed limits self.old.link publication } }
        ensures room { (count : ℕ) → HasPlaces (suc count) self.old → HasPlaces count self.new }
    {
        match self.room_in(limits, publication.qos) {
            Outcome::Allowed => self.push(publication),
            Outcome::Denied(_) => {}
        }
    }

    /// Whether a PINGREQ is due at this time, in ms of the clock: the connection is up, and `PING_MS` passed
    /// since it began or the last PINGREQ (3.1.2.10 and 3.12). Takes no memory.
    pub fn is_ping_due(&self, is_up: bool, clock: u64) -> bool
        ensures { result ≡ is_ping_due is_up self.now.link clock }
    {
        is_up && clock.saturating_sub(self.pinged) >= PING_MS
    }

    /// Where a PINGREQ is due at this time, in ms of the clock, and the limits let it in, it waits behind all
    /// else. Takes no memory.
    pub fn ping(&mut self, limits: Limits, is_up: bool, clock: u64)
        requires { is_ping_due is_up self.old.link clock ≡ true → HasPlaces 1 self.old }
        ensures { self.new ≡ record self.old { link = pinged limits is_up self.old.link clock } }
    {
        if self.is_ping_due(is_up, clock) && self.has_place(limits) {
            self.outbox.push(Item::Ping);
            self.pinged = clock;
        }
    }

    /// The response to a message of the broker with this packet id waits behind all else (3.4). Takes no
    /// memory.
    pub fn acknowledge(&mut self, packet_id: u16)
        requires { HasPlaces 1 self.old }
        ensures { self.new
            ≡ record self.old { link = with_item self.old.link (Item.Acknowledge packet_id) } }
    {
        self.outbox.push(Item::Acknowledge(packet_id));
    }

    /// A PUBACK ends the first publish in flight with its packet id, which is free again (4.3.2). Where there
    /// is none nothing changes. Takes no memory.
    pub fn acked(&mut self, packet_id: u16)
        ensures { self.new
            ≡ record self.old { link = answered self.old.link (Acknowledges packet_id) } }
    {
        if self.outbox.acked(packet_id) {
            self.ids.free(packet_id);
        }
    }

    /// A SUBSCRIBE of the filter waits behind all else (3.8), and the filter is wanted from then on: its copy
    /// is kept where it is not wanted yet. Takes no memory.
    pub fn subscribe(&mut self, filter: TopicFilter, copy: TopicFilter)
        requires place { HasPlaces 1 self.old }
        requires copy { copy ≡ filter }
        requires filters { HasFilters 1 self.old }
        ensures { self.new ≡ record self.old {
          link = record self.old.link {
            waiting = self.old.link.waiting ++ Item.Subscribe filter ∷ [];
            wanted = with_wanted self.old.link.wanted filter;
          };
        } }
    {
        want(&mut self.wanted, copy);
        self.outbox.push(Item::Subscribe(filter));
    }

    /// An UNSUBSCRIBE of the filter waits behind all else (3.10). Takes no memory.
    pub fn unsubscribe(&mut self, filter: TopicFilter)
        requires { HasPlaces 1 self.old }
        ensures next { self.new
            ≡ record self.old { link = with_item self.old.link (Item.Unsubscribe filter) } }
        ensures room { (count : ℕ) → HasPlaces (suc count) self.old → HasPlaces count self.new }
    {
        self.outbox.push(Item::Unsubscribe(filter));
    }

    /// The filter is wanted no more, and the packet id of its open SUBSCRIBE is free. Takes no memory.
    pub fn unwant(&mut self, filter: &TopicFilter)
        ensures { self.new ≡ record self.old {
          link = record self.old.link { wanted = without_wanted self.old.link.wanted filter.now };
        } }
    {
        // No filter stands twice.
        let _stand = self.wanted.len();
        if let Some(packet_id) = self.wanted.end(filter) {
            self.ids.free(packet_id);
        }
    }

    /// A SUBACK ends the open SUBSCRIBE with its packet id, which is free again (3.9). Where there is none
    /// nothing changes. Takes no memory.
    pub fn subscribe_ack(&mut self, packet_id: u16)
        ensures { self.new ≡ record self.old { link = answered self.old.link (Grants packet_id) } }
    {
        if self.wanted.opened_by(packet_id).is_some() {
            self.wanted.close(packet_id);
            self.ids.free(packet_id);
        }
    }

    /// Of what waits the publishes stay, in order, as a connection ends. What is in flight stays.
    pub fn keep_publishes(&mut self)
        ensures { self.new ≡ record self.old {
          link = record self.old.link { waiting = publishes self.old.link.waiting };
        } }
    {
        self.outbox.keep_publishes();
    }

    /// A connection begins at this time, in ms of the clock: what goes out. The publishes in flight are
    /// judged by the policy, in order. Those that are still allowed are sent again under their packet ids
    /// (3.3.1.1 and 4.4), and the others are in flight no more. Then each filter that is wanted is subscribed
    /// anew (3.8), or its SUBSCRIBE is owed where as many are open as may be. An `Err` is a failed allocation,
    /// and nothing changes.
    pub fn begin(
        &mut self,
        alloc: Global,
        policy: &InForce,
        clock: u64,
    ) -> Result<OutsPair, AllocError>
        requires few { load_of self.old.link ≤ MAX_FLIGHT }
        ensures outs { IfOk result (λ outs. outs
            ≡ beginning self.old.link clock (agains_of policy.now self.old.link.in_flight)) }
        ensures after { OnOk result (self.new ≡ record self.old {
          link = subscribes_sent
              (resumed self.old.link clock (agains_of policy.now self.old.link.in_flight))
              (filters_wanted self.old.link);
        }) }
        ensures err { OnErr result (self.new ≡ self.old) }
    {
        let outs = begin(
            alloc,
            policy,
            &mut self.outbox,
            &mut self.ids,
            &mut self.wanted,
        )?;
        self.pinged = clock;
        Ok(outs)
    }

    /// All that has to leaves, in order: what it lets out. First a SUBSCRIBE of each filter of which one is
    /// owed, and then what waits. Each publish is judged by the policy, and an allowed one of QoS 1 is in
    /// flight then (3.3). A SUBSCRIBE goes out where its filter is wanted, and is its open one then (3.8), or is
    /// owed where as many are open as may be; an UNSUBSCRIBE where its filter is not (3.10). Each of them has
    /// the next packet id. An `Err` is a failed allocation, and nothing changes.
    pub fn take(&mut self, alloc: Global, policy: &InForce) -> Result<OutsPair, AllocError>
        requires few { load_of self.old.link ≤ MAX_FLIGHT }
        ensures outs { IfOk result (λ outs. outs
            ≡ leaving self.old.link (outgoing self.old.link)
            (exits_of policy.now (outgoing self.old.link))) }
        ensures after { OnOk result (self.new ≡ record self.old {
          link = record (link_after self.old.link (outgoing self.old.link)
              (exits_of policy.now (outgoing self.old.link))) { waiting = [] };
        }) }
        ensures err { OnErr result (self.new ≡ self.old) }
    {
        let outs = take(
            alloc,
            policy,
            &mut self.outbox,
            &mut self.ids,
            &mut self.wanted,
        )?;
        Ok(outs)
    }

    /// What is kept of the link, in memory of its own for just that. Only memory can fail.
    pub fn copy(&self, alloc: Global) -> Result<LinkCopy, AllocError>
        ensures { IfOk result (λ c. c ≡ self.now.link) }
    {
        Ok(LinkCopy {
            sending: self.outbox.copy(alloc)?,
            last: self.ids.last(),
            wanted: self.wanted.copy(alloc)?,
            pinged: self.pinged,
        })
    }
}

/// The filter is wanted, behind all others where it was not yet.
fn want(wanted: &mut Wanted, filter: TopicFilter)
    requires { length wanted.old.wanted < wanted.old.room }
    ensures { wanted.new ≡ record wanted.old { wanted = with_wanted wanted.old.wanted filter } }
{
    if !wanted.is_wanted(&filter) {
        wanted.add(filter);
    }
}
