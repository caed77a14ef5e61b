//! The list of what waits for the broker, in the order in which it was asked for (MQTT 3.1.1, 4.6), and the
//! publishes in flight (4.3.2).
ghost use Rattle.std.specs.Prelude.{◌≡◌, ◌+◌, ◌<◌, ◌≤◌, [], ◌∷◌, ◌++◌, true, false, length};
ghost use Rattle.std.specs.Prelude.{slice_get, drop};
ghost use Rattle.std.specs.Prelude.{IfOk, IfSome, IsOk, OnOk, OnErr, MatchOption};
ghost use Rattle.std.specs.Option.{option_copied};
ghost use Rattle.std.specs.Iterator.Runs.{YieldsRefsInOrder, YieldsRefsInReverse};
ghost use Rattle.std.specs.VecDeque.Iter.{deque_iter_rest, deque_iter_steps, deque_iter_steps_back};
ghost use Rattle.sng_outbox.specs.declared.item.Item.{Item as item_type};
ghost use Rattle.sng_outbox.specs.Sending.{nothing, publishes, asks_for_ack, load, has_room};
ghost use Rattle.sng_outbox.specs.Sending.{is_in_flight, without_first};

use crate::flights::Flights;
use crate::{Item, OutboxCopy, Publication};
use std::alloc::{AllocError, Global};
use std::collections::VecDeque;
use std::collections::vec_deque::Iter;
use std::marker::Model;

/// The items that wait for the broker, the oldest first, and the publishes in flight, in the order of their
/// sending. It knows no limit: `room` makes room ahead, which may fail, and no other call but `new` and `copy`
/// takes memory. Contracts see the two lists, and for how much there is room.
#[derive(Debug, Drop)]
pub struct Outbox {
    waiting: VecDeque<Item>,
    /// How many of those that wait are publishes of QoS 1.
    acks_waiting: usize,
    in_flight: Flights,
    /// How many items may wait without more memory.
    places: usize,
    /// How many publishes of QoS 1 may wait or be in flight without more memory.
    flights: usize,
}

impl Model for Outbox {
    ghost use Rattle.std.specs.Prelude.{◌≡◌, ◌+◌, ◌≤◌, length, count_by};
    ghost use Rattle.std.specs.VecDeque.{deque_capacity};
    ghost use Rattle.sng_outbox.specs.Sending.{SendingRoom, asks_for_ack};

    ghost Value = { SendingRoom };

    ghost view = { λ o. record {
      sending = record { waiting = o.waiting.items; in_flight = o.in_flight.sent };
      places = o.places;
      flights = o.flights;
    } };

    ghost invariant = { λ o. (length o.waiting.items ≤ o.places)
        × (o.places ≤ deque_capacity o.waiting)
        × (o.acks_waiting ≡ count_by asks_for_ack o.waiting.items)
        × (o.acks_waiting + length o.in_flight.sent ≤ o.flights)
        × (o.flights + o.flights ≤ o.in_flight.slots) };
}

impl Outbox {
    /// An outbox in which nothing waits and nothing is in flight. Only memory can fail.
    pub fn new(alloc: Global) -> Result<Outbox, AllocError>
        ensures { IfOk result (λ o. o.sending ≡ nothing) }
    {
        Ok(Outbox {
            waiting: VecDeque::new(alloc),
            acks_waiting: 0,
            in_flight: Flights::new(alloc)?,
            places: 0,
            flights: 0,
        })
    }

    /// Makes room for so many more items, whatever they are. An `Err` is a failed allocation, which cannot be
    /// while there is room, and nothing changes.
    #[inline(always)]
    pub fn room(&mut self, count: usize) -> Result<(), AllocError>
        ensures sending { self.new.sending ≡ self.old.sending }
        ensures places { OnOk result (length self.new.sending.waiting + count ≤ self.new.places) }
        ensures flights { OnOk result (load self.new.sending + count ≤ self.new.flights) }
        ensures more { (self.old.places ≤ self.new.places) × (self.old.flights ≤ self.new.flights) }
        ensures there { length self.old.sending.waiting + count ≤ self.old.places
            → load self.old.sending + count ≤ self.old.flights → IsOk result }
        ensures err { OnErr result (self.new ≡ self.old) }
    {
        let places = self.len().checked_add(count).ok_or(AllocError)?;
        let flights = self.load().checked_add(count).ok_or(AllocError)?;
        if places <= self.places && flights <= self.flights {
            return Ok(());
        }
        let slots = flights.checked_mul(2).ok_or(AllocError)?;
        self.waiting.reserve(count)?;
        self.in_flight.room(slots)?;
        self.places = self.places.max(places);
        self.flights = self.flights.max(flights);
        Ok(())
    }

    /// Adds an item behind the others, for which there is room.
    pub fn push(&mut self, item: Item)
        requires { has_room self.old item ≡ true }
        ensures { self.new ≡ record self.old {
          sending = record self.old.sending { waiting = self.old.sending.waiting ++ item ∷ [] };
        } }
    {
        if item.asks_for_ack() {
            self.acks_waiting += 1;
        }
        self.waiting.push_back_reserved(item);
    }

    /// How many items wait.
    pub fn len(&self) -> usize
        ensures len { result ≡ length self.now.sending.waiting }
        ensures within { length self.now.sending.waiting ≤ self.now.places }
    {
        self.waiting.len()
    }

    /// The item at this place, the oldest being at 0.
    pub fn at(&self, place: usize) -> Option<&Item>
        ensures { option_copied result ≡ slice_get self.now.sending.waiting place }
    {
        self.waiting.get(place)
    }

    /// The items that wait, the oldest first.
    pub fn iter(&self) -> Iter<'_, Item>
        ensures rest { deque_iter_rest result ≡ self.now.sending.waiting }
        ensures runs { YieldsRefsInOrder (deque_iter_steps {X = item_type}) deque_iter_rest }
        ensures runs_back { YieldsRefsInReverse (deque_iter_steps_back {X = item_type}) deque_iter_rest }
    {
        self.waiting.iter()
    }

    /// Takes the oldest item out. None, and nothing changes, where nothing waits. Behind a publish of QoS 1
    /// there is room to track it.
    pub fn settle(&mut self) -> Option<Item>
        ensures front { result ≡ slice_get self.old.sending.waiting 0 }
        ensures rest { self.new ≡ record self.old {
          sending = record self.old.sending { waiting = drop 1 self.old.sending.waiting };
        } }
        ensures room { IfSome result (λ item. asks_for_ack item ≡ true
            → load self.new.sending < self.new.flights) }
    {
        // looked at where it lies, since to look at what was taken out would take it apart
        if self.waiting.front()?.asks_for_ack() {
            self.acks_waiting -= 1;
        }
        self.waiting.pop_front()
    }

    /// Takes every item out but the publishes, which stay in order.
    pub fn keep_publishes(&mut self)
        ensures { self.new ≡ record self.old {
          sending = record self.old.sending { waiting = publishes self.old.sending.waiting };
        } }
    {
        self.waiting.retain(|item| item.is_publish());
    }

    /// Takes every item out. What is in flight stays.
    pub fn clear(&mut self)
        ensures { self.new ≡ record self.old { sending = record self.old.sending { waiting = [] } } }
    {
        self.waiting.clear();
        self.acks_waiting = 0;
    }

    /// How many publishes of QoS 1 wait or are in flight.
    pub fn load(&self) -> usize
        ensures load { result ≡ load self.now.sending }
        ensures within { load self.now.sending ≤ self.now.flights }
    {
        // The sum is no more than this.
        let _room = self.flights;
        self.acks_waiting + self.in_flight.len()
    }

    /// How many publishes are in flight.
    pub fn in_flight(&self) -> usize
        ensures { result ≡ length self.now.sending.in_flight }
    {
        self.in_flight.len()
    }

    /// Adds a publish in flight behind the others, where there is room for it, with a packet id that none of
    /// them has (MQTT 3.1.1, 2.3.1).
    pub fn track(&mut self, packet_id: u16, publication: Publication)
        requires room { load self.old.sending < self.old.flights }
        requires new { is_in_flight self.old.sending.in_flight packet_id ≡ false }
        ensures { self.new ≡ record self.old {
          sending = record self.old.sending {
            in_flight =
                self.old.sending.in_flight ++ record { packet_id = packet_id; publication = publication } ∷ [];
          };
        } }
    {
        self.in_flight.push(packet_id, publication);
    }

    /// Takes the publish in flight with this packet id out, which its PUBACK ends (MQTT 3.1.1, 4.3.2), and
    /// returns whether there was one. Where there was none nothing changes. It is found by one look-up.
    #[inline(always)]
    pub fn acked(&mut self, packet_id: u16) -> bool
        ensures found { result ≡ is_in_flight self.old.sending.in_flight packet_id }
        ensures rest { self.new ≡ record self.old {
          sending = record self.old.sending {
            in_flight = without_first self.old.sending.in_flight packet_id;
          };
        } }
    {
        self.in_flight.remove(packet_id)
    }

    /// Makes each publish in flight found at its place by one look-up (`again`). Contracts see no change.
    pub fn tidy(&mut self)
        ensures { self.new ≡ self.old }
    {
        self.in_flight.tidy();
    }

    /// The publish in flight at this place with its packet id, the one sent first being at 0: to be sent
    /// again (MQTT 3.1.1, 4.4). Behind `tidy` this is one look-up, and else a walk.
    pub fn again(&self, place: usize) -> Option<(u16, &Publication)>
        ensures { MatchOption result
            (slice_get self.now.sending.in_flight place ≡ None)
            (λ sent. slice_get self.now.sending.in_flight place
            ≡ Some (record { packet_id = sent.0; publication = sent.1.now })) }
    {
        let sent = self.in_flight.get(place)?;
        Some((sent.packet_id, &sent.publication))
    }

    /// What waits and what is in flight, in memory of its own for just these. Only memory can fail.
    pub fn copy(&self, alloc: Global) -> Result<OutboxCopy, AllocError>
        ensures { IfOk result (λ c. c ≡ self.now.sending) }
    {
        OutboxCopy::of(alloc, &self.waiting, &self.in_flight)
    }
}
