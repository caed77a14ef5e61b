//! The room for publishes to the broker, counted ahead of their coming to wait (MQTT 3.1.1, 4.4: what is in
//! flight is bounded).
ghost use Rattle.std.specs.Prelude.{◌≡◌};
ghost use Rattle.sng_link.specs.Rooms.{room_by, room_past};

use sng_book::{Denial, Outcome, Place, RoomDenial};
use sng_text::Qos;

/// The room that there is.
#[derive(Clone, Copy, Debug)]
pub struct Room {
    /// How many items more may wait.
    pub places: usize,
    /// How many publishes at QoS 1 more may wait or be in flight.
    pub flights: usize,
}

impl Room {
    /// Whether there is room for one more publish at this QoS: among those of QoS 1 that wait and are in
    /// flight, then among what waits. Where there is, it is taken. Takes no memory.
    pub fn take(&mut self, qos: Qos) -> Outcome
        ensures outcome { result ≡ room_by self.old qos }
        ensures left { self.new ≡ room_past self.old qos }
    {
        match qos {
            Qos::AtMostOnce => self.take_place(),
            Qos::AtLeastOnce => self.take_flight(),
        }
    }

    /// A place among what waits is taken, where there is one.
    fn take_place(&mut self) -> Outcome
        ensures outcome { result ≡ room_by self.old Qos.AtMostOnce }
        ensures left { self.new ≡ room_past self.old Qos.AtMostOnce }
    {
        if self.places == 0 {
            return Outcome::Denied(Denial::Room(RoomDenial::Full(Place::Outbox)));
        }
        self.places -= 1;
        Outcome::Allowed
    }

    /// The same of a publish at QoS 1.
    fn take_flight(&mut self) -> Outcome
        ensures outcome { result ≡ room_by self.old Qos.AtLeastOnce }
        ensures left { self.new ≡ room_past self.old Qos.AtLeastOnce }
    {
        if self.flights == 0 {
            return Outcome::Denied(Denial::Room(RoomDenial::Full(Place::InFlight)));
        }
        if self.places == 0 {
            return Outcome::Denied(Denial::Room(RoomDenial::Full(Place::Outbox)));
        }
        self.places -= 1;
        self.flights -= 1;
        Outcome::Allowed
    }
}
