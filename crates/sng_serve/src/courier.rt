//! The courier: a thread that sends for the worker that has the token. Of what one row lets out for many devices
//! it sends about half, while the worker sends the others. Each address belongs to the one or to the other, and
//! the worker goes on only once the courier is back, so what goes to one address leaves in the order of the rows,
//! as if the worker had sent it all.
ghost use Rattle.std.specs.Prelude.{◌≡◌, ◌≢◌, ◌≤◌, ◌↔◌, ◌⊎◌, IsTrue, false, length};
ghost use Rattle.sng_serve.specs.Bags.{Keeps, Swaps};
ghost use Rattle.sng_serve.specs.declared.courier.Place.{Place};

use crate::hub::Hub;
use crate::parcels::Parcel;
use sng_operator::ask::socket_address;
use sng_signals::level::Level;
use std::alloc::Global;
use std::mem;
use std::net::UdpSocket;
use std::sync::{Condvar, Mutex, Wait};
use std::thread::{Scope, Threads};

/// What the courier and the worker that has the token share.
#[derive(Drop)]
pub struct Courier {
    bag: Mutex<Bag>,
    /// The courier is to set out, or to end.
    given: Condvar,
    /// The courier is back.
    is_back: Condvar,
}

impl Courier {
    /// Nobody carries yet.
    pub fn new(alloc: Global) -> Courier {
        Courier {
            bag: Mutex::new(Bag {
                place: Place::Away,
                parcels: Vec::new(alloc),
                sent: 0,
            }),
            given: Condvar::new(),
            is_back: Condvar::new(),
        }
    }

    /// Gives these parcels to the courier, where one waits. Whether it has them: the list is then the one with which the
    /// parcels before them were taken back, or an empty one.
    pub fn give<R: Wait>(&self, rt: &R, parcels: &mut Vec<Parcel>) -> bool {
        let has_them = self.bag.lock(rt).give(parcels);
        if has_them {
            self.given.notify_one();
        }
        has_them
    }

    /// Waits until the courier is back, and takes what was given to it, in the same order. How many of the first
    /// have left: none where it had not set out yet.
    pub fn take_back<R: Wait>(&self, rt: &R, parcels: &mut Vec<Parcel>) -> usize {
        let bag = self.bag.lock(rt);
        let mut bag = self.is_back.wait_while(rt, bag, |bag| bag.is_carried());
        bag.take_back(parcels)
    }

    /// The courier waits until it has parcels to send. Whether it has: else it is to end.
    fn wait<R: Wait>(&self, rt: &R, parcels: &mut Vec<Parcel>) -> bool {
        let mut bag = self.bag.lock(rt);
        bag.come();
        let mut bag = self.given.wait_while(rt, bag, |bag| bag.is_awaited());
        bag.set_out(parcels)
    }

    /// The courier is back, and so many of the first have left.
    fn bring_back<R: Wait>(&self, rt: &R, parcels: &mut Vec<Parcel>, sent: usize) {
        self.bag.lock(rt).bring_back(parcels, sent);
        self.is_back.notify_one();
    }

    /// Nothing is sent any more.
    pub fn end<R: Wait>(&self, rt: &R) {
        self.bag.lock(rt).place = Place::Over;
        self.given.notify_one();
    }
}

/// Where the courier is: away until it comes, and then it waits, is given parcels, carries them and is back, until it
/// is to end.
#[derive(Clone, Copy, Debug, PartialEq, Eq)]
enum Place {
    /// There is none, or it does not wait.
    Away,
    /// It waits.
    Waiting,
    /// It was given parcels, and has not set out.
    Given,
    /// It is under way with them.
    Carrying,
    /// It is back.
    Back,
    /// It is to end.
    Over,
}

/// What is given to the courier, and what it brings back.
#[derive(Drop)]
struct Bag {
    place: Place,
    parcels: Vec<Parcel>,
    /// How many of the first have left.
    sent: usize,
}

impl Bag {
    /// Parcels for a courier that waits. Whether it has them.
    fn give(&mut self, parcels: &mut Vec<Parcel>) -> bool
        ensures has { IsTrue result ↔ (self.old.place ≡ Place.Waiting) }
        ensures given { IsTrue result → Swaps Place.Given self.old parcels.old.items self.new parcels.new.items }
        ensures kept { result ≡ false → Keeps self.old parcels.old.items self.new parcels.new.items }
    {
        if self.place != Place::Waiting {
            return false;
        }
        self.place = Place::Given;
        mem::swap(&mut self.parcels, parcels);
        true
    }

    /// The courier has set out, and is not back.
    fn is_carried(&self) -> bool
        ensures { IsTrue result ↔ (self.now.place ≡ Place.Carrying) }
    {
        self.place == Place::Carrying
    }

    /// What was given, and how many of the first have left: none where the courier is not back with them.
    fn take_back(&mut self, parcels: &mut Vec<Parcel>) -> usize
        ensures back { self.old.place ≡ Place.Back → result ≡ self.old.sent }
        ensures none { self.old.place ≢ Place.Back → result ≡ 0 }
        ensures taken { self.old.place ≢ Place.Over
            → Swaps Place.Waiting self.old parcels.old.items self.new parcels.new.items }
        ensures over { self.old.place ≡ Place.Over
            → Swaps Place.Over self.old parcels.old.items self.new parcels.new.items }
    {
        let sent = if self.place == Place::Back {
            self.sent
        } else {
            0
        };
        if self.place != Place::Over {
            self.place = Place::Waiting;
        }
        mem::swap(&mut self.parcels, parcels);
        sent
    }

    /// The courier comes for the first time.
    fn come(&mut self)
        ensures come { self.old.place ≡ Place.Away → self.new ≡ record self.old { place = Place.Waiting } }
        ensures kept { self.old.place ≢ Place.Away → self.new ≡ self.old }
    {
        if self.place == Place::Away {
            self.place = Place::Waiting;
        }
    }

    /// There is nothing for the courier yet.
    fn is_awaited(&self) -> bool
        ensures { IsTrue result ↔ (self.now.place ≡ Place.Waiting) ⊎ (self.now.place ≡ Place.Back) }
    {
        self.place == Place::Waiting || self.place == Place::Back
    }

    /// The courier takes what was given. Whether there was something: else it is to end.
    fn set_out(&mut self, parcels: &mut Vec<Parcel>) -> bool
        ensures has { IsTrue result ↔ (self.old.place ≡ Place.Given) }
        ensures taken { IsTrue result → Swaps Place.Carrying self.old parcels.old.items self.new parcels.new.items }
        ensures kept { result ≡ false → Keeps self.old parcels.old.items self.new parcels.new.items }
    {
        if self.place != Place::Given {
            return false;
        }
        self.place = Place::Carrying;
        mem::swap(&mut self.parcels, parcels);
        true
    }

    /// The courier is back with them, of which so many of the first have left.
    fn bring_back(&mut self, parcels: &mut Vec<Parcel>, sent: usize)
        ensures back { Swaps Place.Back (record self.old { sent = sent }) parcels.old.items self.new parcels.new.items }
    {
        self.place = Place::Back;
        self.sent = sent;
        mem::swap(&mut self.parcels, parcels);
    }
}

/// Starts the courier, which sends by this socket until it is to end. Where no thread can be had, that is told, and
/// the workers send all themselves.
pub fn start_courier<'s, E, R: Threads + Wait + AllocGlobal + Sync + 's>(
    scope: &Scope<'s, E>,
    rt: &'s R,
    hub: &'s Hub,
    socket: Option<UdpSocket>,
) {
    let Some(socket) = socket else {
        return;
    };
    if scope.spawn(move || carry(rt, hub, socket)).is_err() {
        hub.tell(
            Level::Warning,
            "messages to many devices are sent by one thread: another one cannot be started",
        );
    }
}

/// Sends what it is given, until it is to end.
fn carry<R: Wait + AllocGlobal>(rt: &R, hub: &Hub, socket: UdpSocket) {
    let mut parcels = Vec::new(rt.alloc());
    for _ in rt.forever() {
        if !hub.courier.wait(rt, &mut parcels) {
            return;
        }
        let sent = send_some(&socket, parcels.as_slice());
        hub.courier.bring_back(rt, &mut parcels, sent);
    }
}

/// Sends these in their order, until one does not leave. How many left.
fn send_some(socket: &UdpSocket, parcels: &[Parcel]) -> usize
    ensures { result ≤ length parcels.now }
{
    let mut sent = 0;
    for parcel in parcels {
        let to = socket_address(parcel.0);
        if socket.send_to(parcel.1.as_slice(), to).is_err() {
            return sent;
        }
        sent += 1;
    }
    sent
}
