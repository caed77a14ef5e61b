//! The gate of a running gateway: it gives the token back, stops the workers, wakes whoever waits for a row,
//! and tells an operator what came of acts and workers.
ghost use Rattle.std.specs.Prelude.{true};

use crate::hub::Hub;
use crate::limits::{CLOCK_ROWS, FULL_ROWS, NEARLY_FULL_ROWS, PIECE_ENTRIES, TURN_ROWS};
use crate::socket::second_of;
use sng_book::Event;
use sng_desk::{ActFault, Gate, Receipt, Volume, WorkerFault};
use sng_operator::denials::denies_all;
use sng_operator::ends::Halt;
use sng_operator::roles::{OTHERS, Role, Roles};
use sng_signals::count::Count;
use sng_signals::level::Level;
use std::rt::Clock;
use std::sync::Wait;
use std::sync::atomic::{AtomicU64, Ordering};
use std::thread;
use std::time::Duration;

/// After so many beats the worker at the broker looks whether something waits for it.
const BEATS_BETWEEN_LOOKS: u64 = 5;

/// How long a worker waits that has no memory for its next turn, in ms.
const SHORT_PAUSE_MS: u64 = 10;

/// How long a worker waits at a time for which there is no room, in ms.
const ROOM_PAUSE_MS: u64 = 10;

/// The gate of a running gateway.
#[derive(Drop)]
pub struct Switch<'a, R: Clock + Wait> {
    rt: &'a R,
    hub: &'a Hub,
    roles: Roles,
    beats: AtomicU64,
    /// How many workers read the socket of the devices.
    listening: AtomicU64,
}

impl<'a, R: Clock + Wait> Switch<'a, R> {
    pub fn new(rt: &'a R, hub: &'a Hub, roles: Roles) -> Switch<'a, R> {
        Switch {
            rt,
            hub,
            roles,
            beats: AtomicU64::new(0),
            listening: AtomicU64::new(u64::from(roles.workers())),
        }
    }

    /// Whether the worker at the broker is to look what waits for it, after an act of such a worker.
    fn is_to_look(&self, role: Role) -> bool {
        match role {
            Role::Broker => false,
            Role::Clock => { self.beats.fetch_add(1, Ordering::SeqCst) % BEATS_BETWEEN_LOOKS == 0 }
            Role::Devices => self.hub.backlog.add(),
            Role::Policies => true,
        }
    }

    /// Tells what was refused, lost and passed over, with the beats of the clock.
    fn tell_counts(&self, role: Role) {
        if role != Role::Clock {
            return;
        }
        self.tell_count(
            &self.hub.refusals,
            "events refused or lost: allocation failed",
        );
        self.tell_count(&self.hub.unsent, "datagrams could not be sent");
        self.tell_count(
            &self.hub.held_back,
            "answers to who has no session held back",
        );
        self.tell_count(
            &self.hub.passed_over,
            "datagrams of the gateway itself passed over",
        );
        self.tell_count(
            &self.hub.flooded,
            "datagrams passed over: all from these addresses was denied",
        );
    }

    /// Tells a count that is not 0.
    fn tell_count(&self, count: &Count, what: &str) {
        let count = count.take();
        if count > 0 {
            self.hub
                .tell(Level::Warning, format_args!("{count} {what}"));
        }
    }

    /// Tells the flood rule what became of a datagram.
    fn judge(&self, receipt: &Receipt) {
        let Event::Datagram(from, _) = receipt.event() else {
            return;
        };
        let mut flood = self.hub.flood.lock(self.rt);
        if denies_all(receipt.outs()) {
            flood.deny(*from, second_of(self.rt));
        } else {
            flood.allow(*from);
        }
    }

    /// How many rows have to be left before such a worker begins a turn, where the book goes to disk: one
    /// turn of each worker, so that what is begun finds its rows.
    fn least_rows(&self, role: Role) -> u64 {
        match role {
            Role::Clock => CLOCK_ROWS,
            Role::Devices | Role::Broker | Role::Policies => {
                TURN_ROWS.saturating_mul(u64::from(self.roles.workers().saturating_add(OTHERS)))
            }
        }
    }

    /// Whether there is no room for a turn of the worker. One that has not handed off all that it has, since
    /// there was room as it was asked to, makes that turn: what it has keeps the rows behind it from disk.
    fn is_held(&self, by: u16) -> bool {
        let handover = &self.hub.handover;
        handover.is_kept
            && handover.room.left() < self.least_rows(self.roles.of(by))
            && !handover.hands.is_full(by)
    }

    /// Holds the worker until there is room for its turn, or all are to stop.
    fn wait_for_room(&self, by: u16) {
        if !self.is_held(by) {
            return;
        }
        self.hub.listening.give_back(self.rt, by);
        if self.hub.handover.room.begins_to_hold() {
            let waiting = self.hub.handover.room.waiting();
            self.hub.tell(
                Level::Warning,
                format_args!(
                    "{waiting} rows wait for the disk: nobody is served until it takes some"
                ),
            );
        }
        for _ in self.rt.forever() {
            thread::sleep(self.rt, Duration::from_millis(ROOM_PAUSE_MS));
            if self.hub.stops() || !self.is_held(by) {
                return;
            }
        }
    }

    /// Notes a row of a book that goes to disk, and tells that many wait.
    fn note_row(&self, row: u64) {
        let room = &self.hub.handover.room;
        room.note_made(row);
        let waiting = room.waiting();
        if waiting >= NEARLY_FULL_ROWS && room.begins_to_fill() {
            self.hub.tell(
                Level::Warning,
                format_args!("{waiting} rows wait for the disk, of {FULL_ROWS} that may"),
            );
        }
        if room.left() == 0 {
            self.fill_book();
        }
    }

    /// Tells how full a book in memory is.
    fn count_row(&self, row: u64) {
        if row == NEARLY_FULL_ROWS {
            self.hub.tell(
                Level::Warning,
                format_args!(
                    "the book has {row} of {FULL_ROWS} rows: a gateway with --book goes on for ever"
                ),
            );
        }
        if row == FULL_ROWS {
            self.fill_book();
        }
    }

    /// The book has as many rows as it may have.
    fn fill_book(&self) {
        self.hub.tell(
            Level::Error,
            "the book is full: the gateway ends, as nothing more can be answered",
        );
        self.halt_for(Halt::FullBook);
    }

    /// Stops the gateway, which cannot go on.
    fn halt_for(&self, why: Halt) {
        self.hub.remember(why);
        self.hub.stop();
    }

    /// What a worker's end with a fault leads to.
    fn take_end(&self, role: Role, fault: WorkerFault) {
        match fault {
            WorkerFault::BookFull => self.halt_for(Halt::FullBook),
            // the worker told it, and those at the socket go on without a broker
            WorkerFault::GaveUp => {}
            WorkerFault::Device | WorkerFault::Refused => self.take_loss(role),
        }
    }

    /// A worker is lost: nobody is served without the last one at the socket, or without any of the others.
    fn take_loss(&self, role: Role) {
        self.hub
            .tell(Level::Error, format_args!("the worker {role} gave up"));
        self.hub.remember(Halt::LostWorker);
        if role != Role::Devices || self.listening.fetch_sub(1, Ordering::SeqCst) == 1 {
            self.hub.stop();
        }
    }
}

impl<'a, R: Clock + Wait> Gate for Switch<'a, R> {
    ghost may_stop = { λ _. true };

    /// All is sent that came of the turn before. Where the book goes to disk the worker waits for room.
    fn before(&self, by: u16) -> bool {
        self.hub.token.give_back(self.rt, by);
        self.wait_for_room(by);
        !self.hub.stops()
    }

    fn stops(&self) -> bool {
        true
    }

    /// Where the book stays in memory what a worker says of its acts stays with it until it ends. Where it
    /// goes to disk a worker at the socket hands off a piece once it is long, in its first turn after a cut,
    /// and where there is no room for a turn; any other does after each turn.
    fn hands_off(&self, by: u16, entries: usize) -> bool {
        let handover = &self.hub.handover;
        if !handover.is_kept {
            return false;
        }
        match self.roles.of(by) {
            Role::Devices => {
                handover.hands.takes_ask(by)
                    || entries >= PIECE_ENTRIES
                    || handover.room.left() < self.least_rows(Role::Devices)
            }
            Role::Broker | Role::Clock | Role::Policies => true,
        }
    }

    fn cut(&self, _by: u16, volume: &Volume) {
        self.hub.shelf.put(self.rt, volume);
        self.hub.printer.ring();
        self.hub.handover.hands.ask_all();
    }

    fn refused(&self, by: u16, fault: ActFault) {
        self.hub.handover.hands.fill(by);
        if self.roles.of(by) == Role::Broker {
            self.hub.refuse_upstream();
        }
        match fault {
            ActFault::Memory => {
                let role = self.roles.of(by);
                if role == Role::Policies {
                    self.hub.refuse_policy();
                }
                self.hub.refusals.add(1);
                self.tell_counts(role);
            }
            // the worker ends by it
            ActFault::BookFull => {}
        }
    }

    fn short(&self, by: u16) {
        self.hub.listening.give_back(self.rt, by);
        self.hub.refusals.add(1);
        self.tell_counts(self.roles.of(by));
        thread::sleep(self.rt, Duration::from_millis(SHORT_PAUSE_MS));
    }

    fn over(&self, by: u16, fault: Option<WorkerFault>) {
        self.hub.listening.give_back(self.rt, by);
        self.hub.token.give_back(self.rt, by);
        if let Some(fault) = fault {
            self.take_end(self.roles.of(by), fault);
        }
    }

    fn halt(&self) {
        self.hub.stop();
    }

    fn after(&self, by: u16, receipt: &Receipt) {
        self.hub.handover.hands.fill(by);
        let (role, row) = (self.roles.of(by), receipt.number());
        if role == Role::Broker {
            self.hub.acted_upstream();
        }
        if let Event::Tick(ms) = receipt.event() {
            self.hub.note_clock(*ms);
        }
        if self.is_to_look(role) {
            self.hub.upstream.ring();
        }
        self.hub.printer.ring();
        self.judge(receipt);
        self.tell_counts(role);
        if self.hub.handover.is_kept {
            self.note_row(row);
        } else {
            self.count_row(row);
        }
    }
}
