//! What all workers of a running gateway share beside the desk: whether they are to stop, and how those that
//! wait are woken.

use crate::courier::Courier;
use crate::handover::Handover;
use crate::shelf::Shelf;
use sng_bounds::answers::Answers;
use sng_bounds::flood::Flood;
use sng_operator::ends::Halt;
use sng_operator::verbosity::Verbosity;
use sng_signals::backlog::Backlog;
use sng_signals::bell::Bell;
use sng_signals::board::Board;
use sng_signals::count::Count;
use sng_signals::level::Level;
use sng_signals::listening::Listening;
use sng_signals::token::Token;
use std::alloc::Global;
use std::fmt::Display;
use std::sync::atomic::{AtomicBool, AtomicU8, AtomicU64, Ordering};
use std::sync::{Arc, Mutex};

/// What wakes those that wait.
#[derive(Drop)]
pub struct Bells {
    /// Wakes the worker at the connection to the broker.
    pub upstream: Bell,
    /// Wakes the ticker.
    pub clock: Bell,
    /// Wakes whoever prints rows.
    pub printer: Bell,
    /// Wakes whoever answers what is asked over HTTP, where that is served.
    pub reception: Option<Bell>,
}

#[derive(Drop)]
pub struct Hub {
    stops: AtomicBool,
    is_up: AtomicBool,
    has_refused_upstream: AtomicBool,
    is_over: AtomicBool,
    has_wrong_book: AtomicBool,
    has_full_book: AtomicBool,
    has_lost_worker: AtomicBool,
    is_socket_empty: AtomicBool,
    /// An operator asked how the gateway stands, and was not answered yet.
    wants_status: AtomicBool,
    /// The act on the policy that came last was refused.
    has_refused_policy: AtomicBool,
    /// Which rows are printed, by its number.
    verbosity: AtomicU8,
    /// The clock of the gateway, in ms of Unix time, by the last tick.
    clock_ms: AtomicU64,
    /// The right to read the devices' socket.
    pub listening: Listening,
    /// The right to act and to send.
    pub token: Token,
    /// For which acts of the workers at the socket the worker at the broker was not woken yet.
    pub backlog: Backlog,
    /// Which datagrams are passed over in a flood.
    pub flood: Mutex<Flood>,
    /// How often an answer may leave for who has no session.
    pub answers: Mutex<Answers>,
    /// Acts that were refused for want of memory, and turns of workers that were left out.
    pub refusals: Count,
    /// Datagrams that could not be sent.
    pub unsent: Count,
    /// Answers that were held back.
    pub held_back: Count,
    /// Datagrams that were passed over: the gateway had sent them itself.
    pub passed_over: Count,
    /// Datagrams that were passed over in a flood.
    pub flooded: Count,
    /// Texts that were refused as policies.
    pub refused_policies: Count,
    /// The rows that were cut out of the book, for whoever prints rows.
    pub shelf: Shelf,
    /// Who sends beside the worker that has the token.
    pub courier: Courier,
    /// What stands between the workers and the book on disk.
    pub handover: Handover,
    /// Wakes the worker at the connection to the broker.
    pub upstream: Bell,
    /// Wakes the ticker.
    pub clock: Bell,
    /// Wakes whoever prints rows.
    pub printer: Bell,
    /// Wakes whoever answers what is asked over HTTP, where that is served.
    pub reception: Option<Bell>,
    /// What waits for standard output, and for standard error.
    pub output: Arc<Board, Global>,
    pub errors: Arc<Board, Global>,
}

impl Hub {
    pub fn new(
        answers: Answers,
        flood: Flood,
        shelf: Shelf,
        courier: Courier,
        bells: Bells,
        handover: Handover,
        output: Arc<Board, Global>,
        errors: Arc<Board, Global>,
    ) -> Hub {
        let Bells {
            upstream,
            clock,
            printer,
            reception,
        } = bells;
        Hub {
            stops: AtomicBool::new(false),
            is_up: AtomicBool::new(false),
            has_refused_upstream: AtomicBool::new(false),
            is_over: AtomicBool::new(false),
            has_wrong_book: AtomicBool::new(false),
            has_full_book: AtomicBool::new(false),
            has_lost_worker: AtomicBool::new(false),
            is_socket_empty: AtomicBool::new(true),
            wants_status: AtomicBool::new(false),
            has_refused_policy: AtomicBool::new(false),
            verbosity: AtomicU8::new(Verbosity::Off.number()),
            clock_ms: AtomicU64::new(0),
            listening: Listening::new(),
            token: Token::new(),
            backlog: Backlog::new(),
            flood: Mutex::new(flood),
            answers: Mutex::new(answers),
            refusals: Count::new(),
            unsent: Count::new(),
            held_back: Count::new(),
            passed_over: Count::new(),
            flooded: Count::new(),
            refused_policies: Count::new(),
            shelf,
            courier,
            handover,
            upstream,
            clock,
            printer,
            reception,
            output,
            errors,
        }
    }

    /// Tells an operator: a line on standard error, for which nobody waits.
    pub fn tell<D: Display + Drop>(&self, level: Level, what: D) {
        (*self.errors).tell(level, what);
    }

    /// Prints a text of whole lines on standard output, for which nobody waits.
    pub fn print(&self, text: Vec<u8>) {
        (*self.output).post(text);
    }

    /// Counts a datagram that is passed over.
    pub fn pass_over(&self, count: &Count) {
        count.add(1);
        if self.backlog.pass_over() {
            self.upstream.ring();
        }
    }

    /// Stops all workers, each once it has finished its turn.
    pub fn stop(&self) {
        self.stops.store(true, Ordering::SeqCst);
        self.upstream.ring();
        self.clock.ring();
        self.printer.ring();
    }

    /// Remembers why the gateway cannot go on as it was.
    pub fn remember(&self, why: Halt) {
        match why {
            Halt::WrongBook => self.has_wrong_book.store(true, Ordering::SeqCst),
            Halt::FullBook => self.has_full_book.store(true, Ordering::SeqCst),
            Halt::LostWorker => self.has_lost_worker.store(true, Ordering::SeqCst),
        }
    }

    /// What was remembered; the wrong book before the full one, and that before a lost worker.
    pub fn halt(&self) -> Option<Halt> {
        if self.has_wrong_book.load(Ordering::SeqCst) {
            return Some(Halt::WrongBook);
        }
        if self.has_full_book.load(Ordering::SeqCst) {
            return Some(Halt::FullBook);
        }
        if self.has_lost_worker.load(Ordering::SeqCst) {
            return Some(Halt::LostWorker);
        }
        None
    }

    /// A tick was acted on.
    pub fn note_clock(&self, ms: u64) {
        self.clock_ms.store(ms, Ordering::SeqCst);
    }

    /// The clock of the gateway, in ms of Unix time, by the last tick.
    pub fn clock_ms(&self) -> u64 {
        self.clock_ms.load(Ordering::SeqCst)
    }

    /// A worker looked into the devices' socket, and nothing lay in it.
    pub fn saw_empty_socket(&self) {
        self.is_socket_empty.store(true, Ordering::SeqCst);
    }

    /// Which rows are printed from now on.
    pub fn set_verbosity(&self, verbosity: Verbosity) {
        self.verbosity.store(verbosity.number(), Ordering::SeqCst);
        self.printer.ring();
    }

    /// Which rows are printed: none, until it is said.
    pub fn verbosity(&self) -> Verbosity {
        Verbosity::of(self.verbosity.load(Ordering::SeqCst))
    }

    /// Asks whoever prints rows how the gateway stands.
    pub fn ask_status(&self) {
        self.wants_status.store(true, Ordering::SeqCst);
        self.printer.ring();
    }

    /// Whether it was asked for since this was looked up last.
    pub fn takes_status(&self) -> bool {
        self.wants_status.swap(false, Ordering::SeqCst)
    }

    /// The act on a policy was refused.
    pub fn refuse_policy(&self) {
        self.has_refused_policy.store(true, Ordering::SeqCst);
    }

    /// Whether one was refused since this was looked up last.
    pub fn takes_policy_refusal(&self) -> bool {
        self.has_refused_policy.swap(false, Ordering::SeqCst)
    }

    /// Nobody has looked into the socket since now.
    pub fn look_again(&self) {
        self.is_socket_empty.store(false, Ordering::SeqCst);
    }

    /// Whether the socket was seen empty since this was asked for.
    pub fn has_seen_empty_socket(&self) -> bool {
        self.is_socket_empty.load(Ordering::SeqCst)
    }

    /// Whether the workers are to stop.
    pub fn stops(&self) -> bool {
        self.stops.load(Ordering::SeqCst)
    }

    /// A connection to the broker is begun.
    pub fn begin(&self) {
        self.is_up.store(false, Ordering::SeqCst);
        self.has_refused_upstream.store(false, Ordering::SeqCst);
    }

    /// An act of the worker at the broker was refused.
    pub fn refuse_upstream(&self) {
        self.has_refused_upstream.store(true, Ordering::SeqCst);
    }

    /// Whether an act of the worker at the broker was refused since the connection was begun.
    pub fn has_refused_upstream(&self) -> bool {
        self.has_refused_upstream.load(Ordering::SeqCst)
    }

    /// The worker at the broker has acted.
    pub fn acted_upstream(&self) {
        self.is_up.store(true, Ordering::SeqCst);
    }

    /// Whether the worker at the broker has acted since the connection was begun: its first act says that the
    /// broker accepted it.
    pub fn is_up(&self) -> bool {
        self.is_up.load(Ordering::SeqCst)
    }

    /// All workers have ended: no row comes any more.
    pub fn end(&self) {
        self.is_over.store(true, Ordering::SeqCst);
        self.printer.ring();
        self.handover.bell.ring();
        if let Some(bell) = &self.reception {
            bell.ring();
        }
    }

    /// Whether all workers have ended.
    pub fn is_over(&self) -> bool {
        self.is_over.load(Ordering::SeqCst)
    }
}
