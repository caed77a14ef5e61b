//! What is told to who asks for figures: the counts of the desk, copied in one hold of it, and what the
//! program counts beside them.
ghost use Rattle.std.specs.Prelude.{◌≡◌, IfOk};
ghost use Rattle.sng_serve.specs.Answers.{AreCountsOf, AreFiguresOf, AreOfSomeDesk, IsAnswer, IsHealthOf};
ghost use Rattle.sng_serve.specs.Answers.{clients_of};

use crate::hub::Hub;
use sng_core::census::{Census, ClientCounts};
use sng_desk::Desk;
use sng_metrics::{
    ClientFigures, Figures, Form, Health, Heard, Page, Refusal, health_answer, metrics_answer,
    refusal_answer,
};
use sng_operator::VERSION;
use sng_tally::Tally;
use std::alloc::AllocError;
use std::rt::Clock;
use std::sync::{Mutex, Wait};
use std::time::Duration;

/// What the desk counts.
#[derive(Drop)]
pub struct Counts {
    pub tally: Tally,
    pub census: Census,
    /// The rows of the book.
    pub rows: u64,
    /// How many rows the book may have.
    pub limit: u64,
}

/// What the desk counts now. It takes no memory, and one walk over the clients.
pub fn counts_of(desk: &Desk) -> Counts
    ensures { AreCountsOf desk.now result }
{
    Counts {
        tally: desk.tally(),
        census: desk.census(),
        rows: desk.rows_made(),
        limit: desk.limit(),
    }
}

/// Where figures are taken from.
#[derive(Drop)]
pub struct Front<'a, R: Clock + Wait + AllocGlobal> {
    pub rt: &'a R,
    pub hub: &'a Hub,
    pub desk: &'a Mutex<Desk>,
    /// When the gateway began.
    pub begun: Duration,
}

impl<'a, R: Clock + Wait + AllocGlobal> Front<'a, R> {
    /// The time, or the longest there is where the clock cannot be read.
    pub fn now(&self) -> Duration {
        self.rt.monotonic().unwrap_or(Duration::MAX)
    }

    /// The answer to a visitor of whom this was heard. One of whom more was to come has used up his time.
    pub fn answer(&self, heard: Heard) -> Result<Vec<u8>, AllocError>
        ensures { IfOk result (λ octets. IsAnswer heard octets.items) }
    {
        let alloc = self.rt.alloc();
        match heard {
            Heard::Asked(Page::Metrics, form) => {
                let counts = self.counts();
                metrics_answer(alloc, form, &counts.tally, &self.figures(&counts))
            }
            Heard::Asked(Page::Health, form) => {
                health_answer(alloc, form, self.health(&self.counts()))
            }
            Heard::Refused(refusal, form) => refusal_answer(alloc, form, refusal),
            Heard::More => refusal_answer(alloc, Form::Whole, Refusal::TooSlow),
        }
    }

    /// What the desk counts now, copied in one hold of it.
    fn counts(&self) -> Counts
        ensures { AreOfSomeDesk result }
    {
        counts_of(&self.desk.lock(self.rt))
    }

    /// Whether all is well. A book on disk that cannot be written takes no rows, though some may wait for it.
    fn health(&self, counts: &Counts) -> Health
        ensures { IsHealthOf counts.now result }
    {
        let room = &self.hub.handover.room;
        Health {
            broker_is_up: counts.census.is_up,
            book_takes_rows: counts.rows < counts.limit && !room.is_blocked() && !room.holds(),
        }
    }

    /// The figures beside the tally.
    fn figures(&self, counts: &Counts) -> Figures<'static>
        ensures { AreFiguresOf counts.now result }
    {
        let (hub, census) = (self.hub, &counts.census);
        Figures {
            version: VERSION,
            uptime: self.now().saturating_sub(self.begun).as_secs(),
            clock: hub.clock_ms(),
            health: self.health(counts),
            clients: client_figures(&census.clients),
            subscriptions: census.clients.filters as u64,
            messages_waiting: census.clients.messages as u64,
            items_waiting: census.items as u64,
            in_flight: census.in_flight as u64,
            rows_waiting: hub.handover.rows_waiting(),
            refused_events: hub.refusals.total(),
            failed_sends: hub.unsent.total(),
            refused_policies: hub.refused_policies.total(),
        }
    }
}

/// How many clients are in each state.
fn client_figures(clients: &ClientCounts) -> ClientFigures
    ensures { result ≡ clients_of clients.now }
{
    ClientFigures {
        active: clients.active as u64,
        asleep: clients.asleep as u64,
        awake: clients.awake as u64,
        in_dialogue: clients.in_dialogue as u64,
        disconnected: clients.disconnected as u64,
        lost: clients.lost as u64,
    }
}
