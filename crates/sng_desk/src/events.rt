//! The sources of three workers as sources of events: datagrams, clock values and policies.
ghost use Rattle.std.specs.Prelude.{◌≡◌, ◌≤◌, ◌<◌, ◌↔◌, ◌⊎◌, ◌∷◌, [], ℕ, Bool, List, true, false, map};
ghost use Rattle.sng_book.specs.declared.address.Address.{Address};
ghost use Rattle.sng_book.specs.declared.event.Event.{Event as event};
ghost use Rattle.sng_desk.specs.declared.source.Got.TheVariants.{Ended as ended_answer};
ghost use Rattle.sng_desk.specs.declared.source.Got.TheVariants.{Failed as failed_answer};
ghost use Rattle.sng_desk.specs.Acts.{Moves};
ghost use Rattle.sng_desk.specs.Pieces.{Grown, Line as line_type, no_line};
ghost use Rattle.sng_desk.specs.Working.{given_by};
ghost use Rattle.sng_desk.specs.Sources.{datagram_events, tick_events, replace_events};

use crate::cutting::Cuts;
use crate::desk::Desk;
use crate::filing::Filing;
use crate::gate::Gate;
use crate::source::{Beats, Datagrams, Got, Policies};
use crate::volume::Volume;
use sng_book::{Address, Event};
use sng_text::WireBytes;
use std::sync::{Mutex, Wait};

/// A source of events, and a way to send what comes of them.
pub trait Source: Drop {
    /// Whether it tells what it gave.
    ghost tells: { Self → Bool };

    /// The events that it gave, in order.
    ghost gave: { Self → List event };

    /// How often it answered that it failed.
    ghost failures: { Self → ℕ };

    /// It answered that nothing more comes.
    ghost has_ended: { Self → Bool };

    /// Whether it tells what was passed to it.
    ghost told: { Self → Bool };

    /// The datagrams that were passed to it, in order, each with the address to which it goes.
    ghost passed: { Self → List (Address × List ℕ) };

    /// What it has of volumes: those that it cut out are what was filed of them, and behind it what waits.
    ghost line: { Self → line_type };

    /// The next event.
    fn ask(&mut self) -> Got<Event>
        ensures given { Moves tells gave self.old self.new (given_by result) }
        ensures passed { Moves told passed self.old self.new [] }
        ensures failures { failures self.old ≤ failures self.new }
        ensures failed { (result ≡ failed_answer) ↔ (failures self.old < failures self.new) }
        ensures ended { result ≡ ended_answer → has_ended self.new ≡ true }
        ensures ends { has_ended self.new ≡ true → (result ≡ ended_answer) ⊎ (has_ended self.old ≡ true) }
        ensures line { line self.new ≡ line self.old };

    /// Passes a datagram on. It may be lost.
    fn send(&mut self, to: Address, datagram: &WireBytes)
        ensures given { Moves tells gave self.old self.new [] }
        ensures passed { Moves told passed self.old self.new ((to, datagram.now) ∷ []) }
        ensures failures { failures self.new ≡ failures self.old }
        ensures line { line self.new ≡ line self.old };

    /// What it does at the desk after an act, once what came of that was passed on.
    fn tend<R: Wait, G: Gate>(&mut self, rt: &R, desk: &Mutex<Desk>, gate: &G, by: u16)
        ensures given { Moves tells gave self.old self.new [] }
        ensures passed { Moves told passed self.old self.new [] }
        ensures failures { failures self.new ≡ failures self.old }
        ensures line { Grown (line self.old) (line self.new) };
}

/// Datagrams, sent by what they came from.
#[derive(Debug, Drop)]
pub struct Devices<D> {
    pub datagrams: D,
}

impl<D: Datagrams> Source for Devices<D> {
    ghost tells = { λ s. D.tells s.datagrams };

    ghost gave = { λ s. datagram_events (D.gave s.datagrams) };

    ghost failures = { λ s. D.failures s.datagrams };

    ghost has_ended = { λ s. D.has_ended s.datagrams };

    ghost told = { λ s. D.tells s.datagrams };

    ghost passed = { λ s. D.passed s.datagrams };

    ghost line = { λ _. no_line };

    fn ask(&mut self) -> Got<Event> {
        match self.datagrams.receive() {
            Got::Came((from, datagram)) => Got::Came(Event::Datagram(from, datagram)),
            Got::Nothing => Got::Nothing,
            Got::Ended => Got::Ended,
            Got::Failed => Got::Failed,
        }
    }

    fn send(&mut self, to: Address, datagram: &WireBytes) {
        let _sent = self.datagrams.send(to, datagram);
    }

    fn tend<R: Wait, G: Gate>(&mut self, _rt: &R, _desk: &Mutex<Desk>, _gate: &G, _by: u16) {}
}

/// Clock values, datagrams to send by, and the volumes that are cut at the beats.
#[derive(Drop)]
pub struct Clock<B, D, V> {
    pub beats: B,
    pub sender: D,
    pub cuts: Cuts<V>,
}

impl<B: Beats, D: Datagrams, V: Filing<Volume>> Source for Clock<B, D, V> {
    ghost tells = { λ s. B.tells s.beats };

    ghost gave = { λ s. tick_events (B.gave s.beats) };

    ghost failures = { λ s. B.failures s.beats };

    ghost has_ended = { λ s. B.has_ended s.beats };

    ghost told = { λ s. D.tells s.sender };

    ghost passed = { λ s. D.passed s.sender };

    ghost line = { λ s. record {
      tells = V.tells s.cuts.filing;
      took = V.took s.cuts.filing;
      waiting = s.cuts.volumes.items;
      rows = s.cuts.rows;
      next = s.cuts.next;
    } };

    fn ask(&mut self) -> Got<Event> {
        match self.beats.next() {
            Got::Came(clock) => Got::Came(Event::Tick(clock)),
            Got::Nothing => Got::Nothing,
            Got::Ended => Got::Ended,
            Got::Failed => Got::Failed,
        }
    }

    fn send(&mut self, to: Address, datagram: &WireBytes) {
        let _sent = self.sender.send(to, datagram);
    }

    fn tend<R: Wait, G: Gate>(&mut self, rt: &R, desk: &Mutex<Desk>, gate: &G, by: u16) {
        self.cuts.tend(rt, desk, gate, by);
    }
}

/// Policies. What comes of one is noted, and nothing is sent.
#[derive(Debug, Drop)]
pub struct Loader<P> {
    pub policies: P,
}

impl<P: Policies> Source for Loader<P> {
    ghost tells = { λ s. P.tells s.policies };

    ghost gave = { λ s. replace_events (P.gave s.policies) };

    ghost failures = { λ s. P.failures s.policies };

    ghost has_ended = { λ s. P.has_ended s.policies };

    ghost told = { λ s. false };

    ghost passed = { λ s. [] };

    ghost line = { λ _. no_line };

    fn ask(&mut self) -> Got<Event> {
        match self.policies.next() {
            Got::Came(policy) => Got::Came(Event::Replace(policy)),
            Got::Nothing => Got::Nothing,
            Got::Ended => Got::Ended,
            Got::Failed => Got::Failed,
        }
    }

    fn send(&mut self, _to: Address, _datagram: &WireBytes) {}

    fn tend<R: Wait, G: Gate>(&mut self, _rt: &R, _desk: &Mutex<Desk>, _gate: &G, _by: u16) {}
}
