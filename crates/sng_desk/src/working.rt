//! The turns of a worker at a source of events: one ask, one act, and then what comes of it is sent.
ghost use Rattle.std.specs.Prelude.{◌≡◌, ◌≤◌, ◌∷◌, []};
ghost use Rattle.sng_desk.specs.Sights.{Share as share_sight};
ghost use Rattle.sng_desk.specs.Acts.{Moves, sends_in, sends_of};
ghost use Rattle.sng_desk.specs.Pieces.{Grown, HandsOff, IsLeft, piece_of};
ghost use Rattle.sng_desk.specs.Working.{Going, HasEnded, NextFor, Served, Worked};

use crate::desk::{Desk, Receipt, Share};
use crate::ending::{Next, NoSender, WorkerEnd, WorkerFault};
use crate::events::Source;
use crate::filer::Filer;
use crate::filing::Filing;
use crate::gate::Gate;
use crate::hand::Hand;
use crate::piece::Piece;
use crate::source::Got;
use crate::trail::Log;
use sng_book::{Event, Out};
use std::alloc::Global;
use std::sync::{Mutex, Wait};

/// A worker at a source of events, between two turns.
#[derive(Drop)]
struct SourceWorker<S, F> {
    source: S,
    hand: Hand,
    filer: Filer<F>,
}

impl<S: Source, F: Filing<Piece>> SourceWorker<S, F> {
    /// Hands off a piece of the trail where the gate says so, and then asks the source once.
    fn turn<R: Wait, G: Gate>(&mut self, rt: &R, desk: &Mutex<Desk>, gate: &G) -> Next
        ensures going { (source : S) (share : share_sight) (filing : F)
            → Going S.tells S.gave S.failures S.told S.passed F.tells F.took source source share filing
            self.old.source self.old.source self.old.hand.share self.old.filer.filing
            (piece_of self.old.filer.place self.old.hand.log.trail)
            → Going S.tells S.gave S.failures S.told S.passed F.tells F.took source source share filing
            self.new.source self.new.source self.new.hand.share self.new.filer.filing
            (piece_of self.new.filer.place self.new.hand.log.trail) }
        ensures over { NextFor result (S.failures self.old.source) (S.failures self.new.source)
            (S.has_ended self.new.source) (G.may_stop gate.now) self.new.hand.log.trail }
        ensures line { Grown (S.line self.old.source) (S.line self.new.source) }
    {
        if self.hand.log.is_full() {
            return Next::Over(Some(WorkerFault::BookFull));
        }
        self.filer.offer(gate, &mut self.hand.log);
        self.ask(rt, desk, gate)
    }

    /// Asks the source once, and acts on what it gives.
    fn ask<R: Wait, G: Gate>(&mut self, rt: &R, desk: &Mutex<Desk>, gate: &G) -> Next
        ensures worked { Worked S.tells S.gave S.failures S.told S.passed self.old.source self.old.source
            self.old.hand.log.trail self.old.hand.share self.new.source self.new.source
            self.new.hand.log.trail self.new.hand.share }
        ensures filer { self.new.filer ≡ self.old.filer }
        ensures over { NextFor result (S.failures self.old.source) (S.failures self.new.source)
            (S.has_ended self.new.source) (G.may_stop gate.now) self.new.hand.log.trail }
        ensures line { Grown (S.line self.old.source) (S.line self.new.source) }
    {
        if !gate.before(self.hand.log.by()) {
            return Next::Over(None);
        }
        if self.hand.log.room(1).is_err() {
            gate.short(self.hand.log.by());
            return Next::On;
        }
        match self.source.ask() {
            Got::Came(event) => {
                self.serve(rt, desk, gate, event);
                Next::On
            }
            Got::Nothing => Next::On,
            Got::Ended => Next::Over(None),
            Got::Failed => Next::Over(Some(WorkerFault::Device)),
        }
    }

    /// Acts on an event, sends what comes of it, and lets the source tend the desk.
    fn serve<R: Wait, G: Gate>(&mut self, rt: &R, desk: &Mutex<Desk>, gate: &G, event: Event)
        requires { 1 ≤ self.old.hand.log.spare }
        ensures served { Served S.tells S.gave S.failures S.told S.passed event self.old.source
            self.old.hand.log.trail self.old.hand.share self.new.source self.new.hand.log.trail
            self.new.hand.share }
        ensures filer { self.new.filer ≡ self.old.filer }
        ensures line { Grown (S.line self.old.source) (S.line self.new.source) }
    {
        let from = self.hand.log.count();
        let _taken = self.hand.act(rt, desk, gate, event);
        send_all(&mut self.source, self.hand.log.receipts_from(from));
        self.source.tend(rt, desk, gate, self.hand.log.by());
    }

    /// What the worker leaves, once it has handed off what it has of its trail.
    fn ended<G: Gate>(self, gate: &G, fault: Option<WorkerFault>) -> WorkerEnd<S, NoSender, F>
        ensures off { HandsOff F.tells F.took self.filer.filing
            (piece_of self.filer.place self.hand.log.trail) result.filing result.rest }
        ensures left { IsLeft result.rest (F.handed_back result.filing) }
        ensures same { (result.source ≡ self.source) × (result.share ≡ self.hand.share)
            × (result.fault ≡ fault) }
    {
        let SourceWorker {
            source,
            hand,
            mut filer,
        } = self;
        let Hand { share, mut log } = hand;
        filer.hand_off(&mut log);
        gate.over(share.tag(), fault);
        let Filer { filing, place } = filer;
        WorkerEnd {
            rest: log.into_piece(place),
            share,
            source,
            sender: NoSender,
            filing,
            fault,
        }
    }
}

/// Sends what some receipts let out for clients.
fn send_all<S: Source>(source: &mut S, receipts: &[Receipt])
    ensures given { Moves S.tells S.gave source.old source.new [] }
    ensures passed { Moves S.told S.passed source.old source.new (sends_of receipts.now) }
    ensures failures { S.failures source.new ≡ S.failures source.old }
    ensures line { S.line source.new ≡ S.line source.old }
{
    for receipt in receipts {
        send_outs(source, receipt.outs());
    }
}

fn send_outs<S: Source>(source: &mut S, outs: &[Out])
    ensures given { Moves S.tells S.gave source.old source.new [] }
    ensures passed { Moves S.told S.passed source.old source.new (sends_in outs.now) }
    ensures failures { S.failures source.new ≡ S.failures source.old }
    ensures line { S.line source.new ≡ S.line source.old }
{
    for out in outs {
        send_out(source, out);
    }
}

fn send_out<S: Source>(source: &mut S, out: &Out)
    ensures given { Moves S.tells S.gave source.old source.new [] }
    ensures passed { Moves S.told S.passed source.old source.new (sends_in (out.now ∷ [])) }
    ensures failures { S.failures source.new ≡ S.failures source.old }
    ensures line { S.line source.new ≡ S.line source.old }
{
    match out {
        Out::Send(to, datagram) => source.send(*to, datagram),
        Out::Wire(_) => {}
        Out::Note(_) => {}
    }
}

/// Turn after turn, until one is the last. What the worker has of its trail then is handed off, too.
pub fn work<R: Wait, S: Source, F: Filing<Piece>, G: Gate>(
    rt: &R,
    alloc: Global,
    desk: &Mutex<Desk>,
    share: Share,
    source: S,
    filing: F,
    gate: &G,
) -> WorkerEnd<S, NoSender, F>
    ensures ended { HasEnded S.tells S.gave S.failures S.has_ended S.told S.passed F.tells F.took
        F.handed_back source source share filing (G.may_stop gate.now) result.source result.source
        result.share result.filing result.rest result.fault }
    ensures line { Grown (S.line source) (S.line result.source) }
{
    let log = Log::new(alloc, share.tag());
    let mut worker = SourceWorker {
        source,
        hand: Hand { share, log },
        filer: Filer { filing, place: 0 },
    };
    for _ in rt.forever() {
        if let Next::Over(fault) = worker.turn(rt, desk, gate) {
            return worker.ended(gate, fault);
        }
    }
    unreachable!()
}
