//! The worker at the connection to the broker. Before a turn it hands off a piece of its trail where the gate
//! says so. A turn of it is `Gate::before`, one try to connect with its first packet, or one read with an act
//! for each packet that it completes, then Take; then the wires of the turn's receipts are written until a
//! write fails, and its datagrams are sent.
ghost use Rattle.std.specs.Prelude.{◌≡◌, ◌≤◌, true};
ghost use Rattle.sng_desk.specs.Sights.{Share as share_sight};
ghost use Rattle.sng_desk.specs.Pieces.{HandsOff, IsLeft, piece_of};
ghost use Rattle.sng_crew.specs.Turning.{Below, Going, HasEnded, NextFor, Taken, Went, is_connected, may_try};

use crate::answering::{answer, down};
use crate::connection::{Opening, Stage, Terms, Upstream};
use crate::hearing::{Fed, hear};
use crate::limits::MAX_TURN_EVENTS;
use crate::passing::{send_all, settle, settle_bytes};
use crate::post::BrokerPost;
use crate::stages::{TurnEnd, has_given_up, stage_next};
use mqtt_frames::Stream;
use sng_desk::{
    Datagrams, Desk, Filer, Filing, Gate, Hand, Log, Next, Piece, Share, WorkerEnd, WorkerFault,
};
use std::alloc::Global;
use std::sync::{Mutex, Wait};

/// The worker at the connection, between two turns.
#[derive(Drop)]
struct BrokerWorker<U, D, F> {
    up: U,
    sink: D,
    stage: Stage,
    stream: Stream,
    hand: Hand,
    filer: Filer<F>,
}

impl<U: Upstream, D: Datagrams, F: Filing<Piece>> BrokerWorker<U, D, F> {
    /// A turn at a connection: one ask, an act for each event, and then what goes out.
    fn listen<R: Wait, G: Gate>(
        &mut self,
        rt: &R,
        alloc: Global,
        desk: &Mutex<Desk>,
        gate: &G,
        terms: &Terms,
    )
        requires connected { is_connected self.old.stage ≡ true }
        requires below { Below terms.now.tries self.old.stage }
        requires room { MAX_TURN_EVENTS ≤ self.old.hand.log.spare }
        ensures taken { Taken U.tells U.did D.tells D.passed terms.now self.old.up self.old.sink
            self.old.stage self.old.stream self.old.hand.log.trail self.old.hand.share self.new.up
            self.new.sink self.new.stage self.new.stream self.new.hand.log.trail self.new.hand.share }
        ensures below { Below terms.now.tries self.new.stage }
        ensures filer { self.new.filer ≡ self.old.filer }
    {
        let from = self.hand.log.count();
        let Fed { packets, broken } = hear(alloc, &mut self.up, &mut self.stream);
        let said = answer(&mut self.hand, rt, desk, gate, self.stage, packets, broken);
        let close = settle(&mut self.up, self.hand.log.receipts_from(from), said.stays);
        let told = down(&mut self.hand, rt, desk, gate, close, said.up);
        send_all(&mut self.sink, self.hand.log.receipts_from(from));
        let turn = TurnEnd {
            close,
            opened: false,
            greeted: said.greeted,
            up: said.up,
            told,
        };
        self.stage = stage_next(self.stage, turn, terms.tries);
    }

    /// A turn without a connection: one try, and its first packet. The answer is that no further connection
    /// comes.
    fn open(&mut self, alloc: Global, terms: &Terms) -> bool
        requires away { may_try terms.now.tries self.old.stage ≡ true }
        requires below { Below terms.now.tries self.old.stage }
        ensures taken { Taken U.tells U.did D.tells D.passed terms.now self.old.up self.old.sink
            self.old.stage self.old.stream self.old.hand.log.trail self.old.hand.share self.new.up
            self.new.sink self.new.stage self.new.stream self.new.hand.log.trail self.new.hand.share }
        ensures below { Below terms.now.tries self.new.stage }
        ensures ended { result ≡ true → U.has_ended self.new.up ≡ true }
        ensures filer { self.new.filer ≡ self.old.filer }
    {
        match self.up.connect() {
            Opening::NoneLeft => true,
            Opening::Missed => {
                let close = settle_bytes(&mut self.up, &[], false);
                self.stage = stage_next(self.stage, TurnEnd::of_try(close, false), terms.tries);
                false
            }
            Opening::Made => {
                self.stream = Stream::new(alloc);
                let close = settle_bytes(&mut self.up, terms.greeting.as_slice(), true);
                self.stage = stage_next(self.stage, TurnEnd::of_try(close, true), terms.tries);
                false
            }
        }
    }

    /// One turn, or none where the last one was the last. A piece of the trail is handed off first where the
    /// gate says so.
    fn turn<R: Wait, G: Gate>(
        &mut self,
        rt: &R,
        alloc: Global,
        desk: &Mutex<Desk>,
        gate: &G,
        terms: &Terms,
    ) -> Next
        requires { Below terms.now.tries self.old.stage }
        ensures going { (up : U) (sink : D) (share : share_sight) (filing : F)
            → Going U.tells U.did D.tells D.passed F.tells F.took terms.now up sink share filing
            self.old.stage self.old.stream self.old.up self.old.sink self.old.hand.share self.old.filer.filing
            (piece_of self.old.filer.place self.old.hand.log.trail)
            → Going U.tells U.did D.tells D.passed F.tells F.took terms.now up sink share filing
            self.new.stage self.new.stream self.new.up self.new.sink self.new.hand.share self.new.filer.filing
            (piece_of self.new.filer.place self.new.hand.log.trail) }
        ensures over { NextFor terms.now.tries result self.new.stage (U.has_ended self.new.up)
            (G.may_stop gate.now) self.new.hand.log.trail }
        ensures below { Below terms.now.tries self.new.stage }
    {
        if self.hand.log.is_full() {
            return Next::Over(Some(WorkerFault::BookFull));
        }
        self.filer.offer(gate, &mut self.hand.log);
        self.go(rt, alloc, desk, gate, terms)
    }

    /// One turn, unless the last one was the last, the gate says that the worker is to end, or there is no
    /// memory for the turn.
    fn go<R: Wait, G: Gate>(
        &mut self,
        rt: &R,
        alloc: Global,
        desk: &Mutex<Desk>,
        gate: &G,
        terms: &Terms,
    ) -> Next
        requires { Below terms.now.tries self.old.stage }
        ensures went { Went U.tells U.did D.tells D.passed terms.now self.old.up self.old.sink self.old.stage
            self.old.stream self.old.hand.log.trail self.old.hand.share self.new.up self.new.sink
            self.new.stage self.new.stream self.new.hand.log.trail self.new.hand.share }
        ensures filer { self.new.filer ≡ self.old.filer }
        ensures over { NextFor terms.now.tries result self.new.stage (U.has_ended self.new.up)
            (G.may_stop gate.now) self.new.hand.log.trail }
        ensures below { Below terms.now.tries self.new.stage }
    {
        if let Stage::Fallen = self.stage {
            return Next::Over(Some(WorkerFault::Refused));
        }
        if has_given_up(self.stage, terms.tries) {
            return Next::Over(Some(WorkerFault::GaveUp));
        }
        if !gate.before(self.hand.log.by()) {
            return Next::Over(None);
        }
        if self.hand.log.room(MAX_TURN_EVENTS).is_err() {
            gate.short(self.hand.log.by());
            return Next::On;
        }
        if let Stage::Away(_) = self.stage {
            if self.open(alloc, terms) {
                return Next::Over(None);
            }
            return Next::On;
        }
        self.listen(rt, alloc, desk, gate, terms);
        Next::On
    }

    /// What the worker leaves, once it has handed off what it has of its trail.
    fn ended<G: Gate>(self, gate: &G, fault: Option<WorkerFault>) -> WorkerEnd<U, D, F>
        ensures off { HandsOff F.tells F.took self.filer.filing
            (piece_of self.filer.place self.hand.log.trail) result.filing result.rest }
        ensures left { IsLeft result.rest (F.handed_back result.filing) }
        ensures same { (result.source ≡ self.up) × (result.sender ≡ self.sink)
            × (result.share ≡ self.hand.share) × (result.fault ≡ fault) }
    {
        let BrokerWorker {
            up,
            sink,
            stage: _,
            stream: _,
            hand,
            mut filer,
        } = self;
        let Hand { share, mut log } = hand;
        filer.hand_off(&mut log);
        gate.over(share.tag(), fault);
        let Filer { filing, place } = filer;
        WorkerEnd {
            rest: log.into_piece(place),
            share,
            source: up,
            sender: sink,
            filing,
            fault,
        }
    }
}

/// A worker at the connection to the broker.
pub fn upstream_worker<R: Wait, U: Upstream, D: Datagrams, F: Filing<Piece>, G: Gate>(
    rt: &R,
    alloc: Global,
    desk: &Mutex<Desk>,
    post: BrokerPost<U, D, F>,
    gate: &G,
) -> WorkerEnd<U, D, F>
    ensures { HasEnded U.tells U.did D.tells D.passed U.has_ended F.tells F.took F.handed_back post.terms
        post.source post.sender post.share post.filing (G.may_stop gate.now) result }
{
    let BrokerPost {
        share,
        source,
        sender,
        filing,
        terms,
    } = post;
    let log = Log::new(alloc, share.tag());
    let mut worker = BrokerWorker {
        up: source,
        sink: sender,
        stage: Stage::Away(0),
        stream: Stream::new(alloc),
        hand: Hand { share, log },
        filer: Filer { filing, place: 0 },
    };
    for _ in rt.forever() {
        if let Next::Over(fault) = worker.turn(rt, alloc, desk, gate, &terms) {
            return worker.ended(gate, fault);
        }
    }
    unreachable!()
}
