//! The workers at datagrams, at a clock and at policies. A turn of each hands off a piece of its trail where
//! the gate says so; then it is `Gate::before`, one ask of its source, one act, `Gate::after`, and then what
//! the act lets out for clients is sent. The worker at a clock then cuts the book where it has grown enough,
//! and hands the volume off.
ghost use Rattle.std.specs.Prelude.{[], false, vec_len};
ghost use Rattle.sng_desk.specs.Pieces.{CutOut, Waits};
ghost use Rattle.sng_desk.specs.Sources.{datagram_events, tick_events, replace_events};
ghost use Rattle.sng_desk.specs.Working.{HasEnded};

use crate::cutting::Cuts;
use crate::desk::{Desk, Share};
use crate::ending::{NoSender, TickerEnd, WorkerEnd};
use crate::events::{Clock, Devices, Loader};
use crate::filing::Filing;
use crate::gate::Gate;
use crate::piece::Piece;
use crate::post::ClockPost;
use crate::source::{Beats, Datagrams, Policies};
use crate::volume::Volume;
use crate::working::work;
use std::alloc::Global;
use std::sync::{Mutex, Wait};

/// A worker at a source of datagrams, by which it sends.
pub fn udp_worker<R: Wait, D: Datagrams, F: Filing<Piece>, G: Gate>(
    rt: &R,
    alloc: Global,
    desk: &Mutex<Desk>,
    share: Share,
    source: D,
    filing: F,
    gate: &G,
) -> WorkerEnd<D, NoSender, F>
    ensures { HasEnded D.tells (λ d. datagram_events (D.gave d)) D.failures D.has_ended D.tells D.passed
        F.tells F.took F.handed_back source source share filing (G.may_stop gate.now) result.source
        result.source result.share result.filing result.rest result.fault }
{
    let source = Devices { datagrams: source };
    let WorkerEnd {
        rest,
        share,
        source,
        sender,
        filing,
        fault,
    } = work(rt, alloc, desk, share, source, filing, gate);
    let Devices { datagrams } = source;
    WorkerEnd {
        rest,
        share,
        source: datagrams,
        sender,
        filing,
        fault,
    }
}

/// A worker at a clock. After each beat it cuts the book where its open volume has so many rows, and hands
/// the volume off. Where another cut the book, so that the open volume begins elsewhere, it cuts no more.
pub fn ticker<R: Wait, B: Beats, D: Datagrams, F: Filing<Piece>, V: Filing<Volume>, G: Gate>(
    rt: &R,
    alloc: Global,
    desk: &Mutex<Desk>,
    post: ClockPost<B, D, F, V>,
    gate: &G,
) -> TickerEnd<B, D, F, V>
    ensures ended { HasEnded B.tells (λ b. tick_events (B.gave b)) B.failures B.has_ended D.tells D.passed
        F.tells F.took F.handed_back post.source post.sender post.share post.filing (G.may_stop gate.now)
        result.worker.source result.worker.sender result.worker.share result.worker.filing result.worker.rest
        result.worker.fault }
    ensures volumes { CutOut V.tells V.took post.first post.rows post.volume_filing result.volume_filing
        result.volumes.items }
    ensures left { Waits (vec_len result.volumes) (V.handed_back result.volume_filing) }
{
    let ClockPost {
        share,
        source,
        sender,
        filing,
        first,
        rows,
        volume_filing,
    } = post;
    let source = Clock {
        beats: source,
        sender,
        cuts: Cuts::new(alloc, first, rows, volume_filing),
    };
    let WorkerEnd {
        rest,
        share,
        source,
        sender: _,
        filing,
        fault,
    } = work(rt, alloc, desk, share, source, filing, gate);
    let Clock {
        beats,
        sender,
        cuts,
    } = source;
    let (volumes, volume_filing) = cuts.over();
    TickerEnd {
        worker: WorkerEnd {
            rest,
            share,
            source: beats,
            sender,
            filing,
            fault,
        },
        volumes,
        volume_filing,
    }
}

/// A worker at a source of policies. It sends nothing.
pub fn policy_worker<R: Wait, P: Policies, F: Filing<Piece>, G: Gate>(
    rt: &R,
    alloc: Global,
    desk: &Mutex<Desk>,
    share: Share,
    source: P,
    filing: F,
    gate: &G,
) -> WorkerEnd<P, NoSender, F>
    ensures { HasEnded P.tells (λ p. replace_events (P.gave p)) P.failures P.has_ended (λ p. false) (λ p. [])
        F.tells F.took F.handed_back source source share filing (G.may_stop gate.now) result.source
        result.source result.share result.filing result.rest result.fault }
{
    let source = Loader { policies: source };
    let WorkerEnd {
        rest,
        share,
        source,
        sender,
        filing,
        fault,
    } = work(rt, alloc, desk, share, source, filing, gate);
    let Loader { policies } = source;
    WorkerEnd {
        rest,
        share,
        source: policies,
        sender,
        filing,
        fault,
    }
}
