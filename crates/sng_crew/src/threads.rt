//! All workers at once, each on a thread of its own.
ghost use Rattle.std.specs.Prelude.{◌≡◌, ◌<◌, ℕ, IfOk, length, slice_index_or};
ghost use Rattle.sng_desk.specs.declared.ending.NoSender.{NoSender as no_sender};
ghost use Rattle.sng_desk.specs.declared.ending.WorkerEnd.{WorkerEnd as end_type};
ghost use Rattle.sng_crew.specs.declared.post.Post.{Post as post_type};
ghost use Rattle.sng_crew.specs.Running.{UdpEnded, TickerEnded, LoaderEnded};
ghost use Rattle.sng_crew.specs.Turning.{HasEnded};

use crate::connection::Upstream;
use crate::post::{BrokerPost, Post};
use crate::starting::{halted, start_all, start_loader, start_ticker, start_upstream};
use sng_desk::{
    Beats, ClockPost, Datagrams, Desk, Filing, Gate, NoSender, Piece, Policies, TickerEnd, Volume,
    WorkerEnd,
};
use std::alloc::Global;
use std::sync::{Mutex, Wait};
use std::thread;
use std::thread::Threads;
use thiserror::Error;

/// All workers of a gateway.
#[derive(Drop)]
pub struct Crew<D, U, B, P, F, V> {
    /// Those at datagrams, one at least.
    pub udp: Vec<Post<D, F>>,
    /// The one at the connection to the broker.
    pub upstream: BrokerPost<U, D, F>,
    /// The one at a clock.
    pub ticker: ClockPost<B, D, F, V>,
    /// The one at policies.
    pub policies: Post<P, F>,
}

/// What all workers left.
#[derive(Drop)]
pub struct Ended<D, U, B, P, F, V> {
    /// Those at datagrams, in the order of their posts.
    pub udp: Vec<WorkerEnd<D, NoSender, F>>,
    /// The one at the connection to the broker.
    pub upstream: WorkerEnd<U, D, F>,
    /// The one at a clock.
    pub ticker: TickerEnd<B, D, F, V>,
    /// The one at policies.
    pub policies: WorkerEnd<P, NoSender, F>,
}

/// A thread, or the memory for it, was refused. All that was handed in is dropped.
#[derive(Clone, Copy, Debug, PartialEq, Eq, Error)]
#[error("a thread could not be started")]
pub struct NotStarted;

/// Runs all workers on threads of their own, and joins them. Where a thread is refused, the gate is told to
/// halt, and the refusal is answered once those that were started have ended.
pub fn run_workers<
    R: Threads + Wait + Sync,
    D: Datagrams + Send,
    U: Upstream + Send,
    B: Beats + Send,
    P: Policies + Send,
    F: Filing<Piece> + Send,
    V: Filing<Volume> + Send,
    G: Gate + Sync,
>(
    rt: &R,
    alloc: Global,
    desk: &Mutex<Desk>,
    crew: Crew<D, U, B, P, F, V>,
    gate: &G,
) -> Result<Ended<D, U, B, P, F, V>, NotStarted>
    ensures len { IfOk result (λ ends. length ends.udp.items ≡ length crew.udp.items) }
    ensures udp { IfOk result (λ ends. (k : ℕ) (p : post_type D F)
        (e : end_type D no_sender F)
        → k < length crew.udp.items
        → UdpEnded D.tells D.gave D.failures D.has_ended D.passed F.tells F.took F.handed_back
        (slice_index_or crew.udp.items k p).source (slice_index_or crew.udp.items k p).share
        (slice_index_or crew.udp.items k p).filing (G.may_stop gate.now)
        (slice_index_or ends.udp.items k e)) }
    ensures upstream { IfOk result (λ ends. HasEnded U.tells U.did D.tells D.passed U.has_ended F.tells F.took
        F.handed_back crew.upstream.terms crew.upstream.source crew.upstream.sender crew.upstream.share
        crew.upstream.filing (G.may_stop gate.now) ends.upstream) }
    ensures ticker { IfOk result (λ ends. TickerEnded B.tells B.gave B.failures B.has_ended D.tells D.passed
        F.tells F.took F.handed_back V.tells V.took V.handed_back crew.ticker (G.may_stop gate.now)
        ends.ticker) }
    ensures policies { IfOk result (λ ends. LoaderEnded P.tells P.gave P.failures P.has_ended F.tells F.took
        F.handed_back crew.policies.source crew.policies.share crew.policies.filing (G.may_stop gate.now)
        ends.policies) }
{
    let may_stop = gate.stops();
    let Crew {
        udp,
        upstream,
        ticker,
        policies,
    } = crew;
    thread::scope(
        thread::scope_env(),
        rt,
        |scope| -> Result<Ended<D, U, B, P, F, V>, NotStarted>
            requires { may_stop ≡ G.may_stop gate.now }
            ensures len { IfOk result (λ ends. length ends.udp.items ≡ length udp.items) }
            ensures udp { IfOk result (λ ends. (k : ℕ) (p : post_type D F)
                (e : end_type D no_sender F)
                → k < length udp.items
                → UdpEnded D.tells D.gave D.failures D.has_ended D.passed F.tells F.took F.handed_back
                (slice_index_or udp.items k p).source (slice_index_or udp.items k p).share
                (slice_index_or udp.items k p).filing may_stop (slice_index_or ends.udp.items k e)) }
            ensures upstream { IfOk result (λ ends. HasEnded U.tells U.did D.tells D.passed U.has_ended
                F.tells F.took F.handed_back upstream.terms upstream.source upstream.sender upstream.share
                upstream.filing may_stop ends.upstream) }
            ensures ticker { IfOk result (λ ends. TickerEnded B.tells B.gave B.failures B.has_ended D.tells
                D.passed F.tells F.took F.handed_back V.tells V.took V.handed_back ticker may_stop
                ends.ticker) }
            ensures policies { IfOk result (λ ends. LoaderEnded P.tells P.gave P.failures P.has_ended
                F.tells F.took F.handed_back policies.source policies.share policies.filing may_stop
                ends.policies) }
        {
            let handles = start_all(scope, rt, alloc, desk, udp, gate, may_stop)?;
            let up = start_upstream(scope, rt, alloc, desk, upstream, gate, may_stop)?;
            let tick = start_ticker(scope, rt, alloc, desk, ticker, gate, may_stop)?;
            let load = start_loader(scope, rt, alloc, desk, policies, gate, may_stop)?;
            let upstream = up.join(rt);
            let ticker = tick.join(rt);
            let policies = load.join(rt);
            match thread::join_promised(rt, handles) {
                Ok(udp) => Ok(Ended {
                    udp,
                    upstream,
                    ticker,
                    policies,
                }),
                Err(_) => Err(halted(gate)),
            }
        },
    )
}
