//! How each worker is started on a thread of its own, and what its thread promises.
ghost use Rattle.std.specs.Prelude.{◌≡◌, IfOk, map};
ghost use Rattle.sng_crew.specs.Running.{UdpEnded, TickerEnded, LoaderEnded};
ghost use Rattle.sng_crew.specs.Turning.{HasEnded};

use crate::connection::{Terms, Upstream};
use crate::post::{BrokerPost, Post};
use crate::threads::NotStarted;
use crate::upstream::upstream_worker;
use sng_desk::{
    Beats, ClockPost, Datagrams, Desk, Filing, Gate, NoSender, Piece, Policies, Share, TickerEnd,
    Volume, WorkerEnd, policy_worker, ticker, udp_worker,
};
use std::alloc::Global;
use std::snapshot::Snapshot;
use std::sync::{Mutex, Wait};
use std::thread::{Promise, PromisedHandle, Scope, Threads};

/// What the thread of a worker at datagrams promises: how it ended that began with these.
#[derive(Drop)]
pub struct UdpPromise<D, F> {
    source: Snapshot<D>,
    share: Snapshot<Share>,
    filing: Snapshot<F>,
    may_stop: bool,
}

impl<D: Datagrams, F: Filing<Piece>> Promise<WorkerEnd<D, NoSender, F>> for UdpPromise<D, F> {
    ghost kept_by = { λ p end. UdpEnded D.tells D.gave D.failures D.has_ended D.passed F.tells F.took
        F.handed_back p.source.value p.share.value p.filing.value p.may_stop end };
}

/// The same of the worker at the connection to the broker.
#[derive(Drop)]
pub struct UpstreamPromise<U, D, F> {
    source: Snapshot<U>,
    sender: Snapshot<D>,
    share: Snapshot<Share>,
    filing: Snapshot<F>,
    terms: Snapshot<Terms>,
    may_stop: bool,
}

impl<U: Upstream, D: Datagrams, F: Filing<Piece>> Promise<WorkerEnd<U, D, F>>
    for UpstreamPromise<U, D, F> {
    ghost kept_by = { λ p end. HasEnded U.tells U.did D.tells D.passed U.has_ended F.tells F.took
        F.handed_back p.terms.value p.source.value p.sender.value p.share.value p.filing.value p.may_stop
        end };
}

/// The same of the worker at a clock.
#[derive(Drop)]
pub struct TickerPromise<B, D, F, V> {
    post: Snapshot<ClockPost<B, D, F, V>>,
    may_stop: bool,
}

impl<B: Beats, D: Datagrams, F: Filing<Piece>, V: Filing<Volume>> Promise<TickerEnd<B, D, F, V>>
    for TickerPromise<B, D, F, V> {
    ghost kept_by = { λ p end. TickerEnded B.tells B.gave B.failures B.has_ended D.tells D.passed F.tells
        F.took F.handed_back V.tells V.took V.handed_back p.post.value p.may_stop end };
}

/// The same of the worker at policies.
#[derive(Drop)]
pub struct LoaderPromise<P, F> {
    source: Snapshot<P>,
    share: Snapshot<Share>,
    filing: Snapshot<F>,
    may_stop: bool,
}

impl<P: Policies, F: Filing<Piece>> Promise<WorkerEnd<P, NoSender, F>> for LoaderPromise<P, F> {
    ghost kept_by = { λ p end. LoaderEnded P.tells P.gave P.failures P.has_ended F.tells F.took F.handed_back
        p.source.value p.share.value p.filing.value p.may_stop end };
}

/// Where the desk is found, under its lock. The functions that start a thread know no more of it: that a desk
/// under its lock may be shared among threads is then shown once, where they are called.
pub trait Locked {
    /// The desk under its lock.
    fn desk(&self) -> &Mutex<Desk>;
}

impl Locked for Mutex<Desk> {
    fn desk(&self) -> &Mutex<Desk> {
        self
    }
}

/// What is answered where a thread, or the memory for it, was refused: the gate is told first.
pub fn halted<G: Gate>(gate: &G) -> NotStarted {
    gate.halt();
    NotStarted
}

/// Starts a worker for each post, in order.
pub fn start_all<
    's,
    E,
    R: Threads + Wait + Sync + 's,
    M: Locked + Sync + 's,
    D: Datagrams + Send + 's,
    F: Filing<Piece> + Send + 's,
    G: Gate + Sync + 's,
>(
    scope: &Scope<'s, E>,
    rt: &'s R,
    alloc: Global,
    desk: &'s M,
    posts: Vec<Post<D, F>>,
    gate: &'s G,
    may_stop: bool,
) -> Result<Vec<PromisedHandle<WorkerEnd<D, NoSender, F>, UdpPromise<D, F>>>, NotStarted>
    requires { may_stop ≡ G.may_stop gate.now }
    ensures sources { IfOk result (λ handles. map (λ h. h.promise.source.value) handles.items
        ≡ map (λ p. p.source) posts.items) }
    ensures shares { IfOk result (λ handles. map (λ h. h.promise.share.value) handles.items
        ≡ map (λ p. p.share) posts.items) }
    ensures filings { IfOk result (λ handles. map (λ h. h.promise.filing.value) handles.items
        ≡ map (λ p. p.filing) posts.items) }
    ensures stops { IfOk result (λ handles. map (λ h. h.promise.may_stop) handles.items
        ≡ map (λ p. may_stop) posts.items) }
{
    let Ok(mut handles) = Vec::with_capacity(alloc, posts.len()) else {
        return Err(halted(gate));
    };
    for post in posts {
        let handle = start_udp(scope, rt, alloc, desk, post, gate, may_stop)?;
        let Ok(()) = handles.push(handle) else {
            return Err(halted(gate));
        };
    }
    Ok(handles)
}

/// Starts a worker at datagrams.
pub fn start_udp<
    's,
    E,
    R: Threads + Wait + Sync + 's,
    M: Locked + Sync + 's,
    D: Datagrams + Send + 's,
    F: Filing<Piece> + Send + 's,
    G: Gate + Sync + 's,
>(
    scope: &Scope<'s, E>,
    rt: &'s R,
    alloc: Global,
    desk: &'s M,
    post: Post<D, F>,
    gate: &'s G,
    may_stop: bool,
) -> Result<PromisedHandle<WorkerEnd<D, NoSender, F>, UdpPromise<D, F>>, NotStarted>
    requires { may_stop ≡ G.may_stop gate.now }
    ensures { IfOk result (λ h. (h.promise.source.value ≡ post.source) × (h.promise.share.value ≡ post.share)
        × (h.promise.filing.value ≡ post.filing) × (h.promise.may_stop ≡ may_stop)) }
{
    let Post {
        share,
        source,
        filing,
    } = post;
    let promise = UdpPromise {
        source: Snapshot::of(&source),
        share: Snapshot::of(&share),
        filing: Snapshot::of(&filing),
        may_stop,
    };
    let Ok(handle) = scope.spawn_with(
        promise,
        move || -> WorkerEnd<D, NoSender, F>
            ensures { UdpEnded D.tells D.gave D.failures D.has_ended D.passed F.tells F.took F.handed_back
                source share filing (G.may_stop gate.entry.now) result }
        { udp_worker(rt, alloc, desk.desk(), share, source, filing, gate) },
    ) else {
        return Err(halted(gate));
    };
    Ok(handle)
}

/// Starts the worker at the connection to the broker.
pub fn start_upstream<
    's,
    E,
    R: Threads + Wait + Sync + 's,
    M: Locked + Sync + 's,
    U: Upstream + Send + 's,
    D: Datagrams + Send + 's,
    F: Filing<Piece> + Send + 's,
    G: Gate + Sync + 's,
>(
    scope: &Scope<'s, E>,
    rt: &'s R,
    alloc: Global,
    desk: &'s M,
    post: BrokerPost<U, D, F>,
    gate: &'s G,
    may_stop: bool,
) -> Result<PromisedHandle<WorkerEnd<U, D, F>, UpstreamPromise<U, D, F>>, NotStarted>
    requires { may_stop ≡ G.may_stop gate.now }
    ensures post { IfOk result (λ h. (h.promise.source.value ≡ post.source)
        × (h.promise.sender.value ≡ post.sender) × (h.promise.share.value ≡ post.share)
        × (h.promise.filing.value ≡ post.filing)) }
    ensures rest { IfOk result (λ h. (h.promise.terms.value ≡ post.terms) × (h.promise.may_stop ≡ may_stop)) }
{
    let promise = UpstreamPromise {
        source: Snapshot::of(&post.source),
        sender: Snapshot::of(&post.sender),
        share: Snapshot::of(&post.share),
        filing: Snapshot::of(&post.filing),
        terms: Snapshot::of(&post.terms),
        may_stop,
    };
    let Ok(handle) = scope.spawn_with(promise, move || {
        upstream_worker(rt, alloc, desk.desk(), post, gate)
    }) else {
        return Err(halted(gate));
    };
    Ok(handle)
}

/// Starts the worker at a clock.
pub fn start_ticker<
    's,
    E,
    R: Threads + Wait + Sync + 's,
    M: Locked + Sync + 's,
    B: Beats + Send + 's,
    D: Datagrams + Send + 's,
    F: Filing<Piece> + Send + 's,
    V: Filing<Volume> + Send + 's,
    G: Gate + Sync + 's,
>(
    scope: &Scope<'s, E>,
    rt: &'s R,
    alloc: Global,
    desk: &'s M,
    post: ClockPost<B, D, F, V>,
    gate: &'s G,
    may_stop: bool,
) -> Result<PromisedHandle<TickerEnd<B, D, F, V>, TickerPromise<B, D, F, V>>, NotStarted>
    requires { may_stop ≡ G.may_stop gate.now }
    ensures { IfOk result (λ h. (h.promise.post.value ≡ post) × (h.promise.may_stop ≡ may_stop)) }
{
    let promise = TickerPromise {
        post: Snapshot::of(&post),
        may_stop,
    };
    let Ok(handle) = scope.spawn_with(
        promise,
        move || -> TickerEnd<B, D, F, V>
            ensures { TickerEnded B.tells B.gave B.failures B.has_ended D.tells D.passed F.tells F.took
                F.handed_back V.tells V.took V.handed_back post (G.may_stop gate.entry.now) result }
        { ticker(rt, alloc, desk.desk(), post, gate) },
    ) else {
        return Err(halted(gate));
    };
    Ok(handle)
}

/// Starts the worker at policies.
pub fn start_loader<
    's,
    E,
    R: Threads + Wait + Sync + 's,
    M: Locked + Sync + 's,
    P: Policies + Send + 's,
    F: Filing<Piece> + Send + 's,
    G: Gate + Sync + 's,
>(
    scope: &Scope<'s, E>,
    rt: &'s R,
    alloc: Global,
    desk: &'s M,
    post: Post<P, F>,
    gate: &'s G,
    may_stop: bool,
) -> Result<PromisedHandle<WorkerEnd<P, NoSender, F>, LoaderPromise<P, F>>, NotStarted>
    requires { may_stop ≡ G.may_stop gate.now }
    ensures { IfOk result (λ h. (h.promise.source.value ≡ post.source) × (h.promise.share.value ≡ post.share)
        × (h.promise.filing.value ≡ post.filing) × (h.promise.may_stop ≡ may_stop)) }
{
    let Post {
        share,
        source,
        filing,
    } = post;
    let promise = LoaderPromise {
        source: Snapshot::of(&source),
        share: Snapshot::of(&share),
        filing: Snapshot::of(&filing),
        may_stop,
    };
    let Ok(handle) = scope.spawn_with(
        promise,
        move || -> WorkerEnd<P, NoSender, F>
            ensures { LoaderEnded P.tells P.gave P.failures P.has_ended F.tells F.took F.handed_back source
                share filing (G.may_stop gate.entry.now) result }
        { policy_worker(rt, alloc, desk.desk(), share, source, filing, gate) },
    ) else {
        return Err(halted(gate));
    };
    Ok(handle)
}
