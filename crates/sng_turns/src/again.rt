//! What a client did not answer in time is sent again (MQTT-SN 1.2, 6.13): its message is judged by the
//! policy in force, and denied, the exchange is over, and what waits behind it is handed over.
ghost use Rattle.std.specs.Prelude.{◌≡◌, ◌<◌, ◌≤◌, ◌∷◌, ◌++◌, [], length, IfOk, OnOk};
ghost use Rattle.sng_history.specs.Ticking.{is_repeating};
ghost use Rattle.sng_sessions.specs.Standing.{client_at};
ghost use Rattle.sng_turns.specs.Again.{exchange_outs, exchange_comes, announced_outs, announced_comes};
ghost use Rattle.sng_turns.specs.Again.{announced_by, announced_to, handed_outs_by, handed_to};
ghost use Rattle.sng_turns.specs.Again.{handed_again_outs, handed_again_comes, retried_clients};

use crate::serve::{Settled, serve_plan};
use crate::turn::{note_hand, repeat_publish, repeat_register};
use sng_book::{Decision, Out, Outcome, Outs};
use sng_history::receive;
use sng_policy::InForce;
use sng_queue::{Exchange, Sending, TopicIdKind, Waiting};
use sng_sessions::{Change, Handed, Sessions, is_unanswered};
use sng_text::TopicName;
use std::alloc::{AllocError, Global};

/// What comes of an exchange that was not answered in time.
#[derive(Debug, Drop)]
pub enum Retried {
    /// Nothing.
    Nothing,
    /// Its frame was sent again.
    Sent,
    /// It is over, and this much is handed over behind it.
    Over(Handed),
}

/// Whether the client at this place takes messages, and did not answer in time what is open with it. Takes no
/// memory.
pub fn is_repeating(sessions: &Sessions, place: usize, clock: u64) -> bool
    requires { place < length sessions.now }
    ensures { result ≡ is_repeating clock (client_at sessions.now place) }
{
    sessions.phase(place).takes_messages() && is_unanswered(sessions.queue(place), clock)
}

/// The REGISTER of the front, which was not answered in time.
#[derive(Clone, Copy)]
struct Announced<'a> {
    sent: &'a Sending,
    front: &'a Waiting,
}

/// A PUBLISH that was not answered in time.
#[derive(Clone, Copy)]
struct Unacknowledged<'a> {
    sent: &'a Sending,
    kind: TopicIdKind,
    message: &'a Waiting,
}

/// What is let out for what is open with the client at this place and was not answered in time.
pub fn again(
    alloc: Global,
    policy: &InForce,
    sessions: &Sessions,
    place: usize,
    outs: &mut Outs,
) -> Result<Retried, AllocError>
    requires { place < length sessions.now }
    ensures outs { OnOk result (let x = client_at sessions.now place in
        outs.new ≡ outs.old ++ exchange_outs policy.now x x.buffer.exchange) }
    ensures comes { IfOk result (λ retried. let x = client_at sessions.now place in
        retried ≡ exchange_comes policy.now x x.buffer.exchange) }
{
    match sessions.queue(place).exchange() {
        Some(Exchange::Announcing(sent)) => announced_again(
            alloc, policy, sessions, place, sent, outs,
        ),
        Some(Exchange::Acknowledging(sent, kind, message)) => {
            let kind = *kind;
            let open = Unacknowledged {
                sent,
                kind,
                message,
            };
            handed_again(alloc, policy, sessions, place, open, outs)
        }
        None => Ok(Retried::Nothing),
    }
}

/// An id was announced for the front.
fn announced_again(
    alloc: Global,
    policy: &InForce,
    sessions: &Sessions,
    place: usize,
    sent: &Sending,
    outs: &mut Outs,
) -> Result<Retried, AllocError>
    requires { place < length sessions.now }
    ensures outs { OnOk result (let x = client_at sessions.now place in
        outs.new ≡ outs.old ++ announced_outs policy.now x sent.now x.buffer.waiting) }
    ensures comes { IfOk result (λ retried. let x = client_at sessions.now place in
        retried ≡ announced_comes policy.now x x.buffer.waiting) }
{
    let Some(front) = sessions.queue(place).at(0) else {
        return Ok(Retried::Nothing);
    };
    let outcome = receive(alloc, policy, sessions.id(place), front.name())?;
    let open = Announced { sent, front };
    announced_judged(alloc, policy, sessions, place, open, outcome, outs)
}

/// The front, for which an id was announced, is judged so.
fn announced_judged(
    alloc: Global,
    policy: &InForce,
    sessions: &Sessions,
    place: usize,
    open: Announced<'_>,
    outcome: Outcome,
    outs: &mut Outs,
) -> Result<Retried, AllocError>
    requires place { place < length sessions.now }
    requires first { 1 ≤ length (client_at sessions.now place).buffer.waiting }
    ensures outs { OnOk result (outs.new ≡ outs.old ++ announced_by policy.now
        (client_at sessions.now place) open.entry.sent.now open.entry.front.now outcome) }
    ensures comes { IfOk result (λ retried. retried
        ≡ announced_to policy.now (client_at sessions.now place) outcome) }
{
    let name = open.front.name();
    match outcome {
        Outcome::Allowed => {
            note_retry(sessions, place, name, Outcome::Allowed, outs)?;
            outs.push(repeat_register(alloc, sessions.address(place), open.sent, name)?)?;
            Ok(Retried::Sent)
        }
        Outcome::Denied(rule) => {
            note_hand(sessions.id(place), name, Outcome::Denied(rule), outs)?;
            let phase = sessions.phase(place);
            let handed = serve_plan(alloc, policy, phase, sessions, place, Settled::Front, outs)?;
            Ok(Retried::Over(handed))
        }
    }
}

/// A message was handed over.
fn handed_again(
    alloc: Global,
    policy: &InForce,
    sessions: &Sessions,
    place: usize,
    open: Unacknowledged<'_>,
    outs: &mut Outs,
) -> Result<Retried, AllocError>
    requires { place < length sessions.now }
    ensures outs { OnOk result (outs.new ≡ outs.old ++ handed_again_outs policy.now
        (client_at sessions.now place) open.entry.sent.now open.entry.kind open.entry.message.now) }
    ensures comes { IfOk result (λ retried. retried
        ≡ handed_again_comes policy.now (client_at sessions.now place) open.entry.message.now) }
{
    let outcome = receive(alloc, policy, sessions.id(place), open.message.name())?;
    handed_judged(alloc, policy, sessions, place, open, outcome, outs)
}

/// A message that was handed over is judged so.
fn handed_judged(
    alloc: Global,
    policy: &InForce,
    sessions: &Sessions,
    place: usize,
    open: Unacknowledged<'_>,
    outcome: Outcome,
    outs: &mut Outs,
) -> Result<Retried, AllocError>
    requires { place < length sessions.now }
    ensures outs { OnOk result (outs.new ≡ outs.old ++ handed_outs_by policy.now
        (client_at sessions.now place) open.entry.sent.now open.entry.kind open.entry.message.now outcome) }
    ensures comes { IfOk result (λ retried. retried
        ≡ handed_to policy.now (client_at sessions.now place) outcome) }
{
    let Unacknowledged {
        sent,
        kind,
        message,
    } = open;
    match outcome {
        Outcome::Allowed => {
            note_retry(sessions, place, message.name(), Outcome::Allowed, outs)?;
            outs.push(repeat_publish(alloc, sessions.address(place), sent, kind, message)?)?;
            Ok(Retried::Sent)
        }
        Outcome::Denied(rule) => {
            note_retry(sessions, place, message.name(), Outcome::Denied(rule), outs)?;
            let phase = sessions.phase(place);
            let handed = serve_plan(
                alloc,
                policy,
                phase,
                sessions,
                place,
                Settled::Nothing,
                outs,
            )?;
            Ok(Retried::Over(handed))
        }
    }
}

/// The note of how what is sent again came out.
fn note_retry(
    sessions: &Sessions,
    place: usize,
    name: &TopicName,
    outcome: Outcome,
    outs: &mut Outs,
) -> Result<(), AllocError>
    requires { place < length sessions.now }
    ensures { OnOk result (outs.new ≡ outs.old
        ++ Out.Note (Decision.Retry (client_at sessions.now place).id name.now outcome) ∷ []) }
{
    let note = Decision::Retry(sessions.id(place).copy()?, name.copy()?, outcome);
    outs.push(Out::Note(note))?;
    Ok(())
}

/// What came of it is carried out. Takes no memory.
pub fn carry_again(retried: Retried, sessions: &mut Sessions, place: usize, clock: u64)
    ensures { sessions.new ≡ retried_clients clock place retried sessions.old }
{
    match retried {
        Retried::Nothing => {}
        Retried::Sent => sessions.change(place, Change::Repeats, clock),
        Retried::Over(handed) => {
            sessions.change(place, Change::Closes, clock);
            sessions.hand(place, handed, clock);
            sessions.change(place, Change::Drains, clock);
        }
    }
}
