//! A REGACK and a PUBACK of a client (MQTT-SN 1.2, 5.4.11, 5.4.13, 6.5, 6.6 and 6.10): it ends what is open,
//! and what waits is handed over. What is let out is planned first, and what changes cannot fail.
ghost use Rattle.std.specs.Prelude.{◌≡◌, ◌<◌, ◌≤◌, ◌++◌, [], length, if◌then◌else◌, IfOk, OnOk, OnErr};
ghost use Rattle.sng_history.specs.Clients.{is_confirming, is_acknowledging};
ghost use Rattle.sng_history.specs.Handing.{answers_sent};
ghost use Rattle.sng_sessions.specs.Handed.{answered};
ghost use Rattle.sng_sessions.specs.Moving.{moved_at};
ghost use Rattle.sng_turns.specs.Serving.{more_by, first_by};
ghost use Rattle.sng_core.specs.Forms.{client_at, broken_outs, heard_at};
ghost use Rattle.sng_core.specs.Confirming.{served_outs, served_next, refusing_outs, refusing_next};
ghost use Rattle.sng_core.specs.Confirming.{confirming_outs, confirming_next, confirm_outs, confirm_next};
ghost use Rattle.sng_core.specs.Confirming.{acknowledge_outs, acknowledge_next};

use crate::messages::denied_frame;
use sng_book::{Denial, FormDenial, Outcome, Outs, OutsPair, PeerDenial};
use sng_frames::TopicAck;
use sng_policy::InForce;
use sng_queue::{Exchange, Sending};
use sng_sessions::{Change, Sessions};
use sng_turns::serve::{Settled, serve_plan};
use sng_turns::turn::note_hand;
use std::alloc::{AllocError, Global};

/// A REGACK of the client at this place: one in its turn accepts the id that was announced, or refuses it.
pub fn confirm(
    alloc: Global,
    policy: &InForce,
    clock: u64,
    answer: TopicAck,
    sessions: &mut Sessions,
    place: usize,
) -> Result<OutsPair, AllocError>
    requires { place < length sessions.old }
    ensures outs { IfOk result (λ outs. outs
        ≡ confirm_outs policy.now answer (client_at sessions.old place)) }
    ensures next { OnOk result (sessions.new
        ≡ moved_at place (confirm_next policy.now clock answer) sessions.old) }
    ensures err { OnErr result (sessions.new ≡ sessions.old) }
{
    if !is_confirming(sessions, place, answer) {
        let outs = out_of_turn(alloc, clock, sessions, place)?;
        return Ok(outs);
    }
    let none = Outs::new(alloc);
    let outs = confirm_in_turn(alloc, policy, clock, answer, sessions, place, none)?;
    Ok(outs)
}

/// A REGACK that has its turn.
fn confirm_in_turn(
    alloc: Global,
    policy: &InForce,
    clock: u64,
    answer: TopicAck,
    sessions: &mut Sessions,
    place: usize,
    outs: Outs,
) -> Result<OutsPair, AllocError>
    requires { place < length sessions.old }
    ensures outs { IfOk result (λ pair. pair ≡ outs
        ++ confirming_outs policy.now answer (client_at sessions.old place)) }
    ensures next { OnOk result (sessions.new
        ≡ moved_at place (confirming_next policy.now clock answer) sessions.old) }
    ensures err { OnErr result (sessions.new ≡ sessions.old) }
{
    if answer.code.0 == 0 {
        let settled = Settled::Id(answer.topic_id);
        let served = serve(alloc, policy, clock, sessions, place, settled, outs)?;
        Ok(served)
    } else {
        let refused = refuse(alloc, policy, clock, answer.code.0, sessions, place, outs)?;
        Ok(refused)
    }
}

/// A PUBACK of the client at this place: one in its turn ends the exchange.
pub fn acknowledge(
    alloc: Global,
    policy: &InForce,
    clock: u64,
    answer: TopicAck,
    sessions: &mut Sessions,
    place: usize,
) -> Result<OutsPair, AllocError>
    requires { place < length sessions.old }
    ensures outs { IfOk result (λ outs. outs
        ≡ acknowledge_outs policy.now answer (client_at sessions.old place)) }
    ensures next { OnOk result (sessions.new
        ≡ moved_at place (acknowledge_next policy.now clock answer) sessions.old) }
    ensures err { OnErr result (sessions.new ≡ sessions.old) }
{
    if !is_acknowledging(sessions, place, answer) {
        let outs = out_of_turn(alloc, clock, sessions, place)?;
        return Ok(outs);
    }
    let none = Outs::new(alloc);
    let outs = serve(
        alloc,
        policy,
        clock,
        sessions,
        place,
        Settled::Nothing,
        none,
    )?;
    Ok(outs)
}

/// The client at this place is heard, and what waits is handed over once this is settled.
fn serve(
    alloc: Global,
    policy: &InForce,
    clock: u64,
    sessions: &mut Sessions,
    place: usize,
    settled: Settled,
    mut outs: Outs,
) -> Result<OutsPair, AllocError>
    requires place { place < length sessions.old }
    requires first { first_by settled ≤ length (client_at sessions.old place).buffer.waiting }
    ensures outs { IfOk result (λ pair. pair ≡ outs
        ++ served_outs policy.now (more_by settled) (first_by settled) (client_at sessions.old place)) }
    ensures next { OnOk result (sessions.new
        ≡ moved_at place (served_next policy.now clock (more_by settled) (first_by settled)) sessions.old) }
    ensures err { OnErr result (sessions.new ≡ sessions.old) }
{
    let phase = sessions.phase(place);
    let handed = serve_plan(alloc, policy, phase, sessions, place, settled, &mut outs)?;
    let pair = OutsPair::of(alloc, outs)?;
    settle(settled, sessions, place, clock);
    sessions.hand(place, handed, clock);
    sessions.change(place, Change::Drains, clock);
    Ok(pair)
}

/// The client at this place is heard, its exchange is over, and it knows the id that it confirmed.
fn settle(settled: Settled, sessions: &mut Sessions, place: usize, clock: u64)
    ensures { sessions.new ≡ moved_at place (answered clock (more_by settled)) sessions.old }
{
    match settled {
        Settled::Id(id) => sessions.answer(place, id, clock),
        Settled::Nothing | Settled::Front => {
            sessions.hear(place, clock);
            sessions.change(place, Change::Closes, clock);
        }
    }
}

/// The message for which the id was announced comes out so, and what waits behind it is handed over.
fn refuse(
    alloc: Global,
    policy: &InForce,
    clock: u64,
    code: u8,
    sessions: &mut Sessions,
    place: usize,
    mut outs: Outs,
) -> Result<OutsPair, AllocError>
    requires { place < length sessions.old }
    ensures outs { IfOk result (λ pair. let x = client_at sessions.old place in pair ≡ outs
        ++ refusing_outs policy.now code x x.buffer.waiting) }
    ensures next { OnOk result (sessions.new
        ≡ moved_at place (λ x. refusing_next policy.now clock x x.buffer.waiting) sessions.old) }
    ensures err { OnErr result (sessions.new ≡ sessions.old) }
{
    let Some(front) = sessions.queue(place).at(0) else {
        let pair = OutsPair::of(alloc, outs)?;
        sessions.hear(place, clock);
        return Ok(pair);
    };
    let denied = Outcome::Denied(Denial::Peer(PeerDenial::ClientRefused(code)));
    note_hand(sessions.id(place), front.name(), denied, &mut outs)?;
    let served = serve(alloc, policy, clock, sessions, place, Settled::Front, outs)?;
    Ok(served)
}

/// It is noted, and its client is heard.
fn out_of_turn(
    alloc: Global,
    clock: u64,
    sessions: &mut Sessions,
    place: usize,
) -> Result<OutsPair, AllocError>
    requires { place < length sessions.old }
    ensures outs { IfOk result (λ outs. outs ≡ broken_outs (Denial.Form FormDenial.OutOfTurn)
        (client_at sessions.old place)) }
    ensures next { OnOk result (sessions.new ≡ moved_at place (heard_at clock) sessions.old) }
    ensures err { OnErr result (sessions.new ≡ sessions.old) }
{
    let outs = denied_frame(alloc, sessions, place, Denial::Form(FormDenial::OutOfTurn))?;
    sessions.hear(place, clock);
    Ok(outs)
}

/// Whether the client takes messages, and the REGACK answers the announcement that is open.
fn is_confirming(sessions: &Sessions, place: usize, answer: TopicAck) -> bool
    requires { place < length sessions.now }
    ensures { result ≡ is_confirming answer (client_at sessions.now place) }
{
    if !sessions.phase(place).takes_messages() {
        return false;
    }
    match sessions.queue(place).exchange() {
        Some(Exchange::Announcing(sent)) => answers_sent(sent, answer),
        Some(Exchange::Acknowledging(_, _, _)) => false,
        None => false,
    }
}

fn answers_sent(sent: &Sending, answer: TopicAck) -> bool
    ensures { result ≡ answers_sent sent.now answer }
{
    sent.topic_id == answer.topic_id && sent.msg_id == answer.msg_id
}

/// Whether the client takes messages, and the PUBACK has the MsgId of what is open.
fn is_acknowledging(sessions: &Sessions, place: usize, answer: TopicAck) -> bool
    requires { place < length sessions.now }
    ensures { result ≡ is_acknowledging answer (client_at sessions.now place) }
{
    if !sessions.phase(place).takes_messages() {
        return false;
    }
    match sessions.queue(place).exchange() {
        Some(exchange) => exchange.sending().msg_id == answer.msg_id,
        None => false,
    }
}
