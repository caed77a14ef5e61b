//! What a client states of its will: WILLTOPIC and WILLMSG in the dialogue behind its CONNECT, and the
//! updates later (MQTT-SN 1.2, 5.4.6 to 5.4.9, 5.4.22 to 5.4.25, 6.3 and 6.4). What is let out is planned
//! first, and what changes cannot fail.
ghost use Rattle.std.specs.Prelude.{◌≡◌, ◌<◌, ◌∷◌, ◌++◌, [], length, IfOk, OnOk, OnErr};
ghost use Rattle.sng_book.specs.Denials.{is_allowed};
ghost use Rattle.sng_sessions.specs.Moving.{moved_at};
ghost use Rattle.sng_core.specs.Forms.{client_at, heard_at};
ghost use Rattle.sng_core.specs.Stating.{said, IsRead, is_of_dialogue, is_last, answer_of, statement_judged};
ghost use Rattle.sng_core.specs.Stating.{kept_outs, kept_plan, kept_next, refused_outs, refused_next};
ghost use Rattle.sng_core.specs.Stating.{noted_outs, untimely_outs, following_next, statement_outs};
ghost use Rattle.sng_core.specs.Stating.{statement_next};

use crate::answers::{code_of, connack, message_request, message_response, topic_response};
use crate::entry::nothing_handed;
use crate::stating::{Statement, has_turn, judged, stating};
use crate::verdict::{Judged, copy_name};
use sng_book::{Address, Decision, Denial, FormDenial, Out, Outcome, Outs, OutsPair, Who};
use sng_frames::ReturnCode;
use sng_policy::InForce;
use sng_sessions::{Handed, Sessions};
use sng_turns::hand_over::{all_gone, hand_over};
use sng_turns::turn::Recipient;
use std::alloc::{AllocError, Global};

/// A statement of the client at this place.
pub fn state(
    alloc: Global,
    policy: &InForce,
    clock: u64,
    statement: Statement,
    sessions: &mut Sessions,
    place: usize,
) -> Result<OutsPair, AllocError>
    requires { place < length sessions.old }
    ensures outs { IfOk result (λ outs. outs
        ≡ statement_outs policy.now (said statement) (client_at sessions.old place)) }
    ensures next { OnOk result (sessions.new
        ≡ moved_at place (statement_next policy.now clock (said statement)) sessions.old) }
    ensures err { OnErr result (sessions.new ≡ sessions.old) }
{
    let none = Outs::with_capacity(alloc, 2)?;
    if !has_turn(sessions, place, &statement) {
        let outs = out_of_turn(alloc, clock, &statement, sessions, place, none)?;
        return Ok(outs);
    }
    let outs = state_in_turn(alloc, policy, clock, statement, sessions, place, none)?;
    Ok(outs)
}

/// One that has its turn.
fn state_in_turn(
    alloc: Global,
    policy: &InForce,
    clock: u64,
    statement: Statement,
    sessions: &mut Sessions,
    place: usize,
    mut outs: Outs,
) -> Result<OutsPair, AllocError>
    requires { place < length sessions.old }
    ensures outs { IfOk result (λ pair. let x = client_at sessions.old place in pair ≡ outs
        ++ noted_outs policy.now (said statement) x (statement_judged policy.now (said statement) x)) }
    ensures next { OnOk result (sessions.new ≡ moved_at place (λ x. following_next policy.now clock
        (said statement) (statement_judged policy.now (said statement) x).outcome x) sessions.old) }
    ensures err { OnErr result (sessions.new ≡ sessions.old) }
{
    let judged = judged(alloc, policy, sessions, place, &statement)?;
    if noted(alloc, &statement, sessions, place, &judged, &mut outs)? {
        let kept = keep(alloc, policy, clock, statement, sessions, place, outs)?;
        Ok(kept)
    } else {
        let refused = refuse(alloc, clock, &statement, sessions, place, outs)?;
        Ok(refused)
    }
}

/// The note of how it came out, and what answers it. Answers whether it is allowed.
fn noted(
    alloc: Global,
    statement: &Statement,
    sessions: &Sessions,
    place: usize,
    judged: &Judged,
    outs: &mut Outs,
) -> Result<bool, AllocError>
    requires { place < length sessions.now }
    ensures outs { OnOk result (let x = client_at sessions.now place in outs.new ≡ outs.old
        ++ Out.Note (Decision.Will (Who.Client x.id) judged.now.name judged.now.outcome)
        ∷ answer_of (said statement.now) x.address judged.now.outcome ∷ []) }
    ensures allowed { IfOk result (λ allowed. allowed ≡ is_allowed judged.now.outcome) }
{
    let who = Who::Client(sessions.id(place).copy()?);
    let name = copy_name(&judged.name)?;
    let outcome = judged.outcome.copy()?;
    outs.push(Out::Note(Decision::Will(who, name, outcome)))?;
    let answer = answer(alloc, sessions.address(place), statement, &judged.outcome)?;
    outs.push(answer)?;
    Ok(judged.outcome.is_allowed())
}

/// One out of turn is noted, and an update is answered; its client is heard.
fn out_of_turn(
    alloc: Global,
    clock: u64,
    statement: &Statement,
    sessions: &mut Sessions,
    place: usize,
    mut outs: Outs,
) -> Result<OutsPair, AllocError>
    requires { place < length sessions.old }
    ensures outs { IfOk result (λ pair. pair ≡ outs
        ++ untimely_outs (said statement.now) (client_at sessions.old place)) }
    ensures next { OnOk result (sessions.new ≡ moved_at place (heard_at clock) sessions.old) }
    ensures err { OnErr result (sessions.new ≡ sessions.old) }
{
    let who = Who::Client(sessions.id(place).copy()?);
    let denied = Outcome::Denied(Denial::Form(FormDenial::OutOfTurn));
    outs.push(Out::Note(Decision::Will(who, None, denied)))?;
    if !is_of_dialogue(statement) {
        let denied = Outcome::Denied(Denial::Form(FormDenial::OutOfTurn));
        let answer = answer(alloc, sessions.address(place), statement, &denied)?;
        outs.push(answer)?;
    }
    let pair = OutsPair::of(alloc, outs)?;
    sessions.hear(place, clock);
    Ok(pair)
}

/// Whether it is of the dialogue behind a CONNECT.
fn is_of_dialogue(statement: &Statement) -> bool
    ensures { result ≡ is_of_dialogue (said statement.now) }
{
    match statement {
        Statement::Topic(_) => true,
        Statement::Message(_) => true,
        Statement::TopicUpdate(_) => false,
        Statement::MessageUpdate(_) => false,
    }
}

/// What answers a statement that comes out so.
fn answer(
    alloc: Global,
    to: Address,
    statement: &Statement,
    outcome: &Outcome,
) -> Result<Out, AllocError>
    ensures { IfOk result (λ out. out ≡ answer_of (said statement.now) to outcome.now) }
{
    match outcome {
        Outcome::Allowed => granted(alloc, to, statement),
        Outcome::Denied(rule) => denied(alloc, to, statement, rule),
    }
}

/// One that is allowed: a WILLTOPIC with a topic WILLMSGREQ, an update its own acknowledgement, and any
/// other, which ends the dialogue, CONNACK.
fn granted(alloc: Global, to: Address, statement: &Statement) -> Result<Out, AllocError>
    ensures { IfOk result (λ out. out ≡ answer_of (said statement.now) to Outcome.Allowed) }
{
    match statement {
        Statement::Topic(Some(_)) => message_request(alloc, to),
        Statement::Topic(None) => connack(alloc, to, ReturnCode::ACCEPTED),
        Statement::Message(_) => connack(alloc, to, ReturnCode::ACCEPTED),
        Statement::TopicUpdate(_) => topic_response(alloc, to, ReturnCode::ACCEPTED),
        Statement::MessageUpdate(_) => message_response(alloc, to, ReturnCode::ACCEPTED),
    }
}

/// One that is denied: an update its own acknowledgement, and any other, which ends the dialogue, CONNACK.
fn denied(
    alloc: Global,
    to: Address,
    statement: &Statement,
    rule: &Denial,
) -> Result<Out, AllocError>
    ensures { IfOk result (λ out. out ≡ answer_of (said statement.now) to (Outcome.Denied rule.now)) }
{
    let code = code_of(rule);
    match statement {
        Statement::Topic(_) => connack(alloc, to, code),
        Statement::Message(_) => connack(alloc, to, code),
        Statement::TopicUpdate(_) => topic_response(alloc, to, code),
        Statement::MessageUpdate(_) => message_response(alloc, to, code),
    }
}

/// The will is as the client states, which is allowed. As the dialogue ends by it, what waited meanwhile is
/// handed over.
fn keep(
    alloc: Global,
    policy: &InForce,
    clock: u64,
    statement: Statement,
    sessions: &mut Sessions,
    place: usize,
    mut outs: Outs,
) -> Result<OutsPair, AllocError>
    requires place { place < length sessions.old }
    requires read { IsRead (said statement) }
    ensures outs { IfOk result (λ pair. pair ≡ outs
        ++ kept_outs policy.now (said statement) (client_at sessions.old place)) }
    ensures next { OnOk result (sessions.new
        ≡ moved_at place (kept_next policy.now clock (said statement)) sessions.old) }
    ensures err { OnErr result (sessions.new ≡ sessions.old) }
{
    let handed = handed(alloc, policy, &statement, sessions, place, &mut outs)?;
    let pair = OutsPair::of(alloc, outs)?;
    sessions.state(place, stating(statement), clock);
    sessions.hand(place, handed, clock);
    Ok(pair)
}

/// What is handed over where the dialogue ends by this statement.
fn handed(
    alloc: Global,
    policy: &InForce,
    statement: &Statement,
    sessions: &Sessions,
    place: usize,
    outs: &mut Outs,
) -> Result<Handed, AllocError>
    requires { place < length sessions.now }
    ensures outs { OnOk result (outs.new ≡ outs.old
        ++ kept_outs policy.now (said statement.now) (client_at sessions.now place)) }
    ensures plan { IfOk result (λ handed. handed
        ≡ kept_plan policy.now (said statement.now) (client_at sessions.now place)) }
{
    if is_last(statement) && sessions.queue(place).exchange().is_none() {
        let to = Recipient {
            id: sessions.id(place),
            address: sessions.address(place),
            ids: sessions.ids(place),
            confirming: None,
            number: sessions.number(place),
        };
        let handed = hand_over(alloc, policy, to, sessions.queue(place), 0, outs)?;
        Ok(handed)
    } else {
        Ok(nothing_handed())
    }
}

/// Whether the dialogue is over once the statement is allowed.
fn is_last(statement: &Statement) -> bool
    ensures { result ≡ is_last (said statement.now) }
{
    match statement {
        Statement::Topic(None) => true,
        Statement::Topic(Some(_)) => false,
        Statement::Message(_) => true,
        Statement::TopicUpdate(_) => false,
        Statement::MessageUpdate(_) => false,
    }
}

/// A statement that is denied ends the dialogue, and its client leaves: what waits for it is gone. An update
/// ends nothing.
fn refuse(
    alloc: Global,
    clock: u64,
    statement: &Statement,
    sessions: &mut Sessions,
    place: usize,
    mut outs: Outs,
) -> Result<OutsPair, AllocError>
    requires { place < length sessions.old }
    ensures outs { IfOk result (λ pair. pair ≡ outs
        ++ refused_outs (said statement.now) (client_at sessions.old place)) }
    ensures next { OnOk result (sessions.new
        ≡ moved_at place (refused_next clock (said statement.now)) sessions.old) }
    ensures err { OnErr result (sessions.new ≡ sessions.old) }
{
    if !is_of_dialogue(statement) {
        let pair = OutsPair::of(alloc, outs)?;
        sessions.hear(place, clock);
        return Ok(pair);
    }
    outs.push(Out::Note(Decision::Left(sessions.id(place).copy()?)))?;
    all_gone(sessions.id(place), sessions.queue(place), &mut outs)?;
    let pair = OutsPair::of(alloc, outs)?;
    sessions.leave(place, clock);
    Ok(pair)
}
