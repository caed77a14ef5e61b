//! A REGISTER of a client (MQTT-SN 1.2, 5.4.10, 5.4.11 and 6.5): what is let out is planned first, and the
//! last call that can fail is the one that changes.
ghost use Rattle.std.specs.Prelude.{◌≡◌, ◌<◌, ◌++◌, ℕ, List, false, length, Some, IfOk, OnOk, OnErr};
ghost use Rattle.sng_frames.specs.Writing.{written};
ghost use Rattle.sng_ids.specs.Ids.{is_full_for};
ghost use Rattle.sng_history.specs.Verdicts.{name_given, id_room};
ghost use Rattle.sng_core.specs.Forms.{client_at, register_judged};
ghost use Rattle.sng_core.specs.Forms.{register_named, register_reply, register_noted, register_outs};
ghost use Rattle.sng_core.specs.Forms.{told_at, register_next};
ghost use Rattle.sng_sessions.specs.Moving.{moved_at};

use crate::answers::code_of;
use crate::verdict::{Judged, and_then, copy_name, may_ask, unread};
use sng_book::{
    Address, Decision, Denial, FormDenial, Out, Outcome, Outs, OutsPair, Place, RoomDenial, Who,
};
use sng_frames::{Register, ReturnCode, SnFrame, TopicAck, write_register_ack};
use sng_history::exit;
use sng_outbox::Origin;
use sng_policy::InForce;
use sng_sessions::{ClientIds, NewName, Sessions};
use sng_text::{Octets, TopicName};
use std::alloc::{AllocError, Global};

/// A REGISTER of the client at this place.
pub fn register(
    alloc: Global,
    policy: &InForce,
    clock: u64,
    register: Register,
    sessions: &mut Sessions,
    place: usize,
) -> Result<OutsPair, AllocError>
    requires { place < length sessions.old }
    ensures outs { IfOk result (λ outs. outs
        ≡ register_outs policy.now register.msg_id register.name (client_at sessions.old place)) }
    ensures next { OnOk result (sessions.new
        ≡ moved_at place (register_next policy.now clock register.name) sessions.old) }
    ensures err { OnErr result (sessions.new ≡ sessions.old) }
{
    let msg_id = register.msg_id;
    let judged = judged(alloc, policy, sessions, place, register.name)?;
    let outs = noted(alloc, msg_id, sessions, place, &judged)?;
    tell(alloc, clock, judged, sessions, place)?;
    Ok(outs)
}

/// How the REGISTER of this text comes out.
fn judged(
    alloc: Global,
    policy: &InForce,
    sessions: &Sessions,
    place: usize,
    text: Octets,
) -> Result<Judged, AllocError>
    requires { place < length sessions.now }
    ensures { IfOk result (λ j. j ≡ register_judged policy.now (client_at sessions.now place) text) }
{
    match may_ask(alloc, policy, sessions, place)? {
        Outcome::Allowed => named(alloc, policy, sessions, place, name_given(text)),
        Outcome::Denied(rule) => Ok(unread(rule)),
    }
}

/// The name that a REGISTER gives, or the rule that it breaks.
fn name_given(text: Octets) -> Result<TopicName, Denial>
    ensures { result ≡ name_given text }
{
    match TopicName::of_octets(text) {
        Ok(name) => Ok(name),
        Err(_) => Err(Denial::Form(FormDenial::BadName)),
    }
}

/// How the REGISTER of a client that may ask comes out, given the name that was read.
fn named(
    alloc: Global,
    policy: &InForce,
    sessions: &Sessions,
    place: usize,
    named: Result<TopicName, Denial>,
) -> Result<Judged, AllocError>
    requires { place < length sessions.now }
    ensures { IfOk result (λ j. j ≡ register_named policy.now (client_at sessions.now place) named) }
{
    match named {
        Ok(name) => {
            let origin = Origin::Client(sessions.id(place).copy()?);
            let granted = exit(alloc, policy, &origin, &name)?;
            let outcome = and_then(granted, id_room(&name, sessions.ids(place)));
            Ok(Judged {
                name: Some(name),
                outcome,
            })
        }
        Err(rule) => Ok(unread(rule)),
    }
}

/// A name without an id gets one while there are some.
fn id_room(name: &TopicName, ids: &ClientIds) -> Outcome
    ensures { result ≡ id_room name.now ids.now }
{
    if ids.is_full_for(name) {
        Outcome::Denied(Denial::Room(RoomDenial::Full(Place::Ids)))
    } else {
        Outcome::Allowed
    }
}

/// The note, and the REGACK.
fn noted(
    alloc: Global,
    msg_id: u16,
    sessions: &Sessions,
    place: usize,
    judged: &Judged,
) -> Result<OutsPair, AllocError>
    requires { place < length sessions.now }
    ensures { IfOk result (λ outs. outs ≡ register_noted msg_id (client_at sessions.now place) judged.now) }
{
    let who = Who::Client(sessions.id(place).copy()?);
    let name = copy_name(&judged.name)?;
    let outcome = judged.outcome.copy()?;
    let mut outs = Outs::with_capacity(alloc, 2)?;
    outs.push(Out::Note(Decision::Register(who, name, outcome)))?;
    reply(alloc, msg_id, sessions, place, judged, &mut outs)?;
    let outs = OutsPair::of(alloc, outs)?;
    Ok(outs)
}

/// The REGACK tells the id that the name has then, or why there is none.
fn reply(
    alloc: Global,
    msg_id: u16,
    sessions: &Sessions,
    place: usize,
    judged: &Judged,
    outs: &mut Outs,
) -> Result<(), AllocError>
    requires { place < length sessions.now }
    ensures { OnOk result (outs.new ≡ outs.old
        ++ register_reply msg_id (client_at sessions.now place) judged.now.name judged.now.outcome) }
{
    let to = sessions.address(place);
    match &judged.outcome {
        Outcome::Allowed => match &judged.name {
            Some(name) => {
                let topic_id = sessions.ids(place).id_for(name);
                let out = regack(alloc, to, topic_id, msg_id, ReturnCode::ACCEPTED)?;
                outs.push(out)?;
                Ok(())
            }
            None => Ok(()),
        },
        Outcome::Denied(rule) => {
            let out = regack(alloc, to, 0, msg_id, code_of(rule))?;
            outs.push(out)?;
            Ok(())
        }
    }
}

fn regack(
    alloc: Global,
    to: Address,
    topic_id: u16,
    msg_id: u16,
    code: ReturnCode,
) -> Result<Out, AllocError>
    ensures { IfOk result (λ out. out
        ≡ Out.Send to (written (SnFrame.RegisterAck
        (record { topic_id = topic_id; msg_id = msg_id; code = code })))) }
{
    let ack = TopicAck {
        topic_id,
        msg_id,
        code,
    };
    let datagram = write_register_ack(alloc, ack)?;
    Ok(Out::Send(to, datagram))
}

/// The client is heard, and is told the id of the name where that was allowed. An `Err` is a failed
/// allocation, and nothing changed.
fn tell(
    alloc: Global,
    clock: u64,
    judged: Judged,
    sessions: &mut Sessions,
    place: usize,
) -> Result<(), AllocError>
    requires { (name : List ℕ) → judged.name ≡ Some name → judged.outcome ≡ Outcome.Allowed
        → is_full_for name (client_at sessions.old place).ids ≡ false }
    ensures ok { OnOk result (sessions.new
        ≡ moved_at place (told_at clock judged.name judged.outcome) sessions.old) }
    ensures err { OnErr result (sessions.new ≡ sessions.old) }
{
    let Judged { name, outcome } = judged;
    let Some(name) = name else {
        sessions.hear(place, clock);
        return Ok(());
    };
    match outcome {
        Outcome::Allowed => {
            let name = NewName::new(alloc, name)?;
            sessions.tell(place, name, clock);
            Ok(())
        }
        Outcome::Denied(_) => {
            sessions.hear(place, clock);
            Ok(())
        }
    }
}
