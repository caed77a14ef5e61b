//! A PUBLISH of a client at QoS 0 or 1 (MQTT-SN 1.2, 5.4.12, 5.4.13 and 6.6): what is let out is planned
//! first, with the room for what comes to wait, and what changes cannot fail.
ghost use Rattle.std.specs.Prelude.{◌≡◌, ◌<◌, ◌∷◌, ◌++◌, [], length, true, Some, IfOk, IfSome, OnOk, OnErr};
ghost use Rattle.std.specs.Option.{option_copied};
ghost use Rattle.sng_grants.specs.Sources.{scope_of};
ghost use Rattle.sng_grants.specs.declared.policy.Policy.{Policy};
ghost use Rattle.sng_frames.specs.Writing.{written};
ghost use Rattle.sng_book.specs.Denials.{is_allowed};
ghost use Rattle.sng_history.specs.Answers.{puback};
ghost use Rattle.sng_history.specs.State.{qos_of};
ghost use Rattle.sng_history.specs.Verdicts.{name_in};
ghost use Rattle.sng_core.specs.Forms.{client_at, publish_judged, sent_to};
ghost use Rattle.sng_core.specs.Forms.{publish_named, publish_reply, publish_noted, publication_by};
ghost use Rattle.sng_core.specs.Forms.{carried_outs, carried};

use crate::answers::code_of;
use crate::parts::Parts;
use crate::verdict::{Judged, and_then, client_name, copy_name, may_ask_by, unread};
use sng_book::{Address, Decision, Denial, Out, Outcome, OutsPair, OutsRoom, Who};
use sng_frames::{
    FrameQos, Publish, ReturnCode, SnFrame, TopicAck, TopicIdType, write_publish_ack,
};
use sng_grants::Scope;
use sng_history::exit_by;
use sng_outbox::{Origin, Publication};
use sng_policy::InForce;
use sng_sessions::{Sessions, out_of_memory};
use sng_text::{ClientId, Qos, TopicName, WireBytes};
use std::alloc::{AllocError, Global};

impl Parts {
    /// A PUBLISH of the client at this place, at QoS 0 or 1. What is allowed joins what waits.
    pub fn carry(
        &mut self,
        alloc: Global,
        place: usize,
        publish: Publish,
    ) -> Result<OutsPair, AllocError>
        requires { place < length self.old.clients }
        ensures outs { IfOk result (λ outs. outs
            ≡ carried_outs self.old publish (client_at self.old.clients place)) }
        ensures next { OnOk result (self.new ≡ carried self.old publish (Some place)) }
        ensures err { OnErr result (self.new ≡ self.old) }
    {
        let room = self.room(qos_of(publish.flags.qos));
        let judged = judged(alloc, &self.policy, &room, &self.sessions, place, &publish)?;
        if judged.outcome.is_allowed() {
            self.link.room(1)?;
        }
        let outs = noted(
            alloc,
            &mut self.spare,
            &publish,
            &self.sessions,
            place,
            &judged,
        )?;
        let Ok(asked) = publication(self.sessions.id(place), publish, judged) else {
            return out_of_memory(outs);
        };
        self.sessions.hear(place, self.clock);
        if let Some(publication) = asked {
            self.link.push(publication);
        }
        Ok(outs)
    }
}

/// The QoS at which a publish of a client goes on to the broker, which is 1 at most.
fn qos_of(qos: FrameQos) -> Qos
    ensures { result ≡ qos_of qos }
{
    match qos {
        FrameQos::AtMostOnce => Qos::AtMostOnce,
        FrameQos::AtLeastOnce => Qos::AtLeastOnce,
        FrameQos::ExactlyOnce => Qos::AtLeastOnce,
        FrameQos::WithoutSession => Qos::AtMostOnce,
    }
}

/// How the PUBLISH of the client at this place comes out, given whether there is room for it.
pub fn judged(
    alloc: Global,
    policy: &InForce,
    room: &Outcome,
    sessions: &Sessions,
    place: usize,
    publish: &Publish,
) -> Result<Judged, AllocError>
    requires { place < length sessions.now }
    ensures { IfOk result (λ j. j ≡ publish_judged policy.now room.now (client_at sessions.now place)
        publish.now.flags.id_type publish.now.topic_id) }
{
    let scope = policy.scope(sessions.id(place));
    match may_ask_by(alloc, scope, sessions, place)? {
        Outcome::Allowed => {
            let id_type = publish.flags.id_type;
            let named = name_read(alloc, policy, sessions, place, id_type, publish.topic_id)?;
            judged_name(alloc, scope, room, sessions, place, named)
        }
        Outcome::Denied(rule) => Ok(unread(rule)),
    }
}

/// The name that the topic id stands for, or the rule that it breaks.
fn name_read(
    alloc: Global,
    policy: &InForce,
    sessions: &Sessions,
    place: usize,
    id_type: TopicIdType,
    id: u16,
) -> Result<Result<TopicName, Denial>, AllocError>
    requires { place < length sessions.now }
    ensures { IfOk result (λ named. named
        ≡ name_in policy.now (Some (client_at sessions.now place).ids) id_type id) }
{
    client_name(alloc, policy, sessions.ids(place), id_type, id)
}

/// How the PUBLISH of a client that may ask comes out, given its scope and the name that was read.
fn judged_name(
    alloc: Global,
    scope: Option<&Scope>,
    room: &Outcome,
    sessions: &Sessions,
    place: usize,
    named: Result<TopicName, Denial>,
) -> Result<Judged, AllocError>
    requires { place < length sessions.now }
    ensures { (policy : Policy) → option_copied scope.entry
        ≡ scope_of policy.clients (client_at sessions.now place).id
        → IfOk result (λ j. j ≡ publish_named policy room.now (client_at sessions.now place) named) }
{
    match named {
        Ok(name) => {
            let outcome = and_then(
                exit_by(alloc, scope, sessions.id(place), &name)?,
                room.copy()?,
            );
            Ok(Judged {
                name: Some(name),
                outcome,
            })
        }
        Err(rule) => Ok(unread(rule)),
    }
}

/// The note, and the PUBACK.
fn noted(
    alloc: Global,
    spare: &mut OutsRoom,
    publish: &Publish,
    sessions: &Sessions,
    place: usize,
    judged: &Judged,
) -> Result<OutsPair, AllocError>
    requires { place < length sessions.now }
    ensures { IfOk result (λ outs. outs
        ≡ publish_noted publish.now (client_at sessions.now place) judged.now) }
{
    let to = sessions.address(place);
    let reply = reply(alloc, publish, &judged.outcome)?;
    let note = ask_noted(sessions, place, judged)?;
    match reply {
        Some(datagram) => spare.two(alloc, note, Out::Send(to, datagram)),
        None => spare.one(alloc, note),
    }
}

/// The note of an ask to publish, of the client at this place.
#[inline(always)]
pub fn ask_noted(sessions: &Sessions, place: usize, judged: &Judged) -> Result<Out, AllocError>
    requires { place < length sessions.now }
    ensures { IfOk result (λ out. out ≡ Out.Note (Decision.Publish
        (Who.Client (client_at sessions.now place).id) judged.now.name judged.now.outcome)) }
{
    let who = Who::Client(sessions.id(place).copy()?);
    let name = copy_name(&judged.name)?;
    let outcome = judged.outcome.copy()?;
    Ok(Out::Note(Decision::Publish(who, name, outcome)))
}

/// The PUBACK: at QoS 1, and wherever the publish is refused.
fn reply(
    alloc: Global,
    publish: &Publish,
    outcome: &Outcome,
) -> Result<Option<WireBytes>, AllocError>
    ensures { (to : Address) → IfOk result (λ reply. sent_to to reply
        ≡ publish_reply to publish.now outcome.now) }
{
    match outcome {
        Outcome::Allowed => puback(alloc, publish),
        Outcome::Denied(rule) => Ok(Some(puback_with(alloc, publish, code_of(rule))?)),
    }
}

/// The PUBACK of a publish that is allowed, at QoS 1 alone.
fn puback(alloc: Global, publish: &Publish) -> Result<Option<WireBytes>, AllocError>
    ensures { (to : Address) → IfOk result (λ reply. sent_to to reply
        ≡ puback to publish.now publish.now.flags.qos) }
{
    match publish.flags.qos {
        FrameQos::AtLeastOnce => Ok(Some(puback_with(alloc, publish, ReturnCode::ACCEPTED)?)),
        FrameQos::AtMostOnce => Ok(None),
        FrameQos::ExactlyOnce => Ok(None),
        FrameQos::WithoutSession => Ok(None),
    }
}

/// The PUBACK with the publish's TopicId and MsgId and this code.
pub fn puback_with(
    alloc: Global,
    publish: &Publish,
    code: ReturnCode,
) -> Result<WireBytes, AllocError>
    ensures { IfOk result (λ datagram. datagram ≡ written (SnFrame.PublishAck
        (record { topic_id = publish.now.topic_id; msg_id = publish.now.msg_id; code = code }))) }
{
    let ack = TopicAck {
        topic_id: publish.topic_id,
        msg_id: publish.msg_id,
        code,
    };
    write_publish_ack(alloc, ack)
}

/// The publish that was asked for, where it was allowed. An `Err` is a failed allocation.
#[inline(always)]
pub fn publication(
    id: &ClientId,
    publish: Publish,
    judged: Judged,
) -> Result<Option<Publication>, AllocError>
    ensures asked { IfOk result (λ asked. asked ≡ publication_by id.now publish judged.name judged.outcome) }
    ensures allowed { IfOk result (λ asked. IfSome asked (λ _. is_allowed judged.outcome ≡ true)) }
{
    let Judged { name, outcome } = judged;
    let Some(name) = name else {
        return Ok(None);
    };
    match outcome {
        Outcome::Allowed => Ok(Some(Publication {
            origin: Origin::Client(id.copy()?),
            name,
            payload: publish.payload,
            qos: qos_of(publish.flags.qos),
            retain: publish.flags.retain,
        })),
        Outcome::Denied(_) => Ok(None),
    }
}
