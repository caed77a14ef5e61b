//! A PUBLISH of a client at QoS 2, and the PUBREL by which the client releases it (MQTT-SN 1.2, 5.4.12,
//! 5.4.14 and 6.6; MQTT 3.1.1, 4.3.3): what is let out is planned first, with the room for what comes to
//! wait, and what changes cannot fail.
ghost use Rattle.std.specs.Prelude.{◌≡◌, ◌<◌, ◌∷◌, ◌++◌, [], false, length, Some, IfOk, OnOk, OnErr};
ghost use Rattle.sng_frames.specs.Writing.{written};
ghost use Rattle.sng_history.specs.Answers.{pubrec, pubcomp};
ghost use Rattle.sng_history.specs.Verdicts.{is_repeat, once_room};
ghost use Rattle.sng_sessions.specs.Moving.{moved_at};
ghost use Rattle.sng_sessions.specs.Sleeping.{released_at};
ghost use Rattle.sng_core.specs.Forms.{client_at};
ghost use Rattle.sng_core.specs.Receiving.{once_reply, once_noted, first_outs, first_next, once_outs};
ghost use Rattle.sng_core.specs.Receiving.{once_next, released_outs};

use crate::answers::{code_of, only};
use crate::messages::denied_frame;
use crate::parts::Parts;
use crate::publish::{ask_noted, judged, puback_with, publication};
use crate::verdict::Judged;
use sng_book::{Address, Denial, FormDenial, Out, Outcome, OutsPair, Place, RoomDenial};
use sng_frames::{Publish, SnFrame, write_publish_complete, write_publish_received};
use sng_sessions::{Change, Sessions};
use sng_text::{Qos, WireBytes};
use std::alloc::{AllocError, Global};

impl Parts {
    /// A PUBLISH of the client at this place, at QoS 2. One that repeats what was received is answered by
    /// PUBREC alone.
    pub fn receive(
        &mut self,
        alloc: Global,
        place: usize,
        publish: Publish,
    ) -> Result<OutsPair, AllocError>
        requires { place < length self.old.clients }
        ensures outs { IfOk result (λ outs. outs
            ≡ once_outs self.old publish (client_at self.old.clients place)) }
        ensures next { OnOk result (self.new ≡ once_next self.old publish (Some place)) }
        ensures err { OnErr result (self.new ≡ self.old) }
    {
        if self.sessions.is_repeat(place, &publish) {
            let received = pubrec(alloc, self.sessions.address(place), publish.msg_id)?;
            let outs = only(alloc, received)?;
            self.sessions.hear(place, self.clock);
            return Ok(outs);
        }
        let outs = self.receive_first(alloc, place, publish)?;
        Ok(outs)
    }

    /// One that is no repeat. What is allowed joins what waits, and its MsgId is open.
    fn receive_first(
        &mut self,
        alloc: Global,
        place: usize,
        publish: Publish,
    ) -> Result<OutsPair, AllocError>
        requires { place < length self.old.clients }
        ensures outs { IfOk result (λ outs. outs
            ≡ first_outs self.old publish (client_at self.old.clients place)) }
        ensures next { OnOk result (self.new ≡ first_next self.old publish place) }
        ensures err { OnErr result (self.new ≡ self.old) }
    {
        let room = self.once_room(place, &publish);
        let judged = judged(alloc, &self.policy, &room, &self.sessions, place, &publish)?;
        drop(room);
        let outs = noted(alloc, &publish, &self.sessions, place, &judged)?;
        let msg_id = publish.msg_id;
        let asked = publication(self.sessions.id(place), publish, judged)?;
        match asked {
            Some(publication) => {
                self.link.room(1)?;
                self.sessions
                    .change(place, Change::Receives(msg_id), self.clock);
                self.link.push(publication);
                Ok(outs)
            }
            None => {
                self.sessions.hear(place, self.clock);
                Ok(outs)
            }
        }
    }

    /// Whether there is a connection, and room for the publish: among the open MsgIds of its client, and as
    /// one more publish at QoS 1.
    fn once_room(&self, place: usize, publish: &Publish) -> Outcome
        requires { place < length self.now.clients }
        ensures { result ≡ once_room self.now (client_at self.now.clients place) publish.now }
    {
        if !self.is_up {
            return Outcome::Denied(Denial::Room(RoomDenial::UpstreamDown));
        }
        if self.sessions.unreleased(place).is_full_for(publish.msg_id) {
            return Outcome::Denied(Denial::Room(RoomDenial::Full(Place::Exchanges)));
        }
        self.link.room_in(self.policy.limits(), Qos::AtLeastOnce)
    }
}

/// The note, and the PUBREC or the PUBACK.
fn noted(
    alloc: Global,
    publish: &Publish,
    sessions: &Sessions,
    place: usize,
    judged: &Judged,
) -> Result<OutsPair, AllocError>
    requires { place < length sessions.now }
    ensures { IfOk result (λ outs. outs
        ≡ once_noted publish.now (client_at sessions.now place) judged.now) }
{
    let to = sessions.address(place);
    let datagram = reply(alloc, publish, &judged.outcome)?;
    let note = ask_noted(sessions, place, judged)?;
    OutsPair::two(alloc, note, Out::Send(to, datagram))
}

/// The PUBREC where the publish is allowed, and the PUBACK where it is refused.
fn reply(alloc: Global, publish: &Publish, outcome: &Outcome) -> Result<WireBytes, AllocError>
    ensures { (to : Address) → IfOk result (λ datagram. Out.Send to datagram ∷ []
        ≡ once_reply to publish.now outcome.now) }
{
    match outcome {
        Outcome::Allowed => received(alloc, publish.msg_id),
        Outcome::Denied(rule) => puback_with(alloc, publish, code_of(rule)),
    }
}

/// The PUBREC with this MsgId (5.4.14).
fn pubrec(alloc: Global, to: Address, msg_id: u16) -> Result<Out, AllocError>
    ensures { IfOk result (λ out. out ≡ pubrec to msg_id) }
{
    Ok(Out::Send(to, received(alloc, msg_id)?))
}

/// Its datagram.
fn received(alloc: Global, msg_id: u16) -> Result<WireBytes, AllocError>
    ensures { IfOk result (λ datagram. datagram ≡ written (SnFrame.PublishReceived msg_id)) }
{
    write_publish_received(alloc, msg_id)
}

/// The PUBCOMP with this MsgId (5.4.14).
fn pubcomp(alloc: Global, to: Address, msg_id: u16) -> Result<Out, AllocError>
    ensures { IfOk result (λ out. out ≡ pubcomp to msg_id) }
{
    let datagram = write_publish_complete(alloc, msg_id)?;
    Ok(Out::Send(to, datagram))
}

/// A PUBREL of the client at this place: where it has its turn its MsgId is open no more, and PUBCOMP answers
/// it whether it was open or not.
pub fn release(
    alloc: Global,
    clock: u64,
    msg_id: u16,
    sessions: &mut Sessions,
    place: usize,
) -> Result<OutsPair, AllocError>
    requires { place < length sessions.old }
    ensures outs { IfOk result (λ outs. outs ≡ released_outs msg_id (client_at sessions.old place)) }
    ensures next { OnOk result (sessions.new ≡ moved_at place (released_at clock msg_id) sessions.old) }
    ensures err { OnErr result (sessions.new ≡ sessions.old) }
{
    let outs = released_outs(alloc, msg_id, sessions, place)?;
    sessions.change(place, Change::Releases(msg_id), clock);
    Ok(outs)
}

fn released_outs(
    alloc: Global,
    msg_id: u16,
    sessions: &Sessions,
    place: usize,
) -> Result<OutsPair, AllocError>
    requires { place < length sessions.now }
    ensures { IfOk result (λ outs. outs ≡ released_outs msg_id (client_at sessions.now place)) }
{
    if sessions.phase(place).is_active() {
        only(alloc, pubcomp(alloc, sessions.address(place), msg_id)?)
    } else {
        denied_frame(alloc, sessions, place, Denial::Form(FormDenial::OutOfTurn))
    }
}
