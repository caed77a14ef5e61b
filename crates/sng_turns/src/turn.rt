//! The turn of one message for a client (MQTT-SN 1.2, 5.4.10, 5.4.12, 6.5, 6.6 and 6.10; RFC 9431, 2.3): it
//! is judged by the policy in force, and what comes of it goes out.
ghost use Rattle.std.specs.Prelude.{◌≡◌, ◌≤◌, ◌∷◌, ◌++◌, [], None, length, IfOk, OnOk};
ghost use Rattle.sng_queue.specs.Messages.{message};
ghost use Rattle.sng_queue.specs.declared.limits.TheConstants.{MAX_WAITING_NAME, MAX_WAITING_PAYLOAD};
ghost use Rattle.sng_history.specs.Handing.{handed_again, handed_out, msg_id_of, publish_flags, frame_qos};
ghost use Rattle.sng_history.specs.Handing.{id_type_of};
ghost use Rattle.sng_turns.specs.Again.{register_again};
ghost use Rattle.sng_turns.specs.HandingOver.{known_of, turn_outs, turn_opens, offer_outs, offer_opens};
ghost use Rattle.sng_turns.specs.HandingOver.{awaiting, mail_of};

use crate::known::KnownId;
use sng_book::{Address, Decision, Denial, GrantDenial, Out, Outcome, Outs, Place, RoomDenial};
use sng_frames::{Flags, FrameQos, TopicIdType, write_publish, write_register};
use sng_queue::{Sending, TopicIdKind, Waiting};
use sng_sessions::{ClientIds, NewName, Opens, number_after};
use sng_text::{ClientId, Qos, TopicName};
use std::alloc::{AllocError, Global};

/// The client to whom messages go.
#[derive(Clone, Copy)]
pub struct Recipient<'a> {
    pub id: &'a ClientId,
    pub address: Address,
    /// The topic ids that it was told.
    pub ids: &'a ClientIds,
    /// The one of them that it has confirmed just now.
    pub confirming: Option<u16>,
    /// The MsgId that it was given last.
    pub number: u16,
}

/// A message that has its turn.
#[derive(Clone, Copy)]
pub struct Mail<'a> {
    pub name: &'a TopicName,
    pub payload: &'a [u8],
    pub qos: Qos,
    pub retain: bool,
}

/// The turn of a message that comes out so, for a client that knows its name by this id. Answers the exchange
/// that it begins.
pub fn take_turn(
    alloc: Global,
    to: Recipient<'_>,
    mail: Mail<'_>,
    outcome: Outcome,
    known: Option<KnownId>,
    outs: &mut Outs,
) -> Result<Opens, AllocError>
    requires name { length mail.name.now ≤ MAX_WAITING_NAME }
    requires payload { length mail.payload.now ≤ MAX_WAITING_PAYLOAD }
    ensures outs { OnOk result (outs.new ≡ outs.old
        ++ turn_outs to.entry.id.now to.entry.address to.entry.ids.now to.entry.number
        (mail_of mail.entry) outcome known) }
    ensures opens { IfOk result (λ opens. opens
        ≡ turn_opens to.entry.ids.now (mail_of mail.entry) outcome known) }
{
    match outcome {
        Outcome::Allowed => offer(alloc, to, mail, known, outs),
        Outcome::Denied(rule) => {
            note_hand(to.id, mail.name, Outcome::Denied(rule), outs)?;
            Ok(Opens::Nothing)
        }
    }
}

/// The turn of a message that the client may receive: it is handed over where the client knows its name, else
/// an id is announced while there is one.
fn offer(
    alloc: Global,
    to: Recipient<'_>,
    mail: Mail<'_>,
    known: Option<KnownId>,
    outs: &mut Outs,
) -> Result<Opens, AllocError>
    requires name { length mail.name.now ≤ MAX_WAITING_NAME }
    requires payload { length mail.payload.now ≤ MAX_WAITING_PAYLOAD }
    ensures outs { OnOk result (outs.new ≡ outs.old
        ++ offer_outs to.entry.id.now to.entry.address to.entry.ids.now to.entry.number
        (mail_of mail.entry) known) }
    ensures opens { IfOk result (λ opens. opens
        ≡ offer_opens to.entry.ids.now (mail_of mail.entry) known) }
{
    if let Some(known) = known {
        note_hand(to.id, mail.name, Outcome::Allowed, outs)?;
        let out = publish(alloc, to, mail, known)?;
        outs.push(out)?;
        return Ok(awaiting(mail.qos, known));
    }
    introduce(alloc, to, mail, outs)
}

/// The turn of a message that the client may receive and whose name it does not know: an id is announced while
/// there is one. It stands apart, since most messages have no need of its values.
#[inline(never)]
fn introduce(
    alloc: Global,
    to: Recipient<'_>,
    mail: Mail<'_>,
    outs: &mut Outs,
) -> Result<Opens, AllocError>
    requires name { length mail.name.now ≤ MAX_WAITING_NAME }
    ensures outs { OnOk result (outs.new ≡ outs.old
        ++ offer_outs to.entry.id.now to.entry.address to.entry.ids.now to.entry.number
        (mail_of mail.entry) None) }
    ensures opens { IfOk result (λ opens. opens
        ≡ offer_opens to.entry.ids.now (mail_of mail.entry) None) }
{
    if to.ids.is_full_for(mail.name) {
        let full = Outcome::Denied(Denial::Room(RoomDenial::Full(Place::Ids)));
        note_hand(to.id, mail.name, full, outs)?;
        return Ok(Opens::Nothing);
    }
    outs.push(Out::Note(Decision::Announce(to.id.copy()?, mail.name.copy()?)))?;
    let id = to.ids.id_for(mail.name);
    let datagram = write_register(alloc, id, number_after(to.number), mail.name.text())?;
    outs.push(Out::Send(to.address, datagram))?;
    let name = NewName::new(alloc, mail.name.copy()?)?;
    Ok(Opens::Announcing(name))
}

/// A message at QoS 1 waits for its PUBACK.
fn awaiting(qos: Qos, known: KnownId) -> Opens
    ensures { result ≡ awaiting qos known }
{
    match qos {
        Qos::AtMostOnce => Opens::Nothing,
        Qos::AtLeastOnce => Opens::Awaiting(known.kind, known.id),
    }
}

/// The note of how a message for the client came out.
#[inline(always)]
pub fn note_hand(
    id: &ClientId,
    name: &TopicName,
    outcome: Outcome,
    outs: &mut Outs,
) -> Result<(), AllocError>
    ensures { OnOk result (outs.new ≡ outs.old ++ Out.Note (Decision.Hand id.now name.now outcome) ∷ []) }
{
    let note = Decision::Hand(id.copy()?, name.copy()?, outcome);
    outs.push(Out::Note(note))?;
    Ok(())
}

/// The PUBLISH of the message under the id.
fn publish(
    alloc: Global,
    to: Recipient<'_>,
    mail: Mail<'_>,
    known: KnownId,
) -> Result<Out, AllocError>
    requires { length mail.payload.now ≤ MAX_WAITING_PAYLOAD }
    ensures { IfOk result (λ out. out
        ≡ handed_out to.entry.address to.entry.number (mail_of mail.entry) (known_of known)) }
{
    let flags = publish_flags(mail.qos, mail.retain, known.kind);
    let msg_id = msg_id_of(mail.qos, to.number);
    let datagram = write_publish(alloc, flags, known.id, msg_id, mail.payload)?;
    Ok(Out::Send(to.address, datagram))
}

/// At QoS 0 it has no MsgId.
fn msg_id_of(qos: Qos, number: u16) -> u16
    ensures { result ≡ msg_id_of qos number }
{
    match qos {
        Qos::AtMostOnce => 0,
        Qos::AtLeastOnce => number_after(number),
    }
}

fn publish_flags(qos: Qos, retain: bool, kind: TopicIdKind) -> Flags
    ensures { result ≡ publish_flags (message [] [] qos retain) kind }
{
    Flags {
        dup: false,
        qos: frame_qos(qos),
        retain,
        will: false,
        clean: false,
        id_type: id_type_of(kind),
    }
}

fn frame_qos(qos: Qos) -> FrameQos
    ensures { result ≡ frame_qos qos }
{
    match qos {
        Qos::AtMostOnce => FrameQos::AtMostOnce,
        Qos::AtLeastOnce => FrameQos::AtLeastOnce,
    }
}

fn id_type_of(kind: TopicIdKind) -> TopicIdType
    ensures { result ≡ id_type_of kind }
{
    match kind {
        TopicIdKind::Normal => TopicIdType::Normal,
        TopicIdKind::Predefined => TopicIdType::Predefined,
        TopicIdKind::Short => TopicIdType::Short,
    }
}

/// The REGISTER of an announcement, sent again: it is the same (6.13).
pub fn repeat_register(
    alloc: Global,
    to: Address,
    sent: &Sending,
    name: &TopicName,
) -> Result<Out, AllocError>
    requires { length name.now ≤ MAX_WAITING_NAME }
    ensures { IfOk result (λ out. out ≡ register_again to sent.now name.now) }
{
    let datagram = write_register(alloc, sent.topic_id, sent.msg_id, name.text())?;
    Ok(Out::Send(to, datagram))
}

/// The PUBLISH of a hand-over, sent again: it says so by DUP (5.4.12).
pub fn repeat_publish(
    alloc: Global,
    to: Address,
    sent: &Sending,
    kind: TopicIdKind,
    message: &Waiting,
) -> Result<Out, AllocError>
    ensures { IfOk result (λ out. out ≡ handed_again to sent.now kind message.now) }
{
    let mut flags = publish_flags(message.qos(), message.retain(), kind);
    flags.dup = true;
    let (id, msg_id) = (sent.topic_id, sent.msg_id);
    let datagram = write_publish(alloc, flags, id, msg_id, message.payload())?;
    Ok(Out::Send(to, datagram))
}
