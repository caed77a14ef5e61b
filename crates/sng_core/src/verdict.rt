//! How an ask is judged as it comes: the first rule in the documented order that forbids it.
ghost use Rattle.std.specs.Prelude.{◌≡◌, ◌<◌, length, nat_lt, Some, None, IfOk, Ok, Err, if◌then◌else◌};
ghost use Rattle.std.specs.Option.{option_copied};
ghost use Rattle.sng_text.specs.Texts.{is_name};
ghost use Rattle.sng_grants.specs.Sources.{scope_of};
ghost use Rattle.sng_grants.specs.declared.policy.Policy.{Policy};
ghost use Rattle.sng_policy.specs.Grants.{topic};
ghost use Rattle.sng_ids.specs.Ids.{name_of};
ghost use Rattle.sng_history.specs.State.{is_known};
ghost use Rattle.sng_history.specs.Verdicts.{verdict, room, and_then, name_in, octets_of, predefined_name};
ghost use Rattle.sng_history.specs.Verdicts.{told_name, entry_by, may_ask};
ghost use Rattle.sng_core.specs.Forms.{client_at, unread};

use crate::parts::Parts;
use sng_book::{Denial, FormDenial, GrantDenial, IdKind, Outcome, Place, RoomDenial};
use sng_frames::{Connect, TopicIdType};
use sng_grants::Scope;
use sng_history::exit;
use sng_outbox::Origin;
use sng_policy::InForce;
use sng_sessions::{ClientIds, Sessions};
use sng_text::{ClientId, Qos, TextFault, TopicName};
use std::alloc::{AllocError, Global};

/// The verdict on a CONNECT (MQTT-SN 1.2, 5.4.4): a client that was not accepted before finds its place where
/// the policy's limits let one more in. An `Err` is a failed allocation, for a denial that shows
/// the client.
pub fn entry(
    alloc: Global,
    policy: &InForce,
    sessions: &Sessions,
    connect: &Connect,
) -> Result<Outcome, AllocError>
    ensures { IfOk result (λ outcome. outcome ≡ entry_by policy.now sessions.now connect.now) }
{
    let id = &connect.client_id;
    if connect.protocol_id != 1 {
        return Ok(Outcome::Denied(Denial::Form(FormDenial::NotSupported)));
    }
    if !policy.lists(id) {
        return unlisted(alloc, id);
    }
    if is_known(sessions, id) || sessions.len() < policy.limits().clients() {
        Ok(Outcome::Allowed)
    } else {
        Ok(Outcome::Denied(Denial::Room(RoomDenial::Full(Place::Clients))))
    }
}

/// Whether the client was accepted once.
fn is_known(sessions: &Sessions, id: &ClientId) -> bool
    ensures { result ≡ is_known id.now sessions.now }
{
    sessions.find(id).is_some()
}

/// How an ask of a client came out, and the name that was read, where one was.
#[derive(Debug, Drop)]
pub struct Judged {
    pub name: Option<TopicName>,
    pub outcome: Outcome,
}

/// An ask that is denied before a name was read.
pub fn unread(rule: Denial) -> Judged
    ensures { result ≡ unread rule }
{
    Judged {
        name: None,
        outcome: Outcome::Denied(rule),
    }
}

/// An equal name, where there is one, in memory of its own.
pub fn copy_name(name: &Option<TopicName>) -> Result<Option<TopicName>, AllocError>
    ensures { IfOk result (λ copied. copied ≡ name.now) }
{
    match name {
        Some(name) => Ok(Some(name.copy()?)),
        None => Ok(None),
    }
}

/// Whether the client at this place may ask at all: it has its turn, and the policy lists it. An `Err` is a
/// failed allocation.
pub fn may_ask(
    alloc: Global,
    policy: &InForce,
    sessions: &Sessions,
    place: usize,
) -> Result<Outcome, AllocError>
    requires { place < length sessions.now }
    ensures { IfOk result (λ outcome. outcome ≡ may_ask policy.now (client_at sessions.now place)) }
{
    may_ask_by(alloc, policy.scope(sessions.id(place)), sessions, place)
}

/// The same by the scope that the policy in force gives the client.
pub fn may_ask_by(
    alloc: Global,
    scope: Option<&Scope>,
    sessions: &Sessions,
    place: usize,
) -> Result<Outcome, AllocError>
    requires { place < length sessions.now }
    ensures { (policy : Policy) → option_copied scope.entry
        ≡ scope_of policy.clients (client_at sessions.now place).id
        → IfOk result (λ outcome. outcome ≡ may_ask policy (client_at sessions.now place)) }
{
    if !sessions.phase(place).is_active() {
        return Ok(Outcome::Denied(Denial::Form(FormDenial::OutOfTurn)));
    }
    match scope {
        Some(_) => Ok(Outcome::Allowed),
        None => unlisted(alloc, sessions.id(place)),
    }
}

/// The policy does not list the client.
fn unlisted(alloc: Global, id: &ClientId) -> Result<Outcome, AllocError>
    ensures { IfOk result (λ outcome. outcome ≡ Outcome.Denied (Denial.Grant (GrantDenial.NoScope id.now))) }
{
    let denial = GrantDenial::NoScope(id.copy()?);
    Ok(Outcome::Denied(Denial::ungranted(alloc, denial)?))
}

/// The first of two rules that forbids.
pub fn and_then(first: Outcome, next: Outcome) -> Outcome
    ensures { result ≡ and_then first next }
{
    match first {
        Outcome::Allowed => next,
        Outcome::Denied(rule) => Outcome::Denied(rule),
    }
}

impl Parts {
    /// The verdict on a publish under the name at this QoS. An `Err` is a failed allocation, for a denial
    /// that shows the name or the client.
    pub(crate) fn verdict(
        &self,
        alloc: Global,
        origin: &Origin,
        name: &TopicName,
        qos: Qos,
    ) -> Result<Outcome, AllocError>
        ensures { IfOk result (λ outcome. outcome ≡ verdict self.now origin.now name.now qos) }
    {
        let judged = exit(alloc, &self.policy, origin, name)?;
        Ok(and_then(judged, self.room(qos)))
    }

    /// Whether there is a connection, and room for one more publish at this QoS.
    pub(crate) fn room(&self, qos: Qos) -> Outcome
        ensures { result ≡ room self.now qos }
    {
        if self.is_up {
            self.link.room_in(self.policy.limits(), qos)
        } else {
            Outcome::Denied(Denial::Room(RoomDenial::UpstreamDown))
        }
    }
}

/// The name that a topic id stands for in a PUBLISH without a session, or the rule that it breaks. The outer
/// `Err` is a failed allocation.
pub fn source_name(
    alloc: Global,
    policy: &InForce,
    id_type: TopicIdType,
    id: u16,
) -> Result<Result<TopicName, Denial>, AllocError>
    ensures { IfOk result (λ named. named ≡ name_in policy.now None id_type id) }
{
    match id_type {
        TopicIdType::Short => short_name(alloc, id),
        TopicIdType::Predefined => predefined_name(policy, id),
        TopicIdType::Normal | TopicIdType::Reserved => Ok(Err(Denial::Form(FormDenial::IdType))),
    }
}

/// The name that a topic id stands for in a PUBLISH of the client with these ids, or the rule that it breaks.
/// The outer `Err` is a failed allocation.
pub fn client_name(
    alloc: Global,
    policy: &InForce,
    ids: &ClientIds,
    id_type: TopicIdType,
    id: u16,
) -> Result<Result<TopicName, Denial>, AllocError>
    ensures { IfOk result (λ named. named ≡ name_in policy.now (Some ids.now) id_type id) }
{
    match id_type {
        TopicIdType::Short => short_name(alloc, id),
        TopicIdType::Predefined => predefined_name(policy, id),
        TopicIdType::Normal => normal_name(ids, id),
        TopicIdType::Reserved => Ok(Err(Denial::Form(FormDenial::IdType))),
    }
}

/// A short name is the two octets of the id.
fn short_name(alloc: Global, id: u16) -> Result<Result<TopicName, Denial>, AllocError>
    ensures { IfOk result (λ named. named
        ≡ (if is_name (octets_of id) then Ok (octets_of id) else Err (Denial.Form FormDenial.BadName))) }
{
    match TopicName::read(alloc, id.to_be_bytes().as_slice()) {
        Ok(name) => Ok(Ok(name)),
        Err(TextFault::Memory) => Err(AllocError),
        Err(_) => Ok(Err(Denial::Form(FormDenial::BadName))),
    }
}

/// A predefined id has the name that the policy gives it.
fn predefined_name(policy: &InForce, id: u16) -> Result<Result<TopicName, Denial>, AllocError>
    ensures { IfOk result (λ named. named ≡ predefined_name id (topic policy.now id)) }
{
    match policy.topic(id) {
        Some(name) => Ok(Ok(name.copy()?)),
        None => Ok(Err(Denial::Form(FormDenial::UnknownId(IdKind::Predefined, id)))),
    }
}

/// A normal id has the name that the client was told with it.
fn normal_name(ids: &ClientIds, id: u16) -> Result<Result<TopicName, Denial>, AllocError>
    ensures { IfOk result (λ named. named ≡ told_name id (name_of id ids.now)) }
{
    match ids.name_of(id) {
        Some(name) => Ok(Ok(name.copy()?)),
        None => Ok(Err(Denial::Form(FormDenial::UnknownId(IdKind::Normal, id)))),
    }
}
