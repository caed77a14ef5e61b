//! A SUBSCRIBE of a client (MQTT-SN 1.2, 5.4.15, 5.4.16 and 6.9): what is let out is planned first, and the
//! last call that can fail comes before the first change.
ghost use Rattle.std.specs.Prelude.{◌≡◌, ◌<◌, ◌∷◌, ◌++◌, [], length, Some, IfOk, OnOk, OnErr, Ok};
ghost use Rattle.std.specs.Prelude.{None, if◌then◌else◌};
ghost use Rattle.sng_fan.specs.Subscriptions.{is_full};
ghost use Rattle.sng_history.specs.Answers.{suback, flags_of, id_given, refused};
ghost use Rattle.sng_history.specs.Requests.{gets_id};
ghost use Rattle.sng_history.specs.Verdicts.{coverage, filter_in, subscribe_room, subscribe_room_in};
ghost use Rattle.sng_link.specs.Rooms.{HasPlaces, HasFilters};
ghost use Rattle.sng_core.specs.Forms.{client_at};
ghost use Rattle.sng_core.specs.Subscribing.{subscribe_judged, subscribe_named, subscribe_reply};
ghost use Rattle.sng_core.specs.Subscribing.{subscribe_noted, subscribe_outs, stands_at, stood, is_name_full};
ghost use Rattle.sng_core.specs.Subscribing.{IsAllowed, HasRoom};

use crate::answers::{code_of, no_flags};
use crate::filters::{JudgedFilter, copy_filter, filter_read, granted, name_told, unread_filter};
use crate::parts::Parts;
use crate::verdict::{and_then, may_ask};
use sng_book::{Address, Decision, Denial, Out, Outcome, Outs, OutsPair, Place, RoomDenial, Who};
use sng_fan::MAX_SUBSCRIPTIONS;
use sng_frames::{
    Flags, FrameQos, ReturnCode, SnFrame, SubscribeAck, TopicIdType, TopicRequest,
    write_subscribe_ack,
};
use sng_history::coverage;
use sng_link::Link;
use sng_sessions::{ClientIds, NewName, Sessions};
use sng_text::{Qos, TopicFilter, TopicName};
use sng_turns::known::id_in;
use std::alloc::{AllocError, Global};

impl Parts {
    /// A SUBSCRIBE of the client at this place. What is allowed stands, and joins what waits and what is
    /// wanted.
    pub fn subscribe(
        &mut self,
        alloc: Global,
        place: usize,
        request: TopicRequest,
    ) -> Result<OutsPair, AllocError>
        requires { place < length self.old.clients }
        ensures outs { IfOk result (λ outs. outs
            ≡ subscribe_outs self.old request (client_at self.old.clients place)) }
        ensures next { OnOk result (self.new ≡ stood self.old request (Some place)) }
        ensures err { OnErr result (self.new ≡ self.old) }
    {
        let judged = self.subscribe_judged(alloc, place, &request)?;
        let outs = noted(alloc, &request, &self.sessions, place, &judged)?;
        self.stand(alloc, place, &request, judged)?;
        Ok(outs)
    }

    /// How the SUBSCRIBE of the client at this place comes out.
    fn subscribe_judged(
        &self,
        alloc: Global,
        place: usize,
        request: &TopicRequest,
    ) -> Result<JudgedFilter, AllocError>
        requires { place < length self.now.clients }
        ensures { IfOk result (λ j. j
            ≡ subscribe_judged self.now request.now (client_at self.now.clients place)) }
    {
        match may_ask(alloc, &self.policy, &self.sessions, place)? {
            Outcome::Allowed => self.subscribe_named(alloc, place, request),
            Outcome::Denied(rule) => Ok(unread_filter(rule)),
        }
    }

    /// The same of a client that may ask.
    fn subscribe_named(
        &self,
        alloc: Global,
        place: usize,
        request: &TopicRequest,
    ) -> Result<JudgedFilter, AllocError>
        requires { place < length self.now.clients }
        ensures { IfOk result (λ j. j
            ≡ subscribe_named self.now (client_at self.now.clients place) request.now
            (filter_in self.now.policy request.now.flags.id_type request.now.topic)) }
    {
        match filter_read(alloc, &self.policy, request)? {
            Ok(filter) => {
                let id = self.sessions.id(place);
                let covered = coverage(alloc, &self.policy, id, &filter)?;
                let room = self.subscribe_room(alloc, place, request, &filter)?;
                let outcome = and_then(covered, room);
                Ok(JudgedFilter {
                    filter: Some(filter),
                    outcome,
                })
            }
            Err(rule) => Ok(unread_filter(rule)),
        }
    }

    /// Whether there is a connection, and room for the subscription. An `Err` is a failed allocation.
    fn subscribe_room(
        &self,
        alloc: Global,
        place: usize,
        request: &TopicRequest,
        filter: &TopicFilter,
    ) -> Result<Outcome, AllocError>
        requires { place < length self.now.clients }
        ensures { IfOk result (λ o. o
            ≡ subscribe_room self.now (client_at self.now.clients place) request.now filter.now) }
    {
        if !self.is_up {
            return Ok(Outcome::Denied(Denial::Room(RoomDenial::UpstreamDown)));
        }
        let name = name_told(alloc, request.flags.id_type, filter)?;
        Ok(self.room_for(place, request, filter, &name))
    }

    /// Whether there is room: for an id of the name, where the filter is one that gets an id, for one more
    /// filter, and in the outbox.
    fn room_for(
        &self,
        place: usize,
        request: &TopicRequest,
        filter: &TopicFilter,
        name: &Option<TopicName>,
    ) -> Outcome
        requires there { place < length self.now.clients }
        requires told { name.now
            ≡ (if gets_id request.now.flags.id_type filter.now then Some filter.now else None) }
        ensures { result
            ≡ subscribe_room_in self.now (client_at self.now.clients place) request.now filter.now }
    {
        if is_full_for(self.sessions.ids(place), name) {
            return Outcome::Denied(Denial::Room(RoomDenial::Full(Place::Ids)));
        }
        if is_full(&self.sessions, place, filter) {
            return Outcome::Denied(Denial::Room(RoomDenial::Full(Place::Subscriptions)));
        }
        if self.link.has_place(self.policy.limits()) {
            Outcome::Allowed
        } else {
            Outcome::Denied(Denial::Room(RoomDenial::Full(Place::Outbox)))
        }
    }

    /// The client at this place is heard, and where it was allowed the filter stands, waits to be subscribed
    /// and is wanted. An `Err` is a failed allocation, and nothing changes.
    fn stand(
        &mut self,
        alloc: Global,
        place: usize,
        request: &TopicRequest,
        judged: JudgedFilter,
    ) -> Result<(), AllocError>
        requires { IsAllowed self.old (client_at self.old.clients place) request.now judged }
        ensures ok { OnOk result (self.new ≡ stands_at self.old request.now place judged) }
        ensures err { OnErr result (self.new ≡ self.old) }
    {
        let JudgedFilter { filter, outcome } = judged;
        let Some(filter) = filter else {
            self.sessions.hear(place, self.clock);
            return Ok(());
        };
        match outcome {
            Outcome::Allowed => self.keep(alloc, place, request, filter),
            Outcome::Denied(_) => {
                self.sessions.hear(place, self.clock);
                Ok(())
            }
        }
    }

    /// The filter stands for the client at this place.
    fn keep(
        &mut self,
        alloc: Global,
        place: usize,
        request: &TopicRequest,
        filter: TopicFilter,
    ) -> Result<(), AllocError>
        requires { HasRoom self.old (client_at self.old.clients place) request.now filter }
        ensures ok { OnOk result (self.new ≡ stands_at self.old request.now place
            (record { filter = Some filter; outcome = Outcome.Allowed })) }
        ensures err { OnErr result (self.new ≡ self.old) }
    {
        let item = filter.copy()?;
        let wanted = filter.copy()?;
        let name = new_name(alloc, request, &filter)?;
        let qos = granted(request.flags.qos);
        make_room(&mut self.link)?;
        self.sessions
            .subscribe(alloc, place, name, filter, qos, self.clock)?;
        self.link.subscribe(item, wanted);
        Ok(())
    }
}

/// The name that the client is told with an id of it, with the memory for that, where the filter is one.
fn new_name(
    alloc: Global,
    request: &TopicRequest,
    filter: &TopicFilter,
) -> Result<Option<NewName>, AllocError>
    ensures { IfOk result (λ name. name
        ≡ (if gets_id request.now.flags.id_type filter.now then Some filter.now else None)) }
{
    match name_told(alloc, request.flags.id_type, filter)? {
        Some(name) => Ok(Some(NewName::new(alloc, name)?)),
        None => Ok(None),
    }
}

/// Room for one more SUBSCRIBE that waits, and one more filter that is wanted. An `Err` is a failed
/// allocation.
fn make_room(link: &mut Link) -> Result<(), AllocError>
    ensures link { link.new.link ≡ link.old.link }
    ensures places { OnOk result (HasPlaces 1 link.new) }
    ensures filters { OnOk result (HasFilters 1 link.new) }
{
    link.room_for_filters(1)?;
    link.room(1)
}

/// The note, and the SUBACK.
fn noted(
    alloc: Global,
    request: &TopicRequest,
    sessions: &Sessions,
    place: usize,
    judged: &JudgedFilter,
) -> Result<OutsPair, AllocError>
    requires { place < length sessions.now }
    ensures { IfOk result (λ outs. outs
        ≡ subscribe_noted request.now (client_at sessions.now place) judged.now) }
{
    let who = Who::Client(sessions.id(place).copy()?);
    let filter = copy_filter(&judged.filter)?;
    let outcome = judged.outcome.copy()?;
    let mut outs = Outs::with_capacity(alloc, 2)?;
    outs.push(Out::Note(Decision::Subscribe(who, filter, outcome)))?;
    reply(alloc, request, sessions, place, judged, &mut outs)?;
    let outs = OutsPair::of(alloc, outs)?;
    Ok(outs)
}

/// The SUBACK.
fn reply(
    alloc: Global,
    request: &TopicRequest,
    sessions: &Sessions,
    place: usize,
    judged: &JudgedFilter,
    outs: &mut Outs,
) -> Result<(), AllocError>
    requires { place < length sessions.now }
    ensures { OnOk result (outs.new ≡ outs.old
        ++ subscribe_reply request.now (client_at sessions.now place) judged.now.filter judged.now.outcome) }
{
    match &judged.outcome {
        Outcome::Allowed => match &judged.filter {
            Some(filter) => {
                let out = suback(alloc, request, sessions, place, filter)?;
                outs.push(out)?;
                Ok(())
            }
            None => Ok(()),
        },
        Outcome::Denied(rule) => refused_suback(
            alloc,
            request,
            sessions.address(place),
            rule,
            outs,
        ),
    }
}

/// Whether the name, where there is one, has no id and none is left.
fn is_full_for(ids: &ClientIds, name: &Option<TopicName>) -> bool
    ensures { result ≡ is_name_full name.now ids.now }
{
    match name {
        Some(name) => ids.is_full_for(name),
        None => false,
    }
}

/// Whether as many filters stand for the client as may, and this one does not.
fn is_full(sessions: &Sessions, place: usize, filter: &TopicFilter) -> bool
    requires { place < length sessions.now }
    ensures { result ≡ is_full (client_at sessions.now place).filters filter.now }
{
    !sessions.holds(place, filter) && sessions.filters(place).len() >= MAX_SUBSCRIPTIONS
}

/// The SUBACK of a subscription that is allowed.
fn suback(
    alloc: Global,
    request: &TopicRequest,
    sessions: &Sessions,
    place: usize,
    filter: &TopicFilter,
) -> Result<Out, AllocError>
    requires { place < length sessions.now }
    ensures { IfOk result (λ out. out ≡ (let x = client_at sessions.now place in
        suback x.address request.now x.ids filter.now)) }
{
    let ack = SubscribeAck {
        flags: flags_of(granted(request.flags.qos)),
        topic_id: id_given(alloc, request, sessions.ids(place), filter)?,
        msg_id: request.msg_id,
        code: ReturnCode::ACCEPTED,
    };
    let datagram = write_subscribe_ack(alloc, ack)?;
    Ok(Out::Send(sessions.address(place), datagram))
}

/// The flags of a SUBACK: the QoS that is granted, alone.
fn flags_of(qos: Qos) -> Flags
    ensures { result ≡ flags_of qos }
{
    match qos {
        Qos::AtMostOnce => no_flags(),
        Qos::AtLeastOnce => Flags {
            qos: FrameQos::AtLeastOnce,
            ..no_flags()
        },
    }
}

/// The topic id that a SUBACK tells: the predefined one that came, that of a name that gets one, or none.
fn id_given(
    alloc: Global,
    request: &TopicRequest,
    ids: &ClientIds,
    filter: &TopicFilter,
) -> Result<u16, AllocError>
    ensures { IfOk result (λ id. id
        ≡ id_given request.now.flags.id_type request.now.topic ids.now filter.now) }
{
    match request.flags.id_type {
        TopicIdType::Predefined => Ok(id_in(request.topic.as_slice())),
        TopicIdType::Normal => match name_told(alloc, TopicIdType::Normal, filter)? {
            Some(name) => Ok(ids.id_for(&name)),
            None => Ok(0),
        },
        TopicIdType::Short => Ok(0),
        TopicIdType::Reserved => Ok(0),
    }
}

/// The SUBACK of one that is denied, with the code of its rule.
fn refused_suback(
    alloc: Global,
    request: &TopicRequest,
    to: Address,
    rule: &Denial,
    outs: &mut Outs,
) -> Result<(), AllocError>
    ensures { OnOk result (outs.new ≡ outs.old ++ refused to (SnFrame.Subscribe request.now) rule.now) }
{
    let ack = SubscribeAck {
        flags: no_flags(),
        topic_id: 0,
        msg_id: request.msg_id,
        code: code_of(rule),
    };
    let datagram = write_subscribe_ack(alloc, ack)?;
    outs.push(Out::Send(to, datagram))?;
    Ok(())
}
