//! A packet of the broker (MQTT 3.1.1, 3.3, 3.4, 3.9 and 4.3.2): what it lets out is planned first, with
//! the room for what comes to wait, and what changes cannot fail.
ghost use Rattle.std.specs.Prelude.{◌≡◌, ◌∷◌, ◌++◌, ◌<◌, ℕ, [], None, length, map, if◌then◌else◌, IfOk, OnOk};
ghost use Rattle.std.specs.Prelude.{OnErr};
ghost use Rattle.sng_history.specs.Causes.{ByPacket};
ghost use Rattle.sng_history.specs.Clients.{without};
ghost use Rattle.sng_history.specs.Good.{Good};
ghost use Rattle.sng_history.specs.Packets.{Delivers, Grants, Refuses, subscribe_answer, answer_of, misnamed};
ghost use Rattle.sng_history.specs.Packets.{dropped};
ghost use Rattle.sng_history.specs.Steps.{outs_by, next_by};
ghost use Rattle.sng_sessions.specs.Standing.{client_at};
ghost use Rattle.sng_sessions.specs.Holding.{places_from};
ghost use Rattle.sng_core.specs.Refusing.{end_notes, named_outs, named_kept, packet_outs};
ghost use Rattle.sng_core.specs.Refusing.{packet_next};
ghost use Rattle.sng_history.specs.Arriving.{sent_at};

use crate::answers::only;
use crate::parts::Parts;
use mqtt_frames::{Packet, Publish, SubscribeAck, SubscribeCode};
use sng_book::{Decision, Denial, FormDenial, Out, Outcome, Outs, OutsPair, PeerDenial, Who};
use sng_queue::Content;
use sng_sessions::Sessions;
use sng_text::{Qos, TopicFilter, TopicName};
use sng_turns::deliver::{Incoming, Kept, deliver, keep_all};
use sng_turns::known::fixed_id;
use std::alloc::{AllocError, Global};

impl Parts {
    /// A packet of the broker.
    pub fn packet(&mut self, alloc: Global, packet: Packet) -> Result<OutsPair, AllocError>
        requires { Good self.old }
        ensures outs { IfOk result (λ outs. outs ≡ outs_by self.old (ByPacket packet)) }
        ensures next { OnOk result (self.new ≡ next_by self.old (ByPacket packet)) }
        ensures err { OnErr result (self.new ≡ self.old) }
    {
        let outs = self.answer(alloc, packet)?;
        Ok(outs)
    }

    fn answer(&mut self, alloc: Global, packet: Packet) -> Result<OutsPair, AllocError>
        ensures outs { IfOk result (λ outs. outs ≡ packet_outs self.old (answer_of packet)) }
        ensures next { OnOk result (self.new ≡ packet_next self.old (answer_of packet)) }
        ensures err { OnErr result (self.new ≡ self.old) }
    {
        match packet {
            Packet::Publish(message) => self.deliver(alloc, message),
            Packet::PublishAck(packet_id) => {
                self.link.acked(packet_id);
                Ok(OutsPair::empty())
            }
            Packet::SubscribeAck(answer) => self.subscribe_answered(alloc, answer),
            // What they answer waits for nothing.
            Packet::UnsubscribeAck(_) => Ok(OutsPair::empty()),
            Packet::PingResponse => Ok(OutsPair::empty()),
            // These a server does not send, or not here.
            Packet::Connect(_) => denied(alloc, Denial::Form(FormDenial::NotSupported)),
            Packet::ConnectAck(_) => denied(alloc, Denial::Form(FormDenial::NotSupported)),
            Packet::Subscribe(_) => denied(alloc, Denial::Form(FormDenial::NotSupported)),
            Packet::Unsubscribe(_) => denied(alloc, Denial::Form(FormDenial::NotSupported)),
            Packet::PingRequest => denied(alloc, Denial::Form(FormDenial::NotSupported)),
            Packet::Disconnect => denied(alloc, Denial::Form(FormDenial::NotSupported)),
        }
    }

    /// A message goes to the clients to whom it is due; one at QoS 1 is to be acknowledged, where there is a
    /// connection.
    fn deliver(&mut self, alloc: Global, publish: Publish) -> Result<OutsPair, AllocError>
        ensures outs { IfOk result (λ outs. outs ≡ packet_outs self.old (Delivers publish)) }
        ensures next { OnOk result (self.new ≡ packet_next self.old (Delivers publish)) }
        ensures err { OnErr result (self.new ≡ self.old) }
    {
        let owed = owed(self.is_up, publish.packet_id);
        let has_place = self.link.has_place(self.policy.limits());
        let mut outs = self.spare.take(alloc, 0)?;
        let kept = self.delivered(alloc, publish, &mut outs)?;
        note_dropped(has_place, owed, &mut outs)?;
        let outs = OutsPair::of(alloc, outs)?;
        match owed_in_place(has_place, owed) {
            Some(packet_id) => {
                self.link.room(1)?;
                keep_all(kept, &mut self.sessions, self.clock);
                self.link.acknowledge(packet_id);
                Ok(outs)
            }
            None => {
                keep_all(kept, &mut self.sessions, self.clock);
                Ok(outs)
            }
        }
    }

    /// What the message lets out for each client, or that its name is none. Answers what is kept of it.
    fn delivered(
        &mut self,
        alloc: Global,
        publish: Publish,
        outs: &mut Outs,
    ) -> Result<Vec<Kept>, AllocError>
        ensures outs { OnOk result (outs.new
            ≡ outs.old ++ (named_outs self.old publish ++ misnamed publish.name)) }
        ensures kept { IfOk result (λ kept. kept.items ≡ named_kept self.old publish) }
        ensures same { self.new ≡ self.old }
    {
        let Publish {
            dup: _,
            retain,
            packet_id,
            name,
            payload,
        } = publish;
        match TopicName::of_octets(name) {
            Ok(name) => {
                // `text` says that the name is one
                let _text = name.text();
                let fixed = fixed_id(&self.policy, &name);
                let message = Incoming {
                    content: Content::new(alloc, name, payload, retain)?,
                    qos: sent_at(packet_id),
                    fixed,
                };
                let mut room = self.holders.take(alloc);
                let (policy, sessions) = (&self.policy, &self.sessions);
                let kept = deliver(alloc, policy, &message, sessions, &mut room, outs)?;
                self.holders.give_back(room);
                Ok(kept)
            }
            Err(_) => {
                outs.push(noted(Denial::Form(FormDenial::BadName)))?;
                Ok(Vec::new(alloc))
            }
        }
    }

    /// A SUBACK: the broker keeps the subscription, or refuses it.
    fn subscribe_answered(
        &mut self,
        alloc: Global,
        answer: SubscribeAck,
    ) -> Result<OutsPair, AllocError>
        ensures outs { IfOk result (λ outs. outs
            ≡ packet_outs self.old (subscribe_answer answer.packet_id answer.codes)) }
        ensures next { OnOk result (self.new
            ≡ packet_next self.old (subscribe_answer answer.packet_id answer.codes)) }
        ensures err { OnErr result (self.new ≡ self.old) }
    {
        if is_refused(answer.codes.as_slice()) {
            let outs = self.refuse(alloc, answer.packet_id)?;
            Ok(outs)
        } else {
            self.link.subscribe_ack(answer.packet_id);
            Ok(OutsPair::empty())
        }
    }

    /// The broker refuses the subscription whose SUBSCRIBE has this packet id: the filter stands for nobody
    /// any more, and is wanted no more. Where none is open nothing happens.
    fn refuse(&mut self, alloc: Global, packet_id: u16) -> Result<OutsPair, AllocError>
        ensures outs { IfOk result (λ outs. outs ≡ packet_outs self.old (Refuses packet_id)) }
        ensures next { OnOk result (self.new ≡ packet_next self.old (Refuses packet_id)) }
        ensures err { OnErr result (self.new ≡ self.old) }
    {
        let Some(open) = self.link.filter_open(packet_id) else {
            return Ok(OutsPair::empty());
        };
        let filter = open.copy()?;
        let holding = self.sessions.holding(alloc, &filter)?;
        let places = holding.as_slice();
        let outs = ends(alloc, &self.sessions, &filter, places)?;
        end_for_all(&mut self.sessions, &filter, places);
        self.link.subscribe_ack(packet_id);
        self.link.unwant(&filter);
        Ok(outs)
    }
}

/// The broker refuses a subscription by the first code of its SUBACK (3.9.3).
fn is_refused(codes: &[SubscribeCode]) -> bool
    ensures { (packet_id : ℕ) → subscribe_answer packet_id codes.now
        ≡ (if result then Refuses packet_id else Grants packet_id) }
{
    match codes.first() {
        Some(SubscribeCode::Refused) => true,
        Some(SubscribeCode::Granted(_)) => false,
        None => false,
    }
}

/// The notes that the broker refuses the filter, of the clients at these places, for whom it stands, in
/// order.
fn ends(
    alloc: Global,
    sessions: &Sessions,
    filter: &TopicFilter,
    places: &[usize],
) -> Result<OutsPair, AllocError>
    requires { places.now ≡ places_from 0 filter.now sessions.now }
    ensures { IfOk result (λ outs. outs ≡ end_notes filter.now sessions.now) }
{
    let mut outs = Outs::new(alloc);
    for place in places {
        let denied = Outcome::Denied(Denial::Peer(PeerDenial::BrokerRefused));
        let note = Decision::End(sessions.id(*place).copy()?, filter.copy()?, denied);
        outs.push(Out::Note(note))?;
    }
    let outs = OutsPair::of(alloc, outs)?;
    Ok(outs)
}

/// The filter stands no more for the clients at these places, for whom it stood: for nobody. Takes no memory.
fn end_for_all(sessions: &mut Sessions, filter: &TopicFilter, places: &[usize])
    requires { places.now ≡ places_from 0 filter.now sessions.old }
    ensures { sessions.new ≡ map (without filter.now) sessions.old }
{
    for place in places {
        sessions.end(*place, filter);
    }
}

/// The packet id of a message that is to be acknowledged.
fn owed(is_up: bool, packet_id: Option<u16>) -> Option<u16>
    ensures { result ≡ (if is_up then packet_id else None) }
{
    if is_up { packet_id } else { None }
}

/// The packet id of an acknowledgement that finds its place.
fn owed_in_place(has_place: bool, owed: Option<u16>) -> Option<u16>
    ensures { result ≡ (if has_place then owed else None) }
{
    if has_place { owed } else { None }
}

/// The QoS of a message: it has a packet id at QoS 1.
fn sent_at(packet_id: Option<u16>) -> Qos
    ensures { result ≡ sent_at packet_id }
{
    match packet_id {
        None => Qos::AtMostOnce,
        Some(_) => Qos::AtLeastOnce,
    }
}

/// An acknowledgement that finds no place is noted.
fn note_dropped(has_place: bool, owed: Option<u16>, outs: &mut Outs) -> Result<(), AllocError>
    ensures { OnOk result (outs.new ≡ outs.old ++ dropped has_place owed) }
{
    if owed.is_some() && !has_place {
        outs.push(Out::Note(Decision::Outbox))?;
    }
    Ok(())
}

/// The packet is noted as denied, alone.
fn denied(alloc: Global, rule: Denial) -> Result<OutsPair, AllocError>
    ensures { IfOk result (λ outs. outs ≡ Out.Note (Decision.Frame Who.Broker (Outcome.Denied rule)) ∷ []) }
{
    only(alloc, noted(rule))
}

fn noted(rule: Denial) -> Out
    ensures { result ≡ Out.Note (Decision.Frame Who.Broker (Outcome.Denied rule)) }
{
    Out::Note(Decision::Frame(Who::Broker, Outcome::Denied(rule)))
}
