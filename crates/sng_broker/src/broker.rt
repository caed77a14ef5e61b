//! The broker: a packet of a connection goes in, and what is sent to whom comes back.
ghost use Rattle.std.specs.Prelude.{◌≡◌, [], false, IfOk, OnErr};
ghost use Rattle.sng_broker.specs.Brokers.{is_open, forgotten, EachOnce};
ghost use Rattle.sng_broker.specs.Steps.{step, taken, greeted, published, subscribed, unsubscribed, welcomed};
ghost use Rattle.sng_broker.specs.Steps.{answered, dropped};
ghost use Rattle.sng_broker.specs.Laws.{PublishGoesOnce};

use crate::parts::{Message, Peer, Subscription};
use crate::publishing::{Outs, count_copies, fan_out, qos_of, retain};
use crate::replaying::{Outgoing, replay_all};
use crate::subscribing::{all_ended, all_granted, all_stand, codes_for, identify, last_of};
use mqtt_frames::{ConnectAck, List, Packet, Publish, Subscribe, SubscribeAck, Unsubscribe};
use sng_text::TopicName;
use std::alloc::{AllocError, Global};
use std::marker::Model;

/// A broker without sockets. Contracts see its connections, the filters that stand for each, and what is
/// retained.
#[derive(Drop)]
pub struct BrokerCore {
    alloc: Global,
    peers: Vec<Peer>,
    standing: Vec<Subscription>,
    kept: Vec<Message>,
}

impl Model for BrokerCore {
    ghost use Rattle.sng_broker.specs.Brokers.{Broker, EachOnce};

    ghost Value = { Broker };

    ghost view = { λ b. record { peers = b.peers.items; standing = b.standing.items; kept = b.kept.items } };

    ghost invariant = { λ b. EachOnce b.peers.items };
}

impl BrokerCore {
    /// A broker without connections, which retains nothing.
    pub fn new(alloc: Global) -> BrokerCore
        ensures { result ≡ record { peers = []; standing = []; kept = [] } }
    {
        BrokerCore {
            alloc,
            peers: Vec::new(alloc),
            standing: Vec::new(alloc),
            kept: Vec::new(alloc),
        }
    }

    /// Whether the connection was accepted, and is not forgotten. No connection is there twice.
    pub fn is_open(&self, conn: u32) -> bool
        ensures open { result ≡ is_open self.now.peers conn }
        ensures apart { EachOnce self.now.peers }
    {
        self.peers.iter().any(|peer| peer.is(conn))
    }

    /// Takes a packet of a connection, and answers each packet that is sent, with the connection to which it
    /// goes. Where the packet breaks the protocol, or is a DISCONNECT, nothing is sent and the connection is
    /// forgotten: whoever holds it sees that by `is_open`, and closes it. Where memory is refused nothing has
    /// changed.
    pub fn step(&mut self, conn: u32, packet: Packet) -> Result<Outs, AllocError>
        ensures outs { IfOk result (λ outs. outs.items ≡ (step self.old conn packet).outs) }
        ensures next { IfOk result (λ _. self.new ≡ (step self.old conn packet).broker) }
        ensures once { IfOk result (λ outs. PublishGoesOnce self.old conn packet outs.items) }
        ensures err { OnErr result (self.new ≡ self.old) }
    {
        // Read for the invariant alone: no connection is there twice.
        let _peers = &self.peers;
        let outs = self.take(conn, packet)?;
        Ok(outs)
    }

    /// The same, by what the packet is.
    fn take(&mut self, conn: u32, packet: Packet) -> Result<Outs, AllocError>
        ensures outs { IfOk result (λ outs. outs.items ≡ (step self.old conn packet).outs) }
        ensures next { IfOk result (λ _. self.new ≡ (step self.old conn packet).broker) }
        ensures err { OnErr result (self.new ≡ self.old) }
    {
        if !self.is_open(conn) {
            return self.greet(conn, packet);
        }
        match packet {
            Packet::Publish(publish) => self.publish(conn, publish),
            Packet::Subscribe(subscribe) => self.subscribe(conn, &subscribe),
            Packet::Unsubscribe(unsubscribe) => self.unsubscribe(conn, &unsubscribe),
            Packet::PingRequest => self.answer(conn, Packet::PingResponse),
            Packet::PublishAck(_) => Ok(Vec::new(self.alloc)),
            Packet::Connect(_)
            | Packet::ConnectAck(_)
            | Packet::SubscribeAck(_)
            | Packet::UnsubscribeAck(_)
            | Packet::PingResponse
            | Packet::Disconnect => Ok(self.drop_peer(conn)),
        }
    }

    /// Forgets a connection, with all that stood for it. Takes no memory.
    pub fn close(&mut self, conn: u32)
        ensures { self.new ≡ forgotten self.old conn }
    {
        self.peers.retain(|peer| !peer.is(conn));
        self.standing.retain(|one| !one.is_held(conn));
    }

    fn drop_peer(&mut self, conn: u32) -> Outs
        ensures outs { result.items ≡ (dropped self.old conn).outs }
        ensures next { self.new ≡ (dropped self.old conn).broker }
    {
        self.close(conn);
        Vec::new(self.alloc)
    }

    fn answer(&mut self, conn: u32, packet: Packet) -> Result<Outs, AllocError>
        ensures outs { IfOk result (λ outs. outs.items ≡ (answered self.old conn packet).outs) }
        ensures same { self.new ≡ self.old }
    {
        let mut outs = Vec::new(self.alloc);
        outs.push((conn, packet))?;
        Ok(outs)
    }

    fn greet(&mut self, conn: u32, packet: Packet) -> Result<Outs, AllocError>
        requires { is_open self.old.peers conn ≡ false }
        ensures outs { IfOk result (λ outs. outs.items ≡ (greeted self.old conn packet).outs) }
        ensures next { IfOk result (λ _. self.new ≡ (greeted self.old conn packet).broker) }
        ensures err { OnErr result (self.new ≡ self.old) }
    {
        match packet {
            Packet::Connect(_) => self.welcome(conn),
            Packet::ConnectAck(_)
            | Packet::Publish(_)
            | Packet::PublishAck(_)
            | Packet::Subscribe(_)
            | Packet::SubscribeAck(_)
            | Packet::Unsubscribe(_)
            | Packet::UnsubscribeAck(_)
            | Packet::PingRequest
            | Packet::PingResponse
            | Packet::Disconnect => Ok(Vec::new(self.alloc)),
        }
    }

    fn welcome(&mut self, conn: u32) -> Result<Outs, AllocError>
        requires { is_open self.old.peers conn ≡ false }
        ensures outs { IfOk result (λ outs. outs.items ≡ (welcomed self.old conn).outs) }
        ensures next { IfOk result (λ _. self.new ≡ (welcomed self.old conn).broker) }
        ensures err { OnErr result (self.new ≡ self.old) }
    {
        let accepted = Packet::ConnectAck(ConnectAck {
            session_present: false,
            code: 0,
        });
        let outs = self.answer(conn, accepted)?;
        self.peers.reserve(1)?;
        self.peers.push_reserved(Peer { conn, last_id: 0 });
        Ok(outs)
    }

    fn publish(&mut self, conn: u32, publish: Publish) -> Result<Outs, AllocError>
        ensures outs { IfOk result (λ outs. outs.items ≡ (published self.old conn publish).outs) }
        ensures next { IfOk result (λ _. self.new ≡ (published self.old conn publish).broker) }
        ensures err { OnErr result (self.new ≡ self.old) }
    {
        let Ok(name) = TopicName::of_octets(publish.name) else {
            return Ok(self.drop_peer(conn));
        };
        let message = Message {
            name,
            payload: publish.payload,
            qos: qos_of(publish.packet_id),
        };
        let mut outs = fan_out(self.alloc, &self.standing, &message, &self.peers)?;
        if let Some(packet_id) = publish.packet_id {
            outs.push((conn, Packet::PublishAck(packet_id)))?;
        }
        self.kept.reserve(1)?;
        // nothing can fail from here on
        count_copies(&mut self.peers, &self.standing, &message);
        if publish.retain {
            retain(&mut self.kept, message);
        }
        Ok(outs)
    }

    fn subscribe(&mut self, conn: u32, subscribe: &Subscribe) -> Result<Outs, AllocError>
        ensures outs { IfOk result (λ outs. outs.items ≡ (subscribed self.old conn subscribe.now).outs) }
        ensures next { IfOk result (λ _. self.new ≡ (subscribed self.old conn subscribe.now).broker) }
        ensures err { OnErr result (self.new ≡ self.old) }
    {
        let requests = subscribe.requests.as_slice();
        let codes = codes_for(self.alloc, conn, requests)?;
        let granted = all_granted(self.alloc, conn, requests)?;
        let answer = Packet::SubscribeAck(SubscribeAck {
            packet_id: subscribe.packet_id,
            codes: List::from(codes),
        });
        let mut outs = Vec::new(self.alloc);
        outs.push((conn, answer))?;
        let mut sending = Outgoing {
            last_id: last_of(&self.peers, conn),
            outs,
        };
        replay_all(self.alloc, &mut sending, &granted, &self.kept)?;
        self.standing.reserve(granted.len())?;
        // nothing can fail from here on
        let Outgoing { last_id, outs } = sending;
        identify(&mut self.peers, conn, last_id);
        all_stand(&mut self.standing, granted);
        Ok(outs)
    }

    fn unsubscribe(&mut self, conn: u32, unsubscribe: &Unsubscribe) -> Result<Outs, AllocError>
        ensures outs { IfOk result (λ outs. outs.items ≡ (unsubscribed self.old conn unsubscribe.now).outs) }
        ensures next { IfOk result (λ _. self.new ≡ (unsubscribed self.old conn unsubscribe.now).broker) }
        ensures err { OnErr result (self.new ≡ self.old) }
    {
        let outs = self.answer(conn, Packet::UnsubscribeAck(unsubscribe.packet_id))?;
        all_ended(&mut self.standing, conn, unsubscribe.filters.as_slice());
        Ok(outs)
    }
}
