//! What a broker keeps.
ghost use Rattle.std.specs.Prelude.{◌≡◌, IfOk};
ghost use Rattle.sng_broker.specs.Brokers.{next_id, identified, is_at_least_once, is_peer, is_held, is_same};
ghost use Rattle.sng_broker.specs.Brokers.{fits, fits_surely};
ghost use Rattle.sng_broker.specs.Steps.{id_for, last_after, packet_of};

use mqtt_frames::{Packet, Publish};
use sng_text::{Octets, Qos, TopicFilter, TopicName, matches};
use std::alloc::{AllocError, Global};

/// A connection that was accepted.
#[derive(Clone, Copy, Debug, PartialEq, Eq)]
pub struct Peer {
    pub conn: u32,
    /// The packet identifier that it was sent last, 0 before the first.
    pub last_id: u16,
}

impl Peer {
    pub(crate) fn is(&self, conn: u32) -> bool
        ensures { result ≡ is_peer conn self.now }
    {
        self.conn == conn
    }

    /// If it is this connection, it was sent this packet identifier last.
    pub(crate) fn identify(&mut self, conn: u32, last_id: u16)
        ensures { self.new ≡ identified conn last_id self.old }
    {
        if self.conn == conn {
            self.last_id = last_id;
        }
    }
}

/// A filter that stands for a connection.
#[derive(Debug, Drop)]
pub struct Subscription {
    pub conn: u32,
    pub filter: TopicFilter,
    /// The QoS that was granted.
    pub qos: Qos,
}

impl Subscription {
    /// Whether it stands for this connection.
    pub(crate) fn is_held(&self, conn: u32) -> bool
        ensures { result ≡ is_held conn self.now }
    {
        self.conn == conn
    }

    /// Whether it is this filter of this connection.
    pub(crate) fn is_same(&self, conn: u32, text: &[u8]) -> bool
        ensures { result ≡ is_same conn text.now self.now }
    {
        self.conn == conn && self.filter.text() == text
    }

    /// Whether it stands for this connection and matches the name.
    pub(crate) fn fits(&self, conn: u32, name: &TopicName) -> bool
        ensures { result ≡ fits conn name.now self.now }
    {
        self.conn == conn && matches(&self.filter, name)
    }

    /// Whether, besides, QoS 1 was granted.
    pub(crate) fn fits_surely(&self, conn: u32, name: &TopicName) -> bool
        ensures { result ≡ fits_surely conn name.now self.now }
    {
        is_at_least_once(self.qos) && self.fits(conn, name)
    }
}

/// A message that is delivered, or retained.
#[derive(Debug, Drop)]
pub struct Message {
    pub name: TopicName,
    pub payload: Octets,
    pub qos: Qos,
}

impl Message {
    /// A copy to be sent.
    pub(crate) fn packet(
        &self,
        alloc: Global,
        retain: bool,
        packet_id: Option<u16>,
    ) -> Result<Packet, AllocError>
        ensures { IfOk result (λ p. p ≡ packet_of retain packet_id self.now) }
    {
        let name = Vec::from_slice(alloc, self.name.text())?;
        Ok(Packet::Publish(Publish {
            dup: false,
            retain,
            packet_id,
            name: Octets::from(name),
            payload: self.payload.copy()?,
        }))
    }
}

pub(crate) fn is_at_least_once(qos: Qos) -> bool
    ensures { result ≡ is_at_least_once qos }
{
    match qos {
        Qos::AtMostOnce => false,
        Qos::AtLeastOnce => true,
    }
}

/// The packet identifier behind this one.
pub(crate) fn next_id(last: u16) -> u16
    ensures { result ≡ next_id last }
{
    if last < u16::MAX { last + 1 } else { 1 }
}

/// The packet identifier of a copy, which has one at QoS 1.
pub(crate) fn id_for(surely: bool, last: u16) -> Option<u16>
    ensures { result ≡ id_for surely last }
{
    if surely { Some(next_id(last)) } else { None }
}

/// The packet identifier that was used last, after a copy.
pub(crate) fn last_after(surely: bool, last: u16) -> u16
    ensures { result ≡ last_after surely last }
{
    if surely { next_id(last) } else { last }
}
