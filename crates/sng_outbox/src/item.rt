//! What leaves for the broker (MQTT 3.1.1, 2.2.1).
ghost use Rattle.std.specs.Prelude.{◌≡◌, IfOk};
ghost use Rattle.sng_outbox.specs.Sending.{is_publish, asks_for_ack};

use crate::Origin;
use sng_text::{Octets, Qos, TopicFilter, TopicName};
use std::alloc::AllocError;

/// A publish that was allowed when it was asked for. It is judged again as it leaves.
#[derive(Debug, Drop)]
pub struct Publication {
    pub origin: Origin,
    pub name: TopicName,
    pub payload: Octets,
    pub qos: Qos,
    pub retain: bool,
}

impl Publication {
    /// An equal publish, in memory of its own. Only memory can fail.
    pub fn copy(&self) -> Result<Publication, AllocError>
        ensures { IfOk result (λ p. p ≡ self.now) }
    {
        Ok(Publication {
            origin: self.origin.copy()?,
            name: self.name.copy()?,
            payload: self.payload.copy()?,
            qos: self.qos,
            retain: self.retain,
        })
    }
}

/// What waits for the broker, a control packet each (MQTT 3.1.1, 2.2.1).
#[derive(Debug, Drop)]
pub enum Item {
    /// PUBLISH: transports an application message (3.3).
    Publish(Publication),
    /// SUBSCRIBE: creates a subscription to this topic filter (3.8).
    Subscribe(TopicFilter),
    /// UNSUBSCRIBE: unsubscribes from this topic filter (3.10).
    Unsubscribe(TopicFilter),
    /// PUBACK: the response to a PUBLISH of QoS 1 with this packet id (3.4).
    Acknowledge(u16),
    /// PINGREQ: indicates to the server that its client is alive (3.12).
    Ping,
}

impl Item {
    /// Whether it is a publish.
    pub fn is_publish(&self) -> bool
        ensures { result ≡ is_publish self.now }
    {
        matches!(self, Item::Publish(_))
    }

    /// Whether it is a publish of QoS 1, whose response is a PUBACK (3.3.4).
    pub fn asks_for_ack(&self) -> bool
        ensures { result ≡ asks_for_ack self.now }
    {
        match self {
            Item::Publish(publication) => publication.qos == Qos::AtLeastOnce,
            Item::Subscribe(_) | Item::Unsubscribe(_) | Item::Acknowledge(_) | Item::Ping => false,
        }
    }

    /// An equal item, in memory of its own. Only memory can fail.
    pub fn copy(&self) -> Result<Item, AllocError>
        ensures { IfOk result (λ i. i ≡ self.now) }
    {
        match self {
            Item::Publish(publication) => Ok(Item::Publish(publication.copy()?)),
            Item::Subscribe(filter) => Ok(Item::Subscribe(filter.copy()?)),
            Item::Unsubscribe(filter) => Ok(Item::Unsubscribe(filter.copy()?)),
            Item::Acknowledge(packet_id) => Ok(Item::Acknowledge(*packet_id)),
            Item::Ping => Ok(Item::Ping),
        }
    }
}
