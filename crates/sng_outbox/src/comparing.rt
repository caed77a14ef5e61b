//! Whether two values of what leaves for the broker are the same. Takes no memory.
use crate::{InFlight, Item, Origin, OutboxCopy, Publication};
use sng_text::{Compare, all_same};

impl Compare for Origin {
    fn same(&self, other: &Origin) -> bool {
        match (self, other) {
            (Origin::Client(one), Origin::Client(two)) => one.same(two),
            (Origin::Source(one), Origin::Source(two)) => *one == *two,
            // The contract holds this arm to a client and a source.
            _ => false,
        }
    }
}

impl Compare for Publication {
    fn same(&self, other: &Publication) -> bool {
        self.origin.same(&other.origin)
            && self.name.same(&other.name)
            && self.payload.same(&other.payload)
            && self.qos == other.qos
            && self.retain == other.retain
    }
}

impl Compare for Item {
    fn same(&self, other: &Item) -> bool {
        match (self, other) {
            (Item::Publish(one), Item::Publish(two)) => one.same(two),
            (Item::Subscribe(one), Item::Subscribe(two)) => one.same(two),
            (Item::Unsubscribe(one), Item::Unsubscribe(two)) => one.same(two),
            (Item::Acknowledge(one), Item::Acknowledge(two)) => *one == *two,
            (Item::Ping, Item::Ping) => true,
            // The contract holds this arm to items of two kinds.
            _ => false,
        }
    }
}

impl Compare for InFlight {
    fn same(&self, other: &InFlight) -> bool {
        self.packet_id == other.packet_id && self.publication.same(&other.publication)
    }
}

impl Compare for OutboxCopy {
    fn same(&self, other: &OutboxCopy) -> bool {
        all_same(self.waiting(), other.waiting()) && all_same(self.in_flight(), other.in_flight())
    }
}
