//! Whether two messages or two exchanges are the same. Takes no memory.
use crate::{Exchange, Waiting};
use sng_text::Compare;

impl Compare for Waiting {
    fn same(&self, other: &Waiting) -> bool {
        self.name().same(other.name())
            && self.payload() == other.payload()
            && self.qos() == other.qos()
            && self.retain() == other.retain()
    }
}

impl Compare for Exchange {
    fn same(&self, other: &Exchange) -> bool {
        match (self, other) {
            (Exchange::Announcing(one), Exchange::Announcing(two)) => *one == *two,
            (
                Exchange::Acknowledging(one, kind, message),
                Exchange::Acknowledging(two, other_kind, other_message),
            ) => { *one == *two && *kind == *other_kind && message.same(other_message) }
            // The contract holds this arm to exchanges of two kinds.
            _ => false,
        }
    }
}
