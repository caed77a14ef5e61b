//! One filter that stands for a client.
ghost use Rattle.std.specs.Prelude.{◌≡◌, IfOk};
ghost use Rattle.sng_fan.specs.Subscriptions.{has_text};

use sng_text::{Compare, Qos, TopicFilter};
use std::alloc::AllocError;

/// A filter that stands for a client.
#[derive(Debug, Drop)]
pub struct Held {
    pub filter: TopicFilter,
    /// The QoS that was granted.
    pub qos: Qos,
}

impl Held {
    /// Whether it is this filter.
    pub fn has_text(&self, filter: &TopicFilter) -> bool
        ensures { result ≡ has_text filter.now self.now }
    {
        self.filter.text() == filter.text()
    }

    /// An equal filter at the same QoS, in memory of its own. Only memory can fail.
    pub fn copy(&self) -> Result<Held, AllocError>
        ensures { IfOk result (λ held. held ≡ self.now) }
    {
        Ok(Held {
            filter: self.filter.copy()?,
            qos: self.qos,
        })
    }
}

impl Compare for Held {
    fn same(&self, other: &Held) -> bool {
        self.filter.same(&other.filter) && self.qos == other.qos
    }
}
