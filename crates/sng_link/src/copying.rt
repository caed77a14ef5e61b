//! What is kept of the link to the broker, in as little memory as it takes.
ghost use Rattle.std.specs.Prelude.{◌≡◌, ◌↔◌, IsTrue};
ghost use Rattle.sng_history.specs.Links.{idle};

use sng_outbox::OutboxCopy;
use sng_text::Compare;
use sng_wanted::WantedCopy;
use std::marker::Model;

/// What waits for the broker, the publishes in flight to it, the packet id that was given last, the filters
/// that are wanted upstream, and when the connection began, or was last asked whether it is there. It is
/// never changed, and has no room for more. Contracts see the link of a history.
#[derive(Debug, Drop)]
pub struct LinkCopy {
    pub(crate) sending: OutboxCopy,
    pub(crate) last: u16,
    pub(crate) wanted: WantedCopy,
    /// The clock, in ms, as the connection began, or as the last PINGREQ came to wait on it.
    pub(crate) pinged: u64,
}

impl Model for LinkCopy {
    ghost use Rattle.sng_history.specs.Links.{Link};

    ghost Value = { Link };

    ghost view = { λ l. record {
      waiting = l.sending.waiting;
      in_flight = l.sending.in_flight;
      last = l.last;
      wanted = l.wanted;
      pinged = l.pinged;
    } };
}

impl LinkCopy {
    /// Whether it is as that of a new link: nothing waits, is in flight or is wanted, no packet id was given,
    /// and the time counts from 0.
    pub fn is_idle(&self) -> bool
        ensures { IsTrue result ↔ (self.now ≡ idle) }
    {
        self.sending.is_empty() && self.last == 0 && self.wanted.is_empty() && self.pinged == 0
    }
}

impl Compare for LinkCopy {
    fn same(&self, other: &LinkCopy) -> bool {
        self.sending.same(&other.sending)
            && self.last == other.last
            && self.wanted.same(&other.wanted)
            && self.pinged == other.pinged
    }
}
