//! One step of the state: each event is brought to who takes it.
ghost use Rattle.std.specs.Prelude.{◌≡◌, IfOk, OnOk, OnErr};
ghost use Rattle.sng_history.specs.Books.{row_outs, row_next};
ghost use Rattle.sng_history.specs.Good.{Good};

use crate::parts::Parts;
use sng_book::{Event, OutsPair};
use std::alloc::{AllocError, Global};

impl Parts {
    /// One step. An `Err` is a failed allocation, and nothing changed.
    pub fn perform(&mut self, alloc: Global, event: Event) -> Result<OutsPair, AllocError>
        requires { Good self.old }
        ensures outs { IfOk result (λ outs. outs ≡ row_outs self.old event) }
        ensures next { OnOk result (self.new ≡ row_next self.old event) }
        ensures err { OnErr result (self.new ≡ self.old) }
    {
        match event {
            Event::Datagram(from, datagram) => self.datagram(alloc, from, datagram.as_slice()),
            Event::Broker(packet) => self.packet(alloc, packet),
            Event::Up => self.begin_connection(alloc),
            Event::Down => {
                self.end_connection();
                Ok(OutsPair::empty())
            }
            Event::Take => self.take(alloc),
            Event::Replace(policy) => self.replace(alloc, policy),
            Event::Tick(clock) => self.tick(alloc, clock),
        }
    }
}
