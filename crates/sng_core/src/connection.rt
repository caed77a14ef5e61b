//! The connection to the broker: how it begins and ends, and how what waits leaves by it (MQTT 3.1.1, 3.1
//! and 4.4).
ghost use Rattle.std.specs.Prelude.{◌≡◌, ◌≤◌, false, if◌then◌else◌, IfOk, OnOk, OnErr};
ghost use Rattle.sng_grants.specs.declared.limits.TheConstants.{MAX_FLIGHT};
ghost use Rattle.sng_outbox.specs.Sending.{publishes};
ghost use Rattle.sng_history.specs.Exits.{agains_of, beginning};
ghost use Rattle.sng_link.specs.Rooms.{load_of};
ghost use Rattle.sng_core.specs.Forms.{taken_outs, taken_next, begun_next};

use crate::parts::Parts;
use sng_book::OutsPair;
use std::alloc::{AllocError, Global};

impl Parts {
    /// The broker's connection is up. Where one was up, that one ended; what is in flight is judged and sent
    /// again, and what is wanted is subscribed anew.
    pub fn begin_connection(&mut self, alloc: Global) -> Result<OutsPair, AllocError>
        requires { load_of self.old.link ≤ MAX_FLIGHT }
        ensures outs { IfOk result (λ outs. outs
            ≡ beginning self.old.link self.old.clock (agains_of self.old.policy self.old.link.in_flight)) }
        ensures next { OnOk result (self.new ≡ begun_next self.old) }
        ensures err { OnErr result (self.new ≡ self.old) }
    {
        let outs = self.link.begin(alloc, &self.policy, self.clock)?;
        self.drop_items();
        self.is_up = true;
        Ok(outs)
    }

    /// Where a connection is up, another one begins instead: of what waits the publishes stay.
    fn drop_items(&mut self)
        ensures { self.new ≡ record self.old {
          link = record self.old.link {
            waiting = if self.old.up then publishes self.old.link.waiting else self.old.link.waiting;
          };
        } }
    {
        if self.is_up {
            self.link.keep_publishes();
        }
    }

    /// The broker's connection is lost: of what waits the publishes stay.
    pub fn end_connection(&mut self)
        ensures { self.new
            ≡ record self.old {
              up = false;
              link = record self.old.link { waiting = publishes self.old.link.waiting };
            } }
    {
        self.is_up = false;
        self.link.keep_publishes();
    }

    /// What has to leave does, where there is a connection: what is owed, and then what waits.
    pub fn take(&mut self, alloc: Global) -> Result<OutsPair, AllocError>
        requires { load_of self.old.link ≤ MAX_FLIGHT }
        ensures outs { IfOk result (λ outs. outs ≡ taken_outs self.old) }
        ensures next { OnOk result (self.new ≡ taken_next self.old) }
        ensures err { OnErr result (self.new ≡ self.old) }
    {
        if !self.is_up {
            return Ok(OutsPair::empty());
        }
        let outs = self.link.take(alloc, &self.policy)?;
        Ok(outs)
    }
}
