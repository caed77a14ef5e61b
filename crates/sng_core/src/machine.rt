//! The state of the gateway, and one step of it.
ghost use Rattle.std.specs.Prelude.{◌≡◌, [], IfOk, OnErr};
ghost use Rattle.sng_history.specs.Books.{IsBook, KeepsBook};
ghost use Rattle.sng_history.specs.State.{opening};
ghost use Rattle.sng_core.specs.Census.{census_of};

use crate::census::Census;
use crate::copying::{CoreCopy, copy_of};
use crate::parts::Parts;
use sng_book::{Event, OutsPair};
use std::alloc::{AllocError, Global};
use std::marker::Model;

/// The gateway. Contracts see it as the state that a history leads to.
#[derive(Drop)]
pub struct Core {
    parts: Parts,
}

impl Model for Core {
    ghost use Rattle.sng_history.specs.State.{State};
    ghost use Rattle.sng_history.specs.Good.{Good};

    ghost Value = { State };

    ghost view = { λ c. c.parts };

    // What holds of every state between rows.
    ghost invariant = { λ c. Good c.parts };
}

impl Core {
    /// The state before any event: nothing is granted and no limit is set, the broker's connection is down,
    /// nothing waits, and no client was accepted. Room for what comes is made as it comes.
    pub fn new(alloc: Global) -> Result<Core, AllocError>
        ensures { IfOk result (λ core. IsBook opening [] core) }
    {
        Ok(Core {
            parts: Parts::new(alloc)?,
        })
    }

    /// One step. After any lawful book that leads to the state before, the row of this event and these outs may
    /// come, and leads to the state after. An `Err` is a failed allocation; nothing changed, and
    /// there is no row.
    #[inline(always)]
    pub fn step(&mut self, alloc: Global, event: Event) -> Result<OutsPair, AllocError>
        ensures kept { IfOk result (λ outs. KeepsBook self.old event outs self.new) }
        ensures err { OnErr result (self.new ≡ self.old) }
    {
        let outs = self.parts.perform(alloc, event)?;
        Ok(outs)
    }

    /// Takes back what a step let out, once it is read: the next that lets out as many takes no memory for
    /// them. Takes no memory.
    #[inline(always)]
    pub fn reuse(&mut self, outs: OutsPair)
        ensures { self.new ≡ self.old }
    {
        self.parts.spare.give_back(outs);
    }

    /// What is counted of the state: clients by state, what stands and waits for them, what waits for the
    /// broker and is in flight to it, and how much the policy in force lists. One walk over the clients;
    /// takes no memory.
    pub fn census(&self) -> Census
        ensures { result ≡ census_of self.now }
    {
        self.parts.census()
    }

    /// An equal state, in memory for what this one holds. Only memory can fail.
    pub fn copy(&self, alloc: Global) -> Result<CoreCopy, AllocError>
        ensures { IfOk result (λ c. c ≡ self.now) }
    {
        copy_of(&self.parts, alloc)
    }
}
