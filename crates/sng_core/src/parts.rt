//! The parts of the gateway's state.
ghost use Rattle.std.specs.Prelude.{◌≡◌, IfOk};
ghost use Rattle.sng_history.specs.State.{opening};

use sng_book::OutsRoom;
use sng_link::Link;
use sng_policy::InForce;
use sng_sessions::Sessions;
use sng_turns::room::HoldersRoom;
use std::alloc::{AllocError, Global};
use std::marker::Model;

/// All that the gateway keeps. Contracts see it as the state that a history leads to.
#[derive(Drop)]
pub struct Parts {
    pub policy: InForce,
    pub clock: u64,
    pub is_up: bool,
    pub link: Link,
    pub sessions: Sessions,
    /// Room for what steps let out, which no state knows.
    pub spare: OutsRoom,
    /// Room for the list of those for whom a message is, which no state knows either.
    pub holders: HoldersRoom,
}

impl Model for Parts {
    ghost use Rattle.sng_history.specs.State.{State};

    ghost Value = { State };

    ghost view = { λ p.
        record {
          policy = p.policy;
          clock = p.clock;
          up = p.is_up;
          link = p.link.link;
          clients = p.sessions;
        } };
}

impl Parts {
    /// Before any event nothing is granted and no limit is set, the broker's connection is down, nothing waits,
    /// and no client was accepted.
    pub fn new(alloc: Global) -> Result<Parts, AllocError>
        ensures { IfOk result (λ parts. parts ≡ opening) }
    {
        Ok(Parts {
            policy: InForce::new(alloc),
            clock: 0,
            is_up: false,
            link: Link::new(alloc)?,
            sessions: Sessions::new(alloc),
            spare: OutsRoom::new(alloc),
            holders: HoldersRoom::new(alloc),
        })
    }
}
