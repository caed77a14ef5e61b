//! The gateway's state between two steps, in memory for what it holds and not for what it may hold.
ghost use Rattle.std.specs.Prelude.{◌≡◌, ◌↔◌, IsTrue, IfOk};
ghost use Rattle.sng_grants.specs.Policies.{no_policy};
ghost use Rattle.sng_history.specs.State.{opening};

use crate::parts::Parts;
use sng_link::LinkCopy;
use sng_policy::InForce;
use sng_sessions::SessionsCopy;
use sng_text::Compare;
use std::alloc::{AllocError, Global};
use std::marker::Model;

/// What a gateway's state was. Nothing moves it. Contracts see the state that a history leads to.
#[derive(Drop)]
pub struct CoreCopy {
    policy: InForce,
    clock: u64,
    is_up: bool,
    link: LinkCopy,
    sessions: SessionsCopy,
}

impl Model for CoreCopy {
    ghost use Rattle.sng_history.specs.State.{State};

    ghost Value = { State };

    ghost view = { λ c.
        record { policy = c.policy; clock = c.clock; up = c.is_up; link = c.link; clients = c.sessions } };
}

impl CoreCopy {
    /// Whether it is the state before any event. Takes no memory.
    pub fn is_opening(&self) -> bool
        ensures { IsTrue result ↔ (self.now ≡ opening) }
    {
        self.grants_nothing()
            && self.clock == 0
            && !self.is_up
            && self.link.is_idle()
            && self.sessions.is_empty()
    }

    /// Whether the policy in force lists nothing, and sets no limit.
    fn grants_nothing(&self) -> bool
        ensures { IsTrue result ↔ (self.now.policy ≡ no_policy) }
    {
        self.policy.policy().clients.is_empty()
            && self.policy.policy().sources.is_empty()
            && self.policy.policy().topics.is_empty()
            && self.policy.limits().are_default()
    }
}

impl Compare for CoreCopy {
    fn same(&self, other: &CoreCopy) -> bool {
        self.clock == other.clock
            && self.is_up == other.is_up
            && self.policy.same(&other.policy)
            && self.link.same(&other.link)
            && self.sessions.same(&other.sessions)
    }
}

/// An equal state, in memory of its own. Only memory can fail.
pub(crate) fn copy_of(parts: &Parts, alloc: Global) -> Result<CoreCopy, AllocError>
    ensures { IfOk result (λ c. c ≡ parts.now) }
{
    let policy = parts.policy.copy()?;
    let link = parts.link.copy(alloc)?;
    let sessions = parts.sessions.copy(alloc)?;
    Ok(CoreCopy {
        policy,
        clock: parts.clock,
        is_up: parts.is_up,
        link,
        sessions,
    })
}
