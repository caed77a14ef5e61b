//! All clients in as little memory as they take, for one who keeps them as they are now.
ghost use Rattle.std.specs.Prelude.{◌≡◌, ◌↔◌, [], IfOk, IsTrue};
ghost use Rattle.sng_sessions.specs.Places.{clients_of};

mod client;

use crate::session::Session;
pub use client::ClientCopy;
use indexmap::IndexMap;
use sng_text::{ClientId, Compare, all_same};
use std::alloc::{AllocError, Global};
use std::marker::Model;

/// The clients as they were, in the order in which each was accepted first. They are never changed, and no
/// client of them is looked up. Contracts see the list of them.
#[derive(Drop)]
pub struct SessionsCopy {
    clients: Vec<ClientCopy>,
}

impl Model for SessionsCopy {
    ghost use Rattle.std.specs.Prelude.{List};
    ghost use Rattle.sng_history.specs.Clients.{Client};

    ghost Value = { List Client };

    ghost view = { λ s. s.clients.items };
}

impl SessionsCopy {
    /// These clients, in memory of their own for just these. Only memory can fail.
    pub(crate) fn of(
        alloc: Global,
        clients: &IndexMap<ClientId, Session>,
    ) -> Result<SessionsCopy, AllocError>
        ensures { IfOk result (λ copy. copy ≡ clients_of clients.now.entries) }
    {
        let mut copies = Vec::with_capacity(alloc, clients.len())?;
        let mut rest = clients.iter();
        while let Some((id, session)) = rest.next() {
            copies.push(ClientCopy::of(alloc, id, session)?)?;
        }
        Ok(SessionsCopy { clients: copies })
    }

    /// Whether there are no clients. Takes no memory.
    pub fn is_empty(&self) -> bool
        ensures { IsTrue result ↔ (self.now ≡ []) }
    {
        self.clients.is_empty()
    }
}

impl Compare for SessionsCopy {
    fn same(&self, other: &SessionsCopy) -> bool {
        all_same(&self.clients, &other.clients)
    }
}
