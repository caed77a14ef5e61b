//! One client in as little memory as it takes.
ghost use Rattle.std.specs.Prelude.{◌≡◌, IfOk};
ghost use Rattle.sng_sessions.specs.Places.{client_of};

use crate::refusal::out_of_memory;
use crate::session::{Presence, Session};
use sng_fan::Held;
use sng_ids::IdTable;
use sng_queue::QueueCopy;
use sng_states::OpenIds;
use sng_text::{ClientId, Compare, all_same};
use sng_wills::WillDialogue;
use std::alloc::{AllocError, Global};
use std::marker::Model;

/// All that was kept of a client, without room for more. It is never changed. Contracts see what the
/// definitions have of a client.
#[derive(Drop)]
pub struct ClientCopy {
    id: ClientId,
    presence: Presence,
    ids: IdTable,
    number: u16,
    queue: QueueCopy,
    filters: Vec<Held>,
    wills: WillDialogue,
    unreleased: OpenIds,
}

impl Model for ClientCopy {
    ghost use Rattle.sng_history.specs.Clients.{Client};

    ghost Value = { Client };

    ghost view = { λ c. record {
      id = c.id;
      address = c.presence.address;
      phase = c.presence.phase;
      ids = c.ids.ids;
      number = c.number;
      buffer = c.queue;
      filters = c.filters.items;
      wills = c.wills;
      unreleased = c.unreleased;
      duration = c.presence.duration;
      heard = c.presence.heard;
    } };
}

impl ClientCopy {
    /// What is kept of the client with this id, in memory of its own but for the payloads that wait, which
    /// the two share. Only memory can fail.
    pub(crate) fn of(
        alloc: Global,
        id: &ClientId,
        session: &Session,
    ) -> Result<ClientCopy, AllocError>
        ensures { IfOk result (λ copy. copy ≡ client_of (id.now, session.now)) }
    {
        let id = id.copy()?;
        let Ok(ids) = session.ids.copy() else {
            return out_of_memory(id);
        };
        let Ok(queue) = session.queue.copy(alloc) else {
            return out_of_memory((id, ids));
        };
        let Ok(filters) = session.filters.copy(alloc) else {
            return out_of_memory((id, ids, queue));
        };
        let Ok(wills) = session.wills.copy() else {
            return out_of_memory((id, ids, queue, filters));
        };
        Ok(ClientCopy {
            id,
            presence: session.presence,
            ids,
            number: session.number,
            queue,
            filters,
            wills,
            unreleased: session.unreleased.copy(),
        })
    }
}

impl Compare for ClientCopy {
    fn same(&self, other: &ClientCopy) -> bool {
        self.id.same(&other.id)
            && self.presence.same(&other.presence)
            && self.ids.same(&other.ids)
            && self.number == other.number
            && self.queue.same(&other.queue)
            && all_same(&self.filters, &other.filters)
            && self.wills.same(&other.wills)
            && self.unreleased.same(&other.unreleased)
    }
}
