//! What is kept of one client.
ghost use Rattle.std.specs.Prelude.{◌≡◌, ◌&&◌};
ghost use Rattle.sng_states.specs.States.{has_session, is_active};
ghost use Rattle.sng_states.specs.OpenIds.{has_id};
ghost use Rattle.sng_states.specs.Silence.{overdue};

use crate::filters::ClientFilters;
use crate::ids::ClientIds;
use sng_book::Address;
use sng_frames::Publish;
use sng_queue::Queue;
use sng_states::{ClientState, OpenIds, overdue};
use sng_text::Compare;
use sng_wills::WillDialogue;

/// Where a client is, and how it stands with the gateway.
#[derive(Clone, Copy, Debug)]
pub struct Presence {
    /// Where its last accepted CONNECT came from.
    pub address: Address,
    /// How it stands with the gateway.
    pub phase: ClientState,
    /// The Duration that it stated, in seconds.
    pub duration: u16,
    /// The clock as it was last heard, in ms.
    pub heard: u64,
}

impl Presence {
    /// Whether the client has a session and was silent for longer than its Duration allows, as the clock is
    /// at this, in ms. Takes no memory.
    pub fn is_overdue(&self, clock: u64) -> bool
        ensures { result ≡ (has_session self.now.phase && overdue self.now.duration self.now.heard clock) }
    {
        self.phase.has_session() && overdue(self.duration, self.heard, clock)
    }
}

impl Compare for Presence {
    fn same(&self, other: &Presence) -> bool {
        self.address == other.address
            && self.phase == other.phase
            && self.duration == other.duration
            && self.heard == other.heard
    }
}

/// What is kept of one client beside its id.
#[derive(Debug, Drop)]
pub struct Session {
    pub presence: Presence,
    /// The topic ids that it was told since its last accepted CONNECT.
    pub ids: ClientIds,
    /// The MsgId of the last message to it, 0 before the first.
    pub number: u16,
    /// What waits for it, and the exchange that is open.
    pub queue: Queue,
    /// The filters that stand for it.
    pub filters: ClientFilters,
    /// Its will, where it has one, and the dialogue about it.
    pub wills: WillDialogue,
    /// The MsgIds of its publishes at QoS 2 that it has not released yet.
    pub unreleased: OpenIds,
}

impl Session {
    /// Whether a PUBLISH at QoS 2 of the client repeats one that was received and is not released: it has its
    /// turn, and its MsgId is open. Takes no memory.
    pub fn is_repeat(&self, publish: &Publish) -> bool
        ensures { result ≡ (is_active self.now.presence.phase
            && has_id publish.now.msg_id self.now.unreleased) }
    {
        self.presence.phase.is_active() && self.unreleased.has(publish.msg_id)
    }
}
