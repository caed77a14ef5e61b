//! What the gateway counts where it is asked: its clients by state, what stands and waits for them, what
//! waits for the broker, and what the policy in force lists. Nothing changes by it.
ghost use Rattle.std.specs.Prelude.{◌≡◌, length};
ghost use Rattle.sng_core.specs.Census.{nobody, more, counted_as, counts_of, census_of};

use crate::parts::Parts;
use sng_grants::Policy;
use sng_sessions::Sessions;
use sng_states::ClientState;

/// How many clients there are in each state, and how much stands and waits for all of them.
#[derive(Clone, Copy, Debug, PartialEq, Eq)]
pub struct ClientCounts {
    /// Connected and awake.
    pub active: usize,
    /// Asleep: what comes for them waits.
    pub asleep: usize,
    /// Asleep, and being handed what waits.
    pub awake: usize,
    /// Connected, with the dialogue about their will open.
    pub in_dialogue: usize,
    /// They took their leave, or were refused.
    pub disconnected: usize,
    /// They were silent for too long, or did not answer.
    pub lost: usize,
    /// The filters that stand, one for each client for which it stands.
    pub filters: usize,
    /// The messages that wait. One that was sent and waits for its PUBACK is not counted.
    pub messages: usize,
}

/// How much the policy in force lists.
#[derive(Clone, Copy, Debug, PartialEq, Eq)]
pub struct ListedCounts {
    pub clients: usize,
    pub sources: usize,
    /// The predefined topic ids.
    pub topics: usize,
}

/// What is counted of the gateway.
#[derive(Clone, Copy, Debug, PartialEq, Eq)]
pub struct Census {
    pub clients: ClientCounts,
    /// Whether the connection to the broker is up.
    pub is_up: bool,
    /// What waits for the broker.
    pub items: usize,
    /// The publishes that the broker has not acknowledged yet.
    pub in_flight: usize,
    pub policy: ListedCounts,
}

impl Parts {
    /// What is counted of the state: one walk over the clients. Takes no memory.
    pub fn census(&self) -> Census
        ensures { result ≡ census_of self.now }
    {
        Census {
            clients: counts(&self.sessions),
            is_up: self.is_up,
            items: self.link.items(),
            in_flight: self.link.in_flight(),
            policy: listed(self.policy.policy()),
        }
    }
}

impl ClientCounts {
    /// Nobody is counted.
    fn nobody() -> ClientCounts
        ensures { result ≡ nobody }
    {
        ClientCounts {
            active: 0,
            asleep: 0,
            awake: 0,
            in_dialogue: 0,
            disconnected: 0,
            lost: 0,
            filters: 0,
            messages: 0,
        }
    }

    /// One client more, in this state, with so many filters and messages. A count has 64 bits, and stays at
    /// its greatest number.
    fn add(&mut self, phase: ClientState, filters: usize, messages: usize)
        ensures { self.new ≡ counted_as phase filters messages self.old }
    {
        self.filters = self.filters.saturating_add(filters);
        self.messages = self.messages.saturating_add(messages);
        match phase {
            ClientState::Active => self.active = self.active.saturating_add(1),
            ClientState::Asleep => self.asleep = self.asleep.saturating_add(1),
            ClientState::Awake => self.awake = self.awake.saturating_add(1),
            ClientState::Dialogue => self.in_dialogue = self.in_dialogue.saturating_add(1),
            ClientState::Disconnected => self.disconnected = self.disconnected.saturating_add(1),
            ClientState::Lost => self.lost = self.lost.saturating_add(1),
        }
    }
}

/// The clients by state, and what stands and waits for them.
fn counts(sessions: &Sessions) -> ClientCounts
    ensures { result ≡ counts_of sessions.now }
{
    let mut counts = ClientCounts::nobody();
    for place in 0..sessions.len() {
        let filters = sessions.filters(place).len();
        let messages = sessions.queue(place).len();
        counts.add(sessions.phase(place), filters, messages);
    }
    counts
}

/// How much the policy lists.
fn listed(policy: &Policy) -> ListedCounts
    ensures { result ≡ record {
      clients = length policy.now.clients;
      sources = length policy.now.sources;
      topics = length policy.now.topics;
    } }
{
    ListedCounts {
        clients: policy.clients.len(),
        sources: policy.sources.len(),
        topics: policy.topics.len(),
    }
}
