//! How much a policy may list, and the limits that it sets itself. `laws::limits` has the numbers.
ghost use Rattle.std.specs.Prelude.{◌≡◌};
ghost use Rattle.sng_grants.specs.Limits.{AreLimits, are_default, default_limits, flight_limit};

use std::marker::Model;

/// The most clients that a policy may let itself list, and that it may let in.
pub const MAX_POLICY_CLIENTS: usize = 65_000;

/// The most sources that a policy may let itself list.
pub const MAX_SOURCES: usize = 65_000;

/// The most predefined topics that a policy may let itself list: each topic id that is not reserved.
pub const MAX_TOPICS: usize = 65_534;

/// The most items that a policy may let wait for the broker.
pub const MAX_WAITING: usize = 65_000;

/// The most publishes of QoS 1 that a policy may let wait or be in flight.
pub const MAX_FLIGHT: usize = 16_000;

/// The most pairs of a scope.
pub const MAX_PAIRS: usize = 64;

/// The clients of a policy that says nothing else.
pub const DEFAULT_CLIENTS: usize = 256;

/// The sources of a policy that says nothing else.
pub const DEFAULT_SOURCES: usize = 256;

/// The predefined topics of a policy that says nothing else.
pub const DEFAULT_TOPICS: usize = 1024;

/// The items that wait for the broker where the policy says nothing else, and the least that it may say.
pub const DEFAULT_WAITING: usize = 512;

/// The publishes of QoS 1 that wait or are in flight where the policy says nothing else, and the least that
/// it may say.
pub const DEFAULT_FLIGHT: usize = 128;

/// The limits that a policy sets, each within its range.
#[derive(Clone, Copy, Debug, PartialEq, Eq)]
pub struct Limits {
    /// How many clients the policy may list, and how many are ever accepted.
    pub clients: usize,
    /// How many sources the policy may list.
    pub sources: usize,
    /// How many predefined topics the policy may list.
    pub topics: usize,
    /// How many items may wait for the broker.
    pub waiting: usize,
    /// How many publishes of QoS 1 may wait or be in flight.
    pub in_flight: usize,
}

impl Model for Limits {
    ghost use Rattle.sng_grants.specs.Limits.{Limits as LimitsRecord, AreLimits};

    ghost Value = { LimitsRecord };

    ghost view = { λ l. record {
      clients = l.clients;
      sources = l.sources;
      topics = l.topics;
      waiting = l.waiting;
      in_flight = l.in_flight;
    } };

    ghost inverse = { λ v. record {
      clients = v.clients;
      sources = v.sources;
      topics = v.topics;
      waiting = v.waiting;
      in_flight = v.in_flight;
    } };

    ghost invariant = { λ l. AreLimits (record {
      clients = l.clients;
      sources = l.sources;
      topics = l.topics;
      waiting = l.waiting;
      in_flight = l.in_flight;
    }) };
}

impl Limits {
    /// The limits of a policy that sets none.
    pub fn new() -> Limits
        ensures { result ≡ default_limits }
    {
        Limits {
            clients: DEFAULT_CLIENTS,
            sources: DEFAULT_SOURCES,
            topics: DEFAULT_TOPICS,
            waiting: DEFAULT_WAITING,
            in_flight: DEFAULT_FLIGHT,
        }
    }

    /// Whether they are those of a policy that sets none.
    pub fn are_default(&self) -> bool
        ensures value { result ≡ are_default self.now }
        ensures within { AreLimits self.now }
    {
        self.clients == DEFAULT_CLIENTS
            && self.sources == DEFAULT_SOURCES
            && self.topics == DEFAULT_TOPICS
            && self.waiting == DEFAULT_WAITING
            && self.in_flight == DEFAULT_FLIGHT
    }

    /// How many clients the policy may list, and how many are ever accepted.
    pub fn clients(&self) -> usize
        ensures value { result ≡ self.now.clients }
        ensures within { AreLimits self.now }
    {
        self.clients
    }

    /// How many sources the policy may list.
    pub fn sources(&self) -> usize
        ensures value { result ≡ self.now.sources }
        ensures within { AreLimits self.now }
    {
        self.sources
    }

    /// How many predefined topics the policy may list.
    pub fn topics(&self) -> usize
        ensures value { result ≡ self.now.topics }
        ensures within { AreLimits self.now }
    {
        self.topics
    }

    /// How many items may wait for the broker.
    pub fn waiting(&self) -> usize
        ensures value { result ≡ self.now.waiting }
        ensures within { AreLimits self.now }
    {
        self.waiting
    }

    /// How many publishes of QoS 1 may wait or be in flight.
    pub fn in_flight(&self) -> usize
        ensures value { result ≡ self.now.in_flight }
        ensures limit { result ≡ flight_limit self.now }
        ensures within { AreLimits self.now }
    {
        self.in_flight
    }
}
