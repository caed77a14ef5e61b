//! What a gateway has to tell beside what is counted of its rows.
use crate::health::Health;

/// How many clients are in each state (MQTT-SN 1.2, 6.14).
#[derive(Clone, Copy, Debug, PartialEq, Eq)]
pub struct ClientFigures {
    pub active: u64,
    pub asleep: u64,
    pub awake: u64,
    /// A dialogue about the will is open (6.3).
    pub in_dialogue: u64,
    pub disconnected: u64,
    pub lost: u64,
}

/// The figures beside the tally.
#[derive(Clone, Copy, Debug)]
pub struct Figures<'a> {
    /// Of the program.
    pub version: &'a str,
    /// Whole seconds since the start.
    pub uptime: u64,
    /// The clock of the gateway, in ms of Unix time.
    pub clock: u64,
    pub health: Health,
    pub clients: ClientFigures,
    /// Filters that stand, each for each client for whom it does.
    pub subscriptions: u64,
    /// Messages that wait for clients.
    pub messages_waiting: u64,
    /// Items that wait for the broker.
    pub items_waiting: u64,
    /// Publishes that the broker has not acknowledged yet.
    pub in_flight: u64,
    /// Rows that are not known to be on disk yet; 0 where no book is kept there.
    pub rows_waiting: u64,
    /// Events that were refused or lost for want of memory.
    pub refused_events: u64,
    /// Datagrams that could not be sent.
    pub failed_sends: u64,
    /// Texts that are no policy.
    pub refused_policies: u64,
}
