//! The families of the page of figures: each has a name, a help text and a type.
ghost use Rattle.std.specs.Prelude.{◌≡◌};
ghost use Rattle.sng_metrics.specs.Metrics.{help_of, kind_of, kind_word, name_of};

use std::fmt;

/// A family of the page: a figure, or figures that are told apart by labels.
#[derive(Clone, Copy, Debug, PartialEq, Eq)]
pub enum Metric {
    BuildInfo,
    Uptime,
    Clock,
    BrokerUp,
    BookTakesRows,
    Clients,
    Subscriptions,
    MessagesWaiting,
    ItemsWaiting,
    InFlight,
    RowsWaiting,
    Rows,
    Decisions,
    DatagramsReceived,
    DatagramsSent,
    PacketsReceived,
    PacketsSent,
    ConnectionsMade,
    ConnectionsLost,
    PoliciesTaken,
    PoliciesRefused,
    RefusedEvents,
    FailedSends,
}

/// The type of a family.
#[derive(Clone, Copy, Debug, PartialEq, Eq)]
pub enum Kind {
    /// What only grows while the gateway runs.
    Counter,
    /// What is so now.
    Gauge,
}

impl Kind {
    /// The word by which the format knows it.
    pub fn word(self) -> &'static str
        ensures { result.now ≡ kind_word self }
    {
        match self {
            Kind::Counter => "counter",
            Kind::Gauge => "gauge",
        }
    }
}

impl fmt::Display for Metric {
    fn fmt<W: fmt::Write>(&self, f: &mut fmt::Formatter<W>) -> fmt::Result {
        write!(f, "{}", self.name())
    }
}

impl Metric {
    /// The name.
    pub fn name(self) -> &'static str
        ensures { result.now ≡ name_of self }
    {
        match self {
            Metric::BuildInfo => "sng_build_info",
            Metric::Uptime => "sng_uptime_seconds",
            Metric::Clock => "sng_clock_seconds",
            Metric::BrokerUp => "sng_broker_up",
            Metric::BookTakesRows => "sng_book_takes_rows",
            Metric::Clients => "sng_clients",
            Metric::Subscriptions => "sng_subscriptions",
            Metric::MessagesWaiting => "sng_messages_waiting",
            Metric::ItemsWaiting => "sng_items_waiting",
            Metric::InFlight => "sng_publishes_in_flight",
            Metric::RowsWaiting => "sng_rows_waiting",
            Metric::Rows => "sng_rows_total",
            Metric::Decisions => "sng_decisions_total",
            Metric::DatagramsReceived => "sng_datagrams_received_total",
            Metric::DatagramsSent => "sng_datagrams_sent_total",
            Metric::PacketsReceived => "sng_packets_received_total",
            Metric::PacketsSent => "sng_packets_sent_total",
            Metric::ConnectionsMade => "sng_connections_made_total",
            Metric::ConnectionsLost => "sng_connections_lost_total",
            Metric::PoliciesTaken => "sng_policies_taken_total",
            Metric::PoliciesRefused => "sng_policies_refused_total",
            Metric::RefusedEvents => "sng_refused_events_total",
            Metric::FailedSends => "sng_failed_sends_total",
        }
    }

    /// What it says, in a sentence without a backslash or a line feed.
    pub fn help(self) -> &'static str
        ensures { result.now ≡ help_of self }
    {
        match self {
            Metric::BuildInfo => "The version of the program; always 1.",
            Metric::Uptime => "Since the gateway started.",
            Metric::Clock => "The clock of the gateway in Unix time, by which scopes end.",
            Metric::BrokerUp => "Whether the broker accepted the connection and it stands, 1 or 0.",
            Metric::BookTakesRows => "Whether the book has room for rows, 1 or 0.",
            Metric::Clients => "Clients by their state.",
            Metric::Subscriptions => "Filters that stand, each for each client for whom it does.",
            Metric::MessagesWaiting => "Messages that wait for clients.",
            Metric::ItemsWaiting => "Items that wait for the broker.",
            Metric::InFlight => "Publishes that the broker has not acknowledged yet.",
            Metric::RowsWaiting => "Rows of the book that are not known to be on disk yet.",
            Metric::Rows => "Rows of the book by the kind of their event.",
            Metric::Decisions =>
                "Decisions by how they came out, by their kind, and by the rule that denied.",
            Metric::DatagramsReceived => "Datagrams of devices that made a row.",
            Metric::DatagramsSent => "Datagrams that were let out for devices.",
            Metric::PacketsReceived => "Packets of the broker that made a row.",
            Metric::PacketsSent => "Packets that were let out for the broker.",
            Metric::ConnectionsMade => "Connections that the broker accepted.",
            Metric::ConnectionsLost => "Connections to the broker that are over.",
            Metric::PoliciesTaken => "Policies that came into force.",
            Metric::PoliciesRefused => "Texts that are no policy and changed nothing.",
            Metric::RefusedEvents => "Events that were refused or lost for want of memory.",
            Metric::FailedSends => "Datagrams that could not be sent.",
        }
    }

    /// The type.
    pub fn kind(self) -> Kind
        ensures { result ≡ kind_of self }
    {
        match self {
            Metric::BuildInfo
            | Metric::Uptime
            | Metric::Clock
            | Metric::BrokerUp
            | Metric::BookTakesRows
            | Metric::Clients
            | Metric::Subscriptions
            | Metric::MessagesWaiting
            | Metric::ItemsWaiting
            | Metric::InFlight
            | Metric::RowsWaiting => Kind::Gauge,
            Metric::Rows
            | Metric::Decisions
            | Metric::DatagramsReceived
            | Metric::DatagramsSent
            | Metric::PacketsReceived
            | Metric::PacketsSent
            | Metric::ConnectionsMade
            | Metric::ConnectionsLost
            | Metric::PoliciesTaken
            | Metric::PoliciesRefused
            | Metric::RefusedEvents
            | Metric::FailedSends => Kind::Counter,
        }
    }
}
