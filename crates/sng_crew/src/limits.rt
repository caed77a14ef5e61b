//! How much a turn at the connection to the broker reads, and for how many events it makes room first.
//! `crate::laws::limits` states the numbers.

/// The most bytes of one read from the broker.
pub const MAX_READ: usize = 4096;

/// The most packets that one read completes: each has two bytes at least, the fixed header (MQTT 3.1.1, 2.2),
/// and of the first of them some may have come before.
pub const MAX_PACKETS: usize = MAX_READ / 2 + 1;

/// The most events of a turn, and one more: one for each packet, `Take`, and `Down`.
pub const MAX_TURN_EVENTS: usize = MAX_PACKETS + 3;
