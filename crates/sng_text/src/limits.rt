//! How long a text may be. `laws::limits` has the numbers.

/// The most bytes of a topic name: those that a string of MQTT can have (MQTT 3.1.1, 1.5.3).
pub const MAX_NAME: usize = 65535;

/// The most bytes of a topic filter.
pub const MAX_FILTER: usize = 200;

/// The most characters of a client id (MQTT-SN 1.2, 5.3.1).
pub const MAX_CLIENT_ID: usize = 23;
