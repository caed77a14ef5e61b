//! How many octets a datagram has at most, and what follows for its parts; and how many a Length of one octet
//! counts.

/// The most octets of a datagram that is decoded or encoded.
pub const MAX_DATAGRAM: usize = 2048;

/// The most octets of the data of a PUBLISH: nine go before them where a Length has three octets.
pub const MAX_PAYLOAD: usize = MAX_DATAGRAM - 9;

/// The most octets of the name of a REGISTER: eight go before them where a Length has three octets.
pub const MAX_REGISTERED_NAME: usize = MAX_DATAGRAM - 8;

/// The most octets that a Length of one octet counts, itself included. It is the standard's bound (MQTT-SN
/// 1.2, 5.2.1).
pub const MAX_SHORT_LENGTH: usize = 255;
