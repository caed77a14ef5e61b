//! The limits of what waits for a client.

/// How many messages may wait. One that left the front and waits for its PUBACK is not counted.
pub const MAX_QUEUED: usize = 64;

/// How often the frame of an exchange may be sent again.
pub const MAX_TRIES: u8 = 3;

/// The longest payload of a message that waits: a PUBLISH with it fills a datagram (MQTT-SN 1.2, 5.4.12).
pub const MAX_WAITING_PAYLOAD: usize = 2039;

/// The longest name of a message that waits: a REGISTER with it fills a datagram (MQTT-SN 1.2, 5.4.10).
pub const MAX_WAITING_NAME: usize = 2040;
