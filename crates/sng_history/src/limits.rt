//! How many SUBSCRIBEs may be open to the broker, and how often it is asked whether it is there.
use sng_grants::MAX_FLIGHT;

/// How many SUBSCRIBEs may be open at once: packet ids have 16 bits (MQTT 3.1.1, 2.3.1), and what a policy may
/// let be in flight has some of them.
pub const MAX_OPEN_SUBSCRIBES: usize = 65_534 - MAX_FLIGHT;

/// How long after its beginning, or after the last PINGREQ, a PINGREQ is due on the connection to the broker,
/// in ms: half of the keep alive that its CONNECT states (MQTT 3.1.1, 3.1.2.10).
pub const PING_MS: u64 = 30_000;

/// How long after its last sending a REGISTER or a PUBLISH that a client did not answer is sent again, in ms
/// (MQTT-SN 1.2, 7.2: T_retry).
pub const RETRY_MS: u64 = 10_000;
