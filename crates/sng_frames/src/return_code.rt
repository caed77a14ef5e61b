//! The ReturnCode field (MQTT-SN 1.2, 5.3.10).

/// A ReturnCode. Every octet is one; the standard reserves those that have no name here.
#[derive(Clone, Copy, Debug, PartialEq, Eq)]
pub struct ReturnCode(pub u8);

impl ReturnCode {
    /// Accepted.
    pub const ACCEPTED: ReturnCode = ReturnCode(0x00);

    /// Rejected: congestion.
    pub const CONGESTION: ReturnCode = ReturnCode(0x01);

    /// Rejected: invalid topic id.
    pub const INVALID_TOPIC_ID: ReturnCode = ReturnCode(0x02);

    /// Rejected: not supported.
    pub const NOT_SUPPORTED: ReturnCode = ReturnCode(0x03);
}
