//! What keeps a text from being a topic name, a topic filter or a client id.
use crate::Octets;
use thiserror::Error;

/// The fault of a text, in the order in which they are tested. In a client id TooLong is tested after Null,
/// and there is no Wildcard.
#[derive(Clone, Copy, Debug, PartialEq, Eq, Error)]
pub enum TextFault {
    /// There is no byte (MQTT 3.1.1, 4.7.3; MQTT-SN 1.2, 5.3.1).
    #[error("the text is empty")]
    Empty,
    /// More than `MAX_NAME` bytes in a name, `MAX_FILTER` in a filter, or `MAX_CLIENT_ID` characters in a
    /// client id.
    #[error("the text is too long")]
    TooLong,
    /// The bytes are not UTF-8 (MQTT 3.1.1, 1.5.3).
    #[error("the text is not UTF-8")]
    NotUtf8,
    /// There is a U+0000 (MQTT 3.1.1, 4.7.3).
    #[error("the text has a U+0000")]
    Null,
    /// A wildcard in a name, or out of place in a filter (MQTT 3.1.1, 4.7.1).
    #[error("a wildcard is out of place")]
    Wildcard,
    /// An allocation failed.
    #[error("out of memory")]
    Memory,
}

/// Octets that are not the text that was asked for, given back with the first of their faults, which is not
/// Memory.
#[derive(Debug, Drop)]
pub struct RefusedText {
    pub fault: TextFault,
    pub octets: Octets,
}
