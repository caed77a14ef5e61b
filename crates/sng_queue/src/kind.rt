//! The kinds of topic ids (MQTT-SN 1.2, 5.3.11).

/// What the topic id of an exchange is.
#[derive(Clone, Copy, Debug, PartialEq, Eq)]
pub enum TopicIdKind {
    /// An id that the gateway gave to the name.
    Normal,
    /// An id of the policy.
    Predefined,
    /// The name itself, which has two bytes.
    Short,
}
