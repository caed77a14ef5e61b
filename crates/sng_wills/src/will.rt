//! The will, and how far the dialogue about it has come (MQTT-SN 1.2, 6.2).
use sng_text::{Octets, Qos, TopicName};

/// What is published for a client that is lost.
#[derive(Debug, Drop)]
pub struct Will {
    pub topic: TopicName,
    pub payload: Octets,
    pub qos: Qos,
    pub retain: bool,
}

/// What a WILLTOPIC or a WILLTOPICUPD states: the topic, with the QoS and the Retain of its Flags (5.4.7).
#[derive(Debug, Drop)]
pub struct StatedTopic {
    pub topic: TopicName,
    pub qos: Qos,
    pub retain: bool,
}

/// How far the dialogue has come.
#[derive(Debug, Drop)]
pub enum Stage {
    /// No dialogue is open.
    Closed,
    /// The gateway awaits a WILLTOPIC.
    TopicAwaited,
    /// The client stated this topic, and the gateway awaits a WILLMSG.
    MessageAwaited(StatedTopic),
}
