//! Whether two wills are the same, and two stages. Takes no memory.
use crate::{Stage, StatedTopic, Will};
use sng_text::Compare;

impl Compare for Will {
    fn same(&self, other: &Will) -> bool {
        self.topic.same(&other.topic)
            && self.payload.same(&other.payload)
            && self.qos == other.qos
            && self.retain == other.retain
    }
}

impl Compare for StatedTopic {
    fn same(&self, other: &StatedTopic) -> bool {
        self.topic.same(&other.topic) && self.qos == other.qos && self.retain == other.retain
    }
}

impl Compare for Stage {
    fn same(&self, other: &Stage) -> bool {
        match (self, other) {
            (Stage::Closed, Stage::Closed) => true,
            (Stage::TopicAwaited, Stage::TopicAwaited) => true,
            (Stage::MessageAwaited(one), Stage::MessageAwaited(two)) => one.same(two),
            // The contract holds this arm to stages of two kinds.
            _ => false,
        }
    }
}
