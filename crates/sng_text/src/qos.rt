//! The quality of service as the gateway grants it (MQTT 3.1.1, 4.3). Level 2 is not granted; level -1 of
//! MQTT-SN 1.2 and level 2 stand in the formats alone.

/// A quality of service that is granted. The greater one is the stronger.
#[derive(Clone, Copy, Debug, PartialEq, Eq, PartialOrd, Ord)]
pub enum Qos {
    /// Level 0: at most once (4.3.1).
    AtMostOnce,
    /// Level 1: at least once (4.3.2).
    AtLeastOnce,
}
