//! One client that holds a filter.

use sng_text::Qos;

/// A client, by its number, with the greatest QoS among its filters that match.
#[derive(Clone, Copy, Debug, PartialEq, Eq)]
pub struct Holder {
    pub client: usize,
    pub qos: Qos,
}
