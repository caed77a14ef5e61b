//! Topic names and topic filters (MQTT 3.1.1, 4.7), client ids (MQTT-SN 1.2, 5.3.1), IPv4 addresses as texts
//! (RFC 3986, 3.2.2), the quality of service as it is granted (MQTT 3.1.1, 4.3), and bytes that contracts see
//! as their list.
#![tactic(auto)]

pub mod bytes;
pub mod client;
pub mod common;
pub mod comparing;
pub mod fault;
pub mod filter;
pub mod ipv4;
mod joining;
pub mod kept;
pub mod laws;
pub mod levels;
pub mod limits;
pub mod matching;
pub mod name;
pub mod octets;
mod order;
pub mod qos;
mod reading;
pub mod wire_bytes;

pub use client::ClientId;
pub use common::past_common;
pub use comparing::{Compare, all_same};
pub use fault::{RefusedText, TextFault};
pub use filter::TopicFilter;
pub use ipv4::read_ipv4;
pub use levels::{Levels, split_level};
pub use limits::{MAX_CLIENT_ID, MAX_FILTER, MAX_NAME};
pub use matching::matches;
pub use name::TopicName;
pub use octets::Octets;
pub use qos::Qos;
pub use wire_bytes::{MOST_WIRE_BYTES, WireBytes};
