//! A small broker for tests (MQTT 3.1.1): QoS 0 and 1, and retained messages. Each connection is a client of
//! its own: no session outlives it, and no client id is looked at.
#![tactic(auto)]

pub mod broker;
pub mod laws;
pub mod parts;
mod publishing;
mod replaying;
mod subscribing;

pub use broker::BrokerCore;
pub use parts::{Message, Peer, Subscription};
