//! `sng broker`: the test broker at its sockets, over TCP (MQTT 3.1.1).
#![tactic(auto)]

mod client;
pub mod server;

pub use server::broker;
