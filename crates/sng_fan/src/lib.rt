//! Which topic filters stand for a client at which QoS (MQTT-SN 1.2, 6.9), and whether one matches a name.
#![tactic(auto)]

pub mod fault;
pub mod greatest;
pub mod held;
pub mod laws;
pub mod limits;
pub mod subscriptions;

pub use fault::FanFault;
pub use held::Held;
pub use limits::MAX_SUBSCRIPTIONS;
pub use subscriptions::Subscriptions;
