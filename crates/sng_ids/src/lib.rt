//! The topic ids of one client (MQTT-SN 1.2, 6.5: topic name registration).
#![tactic(auto)]

pub mod fault;
pub mod laws;
pub mod limits;
pub mod table;

pub use fault::IdFault;
pub use limits::MAX_TOPIC_IDS;
pub use table::IdTable;
