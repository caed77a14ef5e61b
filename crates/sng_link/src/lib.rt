//! The link to the broker: what waits to leave, the publishes in flight with their packet ids, and how both
//! leave (MQTT 3.1.1, 2.3.1, 3.3, 3.4, 3.12, 4.3.2 and 4.4).
#![tactic(auto)]

mod again;
pub mod copying;
mod leaving;
pub mod link;
pub mod room;
mod step;
mod taking;

pub use copying::LinkCopy;
pub use link::Link;
pub use room::Room;
