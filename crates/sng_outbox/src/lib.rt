//! What waits to leave for the broker, and the publishes in flight to it (MQTT 3.1.1, 2.3.1, 4.3.2, 4.4 and
//! 4.6).
#![tactic(auto)]

mod comparing;
pub mod copying;
mod flights;
pub mod in_flight;
pub mod item;
pub mod laws;
pub mod origin;
pub mod outbox;
pub mod packet_ids;

pub use copying::OutboxCopy;
pub use in_flight::InFlight;
pub use item::{Item, Publication};
pub use origin::Origin;
pub use outbox::Outbox;
pub use packet_ids::PacketIds;
