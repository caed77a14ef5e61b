//! What one client still has to get, and the exchange with it that is open (MQTT-SN 1.2, 6.5, 6.6 and 6.14).
#![tactic(auto)]

mod comparing;
pub mod content;
pub mod copying;
pub mod exchange;
pub mod kind;
pub mod laws;
pub mod limits;
pub mod parcel;
pub mod queue;
pub mod waiting;

pub use content::Content;
pub use copying::QueueCopy;
pub use exchange::{Exchange, Sending};
pub use kind::TopicIdKind;
pub use limits::{MAX_QUEUED, MAX_TRIES, MAX_WAITING_NAME, MAX_WAITING_PAYLOAD};
pub use parcel::Parcel;
pub use queue::Queue;
pub use waiting::Waiting;
