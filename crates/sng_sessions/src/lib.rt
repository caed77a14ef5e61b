//! The clients of the gateway, by where each stands among them (MQTT-SN 1.2, 6.2 to 6.5, 6.9 and 6.14): what
//! is kept of each, an index from addresses to clients, so that a message finds its client by one look-up,
//! and the tree of filters, so that a name finds who is due its messages.
#![tactic(auto)]

pub mod copying;
mod dues;
pub mod filters;
pub mod handing;
pub mod ids;
mod places;
pub mod refusal;
pub mod session;
pub mod sessions;
pub mod sleeping;
mod subscribing;
pub mod wills;

pub use copying::{ClientCopy, SessionsCopy};
pub use handing::{Handed, Opens, number_after};
pub use ids::{ClientIds, NewName};
pub use refusal::out_of_memory;
pub use sessions::Sessions;
pub use sleeping::{Change, is_tried_out, is_unanswered};
pub use wills::Stating;
