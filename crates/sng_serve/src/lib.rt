//! The gateway between devices and a broker: sockets, a clock, standard input and the desk's workers at them.
#![tactic(auto)]

pub mod beats;
pub mod beginning;
mod book_end;
mod closing;
pub mod courier;
mod descriptors;
pub mod figures;
mod finishing;
pub mod handover;
pub mod hub;
pub mod keeping;
pub mod limits;
pub mod link;
pub mod opening;
pub mod parcels;
pub mod patient;
mod policies;
mod policy_source;
mod preparing;
mod printing;
pub mod reception;
mod refusal;
mod reports;
pub mod room;
mod rows;
pub mod serving;
pub mod shelf;
mod show_status;
pub mod socket;
mod streams;
pub mod switch;
pub mod tray;
mod udp_calls;
pub mod visit;
mod watch;
mod wire;

pub use limits::{FULL_ROWS, MAX_VISITORS, NEARLY_FULL_ROWS, VISIT_MS, VOLUME_ROWS};
pub use serving::serve;
pub use sng_config::{MAX_FLOOD, MAX_WORKERS, MIN_FLOOD, MIN_WORKERS};
pub use sng_operator::{End, VERSION, Words};
