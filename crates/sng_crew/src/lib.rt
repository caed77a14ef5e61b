//! The workers of a gateway at one desk: the one at the connection to the broker, and all of them on threads of
//! their own.
#![tactic(auto)]

mod answering;
pub mod connection;
mod hearing;
pub mod laws;
pub mod limits;
pub mod memory;
mod passing;
pub mod post;
mod stages;
mod starting;
pub mod threads;
mod upstream;

pub use connection::{Call, Close, Opening, ReadAnswer, Stage, Terms, Upstream, Written};
pub use limits::{MAX_READ, MAX_TURN_EVENTS};
pub use post::{BrokerPost, Post};
pub use threads::{Crew, Ended, NotStarted, run_workers};
pub use upstream::upstream_worker;
