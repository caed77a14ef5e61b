//! The core of the gateway: a pure step machine. One event in, all that it lets out; the state after it stays
//! in the core. A step plans with all its allocations first, and its commit cannot fail, so a step whose
//! allocation failed changes nothing.
#![tactic(auto)]

mod answers;
pub mod census;
mod confirm;
mod connection;
pub mod copying;
mod datagram;
mod entry;
mod filters;
pub mod history;
pub mod machine;
mod messages;
mod packets;
mod parts;
mod publish;
mod receive;
mod register;
mod replace;
mod request;
mod sleep;
mod source;
mod statement;
mod stating;
mod step;
mod stranger;
mod subscribe;
mod tick;
mod unsubscribe;
mod verdict;

pub use census::Census;
pub use copying::CoreCopy;
pub use history::run;
pub use machine::Core;
