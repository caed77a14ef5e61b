//! Whether a client gets the same in two runs of the gateway: a call that plays two lists of events and
//! compares what the client gets. The law of clients apart stands beside it, so that it can be tried.
#![tactic(auto)]

pub mod comparison;
mod own;

pub use comparison::two_runs;
