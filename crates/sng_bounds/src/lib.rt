//! What bounds a running gateway, as plain values: what is passed over, held back or not sent, how long it
//! waits for the broker, why it gives a connection up, and what its clock shows.
#![tactic(auto)]

pub mod answers;
pub mod counts;
pub mod drift;
pub mod flood;
pub mod loss;
pub mod paths;
pub mod patience;
pub mod refusal;
pub mod tries;
pub mod unix_clock;

pub use flood::FloodLimits;
