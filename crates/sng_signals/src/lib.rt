//! How the workers of a gateway wake one another, wait for one another, and tell an operator of what they meet.
#![tactic(auto)]

pub mod backlog;
pub mod bell;
pub mod board;
pub mod clock;
pub mod count;
pub mod level;
pub mod listening;
pub mod reach;
mod stamp;
pub mod tell;
pub mod token;
pub mod writers;
