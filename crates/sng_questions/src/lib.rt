//! Answers for whoever writes policies, without a gateway: on inclusion, on what a policy allows, and on what
//! is wrong in its text or surely not meant.
#![tactic(auto)]

pub mod canonical;
pub mod covering;
pub mod ends;
mod flaws;
pub mod inquiry;
pub mod laws;
pub mod limits;
pub mod may;
mod places;
mod publishing;
mod redundant;
pub mod report;
mod ruling;
pub mod short_name;
mod warnings;

pub use limits::MAX_SHOWN;
