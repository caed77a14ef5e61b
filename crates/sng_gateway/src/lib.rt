//! The gateway as it is run from a script: each line comes to its steps, and their rows are printed.
#![tactic(auto)]

mod broker;
pub mod laws;
pub mod play;
pub mod player;
