//! The command line of `sng`: its words, what they ask for, and what is printed where they ask for nothing that
//! can be run.
#![tactic(auto)]

mod command;
mod reading;
mod reporting;

pub use command::{BookWords, Chosen, MayWords, PolicyWords, filters_among, read_command};
pub use reading::{texts, words};
pub use reporting::{out_of_memory, report};
