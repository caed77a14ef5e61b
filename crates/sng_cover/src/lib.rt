//! Inclusion: whether every topic name that one filter matches is matched by some of others, and if not,
//! which name shows it (MQTT 3.1.1, 4.7).
#![tactic(auto)]

mod alike;
pub mod answer;
mod depths;
mod fitting;
mod gap;
pub mod inclusion;
pub mod laws;
mod marks;
pub mod profile;
pub mod question;
mod runs;
mod shape;

pub use answer::Cover;
pub use inclusion::{cover, shows_gap};
pub use profile::Profile;
pub use question::Question;
