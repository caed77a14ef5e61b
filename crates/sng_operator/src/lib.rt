//! What an operator of a running gateway says, and what an operator sees: the words of the command line, the
//! lines of standard input, rows, denials and how the gateway stands and ends.
#![tactic(auto)]

pub mod ask;
pub mod clients;
pub mod commands;
pub mod config;
pub mod denials;
pub mod ends;
pub mod fate;
pub mod file_look;
pub mod in_force;
pub mod lists;
pub mod news;
pub mod pace;
pub mod policy_file;
pub mod roles;
pub mod rows;
pub mod status;
pub mod verbosity;
pub mod version;

pub use ask::Words;
pub use ends::End;
pub use version::VERSION;
