//! `sng status`: a question to a running gateway over HTTP (RFC 9112), and what is printed of its answer.
#![tactic(auto)]

mod asking;
pub mod question;

pub use asking::status;
