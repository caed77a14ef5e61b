//! Whether a book is the lawful history of a script's events: the script is played, and each line that it
//! prints is compared with the next one of the book. What is said of a book is said of lawful histories and
//! of none of the steps that make them: by the law that a row may come exactly if its outs are those of the
//! step, comparing decides it.
#![tactic(auto)]

pub mod checking;
mod compare;
pub mod found;
mod judging;
pub mod laws;
pub mod mismatch;
mod report;

pub use checking::check;
pub use judging::judge;
pub use mismatch::{Difference, Mismatch, Verdict};
