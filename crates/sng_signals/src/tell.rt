//! Lines for an operator, on standard error.

use crate::level::Level;
use std::fmt::Display;

/// Prints a line in one piece. One that cannot be printed is lost: nothing depends on it.
pub fn tell<R: Eprint + AllocGlobal, D: Display + Drop>(rt: &R, level: Level, what: D) {
    if let Ok(line) = format!(in rt.alloc(); "sng: {level}: {what}\n") {
        let _ = rt.eprint(line.as_str());
    }
}
