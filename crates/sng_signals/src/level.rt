//! How grave a line on standard error is: a word by which people and journald sort lines.

use std::fmt;
use std::fmt::{Display, Formatter, Write};

/// How grave a line is.
#[derive(Clone, Copy, Debug, PartialEq, Eq)]
pub enum Level {
    /// What goes as it should.
    Info,
    /// Something was refused, lost, or waits; the gateway goes on.
    Warning,
    /// The gateway cannot do what it was asked to, or a part of it has ended.
    Error,
}

impl Display for Level {
    fn fmt<W: Write>(&self, f: &mut Formatter<W>) -> fmt::Result {
        f.write_str(match self {
            Level::Info => "info",
            Level::Warning => "warning",
            Level::Error => "error",
        })
    }
}
