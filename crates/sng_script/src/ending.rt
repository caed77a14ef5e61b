//! What ends every command: its text is flushed, and its exit status says whether all of it was printed.
ghost use Rattle.std.specs.Prelude.{◌≡◌, ◌⊎◌, OnErr};
ghost use Rattle.std.specs.Io.KnownBytes.{Keeps};
ghost use Rattle.sng_script.specs.Statuses.{ended, lost};

use crate::Status;
use std::io::{Result, Write};

/// How a command ends that came to this, where all of its text was printed, or not.
pub fn ended(status: Status, is_printed: bool) -> Status
    ensures { result ≡ ended status is_printed }
{
    match (status, is_printed) {
        (status, true) => status,
        (Status::BadCommandLine, false) => Status::BadCommandLine,
        (Status::Done, false)
        | (Status::Uncovered, false)
        | (Status::Denied, false)
        | (Status::Unlawful, false)
        | (Status::Unreadable, false)
        | (Status::OutOfMemory, false)
        | (Status::Failed, false) => Status::Failed,
    }
}

/// Flushes the text of a command, of which `printed` says whether it was written, and answers how the command
/// ends.
pub fn end<W: Write>(status: Status, printed: Result<()>, output: &mut W) -> Status
    ensures written { OnErr printed (result ≡ lost status) }
    ensures flushed { (result ≡ status) ⊎ (result ≡ lost status) }
    ensures bytes { Keeps (W.contents output.old) (W.contents output.new) }
{
    match printed {
        Ok(()) => ended(status, output.flush().is_ok()),
        Err(_) => ended(status, false),
    }
}
