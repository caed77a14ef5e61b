//! `sng check`: what is printed of a book, and how that comes out.
ghost use Rattle.std.specs.Prelude.{ℕ, List, Option, None, IfOk};
ghost use Rattle.sng_check.specs.Outcomes.{IsCheck, Tells};
ghost use Rattle.sng_check.specs.Reports.{IsAnswer};

use crate::judging::judge;
use crate::report::{push_verdict, status};
use sng_script::ending::end;
use sng_script::{Obstacle, Status};
use std::alloc::Global;
use std::io::{Read, Write};

/// Prints whether the book is that of the script, and flushes: `lawful N rows`; or where it departs from
/// that, what stands there, and what should. `Done` is answered for a lawful book alone, when it and the
/// script have been read to their ends, and `Unlawful` for one that departs. A line of the book that is
/// longer than `MAX_LINE` prints `unreadable book`, and a failure to read prints nothing.
pub fn check<S: Read + Drop, B: Read + Drop, W: Write + Drop>(
    alloc: Global,
    script: S,
    book: B,
    mut output: W,
) -> Status
    ensures { IsCheck result (S.remaining script) (B.remaining book) None None }
{
    print_check(alloc, script, book, &mut output)
}

/// Checks and prints as `check` does.
pub fn print_check<S: Read + Drop, B: Read + Drop, W: Write>(
    alloc: Global,
    script: S,
    book: B,
    output: &mut W,
) -> Status
    ensures { IsCheck result (S.remaining script) (B.remaining book)
        (W.contents output.old) (W.contents output.new) }
{
    match checked(alloc, script, book) {
        Ok((text, status)) => tell(text.as_slice(), status, output),
        Err(obstacle) => tell_obstacle(obstacle, output),
    }
}

/// What is printed of the book, and how the check of it comes out.
pub fn checked<S: Read + Drop, B: Read + Drop>(
    alloc: Global,
    script: S,
    book: B,
) -> Result<(Vec<u8>, Status), Obstacle>
    ensures { IfOk result (λ answer.
        IsAnswer (S.remaining script) (B.remaining book) answer.0.items answer.1) }
{
    let verdict = judge(alloc, script, book)?;
    let mut text = Vec::new(alloc);
    push_verdict(&mut text, &verdict)?;
    Ok((text, status(&verdict)))
}

/// Prints why nothing is said of the book, where that is printed, and ends the command.
fn tell_obstacle<W: Write>(obstacle: Obstacle, output: &mut W) -> Status
    ensures { (script book : Option (List ℕ))
        → IsCheck result script book (W.contents output.old) (W.contents output.new) }
{
    match obstacle {
        Obstacle::Unreadable => tell(b"unreadable book\n", Status::Unreadable, output),
        Obstacle::OutOfMemory => tell(b"out of memory\n", Status::OutOfMemory, output),
        Obstacle::Failed => tell(b"", Status::Failed, output),
    }
}

/// Prints the text and ends the command.
fn tell<W: Write>(text: &[u8], status: Status, output: &mut W) -> Status
    ensures { Tells result status text.now (W.contents output.old) (W.contents output.new) }
{
    let printed = output.write_all(text);
    end(status, printed, output)
}
