//! The file of a policy, and the words that name it.
ghost use Rattle.std.specs.Prelude.{◌≢◌};

use sng_command::out_of_memory;
use sng_script::Status;
use sng_script::ending::ended;
use sng_script::file::read_text;
use sng_text::Octets;
use std::io::{Error, ErrorKind};
use std::rt::Files;
use std::{fs, io, str};

/// The text of the file.
pub fn file_text<R: Files + AllocGlobal>(rt: &R, path: &str) -> io::Result<Vec<u8>> {
    read_text(rt.alloc(), fs::open(rt, path)?)
}

/// Prints why a file was not read.
pub fn report_file<R: Print>(rt: &R, path: &str, error: &Error) -> Status {
    if error.kind() == ErrorKind::OutOfMemory {
        return out_of_memory(rt);
    }
    let printed = println!(rt; "cannot read {path}: {error}");
    ended(Status::Unreadable, printed.is_ok())
}

/// The place of the first word that is not UTF-8, where the program's name has the place 0.
pub fn first_no_text(words: &[Octets]) -> Option<usize> {
    words
        .iter()
        .position(|word| str::from_utf8(word.as_slice()).is_err())
}

/// Prints that the word at this place is not UTF-8.
pub fn report_word<R: Print>(rt: &R, place: usize) -> Status
    ensures { result ≢ Status.Done }
{
    let printed = println!(rt; "bad word {place}");
    ended(Status::Unreadable, printed.is_ok())
}
