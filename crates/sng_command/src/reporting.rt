//! What is printed where a command was not run.
use crate::command::{example_of, status_of};
use clap::Error;
use clap::error::ErrorKind;
use sng_script::Status;
use sng_script::ending::ended;

/// Prints help that was asked for on standard output, or what is wrong with the command line on standard
/// error, there with a command line behind it that works, of the command that the word names.
pub fn report<R: Print + Eprint>(rt: &R, error: &Error, command: &str) -> Status {
    if error.kind() == ErrorKind::OutOfMemory {
        return out_of_memory(rt);
    }
    let printed = error.print(rt);
    if error.use_stderr() {
        let _ = rt.eprintln(format_args!("For example: sng {}", example_of(command)));
    }
    ended(status_of(error), printed.is_ok())
}

/// Prints that an allocation failed.
pub fn out_of_memory<R: Print>(rt: &R) -> Status {
    let printed = rt.println("out of memory");
    ended(Status::OutOfMemory, printed.is_ok())
}
