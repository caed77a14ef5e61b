//! The descriptors of standard input, output and error, taken before any socket is opened. Where the program
//! is started with one of them closed, the system gives its number to what is opened next: datagrams of
//! strangers would be read as the lines of an operator.

use std::rt::Files;
use std::{fs, io};

/// Is empty to whoever reads it.
pub const EMPTY: &str = "/dev/null";

/// Holds as many descriptors as there are standard ones, each of which takes the least number that is free.
#[derive(Drop)]
pub struct Descriptors<F: Drop> {
    _input: F,
    _output: F,
    _error: F,
}

/// Takes the standard descriptors that are free. They are held until the value is dropped.
pub fn hold<R: Files>(rt: &R) -> io::Result<Descriptors<R::File>> {
    Ok(Descriptors {
        _input: fs::open(rt, EMPTY)?,
        _output: fs::open(rt, EMPTY)?,
        _error: fs::open(rt, EMPTY)?,
    })
}
