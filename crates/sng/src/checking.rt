//! `sng check ..`: the script, and the book from standard input.
use crate::file::{first_no_text, report_file, report_word};
use sng_check::check;
use sng_script::Status;
use sng_text::Octets;
use std::rt::Files;
use std::{fs, io};

/// Checks the book of standard input against the script of the file.
pub fn answer<R: Files + Input + Print + AllocGlobal>(
    rt: &R,
    words: &[Octets],
    path: &str,
) -> Status {
    if let Some(place) = first_no_text(words) {
        return report_word(rt, place);
    }
    match fs::open(rt, path) {
        Ok(script) => check(rt.alloc(), script, rt.reader(), io::writer(rt)),
        Err(error) => report_file(rt, path, &error),
    }
}
