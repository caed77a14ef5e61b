//! `sng policy ..`: the text that it checks.
use crate::file::{file_text, first_no_text, report_file, report_word};
use sng_command::{PolicyWords, out_of_memory};
use sng_questions::canonical::canonical_of;
use sng_questions::report::{Report, report_of};
use sng_script::Status;
use sng_script::ending::end;
use sng_script::file::read_text;
use sng_text::Octets;
use std::alloc::AllocError;
use std::io::Write;
use std::rt::Files;
use std::{io, str};

/// Checks the policy text of the file, and of standard input where there is none, or prints its canonical
/// text.
pub fn check<R: Files + Input + Print + Eprint + AllocGlobal>(
    rt: &R,
    words: &[Octets],
    asked: PolicyWords<'_>,
) -> Status {
    if let Some(place) = first_no_text(words) {
        return report_word(rt, place);
    }
    let (name, text) = match asked.file {
        Some(path) => (path, file_text(rt, path)),
        None => ("standard input", read_text(rt.alloc(), rt.reader())),
    };
    match text {
        Ok(text) => print_report(rt, told(rt, text.as_slice(), asked.is_printed)),
        Err(error) => report_file(rt, name, &error),
    }
}

/// What is told of the text.
fn told<R: AllocGlobal>(rt: &R, text: &[u8], is_printed: bool) -> Result<Report, AllocError> {
    if is_printed {
        canonical_of(rt.alloc(), text)
    } else {
        report_of(rt.alloc(), text)
    }
}

/// Prints what is told of a text, and its warnings on standard error. A warning that cannot be printed
/// changes nothing.
fn print_report<R: Print + Eprint>(rt: &R, told: Result<Report, AllocError>) -> Status {
    match told {
        Ok(report) => {
            if let Ok(warnings) = str::from_utf8(report.warnings.as_slice()) {
                let _ = rt.eprint(warnings);
            }
            let mut output = io::writer(rt);
            let printed = output.write_all(report.lines.as_slice());
            end(report.status, printed, &mut output)
        }
        Err(AllocError) => out_of_memory(rt),
    }
}
