//! `sng may ..`: its words, and what is printed where there is no answer.
use crate::file::{file_text, first_no_text, report_file, report_word};
use sng_command::{MayWords, out_of_memory};
use sng_questions::inquiry::{Inquiry, InquiryFault, client_inquiry, source_inquiry};
use sng_questions::may::may;
use sng_script::Status;
use sng_script::ending::ended;
use sng_text::Octets;
use sng_times::read_time;
use std::alloc::Global;
use std::io;
use std::rt::{Clock, Files};

/// Answers the question of the words by the policy in their file.
pub fn answer<R: Files + Clock + Print + Eprint + AllocGlobal>(
    rt: &R,
    words: &[Octets],
    asked: &MayWords<'_>,
) -> Status {
    if let Some(place) = first_no_text(words) {
        return report_word(rt, place);
    }
    let clock = match clock_of(rt, asked.at) {
        Ok(clock) => clock,
        Err(status) => return status,
    };
    match inquiry_of(rt.alloc(), asked) {
        Ok(inquiry) => answer_by_file(rt, &inquiry, clock, asked.policy),
        Err(fault) => report_inquiry(rt, fault),
    }
}

/// The clock for which it is asked, in ms of Unix time: where no time is given, that of now. Where it cannot be
/// had, it is printed why.
fn clock_of<R: Clock + Eprint>(rt: &R, at: Option<&str>) -> Result<u64, Status> {
    let Some(text) = at else {
        return now(rt);
    };
    match read_time(text) {
        Some(clock) => Ok(clock),
        None => {
            let _ = rt.eprintln(
                "error: TIME is ms of Unix time, or a date and a time, as 2027-01-01T00:00:00Z",
            );
            Err(Status::BadCommandLine)
        }
    }
}

/// What the wall clock shows, in ms of Unix time.
fn now<R: Clock + Eprint>(rt: &R) -> Result<u64, Status> {
    match rt.since_1970() {
        Ok(now) => Ok(u64::try_from(now.as_millis()).unwrap_or(u64::MAX)),
        Err(error) => {
            let _ = eprintln!(rt; "error: the wall clock cannot be read: {error}");
            Err(Status::Failed)
        }
    }
}

/// Answers the question at the clock by the policy in the file.
fn answer_by_file<R: Files + Print + AllocGlobal>(
    rt: &R,
    inquiry: &Inquiry,
    clock: u64,
    path: &str,
) -> Status {
    match file_text(rt, path) {
        Ok(text) => may(rt.alloc(), inquiry, clock, text.as_slice(), io::writer(rt)),
        Err(error) => report_file(rt, path, &error),
    }
}

fn inquiry_of(alloc: Global, asked: &MayWords<'_>) -> Result<Inquiry, InquiryFault> {
    let first = asked.first.as_bytes();
    let second = asked.second.as_bytes();
    match (asked.source, asked.third) {
        (Some(source), _) => source_inquiry(alloc, source.as_bytes(), first, second),
        (None, Some(object)) => client_inquiry(alloc, first, second, object.as_bytes()),
        (None, None) => Err(InquiryFault::Action),
    }
}

/// Prints what is wrong with a question.
fn report_inquiry<R: Print + Eprint>(rt: &R, fault: InquiryFault) -> Status {
    let printed = match fault {
        InquiryFault::Action => {
            let _ = rt.eprintln(
                "error: ACTION is publish, receive or subscribe, and for a source publish",
            );
            return Status::BadCommandLine;
        }
        InquiryFault::Memory => return out_of_memory(rt),
        InquiryFault::Client => rt.println("bad client"),
        InquiryFault::Source => rt.println("bad source"),
        InquiryFault::Name => rt.println("bad name"),
        InquiryFault::Filter => rt.println("bad filter"),
    };
    ended(Status::Unreadable, printed.is_ok())
}
