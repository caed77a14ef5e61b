//! Answers on inclusion for whoever writes policies: a filter, and those that are granted.
ghost use Rattle.std.specs.Prelude.{◌≡◌, ◌++◌, IfOk, OnOk};
ghost use Rattle.sng_questions.specs.Covers.{answer_of, answer_text, status_of};

use sng_book::print::{push_decimal, push_name};
use sng_cover::{Cover, cover};
use sng_script::Status;
use sng_script::ending::end;
use sng_text::{Octets, TextFault, TopicFilter};
use std::alloc::{AllocError, Global};
use std::io::Write;

/// What is answered to words that are to be filters.
#[derive(Debug, Drop)]
pub enum Answer {
    /// All are filters; whether those after the first cover it.
    Covered(Cover),
    /// The word at this place, from 1, is not a valid filter, and each word before it is one.
    BadFilter(usize),
}

/// Prints whether the first word, as a filter, is included in the union of those that follow, and flushes:
/// `included`, or `uncovered NAME` with the name that shows the gap, or `bad filter N` for the first word
/// that is not a valid filter, from 1. Names are printed as in rows. `Done` is answered for `included` alone.
pub fn cover_words<W: Write + Drop>(alloc: Global, words: &[Octets], mut output: W) -> Status {
    let (printed, status) = match answer_line(alloc, words) {
        Ok((line, status)) => (output.write_all(line.as_slice()), status),
        Err(AllocError) => (output.write_all(b"out of memory\n"), Status::OutOfMemory),
    };
    end(status, printed, &mut output)
}

/// The line that is printed for the words, and how that run comes out. Only memory can fail.
pub fn answer_line(alloc: Global, words: &[Octets]) -> Result<(Vec<u8>, Status), AllocError>
    ensures text { IfOk result (λ line. line.0.items ≡ answer_text (answer_of words.now)) }
    ensures status { IfOk result (λ line. line.1 ≡ status_of (answer_of words.now)) }
{
    let answer = answer_to(alloc, words)?;
    let mut text = Vec::new(alloc);
    push_answer(&mut text, &answer)?;
    Ok((text, status(&answer)))
}

/// Reads the words and answers. Only memory can fail.
fn answer_to(alloc: Global, words: &[Octets]) -> Result<Answer, AllocError>
    ensures { IfOk result (λ answer. answer ≡ answer_of words.now) }
{
    let mut filters = Vec::with_capacity(alloc, words.len())?;
    for (place, word) in words.iter().enumerate() {
        match TopicFilter::read(alloc, word.as_slice()) {
            Ok(filter) => filters.push(filter)?,
            Err(TextFault::Memory) => return Err(AllocError),
            Err(_) => return Ok(Answer::BadFilter(place + 1)),
        }
    }
    match filters.as_slice() {
        [] => Ok(Answer::BadFilter(1)),
        [asked, granted @ ..] => Ok(Answer::Covered(cover(alloc, asked, granted)?)),
    }
}

/// Appends the line of an answer.
fn push_answer(text: &mut Vec<u8>, answer: &Answer) -> Result<(), AllocError>
    ensures { OnOk result (text.new.items ≡ text.old.items ++ answer_text answer.now) }
{
    match answer {
        Answer::Covered(Cover::Included) => text.extend_from_slice(b"included\n"),
        Answer::Covered(Cover::Uncovered(name)) => {
            text.extend_from_slice(b"uncovered ")?;
            push_name(text, name.text())?;
            text.extend_from_slice(b"\n")
        }
        Answer::BadFilter(place) => {
            text.extend_from_slice(b"bad filter ")?;
            push_decimal(text, *place as u64)?;
            text.extend_from_slice(b"\n")
        }
    }
}

/// How a run with this answer comes out.
fn status(answer: &Answer) -> Status
    ensures { result ≡ status_of answer.now }
{
    match answer {
        Answer::Covered(Cover::Included) => Status::Done,
        Answer::Covered(Cover::Uncovered(_)) => Status::Uncovered,
        Answer::BadFilter(_) => Status::Unreadable,
    }
}
