//! What a line of standard input asks a running gateway for.
ghost use Rattle.std.specs.Prelude.{◌≡◌, ◌++◌, codes, OnOk};
ghost use Rattle.sng_operator.specs.Commands.{asked_by, front_of, request_of, unknown_text, verbosity_named};
ghost use Rattle.sng_operator.specs.Commands.{without_return, word_request, words_request};

use crate::verbosity::Verbosity;
use sng_book::print::push_name;
use sng_questions::MAX_SHOWN;
use sng_script::sender::parted;
use std::alloc::AllocError;

/// What a line asks for.
#[derive(Clone, Copy, Debug, PartialEq, Eq)]
pub enum Command<'a> {
    /// Nothing: the line is empty.
    Nothing,
    /// This text is to come into force as the policy.
    Policy(&'a [u8]),
    /// The file of the policy is to be read again.
    Reload,
    /// How the gateway stands is to be printed.
    Status,
    /// These rows are to be printed from now on.
    Verbose(Verbosity),
    /// What a line can ask for is to be told.
    Help,
    /// The gateway is to stop.
    Quit,
    /// The line is none of these.
    Unknown(&'a [u8]),
}

/// What `help` tells, a line each.
pub const HELP: [&str; 8] = [
    "policy TEXT      brings the policy of this text into force; a text that begins with { may stand alone",
    "reload           reads the file of --policy again",
    "status           prints how the gateway stands",
    "verbose on       prints all rows as they are made",
    "verbose denials  prints the rows with a denial",
    "verbose off      prints no rows",
    "quit             stops the gateway, and closes the book",
    "help             tells these lines",
];

/// What the line asks for, without the line feed at its end.
pub fn command_of(line: &[u8]) -> Command<'_>
    ensures { request_of result ≡ asked_by line.now }
{
    let line = without_return(line);
    if line.first() == Some(&b'{') {
        return Command::Policy(line);
    }
    match parted(line, b' ') {
        None => word_command(line),
        Some((word, rest)) => words_command(line, word, rest),
    }
}

/// What a line of one word asks for, or of none.
fn word_command(word: &[u8]) -> Command<'_>
    ensures { request_of result ≡ word_request word.now }
{
    if word.is_empty() {
        Command::Nothing
    } else if word == b"reload".as_slice() {
        Command::Reload
    } else if word == b"status".as_slice() {
        Command::Status
    } else if word == b"help".as_slice() {
        Command::Help
    } else if word == b"quit".as_slice() {
        Command::Quit
    } else {
        Command::Unknown(word)
    }
}

/// What the line asks for with this word before its first space, and this behind it.
fn words_command<'a>(line: &'a [u8], word: &[u8], rest: &'a [u8]) -> Command<'a>
    ensures { request_of result ≡ words_request line.now word.now rest.now }
{
    if word == b"policy".as_slice() {
        return Command::Policy(rest);
    }
    if word != b"verbose".as_slice() {
        return Command::Unknown(line);
    }
    match verbosity_named(rest) {
        Some(verbosity) => Command::Verbose(verbosity),
        None => Command::Unknown(line),
    }
}

/// Which rows the word behind `verbose` asks for.
fn verbosity_named(word: &[u8]) -> Option<Verbosity>
    ensures { result ≡ verbosity_named word.now }
{
    if word == b"on".as_slice() {
        Some(Verbosity::On)
    } else if word == b"denials".as_slice() {
        Some(Verbosity::Denials)
    } else if word == b"off".as_slice() {
        Some(Verbosity::Off)
    } else {
        None
    }
}

/// The line without the carriage return of a line end of two bytes.
fn without_return(line: &[u8]) -> &[u8]
    ensures { result.now ≡ without_return line.now }
{
    match line.strip_suffix(b"\r".as_slice()) {
        Some(text) => text,
        None => line,
    }
}

/// Appends what is told of a line that asks for nothing that is known: its bytes as in rows, up to a bound.
pub fn push_unknown(text: &mut Vec<u8>, line: &[u8]) -> Result<(), AllocError>
    ensures { OnOk result (text.new.items ≡ text.old.items ++ unknown_text line.now) }
{
    text.extend_from_slice(b"unknown command: ")?;
    push_name(text, front_of(line))?;
    push_hint(text)
}

/// Appends where the lines are told that are known.
fn push_hint(text: &mut Vec<u8>) -> Result<(), AllocError>
    ensures { OnOk result (text.new.items ≡ text.old.items ++ codes " ('help' lists them)") }
{
    text.extend_from_slice(b" ('help' lists them)")
}

/// The line, or what of it is shown.
fn front_of(line: &[u8]) -> &[u8]
    ensures { result.now ≡ front_of line.now }
{
    &line[..line.len().min(MAX_SHOWN)]
}
