//! The command line: what it asks for, and what one comes to that starts nothing.
ghost use Rattle.std.specs.Prelude.{◌≡◌, ◌≢◌, ◌⊎◌};
ghost use Rattle.clap.specs.Values.{kind_of};
ghost use Rattle.clap.specs.declared.error.ErrorKind.TheVariants.{DisplayHelp, DisplayVersion};

mod books;
mod escape;
mod examples;
mod questions;
mod services;

pub use books::BookWords;
use clap::{Arg, ArgMatches, Command, Error};
pub use escape::filters_among;
pub use examples::example_of;
pub use questions::{MayWords, PolicyWords};
use sng_operator::{VERSION, Words as ServeWords};
use sng_script::Status;
use std::alloc::{AllocError, Global};

/// What the command line asks for.
#[derive(Drop)]
pub enum Chosen<'a> {
    /// Plays a script from standard input.
    Play,
    /// Checks a book from standard input against the script of this file.
    Check(&'a str),
    /// Checks the books on disk at these paths.
    CheckBooks(Vec<&'a str>),
    /// Tells what was decided, by books on disk or rows.
    Book(BookWords<'a>),
    /// Answers whether a filter is covered by granted ones.
    Cover,
    /// Answers what a policy says to a question.
    May(MayWords<'a>),
    /// Checks a policy, or prints its canonical text.
    Policy(PolicyWords<'a>),
    /// Serves between devices and a broker.
    Serve(ServeWords<'a>),
    /// Tells how the gateway stands that serves its figures at this address.
    Status(&'a str),
    /// Serves MQTT clients at this address, for tests.
    Broker(&'a str),
}

/// What the words ask for, of which the first is the program's name. An `Err` is what is wrong with them, or
/// the help that they ask for.
pub fn read_command(alloc: Global, words: &[String]) -> Result<Chosen<'_>, Error> {
    let matches = program(alloc)?.try_get_matches_from(words)?;
    Ok(choice(alloc, &matches)?)
}

/// What was matched. Those of its words that are required are there.
fn choice<'a>(alloc: Global, matches: &ArgMatches<'a>) -> Result<Chosen<'a>, AllocError> {
    match matches.subcommand() {
        Some(("check", asked)) => check_choice(alloc, asked),
        Some(("book", asked)) => Ok(Chosen::Book(books::book_words(alloc, asked)?)),
        Some(("cover", _)) => Ok(Chosen::Cover),
        Some(("may", asked)) => Ok(Chosen::May(questions::may_words(asked))),
        Some(("policy", asked)) => Ok(Chosen::Policy(questions::policy_words(asked))),
        Some(("serve", asked)) => Ok(Chosen::Serve(services::serve_words(asked))),
        Some(("status", asked)) => Ok(Chosen::Status(services::status_word(asked))),
        Some(("broker", asked)) => Ok(Chosen::Broker(services::broker_word(asked))),
        _ => Ok(Chosen::Play),
    }
}

/// What `sng check ..` asks for.
fn check_choice<'a>(alloc: Global, asked: &ArgMatches<'a>) -> Result<Chosen<'a>, AllocError> {
    match books::paths(alloc, asked)? {
        Some(paths) => Ok(Chosen::CheckBooks(paths)),
        None => Ok(Chosen::Check(books::script_word(asked))),
    }
}

// Each `?` below finds nothing alive but what it takes: a command that is dropped at many exits is dear to
// check.

/// All that the program understands.
fn program<'a>(alloc: Global) -> Result<Command<'a>, AllocError> {
    let command = Command::new(alloc, "sng")
        .about("A gateway from MQTT-SN 1.2 to MQTT 3.1.1")
        .version(VERSION)
        .subcommand_required(true);
    let command = books::with_books(alloc, command)?;
    let command = questions::with_questions(alloc, command)?;
    services::with_services(alloc, command)
}

/// The command with one more below it.
fn with<'a>(
    command: Command<'a>,
    more: Result<Command<'a>, AllocError>,
) -> Result<Command<'a>, AllocError> {
    match more {
        Ok(more) => command.subcommand(more),
        Err(error) => Err(error),
    }
}

/// The command with one more word.
fn with_word<'a>(
    command: Command<'a>,
    word: Result<Arg<'a>, AllocError>,
) -> Result<Command<'a>, AllocError> {
    match word {
        Ok(word) => command.arg(word),
        Err(error) => Err(error),
    }
}

/// What a command line comes to that starts nothing: help that was asked for, or a fault.
pub fn status_of(error: &Error) -> Status
    ensures help { (kind_of error.now ≡ DisplayHelp) ⊎ (kind_of error.now ≡ DisplayVersion)
        → result ≡ Status.Done }
    ensures fault { kind_of error.now ≢ DisplayHelp → kind_of error.now ≢ DisplayVersion
        → result ≡ Status.BadCommandLine }
{
    if error.use_stderr() {
        Status::BadCommandLine
    } else {
        Status::Done
    }
}
