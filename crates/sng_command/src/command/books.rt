//! The commands about scripts and books: `play`, `check` and `book`.

use crate::command::{with, with_word};
use clap::{Arg, ArgAction, ArgMatches, Command};
use sng_folder::{Asked, Form};
use std::alloc::{AllocError, Global};

/// The words of `sng book ..`.
#[derive(Drop)]
pub struct BookWords<'a> {
    /// Where the books are.
    pub paths: Vec<&'a str>,
    /// Which of their decisions are told.
    pub asked: Asked<'a>,
    /// How they are told.
    pub form: Form,
    /// Whether the last of the books is read on as it grows.
    pub is_followed: bool,
}

/// The program's command with those of this module.
pub fn with_books<'a>(alloc: Global, command: Command<'a>) -> Result<Command<'a>, AllocError> {
    let play = Command::new(alloc, "play").about("Plays a script of events from standard input");
    let command = with(command, Ok(play))?;
    let command = with(command, check_command(alloc))?;
    with(command, book_command(alloc))
}

fn check_command<'a>(alloc: Global) -> Result<Command<'a>, AllocError> {
    let command = Command::new(alloc, "check").about(
        "Tells whether a book is a lawful history: of a script from standard input, or on disk",
    );
    let book = Arg::new(alloc, "PATH")
        .long("book")
        .help("The folders of books on disk, each of which is checked, or files of one")
        .num_args(1..)
        .action(ArgAction::Append);
    let command = command.arg(book)?;
    with_word(command, script(alloc))
}

/// The script whose book stands on standard input.
fn script<'a>(alloc: Global) -> Result<Arg<'a>, AllocError> {
    Arg::new(alloc, "SCRIPT")
        .help("The file of the script whose book standard input is to have")
        .action(ArgAction::Set)
        .required_unless_present("PATH")?
        .conflicts_with("PATH")
}

/// The file that `sng check SCRIPT` names.
pub fn script_word<'a>(matches: &ArgMatches<'a>) -> &'a str {
    matches.get_str("SCRIPT").unwrap_or("")
}

/// The paths that the command names, where it names any.
pub fn paths<'a>(
    alloc: Global,
    matches: &ArgMatches<'a>,
) -> Result<Option<Vec<&'a str>>, AllocError> {
    match matches.get_strs("PATH") {
        Some(paths) => Ok(Some(Vec::from_slice(alloc, paths)?)),
        None => Ok(None),
    }
}

fn book_command<'a>(alloc: Global) -> Result<Command<'a>, AllocError> {
    let command = Command::new(alloc, "book").about(
        "Tells what was decided, by a book on disk or the rows of standard input",
    );
    let command = with_whom(alloc, command)?;
    let command = with_outcomes(alloc, command)?;
    let command = with_times(alloc, command)?;
    let command = with_counts(alloc, command)?;
    let path = Arg::new(alloc, "PATH")
        .help("Folders of books on disk or files of one, or `-` for standard input")
        .required(true)
        .num_args(1..)
        .action(ArgAction::Append);
    command.arg(path)
}

/// The command with the options that say of whom, from where and about what decisions are.
fn with_whom<'a>(alloc: Global, command: Command<'a>) -> Result<Command<'a>, AllocError> {
    let client = option(
        alloc,
        "ID",
        "client",
        "Only decisions that speak of this client",
    );
    let command = with_word(command, Ok(client))?;
    let from = option(
        alloc,
        "IP",
        "from",
        "Only those of what came from here, IP or IP:PORT, or of who is here",
    );
    let command = with_word(command, Ok(from))?;
    let name = option(
        alloc,
        "FILTER",
        "name",
        "Only those about names that this topic filter matches",
    );
    with_word(command, Ok(name))
}

/// The command with the options that say what was decided, and how it is told.
fn with_outcomes<'a>(alloc: Global, command: Command<'a>) -> Result<Command<'a>, AllocError> {
    let denied = Arg::new(alloc, "denied")
        .long("denied")
        .help("Only those that denied something")
        .action(ArgAction::SetTrue);
    let command = command.arg(denied)?;
    let kind = option(
        alloc,
        "KINDS",
        "kind",
        "Only those of these kinds, as publish,hand",
    );
    let command = with_word(command, Ok(kind))?;
    let json = Arg::new(alloc, "json")
        .long("json")
        .help("Tells each as an object of JSON on a line of its own")
        .action(ArgAction::SetTrue);
    command.arg(json)
}

/// The command with the options that say when decisions were made.
fn with_times<'a>(alloc: Global, command: Command<'a>) -> Result<Command<'a>, AllocError> {
    let since = option(
        alloc,
        "SINCE",
        "since",
        "Only those of this time or later, in UTC, as 2026-11-26T12:00:00Z",
    );
    let command = with_word(command, Ok(since))?;
    let until = option(alloc, "UNTIL", "until", "Only those of this time or before");
    let command = with_word(command, Ok(until))?;
    let row = option(
        alloc,
        "ROWS",
        "row",
        "Only those of this row or these, as 7, 7..12, 7.. or ..12",
    );
    with_word(command, Ok(row))
}

/// The command with the options that tell no decision by itself, or no end.
fn with_counts<'a>(alloc: Global, command: Command<'a>) -> Result<Command<'a>, AllocError> {
    let count = Arg::new(alloc, "count")
        .long("count")
        .help("Tells only how many there are, by kind and by whom they speak of")
        .action(ArgAction::SetTrue)
        .conflicts_with("json");
    let command = with_word(command, count)?;
    let follow = Arg::new(alloc, "follow")
        .long("follow")
        .help("Goes on as the last book grows, until it is stopped from outside")
        .action(ArgAction::SetTrue)
        .conflicts_with("count");
    with_word(command, follow)
}

/// An option with a word behind it.
fn option<'a>(alloc: Global, id: &'a str, long: &'a str, help: &'a str) -> Arg<'a> {
    Arg::new(alloc, id)
        .long(long)
        .help(help)
        .action(ArgAction::Set)
}

/// The words of `sng book ..`. The paths are there.
pub fn book_words<'a>(
    alloc: Global,
    matches: &ArgMatches<'a>,
) -> Result<BookWords<'a>, AllocError> {
    let paths = match paths(alloc, matches)? {
        Some(paths) => paths,
        None => Vec::new(alloc),
    };
    let asked = Asked {
        client: matches.get_str("ID"),
        from: matches.get_str("IP"),
        name: matches.get_str("FILTER"),
        is_denied: matches.get_flag("denied"),
        kinds: matches.get_str("KINDS"),
        since: matches.get_str("SINCE"),
        until: matches.get_str("UNTIL"),
        rows: matches.get_str("ROWS"),
    };
    Ok(BookWords {
        paths,
        asked,
        form: form_in(matches),
        is_followed: matches.get_flag("follow"),
    })
}

/// How decisions are told.
fn form_in(matches: &ArgMatches<'_>) -> Form {
    if matches.get_flag("json") {
        Form::Json
    } else if matches.get_flag("count") {
        Form::Count
    } else {
        Form::Words
    }
}
