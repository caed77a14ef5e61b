//! The commands that go on until they are stopped, `serve` and `broker`, and `status`, which asks a gateway.

use crate::command::{with, with_word};
use clap::{Arg, ArgAction, ArgMatches, Command, value_parser};
use sng_config::{MAX_FLOOD, MAX_WORKERS, MIN_FLOOD, MIN_WORKERS};
use sng_metrics::USUAL_METRICS;
use sng_operator::Words;
use std::alloc::{AllocError, Global};

/// The program's command with those of this module.
pub fn with_services<'a>(alloc: Global, command: Command<'a>) -> Result<Command<'a>, AllocError> {
    let command = with(command, serve_command(alloc))?;
    let command = with(command, status_command(alloc))?;
    with(command, broker_command(alloc))
}

fn serve_command<'a>(alloc: Global) -> Result<Command<'a>, AllocError> {
    let command = Command::new(alloc, "serve").about(
        "Serves between MQTT-SN devices and an MQTT broker, until `quit` or the end of input",
    );
    let command = with_config(alloc, command)?;
    let command = with_addresses(alloc, command)?;
    let command = with_numbers(alloc, command)?;
    let command = with_policy(alloc, command)?;
    let command = with_printing(alloc, command)?;
    let command = with_book(alloc, command)?;
    let command = with_metrics(alloc, command)?;
    with_flood_limits(alloc, command)
}

/// The command with the option that names the file of all others.
fn with_config<'a>(alloc: Global, command: Command<'a>) -> Result<Command<'a>, AllocError> {
    let config = Arg::new(alloc, "CONFIG")
        .long("config")
        .help("The file that says, in TOML, what the other options leave out")
        .action(ArgAction::Set);
    command.arg(config)
}

/// The command with the options that say who is served, and at which broker.
fn with_addresses<'a>(alloc: Global, command: Command<'a>) -> Result<Command<'a>, AllocError> {
    let listen = wanted(
        alloc,
        "LISTEN",
        "listen",
        "Where devices are listened to, IP:PORT",
    );
    let command = with_word(command, listen)?;
    let broker = wanted(alloc, "BROKER", "broker", "Where the broker is, IP:PORT");
    let command = with_word(command, broker)?;
    let id = wanted(
        alloc,
        "ID",
        "id",
        "The client id of the gateway at the broker",
    );
    with_word(command, id)
}

/// The command with the options that are numbers.
fn with_numbers<'a>(alloc: Global, command: Command<'a>) -> Result<Command<'a>, AllocError> {
    let command = with_word(command, workers(alloc))?;
    let tries = Arg::new(alloc, "TRIES")
        .long("tries")
        .help("How many tries to connect may fail in a row: 5 where it is left out; 0 is no end")
        .action(ArgAction::Set)
        .value_parser(value_parser!(u32));
    command.arg(tries)
}

fn workers<'a>(alloc: Global) -> Result<Arg<'a>, AllocError> {
    Arg::new(alloc, "N")
        .long("workers")
        .help("How many workers read datagrams, from 1 to 8")
        .action(ArgAction::Set)
        .value_parser(value_parser!(u32).range(i64::from(MIN_WORKERS)..=i64::from(MAX_WORKERS)))
        .required_unless_present("CONFIG")
}

/// The command with the options that say what is in force.
fn with_policy<'a>(alloc: Global, command: Command<'a>) -> Result<Command<'a>, AllocError> {
    let policy = Arg::new(alloc, "FILE")
        .long("policy")
        .help("The file of the policy, read at the start, when it changes, and on a line `reload`")
        .action(ArgAction::Set);
    let command = command.arg(policy)?;
    let unwatched = Arg::new(alloc, "no-watch")
        .long("no-watch")
        .help("Does not look whether the file of the policy changes")
        .action(ArgAction::SetTrue);
    command.arg(unwatched)
}

/// The command with the options that say what is printed.
fn with_printing<'a>(alloc: Global, command: Command<'a>) -> Result<Command<'a>, AllocError> {
    let verbose = Arg::new(alloc, "verbose")
        .long("verbose")
        .help("Prints rows as they are made")
        .action(ArgAction::SetTrue);
    let command = command.arg(verbose)?;
    let rows = Arg::new(alloc, "rows")
        .long("rows")
        .help("Prints all rows as the gateway stops")
        .action(ArgAction::SetTrue);
    let command = command.arg(rows)?;
    let time = Arg::new(alloc, "log-time")
        .long("log-time")
        .help("Begins each line on standard error with the time")
        .action(ArgAction::SetTrue);
    command.arg(time)
}

/// The command with the option that keeps the book on disk.
fn with_book<'a>(alloc: Global, command: Command<'a>) -> Result<Command<'a>, AllocError> {
    let book = Arg::new(alloc, "FOLDER")
        .long("book")
        .help("The folder where the book is kept on disk: without it a run ends with 1000000 rows")
        .action(ArgAction::Set);
    command.arg(book)
}

/// The command with the option that says where figures are asked for.
fn with_metrics<'a>(alloc: Global, command: Command<'a>) -> Result<Command<'a>, AllocError> {
    let metrics = Arg::new(alloc, "METRICS")
        .long("metrics")
        .help("Where figures are asked for over HTTP, IP:PORT: nowhere where it is left out")
        .action(ArgAction::Set);
    command.arg(metrics)
}

/// The command with the options that say what is passed over in a flood.
fn with_flood_limits<'a>(alloc: Global, command: Command<'a>) -> Result<Command<'a>, AllocError> {
    let each = Arg::new(alloc, "EACH")
        .long("flood-each")
        .help("How many denied datagrams a second one stranger may send: 50 where it is left out")
        .action(ArgAction::Set)
        .value_parser(value_parser!(u32).range(i64::from(MIN_FLOOD)..=i64::from(MAX_FLOOD)));
    let command = command.arg(each)?;
    let all = Arg::new(alloc, "ALL")
        .long("flood-all")
        .help("How many all strangers together may send: 1000 where it is left out")
        .action(ArgAction::Set)
        .value_parser(value_parser!(u32).range(i64::from(MIN_FLOOD)..=i64::from(MAX_FLOOD)));
    command.arg(all)
}

/// The words of `sng serve ..`, of which the numbers are ones.
pub fn serve_words<'a>(matches: &ArgMatches<'a>) -> Words<'a> {
    Words {
        config: matches.get_str("CONFIG"),
        listen: matches.get_str("LISTEN"),
        broker: matches.get_str("BROKER"),
        id: matches.get_str("ID"),
        workers: matches.get_one::<u32>("N"),
        tries: matches.get_one::<u32>("TRIES"),
        flood_each: matches.get_one::<u32>("EACH"),
        flood_all: matches.get_one::<u32>("ALL"),
        policy: matches.get_str("FILE"),
        book: matches.get_str("FOLDER"),
        metrics: matches.get_str("METRICS"),
        is_unwatched: matches.get_flag("no-watch"),
        is_verbose: matches.get_flag("verbose"),
        prints_rows: matches.get_flag("rows"),
        tells_time: matches.get_flag("log-time"),
    }
}

fn status_command<'a>(alloc: Global) -> Result<Command<'a>, AllocError> {
    let address = Arg::new(alloc, "ADDRESS")
        .help("Where it serves its figures, IP:PORT: 127.0.0.1:9884 where it is left out")
        .action(ArgAction::Set);
    Command::new(alloc, "status")
        .about("Tells how a running gateway stands, which serves its figures by --metrics")
        .arg(address)
}

/// The address that `sng status ..` names, or else the usual one.
pub fn status_word<'a>(matches: &ArgMatches<'a>) -> &'a str {
    matches.get_str("ADDRESS").unwrap_or(USUAL_METRICS)
}

fn broker_command<'a>(alloc: Global) -> Result<Command<'a>, AllocError> {
    let listen = Arg::new(alloc, "LISTEN")
        .long("listen")
        .help("Where clients are listened to, IP:PORT")
        .required(true)
        .action(ArgAction::Set);
    Command::new(alloc, "broker")
        .about("A small MQTT broker for tests, until it is stopped from outside")
        .arg(listen)
}

/// The address that `sng broker ..` names.
pub fn broker_word<'a>(matches: &ArgMatches<'a>) -> &'a str {
    matches.get_str("LISTEN").unwrap_or("")
}

/// An option that has to be given, here or in the configuration file.
fn wanted<'a>(
    alloc: Global,
    id: &'a str,
    long: &'a str,
    help: &'a str,
) -> Result<Arg<'a>, AllocError> {
    Arg::new(alloc, id)
        .long(long)
        .help(help)
        .action(ArgAction::Set)
        .required_unless_present("CONFIG")
}
