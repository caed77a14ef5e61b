//! The commands that answer questions about filters and policies: `cover`, `may` and `policy`.

use crate::command::{with, with_word};
use clap::{Arg, ArgAction, ArgMatches, Command};
use std::alloc::{AllocError, Global};

/// The words of a question to a policy.
#[derive(Clone, Copy, Debug, PartialEq, Eq)]
pub struct MayWords<'a> {
    /// The file of the policy.
    pub policy: &'a str,
    /// The time for which it is asked; now where there is none.
    pub at: Option<&'a str>,
    /// The source that asks, where it is no client.
    pub source: Option<&'a str>,
    /// The client; of a source the action.
    pub first: &'a str,
    /// The action; of a source the name.
    pub second: &'a str,
    /// The name or filter of a client.
    pub third: Option<&'a str>,
}

/// The program's command with those of this module.
pub fn with_questions<'a>(alloc: Global, command: Command<'a>) -> Result<Command<'a>, AllocError> {
    let command = with(command, cover_command(alloc))?;
    let command = with(command, may_command(alloc))?;
    with(command, policy_command(alloc))
}

fn cover_command<'a>(alloc: Global) -> Result<Command<'a>, AllocError> {
    let command = Command::new(alloc, "cover").about(
        "Tells whether a topic filter matches only names that granted ones match",
    );
    let filter = Arg::new(alloc, "FILTER")
        .help("The topic filter that is asked for")
        .required(true)
        .action(ArgAction::Set);
    let command = command.arg(filter)?;
    let granted = Arg::new(alloc, "GRANTED")
        .help("The topic filters that are granted")
        .num_args(0..)
        .action(ArgAction::Append);
    command.arg(granted)
}

fn may_command<'a>(alloc: Global) -> Result<Command<'a>, AllocError> {
    let command = Command::new(alloc, "may").about("Tells what a policy allows");
    let command = with_policy_and_source(alloc, command)?;
    let command = with_who_and_what(alloc, command)?;
    with_word(command, object(alloc))
}

/// The command with the options of `sng may`.
fn with_policy_and_source<'a>(
    alloc: Global,
    command: Command<'a>,
) -> Result<Command<'a>, AllocError> {
    let policy = Arg::new(alloc, "FILE")
        .long("policy")
        .help("The file of the policy")
        .required(true)
        .action(ArgAction::Set);
    let command = command.arg(policy)?;
    let source = Arg::new(alloc, "IP")
        .long("source")
        .help("Asks for the source with this IPv4 address: CLIENT is left out")
        .action(ArgAction::Set);
    let command = command.arg(source)?;
    let at = Arg::new(alloc, "TIME")
        .long("at")
        .help("Asks for this time: ms of Unix time, or a date and a time; without it for now")
        .action(ArgAction::Set);
    command.arg(at)
}

/// The command with the words of `sng may` that are always there.
fn with_who_and_what<'a>(alloc: Global, command: Command<'a>) -> Result<Command<'a>, AllocError> {
    let client = Arg::new(alloc, "CLIENT")
        .help("The client that asks")
        .required(true)
        .action(ArgAction::Set);
    let command = command.arg(client)?;
    let action = Arg::new(alloc, "ACTION")
        .help("publish, receive or subscribe; for a source publish")
        .required(true)
        .action(ArgAction::Set);
    command.arg(action)
}

/// What is asked about, where a client asks.
fn object<'a>(alloc: Global) -> Result<Arg<'a>, AllocError> {
    Arg::new(alloc, "NAME")
        .help("The topic name, or to subscribe the topic filter")
        .action(ArgAction::Set)
        .required_unless_present("IP")?
        .conflicts_with("IP")
}

/// The words of `sng may ..`. Those that are required are there.
pub fn may_words<'a>(matches: &ArgMatches<'a>) -> MayWords<'a> {
    MayWords {
        policy: matches.get_str("FILE").unwrap_or(""),
        at: matches.get_str("TIME"),
        source: matches.get_str("IP"),
        first: matches.get_str("CLIENT").unwrap_or(""),
        second: matches.get_str("ACTION").unwrap_or(""),
        third: matches.get_str("NAME"),
    }
}

/// The words of a check of a policy.
#[derive(Clone, Copy, Debug, PartialEq, Eq)]
pub struct PolicyWords<'a> {
    /// The file of the policy; standard input where there is none.
    pub file: Option<&'a str>,
    /// Whether its canonical text is printed.
    pub is_printed: bool,
}

fn policy_command<'a>(alloc: Global) -> Result<Command<'a>, AllocError> {
    let command = Command::new(alloc, "policy").about(
        "Checks a policy, and shows where its first fault stands",
    );
    let print = Arg::new(alloc, "print")
        .long("print")
        .help("Prints the policy as one line, the same for all texts of it")
        .action(ArgAction::SetTrue);
    let command = command.arg(print)?;
    let file = Arg::new(alloc, "FILE")
        .help("The file of the policy; standard input where there is none")
        .action(ArgAction::Set);
    command.arg(file)
}

/// The words of `sng policy ..`.
pub fn policy_words<'a>(matches: &ArgMatches<'a>) -> PolicyWords<'a> {
    PolicyWords {
        file: matches.get_str("FILE"),
        is_printed: matches.get_flag("print"),
    }
}
