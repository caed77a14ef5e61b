//! How what is wrong in a policy text is printed.
ghost use Rattle.std.specs.Prelude.{◌≡◌, ◌++◌, OnOk, option_map, length};
ghost use Rattle.sng_text.specs.Levels.{levels_of};
ghost use Rattle.sng_questions.specs.Places.{shown_text, quoted_text, level_text, first_misplaced};
ghost use Rattle.sng_questions.specs.Places.{misplaced_text, bytes_text, count_text, filter_text, topic_text};
ghost use Rattle.sng_questions.specs.Places.{client_text, unit_text, words_of, many_text, flaw_text, range_text};

use crate::limits::MAX_SHOWN;
use crate::places::push_part;
use sng_book::print::{push_decimal, push_name};
use sng_places::{Flaw, Location};
use sng_text::bytes::{has_byte, is_hash, is_ordinary};
use sng_text::{Levels, MAX_CLIENT_ID, MAX_FILTER, MAX_NAME, TextFault};
use std::alloc::AllocError;

/// Appends what is wrong at the place.
pub fn push_flaw(line: &mut Vec<u8>, place: &Location, flaw: &Flaw) -> Result<(), AllocError>
    ensures { OnOk result (line.new.items ≡ line.old.items ++ flaw_text place.now flaw.now) }
{
    match flaw {
        Flaw::NotJson
        | Flaw::NotObject
        | Flaw::NoVersion
        | Flaw::OtherVersion
        | Flaw::UnknownMember
        | Flaw::NoScope
        | Flaw::NotEnd
        | Flaw::NotScope
        | Flaw::NotPair
        | Flaw::NotArray
        | Flaw::NotText
        | Flaw::Source
        | Flaw::TopicId => line.extend_from_slice(words_of(flaw).as_bytes()),
        Flaw::Base64(text) | Flaw::NotEncodedJson(text) | Flaw::Permission(text) => {
            push_quoted(line, text.as_slice())?;
            line.extend_from_slice(words_of(flaw).as_bytes())
        }
        Flaw::Filter(text, fault) => {
            push_quoted(line, text.as_slice())?;
            push_filter(line, text.as_slice(), *fault)
        }
        Flaw::ClientId(fault) => {
            line.extend_from_slice(words_of(flaw).as_bytes())?;
            push_client(line, *fault)
        }
        Flaw::TopicName(text, fault) => {
            push_quoted(line, text.as_slice())?;
            push_topic(line, text.as_slice(), *fault)
        }
        Flaw::NotLimit(least, most) => push_range(line, *least, *most),
        Flaw::TooMany(count, most) => push_many(line, place, *count, *most),
    }
}

/// What is wrong, in words that need nothing else.
fn words_of(flaw: &Flaw) -> &'static str
    ensures { result.now ≡ words_of flaw.now }
{
    match flaw {
        Flaw::NotJson => "not JSON",
        Flaw::NotObject => "not an object",
        Flaw::NoVersion => "no member version",
        Flaw::OtherVersion => "not the whole number 1, 2 or 4",
        Flaw::UnknownMember => "there is no such member",
        Flaw::NoScope => "no member scope",
        Flaw::NotEnd => "not a whole number of ms from 0 to 18446744073709551615",
        Flaw::NotScope => "neither an array of pairs nor a text",
        Flaw::NotPair => "not an array of a filter and its permissions",
        Flaw::NotArray => "not an array",
        Flaw::NotText => "not a text",
        Flaw::Base64(_) => "not base64url without padding",
        Flaw::NotEncodedJson(_) => "base64url of what is not JSON",
        Flaw::Filter(_, _) => "not a topic filter",
        Flaw::Permission(_) => "neither pub nor sub",
        Flaw::ClientId(_) => "not a client id: ",
        Flaw::Source => "not an IPv4 address in decimal without leading zeros",
        Flaw::TopicId => "not a topic id from 1 to 65534 in decimal without leading zeros",
        Flaw::TopicName(_, _) => "not a topic name",
        Flaw::NotLimit(_, _) => "not a whole number from ",
        Flaw::TooMany(_, _) => "too many",
    }
}

fn push_range(line: &mut Vec<u8>, least: usize, most: usize) -> Result<(), AllocError>
    ensures { OnOk result (line.new.items ≡ line.old.items ++ range_text least most) }
{
    push_count(line, "not a whole number from ", least)?;
    push_count(line, " to ", most)
}

fn push_many(
    line: &mut Vec<u8>,
    place: &Location,
    count: usize,
    most: usize,
) -> Result<(), AllocError>
    ensures { OnOk result (line.new.items ≡ line.old.items ++ many_text place.now count most) }
{
    push_decimal(line, count as u64)?;
    line.extend_from_slice(b" ")?;
    push_unit(line, place)?;
    line.extend_from_slice(b", at most ")?;
    push_decimal(line, most as u64)
}

fn push_unit(line: &mut Vec<u8>, place: &Location) -> Result<(), AllocError>
    ensures { OnOk result (line.new.items ≡ line.old.items ++ unit_text place.now) }
{
    match place {
        Location::Whole
        | Location::Version
        | Location::Member(_)
        | Location::Limits
        | Location::LimitMember(_)
        | Location::Limit(_)
        | Location::Other(_, _, _)
        | Location::End(_, _) => line.extend_from_slice(b"members"),
        Location::Part(part) => push_part(line, *part),
        Location::Name(_, _) | Location::Value(_, _, _, _) | Location::Scope(_, _, _, _) => {
            line.extend_from_slice(b"pairs")
        }
    }
}

/// Appends the text, or its first bytes, between quotes.
fn push_quoted(line: &mut Vec<u8>, text: &[u8]) -> Result<(), AllocError>
    ensures { OnOk result (line.new.items ≡ line.old.items ++ quoted_text text.now) }
{
    line.extend_from_slice(b"\"")?;
    push_shown(line, text)?;
    line.extend_from_slice(b"\": ")
}

fn push_shown(line: &mut Vec<u8>, text: &[u8]) -> Result<(), AllocError>
    ensures { OnOk result (line.new.items ≡ line.old.items ++ shown_text text.now) }
{
    if text.len() > MAX_SHOWN {
        let front = &text[..MAX_SHOWN];
        push_name(line, front)?;
        line.extend_from_slice(b"..")
    } else {
        push_name(line, text)
    }
}

fn push_filter(line: &mut Vec<u8>, text: &[u8], fault: TextFault) -> Result<(), AllocError>
    ensures { OnOk result (line.new.items ≡ line.old.items ++ filter_text text.now fault) }
{
    match fault {
        TextFault::Empty => line.extend_from_slice(b"no byte, at least 1"),
        TextFault::TooLong => push_bytes(line, text.len(), MAX_FILTER),
        TextFault::NotUtf8 => line.extend_from_slice(b"not UTF-8"),
        TextFault::Null => line.extend_from_slice(b"U+0000"),
        TextFault::Wildcard => push_misplaced(line, text),
        TextFault::Memory => line.extend_from_slice(b"out of memory"),
    }
}

fn push_topic(line: &mut Vec<u8>, text: &[u8], fault: TextFault) -> Result<(), AllocError>
    ensures { OnOk result (line.new.items ≡ line.old.items ++ topic_text text.now fault) }
{
    match fault {
        TextFault::Empty => line.extend_from_slice(b"no byte, at least 1"),
        TextFault::TooLong => push_bytes(line, text.len(), MAX_NAME),
        TextFault::NotUtf8 => line.extend_from_slice(b"not UTF-8"),
        TextFault::Null => line.extend_from_slice(b"U+0000"),
        TextFault::Wildcard => line.extend_from_slice(b"a wildcard in a topic name"),
        TextFault::Memory => line.extend_from_slice(b"out of memory"),
    }
}

fn push_client(line: &mut Vec<u8>, fault: TextFault) -> Result<(), AllocError>
    ensures { OnOk result (line.new.items ≡ line.old.items ++ client_text fault) }
{
    match fault {
        TextFault::Empty => line.extend_from_slice(b"no character, at least 1"),
        TextFault::TooLong => push_count(line, "more characters than ", MAX_CLIENT_ID),
        TextFault::NotUtf8 => line.extend_from_slice(b"not UTF-8"),
        TextFault::Null => line.extend_from_slice(b"U+0000"),
        TextFault::Wildcard => line.extend_from_slice(b"a wildcard"),
        TextFault::Memory => line.extend_from_slice(b"out of memory"),
    }
}

fn push_bytes(line: &mut Vec<u8>, count: usize, most: usize) -> Result<(), AllocError>
    ensures { OnOk result (line.new.items ≡ line.old.items ++ bytes_text count most) }
{
    push_decimal(line, count as u64)?;
    line.extend_from_slice(b" bytes, at most ")?;
    push_decimal(line, most as u64)
}

/// Appends the words, and the number behind them.
pub fn push_count(line: &mut Vec<u8>, words: &str, count: usize) -> Result<(), AllocError>
    ensures { OnOk result (line.new.items ≡ line.old.items ++ count_text words.now count) }
{
    line.extend_from_slice(words.as_bytes())?;
    push_decimal(line, count as u64)
}

/// Appends what is wrong with the first level that keeps the text from being a filter.
fn push_misplaced(line: &mut Vec<u8>, text: &[u8]) -> Result<(), AllocError>
    ensures { OnOk result (line.new.items
        ≡ line.old.items ++ misplaced_text (first_misplaced (levels_of text.now))) }
{
    match first_misplaced(text) {
        None => line.extend_from_slice(b"a wildcard"),
        Some(level) => push_level(line, level),
    }
}

/// The first level that may not stand anywhere in a filter.
fn first_misplaced(text: &[u8]) -> Option<&[u8]>
    ensures { option_map (λ level. level.now) result ≡ first_misplaced (levels_of text.now) }
{
    for level in Levels::of(text) {
        if !is_ordinary(level) {
            return Some(level);
        }
    }
    None
}

fn push_level(line: &mut Vec<u8>, level: &[u8]) -> Result<(), AllocError>
    ensures { OnOk result (line.new.items ≡ line.old.items ++ level_text level.now) }
{
    if is_hash(level) {
        line.extend_from_slice(b"wildcard '#' before the last level")
    } else if has_byte(b'+', level) {
        line.extend_from_slice(b"wildcard '+' inside a level")
    } else {
        line.extend_from_slice(b"wildcard '#' inside a level")
    }
}
