//! An entry of the file: a line NAME = VALUE.
ghost use Rattle.std.specs.Prelude.{◌≡◌, ◌<◌, length, IfOk, MatchResult};
ghost use Rattle.toml_parser.specs.Reading.{Reads, Shortens, key_view};
ghost use Rattle.toml.specs.Parse.{key_equals};
ghost use Rattle.sng_config.specs.Values.{set_view};
ghost use Rattle.sng_config.specs.Reading.{name_in_key, named, valued, entry};
ghost use Rattle.sng_config.specs.Refusals.{StopsAs};

use crate::fault::Cause;
use crate::names::Name;
use crate::settings::{Setting, Settings};
use crate::value::Value;
use std::alloc::{AllocError, AllocFailed, Global};
use toml_parser::text::{first, skip, skip_ws};
use toml_parser::{ErrorKind, Key, ParseError, dotted_key};

/// What ends the reading: memory, or a cause, and how many bytes of the text are left there.
#[derive(Drop)]
pub(crate) enum Stop {
    Memory,
    At(usize, Cause),
}

impl From<ParseError> for Stop {
    ghost use Rattle.std.specs.Prelude.{◌≡◌};
    ghost use Rattle.sng_config.specs.Refusals.{stop_of};

    ghost from_gives = { λ fault stop. stop ≡ stop_of fault };

    fn from(fault: ParseError) -> Stop {
        match fault {
            ParseError::OutOfMemory => Stop::Memory,
            ParseError::At(kind, left, _) => Stop::At(left, Cause::NotToml(kind)),
        }
    }
}

/// The setting with which the text begins, which was not set before, and what follows it.
pub(crate) fn entry_at<'a>(
    alloc: Global,
    start: &'a str,
    before: &Settings,
) -> Result<(Setting, &'a str), Stop>
    ensures entry { MatchResult result (λ read. entry before.now start.now ≡ Ok (set_view read.0, read.1.now))
        (StopsAs (entry before.now start.now) (length start.now)) }
    ensures shorter { IfOk result (λ read. length read.1.now < length start.now) }
{
    let (name, text) = name_at(alloc, start, before)?;
    setting_at(alloc, start, name, text)
}

/// The name at the front of the text and what follows its `=`, where it is the name of a setting that was not
/// set before.
fn name_at<'a>(alloc: Global, start: &'a str, before: &Settings) -> Result<(Name, &'a str), Stop>
    ensures named { MatchResult result (λ read. named before.now start.now ≡ Ok (read.0, read.1.now))
        (StopsAs (named before.now start.now) (length start.now)) }
    ensures shorter { IfOk result (λ read. length read.1.now < length start.now) }
{
    if first(start) == b'[' {
        return Err(Stop::At(start.len(), Cause::Table));
    }
    let (key, after) = key_equals(alloc, start)?;
    let name = name_in_key(key, before, start.len())?;
    Ok((name, after))
}

/// The name of a setting that the key is, where that was not set before. It stands where so many bytes of the
/// text are left.
fn name_in_key(key: Key, before: &Settings, left: usize) -> Result<Name, Stop>
    ensures { MatchResult result (λ name. name_in_key before.now (key_view key) ≡ Ok name)
        (StopsAs (name_in_key before.now (key_view key)) left) }
{
    let Key { path, last } = key;
    if !path.is_empty() {
        return Err(Stop::At(left, Cause::Table));
    }
    let Some(name) = Name::of(last.as_str()) else {
        return Err(Stop::At(left, Cause::Unknown(last)));
    };
    match before.line_of(name) {
        Some(line) => Err(Stop::At(left, Cause::Repeated(name, line))),
        None => Ok(name),
    }
}

/// A key, `=` and the white space behind it.
fn key_equals(alloc: Global, text: &str) -> Result<(Key, &str), ParseError>
    ensures value { Reads key_view result (key_equals text.now) }
    ensures shorter { Shortens text.now result }
{
    let (key, rest) = dotted_key(alloc, text)?;
    if first(rest) != b'=' {
        return Err(ParseError::at(ErrorKind::MissingEquals, rest));
    }
    Ok((key, skip_ws(skip(rest, 1))))
}

/// The setting of this name with the value at the front of the text, up to the end of its line, and what
/// follows. The entry begins where `start` does.
fn setting_at<'a>(
    alloc: Global,
    start: &str,
    name: Name,
    text: &'a str,
) -> Result<(Setting, &'a str), Stop>
    ensures valued { MatchResult result (λ read. valued name text.now ≡ Ok (set_view read.0, read.1.now))
        (StopsAs (valued name text.now) (length start.now)) }
    ensures shorter { IfOk result (λ read. length read.1.now < length text.now) }
{
    if matches!(first(text), b'[' | b'{') {
        return Err(Stop::At(start.len(), Cause::Unfit(name)));
    }
    let (value, rest) = Value::read(alloc, text)?;
    let end = skip_ws(rest);
    if !(end.is_empty() || matches!(first(end), b'#' | b'\n' | b'\r')) {
        return Err(Stop::At(end.len(), Cause::NotToml(ErrorKind::EndOfLine)));
    }
    match value.setting(name) {
        Some(setting) => Ok((setting, rest)),
        None => Err(Stop::At(start.len(), Cause::Unfit(name))),
    }
}
