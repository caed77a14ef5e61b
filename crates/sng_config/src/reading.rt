//! A file, entry by entry.
ghost use Rattle.std.specs.Prelude.{◌≡◌, ◌≤◌, length, IfOk, IfErr};
ghost use Rattle.toml.specs.Parse.{skip_bom};
ghost use Rattle.sng_config.specs.Reading.{settled, outcome_of};
ghost use Rattle.sng_config.specs.Documents.{IsDocumentOf};
ghost use Rattle.sng_config.specs.Refusals.{FaultOf, Refuses};

use crate::entry::{Stop, entry_at};
use crate::fault::{Cause, Fault};
use crate::place::Place;
use crate::settings::{Entry, Settings};
use std::alloc::Global;
use std::str;
use toml_parser::ErrorKind;
use toml_parser::text::{byte_at, first, skip_blank};

/// What the text of a file sets, which is a document of TOML then. The fault is the first of the text, from
/// its front.
pub fn settings_of(alloc: Global, text: &[u8]) -> Result<Settings, Fault>
    ensures settled { IfOk result (λ settings. outcome_of text.now ≡ settled settings) }
    ensures document { IfOk result (λ settings. IsDocumentOf settings text.now) }
    ensures refused { IfErr result (Refuses text.now) }
{
    match str::from_utf8(text) {
        Ok(text) => read(alloc, text),
        Err(error) => {
            let place = Place::of(text, error.valid_up_to());
            Err(Fault::At(place, Cause::NotToml(ErrorKind::Utf8)))
        }
    }
}

/// Reads entry after entry.
fn read(alloc: Global, text: &str) -> Result<Settings, Fault>
    ensures settled { IfOk result (λ settings. outcome_of text.now ≡ settled settings) }
    ensures refused { IfErr result (Refuses text.now) }
{
    let mut settings = Settings::new(alloc);
    let mut rest = skip_mark(text);
    'entries: loop {
        let start = skip_blank(rest, true);
        if start.is_empty() {
            return Ok(settings);
        }
        match entry_at(alloc, start, &settings) {
            Ok((setting, after)) => {
                let line = Place::of(text.as_bytes(), text.len() - start.len()).line;
                settings.push(Entry { line, setting })?;
                rest = after;
            }
            Err(stop) => return Err(fault_at(text, start, stop)),
        }
    }
}

/// The text without a byte order mark.
fn skip_mark(text: &str) -> &str
    ensures rest { result.now ≡ skip_bom text.now }
    ensures within { length result.now ≤ length text.now }
{
    if first(text) == 0xEF && byte_at(text, 1) == 0xBB && byte_at(text, 2) == 0xBF {
        &text[3..]
    } else {
        text
    }
}

/// The fault of the text where the entry with which `start` begins ends the reading so. A place in front of
/// that entry or behind the text is taken as its beginning or its end.
fn fault_at(text: &str, start: &str, stop: Stop) -> Fault
    requires { length start.now ≤ length text.now }
    ensures { FaultOf text.now start.now stop result }
{
    match stop {
        Stop::Memory => Fault::Memory,
        Stop::At(left, cause) => {
            let left = left.min(start.len());
            Fault::At(Place::of(text.as_bytes(), text.len() - left), cause)
        }
    }
}
