//! The value of an entry, as TOML has it and as its setting takes it.
ghost use Rattle.std.specs.Prelude.{◌≡◌};
ghost use Rattle.std.specs.Option.{option_map};
ghost use Rattle.toml_parser.specs.Reading.{Reads, Shortens};
ghost use Rattle.toml.specs.Parse.{atom};
ghost use Rattle.sng_config.specs.Values.{value_data, set_of, set_view, number_as};

use crate::names::{Name, NumberName};
use crate::settings::Setting;
use std::alloc::Global;
use toml_parser::{ParseError, Scalar, quoted, starts_string, unquoted};

/// A value that is no list and no table.
#[derive(Drop)]
pub(crate) enum Value {
    Text(String),
    Scalar(Scalar),
}

impl Value {
    /// The value at the front of the text, and what follows it.
    pub(crate) fn read(alloc: Global, text: &str) -> Result<(Value, &str), ParseError>
        ensures value { Reads value_data result (atom text.now) }
        ensures shorter { Shortens text.now result }
    {
        if starts_string(text) {
            let (value, rest) = quoted(alloc, text)?;
            Ok((Value::Text(value), rest))
        } else {
            let (value, rest) = unquoted(alloc, text)?;
            Ok((Value::Scalar(value), rest))
        }
    }

    /// The setting of this name with the value, where that is of its kind and in its range.
    pub(crate) fn setting(self, name: Name) -> Option<Setting>
        ensures { option_map set_view result ≡ set_of name (value_data self) }
    {
        match name {
            Name::Text(name) => match self {
                Value::Text(text) => Some(Setting::Text(name, text)),
                Value::Scalar(_) => None,
            },
            Name::Number(name) => match self {
                Value::Scalar(Scalar::Integer(number)) => {
                    let number = number_as(name, number)?;
                    Some(Setting::Number(name, number))
                }
                Value::Scalar(_) | Value::Text(_) => None,
            },
            Name::Switch(name) => match self {
                Value::Scalar(Scalar::Boolean(is_on)) => Some(Setting::Switch(name, is_on)),
                Value::Scalar(_) | Value::Text(_) => None,
            },
        }
    }
}

/// The number, where it is in the range of the setting.
fn number_as(name: NumberName, number: i64) -> Option<u32>
    ensures { result ≡ number_as name number }
{
    let number = u32::try_from(number).ok()?;
    if name.least() <= number && number <= name.most() {
        Some(number)
    } else {
        None
    }
}
