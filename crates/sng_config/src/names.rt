//! The names of the settings: those of the options of `sng serve`, without the dashes before them.
ghost use Rattle.std.specs.Prelude.{◌≡◌};
ghost use Rattle.sng_config.specs.Names.{text_word, number_word, switch_word, word_of, least_of, most_of};
ghost use Rattle.sng_config.specs.Names.{name_of};

use crate::limits::{MAX_FLOOD, MAX_WORKERS, MIN_FLOOD, MIN_WORKERS};
use std::fmt;
use std::fmt::{Display, Formatter, Write};

/// The settings that are texts.
#[derive(Clone, Copy, Debug, PartialEq, Eq)]
pub enum TextName {
    Listen,
    Broker,
    Id,
    Policy,
    Book,
    Metrics,
}

/// The settings that are numbers.
#[derive(Clone, Copy, Debug, PartialEq, Eq)]
pub enum NumberName {
    Workers,
    Tries,
    FloodEach,
    FloodAll,
}

/// The settings that are on or off.
#[derive(Clone, Copy, Debug, PartialEq, Eq)]
pub enum SwitchName {
    Verbose,
    Rows,
    NoWatch,
    LogTime,
}

/// Any setting.
#[derive(Clone, Copy, Debug, PartialEq, Eq)]
pub enum Name {
    Text(TextName),
    Number(NumberName),
    Switch(SwitchName),
}

/// All settings, in the order in which they are told.
pub const NAMES: [Name; 14] = [
    Name::Text(TextName::Listen),
    Name::Text(TextName::Broker),
    Name::Text(TextName::Id),
    Name::Number(NumberName::Workers),
    Name::Text(TextName::Policy),
    Name::Text(TextName::Book),
    Name::Text(TextName::Metrics),
    Name::Number(NumberName::Tries),
    Name::Number(NumberName::FloodEach),
    Name::Number(NumberName::FloodAll),
    Name::Switch(SwitchName::Verbose),
    Name::Switch(SwitchName::Rows),
    Name::Switch(SwitchName::NoWatch),
    Name::Switch(SwitchName::LogTime),
];

impl TextName {
    /// The name as it is written.
    pub fn word(self) -> &'static str
        ensures { result.now ≡ text_word self }
    {
        match self {
            TextName::Listen => "listen",
            TextName::Broker => "broker",
            TextName::Id => "id",
            TextName::Policy => "policy",
            TextName::Book => "book",
            TextName::Metrics => "metrics",
        }
    }
}

impl NumberName {
    /// The name as it is written.
    pub fn word(self) -> &'static str
        ensures { result.now ≡ number_word self }
    {
        match self {
            NumberName::Workers => "workers",
            NumberName::Tries => "tries",
            NumberName::FloodEach => "flood-each",
            NumberName::FloodAll => "flood-all",
        }
    }

    /// The least number that may be set.
    pub fn least(self) -> u32
        ensures { result ≡ least_of self }
    {
        match self {
            NumberName::Workers => MIN_WORKERS,
            NumberName::Tries => 0,
            NumberName::FloodEach | NumberName::FloodAll => MIN_FLOOD,
        }
    }

    /// The greatest number that may be set.
    pub fn most(self) -> u32
        ensures { result ≡ most_of self }
    {
        match self {
            NumberName::Workers => MAX_WORKERS,
            NumberName::Tries => u32::MAX,
            NumberName::FloodEach | NumberName::FloodAll => MAX_FLOOD,
        }
    }
}

impl SwitchName {
    /// The name as it is written.
    pub fn word(self) -> &'static str
        ensures { result.now ≡ switch_word self }
    {
        match self {
            SwitchName::Verbose => "verbose",
            SwitchName::Rows => "rows",
            SwitchName::NoWatch => "no-watch",
            SwitchName::LogTime => "log-time",
        }
    }
}

impl Name {
    /// The name as it is written.
    pub fn word(self) -> &'static str
        ensures { result.now ≡ word_of self }
    {
        match self {
            Name::Text(name) => name.word(),
            Name::Number(name) => name.word(),
            Name::Switch(name) => name.word(),
        }
    }

    /// The setting whose name is written so, where there is one.
    pub fn of(word: &str) -> Option<Name>
        ensures { result ≡ name_of word.now }
    {
        NAMES.iter().find(|name| name.word() == word).copied()
    }
}

impl Display for Name {
    fn fmt<W: Write>(&self, f: &mut Formatter<W>) -> fmt::Result {
        f.write_str(self.word())
    }
}
