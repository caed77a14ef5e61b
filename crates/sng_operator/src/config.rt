//! The configuration file of `sng serve`, and how its settings stand to the words of the command line: a word
//! goes before the setting of its name.
ghost use Rattle.std.specs.Prelude.{◌≡◌, ◌||◌, false, unwrap_or};
ghost use Rattle.std.specs.Option.{option_map, option_copied, option_or};
ghost use Rattle.sng_config.specs.Values.{number_in, switch_in};
ghost use Rattle.sng_operator.specs.Configs.{line_in, word_before};

use crate::policy_file::file_text;
use sng_config::{Fault, NumberName, Settings, SwitchName, TextAt, TextName, settings_of};
use std::alloc::Global;
use std::fmt;
use std::fmt::{Display, Formatter, Write};
use std::io::Error;
use std::rt::Files;

/// What a configuration file sets. Without a file that is nothing.
#[derive(Drop)]
pub struct Config<'a> {
    pub path: &'a str,
    pub settings: Settings,
}

/// Why a configuration file sets nothing.
#[derive(Drop)]
pub enum ConfigFault {
    /// It cannot be read.
    File(Error),
    /// What stands in it is refused.
    Refused(Fault),
}

/// Where a word comes from.
#[derive(Clone, Copy, Debug, PartialEq, Eq)]
pub enum Source<'a> {
    CommandLine,
    /// From this line of the file.
    File(&'a str, usize),
}

/// A word under a name, and where it comes from. It is shown as it stands there.
#[derive(Clone, Copy, Debug, PartialEq, Eq)]
pub struct Given<'a> {
    pub name: TextName,
    pub word: &'a str,
    pub source: Source<'a>,
}

impl<'a> Display for Given<'a> {
    fn fmt<W: Write>(&self, f: &mut Formatter<W>) -> fmt::Result {
        let (name, word) = (self.name.word(), self.word);
        match self.source {
            Source::CommandLine => write!(f, "--{name} {word}"),
            Source::File(path, line) => write!(f, "{path}, line {line}: {name} {word}"),
        }
    }
}

impl<'a> Config<'a> {
    /// No file.
    pub fn none(alloc: Global) -> Config<'a> {
        Config {
            path: "",
            settings: Settings::new(alloc),
        }
    }

    /// The file.
    pub fn read<R: Files + AllocGlobal>(rt: &R, path: &'a str) -> Result<Config<'a>, ConfigFault> {
        let text = match file_text(rt, path) {
            Ok(text) => text,
            Err(error) => return Err(ConfigFault::File(error)),
        };
        match settings_of(rt.alloc(), text.as_slice()) {
            Ok(settings) => Ok(Config { path, settings }),
            Err(fault) => Err(ConfigFault::Refused(fault)),
        }
    }

    /// The text under this name: that of the command line, or else that of the file.
    pub fn text<'b>(&'b self, name: TextName, word: Option<&'b str>) -> Option<Given<'b>>
        ensures { option_map (λ given. (given.word.now, line_in given.source)) result
            ≡ word_before (option_copied word.entry) name self.now.settings }
    {
        match word {
            Some(word) => Some(Given {
                name,
                word,
                source: Source::CommandLine,
            }),
            None => {
                let TextAt { line, text } = self.settings.text(name)?;
                Some(Given {
                    name,
                    word: text,
                    source: Source::File(self.path, line),
                })
            }
        }
    }

    /// The number under this name: that of the command line, or else that of the file.
    pub fn number(&self, name: NumberName, number: Option<u32>) -> Option<u32>
        ensures { result ≡ option_or number (number_in name self.now.settings) }
    {
        match number {
            Some(number) => Some(number),
            None => self.settings.number(name),
        }
    }

    /// Whether this is on: the command line says so, or else the file.
    pub fn switch(&self, name: SwitchName, is_on: bool) -> bool
        ensures { result ≡ (is_on || unwrap_or (switch_in name self.now.settings) false) }
    {
        is_on || self.settings.switch(name).unwrap_or(false)
    }
}
