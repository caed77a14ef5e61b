//! What a configuration file sets.
ghost use Rattle.std.specs.Prelude.{◌≡◌, [], ◌∷◌, ◌++◌, OnOk, OnErr};
ghost use Rattle.std.specs.Option.{option_map};
ghost use Rattle.sng_config.specs.Values.{set_view, entry_view, name_in, entry_of, line_of};
ghost use Rattle.sng_config.specs.Values.{text_in, number_in, switch_in};

use crate::names::{Name, NumberName, SwitchName, TextName};
use std::alloc::{AllocError, Global};
use std::marker::Model;

/// A setting with its value.
#[derive(Drop)]
pub enum Setting {
    Text(TextName, String),
    /// In the range of its name.
    Number(NumberName, u32),
    Switch(SwitchName, bool),
}

impl Setting {
    /// What is set.
    pub fn name(&self) -> Name
        ensures { result ≡ name_in (set_view self.now) }
    {
        match self {
            Setting::Text(name, _) => Name::Text(*name),
            Setting::Number(name, _) => Name::Number(*name),
            Setting::Switch(name, _) => Name::Switch(*name),
        }
    }
}

/// A setting, and the line on which it begins.
#[derive(Drop)]
pub struct Entry {
    pub line: usize,
    pub setting: Setting,
}

/// A text that a file sets, and the line on which that stands.
#[derive(Clone, Copy, Debug, PartialEq, Eq)]
pub struct TextAt<'a> {
    pub line: usize,
    pub text: &'a str,
}

/// The settings of a file, in their order. Contracts see the list of them.
#[derive(Drop)]
pub struct Settings {
    entries: Vec<Entry>,
}

impl Model for Settings {
    ghost use Rattle.std.specs.Prelude.{List, map};
    ghost use Rattle.sng_config.specs.Values.{SetAt, entry_view};

    ghost Value = { List SetAt };

    ghost view = { λ settings. map entry_view settings.entries.items };
}

impl Settings {
    /// Nothing is set.
    pub fn new(alloc: Global) -> Settings
        ensures { result ≡ [] }
    {
        Settings {
            entries: Vec::new(alloc),
        }
    }

    /// One more is set. Only memory can fail.
    pub(crate) fn push(&mut self, entry: Entry) -> Result<(), AllocError>
        ensures pushed { OnOk result (self.new ≡ self.old ++ entry_view entry ∷ []) }
    {
        self.entries.push(entry)?;
        Ok(())
    }

    /// The entry of this name, where there is one.
    fn entry(&self, name: Name) -> Option<&Entry>
        ensures { option_map (λ entry. entry_view entry.now) result ≡ entry_of name self.now }
    {
        self.entries
            .iter()
            .find(|entry| entry.setting.name().word() == name.word())
    }

    /// The line on which this is set, where it is.
    pub(crate) fn line_of(&self, name: Name) -> Option<usize>
        ensures { result ≡ line_of name self.now }
    {
        let entry = self.entry(name)?;
        Some(entry.line)
    }

    /// The text that is set under this name, where there is one.
    pub fn text(&self, name: TextName) -> Option<TextAt<'_>>
        ensures { option_map (λ found. (found.line, found.text.now)) result ≡ text_in name self.now }
    {
        let entry = self.entry(Name::Text(name))?;
        match &entry.setting {
            Setting::Text(_, text) => Some(TextAt {
                line: entry.line,
                text: text.as_str(),
            }),
            Setting::Number(_, _) | Setting::Switch(_, _) => None,
        }
    }

    /// The number that is set under this name, where there is one.
    pub fn number(&self, name: NumberName) -> Option<u32>
        ensures { result ≡ number_in name self.now }
    {
        match self.entry(Name::Number(name))?.setting {
            Setting::Number(_, number) => Some(number),
            Setting::Text(_, _) | Setting::Switch(_, _) => None,
        }
    }

    /// Whether this is set to be on or off, where it is set.
    pub fn switch(&self, name: SwitchName) -> Option<bool>
        ensures { result ≡ switch_in name self.now }
    {
        match self.entry(Name::Switch(name))?.setting {
            Setting::Switch(_, is_on) => Some(is_on),
            Setting::Text(_, _) | Setting::Number(_, _) => None,
        }
    }
}
