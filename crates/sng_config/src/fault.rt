//! Why a configuration file is refused.

use crate::names::{NAMES, Name};
use crate::place::Place;
use std::alloc::AllocError;
use std::error::Error;
use std::fmt;
use std::fmt::{Display, Formatter, Write};
use toml_parser::ErrorKind;

/// Why nothing is set.
#[derive(Debug, Drop)]
pub enum Fault {
    /// The first entry that is refused: what is wrong with it, and the place of that. It is the place where
    /// the entry begins, where the text is TOML that far.
    At(Place, Cause),
    /// An allocation failed.
    Memory,
}

/// What is wrong with an entry of the file.
#[derive(Debug, Drop)]
pub enum Cause {
    /// It is not TOML, or not UTF-8.
    NotToml(ErrorKind),
    /// It is a table, or its name has dots, which makes one.
    Table,
    /// No setting has this name.
    Unknown(String),
    /// The setting stands on this line before.
    Repeated(Name, usize),
    /// The value is not of the kind or not in the range of the setting.
    Unfit(Name),
}

impl Display for Fault {
    fn fmt<W: Write>(&self, f: &mut Formatter<W>) -> fmt::Result {
        match self {
            Fault::At(place, Cause::NotToml(kind)) => {
                let Place { line, column } = place;
                write!(f, "line {line}, column {column}: {}", kind.description())
            }
            Fault::At(place, cause) => write!(f, "line {}: {cause}", place.line),
            Fault::Memory => f.write_str("out of memory"),
        }
    }
}

impl Error for Fault {}

impl From<AllocError> for Fault {
    ghost use Rattle.std.specs.Prelude.{◌≡◌};
    ghost use Rattle.sng_config.specs.declared.fault.Fault.TheVariants.{Memory};

    ghost from_gives = { λ _ fault. fault ≡ Memory };

    fn from(_: AllocError) -> Fault {
        Fault::Memory
    }
}

impl Display for Cause {
    fn fmt<W: Write>(&self, f: &mut Formatter<W>) -> fmt::Result {
        match self {
            Cause::NotToml(kind) => f.write_str(kind.description()),
            Cause::Table => f.write_str("there are no tables here: each line is NAME = VALUE"),
            Cause::Unknown(word) => {
                write!(
                    f,
                    "`{}` is not a setting; the settings are",
                    word.escape_debug()
                )?;
                tell_names(f)
            }
            Cause::Repeated(name, line) => write!(f, "`{name}` is set on line {line} already"),
            Cause::Unfit(Name::Text(name)) => write!(f, "`{}` wants a text in quotes", name.word()),
            Cause::Unfit(Name::Number(name)) => {
                let (word, least, most) = (name.word(), name.least(), name.most());
                write!(f, "`{word}` wants a whole number from {least} to {most}")
            }
            Cause::Unfit(Name::Switch(name)) => write!(f, "`{}` wants true or false", name.word()),
        }
    }
}

/// Writes all names, with commas between them.
fn tell_names<W: Write>(f: &mut Formatter<W>) -> fmt::Result {
    let mut before = " ";
    for name in NAMES {
        write!(f, "{before}{name}")?;
        before = ", ";
    }
    Ok(())
}
