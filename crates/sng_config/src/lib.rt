//! The configuration file of `sng serve`: TOML (TOML 1.1), one line `NAME = VALUE` for each setting, with the
//! names of the options. What the text of such a file sets, or its first fault with the place.
#![tactic(auto)]

mod entry;
pub mod fault;
pub mod laws;
pub mod limits;
pub mod names;
pub mod place;
mod reading;
pub mod settings;
mod value;

pub use fault::{Cause, Fault};
pub use limits::{MAX_FLOOD, MAX_WORKERS, MIN_FLOOD, MIN_WORKERS};
pub use names::{NAMES, Name, NumberName, SwitchName, TextName};
pub use place::Place;
pub use reading::settings_of;
pub use settings::{Entry, Setting, Settings, TextAt};
