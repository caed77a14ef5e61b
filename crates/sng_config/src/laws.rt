//! The laws of configuration files. Each function here only states one: its contract is the law, and calling
//! it does nothing.
ghost use Rattle.sng_config.specs.Laws.{NamesAreReadBack, SettingsAreADocument};

/// Each setting is known by its name as it is written, so none is left out of `NAMES`.
pub fn names_are_read_back()
    ensures { NamesAreReadBack }
{}

/// A text that is not refused is a document of TOML (TOML 1.1) in which each name has the value that is set,
/// and no other name stands.
pub fn settings_are_a_document()
    ensures { SettingsAreADocument }
{}
