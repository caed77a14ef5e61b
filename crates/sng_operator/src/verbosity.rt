//! Which rows a running gateway prints.
ghost use Rattle.std.specs.Prelude.{◌≡◌};
ghost use Rattle.sng_operator.specs.Verbosities.{number_of, verbosity_of};

/// Which rows are printed as they are made.
#[derive(Clone, Copy, Debug, PartialEq, Eq)]
pub enum Verbosity {
    /// None.
    Off,
    /// Those with a note that something was denied or refused.
    Denials,
    /// All.
    On,
}

impl Verbosity {
    /// By which number it is kept where workers share it.
    pub fn number(self) -> u8
        ensures { result ≡ number_of self }
    {
        match self {
            Verbosity::Off => 0,
            Verbosity::Denials => 1,
            Verbosity::On => 2,
        }
    }

    /// That with this number; any other number is `On`.
    pub fn of(number: u8) -> Verbosity
        ensures { result ≡ verbosity_of number }
    {
        match number {
            0 => Verbosity::Off,
            1 => Verbosity::Denials,
            _ => Verbosity::On,
        }
    }
}
