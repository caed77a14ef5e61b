//! How a command came out, as the exit status of its process.
ghost use Rattle.std.specs.Prelude.{◌≡◌};
ghost use Rattle.sng_script.specs.Statuses.{code_of};

/// How a command came out.
#[derive(Clone, Copy, Debug, PartialEq, Eq)]
pub enum Status {
    /// All of it was done, and what was asked is so.
    Done,
    /// A filter that was asked for is not covered.
    Uncovered,
    /// What was asked for is not allowed.
    Denied,
    /// The book is not that of the script.
    Unlawful,
    /// A line or a word of the input could not be read.
    Unreadable,
    /// The command line is not one of the program's.
    BadCommandLine,
    /// Allocation failed.
    OutOfMemory,
    /// Input or output failed.
    Failed,
}

impl Status {
    /// The exit status: 0 for `Done`, 1 for `Uncovered`, `Denied`, `Unlawful` and `Unreadable`, 2 for
    /// `BadCommandLine`, 3 for `OutOfMemory`, 4 for `Failed`.
    pub fn code(self) -> u8
        ensures { result ≡ code_of self }
    {
        match self {
            Status::Done => 0,
            Status::Uncovered => 1,
            Status::Denied => 1,
            Status::Unlawful => 1,
            Status::Unreadable => 1,
            Status::BadCommandLine => 2,
            Status::OutOfMemory => 3,
            Status::Failed => 4,
        }
    }
}
