//! How `sng serve` ends.
ghost use Rattle.std.specs.Prelude.{◌≡◌};
ghost use Rattle.sng_operator.specs.Ends.{exit_code};

use sng_script::Status;

/// Why a gateway ends by itself.
#[derive(Clone, Copy, Debug, PartialEq, Eq)]
pub enum Halt {
    /// What the workers say does not agree with the rows of a book on disk.
    WrongBook,
    /// The book has as many rows as it may have.
    FullBook,
    /// A worker without which nobody is served gave up.
    LostWorker,
}

/// How `sng serve` came out.
#[derive(Clone, Copy, Debug, PartialEq, Eq)]
pub enum End {
    /// As any command.
    Command(Status),
    /// It ended by itself; its rows were closed, unless the book is wrong.
    Halted(Halt),
}

impl End {
    /// The exit status: 5 where the book is full, 6 where a worker gave up, 7 where the book is wrong, else
    /// that of the command.
    pub fn code(self) -> u8
        ensures { result ≡ exit_code self }
    {
        match self {
            End::Command(status) => status.code(),
            End::Halted(Halt::FullBook) => 5,
            End::Halted(Halt::LostWorker) => 6,
            End::Halted(Halt::WrongBook) => 7,
        }
    }
}

impl From<Status> for End {
    ghost use Rattle.sng_operator.specs.declared.ends.End.TheVariants.{Command};

    ghost from_gives = { λ status end. end ≡ Command status };

    fn from(status: Status) -> End {
        End::Command(status)
    }
}
