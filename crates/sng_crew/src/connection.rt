//! The connection to the broker, as a worker knows it.
ghost use Rattle.std.specs.Prelude.{◌≡◌, ◌≤◌, ◌<◌, ◌∷◌, [], ℕ, Bool, List, true, false, take, length, IfOk};
ghost use Rattle.sng_crew.specs.declared.connection.Call.{Call as call};
ghost use Rattle.sng_crew.specs.declared.connection.Call.TheVariants.{NotWritten, Shut, Wrote};
ghost use Rattle.sng_crew.specs.declared.connection.Opening.TheVariants.{NoneLeft};
ghost use Rattle.sng_desk.specs.Acts.{Moves};
ghost use Rattle.sng_crew.specs.Turning.{got_call, opening_call};
ghost use Rattle.sng_crew.specs.Devices.{IsShort, IsTaken, written_call};

use crate::limits::MAX_READ;
use sng_text::{Octets, WireBytes};

/// A call of a connection, with what came of it.
#[derive(Debug, Drop)]
pub enum Call {
    /// A connection was made.
    Opened,
    /// None could be made.
    NotOpened,
    /// No further one comes.
    NoMore,
    /// Nothing was there to read.
    Quiet,
    /// This was read.
    Read(Octets),
    /// The connection is lost.
    Lost,
    /// This was written.
    Wrote(Octets),
    /// A write failed.
    NotWritten,
    /// It was closed.
    Shut,
}

/// What came of a try to connect.
#[derive(Clone, Copy, Debug, PartialEq, Eq)]
pub enum Opening {
    /// There is a connection, which the broker has still to accept.
    Made,
    /// The try failed.
    Missed,
    /// No further connection comes.
    NoneLeft,
}

/// What a connection gave.
#[derive(Debug, Drop)]
pub enum ReadAnswer {
    /// Nothing came in a while.
    Nothing,
    /// These bytes came.
    Piece(Octets),
    /// It is lost.
    Gone,
}

/// How many bytes a connection took.
#[derive(Clone, Copy, Debug, PartialEq, Eq)]
pub enum Written {
    /// So many of those that were to be written, from the first on; one at least.
    Took(usize),
    /// The connection takes nothing any more.
    Failed,
}

/// What a turn does to the connection.
#[derive(Clone, Copy, Debug, PartialEq, Eq)]
pub enum Close {
    /// It stays.
    Stays,
    /// A write to it failed, and it was closed.
    Breaks,
    /// It was closed before any write.
    Closes,
}

/// How a worker stands.
#[derive(Clone, Copy, Debug, PartialEq, Eq)]
pub enum Stage {
    /// Without a connection, after so many failed tries in a row.
    Away(u32),
    /// With one that the broker has not accepted yet, after so many failed tries before it.
    Greeting(u32),
    /// With one that the broker accepted.
    Open,
    /// With one that is lost, which the desk refused to hear.
    Fallen,
}

/// How a worker connects.
#[derive(Debug, Drop)]
pub struct Terms {
    /// How many tries may fail, one after another.
    pub tries: u32,
    /// What a new connection begins with: the bytes of a CONNECT.
    pub greeting: WireBytes,
}

/// Connections to the broker, one after another.
pub trait Upstream: Drop {
    /// Whether it tells what it did.
    ghost tells: { Self → Bool };

    /// Its calls, in order.
    ghost did: { Self → List call };

    /// It answered that no further connection comes.
    ghost has_ended: { Self → Bool };

    /// Tries to connect. It may wait first, as after a try that failed.
    fn connect(&mut self) -> Opening
        ensures did { Moves tells did self.old self.new (opening_call result ∷ []) }
        ensures ended { result ≡ NoneLeft → has_ended self.new ≡ true };

    /// What came, `MAX_READ` bytes at most. Where the broker has not accepted the connection in good time, it
    /// is lost.
    fn read(&mut self) -> ReadAnswer
        ensures did { Moves tells did self.old self.new (got_call result ∷ []) }
        ensures short { IsShort MAX_READ result };

    /// Writes a beginning of the bytes, of one byte at least.
    fn write(&mut self, bytes: &[u8]) -> Written
        requires { 0 < length bytes.now }
        ensures did { Moves tells did self.old self.new (written_call bytes.now result ∷ []) }
        ensures taken { IsTaken result (length bytes.now) };

    /// Lets the connection go.
    fn close(&mut self)
        ensures did { Moves tells did self.old self.new (Shut ∷ []) };

    /// Whether it answered that no further connection comes.
    fn ended(&self) -> bool
        ensures { result ≡ has_ended self.now };
}
