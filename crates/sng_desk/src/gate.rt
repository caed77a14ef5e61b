//! What lets workers go on, and hears what comes of them.
ghost use Rattle.std.specs.Prelude.{◌≡◌, Bool, true, false};

use crate::desk::Receipt;
use crate::ending::WorkerFault;
use crate::fault::ActFault;
use crate::volume::Volume;

/// What lets workers go on, and hears what comes of them. All workers share one, so each call but `stops`
/// says by its first value which worker calls.
pub trait Gate {
    /// Workers may be stopped by it.
    ghost may_stop: { Self → Bool };

    /// Before each turn of a worker. It may be held here, as where the book has too few free rows for a turn:
    /// it has handed off what it was to, and has asked its source for nothing yet. At false it ends.
    fn before(&self, by: u16) -> bool
        ensures { result ≡ false → may_stop self.now ≡ true };

    /// Whether `before` may answer false. It is fixed for a gate.
    fn stops(&self) -> bool
        ensures { result ≡ may_stop self.now };

    /// Whether the worker is to hand off the piece of its trail now, which has so many entries: receipts and
    /// refusals. It is asked before `before`, where the piece has any. Before its end a worker hands off what
    /// it has, and asks nobody.
    fn hands_off(&self, by: u16, entries: usize) -> bool;

    /// After each act, once the lock is free: what came of it.
    fn after(&self, by: u16, receipt: &Receipt);

    /// After each cut, once the lock is free: the rows that left the desk.
    fn cut(&self, by: u16, volume: &Volume);

    /// An act was refused, and why.
    fn refused(&self, by: u16, fault: ActFault);

    /// There was no memory for the trail of a turn: the source was not asked, and the next turn begins anew.
    /// A gate that waits a little here keeps a worker from asking for memory without a pause.
    fn short(&self, by: u16);

    /// The last call of a worker: it has ended, with this fault.
    fn over(&self, by: u16, fault: Option<WorkerFault>);

    /// A thread was refused: those that run are to end.
    fn halt(&self);
}
