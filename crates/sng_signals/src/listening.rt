//! Who reads the socket of the devices: one worker at a time, so what comes has an order. It goes on reading for
//! a burst of datagrams, or until none comes for a while, since to change costs a wake-up. Behind that whoever
//! waits comes first.
ghost use Rattle.std.specs.Prelude.{◌≡◌, ◌≢◌, ◌≤◌, ◌↔◌, IsTrue, None, Some, ℕ};

use std::sync::{Condvar, Mutex, Wait};

/// The right to read the socket.
#[derive(Drop)]
pub struct Listening {
    listener: Mutex<Listener>,
    freed: Condvar,
}

impl Listening {
    /// Nobody reads.
    pub fn new() -> Listening {
        let listener = Listener {
            by: None,
            last: None,
            waiting: 0,
        };
        Listening {
            listener: Mutex::new(listener),
            freed: Condvar::new(),
        }
    }

    /// Waits until it is the worker's turn to read. One that has it keeps it.
    pub fn take<R: Wait>(&self, rt: &R, by: u16) {
        let mut listener = self.listener.lock(rt);
        if !listener.may_take(by, 0) {
            listener.waiting = listener.waiting.saturating_add(1);
            listener = self
                .freed
                .wait_while(rt, listener, |listener| !listener.may_take(by, 1));
            listener.waiting = listener.waiting.saturating_sub(1);
        }
        listener.take(by);
    }

    /// Lets the next one read, where this worker has the turn.
    pub fn give_back<R: Wait>(&self, rt: &R, by: u16) {
        if self.listener.lock(rt).give_back(by) {
            self.freed.notify_one();
        }
    }
}

/// Who reads, and who waits.
#[derive(Clone, Copy, Debug, PartialEq, Eq)]
pub struct Listener {
    by: Option<u16>,
    /// Who read before.
    last: Option<u16>,
    /// How many wait.
    waiting: u64,
}

impl Listener {
    /// Whether the worker may read: it has the turn, or nobody has it, and others wait only where it did not
    /// read before them. Of those that wait so many are the worker itself.
    fn may_take(&self, by: u16, own: u64) -> bool
        ensures taken { (other : ℕ) → self.now.by ≡ Some other → IsTrue result ↔ (other ≡ by) }
        ensures free { self.now.by ≡ None → self.now.last ≢ Some by → IsTrue result }
        ensures last { self.now.by ≡ None → self.now.last ≡ Some by → IsTrue result ↔ (self.now.waiting ≤ own) }
    {
        match self.by {
            Some(other) => other == by,
            None => self.last != Some(by) || self.waiting <= own,
        }
    }

    /// The worker reads.
    fn take(&mut self, by: u16)
        ensures { self.new ≡ record self.old { by = Some by } }
    {
        self.by = Some(by);
    }

    /// Nobody reads, where the worker did. Whether it did.
    fn give_back(&mut self, by: u16) -> bool
        ensures had { IsTrue result ↔ (self.old.by ≡ Some by) }
        ensures free { self.old.by ≡ Some by
            → self.new ≡ record { by = None; last = Some by; waiting = self.old.waiting } }
        ensures kept { self.old.by ≢ Some by → self.new ≡ self.old }
    {
        let had = self.by == Some(by);
        if had {
            self.by = None;
            self.last = Some(by);
        }
        had
    }
}
