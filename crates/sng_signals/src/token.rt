//! The token: the worker that has it acts and sends, and no other does. So what goes to one address is sent
//! in the order of the rows, however many workers there are.
//!
//! A worker takes the token when its source has something to give of which something may be sent to devices.
//! Its gate gives the token back before the source is asked again, when all that is sent, and as the worker
//! ends.
ghost use Rattle.std.specs.Prelude.{◌≡◌, ◌≢◌, ◌↔◌, IsTrue, None, Some, ℕ};

use std::sync::{Condvar, Mutex, Wait};

/// The token of the workers.
#[derive(Drop)]
pub struct Token {
    holder: Mutex<Holder>,
    freed: Condvar,
}

impl Token {
    /// Nobody has it.
    pub fn new() -> Token {
        Token {
            holder: Mutex::new(Holder { by: None }),
            freed: Condvar::new(),
        }
    }

    /// Waits until the worker has the token. One that has it keeps it.
    pub fn take<R: Wait>(&self, rt: &R, by: u16) {
        let holder = self.holder.lock(rt);
        let mut holder = self
            .freed
            .wait_while(rt, holder, |holder| !holder.may_take(by));
        holder.take(by);
    }

    /// Gives the token back, where this worker has it.
    pub fn give_back<R: Wait>(&self, rt: &R, by: u16) {
        if self.holder.lock(rt).give_back(by) {
            self.freed.notify_one();
        }
    }
}

/// Who has the token.
#[derive(Clone, Copy, Debug, PartialEq, Eq)]
pub struct Holder {
    by: Option<u16>,
}

impl Holder {
    /// Whether nobody has it, or the worker itself.
    fn may_take(&self, by: u16) -> bool
        ensures free { self.now.by ≡ None → IsTrue result }
        ensures taken { (other : ℕ) → self.now.by ≡ Some other → IsTrue result ↔ (other ≡ by) }
    {
        match self.by {
            Some(other) => other == by,
            None => true,
        }
    }

    /// The worker has it.
    fn take(&mut self, by: u16)
        ensures { self.new.by ≡ Some by }
    {
        self.by = Some(by);
    }

    /// Nobody has it, where the worker had it. Whether it had.
    fn give_back(&mut self, by: u16) -> bool
        ensures had { IsTrue result ↔ (self.old.by ≡ Some by) }
        ensures free { self.old.by ≡ Some by → self.new.by ≡ None }
        ensures kept { self.old.by ≢ Some by → self.new ≡ self.old }
    {
        let had = self.by == Some(by);
        if had {
            self.by = None;
        }
        had
    }
}
