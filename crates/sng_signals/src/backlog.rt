//! When the worker at the broker is woken for what devices asked for: at once for a datagram that was waited
//! for, and else not after each act, but once nothing more lies in the socket, or after so many acts or
//! datagrams that were passed over. So many publishes are one wake-up, and leave together, and one alone waits
//! for nothing.

use std::sync::atomic::{AtomicBool, AtomicU64, Ordering};

/// After so many acts it is woken, also where more datagrams lie in the socket.
pub const MAX_ACTS: u64 = 32;

/// The acts of the workers at the socket for which the worker at the broker was not woken yet.
#[derive(Drop)]
pub struct Backlog {
    acts: AtomicU64,
    /// So many datagrams were passed over since the start.
    passed_over: AtomicU64,
    /// A worker waits for a datagram, since none lay in the socket.
    is_idle: AtomicBool,
    /// The next act may be that on a datagram that was waited for.
    is_first: AtomicBool,
}

impl Backlog {
    pub fn new() -> Backlog {
        Backlog {
            acts: AtomicU64::new(0),
            passed_over: AtomicU64::new(0),
            is_idle: AtomicBool::new(false),
            is_first: AtomicBool::new(false),
        }
    }

    /// One more act. Whether the worker at the broker is to be woken.
    pub fn add(&self) -> bool {
        let acts = self.acts.fetch_add(1, Ordering::SeqCst);
        let is_due = MAX_ACTS <= acts.saturating_add(1)
            || self.is_idle.load(Ordering::SeqCst)
            || self.is_first.load(Ordering::SeqCst);
        self.is_first.store(false, Ordering::SeqCst);
        is_due && self.take()
    }

    /// One more datagram that lay in the socket is passed over, and nothing acts on it. Whether the worker at the
    /// broker is to be woken: else acts between many of them would wait as long as these come.
    pub fn pass_over(&self) -> bool {
        let passed_over = self.passed_over.fetch_add(1, Ordering::SeqCst);
        passed_over % MAX_ACTS == MAX_ACTS - 1 && self.take()
    }

    /// A worker finds no datagram in the socket, and waits for one. Whether the worker at the broker is to be
    /// woken. An act that comes at the same time is either seen here, or sees that one waits.
    pub fn begin_wait(&self) -> bool {
        self.is_idle.store(true, Ordering::SeqCst);
        self.take()
    }

    /// The wait is over, with a datagram or without one.
    pub fn end_wait(&self, has_come: bool) {
        self.is_idle.store(false, Ordering::SeqCst);
        if has_come {
            self.is_first.store(true, Ordering::SeqCst);
        }
    }

    /// Whether there were acts. It is taken for woken then.
    fn take(&self) -> bool {
        self.acts.swap(0, Ordering::SeqCst) > 0
    }
}
