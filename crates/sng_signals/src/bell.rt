//! How a worker that waits is woken: it listens at its ear, and others ring its bell.

use mio::{Events, Poll, Registry, Token, Waker};
use std::alloc::Global;
use std::io;
use std::net::Net;
use std::sync::atomic::{AtomicBool, Ordering};
use std::time::Duration;

/// Under which a bell is registered at its ear.
const BELL: Token = Token(0);

/// More than anything that is registered at an ear.
const EVENTS: usize = 4;

/// Wakes whoever waits at its ear. Rings that were not heard yet are one.
#[derive(Drop)]
pub struct Bell {
    waker: Waker,
    rung: AtomicBool,
}

impl Bell {
    /// Where it rang and was not heard yet, this reads alone: rings of many workers do not get in each
    /// other's way.
    pub fn ring(&self) {
        if !self.rung.load(Ordering::SeqCst) && !self.rung.swap(true, Ordering::SeqCst) {
            let _ = self.waker.wake();
        }
    }

    /// Whether it rang since this was asked last.
    pub fn heard(&self) -> bool {
        self.rung.swap(false, Ordering::SeqCst)
    }
}

/// Waits for a bell, and for what is registered beside it.
#[derive(Drop)]
pub struct Ear {
    poll: Poll,
    events: Events,
}

impl Ear {
    /// An ear, and the bell that wakes it.
    pub fn new<R: Net>(rt: &R, alloc: Global) -> io::Result<(Ear, Bell)> {
        let poll = Poll::new(rt)?;
        let waker = Waker::new(poll.registry(), BELL)?;
        let events = Events::with_capacity(alloc, EVENTS)?;
        let bell = Bell {
            waker,
            rung: AtomicBool::new(false),
        };
        Ok((Ear { poll, events }, bell))
    }

    /// Where others than the bell are registered.
    pub fn registry(&self) -> &Registry {
        self.poll.registry()
    }

    /// Waits until the bell rings, something registered is ready, or the time is up. It may return before.
    pub fn wait(&mut self, time: Duration) -> io::Result<()> {
        self.poll.poll(&mut self.events, Some(time))
    }
}
