//! The clock and the ear of the worker at the broker: all its waits are here, and each ends with the gateway.

use crate::hub::Hub;
use mio::net::TcpStream;
use mio::{Interest, Token};
use sng_bounds::loss::Loss;
use sng_signals::bell::Ear;
use std::io;
use std::net::{Net, SocketAddr};
use std::rt::Clock;
use std::time::Duration;

/// Under which the connection is registered at the ear.
const CONNECTION: Token = Token(1);

/// How long a connection may take to be made, in ms.
const PATIENCE_MS: u64 = 5000;

#[derive(Drop)]
pub struct Watch<'a, R: Clock + Net> {
    rt: &'a R,
    hub: &'a Hub,
    ear: Ear,
}

impl<'a, R: Clock + Net> Watch<'a, R> {
    pub fn new(rt: &'a R, hub: &'a Hub, ear: Ear) -> Watch<'a, R> {
        Watch { rt, hub, ear }
    }

    /// The time, or the longest there is where the clock cannot be read: no wait is longer for it.
    pub fn now(&self) -> Duration {
        self.rt.monotonic().unwrap_or(Duration::MAX)
    }

    /// Waits until the bell rings, the connection is ready, or this time has come. It may return before.
    pub fn wait_until(&mut self, end: Duration) -> io::Result<()> {
        let now = self.now();
        self.ear.wait(end.saturating_sub(now))
    }

    /// Waits until this time, or until the gateway stops.
    pub fn pause_until(&mut self, end: Duration) {
        for _ in 0..u64::MAX {
            let _ = self.hub.upstream.heard();
            if end <= self.now() || self.hub.stops() || self.wait_until(end).is_err() {
                return;
            }
        }
    }

    /// Begins a connection, and waits until it is made.
    pub fn dial(&mut self, address: SocketAddr) -> Result<TcpStream, Loss> {
        let mut stream = TcpStream::connect(self.rt, address)?;
        self.ear.registry().register(
            &mut stream,
            CONNECTION,
            Interest::READABLE | Interest::WRITABLE,
        )?;
        let end = self
            .now()
            .saturating_add(Duration::from_millis(PATIENCE_MS));
        for _ in 0..u64::MAX {
            if let Some(error) = stream.take_error()? {
                return Err(Loss::Failed(error));
            }
            if stream.peer_addr().is_ok() {
                stream.set_nodelay(true)?;
                return Ok(stream);
            }
            let _ = self.hub.upstream.heard();
            if end <= self.now() || self.hub.stops() {
                break;
            }
            self.wait_until(end)?;
        }
        Err(Loss::NotMade)
    }
}
