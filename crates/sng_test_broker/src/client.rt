//! A connection of the test broker: bytes come from it, and wait for it.

use mio::net::TcpStream;
use mio::{Interest, Registry, Token};
use mqtt_frames::{Packet, Stream, encode};
use std::alloc::{AllocError, Global};
use std::io;
use std::io::{ErrorKind, Read, Write};

/// So many bytes may wait for a connection. One that takes no more of them is closed.
const MAX_WAITING_BYTES: usize = 16_777_216;

/// A client of the test broker.
#[derive(Drop)]
pub struct TestClient {
    conn: u32,
    stream: TcpStream,
    input: Stream,
    waiting: Vec<u8>,
    /// How many of the bytes that wait were written.
    written: usize,
    is_over: bool,
}

/// What a read came to.
#[derive(Drop)]
pub enum Heard {
    /// The packets that are whole now, of the connection with this number.
    Packets(u32, Vec<Packet>),
    /// Nothing is there now.
    Nothing,
    /// The connection with this number is over.
    Over(u32),
}

impl TestClient {
    pub fn new(alloc: Global, conn: u32, stream: TcpStream) -> TestClient {
        TestClient {
            conn,
            stream,
            input: Stream::new(alloc),
            waiting: Vec::new(alloc),
            written: 0,
            is_over: false,
        }
    }

    /// The number of the connection.
    pub fn conn(&self) -> u32 {
        self.conn
    }

    pub fn is_over(&self) -> bool {
        self.is_over
    }

    /// Nothing is read from it or written to it any more.
    pub fn end(&mut self) {
        self.is_over = true;
    }

    pub fn register(&mut self, registry: &Registry, token: Token) -> io::Result<()> {
        self.stream.set_nodelay(true)?;
        registry.register(
            &mut self.stream,
            token,
            Interest::READABLE | Interest::WRITABLE,
        )
    }

    /// Reads once into the buffer, and answers the packets that are whole with it.
    pub fn hear(&mut self, alloc: Global, buffer: &mut [u8]) -> Heard {
        let count = match (&self.stream).read(buffer) {
            Ok(0) => return Heard::Over(self.conn),
            Ok(count) => count,
            Err(error) => return heard_of(self.conn, error.kind()),
        };
        let bytes = (&*buffer).get(..count).unwrap_or(&[]);
        match self.input.feed(alloc, bytes) {
            Ok(packets) => Heard::Packets(self.conn, packets),
            Err(_) => Heard::Over(self.conn),
        }
    }

    /// Lets a packet wait. Where there is no room for it, the connection is over.
    pub fn push(&mut self, alloc: Global, packet: &Packet) {
        if MAX_WAITING_BYTES < self.waiting.len() || self.add(alloc, packet).is_err() {
            self.is_over = true;
        }
    }

    fn add(&mut self, alloc: Global, packet: &Packet) -> Result<(), AllocError> {
        match encode(alloc, packet) {
            Ok(bytes) => self.waiting.extend_from_slice(bytes.as_slice()),
            Err(_) => Err(AllocError),
        }
    }

    /// Writes what waits, as much as the system takes now.
    pub fn flush(&mut self) {
        let bytes = self.waiting.as_slice().get(self.written..).unwrap_or(&[]);
        if bytes.is_empty() {
            return;
        }
        match (&self.stream).write(bytes) {
            Ok(count) => self.wrote(count),
            Err(error) => match error.kind() {
                ErrorKind::WouldBlock | ErrorKind::Interrupted => {}
                _ => self.is_over = true,
            },
        }
    }

    fn wrote(&mut self, count: usize) {
        self.written = self.written.saturating_add(count);
        if self.waiting.len() <= self.written {
            self.waiting.clear();
            self.written = 0;
        }
    }
}

fn heard_of(conn: u32, kind: ErrorKind) -> Heard {
    match kind {
        ErrorKind::WouldBlock | ErrorKind::Interrupted => Heard::Nothing,
        _ => Heard::Over(conn),
    }
}
