//! The stream of a connection to the broker, with what is kept for it in both directions: bytes that are
//! still to be written, and bytes that were read and not yet given. No call waits.
ghost use Rattle.std.specs.Prelude.{◌≡◌, ◌≤◌, ◌∷◌, [], length, IfOk, IsTrue, ◌↔◌};
ghost use Rattle.sng_crew.specs.Devices.{IsTaken};

use mio::net::TcpStream;
use sng_crew::{MAX_READ, Written};
use std::alloc::{AllocError, Global};
use std::io;
use std::io::{Error, ErrorKind, Read, Write};
use std::net::Shutdown;

/// For so many bytes there is room from the start on. What a turn writes is kept whole: there is as much as
/// waited for the broker.
const KEPT_BYTES: usize = 65536;

/// So many bytes at most are read ahead, while the broker takes none.
const AHEAD_BYTES: usize = 65536;

/// A PINGREQ (MQTT 3.1.1, 3.12).
const PING_REQUEST: [u8; 2] = [0xc0, 0];

/// What came of a write.
#[derive(Clone, Copy, Debug, PartialEq, Eq)]
pub enum Sent {
    /// Nothing is left to be written.
    All,
    /// Something was taken, or the call is to be made again.
    Some,
    /// The system takes nothing now.
    Nothing,
}

/// What came of a read.
#[derive(Clone, Copy, Debug, PartialEq, Eq)]
pub enum Came {
    /// Some bytes, or the call is to be made again.
    Some,
    /// Nothing is there now.
    Nothing,
    /// The broker has closed the stream.
    End,
}

/// A stream, where there is one, and what is kept for it.
#[derive(Drop)]
pub struct Wire {
    stream: Option<TcpStream>,
    outgoing: Vec<u8>,
    /// How much of what goes out the system took.
    sent: usize,
    incoming: Vec<u8>,
    /// How much of what came in was given.
    given: usize,
    buffer: Vec<u8>,
    /// A PINGREQ is among what goes out.
    has_ping: bool,
}

impl Wire {
    pub fn new(alloc: Global) -> Result<Wire, AllocError> {
        Ok(Wire {
            stream: None,
            outgoing: Vec::with_capacity(alloc, KEPT_BYTES)?,
            sent: 0,
            incoming: Vec::with_capacity(alloc, AHEAD_BYTES + MAX_READ)?,
            given: 0,
            buffer: vec![in alloc; 0; MAX_READ]?,
            has_ping: false,
        })
    }

    pub fn is_open(&self) -> bool {
        self.stream.is_some()
    }

    /// Begins anew with this stream.
    pub fn open(&mut self, stream: TcpStream) {
        self.close();
        self.stream = Some(stream);
    }

    /// Lets the stream go, with all that is kept.
    pub fn close(&mut self) {
        self.stream = None;
        self.outgoing.clear();
        self.sent = 0;
        self.incoming.clear();
        self.given = 0;
        self.has_ping = false;
    }

    /// Ends the stream in both directions.
    pub fn shut(&mut self) {
        if let Some(stream) = &self.stream {
            let _ = stream.shutdown(Shutdown::Both);
        }
        self.close();
    }

    /// Keeps the bytes, all of them or none.
    ///
    /// The desk passes each packet on its own, so a PINGREQ is recognised exactly: it is all that is passed.
    pub fn keep(&mut self, bytes: &[u8]) -> Written
        ensures { IsTaken result (length bytes.now) }
    {
        if bytes.is_empty() || self.outgoing.extend_from_slice(bytes).is_err() {
            return Written::Failed;
        }
        if is_ping_request(bytes) {
            self.has_ping = true;
        }
        Written::Took(bytes.len())
    }

    /// Whether a PINGREQ went out since this was asked last.
    pub fn take_ping(&mut self) -> bool {
        let has_ping = self.has_ping;
        self.has_ping = false;
        has_ping
    }

    /// Writes what is kept, from the first byte on that was not taken yet, as much as the system takes.
    pub fn send(&mut self) -> io::Result<Sent> {
        let rest = self.outgoing.as_slice().get(self.sent..).unwrap_or(&[]);
        let (Some(stream), false) = (&self.stream, rest.is_empty()) else {
            self.outgoing.clear();
            self.sent = 0;
            return Ok(Sent::All);
        };
        match (&*stream).write(rest) {
            Ok(0) => Err(Error::from(ErrorKind::WriteZero)),
            Ok(count) => {
                self.sent = self.sent.saturating_add(count);
                Ok(Sent::Some)
            }
            Err(error) => match error.kind() {
                ErrorKind::Interrupted => Ok(Sent::Some),
                ErrorKind::WouldBlock => Ok(Sent::Nothing),
                _ => Err(error),
            },
        }
    }

    /// Reads once.
    pub fn receive(&mut self) -> io::Result<Came> {
        let Some(stream) = &self.stream else {
            return Ok(Came::End);
        };
        match (&*stream).read(self.buffer.as_mut_slice()) {
            Ok(0) => Ok(Came::End),
            Ok(count) => {
                let bytes = self.buffer.as_slice().get(..count).unwrap_or(&[]);
                self.incoming.extend_from_slice(bytes)?;
                Ok(Came::Some)
            }
            Err(error) => match error.kind() {
                ErrorKind::Interrupted => Ok(Came::Some),
                ErrorKind::WouldBlock => Ok(Came::Nothing),
                _ => Err(error),
            },
        }
    }

    /// Reads once while a write waits: a broker that sends before it reads would else wait for the gateway,
    /// as the gateway for it. Beyond a bound nothing is read, and the broker has to read.
    pub fn receive_ahead(&mut self) -> io::Result<Came> {
        if AHEAD_BYTES <= self.incoming.len() {
            return Ok(Came::Nothing);
        }
        self.receive()
    }

    /// The next piece of what came in, of `MAX_READ` bytes at most, which is then given. It is empty where
    /// nothing is left.
    pub fn piece(&mut self, alloc: Global) -> Result<Vec<u8>, AllocError>
        ensures { IfOk result (λ piece. length piece.items ≤ MAX_READ) }
    {
        let rest = self.incoming.as_slice().get(self.given..).unwrap_or(&[]);
        let Some(bytes) = rest.get(..rest.len().min(MAX_READ)) else {
            return Ok(Vec::new(alloc));
        };
        let piece = Vec::from_slice(alloc, bytes)?;
        self.given = self.given.saturating_add(piece.len());
        if self.incoming.len() <= self.given {
            self.incoming.clear();
            self.given = 0;
        }
        Ok(piece)
    }

    /// Whether nothing of what came in is left.
    pub fn is_drained(&self) -> bool {
        self.incoming.len() <= self.given
    }
}

/// Whether the bytes are those of a PINGREQ.
pub fn is_ping_request(bytes: &[u8]) -> bool
    ensures { IsTrue result ↔ (bytes.now ≡ 192 ∷ 0 ∷ []) }
{
    bytes == PING_REQUEST.as_slice()
}
