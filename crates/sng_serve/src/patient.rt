//! A reader of standard input that waits until there is something to read, and meanwhile looks whether the
//! gateway stops: a read that blocks would keep a gateway that ends by itself from ending. Standard input may
//! also have been opened not to block by whoever shares it.
ghost use Rattle.std.specs.Prelude.{◌≡◌, ℕ, Bool, List};
ghost use Rattle.std.specs.Io.Buffered.{reader_inner};

use crate::hub::Hub;
use mio::unix::SourceFd;
use mio::{Events, Interest, Poll, Token};
use std::alloc::{AllocError, Global};
use std::io::{BufRead, BufReader, Error, ErrorKind, Read};
use std::net::Net;
use std::os::fd::RawFd;
use std::rt::Clock;
use std::time::Duration;
use std::{io, thread};

/// The descriptor of standard input, and under which it is registered.
const INPUT: RawFd = 0;

const INPUT_TOKEN: Token = Token(0);

/// How many bytes of standard input are read at a time.
const BUFFER_BYTES: usize = 65536;

/// How long one wait for input is, in ms: another one follows it.
const WAIT_MS: u64 = 250;

/// How long it waits before it asks again where a read would block all the same, in ms.
const PAUSE_MS: u64 = 50;

/// Waits for standard input.
#[derive(Drop)]
pub struct InputWatch {
    poll: Poll,
    events: Events,
    /// A file cannot be waited for: a read of one does not block.
    can_wait: bool,
}

impl InputWatch {
    pub fn new<R: Net>(rt: &R, alloc: Global) -> io::Result<InputWatch> {
        let poll = Poll::new(rt)?;
        let input = INPUT;
        let mut source = SourceFd(&input);
        let registered = poll
            .registry()
            .register(&mut source, INPUT_TOKEN, Interest::READABLE);
        Ok(InputWatch {
            poll,
            events: Events::with_capacity(alloc, 1)?,
            can_wait: registered.is_ok(),
        })
    }

    /// Waits until something can be read. Whether the gateway goes on.
    fn awaits(&mut self, hub: &Hub) -> bool {
        for _ in 0..u64::MAX {
            if hub.stops() {
                return false;
            }
            if self.is_ready() {
                return true;
            }
        }
        false
    }

    /// Waits a while. Whether a read would not block, as far as can be told.
    pub fn is_ready(&mut self) -> bool {
        if !self.can_wait {
            return true;
        }
        let input = INPUT;
        let mut source = SourceFd(&input);
        // it is told once only of what waits, so it asks anew for what was left
        let asked = self
            .poll
            .registry()
            .reregister(&mut source, INPUT_TOKEN, Interest::READABLE);
        if asked.is_err() {
            return true;
        }
        let wait = Duration::from_millis(WAIT_MS);
        match self.poll.poll(&mut self.events, Some(wait)) {
            Ok(()) => !self.events.is_empty(),
            Err(_) => true,
        }
    }
}

/// Passes on what its reader gives, once there is something to read. Once the gateway stops it is given up:
/// each read fails.
#[derive(Drop)]
pub struct PatientReader<'a, R: Clock, I> {
    rt: &'a R,
    hub: &'a Hub,
    watch: InputWatch,
    inner: I,
    is_given_up: bool,
}

impl<'a, R: Clock, I: Read> PatientReader<'a, R, I> {
    pub fn new(rt: &'a R, hub: &'a Hub, watch: InputWatch, inner: I) -> PatientReader<'a, R, I>
        ensures inner { result.inner ≡ inner }
    {
        PatientReader {
            rt,
            hub,
            watch,
            inner,
            is_given_up: false,
        }
    }
}

impl<'a, R: Clock, I: Read> Read for PatientReader<'a, R, I> {
    ghost remaining = { λ reader. I.remaining reader.inner };

    /// Where a read would block all the same it is to be made again, as after a signal.
    fn read(&mut self, buf: &mut [u8]) -> io::Result<usize> {
        if !self.watch.awaits(self.hub) {
            self.is_given_up = true;
            return Err(Error::other("the gateway stops"));
        }
        match self.inner.read(buf) {
            Err(error) if error.kind() == ErrorKind::WouldBlock => {
                thread::sleep(self.rt, Duration::from_millis(PAUSE_MS));
                Err(Error::from(ErrorKind::Interrupted))
            }
            answer => answer,
        }
    }
}

/// An input that may be given up before its end.
pub trait PatientInput: BufRead {
    /// A read was given up, since the gateway stops.
    ghost given_up: { Self → Bool };

    fn is_given_up(&self) -> bool
        ensures { result ≡ given_up self.now };

    /// Whether something was read that was not taken yet.
    fn has_buffered(&self) -> bool;
}

impl<'a, R: Clock, I: Read> PatientInput for BufReader<PatientReader<'a, R, I>> {
    ghost given_up = { λ reader. (reader_inner reader).is_given_up };

    fn is_given_up(&self) -> bool {
        self.get_ref().is_given_up
    }

    fn has_buffered(&self) -> bool {
        !self.buffer().is_empty()
    }
}

/// Standard input.
pub type StandardInput<'a, R> = BufReader<PatientReader<'a, R, <R as Input>::Reader>>;

/// Standard input from its beginning.
pub fn standard_input<'a, R: Clock + Input + AllocGlobal>(
    rt: &'a R,
    hub: &'a Hub,
    watch: InputWatch,
) -> Result<StandardInput<'a, R>, AllocError> {
    let reader = PatientReader::new(rt, hub, watch, rt.reader());
    match BufReader::with_capacity(rt.alloc(), BUFFER_BYTES, reader) {
        Ok(input) => Ok(input),
        Err(_) => Err(AllocError),
    }
}
