//! One question to a gateway over HTTP (RFC 9112), on a connection of its own, and the octets of its answer.
ghost use Rattle.std.specs.Prelude.{◌≤◌, length, IfOk};

use mio::net::TcpStream;
use mio::{Interest, Token};
use sng_signals::bell::Ear;
use sng_signals::clock::{is_past, time_after};
use std::alloc::AllocError;
use std::fmt;
use std::fmt::{Display, Formatter};
use std::io::{Error, ErrorKind, Read, Write};
use std::net::{Net, SocketAddr};
use std::rt::Clock;
use std::time::Duration;

/// Under which the connection is registered at the ear.
const CONNECTION: Token = Token(1);

/// How long a question takes at most, in seconds.
const PATIENCE_SECONDS: u64 = 5;

/// How many octets an answer has at most.
const MAX_ANSWER: usize = 1_048_576;

/// How many octets one read takes at most.
const READ_BYTES: usize = 16384;

/// Why there is no answer.
#[derive(Drop)]
pub enum NoAnswer {
    /// The connection cannot be made, or broke.
    Failed(Error),
    /// It took too long.
    Late,
    /// The answer is longer than any of a gateway.
    Long,
    /// An allocation failed.
    Memory,
}

impl Display for NoAnswer {
    fn fmt<W: fmt::Write>(&self, f: &mut Formatter<W>) -> fmt::Result {
        match self {
            NoAnswer::Failed(error) => write!(f, "{error}"),
            NoAnswer::Late => write!(f, "no whole answer in {PATIENCE_SECONDS} s"),
            NoAnswer::Long => write!(f, "an answer of more than {MAX_ANSWER} octets"),
            NoAnswer::Memory => f.write_str("out of memory"),
        }
    }
}

impl From<Error> for NoAnswer {
    fn from(error: Error) -> NoAnswer {
        match error.kind() {
            ErrorKind::OutOfMemory => NoAnswer::Memory,
            _ => NoAnswer::Failed(error),
        }
    }
}

impl From<AllocError> for NoAnswer {
    fn from(_: AllocError) -> NoAnswer {
        NoAnswer::Memory
    }
}

/// What is answered at the address to this request.
pub fn answer_at<R: Clock + Net + AllocGlobal>(
    rt: &R,
    address: SocketAddr,
    request: &[u8],
) -> Result<Vec<u8>, NoAnswer>
    ensures { IfOk result (λ answer. length answer.items ≤ MAX_ANSWER) }
{
    let mut question = Question::begin(rt, address)?;
    question.dial()?;
    question.put(request)?;
    question.take()
}

/// One question, on a connection of its own.
#[derive(Drop)]
struct Question<'a, R: Clock> {
    rt: &'a R,
    ear: Ear,
    stream: TcpStream,
    /// When it has taken too long.
    end: Duration,
}

impl<'a, R: Clock + Net + AllocGlobal> Question<'a, R> {
    /// Begins a connection.
    fn begin(rt: &'a R, address: SocketAddr) -> Result<Question<'a, R>, NoAnswer> {
        let (ear, _bell) = Ear::new(rt, rt.alloc())?;
        let mut stream = TcpStream::connect(rt, address)?;
        ear.registry().register(
            &mut stream,
            CONNECTION,
            Interest::READABLE | Interest::WRITABLE,
        )?;
        Ok(Question {
            rt,
            ear,
            stream,
            end: time_after(rt, 1000 * PATIENCE_SECONDS),
        })
    }

    /// Waits until the connection is ready for more, or for an instant. An `Err` is that the time is up.
    fn wait(&mut self) -> Result<(), NoAnswer> {
        if is_past(self.rt, self.end) {
            return Err(NoAnswer::Late);
        }
        let now = self.rt.monotonic().unwrap_or(Duration::MAX);
        Ok(self.ear.wait(self.end.saturating_sub(now))?)
    }

    /// Waits until the connection is made.
    fn dial(&mut self) -> Result<(), NoAnswer> {
        for _ in 0..u64::MAX {
            if let Some(error) = self.stream.take_error()? {
                return Err(NoAnswer::Failed(error));
            }
            if self.stream.peer_addr().is_ok() {
                return Ok(());
            }
            self.wait()?;
        }
        Err(NoAnswer::Late)
    }

    /// Writes all of the request.
    fn put(&mut self, request: &[u8]) -> Result<(), NoAnswer> {
        let mut left = request;
        for _ in 0..u64::MAX {
            if left.is_empty() {
                return Ok(());
            }
            match (&self.stream).write(left) {
                Ok(count) => left = left.get(count..).unwrap_or(&[]),
                Err(error) => self.wait_behind(error)?,
            }
        }
        Err(NoAnswer::Late)
    }

    /// Reads the answer, until the gateway closes the connection behind it.
    fn take(&mut self) -> Result<Vec<u8>, NoAnswer>
        ensures { IfOk result (λ answer. length answer.items ≤ MAX_ANSWER) }
    {
        let mut answer = Vec::new(self.rt.alloc());
        let mut buffer = vec![in self.rt.alloc(); 0; READ_BYTES]?;
        for _ in 0..u64::MAX {
            if MAX_ANSWER < answer.len() {
                return Err(NoAnswer::Long);
            }
            match (&self.stream).read(buffer.as_mut_slice()) {
                Ok(0) => return Ok(answer),
                Ok(count) => {
                    answer.extend_from_slice(buffer.as_slice().get(..count).unwrap_or(&[]))?;
                }
                Err(error) => self.wait_behind(error)?,
            }
        }
        Err(NoAnswer::Late)
    }

    /// Waits behind a call that is to be made again. Any other error is one.
    fn wait_behind(&mut self, error: Error) -> Result<(), NoAnswer> {
        match error.kind() {
            ErrorKind::WouldBlock => self.wait(),
            ErrorKind::Interrupted => Ok(()),
            _ => Err(NoAnswer::from(error)),
        }
    }
}
