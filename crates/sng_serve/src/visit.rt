//! One visitor of the figures: a connection of HTTP (RFC 9112), from its first octet to its end. It is heard
//! as far as its request has come, answered once, and let go (`Connection: close`, 9.6). No call waits.
ghost use Rattle.std.specs.Prelude.{◌≡◌, IfOk};
ghost use Rattle.sng_serve.specs.Visits.{EndsIf, IsAsked, IsCame, IsHeardOf, IsLeaving, IsNew, IsSame, IsSent};
ghost use Rattle.sng_serve.specs.Visits.{IsTold, IsTurn, IsTurnAt, is_late, is_over};
ghost use Rattle.sng_serve.specs.declared.visit.Stage.TheVariants as at;

use crate::figures::Front;
use mio::net::TcpStream;
use mio::{Interest, Registry, Token};
use sng_metrics::{Heard, Visitor};
use std::alloc::{AllocError, Global};
use std::io;
use std::io::{Error, ErrorKind, Read, Write};
use std::net::Shutdown;
use std::rt::Clock;
use std::sync::Wait;
use std::time::Duration;

/// So many pieces of a visitor are read before the others have their turn.
const PIECES: usize = 16;

/// Where a visit stands.
#[derive(Clone, Copy, Debug, PartialEq, Eq)]
enum Stage {
    /// The request comes.
    Asking,
    /// The answer goes out.
    Answering,
    /// The answer is out. What the visitor still sends is passed over until he closes the connection, too:
    /// else the system could take the answer back from him (RFC 9112, 9.6).
    Leaving,
    /// Nothing more comes or goes.
    Over,
}

/// What a look at a visitor came to.
#[derive(Clone, Copy, Debug, PartialEq, Eq)]
enum Seen {
    /// Nothing is to be done before the connection is ready again.
    Idle,
    /// Something was done, and more may be there.
    Busy,
}

/// What came of a visitor who is to ask.
#[derive(Clone, Copy, Debug, PartialEq, Eq)]
enum Came {
    /// Nothing more is there now.
    Nothing,
    /// Octets of a request, and more may be there.
    More,
    /// With what came last, this is heard of him: nothing more is read.
    Heard(Heard),
}

/// A visitor.
#[derive(Drop)]
pub struct Visit {
    stream: TcpStream,
    visitor: Visitor,
    stage: Stage,
    answer: Vec<u8>,
    /// How many of the octets of the answer the system took.
    written: usize,
    /// When he has taken too long.
    end: Duration,
}

impl Visit {
    /// A visitor who has come now, and has until this time.
    pub fn begin(
        alloc: Global,
        registry: &Registry,
        token: Token,
        mut stream: TcpStream,
        end: Duration,
    ) -> io::Result<Visit>
        ensures { IfOk result (IsNew end) }
    {
        registry.register(&mut stream, token, Interest::READABLE | Interest::WRITABLE)?;
        Ok(Visit {
            stream,
            visitor: Visitor::new(alloc),
            stage: Stage::Asking,
            answer: Vec::new(alloc),
            written: 0,
            end,
        })
    }

    /// When he has taken too long.
    pub fn end(&self) -> Duration
        ensures { result ≡ self.now.end }
    {
        self.end
    }

    /// Whether nothing more comes or goes.
    pub fn is_over(&self) -> bool
        ensures { result ≡ is_over self.now }
    {
        match self.stage {
            Stage::Asking | Stage::Answering | Stage::Leaving => false,
            Stage::Over => true,
        }
    }

    /// Whether he has taken too long.
    fn is_late(&self, now: Duration) -> bool
        ensures { result ≡ is_late now self.now }
    {
        self.end.as_nanos() <= now.as_nanos()
    }

    /// Takes what came of him and passes on what waits for him: he is answered once, by what is heard of him,
    /// and let go once his time is up, in the turn behind that in which he is told so. Whether more may be
    /// there.
    pub fn turn<R: Clock + Wait + AllocGlobal>(
        &mut self,
        front: &Front<'_, R>,
        now: Duration,
        buffer: &mut [u8],
    ) -> bool
        ensures { IsTurn now self.old self.new }
    {
        let is_late = self.is_late(now);
        self.go_on(front, is_late, buffer) == Seen::Busy
    }

    /// The turn of one whose time is up, or is not.
    fn go_on<R: Clock + Wait + AllocGlobal>(
        &mut self,
        front: &Front<'_, R>,
        is_late: bool,
        buffer: &mut [u8],
    ) -> Seen
        ensures { IsTurnAt self.old.stage is_late self.old self.new }
    {
        match self.stage {
            Stage::Asking => self.ask(front, is_late, buffer),
            Stage::Answering => self.answer_on(is_late),
            Stage::Leaving => self.leave(is_late, buffer),
            Stage::Over => Seen::Idle,
        }
    }

    /// Hears his request, and answers once it is whole, is refused, or has not come in time.
    fn ask<R: Clock + Wait + AllocGlobal>(
        &mut self,
        front: &Front<'_, R>,
        is_late: bool,
        buffer: &mut [u8],
    ) -> Seen
        requires { self.old.stage ≡ at.Asking }
        ensures asked { IsAsked is_late self.new }
        ensures time { self.new.end ≡ self.old.end }
    {
        match hear(&self.stream, &mut self.visitor, buffer) {
            Ok(Came::Heard(heard)) => self.answer(front, heard),
            Ok(Came::Nothing | Came::More) if is_late => self.answer_late(front),
            Ok(Came::Nothing) => Seen::Idle,
            Ok(Came::More) => Seen::Busy,
            Err(_) => self.part(),
        }
    }

    /// Answers what is heard of him up to now: his time is up.
    fn answer_late<R: Clock + Wait + AllocGlobal>(&mut self, front: &Front<'_, R>) -> Seen
        ensures told { IsTold self.new }
        ensures time { self.new.end ≡ self.old.end }
    {
        match self.visitor.hear(&[]) {
            Ok(heard) => self.answer(front, heard),
            Err(AllocError) => self.part(),
        }
    }

    /// Begins the answer to what was heard. Where there is no memory for it, the visit is over.
    fn answer<R: Clock + Wait + AllocGlobal>(&mut self, front: &Front<'_, R>, heard: Heard) -> Seen
        requires { IsHeardOf self.old.visitor heard }
        ensures told { IsTold self.new }
        ensures time { self.new.end ≡ self.old.end }
    {
        match front.answer(heard) {
            Ok(octets) => {
                self.answer = octets;
                self.stage = Stage::Answering;
                self.send()
            }
            Err(AllocError) => self.part(),
        }
    }

    /// Goes on with the answer, if there is time.
    fn answer_on(&mut self, is_late: bool) -> Seen
        requires { self.old.stage ≡ at.Answering }
        ensures sent { IsSent self.old self.new }
        ensures ends { EndsIf is_late self.new.stage }
    {
        if is_late { self.part() } else { self.send() }
    }

    /// Writes what is left of the answer, as much as the system takes. Behind it nothing more is written.
    fn send(&mut self) -> Seen
        requires { self.old.stage ≡ at.Answering }
        ensures { IsSent self.old self.new }
    {
        if self.answer.len() <= self.written {
            let _ = self.stream.shutdown(Shutdown::Write);
            self.stage = Stage::Leaving;
            return Seen::Busy;
        }
        match (&self.stream).write(&self.answer.as_slice()[self.written..]) {
            Ok(count) => {
                self.written = self.written.saturating_add(count);
                Seen::Busy
            }
            Err(error) => match error.kind() {
                ErrorKind::Interrupted => Seen::Busy,
                ErrorKind::WouldBlock => Seen::Idle,
                _ => self.part(),
            },
        }
    }

    /// Passes over what he still sends, if there is time.
    fn leave(&mut self, is_late: bool, buffer: &mut [u8]) -> Seen
        requires { self.old.stage ≡ at.Leaving }
        ensures leaving { IsLeaving self.old self.new }
        ensures ends { EndsIf is_late self.new.stage }
    {
        if is_late {
            return self.part();
        }
        match pass_over(&self.stream, buffer) {
            Ok(seen) => seen,
            Err(_) => self.part(),
        }
    }

    /// Nothing more comes or goes.
    fn part(&mut self) -> Seen
        ensures over { self.new.stage ≡ at.Over }
        ensures same { IsSame self.old self.new }
    {
        self.stage = Stage::Over;
        Seen::Busy
    }
}

/// Reads what is there, in some pieces, up to what decides. An `Err` is that the connection is over, or that
/// memory is wanting.
fn hear(stream: &TcpStream, visitor: &mut Visitor, buffer: &mut [u8]) -> io::Result<Came>
    ensures { IfOk result (IsCame visitor.new) }
{
    for _ in 0..PIECES {
        let Some(count) = read(stream, buffer)? else {
            return Ok(Came::Nothing);
        };
        let octets = (&*buffer).get(..count).unwrap_or(&[]);
        match visitor.hear(octets)? {
            Heard::More => {}
            heard => return Ok(Came::Heard(heard)),
        }
    }
    Ok(Came::More)
}

/// Reads what is there, in some pieces, and forgets it.
fn pass_over(stream: &TcpStream, buffer: &mut [u8]) -> io::Result<Seen> {
    for _ in 0..PIECES {
        if read(stream, buffer)?.is_none() {
            return Ok(Seen::Idle);
        }
    }
    Ok(Seen::Busy)
}

/// Reads once; none where nothing is there now. The end of the stream is an `Err`, as a broken one is.
fn read(mut stream: &TcpStream, buffer: &mut [u8]) -> io::Result<Option<usize>> {
    match stream.read(buffer) {
        Ok(0) => Err(Error::from(ErrorKind::UnexpectedEof)),
        Ok(count) => Ok(Some(count)),
        Err(error) => match error.kind() {
            ErrorKind::Interrupted => Ok(Some(0)),
            ErrorKind::WouldBlock => Ok(None),
            _ => Err(error),
        },
    }
}
