//! Who asks for figures over HTTP is taken here, by one thread: so many visitors at a time, each for some
//! seconds at most. Others wait unaccepted. Nobody at work for devices waits for this thread but for the
//! instant in which it copies the counts of the desk (`figures.rt`), and what fails here ends nothing.
ghost use Rattle.std.specs.Prelude.{◌≡◌, ◌≤◌, ◌<◌, length, not, vec_len, OnOk, OnErr};
ghost use Rattle.std.specs.List.{AllZip, filter};
ghost use Rattle.std.specs.Duration.{as_nanos};
ghost use Rattle.sng_serve.specs.Visits.{HadTurns, HasComeTo, HaveCome, IsRound, IsTurn, IsWithin, is_over};
ghost use Rattle.sng_serve.specs.declared.limits.TheConstants.{MAX_VISITORS};

use crate::figures::Front;
use crate::hub::Hub;
use crate::limits::{MAX_VISITORS, VISIT_MS};
use crate::printing::Shown;
use crate::visit::Visit;
use mio::net::TcpListener;
use mio::{Interest, Token};
use sng_desk::Desk;
use sng_signals::bell::{Bell, Ear};
use sng_signals::level::Level;
use std::alloc::Global;
use std::io::ErrorKind;
use std::net::{Net, SocketAddr};
use std::rt::Clock;
use std::sync::{Mutex, Wait};
use std::thread::{JoinHandle, Scope, Threads};
use std::time::Duration;
use std::{io, thread};

/// How many octets one read takes at most.
const READ_BYTES: usize = 4096;

/// Under which all connections are registered: whoever is ready is found by asking all.
const ANY: Token = Token(1);

/// How long one wait for visitors is, in ms: another one follows it.
const LONGEST_WAIT_MS: u64 = 60000;

/// How long it waits before it takes visitors again where one could not be taken, in ms.
const RETRY_MS: u64 = 200;

/// How long it waits where it cannot wait at its ear, in ms.
const NAP_MS: u64 = 10;

/// Where visitors come in.
#[derive(Drop)]
pub struct Reception {
    alloc: Global,
    ear: Ear,
    listener: TcpListener,
    address: SocketAddr,
    visits: Vec<Visit>,
    buffer: Vec<u8>,
    /// When the gateway began.
    begun: Duration,
    /// The last visitor could not be taken.
    is_short: bool,
    ghost few: { length visits.items ≤ MAX_VISITORS },
}

impl Reception {
    /// Listens at the address. The bell wakes whoever takes the visitors.
    pub fn open<R: Net + Clock + AllocGlobal>(
        rt: &R,
        address: SocketAddr,
    ) -> io::Result<(Reception, Bell)> {
        let alloc = rt.alloc();
        let mut listener = TcpListener::bind(rt, address)?;
        let (ear, bell) = Ear::new(rt, alloc)?;
        ear.registry()
            .register(&mut listener, ANY, Interest::READABLE)?;
        let reception = Reception {
            alloc,
            ear,
            address: listener.local_addr()?,
            listener,
            visits: Vec::with_capacity(alloc, MAX_VISITORS)?,
            buffer: vec![in alloc; 0; READ_BYTES]?,
            begun: rt.monotonic()?,
            is_short: false,
        };
        Ok((reception, bell))
    }

    /// Where it listens.
    pub fn address(&self) -> SocketAddr {
        self.address
    }

    /// Tells where figures are asked for.
    pub fn tell_open(&self, hub: &Hub) {
        let address = self.address;
        hub.tell(
            Level::Info,
            format_args!("figures at http://{address}/metrics"),
        );
    }

    /// Takes new visitors, and lets each of them have his turn. Whether more may be there.
    fn turn<R: Clock + Wait + AllocGlobal>(&mut self, front: &Front<'_, R>, now: Duration) -> bool
        ensures { IsRound now self.old.visits.items self.new.visits.items }
    {
        self.accept_all(now);
        attend(&mut self.visits, front, now, self.buffer.as_mut_slice())
    }

    /// Takes visitors who wait, while there is a place.
    fn accept_all(&mut self, now: Duration)
        ensures { HaveCome now self.old.visits.items self.new.visits.items }
    {
        self.is_short = false;
        for _ in 0..MAX_VISITORS {
            if MAX_VISITORS <= self.visits.len() {
                return;
            }
            if let Err(error) = self.accept(now) {
                self.is_short = error.kind() != ErrorKind::WouldBlock;
                return;
            }
        }
    }

    /// Takes one visitor, for whom there is a place.
    fn accept(&mut self, now: Duration) -> io::Result<()>
        requires { length self.old.visits.items < MAX_VISITORS }
        ensures come { OnOk result (HasComeTo now self.old.visits.items self.new.visits.items) }
        ensures err { OnErr result (self.new.visits.items ≡ self.old.visits.items) }
    {
        let (stream, _) = self.listener.accept()?;
        let end = now.saturating_add(Duration::from_millis(VISIT_MS));
        let visit = Visit::begin(self.alloc, self.ear.registry(), ANY, stream, end)?;
        Ok(self.visits.push(visit)?)
    }

    /// Waits for visitors, for more of one, or until one has taken too long.
    fn wait(&mut self, now: Duration) -> io::Result<()> {
        let longest = if self.is_short {
            RETRY_MS
        } else {
            LONGEST_WAIT_MS
        };
        let latest = now.saturating_add(Duration::from_millis(longest));
        let end = first_end(self.visits.as_slice(), latest);
        self.ear.wait(end.saturating_sub(now))
    }
}

/// Lets each visitor have his turn, and forgets who is gone. Whether more may be there.
fn attend<R: Clock + Wait + AllocGlobal>(
    visits: &mut Vec<Visit>,
    front: &Front<'_, R>,
    now: Duration,
    buffer: &mut [u8],
) -> bool
    ensures turns { HadTurns now visits.old.items visits.new.items }
    ensures few { vec_len visits.new ≤ vec_len visits.old }
{
    let is_busy = attend_all(visits, front, now, buffer);
    forget_all(visits) || is_busy
}

/// Lets each visitor have his turn. Whether more may be there.
fn attend_all<R: Clock + Wait + AllocGlobal>(
    visits: &mut Vec<Visit>,
    front: &Front<'_, R>,
    now: Duration,
    buffer: &mut [u8],
) -> bool
    ensures turns { AllZip (IsTurn now) visits.old.items visits.new.items }
    ensures as_many { vec_len visits.new ≡ vec_len visits.old }
{
    let mut is_busy = false;
    for visit in visits.iter_mut() {
        is_busy = visit.turn(front, now, buffer) || is_busy;
    }
    is_busy
}

/// Forgets those that are over. Whether there were any.
fn forget_all(visits: &mut Vec<Visit>) -> bool
    ensures left { visits.new.items ≡ filter (λ visit. not (is_over visit)) visits.old.items }
    ensures few { vec_len visits.new ≤ vec_len visits.old }
{
    let before = visits.len();
    visits.retain(|visit| !visit.is_over());
    visits.len() < before
}

/// When the first of these visits has taken too long, or the latest time where that is before it.
fn first_end(visits: &[Visit], latest: Duration) -> Duration
    ensures latest { as_nanos result ≤ as_nanos latest }
    ensures each { IsWithin result visits.now }
{
    let mut end = latest;
    for visit in visits {
        let other = visit.end();
        if other.as_nanos() < end.as_nanos() {
            end = other;
        }
    }
    end
}

/// Starts the thread that takes visitors, where there are to be any. Where none can be had, that is told, and
/// the gateway goes on without it.
pub fn start_reception<
    's,
    E,
    R: Threads + Wait + Clock + AllocGlobal + Sync + 's,
    M: Shown + Sync + 's,
>(
    scope: &Scope<'s, E>,
    rt: &'s R,
    desk: &'s M,
    hub: &'s Hub,
    reception: Option<Reception>,
) -> Option<JoinHandle<()>> {
    let reception = reception?;
    let started = scope.spawn(move || receive(rt, desk.desk(), hub, reception));
    if started.is_err() {
        hub.tell(
            Level::Error,
            "no figures: the thread for them cannot be started",
        );
    }
    started.ok()
}

/// Takes visitors until all workers have ended.
fn receive<R: Wait + Clock + AllocGlobal>(
    rt: &R,
    desk: &Mutex<Desk>,
    hub: &Hub,
    mut reception: Reception,
) {
    let front = Front {
        rt,
        hub,
        desk,
        begun: reception.begun,
    };
    for _ in rt.forever() {
        if let Some(bell) = &hub.reception {
            let _ = bell.heard();
        }
        if hub.is_over() {
            return;
        }
        let now = front.now();
        if !reception.turn(&front, now) && reception.wait(now).is_err() {
            // as after the process was stopped and continued
            thread::sleep(rt, Duration::from_millis(NAP_MS));
        }
    }
}
