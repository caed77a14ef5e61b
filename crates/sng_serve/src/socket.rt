//! The socket of the devices as a source of datagrams. All workers share one socket, and one of them reads it
//! at a time. It takes the token with what it read, before the next one reads, so what comes has an order.
ghost use Rattle.std.specs.Prelude.{◌≡◌, ◌≢◌, ◌≤◌, ◌<◌, ◌↔◌, [], false};
ghost use Rattle.sng_desk.specs.declared.source.Got.TheVariants.{Ended as ended_answer};
ghost use Rattle.sng_desk.specs.declared.source.Got.TheVariants.{Failed as failed_answer};

use crate::hub::Hub;
use crate::parcels::{Parcel, Sender, are_many, put_apart, send_own, send_parcels};
use crate::udp_calls::receive_now;
use sng_book::{Address, Out};
use sng_bounds::paths::{Paths, REST_MS};
use sng_desk::{Datagrams, Got};
use sng_frames::{MAX_DATAGRAM, write_disconnect};
use sng_operator::ask::socket_address;
use sng_text::WireBytes;
use std::alloc::{AllocError, Global};
use std::io::{Error, ErrorKind};
use std::mem;
use std::net::{Ipv4Addr, Net, SocketAddr, SocketAddrV4, UdpSocket};
use std::rt::Clock;
use std::sync::Wait;

/// One byte more than the longest datagram that is read, so that a longer one shows.
const BUFFER_BYTES: usize = MAX_DATAGRAM + 1;

/// So many datagrams a worker reads before the next one may: the first one it may have waited for, and the others
/// lay in the socket.
const MAX_BURST: u32 = 256;

/// So many calls may fail one after another before the socket is taken for lost.
const MAX_ERRORS: u32 = 100;

/// A worker's handle of the socket.
#[derive(Drop)]
pub struct Socket<'a, R: Net + Clock + Wait> {
    rt: &'a R,
    hub: &'a Hub,
    alloc: Global,
    socket: UdpSocket,
    /// The worker that has this handle.
    by: u16,
    /// The port of the socket: what comes from it at this machine was sent by the gateway itself.
    port: u16,
    buffer: Vec<u8>,
    /// A DISCONNECT, as it answers who has no session.
    disconnect: WireBytes,
    paths: Paths,
    /// Until when some address may rest, in ms; 0 where none does.
    rest_end: u64,
    failures: u64,
    /// How many datagrams could not be sent.
    unsent: u64,
    /// How many datagrams were lost for want of memory.
    lost: u64,
    errors: u32,
    /// How many datagrams of a burst it read, one after another.
    burst: u32,
    /// What the courier is given, in room that is used again.
    parcels: Vec<Parcel>,
}

impl<'a, R: Net + Clock + Wait> Socket<'a, R> {
    /// The handle of the worker with this tag, whose gate has to give back the token. The socket is to end a
    /// wait for a datagram, and a write, in good time.
    pub fn new(
        rt: &'a R,
        hub: &'a Hub,
        alloc: Global,
        socket: UdpSocket,
        port: u16,
        by: u16,
    ) -> Result<Socket<'a, R>, AllocError> {
        Ok(Socket {
            rt,
            hub,
            alloc,
            socket,
            by,
            port,
            buffer: vec![in alloc; 0; BUFFER_BYTES]?,
            disconnect: write_disconnect(alloc, None)?,
            paths: Paths::new(alloc)?,
            rest_end: 0,
            failures: 0,
            unsent: 0,
            lost: 0,
            errors: 0,
            burst: 0,
            parcels: Vec::new(alloc),
        })
    }

    /// Where there is no memory for a datagram, it is lost. One that the gateway sent is passed over.
    fn take(&mut self, from: SocketAddrV4, count: usize) -> Got<(Address, WireBytes)>
        ensures failures { self.old.failures ≤ self.new.failures }
        ensures failed { (result ≡ failed_answer) ↔ (self.old.failures < self.new.failures) }
        ensures goes_on { result ≢ ended_answer }
    {
        self.errors = 0;
        if self.is_own(from) {
            self.hub.pass_over(&self.hub.passed_over);
            return Got::Nothing;
        }
        let Some(bytes) = self.buffer.as_slice().get(..count) else {
            return Got::Nothing;
        };
        match WireBytes::of(self.alloc, bytes) {
            Ok(datagram) => Got::Came((address_of(from), datagram)),
            Err(AllocError) => {
                self.lost = self.lost.saturating_add(1);
                self.hub.refusals.add(1);
                Got::Nothing
            }
        }
    }

    /// Whether the address is passed over now. Who has the token knows what became of all that came before.
    fn is_flooded(&self, from: Address) -> bool {
        let second = second_of(self.rt);
        !self.hub.flood.lock(self.rt).takes(from, second)
    }

    /// Whether the gateway itself has this address: its port, at an address of this machine.
    fn is_own(&self, from: SocketAddrV4) -> bool {
        from.port() == self.port && is_of_this_machine(self.rt, *from.ip())
    }

    /// The datagram that lies in the socket, or else one for which it waits, with which a burst begins: others may
    /// lie there by the time at which it was acted on.
    fn listen(&mut self) -> Got<(Address, WireBytes)>
        ensures failures { self.old.failures ≤ self.new.failures }
        ensures failed { (result ≡ failed_answer) ↔ (self.old.failures < self.new.failures) }
        ensures goes_on { result ≢ ended_answer }
    {
        match receive_now(&self.socket, self.buffer.as_mut_slice()) {
            Some((count, from)) => {
                self.burst = self.burst.wrapping_add(1) % MAX_BURST;
                self.take(from, count)
            }
            None => {
                self.burst = 1;
                self.wait()
            }
        }
    }

    /// Nothing came, or nothing that is acted on: the next one may read.
    fn end_burst(&mut self)
        ensures { self.new ≡ record self.old { burst = 0 } }
    {
        self.burst = 0;
        self.hub.listening.give_back(self.rt, self.by);
    }

    /// Waits for a datagram. The worker at the broker is woken before, where something may wait for it.
    fn wait(&mut self) -> Got<(Address, WireBytes)>
        ensures failures { self.old.failures ≤ self.new.failures }
        ensures failed { (result ≡ failed_answer) ↔ (self.old.failures < self.new.failures) }
        ensures goes_on { result ≢ ended_answer }
    {
        if self.hub.backlog.begin_wait() {
            self.hub.upstream.ring();
        }
        let received = self.socket.recv_from(self.buffer.as_mut_slice());
        self.hub.backlog.end_wait(received.is_ok());
        match received {
            Ok((count, SocketAddr::V4(from))) => self.take(from, count),
            Ok((_, SocketAddr::V6(_))) => Got::Nothing,
            Err(error) => self.missed(&error),
        }
    }

    /// A wait that ended, a call to be made again, or a failure.
    fn missed(&mut self, error: &Error) -> Got<(Address, WireBytes)>
        ensures failures { self.old.failures ≤ self.new.failures }
        ensures failed { (result ≡ failed_answer) ↔ (self.old.failures < self.new.failures) }
        ensures goes_on { result ≢ ended_answer }
    {
        match error.kind() {
            ErrorKind::WouldBlock | ErrorKind::TimedOut => {
                self.hub.saw_empty_socket();
                Got::Nothing
            }
            ErrorKind::Interrupted => Got::Nothing,
            _ => {
                self.errors = self.errors.saturating_add(1);
                if self.errors < MAX_ERRORS || self.failures == u64::MAX {
                    return Got::Nothing;
                }
                self.failures += 1;
                Got::Failed
            }
        }
    }

    /// Whether the datagram may leave now: an answer to who has no session leaves a few times a second.
    fn may_leave(&self, to: Address, datagram: &[u8]) -> bool {
        if datagram != self.disconnect.as_slice() {
            return true;
        }
        let second = second_of(self.rt);
        let may = self.hub.answers.lock(self.rt).take(to, second);
        if !may {
            self.hub.held_back.add(1);
        }
        may
    }

    /// Whether nothing is sent to the address for a while. The clock is asked only while some address may rest.
    fn is_resting(&mut self, to: Address) -> bool
        ensures failures { self.new.failures ≡ self.old.failures }
        ensures unsent { self.new.unsent ≡ self.old.unsent }
    {
        if self.rest_end == 0 {
            return false;
        }
        let now = ms_of(self.rt);
        if self.rest_end <= now {
            self.rest_end = 0;
        }
        self.paths.rests(to, now)
    }

    /// There was no room for a datagram to the address: nothing is sent to it for a while.
    fn rest(&mut self, to: Address)
        ensures failures { self.new.failures ≡ self.old.failures }
        ensures unsent { self.new.unsent ≡ self.old.unsent }
    {
        let now = ms_of(self.rt);
        self.paths.rest(to, now);
        self.rest_end = now.saturating_add(REST_MS);
    }

    /// Sends a datagram. Whether it left: not where there is no room in time, nor for a while behind that.
    fn pass(&mut self, to: Address, datagram: &[u8]) -> bool
        ensures failures { self.new.failures ≡ self.old.failures }
        ensures unsent { self.new.unsent ≡ self.old.unsent }
    {
        if self.is_resting(to) {
            return false;
        }
        match self.socket.send_to(datagram, socket_address(to)) {
            Ok(_) => true,
            Err(error) => {
                if is_full(&error) {
                    self.rest(to);
                }
                false
            }
        }
    }

    /// Gives the courier its part of these outs, where there are many. Whether it has it. The worker sends all while
    /// some address rests, where one of the datagrams may be held back, where none is the courier's, and where no
    /// memory is left.
    fn share(&mut self, outs: &[Out]) -> bool
        ensures { self.new ≡ record self.old { parcels = self.new.parcels } }
    {
        if self.rest_end != 0 || !are_many(outs) {
            return false;
        }
        if put_apart(&mut self.parcels, outs, self.disconnect.as_slice())
            && !self.parcels.is_empty()
            && self.hub.courier.give(self.rt, &mut self.parcels)
        {
            return true;
        }
        self.parcels.clear();
        false
    }

    /// Waits for the courier. The first one that did not leave by it is tried once more, with those behind it.
    fn finish_shared(&mut self)
        ensures unsent { self.old.unsent ≤ self.new.unsent }
        ensures failures { self.new.failures ≡ self.old.failures }
    {
        let mut parcels = mem::replace(&mut self.parcels, Vec::new(self.alloc));
        let sent = self.hub.courier.take_back(self.rt, &mut parcels);
        if let Some(left) = parcels.as_slice().get(sent..) {
            send_parcels(self, left);
        }
        parcels.clear();
        self.parcels = parcels;
    }

    /// A datagram is lost. Whether that could be counted.
    fn lose(&mut self) -> bool
        ensures lost { (result ≡ false) ↔ (self.old.unsent < self.new.unsent) }
        ensures unsent { self.old.unsent ≤ self.new.unsent }
        ensures failures { self.new.failures ≡ self.old.failures }
    {
        if self.unsent == u64::MAX {
            return true;
        }
        self.unsent += 1;
        false
    }
}

impl<'a, R: Net + Clock + Wait> Sender for Socket<'a, R> {
    ghost tells = { λ _. false };

    ghost passed = { λ _. [] };

    ghost failures = { λ s. s.failures };

    ghost unsent = { λ s. s.unsent };

    fn pass_on(&mut self, to: Address, datagram: &WireBytes) -> bool {
        if !self.may_leave(to, datagram.as_slice()) {
            return self.lose();
        }
        if !self.pass(to, datagram.as_slice()) {
            self.hub.unsent.add(1);
            return self.lose();
        }
        true
    }
}

impl<'a, R: Net + Clock + Wait> Datagrams for Socket<'a, R> {
    ghost tells = { λ _. false };

    ghost gave = { λ _. [] };

    ghost passed = { λ _. [] };

    ghost failures = { λ s. s.failures };

    ghost unsent = { λ s. s.unsent };

    ghost has_ended = { λ _. false };

    /// The worker has the token with what comes, before the next one reads. What belongs to a flood is passed
    /// over, and makes no event.
    fn receive(&mut self) -> Got<(Address, WireBytes)> {
        let hub = self.hub;
        hub.listening.take(self.rt, self.by);
        if hub.stops() {
            hub.listening.give_back(self.rt, self.by);
            return Got::Nothing;
        }
        let got = self.listen();
        let Got::Came((from, _)) = &got else {
            self.end_burst();
            return got;
        };
        hub.token.take(self.rt, self.by);
        if self.burst == 0 {
            hub.listening.give_back(self.rt, self.by);
        }
        if self.is_flooded(*from) {
            hub.pass_over(&hub.flooded);
            return Got::Nothing;
        }
        got
    }

    fn send(&mut self, to: Address, datagram: &WireBytes) -> bool {
        self.pass_on(to, datagram)
    }

    /// Where there are many, the courier sends those to about half of the addresses meanwhile.
    fn send_outs(&mut self, outs: &[Out]) {
        let is_shared = self.share(outs);
        send_own(self, outs, is_shared);
        if is_shared {
            self.finish_shared();
        }
    }

    fn ended(&self) -> bool {
        false
    }
}

/// Whether there was no room for a datagram in the time that a send may take.
fn is_full(error: &Error) -> bool {
    match error.kind() {
        ErrorKind::WouldBlock | ErrorKind::TimedOut => true,
        _ => false,
    }
}

/// The time in ms, by a clock that never goes back. It is 0 where the clock cannot be read.
fn ms_of<R: Clock>(rt: &R) -> u64 {
    rt.monotonic().map_or(0, |now| {
        now.as_secs()
            .saturating_mul(1000)
            .saturating_add(u64::from(now.subsec_millis()))
    })
}

/// The second of now, by a clock that never goes back. It is 0 where the clock cannot be read.
pub fn second_of<R: Clock>(rt: &R) -> u64 {
    rt.monotonic().map_or(0, |now| now.as_secs())
}

/// Whether this machine has the address: only then may a socket be bound to it.
fn is_of_this_machine<R: Net>(rt: &R, ip: Ipv4Addr) -> bool {
    rt.bind_udp(SocketAddr::V4(SocketAddrV4::new(ip, 0)))
        .is_ok()
}

fn address_of(from: SocketAddrV4) -> Address {
    Address {
        ip: from.ip().octets(),
        port: from.port(),
    }
}
