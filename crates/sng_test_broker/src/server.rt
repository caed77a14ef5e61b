//! `sng broker`: the test broker over TCP, on one thread.

use crate::client::{Heard, TestClient};
use mio::net::TcpListener;
use mio::{Events, Interest, Poll, Token};
use mqtt_frames::Packet;
use sng_broker::BrokerCore;
use sng_operator::ask::socket_address_of;
use sng_script::Status;
use sng_script::ending::ended;
use sng_signals::level::Level;
use sng_signals::tell::tell;
use std::alloc::{AllocError, Global};
use std::io;
use std::net::{Net, SocketAddr};
use std::sync::Wait;
use std::time::Duration;

/// Under which all connections are registered: whoever is ready is found by asking all.
const ANY: Token = Token(0);

/// So many events are taken at a time.
const EVENTS: usize = 64;

/// How long one wait is, in ms: another one follows it.
const LONGEST_WAIT_MS: u64 = 60000;

/// So many pieces of a connection are read before the others have their turn.
const PIECES: usize = 16;

/// How many bytes one read takes at most.
const READ_BYTES: usize = 65536;

/// The test broker with its connections.
#[derive(Drop)]
pub struct Server {
    alloc: Global,
    poll: Poll,
    events: Events,
    listener: TcpListener,
    address: SocketAddr,
    core: BrokerCore,
    clients: Vec<TestClient>,
    /// The number of the next connection.
    next: u32,
    buffer: Vec<u8>,
}

/// Serves MQTT clients until it is stopped from outside.
pub fn broker<R: Wait + Net + Print + Eprint + AllocGlobal>(rt: &R, listen: &str) -> Status {
    let Some(address) = socket_address_of(listen) else {
        let printed = println!(rt; "bad address {listen}");
        return ended(Status::Unreadable, printed.is_ok());
    };
    match open(rt, address) {
        Ok(server) => serve_on(rt, server),
        Err(_) => {
            let printed = println!(rt; "cannot open {listen}");
            ended(Status::Unreadable, printed.is_ok())
        }
    }
}

/// A broker that listens.
pub fn open<R: Net + Eprint + AllocGlobal>(rt: &R, address: SocketAddr) -> io::Result<Server> {
    let alloc = rt.alloc();
    let poll = Poll::new(rt)?;
    let mut listener = TcpListener::bind(rt, address)?;
    poll.registry()
        .register(&mut listener, ANY, Interest::READABLE)?;
    let address = listener.local_addr()?;
    tell(rt, Level::Info, format_args!("listening on {address}"));
    Ok(Server {
        alloc,
        poll,
        events: Events::with_capacity(alloc, EVENTS)?,
        listener,
        address,
        core: BrokerCore::new(alloc),
        clients: Vec::new(alloc),
        next: 1,
        buffer: vec![in alloc; 0; READ_BYTES]?,
    })
}

/// Turn after turn, until waiting fails.
fn serve_on<R: Wait + Eprint + AllocGlobal>(rt: &R, mut server: Server) -> Status {
    for _ in rt.forever() {
        if let Err(error) = server.turn() {
            tell(
                rt,
                Level::Error,
                format_args!("the test broker ends: {error}"),
            );
            return Status::Failed;
        }
    }
    unreachable!()
}

impl Server {
    /// Where it listens.
    pub fn address(&self) -> SocketAddr {
        self.address
    }

    /// Takes new connections, what came from each, and passes on what waits.
    pub fn turn(&mut self) -> io::Result<()> {
        self.accept_all();
        let mut is_busy = false;
        for place in 0..self.clients.len() {
            is_busy = self.hear_at(place) || is_busy;
        }
        for client in self.clients.iter_mut() {
            client.flush();
        }
        self.forget_all();
        if is_busy {
            return Ok(());
        }
        let time = Duration::from_millis(LONGEST_WAIT_MS);
        self.poll.poll(&mut self.events, Some(time))
    }

    /// Takes all connections that wait. One for which there is no memory is closed.
    fn accept_all(&mut self) {
        for _ in 0..u16::MAX {
            let Ok((stream, _)) = self.listener.accept() else {
                return;
            };
            let mut client = TestClient::new(self.alloc, self.next, stream);
            self.next = self.next.wrapping_add(1);
            if client.register(self.poll.registry(), ANY).is_ok() {
                let _ = self.clients.push(client);
            }
        }
    }

    /// Takes what came from the connection at this place. Whether more may be there.
    fn hear_at(&mut self, place: usize) -> bool {
        for _ in 0..PIECES {
            match self.hear_once(place) {
                Heard::Packets(conn, packets) => self.take_all(conn, packets),
                Heard::Nothing => return false,
                Heard::Over(conn) => {
                    self.end(conn);
                    return false;
                }
            }
        }
        true
    }

    fn hear_once(&mut self, place: usize) -> Heard {
        match self.clients.get_mut(place) {
            Some(client) => client.hear(self.alloc, self.buffer.as_mut_slice()),
            None => Heard::Nothing,
        }
    }

    /// Takes the packets of a connection, and lets wait what is sent for them.
    fn take_all(&mut self, conn: u32, packets: Vec<Packet>) {
        for packet in packets {
            match self.core.step(conn, packet) {
                Ok(outs) => self.send_all(outs),
                Err(AllocError) => self.end(conn),
            }
        }
        if !self.core.is_open(conn) {
            self.end(conn);
        }
    }

    fn send_all(&mut self, outs: Vec<(u32, Packet)>) {
        for (conn, packet) in outs {
            self.send(conn, &packet);
        }
    }

    fn send(&mut self, conn: u32, packet: &Packet) {
        for client in self.clients.iter_mut() {
            if client.conn() == conn {
                client.push(self.alloc, packet);
            }
        }
    }

    fn end(&mut self, conn: u32) {
        for client in self.clients.iter_mut() {
            if client.conn() == conn {
                client.end();
            }
        }
    }

    /// Closes the connections that are over, and forgets what stood for them.
    fn forget_all(&mut self) {
        for client in self.clients.iter() {
            if client.is_over() {
                self.core.close(client.conn());
            }
        }
        self.clients.retain(|client| !client.is_over());
    }
}
