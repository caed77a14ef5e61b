//! How messages leave what waits for one client (MQTT-SN 1.2, 6.5, 6.6 and 6.10): what a hand-over comes to,
//! and what it does. No call here takes memory.
ghost use Rattle.std.specs.Prelude.{◌≡◌, List, ℕ};
ghost use Rattle.sng_history.specs.Handing.{number_after};
ghost use Rattle.sng_sessions.specs.Handed.{opened, settled_times, pushed, handed_by, delivered, answered};
ghost use Rattle.sng_sessions.specs.Places.{client_of, clients_of, moved_at};

use crate::ids::NewName;
use crate::session::Session;
use indexmap::IndexMap;
use sng_queue::{Parcel, Queue, TopicIdKind};
use sng_text::ClientId;

/// The exchange that a hand-over begins.
#[derive(Debug, Drop)]
pub enum Opens {
    /// None.
    Nothing,
    /// An id of the name is announced for the front, and waits for its REGACK.
    Announcing(NewName),
    /// The front leaves under a topic id of this kind, and waits for its PUBACK.
    Awaiting(TopicIdKind, u16),
}

/// What a hand-over comes to: so many messages are settled, the oldest first, and then an exchange begins.
#[derive(Debug, Drop)]
pub struct Handed {
    pub settled: usize,
    pub opens: Opens,
}

/// A hand-over to the client at this place is carried out.
pub fn hand_at(clients: &mut IndexMap<ClientId, Session>, place: usize, handed: Handed, clock: u64)
    ensures { clients_of clients.new.entries
        ≡ moved_at place (handed_by clock handed) (clients_of clients.old.entries) }
{
    if let Some(session) = clients.get_index_mut(place) {
        hand(session, handed, clock);
    }
}

fn hand(session: &mut Session, handed: Handed, clock: u64)
    ensures { (id : List ℕ) → handed_by clock handed (client_of (id, session.old))
        ≡ client_of (id, session.new) }
{
    let Handed { settled, opens } = handed;
    settle(&mut session.queue, settled);
    open(session, opens, clock);
}

/// So many messages are settled, and with the front an exchange that announced it.
fn settle(queue: &mut Queue, count: usize)
    ensures { queue.new ≡ settled_times count queue.old }
{
    for turn in 0..count {
        let _settled = queue.settle();
    }
}

/// An exchange begins. An id is announced only where there is one.
fn open(session: &mut Session, opens: Opens, clock: u64)
    ensures { (id : List ℕ) → opened clock opens (client_of (id, session.old))
        ≡ client_of (id, session.new) }
{
    match opens {
        Opens::Nothing => {}
        Opens::Announcing(name) => announce(session, name, clock),
        Opens::Awaiting(kind, id) => {
            session.number = number_after(session.number);
            session.queue.await_ack(kind, id, session.number, clock);
        }
    }
}

/// An id of the name is announced, where there is one.
fn announce(session: &mut Session, name: NewName, clock: u64)
    ensures { (id : List ℕ) → opened clock (Opens.Announcing name) (client_of (id, session.old))
        ≡ client_of (id, session.new) }
{
    if session.ids.is_full_for(name.name()) {
        return;
    }
    session.number = number_after(session.number);
    let id = session.ids.give(name);
    session.queue.announce(id, session.number, clock);
}

/// The MsgId after this one: they count from 1 to 65,535 and begin again.
pub fn number_after(number: u16) -> u16
    ensures { result ≡ number_after number }
{
    if number >= u16::MAX { 1 } else { number + 1 }
}

/// A message comes to wait for the client at this place, where fewer wait than may, and an exchange begins.
pub fn deliver_at(
    clients: &mut IndexMap<ClientId, Session>,
    place: usize,
    message: Parcel,
    opens: Opens,
    clock: u64,
)
    ensures { clients_of clients.new.entries
        ≡ moved_at place (delivered clock message opens) (clients_of clients.old.entries) }
{
    if let Some(session) = clients.get_index_mut(place) {
        push(&mut session.queue, message);
        open(session, opens, clock);
    }
}

fn push(queue: &mut Queue, message: Parcel)
    ensures { queue.new ≡ pushed message queue.old }
{
    match queue.push(message) {
        Ok(()) => {}
        Err(_) => {}
    }
}

/// The client at this place is heard, knows the id (0 is none), and has no exchange open any more.
pub fn answer_at(clients: &mut IndexMap<ClientId, Session>, place: usize, id: u16, clock: u64)
    ensures { clients_of clients.new.entries
        ≡ moved_at place (answered clock id) (clients_of clients.old.entries) }
{
    if let Some(session) = clients.get_index_mut(place) {
        session.presence.heard = clock;
        session.ids.confirm(id);
        session.queue.close();
    }
}
