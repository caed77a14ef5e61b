//! How a client falls asleep, wakes up and falls asleep again (MQTT-SN 1.2, 6.14), and how what is open with
//! it is sent again, or is over (6.13); and which of its publishes at QoS 2 are open (6.6). No call here
//! takes memory.
ghost use Rattle.std.specs.Prelude.{◌≡◌, List, ℕ};
ghost use Rattle.sng_queue.specs.Exchanges.{repeat};
ghost use Rattle.sng_history.specs.Clients.{is_drained, drained};
ghost use Rattle.sng_history.specs.Ticking.{is_unanswered, is_tried_out};
ghost use Rattle.sng_sessions.specs.Places.{client_of, clients_of, moved_at};
ghost use Rattle.sng_sessions.specs.Sleeping.{slept, woken, sent_more, received_at, released_at, changed};

use crate::session::Session;
use indexmap::IndexMap;
use sng_history::RETRY_MS;
use sng_queue::{MAX_TRIES, Queue};
use sng_states::ClientState;
use sng_text::ClientId;

/// What happens to a client beside its messages.
#[derive(Clone, Copy, Debug)]
pub enum Change {
    /// It is heard, and where it is due messages it falls asleep: nothing is open with it any more, what
    /// waits stays, and from now on this Duration counts, in seconds.
    Sleeps(u16),
    /// It is heard, and where it sleeps it is awake.
    Wakes,
    /// It falls asleep again where it is awake and nothing is left for it, waiting or open.
    Drains,
    /// Nothing is open with it any more; what waits stays.
    Closes,
    /// What is open with it was sent once more, where it may be.
    Repeats,
    /// It is heard, and its publish at QoS 2 with this MsgId is open from now on, where as many may be.
    Receives(u16),
    /// It is heard, and where it is active its publish with this MsgId is open no more.
    Releases(u16),
}

/// This happens to the client at this place.
pub fn change_at(
    clients: &mut IndexMap<ClientId, Session>,
    place: usize,
    change: Change,
    clock: u64,
)
    ensures { clients_of clients.new.entries
        ≡ moved_at place (changed clock change) (clients_of clients.old.entries) }
{
    if let Some(session) = clients.get_index_mut(place) {
        make(session, change, clock);
    }
}

fn make(session: &mut Session, change: Change, clock: u64)
    ensures { (id : List ℕ) → changed clock change (client_of (id, session.old))
        ≡ client_of (id, session.new) }
{
    match change {
        Change::Sleeps(duration) => sleep(session, duration, clock),
        Change::Wakes => wake(session, clock),
        Change::Drains => drain(session),
        Change::Closes => session.queue.close(),
        Change::Repeats => repeat(&mut session.queue, clock),
        Change::Receives(msg_id) => receive(session, msg_id, clock),
        Change::Releases(msg_id) => release(session, msg_id, clock),
    }
}

fn sleep(session: &mut Session, duration: u16, clock: u64)
    ensures { (id : List ℕ) → slept clock duration (client_of (id, session.old))
        ≡ client_of (id, session.new) }
{
    session.presence.heard = clock;
    if session.presence.phase.is_due_messages() {
        session.presence.phase = ClientState::Asleep;
        session.presence.duration = duration;
        session.queue.close();
    }
}

fn wake(session: &mut Session, clock: u64)
    ensures { (id : List ℕ) → woken clock (client_of (id, session.old)) ≡ client_of (id, session.new) }
{
    session.presence.heard = clock;
    if session.presence.phase.is_asleep() {
        session.presence.phase = ClientState::Awake;
    }
}

fn drain(session: &mut Session)
    ensures { (id : List ℕ) → drained (client_of (id, session.old)) ≡ client_of (id, session.new) }
{
    if is_drained(session) {
        session.presence.phase = ClientState::Asleep;
    }
}

/// Whether the client is awake and nothing is left for it, waiting or open.
fn is_drained(session: &Session) -> bool
    ensures { (id : List ℕ) → is_drained (client_of (id, session.now)) ≡ result }
{
    session.presence.phase.is_awake()
        && session.queue.at(0).is_none()
        && session.queue.exchange().is_none()
}

fn receive(session: &mut Session, msg_id: u16, clock: u64)
    ensures { (id : List ℕ) → received_at clock msg_id (client_of (id, session.old))
        ≡ client_of (id, session.new) }
{
    session.presence.heard = clock;
    session.unreleased.admit(msg_id);
}

fn release(session: &mut Session, msg_id: u16, clock: u64)
    ensures { (id : List ℕ) → released_at clock msg_id (client_of (id, session.old))
        ≡ client_of (id, session.new) }
{
    session.presence.heard = clock;
    if session.presence.phase.is_active() {
        session.unreleased.close(msg_id);
    }
}

/// The open exchange was sent once more, where it was not as often as it may be.
fn repeat(queue: &mut Queue, clock: u64)
    ensures { queue.new ≡ sent_more clock queue.old }
{
    if !is_tried_out(queue) {
        queue.repeat(clock);
    }
}

/// Whether an exchange is open that was sent again as often as it may be (6.13: N_retry).
pub fn is_tried_out(queue: &Queue) -> bool
    ensures { result ≡ is_tried_out queue.now.exchange }
{
    match queue.exchange() {
        Some(exchange) => exchange.sending().tries >= MAX_TRIES,
        None => false,
    }
}

/// Whether an exchange is open that was sent last as long ago as its answer may take, as the clock is at
/// this, in ms (6.13: T_retry).
pub fn is_unanswered(queue: &Queue, clock: u64) -> bool
    ensures { result ≡ is_unanswered clock queue.now.exchange }
{
    match queue.exchange() {
        Some(exchange) => clock.saturating_sub(exchange.sending().sent) >= RETRY_MS,
        None => false,
    }
}
