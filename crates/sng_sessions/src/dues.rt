//! When anything may be due with the clients (MQTT-SN 1.2, 6.11 and 6.13), for many of them at once: so that the
//! clock goes on without a look at each. A time is kept for each block of places, before which nothing is due
//! with a client of it. It may be too early, and then the clients of the block are looked at in vain. No call
//! here but `add_block` takes memory.
ghost use Rattle.std.specs.Prelude.{◌≡◌, ◌+◌, ◌*◌, ◌/◌, ◌<◌, ◌≤◌, ◌^◌, ◌&&◌, ℕ, List, false, get_or, length};
ghost use Rattle.sng_states.specs.States.{has_session};
ghost use Rattle.sng_states.specs.Silence.{overdue};
ghost use Rattle.sng_history.specs.Ticking.{is_unanswered};
ghost use Rattle.sng_sessions.specs.Dues.{is_due, time_at, Waits, WaitsBeside};
ghost use Rattle.sng_sessions.specs.Places.{client_of, clients_of, holds_at};
ghost use Rattle.sng_sessions.specs.declared.dues.TheConstants.{BLOCK};

use crate::session::{Presence, Session};
use indexmap::IndexMap;
use sng_history::RETRY_MS;
use sng_queue::Queue;
use sng_states::SILENCE_MS_PER_SECOND;
use sng_text::ClientId;
use std::alloc::AllocError;

/// How many places a block has.
pub const BLOCK: usize = 128;

/// The client at this place changed: the time of its block is no later than anything is due with it.
pub fn note_due(times: &mut Vec<u64>, clients: &IndexMap<ClientId, Session>, place: usize)
    requires { WaitsBeside place times.old.items (clients_of clients.now.entries) }
    ensures { Waits times.new.items (clients_of clients.now.entries) }
{
    if let Some((_, session)) = clients.get_index(place) {
        lower(times, place / BLOCK, due_at(session));
    }
}

/// The time of the block is this one at the latest.
fn lower(times: &mut Vec<u64>, block: usize, time: u64)
    ensures others { (other : ℕ) → get_or times.new.items other 0 ≤ get_or times.old.items other 0 }
    ensures own { get_or times.new.items block 0 ≤ time }
{
    if block < times.len() && time < times[block] {
        times[block] = time;
    }
}

/// A time before which nothing is due with the client.
fn due_at(session: &Session) -> u64
    ensures { (id : List ℕ) (clock : ℕ) → clock < result → is_due clock (client_of (id, session.now)) ≡ false }
{
    let overdue = overdue_at(&session.presence);
    let unanswered = unanswered_at(&session.queue);
    earlier(overdue, unanswered)
}

/// A time before which the client is not overdue.
fn overdue_at(presence: &Presence) -> u64
    ensures { (clock : ℕ) → clock < result
        → (has_session presence.now.phase && overdue presence.now.duration presence.now.heard clock) ≡ false }
{
    if !presence.phase.has_session() || presence.duration == 0 {
        return u64::MAX;
    }
    let silence = u64::from(presence.duration) * SILENCE_MS_PER_SECOND;
    presence.heard.saturating_add(silence)
}

/// A time before which what is open in the queue may be answered.
fn unanswered_at(queue: &Queue) -> u64
    ensures { (clock : ℕ) → clock < result → is_unanswered clock queue.now.exchange ≡ false }
{
    match queue.exchange() {
        Some(exchange) => exchange.sending().sent.saturating_add(RETRY_MS),
        None => u64::MAX,
    }
}

/// There is a time for the block of the place where there was one for that before it. An `Err` is a failed
/// allocation.
pub fn add_block(times: &mut Vec<u64>, place: usize) -> Result<(), AllocError>
    ensures { (block : ℕ) → get_or times.new.items block 0 ≡ get_or times.old.items block 0 }
{
    if times.len() <= place / BLOCK {
        times.push(0)?;
    }
    Ok(())
}

/// The first place from this one on in a block in which anything may be due at this clock; behind the last of so
/// many clients where there is none.
pub fn next_due(times: &[u64], count: usize, place: usize, clock: u64) -> usize
    requires { count < 2 ^ 63 }
    ensures after { place ≤ result }
    ensures quiet { (other : ℕ) → place ≤ other → other < result → clock < time_at times.now other }
{
    let mut next = place;
    while next < count && clock < time_at(times, next) {
        next = next_block(next);
    }
    next
}

/// The time of the block in which the place is.
fn time_at(times: &[u64], place: usize) -> u64
    ensures { result ≡ time_at times.now place }
{
    match times.get(place / BLOCK) {
        Some(time) => *time,
        None => 0,
    }
}

/// The first place of the next block.
fn next_block(place: usize) -> usize
    requires { place < 2 ^ 63 }
    ensures later { place < result }
    ensures same { (other : ℕ) → place ≤ other → other < result → other / BLOCK ≡ place / BLOCK }
    ensures start { (other : ℕ) → other / BLOCK ≡ place / BLOCK → other < result }
{
    (place / BLOCK + 1) * BLOCK
}

/// The clients of each block in which anything may have been due at this clock are looked at anew.
pub fn look_anew(times: &mut Vec<u64>, clients: &IndexMap<ClientId, Session>, clock: u64)
    requires { Waits times.old.items (clients_of clients.now.entries) }
    ensures { Waits times.new.items (clients_of clients.now.entries) }
{
    for block in 0..times.len() {
        look_at(times, clients, block, clock);
    }
}

/// Those of this block.
#[tactic(auto, using(crate::proofs::DueLemmas::waits_renewed))]
fn look_at(times: &mut Vec<u64>, clients: &IndexMap<ClientId, Session>, block: usize, clock: u64)
    requires { Waits times.old.items (clients_of clients.now.entries) }
    ensures { Waits times.new.items (clients_of clients.now.entries) }
{
    if block < times.len() && times[block] <= clock {
        times[block] = due_in(clients, block);
    }
}

/// A time before which nothing is due with the clients of this block.
fn due_in(clients: &IndexMap<ClientId, Session>, block: usize) -> u64
    ensures { (place clock : ℕ) → place / BLOCK ≡ block → clock < result
        → holds_at (is_due clock) (clients_of clients.now.entries) place ≡ false }
{
    let count = clients.len();
    if count / BLOCK < block {
        return u64::MAX;
    }
    due_from(clients, block * BLOCK)
}

/// A time before which nothing is due with as many clients as a block has, from this place on.
fn due_from(clients: &IndexMap<ClientId, Session>, first: usize) -> u64
    requires { first < 2 ^ 63 }
    ensures { (place clock : ℕ) → first ≤ place → place < first + BLOCK → clock < result
        → holds_at (is_due clock) (clients_of clients.now.entries) place ≡ false }
{
    let mut time = u64::MAX;
    for place in first..first + BLOCK {
        time = time_with(clients, place, time);
    }
    time
}

/// The time, or that of the client at this place where it is earlier.
fn time_with(clients: &IndexMap<ClientId, Session>, place: usize, time: u64) -> u64
    ensures before { result ≤ time }
    ensures here { (clock : ℕ) → clock < result
        → holds_at (is_due clock) (clients_of clients.now.entries) place ≡ false }
{
    match clients.get_index(place) {
        Some((_, session)) => earlier(time, due_at(session)),
        None => time,
    }
}

/// The earlier of two times.
fn earlier(one: u64, other: u64) -> u64
    ensures one { result ≤ one }
    ensures other { result ≤ other }
{
    if one < other { one } else { other }
}
