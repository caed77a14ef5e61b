//! A message of the broker goes to each client for whom a filter stands that matches its name (MQTT 3.1.1,
//! 3.3 and 4.6; MQTT-SN 1.2, 6.6, 6.10 and 6.14). What it lets out is planned for one client after another,
//! with all memory, and what changes cannot fail.
ghost use Rattle.std.specs.Prelude.{◌≡◌, ◌<◌, ◌≤◌, ◌∷◌, ◌++◌, [], length, true, IfOk, OnOk};
ghost use Rattle.sng_queue.specs.Messages.{is_sendable};
ghost use Rattle.sng_history.specs.Arriving.{lesser};
ghost use Rattle.sng_history.specs.Outgoing.{is_free};
ghost use Rattle.sng_sessions.specs.Standing.{client_at};
ghost use Rattle.sng_turns.specs.HandingOver.{fixed_id, message_outs, message_opens};
ghost use Rattle.sng_turns.specs.Delivering.{arrived, arrive_outs, arrive_kept, kept_opened};
ghost use Rattle.sng_turns.specs.Delivering.{held_outs, held_kept, holders_outs, holders_kept, AreWithin};
ghost use Rattle.sng_turns.specs.Delivering.{all_outs, all_kept, keep_all};

use crate::hand_over::is_open;
use crate::known::{KnownId, known_id};
use crate::room::HoldersRoom;
use crate::turn::{Mail, Recipient, note_hand, take_turn};
use sng_book::{Denial, Outcome, Outs, Place, RoomDenial};
use sng_history::receive;
use sng_policy::InForce;
use sng_queue::{Content, Parcel, Waiting};
use sng_sessions::{Opens, Sessions};
use sng_standing::Holder;
use sng_text::Qos;
use std::alloc::{AllocError, Global};

/// A message of the broker under a topic name.
#[derive(Drop)]
pub struct Incoming {
    /// All for whom it comes to wait share it.
    pub content: Content,
    pub qos: Qos,
    /// The topic id that its name has for each client, where it has one.
    pub fixed: Option<KnownId>,
}

/// The message as it is due to a client: at this QoS.
#[derive(Clone, Copy)]
struct Arrival<'a> {
    message: &'a Incoming,
    qos: Qos,
}

/// What is kept of a message for the client at the place: it waits there, and an exchange begins.
#[derive(Drop)]
pub struct Kept {
    pub place: usize,
    pub message: Parcel,
    pub opens: Opens,
}

/// The message goes to each client to whom it is due, in order: once, at the lesser of its own QoS and the
/// greatest that is granted among the client's filters that match. Answers what is kept of it.
pub fn deliver(
    alloc: Global,
    policy: &InForce,
    message: &Incoming,
    sessions: &Sessions,
    room: &mut HoldersRoom,
    outs: &mut Outs,
) -> Result<Vec<Kept>, AllocError>
    requires { message.now.fixed ≡ fixed_id policy.now message.now.content.name }
    ensures outs { OnOk result (outs.new ≡ outs.old ++ all_outs policy.now message.now sessions.now) }
    ensures kept { IfOk result (λ kept. kept.items ≡ all_kept policy.now message.now 0 sessions.now) }
{
    sessions.holders(alloc, message.content.name(), &mut room.list)?;
    deliver_each(alloc, policy, message, sessions, room.list.as_slice(), outs)
}

/// The message goes to each of these clients, with the greatest QoS among its filters that match, where it is
/// due messages.
fn deliver_each(
    alloc: Global,
    policy: &InForce,
    message: &Incoming,
    sessions: &Sessions,
    holders: &[Holder],
    outs: &mut Outs,
) -> Result<Vec<Kept>, AllocError>
    requires fixed { message.now.fixed ≡ fixed_id policy.now message.now.content.name }
    requires within { AreWithin sessions.now holders.now }
    ensures outs { OnOk result (outs.new
        ≡ outs.old ++ holders_outs policy.now message.now sessions.now holders.now) }
    ensures kept { IfOk result (λ kept. kept.items
        ≡ holders_kept policy.now message.now sessions.now holders.now) }
{
    // Two outs for most of those who take it at once; for each other one it comes to wait.
    let free = count_free(sessions, holders);
    outs.reserve(free.saturating_mul(2))?;
    let mut kept = Vec::with_capacity(alloc, holders.len() - free)?;
    for holder in holders {
        deliver_to(alloc, policy, message, sessions, *holder, outs, &mut kept)?;
    }
    Ok(kept)
}

/// How many of these clients take a message as it comes.
fn count_free(sessions: &Sessions, holders: &[Holder]) -> usize
    requires { AreWithin sessions.now holders.now }
    ensures { result ≤ length holders.now }
{
    let mut free = 0;
    for holder in holders {
        if is_free(sessions, holder.client) {
            free += 1;
        }
    }
    free
}

/// The message goes to this client, where it is due messages.
fn deliver_to(
    alloc: Global,
    policy: &InForce,
    message: &Incoming,
    sessions: &Sessions,
    to: Holder,
    outs: &mut Outs,
    kept: &mut Vec<Kept>,
) -> Result<(), AllocError>
    requires fixed { message.now.fixed ≡ fixed_id policy.now message.now.content.name }
    requires place { to.client < length sessions.now }
    ensures outs { OnOk result (outs.new ≡ outs.old
        ++ held_outs policy.now message.now (client_at sessions.now to.client) to.qos) }
    ensures kept { OnOk result (kept.new.items ≡ kept.old.items
        ++ held_kept policy.now to.client message.now (client_at sessions.now to.client) to.qos) }
{
    if !sessions.phase(to.client).is_due_messages() {
        return Ok(());
    }
    let arrival = Arrival {
        message,
        qos: lesser(message.qos, to.qos),
    };
    arrive(alloc, policy, arrival, sessions, to.client, outs, kept)
}

/// The lesser of two levels of QoS.
fn lesser(a: Qos, b: Qos) -> Qos
    ensures { result ≡ lesser a b }
{
    match a {
        Qos::AtMostOnce => Qos::AtMostOnce,
        Qos::AtLeastOnce => b,
    }
}

/// The message comes to the client at this place. One that may not wait is noted at once; else it takes its
/// turn, where nothing is before it, or waits.
fn arrive(
    alloc: Global,
    policy: &InForce,
    arrival: Arrival<'_>,
    sessions: &Sessions,
    place: usize,
    outs: &mut Outs,
    kept: &mut Vec<Kept>,
) -> Result<(), AllocError>
    requires fixed { arrival.message.now.fixed ≡ fixed_id policy.now arrival.message.now.content.name }
    requires place { place < length sessions.now }
    ensures outs { OnOk result (outs.new ≡ outs.old
        ++ arrive_outs policy.now (arrived arrival.entry) (client_at sessions.now place)) }
    ensures kept { OnOk result (kept.new.items ≡ kept.old.items
        ++ arrive_kept policy.now place (arrived arrival.entry) (client_at sessions.now place)) }
{
    let id = sessions.id(place);
    let content = &arrival.message.content;
    if !content.is_sendable() {
        let long = Outcome::Denied(Denial::Room(RoomDenial::TooLong));
        return note_hand(id, content.name(), long, outs);
    }
    if sessions.queue(place).is_full() {
        let full = Outcome::Denied(Denial::Room(RoomDenial::Full(Place::Queue)));
        return note_hand(id, content.name(), full, outs);
    }
    if is_free(sessions, place) {
        let opens = turn(alloc, policy, arrival, sessions, place, outs)?;
        keep_opened(alloc, arrival, place, opens, kept)
    } else {
        keep(alloc, arrival, place, Opens::Nothing, kept)
    }
}

/// Whether the client at this place takes messages, and no exchange is open with it: then nothing waits.
/// Takes no memory.
fn is_free(sessions: &Sessions, place: usize) -> bool
    requires { place < length sessions.now }
    ensures { result ≡ is_free (client_at sessions.now place) }
{
    sessions.phase(place).takes_messages() && sessions.queue(place).exchange().is_none()
}

/// The turn of the message as it comes.
fn turn(
    alloc: Global,
    policy: &InForce,
    arrival: Arrival<'_>,
    sessions: &Sessions,
    place: usize,
    outs: &mut Outs,
) -> Result<Opens, AllocError>
    requires fixed { arrival.message.now.fixed ≡ fixed_id policy.now arrival.message.now.content.name }
    requires place { place < length sessions.now }
    requires sendable { is_sendable arrival.message.now.content.name arrival.message.now.content.payload ≡ true }
    ensures outs { OnOk result (let x = client_at sessions.now place in outs.new ≡ outs.old
        ++ message_outs policy.now x.id x.address x.ids 0 x.number (arrived arrival.entry)) }
    ensures opens { IfOk result (λ opens. let x = client_at sessions.now place in
        opens ≡ message_opens policy.now x.id x.ids 0 (arrived arrival.entry)) }
{
    let to = Recipient {
        id: sessions.id(place),
        address: sessions.address(place),
        ids: sessions.ids(place),
        confirming: None,
        number: sessions.number(place),
    };
    let content = &arrival.message.content;
    let outcome = receive(alloc, policy, to.id, content.name())?;
    let known = known_id(arrival.message.fixed, to.ids, None, content.name());
    let mail = Mail {
        name: content.name(),
        payload: content.payload(),
        qos: arrival.qos,
        retain: content.retain(),
    };
    take_turn(alloc, to, mail, outcome, known, outs)
}

/// A message that took its turn is kept where an exchange begins by it.
fn keep_opened(
    alloc: Global,
    arrival: Arrival<'_>,
    place: usize,
    opens: Opens,
    kept: &mut Vec<Kept>,
) -> Result<(), AllocError>
    requires { is_sendable arrival.message.now.content.name arrival.message.now.content.payload ≡ true }
    ensures { OnOk result (kept.new.items
        ≡ kept.old.items ++ kept_opened place (arrived arrival.entry) opens) }
{
    if is_open(&opens) {
        keep(alloc, arrival, place, opens, kept)
    } else {
        Ok(())
    }
}

/// The message is kept for the client at this place.
fn keep(
    alloc: Global,
    arrival: Arrival<'_>,
    place: usize,
    opens: Opens,
    kept: &mut Vec<Kept>,
) -> Result<(), AllocError>
    requires { is_sendable arrival.message.now.content.name arrival.message.now.content.payload ≡ true }
    ensures { OnOk result (kept.new.items ≡ kept.old.items
        ++ (record { place = place; message = arrived arrival.entry; opens = opens }) ∷ []) }
{
    let Arrival { message, qos } = arrival;
    let content = message.content.share()?;
    let message = Parcel::new(alloc, Waiting::new(content, qos))?;
    kept.push(Kept {
        place,
        message,
        opens,
    })?;
    Ok(())
}

/// All that is kept joins what waits for its client. Takes no memory.
pub fn keep_all(kept: Vec<Kept>, sessions: &mut Sessions, clock: u64)
    ensures { sessions.new ≡ keep_all clock kept.items sessions.old }
{
    for one in kept {
        let Kept {
            place,
            message,
            opens,
        } = one;
        sessions.deliver(place, message, opens, clock);
    }
}
