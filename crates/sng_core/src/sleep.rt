//! How a client asks whether its session lives, falls asleep, and asks for what waits (MQTT-SN 1.2, 6.11 and
//! 6.14). What is let out is planned first, and what changes cannot fail.
ghost use Rattle.std.specs.Prelude.{◌≡◌, ◌<◌, ◌++◌, ◌∷◌, [], length, IfOk, OnOk, OnErr};
ghost use Rattle.sng_history.specs.Answers.{dismissed};
ghost use Rattle.sng_sessions.specs.Moving.{moved_at};
ghost use Rattle.sng_sessions.specs.Sleeping.{slept};
ghost use Rattle.sng_core.specs.Forms.{client_at, heard_at, broken_outs};
ghost use Rattle.sng_core.specs.Sleeping.{slept_outs, pinged, woken_outs, woken_next, own_ping_outs};
ghost use Rattle.sng_core.specs.Sleeping.{own_ping_next, other_ping_outs, ping_outs, ping_next};

use crate::answers::{dismissed, only};
use crate::messages::denied_frame;
use sng_book::{Decision, Denial, FormDenial, Out, Outcome, Outs, OutsPair, OutsRoom, Who};
use sng_policy::InForce;
use sng_queue::Queue;
use sng_sessions::{Change, Sessions};
use sng_states::ClientState;
use sng_text::{ClientId, Qos};
use sng_turns::serve::{Settled, pong, serve_plan};
use std::alloc::{AllocError, Global};

/// A DISCONNECT with Duration, in seconds, of the client at this place: where it has its turn the client
/// falls asleep, and what waits stays.
pub fn sleep(
    alloc: Global,
    clock: u64,
    duration: u16,
    sessions: &mut Sessions,
    place: usize,
) -> Result<OutsPair, AllocError>
    requires { place < length sessions.old }
    ensures outs { IfOk result (λ outs. outs ≡ slept_outs (client_at sessions.old place)) }
    ensures next { OnOk result (sessions.new ≡ moved_at place (slept clock duration) sessions.old) }
    ensures err { OnErr result (sessions.new ≡ sessions.old) }
{
    let outs = slept_outs(alloc, sessions, place)?;
    sessions.change(place, Change::Sleeps(duration), clock);
    Ok(outs)
}

fn slept_outs(alloc: Global, sessions: &Sessions, place: usize) -> Result<OutsPair, AllocError>
    requires { place < length sessions.now }
    ensures { IfOk result (λ outs. outs ≡ slept_outs (client_at sessions.now place)) }
{
    if sessions.phase(place).is_due_messages() {
        only(alloc, dismissed(alloc, sessions.address(place))?)
    } else {
        denied_frame(alloc, sessions, place, Denial::Form(FormDenial::OutOfTurn))
    }
}

/// A PINGREQ of the client at this place.
pub fn ping(
    alloc: Global,
    spare: &mut OutsRoom,
    policy: &InForce,
    clock: u64,
    client: Option<ClientId>,
    sessions: &mut Sessions,
    place: usize,
) -> Result<OutsPair, AllocError>
    requires { place < length sessions.old }
    ensures outs { IfOk result (λ outs. outs ≡ ping_outs policy.now client (client_at sessions.old place)) }
    ensures next { OnOk result (sessions.new
        ≡ moved_at place (ping_next policy.now clock client) sessions.old) }
    ensures err { OnErr result (sessions.new ≡ sessions.old) }
{
    match client {
        None => still_pinged(alloc, clock, false, sessions, place),
        Some(id) => named_ping(alloc, spare, policy, clock, &id, sessions, place),
    }
}

/// A PINGREQ that names a client: one that names another client is dismissed.
fn named_ping(
    alloc: Global,
    spare: &mut OutsRoom,
    policy: &InForce,
    clock: u64,
    id: &ClientId,
    sessions: &mut Sessions,
    place: usize,
) -> Result<OutsPair, AllocError>
    requires { place < length sessions.old }
    ensures outs { IfOk result (λ outs. outs
        ≡ ping_outs policy.now (Some id.now) (client_at sessions.old place)) }
    ensures next { OnOk result (sessions.new
        ≡ moved_at place (ping_next policy.now clock (Some id.now)) sessions.old) }
    ensures err { OnErr result (sessions.new ≡ sessions.old) }
{
    if id == sessions.id(place) {
        let outs = own_ping(alloc, spare, policy, clock, sessions, place)?;
        return Ok(outs);
    }
    let outs = dismiss(alloc, clock, sessions, place)?;
    Ok(outs)
}

/// A PINGREQ that names its client: it wakes it where it sleeps.
fn own_ping(
    alloc: Global,
    spare: &mut OutsRoom,
    policy: &InForce,
    clock: u64,
    sessions: &mut Sessions,
    place: usize,
) -> Result<OutsPair, AllocError>
    requires { place < length sessions.old }
    ensures outs { IfOk result (λ outs. outs ≡ own_ping_outs policy.now (client_at sessions.old place)) }
    ensures next { OnOk result (sessions.new ≡ moved_at place (own_ping_next policy.now clock) sessions.old) }
    ensures err { OnErr result (sessions.new ≡ sessions.old) }
{
    if sessions.phase(place).is_asleep() {
        let outs = wake(alloc, spare, policy, clock, sessions, place)?;
        return Ok(outs);
    }
    let outs = still_pinged(alloc, clock, true, sessions, place)?;
    Ok(outs)
}

/// A PINGREQ that wakes nobody; it names its client, or none.
fn still_pinged(
    alloc: Global,
    clock: u64,
    is_named: bool,
    sessions: &mut Sessions,
    place: usize,
) -> Result<OutsPair, AllocError>
    requires { place < length sessions.old }
    ensures outs { IfOk result (λ outs. outs ≡ pinged is_named (client_at sessions.old place)) }
    ensures next { OnOk result (sessions.new ≡ moved_at place (heard_at clock) sessions.old) }
    ensures err { OnErr result (sessions.new ≡ sessions.old) }
{
    let outs = pinged(alloc, is_named, sessions, place)?;
    sessions.hear(place, clock);
    Ok(outs)
}

/// One of an active client is answered, and one of an awake client has its turn where it names the client.
fn pinged(
    alloc: Global,
    is_named: bool,
    sessions: &Sessions,
    place: usize,
) -> Result<OutsPair, AllocError>
    requires { place < length sessions.now }
    ensures { IfOk result (λ outs. outs ≡ pinged is_named (client_at sessions.now place)) }
{
    let phase = sessions.phase(place);
    if phase.is_active() {
        only(alloc, pong(alloc, sessions.address(place))?)
    } else if is_named && phase.is_due_messages() {
        Ok(OutsPair::empty())
    } else {
        denied_frame(alloc, sessions, place, Denial::Form(FormDenial::OutOfTurn))
    }
}

/// It names another client: it is denied, and answered by DISCONNECT.
fn dismiss(
    alloc: Global,
    clock: u64,
    sessions: &mut Sessions,
    place: usize,
) -> Result<OutsPair, AllocError>
    requires { place < length sessions.old }
    ensures outs { IfOk result (λ outs. outs ≡ other_ping_outs (client_at sessions.old place)) }
    ensures next { OnOk result (sessions.new ≡ moved_at place (heard_at clock) sessions.old) }
    ensures err { OnErr result (sessions.new ≡ sessions.old) }
{
    let who = Who::Client(sessions.id(place).copy()?);
    let denied = Outcome::Denied(Denial::Form(FormDenial::NoSession));
    let mut outs = Outs::with_capacity(alloc, 2)?;
    outs.push(Out::Note(Decision::Frame(who, denied)))?;
    outs.push(dismissed(alloc, sessions.address(place))?)?;
    let outs = OutsPair::of(alloc, outs)?;
    sessions.hear(place, clock);
    Ok(outs)
}

/// The client at this place, which sleeps, wakes up: what waits is handed over, and where nothing is left for
/// it it sleeps again.
fn wake(
    alloc: Global,
    spare: &mut OutsRoom,
    policy: &InForce,
    clock: u64,
    sessions: &mut Sessions,
    place: usize,
) -> Result<OutsPair, AllocError>
    requires { place < length sessions.old }
    ensures outs { IfOk result (λ outs. outs ≡ woken_outs policy.now (client_at sessions.old place)) }
    ensures next { OnOk result (sessions.new ≡ moved_at place (woken_next policy.now clock) sessions.old) }
    ensures err { OnErr result (sessions.new ≡ sessions.old) }
{
    let mut outs = spare.take(alloc, most_outs(sessions.queue(place)))?;
    let phase = ClientState::Awake;
    let settled = Settled::Nothing;
    let handed = serve_plan(alloc, policy, phase, sessions, place, settled, &mut outs)?;
    let outs = OutsPair::of(alloc, outs)?;
    sessions.change(place, Change::Wakes, clock);
    sessions.hand(place, handed, clock);
    sessions.change(place, Change::Drains, clock);
    Ok(outs)
}

/// How many are let out where all that waits leaves at once: two for each message, and PINGRESP. Behind a message
/// at QoS 1 nothing leaves.
fn most_outs(queue: &Queue) -> usize {
    let leaving = match queue.at(0) {
        None => 0,
        Some(front) => match front.qos() {
            Qos::AtMostOnce => queue.len(),
            Qos::AtLeastOnce => 1,
        },
    };
    2 * leaving + 1
}
