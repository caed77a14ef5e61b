//! Messages of one client that ask for nothing (MQTT-SN 1.2, 6.11 and 6.14): what is let out is planned
//! first, and what changes cannot fail.
ghost use Rattle.std.specs.Prelude.{◌≡◌, ◌<◌, ◌∷◌, [], length, IfSome, IfOk, OnOk, OnErr};
ghost use Rattle.sng_sessions.specs.Moving.{moved_at};
ghost use Rattle.sng_core.specs.Forms.{client_at, at_place, heard_at, left_at, found_outs, left_outs};
ghost use Rattle.sng_core.specs.Forms.{unsupported_outs, broken_outs};

use crate::answers::{denied_note, dismissed, only, refused};
use sng_book::{Address, Decision, Denial, FormDenial, Out, Outcome, Outs, OutsPair, Who};
use sng_frames::SnFrame;
use sng_sessions::Sessions;
use sng_turns::hand_over::all_gone;
use std::alloc::{AllocError, Global};

/// A DISCONNECT without Duration: the client at this place leaves, and what waits for it is gone.
pub fn leave(
    alloc: Global,
    clock: u64,
    sessions: &mut Sessions,
    place: usize,
) -> Result<OutsPair, AllocError>
    requires { place < length sessions.old }
    ensures outs { IfOk result (λ outs. outs ≡ left_outs (client_at sessions.old place)) }
    ensures next { OnOk result (sessions.new ≡ moved_at place (left_at clock) sessions.old) }
    ensures err { OnErr result (sessions.new ≡ sessions.old) }
{
    let outs = left_outs(alloc, sessions, place)?;
    sessions.leave(place, clock);
    Ok(outs)
}

fn left_outs(alloc: Global, sessions: &Sessions, place: usize) -> Result<OutsPair, AllocError>
    requires { place < length sessions.now }
    ensures { IfOk result (λ outs. outs ≡ left_outs (client_at sessions.now place)) }
{
    let mut outs = Outs::with_capacity(alloc, 2)?;
    outs.push(Out::Note(Decision::Left(sessions.id(place).copy()?)))?;
    outs.push(dismissed(alloc, sessions.address(place))?)?;
    all_gone(sessions.id(place), sessions.queue(place), &mut outs)?;
    let outs = OutsPair::of(alloc, outs)?;
    Ok(outs)
}

/// The note of a client's message that asks for nothing and is denied.
pub fn denied_frame(
    alloc: Global,
    sessions: &Sessions,
    place: usize,
    rule: Denial,
) -> Result<OutsPair, AllocError>
    requires { place < length sessions.now }
    ensures { IfOk result (λ outs. outs ≡ broken_outs rule (client_at sessions.now place)) }
{
    let who = Who::Client(sessions.id(place).copy()?);
    only(
        alloc,
        Out::Note(Decision::Frame(who, Outcome::Denied(rule))),
    )
}

/// A message of a type or form that is not taken, of the client at this place.
pub fn unsupported(
    alloc: Global,
    clock: u64,
    message: SnFrame,
    sessions: &mut Sessions,
    place: usize,
) -> Result<OutsPair, AllocError>
    requires { place < length sessions.old }
    ensures outs { IfOk result (λ outs. outs ≡ unsupported_outs message (client_at sessions.old place)) }
    ensures next { OnOk result (sessions.new ≡ moved_at place (heard_at clock) sessions.old) }
    ensures err { OnErr result (sessions.new ≡ sessions.old) }
{
    let outs = unsupported_outs(alloc, &message, sessions, place)?;
    sessions.hear(place, clock);
    Ok(outs)
}

fn unsupported_outs(
    alloc: Global,
    message: &SnFrame,
    sessions: &Sessions,
    place: usize,
) -> Result<OutsPair, AllocError>
    requires { place < length sessions.now }
    ensures { IfOk result (λ outs. outs ≡ unsupported_outs message.now (client_at sessions.now place)) }
{
    let mut outs = Outs::with_capacity(alloc, 2)?;
    let who = Who::Client(sessions.id(place).copy()?);
    outs.push(Out::Note(denied_note(message, who, Denial::Form(FormDenial::NotSupported))))?;
    refused(
        alloc,
        sessions.address(place),
        message,
        &Denial::Form(FormDenial::NotSupported),
        &mut outs,
    )?;
    let outs = OutsPair::of(alloc, outs)?;
    Ok(outs)
}

/// A datagram that is not a message, by the rule that it breaks, of the client at this place, or of nobody.
pub fn broken(
    alloc: Global,
    from: Address,
    rule: Denial,
    sessions: &Sessions,
    at: Option<usize>,
) -> Result<OutsPair, AllocError>
    requires { IfSome at (λ place. place < length sessions.now) }
    ensures { IfOk result (λ outs. outs
        ≡ found_outs (Out.Note (Decision.Frame (Who.Address from) (Outcome.Denied rule)) ∷ [])
        (broken_outs rule) (at_place sessions.now at)) }
{
    let Some(place) = at else {
        let note = Decision::Frame(Who::Address(from), Outcome::Denied(rule));
        return only(alloc, Out::Note(note));
    };
    denied_frame(alloc, sessions, place, rule)
}
