//! A message that needs a session, from an address at which no client is (MQTT-SN 1.2, 6.14).
ghost use Rattle.std.specs.Prelude.{◌≡◌, ◌∷◌, [], IfOk};
ghost use Rattle.sng_history.specs.Answers.{dismissed};
ghost use Rattle.sng_history.specs.Whole.{stranger_to};
ghost use Rattle.sng_core.specs.Requesting.{asked};

use crate::answers::{denied_note, dismissed, only};
use crate::request::SessionRequest;
use sng_book::{Address, Decision, Denial, FormDenial, Out, Outcome, OutsPair, Who};
use sng_sessions::out_of_memory;
use std::alloc::{AllocError, Global};

/// It is noted as what it asks for, and answered by DISCONNECT. One that is not taken is noted alone.
pub fn stranger(
    alloc: Global,
    from: Address,
    request: &SessionRequest,
) -> Result<OutsPair, AllocError>
    ensures { IfOk result (λ outs. outs ≡ stranger_to from (asked request.now)) }
{
    let who = Who::Address(from);
    let denied = Outcome::Denied(Denial::Form(FormDenial::NoSession));
    match request {
        SessionRequest::Ping(_) => dismiss(alloc, from, Decision::Frame(who, denied)),
        SessionRequest::Leave => dismiss(alloc, from, Decision::Frame(who, denied)),
        SessionRequest::Sleep(_) => dismiss(alloc, from, Decision::Frame(who, denied)),
        SessionRequest::Register(_) => dismiss(alloc, from, Decision::Register(who, None, denied)),
        SessionRequest::Publish(_) => dismiss(alloc, from, Decision::Publish(who, None, denied)),
        SessionRequest::PublishOnce(_) => dismiss(
            alloc,
            from,
            Decision::Publish(who, None, denied),
        ),
        SessionRequest::Release(_) => dismiss(alloc, from, Decision::Frame(who, denied)),
        SessionRequest::Subscribe(_) => dismiss(
            alloc,
            from,
            Decision::Subscribe(who, None, denied),
        ),
        SessionRequest::Unsubscribe(_) => dismiss(
            alloc,
            from,
            Decision::Unsubscribe(who, None, denied),
        ),
        SessionRequest::Confirm(_) => dismiss(alloc, from, Decision::Frame(who, denied)),
        SessionRequest::Acknowledge(_) => dismiss(alloc, from, Decision::Frame(who, denied)),
        SessionRequest::State(_) => dismiss(alloc, from, Decision::Will(who, None, denied)),
        SessionRequest::Untaken(message) => only(
            alloc,
            Out::Note(denied_note(message, who, Denial::Form(FormDenial::NotSupported))),
        ),
    }
}

/// The note, and the DISCONNECT.
fn dismiss(alloc: Global, from: Address, note: Decision) -> Result<OutsPair, AllocError>
    ensures { IfOk result (λ outs. outs ≡ Out.Note note ∷ dismissed from ∷ []) }
{
    match dismissed(alloc, from) {
        Ok(answer) => OutsPair::two(alloc, Out::Note(note), answer),
        Err(AllocError) => out_of_memory(note),
    }
}
