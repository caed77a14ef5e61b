//! What an operator is told of a client that was let in or lost. One that was refused has the line of its denial
//! (`denials.rt`).
ghost use Rattle.std.specs.Prelude.{◌≡◌, ◌++◌, codes, IfOk};
ghost use Rattle.std.specs.Option.{option_map};
ghost use Rattle.sng_book.specs.Printing.{name_text};
ghost use Rattle.sng_operator.specs.Clients.{client_words, is_fate, is_of_client, words_of_client};

use sng_book::print::push_name;
use sng_book::{Decision, Out};
use sng_text::ClientId;
use std::alloc::{AllocError, Global};

/// The line of a note that a client was let in or lost, without a line feed. No other has one.
pub fn client_line(alloc: Global, out: &Out) -> Result<Option<Vec<u8>>, AllocError>
    ensures { IfOk result (λ line. option_map (λ text. text.items) line ≡ client_words out.now) }
{
    match out {
        Out::Note(decision) => line_of_decision(alloc, decision),
        Out::Send(_, _) | Out::Wire(_) => Ok(None),
    }
}

/// The line of such a decision.
fn line_of_decision(alloc: Global, decision: &Decision) -> Result<Option<Vec<u8>>, AllocError>
    ensures { IfOk result (λ line. option_map (λ text. text.items) line ≡ words_of_client decision.now) }
{
    match decision {
        Decision::Connect(client, outcome) => {
            if outcome.is_allowed() {
                Ok(Some(line_of(alloc, client, b" let in")?))
            } else {
                Ok(None)
            }
        }
        Decision::Lost(client) => Ok(Some(line_of(alloc, client, b" lost")?)),
        Decision::Register(_, _, _)
        | Decision::Publish(_, _, _)
        | Decision::Subscribe(_, _, _)
        | Decision::Unsubscribe(_, _, _)
        | Decision::Will(_, _, _)
        | Decision::Hand(_, _, _)
        | Decision::Retry(_, _, _)
        | Decision::Forward(_, _, _)
        | Decision::Again(_, _, _)
        | Decision::End(_, _, _)
        | Decision::Frame(_, _)
        | Decision::Outbox
        | Decision::Announce(_, _)
        | Decision::Left(_) => Ok(None),
    }
}

/// The client, and what became of it.
fn line_of(alloc: Global, client: &ClientId, fate: &[u8]) -> Result<Vec<u8>, AllocError>
    ensures { IfOk result (λ line. line.items ≡ codes "client " ++ name_text client.now ++ fate.now) }
{
    let mut line = Vec::new(alloc);
    line.extend_from_slice(b"client ")?;
    push_name(&mut line, client.text())?;
    line.extend_from_slice(fate)?;
    Ok(line)
}

/// Whether it is a note that a client was let in, refused or lost.
pub fn is_of_client(out: &Out) -> bool
    ensures { result ≡ is_of_client out.now }
{
    match out {
        Out::Note(decision) => is_fate(decision),
        Out::Send(_, _) | Out::Wire(_) => false,
    }
}

fn is_fate(decision: &Decision) -> bool
    ensures { result ≡ is_fate decision.now }
{
    match decision {
        Decision::Connect(_, _) | Decision::Lost(_) => true,
        Decision::Register(_, _, _)
        | Decision::Publish(_, _, _)
        | Decision::Subscribe(_, _, _)
        | Decision::Unsubscribe(_, _, _)
        | Decision::Will(_, _, _)
        | Decision::Hand(_, _, _)
        | Decision::Retry(_, _, _)
        | Decision::Forward(_, _, _)
        | Decision::Again(_, _, _)
        | Decision::End(_, _, _)
        | Decision::Frame(_, _)
        | Decision::Outbox
        | Decision::Announce(_, _)
        | Decision::Left(_) => false,
    }
}
