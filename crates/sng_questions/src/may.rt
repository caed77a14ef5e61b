//! What a policy text says to a question, for whoever writes policies.
ghost use Rattle.std.specs.Prelude.{◌≡◌, ◌++◌, codes, IfOk, OnOk};
ghost use Rattle.sng_grants.specs.Ends.{in_force};
ghost use Rattle.sng_scope.specs.Policies.{policy_of};
ghost use Rattle.sng_questions.specs.Answers.{gap_text, may_status, may_text, ruling_of, ruling_text};

use crate::inquiry::Inquiry;
use crate::ruling::{Ruling, publish_ruling, receive_ruling, source_ruling, subscribe_ruling};
use sng_book::print::push_name;
use sng_grants::Policy;
use sng_policy::{may_publish, may_receive, may_subscribe, source_may_publish};
use sng_scope::{PolicyFault, read_policy};
use sng_script::Status;
use sng_script::ending::end;
use sng_script::refused::push_refused;
use std::alloc::{AllocError, Global};
use std::io::Write;

/// Prints what the policy of the text says to the question at this clock, in ms, and flushes: `allowed`, or
/// `denied` with the missing grant, for a subscription with the name that shows the gap; of a text that is not
/// a policy `refused policy N NAME`. `Done` is answered for `allowed` alone.
pub fn may<W: Write + Drop>(
    alloc: Global,
    inquiry: &Inquiry,
    clock: u64,
    text: &[u8],
    mut output: W,
) -> Status {
    let (printed, status) = match may_line(alloc, inquiry, clock, text) {
        Ok((line, status)) => (output.write_all(line.as_slice()), status),
        Err(AllocError) => (output.write_all(b"out of memory\n"), Status::OutOfMemory),
    };
    end(status, printed, &mut output)
}

/// The line that is printed for the question at this clock, and how the command comes out. Only memory can
/// fail.
pub fn may_line(
    alloc: Global,
    inquiry: &Inquiry,
    clock: u64,
    text: &[u8],
) -> Result<(Vec<u8>, Status), AllocError>
    ensures text { IfOk result (λ line. line.0.items ≡ may_text (policy_of text.now) clock inquiry.now) }
    ensures status { IfOk result (λ line. line.1 ≡ may_status (policy_of text.now) clock inquiry.now) }
{
    let mut line = Vec::new(alloc);
    match read_policy(alloc, text) {
        Ok(policy) => {
            let ruling = ruling_of(alloc, &policy, clock, inquiry)?;
            push_ruling(&mut line, &ruling)?;
            Ok((line, ruling.status()))
        }
        Err(PolicyFault::Memory) => Err(AllocError),
        Err(fault) => {
            push_refused(&mut line, fault)?;
            Ok((line, Status::Unreadable))
        }
    }
}

/// What the policy says to the question at the clock. Only memory can fail.
fn ruling_of(
    alloc: Global,
    policy: &Policy,
    clock: u64,
    inquiry: &Inquiry,
) -> Result<Ruling, AllocError>
    ensures { IfOk result (λ ruling. ruling ≡ ruling_of (in_force clock policy.now) inquiry.now) }
{
    match inquiry {
        Inquiry::Publish(client, name) => Ok(publish_ruling(may_publish(
            policy, client, name, clock,
        ))),
        Inquiry::Receive(client, name) => Ok(receive_ruling(may_receive(
            policy, client, name, clock,
        ))),
        Inquiry::Subscribe(client, filter) => {
            Ok(subscribe_ruling(may_subscribe(alloc, policy, client, filter, clock)?))
        }
        Inquiry::SourcePublish(source, name) => {
            Ok(source_ruling(source_may_publish(policy, *source, name, clock)))
        }
    }
}

/// Appends the line of what is said.
fn push_ruling(line: &mut Vec<u8>, ruling: &Ruling) -> Result<(), AllocError>
    ensures { OnOk result (line.new.items ≡ line.old.items ++ ruling_text ruling.now) }
{
    match ruling {
        Ruling::Allowed => line.extend_from_slice(b"allowed\n"),
        Ruling::NoScope => line.extend_from_slice(b"denied NoScope\n"),
        Ruling::UnknownSource => line.extend_from_slice(b"denied UnknownSource\n"),
        Ruling::MissingPub => line.extend_from_slice(b"denied MissingPub\n"),
        Ruling::MissingSub => line.extend_from_slice(b"denied MissingSub\n"),
        Ruling::Uncovered(gap) => push_gap(line, gap.text()),
    }
}

/// Appends the line of a subscription that is denied for this gap.
fn push_gap(line: &mut Vec<u8>, gap: &[u8]) -> Result<(), AllocError>
    ensures { OnOk result (line.new.items ≡ line.old.items ++ gap_text gap.now) }
{
    line.extend_from_slice(b"denied Uncovered ")?;
    push_name(line, gap)?;
    push_line_feed(line)
}

fn push_line_feed(line: &mut Vec<u8>) -> Result<(), AllocError>
    ensures { OnOk result (line.new.items ≡ line.old.items ++ codes "\n") }
{
    line.extend_from_slice(b"\n")
}
