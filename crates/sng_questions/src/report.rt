//! What is printed of a policy text that is checked, for whoever writes policies.
ghost use Rattle.std.specs.Prelude.{◌≡◌, ◌++◌, [], IfOk, OnOk, option_map};
ghost use Rattle.sng_grants.specs.Ends.{next_end};
ghost use Rattle.sng_scope.specs.Policies.{policy_of};
ghost use Rattle.sng_places.specs.Places.{text_check};
ghost use Rattle.sng_places.specs.declared.position.Position.{Position};
ghost use Rattle.sng_questions.specs.Ends.{ending_scopes};
ghost use Rattle.sng_questions.specs.Warnings.{AreWarningsOf};
ghost use Rattle.sng_questions.specs.Reports.{AreLinesOf, IsDateOf, accepted_text, date_text, ends_text};
ghost use Rattle.sng_questions.specs.Reports.{fault_report, first_end_text, listed_text, report_status};
ghost use Rattle.sng_questions.specs.Reports.{stop_text};

use crate::ends::ending_scopes;
use crate::flaws::push_count;
use crate::places::push_found;
use crate::warnings::warning_lines;
use arrayvec::ArrayString;
use sng_book::print::push_decimal;
use sng_grants::Policy;
use sng_places::{Position, Stop, check_policy};
use sng_scope::{PolicyFault, read_policy};
use sng_script::Status;
use sng_script::refused::push_refused;
use sng_times::{Time, UTC_BYTES};
use std::alloc::{AllocError, Global};

/// What the check of a policy text comes to.
#[derive(Debug, Drop)]
pub struct Report {
    /// How much the policy lists, or its first fault by its name and its sentence, and where it stands.
    pub lines: Vec<u8>,
    /// What of an accepted policy is surely not meant.
    pub warnings: Vec<u8>,
    /// How the command comes out.
    pub status: Status,
}

/// What the check of the text comes to. Only memory can fail.
pub fn report_of(alloc: Global, text: &[u8]) -> Result<Report, AllocError>
    ensures lines { IfOk result (λ report.
        AreLinesOf (policy_of text.now) (text_check text.now) report.lines.items) }
    ensures warnings { IfOk result (λ report.
        AreWarningsOf (policy_of text.now) report.warnings.items) }
    ensures status { IfOk result (λ report. report.status ≡ report_status (policy_of text.now)) }
{
    match read_policy(alloc, text) {
        Ok(policy) => {
            let mut lines = Vec::new(alloc);
            push_accepted(&mut lines, &policy, first_date(&policy))?;
            let warnings = warning_lines(alloc, text, &policy)?;
            Ok(Report {
                lines,
                warnings,
                status: Status::Done,
            })
        }
        Err(PolicyFault::Memory) => Err(AllocError),
        Err(fault) => refusal(alloc, text, fault),
    }
}

/// What is told of a text with this fault.
pub fn refusal(alloc: Global, text: &[u8], fault: PolicyFault) -> Result<Report, AllocError>
    ensures lines { IfOk result (λ report. (position : Position)
        × (report.lines.items ≡ fault_report position fault (text_check text.now))) }
    ensures warnings { IfOk result (λ report. report.warnings.items ≡ []) }
    ensures status { IfOk result (λ report. report.status ≡ Status.Unreadable) }
{
    let mut lines = Vec::new(alloc);
    let position = position_of(alloc, text, fault)?;
    push_report(alloc, &mut lines, text, fault, position)?;
    Ok(Report {
        lines,
        warnings: Vec::new(alloc),
        status: Status::Unreadable,
    })
}

/// Where a text that is not JSON stops being it.
fn position_of(alloc: Global, text: &[u8], fault: PolicyFault) -> Result<Position, AllocError> {
    if fault == PolicyFault::NotJson {
        Position::of_fault(alloc, text)
    } else {
        Ok(Position::FIRST)
    }
}

/// The date at which the first scope of the policy ends, where one does and that has a date.
fn first_date(policy: &Policy) -> Option<ArrayString<UTC_BYTES>>
    ensures { IsDateOf (next_end policy.now) (option_map (λ date. date.bytes) result) }
{
    match policy.next_end() {
        Some(first) => Time(first).utc(),
        None => None,
    }
}

/// Appends the line of a policy that is accepted, whose first scope ends at this date.
fn push_accepted(
    line: &mut Vec<u8>,
    policy: &Policy,
    date: Option<ArrayString<UTC_BYTES>>,
) -> Result<(), AllocError>
    ensures { OnOk result (line.new.items
        ≡ line.old.items ++ accepted_text policy.now (option_map (λ date. date.bytes) date)) }
{
    push_listed(line, policy)?;
    push_first_end(line, policy, date)?;
    line.extend_from_slice(b"\n")
}

/// Appends how much the policy lists.
fn push_listed(line: &mut Vec<u8>, policy: &Policy) -> Result<(), AllocError>
    ensures { OnOk result (line.new.items ≡ line.old.items ++ listed_text policy.now) }
{
    push_count(line, "policy ok: ", policy.clients.len())?;
    push_count(line, " clients, ", policy.sources.len())?;
    push_count(line, " sources, ", policy.topics.len())?;
    line.extend_from_slice(b" topics")
}

/// Appends how many scopes end and when the first one does, at this date, where some do.
fn push_first_end(
    line: &mut Vec<u8>,
    policy: &Policy,
    date: Option<ArrayString<UTC_BYTES>>,
) -> Result<(), AllocError>
    ensures { OnOk result (line.new.items ≡ line.old.items
        ++ first_end_text (ending_scopes policy.now) (next_end policy.now)
        (option_map (λ date. date.bytes) date)) }
{
    match policy.next_end() {
        Some(first) => {
            push_ends(line, ending_scopes(policy), first)?;
            push_date(line, date)
        }
        None => Ok(()),
    }
}

/// Appends how many scopes end, and when the first one does.
fn push_ends(line: &mut Vec<u8>, count: usize, first: u64) -> Result<(), AllocError>
    ensures { OnOk result (line.new.items ≡ line.old.items ++ ends_text count first) }
{
    push_count(line, "; ", count)?;
    line.extend_from_slice(b" scopes end, the first at ")?;
    push_decimal(line, first)?;
    line.extend_from_slice(b" ms of Unix time")?;
    Ok(())
}

/// Appends the date behind a time, where it has one.
fn push_date(line: &mut Vec<u8>, date: Option<ArrayString<UTC_BYTES>>) -> Result<(), AllocError>
    ensures { OnOk result (line.new.items ≡ line.old.items ++ date_text (option_map (λ date. date.bytes) date)) }
{
    match date {
        Some(date) => {
            line.extend_from_slice(b", ")?;
            line.extend_from_slice(date.as_str().as_bytes())
        }
        None => Ok(()),
    }
}

/// Appends the lines of the text's fault.
fn push_report(
    alloc: Global,
    lines: &mut Vec<u8>,
    text: &[u8],
    fault: PolicyFault,
    position: Position,
) -> Result<(), AllocError>
    ensures { OnOk result (lines.new.items
        ≡ lines.old.items ++ fault_report position fault (text_check text.now)) }
{
    push_refused(lines, fault)?;
    lines.extend_from_slice(fault.sentence().as_bytes())?;
    lines.extend_from_slice(b"\n")?;
    push_stop(alloc, lines, text, position)
}

/// Appends the line of the place.
fn push_stop(
    alloc: Global,
    lines: &mut Vec<u8>,
    text: &[u8],
    position: Position,
) -> Result<(), AllocError>
    ensures { OnOk result (lines.new.items
        ≡ lines.old.items ++ stop_text position (text_check text.now)) }
{
    match check_policy(alloc, text) {
        Ok(()) => Ok(()),
        Err(Stop::At(found)) => push_found(lines, position, &found),
        Err(Stop::Memory) => Err(AllocError),
    }
}
