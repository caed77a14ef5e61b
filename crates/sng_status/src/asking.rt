//! `sng status`: asks a running gateway for its figures, and prints those that matter.
ghost use Rattle.std.specs.Prelude.{◌≡◌, ◌≢◌, IfOk};
ghost use Rattle.sng_status.specs.Askings.{EndsBy, IsOfAnswer, IsWell, status_of};

use crate::question::{NoAnswer, answer_at};
use sng_metrics::{
    AnswerFault, Health, Page, Summary, SummaryFault, USUAL_METRICS, push_table, read_answer,
    read_summary, request_for,
};
use sng_operator::ask::socket_address_of;
use sng_script::Status;
use sng_script::ending::ended;
use sng_signals::level::Level;
use sng_signals::tell::tell;
use std::alloc::AllocError;
use std::fmt::{Display, Formatter};
use std::io::Write;
use std::net::Net;
use std::rt::Clock;
use std::{fmt, io};

/// The status of an answer that has the page (RFC 9110, 15.3.1).
const OK: u16 = 200;

/// Why it is not known how a gateway stands.
#[derive(Drop)]
enum Unknown {
    /// The word is no IPv4 address with a port.
    NoAddress,
    /// There is no answer.
    NoAnswer(NoAnswer),
    /// What came is no answer of HTTP.
    NoHttp(AnswerFault),
    /// The answer has no page, but this status.
    NoPage(u16),
    /// The page is not that of a gateway.
    NoFigures(SummaryFault),
    /// An allocation failed.
    Memory,
}

impl Display for Unknown {
    fn fmt<W: fmt::Write>(&self, f: &mut Formatter<W>) -> fmt::Result {
        match self {
            Unknown::NoAddress => {
                write!(f, "not an IPv4 address with a port, as {USUAL_METRICS}")
            }
            Unknown::NoAnswer(why) => write!(f, "{why}"),
            Unknown::NoHttp(fault) => write!(f, "{fault}"),
            Unknown::NoPage(status) => write!(f, "no page of figures, but status {status}"),
            Unknown::NoFigures(fault) => write!(f, "{fault}"),
            Unknown::Memory => f.write_str("out of memory"),
        }
    }
}

impl From<AllocError> for Unknown {
    fn from(_: AllocError) -> Unknown {
        Unknown::Memory
    }
}

impl From<NoAnswer> for Unknown {
    fn from(why: NoAnswer) -> Unknown {
        match why {
            NoAnswer::Memory => Unknown::Memory,
            why => Unknown::NoAnswer(why),
        }
    }
}

impl From<AnswerFault> for Unknown {
    fn from(fault: AnswerFault) -> Unknown {
        Unknown::NoHttp(fault)
    }
}

impl From<SummaryFault> for Unknown {
    fn from(fault: SummaryFault) -> Unknown {
        match fault {
            SummaryFault::Memory => Unknown::Memory,
            fault => Unknown::NoFigures(fault),
        }
    }
}

/// Prints how the gateway stands that serves its figures at the address, or tells why that is not known. The
/// status is that of no answer where not all is well there.
pub fn status<R: Clock + Net + Print + Eprint + AllocGlobal>(rt: &R, address: &str) -> Status
    ensures { result ≡ Status.Done → IsWell }
{
    match summary_at(rt, address) {
        Ok(summary) => match show(rt, &summary) {
            Ok(status) => status,
            Err(why) => report(rt, address, why),
        },
        Err(why) => report(rt, address, why),
    }
}

/// Tells why it is not known how the gateway at the address stands.
fn report<R: Print + Eprint + AllocGlobal>(rt: &R, address: &str, why: Unknown) -> Status
    ensures { result ≢ Status.Done }
{
    if let Unknown::Memory = why {
        let printed = rt.println("out of memory");
        return ended(Status::OutOfMemory, printed.is_ok());
    }
    tell(rt, Level::Error, format_args!("{address}: {why}"));
    Status::Unreadable
}

/// What is read off the page of figures at the address.
fn summary_at<R: Clock + Net + AllocGlobal>(rt: &R, address: &str) -> Result<Summary, Unknown>
    ensures { IfOk result IsOfAnswer }
{
    let Some(place) = socket_address_of(address) else {
        return Err(Unknown::NoAddress);
    };
    let request = request_for(rt.alloc(), Page::Metrics, address)?;
    let octets = answer_at(rt, place, request.as_slice())?;
    let answer = read_answer(octets.as_slice())?;
    if answer.code != OK {
        return Err(Unknown::NoPage(answer.code));
    }
    Ok(read_summary(rt.alloc(), answer.content)?)
}

/// Prints the table.
fn show<R: Print + AllocGlobal>(rt: &R, summary: &Summary) -> Result<Status, Unknown>
    ensures { IfOk result (EndsBy summary.now.health) }
{
    let mut text = Vec::new(rt.alloc());
    push_table(&mut text, summary)?;
    let printed = io::writer(rt).write_all(text.as_slice());
    Ok(ended(status_of(summary.health), printed.is_ok()))
}

/// The status that tells of this health.
fn status_of(health: Health) -> Status
    ensures { result ≡ status_of health }
{
    if health.is_well() {
        Status::Done
    } else {
        Status::Unreadable
    }
}
