//! A visitor: one connection to the pages, as far as its request has come.
ghost use Rattle.std.specs.Prelude.{◌≡◌, ◌-◌, ◌≤◌, [], ◌++◌, IfOk, OnOk, OnErr, length, take};
ghost use Rattle.httparse.specs.Grammar.{RequestHead};
ghost use Rattle.httparse.specs.Spans.{IsRequestAt, IsRequestWithin};
ghost use Rattle.sng_metrics.specs.Requests.{heard_of};
ghost use Rattle.sng_metrics.specs.Visits.{HearsOf, IsHeard, unfinished};
ghost use Rattle.sng_metrics.specs.declared.limits.TheConstants.{MAX_REQUEST};

use crate::heard::{Form, Heard, Refusal};
use crate::limits::{MAX_FIELDS, MAX_REQUEST};
use crate::request::{asked, form_of, host_fits, host_lines, whole_form};
use httparse::spans::{EMPTY_HEADER_SPAN, HeaderSpan, RequestSpans, parse_request};
use httparse::{Error, Status};
use std::alloc::{AllocError, Global};
use std::cmp;
use std::marker::Model;

/// The octets of a visitor, as they came: at most `MAX_REQUEST` of them are kept. Contracts see their list.
#[derive(Debug, Drop)]
pub struct Visitor {
    octets: Vec<u8>,
}

impl Model for Visitor {
    ghost use Rattle.std.specs.Prelude.{List, ℕ, length, ◌≤◌};
    ghost use Rattle.sng_metrics.specs.declared.limits.TheConstants.{MAX_REQUEST};

    ghost Value = { List ℕ };

    ghost view = { λ v. v.octets.items };

    ghost invariant = { λ v. length v.octets.items ≤ MAX_REQUEST };
}

impl Visitor {
    /// A visitor of whom nothing was heard.
    pub fn new(alloc: Global) -> Visitor
        ensures { result ≡ [] }
    {
        Visitor {
            octets: Vec::new(alloc),
        }
    }

    /// Takes the next octets of the visitor, as far as there is room, and says what is heard of it so far. Where
    /// memory fails, none was taken.
    pub fn hear(&mut self, octets: &[u8]) -> Result<Heard, AllocError>
        ensures kept { OnOk result (self.new ≡ self.old ++ take (MAX_REQUEST - length self.old) octets.now) }
        ensures heard { IfOk result (IsHeard self.new) }
        ensures found { IfOk result (HearsOf self.new) }
        ensures err { OnErr result (self.new ≡ self.old) }
    {
        let room = MAX_REQUEST - self.octets.len();
        let taken = cmp::min(room, octets.len());
        self.octets.extend_from_slice(&octets[..taken])?;
        Ok(heard(self.octets.as_slice()))
    }
}

/// What is heard of these octets, the first ones of a connection.
pub fn heard(octets: &[u8]) -> Heard
    requires { length octets.now ≤ MAX_REQUEST }
    ensures heard { IsHeard octets.now result }
    ensures found { HearsOf octets.now result }
{
    let mut fields = [EMPTY_HEADER_SPAN; MAX_FIELDS];
    match parse_request(octets, &mut fields) {
        Ok(Status::Complete(head)) => judged(octets, &head, &fields),
        Ok(Status::Partial) => unfinished(octets.len()),
        Err(Error::TooManyHeaders) => Heard::Refused(Refusal::TooLarge, Form::Whole),
        Err(
            Error::HeaderName
            | Error::HeaderValue
            | Error::NewLine
            | Error::Status
            | Error::Token
            | Error::Version,
        ) => Heard::Refused(Refusal::Malformed, Form::Whole),
    }
}

/// What is heard of a head that is not whole yet, of which this many octets came.
fn unfinished(count: usize) -> Heard
    ensures { result ≡ unfinished count }
{
    if count < MAX_REQUEST {
        Heard::More
    } else {
        Heard::Refused(Refusal::TooLarge, Form::Whole)
    }
}

/// What is heard of a whole head, whose parts are at these places.
fn judged(octets: &[u8], head: &RequestSpans, fields: &[HeaderSpan]) -> Heard
    requires { IsRequestWithin octets.now fields.now head.now }
    ensures { (h : RequestHead) → IsRequestAt octets.now fields.now head.now h → result ≡ heard_of h }
{
    let method = head.method.of(octets);
    let hosts = host_lines(octets, &fields[..head.headers]);
    if host_fits(head.version, hosts) {
        asked(method, head.path.of(octets))
    } else {
        Heard::Refused(Refusal::Malformed, whole_form(form_of(method)))
    }
}
