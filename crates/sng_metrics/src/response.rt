//! The other side of a request for a page: how it is asked for, and how the answer is read (RFC 9112, 4 and 6).
ghost use Rattle.std.specs.Prelude.{◌≡◌, IfOk, length, All, option_copied, map};
ghost use Rattle.httparse.specs.Grammar.{ResponseHead};
ghost use Rattle.httparse.specs.Spans.{IsHeaderWithin, IsResponseAt, IsResponseWithin, header_bytes};
ghost use Rattle.sng_metrics.specs.Responses.{AreFirst, IsContent, IsReadFrom, IsReadOf, is_length_field};
ghost use Rattle.sng_metrics.specs.Responses.{length_field, path_text, request_text};

use crate::heard::Page;
use crate::limits::MAX_FIELDS;
use crate::number::number_of;
use httparse::spans::{EMPTY_HEADER_SPAN, HeaderSpan, ResponseSpans, parse_response};
use httparse::{Error, Status};
use std::alloc::{AllocError, Global};

/// Where a gateway is asked if no other address is named.
pub const USUAL_METRICS: &str = "127.0.0.1:9884";

/// An answer.
#[derive(Clone, Copy, Debug)]
pub struct Answer<'a> {
    /// The code of its status (RFC 9110, 15).
    pub code: u16,
    pub content: &'a [u8],
}

/// Why octets are no answer.
#[derive(Clone, Copy, Debug, PartialEq, Eq, thiserror::Error)]
pub enum AnswerFault {
    #[error("the answer is not one of HTTP/1.1")]
    NotHttp,
    #[error("the answer is cut off")]
    CutOff,
}

/// A request for the page, from where this host and port are.
pub fn request_for(alloc: Global, page: Page, host: &str) -> Result<Vec<u8>, AllocError>
    ensures { IfOk result (λ request. request.items ≡ request_text page host.now) }
{
    let mut text = Vec::from_slice(alloc, b"GET ")?;
    text.extend_from_slice(path(page).as_bytes())?;
    text.extend_from_slice(b" HTTP/1.1\r\nHost: ")?;
    text.extend_from_slice(host.as_bytes())?;
    text.extend_from_slice(b"\r\nConnection: close\r\n\r\n")?;
    Ok(text)
}

fn path(page: Page) -> &'static str
    ensures { result.now ≡ path_text page }
{
    match page {
        Page::Metrics => "/metrics",
        Page::Health => "/healthz",
    }
}

/// Reads an answer that came whole, up to the end of the connection.
pub fn read_answer(octets: &[u8]) -> Result<Answer<'_>, AnswerFault>
    ensures { IsReadOf octets.now result }
{
    let mut fields = [EMPTY_HEADER_SPAN; MAX_FIELDS];
    match parse_response(octets, &mut fields) {
        Ok(Status::Complete(head)) => content_of(octets, &head, &fields),
        Ok(Status::Partial) => Err(AnswerFault::CutOff),
        Err(
            Error::HeaderName
            | Error::HeaderValue
            | Error::NewLine
            | Error::Status
            | Error::Token
            | Error::TooManyHeaders
            | Error::Version,
        ) => Err(AnswerFault::NotHttp),
    }
}

/// The answer behind a whole head, whose parts are at these places.
fn content_of<'a>(
    octets: &'a [u8],
    head: &ResponseSpans,
    fields: &[HeaderSpan],
) -> Result<Answer<'a>, AnswerFault>
    requires { IsResponseWithin octets.now fields.now head.now }
    ensures { (h : ResponseHead) → IsResponseAt octets.now fields.now head.now h
        → IsReadFrom octets.now h result }
{
    let content = &octets[head.len..];
    let told = length_field(octets, &fields[..head.headers]);
    match whole_content(content, told) {
        Ok(content) => Ok(Answer {
            code: head.code,
            content,
        }),
        Err(fault) => Err(fault),
    }
}

/// As much of the content as the head tells of, or all where it tells nothing.
fn whole_content<'a>(content: &'a [u8], told: Option<&[u8]>) -> Result<&'a [u8], AnswerFault>
    ensures { IsContent content.now (option_copied told.entry) result }
{
    match told {
        None => Ok(content),
        Some(told) => match number_of(told) {
            Some(count) => first(content, count),
            None => Err(AnswerFault::NotHttp),
        },
    }
}

/// So many of the octets, where there are as many.
fn first(content: &[u8], count: u64) -> Result<&[u8], AnswerFault>
    ensures { AreFirst content.now count result }
{
    if count > content.len() as u64 {
        return Err(AnswerFault::CutOff);
    }
    Ok(&content[..count as usize])
}

/// The value of the first field that tells the length of the content.
fn length_field<'a>(octets: &'a [u8], fields: &[HeaderSpan]) -> Option<&'a [u8]>
    requires { All (IsHeaderWithin (length octets.now)) fields.now }
    ensures { option_copied result ≡ length_field (map (header_bytes octets.now) fields.now) }
{
    for field in fields {
        if is_length_field(field.name.of(octets)) {
            return Some(field.value.of(octets));
        }
    }
    None
}

fn is_length_field(name: &[u8]) -> bool
    ensures { result ≡ is_length_field name.now }
{
    name.eq_ignore_ascii_case(b"content-length")
}
