//! Answers (RFC 9112, 4 and 5; RFC 9110, 8.3, 8.6 and 10.2.1): a status, the fields, and the content, behind
//! which the connection is closed.
ghost use Rattle.std.specs.Prelude.{◌≡◌, ◌++◌, IfOk, OnOk, codes};
ghost use Rattle.sng_metrics.specs.Answers.{allow_text, answer_text, content_text, health_text, head_text};
ghost use Rattle.sng_metrics.specs.Answers.{health_status, length_text, refusal_text, status_text, type_text};

use crate::health::Health;
use crate::heard::{Form, Refusal};
use crate::number::push_number;
use crate::sample::push_three;
use crate::status::{Media, Status};
use std::alloc::{AllocError, Global};

/// The answer to a request for the health: `ok`, or the reason why not all is well.
pub fn health_answer(alloc: Global, form: Form, health: Health) -> Result<Vec<u8>, AllocError>
    ensures { IfOk result (λ answer. answer.items ≡ health_text form health) }
{
    let content = health.line().as_bytes();
    answer(alloc, health_status(health), Media::Text, form, content)
}

/// The status of a request for the health.
fn health_status(health: Health) -> Status
    ensures { result ≡ health_status health }
{
    if health.is_well() {
        Status::Ok
    } else {
        Status::Unavailable
    }
}

/// The answer to whom no page is given.
pub fn refusal_answer(alloc: Global, form: Form, refusal: Refusal) -> Result<Vec<u8>, AllocError>
    ensures { IfOk result (λ answer. answer.items ≡ refusal_text form refusal) }
{
    let content = refusal.line().as_bytes();
    answer(alloc, refusal.status(), Media::Text, form, content)
}

/// The answer with this status and this content.
pub(crate) fn answer(
    alloc: Global,
    status: Status,
    media: Media,
    form: Form,
    content: &[u8],
) -> Result<Vec<u8>, AllocError>
    ensures { IfOk result (λ answer. answer.items ≡ answer_text status media form content.now) }
{
    let mut text = Vec::new(alloc);
    push_head(&mut text, status, media, content.len())?;
    push_content(&mut text, form, content)?;
    Ok(text)
}

/// Appends the head of an answer whose content has so many octets.
fn push_head(
    text: &mut Vec<u8>,
    status: Status,
    media: Media,
    count: usize,
) -> Result<(), AllocError>
    ensures { OnOk result (text.new.items ≡ text.old.items ++ head_text status media count) }
{
    push_status(text, status)?;
    push_media(text, media)?;
    push_length(text, count)?;
    push_end(text, status)
}

/// Appends the line of the status, and that the connection is closed behind the answer.
fn push_status(text: &mut Vec<u8>, status: Status) -> Result<(), AllocError>
    ensures { OnOk result (text.new.items ≡ text.old.items ++ status_text status) }
{
    push_three(
        text,
        b"HTTP/1.1 ",
        status.line().as_bytes(),
        b"\r\nConnection: close\r\n",
    )
}

/// Appends what the content is.
fn push_media(text: &mut Vec<u8>, media: Media) -> Result<(), AllocError>
    ensures { OnOk result (text.new.items ≡ text.old.items ++ type_text media) }
{
    push_three(text, b"Content-Type: ", media.name().as_bytes(), b"\r\n")
}

/// Appends how long the content is.
fn push_length(text: &mut Vec<u8>, count: usize) -> Result<(), AllocError>
    ensures { OnOk result (text.new.items ≡ text.old.items ++ length_text count) }
{
    text.extend_from_slice(b"Content-Length: ")?;
    push_number(text, count as u128)?;
    text.extend_from_slice(b"\r\n")
}

/// Appends what else goes with the status, and the empty line.
fn push_end(text: &mut Vec<u8>, status: Status) -> Result<(), AllocError>
    ensures { OnOk result (text.new.items ≡ text.old.items ++ (allow_text status ++ codes "\r\n")) }
{
    text.extend_from_slice(allow(status).as_bytes())?;
    text.extend_from_slice(b"\r\n")
}

/// The field that goes with a method that is not taken (RFC 9110, 15.5.6).
fn allow(status: Status) -> &'static str
    ensures { result.now ≡ allow_text status }
{
    match status {
        Status::MethodNotAllowed => "Allow: GET, HEAD\r\n",
        Status::Ok
        | Status::BadRequest
        | Status::NotFound
        | Status::RequestTimeout
        | Status::FieldsTooLarge
        | Status::Unavailable => "",
    }
}

/// Appends the content, where it is wanted.
fn push_content(text: &mut Vec<u8>, form: Form, content: &[u8]) -> Result<(), AllocError>
    ensures { OnOk result (text.new.items ≡ text.old.items ++ content_text form content.now) }
{
    match form {
        Form::Whole => text.extend_from_slice(content),
        Form::HeadOnly => Ok(()),
    }
}
