//! What the head of a request asks for (RFC 9112, 3).
ghost use Rattle.std.specs.Prelude.{◌≡◌, ◌≤◌, ◌==◌, length, All, count_by, map, position};
ghost use Rattle.std.specs.List.{position_or_len};
ghost use Rattle.httparse.specs.Spans.{IsHeaderWithin};
ghost use Rattle.sng_metrics.specs.Requests.{asked, form_of, header_name, host_fits, is_host, local_target};
ghost use Rattle.sng_metrics.specs.Requests.{page_of, past_authority, path_of, whole_form};

use crate::heard::{Form, Heard, Page, Refusal};
use httparse::spans::HeaderSpan;

/// What is heard of a request with this method and this target.
pub(crate) fn asked(method: &[u8], target: &[u8]) -> Heard
    ensures { result ≡ asked method.now target.now }
{
    match (page_of(path_of(target)), form_of(method)) {
        (Some(page), Some(form)) => Heard::Asked(page, form),
        (Some(_), None) => Heard::Refused(Refusal::Method, Form::Whole),
        (None, form) => Heard::Refused(Refusal::NotFound, whole_form(form)),
    }
}

/// How much of the answer the method asks for, where it is one that is taken.
pub(crate) fn form_of(method: &[u8]) -> Option<Form>
    ensures { result ≡ form_of method.now }
{
    if method == b"GET".as_slice() {
        Some(Form::Whole)
    } else if method == b"HEAD".as_slice() {
        Some(Form::HeadOnly)
    } else {
        None
    }
}

/// The form that is asked for, all of the answer where none is.
pub(crate) fn whole_form(form: Option<Form>) -> Form
    ensures { result ≡ whole_form form }
{
    match form {
        Some(form) => form,
        None => Form::Whole,
    }
}

/// The page at this path.
fn page_of(path: &[u8]) -> Option<Page>
    ensures { result ≡ page_of path.now }
{
    if path == b"/metrics".as_slice() {
        Some(Page::Metrics)
    } else if path == b"/healthz".as_slice() {
        Some(Page::Health)
    } else {
        None
    }
}

/// The path of a target, without its query.
fn path_of(target: &[u8]) -> &[u8]
    ensures { result.now ≡ path_of target.now }
{
    let local = local_target(target);
    &local[..place_of(b'?', local)]
}

/// The target without a scheme and an authority (RFC 9112, 3.2.2).
fn local_target(target: &[u8]) -> &[u8]
    ensures { result.now ≡ local_target target.now }
{
    match target.strip_prefix(b"http://".as_slice()) {
        Some(rest) => past_authority(rest),
        None => target,
    }
}

/// What follows an authority, from its first slash on.
fn past_authority(text: &[u8]) -> &[u8]
    ensures { result.now ≡ past_authority text.now }
{
    &text[place_of(b'/', text)..]
}

/// Where the byte stands first, or the length of the text where it stands nowhere.
pub(crate) fn place_of(byte: u8, text: &[u8]) -> usize
    ensures place { result ≡ position_or_len (λ b. b == byte) text.now }
    ensures within { result ≤ length text.now }
{
    match first_place(byte, text) {
        Some(at) => at,
        None => text.len(),
    }
}

fn first_place(byte: u8, text: &[u8]) -> Option<usize>
    ensures { result ≡ position (λ b. b == byte) text.now }
{
    text.iter().position(|b| *b == byte)
}

/// Whether so many lines of `Host` are right in a request of HTTP/1.1, or of 1.0 where the minor version is 0
/// (RFC 9112, 3.2).
pub(crate) fn host_fits(minor: u8, hosts: usize) -> bool
    ensures { result ≡ host_fits minor hosts }
{
    hosts == 1 || (hosts == 0 && minor == 0)
}

/// How many of the field lines are named `Host`.
pub(crate) fn host_lines(octets: &[u8], fields: &[HeaderSpan]) -> usize
    requires { All (IsHeaderWithin (length octets.now)) fields.now }
    ensures { result ≡ count_by is_host (map (header_name octets.now) fields.now) }
{
    let mut hosts = 0;
    for field in fields {
        if is_host(field.name.of(octets)) {
            hosts += 1;
        }
    }
    hosts
}

/// Whether the name is `Host`, in whatever case.
fn is_host(name: &[u8]) -> bool
    ensures { result ≡ is_host name.now }
{
    name.eq_ignore_ascii_case(b"host")
}
