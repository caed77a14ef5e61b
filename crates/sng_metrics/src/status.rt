//! The statuses of answers (RFC 9110, 15; RFC 6585, 5), and what the content of an answer is.
ghost use Rattle.std.specs.Prelude.{◌≡◌};
ghost use Rattle.sng_metrics.specs.Statuses.{line_of, media_of, status_of, words_of};

use crate::heard::Refusal;

/// A status that is answered.
#[derive(Clone, Copy, Debug, PartialEq, Eq)]
pub enum Status {
    Ok,
    BadRequest,
    NotFound,
    MethodNotAllowed,
    RequestTimeout,
    FieldsTooLarge,
    Unavailable,
}

/// What the content of an answer is.
#[derive(Clone, Copy, Debug, PartialEq, Eq)]
pub enum Media {
    /// A text for people.
    Text,
    /// A page of figures in the text format of Prometheus.
    Figures,
}

impl Status {
    /// What follows the version in the line of the status.
    pub fn line(self) -> &'static str
        ensures { result.now ≡ line_of self }
    {
        match self {
            Status::Ok => "200 OK",
            Status::BadRequest => "400 Bad Request",
            Status::NotFound => "404 Not Found",
            Status::MethodNotAllowed => "405 Method Not Allowed",
            Status::RequestTimeout => "408 Request Timeout",
            Status::FieldsTooLarge => "431 Request Header Fields Too Large",
            Status::Unavailable => "503 Service Unavailable",
        }
    }
}

impl Media {
    /// The value of `Content-Type`.
    pub fn name(self) -> &'static str
        ensures { result.now ≡ media_of self }
    {
        match self {
            Media::Text => "text/plain; charset=utf-8",
            Media::Figures => "text/plain; version=0.0.4; charset=utf-8",
        }
    }
}

impl Refusal {
    /// The status that tells of it.
    pub fn status(self) -> Status
        ensures { result ≡ status_of self }
    {
        match self {
            Refusal::Malformed => Status::BadRequest,
            Refusal::NotFound => Status::NotFound,
            Refusal::Method => Status::MethodNotAllowed,
            Refusal::TooSlow => Status::RequestTimeout,
            Refusal::TooLarge => Status::FieldsTooLarge,
        }
    }

    /// The line that tells of it, for people.
    pub fn line(self) -> &'static str
        ensures { result.now ≡ words_of self }
    {
        match self {
            Refusal::Malformed => "this is no request of HTTP/1.1\n",
            Refusal::NotFound => "the pages are /metrics and /healthz\n",
            Refusal::Method => "a page is asked for by GET or HEAD\n",
            Refusal::TooSlow => "the request did not come in time\n",
            Refusal::TooLarge => "the head of the request is too large\n",
        }
    }
}
