//! `sng serve ..`, `sng status ..` and `sng broker ..`.
ghost use Rattle.std.specs.Prelude.{◌≡◌};
ghost use Rattle.sng_status.specs.Askings.{IsWell};

use crate::file::{first_no_text, report_word};
use sng_script::Status;
use sng_serve::{End, Words};
use sng_text::Octets;
use std::fs::File;
use std::net::Net;
use std::rt::{Clock, Files};
use std::sync::Wait;
use std::thread::Threads;

/// Serves as the words say.
pub fn serve<
    R: Threads
        + Wait
        + Sync
        + Copy
        + Send
        + 'static
        + Net
        + Clock
        + Files<File = File>
        + Input
        + Print
        + Eprint
        + AllocGlobal,
>(rt: &R, words: &[Octets], asked: &Words<'_>) -> End
where
    R::Reader: Send,
    R::File: Send,
    R::Dir: Send,
    R::Listener: Send,
    R::Stream: Send,
{
    match first_no_text(words) {
        Some(place) => End::from(report_word(rt, place)),
        None => sng_serve::serve(rt, asked),
    }
}

/// Tells how the gateway stands that serves its figures at the address.
pub fn status<R: Clock + Net + Print + Eprint + AllocGlobal>(
    rt: &R,
    words: &[Octets],
    address: &str,
) -> Status
    ensures { result ≡ Status.Done → IsWell }
{
    match first_no_text(words) {
        Some(place) => report_word(rt, place),
        None => sng_status::status(rt, address),
    }
}

/// Serves MQTT clients as the test broker.
pub fn broker<R: Wait + Net + Print + Eprint + AllocGlobal>(
    rt: &R,
    words: &[Octets],
    listen: &str,
) -> Status {
    match first_no_text(words) {
        Some(place) => report_word(rt, place),
        None => sng_test_broker::broker(rt, listen),
    }
}
