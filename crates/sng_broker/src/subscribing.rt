//! What is granted, and the filters that stand.
ghost use Rattle.std.specs.Prelude.{◌≡◌, ◌≤◌, ◌<◌, ◌+◌, ◌++◌, [], ◌∷◌, length, map, vec_len, vec_capacity};
ghost use Rattle.std.specs.Prelude.{IfOk, OnOk};
ghost use Rattle.sng_broker.specs.Brokers.{let_stand, ended, identified};
ghost use Rattle.sng_broker.specs.Steps.{granted_qos, told_qos, granted, code_for, all_granted, codes_for};
ghost use Rattle.sng_broker.specs.Steps.{all_stand, all_ended, last_of};

use crate::parts::{Peer, Subscription};
use mqtt_frames::{Request, RequestedQos, SubscribeCode};
use sng_text::{Octets, Qos, TextFault, TopicFilter};
use std::alloc::{AllocError, Global};

fn granted_qos(asked: RequestedQos) -> Qos
    ensures { result ≡ granted_qos asked }
{
    match asked {
        RequestedQos::AtMostOnce => Qos::AtMostOnce,
        RequestedQos::AtLeastOnce => Qos::AtLeastOnce,
        RequestedQos::ExactlyOnce => Qos::AtLeastOnce,
    }
}

fn told_qos(qos: Qos) -> RequestedQos
    ensures { result ≡ told_qos qos }
{
    match qos {
        Qos::AtMostOnce => RequestedQos::AtMostOnce,
        Qos::AtLeastOnce => RequestedQos::AtLeastOnce,
    }
}

/// What is granted for a request, which may be no topic filter.
fn granted(alloc: Global, conn: u32, request: &Request) -> Result<Option<Subscription>, AllocError>
    ensures { IfOk result (λ s. s ≡ granted conn request.now) }
{
    match TopicFilter::read(alloc, request.filter.as_slice()) {
        Ok(filter) => Ok(Some(Subscription {
            conn,
            filter,
            qos: granted_qos(request.qos),
        })),
        Err(TextFault::Memory) => Err(AllocError),
        Err(
            TextFault::Empty
            | TextFault::TooLong
            | TextFault::NotUtf8
            | TextFault::Null
            | TextFault::Wildcard,
        ) => Ok(None),
    }
}

fn code_for(granted: &Option<Subscription>) -> SubscribeCode
    ensures { result ≡ code_for granted.now }
{
    match granted {
        None => SubscribeCode::Refused,
        Some(standing) => SubscribeCode::Granted(told_qos(standing.qos)),
    }
}

/// What is granted for all requests.
pub(crate) fn all_granted(
    alloc: Global,
    conn: u32,
    requests: &[Request],
) -> Result<Vec<Subscription>, AllocError>
    ensures { IfOk result (λ v. v.items ≡ all_granted conn requests.now) }
{
    let mut all = Vec::new(alloc);
    for request in requests {
        if let Some(standing) = granted(alloc, conn, request)? {
            all.push(standing)?;
        }
    }
    Ok(all)
}

/// The answers to all requests.
pub(crate) fn codes_for(
    alloc: Global,
    conn: u32,
    requests: &[Request],
) -> Result<Vec<SubscribeCode>, AllocError>
    ensures { IfOk result (λ v. v.items ≡ codes_for conn requests.now) }
{
    let mut codes = Vec::new(alloc);
    for request in requests {
        codes.push(code_for(&granted(alloc, conn, request)?))?;
    }
    Ok(codes)
}

/// Lets the filter stand for its connection at its QoS alone.
fn let_stand(standing: &mut Vec<Subscription>, one: Subscription)
    requires { vec_len standing.old < vec_capacity standing.old }
    ensures items { standing.new.items ≡ let_stand standing.old.items one }
    ensures len { vec_len standing.new ≤ vec_len standing.old + 1 }
    ensures capacity { vec_capacity standing.new ≡ vec_capacity standing.old }
{
    standing.retain(|other| !other.is_same(one.conn, one.filter.text()));
    standing.push_reserved(one);
}

/// Lets all of them stand, for which there is room.
pub(crate) fn all_stand(standing: &mut Vec<Subscription>, granted: Vec<Subscription>)
    requires { vec_len standing.old + vec_len granted ≤ vec_capacity standing.old }
    ensures { standing.new.items ≡ all_stand standing.old.items granted.items }
{
    for one in granted {
        let_stand(standing, one);
    }
}

/// Ends the filters that stand for the connection.
pub(crate) fn all_ended(standing: &mut Vec<Subscription>, conn: u32, filters: &[Octets])
    ensures { standing.new.items ≡ all_ended conn standing.old.items filters.now }
{
    for filter in filters {
        end(standing, conn, filter.as_slice());
    }
}

fn end(standing: &mut Vec<Subscription>, conn: u32, text: &[u8])
    ensures { standing.new.items ≡ ended conn standing.old.items text.now }
{
    standing.retain(|one| !one.is_same(conn, text));
}

/// The packet identifier that the connection was sent last.
pub(crate) fn last_of(peers: &[Peer], conn: u32) -> u16
    ensures { result ≡ last_of peers.now conn }
{
    for peer in peers {
        if peer.is(conn) {
            return peer.last_id;
        }
    }
    0
}

/// The connection was sent this packet identifier last.
pub(crate) fn identify(peers: &mut Vec<Peer>, conn: u32, last_id: u16)
    ensures { peers.new.items ≡ map (identified conn last_id) peers.old.items }
{
    for peer in peers.iter_mut() {
        peer.identify(conn, last_id);
    }
}
