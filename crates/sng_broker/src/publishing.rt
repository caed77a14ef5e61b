//! A message on its way to all connections.
ghost use Rattle.std.specs.Prelude.{◌≡◌, ◌<◌, ◌++◌, map, vec_len, vec_capacity, IfOk, OnOk};
ghost use Rattle.std.specs.List.{list_any};
ghost use Rattle.sng_broker.specs.Brokers.{retained, fits_surely};
ghost use Rattle.sng_broker.specs.Steps.{copy_for, counted, fan_out, gets, gets_surely, qos_of};

use crate::parts::{Message, Peer, Subscription, id_for, is_at_least_once, last_after};
use mqtt_frames::Packet;
use sng_text::{Qos, TopicName};
use std::alloc::{AllocError, Global};

/// What is sent: each packet with the connection to which it goes.
pub(crate) type Outs = Vec<(u32, Packet)>;

/// Whether some filter of the connection matches.
fn gets(standing: &[Subscription], message: &Message, conn: u32) -> bool
    ensures { result ≡ gets standing.now message.now conn }
{
    standing.iter().any(|one| one.fits(conn, &message.name))
}

/// Whether the connection gets the message at QoS 1.
fn gets_surely(standing: &[Subscription], message: &Message, conn: u32) -> bool
    ensures { result ≡ gets_surely standing.now message.now conn }
{
    is_at_least_once(message.qos) && is_granted_surely(standing, &message.name, conn)
}

/// Whether QoS 1 was granted for some filter of the connection that matches.
fn is_granted_surely(standing: &[Subscription], name: &TopicName, conn: u32) -> bool
    ensures { result ≡ list_any (fits_surely conn name.now) standing.now }
{
    standing.iter().any(|one| one.fits_surely(conn, name))
}

fn send_copy(
    alloc: Global,
    outs: &mut Outs,
    standing: &[Subscription],
    message: &Message,
    peer: &Peer,
) -> Result<(), AllocError>
    ensures { OnOk result (outs.new.items ≡ outs.old.items ++ copy_for standing.now message.now peer.now) }
{
    if !gets(standing, message, peer.conn) {
        return Ok(());
    }
    let surely = gets_surely(standing, message, peer.conn);
    let packet = message.packet(alloc, false, id_for(surely, peer.last_id))?;
    outs.push((peer.conn, packet))?;
    Ok(())
}

/// A copy of the message for each connection with a filter that matches.
pub(crate) fn fan_out(
    alloc: Global,
    standing: &[Subscription],
    message: &Message,
    peers: &[Peer],
) -> Result<Outs, AllocError>
    ensures { IfOk result (λ outs. outs.items ≡ fan_out standing.now message.now peers.now) }
{
    let mut outs = Vec::new(alloc);
    for peer in peers {
        send_copy(alloc, &mut outs, standing, message, peer)?;
    }
    Ok(outs)
}

/// Counts the packet identifiers of those copies.
pub(crate) fn count_copies(peers: &mut Vec<Peer>, standing: &[Subscription], message: &Message)
    ensures { peers.new.items ≡ map (counted standing.now message.now) peers.old.items }
{
    for peer in peers.iter_mut() {
        count_copy(peer, standing, message);
    }
}

fn count_copy(peer: &mut Peer, standing: &[Subscription], message: &Message)
    ensures { peer.new ≡ counted standing.now message.now peer.old }
{
    let surely = gets_surely(standing, message, peer.conn);
    peer.last_id = last_after(surely, peer.last_id);
}

/// Retains the message in place of the one under its name.
pub(crate) fn retain(kept: &mut Vec<Message>, message: Message)
    requires { vec_len kept.old < vec_capacity kept.old }
    ensures { kept.new.items ≡ retained kept.old.items message }
{
    kept.retain(|one| one.name.text() != message.name.text());
    if !message.payload.is_empty() {
        kept.push_reserved(message);
    }
}

pub(crate) fn qos_of(packet_id: Option<u16>) -> Qos
    ensures { result ≡ qos_of packet_id }
{
    match packet_id {
        None => Qos::AtMostOnce,
        Some(_) => Qos::AtLeastOnce,
    }
}
