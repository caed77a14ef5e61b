//! CONNECT (MQTT 3.1.1, 3.1): reading, size and writing.
ghost use Rattle.std.specs.Prelude.{◌≡◌, ◌<◌, ◌^◌, ◌++◌, ◌∷◌, length, IfOk, OnOk};
ghost use Rattle.mqtt_frames.specs.Packets.{flag, body, protocol, number_bytes, text_bytes, written};
ghost use Rattle.mqtt_frames.specs.Parts.{connect_of_parts};
ghost use Rattle.mqtt_frames.specs.Reading.{Gives, connect_of, connect_rest};

use crate::fields::{self, flag};
use crate::read_fault::ReadFault;
use crate::{Connect, Packet, PacketFault, first, remaining};
use sng_text::WireBytes;
use std::alloc::{AllocError, Global};

/// The protocol name and level that every CONNECT begins with (3.1.2.1 and 3.1.2.2).
pub const PROTOCOL: [u8; 7] = [0, 4, b'M', b'Q', b'T', b'T', 4];

/// A CONNECT by its variable header and payload.
///
/// `NotSupported`: it has other flags than CleanSession.
pub fn connect_of(alloc: Global, body: &[u8]) -> Result<Packet, ReadFault>
    ensures { Gives (λ packet. packet) result (connect_of body.now) }
{
    let Some(behind) = body.strip_prefix(&PROTOCOL) else {
        return Err(ReadFault::Packet(PacketFault::Malformed));
    };
    match behind {
        [] => Err(ReadFault::Packet(PacketFault::Malformed)),
        [0, rest @ ..] => connect_rest(alloc, false, rest),
        [2, rest @ ..] => connect_rest(alloc, true, rest),
        [_, ..] => Err(ReadFault::Packet(PacketFault::NotSupported)),
    }
}

/// What stands behind the flags: keep alive and client identifier (3.1.2.10 and 3.1.3.1).
fn connect_rest(alloc: Global, clean_session: bool, bytes: &[u8]) -> Result<Packet, ReadFault>
    ensures { Gives (λ packet. packet) result (connect_rest clean_session bytes.now) }
{
    let (keep_alive, rest) = fields::number_at(bytes)?;
    let (client_id, rest) = fields::text_at(rest)?;
    if !rest.is_empty() {
        return Err(ReadFault::Packet(PacketFault::Malformed));
    }
    Ok(Packet::Connect(Connect {
        clean_session,
        keep_alive,
        client_id: fields::octets_of(alloc, client_id)?,
    }))
}

/// How many bytes `push` puts.
pub fn size(connect: &Connect) -> usize
    ensures { result ≡ length (body (Packet.Connect connect.now)) }
{
    PROTOCOL.len() + 5 + connect.client_id.as_slice().len()
}

/// Puts the variable header and the payload behind the other bytes.
pub fn push(bytes: &mut Vec<u8>, connect: &Connect) -> Result<(), AllocError>
    ensures { OnOk result (bytes.new.items ≡ bytes.old.items ++ body (Packet.Connect connect.now)) }
{
    push_parts(
        bytes,
        connect.client_id.as_slice(),
        connect.clean_session,
        connect.keep_alive,
    )
}

fn push_parts(
    bytes: &mut Vec<u8>,
    client_id: &[u8],
    clean_session: bool,
    keep_alive: u16,
) -> Result<(), AllocError>
    ensures { OnOk result (bytes.new.items ≡ bytes.old.items
        ++ (protocol ++ (flag clean_session 2 ∷ (number_bytes keep_alive ++ text_bytes client_id.now)))) }
{
    bytes.extend_from_slice(&PROTOCOL)?;
    bytes.push(flag(clean_session, 2))?;
    fields::push_number(bytes, usize::from(keep_alive))?;
    fields::push_text(bytes, client_id)
}

/// A CONNECT without a will, a user name and a password. Allocates once.
pub fn encode_connect(
    alloc: Global,
    client_id: &[u8],
    clean_session: bool,
    keep_alive: u16,
) -> Result<WireBytes, AllocError>
    requires { length client_id.now < 2 ^ 16 }
    ensures { IfOk result (λ o. o ≡ written (connect_of_parts client_id.now clean_session keep_alive)) }
{
    let rest = PROTOCOL.len() + 5 + client_id.len();
    let mut bytes = remaining::front(alloc, first::CONNECT, rest)?;
    push_parts(&mut bytes, client_id, clean_session, keep_alive)?;
    Ok(WireBytes::from(bytes))
}
