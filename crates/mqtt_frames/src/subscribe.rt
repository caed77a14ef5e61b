//! SUBSCRIBE and its SUBACK (MQTT 3.1.1, 3.8 and 3.9): reading, size and writing.
ghost use Rattle.std.specs.Prelude.{◌≡◌, ◌+◌, ◌<◌, ◌≤◌, ◌++◌, length, IfOk, OnOk, SomeIff};
ghost use Rattle.mqtt_frames.specs.Parts.{requested_qos, subscribe_of_parts};
ghost use Rattle.mqtt_frames.specs.Packets.{body, written, qos_byte, code_byte, requests_bytes, codes_bytes};
ghost use Rattle.mqtt_frames.specs.Reading.{Gives, qos_of, code_of, codes_of, items_of, request_at};
ghost use Rattle.mqtt_frames.specs.Reading.{subscribe_of, subscribe_ack_of};

use crate::limits::MAX_PACKET;
use crate::read_fault::ReadFault;
use crate::{
    List, Packet, PacketFault, Request, RequestedQos, Subscribe, SubscribeAck, SubscribeCode,
    fields, first, remaining,
};
use sng_text::{Qos, TopicFilter, WireBytes};
use std::alloc::{AllocError, Global};

/// A SUBSCRIBE by its variable header and payload.
pub fn subscribe_of(alloc: Global, body: &[u8]) -> Result<Packet, ReadFault>
    ensures { Gives (λ packet. packet) result (subscribe_of body.now) }
{
    let (packet_id, rest) = fields::id_at(body)?;
    if rest.is_empty() {
        return Err(ReadFault::Packet(PacketFault::Malformed));
    }
    let requests = requests_of(alloc, rest)?;
    Ok(Packet::Subscribe(Subscribe {
        packet_id,
        requests: List::from(requests),
    }))
}

/// Topic filters, each with its level, up to the last byte (3.8.3).
fn requests_of(alloc: Global, bytes: &[u8]) -> Result<Vec<Request>, ReadFault>
    ensures { Gives (λ v. v.items) result (items_of request_at bytes.now) }
{
    let mut requests = Vec::new(alloc);
    let mut rest = bytes;
    while !rest.is_empty() {
        let (request, behind) = request_at(alloc, rest)?;
        requests.push(request)?;
        rest = behind;
    }
    Ok(requests)
}

fn request_at(alloc: Global, bytes: &[u8]) -> Result<(Request, &[u8]), ReadFault>
    ensures { Gives (λ x. (x.0, x.1.now)) result (request_at bytes.now) }
{
    let (filter, rest) = fields::text_at(bytes)?;
    match rest {
        [] => Err(ReadFault::Packet(PacketFault::Malformed)),
        [byte, rest @ ..] => {
            let qos = qos_of(*byte)?;
            let filter = fields::octets_of(alloc, filter)?;
            Ok((Request { filter, qos }, rest))
        }
    }
}

/// A level by its byte (3.8.3.1).
fn qos_of(byte: u8) -> Result<RequestedQos, PacketFault>
    ensures { result ≡ qos_of byte }
{
    match byte {
        0 => Ok(RequestedQos::AtMostOnce),
        1 => Ok(RequestedQos::AtLeastOnce),
        2 => Ok(RequestedQos::ExactlyOnce),
        _ => Err(PacketFault::Malformed),
    }
}

/// The byte of a level (3.8.3.1).
fn qos_byte(qos: RequestedQos) -> u8
    ensures { result ≡ qos_byte qos }
{
    match qos {
        RequestedQos::AtMostOnce => 0,
        RequestedQos::AtLeastOnce => 1,
        RequestedQos::ExactlyOnce => 2,
    }
}

/// How many bytes a packet identifier takes with these requests; none where they are more than `MAX_PACKET`.
pub fn size(requests: &[Request]) -> Option<usize>
    ensures { SomeIff result (2 + length (requests_bytes requests.now) ≤ MAX_PACKET)
        (2 + length (requests_bytes requests.now)) }
{
    let mut size = 2;
    for request in requests {
        size += 3 + request.filter.as_slice().len();
        if size > MAX_PACKET {
            return None;
        }
    }
    Some(size)
}

/// Puts the variable header and the payload of a SUBSCRIBE behind the other bytes.
pub fn push(bytes: &mut Vec<u8>, subscribe: &Subscribe) -> Result<(), AllocError>
    ensures { OnOk result (bytes.new.items ≡ bytes.old.items ++ body (Packet.Subscribe subscribe.now)) }
{
    fields::push_number(bytes, usize::from(subscribe.packet_id))?;
    push_requests(bytes, subscribe.requests.as_slice())
}

fn push_requests(bytes: &mut Vec<u8>, requests: &[Request]) -> Result<(), AllocError>
    ensures { OnOk result (bytes.new.items ≡ bytes.old.items ++ requests_bytes requests.now) }
{
    for request in requests {
        fields::push_text(bytes, request.filter.as_slice())?;
        bytes.push(qos_byte(request.qos))?;
    }
    Ok(())
}

/// A SUBSCRIBE of one filter, under a packet identifier that is not 0. Allocates once.
pub fn encode_subscribe(
    alloc: Global,
    packet_id: u16,
    filter: &TopicFilter,
    qos: Qos,
) -> Result<WireBytes, AllocError>
    requires { 0 < packet_id }
    ensures { IfOk result (λ o. o ≡ written (subscribe_of_parts packet_id filter.now qos)) }
{
    let filter = filter.text();
    let mut bytes = remaining::front(alloc, first::SUBSCRIBE, 5 + filter.len())?;
    fields::push_number(&mut bytes, usize::from(packet_id))?;
    fields::push_text(&mut bytes, filter)?;
    bytes.push(qos_byte(requested_qos(qos)))?;
    Ok(WireBytes::from(bytes))
}

fn requested_qos(qos: Qos) -> RequestedQos
    ensures { result ≡ requested_qos qos }
{
    match qos {
        Qos::AtMostOnce => RequestedQos::AtMostOnce,
        Qos::AtLeastOnce => RequestedQos::AtLeastOnce,
    }
}

/// A SUBACK by its variable header and payload.
pub fn subscribe_ack_of(alloc: Global, body: &[u8]) -> Result<Packet, ReadFault>
    ensures { Gives (λ packet. packet) result (subscribe_ack_of body.now) }
{
    let (packet_id, rest) = fields::id_at(body)?;
    if rest.is_empty() {
        return Err(ReadFault::Packet(PacketFault::Malformed));
    }
    let codes = codes_of(alloc, rest)?;
    Ok(Packet::SubscribeAck(SubscribeAck {
        packet_id,
        codes: List::from(codes),
    }))
}

/// Answers to requests, up to the last byte (3.9.3).
fn codes_of(alloc: Global, bytes: &[u8]) -> Result<Vec<SubscribeCode>, ReadFault>
    ensures { Gives (λ v. v.items) result (codes_of bytes.now) }
{
    let mut codes = Vec::with_capacity(alloc, bytes.len())?;
    for byte in bytes {
        codes.push(code_of(*byte)?)?;
    }
    Ok(codes)
}

fn code_of(byte: u8) -> Result<SubscribeCode, PacketFault>
    ensures { result ≡ code_of byte }
{
    if byte == 0x80 {
        return Ok(SubscribeCode::Refused);
    }
    let qos = qos_of(byte)?;
    Ok(SubscribeCode::Granted(qos))
}

fn code_byte(code: SubscribeCode) -> u8
    ensures { result ≡ code_byte code }
{
    match code {
        SubscribeCode::Granted(qos) => qos_byte(qos),
        SubscribeCode::Refused => 0x80,
    }
}

/// How many bytes a packet identifier takes with these answers; none where they are more than `MAX_PACKET`.
pub fn ack_size(codes: &[SubscribeCode]) -> Option<usize>
    ensures { SomeIff result (2 + length (codes_bytes codes.now) ≤ MAX_PACKET)
        (2 + length (codes_bytes codes.now)) }
{
    fields::within(2 + codes.len())
}

/// Puts the variable header and the payload of a SUBACK behind the other bytes.
pub fn push_ack(bytes: &mut Vec<u8>, answer: &SubscribeAck) -> Result<(), AllocError>
    ensures { OnOk result (bytes.new.items ≡ bytes.old.items ++ body (Packet.SubscribeAck answer.now)) }
{
    fields::push_number(bytes, usize::from(answer.packet_id))?;
    push_codes(bytes, answer.codes.as_slice())
}

fn push_codes(bytes: &mut Vec<u8>, codes: &[SubscribeCode]) -> Result<(), AllocError>
    ensures { OnOk result (bytes.new.items ≡ bytes.old.items ++ codes_bytes codes.now) }
{
    for code in codes {
        bytes.push(code_byte(*code))?;
    }
    Ok(())
}
