//! Which packets some bytes spell (MQTT 3.1.1, 1.5.3, 2.3.1, 3.8.3, 3.9.3 and 3.10.3).
ghost use Rattle.std.specs.Prelude.{◌≡◌};
ghost use Rattle.mqtt_frames.specs.Spellable.{is_text, is_id, is_optional_id, are_requests, are_filters};
ghost use Rattle.mqtt_frames.specs.Spellable.{has_spelling};
ghost use Rattle.mqtt_frames.specs.Grammar.{IsInRange, IsOptionalInRange};

use crate::{Packet, Request};
use sng_text::Octets;

/// Whether some bytes spell the packet, however many.
pub fn has_spelling(packet: &Packet) -> bool
    ensures value { result ≡ has_spelling packet.now }
    ensures in_range { IsInRange packet.now }
{
    match packet {
        Packet::Connect(connect) => {
            // read, so that its range is known
            let _keep_alive = connect.keep_alive;
            is_text(connect.client_id.as_slice())
        }
        Packet::Publish(publish) => {
            is_optional_id(publish.packet_id) && is_text(publish.name.as_slice())
        }
        Packet::PublishAck(packet_id) | Packet::UnsubscribeAck(packet_id) => *packet_id != 0,
        Packet::Subscribe(subscribe) => {
            let requests = subscribe.requests.as_slice();
            subscribe.packet_id != 0 && !requests.is_empty() && are_requests(requests)
        }
        Packet::SubscribeAck(answer) => {
            answer.packet_id != 0 && !answer.codes.as_slice().is_empty()
        }
        Packet::Unsubscribe(unsubscribe) => {
            let filters = unsubscribe.filters.as_slice();
            unsubscribe.packet_id != 0 && !filters.is_empty() && are_filters(filters)
        }
        Packet::ConnectAck(_) | Packet::PingRequest | Packet::PingResponse | Packet::Disconnect =>
            true,
    }
}

/// The length of a text is a number of two bytes.
fn is_text(text: &[u8]) -> bool
    ensures { result ≡ is_text text.now }
{
    text.len() <= usize::from(u16::MAX)
}

fn is_optional_id(packet_id: Option<u16>) -> bool
    ensures value { result ≡ is_optional_id packet_id }
    ensures in_range { IsOptionalInRange packet_id }
{
    match packet_id {
        None => true,
        Some(packet_id) => packet_id != 0,
    }
}

fn are_requests(requests: &[Request]) -> bool
    ensures { result ≡ are_requests requests.now }
{
    for request in requests {
        if !is_text(request.filter.as_slice()) {
            return false;
        }
    }
    true
}

fn are_filters(filters: &[Octets]) -> bool
    ensures { result ≡ are_filters filters.now }
{
    for filter in filters {
        if !is_text(filter.as_slice()) {
            return false;
        }
    }
    true
}
