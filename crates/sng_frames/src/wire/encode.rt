//! Encoding a frame as a datagram (MQTT-SN 1.2, 5.2 to 5.4).
ghost use Rattle.std.specs.Prelude.{◌≡◌, ◌≢◌, ◌+◌, ◌≤◌, ◌<◌, ◌↔◌, true, Err, IfOk, length};
ghost use Rattle.sng_frames.specs.Grammar.{IsInRange, Spells, TopicFits};
ghost use Rattle.sng_frames.specs.Parts.{topic_fits};
ghost use Rattle.sng_frames.specs.Writing.{written, part_of, HasNoSpelling};
ghost use Rattle.sng_frames.specs.declared.limits.TheConstants.{MAX_DATAGRAM};

use crate::messages::{acks, connect, disconnect, ping, publish, register, subscribe, will};
use crate::wire::framing;
use crate::{FrameFault, MAX_DATAGRAM, SnFrame};
use sng_text::WireBytes;
use std::alloc::{AllocError, Global};

/// The datagram that a frame is sent as, with the shortest Length. Allocates once.
///
/// `TooLong`: it has more than `MAX_DATAGRAM` octets. `Malformed`: no bytes spell the frame, which is a
/// SUBSCRIBE or an UNSUBSCRIBE whose topic does not have the two octets that its TopicIdType asks for.
/// `Memory`: the allocation failed.
pub fn encode(alloc: Global, frame: &SnFrame) -> Result<WireBytes, FrameFault>
    ensures written { IfOk result (λ o. o ≡ written frame.now) }
    ensures spelled { IfOk result (λ o. Spells frame.now o) }
    ensures fits { IfOk result (λ o. length o ≤ MAX_DATAGRAM) }
    ensures too_long { (result ≡ Err FrameFault.TooLong) ↔ (MAX_DATAGRAM < length (written frame.now)) }
    ensures malformed { (result ≡ Err FrameFault.Malformed) ↔ HasNoSpelling frame.now }
    ensures supported { result ≢ Err FrameFault.NotSupported }
{
    if part_size(frame) > MAX_DATAGRAM - framing::LONGEST_FRONT {
        return Err(FrameFault::TooLong);
    }
    if !topic_fits(frame) {
        return Err(FrameFault::Malformed);
    }
    Ok(write(alloc, frame)?)
}

/// How many octets the variable part of a frame has.
fn part_size(frame: &SnFrame) -> usize
    ensures { result ≡ length (part_of frame.now) }
{
    match frame {
        SnFrame::WillTopicRequest | SnFrame::WillMessageRequest | SnFrame::PingResponse => 0,
        SnFrame::ConnectAck(_) | SnFrame::WillTopicResponse(_) | SnFrame::WillMessageResponse(_) =>
            1,
        SnFrame::PublishComplete(_)
        | SnFrame::PublishReceived(_)
        | SnFrame::PublishRelease(_)
        | SnFrame::UnsubscribeAck(_) => 2,
        SnFrame::RegisterAck(_) | SnFrame::PublishAck(_) => acks::TOPIC_ACK_SIZE,
        SnFrame::SubscribeAck(_) => acks::SUBSCRIBE_ACK_SIZE,
        SnFrame::Connect(connect) => connect::size(connect),
        SnFrame::WillTopic(will) | SnFrame::WillTopicUpdate(will) => will::topic_size(will),
        SnFrame::WillMessage(message) | SnFrame::WillMessageUpdate(message) => message.len(),
        SnFrame::Register(register) => register::size(register),
        SnFrame::Publish(publish) => publish::size(publish),
        SnFrame::Subscribe(request) | SnFrame::Unsubscribe(request) => subscribe::size(request),
        SnFrame::PingRequest(client_id) => ping::size(client_id),
        SnFrame::Disconnect(duration) => disconnect::size(duration),
    }
}

/// Whether a topic has as many octets as its type asks for. Where a frame has no such topic, it does.
fn topic_fits(frame: &SnFrame) -> bool
    ensures { result ≡ topic_fits frame.now }
{
    match frame {
        SnFrame::Subscribe(request) | SnFrame::Unsubscribe(request) => {
            subscribe::fits_type(request.flags.id_type, request.topic.as_slice())
        }
        SnFrame::Connect(_)
        | SnFrame::ConnectAck(_)
        | SnFrame::WillTopicRequest
        | SnFrame::WillTopic(_)
        | SnFrame::WillMessageRequest
        | SnFrame::WillMessage(_)
        | SnFrame::Register(_)
        | SnFrame::RegisterAck(_)
        | SnFrame::Publish(_)
        | SnFrame::PublishAck(_)
        | SnFrame::PublishComplete(_)
        | SnFrame::PublishReceived(_)
        | SnFrame::PublishRelease(_)
        | SnFrame::SubscribeAck(_)
        | SnFrame::UnsubscribeAck(_)
        | SnFrame::PingRequest(_)
        | SnFrame::PingResponse
        | SnFrame::Disconnect(_)
        | SnFrame::WillTopicUpdate(_)
        | SnFrame::WillTopicResponse(_)
        | SnFrame::WillMessageUpdate(_)
        | SnFrame::WillMessageResponse(_) => true,
    }
}

/// The datagram of a frame that is not too long, by the writer of its message.
fn write(alloc: Global, frame: &SnFrame) -> Result<WireBytes, AllocError>
    requires { length (part_of frame.now) + 4 ≤ MAX_DATAGRAM }
    ensures answer { IfOk result (λ o. o ≡ written frame.now) }
    ensures in_range { IsInRange frame.now }
{
    let kind = frame.message_type();
    match frame {
        SnFrame::Connect(connect) => connect::write(alloc, connect),
        SnFrame::ConnectAck(code) => acks::write_connect_ack(alloc, *code),
        SnFrame::WillTopicRequest => will::write_will_topic_request(alloc),
        SnFrame::WillTopic(will) | SnFrame::WillTopicUpdate(will) => {
            will::write_topic(alloc, kind, will)
        }
        SnFrame::WillMessageRequest => will::write_will_message_request(alloc),
        SnFrame::WillMessage(message) | SnFrame::WillMessageUpdate(message) => {
            framing::frame(alloc, kind, &[], message.as_slice())
        }
        SnFrame::Register(register) => register::write_register(
            alloc,
            register.topic_id,
            register.msg_id,
            register.name.as_slice(),
        ),
        SnFrame::RegisterAck(ack) | SnFrame::PublishAck(ack) => {
            acks::write_topic_ack(alloc, kind, *ack)
        }
        SnFrame::Publish(publish) => publish::write_publish(
            alloc,
            publish.flags,
            publish.topic_id,
            publish.msg_id,
            publish.payload.as_slice(),
        ),
        SnFrame::PublishComplete(msg_id) => acks::write_publish_complete(alloc, *msg_id),
        SnFrame::PublishReceived(msg_id) => acks::write_publish_received(alloc, *msg_id),
        SnFrame::PublishRelease(msg_id) => acks::write_publish_release(alloc, *msg_id),
        SnFrame::Subscribe(request) | SnFrame::Unsubscribe(request) => {
            subscribe::write(alloc, kind, request)
        }
        SnFrame::SubscribeAck(ack) => acks::write_subscribe_ack(alloc, *ack),
        SnFrame::UnsubscribeAck(msg_id) => acks::write_unsubscribe_ack(alloc, *msg_id),
        SnFrame::PingRequest(client_id) => ping::write(alloc, client_id),
        SnFrame::PingResponse => ping::write_ping_response(alloc),
        SnFrame::Disconnect(duration) => disconnect::write_disconnect(alloc, *duration),
        SnFrame::WillTopicResponse(code) => will::write_will_topic_response(alloc, *code),
        SnFrame::WillMessageResponse(code) => will::write_will_message_response(alloc, *code),
    }
}
