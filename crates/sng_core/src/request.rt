//! What a message of a client asks of the gateway (MQTT-SN 1.2, 5.4): a form of a message that is taken is a
//! request of its own.
ghost use Rattle.std.specs.Prelude.{◌≡◌};
ghost use Rattle.sng_book.specs.declared.address.Address.{Address};
ghost use Rattle.sng_history.specs.Causes.{frame_cause, publish_cause, disconnect_cause};
ghost use Rattle.sng_core.specs.Requesting.{caused};

use crate::stating::Statement;
use sng_frames::{Connect, FrameQos, Publish, Register, SnFrame, TopicAck, TopicRequest};
use sng_text::ClientId;

/// What a message of a session is about, where it is no CONNECT.
#[derive(Debug, Drop)]
pub enum SessionRequest {
    /// A PINGREQ, with the client's id where it has one.
    Ping(Option<ClientId>),
    /// A DISCONNECT without Duration.
    Leave,
    /// A DISCONNECT with a Duration, in seconds.
    Sleep(u16),
    /// A REGISTER.
    Register(Register),
    /// A PUBLISH at QoS 0 or 1.
    Publish(Publish),
    /// A PUBLISH at QoS 2.
    PublishOnce(Publish),
    /// A PUBREL, with the MsgId of the publish that it releases.
    Release(u16),
    /// A SUBSCRIBE.
    Subscribe(TopicRequest),
    /// An UNSUBSCRIBE.
    Unsubscribe(TopicRequest),
    /// A REGACK, by which a client answers an announcement.
    Confirm(TopicAck),
    /// A PUBACK.
    Acknowledge(TopicAck),
    /// A message about the client's will.
    State(Statement),
    /// A message of a type or form that is not taken.
    Untaken(SnFrame),
}

/// What a message is: one that lets a client in, one without a session, or one of a session.
#[derive(Debug, Drop)]
pub enum Asked {
    /// A CONNECT.
    Entry(Connect),
    /// A PUBLISH without a session.
    Source(Publish),
    /// Any other message.
    Request(SessionRequest),
}

/// What the message asks. Takes no memory.
pub fn ask_of(frame: SnFrame) -> Asked
    ensures { (from : Address) → frame_cause from frame ≡ caused from result }
{
    // An arm for each message: a new one is not passed over.
    match frame {
        SnFrame::Connect(connect) => Asked::Entry(connect),
        SnFrame::Publish(publish) => published(publish),
        SnFrame::PingRequest(client) => Asked::Request(SessionRequest::Ping(client)),
        SnFrame::Disconnect(duration) => Asked::Request(disconnected(duration)),
        SnFrame::ConnectAck(code) => untaken(SnFrame::ConnectAck(code)),
        SnFrame::WillTopicRequest => untaken(SnFrame::WillTopicRequest),
        SnFrame::WillTopic(topic) => stated(Statement::Topic(topic)),
        SnFrame::WillMessageRequest => untaken(SnFrame::WillMessageRequest),
        SnFrame::WillMessage(message) => stated(Statement::Message(message)),
        SnFrame::Register(register) => Asked::Request(SessionRequest::Register(register)),
        SnFrame::RegisterAck(answer) => Asked::Request(SessionRequest::Confirm(answer)),
        SnFrame::PublishAck(answer) => Asked::Request(SessionRequest::Acknowledge(answer)),
        SnFrame::PublishComplete(id) => untaken(SnFrame::PublishComplete(id)),
        SnFrame::PublishReceived(id) => untaken(SnFrame::PublishReceived(id)),
        SnFrame::PublishRelease(id) => Asked::Request(SessionRequest::Release(id)),
        SnFrame::Subscribe(request) => Asked::Request(SessionRequest::Subscribe(request)),
        SnFrame::SubscribeAck(answer) => untaken(SnFrame::SubscribeAck(answer)),
        SnFrame::Unsubscribe(request) => Asked::Request(SessionRequest::Unsubscribe(request)),
        SnFrame::UnsubscribeAck(id) => untaken(SnFrame::UnsubscribeAck(id)),
        SnFrame::PingResponse => untaken(SnFrame::PingResponse),
        SnFrame::WillTopicUpdate(topic) => stated(Statement::TopicUpdate(topic)),
        SnFrame::WillTopicResponse(code) => untaken(SnFrame::WillTopicResponse(code)),
        SnFrame::WillMessageUpdate(message) => stated(Statement::MessageUpdate(message)),
        SnFrame::WillMessageResponse(code) => untaken(SnFrame::WillMessageResponse(code)),
    }
}

/// A PUBLISH, by its QoS.
fn published(publish: Publish) -> Asked
    ensures { (from : Address) → publish_cause from publish publish.flags.qos ≡ caused from result }
{
    match publish.flags.qos {
        FrameQos::WithoutSession => Asked::Source(publish),
        FrameQos::AtMostOnce => Asked::Request(SessionRequest::Publish(publish)),
        FrameQos::AtLeastOnce => Asked::Request(SessionRequest::Publish(publish)),
        FrameQos::ExactlyOnce => Asked::Request(SessionRequest::PublishOnce(publish)),
    }
}

/// A DISCONNECT: by one with Duration the client falls asleep, and by any other it leaves.
fn disconnected(duration: Option<u16>) -> SessionRequest
    ensures { (from : Address) → disconnect_cause from duration ≡ caused from (Asked.Request result) }
{
    match duration {
        None => SessionRequest::Leave,
        Some(duration) => SessionRequest::Sleep(duration),
    }
}

/// What a client states of its will.
fn stated(statement: Statement) -> Asked
    ensures { result ≡ Asked.Request (SessionRequest.State statement) }
{
    Asked::Request(SessionRequest::State(statement))
}

/// A message of a type or form that is not taken.
fn untaken(message: SnFrame) -> Asked
    ensures { result ≡ Asked.Request (SessionRequest.Untaken message) }
{
    Asked::Request(SessionRequest::Untaken(message))
}
