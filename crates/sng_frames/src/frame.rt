//! The messages of MQTT-SN as one type (MQTT-SN 1.2, 5.4).
use crate::{
    Connect, MessageType, Publish, Register, ReturnCode, SubscribeAck, TopicAck, TopicRequest,
    WillTopic,
};
use sng_text::{ClientId, Octets};

/// A message of a client or a gateway.
#[derive(Debug, Drop)]
pub enum SnFrame {
    /// CONNECT (5.4.4).
    Connect(Connect),
    /// CONNACK (5.4.5).
    ConnectAck(ReturnCode),
    /// WILLTOPICREQ (5.4.6).
    WillTopicRequest,
    /// WILLTOPIC (5.4.7). Without a will topic it deletes the will.
    WillTopic(Option<WillTopic>),
    /// WILLMSGREQ (5.4.8).
    WillMessageRequest,
    /// WILLMSG, with the will's message (5.4.9).
    WillMessage(Octets),
    /// REGISTER (5.4.10).
    Register(Register),
    /// REGACK (5.4.11).
    RegisterAck(TopicAck),
    /// PUBLISH (5.4.12).
    Publish(Publish),
    /// PUBACK (5.4.13).
    PublishAck(TopicAck),
    /// PUBCOMP, with its MsgId (5.4.14).
    PublishComplete(u16),
    /// PUBREC, with its MsgId (5.4.14).
    PublishReceived(u16),
    /// PUBREL, with its MsgId (5.4.14).
    PublishRelease(u16),
    /// SUBSCRIBE (5.4.15).
    Subscribe(TopicRequest),
    /// SUBACK (5.4.16).
    SubscribeAck(SubscribeAck),
    /// UNSUBSCRIBE (5.4.17).
    Unsubscribe(TopicRequest),
    /// UNSUBACK, with its MsgId (5.4.18).
    UnsubscribeAck(u16),
    /// PINGREQ, with the client's id where it has one (5.4.19).
    PingRequest(Option<ClientId>),
    /// PINGRESP (5.4.20).
    PingResponse,
    /// DISCONNECT, with its Duration in seconds where it has one (5.4.21).
    Disconnect(Option<u16>),
    /// WILLTOPICUPD (5.4.22). Without a will topic it deletes the will.
    WillTopicUpdate(Option<WillTopic>),
    /// WILLTOPICRESP (5.4.24).
    WillTopicResponse(ReturnCode),
    /// WILLMSGUPD, with the will's message (5.4.23).
    WillMessageUpdate(Octets),
    /// WILLMSGRESP (5.4.25).
    WillMessageResponse(ReturnCode),
}

impl SnFrame {
    ghost use Rattle.std.specs.Prelude.{◌≡◌};
    ghost use Rattle.sng_frames.specs.Grammar.{type_of};

    /// The type of the message.
    pub fn message_type(&self) -> MessageType
        ensures { result ≡ type_of self.now }
    {
        match self {
            SnFrame::Connect(_) => MessageType::Connect,
            SnFrame::ConnectAck(_) => MessageType::ConnectAck,
            SnFrame::WillTopicRequest => MessageType::WillTopicRequest,
            SnFrame::WillTopic(_) => MessageType::WillTopic,
            SnFrame::WillMessageRequest => MessageType::WillMessageRequest,
            SnFrame::WillMessage(_) => MessageType::WillMessage,
            SnFrame::Register(_) => MessageType::Register,
            SnFrame::RegisterAck(_) => MessageType::RegisterAck,
            SnFrame::Publish(_) => MessageType::Publish,
            SnFrame::PublishAck(_) => MessageType::PublishAck,
            SnFrame::PublishComplete(_) => MessageType::PublishComplete,
            SnFrame::PublishReceived(_) => MessageType::PublishReceived,
            SnFrame::PublishRelease(_) => MessageType::PublishRelease,
            SnFrame::Subscribe(_) => MessageType::Subscribe,
            SnFrame::SubscribeAck(_) => MessageType::SubscribeAck,
            SnFrame::Unsubscribe(_) => MessageType::Unsubscribe,
            SnFrame::UnsubscribeAck(_) => MessageType::UnsubscribeAck,
            SnFrame::PingRequest(_) => MessageType::PingRequest,
            SnFrame::PingResponse => MessageType::PingResponse,
            SnFrame::Disconnect(_) => MessageType::Disconnect,
            SnFrame::WillTopicUpdate(_) => MessageType::WillTopicUpdate,
            SnFrame::WillTopicResponse(_) => MessageType::WillTopicResponse,
            SnFrame::WillMessageUpdate(_) => MessageType::WillMessageUpdate,
            SnFrame::WillMessageResponse(_) => MessageType::WillMessageResponse,
        }
    }
}
