//! The MsgType field (MQTT-SN 1.2, 5.2.2): the types of the frames that are decoded and encoded.

/// The type of a message.
#[derive(Clone, Copy, Debug, PartialEq, Eq)]
pub enum MessageType {
    /// CONNECT (5.4.4).
    Connect,
    /// CONNACK (5.4.5).
    ConnectAck,
    /// WILLTOPICREQ (5.4.6).
    WillTopicRequest,
    /// WILLTOPIC (5.4.7).
    WillTopic,
    /// WILLMSGREQ (5.4.8).
    WillMessageRequest,
    /// WILLMSG (5.4.9).
    WillMessage,
    /// REGISTER (5.4.10).
    Register,
    /// REGACK (5.4.11).
    RegisterAck,
    /// PUBLISH (5.4.12).
    Publish,
    /// PUBACK (5.4.13).
    PublishAck,
    /// PUBCOMP (5.4.14).
    PublishComplete,
    /// PUBREC (5.4.14).
    PublishReceived,
    /// PUBREL (5.4.14).
    PublishRelease,
    /// SUBSCRIBE (5.4.15).
    Subscribe,
    /// SUBACK (5.4.16).
    SubscribeAck,
    /// UNSUBSCRIBE (5.4.17).
    Unsubscribe,
    /// UNSUBACK (5.4.18).
    UnsubscribeAck,
    /// PINGREQ (5.4.19).
    PingRequest,
    /// PINGRESP (5.4.20).
    PingResponse,
    /// DISCONNECT (5.4.21).
    Disconnect,
    /// WILLTOPICUPD (5.4.22).
    WillTopicUpdate,
    /// WILLTOPICRESP (5.4.24).
    WillTopicResponse,
    /// WILLMSGUPD (5.4.23).
    WillMessageUpdate,
    /// WILLMSGRESP (5.4.25).
    WillMessageResponse,
}

/// The one table of octets and types: each row becomes an arm of a `match`, by the macro that is named.
macro_rules! each_type {
    ($arms:ident, $value:expr) => {
        $arms! {
            $value;
            0x04 Connect,
            0x05 ConnectAck,
            0x06 WillTopicRequest,
            0x07 WillTopic,
            0x08 WillMessageRequest,
            0x09 WillMessage,
            0x0a Register,
            0x0b RegisterAck,
            0x0c Publish,
            0x0d PublishAck,
            0x0e PublishComplete,
            0x0f PublishReceived,
            0x10 PublishRelease,
            0x12 Subscribe,
            0x13 SubscribeAck,
            0x14 Unsubscribe,
            0x15 UnsubscribeAck,
            0x16 PingRequest,
            0x17 PingResponse,
            0x18 Disconnect,
            0x1a WillTopicUpdate,
            0x1b WillTopicResponse,
            0x1c WillMessageUpdate,
            0x1d WillMessageResponse,
        }
    };
}

macro_rules! type_of {
    ($octet:expr; $($code:literal $name:ident,)*) => {
        match $octet {
            $($code => Some(MessageType::$name),)*
            _ => None,
        }
    };
}

macro_rules! octet_of {
    ($kind:expr; $($code:literal $name:ident,)*) => {
        match $kind {
            $(MessageType::$name => $code,)*
        }
    };
}

impl MessageType {
    ghost use Rattle.std.specs.Prelude.{◌≡◌};
    ghost use Rattle.sng_frames.specs.MessageTypes.{octet_of, type_of_octet};

    /// The type whose octet this is, where there is one.
    pub fn from_octet(octet: u8) -> Option<MessageType>
        ensures { result ≡ type_of_octet octet }
    {
        each_type!(type_of, octet)
    }

    /// The octet of the type.
    pub fn octet(self) -> u8
        ensures { result ≡ octet_of self }
    {
        each_type!(octet_of, self)
    }
}
