//! What the first byte of a packet says (MQTT 3.1.1, 2.2): its type and its flags.
ghost use Rattle.std.specs.Prelude.{◌≡◌};
ghost use Rattle.mqtt_frames.specs.Kinds.{kind_of, publish_kind};

use crate::{PacketFault, first};

/// The kinds of packets that are read.
#[derive(Clone, Copy, Debug)]
pub enum Kind {
    /// CONNECT.
    Connect,
    /// CONNACK.
    ConnectAck,
    /// PUBLISH, with its flags.
    Publish(PublishFlags),
    /// PUBACK.
    PublishAck,
    /// SUBSCRIBE.
    Subscribe,
    /// SUBACK.
    SubscribeAck,
    /// UNSUBSCRIBE.
    Unsubscribe,
    /// UNSUBACK.
    UnsubscribeAck,
    /// PINGREQ.
    PingRequest,
    /// PINGRESP.
    PingResponse,
    /// DISCONNECT.
    Disconnect,
}

/// The flags of a PUBLISH (3.3.1).
#[derive(Clone, Copy, Debug)]
pub struct PublishFlags {
    /// Whether the packet is sent again.
    pub dup: bool,
    /// Whether it has a packet identifier: QoS 1, and else 0.
    pub identified: bool,
    /// Whether the message is kept.
    pub retain: bool,
}

/// The kind of packet that begins with the byte.
///
/// `NotSupported`: a PUBLISH of QoS 2, or one of the three packets that only go with it. `Malformed`: no
/// packet begins so.
pub fn kind_of(byte: u8) -> Result<Kind, PacketFault>
    ensures { result ≡ kind_of byte }
{
    match byte {
        first::CONNECT => Ok(Kind::Connect),
        first::CONNECT_ACK => Ok(Kind::ConnectAck),
        first::PUBLISH_ACK => Ok(Kind::PublishAck),
        first::PUBLISH_RECEIVED | first::PUBLISH_RELEASE | first::PUBLISH_COMPLETE => Err(
            PacketFault::NotSupported,
        ),
        first::SUBSCRIBE => Ok(Kind::Subscribe),
        first::SUBSCRIBE_ACK => Ok(Kind::SubscribeAck),
        first::UNSUBSCRIBE => Ok(Kind::Unsubscribe),
        first::UNSUBSCRIBE_ACK => Ok(Kind::UnsubscribeAck),
        first::PING_REQUEST => Ok(Kind::PingRequest),
        first::PING_RESPONSE => Ok(Kind::PingResponse),
        first::DISCONNECT => Ok(Kind::Disconnect),
        _ => {
            if byte / 16 == 3 {
                publish_kind(byte % 16)
            } else {
                Err(PacketFault::Malformed)
            }
        }
    }
}

/// A PUBLISH with those low four bits.
fn publish_kind(bits: u8) -> Result<Kind, PacketFault>
    ensures { result ≡ publish_kind bits }
{
    let dup = bits / 8 == 1;
    let retain = bits % 2 == 1;
    match bits / 2 % 4 {
        0 => Ok(Kind::Publish(PublishFlags {
            dup,
            identified: false,
            retain,
        })),
        1 => Ok(Kind::Publish(PublishFlags {
            dup,
            identified: true,
            retain,
        })),
        2 => Err(PacketFault::NotSupported),
        _ => Err(PacketFault::Malformed),
    }
}
