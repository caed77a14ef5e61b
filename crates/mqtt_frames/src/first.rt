//! The first bytes of packets: the packet type in the high four bits, and the flags (MQTT 3.1.1, 2.2.1 and
//! 2.2.2).

/// CONNECT (3.1).
pub const CONNECT: u8 = 0x10;

/// CONNACK (3.2).
pub const CONNECT_ACK: u8 = 0x20;

/// PUBLISH (3.3), whose flags stand in the low four bits.
pub const PUBLISH: u8 = 0x30;

/// PUBACK (3.4).
pub const PUBLISH_ACK: u8 = 0x40;

/// PUBREC (3.5).
pub const PUBLISH_RECEIVED: u8 = 0x50;

/// PUBREL (3.6), with the flags that it must have.
pub const PUBLISH_RELEASE: u8 = 0x62;

/// PUBCOMP (3.7).
pub const PUBLISH_COMPLETE: u8 = 0x70;

/// SUBSCRIBE (3.8), with the flags that it must have.
pub const SUBSCRIBE: u8 = 0x82;

/// SUBACK (3.9).
pub const SUBSCRIBE_ACK: u8 = 0x90;

/// UNSUBSCRIBE (3.10), with the flags that it must have.
pub const UNSUBSCRIBE: u8 = 0xa2;

/// UNSUBACK (3.11).
pub const UNSUBSCRIBE_ACK: u8 = 0xb0;

/// PINGREQ (3.12).
pub const PING_REQUEST: u8 = 0xc0;

/// PINGRESP (3.13).
pub const PING_RESPONSE: u8 = 0xd0;

/// DISCONNECT (3.14).
pub const DISCONNECT: u8 = 0xe0;
