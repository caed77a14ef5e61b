//! The Flags octet (MQTT-SN 1.2, 5.3.4), all eight bits of it.
ghost use Rattle.std.specs.Prelude.{◌≡◌};
ghost use Rattle.sng_frames.specs.FlagsOctet.{qos_of, qos_bits, id_type_of, id_type_bits, bit};

use crate::FrameQos;

/// What a TopicId field holds.
#[derive(Clone, Copy, Debug, PartialEq, Eq)]
pub enum TopicIdType {
    /// A registered topic id, or in place of the field a topic's text; bits 00.
    Normal,
    /// A predefined topic id; bits 01.
    Predefined,
    /// A topic name of two octets; bits 10.
    Short,
    /// Bits 11, which the standard reserves.
    Reserved,
}

/// The fields of a Flags octet.
#[derive(Clone, Copy, Debug, PartialEq, Eq)]
pub struct Flags {
    /// Whether the message is sent again; bit 7.
    pub dup: bool,
    /// Bits 6 and 5.
    pub qos: FrameQos,
    /// Whether the message is kept; bit 4.
    pub retain: bool,
    /// Whether a will is asked for; bit 3.
    pub will: bool,
    /// CleanSession; bit 2.
    pub clean: bool,
    /// TopicIdType; bits 1 and 0.
    pub id_type: TopicIdType,
}

impl Flags {
    ghost use Rattle.std.specs.Prelude.{◌≡◌};
    ghost use Rattle.sng_frames.specs.FlagsOctet.{flags_of, flags_octet};

    /// The fields that the octet holds.
    pub fn from_octet(octet: u8) -> Flags
        ensures { result ≡ flags_of octet }
    {
        Flags {
            dup: octet / 0x80 % 2 == 1,
            qos: qos_of(octet / 0x20 % 4),
            retain: octet / 0x10 % 2 == 1,
            will: octet / 0x08 % 2 == 1,
            clean: octet / 0x04 % 2 == 1,
            id_type: id_type_of(octet % 4),
        }
    }

    /// The octet that holds the fields.
    pub fn octet(self) -> u8
        ensures { result ≡ flags_octet self }
    {
        bit(self.dup, 0x80)
            + qos_bits(self.qos)
            + bit(self.retain, 0x10)
            + bit(self.will, 0x08)
            + bit(self.clean, 0x04)
            + id_type_bits(self.id_type)
    }
}

fn qos_of(bits: u8) -> FrameQos
    ensures { result ≡ qos_of bits }
{
    match bits {
        0 => FrameQos::AtMostOnce,
        1 => FrameQos::AtLeastOnce,
        2 => FrameQos::ExactlyOnce,
        _ => FrameQos::WithoutSession,
    }
}

fn id_type_of(bits: u8) -> TopicIdType
    ensures { result ≡ id_type_of bits }
{
    match bits {
        0 => TopicIdType::Normal,
        1 => TopicIdType::Predefined,
        2 => TopicIdType::Short,
        _ => TopicIdType::Reserved,
    }
}

fn bit(is_set: bool, weight: u8) -> u8
    ensures { result ≡ bit is_set weight }
{
    if is_set { weight } else { 0 }
}

fn qos_bits(qos: FrameQos) -> u8
    ensures { result ≡ qos_bits qos }
{
    match qos {
        FrameQos::AtMostOnce => 0x00,
        FrameQos::AtLeastOnce => 0x20,
        FrameQos::ExactlyOnce => 0x40,
        FrameQos::WithoutSession => 0x60,
    }
}

fn id_type_bits(id_type: TopicIdType) -> u8
    ensures { result ≡ id_type_bits id_type }
{
    match id_type {
        TopicIdType::Normal => 0x00,
        TopicIdType::Predefined => 0x01,
        TopicIdType::Short => 0x02,
        TopicIdType::Reserved => 0x03,
    }
}
