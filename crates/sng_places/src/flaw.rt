//! What is wrong at a place in a policy text.
ghost use Rattle.std.specs.Prelude.{◌≡◌};
ghost use Rattle.sng_places.specs.Flaws.{fault_of};

use sng_scope::PolicyFault;
use sng_text::{Octets, TextFault};

/// What is wrong at a place, more exactly than its fault says. Texts that are values come with it; the text
/// of a name stands in its place.
#[derive(Debug, Drop)]
pub enum Flaw {
    /// The whole text is not JSON in UTF-8 (RFC 8259).
    NotJson,
    /// Not an object.
    NotObject,
    /// The policy has no version.
    NoVersion,
    /// The version is not the whole number 1, 2 or 4.
    OtherVersion,
    /// A policy has no member of this name, nor have its limits or the object of a scope and its end.
    UnknownMember,
    /// The object of a scope and its end has no scope.
    NoScope,
    /// Not a whole number of 64 bits.
    NotEnd,
    /// Neither an array of pairs nor a text of base64url.
    NotScope,
    /// Not an array of two.
    NotPair,
    /// Not an array.
    NotArray,
    /// Not a text.
    NotText,
    /// The text is not base64url without padding (RFC 4648, 5).
    Base64(Octets),
    /// The text is base64url of bytes that are not JSON.
    NotEncodedJson(Octets),
    /// The text is not a topic filter, for this reason (MQTT 3.1.1, 4.7).
    Filter(Octets, TextFault),
    /// The text is neither `pub` nor `sub` (RFC 9431, 2.3).
    Permission(Octets),
    /// The name is not a client id, for this reason (MQTT-SN 1.2, 5.3.1).
    ClientId(TextFault),
    /// The name is not an IPv4 address.
    Source,
    /// The name is not a topic id (MQTT-SN 1.2, 5.3.11).
    TopicId,
    /// The text is not a topic name, for this reason (MQTT 3.1.1, 4.7).
    TopicName(Octets, TextFault),
    /// Not a whole number from the first of these to the second.
    NotLimit(usize, usize),
    /// There are so many, and at most so many are allowed.
    TooMany(usize, usize),
}

impl Flaw {
    /// The fault of a policy text with this flaw.
    pub fn fault(&self) -> PolicyFault
        ensures { result ≡ fault_of self.now }
    {
        match self {
            Flaw::NotJson | Flaw::NotEncodedJson(_) => PolicyFault::NotJson,
            Flaw::NotObject
            | Flaw::NoVersion
            | Flaw::OtherVersion
            | Flaw::UnknownMember
            | Flaw::NoScope
            | Flaw::NotEnd
            | Flaw::NotScope
            | Flaw::NotPair
            | Flaw::NotArray
            | Flaw::NotText
            | Flaw::NotLimit(_, _) => PolicyFault::Shape,
            Flaw::Base64(_) => PolicyFault::BadBase64,
            Flaw::Filter(_, _) => PolicyFault::BadFilter,
            Flaw::Permission(_) => PolicyFault::BadPermission,
            Flaw::ClientId(_) => PolicyFault::BadClientId,
            Flaw::Source => PolicyFault::BadSource,
            Flaw::TopicId | Flaw::TopicName(_, _) => PolicyFault::BadTopicId,
            Flaw::TooMany(_, _) => PolicyFault::TooMany,
        }
    }
}
