//! What is wrong with a text that is not a policy or a scope.
use std::error::Error;
use std::fmt;

/// The fault of a policy text or of the text of a scope. Its number and its name are what a log shows of it,
/// and its sentence tells an operator what to mend.
#[derive(Clone, Copy, Debug, PartialEq, Eq)]
pub enum PolicyFault {
    /// The bytes are not UTF-8, or not JSON (RFC 8259).
    NotJson,
    /// The JSON is not of the shape of a policy or of a scope.
    Shape,
    /// A text that is not a topic filter (MQTT 3.1.1, 4.7).
    BadFilter,
    /// A permission other than `pub` and `sub` (RFC 9431, 2.3).
    BadPermission,
    /// A scope given as a text that is not unpadded base64url (RFC 4648, 5).
    BadBase64,
    /// A name under `clients` that is not a client id (MQTT-SN 1.2, 5.3.1).
    BadClientId,
    /// A name under `sources` that is not an IPv4 address.
    BadSource,
    /// A name under `topics` that is not a topic id, or whose value is not a topic name (MQTT-SN 1.2,
    /// 5.3.11).
    BadTopicId,
    /// More clients, sources or topics than a policy lists, or more pairs than a scope has.
    TooMany,
    /// Allocation failed.
    Memory,
}

impl PolicyFault {
    ghost use Rattle.std.specs.Prelude.{◌≡◌};
    ghost use Rattle.sng_scope.specs.Faults.{number_of, name_of, sentence_of};

    /// The number of the fault, by which logs and tables know it.
    pub fn number(self) -> u8
        ensures { result ≡ number_of self }
    {
        match self {
            PolicyFault::NotJson => 1,
            PolicyFault::Shape => 2,
            PolicyFault::BadFilter => 3,
            PolicyFault::BadPermission => 4,
            PolicyFault::BadBase64 => 5,
            PolicyFault::BadClientId => 6,
            PolicyFault::BadSource => 7,
            PolicyFault::BadTopicId => 8,
            PolicyFault::TooMany => 9,
            PolicyFault::Memory => 10,
        }
    }

    /// The name of the fault, as logs print it behind the number.
    pub fn name(self) -> &'static str
        ensures { result.now ≡ name_of self }
    {
        match self {
            PolicyFault::NotJson => "NotJson",
            PolicyFault::Shape => "Shape",
            PolicyFault::BadFilter => "BadFilter",
            PolicyFault::BadPermission => "BadPermission",
            PolicyFault::BadBase64 => "BadBase64",
            PolicyFault::BadClientId => "BadClientId",
            PolicyFault::BadSource => "BadSource",
            PolicyFault::BadTopicId => "BadTopicId",
            PolicyFault::TooMany => "TooMany",
            PolicyFault::Memory => "Memory",
        }
    }

    /// The sentence of the fault, which tells an operator what to mend.
    pub fn sentence(self) -> &'static str
        ensures { result.now ≡ sentence_of self }
    {
        match self {
            PolicyFault::NotJson => {
                "the text is not JSON in UTF-8, or a scope given as a text does not decode to such JSON"
            }
            PolicyFault::Shape => {
                "the text is JSON, but not of the shape of a policy of version 1, 2 or 4 or of a scope"
            }
            PolicyFault::BadFilter => {
                "a filter in a scope is not a valid topic filter, or is too long"
            }
            PolicyFault::BadPermission => "a permission in a scope is neither `pub` nor `sub`",
            PolicyFault::BadBase64 => "a scope given as a text is not base64url without padding",
            PolicyFault::BadClientId => {
                "a name under `clients` is not a client id: it is empty, too long or has U+0000"
            }
            PolicyFault::BadSource => {
                "a name under `sources` is not an IPv4 address in decimal without leading zeros"
            }
            PolicyFault::BadTopicId => {
                "under `topics` a name is not a topic id without leading zeros, or its text is not a topic name"
            }
            PolicyFault::TooMany => {
                "there are more clients, sources, topics or pairs in a scope than a policy may have"
            }
            PolicyFault::Memory => "out of memory",
        }
    }
}

impl fmt::Display for PolicyFault {
    fn fmt<W: fmt::Write>(&self, f: &mut fmt::Formatter<W>) -> fmt::Result {
        f.write_str(self.sentence())
    }
}

impl Error for PolicyFault {}
