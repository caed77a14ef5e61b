//! What it means that a broker refuses a connection (MQTT 3.1.1, 3.2.2.3).
ghost use Rattle.std.specs.Prelude.{◌≡◌};
ghost use Rattle.sng_bounds.specs.Refusals.{code_of, connack_code, meaning_of, refusal_of};

use std::fmt;
use std::fmt::{Display, Formatter, Write};

/// So many bytes a CONNACK has (3.2).
pub const CONNACK_BYTES: usize = 4;

/// Why a broker refuses a connection.
#[derive(Clone, Copy, Debug, PartialEq, Eq)]
pub enum Refusal {
    Version,
    Identifier,
    Unavailable,
    Login,
    NotAuthorized,
    /// A code for which the standard has no meaning.
    Reserved(u8),
}

impl Refusal {
    /// What the code of a CONNACK refuses; nothing where it accepts.
    pub fn of(code: u8) -> Option<Refusal>
        ensures { result ≡ refusal_of code }
    {
        match code {
            0 => None,
            1 => Some(Refusal::Version),
            2 => Some(Refusal::Identifier),
            3 => Some(Refusal::Unavailable),
            4 => Some(Refusal::Login),
            5 => Some(Refusal::NotAuthorized),
            _ => Some(Refusal::Reserved(code)),
        }
    }

    /// The code, as the broker sent it.
    pub fn code(self) -> u8
        ensures { result ≡ code_of self }
    {
        match self {
            Refusal::Version => 1,
            Refusal::Identifier => 2,
            Refusal::Unavailable => 3,
            Refusal::Login => 4,
            Refusal::NotAuthorized => 5,
            Refusal::Reserved(code) => code,
        }
    }

    /// What it means, and what the operator has to know of the gateway.
    pub fn meaning(self) -> &'static str
        ensures { result.now ≡ meaning_of self }
    {
        match self {
            Refusal::Version => "unacceptable protocol version",
            Refusal::Identifier => "identifier rejected",
            Refusal::Unavailable => "server unavailable",
            Refusal::Login => "bad user name or password, and the gateway sends none",
            Refusal::NotAuthorized => "not authorized, and the gateway sends no user name",
            Refusal::Reserved(_) => "a code without a meaning",
        }
    }
}

impl Display for Refusal {
    fn fmt<W: Write>(&self, f: &mut Formatter<W>) -> fmt::Result {
        let (code, meaning) = (self.code(), self.meaning());
        write!(f, "refused with code {code}: {meaning}")
    }
}

/// The code of the CONNACK with which the bytes begin, where they do (3.2).
pub fn connack_code(bytes: &[u8]) -> Option<u8>
    ensures { result ≡ connack_code bytes.now }
{
    match bytes {
        [0x20, 2, _, code, ..] => Some(*code),
        _ => None,
    }
}
