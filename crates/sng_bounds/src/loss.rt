//! Why a connection to the broker is over, or was never made, as an operator is told it.

use crate::patience::Late;
use crate::refusal::Refusal;
use crate::tries::LASTING_SECONDS;
use std::fmt;
use std::fmt::{Display, Formatter, Write};
use std::io::{Error, ErrorKind};

/// Why a connection is over.
#[derive(Drop)]
pub enum Loss {
    /// The broker closed it.
    Closed,
    /// A call of the system failed.
    Failed(Error),
    /// It was not made in time.
    NotMade,
    /// The broker did not send what it had to.
    Late(Late),
    /// The broker took nothing of what was written.
    Stuck,
    Refused(Refusal),
    /// What came first is no CONNACK.
    NotConnack,
    NotMqtt,
    /// The gateway could not take what came.
    Memory,
    FullBook,
}

impl Loss {
    /// Whether the broker may have ended it for another client with the gateway's id.
    fn may_be_taken_over(&self) -> bool {
        match self {
            Loss::Closed => true,
            Loss::Failed(error) => match error.kind() {
                ErrorKind::ConnectionReset | ErrorKind::BrokenPipe => true,
                _ => false,
            },
            _ => false,
        }
    }
}

impl From<Error> for Loss {
    fn from(error: Error) -> Loss {
        match error.kind() {
            ErrorKind::OutOfMemory => Loss::Memory,
            _ => Loss::Failed(error),
        }
    }
}

impl Display for Loss {
    fn fmt<W: Write>(&self, f: &mut Formatter<W>) -> fmt::Result {
        match self {
            Loss::Closed => f.write_str("closed by the broker"),
            Loss::Failed(error) => error.fmt(f),
            Loss::NotMade => f.write_str("no connection in time"),
            Loss::Late(late) => late.fmt(f),
            Loss::Stuck => f.write_str("the broker took nothing in 10 s"),
            Loss::Refused(refusal) => refusal.fmt(f),
            Loss::NotConnack => f.write_str(
                "what the broker sent first is not a CONNACK of MQTT 3.1.1",
            ),
            Loss::NotMqtt => {
                f.write_str("what the broker sent is not MQTT 3.1.1, or is too long")
            }
            Loss::Memory => f.write_str("allocation failed"),
            Loss::FullBook => f.write_str("the book is full"),
        }
    }
}

/// The end of a connection that was accepted.
#[derive(Drop)]
pub struct Parting {
    pub why: Loss,
    /// It was up for long enough that the next try is not put off for it.
    pub lasted: bool,
    /// How long the pause before the next try is, in ms.
    pub pause: u64,
}

impl Display for Parting {
    fn fmt<W: Write>(&self, f: &mut Formatter<W>) -> fmt::Result {
        f.write_str("lost: ")?;
        self.why.fmt(f)?;
        if self.lasted {
            return Ok(());
        }
        write!(f, "; up for less than {LASTING_SECONDS} s")?;
        if self.why.may_be_taken_over() {
            f.write_str(" (another client with this id?)")?;
        }
        let pause = self.pause;
        write!(f, "; trying again in {pause} ms")
    }
}
