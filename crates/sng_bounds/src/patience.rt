//! How long the gateway waits for the broker: for the CONNACK (MQTT 3.1.1, 3.1.4), for an answer to a PINGREQ
//! (3.1.2.10), and for anything at all.
ghost use Rattle.std.specs.Prelude.{◌≡◌, true, false, IsSome};
ghost use Rattle.std.specs.Duration.{as_nanos};
ghost use Rattle.sng_bounds.specs.Patiences.{after, due_nanos, due_what};

use std::fmt;
use std::fmt::{Display, Formatter, Write};
use std::time::Duration;

/// How long a connection may take to be accepted with a CONNACK, in seconds.
pub const CONNACK_SECONDS: u64 = 5;

/// How long the broker may leave a PINGREQ without an answer, in seconds.
pub const PING_SECONDS: u64 = 20;

/// How long the broker may be silent, in seconds: one and a half of the keep alive, so it was asked twice.
pub const SILENCE_SECONDS: u64 = 90;

/// What did not come in time.
#[derive(Clone, Copy, Debug, PartialEq, Eq)]
pub enum Late {
    Acceptance,
    PingAnswer,
    Anything,
}

impl Display for Late {
    fn fmt<W: Write>(&self, f: &mut Formatter<W>) -> fmt::Result {
        match self {
            Late::Acceptance => f.write_str("no CONNACK in time"),
            Late::PingAnswer => write!(f, "no answer to PINGREQ in {PING_SECONDS} s"),
            Late::Anything => write!(f, "nothing came in {SILENCE_SECONDS} s"),
        }
    }
}

/// What is waited for at a connection, and since when.
#[derive(Clone, Copy)]
pub struct Patience {
    /// When the connection was made.
    pub begun: Duration,
    pub is_accepted: bool,
    /// When bytes came last.
    pub heard: Duration,
    /// When the first PINGREQ was written behind which no bytes came.
    pub asked: Option<Duration>,
}

impl Patience {
    /// With a connection that is made now.
    pub fn new(now: Duration) -> Patience
        ensures { result ≡ record { begun = now; is_accepted = false; heard = now; asked = None } }
    {
        Patience {
            begun: now,
            is_accepted: false,
            heard: now,
            asked: None,
        }
    }

    /// The broker accepted the connection.
    pub fn accept(&mut self)
        ensures { self.new ≡ record self.old { is_accepted = true } }
    {
        self.is_accepted = true;
    }

    /// Bytes came: they are an answer, too.
    pub fn hear(&mut self, now: Duration)
        ensures { self.new ≡ record self.old { heard = now; asked = None } }
    {
        self.heard = now;
        self.asked = None;
    }

    /// A PINGREQ was written. Where one waits for its answer already, that one counts.
    pub fn ask(&mut self, now: Duration)
        ensures first { self.old.asked ≡ None → self.new ≡ record self.old { asked = Some now } }
        ensures again { IsSome self.old.asked → self.new ≡ self.old }
    {
        if self.asked.is_none() {
            self.asked = Some(now);
        }
    }

    /// Until when the next thing has to come, and what that is.
    pub fn due(&self) -> (Duration, Late)
        ensures time { as_nanos result.0 ≡ due_nanos self.now }
        ensures what { result.1 ≡ due_what self.now }
    {
        if !self.is_accepted {
            return (after(self.begun, CONNACK_SECONDS), Late::Acceptance);
        }
        let silence = after(self.heard, SILENCE_SECONDS);
        let Some(asked) = self.asked else {
            return (silence, Late::Anything);
        };
        let answer = after(asked, PING_SECONDS);
        if answer.as_nanos() <= silence.as_nanos() {
            (answer, Late::PingAnswer)
        } else {
            (silence, Late::Anything)
        }
    }
}

/// So many seconds later, or the longest time there is.
pub fn after(time: Duration, seconds: u64) -> Duration
    ensures { as_nanos result ≡ after time seconds }
{
    time.saturating_add(Duration::from_secs(seconds))
}
