//! What was sent to a client and waits for its answer.
ghost use Rattle.std.specs.Prelude.{◌≡◌, ◌<◌, IfOk};
ghost use Rattle.sng_queue.specs.declared.limits.TheConstants.{MAX_TRIES};

use crate::{TopicIdKind, Waiting};
use std::alloc::AllocError;

/// The frame of an exchange, as it was sent.
#[derive(Clone, Copy, Debug, PartialEq, Eq)]
pub struct Sending {
    pub topic_id: u16,
    pub msg_id: u16,
    /// The clock of the last sending, in ms.
    pub sent: u64,
    /// How often it was sent again, `MAX_TRIES` at the most.
    pub tries: u8,
}

impl Sending {
    ghost use Rattle.sng_queue.specs.Exchanges.{first_sending, repeated};

    /// The first sending, at this clock.
    pub(crate) fn first(topic_id: u16, msg_id: u16, clock: u64) -> Sending
        ensures { result ≡ first_sending topic_id msg_id clock }
    {
        Sending {
            topic_id,
            msg_id,
            sent: clock,
            tries: 0,
        }
    }

    /// Counts one more sending, at this clock.
    pub(crate) fn repeat(&mut self, clock: u64)
        requires { self.old.tries < MAX_TRIES }
        ensures { self.new ≡ repeated clock self.old }
    {
        self.sent = clock;
        self.tries += 1;
    }
}

/// An exchange that the gateway began with a client.
#[derive(Debug, Drop)]
pub enum Exchange {
    /// A REGISTER announced a normal topic id for the message at the front of the queue, and waits for its
    /// REGACK (MQTT-SN 1.2, 6.10).
    Announcing(Sending),
    /// The message left the front. Its PUBLISH, with a topic id of this kind, waits for its PUBACK (6.12).
    Acknowledging(Sending, TopicIdKind, Waiting),
}

impl Exchange {
    ghost use Rattle.sng_queue.specs.Exchanges.{sending_of, sent_again};

    /// The frame, as it was sent.
    pub fn sending(&self) -> &Sending
        ensures { result.now ≡ sending_of self.now }
    {
        match self {
            Exchange::Announcing(sending) => sending,
            Exchange::Acknowledging(sending, _, _) => sending,
        }
    }

    /// Counts one more sending of the frame, at this clock.
    pub(crate) fn repeat(&mut self, clock: u64)
        requires { (sending_of self.old).tries < MAX_TRIES }
        ensures { self.new ≡ sent_again clock self.old }
    {
        match self {
            Exchange::Announcing(sending) => sending.repeat(clock),
            Exchange::Acknowledging(sending, _, _) => sending.repeat(clock),
        }
    }

    /// An equal exchange, in memory of its own but for a content, which the two share. Only memory can fail.
    pub fn copy(&self) -> Result<Exchange, AllocError>
        ensures { IfOk result (λ e. e ≡ self.now) }
    {
        match self {
            Exchange::Announcing(sending) => Ok(Exchange::Announcing(*sending)),
            Exchange::Acknowledging(sending, kind, message) => {
                Ok(Exchange::Acknowledging(*sending, *kind, message.copy()?))
            }
        }
    }
}
