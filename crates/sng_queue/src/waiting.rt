//! A message that waits for a client.
ghost use Rattle.std.specs.Prelude.{◌≡◌, ◌≤◌, true, length, IfOk};
ghost use Rattle.sng_queue.specs.declared.limits.TheConstants.{MAX_WAITING_NAME, MAX_WAITING_PAYLOAD};
ghost use Rattle.sng_queue.specs.Messages.{message_of, is_sendable};

use crate::Content;
use sng_text::{Qos, TopicName};
use std::alloc::AllocError;
use std::marker::Model;

/// A message for one client, as it will be sent (MQTT-SN 1.2, 5.4.12): one datagram can carry its payload,
/// and one its name. Its content is shared by all for whom the message waits.
#[derive(Debug, Drop)]
pub struct Waiting {
    content: Content,
    qos: Qos,
}

impl Model for Waiting {
    ghost use Rattle.std.specs.Prelude.{◌≡◌, true};
    ghost use Rattle.sng_queue.specs.Messages.{Message, message_of, is_sendable};

    ghost Value = { Message };

    ghost view = { λ w. message_of w.content w.qos };

    ghost invariant = { λ w. is_sendable w.content.name w.content.payload ≡ true };
}

impl Waiting {
    /// The message with this content, at this QoS. Takes no memory.
    pub fn new(content: Content, qos: Qos) -> Waiting
        requires { is_sendable content.name content.payload ≡ true }
        ensures { result ≡ message_of content qos }
    {
        Waiting { content, qos }
    }

    /// The topic name.
    pub fn name(&self) -> &TopicName
        ensures value { result.now ≡ self.now.name }
        ensures within { length self.now.name ≤ MAX_WAITING_NAME }
    {
        self.content.name()
    }

    /// The payload.
    pub fn payload(&self) -> &[u8]
        ensures value { result.now ≡ self.now.payload }
        ensures within { length self.now.payload ≤ MAX_WAITING_PAYLOAD }
    {
        self.content.payload()
    }

    /// The QoS at which it is sent.
    pub fn qos(&self) -> Qos
        ensures { result ≡ self.now.qos }
    {
        self.qos
    }

    /// Whether it is sent with Retain.
    pub fn retain(&self) -> bool
        ensures { result ≡ self.now.retain }
    {
        self.content.retain()
    }

    /// An equal message, which shares the content. Only memory can fail.
    pub fn copy(&self) -> Result<Waiting, AllocError>
        ensures { IfOk result (λ w. w ≡ self.now) }
    {
        let content = self.content.share()?;
        Ok(Waiting {
            content,
            qos: self.qos,
        })
    }
}
