//! What a message says, whoever it is for.
ghost use Rattle.std.specs.Prelude.{◌≡◌, IfOk};
ghost use Rattle.sng_queue.specs.Messages.{content, is_sendable};

use crate::{MAX_WAITING_NAME, MAX_WAITING_PAYLOAD};
use sng_text::{Octets, TopicName};
use std::alloc::{AllocError, Global};
use std::marker::Model;
use std::sync::Arc;

/// The name, the payload and Retain of a message (MQTT 3.1.1, 3.3), in memory that all share for whom it
/// waits. Nobody changes it any more.
#[derive(Debug, Drop)]
pub struct Content {
    parts: Arc<Parts, Global>,
}

#[derive(Debug, Drop)]
struct Parts {
    name: TopicName,
    payload: Octets,
    retain: bool,
}

impl Model for Content {
    ghost use Rattle.std.specs.Arc.{arc_value};
    ghost use Rattle.sng_queue.specs.Messages.{Content, content};

    ghost Value = { Content };

    ghost view = { λ c. let p = arc_value c.parts in content p.name p.payload p.retain };
}

impl Content {
    /// The content of these parts. Only memory can fail.
    pub fn new(
        alloc: Global,
        name: TopicName,
        payload: Octets,
        retain: bool,
    ) -> Result<Content, AllocError>
        ensures { IfOk result (λ c. c ≡ content name payload retain) }
    {
        let parts = Parts {
            name,
            payload,
            retain,
        };
        Ok(Content {
            parts: Arc::new(alloc, parts)?,
        })
    }

    /// The topic name.
    pub fn name(&self) -> &TopicName
        ensures { result.now ≡ self.now.name }
    {
        &(*self.parts).name
    }

    /// The payload.
    pub fn payload(&self) -> &[u8]
        ensures { result.now ≡ self.now.payload }
    {
        (*self.parts).payload.as_slice()
    }

    /// Whether it is sent with Retain.
    pub fn retain(&self) -> bool
        ensures { result ≡ self.now.retain }
    {
        (*self.parts).retain
    }

    /// Whether one datagram can carry the payload, and one the name.
    pub fn is_sendable(&self) -> bool
        ensures { result ≡ is_sendable self.now.name self.now.payload }
    {
        self.name().text().len() <= MAX_WAITING_NAME && self.payload().len() <= MAX_WAITING_PAYLOAD
    }

    /// The same content, once more. Only memory can fail.
    pub fn share(&self) -> Result<Content, AllocError>
        ensures { IfOk result (λ c. c ≡ self.now) }
    {
        let parts = Arc::try_clone(&self.parts)?;
        Ok(Content { parts })
    }
}
