//! The dialogue about a client's will, and its will (MQTT-SN 1.2, 6.2: WILLTOPICREQ, WILLTOPIC, WILLMSGREQ,
//! WILLMSG; 6.4: WILLTOPICUPD and WILLMSGUPD).
ghost use Rattle.std.specs.Prelude.{◌≡◌, None, unwrap_or, IfOk};
ghost use Rattle.std.specs.Option.{option_copied};
ghost use Rattle.sng_wills.specs.declared.will.Stage.TheVariants.{Closed, TopicAwaited};
ghost use Rattle.sng_wills.specs.Wills.{stated_topic, after_topic, after_message, after_topic_update};
ghost use Rattle.sng_wills.specs.Wills.{after_message_update, answer};

use crate::{Stage, StatedTopic, Will, WillFault};
use sng_text::{Compare, Octets, Qos, TopicName};
use std::alloc::{AllocError, Global};
use std::marker::Model;
use std::mem;

/// A client's will, where it has one, and how far the dialogue about it has come. Contracts see the two. No
/// call but `copy` takes memory.
#[derive(Debug, Drop)]
pub struct WillDialogue {
    stage: Stage,
    will: Option<Will>,
    alloc: Global,
}

impl Model for WillDialogue {
    ghost use Rattle.sng_wills.specs.Wills.{Wills};

    ghost Value = { Wills };

    ghost view = { λ d. record { stage = d.stage; will = d.will } };
}

impl WillDialogue {
    /// No dialogue and no will. The allocator stands behind empty messages, which take nothing of it.
    pub fn new(alloc: Global) -> WillDialogue
        ensures { result ≡ record { stage = Closed; will = None } }
    {
        WillDialogue {
            stage: Stage::Closed,
            will: None,
            alloc,
        }
    }

    /// An equal dialogue and will, in memory of their own. Only memory can fail.
    pub fn copy(&self) -> Result<WillDialogue, AllocError>
        ensures { IfOk result (λ wills. wills ≡ self.now) }
    {
        let will = match &self.will {
            None => None,
            Some(will) => Some(will.copy()?),
        };
        Ok(WillDialogue {
            stage: self.stage.copy()?,
            will,
            alloc: self.alloc,
        })
    }

    /// Opens a dialogue, in place of one that is open. The will stays.
    pub fn start(&mut self)
        ensures { self.new ≡ record self.old { stage = TopicAwaited } }
    {
        self.stage = Stage::TopicAwaited;
    }

    /// Closes the dialogue as the client leaves or is lost, and forgets a topic that it stated. The will
    /// stays.
    pub fn stop(&mut self)
        ensures { self.new ≡ record self.old { stage = Closed } }
    {
        self.stage = Stage::Closed;
    }

    /// How far the dialogue has come.
    pub fn stage(&self) -> &Stage
        ensures { result.now ≡ self.now.stage }
    {
        &self.stage
    }

    /// The will, where there is one.
    pub fn will(&self) -> Option<&Will>
        ensures { option_copied result ≡ self.now.will }
    {
        self.will.as_ref()
    }

    /// Deletes the will, and closes the dialogue.
    pub fn clear(&mut self)
        ensures { self.new ≡ record { stage = Closed; will = None } }
    {
        *self = WillDialogue::new(self.alloc);
    }

    /// A WILLTOPIC with a topic: where one is awaited, a message is awaited from now on. The will stays.
    /// OutOfTurn elsewhere; nothing changed then.
    pub fn topic(
        &mut self,
        topic: TopicName,
        qos: Qos,
        retain: bool,
    ) -> Result<(), WillFault<StatedTopic>>
        ensures result { let stated = stated_topic topic qos retain in
            result ≡ answer stated (after_topic stated self.old) }
        ensures wills { self.new ≡ unwrap_or (after_topic (stated_topic topic qos retain) self.old) self.old }
    {
        let stated = StatedTopic { topic, qos, retain };
        match self.stage {
            Stage::TopicAwaited => {
                self.stage = Stage::MessageAwaited(stated);
                Ok(())
            }
            _ => Err(WillFault::OutOfTurn(stated)),
        }
    }

    /// A WILLMSG: where one is awaited, the will is of it and the topic that was stated, and the dialogue is
    /// closed. OutOfTurn elsewhere; nothing changed then.
    pub fn message(&mut self, payload: Octets) -> Result<(), WillFault<Octets>>
        ensures result { result ≡ answer payload (after_message payload self.old) }
        ensures wills { self.new ≡ unwrap_or (after_message payload self.old) self.old }
    {
        match mem::replace(&mut self.stage, Stage::Closed) {
            Stage::MessageAwaited(StatedTopic { topic, qos, retain }) => {
                self.will = Some(Will {
                    topic,
                    payload,
                    qos,
                    retain,
                });
                Ok(())
            }
            stage => {
                self.stage = stage;
                Err(WillFault::OutOfTurn(payload))
            }
        }
    }

    /// A WILLTOPICUPD with a topic: replaces the will's topic, QoS and Retain, or begins a will with an empty
    /// message. OutOfTurn while a dialogue is open; nothing changed then.
    pub fn update_topic(
        &mut self,
        topic: TopicName,
        qos: Qos,
        retain: bool,
    ) -> Result<(), WillFault<StatedTopic>>
        ensures result { let stated = stated_topic topic qos retain in
            result ≡ answer stated (after_topic_update stated self.old) }
        ensures wills { self.new
            ≡ unwrap_or (after_topic_update (stated_topic topic qos retain) self.old) self.old }
    {
        match self.stage {
            Stage::Closed => {
                let payload = match self.will.take() {
                    Some(will) => will.payload,
                    None => Octets::from(Vec::new(self.alloc)),
                };
                self.will = Some(Will {
                    topic,
                    payload,
                    qos,
                    retain,
                });
                Ok(())
            }
            _ => Err(WillFault::OutOfTurn(StatedTopic { topic, qos, retain })),
        }
    }

    /// A WILLMSGUPD: replaces the will's message.
    /// OutOfTurn while a dialogue is open, and where there is no will; nothing changed then.
    pub fn update_message(&mut self, payload: Octets) -> Result<(), WillFault<Octets>>
        ensures result { result ≡ answer payload (after_message_update payload self.old) }
        ensures wills { self.new ≡ unwrap_or (after_message_update payload self.old) self.old }
    {
        match (&self.stage, &mut self.will) {
            (Stage::Closed, Some(will)) => {
                will.payload = payload;
                Ok(())
            }
            _ => Err(WillFault::OutOfTurn(payload)),
        }
    }
}

impl Compare for WillDialogue {
    fn same(&self, other: &WillDialogue) -> bool {
        self.stage.same(&other.stage) && self.will.same(&other.will)
    }
}
