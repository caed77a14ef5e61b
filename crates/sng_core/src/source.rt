//! A PUBLISH without a session, of which only the sender's IPv4 address counts (MQTT-SN 1.2, 6.8). Nothing
//! answers it.
ghost use Rattle.std.specs.Prelude.{◌≡◌, ◌∷◌, [], IfOk, OnOk, OnErr, Ok, None, Some};
ghost use Rattle.sng_history.specs.State.{asked_by};
ghost use Rattle.sng_history.specs.Verdicts.{source_ask, named_ask};
ghost use Rattle.sng_core.specs.Forms.{joined};

use crate::answers::only;
use crate::parts::Parts;
use crate::verdict::source_name;
use sng_book::{Decision, Denial, GrantDenial, Out, Outcome, OutsPair, OutsRoom, Who};
use sng_frames::Publish;
use sng_outbox::{Origin, Publication};
use sng_text::{Qos, TopicName};
use std::alloc::{AllocError, Global};

impl Parts {
    /// A source asks for a publish. What is allowed joins what waits.
    pub fn source_ask(
        &mut self,
        alloc: Global,
        source: [u8; 4],
        publish: Publish,
    ) -> Result<OutsPair, AllocError>
        ensures outs { IfOk result (λ outs. outs ≡ Out.Note (source_ask self.old source publish) ∷ []) }
        ensures next { OnOk result (self.new ≡ joined self.old
            (asked_by (Some publish) (source_ask self.old source publish))) }
        ensures err { OnErr result (self.new ≡ self.old) }
    {
        let rule = if self.policy.lists_source(source) {
            match source_name(alloc, &self.policy, publish.flags.id_type, publish.topic_id)? {
                Ok(name) => return self.named_ask(alloc, source, name, publish),
                Err(rule) => rule,
            }
        } else {
            Denial::ungranted(alloc, GrantDenial::UnknownSource)?
        };
        publish_denied(alloc, Who::Source(source), rule)
    }

    /// A listed source asks for a publish under this name.
    fn named_ask(
        &mut self,
        alloc: Global,
        source: [u8; 4],
        name: TopicName,
        publish: Publish,
    ) -> Result<OutsPair, AllocError>
        ensures outs { IfOk result (λ outs. outs ≡ Out.Note (named_ask self.old source (Ok name)) ∷ []) }
        ensures next { OnOk result (self.new ≡ joined self.old
            (asked_by (Some publish) (named_ask self.old source (Ok name)))) }
        ensures err { OnErr result (self.new ≡ self.old) }
    {
        let origin = Origin::Source(source);
        let verdict = self.verdict(alloc, &origin, &name, Qos::AtMostOnce)?;
        let is_allowed = verdict.is_allowed();
        if is_allowed {
            self.link.room(1)?;
        }
        let outs = asked_outs(alloc, &mut self.spare, source, &name, verdict)?;
        if is_allowed {
            self.link.push(Publication {
                origin,
                name,
                payload: publish.payload,
                qos: Qos::AtMostOnce,
                retain: publish.flags.retain,
            });
        }
        Ok(outs)
    }
}

/// A source asked for a publish under this name.
fn asked_outs(
    alloc: Global,
    spare: &mut OutsRoom,
    source: [u8; 4],
    name: &TopicName,
    verdict: Outcome,
) -> Result<OutsPair, AllocError>
    ensures { IfOk result (λ outs. outs
        ≡ Out.Note (Decision.Publish (Who.Source source) (Some name.now) verdict) ∷ []) }
{
    let name = name.copy()?;
    spare.one(
        alloc,
        Out::Note(Decision::Publish(Who::Source(source), Some(name), verdict)),
    )
}

/// An ask to publish is denied before a name was read.
fn publish_denied(alloc: Global, who: Who, rule: Denial) -> Result<OutsPair, AllocError>
    ensures { IfOk result (λ outs. outs ≡ Out.Note (Decision.Publish who None (Outcome.Denied rule)) ∷ []) }
{
    only(
        alloc,
        Out::Note(Decision::Publish(who, None, Outcome::Denied(rule))),
    )
}
