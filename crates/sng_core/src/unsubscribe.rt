//! An UNSUBSCRIBE of a client (MQTT-SN 1.2, 5.4.17, 5.4.18 and 6.9): what is let out is planned first, and
//! the last call that can fail comes before the first change.
ghost use Rattle.std.specs.Prelude.{◌≡◌, ◌<◌, ◌∷◌, ◌++◌, [], length, Some, true, IfOk, OnOk, OnErr};
ghost use Rattle.sng_history.specs.Answers.{unsuback};
ghost use Rattle.sng_history.specs.Packets.{has_place};
ghost use Rattle.sng_history.specs.Verdicts.{in_turn};
ghost use Rattle.sng_core.specs.Forms.{client_at};
ghost use Rattle.sng_core.specs.Subscribing.{unsubscribe_judged, unsubscribe_by, unsubscribe_noted};
ghost use Rattle.sng_core.specs.Subscribing.{holds_alone, let_go, untold_of, ends_at};
ghost use Rattle.sng_core.specs.Subscribing.{ended};

use crate::filters::{JudgedFilter, copy_filter, filter_read, unread_filter};
use crate::parts::Parts;
use sng_book::{Address, Decision, Denial, FormDenial, Out, Outcome, Outs, OutsPair, Who};
use sng_frames::{TopicRequest, write_unsubscribe_ack};
use sng_sessions::Sessions;
use sng_text::TopicFilter;
use std::alloc::{AllocError, Global};

impl Parts {
    /// An UNSUBSCRIBE of the client at this place. The broker is told where the filter stands for nobody any
    /// more.
    pub fn unsubscribe(
        &mut self,
        alloc: Global,
        place: usize,
        request: TopicRequest,
    ) -> Result<OutsPair, AllocError>
        requires { place < length self.old.clients }
        ensures outs { IfOk result (λ outs. outs
            ≡ unsubscribe_noted self.old request place
            (unsubscribe_judged self.old.policy request (client_at self.old.clients place))) }
        ensures next { OnOk result (self.new ≡ ended self.old request (Some place)) }
        ensures err { OnErr result (self.new ≡ self.old) }
    {
        let judged = self.unsubscribe_judged(alloc, place, &request)?;
        let outs = self.unsubscribe_noted(alloc, &request, place, &judged)?;
        self.end_judged(place, judged)?;
        Ok(outs)
    }

    /// How the UNSUBSCRIBE of the client at this place comes out.
    fn unsubscribe_judged(
        &self,
        alloc: Global,
        place: usize,
        request: &TopicRequest,
    ) -> Result<JudgedFilter, AllocError>
        requires { place < length self.now.clients }
        ensures { IfOk result (λ j. j
            ≡ unsubscribe_judged self.now.policy request.now (client_at self.now.clients place)) }
    {
        if !self.sessions.phase(place).is_active() {
            return Ok(unread_filter(Denial::Form(FormDenial::OutOfTurn)));
        }
        match filter_read(alloc, &self.policy, request)? {
            Ok(filter) => Ok(JudgedFilter {
                filter: Some(filter),
                outcome: Outcome::Allowed,
            }),
            Err(rule) => Ok(unread_filter(rule)),
        }
    }

    /// The note, that the broker is not told for want of place, and the UNSUBACK.
    fn unsubscribe_noted(
        &self,
        alloc: Global,
        request: &TopicRequest,
        place: usize,
        judged: &JudgedFilter,
    ) -> Result<OutsPair, AllocError>
        requires { place < length self.now.clients }
        ensures { IfOk result (λ outs. outs ≡ unsubscribe_noted self.now request.now place judged.now) }
    {
        let who = Who::Client(self.sessions.id(place).copy()?);
        let filter = copy_filter(&judged.filter)?;
        let outcome = judged.outcome.copy()?;
        let mut outs = Outs::with_capacity(alloc, 3)?;
        outs.push(Out::Note(Decision::Unsubscribe(who, filter, outcome)))?;
        self.note_dropped(place, judged, &mut outs)?;
        outs.push(unsuback(alloc, self.sessions.address(place), request)?)?;
        let outs = OutsPair::of(alloc, outs)?;
        Ok(outs)
    }

    /// Notes that the broker is not told, where it would be told and nothing more may wait.
    fn note_dropped(
        &self,
        place: usize,
        judged: &JudgedFilter,
        outs: &mut Outs,
    ) -> Result<(), AllocError>
        requires { place < length self.now.clients }
        ensures { OnOk result (outs.new ≡ outs.old
            ++ untold_of (has_place self.now.policy.limits self.now.link)
            (let_go self.now.clients place judged.now.filter judged.now.outcome)) }
    {
        let Some(filter) = &judged.filter else {
            return Ok(());
        };
        if !judged.outcome.is_allowed() || self.link.has_place(self.policy.limits()) {
            return Ok(());
        }
        if holds_alone(&self.sessions, place, filter) {
            outs.push(Out::Note(Decision::Outbox))?;
        }
        Ok(())
    }

    /// The client at this place is heard, and where it was allowed its subscription ends. An `Err` is a failed
    /// allocation, and nothing changes.
    fn end_judged(&mut self, place: usize, judged: JudgedFilter) -> Result<(), AllocError>
        requires { place < length self.old.clients }
        ensures ok { OnOk result (self.new ≡ ends_at self.old place judged) }
        ensures err { OnErr result (self.new ≡ self.old) }
    {
        let JudgedFilter { filter, outcome } = judged;
        let Some(filter) = filter else {
            self.sessions.hear(place, self.clock);
            return Ok(());
        };
        match outcome {
            Outcome::Allowed => self.end_subscription(place, filter),
            Outcome::Denied(_) => {
                self.sessions.hear(place, self.clock);
                Ok(())
            }
        }
    }

    /// The subscription of the client at this place to the filter ends. Where it was the last one, the broker
    /// is told so while there is place. An `Err` is a failed allocation, and nothing changes.
    fn end_subscription(&mut self, place: usize, filter: TopicFilter) -> Result<(), AllocError>
        requires { place < length self.old.clients }
        ensures ok { OnOk result (self.new ≡ ends_at self.old place
            (record { filter = Some filter; outcome = Outcome.Allowed })) }
        ensures err { OnErr result (self.new ≡ self.old) }
    {
        if !holds_alone(&self.sessions, place, &filter) {
            self.sessions.unsubscribe(place, &filter, self.clock);
            return Ok(());
        }
        self.link.room(1)?;
        self.sessions.unsubscribe(place, &filter, self.clock);
        self.link.unwant(&filter);
        if self.link.has_place(self.policy.limits()) {
            self.link.unsubscribe(filter);
        }
        Ok(())
    }
}

/// Whether the filter stands for the client at this place, and for nobody else.
fn holds_alone(sessions: &Sessions, place: usize, filter: &TopicFilter) -> bool
    requires { place < length sessions.now }
    ensures { result ≡ holds_alone sessions.now place filter.now }
{
    sessions.holds(place, filter) && !sessions.is_held_by_others(place, filter)
}

/// The UNSUBACK.
fn unsuback(alloc: Global, to: Address, request: &TopicRequest) -> Result<Out, AllocError>
    ensures { IfOk result (λ out. out ≡ unsuback to request.now) }
{
    let datagram = write_unsubscribe_ack(alloc, request.msg_id)?;
    Ok(Out::Send(to, datagram))
}
