//! One datagram (MQTT-SN 1.2, 5): the client at its address is looked up, once, and what the message asks is
//! brought to who takes it.
ghost use Rattle.std.specs.Prelude.{◌≡◌, ◌<◌, length, IfOk, OnOk, OnErr};
ghost use Rattle.sng_frames.specs.Reading.{frame_of};
ghost use Rattle.sng_history.specs.Causes.{ByMessage, BySource, ByBroken, datagram_cause, frame_cause};
ghost use Rattle.sng_history.specs.Good.{Good};
ghost use Rattle.sng_history.specs.Steps.{outs_by, next_by};
ghost use Rattle.sng_core.specs.Forms.{place_at};
ghost use Rattle.sng_core.specs.Requesting.{asked, request_outs, request_next};

use crate::confirm::{acknowledge, confirm};
use crate::messages::{broken, leave, unsupported};
use crate::parts::Parts;
use crate::receive::release;
use crate::register::register;
use crate::request::{Asked, SessionRequest, ask_of};
use crate::sleep::{ping, sleep};
use crate::statement::state;
use crate::stranger::stranger;
use sng_book::{Address, Denial, FormDenial, OutsPair};
use sng_frames::{FrameFault, Publish, SnFrame, decode};
use std::alloc::{AllocError, Global};

impl Parts {
    /// A datagram from this address.
    #[inline(always)]
    pub fn datagram(
        &mut self,
        alloc: Global,
        from: Address,
        datagram: &[u8],
    ) -> Result<OutsPair, AllocError>
        requires { Good self.old }
        ensures outs { IfOk result (λ outs. outs
            ≡ outs_by self.old (datagram_cause from (frame_of datagram.now))) }
        ensures next { OnOk result (self.new
            ≡ next_by self.old (datagram_cause from (frame_of datagram.now))) }
        ensures err { OnErr result (self.new ≡ self.old) }
    {
        let at = self.sessions.at(from);
        match decode(alloc, datagram) {
            Ok(frame) => self.message(alloc, from, at, frame),
            Err(FrameFault::NotSupported) => self.broken(
                alloc,
                from,
                at,
                Denial::Form(FormDenial::NotSupported),
            ),
            Err(FrameFault::Malformed) => self.broken(
                alloc,
                from,
                at,
                Denial::Form(FormDenial::Malformed),
            ),
            Err(FrameFault::TooLong) => self.broken(
                alloc,
                from,
                at,
                Denial::Form(FormDenial::Malformed),
            ),
            Err(FrameFault::Memory) => Err(AllocError),
        }
    }

    /// A message from this address, of the client at this place, or of nobody.
    #[inline(always)]
    fn message(
        &mut self,
        alloc: Global,
        from: Address,
        at: Option<usize>,
        frame: SnFrame,
    ) -> Result<OutsPair, AllocError>
        requires good { Good self.old }
        requires at { at ≡ place_at from self.old.clients }
        ensures outs { IfOk result (λ outs. outs ≡ outs_by self.old (frame_cause from frame)) }
        ensures next { OnOk result (self.new ≡ next_by self.old (frame_cause from frame)) }
        ensures err { OnErr result (self.new ≡ self.old) }
    {
        match ask_of(frame) {
            Asked::Entry(connect) => self.connect(alloc, from, at, connect),
            Asked::Source(publish) => self.source(alloc, from, publish),
            Asked::Request(request) => self.request(alloc, from, at, request),
        }
    }

    /// A PUBLISH without a session.
    fn source(
        &mut self,
        alloc: Global,
        from: Address,
        publish: Publish,
    ) -> Result<OutsPair, AllocError>
        requires { Good self.old }
        ensures outs { IfOk result (λ outs. outs ≡ outs_by self.old (BySource from publish)) }
        ensures next { OnOk result (self.new ≡ next_by self.old (BySource from publish)) }
        ensures err { OnErr result (self.new ≡ self.old) }
    {
        let outs = self.source_ask(alloc, from.ip, publish)?;
        Ok(outs)
    }

    /// A message of a session, where it is no CONNECT.
    fn request(
        &mut self,
        alloc: Global,
        from: Address,
        at: Option<usize>,
        request: SessionRequest,
    ) -> Result<OutsPair, AllocError>
        requires good { Good self.old }
        requires at { at ≡ place_at from self.old.clients }
        ensures outs { IfOk result (λ outs. outs ≡ outs_by self.old (ByMessage from (asked request))) }
        ensures next { OnOk result (self.new ≡ next_by self.old (ByMessage from (asked request))) }
        ensures err { OnErr result (self.new ≡ self.old) }
    {
        let Some(place) = at else {
            let outs = stranger(alloc, from, &request)?;
            return Ok(outs);
        };
        let outs = self.requested(alloc, place, request)?;
        Ok(outs)
    }

    /// A request of the client at this place.
    #[inline(always)]
    fn requested(
        &mut self,
        alloc: Global,
        place: usize,
        request: SessionRequest,
    ) -> Result<OutsPair, AllocError>
        requires { place < length self.old.clients }
        ensures outs { IfOk result (λ outs. outs ≡ request_outs self.old place request) }
        ensures next { OnOk result (self.new ≡ request_next self.old place request) }
        ensures err { OnErr result (self.new ≡ self.old) }
    {
        let Parts {
            policy,
            clock,
            sessions,
            spare,
            ..
        } = self;
        match request {
            SessionRequest::Publish(publish) => self.carry(alloc, place, publish),
            SessionRequest::PublishOnce(publish) => self.receive(alloc, place, publish),
            SessionRequest::Release(msg_id) => release(alloc, *clock, msg_id, sessions, place),
            SessionRequest::Subscribe(request) => self.subscribe(alloc, place, request),
            SessionRequest::Unsubscribe(request) => self.unsubscribe(alloc, place, request),
            SessionRequest::Ping(client) => {
                ping(alloc, spare, policy, *clock, client, sessions, place)
            }
            SessionRequest::Leave => leave(alloc, *clock, sessions, place),
            SessionRequest::Sleep(duration) => sleep(alloc, *clock, duration, sessions, place),
            SessionRequest::Register(asked) => register(
                alloc, policy, *clock, asked, sessions, place,
            ),
            SessionRequest::Confirm(answer) => confirm(
                alloc, policy, *clock, answer, sessions, place,
            ),
            SessionRequest::Acknowledge(answer) => {
                acknowledge(alloc, policy, *clock, answer, sessions, place)
            }
            SessionRequest::State(statement) => state(
                alloc, policy, *clock, statement, sessions, place,
            ),
            SessionRequest::Untaken(message) => unsupported(
                alloc, *clock, message, sessions, place,
            ),
        }
    }

    /// A datagram that is not a message, by the rule that it breaks.
    fn broken(
        &mut self,
        alloc: Global,
        from: Address,
        at: Option<usize>,
        rule: Denial,
    ) -> Result<OutsPair, AllocError>
        requires good { Good self.old }
        requires at { at ≡ place_at from self.old.clients }
        ensures outs { IfOk result (λ outs. outs ≡ outs_by self.old (ByBroken from rule)) }
        ensures next { OnOk result (self.new ≡ next_by self.old (ByBroken from rule)) }
        ensures err { OnErr result (self.new ≡ self.old) }
    {
        let outs = broken(alloc, from, rule, &self.sessions, at)?;
        Ok(outs)
    }
}
