//! A CONNECT (MQTT-SN 1.2, 5.4.4, 6.2, 6.3 and 6.14): what it lets out is planned first, and the last call
//! that can fail comes before the first change.
ghost use Rattle.std.specs.Prelude.{◌≡◌, ◌<◌, ◌-◌, ◌∷◌, ◌++◌, [], ℕ, suc, length, IfSome, IfOk, OnOk, OnErr};
ghost use Rattle.sng_history.specs.Answers.{welcome};
ghost use Rattle.sng_history.specs.Causes.{ByConnect};
ghost use Rattle.sng_history.specs.Good.{Good};
ghost use Rattle.sng_history.specs.Steps.{outs_by, next_by};
ghost use Rattle.sng_history.specs.Standing.{places_left};
ghost use Rattle.sng_history.specs.Verdicts.{entry};
ghost use Rattle.sng_link.specs.Rooms.{HasPlaces};
ghost use Rattle.sng_sessions.specs.Handed.{handed_by};
ghost use Rattle.sng_core.specs.Forms.{place_at, place_of, client_at, at_place, moved_if, heard_at, entered};
ghost use Rattle.sng_core.specs.Connecting.{moved_outs, put_out, dropped_notes, own_outs, own_plan};
ghost use Rattle.sng_core.specs.Connecting.{nothing_handed, alone_in, held_beside, alone_by, let_go_one};
ghost use Rattle.sng_core.specs.Connecting.{let_go, accepted_outs, refused_outs, connect_outs, connect_next};

use crate::answers::{code_of, connack, dismissed, welcome};
use crate::parts::Parts;
use crate::verdict::entry;
use sng_book::{Address, Decision, Denial, Out, Outcome, Outs, OutsPair};
use sng_fan::Held;
use sng_frames::Connect;
use sng_grants::Limits;
use sng_link::Link;
use sng_policy::InForce;
use sng_sessions::{ClientIds, Handed, Opens, Sessions, out_of_memory};
use sng_text::{ClientId, TopicFilter};
use sng_turns::hand_over::{all_gone, hand_over};
use sng_turns::turn::Recipient;
use std::alloc::{AllocError, Global};

impl Parts {
    /// A CONNECT from this address, at which the client at this place is, or nobody.
    pub fn connect(
        &mut self,
        alloc: Global,
        from: Address,
        at: Option<usize>,
        connect: Connect,
    ) -> Result<OutsPair, AllocError>
        requires good { Good self.old }
        requires at { at ≡ place_at from self.old.clients }
        ensures outs { IfOk result (λ outs. outs ≡ outs_by self.old (ByConnect from connect)) }
        ensures next { OnOk result (self.new ≡ next_by self.old (ByConnect from connect)) }
        ensures err { OnErr result (self.new ≡ self.old) }
    {
        let outs = self.connect_judged(alloc, from, at, connect)?;
        Ok(outs)
    }

    /// By its verdict.
    fn connect_judged(
        &mut self,
        alloc: Global,
        from: Address,
        at: Option<usize>,
        connect: Connect,
    ) -> Result<OutsPair, AllocError>
        requires { at ≡ place_at from self.old.clients }
        ensures outs { IfOk result (λ outs. outs
            ≡ connect_outs self.old from connect (entry self.old connect)) }
        ensures next { OnOk result (self.new
            ≡ connect_next self.old from connect (entry self.old connect)) }
        ensures err { OnErr result (self.new ≡ self.old) }
    {
        match entry(alloc, &self.policy, &self.sessions, &connect)? {
            Outcome::Allowed => {
                let outs = self.accept(alloc, from, at, connect)?;
                Ok(outs)
            }
            Outcome::Denied(rule) => {
                let outs = refused_outs(alloc, from, &connect.client_id, rule)?;
                if let Some(place) = at {
                    self.sessions.hear(place, self.clock);
                }
                Ok(outs)
            }
        }
    }

    /// It is accepted. What a clean session ends, and nobody else holds, is let go of upstream; after any
    /// other what waits is handed over.
    fn accept(
        &mut self,
        alloc: Global,
        from: Address,
        at: Option<usize>,
        connect: Connect,
    ) -> Result<OutsPair, AllocError>
        requires { at ≡ place_at from self.old.clients }
        ensures outs { IfOk result (λ outs. outs ≡ connect_outs self.old from connect Outcome.Allowed) }
        ensures next { OnOk result (self.new ≡ connect_next self.old from connect Outcome.Allowed) }
        ensures err { OnErr result (self.new ≡ self.old) }
    {
        let alone = alone(alloc, &self.sessions, &connect)?;
        let limits = self.policy.limits();
        let dropped = unplaced(&alone, &self.link, limits);
        let sessions = &self.sessions;
        let id = &connect.client_id;
        let Ok(mut outs) = accepted_outs(alloc, from, id, sessions, at, dropped) else {
            return out_of_memory((connect, alone));
        };
        let place = sessions.find(&connect.client_id);
        let policy = &self.policy;
        let Ok(handed) = entering(alloc, policy, from, &connect, sessions, place, &mut outs) else {
            return out_of_memory((connect, alone, outs));
        };
        let Ok(outs) = OutsPair::of(alloc, outs) else {
            return out_of_memory((connect, alone, handed));
        };
        let Ok(()) = self.link.room(alone.len()) else {
            return out_of_memory((connect, alone, handed, outs));
        };
        let (sessions, clock) = (&mut self.sessions, self.clock);
        let Ok(()) = enter(alloc, from, connect, sessions, place, handed, clock) else {
            return out_of_memory((alone, outs));
        };
        let_go(&mut self.link, limits, alone);
        Ok(outs)
    }
}

/// What becomes of what waits for the client that connects, and what answers it: a clean session drops it
/// before that, and else it is handed over behind a CONNACK; in the dialogue about a will it still waits.
/// Answers what the hand-over comes to.
fn entering(
    alloc: Global,
    policy: &InForce,
    from: Address,
    connect: &Connect,
    sessions: &Sessions,
    place: Option<usize>,
    outs: &mut Outs,
) -> Result<Handed, AllocError>
    requires { IfSome place (λ p. p < length sessions.now) }
    ensures outs { OnOk result (outs.new ≡ outs.old
        ++ own_outs policy.now from connect.now (at_place sessions.now place)) }
    ensures plan { IfOk result (λ handed. handed
        ≡ own_plan policy.now connect.now (at_place sessions.now place)) }
{
    let Some(place) = place else {
        push_welcome(alloc, connect, from, outs)?;
        return Ok(nothing_handed());
    };
    if connect.flags.clean {
        all_gone(&connect.client_id, sessions.queue(place), outs)?;
        push_welcome(alloc, connect, from, outs)?;
        return Ok(nothing_handed());
    }
    push_welcome(alloc, connect, from, outs)?;
    if connect.flags.will {
        return Ok(nothing_handed());
    }
    let ids = ClientIds::new(alloc);
    let to = Recipient {
        id: &connect.client_id,
        address: from,
        ids: &ids,
        confirming: None,
        number: sessions.number(place),
    };
    let handed = hand_over(alloc, policy, to, sessions.queue(place), 0, outs)?;
    Ok(handed)
}

/// What answers a CONNECT that is accepted, behind the others.
fn push_welcome(
    alloc: Global,
    connect: &Connect,
    from: Address,
    outs: &mut Outs,
) -> Result<(), AllocError>
    ensures { OnOk result (outs.new ≡ outs.old ++ welcome connect.now from ∷ []) }
{
    outs.push(welcome(alloc, connect, from)?)?;
    Ok(())
}

/// The CONNECT is accepted, and a hand-over to the client at this place is carried out. An `Err` is a failed
/// allocation; nothing changed.
fn enter(
    alloc: Global,
    from: Address,
    connect: Connect,
    sessions: &mut Sessions,
    place: Option<usize>,
    handed: Handed,
    clock: u64,
) -> Result<(), AllocError>
    ensures ok { OnOk result (sessions.new
        ≡ moved_if place (handed_by clock handed) (entered clock from connect sessions.old)) }
    ensures err { OnErr result (sessions.new ≡ sessions.old) }
{
    sessions.enter(alloc, from, connect, clock)?;
    match place {
        Some(place) => {
            sessions.hand(place, handed, clock);
            Ok(())
        }
        None => Ok(()),
    }
}

/// Nothing is handed over.
pub fn nothing_handed() -> Handed
    ensures { result ≡ nothing_handed }
{
    Handed {
        settled: 0,
        opens: Opens::Nothing,
    }
}

/// Copies of the filters that a clean session ends and that nobody else holds, in order of first standing.
fn alone(
    alloc: Global,
    sessions: &Sessions,
    connect: &Connect,
) -> Result<Vec<TopicFilter>, AllocError>
    ensures { IfOk result (λ alone. alone.items ≡ alone_by connect.now sessions.now) }
{
    if connect.flags.clean {
        if let Some(place) = sessions.find(&connect.client_id) {
            let alone = alone_at(alloc, sessions, place)?;
            return Ok(alone);
        }
    }
    Ok(Vec::new(alloc))
}

/// Of the client at this place.
fn alone_at(
    alloc: Global,
    sessions: &Sessions,
    place: usize,
) -> Result<Vec<TopicFilter>, AllocError>
    requires { place < length sessions.now }
    ensures { IfOk result (λ alone. alone.items
        ≡ alone_in (held_beside sessions.now place) (client_at sessions.now place).filters) }
{
    let mut alone = Vec::new(alloc);
    let filters = sessions.filters(place);
    for held in filters {
        add_alone(sessions, place, held, &mut alone)?;
    }
    Ok(alone)
}

/// The filter of the client at this place joins, where nobody else holds it.
fn add_alone(
    sessions: &Sessions,
    place: usize,
    held: &Held,
    alone: &mut Vec<TopicFilter>,
) -> Result<(), AllocError>
    requires { place < length sessions.now }
    ensures { OnOk result (alone.new.items
        ≡ alone.old.items ++ alone_in (held_beside sessions.now place) (held.now ∷ [])) }
{
    if !sessions.is_held_by_others(place, &held.filter) {
        alone.push(held.filter.copy()?)?;
    }
    Ok(())
}

/// How many UNSUBSCRIBEs of these filters find no place.
fn unplaced(filters: &Vec<TopicFilter>, link: &Link, limits: Limits) -> usize
    ensures { result ≡ length filters.now.items - places_left limits link.now.link }
{
    beyond(filters.len(), link.places_left(limits))
}

/// How many of so many find none of these places.
fn beyond(count: usize, places: usize) -> usize
    ensures { result ≡ count - places }
{
    if count > places { count - places } else { 0 }
}

/// The filters are wanted no more, and the broker is told so while the limits leave place. Takes no memory.
fn let_go(link: &mut Link, limits: Limits, filters: Vec<TopicFilter>)
    requires { HasPlaces (length filters.items) link.old }
    ensures { link.new.link ≡ let_go limits link.old.link filters.items }
{
    for filter in filters {
        let_go_one(link, limits, filter);
    }
}

/// The filter is wanted no more, and the broker is told so where the limits leave place. Takes no memory.
fn let_go_one(link: &mut Link, limits: Limits, filter: TopicFilter)
    requires { HasPlaces 1 link.old }
    ensures link { link.new.link ≡ let_go_one limits link.old.link filter }
    ensures room { (count : ℕ) → HasPlaces (suc count) link.old → HasPlaces count link.new }
{
    link.unwant(&filter);
    if link.has_place(limits) {
        link.unsubscribe(filter);
    }
}

/// What is let out before its answer as it is accepted, where so many UNSUBSCRIBEs find no place.
fn accepted_outs(
    alloc: Global,
    from: Address,
    id: &ClientId,
    sessions: &Sessions,
    at: Option<usize>,
    dropped: usize,
) -> Result<Outs, AllocError>
    requires { at ≡ place_at from sessions.now }
    ensures { IfOk result (λ outs. outs ≡ accepted_outs from id.now sessions.now dropped) }
{
    let mut outs = Outs::with_capacity(alloc, 4)?;
    outs.push(Out::Note(Decision::Connect(id.copy()?, Outcome::Allowed)))?;
    moved_outs(alloc, from, id, sessions, &mut outs)?;
    put_out(id, sessions, at, &mut outs)?;
    dropped_notes(dropped, &mut outs)?;
    Ok(outs)
}

/// The client is dismissed where it was before.
fn moved_outs(
    alloc: Global,
    from: Address,
    id: &ClientId,
    sessions: &Sessions,
    outs: &mut Outs,
) -> Result<(), AllocError>
    ensures { OnOk result (outs.new ≡ outs.old
        ++ moved_outs from (at_place sessions.now (place_of id.now sessions.now))) }
{
    if let Some(place) = sessions.find(id) {
        let before = sessions.address(place);
        if sessions.phase(place).has_session() && before != from {
            outs.push(dismissed(alloc, before)?)?;
        }
    }
    Ok(())
}

/// Another client at the address, which is at this place, leaves, and what waits for it is gone.
fn put_out(
    id: &ClientId,
    sessions: &Sessions,
    at: Option<usize>,
    outs: &mut Outs,
) -> Result<(), AllocError>
    requires { IfSome at (λ place. place < length sessions.now) }
    ensures { OnOk result (outs.new ≡ outs.old ++ put_out id.now (at_place sessions.now at)) }
{
    if let Some(place) = at {
        let other = sessions.id(place);
        if id != other {
            outs.push(Out::Note(Decision::Left(other.copy()?)))?;
            all_gone(other, sessions.queue(place), outs)?;
        }
    }
    Ok(())
}

/// An UNSUBSCRIBE is dropped, so many times.
fn dropped_notes(count: usize, outs: &mut Outs) -> Result<(), AllocError>
    ensures { OnOk result (outs.new ≡ outs.old ++ dropped_notes count) }
{
    for turn in 0..count {
        outs.push(Out::Note(Decision::Outbox))?;
    }
    Ok(())
}

/// It is denied by this rule.
fn refused_outs(
    alloc: Global,
    from: Address,
    id: &ClientId,
    rule: Denial,
) -> Result<OutsPair, AllocError>
    ensures { IfOk result (λ outs. outs ≡ refused_outs from id.now rule) }
{
    let mut outs = Outs::with_capacity(alloc, 2)?;
    let code = code_of(&rule);
    outs.push(Out::Note(Decision::Connect(id.copy()?, Outcome::Denied(rule))))?;
    outs.push(connack(alloc, from, code)?)?;
    let outs = OutsPair::of(alloc, outs)?;
    Ok(outs)
}
