//! What waits leaves for the broker, each publish judged by the policy in force (MQTT 3.1.1, 2.3.1, 3.3, 3.4,
//! 3.8, 3.10 and 3.12).
ghost use Rattle.std.specs.Prelude.{◌≡◌, ◌≤◌, ◌<◌, ℕ, List, [], ◌∷◌, ◌++◌, true, false, set, if◌then◌else◌};
ghost use Rattle.std.specs.Prelude.{IfOk, OnOk, OnErr};
ghost use Rattle.std.specs.List.{list_any};
ghost use Rattle.sng_book.specs.declared.out.Out.{Out as out_type};
ghost use Rattle.sng_history.specs.Links.{wants, may_open, opened, is_open};
ghost use Rattle.sng_history.specs.Exits.{acknowledged, forwarded, packet_of, pinging, unsubscribe_packet};
ghost use Rattle.sng_history.specs.Verdicts.{exit};
ghost use Rattle.sng_link.specs.Flights.{link_of};
ghost use Rattle.sng_link.specs.Steps.{marked, forth_marks, Logged};
ghost use Rattle.sng_link.specs.Taking.{id_at, flight_id, no_step, step_under, last_after};
ghost use Rattle.sng_link.specs.Taking.{subscribe_outs, subscribe_step, owe_step, wanted_after};
ghost use Rattle.sng_link.specs.Taking.{owing_by, IsSubscribeStep, NextIsFree, LeftBy, Stands, Planned};

use crate::step::Step;
use mqtt_frames::{
    encode_ping_request, encode_publish_ack, encode_subscribe, encode_unsubscribe, write_publish,
};
use sng_book::{Decision, Out, Outs, OutsPair, Who};
use sng_history::exit;
use sng_outbox::{Item, Outbox, PacketIds, Publication};
use sng_policy::InForce;
use sng_text::{Qos, TopicFilter, WireBytes};
use sng_wanted::Wanted;
use std::alloc::{AllocError, Global};

/// What all items that wait let out as they leave in order, behind the outs, and for each the step by which it
/// leaves. What the steps take into use is in use from then on. An `Err` is a failed allocation: the log has the
/// steps that were taken so far.
pub fn plan(
    alloc: Global,
    policy: &InForce,
    outbox: &Outbox,
    ids: &mut PacketIds,
    wanted: &mut Wanted,
    mut outs: Outs,
    log: &mut Vec<Step>,
) -> Result<OutsPair, AllocError>
    requires stands { (pinged : ℕ) → Stands ids.old.marks wanted.old.wanted outbox.now.sending.waiting []
        ids.old wanted.old.wanted (link_of outbox.now.sending ids.old wanted.old.wanted pinged) }
    requires no_log { log.old.items ≡ [] }
    ensures planned { IfOk result (λ pair. (pinged : ℕ) → (more : List out_type) × (pair ≡ outs ++ more)
        × Planned policy.now ids.old.marks
        (link_of outbox.now.sending ids.old wanted.old.wanted pinged) outbox.now.sending.waiting [] more
        log.new.items ids.new wanted.new.wanted) }
    ensures room { wanted.new.room ≡ wanted.old.room }
    ensures logged { Logged ids.old.marks wanted.old.wanted log.new.items ids.new.marks wanted.new.wanted }
{
    for item in outbox.iter() {
        leave(alloc, policy, ids, wanted, item, &mut outs, log)?;
    }
    let pair = OutsPair::of(alloc, outs)?;
    Ok(pair)
}

/// One item leaves: what it lets out comes behind the outs, and its step behind the log. An `Err` is a failed
/// allocation, and leaves a part of its outs: nothing else changes.
#[inline(always)]
pub fn leave(
    alloc: Global,
    policy: &InForce,
    ids: &mut PacketIds,
    wanted: &mut Wanted,
    item: &Item,
    outs: &mut Outs,
    log: &mut Vec<Step>,
) -> Result<(), AllocError>
    requires { NextIsFree ids.old wanted.old.wanted }
    ensures left { OnOk result (LeftBy policy.now item.now outs.old outs.new log.old.items log.new.items
        ids.old ids.new wanted.old wanted.new) }
    ensures err { OnErr result ((log.new.items ≡ log.old.items) × (ids.new ≡ ids.old)
        × (wanted.new ≡ wanted.old)) }
{
    log.reserve(1)?;
    let next = ids.next();
    match item {
        // most of what leaves: its step is made where it lies
        Item::Publish(publication) => {
            let packet_id = forwarded(alloc, policy, publication, next, outs)?;
            if let Some(packet_id) = packet_id {
                ids.mark(packet_id);
            }
            use_up(ids, packet_id);
            log.push_reserved(step_under(packet_id));
        }
        Item::Subscribe(filter) => {
            let step = subscribes(alloc, wanted, filter, next, outs)?;
            go_subscribe(ids, wanted, filter, &step);
            use_up(ids, step.packet_id);
            log.push_reserved(step);
        }
        Item::Unsubscribe(filter) => {
            let step = unsubscribes(alloc, wanted, filter, next, outs)?;
            use_up(ids, step.packet_id);
            log.push_reserved(step);
        }
        Item::Acknowledge(packet_id) => {
            acknowledges(alloc, *packet_id, outs)?;
            log.push_reserved(no_step());
        }
        Item::Ping => {
            pings(alloc, outs)?;
            log.push_reserved(no_step());
        }
    }
    Ok(())
}

/// The same of a SUBSCRIBE of the filter. The item is made and dropped here, and so it is owned at no way out of
/// those that send many.
pub fn leave_filter(
    alloc: Global,
    policy: &InForce,
    ids: &mut PacketIds,
    wanted: &mut Wanted,
    filter: TopicFilter,
    outs: &mut Outs,
    log: &mut Vec<Step>,
) -> Result<(), AllocError>
    requires { NextIsFree ids.old wanted.old.wanted }
    ensures left { OnOk result (LeftBy policy.now (Item.Subscribe filter) outs.old outs.new log.old.items
        log.new.items ids.old ids.new wanted.old wanted.new) }
    ensures err { OnErr result ((log.new.items ≡ log.old.items) × (ids.new ≡ ids.old)
        × (wanted.new ≡ wanted.old)) }
{
    leave(
        alloc,
        policy,
        ids,
        wanted,
        &Item::Subscribe(filter),
        outs,
        log,
    )
}

/// This packet id is used up, where it is one.
fn use_up(ids: &mut PacketIds, packet_id: Option<u16>)
    ensures { ids.new ≡ record ids.old { last = last_after ids.old.last packet_id } }
{
    if let Some(packet_id) = packet_id {
        ids.count_from(packet_id);
    }
}

/// A SUBSCRIBE of the filter leaves by this step, or is owed.
#[inline(never)]
fn go_subscribe(ids: &mut PacketIds, wanted: &mut Wanted, filter: &TopicFilter, step: &Step)
    requires { IsSubscribeStep wanted.old.wanted filter.now step.now }
    ensures ids { ids.new ≡ record ids.old { marks = forth_marks ids.old.marks step.now } }
    ensures wanted { wanted.new ≡ record wanted.old {
      wanted = wanted_after wanted.old.wanted (Item.Subscribe filter.now) step.now;
    } }
{
    if let Some(packet_id) = step.packet_id {
        subscribed(ids, wanted, filter, packet_id, step.former);
    }
    owe(wanted, &step.owes);
}

/// The SUBSCRIBE with this packet id is the open one of the filter, and the former packet id is free.
fn subscribed(
    ids: &mut PacketIds,
    wanted: &mut Wanted,
    filter: &TopicFilter,
    packet_id: u16,
    former: Option<u16>,
)
    requires free { list_any (is_open packet_id) wanted.old.wanted ≡ false }
    requires may { may_open wanted.old.wanted filter.now ≡ true }
    ensures ids { ids.new ≡ record ids.old {
      marks = marked (set ids.old.marks packet_id true) former false;
    } }
    ensures wanted { wanted.new
        ≡ record wanted.old { wanted = opened wanted.old.wanted filter.now packet_id } }
{
    wanted.open(filter, packet_id);
    ids.mark(packet_id);
    if let Some(former) = former {
        ids.free(former);
    }
}

/// A SUBSCRIBE of the filter is owed, where there is one.
fn owe(wanted: &mut Wanted, filter: &Option<TopicFilter>)
    ensures { wanted.new ≡ record wanted.old { wanted = owing_by wanted.old.wanted filter.now } }
{
    if let Some(filter) = filter {
        wanted.owe(filter);
    }
}

/// Nothing is taken into use.
fn no_step() -> Step
    ensures { result ≡ no_step }
{
    step_under(None)
}

/// This packet id is used up, where it is one, and no former one is free.
fn step_under(packet_id: Option<u16>) -> Step
    ensures { result ≡ step_under packet_id }
{
    Step {
        packet_id,
        former: None,
        owed: false,
        owes: None,
    }
}

/// A PUBACK goes out (3.4).
#[inline(never)]
fn acknowledges(alloc: Global, packet_id: u16, outs: &mut Outs) -> Result<(), AllocError>
    ensures { OnOk result (outs.new ≡ outs.old ++ acknowledged packet_id ∷ []) }
{
    outs.push(Out::Wire(encode_publish_ack(alloc, packet_id)?))
}

/// A PINGREQ goes out (3.12).
#[inline(never)]
fn pings(alloc: Global, outs: &mut Outs) -> Result<(), AllocError>
    ensures { OnOk result (outs.new ≡ outs.old ++ pinging ∷ []) }
{
    outs.push(Out::Wire(encode_ping_request(alloc)?))
}

/// A SUBSCRIBE has to leave where its filter is wanted (3.8).
#[inline(never)]
fn subscribes(
    alloc: Global,
    wanted: &Wanted,
    filter: &TopicFilter,
    next: u16,
    outs: &mut Outs,
) -> Result<Step, AllocError>
    requires { 0 < next }
    ensures outs { OnOk result (outs.new ≡ outs.old
        ++ (if wants wanted.now.wanted filter.now then subscribe_outs wanted.now.wanted next filter.now
        else [])) }
    ensures step { IfOk result (λ step. step
        ≡ (if wants wanted.now.wanted filter.now then subscribe_step wanted.now.wanted next filter.now
        else no_step)) }
{
    if wanted.is_wanted(filter) {
        subscribe(alloc, wanted, filter, next, outs)
    } else {
        Ok(no_step())
    }
}

/// The SUBSCRIBE goes out at QoS 1 where it may be open: its packet id is then the open one of the filter. Else
/// it is owed.
fn subscribe(
    alloc: Global,
    wanted: &Wanted,
    filter: &TopicFilter,
    next: u16,
    outs: &mut Outs,
) -> Result<Step, AllocError>
    requires { 0 < next }
    ensures outs { OnOk result (outs.new ≡ outs.old ++ subscribe_outs wanted.now.wanted next filter.now) }
    ensures step { IfOk result (λ step. step ≡ subscribe_step wanted.now.wanted next filter.now) }
{
    if !wanted.may_open(filter) {
        return owed_step(wanted, filter);
    }
    let packet = encode_subscribe(alloc, next, filter, Qos::AtLeastOnce)?;
    outs.push(Out::Wire(packet))?;
    Ok(Step {
        packet_id: Some(next),
        former: wanted.open_id(filter),
        owed: wanted.is_owed(filter),
        owes: None,
    })
}

/// A SUBSCRIBE of the filter is owed, where none was.
fn owed_step(wanted: &Wanted, filter: &TopicFilter) -> Result<Step, AllocError>
    ensures { IfOk result (λ step. step ≡ owe_step wanted.now.wanted filter.now) }
{
    if wanted.is_owed(filter) {
        return Ok(no_step());
    }
    Ok(Step {
        packet_id: None,
        former: None,
        owed: false,
        owes: Some(filter.copy()?),
    })
}

/// An UNSUBSCRIBE goes out where its filter is not wanted (3.10). Nothing waits for its answer.
#[inline(never)]
fn unsubscribes(
    alloc: Global,
    wanted: &Wanted,
    filter: &TopicFilter,
    next: u16,
    outs: &mut Outs,
) -> Result<Step, AllocError>
    requires { 0 < next }
    ensures outs { OnOk result (outs.new ≡ outs.old
        ++ (if wants wanted.now.wanted filter.now then []
        else unsubscribe_packet next filter.now ∷ [])) }
    ensures step { IfOk result (λ step. step
        ≡ (if wants wanted.now.wanted filter.now then no_step else step_under (Some next))) }
{
    if wanted.is_wanted(filter) {
        return Ok(no_step());
    }
    let packet = encode_unsubscribe(alloc, next, filter)?;
    outs.push(Out::Wire(packet))?;
    Ok(step_under(Some(next)))
}

/// A publish leaves with the note of its judgement, and behind an allowed one its packet.
fn forwarded(
    alloc: Global,
    policy: &InForce,
    publication: &Publication,
    next: u16,
    outs: &mut Outs,
) -> Result<Option<u16>, AllocError>
    ensures outs { OnOk result (outs.new ≡ outs.old
        ++ forwarded publication.now (id_at publication.now.qos next)
        (exit policy.now publication.now.origin publication.now.name)) }
    ensures packet_id { IfOk result (λ packet_id. packet_id
        ≡ flight_id publication.now.qos next (exit policy.now publication.now.origin publication.now.name)) }
{
    // The outcome comes last, and so it is owned at no way out.
    let name = &publication.name;
    let shown = name.copy()?;
    let origin = publication.origin.copy()?;
    let outcome = exit(alloc, policy, &publication.origin, name)?;
    let is_allowed = outcome.is_allowed();
    outs.push(Out::Note(Decision::Forward(Who::from(origin), shown, outcome)))?;
    if !is_allowed {
        return Ok(None);
    }
    let packet_id = id_at(publication.qos, next);
    outs.push(Out::Wire(packet_of(alloc, publication, packet_id)?))?;
    Ok(packet_id)
}

/// The packet id of a publish at this QoS; at QoS 0 it has none (2.3.1).
fn id_at(qos: Qos, next: u16) -> Option<u16>
    ensures { result ≡ id_at qos next }
{
    match qos {
        Qos::AtMostOnce => None,
        Qos::AtLeastOnce => Some(next),
    }
}

/// The packet of a publish under this packet id, sent for the first time.
#[inline(always)]
pub fn packet_of(
    alloc: Global,
    publication: &Publication,
    packet_id: Option<u16>,
) -> Result<WireBytes, AllocError>
    ensures { IfOk result (λ packet. packet ≡ packet_of publication.now packet_id) }
{
    let payload = publication.payload.as_slice();
    write_publish(
        alloc,
        &publication.name,
        payload,
        publication.retain,
        packet_id,
    )
}
