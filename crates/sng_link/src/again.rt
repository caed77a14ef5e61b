//! As a connection begins, the publishes in flight are judged by the policy in force. Those that are still
//! allowed are sent again under their packet ids, as new messages of the new session, and the others are in
//! flight no more (MQTT 3.1.1, 3.3.1.1 and 4.4). Behind them each filter that is wanted is subscribed anew
//! (3.8).
ghost use Rattle.std.specs.Prelude.{◌≡◌, ◌≤◌, ◌++◌, ℕ, Bool, List, [], map, IfOk, OnOk, OnErr};
ghost use Rattle.sng_grants.specs.declared.limits.TheConstants.{MAX_FLIGHT};
ghost use Rattle.sng_outbox.specs.Sending.{load};
ghost use Rattle.sng_book.specs.declared.out.Out.{Out as out_type};
ghost use Rattle.sng_book.specs.Denials.{is_allowed};
ghost use Rattle.sng_history.specs.Links.{Link, Wanted as Entry, filters_wanted, resumed, subscribes_sent};
ghost use Rattle.sng_history.specs.Exits.{agains_of, beginning, resending, sent_again};
ghost use Rattle.sng_history.specs.Verdicts.{exit};
ghost use Rattle.sng_link.specs.Flights.{link_of, ids_in_use, AreMarked, OwedAreClosed};
ghost use Rattle.sng_link.specs.Resending.{denied_id, denied_ids, denied_step, denied_steps, freed_all};
ghost use Rattle.sng_link.specs.Resending.{without_all};
ghost use Rattle.sng_link.specs.Steps.{Logged};
ghost use Rattle.sng_link.specs.Taking.{Stands, Subscribed};

use crate::leaving::{leave_filter, packet_of};
use crate::step::{Step, undo};
use sng_book::{Decision, Out, Outs, OutsPair, Who};
use sng_history::exit;
use sng_outbox::{Item, Outbox, PacketIds, Publication};
use sng_policy::InForce;
use sng_text::TopicFilter;
use sng_wanted::Wanted;
use std::alloc::{AllocError, Global};

/// What goes out as a connection begins. The publishes that are denied are in flight no more, and the
/// SUBSCRIBEs are the open ones of their filters, or owed. An `Err` is a failed allocation; then everything is
/// as before.
pub fn begin(
    alloc: Global,
    policy: &InForce,
    outbox: &mut Outbox,
    ids: &mut PacketIds,
    wanted: &mut Wanted,
) -> Result<OutsPair, AllocError>
    requires marked { AreMarked (ids_in_use outbox.old.sending.in_flight wanted.old.wanted) ids.old.marks }
    requires closed { OwedAreClosed wanted.old.wanted }
    requires few { load outbox.old.sending ≤ MAX_FLIGHT }
    ensures outs { IfOk result (λ outs. (clock pinged : ℕ) → outs
        ≡ beginning (link_of outbox.old.sending ids.old wanted.old.wanted pinged) clock
        (agains_of policy.now outbox.old.sending.in_flight)) }
    ensures after { OnOk result ((clock pinged : ℕ)
        → link_of outbox.new.sending ids.new wanted.new.wanted clock
        ≡ subscribes_sent (resumed (link_of outbox.old.sending ids.old wanted.old.wanted pinged) clock
        (agains_of policy.now outbox.old.sending.in_flight))
        (filters_wanted (link_of outbox.old.sending ids.old wanted.old.wanted pinged))) }
    ensures marked { AreMarked (ids_in_use outbox.new.sending.in_flight wanted.new.wanted) ids.new.marks }
    ensures closed { OwedAreClosed wanted.new.wanted }
    ensures room { (outbox.new.places ≡ outbox.old.places) × (outbox.new.flights ≡ outbox.old.flights)
        × (wanted.new.room ≡ wanted.old.room) }
    ensures err { OnErr result ((outbox.new ≡ outbox.old) × (ids.new ≡ ids.old)
        × (wanted.new ≡ wanted.old)) }
{
    let last = ids.last();
    // No filter stands twice, and no more SUBSCRIBEs are open than may be.
    let stand = wanted.len();
    let _opens = wanted.opens();
    outbox.tidy();
    let filters = wanted.filters(alloc)?;
    let resent = resend(alloc, policy, outbox, stand)?;
    let Resent {
        outs,
        mut log,
        denied,
    } = resent;
    free_all(ids, log.as_slice());
    match subscribe_all(alloc, policy, filters, ids, wanted, outs, &mut log) {
        Ok(outs) => {
            forget_all(outbox, denied.as_slice());
            Ok(outs)
        }
        Err(AllocError) => {
            undo(ids, wanted, log, last);
            Err(AllocError)
        }
    }
}

/// What the publishes in flight come to as a connection begins.
#[derive(Drop)]
struct Resent {
    outs: Outs,
    /// A step for each that does not stay in flight.
    log: Vec<Step>,
    /// The packet ids of these.
    denied: Vec<u16>,
}

/// The same, with room for so many SUBSCRIBEs behind it. All of it is made here, and so it is owned at no way out
/// of the one that needs it. Only memory can fail.
fn resend(
    alloc: Global,
    policy: &InForce,
    outbox: &Outbox,
    stand: usize,
) -> Result<Resent, AllocError>
    ensures outs { IfOk result (λ resent. resent.outs
        ≡ resending outbox.now.sending.in_flight (agains_of policy.now outbox.now.sending.in_flight)) }
    ensures denied { IfOk result (λ resent. resent.denied.items ≡ denied_ids outbox.now.sending.in_flight
        (map is_allowed (agains_of policy.now outbox.now.sending.in_flight))) }
    ensures log { IfOk result (λ resent. resent.log.items ≡ denied_steps outbox.now.sending.in_flight
        (map is_allowed (agains_of policy.now outbox.now.sending.in_flight))) }
{
    let count = outbox.in_flight();
    let mut log = Vec::with_capacity(alloc, count.saturating_add(stand))?;
    let mut outs = Outs::with_capacity(alloc, count.saturating_mul(2).saturating_add(stand))?;
    let denied = judge(alloc, policy, outbox, &mut outs, &mut log)?;
    Ok(Resent { outs, log, denied })
}

/// What the publishes in flight let out, behind the outs, and the packet ids of those that do not stay in
/// flight. The log has a step for each of them. After an `Err` a part of it may be there.
fn judge(
    alloc: Global,
    policy: &InForce,
    outbox: &Outbox,
    outs: &mut Outs,
    log: &mut Vec<Step>,
) -> Result<Vec<u16>, AllocError>
    requires { log.old.items ≡ [] }
    ensures outs { OnOk result (outs.new ≡ outs.old
        ++ resending outbox.now.sending.in_flight (agains_of policy.now outbox.now.sending.in_flight)) }
    ensures denied { IfOk result (λ denied. denied.items ≡ denied_ids outbox.now.sending.in_flight
        (map is_allowed (agains_of policy.now outbox.now.sending.in_flight))) }
    ensures log { OnOk result (log.new.items ≡ denied_steps outbox.now.sending.in_flight
        (map is_allowed (agains_of policy.now outbox.now.sending.in_flight))) }
{
    let mut denied = Vec::new(alloc);
    let count = outbox.in_flight();
    for place in 0..count {
        let Some((packet_id, publication)) = outbox.again(place) else {
            unreachable!()
        };
        let stays = sent_again(alloc, policy, packet_id, publication, outs)?;
        note_denied(packet_id, stays, &mut denied, log)?;
    }
    Ok(denied)
}

/// The packet id is denied, and will be free, where its publish does not stay.
fn note_denied(
    packet_id: u16,
    stays: bool,
    denied: &mut Vec<u16>,
    log: &mut Vec<Step>,
) -> Result<(), AllocError>
    ensures denied { OnOk result (denied.new.items ≡ denied.old.items ++ denied_id packet_id stays) }
    ensures log { OnOk result (log.new.items ≡ log.old.items ++ denied_step packet_id stays) }
{
    if stays {
        return Ok(());
    }
    denied.push(packet_id)?;
    log.push(Step {
        packet_id: None,
        former: Some(packet_id),
        owed: false,
        owes: None,
    })?;
    Ok(())
}

/// The packet ids that these steps give up are free. Takes no memory.
fn free_all(ids: &mut PacketIds, log: &[Step])
    ensures { ids.new ≡ record ids.old { marks = freed_all ids.old.marks log.now } }
{
    for step in log {
        if let Some(former) = step.former {
            ids.free(former);
        }
    }
}

/// A SUBSCRIBE of each of these filters leaves, in order (3.8). They come behind the outs, and the answer has
/// all. An `Err` is a failed allocation: the log has the steps that were taken so far.
fn subscribe_all(
    alloc: Global,
    policy: &InForce,
    filters: Vec<TopicFilter>,
    ids: &mut PacketIds,
    wanted: &mut Wanted,
    mut outs: Outs,
    log: &mut Vec<Step>,
) -> Result<OutsPair, AllocError>
    requires { (from : List Bool) × (first : List Entry) × (link : Link)
        × Stands from first (map Item.Subscribe filters.items) log.old.items ids.old wanted.old.wanted link }
    ensures subscribed { IfOk result (λ pair. (from : List Bool) (first : List Entry) (link : Link)
        → Stands from first (map Item.Subscribe filters.items) log.old.items ids.old wanted.old.wanted link
        → (more : List out_type) × (pair ≡ outs ++ more)
        × Subscribed policy.now from first link (map Item.Subscribe filters.items) [] more log.new.items
        ids.new wanted.new.wanted) }
    ensures room { wanted.new.room ≡ wanted.old.room }
    ensures logged { (from : List Bool) (first : List Entry) (link : Link)
        → Stands from first (map Item.Subscribe filters.items) log.old.items ids.old wanted.old.wanted link
        → Logged from first log.new.items ids.new.marks wanted.new.wanted }
{
    subscribe_each(alloc, policy, filters, ids, wanted, &mut outs, log)?;
    let pair = OutsPair::of(alloc, outs)?;
    Ok(pair)
}

/// The same, where the outs stay with the caller.
fn subscribe_each(
    alloc: Global,
    policy: &InForce,
    filters: Vec<TopicFilter>,
    ids: &mut PacketIds,
    wanted: &mut Wanted,
    outs: &mut Outs,
    log: &mut Vec<Step>,
) -> Result<(), AllocError>
    requires { (from : List Bool) × (first : List Entry) × (link : Link)
        × Stands from first (map Item.Subscribe filters.items) log.old.items ids.old wanted.old.wanted link }
    ensures subscribed { OnOk result ((from : List Bool) (first : List Entry) (link : Link)
        → Stands from first (map Item.Subscribe filters.items) log.old.items ids.old wanted.old.wanted link
        → (more : List out_type) × (outs.new ≡ outs.old ++ more)
        × Subscribed policy.now from first link (map Item.Subscribe filters.items) [] more log.new.items
        ids.new wanted.new.wanted) }
    ensures room { wanted.new.room ≡ wanted.old.room }
    ensures logged { (from : List Bool) (first : List Entry) (link : Link)
        → Stands from first (map Item.Subscribe filters.items) log.old.items ids.old wanted.old.wanted link
        → Logged from first log.new.items ids.new.marks wanted.new.wanted }
{
    for filter in filters {
        leave_filter(alloc, policy, ids, wanted, filter, outs, log)?;
    }
    Ok(())
}

/// A publish in flight under this packet id is judged, with a note, and behind the note of an allowed one its
/// packet comes: whether it stays in flight. After an `Err` the note may be there.
fn sent_again(
    alloc: Global,
    policy: &InForce,
    packet_id: u16,
    publication: &Publication,
    outs: &mut Outs,
) -> Result<bool, AllocError>
    ensures outs { OnOk result (outs.new ≡ outs.old
        ++ sent_again (record { packet_id = packet_id; publication = publication.now })
        (exit policy.now publication.now.origin publication.now.name)) }
    ensures stays { IfOk result (λ stays. stays
        ≡ is_allowed (exit policy.now publication.now.origin publication.now.name)) }
{
    // The outcome comes last, and so it is owned at no way out.
    let name = &publication.name;
    let shown = name.copy()?;
    let origin = publication.origin.copy()?;
    let outcome = exit(alloc, policy, &publication.origin, name)?;
    let is_allowed = outcome.is_allowed();
    outs.push(Out::Note(Decision::Again(Who::from(origin), shown, outcome)))?;
    if is_allowed {
        let packet = packet_of(alloc, publication, Some(packet_id))?;
        outs.push(Out::Wire(packet))?;
    }
    Ok(is_allowed)
}

/// The publishes with these packet ids are in flight no more. Takes no memory.
fn forget_all(outbox: &mut Outbox, denied: &[u16])
    ensures { outbox.new ≡ record outbox.old {
      sending = record outbox.old.sending {
        in_flight = without_all outbox.old.sending.in_flight denied.now;
      };
    } }
{
    for packet_id in denied {
        let _found = outbox.acked(*packet_id);
    }
}
