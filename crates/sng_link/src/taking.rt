//! All that has to leaves at once: it is planned, which may fail, and then carried out, which may not (MQTT
//! 3.1.1, 2.3.1 and 4.3.2).
ghost use Rattle.std.specs.Prelude.{◌≡◌, ◌≤◌, ◌<◌, ℕ, Bool, List, [], ◌++◌, true, length};
ghost use Rattle.std.specs.Prelude.{IfOk, OnOk, OnErr};
ghost use Rattle.sng_grants.specs.declared.limits.TheConstants.{MAX_FLIGHT};
ghost use Rattle.sng_book.specs.declared.out.Out.{Out as out_type};
ghost use Rattle.sng_outbox.specs.Sending.{asks_for_ack, load};
ghost use Rattle.sng_history.specs.Links.{Link, Wanted as Entry, link_after, outgoing};
ghost use Rattle.sng_history.specs.Exits.{exits_of, leaving};
ghost use Rattle.sng_link.specs.Flights.{link_of, ids_of, ids_in_use, AreDistinct, AreMarked, OwedAreClosed};
ghost use Rattle.sng_link.specs.Steps.{Logged};
ghost use Rattle.sng_link.specs.Taking.{flight, flights, Stands, Subscribed};

use crate::leaving::{leave_filter, plan};
use crate::step::{Step, undo};
use sng_book::{Outs, OutsPair};
use sng_history::MAX_OPEN_SUBSCRIBES;
use sng_outbox::{Item, Outbox, PacketIds};
use sng_policy::InForce;
use sng_text::Qos;
use sng_wanted::Wanted;
use std::alloc::{AllocError, Global};

/// All that has to leaves, in order: what it lets out. An `Err` is a failed allocation; then everything is as
/// before.
pub fn take(
    alloc: Global,
    policy: &InForce,
    outbox: &mut Outbox,
    ids: &mut PacketIds,
    wanted: &mut Wanted,
) -> Result<OutsPair, AllocError>
    requires marked { AreMarked (ids_in_use outbox.old.sending.in_flight wanted.old.wanted) ids.old.marks }
    requires closed { OwedAreClosed wanted.old.wanted }
    requires few { load outbox.old.sending ≤ MAX_FLIGHT }
    ensures outs { IfOk result (λ outs. (pinged : ℕ) → outs
        ≡ (let link = link_of outbox.old.sending ids.old wanted.old.wanted pinged in
        leaving link (outgoing link) (exits_of policy.now (outgoing link)))) }
    ensures after { OnOk result ((pinged : ℕ)
        → link_of outbox.new.sending ids.new wanted.new.wanted pinged
        ≡ (let link = link_of outbox.old.sending ids.old wanted.old.wanted pinged in
        record (link_after link (outgoing link) (exits_of policy.now (outgoing link))) { waiting = [] })) }
    ensures marked { AreMarked (ids_in_use outbox.new.sending.in_flight wanted.new.wanted) ids.new.marks }
    ensures closed { OwedAreClosed wanted.new.wanted }
    ensures room { (outbox.new.places ≡ outbox.old.places) × (outbox.new.flights ≡ outbox.old.flights)
        × (wanted.new.room ≡ wanted.old.room) }
    ensures err { OnErr result ((outbox.new ≡ outbox.old) × (ids.new ≡ ids.old)
        × (wanted.new ≡ wanted.old)) }
{
    let last = ids.last();
    // No filter stands twice, and no more SUBSCRIBEs are open than may be.
    let _stand = wanted.len();
    let _opens = wanted.opens();
    let mut log = Vec::new(alloc);
    match leave_all(alloc, policy, outbox, ids, wanted, &mut log) {
        Ok(outs) => Ok(outs),
        Err(AllocError) => {
            undo(ids, wanted, log, last);
            Err(AllocError)
        }
    }
}

/// A SUBSCRIBE of each filter of which one is owed leaves, and then what waits. The log has the steps of the
/// first. After an `Err` nothing that waits has left.
fn leave_all(
    alloc: Global,
    policy: &InForce,
    outbox: &mut Outbox,
    ids: &mut PacketIds,
    wanted: &mut Wanted,
    log: &mut Vec<Step>,
) -> Result<OutsPair, AllocError>
    requires stands { (pinged : ℕ) → (let link = link_of outbox.old.sending ids.old wanted.old.wanted pinged in
        Stands ids.old.marks wanted.old.wanted (outgoing link) [] ids.old wanted.old.wanted link) }
    requires no_log { log.old.items ≡ [] }
    ensures outs { IfOk result (λ outs. (pinged : ℕ) → outs
        ≡ (let link = link_of outbox.old.sending ids.old wanted.old.wanted pinged in
        leaving link (outgoing link) (exits_of policy.now (outgoing link)))) }
    ensures after { OnOk result ((pinged : ℕ)
        → link_of outbox.new.sending ids.new wanted.new.wanted pinged
        ≡ (let link = link_of outbox.old.sending ids.old wanted.old.wanted pinged in
        record (link_after link (outgoing link) (exits_of policy.now (outgoing link))) { waiting = [] })) }
    ensures marked { OnOk result
        (AreMarked (ids_in_use outbox.new.sending.in_flight wanted.new.wanted) ids.new.marks) }
    ensures closed { OnOk result (OwedAreClosed wanted.new.wanted) }
    ensures room { (outbox.new.places ≡ outbox.old.places) × (outbox.new.flights ≡ outbox.old.flights)
        × (wanted.new.room ≡ wanted.old.room) }
    ensures err { OnErr result (outbox.new ≡ outbox.old) }
    ensures logged { OnErr result
        (Logged ids.old.marks wanted.old.wanted log.new.items ids.new.marks wanted.new.wanted) }
{
    let count = outbox.len();
    let mut outs = Outs::with_capacity(alloc, count.saturating_mul(2))?;
    leave_owed(alloc, policy, ids, wanted, &mut outs, log)?;
    let all = leave_waiting(alloc, policy, outbox, ids, wanted, outs)?;
    Ok(all)
}

/// A SUBSCRIBE of each filter of which one is owed leaves, in order, while one more may be open. They come
/// behind the outs. An `Err` is a failed allocation: the log has the steps that were taken so far.
fn leave_owed(
    alloc: Global,
    policy: &InForce,
    ids: &mut PacketIds,
    wanted: &mut Wanted,
    outs: &mut Outs,
    log: &mut Vec<Step>,
) -> Result<(), AllocError>
    requires { (from : List Bool) × (first : List Entry) × (link : Link)
        × Stands from first (outgoing link) log.old.items ids.old wanted.old.wanted link }
    ensures subscribed { OnOk result ((from : List Bool) (first : List Entry) (link : Link)
        → Stands from first (outgoing link) log.old.items ids.old wanted.old.wanted link
        → (more : List out_type) × (outs.new ≡ outs.old ++ more)
        × Subscribed policy.now from first link (outgoing link) link.waiting more log.new.items ids.new
        wanted.new.wanted) }
    ensures room { wanted.new.room ≡ wanted.old.room }
    ensures logged { (from : List Bool) (first : List Entry) (link : Link)
        → Stands from first (outgoing link) log.old.items ids.old wanted.old.wanted link
        → Logged from first log.new.items ids.new.marks wanted.new.wanted }
{
    let opens = wanted.opens();
    for _turn in opens..MAX_OPEN_SUBSCRIBES {
        let owed = wanted.next_owed()?;
        let Some(filter) = owed else {
            return Ok(());
        };
        leave_filter(alloc, policy, ids, wanted, filter, outs, log)?;
    }
    Ok(())
}

/// All that waits leaves, in order: what it lets out comes behind the outs. An `Err` is a failed allocation;
/// then everything is as before.
fn leave_waiting(
    alloc: Global,
    policy: &InForce,
    outbox: &mut Outbox,
    ids: &mut PacketIds,
    wanted: &mut Wanted,
    outs: Outs,
) -> Result<OutsPair, AllocError>
    requires { (pinged : ℕ) → Stands ids.old.marks wanted.old.wanted outbox.old.sending.waiting []
        ids.old wanted.old.wanted (link_of outbox.old.sending ids.old wanted.old.wanted pinged) }
    ensures outs { IfOk result (λ pair. (pinged : ℕ) → pair ≡ outs
        ++ leaving (link_of outbox.old.sending ids.old wanted.old.wanted pinged) outbox.old.sending.waiting
        (exits_of policy.now outbox.old.sending.waiting)) }
    ensures after { OnOk result ((pinged : ℕ)
        → link_of outbox.new.sending ids.new wanted.new.wanted pinged
        ≡ record (link_after (link_of outbox.old.sending ids.old wanted.old.wanted pinged)
        outbox.old.sending.waiting (exits_of policy.now outbox.old.sending.waiting)) { waiting = [] }) }
    ensures marked { OnOk result
        (AreMarked (ids_in_use outbox.new.sending.in_flight wanted.new.wanted) ids.new.marks) }
    ensures closed { OnOk result (OwedAreClosed wanted.new.wanted) }
    ensures room { (outbox.new.places ≡ outbox.old.places) × (outbox.new.flights ≡ outbox.old.flights)
        × (wanted.new.room ≡ wanted.old.room) }
    ensures err { OnErr result ((outbox.new ≡ outbox.old) × (ids.new ≡ ids.old)
        × (wanted.new ≡ wanted.old)) }
{
    let last = ids.last();
    let mut log = Vec::with_capacity(alloc, outbox.len())?;
    match plan(alloc, policy, outbox, ids, wanted, outs, &mut log) {
        Ok(outs) => {
            carry_out(outbox, log.as_slice());
            Ok(outs)
        }
        Err(AllocError) => {
            undo(ids, wanted, log, last);
            Err(AllocError)
        }
    }
}

/// Each item that waits leaves, in order, by the step that was planned. Takes no memory.
fn carry_out(outbox: &mut Outbox, plan: &[Step])
    requires whole { length plan.now ≡ length outbox.old.sending.waiting }
    requires distinct { AreDistinct
        (ids_of (outbox.old.sending.in_flight ++ flights outbox.old.sending.waiting plan.now)) }
    ensures { outbox.new ≡ record outbox.old {
      sending = record {
        waiting = [];
        in_flight = outbox.old.sending.in_flight ++ flights outbox.old.sending.waiting plan.now;
      };
    } }
{
    for step in plan {
        if let Some(item) = outbox.settle() {
            carry(outbox, item, step.packet_id);
        }
    }
}

/// A publish of QoS 1 with a packet id is in flight, behind the others (4.3.2).
fn carry(outbox: &mut Outbox, item: Item, packet_id: Option<u16>)
    requires room { asks_for_ack item ≡ true → load outbox.old.sending < outbox.old.flights }
    requires distinct { AreDistinct (ids_of (outbox.old.sending.in_flight ++ flight item packet_id)) }
    ensures { outbox.new ≡ record outbox.old {
      sending = record outbox.old.sending {
        in_flight = outbox.old.sending.in_flight ++ flight item packet_id;
      };
    } }
{
    match item {
        Item::Publish(publication) => match (publication.qos, packet_id) {
            (Qos::AtLeastOnce, Some(packet_id)) => outbox.track(packet_id, publication),
            (Qos::AtLeastOnce, None) | (Qos::AtMostOnce, _) => {}
        },
        Item::Subscribe(_) | Item::Unsubscribe(_) | Item::Acknowledge(_) | Item::Ping => {}
    }
}
