//! Another policy comes into force: each subscription that it does not allow ends (MQTT-SN 1.2, 6.9). What
//! ends is planned first, with all memory, and what changes cannot fail.
ghost use Rattle.std.specs.Prelude.{◌≡◌, ◌≤◌, ◌<◌, ◌+◌, ◌*◌, ◌++◌, [], ℕ, suc, length, IfOk, OnOk, OnErr, Some};
ghost use Rattle.sng_history.specs.Good.{Each, AllCovered};
ghost use Rattle.sng_history.specs.Verdicts.{coverage};
ghost use Rattle.sng_link.specs.Rooms.{HasPlaces};
ghost use Rattle.sng_sessions.specs.Standing.{client_at};
ghost use Rattle.sng_endings.specs.Replacing.{moved, ended_next, ended_outs, all_next, all_outs, ending_list};
ghost use Rattle.sng_endings.specs.Replacing.{ending_of, endings_by, endings_from, let_go, untold_of};

use sng_book::{Decision, Denial, NotePair, Out, Outcome, OutsPair, ReservedOuts};
use sng_grants::Limits;
use sng_history::coverage;
use sng_link::Link;
use sng_policy::{InForce, same_scope};
use sng_sessions::Sessions;
use sng_text::{ClientId, TopicFilter};
use std::alloc::{AllocError, Global};

/// A subscription that ends: of the client at the place, with the note of it for both owners, and the filter
/// once more for what the broker is told.
#[derive(Debug, Drop)]
pub struct SubscriptionEnd {
    pub place: usize,
    pub filter: TopicFilter,
    pub note: NotePair,
}

/// The policy comes into force. The subscriptions end that it does not allow, each client's in order of first
/// standing; of a filter that stands for nobody any more the broker is told where its limits leave place. Each
/// that stands has to be allowed by the policy that was in force. Takes no memory where nothing ends. An `Err` is
/// a failed allocation, and nothing changed.
pub fn replace(
    alloc: Global,
    in_force: &mut InForce,
    policy: InForce,
    sessions: &mut Sessions,
    link: &mut Link,
) -> Result<OutsPair, AllocError>
    requires { Each (λ x. AllCovered in_force.old x.id x.filters) sessions.old }
    ensures outs { IfOk result (λ outs. outs ≡ all_outs policy.limits
        (moved link.old.link sessions.old) (endings_from policy 0 sessions.old)) }
    ensures policy { OnOk result (in_force.new ≡ policy) }
    ensures moved { OnOk result (moved link.new.link sessions.new ≡ all_next policy.limits
        (moved link.old.link sessions.old) (endings_from policy 0 sessions.old)) }
    ensures same_policy { OnErr result (in_force.new ≡ in_force.old) }
    ensures same_clients { OnErr result (sessions.new ≡ sessions.old) }
    ensures same_link { OnErr result (link.new ≡ link.old) }
{
    let endings = endings(alloc, in_force, &policy, sessions)?;
    let outs = if endings.is_empty() {
        OutsPair::empty()
    } else {
        let mut outs = room_for(alloc, endings.len())?;
        link.room(endings.len())?;
        end_all(endings, policy.limits(), sessions, link, &mut outs);
        outs.into_pair()
    };
    *in_force = policy;
    Ok(outs)
}

/// Room for what so many endings let out: two outs each.
fn room_for(alloc: Global, count: usize) -> Result<ReservedOuts, AllocError>
    ensures outs { IfOk result (λ outs. outs.outs ≡ []) }
    ensures room { IfOk result (λ outs. count * 2 ≤ outs.spare) }
{
    match count.checked_mul(2) {
        Some(room) => ReservedOuts::with_room(alloc, room),
        None => Err(AllocError),
    }
}

/// What ends under the policy, of what stood under the one in force. A client that has the same scope under both
/// policies keeps all.
pub fn endings(
    alloc: Global,
    in_force: &InForce,
    policy: &InForce,
    sessions: &Sessions,
) -> Result<Vec<SubscriptionEnd>, AllocError>
    requires { Each (λ x. AllCovered in_force.now x.id x.filters) sessions.now }
    ensures { IfOk result (λ endings. endings.items ≡ endings_from policy.now 0 sessions.now) }
{
    let mut endings = Vec::new(alloc);
    for place in 0..sessions.len() {
        add_changed(alloc, in_force, policy, sessions, place, &mut endings)?;
    }
    Ok(endings)
}

/// What ends for the client at this place comes behind the others. Where its scope is the same, all that
/// stands for it is allowed still, and is not judged again.
fn add_changed(
    alloc: Global,
    in_force: &InForce,
    policy: &InForce,
    sessions: &Sessions,
    place: usize,
    endings: &mut Vec<SubscriptionEnd>,
) -> Result<(), AllocError>
    requires covered { Each (λ x. AllCovered in_force.now x.id x.filters) sessions.now }
    requires place { place < length sessions.now }
    ensures { OnOk result (endings.new.items ≡ endings.old.items ++ endings_by policy.now place
        (client_at sessions.now place).id (client_at sessions.now place).filters) }
{
    if same_scope(in_force.policy(), policy.policy(), sessions.id(place)) {
        return Ok(());
    }
    add_endings(alloc, policy, sessions, place, endings)
}

/// These end, one after another, and the broker is told of filters that stand for nobody any more where the
/// limits leave place. Takes no memory.
pub fn end_all(
    endings: Vec<SubscriptionEnd>,
    limits: Limits,
    sessions: &mut Sessions,
    link: &mut Link,
    outs: &mut ReservedOuts,
)
    requires outs { length endings.items * 2 ≤ outs.old.spare }
    requires places { HasPlaces (length endings.items) link.old }
    ensures next { moved link.new.link sessions.new
        ≡ all_next limits (moved link.old.link sessions.old) endings.items }
    ensures outs { outs.new.outs
        ≡ outs.old.outs ++ all_outs limits (moved link.old.link sessions.old) endings.items }
    ensures spare { outs.old.spare ≤ outs.new.spare + length endings.items * 2 }
    ensures room { (count : ℕ) → HasPlaces (length endings.items + count) link.old
        → HasPlaces count link.new }
{
    for ending in endings {
        end_one(ending, limits, sessions, link, outs);
    }
}

/// One ends. Takes no memory.
fn end_one(
    ending: SubscriptionEnd,
    limits: Limits,
    sessions: &mut Sessions,
    link: &mut Link,
    outs: &mut ReservedOuts,
)
    requires outs { 2 ≤ outs.old.spare }
    requires place { HasPlaces 1 link.old }
    ensures next { moved link.new.link sessions.new
        ≡ ended_next limits (moved link.old.link sessions.old) ending }
    ensures outs { outs.new.outs
        ≡ outs.old.outs ++ ended_outs limits (moved link.old.link sessions.old) ending }
    ensures spare { outs.old.spare ≤ outs.new.spare + 2 }
    ensures room { (count : ℕ) → HasPlaces (suc count) link.old → HasPlaces count link.new }
{
    let SubscriptionEnd {
        place,
        filter,
        note,
    } = ending;
    let (note, again) = note.into_parts();
    outs.push(Out::Note(note), Out::Note(again));
    sessions.end(place, &filter);
    if !sessions.is_held(&filter) {
        let_go(filter, limits, link, outs);
    }
}

/// The filter stands for nobody any more: it is wanted no more, and the broker is told so where the limits leave
/// place; else that is noted. Takes no memory.
fn let_go(filter: TopicFilter, limits: Limits, link: &mut Link, outs: &mut ReservedOuts)
    requires outs { 1 ≤ outs.old.spare }
    requires place { HasPlaces 1 link.old }
    ensures link { link.new.link ≡ let_go limits link.old.link filter }
    ensures outs { outs.new.outs ≡ outs.old.outs ++ untold_of limits link.old.link }
    ensures spare { outs.old.spare ≤ outs.new.spare + 1 }
    ensures room { (count : ℕ) → HasPlaces (suc count) link.old → HasPlaces count link.new }
{
    link.unwant(&filter);
    if link.has_place(limits) {
        link.unsubscribe(filter);
    } else {
        outs.push(Out::Note(Decision::Outbox), Out::Note(Decision::Outbox));
    }
}

/// Those of the filters of the client at this place that end under the policy come behind the others. An
/// `Err` is a failed allocation.
fn add_endings(
    alloc: Global,
    policy: &InForce,
    sessions: &Sessions,
    place: usize,
    endings: &mut Vec<SubscriptionEnd>,
) -> Result<(), AllocError>
    requires { place < length sessions.now }
    ensures { OnOk result (endings.new.items ≡ endings.old.items
        ++ endings_by policy.now place (client_at sessions.now place).id
        (client_at sessions.now place).filters) }
{
    let client = sessions.id(place);
    for held in sessions.filters(place) {
        let planned = planned(alloc, policy, place, client, &held.filter)?;
        add(endings, planned)?;
    }
    Ok(())
}

/// The ending of the filter, where the policy does not allow it to the client. An `Err` is a failed
/// allocation.
fn planned(
    alloc: Global,
    policy: &InForce,
    place: usize,
    client: &ClientId,
    filter: &TopicFilter,
) -> Result<Option<SubscriptionEnd>, AllocError>
    ensures { IfOk result (λ planned. ending_list planned
        ≡ ending_of place client.now filter.now (coverage policy.now client.now filter.now)) }
{
    match coverage(alloc, policy, client, filter)? {
        Outcome::Allowed => Ok(None),
        Outcome::Denied(rule) => Ok(Some(ending(place, client, filter, rule)?)),
    }
}

/// The ending of the filter by this rule. An `Err` is a failed allocation.
fn ending(
    place: usize,
    client: &ClientId,
    filter: &TopicFilter,
    rule: Denial,
) -> Result<SubscriptionEnd, AllocError>
    ensures { IfOk result (λ ending. ending_list (Some ending)
        ≡ ending_of place client.now filter.now (Outcome.Denied rule)) }
{
    let note = end_note(client, filter, rule)?;
    let filter = filter.copy()?;
    Ok(SubscriptionEnd {
        place,
        filter,
        note,
    })
}

/// The note of its end, for both owners. An `Err` is a failed allocation.
fn end_note(client: &ClientId, filter: &TopicFilter, rule: Denial) -> Result<NotePair, AllocError>
    ensures { IfOk result (λ note. note ≡ Decision.End client.now filter.now (Outcome.Denied rule)) }
{
    let (client, filter) = copies(client, filter)?;
    NotePair::of(Decision::End(client, filter, Outcome::Denied(rule)))
}

/// The client id and the filter, in memory of their own. An `Err` is a failed allocation.
fn copies(client: &ClientId, filter: &TopicFilter) -> Result<(ClientId, TopicFilter), AllocError>
    ensures { IfOk result (λ copies. copies ≡ (client.now, filter.now)) }
{
    Ok((client.copy()?, filter.copy()?))
}

/// The ending, where there is one, comes behind the others. An `Err` is a failed allocation.
fn add(
    endings: &mut Vec<SubscriptionEnd>,
    planned: Option<SubscriptionEnd>,
) -> Result<(), AllocError>
    ensures { OnOk result (endings.new.items ≡ endings.old.items ++ ending_list planned) }
{
    if let Some(ending) = planned {
        endings.push(ending)?;
    }
    Ok(())
}
