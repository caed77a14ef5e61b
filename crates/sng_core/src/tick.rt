//! The clock goes on (MQTT-SN 1.2, 5.4.4, 6.3, 6.9, 6.11 and 6.13; MQTT 3.1.1, 3.1.2.10 and 3.12): where scopes
//! end by then, the subscriptions end that are not allowed any more; then each client that was silent for too
//! long, or did not answer as often as it was asked, is lost, and its will waits for the broker where it finds
//! its place; what another one did not answer in time is sent again; a PINGREQ to the broker comes behind them
//! where it is due. What is let out is planned first, with the room for what comes to wait, and what changes
//! cannot fail. Where nothing is due nothing takes memory.
ghost use Rattle.std.specs.Prelude.{◌≡◌, ◌<◌, ◌≤◌, ◌+◌, ◌*◌, ◌++◌, [], ℕ, true, length, IfOk, OnOk, OnErr};
ghost use Rattle.sng_grants.specs.Ends.{next_end};
ghost use Rattle.sng_grants.specs.Sources.{is_reached};
ghost use Rattle.sng_history.specs.Books.{tick_outs, tick_next};
ghost use Rattle.sng_history.specs.Good.{Good, Each, AllCovered};
ghost use Rattle.sng_history.specs.State.{later};
ghost use Rattle.sng_history.specs.Ticking.{is_ping_due, is_lost_at, pinged};
ghost use Rattle.sng_core.specs.Forms.{client_at};
ghost use Rattle.sng_core.specs.Losing.{publication_of, will_outs, kept_will, room_behind, lost_outs};
ghost use Rattle.sng_core.specs.Losing.{loss_of, lost_clients, lost_link};
ghost use Rattle.sng_core.specs.Dues.{due_outs, due_at, room_after, dues_outs, dues_plan, dues_room};
ghost use Rattle.sng_core.specs.Dues.{due_clients, due_link, dues_clients, dues_link, ping_noted};
ghost use Rattle.sng_core.specs.Dues.{ticked_outs, ticked_next, due_list, wills_kept, items_of, all_items};
ghost use Rattle.sng_core.specs.Dues.{pings_due};
ghost use Rattle.sng_link.specs.Rooms.{HasPlaces};
ghost use Rattle.sng_core.specs.Ending.{ending_outs, ending_next, outs_behind, room_behind_ends};

use crate::parts::Parts;
use sng_book::{Decision, Out, Outcome, Outs, OutsPair, ReservedOuts, Who};
use sng_endings::{SubscriptionEnd, end_all, endings, room_after};
use sng_grants::Limits;
use sng_link::{Link, Room};
use sng_outbox::{Origin, Publication};
use sng_policy::InForce;
use sng_sessions::{Sessions, is_tried_out, out_of_memory};
use sng_text::ClientId;
use sng_turns::again::{Retried, again, carry_again, is_repeating};
use sng_turns::hand_over::all_gone;
use sng_wills::{Will, WillDialogue};
use std::alloc::{AllocError, Global};

/// A client that is lost, by its place, and its will, where it finds its place.
#[derive(Debug, Drop)]
pub struct LostClient {
    pub place: usize,
    pub will: Option<Publication>,
}

/// What comes of a client with whom something is due.
#[derive(Debug, Drop)]
pub enum Due {
    /// It is lost.
    Lost(LostClient),
    /// What is open with the client at the place was not answered in time.
    Unanswered(usize, Retried),
}

/// What is due behind what ends, and what is let out for it.
#[derive(Debug, Drop)]
struct DuesBehind {
    dues: Vec<Due>,
    outs: Outs,
}

impl Parts {
    /// The clock is at this time, in ms, where that is not before its own. An `Err` is a failed allocation,
    /// and nothing changed.
    pub fn tick(&mut self, alloc: Global, clock: u64) -> Result<OutsPair, AllocError>
        requires { Good self.old }
        ensures outs { IfOk result (λ outs. outs ≡ tick_outs self.old clock) }
        ensures next { OnOk result (self.new ≡ tick_next self.old clock) }
        ensures err { OnErr result (self.new ≡ self.old) }
    {
        let clock = self.later(clock);
        if self.ends_by(clock) {
            let ended = self.end_to(alloc, clock)?;
            return Ok(ended);
        }
        let outs = self.tick_to(alloc, clock)?;
        Ok(outs)
    }

    /// The time that the clock comes to: it does not go back.
    fn later(&self, clock: u64) -> u64
        ensures { result ≡ later self.now.clock clock }
    {
        if self.clock <= clock {
            clock
        } else {
            self.clock
        }
    }

    /// Whether scopes end by this time.
    fn ends_by(&self, clock: u64) -> bool
        ensures { result ≡ is_reached clock (next_end self.now.policy) }
    {
        self.policy.ends_by(clock)
    }

    /// The clock comes to this time, by which scopes end: first the subscriptions end that are not allowed any
    /// more, and then all comes as at any other tick. What ends is planned first, and with it the room that it
    /// leaves.
    fn end_to(&mut self, alloc: Global, clock: u64) -> Result<OutsPair, AllocError>
        requires { Each (λ x. AllCovered self.old.policy x.id x.filters) self.old.clients }
        ensures outs { IfOk result (λ outs. outs ≡ ending_outs self.old clock) }
        ensures next { OnOk result (self.new ≡ ending_next self.old clock) }
        ensures err { OnErr result (self.new ≡ self.old) }
    {
        let policy = self.policy.left(clock)?;
        let limits = policy.limits();
        let Ok(endings) = endings(alloc, &self.policy, &policy, &self.sessions) else {
            return out_of_memory(policy);
        };
        let is_due = self.link.is_ping_due(self.is_up, clock);
        let ended = endings.as_slice();
        let Ok(behind) = self.dues_behind(alloc, clock, &policy, ended, is_due) else {
            return out_of_memory((policy, endings));
        };
        let DuesBehind { dues, outs } = behind;
        let Ok((mut all, again)) = room_with(alloc, endings.len(), &outs) else {
            return out_of_memory((policy, endings, dues, outs));
        };
        let items = dues.as_slice();
        let Ok(()) = make_room(&mut self.link, endings.len(), items, is_due) else {
            return out_of_memory((policy, endings, dues, outs, all, again));
        };
        end_all(
            endings,
            limits,
            &mut self.sessions,
            &mut self.link,
            &mut all,
        );
        all.append(outs, again);
        carry_out(dues, limits, &mut self.sessions, &mut self.link, clock);
        self.sessions.look_anew(clock);
        ping_broker(&mut self.link, limits, self.is_up, clock, is_due);
        self.policy = policy;
        self.clock = clock;
        Ok(all.into_pair())
    }

    /// What is due once these have ended, and what is let out for that, with the note of a PINGREQ that is due
    /// and finds no place.
    fn dues_behind(
        &self,
        alloc: Global,
        clock: u64,
        policy: &InForce,
        endings: &[SubscriptionEnd],
        is_due: bool,
    ) -> Result<DuesBehind, AllocError>
        ensures outs { IfOk result (λ behind. behind.outs
            ≡ outs_behind self.now policy.now clock endings.now is_due) }
        ensures dues { IfOk result (λ behind. behind.dues.items
            ≡ dues_plan policy.now clock (room_behind_ends self.now policy.now endings.now) 0 self.now.clients) }
    {
        let sessions = &self.sessions;
        let mut room = room_after(alloc, endings, policy.limits(), sessions, &self.link)?;
        let mut outs = Outs::new(alloc);
        let dues = dues(alloc, policy, clock, sessions, &mut room, &mut outs)?;
        note_ping(is_due, room, &mut outs)?;
        Ok(DuesBehind { dues, outs })
    }

    /// The clock comes to this time, by which no scope ends.
    fn tick_to(&mut self, alloc: Global, clock: u64) -> Result<OutsPair, AllocError>
        ensures outs { IfOk result (λ outs. outs ≡ ticked_outs self.old clock) }
        ensures next { OnOk result (self.new ≡ ticked_next self.old clock) }
        ensures err { OnErr result (self.new ≡ self.old) }
    {
        let limits = self.policy.limits();
        let mut outs = Outs::new(alloc);
        let mut room = self.link.room_left(limits);
        let sessions = &self.sessions;
        let dues = dues(alloc, &self.policy, clock, sessions, &mut room, &mut outs)?;
        let is_due = self.link.is_ping_due(self.is_up, clock);
        note_ping(is_due, room, &mut outs)?;
        let outs = OutsPair::of(alloc, outs)?;
        make_room(&mut self.link, 0, dues.as_slice(), is_due)?;
        carry_out(dues, limits, &mut self.sessions, &mut self.link, clock);
        self.sessions.look_anew(clock);
        ping_broker(&mut self.link, limits, self.is_up, clock, is_due);
        self.clock = clock;
        Ok(outs)
    }
}

/// Room for what so many endings let out, and for these outs behind it, and an equal list of them.
fn room_with(alloc: Global, endings: usize, outs: &Outs) -> Result<(ReservedOuts, Outs), AllocError>
    ensures outs { IfOk result (λ room. room.0.outs ≡ []) }
    ensures room { IfOk result (λ room. endings * 2 + length outs.now ≤ room.0.spare) }
    ensures again { IfOk result (λ room. room.1 ≡ outs.now) }
{
    let room = room_for(alloc, endings, outs.len())?;
    let again = outs.copy(alloc)?;
    Ok((room, again))
}

/// Room for what so many endings let out, two outs each, and for so many more.
fn room_for(alloc: Global, endings: usize, more: usize) -> Result<ReservedOuts, AllocError>
    ensures outs { IfOk result (λ outs. outs.outs ≡ []) }
    ensures room { IfOk result (λ outs. endings * 2 + more ≤ outs.spare) }
{
    let Some(ends) = endings.checked_mul(2) else {
        return Err(AllocError);
    };
    match ends.checked_add(more) {
        Some(room) => ReservedOuts::with_room(alloc, room),
        None => Err(AllocError),
    }
}

/// Room on the link for what so many endings and these dues bring to wait, and for a PINGREQ where one is due.
fn make_room(link: &mut Link, endings: usize, dues: &[Due], is_due: bool) -> Result<(), AllocError>
    ensures link { link.new.link ≡ link.old.link }
    ensures room { OnOk result
        (HasPlaces (endings + (all_items dues.now + pings_due is_due)) link.new) }
{
    let items = items_in(dues) + usize::from(is_due);
    match endings.checked_add(items) {
        Some(count) => link.room(count),
        None => Err(AllocError),
    }
}

/// How many items these bring to wait, no more than there are dues.
fn items_in(dues: &[Due]) -> usize
    ensures count { result ≡ all_items dues.now }
    ensures few { all_items dues.now ≤ length dues.now }
{
    let mut count = 0;
    for due in dues {
        count += items_of(due);
    }
    count
}

/// How many it brings to wait: one where it is a will that finds its place.
fn items_of(due: &Due) -> usize
    ensures count { result ≡ items_of due.now }
    ensures few { items_of due.now ≤ 1 }
{
    match due {
        Due::Lost(loss) => usize::from(loss.will.is_some()),
        Due::Unanswered(_, _) => 0,
    }
}

/// A PINGREQ that is due and finds no place is noted.
fn note_ping(is_due: bool, room: Room, outs: &mut Outs) -> Result<(), AllocError>
    ensures { OnOk result (outs.new ≡ outs.old ++ ping_noted is_due room) }
{
    if is_due && room.places == 0 {
        outs.push(Out::Note(Decision::Outbox))?;
    }
    Ok(())
}

/// What is let out for each client with whom something is due, in order, and what comes of them. The room is
/// what is left then. Those with whom nothing can be due yet are passed over.
fn dues(
    alloc: Global,
    policy: &InForce,
    clock: u64,
    sessions: &Sessions,
    room: &mut Room,
    outs: &mut Outs,
) -> Result<Vec<Due>, AllocError>
    ensures outs { OnOk result (outs.new ≡ outs.old ++ dues_outs policy.now clock room.old sessions.now) }
    ensures dues { IfOk result (λ dues. dues.items ≡ dues_plan policy.now clock room.old 0 sessions.now) }
    ensures room { OnOk result (room.new ≡ dues_room clock room.old sessions.now) }
{
    let mut dues = Vec::new(alloc);
    let mut place = sessions.next_due(0, clock);
    while place < sessions.len() {
        let due = due_with(alloc, policy, clock, sessions, place, room, outs)?;
        add(&mut dues, due)?;
        place = sessions.next_due(place + 1, clock);
    }
    Ok(dues)
}

/// It comes behind the others, where something is due.
fn add(dues: &mut Vec<Due>, due: Option<Due>) -> Result<(), AllocError>
    ensures { OnOk result (dues.new.items ≡ dues.old.items ++ due_list due) }
{
    if let Some(due) = due {
        dues.push(due)?;
    }
    Ok(())
}

/// What is due with the client at this place.
fn due_with(
    alloc: Global,
    policy: &InForce,
    clock: u64,
    sessions: &Sessions,
    place: usize,
    room: &mut Room,
    outs: &mut Outs,
) -> Result<Option<Due>, AllocError>
    requires { place < length sessions.now }
    ensures outs { OnOk result (outs.new
        ≡ outs.old ++ due_outs policy.now clock room.old (client_at sessions.now place)) }
    ensures due { IfOk result (λ due. due_list due
        ≡ due_at policy.now clock room.old place (client_at sessions.now place)) }
    ensures room { OnOk result (room.new ≡ room_after clock room.old (client_at sessions.now place)) }
{
    if is_lost_at(sessions, place, clock) {
        let loss = lose(sessions, place, room, outs)?;
        Ok(Some(Due::Lost(loss)))
    } else if is_repeating(sessions, place, clock) {
        let retried = again(alloc, policy, sessions, place, outs)?;
        Ok(Some(Due::Unanswered(place, retried)))
    } else {
        Ok(None)
    }
}

/// Whether the client at this place was silent for too long, or did not answer in time what was sent again as
/// often as it may be. Takes no memory.
fn is_lost_at(sessions: &Sessions, place: usize, clock: u64) -> bool
    requires { place < length sessions.now }
    ensures { result ≡ is_lost_at clock (client_at sessions.now place) }
{
    sessions.is_overdue(place, clock)
        || is_repeating(sessions, place, clock) && is_tried_out(sessions.queue(place))
}

/// The client at this place is lost, and what waits for it is gone.
fn lose(
    sessions: &Sessions,
    place: usize,
    room: &mut Room,
    outs: &mut Outs,
) -> Result<LostClient, AllocError>
    requires { place < length sessions.now }
    ensures outs { OnOk result (outs.new ≡ outs.old ++ lost_outs room.old (client_at sessions.now place)) }
    ensures loss { IfOk result (λ loss. loss ≡ loss_of room.old place (client_at sessions.now place)) }
    ensures room { OnOk result (room.new
        ≡ room_behind room.old (client_at sessions.now place).wills.will) }
{
    let client = sessions.id(place);
    outs.push(Out::Note(Decision::Lost(client.copy()?)))?;
    all_gone(client, sessions.queue(place), outs)?;
    let will = kept_will(client, sessions.wills(place), room, outs)?;
    Ok(LostClient { place, will })
}

/// A copy of the will, where there is one and it finds its place; where there is no room for it, that is
/// noted.
fn kept_will(
    client: &ClientId,
    wills: &WillDialogue,
    room: &mut Room,
    outs: &mut Outs,
) -> Result<Option<Publication>, AllocError>
    ensures outs { OnOk result (outs.new ≡ outs.old ++ will_outs room.old client.now wills.now.will) }
    ensures kept { IfOk result (λ kept. kept ≡ kept_will room.old client.now wills.now.will) }
    ensures room { OnOk result (room.new ≡ room_behind room.old wills.now.will) }
{
    let Some(will) = wills.will() else {
        return Ok(None);
    };
    match room.take(will.qos) {
        Outcome::Allowed => {
            let publication = publication(client, will)?;
            Ok(Some(publication))
        }
        Outcome::Denied(rule) => {
            let who = Who::Client(client.copy()?);
            let name = Some(will.topic.copy()?);
            outs.push(Out::Note(Decision::Will(who, name, Outcome::Denied(rule))))?;
            Ok(None)
        }
    }
}

/// The will, as a publish of its client.
fn publication(client: &ClientId, will: &Will) -> Result<Publication, AllocError>
    ensures { IfOk result (λ publication. publication ≡ publication_of client.now will.now) }
{
    Ok(Publication {
        origin: Origin::Client(client.copy()?),
        name: will.topic.copy()?,
        payload: will.payload.copy()?,
        qos: will.qos,
        retain: will.retain,
    })
}

/// The PINGREQ to the broker waits where it is due and finds its place. Takes no memory.
fn ping_broker(link: &mut Link, limits: Limits, is_up: bool, clock: u64, is_due: bool)
    requires due { is_due ≡ is_ping_due is_up link.old.link clock }
    requires room { HasPlaces (pings_due is_due) link.old }
    ensures { link.new.link ≡ pinged limits is_up link.old.link clock }
{
    link.ping(limits, is_up, clock);
}

/// All this comes of the clients, one after another. Takes no memory.
fn carry_out(dues: Vec<Due>, limits: Limits, sessions: &mut Sessions, link: &mut Link, clock: u64)
    requires { HasPlaces (all_items dues.items) link.old }
    ensures sessions { sessions.new ≡ dues_clients clock dues.items sessions.old }
    ensures link { link.new.link ≡ dues_link limits dues.items link.old.link }
    ensures room { (count : ℕ) → HasPlaces (all_items dues.items + count) link.old
        → HasPlaces count link.new }
{
    for due in dues {
        carry_out_one(due, limits, sessions, link, clock);
    }
}

/// This comes of one client. Takes no memory.
fn carry_out_one(due: Due, limits: Limits, sessions: &mut Sessions, link: &mut Link, clock: u64)
    requires { HasPlaces (items_of due) link.old }
    ensures sessions { sessions.new ≡ due_clients clock sessions.old due }
    ensures link { link.new.link ≡ due_link limits link.old.link due }
    ensures room { (count : ℕ) → HasPlaces (items_of due + count) link.old → HasPlaces count link.new }
{
    match due {
        Due::Lost(loss) => carry_loss(loss, limits, sessions, link),
        Due::Unanswered(place, retried) => carry_again(retried, sessions, place, clock),
    }
}

/// One is lost. Takes no memory.
fn carry_loss(loss: LostClient, limits: Limits, sessions: &mut Sessions, link: &mut Link)
    requires { HasPlaces (wills_kept loss.will) link.old }
    ensures sessions { sessions.new ≡ lost_clients sessions.old loss }
    ensures link { link.new.link ≡ lost_link limits link.old.link loss }
    ensures room { (count : ℕ) → HasPlaces (wills_kept loss.will + count) link.old
        → HasPlaces count link.new }
{
    let LostClient { place, will } = loss;
    sessions.lose(place);
    if let Some(will) = will {
        link.place(limits, will);
    }
}
