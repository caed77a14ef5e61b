//! The clients of the gateway, in the order in which each was accepted first, and where each is.
ghost use Rattle.std.specs.Prelude.{◌≡◌, ◌<◌, ◌≤◌, ◌+◌, ◌||◌, ℕ, [], length, take, drop, false, Some, IfSome};
ghost use Rattle.std.specs.Prelude.{OnOk, OnErr, IfOk};
ghost use Rattle.std.specs.Option.{ForSome};
ghost use Rattle.sng_fan.specs.Subscriptions.{is_full, IsOneClients};
ghost use Rattle.sng_fan.specs.Greatest.{greatest_qos};
ghost use Rattle.sng_history.specs.Clients.{lost, without};
ghost use Rattle.sng_history.specs.Ticking.{is_overdue};
ghost use Rattle.sng_history.specs.Standing.{holds, is_held};
ghost use Rattle.sng_history.specs.Verdicts.{is_repeat};
ghost use Rattle.sng_history.specs.Good.{Distinct, OnePlace};
ghost use Rattle.sng_ids.specs.Ids.{is_full_for};
ghost use Rattle.sng_book.specs.declared.outcome.Outcome.TheVariants.{Allowed};
ghost use Rattle.sng_history.specs.Entering.{heard_at, left_at, entered};
ghost use Rattle.sng_sessions.specs.Standing.{place_at, place_of, client_at, told_at, subscribed_at};
ghost use Rattle.sng_sessions.specs.Dues.{is_due};
ghost use Rattle.sng_sessions.specs.Places.{holds_at, moved_at};
ghost use Rattle.sng_sessions.specs.Holding.{holders_from, places_from};
ghost use Rattle.sng_sessions.specs.Handed.{delivered, handed_by, answered};
ghost use Rattle.sng_sessions.specs.Kept.{Keeps, SaysHeld, SameOfOthers};
ghost use Rattle.sng_sessions.specs.Sleeping.{changed};
ghost use Rattle.sng_sessions.specs.Willing.{stating_at};

use crate::copying::SessionsCopy;
use crate::dues::{add_block, look_anew, next_due, note_due};
use crate::filters::ClientFilters;
use crate::handing::{Handed, Opens, answer_at, deliver_at, hand_at};
use crate::ids::{ClientIds, NewName};
use crate::places::{NewTables, admit, hear_at, leave_at, lose_at, readmit, tell_at, tell_if};
use crate::session::Session;
use crate::sleeping::{Change, change_at};
use crate::subscribing::{end_at, stand_at};
use crate::wills::{Stating, state_at};
use indexmap::IndexMap;
use sng_book::Address;
use sng_fan::Held;
use sng_frames::{Connect, Publish};
use sng_queue::{Parcel, Queue};
use sng_standing::{Holder, Standing};
use sng_states::{ClientState, OpenIds};
use sng_text::{ClientId, Qos, TopicFilter, TopicName};
use sng_wills::WillDialogue;
use std::alloc::{AllocError, Global};
use std::marker::Model;

/// The clients. Contracts see the list of them, in the order in which each was accepted first; the place of
/// a client in it is found by its address and by its id, each by one look-up.
#[derive(Drop)]
pub struct Sessions {
    clients: IndexMap<ClientId, Session>,
    places: IndexMap<Address, usize>,
    standing: Standing,
    /// For each block of places, in order, a time before which nothing is due with a client of it.
    times: Vec<u64>,
}

impl Model for Sessions {
    ghost use Rattle.std.specs.Prelude.{List};
    ghost use Rattle.indexmap.specs.IndexMap.{get};
    ghost use Rattle.sng_history.specs.Clients.{Client, same_address};
    ghost use Rattle.sng_sessions.specs.Dues.{Waits};
    ghost use Rattle.sng_sessions.specs.Kept.{Keeps};
    ghost use Rattle.sng_sessions.specs.Places.{clients_of, Indexed};

    ghost Value = { List Client };

    ghost view = { λ s. clients_of s.clients.entries };

    // An address leads to the client that is there, so no two clients are at one; the tree of filters says what
    // each client holds; and before the times of the blocks nothing is due.
    ghost invariant = { λ s. Indexed (get same_address s.places) (clients_of s.clients.entries)
        × (Keeps s.standing (clients_of s.clients.entries)
        × Waits s.times.items (clients_of s.clients.entries)) };
}

impl Sessions {
    /// No clients. Takes no memory.
    pub fn new(alloc: Global) -> Sessions
        ensures { result ≡ [] }
    {
        Sessions {
            clients: IndexMap::new(alloc),
            places: IndexMap::new(alloc),
            standing: Standing::new(alloc),
            times: Vec::new(alloc),
        }
    }

    /// The clients as they are now, in memory of their own for just these but for the payloads that wait,
    /// which the two share. Only memory can fail.
    pub fn copy(&self, alloc: Global) -> Result<SessionsCopy, AllocError>
        ensures { IfOk result (λ copy. copy ≡ self.now) }
    {
        SessionsCopy::of(alloc, &self.clients)
    }

    /// How many clients there are. Takes no memory.
    pub fn len(&self) -> usize
        ensures len { result ≡ length self.now }
        ensures apart { Distinct self.now }
        ensures places { OnePlace self.now }
    {
        self.clients.len()
    }

    /// The place of the client that is at the address. Takes no memory.
    pub fn at(&self, from: Address) -> Option<usize>
        ensures place { result ≡ place_at from self.now }
        ensures within { IfSome result (λ place. place < length self.now) }
    {
        self.places.get(&from).copied()
    }

    /// The place of the client with the id. Takes no memory.
    pub fn find(&self, id: &ClientId) -> Option<usize>
        ensures place { result ≡ place_of id.now self.now }
        ensures within { IfSome result (λ place. place < length self.now) }
    {
        self.clients.get_index_of(id)
    }

    /// The id of the client at this place. Takes no memory.
    pub fn id(&self, place: usize) -> &ClientId
        requires { place < length self.now }
        ensures { result.now ≡ (client_at self.now place).id }
    {
        match self.clients.get_index(place) {
            Some((id, _)) => id,
            None => unreachable!(),
        }
    }

    /// Where the client at this place is, or was last. Takes no memory.
    pub fn address(&self, place: usize) -> Address
        requires { place < length self.now }
        ensures { result ≡ (client_at self.now place).address }
    {
        self.clients[place].presence.address
    }

    /// How the client at this place stands. Takes no memory.
    pub fn phase(&self, place: usize) -> ClientState
        requires { place < length self.now }
        ensures { result ≡ (client_at self.now place).phase }
    {
        self.clients[place].presence.phase
    }

    /// The topic ids that the client at this place was told. Takes no memory.
    pub fn ids(&self, place: usize) -> &ClientIds
        requires { place < length self.now }
        ensures { result.now ≡ (client_at self.now place).ids }
    {
        &self.clients[place].ids
    }

    /// The MsgId of the last message to the client at this place, 0 before the first. Takes no memory.
    pub fn number(&self, place: usize) -> u16
        requires { place < length self.now }
        ensures { result ≡ (client_at self.now place).number }
    {
        self.clients[place].number
    }

    /// What waits for the client at this place, and its open exchange. Takes no memory.
    pub fn queue(&self, place: usize) -> &Queue
        requires { place < length self.now }
        ensures { result.now ≡ (client_at self.now place).buffer }
    {
        &self.clients[place].queue
    }

    /// The will of the client at this place, where it has one, and the dialogue about it. Takes no memory.
    pub fn wills(&self, place: usize) -> &WillDialogue
        requires { place < length self.now }
        ensures { result.now ≡ (client_at self.now place).wills }
    {
        &self.clients[place].wills
    }

    /// Whether a PUBLISH at QoS 2 of the client at this place repeats one that was received and is not
    /// released: it has its turn, and its MsgId is open. Takes no memory.
    pub fn is_repeat(&self, place: usize, publish: &Publish) -> bool
        requires { place < length self.now }
        ensures { result ≡ is_repeat publish.now (client_at self.now place) }
    {
        self.clients[place].is_repeat(publish)
    }

    /// The MsgIds of the publishes at QoS 2 that the client at this place has not released yet. Takes no
    /// memory.
    pub fn unreleased(&self, place: usize) -> &OpenIds
        requires { place < length self.now }
        ensures { result.now ≡ (client_at self.now place).unreleased }
    {
        &self.clients[place].unreleased
    }

    /// Whether the client at this place has a session and was silent for longer than its Duration allows, as
    /// the clock is at this, in ms. Takes no memory.
    pub fn is_overdue(&self, place: usize, clock: u64) -> bool
        requires { place < length self.now }
        ensures { result ≡ is_overdue clock (client_at self.now place) }
    {
        self.clients[place].presence.is_overdue(clock)
    }

    /// The greatest QoS among the filters of the client at this place that match the name, where one matches.
    /// Takes no memory.
    pub fn greatest(&self, place: usize, name: &TopicName) -> Option<Qos>
        requires { place < length self.now }
        ensures { result ≡ greatest_qos (client_at self.now place).filters name.now }
    {
        self.clients[place].filters.greatest(name)
    }

    /// The filters that stand for the client at this place, in order of first standing. Takes no memory.
    pub fn filters(&self, place: usize) -> &[Held]
        requires { place < length self.now }
        ensures value { result.now ≡ (client_at self.now place).filters }
        ensures once { IsOneClients (client_at self.now place).filters }
    {
        self.clients[place].filters.filters()
    }

    /// Whether the filter stands for the client at this place. Takes no memory.
    pub fn holds(&self, place: usize, filter: &TopicFilter) -> bool
        requires { place < length self.now }
        ensures { result ≡ holds filter.now (client_at self.now place) }
    {
        self.clients[place].filters.stands(filter)
    }

    /// Leaves in the list the clients for whom a filter stands that matches the name, by their places and in
    /// order, each once and with the greatest QoS among its filters that match. Looks at no other client. The
    /// list keeps its room. Only memory can fail, and an `Err` may leave any list.
    pub fn holders(
        &self,
        alloc: Global,
        name: &TopicName,
        list: &mut Vec<Holder>,
    ) -> Result<(), AllocError>
        ensures { OnOk result (list.new.items ≡ holders_from 0 name.now self.now) }
    {
        self.standing.holders(alloc, name, list)
    }

    /// The places of the clients for whom the filter stands, in order. Looks at no other client. Only memory
    /// can fail.
    pub fn holding(&self, alloc: Global, filter: &TopicFilter) -> Result<Vec<usize>, AllocError>
        ensures { IfOk result (λ list. list.items ≡ places_from 0 filter.now self.now) }
    {
        self.standing.clients(alloc, filter)
    }

    /// Who holds what, apart from the clients, so that endings can be tried on it. Only memory can fail.
    pub fn holdings(&self, alloc: Global) -> Result<Standing, AllocError>
        ensures { IfOk result (λ standing. Keeps standing self.now) }
    {
        let mut standing = Standing::new(alloc);
        for place in 0..self.len() {
            add_held(alloc, place, self.filters(place), &mut standing)?;
        }
        Ok(standing)
    }

    /// Whether the filter stands for any client: one look-up. Takes no memory.
    pub fn is_held(&self, filter: &TopicFilter) -> bool
        ensures { result ≡ is_held self.now filter.now }
    {
        self.standing.is_held(filter)
    }

    /// Whether the filter stands for a client other than the one at this place: one look-up. Takes no memory.
    pub fn is_held_by_others(&self, place: usize, filter: &TopicFilter) -> bool
        requires { place < length self.now }
        ensures { result ≡ (is_held (take place self.now) filter.now
            || is_held (drop (place + 1) self.now) filter.now) }
    {
        self.standing.is_held_by_others(place, filter)
    }

    /// The client at this place is heard, and is told the id that the name has from now on. Takes no memory.
    pub fn tell(&mut self, place: usize, name: NewName, clock: u64)
        requires { is_full_for name (client_at self.old place).ids ≡ false }
        ensures { self.new ≡ moved_at place (told_at clock (Some name) Allowed) self.old }
    {
        tell_at(&mut self.clients, place, name, clock);
        note_due(&mut self.times, &self.clients, place);
    }

    /// The client at this place is heard. Takes no memory.
    pub fn hear(&mut self, place: usize, clock: u64)
        ensures { self.new ≡ moved_at place (heard_at clock) self.old }
    {
        hear_at(&mut self.clients, place, clock);
        note_due(&mut self.times, &self.clients, place);
    }

    /// A message comes to wait for the client at this place, where fewer wait than may, and an exchange
    /// begins. Takes no memory.
    pub fn deliver(&mut self, place: usize, message: Parcel, opens: Opens, clock: u64)
        ensures { self.new ≡ moved_at place (delivered clock message opens) self.old }
    {
        deliver_at(&mut self.clients, place, message, opens, clock);
        note_due(&mut self.times, &self.clients, place);
    }

    /// A hand-over to the client at this place is carried out. Takes no memory.
    pub fn hand(&mut self, place: usize, handed: Handed, clock: u64)
        ensures { self.new ≡ moved_at place (handed_by clock handed) self.old }
    {
        hand_at(&mut self.clients, place, handed, clock);
        note_due(&mut self.times, &self.clients, place);
    }

    /// The client at this place is heard, knows the id (0 is none), and has no exchange open any more; what
    /// waits stays. Takes no memory.
    pub fn answer(&mut self, place: usize, id: u16, clock: u64)
        ensures { self.new ≡ moved_at place (answered clock id) self.old }
    {
        answer_at(&mut self.clients, place, id, clock);
        note_due(&mut self.times, &self.clients, place);
    }

    /// The client at this place leaves, and its address is free. Takes no memory.
    pub fn leave(&mut self, place: usize, clock: u64)
        ensures { self.new ≡ moved_at place (left_at clock) self.old }
    {
        leave_at(&mut self.clients, &mut self.places, place, clock);
        note_due(&mut self.times, &self.clients, place);
    }

    /// The client at this place is lost, and its address is free. Its subscriptions, its will and its ids
    /// stay. Takes no memory.
    pub fn lose(&mut self, place: usize)
        ensures { self.new ≡ moved_at place lost self.old }
    {
        lose_at(&mut self.clients, &mut self.places, place);
        note_due(&mut self.times, &self.clients, place);
    }

    /// This happens to the client at this place. Takes no memory.
    pub fn change(&mut self, place: usize, change: Change, clock: u64)
        ensures { self.new ≡ moved_at place (changed clock change) self.old }
    {
        change_at(&mut self.clients, place, change, clock);
        note_due(&mut self.times, &self.clients, place);
    }

    /// The client at this place is heard, and its will is as it states; what is out of turn changes nothing
    /// of it. Takes no memory.
    pub fn state(&mut self, place: usize, stating: Stating, clock: u64)
        ensures { self.new ≡ moved_at place (stating_at clock stating) self.old }
    {
        state_at(&mut self.clients, place, stating, clock);
        note_due(&mut self.times, &self.clients, place);
    }

    /// The client at this place is heard, and the filter stands for it at this QoS; where it stood it keeps
    /// its place. Where a name is given, the client is told the id that this has from now on. An `Err` is a
    /// failed allocation; nothing changed.
    pub fn subscribe(
        &mut self,
        alloc: Global,
        place: usize,
        name: Option<NewName>,
        filter: TopicFilter,
        qos: Qos,
        clock: u64,
    ) -> Result<(), AllocError>
        requires fits { is_full (client_at self.old place).filters filter ≡ false }
        requires names { ForSome name (λ n. is_full_for n (client_at self.old place).ids ≡ false) }
        ensures ok { OnOk result (self.new
            ≡ moved_at place (subscribed_at clock name filter qos) self.old) }
        ensures err { OnErr result (self.new ≡ self.old) }
    {
        let (clients, standing) = (&mut self.clients, &mut self.standing);
        stand_at(clients, standing, alloc, place, filter, qos)?;
        tell_if(&mut self.clients, place, name, clock);
        note_due(&mut self.times, &self.clients, place);
        Ok(())
    }

    /// The client at this place is heard, and the filter stands for it no more. Takes no memory.
    pub fn unsubscribe(&mut self, place: usize, filter: &TopicFilter, clock: u64)
        ensures { self.new ≡ moved_at place (λ x. without filter.now (heard_at clock x)) self.old }
    {
        self.hear(place, clock);
        self.end(place, filter);
    }

    /// The filter stands no more for the client at this place, which is not heard by it. Takes no memory.
    pub fn end(&mut self, place: usize, filter: &TopicFilter)
        ensures { self.new ≡ moved_at place (without filter.now) self.old }
    {
        end_at(&mut self.clients, &mut self.standing, place, filter);
        note_due(&mut self.times, &self.clients, place);
    }

    /// A CONNECT from this address is accepted: whoever else is there leaves. An `Err` is a failed
    /// allocation; nothing changed.
    pub fn enter(
        &mut self,
        alloc: Global,
        from: Address,
        connect: Connect,
        clock: u64,
    ) -> Result<(), AllocError>
        ensures ok { OnOk result (self.new ≡ entered clock from connect self.old) }
        ensures err { OnErr result (self.new ≡ self.old) }
    {
        self.places.reserve(1)?;
        match self.clients.get_index_of(&connect.client_id) {
            Some(place) => {
                let (clients, places) = (&mut self.clients, &mut self.places);
                readmit(
                    clients,
                    places,
                    &mut self.standing,
                    place,
                    from,
                    &connect,
                    clock,
                );
                note_due(&mut self.times, &self.clients, place);
                Ok(())
            }
            None => {
                self.clients.reserve(1)?;
                let place = self.clients.len();
                add_block(&mut self.times, place)?;
                let tables = NewTables {
                    ids: ClientIds::new(alloc),
                    queue: Queue::new(alloc),
                    filters: ClientFilters::new(),
                    wills: WillDialogue::new(alloc),
                };
                let (clients, places) = (&mut self.clients, &mut self.places);
                admit(clients, places, from, connect, tables, clock);
                note_due(&mut self.times, &self.clients, place);
                Ok(())
            }
        }
    }

    /// The first place from this one on at which anything may be due with a client as the clock is at this, in
    /// ms; behind the last where there is none. Takes no memory.
    pub fn next_due(&self, place: usize, clock: u64) -> usize
        requires { place ≤ length self.now }
        ensures after { place ≤ result }
        ensures quiet { (other : ℕ) → place ≤ other → other < result
            → holds_at (is_due clock) self.now other ≡ false }
    {
        next_due(&self.times, self.clients.len(), place, clock)
    }

    /// Where anything may have been due as the clock is at this, in ms, the clients are looked at anew. Nothing
    /// changes that contracts see. Takes no memory.
    pub fn look_anew(&mut self, clock: u64)
        ensures { self.new ≡ self.old }
    {
        look_anew(&mut self.times, &self.clients, clock);
    }
}

/// These stand for the client at the place, where nothing stood for it. An `Err` is a failed allocation.
fn add_held(
    alloc: Global,
    place: usize,
    held: &[Held],
    standing: &mut Standing,
) -> Result<(), AllocError>
    requires once { IsOneClients held.now }
    requires empty { SaysHeld standing.old place [] }
    ensures held { OnOk result (SaysHeld standing.new place held.now) }
    ensures others { OnOk result (SameOfOthers standing.old standing.new place) }
{
    for one in held {
        standing.add(alloc, place, &one.filter, one.qos)?;
    }
    Ok(())
}
