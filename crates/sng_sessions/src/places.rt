//! Changes of the clients together with the index from addresses to their places.
ghost use Rattle.std.specs.Prelude.{◌≡◌, ℕ, ◌<◌, ◌≤◌, true, false, List, [], Some, None, length, map};
ghost use Rattle.std.specs.Prelude.{position};
ghost use Rattle.std.specs.Prelude.{if◌then◌else◌, OnOk, OnErr};
ghost use Rattle.std.specs.Option.{ForSome};
ghost use Rattle.std.specs.Str.{bytes_eq};
ghost use Rattle.indexmap.specs.IndexMap.{get, keys, spare};
ghost use Rattle.sng_book.specs.declared.address.Address.{Address as address_type};
ghost use Rattle.sng_states.specs.States.{has_session};
ghost use Rattle.sng_history.specs.Clients.{same_address};
ghost use Rattle.sng_ids.specs.Ids.{is_full_for};
ghost use Rattle.sng_book.specs.declared.outcome.Outcome.TheVariants.{Allowed};
ghost use Rattle.sng_queue.specs.Buffers.{nothing};
ghost use Rattle.sng_wills.specs.declared.will.Stage.TheVariants.{Closed};
ghost use Rattle.sng_sessions.specs.Willing.{phase_opened, wills_opened};
ghost use Rattle.sng_history.specs.Clients.{let_in, lost, told};
ghost use Rattle.sng_history.specs.State.{is_known};
ghost use Rattle.sng_history.specs.Entering.{heard_at, left_at, entered};
ghost use Rattle.sng_sessions.specs.Dues.{Waits, WaitsBeside};
ghost use Rattle.sng_sessions.specs.Kept.{SaysHeld, SameOfOthers, Keeps};
ghost use Rattle.sng_sessions.specs.Standing.{client_at, told_at};
ghost use Rattle.sng_sessions.specs.Places.{clients_of, holds_at, stands_at, is_place, presence_in, was_at};
ghost use Rattle.sng_sessions.specs.Places.{Indexed, moved_at, vacated, settled};

use crate::filters::ClientFilters;
use crate::ids::{ClientIds, NewName};
use crate::session::{Presence, Session};
use crate::subscribing::end_all;
use indexmap::IndexMap;
use sng_book::Address;
use sng_frames::Connect;
use sng_queue::Queue;
use sng_standing::Standing;
use sng_states::{ClientState, OpenIds};
use sng_text::ClientId;
use sng_wills::WillDialogue;

/// The client at this place leaves, and its address is free. Takes no memory.
pub fn leave_at(
    clients: &mut IndexMap<ClientId, Session>,
    places: &mut IndexMap<Address, usize>,
    place: usize,
    clock: u64,
)
    requires { Indexed (get same_address places.old) (clients_of clients.old.entries) }
    ensures clients { clients_of clients.new.entries
        ≡ moved_at place (left_at clock) (clients_of clients.old.entries) }
    ensures indexed { Indexed (get same_address places.new) (clients_of clients.new.entries) }
    ensures room { spare clients.old ≤ spare clients.new }
    ensures place_room { spare places.old ≤ spare places.new }
{
    if let Some(session) = clients.get_index_mut(place) {
        release(places, Some(session.presence));
        session.queue.empty();
        session.wills.stop();
        session.presence.phase = ClientState::Disconnected;
        session.presence.heard = clock;
    }
}

/// The client at this place is lost, and its address is free. Its subscriptions, its will and its ids stay.
/// Takes no memory.
pub fn lose_at(
    clients: &mut IndexMap<ClientId, Session>,
    places: &mut IndexMap<Address, usize>,
    place: usize,
)
    requires { Indexed (get same_address places.old) (clients_of clients.old.entries) }
    ensures clients { clients_of clients.new.entries
        ≡ moved_at place lost (clients_of clients.old.entries) }
    ensures indexed { Indexed (get same_address places.new) (clients_of clients.new.entries) }
{
    if let Some(session) = clients.get_index_mut(place) {
        release(places, Some(session.presence));
        session.queue.empty();
        session.wills.stop();
        session.presence.phase = ClientState::Lost;
    }
}

/// The address at which a client was is free. Takes no memory.
fn release(places: &mut IndexMap<Address, usize>, before: Option<Presence>)
    ensures looks { (from : address_type) → get same_address places.new from
        ≡ (if was_at before from then None else get same_address places.old from) }
    ensures room { spare places.old ≤ spare places.new }
{
    if let Some(presence) = before {
        if presence.phase.has_session() {
            places.swap_remove(&presence.address);
        }
    }
}

/// The tables of a session that is to begin, made before anything changes.
#[derive(Drop)]
pub struct NewTables {
    pub ids: ClientIds,
    pub queue: Queue,
    pub filters: ClientFilters,
    pub wills: WillDialogue,
}

/// The client that connects, and was not known, is where its CONNECT came from, and whoever else is there
/// leaves. Takes no memory.
pub fn admit(
    clients: &mut IndexMap<ClientId, Session>,
    places: &mut IndexMap<Address, usize>,
    from: Address,
    connect: Connect,
    tables: NewTables,
    clock: u64,
)
    requires indexed { Indexed (get same_address places.old) (clients_of clients.old.entries) }
    requires new { is_known connect.client_id (clients_of clients.old.entries) ≡ false }
    requires none { (tables.ids ≡ []) × (tables.queue ≡ nothing) × (tables.filters ≡ [])
        × (tables.wills ≡ record { stage = Closed; will = None }) }
    requires room { 0 < spare clients.old }
    requires place_room { 0 < spare places.old }
    ensures clients { clients_of clients.new.entries
        ≡ entered clock from connect (clients_of clients.old.entries) }
    ensures indexed { Indexed (get same_address places.new) (clients_of clients.new.entries) }
    ensures beside { (times : List ℕ) → Waits times (clients_of clients.old.entries)
        → WaitsBeside (length clients.old.entries) times (clients_of clients.new.entries) }
{
    vacate(clients, places, from, &connect.client_id, clock);
    let NewTables {
        ids,
        queue,
        filters,
        mut wills,
    } = tables;
    open(&mut wills, connect.flags.clean, connect.flags.will);
    let session = Session {
        presence: Presence {
            address: from,
            phase: phase_opened(connect.flags.will),
            duration: connect.duration,
            heard: clock,
        },
        ids,
        number: 0,
        queue,
        filters,
        wills,
        unreleased: OpenIds::new(),
    };
    settle(clients, places, connect.client_id, session);
}

/// The client at this place, which connects again, is where its CONNECT came from, and whoever else is there
/// leaves. A clean CONNECT ends what stood and waited for it, and what is open of its publishes. Takes no
/// memory.
pub fn readmit(
    clients: &mut IndexMap<ClientId, Session>,
    places: &mut IndexMap<Address, usize>,
    standing: &mut Standing,
    place: usize,
    from: Address,
    connect: &Connect,
    clock: u64,
)
    requires indexed { Indexed (get same_address places.old) (clients_of clients.old.entries) }
    requires kept { Keeps standing.old (clients_of clients.old.entries) }
    requires place { position (bytes_eq connect.now.client_id) (keys clients.old) ≡ Some place }
    requires place_room { 0 < spare places.old }
    ensures clients { clients_of clients.new.entries
        ≡ entered clock from connect.now (clients_of clients.old.entries) }
    ensures indexed { Indexed (get same_address places.new) (clients_of clients.new.entries) }
    ensures beside { (times : List ℕ) → Waits times (clients_of clients.old.entries)
        → WaitsBeside place times (clients_of clients.new.entries) }
    ensures kept { Keeps standing.new (clients_of clients.new.entries) }
{
    // `len` is called for its clause that the keys are apart.
    let _count = clients.len();
    vacate(clients, places, from, &connect.client_id, clock);
    return_at(clients, places, standing, place, from, connect, clock);
}

/// The client at this place is at the address from now on, where nobody else is, as its CONNECT is accepted.
fn return_at(
    clients: &mut IndexMap<ClientId, Session>,
    places: &mut IndexMap<Address, usize>,
    standing: &mut Standing,
    place: usize,
    from: Address,
    connect: &Connect,
    clock: u64,
)
    requires indexed { Indexed (get same_address places.old) (clients_of clients.old.entries) }
    requires kept { Keeps standing.old (clients_of clients.old.entries) }
    requires alone { (other : ℕ) → stands_at from (clients_of clients.old.entries) other ≡ true
        → is_place place other ≡ true }
    requires place_room { 0 < spare places.old }
    ensures clients { clients_of clients.new.entries
        ≡ moved_at place (let_in clock from connect.now) (clients_of clients.old.entries) }
    ensures indexed { Indexed (get same_address places.new) (clients_of clients.new.entries) }
    ensures kept { Keeps standing.new (clients_of clients.new.entries) }
{
    if let Some(session) = clients.get_index_mut(place) {
        release(places, Some(session.presence));
        begin(session, standing, place, from, connect, clock);
        match places.insert(from, place) {
            Ok(_) => {}
            Err(_) => unreachable!(),
        }
    }
}

/// A session begins anew, with no exchange open: a clean one ends what stood and waited for its client, its
/// will, and what is open of its own publishes (MQTT-SN 1.2, 6.2 and 6.3; MQTT 3.1.1, 3.1.2.4).
fn begin(
    session: &mut Session,
    standing: &mut Standing,
    place: usize,
    from: Address,
    connect: &Connect,
    clock: u64,
)
    requires { SaysHeld standing.old place session.old.filters }
    ensures presence { session.new.presence ≡ record {
      address = from;
      phase = phase_opened connect.now.flags.will;
      duration = connect.now.duration;
      heard = clock;
    } }
    ensures ids { session.new.ids ≡ [] }
    ensures number { session.new.number ≡ session.old.number }
    ensures queue { session.new.queue ≡ (if connect.now.flags.clean then nothing
        else record session.old.queue { exchange = None }) }
    ensures filters { session.new.filters ≡ (if connect.now.flags.clean then [] else session.old.filters) }
    ensures wills { session.new.wills
        ≡ wills_opened connect.now.flags.clean connect.now.flags.will session.old.wills }
    ensures unreleased { session.new.unreleased
        ≡ (if connect.now.flags.clean then [] else session.old.unreleased) }
    ensures held { SaysHeld standing.new place session.new.filters }
    ensures others { SameOfOthers standing.old standing.new place }
{
    session.queue.close();
    if connect.flags.clean {
        end_all(&mut session.filters, standing, place);
        session.queue.empty();
        session.unreleased.clear();
    }
    open(&mut session.wills, connect.flags.clean, connect.flags.will);
    session.ids.clear();
    session.presence = Presence {
        address: from,
        phase: phase_opened(connect.flags.will),
        duration: connect.duration,
        heard: clock,
    };
}

/// How a client stands whose CONNECT is accepted: one with Will opens the dialogue about its will.
fn phase_opened(will: bool) -> ClientState
    ensures { result ≡ phase_opened will }
{
    if will {
        ClientState::Dialogue
    } else {
        ClientState::Active
    }
}

/// The dialogue about the will of a client whose CONNECT is accepted: one with Will opens it, and else none
/// is open. A clean session has no will yet.
fn open(wills: &mut WillDialogue, clean: bool, will: bool)
    ensures { wills.new ≡ wills_opened clean will wills.old }
{
    if clean {
        wills.clear();
    } else {
        wills.stop();
    }
    if will {
        wills.start();
    }
}

/// Whoever is at the address and has another id leaves.
fn vacate(
    clients: &mut IndexMap<ClientId, Session>,
    places: &mut IndexMap<Address, usize>,
    from: Address,
    id: &ClientId,
    clock: u64,
)
    requires { Indexed (get same_address places.old) (clients_of clients.old.entries) }
    ensures clients { clients_of clients.new.entries
        ≡ map (vacated clock from id.now) (clients_of clients.old.entries) }
    ensures indexed { Indexed (get same_address places.new) (clients_of clients.new.entries) }
    ensures room { spare clients.old ≤ spare clients.new }
    ensures place_room { spare places.old ≤ spare places.new }
{
    if let Some(place) = places.get(&from).copied() {
        if !is_named(clients, place, id) {
            leave_at(clients, places, place, clock);
        }
    }
}

/// Whether the client at this place has the id.
fn is_named(clients: &IndexMap<ClientId, Session>, place: usize, id: &ClientId) -> bool
    ensures { result ≡ holds_at (λ x. bytes_eq id.now x.id) (clients_of clients.now.entries) place }
{
    match clients.get_index(place) {
        Some((key, _)) => id == key,
        None => false,
    }
}

/// The client with this id is kept so from now on, where nobody else is. One that was not known comes last.
fn settle(
    clients: &mut IndexMap<ClientId, Session>,
    places: &mut IndexMap<Address, usize>,
    id: ClientId,
    session: Session,
)
    requires indexed { Indexed (get same_address places.old) (clients_of clients.old.entries) }
    requires there { has_session session.presence.phase ≡ true }
    requires alone { (place : ℕ) → stands_at session.presence.address
        (clients_of clients.old.entries) place ≡ true
        → holds_at (λ x. bytes_eq id x.id) (clients_of clients.old.entries) place ≡ true }
    requires room { 0 < spare clients.old }
    requires place_room { 0 < spare places.old }
    ensures clients { clients_of clients.new.entries ≡ settled id session (clients_of clients.old.entries) }
    ensures indexed { Indexed (get same_address places.new) (clients_of clients.new.entries) }
{
    // `len` is called for its clause that the keys are apart.
    let _count = clients.len();
    let address = session.presence.address;
    match clients.insert_full(id, session) {
        Ok((place, before)) => {
            release(places, presence_in(before));
            match places.insert(address, place) {
                Ok(_) => {}
                Err(_) => unreachable!(),
            }
        }
        Err(_) => unreachable!(),
    }
}

/// Where the client of a session is, if there is one.
fn presence_in(session: Option<Session>) -> Option<Presence>
    ensures { result ≡ presence_in session }
{
    match session {
        Some(session) => Some(session.presence),
        None => None,
    }
}

/// The client at this place is heard. Takes no memory.
pub fn hear_at(clients: &mut IndexMap<ClientId, Session>, place: usize, clock: u64)
    ensures { clients_of clients.new.entries
        ≡ moved_at place (heard_at clock) (clients_of clients.old.entries) }
{
    if let Some(session) = clients.get_index_mut(place) {
        session.presence.heard = clock;
    }
}

/// The client at this place is heard, and where a name is given it is told the id that this has from now on.
/// Takes no memory.
pub fn tell_if(
    clients: &mut IndexMap<ClientId, Session>,
    place: usize,
    name: Option<NewName>,
    clock: u64,
)
    requires { ForSome name (λ n.
        is_full_for n (client_at (clients_of clients.old.entries) place).ids ≡ false) }
    ensures { clients_of clients.new.entries
        ≡ moved_at place (told_at clock name Allowed) (clients_of clients.old.entries) }
{
    match name {
        Some(name) => tell_at(clients, place, name, clock),
        None => hear_at(clients, place, clock),
    }
}

/// The client at this place is heard, and is told the id that the name has from now on. Takes no memory.
pub fn tell_at(clients: &mut IndexMap<ClientId, Session>, place: usize, name: NewName, clock: u64)
    requires { is_full_for name (client_at (clients_of clients.old.entries) place).ids ≡ false }
    ensures { clients_of clients.new.entries
        ≡ moved_at place (told_at clock (Some name) Allowed) (clients_of clients.old.entries) }
{
    if let Some(session) = clients.get_index_mut(place) {
        tell(session, name, clock);
    }
}

/// The same of one session.
fn tell(session: &mut Session, name: NewName, clock: u64)
    requires { is_full_for name session.old.ids ≡ false }
    ensures { session.new ≡ record session.old {
      presence = record session.old.presence { heard = clock };
      ids = told name session.old.ids;
    } }
{
    let id = session.ids.give(name);
    session.ids.confirm(id);
    session.presence.heard = clock;
}
