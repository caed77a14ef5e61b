//! Which filters stand for a client (MQTT-SN 1.2, 6.9), together with the tree of those that stand for
//! anybody.
ghost use Rattle.std.specs.Prelude.{◌≡◌, [], false, OnOk, OnErr};
ghost use Rattle.sng_fan.specs.Subscriptions.{is_full, with_filter, without_filter};
ghost use Rattle.sng_history.specs.Clients.{without};
ghost use Rattle.sng_sessions.specs.Standing.{client_at, standing_at};
ghost use Rattle.sng_sessions.specs.Kept.{SaysHeld, SameOfOthers, Keeps};
ghost use Rattle.sng_sessions.specs.Places.{clients_of, moved_at};

use crate::filters::ClientFilters;
use crate::session::Session;
use indexmap::IndexMap;
use sng_standing::Standing;
use sng_text::{ClientId, Qos, TopicFilter};
use std::alloc::{AllocError, Global};

/// The filter stands for the client at this place at this QoS. An `Err` is a failed allocation; nothing
/// changed.
pub fn stand_at(
    clients: &mut IndexMap<ClientId, Session>,
    standing: &mut Standing,
    alloc: Global,
    place: usize,
    filter: TopicFilter,
    qos: Qos,
) -> Result<(), AllocError>
    requires fits { is_full (client_at (clients_of clients.old.entries) place).filters filter ≡ false }
    requires kept { Keeps standing.old (clients_of clients.old.entries) }
    ensures ok { OnOk result (clients_of clients.new.entries
        ≡ moved_at place (standing_at filter qos) (clients_of clients.old.entries)) }
    ensures err { OnErr result (clients_of clients.new.entries ≡ clients_of clients.old.entries) }
    ensures kept { Keeps standing.new (clients_of clients.new.entries) }
{
    if let Some(session) = clients.get_index_mut(place) {
        stand(session, standing, alloc, place, filter, qos)?;
    }
    Ok(())
}

/// The same of one session.
fn stand(
    session: &mut Session,
    standing: &mut Standing,
    alloc: Global,
    place: usize,
    filter: TopicFilter,
    qos: Qos,
) -> Result<(), AllocError>
    requires fits { is_full session.old.filters filter ≡ false }
    requires held { SaysHeld standing.old place session.old.filters }
    ensures ok { OnOk result (session.new
        ≡ record session.old { filters = with_filter session.old.filters filter qos }) }
    ensures err { OnErr result (session.new ≡ session.old) }
    ensures held { SaysHeld standing.new place session.new.filters }
    ensures others { SameOfOthers standing.old standing.new place }
{
    let mut filters = session.filters.take(alloc)?;
    if let Err(error) = standing.add(alloc, place, &filter, qos) {
        session.filters.put(filters);
        return Err(error);
    }
    match filters.add(filter, qos) {
        Ok(()) => {}
        Err(_) => unreachable!(),
    }
    session.filters.put(filters);
    Ok(())
}

/// The filter stands no more for the client at this place. Takes no memory.
pub fn end_at(
    clients: &mut IndexMap<ClientId, Session>,
    standing: &mut Standing,
    place: usize,
    filter: &TopicFilter,
)
    requires { Keeps standing.old (clients_of clients.old.entries) }
    ensures clients { clients_of clients.new.entries
        ≡ moved_at place (without filter.now) (clients_of clients.old.entries) }
    ensures kept { Keeps standing.new (clients_of clients.new.entries) }
{
    if let Some(session) = clients.get_index_mut(place) {
        end_one(session, standing, place, filter);
    }
}

/// The same of one session.
fn end_one(session: &mut Session, standing: &mut Standing, place: usize, filter: &TopicFilter)
    requires { SaysHeld standing.old place session.old.filters }
    ensures session { session.new
        ≡ record session.old { filters = without_filter session.old.filters filter.now } }
    ensures held { SaysHeld standing.new place session.new.filters }
    ensures others { SameOfOthers standing.old standing.new place }
{
    session.filters.end(filter);
    standing.end(place, filter);
}

/// No filter stands any more for the client at this place. Takes no memory.
pub fn end_all(filters: &mut ClientFilters, standing: &mut Standing, place: usize)
    requires { SaysHeld standing.old place filters.old }
    ensures filters { filters.new ≡ [] }
    ensures held { SaysHeld standing.new place [] }
    ensures others { SameOfOthers standing.old standing.new place }
{
    standing.end_client(place, filters.filters());
    filters.clear();
}
