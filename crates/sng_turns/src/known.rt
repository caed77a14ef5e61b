//! The topic id by which a client knows a name (MQTT-SN 1.2, 5.3.11, 6.5 and 6.7).
ghost use Rattle.std.specs.Prelude.{◌≡◌};
ghost use Rattle.sng_ids.specs.Ids.{confirmed, id_of};
ghost use Rattle.sng_history.specs.Requests.{id_in};
ghost use Rattle.sng_turns.specs.HandingOver.{fixed_id, known_id, id_or_none};

use sng_policy::InForce;
use sng_queue::TopicIdKind;
use sng_sessions::ClientIds;
use sng_text::TopicName;

/// A topic id, and of which kind it is.
#[derive(Clone, Copy, Debug)]
pub struct KnownId {
    pub kind: TopicIdKind,
    pub id: u16,
}

/// The topic id of a name that is the same for each client: a name of two octets is its own short name, and
/// another one may have a predefined id, of which the least counts. Takes no memory.
pub fn fixed_id(policy: &InForce, name: &TopicName) -> Option<KnownId>
    ensures { result ≡ fixed_id policy.now name.now }
{
    let text = name.text();
    if text.len() == 2 {
        return Some(KnownId {
            kind: TopicIdKind::Short,
            id: id_in(text),
        });
    }
    match policy.topic_id(name) {
        Some(id) => Some(KnownId {
            kind: TopicIdKind::Predefined,
            id,
        }),
        None => None,
    }
}

/// The topic id by which a client knows the name: that of each client, else the one that it was told, once it
/// has confirmed one more. Takes no memory.
pub fn known_id(
    fixed: Option<KnownId>,
    ids: &ClientIds,
    confirming: Option<u16>,
    name: &TopicName,
) -> Option<KnownId>
    ensures { result ≡ known_id fixed (confirmed (id_or_none confirming) ids.now) name.now }
{
    match fixed {
        Some(known) => Some(known),
        None => match told_id(ids, confirming, name) {
            Some(id) => Some(KnownId {
                kind: TopicIdKind::Normal,
                id,
            }),
            None => None,
        },
    }
}

/// The id of the name that the client knows, once it has confirmed one more.
fn told_id(ids: &ClientIds, confirming: Option<u16>, name: &TopicName) -> Option<u16>
    ensures { result ≡ id_of name.now (confirmed (id_or_none confirming) ids.now) }
{
    match confirming {
        Some(id) => confirmed_id(ids, id, name),
        None => ids.id_of(name),
    }
}

/// The same, once it has confirmed this id.
fn confirmed_id(ids: &ClientIds, id: u16, name: &TopicName) -> Option<u16>
    ensures { result ≡ id_of name.now (confirmed id ids.now) }
{
    if ids.id_for(name) == id && ids.name_of(id).is_some() {
        return Some(id);
    }
    ids.id_of(name)
}

/// The id in the two octets of a topic, the high one first.
pub fn id_in(topic: &[u8]) -> u16
    ensures { result ≡ id_in topic.now }
{
    match topic {
        [high, low, ..] => u16::from(*high) * 256 + u16::from(*low),
        _ => 0,
    }
}
