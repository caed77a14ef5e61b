//! What a client states of its will, once it is allowed, and what it does to the client (MQTT-SN 1.2, 6.3 and
//! 6.4). No call here takes memory.
ghost use Rattle.std.specs.Prelude.{◌≡◌, List, ℕ};
ghost use Rattle.sng_sessions.specs.Places.{client_of, clients_of, moved_at};
ghost use Rattle.sng_sessions.specs.Willing.{phase_stated, wills_stated, stating_at};

use crate::session::Session;
use indexmap::IndexMap;
use sng_states::ClientState;
use sng_text::{ClientId, Octets};
use sng_wills::{StatedTopic, WillDialogue};

/// What a client states of its will.
#[derive(Debug, Drop)]
pub enum Stating {
    /// In the dialogue behind a CONNECT, a WILLTOPIC without a topic: the will is deleted, and the dialogue
    /// is over.
    NoWill,
    /// In the dialogue, a WILLTOPIC: its message is awaited.
    Topic(StatedTopic),
    /// In the dialogue, a WILLMSG: the will is of it, and the dialogue is over.
    Message(Octets),
    /// Later, a WILLTOPICUPD without a topic: the will is deleted.
    Deletion,
    /// Later, a WILLTOPICUPD.
    NewTopic(StatedTopic),
    /// Later, a WILLMSGUPD.
    NewMessage(Octets),
}

/// The client at this place is heard, and its will is as it states.
pub fn state_at(
    clients: &mut IndexMap<ClientId, Session>,
    place: usize,
    stating: Stating,
    clock: u64,
)
    ensures { clients_of clients.new.entries
        ≡ moved_at place (stating_at clock stating) (clients_of clients.old.entries) }
{
    if let Some(session) = clients.get_index_mut(place) {
        session.presence.heard = clock;
        session.presence.phase = phase_stated(&stating, session.presence.phase);
        state(&mut session.wills, stating);
    }
}

/// How a client stands once it stated this: the dialogue is over where it was the last of it, or deleted the
/// will.
fn phase_stated(stating: &Stating, phase: ClientState) -> ClientState
    ensures { result ≡ phase_stated stating.now phase }
{
    match stating {
        Stating::NoWill | Stating::Message(_) => {
            if phase.has_session() {
                ClientState::Active
            } else {
                phase
            }
        }
        Stating::Topic(_) | Stating::Deletion | Stating::NewTopic(_) | Stating::NewMessage(_) =>
            phase,
    }
}

/// The will is as it is stated. What is out of turn changes nothing.
fn state(wills: &mut WillDialogue, stating: Stating)
    ensures { wills.new ≡ wills_stated stating wills.old }
{
    match stating {
        Stating::NoWill | Stating::Deletion => wills.clear(),
        Stating::Topic(stated) => {
            let StatedTopic { topic, qos, retain } = stated;
            let _turn = wills.topic(topic, qos, retain);
        }
        Stating::Message(message) => {
            let _turn = wills.message(message);
        }
        Stating::NewTopic(stated) => {
            let StatedTopic { topic, qos, retain } = stated;
            let _turn = wills.update_topic(topic, qos, retain);
        }
        Stating::NewMessage(message) => {
            let _turn = wills.update_message(message);
        }
    }
}
