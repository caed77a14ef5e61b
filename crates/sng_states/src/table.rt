//! The table of states and cues (MQTT-SN 1.2, 6.14).
ghost use Rattle.std.specs.Prelude.{◌≡◌};
ghost use Rattle.sng_states.specs.States.{next};

use crate::{ClientState, Cue};

/// The state that the cue leads to. None where the cue has no place in the state. Takes no memory.
pub fn next(state: ClientState, cue: Cue) -> Option<ClientState>
    ensures { result ≡ next state cue }
{
    match (cue, state) {
        (Cue::Connect, _) => Some(ClientState::Active),
        (Cue::ConnectWill, _) => Some(ClientState::Dialogue),
        (Cue::WillDone, ClientState::Dialogue) => Some(ClientState::Active),
        (Cue::WillDenied, ClientState::Dialogue) => Some(ClientState::Disconnected),
        (Cue::Sleep, ClientState::Active | ClientState::Asleep | ClientState::Awake) => {
            Some(ClientState::Asleep)
        }
        (Cue::Wake, ClientState::Asleep) => Some(ClientState::Awake),
        (Cue::Drained, ClientState::Awake) => Some(ClientState::Asleep),
        (
            Cue::Leave,
            ClientState::Dialogue | ClientState::Active | ClientState::Asleep | ClientState::Awake,
        ) => Some(ClientState::Disconnected),
        (
            Cue::Lapse,
            ClientState::Dialogue | ClientState::Active | ClientState::Asleep | ClientState::Awake,
        ) => Some(ClientState::Lost),
        _ => None,
    }
}
