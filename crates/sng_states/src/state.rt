//! The states of a client and the cues that move it (MQTT-SN 1.2, 6.14).
ghost use Rattle.std.specs.Prelude.{◌≡◌};

/// How a client stands with the gateway.
#[derive(Clone, Copy, Debug, PartialEq, Eq)]
pub enum ClientState {
    /// It is connected, and the dialogue about its will is open (6.3).
    Dialogue,
    /// It is connected and awake.
    Active,
    /// It sleeps, and what comes for it waits (6.14).
    Asleep,
    /// It sleeps, and has asked for what waits.
    Awake,
    /// It took its leave, or was refused.
    Disconnected,
    /// It was silent for too long.
    Lost,
}

impl ClientState {
    ghost use Rattle.sng_states.specs.States.{has_session, is_due_messages, takes_messages, is_asleep};
    ghost use Rattle.sng_states.specs.States.{is_awake, is_active};

    /// Whether the gateway holds a session with the client at its address.
    pub fn has_session(self) -> bool
        ensures { result ≡ has_session self }
    {
        match self {
            ClientState::Dialogue
            | ClientState::Active
            | ClientState::Asleep
            | ClientState::Awake => true,
            ClientState::Disconnected | ClientState::Lost => false,
        }
    }

    /// Whether the broker's messages for the client wait for it: it has a session, and no dialogue is open.
    pub fn is_due_messages(self) -> bool
        ensures { result ≡ is_due_messages self }
    {
        match self {
            ClientState::Active | ClientState::Asleep | ClientState::Awake => true,
            ClientState::Dialogue | ClientState::Disconnected | ClientState::Lost => false,
        }
    }

    /// Whether it is connected, and neither is a dialogue open nor does it sleep.
    pub fn is_active(self) -> bool
        ensures { result ≡ is_active self }
    {
        match self {
            ClientState::Active => true,
            ClientState::Dialogue
            | ClientState::Asleep
            | ClientState::Awake
            | ClientState::Disconnected
            | ClientState::Lost => false,
        }
    }

    /// Whether it sleeps, and has not asked for what waits.
    pub fn is_asleep(self) -> bool
        ensures { result ≡ is_asleep self }
    {
        match self {
            ClientState::Asleep => true,
            ClientState::Dialogue
            | ClientState::Active
            | ClientState::Awake
            | ClientState::Disconnected
            | ClientState::Lost => false,
        }
    }

    /// Whether it sleeps, and has asked for what waits.
    pub fn is_awake(self) -> bool
        ensures { result ≡ is_awake self }
    {
        match self {
            ClientState::Awake => true,
            ClientState::Dialogue
            | ClientState::Active
            | ClientState::Asleep
            | ClientState::Disconnected
            | ClientState::Lost => false,
        }
    }

    /// Whether messages that wait are handed over to the client: it is due messages and does not sleep.
    pub fn takes_messages(self) -> bool
        ensures { result ≡ takes_messages self }
    {
        match self {
            ClientState::Active | ClientState::Awake => true,
            ClientState::Dialogue
            | ClientState::Asleep
            | ClientState::Disconnected
            | ClientState::Lost => false,
        }
    }
}

/// What moves a client.
#[derive(Clone, Copy, Debug, PartialEq, Eq)]
pub enum Cue {
    /// A CONNECT without Will was allowed.
    Connect,
    /// A CONNECT with Will was allowed.
    ConnectWill,
    /// The dialogue about its will is done.
    WillDone,
    /// Its will was denied.
    WillDenied,
    /// It sent a DISCONNECT with Duration.
    Sleep,
    /// It sent a PINGREQ with its client id.
    Wake,
    /// It was sent the PINGRESP that ends its waking.
    Drained,
    /// It sent a DISCONNECT without Duration, or another client came to its address.
    Leave,
    /// It was silent for too long, or did not answer.
    Lapse,
}
