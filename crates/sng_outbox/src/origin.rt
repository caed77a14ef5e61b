//! Who asked for a publish (MQTT-SN 1.2, 5.3.1 and 6.8).
ghost use Rattle.std.specs.Prelude.{◌≡◌, IfOk};

use sng_text::ClientId;
use std::alloc::AllocError;

/// Who asked for a publish.
#[derive(Debug, Drop)]
pub enum Origin {
    /// A connected client, by its client id (MQTT-SN 1.2, 5.3.1).
    Client(ClientId),
    /// A device without a session, by its IPv4 address (MQTT-SN 1.2, 6.8).
    Source([u8; 4]),
}

impl Origin {
    /// An equal origin, in memory of its own. Only memory can fail.
    pub fn copy(&self) -> Result<Origin, AllocError>
        ensures { IfOk result (λ o. o ≡ self.now) }
    {
        match self {
            Origin::Client(id) => Ok(Origin::Client(id.copy()?)),
            Origin::Source(address) => Ok(Origin::Source(*address)),
        }
    }
}
