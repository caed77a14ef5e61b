//! A publish that was sent to the broker and waits for its PUBACK (MQTT 3.1.1, 4.3.2).
ghost use Rattle.std.specs.Prelude.{◌≡◌, IfOk};

use crate::Publication;
use std::alloc::AllocError;

/// A PUBLISH of QoS 1 that was sent and not acknowledged.
#[derive(Debug, Drop)]
pub struct InFlight {
    /// The packet id that it was sent with, not 0 (2.3.1).
    pub packet_id: u16,
    pub publication: Publication,
}

impl InFlight {
    /// An equal publish in flight, in memory of its own. Only memory can fail.
    pub fn copy(&self) -> Result<InFlight, AllocError>
        ensures { IfOk result (λ s. s ≡ self.now) }
    {
        Ok(InFlight {
            packet_id: self.packet_id,
            publication: self.publication.copy()?,
        })
    }
}
