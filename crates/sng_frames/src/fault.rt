//! Why a datagram is not decoded, or a frame not encoded.
ghost use Rattle.std.specs.Prelude.{◌≡◌};

use std::alloc::AllocError;
use thiserror::Error;

/// The fault of a datagram or of a frame.
#[derive(Clone, Copy, Debug, PartialEq, Eq, Error)]
pub enum FrameFault {
    /// The bytes spell no message, or no bytes spell the frame (MQTT-SN 1.2, 5.2 to 5.4).
    #[error("the frame is malformed")]
    Malformed,
    /// The message is of a type that is not decoded (MQTT-SN 1.2, 5.4.1 to 5.4.3 and 5.5).
    #[error("the message type is not supported")]
    NotSupported,
    /// The frame has more than `MAX_DATAGRAM` octets.
    #[error("the frame is too long")]
    TooLong,
    /// An allocation failed.
    #[error("out of memory")]
    Memory,
}

impl From<AllocError> for FrameFault {
    ghost use Rattle.sng_frames.specs.declared.fault.FrameFault.TheVariants.{Memory};

    ghost from_gives = { λ _ fault. fault ≡ Memory };

    fn from(_: AllocError) -> FrameFault {
        FrameFault::Memory
    }
}
