//! Why bytes are not read as packets, and why a packet is not written.
ghost use Rattle.std.specs.Prelude.{◌≡◌};
ghost use Rattle.mqtt_frames.specs.Faults.{number_of, stream_fault};
ghost use Rattle.mqtt_frames.specs.declared.fault.StreamFault.TheVariants.{Memory};

use std::alloc::{AllocError, AllocFailed};
use thiserror::Error;

/// Why the bytes of a connection are not read as a packet. After one of these faults a stream has failed.
#[derive(Clone, Copy, Debug, PartialEq, Eq)]
pub enum PacketFault {
    /// The bytes spell no packet (MQTT 3.1.1, 4.8).
    Malformed,
    /// The packet is of a kind that is not read.
    NotSupported,
    /// The packet has more than `MAX_PACKET` bytes.
    TooLong,
}

/// The fault of a stream of packets, or of a packet that is to be written.
#[derive(Clone, Copy, Debug, PartialEq, Eq, Error)]
pub enum StreamFault {
    /// The bytes spell no packet, or no bytes spell the packet (MQTT 3.1.1, 4.8).
    #[error("the packet is malformed")]
    Malformed,
    /// The packet is of a kind that is not read.
    #[error("the packet is not supported")]
    NotSupported,
    /// The packet has more than `MAX_PACKET` bytes.
    #[error("the packet is too long")]
    TooLong,
    /// A fault was reported before, after which no packet is read.
    #[error("the stream has failed")]
    Failed,
    /// An allocation failed.
    #[error("out of memory")]
    Memory,
}

impl StreamFault {
    /// The number by which the fault is printed, 1 to 5.
    pub fn number(self) -> u8
        ensures { result ≡ number_of self }
    {
        match self {
            StreamFault::Malformed => 1,
            StreamFault::NotSupported => 2,
            StreamFault::TooLong => 3,
            StreamFault::Failed => 4,
            StreamFault::Memory => 5,
        }
    }
}

impl From<PacketFault> for StreamFault {
    ghost from_gives = { λ packet fault. fault ≡ stream_fault packet };

    fn from(fault: PacketFault) -> StreamFault {
        match fault {
            PacketFault::Malformed => StreamFault::Malformed,
            PacketFault::NotSupported => StreamFault::NotSupported,
            PacketFault::TooLong => StreamFault::TooLong,
        }
    }
}

impl From<AllocError> for StreamFault {
    ghost from_gives = { λ _ fault. fault ≡ Memory };

    fn from(_error: AllocError) -> StreamFault {
        StreamFault::Memory
    }
}
