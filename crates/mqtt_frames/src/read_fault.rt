//! Why a packet could not be read from its bytes.
ghost use Rattle.std.specs.Prelude.{◌≡◌};
ghost use Rattle.mqtt_frames.specs.declared.read_fault.ReadFault.TheVariants.{Packet, Memory};

use crate::PacketFault;
use std::alloc::{AllocError, AllocFailed};

/// A fault of the bytes, or of the memory that a value takes.
#[derive(Clone, Copy, Debug)]
pub enum ReadFault {
    /// The bytes have this fault.
    Packet(PacketFault),
    /// An allocation failed.
    Memory,
}

impl From<PacketFault> for ReadFault {
    ghost from_gives = { λ packet fault. fault ≡ Packet packet };

    fn from(fault: PacketFault) -> ReadFault {
        ReadFault::Packet(fault)
    }
}

impl From<AllocError> for ReadFault {
    ghost from_gives = { λ _ fault. fault ≡ Memory };

    fn from(_error: AllocError) -> ReadFault {
        ReadFault::Memory
    }
}

impl<T: Drop> From<AllocFailed<T>> for ReadFault {
    ghost from_gives = { λ _ fault. fault ≡ Memory };

    fn from(_error: AllocFailed<T>) -> ReadFault {
        ReadFault::Memory
    }
}
