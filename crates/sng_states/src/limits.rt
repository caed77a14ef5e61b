//! The limits of a client's silence and of its open MsgIds.

/// The milliseconds of silence that each second of a Duration allows: the second, and half of it for frames
/// that were lost.
pub const SILENCE_MS_PER_SECOND: u64 = 1500;

/// How many publishes at QoS 2 of a client may be open at once: received, and not released by PUBREL.
pub const MAX_OPEN_IDS: usize = 16;
