//! The limits of packets. `crate::laws::limits` states each number.

/// The most bytes of a packet, its fixed header among them, that is read or written.
pub const MAX_PACKET: usize = 70000;

/// The greatest Remaining Length that has a spelling: four bytes of seven bits each (MQTT 3.1.1, 2.2.3).
pub const MAX_REMAINING: usize = 268435455;
