//! How great a number may be that `sng serve` is told, in its file as on its command line.

/// So many workers at least share the socket.
pub const MIN_WORKERS: u32 = 1;

/// How many workers at most share the socket.
pub const MAX_WORKERS: u32 = 8;

/// The least bound of a flood, in datagrams a second.
pub const MIN_FLOOD: u32 = 1;

/// The greatest bound of a flood, in datagrams a second.
pub const MAX_FLOOD: u32 = u32::MAX;
