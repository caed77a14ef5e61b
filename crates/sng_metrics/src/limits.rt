//! How large a request may be. `laws::limits` has the numbers.

/// The most octets of the head of a request (RFC 9112, 3 and 5): none behind these is read.
pub const MAX_REQUEST: usize = 8192;

/// The most field lines of the head of a request (RFC 9112, 5).
pub const MAX_FIELDS: usize = 64;
