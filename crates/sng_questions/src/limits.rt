//! The limit of what is shown.

/// How many bytes are shown at most of a text of a policy that is at fault.
pub const MAX_SHOWN: usize = 200;
