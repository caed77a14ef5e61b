//! The limit of a client's topic ids.

/// How many names may have an id.
pub const MAX_TOPIC_IDS: usize = 128;
