//! How many subscriptions a client may have.

/// How many filters may stand for one client.
pub const MAX_SUBSCRIPTIONS: usize = 32;
