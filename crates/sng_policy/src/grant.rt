//! The answers of a policy.
use sng_text::TopicName;

/// What a policy says of one name to an ask, and again to what leaves.
#[derive(Clone, Copy, Debug, PartialEq, Eq)]
pub enum NameGrant {
    /// It is granted.
    Allowed,
    /// The policy does not list who asks.
    Unlisted,
    /// No pair with the permission that is asked for matches the name.
    Missing,
}

/// What a policy says of a subscription by a filter.
#[derive(Debug, Drop)]
pub enum FilterGrant {
    /// It is granted.
    Allowed,
    /// The policy does not list the client.
    Unlisted,
    /// The filter matches this name, and no filter with `sub` does: the gap, of the least depth.
    Uncovered(TopicName),
}
