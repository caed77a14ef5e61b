//! What keeps a filter from standing.
use thiserror::Error;

/// The fault of a subscription.
#[derive(Clone, Copy, Debug, PartialEq, Eq, Error)]
pub enum FanFault {
    /// As many other filters stand for the client as may.
    #[error("too many filters stand for the client")]
    Full,
}
