//! What keeps a name from getting a topic id.
use thiserror::Error;

/// Why a name got no topic id.
#[derive(Clone, Copy, Debug, PartialEq, Eq, Error)]
pub enum IdFault {
    /// `MAX_TOPIC_IDS` names have an id, and this one has none.
    #[error("no topic id is left")]
    Full,
    /// An allocation failed.
    #[error("out of memory")]
    Memory,
}
