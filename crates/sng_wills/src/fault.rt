//! What keeps a frame from having its place in the dialogue.
use thiserror::Error;

/// The one fault of the dialogue.
#[derive(Debug, Drop, Error)]
pub enum WillFault<T> {
    /// The frame has no place in the dialogue as it stands. This is what it stated, given back.
    #[error("the frame has no place in the dialogue about the will")]
    OutOfTurn(T),
}
