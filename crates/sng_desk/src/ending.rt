//! What a turn of a worker leads to, and what a worker leaves.
use crate::desk::Share;
use crate::piece::Piece;
use crate::volume::Volume;
use thiserror::Error;

/// Why a worker gave up.
#[derive(Clone, Copy, Debug, PartialEq, Eq, Error)]
pub enum WorkerFault {
    /// The source failed.
    #[error("the source failed")]
    Device,
    /// As many tries to connect as there may be failed, one after another.
    #[error("no connection to the broker could be made")]
    GaveUp,
    /// The desk refused to hear that the connection is lost.
    #[error("the loss of the connection could not be noted")]
    Refused,
    /// The desk refused the last event, since the book is full.
    #[error("the book is full")]
    BookFull,
}

/// What a turn leads to.
#[derive(Clone, Copy, Debug, PartialEq, Eq)]
pub enum Next {
    /// Another turn.
    On,
    /// It was the last: why, where that is a fault.
    Over(Option<WorkerFault>),
}

/// What a worker leaves.
#[derive(Drop)]
pub struct WorkerEnd<S, D, F> {
    /// What it says of its acts since the last piece that it handed off.
    pub rest: Piece,
    /// Its share, with which its rows were made.
    pub share: Share,
    /// Where its events came from.
    pub source: S,
    /// What it sent by; `NoSender` where that is its source, or it sends nothing.
    pub sender: D,
    /// Where it filed the pieces of its trail.
    pub filing: F,
    /// Why it gave up, where it did.
    pub fault: Option<WorkerFault>,
}

/// What the worker at a clock leaves, the only one that cuts.
#[derive(Drop)]
pub struct TickerEnd<B, D, F, V> {
    /// What each worker leaves.
    pub worker: WorkerEnd<B, D, F>,
    /// The volumes that it cut out and has not handed off, in order.
    pub volumes: Vec<Volume>,
    /// Where it filed those before them.
    pub volume_filing: V,
}

/// In place of what a worker sends by, for one that has it in its source, or sends nothing.
#[derive(Clone, Copy, Debug, PartialEq, Eq)]
pub struct NoSender;
