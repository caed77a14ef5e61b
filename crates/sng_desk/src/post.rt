//! What the worker at a clock begins with.
use crate::desk::Share;

/// A worker at a clock that is to start.
#[derive(Drop)]
pub struct ClockPost<B, D, F, V> {
    /// With which its rows are made.
    pub share: Share,
    /// The beats.
    pub source: B,
    /// By what it sends datagrams.
    pub sender: D,
    /// Where it files the pieces of its trail.
    pub filing: F,
    /// The number of the row with which the first volume that is cut out begins: that of the open volume
    /// (`Desk::first`).
    pub first: u64,
    /// After a beat the book is cut where its open volume has at least so many rows.
    pub rows: u64,
    /// Where the volumes are filed then.
    pub volume_filing: V,
}
