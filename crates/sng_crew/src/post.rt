//! What a worker begins with.
use crate::connection::Terms;
use sng_desk::Share;

/// A worker that is to start.
#[derive(Drop)]
pub struct Post<S, F> {
    /// With which its rows are made.
    pub share: Share,
    /// Where its events come from.
    pub source: S,
    /// Where it files the pieces of its trail.
    pub filing: F,
}

/// A worker at the connection to the broker that is to start.
#[derive(Drop)]
pub struct BrokerPost<U, D, F> {
    /// With which its rows are made.
    pub share: Share,
    /// The connections to the broker.
    pub source: U,
    /// By what it sends datagrams.
    pub sender: D,
    /// Where it files the pieces of its trail.
    pub filing: F,
    /// How it connects.
    pub terms: Terms,
}
