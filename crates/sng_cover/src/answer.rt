//! The answer on inclusion.

use sng_text::TopicName;

/// Whether the names that a filter matches are all matched by granted ones.
#[derive(Debug, Drop)]
pub enum Cover {
    /// Each of them is.
    Included,
    /// This one is not: the gap, of the least depth.
    Uncovered(TopicName),
}
