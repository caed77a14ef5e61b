//! What is found of a book, and where it departs from the one that its script has.

use sng_text::Octets;

/// What is found of a book.
#[derive(Debug, Drop)]
pub enum Verdict {
    /// It is the book of the script, with so many rows.
    Lawful(u64),
    /// It departs from that.
    Other(Mismatch),
}

/// Where a book departs from the one that its script has.
#[derive(Debug, Drop)]
pub struct Mismatch {
    /// The line of the book, from 1.
    pub line: u64,
    /// The first row that is not lawful, from 1; 0 where something else stands before the first row.
    pub row: u64,
    /// What stands there, and what should.
    pub difference: Difference,
}

/// What differs in a line. Lines are without their line feed.
#[derive(Debug, Drop)]
pub enum Difference {
    /// Another line stands there.
    Unlike { stands: Octets, should: Octets },
    /// The book ends with this front of a line, possibly of no bytes, or with the whole line, but for its
    /// line feed.
    CutOff { stands: Octets, should: Octets },
    /// Nothing more should follow.
    GoesOn { stands: Octets },
}
