//! The limits of what a command takes from its input. What follows from the width of a number is no limit of
//! ours.

/// How many calls of `read` the input of a command may need.
pub const MAX_READS: u32 = 1_000_000;

/// How many bytes a line has at most, without its line feed: 256 MiB.
pub const MAX_LINE: usize = 268_435_456;
