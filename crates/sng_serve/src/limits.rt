//! What bounds a running gateway.

use sng_bookkeeper::ROWS_AHEAD;
use sng_crew::limits::MAX_TURN_EVENTS;

/// How many rows the book in memory takes. Where the book goes to disk these are rows that are not safe
/// there.
pub const FULL_ROWS: u64 = ROWS_AHEAD;

/// At so many rows, or rows that are not safe, an operator is told.
pub const NEARLY_FULL_ROWS: u64 = 900_000;

/// After a beat of the clock the book is cut where its open volume has at least so many rows.
pub const VOLUME_ROWS: u64 = 4096;

/// How many volumes there may be without a book on disk, each of `VOLUME_ROWS` rows at least, and one more.
pub const MAX_VOLUMES: usize = (FULL_ROWS / VOLUME_ROWS) as usize + 2;

/// With a book on disk the book is cut at each beat that finds a row.
pub const KEPT_VOLUME_ROWS: u64 = 1;

/// With a book on disk a volume begins with room for so many rows. That is over 32 MiB, which the allocator of
/// the C library always takes from the system apart and gives back whole, so that volumes which come and go
/// between threads leave no gaps behind. What no row fills takes no memory (docs/capacity.md).
pub const KEPT_VOLUME_ROOM: usize = 700_000;

/// With a book on disk a worker at the socket hands off a piece of its trail that has so many entries.
pub const PIECE_ENTRIES: usize = 256;

/// So many rows a turn of a worker may make: while fewer are left for each, none begins one, but for the
/// worker at the clock.
pub const TURN_ROWS: u64 = MAX_TURN_EVENTS as u64;

/// So many visitors who ask for figures are heard at a time. Others wait unaccepted.
pub const MAX_VISITORS: usize = 32;

/// How long a visit is at most, in ms.
pub const VISIT_MS: u64 = 5000;

/// The worker at the clock, without which no row comes to disk, begins no turn while fewer rows are left.
pub const CLOCK_ROWS: u64 = 64;
