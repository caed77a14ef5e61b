//! The level that no granted filter names: the shortest run of `x` that is none of their levels.
ghost use Rattle.std.specs.Prelude.{ℕ, List, ◌≡◌, ◌≤◌, ◌||◌, length};
ghost use Rattle.std.specs.Str.{bytes_eq};
ghost use Rattle.sng_text.specs.Levels.{levels_of};
ghost use Rattle.sng_cover.specs.Candidates.{run, has_level, fresh_level};
ghost use Rattle.sng_cover.specs.Gathered.{AreRunsOf};
ghost use Rattle.sng_cover.specs.Marks.{is_marked};

use crate::marks::Marks;
use sng_text::bytes::has_byte;
use sng_text::{Levels, MAX_FILTER, TopicFilter};

/// The most `x` that may be asked for: one more than a filter has bytes.
const LONGEST_RUN: usize = MAX_FILTER + 1;

const LONGEST: [u8; LONGEST_RUN] = [b'x'; LONGEST_RUN];

/// The shortest run of `x`, of at least one, that is no level of a granted filter, by the lengths of the runs
/// that are.
pub fn fresh_level(runs: &Marks) -> &'static [u8]
    ensures { (granted : List (List ℕ)) → AreRunsOf runs.now granted → result.now ≡ fresh_level granted }
{
    &LONGEST[..fresh_count(runs)]
}

/// How long that run is.
fn fresh_count(runs: &Marks) -> usize
    ensures value { (granted : List (List ℕ)) → AreRunsOf runs.now granted
        → run result ≡ fresh_level granted }
    ensures few { result ≤ LONGEST_RUN }
{
    for count in 1..LONGEST_RUN {
        if !runs.has(count) {
            return count;
        }
    }
    LONGEST_RUN
}

/// Marks the lengths of the runs of `x` among the filter's levels.
#[tactic(auto, using(crate::proofs::Filters::short_of, crate::proofs::Shapes::no_runs))]
pub fn mark_runs(runs: &mut Marks, filter: &TopicFilter)
    ensures { (count : ℕ) → 1 ≤ count → is_marked runs.new count
        ≡ (has_level (run count) (levels_of filter.now) || is_marked runs.old count) }
{
    let text = filter.text();
    if !has_byte(b'x', text) {
        return;
    }
    for level in Levels::of(text) {
        if is_run(level) {
            runs.mark(level.len());
        }
    }
}

/// Whether the level has no byte but `x`.
fn is_run(level: &[u8]) -> bool
    ensures { result ≡ bytes_eq (run (length level.now)) level.now }
{
    for byte in level {
        if *byte != b'x' {
            return false;
        }
    }
    true
}
