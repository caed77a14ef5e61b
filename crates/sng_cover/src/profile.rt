//! What a gap depends on beside the asked filter and the depths that are reached: it is the same for every
//! question about the same granted filters, so whoever keeps them may keep it with them.
use crate::marks::Marks;
use crate::runs;
use crate::shape::Shape;
use sng_text::TopicFilter;
use std::cmp;

/// The longest fixed part of some filters, and the lengths of the runs of `x` among their levels.
/// `specs/Gathered` says what a profile is of.
#[derive(Clone, Copy, Debug)]
pub struct Profile {
    longest: usize,
    runs: Marks,
}

impl Profile {
    ghost use Rattle.std.specs.Prelude.{ℕ, ◌≡◌, ◌++◌, ◌∷◌, [], true, List};
    ghost use Rattle.sng_text.specs.Texts.{is_filter};
    ghost use Rattle.sng_cover.specs.Gathered.{IsProfile};

    /// The profile of no filters.
    pub fn new() -> Profile
        ensures { IsProfile result [] }
    {
        Profile {
            longest: 0,
            runs: Marks::new(),
        }
    }

    /// Adds a filter. Takes no memory, and time by the filter's length.
    pub fn add(&mut self, filter: &TopicFilter)
        ensures { (granted : List (List ℕ)) → IsProfile self.old granted
            → IsProfile self.new (granted ++ filter.now ∷ []) }
    {
        let shape = Shape::of(filter);
        self.longest = cmp::max(shape.fixed, self.longest);
        runs::mark_runs(&mut self.runs, filter);
    }

    /// The most levels that one of the filters has before its `#`, or in all.
    pub fn longest(&self) -> usize
        ensures { result ≡ self.now.longest }
    {
        self.longest
    }

    /// The lengths of the runs of `x` among the filters' levels.
    pub fn runs(&self) -> &Marks
        ensures { result.now ≡ self.now.runs }
    {
        &self.runs
    }
}
