//! A question of inclusion, to which granted filters are added one by one, wherever they stand (MQTT 3.1.1,
//! 4.7).
use crate::answer::Cover;
use crate::depths::Reached;
use crate::profile::Profile;
use crate::shape::Shape;
use crate::{depths, fitting, gap, runs};
use sng_text::TopicFilter;
use std::alloc::{AllocError, Global};

/// Whether every name that the asked filter matches is matched by one of the filters that were added. Of
/// these only the depths that they reach are kept, in a table of fixed size. `specs/Gathered` says what a
/// question is of.
#[derive(Drop)]
pub struct Question<'a> {
    asked: &'a TopicFilter,
    own: Shape,
    reached: Reached,
}

impl<'a> Question<'a> {
    ghost use Rattle.std.specs.Prelude.{ℕ, ◌≡◌, ◌++◌, ◌∷◌, [], true, List, All, IfOk};
    ghost use Rattle.sng_text.specs.Texts.{is_filter};
    ghost use Rattle.sng_cover.specs.Covering.{cover_of};
    ghost use Rattle.sng_cover.specs.Gathered.{Gathered, IsProfile};

    /// A question in which no filter is granted yet. Takes no memory.
    pub fn about(asked: &'a TopicFilter) -> Question<'a>
        ensures { Gathered result asked.now [] }
    {
        Question {
            asked,
            own: Shape::of(asked),
            reached: Reached::new(),
        }
    }

    /// Adds a granted filter. Takes no memory, and time by the filter's levels up to the first that does not
    /// fit the asked one.
    pub fn add(&mut self, filter: &TopicFilter)
        ensures { (asked : List ℕ) (granted : List (List ℕ)) → Gathered self.old asked granted
            → Gathered self.new asked (granted ++ filter.now ∷ []) }
    {
        if fitting::fits(self.asked, filter) {
            self.reached.add(Shape::of(filter));
        }
    }

    /// Whether the filters that were added match each name that the asked one matches. What else is granted
    /// changes no answer then: it is included. Takes no memory, and no walk over a filter.
    pub fn is_covered(&self) -> bool
        requires { (asked : List ℕ) × ((granted : List (List ℕ)) × Gathered self.now asked granted) }
        ensures { (asked : List ℕ) (granted more : List (List ℕ)) → Gathered self.now asked granted
            → All (λ filter. is_filter filter ≡ true) more → result ≡ true
            → cover_of asked (granted ++ more) ≡ Cover.Included }
    {
        if self.own.has_rest {
            self.reached.is_from(self.own.fixed)
        } else {
            self.reached.has(self.own.fixed)
        }
    }

    /// The answer on the filters that were added, of which this is the profile: included, or the gap. Memory
    /// is taken for the gap's name alone.
    pub fn answer(&self, alloc: Global, profile: &Profile) -> Result<Cover, AllocError>
        requires { (asked : List ℕ) × ((granted : List (List ℕ))
            × (Gathered self.now asked granted × IsProfile profile.now granted)) }
        ensures { (asked : List ℕ) (granted : List (List ℕ)) → Gathered self.now asked granted
            → IsProfile profile.now granted → IfOk result (λ answer. answer ≡ cover_of asked granted) }
    {
        match depths::gap_depth(self.asked, &self.reached, profile) {
            None => Ok(Cover::Included),
            Some(depth) => {
                let fresh = runs::fresh_level(profile.runs());
                let name = gap::gap_name(alloc, self.asked, depth, fresh)?;
                Ok(Cover::Uncovered(name))
            }
        }
    }
}
