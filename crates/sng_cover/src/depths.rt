//! The least depth with a candidate that no granted filter matches (MQTT 3.1.1, 4.7).
ghost use Rattle.std.specs.Prelude.{ℕ, List, ◌≡◌, ◌+◌, ◌==◌, ◌<◌, ◌&&◌, ◌||◌, not, max, true, false, IfSome};
ghost use Rattle.sng_text.specs.Texts.{is_name};
ghost use Rattle.sng_cover.specs.Candidates.{candidate};
ghost use Rattle.sng_cover.specs.Covering.{gap_depth};
ghost use Rattle.sng_cover.specs.Reaches.{shape_reaches};
ghost use Rattle.sng_cover.specs.Gathered.{ReachedBy, IsProfile};
ghost use Rattle.sng_cover.specs.Reached.{is_reached, is_from, begins_empty};

use crate::marks::{MARKS, Marks};
use crate::profile::Profile;
use crate::shape::Shape;
use sng_text::{MAX_FILTER, TopicFilter};
use std::cmp;

/// The depths whose candidate some granted filter matches.
#[derive(Drop)]
pub struct Reached {
    /// Those of a filter without `#`, which matches one depth alone.
    ends: Marks,
    /// The depth from which on a filter with `#` matches.
    rest_from: Option<usize>,
}

/// The least depth whose candidate is a name that shows a gap, where there is one.
pub fn gap_depth(asked: &TopicFilter, reached: &Reached, profile: &Profile) -> Option<usize>
    requires { (granted : List (List ℕ))
        × (ReachedBy reached.now asked.now granted × IsProfile profile.now granted) }
    ensures value { (granted : List (List ℕ)) → ReachedBy reached.now asked.now granted
        → IsProfile profile.now granted → result ≡ gap_depth asked.now granted }
    ensures named { (granted : List (List ℕ)) → ReachedBy reached.now asked.now granted
        → IsProfile profile.now granted
        → IfSome result (λ depth. is_name (candidate asked.now granted depth) ≡ true) }
{
    let own = Shape::of(asked);
    let last = last_depth(own.fixed, profile.longest());
    for depth in 1..last + 1 {
        if is_left(asked, &own, reached, depth) {
            return Some(depth);
        }
    }
    None
}

/// One level more than the longest fixed part: past it only filters with `#` match, and they match at every
/// depth.
fn last_depth(own: usize, longest: usize) -> usize
    requires own_few { own < MAX_FILTER + 2 }
    requires granted_few { longest < MAX_FILTER + 2 }
    ensures value { result ≡ max own longest + 1 }
    ensures few { result < MARKS }
{
    cmp::max(own, longest) + 1
}

/// Whether the asked filter reaches the depth, with a candidate that has a text, and no granted filter does.
fn is_left(asked: &TopicFilter, own: &Shape, reached: &Reached, depth: usize) -> bool
    requires { depth < MARKS }
    ensures { result ≡ ((shape_reaches own.now depth && not ((depth == 1) && begins_empty asked.now))
        && not (is_reached reached.now depth)) }
{
    own.reaches(depth) && !(depth == 1 && begins_empty(asked)) && !reached.has(depth)
}

/// Whether the filter's first level is empty: then so is the candidate of depth 1, which is no name.
fn begins_empty(filter: &TopicFilter) -> bool
    ensures { result ≡ begins_empty filter.now }
{
    match filter.text() {
        [] => true,
        [first, ..] => *first == b'/',
    }
}

impl Reached {
    /// No depth is reached.
    pub fn new() -> Reached
        ensures { (depth : ℕ) → is_reached result depth ≡ false }
    {
        Reached {
            ends: Marks::new(),
            rest_from: None,
        }
    }

    /// Adds the depths that a filter of this shape reaches.
    pub fn add(&mut self, shape: Shape)
        requires { shape.fixed < MAX_FILTER + 2 }
        ensures { (depth : ℕ)
            → is_reached self.new depth ≡ (shape_reaches shape depth || is_reached self.old depth) }
    {
        if shape.has_rest {
            self.rest_from = match self.rest_from {
                Some(from) if from <= shape.fixed => Some(from),
                _ => Some(shape.fixed),
            };
        } else {
            self.ends.mark(shape.fixed);
        }
    }

    /// Whether a filter with `#` reaches the depth, and so each greater one.
    pub fn is_from(&self, depth: usize) -> bool
        ensures { result ≡ is_from self.now.rest_from depth }
    {
        match self.rest_from {
            None => false,
            Some(from) => depth >= from,
        }
    }

    /// Whether the depth is reached.
    pub fn has(&self, depth: usize) -> bool
        requires { depth < MARKS }
        ensures { result ≡ is_reached self.now depth }
    {
        self.is_from(depth) || self.ends.has(depth)
    }
}
