//! A set of small numbers: depths of names, and lengths of levels.
ghost use Rattle.std.specs.Prelude.{ℕ, ◌≡◌, ◌==◌, ◌||◌, ◌<◌, false};
ghost use Rattle.sng_cover.specs.Marks.{is_marked};

use sng_text::MAX_FILTER;

/// One more than the greatest number that a filter can ask for: its levels, of which it has at most one more
/// than bytes, and one.
pub const MARKS: usize = MAX_FILTER + 3;

/// The numbers below `MARKS` that were marked.
#[derive(Clone, Copy, Debug)]
pub struct Marks {
    marks: [bool; MARKS],
}

impl Marks {
    /// No number is marked.
    pub fn new() -> Marks
        ensures { (number : ℕ) → is_marked result number ≡ false }
    {
        Marks {
            marks: [false; MARKS],
        }
    }

    /// Marks the number.
    pub fn mark(&mut self, number: usize)
        requires { number < MARKS }
        ensures { (other : ℕ) → is_marked self.new other ≡ ((other == number) || is_marked self.old other) }
    {
        self.marks[number] = true;
    }

    /// Whether the number was marked.
    pub fn has(&self, number: usize) -> bool
        requires { number < MARKS }
        ensures { result ≡ is_marked self.now number }
    {
        self.marks[number]
    }
}
