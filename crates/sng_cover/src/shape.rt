//! What of a filter alone decides which depths it reaches.
ghost use Rattle.std.specs.Prelude.{◌≡◌, ◌==◌, ◌-◌, ◌≤◌, true, count_by, get_or, length};
ghost use Rattle.sng_text.specs.Texts.{is_filter};
ghost use Rattle.sng_cover.specs.Gathered.{IsShape};
ghost use Rattle.sng_cover.specs.Reaches.{shape_reaches};

use sng_text::{MAX_FILTER, TopicFilter};

/// How many levels a filter has, and whether it ends in `#`.
#[derive(Clone, Copy)]
pub struct Shape {
    /// How many levels it has before its `#`, or in all.
    pub fixed: usize,
    /// Whether it ends in `#`.
    pub has_rest: bool,
}

impl Shape {
    /// The shape of the filter.
    pub fn of(filter: &TopicFilter) -> Shape
        ensures shape { IsShape result filter.now }
        ensures filter { is_filter filter.now ≡ true }
    {
        // in a filter `#` stands at the end alone, as a level
        let text = filter.text();
        let slashes = usize::from(slash_count(text));
        if ends_in_hash(text) {
            Shape {
                fixed: slashes,
                has_rest: true,
            }
        } else {
            Shape {
                fixed: slashes + 1,
                has_rest: false,
            }
        }
    }

    /// Whether the depth is reached.
    pub fn reaches(&self, depth: usize) -> bool
        ensures { result ≡ shape_reaches self.now depth }
    {
        if self.has_rest {
            depth >= self.fixed
        } else {
            depth == self.fixed
        }
    }
}

/// How many slashes the text has: they fit one byte, and a narrow count is a quick one.
fn slash_count(text: &[u8]) -> u8
    requires { length text.now ≤ MAX_FILTER }
    ensures { result ≡ count_by (λ b. b == 47) text.now }
{
    let mut count = 0;
    for byte in text {
        if *byte == b'/' {
            count += 1;
        }
    }
    count
}

/// Whether the last byte is `#`.
fn ends_in_hash(text: &[u8]) -> bool
    ensures { result ≡ (get_or text.now (length text.now - 1) 0 == 35) }
{
    !text.is_empty() && text[text.len() - 1] == b'#'
}
