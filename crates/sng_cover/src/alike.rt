//! The levels with which two texts begin alike (MQTT 3.1.1, 4.7.1.1), found many bytes at a time.
ghost use Rattle.std.specs.Prelude.{◌≡◌, ◌-◌, ◌<◌, ◌≤◌, true, length, take, slice_index};
ghost use Rattle.sng_text.specs.Common.{AreLeft};
ghost use Rattle.sng_text.specs.Levels.{levels_of, levels_left};

use sng_text::past_common;
use std::cmp;

/// How many bytes are compared at a time.
const STEP: usize = 8;

/// What is left of two texts behind the levels with which both begin, as `past_common` answers it. That walks
/// only from the last level on that begins where both texts are the same, step by step.
pub fn past_alike<'a, 'b>(text: &'a [u8], other: &'b [u8]) -> (Option<&'a [u8]>, Option<&'b [u8]>)
    ensures { AreLeft (levels_of text.now) (levels_of other.now)
        (levels_left result.0) (levels_left result.1) }
{
    let start = level_start(text, same_front(text, other));
    past_common(&text[start..], &other[start..])
}

/// With how many bytes both texts begin, as far as whole steps are the same.
fn same_front(text: &[u8], other: &[u8]) -> usize
    ensures within { result ≤ length text.now }
    ensures beside { result ≤ length other.now }
    ensures same { take result text.now ≡ take result other.now }
{
    let steps = cmp::min(text.len(), other.len()) / STEP;
    for step in 0..steps {
        let at = STEP * step;
        if !is_same_step(&text[at..], &other[at..]) {
            return at;
        }
    }
    STEP * steps
}

/// Whether both texts have a step, and the first ones are the same.
fn is_same_step(text: &[u8], other: &[u8]) -> bool
    ensures { result ≡ true → take STEP text.now ≡ take STEP other.now }
{
    match (text.first_chunk::<STEP>(), other.first_chunk::<STEP>()) {
        (Some(step), Some(other_step)) => *step == *other_step,
        _ => false,
    }
}

/// Behind the last slash before the place, or the start where there is none. Never inlined: its loop would
/// crowd the walk around it.
#[inline(never)]
fn level_start(text: &[u8], place: usize) -> usize
    requires { place ≤ length text.now }
    ensures within { result ≤ place }
    ensures slash { 0 < result → slice_index text.now (result - 1) ≡ 47 }
{
    for at in (0..place).rev() {
        if text[at] == b'/' {
            return at + 1;
        }
    }
    0
}
