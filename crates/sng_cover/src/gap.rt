//! The candidate of a depth, as a name (MQTT 3.1.1, 4.7).
ghost use Rattle.std.specs.Prelude.{◌≡◌, ◌≤◌, true, length, IfOk};
ghost use Rattle.sng_text.specs.Levels.{levels_of};
ghost use Rattle.sng_text.specs.Texts.{is_name};
ghost use Rattle.sng_cover.specs.Candidates.{joined, candidate_levels};
ghost use Rattle.sng_cover.specs.Left.{levels_left};

use sng_text::bytes::{is_hash, is_plus};
use sng_text::{Levels, MAX_NAME, Octets, TopicFilter, TopicName};
use std::alloc::{AllocError, Global};

/// The levels of a candidate that are left to give.
#[derive(Clone, Copy)]
struct Candidate<'a> {
    asked: Levels<'a>,
    fresh: &'a [u8],
    left: usize,
}

impl<'a> Iterator for Candidate<'a> {
    ghost use Rattle.std.specs.Iterator.{YieldsFirstRef, item_count};
    ghost use Rattle.sng_cover.specs.Left.{levels_left};

    type Item = &'a [u8];

    ghost next_gives = { YieldsFirstRef levels_left };

    ghost remaining = { item_count levels_left };

    fn next(&mut self) -> Option<&'a [u8]> {
        if self.left == 0 {
            return None;
        }
        self.left -= 1;
        match self.asked.next() {
            Some(level) if !is_plus(level) && !is_hash(level) => Some(level),
            _ => Some(self.fresh),
        }
    }
}

/// The name with the asked filter's literal levels and the fresh level at every other place.
pub fn gap_name(
    alloc: Global,
    asked: &TopicFilter,
    depth: usize,
    fresh: &[u8],
) -> Result<TopicName, AllocError>
    requires { is_name (joined (candidate_levels depth (levels_of asked.now) fresh.now)) ≡ true }
    ensures { IfOk result (λ name. name ≡ joined (candidate_levels depth (levels_of asked.now) fresh.now)) }
{
    let levels = Candidate {
        asked: Levels::of(asked.text()),
        fresh,
        left: depth,
    };
    let text = text_of(alloc, levels)?;
    Ok(TopicName::of_text(Octets::from(text)))
}

/// The text with these levels, in memory of its very size.
fn text_of(alloc: Global, levels: Candidate) -> Result<Vec<u8>, AllocError>
    requires { length (joined (levels_left levels)) ≤ MAX_NAME }
    ensures { IfOk result (λ text. text.items ≡ joined (levels_left levels.entry)) }
{
    let mut text = Vec::with_capacity(alloc, size_of(levels))?;
    let mut levels = levels;
    if let Some(first) = levels.next() {
        text.extend_from_slice(first)?;
    }
    for level in levels {
        text.push(b'/')?;
        text.extend_from_slice(level)?;
    }
    Ok(text)
}

/// How many bytes the text with these levels has.
fn size_of(levels: Candidate) -> usize
    requires { length (joined (levels_left levels)) ≤ MAX_NAME }
    ensures { result ≡ length (joined (levels_left levels.entry)) }
{
    let mut levels = levels;
    let mut size = match levels.next() {
        None => 0,
        Some(first) => first.len(),
    };
    for level in levels {
        size += level.len() + 1;
    }
    size
}
