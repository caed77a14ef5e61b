//! Pairs of a scope that say nothing which another pair does not say.
ghost use Rattle.std.specs.Prelude.{◌≡◌, IfOk};
ghost use Rattle.sng_questions.specs.Redundant.{includes, is_covered, is_included, leaves_nothing};
ghost use Rattle.sng_questions.specs.Redundant.{permits_all, says_nothing_new};

use sng_cover::{Cover, Profile, Question};
use sng_grants::Pair;
use sng_text::TopicFilter;
use std::alloc::{AllocError, Global};

/// Whether another pair of the scope grants all that the pair at this index does. Of two that grant the same
/// it is the later one of which this holds. Only memory can fail.
pub fn says_nothing_new(
    alloc: Global,
    pairs: &[Pair],
    index: usize,
    pair: &Pair,
) -> Result<bool, AllocError>
    ensures { IfOk result (λ is. is ≡ says_nothing_new pairs.now 0 index pair.now) }
{
    for (place, other) in pairs.iter().enumerate() {
        if leaves_nothing(alloc, other, place, pair, index)? {
            return Ok(true);
        }
    }
    Ok(false)
}

/// Whether the other pair, which stands at this place, leaves nothing to say for the pair at the index.
fn leaves_nothing(
    alloc: Global,
    other: &Pair,
    place: usize,
    pair: &Pair,
    index: usize,
) -> Result<bool, AllocError>
    ensures { IfOk result (λ is. is ≡ leaves_nothing other.now place pair.now index) }
{
    if place == index || !includes(alloc, other, pair)? {
        return Ok(false);
    }
    Ok(place < index || !includes(alloc, pair, other)?)
}

/// Whether the pair grants all that the other one does.
fn includes(alloc: Global, pair: &Pair, other: &Pair) -> Result<bool, AllocError>
    ensures { IfOk result (λ is. is ≡ includes pair.now other.now) }
{
    if !permits_all(pair, other) {
        return Ok(false);
    }
    is_included(alloc, &other.filter, &pair.filter)
}

/// Whether the pair permits on its filter what the other one does on its own.
fn permits_all(pair: &Pair, other: &Pair) -> bool
    ensures { result ≡ permits_all pair.now other.now }
{
    (pair.publishes || !other.publishes) && (pair.subscribes || !other.subscribes)
}

/// Whether each name that the filter matches is matched by the granted one. Memory is taken for the name that
/// shows a gap.
fn is_included(
    alloc: Global,
    filter: &TopicFilter,
    granted: &TopicFilter,
) -> Result<bool, AllocError>
    ensures { IfOk result (λ is. is ≡ is_included filter.now granted.now) }
{
    let mut question = Question::about(filter);
    question.add(granted);
    let mut profile = Profile::new();
    profile.add(granted);
    let answer = question.answer(alloc, &profile)?;
    Ok(is_covered(&answer))
}

fn is_covered(answer: &Cover) -> bool
    ensures { result ≡ is_covered answer.now }
{
    match answer {
        Cover::Included => true,
        Cover::Uncovered(_) => false,
    }
}
