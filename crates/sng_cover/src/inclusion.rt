//! The question of inclusion (MQTT 3.1.1, 4.7).
ghost use Rattle.std.specs.Prelude.{◌≡◌, true, All, IfOk, OnOk};
ghost use Rattle.sng_text.specs.Texts.{is_filter};
ghost use Rattle.sng_cover.specs.Gaps.{IsRight};
ghost use Rattle.sng_cover.specs.Gathered.{IsProfile};
ghost use Rattle.sng_cover.specs.Inclusion.{shows_gap, is_granted};
ghost use Rattle.sng_cover.specs.Covering.{cover_of};

use crate::answer::Cover;
use crate::profile::Profile;
use crate::question::Question;
use sng_text::{TopicFilter, TopicName, matches};
use std::alloc::{AllocError, Global};

/// Whether every name that the asked filter matches is matched by a granted one, and if not, the gap: a name
/// of the least depth, with the asked filter's literal levels and elsewhere the shortest run of `x` that is
/// no level of a granted filter. Memory is taken for that name alone. Time grows with the sum of the filters'
/// lengths, up to the first that covers the asked one with those before it.
pub fn cover(
    alloc: Global,
    asked: &TopicFilter,
    granted: &[TopicFilter],
) -> Result<Cover, AllocError>
    ensures value { IfOk result (λ answer. answer ≡ cover_of asked.now granted.now) }
    ensures right { OnOk result (IsRight asked.now granted.now) }
{
    are_filters(granted);
    let mut question = Question::about(asked);
    for filter in granted {
        question.add(filter);
        if question.is_covered() {
            return Ok(Cover::Included);
        }
    }
    question.answer(alloc, &profile_of(granted))
}

/// The profile of the filters.
fn profile_of(granted: &[TopicFilter]) -> Profile
    ensures { IsProfile result granted.now }
{
    let mut profile = Profile::new();
    for filter in granted {
        profile.add(filter);
    }
    profile
}

/// Says that the texts of the filters are filters. It does nothing: a slice alone does not say so, and each
/// filter's `text` does.
fn are_filters(filters: &[TopicFilter])
    ensures { All (λ filter. is_filter filter ≡ true) filters.now }
{
    for filter in filters {
        let _text = filter.text();
    }
}

/// Whether the name shows a gap: the asked filter matches it, and no granted one does. Takes no memory.
pub fn shows_gap(asked: &TopicFilter, granted: &[TopicFilter], name: &TopicName) -> bool
    ensures { result ≡ shows_gap asked.now granted.now name.now }
{
    matches(asked, name) && !is_granted(granted, name)
}

/// Whether some granted filter matches the name.
fn is_granted(granted: &[TopicFilter], name: &TopicName) -> bool
    ensures { result ≡ is_granted granted.now name.now }
{
    for filter in granted {
        if matches(filter, name) {
            return true;
        }
    }
    false
}
