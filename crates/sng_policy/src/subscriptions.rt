//! What a policy says about a subscription: whether each name that the filter matches is granted (MQTT 3.1.1,
//! 4.7).
ghost use Rattle.std.specs.Prelude.{◌≡◌, true, All, IfOk};
ghost use Rattle.std.specs.Option.{option_copied};
ghost use Rattle.std.specs.Str.{bytes_eq};
ghost use Rattle.sng_text.specs.Texts.{is_filter};
ghost use Rattle.sng_cover.specs.Covering.{cover_of};
ghost use Rattle.sng_cover.specs.Gathered.{IsProfile};
ghost use Rattle.sng_grants.specs.Ends.{in_force};
ghost use Rattle.sng_grants.specs.Scopes.{subscribed};
ghost use Rattle.sng_grants.specs.Sources.{scope_of};
ghost use Rattle.sng_policy.specs.Grants.{has_filter, subscribe_by, subscribe_grant};
ghost use Rattle.sng_policy.specs.Laws.{SaysOfFilter, JoinsScope, JoinsReceiving};

use crate::FilterGrant;
use sng_cover::{Cover, Profile, Question};
use sng_grants::{Pair, Policy, Scope};
use sng_text::{ClientId, TopicFilter};
use std::alloc::{AllocError, Global};

/// How many bytes of two texts are compared first, at their ends.
const END: usize = 8;

/// What the policy says at the clock to a subscription of the client by the filter: Allowed where each name
/// that the filter matches is granted to it for subscribing, and so may be received, Unlisted, or Uncovered
/// with the gap over the client's filters with `sub`. Memory is taken for the gap's name alone. A filter that
/// is one of these itself takes a look at each text up to it, and no walk over levels.
pub fn may_subscribe(
    alloc: Global,
    policy: &Policy,
    client: &ClientId,
    filter: &TopicFilter,
    clock: u64,
) -> Result<FilterGrant, AllocError>
    ensures value { IfOk result (λ grant.
        grant ≡ subscribe_grant (in_force clock policy.now) client.now filter.now) }
    ensures meaning { IfOk result
        (SaysOfFilter (scope_of (in_force clock policy.now).clients client.now) filter.now) }
    ensures joins { IfOk result (JoinsReceiving (in_force clock policy.now) client.now filter.now) }
{
    let grant = subscribe_by(alloc, policy.client_scope_at(client, clock), filter)?;
    Ok(grant)
}

/// What the scope says to a subscription by the filter, as above.
pub(crate) fn subscribe_by(
    alloc: Global,
    scope: Option<&Scope>,
    filter: &TopicFilter,
) -> Result<FilterGrant, AllocError>
    ensures value { IfOk result (λ grant. grant ≡ subscribe_by (option_copied scope.entry) filter.now) }
    ensures meaning { IfOk result (SaysOfFilter (option_copied scope.entry) filter.now) }
    ensures joins { IfOk result (JoinsScope (option_copied scope.entry) filter.now) }
{
    // `text` says that the filter is one
    let _text = filter.text();
    match scope {
        None => Ok(FilterGrant::Unlisted),
        Some(scope) => match cover_by(alloc, filter, scope.pairs(), scope.profile())? {
            Cover::Included => Ok(FilterGrant::Allowed),
            Cover::Uncovered(gap) => Ok(FilterGrant::Uncovered(gap)),
        },
    }
}

/// Whether the filter is included in the union of the pairs' filters with `sub`, of which this is the
/// profile.
fn cover_by(
    alloc: Global,
    filter: &TopicFilter,
    pairs: &[Pair],
    profile: &Profile,
) -> Result<Cover, AllocError>
    requires filter { is_filter filter.now ≡ true }
    requires filters { All (λ pair. is_filter pair.filter ≡ true) pairs.now }
    requires profile { IsProfile profile.now (subscribed pairs.now) }
    ensures { IfOk result (λ answer. answer ≡ cover_of filter.now (subscribed pairs.now)) }
{
    if has_filter(pairs, filter) {
        return Ok(Cover::Included);
    }
    let mut question = Question::about(filter);
    for pair in pairs {
        if pair.subscribes {
            question.add(&pair.filter);
            if question.is_covered() {
                return Ok(Cover::Included);
            }
        }
    }
    question.answer(alloc, profile)
}

/// Whether a pair with `sub` has this very filter, by the texts alone. Takes no memory.
fn has_filter(pairs: &[Pair], filter: &TopicFilter) -> bool
    ensures { result ≡ has_filter pairs.now filter.now }
{
    let text = filter.text();
    for pair in pairs {
        if pair.subscribes && is_same(pair.filter.text(), text) {
            return true;
        }
    }
    false
}

/// Whether the texts are the same. Their ends are compared first: the filters of a scope mostly begin alike.
fn is_same(text: &[u8], other: &[u8]) -> bool
    ensures { result ≡ bytes_eq text.now other.now }
{
    if text.len() != other.len() {
        return false;
    }
    if let (Some(end), Some(other_end)) = (text.last_chunk::<END>(), other.last_chunk::<END>()) {
        if *end != *other_end {
            return false;
        }
    }
    text == other
}
