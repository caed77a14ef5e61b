//! What the laws of subscriptions suppose of a policy, that its scopes hold topic filters, holds at each clock
//! of what is in force of a policy of the program, and of what is in force behind any rows of a book. The
//! walks here only read what the types keep; calling them does nothing.
ghost use Rattle.std.specs.Prelude.{reverse};
ghost use Rattle.sng_grants.specs.declared.policy.Policy.{Policy};
ghost use Rattle.sng_laws.specs.LawsPolicies.{HaveFilters, KeepFilters};
ghost use Rattle.sng_laws.specs.Views.{policy_after, policy_in_force};

use sng_book::{Event, Row};
use sng_grants::Policy;

/// Of each policy the scopes of clients that are in force at a clock hold topic filters.
pub fn policies_have_filters(policy: &Policy)
    ensures { KeepFilters policy.now }
{
    for (_, grant) in policy.clients.iter() {
        let _ = grant.scope.pairs();
    }
}

/// So it is in the policy that is in force behind the rows of a book, which stand the oldest first.
pub fn books_have_filters(rows: &[Row])
    ensures { HaveFilters (policy_in_force (reverse rows.now)) }
{
    for row in rows {
        replacement_has_filters(&row.event);
    }
}

/// And behind one event more.
fn replacement_has_filters(event: &Event)
    ensures { (before : Policy) → KeepFilters before → KeepFilters (policy_after event.now before) }
{
    match event {
        Event::Replace(policy) => policies_have_filters(policy),
        Event::Datagram(_, _) => {}
        Event::Broker(_) => {}
        Event::Up => {}
        Event::Down => {}
        Event::Take => {}
        Event::Tick(_) => {}
    }
}
