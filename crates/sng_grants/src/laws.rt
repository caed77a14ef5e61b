//! Laws of policies as values. Each function here only states one: its contract is the law, and calling it
//! does nothing.
ghost use Rattle.std.specs.Prelude.{◌≡◌};
ghost use Rattle.sng_grants.specs.Laws.{GrantsAreFound, GrantsEnd, EndsStay, NothingEndsBefore};
ghost use Rattle.sng_grants.specs.Laws.{NamesAreFound, IdsAreLeast};

use crate::{
    DEFAULT_CLIENTS, DEFAULT_FLIGHT, DEFAULT_SOURCES, DEFAULT_TOPICS, DEFAULT_WAITING, MAX_FLIGHT,
    MAX_PAIRS, MAX_POLICY_CLIENTS, MAX_SOURCES, MAX_TOPICS, MAX_WAITING,
};

/// The limits of a policy that sets none.
pub fn default_limits()
    ensures clients { DEFAULT_CLIENTS ≡ 256 }
    ensures sources { DEFAULT_SOURCES ≡ 256 }
    ensures topics { DEFAULT_TOPICS ≡ 1024 }
    ensures waiting { DEFAULT_WAITING ≡ 512 }
    ensures in_flight { DEFAULT_FLIGHT ≡ 128 }
{}

/// The greatest limits that a policy may set, and how many pairs a scope may have.
pub fn limits()
    ensures clients { MAX_POLICY_CLIENTS ≡ 65000 }
    ensures sources { MAX_SOURCES ≡ 65000 }
    ensures topics { MAX_TOPICS ≡ 65534 }
    ensures waiting { MAX_WAITING ≡ 65000 }
    ensures in_flight { MAX_FLIGHT ≡ 16000 }
    ensures pairs { MAX_PAIRS ≡ 64 }
{}

/// A client or a source is listed with a grant exactly where its look-up gives that grant.
pub fn grants_are_found()
    ensures { GrantsAreFound }
{}

/// At a clock a client or a source has the scope of its grant, unless that has ended by then.
pub fn grants_end()
    ensures { GrantsEnd }
{}

/// What has ended stays ended: what is in force of what was in force at an earlier clock is what is in force
/// of the whole policy.
pub fn ends_stay()
    ensures { EndsStay }
{}

/// Where the clock has not reached the first end, nothing has ended.
pub fn nothing_ends_before()
    ensures { NothingEndsBefore }
{}

/// A topic id is listed with a name exactly where its look-up gives that name.
pub fn names_are_found()
    ensures { NamesAreFound }
{}

/// The id that is found of a name is the least under which the name is listed, and a name that is listed has
/// one.
pub fn ids_are_least()
    ensures { IdsAreLeast }
{}
