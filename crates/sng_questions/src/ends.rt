//! How many scopes of a policy end.
ghost use Rattle.std.specs.Prelude.{◌≡◌, ◌≤◌, ◌<◌, ◌^◌, length};
ghost use Rattle.sng_questions.specs.Ends.{ending_scopes, ends_in};

use indexmap::map::Iter;
use sng_grants::{Grant, Policy};

/// How many of the policy's scopes end.
pub fn ending_scopes(policy: &Policy) -> usize
    ensures { result ≡ ending_scopes policy.now }
{
    // `len` says that there are few
    let _clients = policy.clients.len();
    let _sources = policy.sources.len();
    ends_in(policy.clients.iter()) + ends_in(policy.sources.iter())
}

/// How many of these scopes, of which there are not too many to be counted, end.
fn ends_in<K>(listed: Iter<'_, K, Grant>) -> usize
    requires { length listed < 2 ^ 32 }
    ensures count { result ≡ ends_in listed.entry }
    ensures few { result ≤ length listed.entry }
{
    let mut count = 0;
    for (_, grant) in listed {
        if grant.until.is_some() {
            count += 1;
        }
    }
    count
}
