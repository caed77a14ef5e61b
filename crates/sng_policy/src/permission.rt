//! What a pair of a scope may permit (RFC 9431, 2.3).
ghost use Rattle.std.specs.Prelude.{◌≡◌};
ghost use Rattle.sng_policy.specs.Grants.{permits, is_granted};

use sng_grants::Pair;
use sng_text::{TopicName, matches};

/// A permission for the names that a pair's filter matches.
#[derive(Clone, Copy, Debug, PartialEq, Eq)]
pub enum Permission {
    /// `pub`: to publish under them.
    Publish,
    /// `sub`: to receive them.
    Subscribe,
}

/// Whether some pair with the permission matches the name. Takes no memory, and one match a pair at the most.
pub fn is_granted(permission: Permission, pairs: &[Pair], name: &TopicName) -> bool
    ensures { result ≡ is_granted permission pairs.now name.now }
{
    for pair in pairs {
        if permits(permission, pair) && matches(&pair.filter, name) {
            return true;
        }
    }
    false
}

/// Whether the pair has the permission.
fn permits(permission: Permission, pair: &Pair) -> bool
    ensures { result ≡ permits permission pair.now }
{
    match permission {
        Permission::Publish => pair.publishes,
        Permission::Subscribe => pair.subscribes,
    }
}
