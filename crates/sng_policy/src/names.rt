//! What a policy says about one name at a clock. No call here takes memory. A scope is found without a walk
//! over the policy, and then each of its pairs is matched once at the most.
ghost use Rattle.std.specs.Prelude.{◌≡◌};
ghost use Rattle.std.specs.Option.{option_copied};
ghost use Rattle.sng_grants.specs.Ends.{in_force};
ghost use Rattle.sng_policy.specs.Grants.{grant_by, publish_grant, source_grant, receive_grant};

use crate::permission::is_granted;
use crate::{NameGrant, Permission};
use sng_grants::{Policy, Scope};
use sng_text::{ClientId, TopicName};

/// What the policy says at the clock to a publish under the name by the client.
pub fn may_publish(policy: &Policy, client: &ClientId, name: &TopicName, clock: u64) -> NameGrant
    ensures { result ≡ publish_grant (in_force clock policy.now) client.now name.now }
{
    grant_by(
        Permission::Publish,
        policy.client_scope_at(client, clock),
        name,
    )
}

/// What the policy says at the clock to a publish under the name by the source with this IPv4 address.
pub fn source_may_publish(
    policy: &Policy,
    source: [u8; 4],
    name: &TopicName,
    clock: u64,
) -> NameGrant
    ensures { result ≡ source_grant (in_force clock policy.now) source name.now }
{
    grant_by(
        Permission::Publish,
        policy.source_scope_at(source, clock),
        name,
    )
}

/// What the policy says at the clock to a message with the name for the client.
pub fn may_receive(policy: &Policy, client: &ClientId, name: &TopicName, clock: u64) -> NameGrant
    ensures { result ≡ receive_grant (in_force clock policy.now) client.now name.now }
{
    grant_by(
        Permission::Subscribe,
        policy.client_scope_at(client, clock),
        name,
    )
}

/// What the scope of who asks for the permission says about the name, where there is one. Takes no memory.
#[inline(always)]
pub fn grant_by(permission: Permission, scope: Option<&Scope>, name: &TopicName) -> NameGrant
    ensures { result ≡ grant_by permission (option_copied scope.entry) name.now }
{
    match scope {
        None => NameGrant::Unlisted,
        Some(scope) => {
            if is_granted(permission, scope.pairs(), name) {
                NameGrant::Allowed
            } else {
                NameGrant::Missing
            }
        }
    }
}
