//! What the policy in force says, as an outcome: to a publish, to a message for a client, and to a subscription
//! (RFC 9431, 2.3). What a policy answers becomes a denial here alone. An `Err` is a failed allocation, for a
//! denial that shows who asks, a name or a filter.
ghost use Rattle.std.specs.Prelude.{◌≡◌, Some, IfOk};
ghost use Rattle.std.specs.Option.{option_copied};
ghost use Rattle.sng_history.specs.Verdicts.{exit, coverage, name_outcome, filter_outcome, unlisted, missing};
ghost use Rattle.sng_policy.specs.Grants.{grant_by};
ghost use Rattle.sng_history.specs.Outgoing.{receive};

use sng_book::{Denial, GrantDenial, Outcome};
use sng_grants::Scope;
use sng_outbox::Origin;
use sng_policy::{FilterGrant, InForce, NameGrant, Permission, grant_by};
use sng_text::{ClientId, TopicFilter, TopicName};
use std::alloc::{AllocError, Global};

/// The judgement of a publish under the name, as it is asked for and again as it leaves.
#[inline(always)]
pub fn exit(
    alloc: Global,
    policy: &InForce,
    origin: &Origin,
    name: &TopicName,
) -> Result<Outcome, AllocError>
    ensures { IfOk result (λ outcome. outcome ≡ exit policy.now origin.now name.now) }
{
    match origin {
        Origin::Client(client) => { exit_by(alloc, policy.scope(client), client, name) }
        Origin::Source(source) => {
            let grant = policy.source_may_publish(*source, name);
            name_outcome(alloc, Permission::Publish, None, name, grant)
        }
    }
}

/// The judgement of a publish of the client under the name, by the scope that the policy in force gives it.
/// Where more is asked of that scope it is found once.
#[inline(always)]
pub fn exit_by(
    alloc: Global,
    scope: Option<&Scope>,
    client: &ClientId,
    name: &TopicName,
) -> Result<Outcome, AllocError>
    ensures { IfOk result (λ outcome. outcome ≡ name_outcome Permission.Publish (Some client.now) name.now
        (grant_by Permission.Publish (option_copied scope.entry) name.now)) }
{
    let grant = grant_by(Permission::Publish, scope, name);
    name_outcome(alloc, Permission::Publish, Some(client), name, grant)
}

/// The judgement of a message for the client under the name.
#[inline(always)]
pub fn receive(
    alloc: Global,
    policy: &InForce,
    client: &ClientId,
    name: &TopicName,
) -> Result<Outcome, AllocError>
    ensures { IfOk result (λ outcome. outcome ≡ receive policy.now client.now name.now) }
{
    receive_by(alloc, policy.scope(client), client, name)
}

/// The judgement of a message for the client under the name, by the scope that the policy in force gives it.
/// For one message after another the scope is found once.
#[inline(always)]
pub fn receive_by(
    alloc: Global,
    scope: Option<&Scope>,
    client: &ClientId,
    name: &TopicName,
) -> Result<Outcome, AllocError>
    ensures { IfOk result (λ outcome. outcome ≡ name_outcome Permission.Subscribe (Some client.now) name.now
        (grant_by Permission.Subscribe (option_copied scope.entry) name.now)) }
{
    let grant = grant_by(Permission::Subscribe, scope, name);
    name_outcome(alloc, Permission::Subscribe, Some(client), name, grant)
}

/// The judgement of a subscription of the client by the filter.
pub fn coverage(
    alloc: Global,
    policy: &InForce,
    client: &ClientId,
    filter: &TopicFilter,
) -> Result<Outcome, AllocError>
    ensures { IfOk result (λ outcome. outcome ≡ coverage policy.now client.now filter.now) }
{
    let grant = policy.may_subscribe(alloc, client, filter)?;
    filter_outcome(alloc, client, filter, grant)
}

/// What a policy answers about a name to an ask for the permission, by a client or else by a source.
#[inline(always)]
fn name_outcome(
    alloc: Global,
    needed: Permission,
    asker: Option<&ClientId>,
    name: &TopicName,
    grant: NameGrant,
) -> Result<Outcome, AllocError>
    ensures { IfOk result (λ outcome.
        outcome ≡ name_outcome needed (option_copied asker.entry) name.now grant) }
{
    match grant {
        NameGrant::Allowed => Ok(Outcome::Allowed),
        NameGrant::Unlisted => denied(alloc, unlisted(asker)?),
        NameGrant::Missing => denied(alloc, missing(needed, name)?),
    }
}

/// What a policy answers about a filter.
fn filter_outcome(
    alloc: Global,
    client: &ClientId,
    filter: &TopicFilter,
    grant: FilterGrant,
) -> Result<Outcome, AllocError>
    ensures { IfOk result (λ outcome. outcome ≡ filter_outcome client.now filter.now grant) }
{
    match grant {
        FilterGrant::Allowed => Ok(Outcome::Allowed),
        FilterGrant::Unlisted => denied(alloc, GrantDenial::NoScope(client.copy()?)),
        FilterGrant::Uncovered(gap) => denied(alloc, GrantDenial::Uncovered(filter.copy()?, gap)),
    }
}

/// For want of a grant.
fn denied(alloc: Global, denial: GrantDenial) -> Result<Outcome, AllocError>
    ensures { IfOk result (λ outcome. outcome ≡ Outcome.Denied (Denial.Grant denial)) }
{
    Ok(Outcome::Denied(Denial::ungranted(alloc, denial)?))
}

/// The denial of who is not listed.
fn unlisted(asker: Option<&ClientId>) -> Result<GrantDenial, AllocError>
    ensures { IfOk result (λ denial. denial ≡ unlisted (option_copied asker.entry)) }
{
    match asker {
        Some(client) => Ok(GrantDenial::NoScope(client.copy()?)),
        None => Ok(GrantDenial::UnknownSource),
    }
}

/// The denial for want of a pair with the permission.
fn missing(needed: Permission, name: &TopicName) -> Result<GrantDenial, AllocError>
    ensures { IfOk result (λ denial. denial ≡ missing needed name.now) }
{
    match needed {
        Permission::Publish => Ok(GrantDenial::MissingPub(name.copy()?)),
        Permission::Subscribe => Ok(GrantDenial::MissingSub(name.copy()?)),
    }
}
