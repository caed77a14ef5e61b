//! Policies as texts in JSON (RFC 8259).
ghost use Rattle.std.specs.Prelude.{◌≡◌, IfOk, Ok};
ghost use Rattle.serde_json.specs.View.{view};
ghost use Rattle.sng_scope.specs.Bounds.{IsPolicy};
ghost use Rattle.sng_scope.specs.Laws.{IsInOrder};
ghost use Rattle.sng_scope.specs.Policies.{policy_of};
ghost use Rattle.sng_scope.specs.Written.{limited_data, limits_data, plain_data, version_for, policy_data};
ghost use Rattle.sng_scope.specs.Written.{policy_text};

mod entries;
mod scopes;
mod texts;

use crate::{Limits, Policy};
use entries::{clients_value, sources_value, topics_value};
use serde_json::{Value, json};
use std::alloc::{AllocError, Global};

/// The canonical text of the policy: an object on one line, without blanks, its members in the byte order of
/// their names, and all of them there, `limits` only where a limit is set. It is of version 4 then, else of
/// version 2 where a scope ends, and else of version 1. `read_policy` reads it as this very policy. Only memory
/// can fail.
pub fn write_policy(alloc: Global, policy: &Policy) -> Result<Vec<u8>, AllocError>
    ensures text { IfOk result (λ text. text.items ≡ policy_text policy.now) }
    ensures read { IfOk result (λ text. policy_of text.items ≡ Ok policy.now) }
{
    let value = policy_value(alloc, policy)?;
    let text = value.to_vec(alloc)?;
    Ok(text)
}

/// The policy as JSON, which shows that it keeps to its bounds.
fn policy_value(alloc: Global, policy: &Policy) -> Result<Value, AllocError>
    ensures json { IfOk result (λ v. view v ≡ policy_data policy.now) }
    ensures within { IfOk result (λ v. IsPolicy policy.now) }
    ensures ordered { IfOk result (λ v. IsInOrder policy.now) }
{
    let clients = clients_value(alloc, &policy.clients)?;
    let sources = sources_value(alloc, &policy.sources)?;
    let topics = topics_value(alloc, &policy.topics)?;
    let version = version_for(policy);
    let limits = policy.limits();
    if limits.are_default() {
        plain_value(alloc, clients, sources, topics, version)
    } else {
        limited_value(alloc, limits, clients, sources, topics, version)
    }
}

/// The policy without limits, of these parts and of this version.
fn plain_value(
    alloc: Global,
    clients: Value,
    sources: Value,
    topics: Value,
    version: u8,
) -> Result<Value, AllocError>
    ensures { IfOk result (λ v. view v ≡ plain_data (view clients) (view sources) (view topics) version) }
{
    json!(in alloc; {"clients": clients, "sources": sources, "topics": topics, "version": version})
}

/// The policy with its limits, of these parts and of this version.
fn limited_value(
    alloc: Global,
    limits: Limits,
    clients: Value,
    sources: Value,
    topics: Value,
    version: u8,
) -> Result<Value, AllocError>
    ensures { IfOk result (λ v.
        view v ≡ limited_data limits (view clients) (view sources) (view topics) version) }
{
    let limits = limits_value(alloc, limits)?;
    json!(in alloc; {
        "clients": clients, "limits": limits, "sources": sources, "topics": topics, "version": version
    })
}

/// The limits, all five of them.
fn limits_value(alloc: Global, limits: Limits) -> Result<Value, AllocError>
    ensures { IfOk result (λ v. view v ≡ limits_data limits) }
{
    let (clients, sources, topics) = (limits.clients(), limits.sources(), limits.topics());
    let (waiting, in_flight) = (limits.waiting(), limits.in_flight());
    json!(in alloc; {
        "clients": clients, "in_flight": in_flight, "sources": sources, "topics": topics, "waiting": waiting
    })
}

/// The least version that has what the policy needs.
fn version_for(policy: &Policy) -> u8
    ensures { result ≡ version_for policy.now }
{
    if !policy.limits().are_default() {
        4
    } else if policy.next_end().is_some() {
        2
    } else {
        1
    }
}
