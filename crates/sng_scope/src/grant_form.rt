//! Grants in JSON: a scope, and in version 2 also an object of a scope and its end.
ghost use Rattle.std.specs.Prelude.{◌≡◌, ◌⊎◌, IfOk, IfErr, Ok, Err, option_map};
ghost use Rattle.serde_json.specs.View.{view, members_view};
ghost use Rattle.sng_scope.specs.Grants.{is_grant_member, are_grant_members, end_of, lasting_grant_of};
ghost use Rattle.sng_scope.specs.Grants.{grant_of_object, ending_grant_of, grant_of_data};

use crate::PolicyFault;
use crate::scope_form::scope_from;
use serde_json::{Map, Value};
use sng_grants::Grant;
use std::alloc::Global;

/// The grant that the value is, or the first of its faults, where scopes may end and where they may not.
pub fn grant_from(alloc: Global, ends: bool, value: &Value) -> Result<Grant, PolicyFault>
    ensures ok { IfOk result (λ g. grant_of_data ends (view value.now) ≡ Ok g) }
    ensures err { IfErr result (λ e. (e ≡ PolicyFault.Memory)
        ⊎ (grant_of_data ends (view value.now) ≡ Err e)) }
{
    match ends {
        true => ending_grant_from(alloc, value),
        false => lasting_grant_from(alloc, value),
    }
}

/// A scope that never ends.
fn lasting_grant_from(alloc: Global, value: &Value) -> Result<Grant, PolicyFault>
    ensures ok { IfOk result (λ g. lasting_grant_of (view value.now) ≡ Ok g) }
    ensures err { IfErr result (λ e. (e ≡ PolicyFault.Memory)
        ⊎ (lasting_grant_of (view value.now) ≡ Err e)) }
{
    let scope = scope_from(alloc, value)?;
    Ok(Grant::of(scope))
}

/// A scope, or an object of one and its end.
fn ending_grant_from(alloc: Global, value: &Value) -> Result<Grant, PolicyFault>
    ensures ok { IfOk result (λ g. ending_grant_of (view value.now) ≡ Ok g) }
    ensures err { IfErr result (λ e. (e ≡ PolicyFault.Memory)
        ⊎ (ending_grant_of (view value.now) ≡ Err e)) }
{
    match value.as_object() {
        None => lasting_grant_from(alloc, value),
        Some(members) => {
            if !are_grant_members(members) {
                return Err(PolicyFault::Shape);
            }
            grant_of_object(alloc, value)
        }
    }
}

/// The object's own faults come before those of the scope.
fn grant_of_object(alloc: Global, value: &Value) -> Result<Grant, PolicyFault>
    ensures ok { IfOk result (λ g. grant_of_object (view value.now) ≡ Ok g) }
    ensures err { IfErr result (λ e. (e ≡ PolicyFault.Memory)
        ⊎ (grant_of_object (view value.now) ≡ Err e)) }
{
    let until = end_from(value.get("exp"))?;
    let Some(scope) = value.get("scope") else {
        return Err(PolicyFault::Shape);
    };
    let scope = scope_from(alloc, scope)?;
    Ok(Grant { scope, until })
}

/// The end: none where the member is not there, else a whole number of 64 bits.
fn end_from(value: Option<&Value>) -> Result<Option<u64>, PolicyFault>
    ensures ok { IfOk result (λ end. end_of (option_map (λ v. view v.now) value.entry) ≡ Ok end) }
    ensures err { IfErr result (λ e. end_of (option_map (λ v. view v.now) value.entry) ≡ Err e) }
{
    match value {
        None => Ok(None),
        Some(value) => match value.as_u64() {
            None => Err(PolicyFault::Shape),
            Some(end) => Ok(Some(end)),
        },
    }
}

/// Whether each name is one that the object of a scope may have.
fn are_grant_members(members: &Map<String, Value>) -> bool
    ensures { result ≡ are_grant_members (members_view members.now.entries) }
{
    for (name, _) in members {
        if !is_grant_member(name.as_str()) {
            return false;
        }
    }
    true
}

/// Whether the object of a scope may have a member of this name.
pub fn is_grant_member(name: &str) -> bool
    ensures { result ≡ is_grant_member name.now }
{
    name == "scope" || name == "exp"
}
