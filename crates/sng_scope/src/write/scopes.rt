//! Grants and scopes as JSON: the list of pairs of a topic filter and the permissions on it (RFC 9237, 2; RFC
//! 9431, 2.3).
ghost use Rattle.std.specs.Prelude.{◌≡◌, true, All, IfOk};
ghost use Rattle.serde_json.specs.Data.{array};
ghost use Rattle.serde_json.specs.View.{view, items_view};
ghost use Rattle.sng_grants.specs.Scopes.{IsScope};
ghost use Rattle.sng_text.specs.Texts.{is_filter};
ghost use Rattle.sng_scope.specs.Bounds.{IsGrant};
ghost use Rattle.sng_scope.specs.Written.{permissions_data, pair_data, scope_data, grant_data};

use super::texts::text_of;
use crate::{Grant, Pair, Scope};
use serde_json::{Value, json};
use std::alloc::{AllocError, Global};

/// The grant: its scope, in an object with its end where it has one.
pub fn grant_value(alloc: Global, grant: &Grant) -> Result<Value, AllocError>
    ensures json { IfOk result (λ v. view v ≡ grant_data grant.now) }
    ensures within { IfOk result (λ v. IsGrant grant.now) }
{
    let scope = scope_value(alloc, &grant.scope)?;
    match grant.until {
        None => Ok(scope),
        Some(end) => json!(in alloc; {"exp": end, "scope": scope}),
    }
}

/// The scope as an array of its pairs, which shows that it keeps to its bounds.
pub fn scope_value(alloc: Global, scope: &Scope) -> Result<Value, AllocError>
    ensures json { IfOk result (λ v. view v ≡ scope_data scope.now) }
    ensures within { IfOk result (λ v. IsScope scope.now) }
{
    pairs_value(alloc, scope.pairs())
}

fn pairs_value(alloc: Global, pairs: &[Pair]) -> Result<Value, AllocError>
    requires { All (λ pair. is_filter pair.filter ≡ true) pairs.now }
    ensures { IfOk result (λ v. view v ≡ scope_data pairs.now) }
{
    let mut items = Vec::new(alloc);
    for pair in pairs {
        items.push(pair_value(alloc, pair)?)?;
    }
    Ok(Value::from(items))
}

/// `[filter, permissions]`.
fn pair_value(alloc: Global, pair: &Pair) -> Result<Value, AllocError>
    ensures { IfOk result (λ v. view v ≡ pair_data pair.now) }
{
    let permissions = permissions_value(alloc, pair.publishes, pair.subscribes)?;
    json!(in alloc; [text_of(pair.filter.text()), permissions])
}

/// The permissions, `pub` before `sub`.
fn permissions_value(alloc: Global, publishes: bool, subscribes: bool) -> Result<Value, AllocError>
    ensures { IfOk result (λ v. view v ≡ array (permissions_data publishes subscribes)) }
{
    match (publishes, subscribes) {
        (true, true) => json!(in alloc; ["pub", "sub"]),
        (true, false) => json!(in alloc; ["pub"]),
        (false, true) => json!(in alloc; ["sub"]),
        (false, false) => json!(in alloc; []),
    }
}
