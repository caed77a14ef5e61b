//! Policies and scopes from their texts in JSON (RFC 8259).
ghost use Rattle.std.specs.Prelude.{◌≡◌, ◌⊎◌, IfOk, IfErr, Ok, Err};
ghost use Rattle.sng_scope.specs.Policies.{policy_of};
ghost use Rattle.sng_scope.specs.Texts.{scope_of_text};

use crate::json_text::value_from;
use crate::members::policy_from;
use crate::scope_form::scope_from;
use crate::{Policy, PolicyFault, Scope};
use std::alloc::Global;

/// The policy that the text is, or the first of its faults. A policy text is an object with `version`, the
/// number 1, 2 or 4, and as wanted `clients` (scopes by client id), `sources` (scopes by IPv4 address) and
/// `topics` (topic names by topic id): no more of them than its limits allow. In versions 2 and 4 a scope may be
/// an object of the scope and its end, a time in ms, and version 4 may set the limits by `limits`.
/// `docs/policy.md` has the form and the order of faults.
pub fn read_policy(alloc: Global, text: &[u8]) -> Result<Policy, PolicyFault>
    ensures ok { IfOk result (λ p. policy_of text.now ≡ Ok p) }
    ensures err { IfErr result (λ e. (e ≡ PolicyFault.Memory) ⊎ (policy_of text.now ≡ Err e)) }
{
    let value = value_from(alloc, text)?;
    policy_from(alloc, &value)
}

/// The scope that the JSON text is, or the first of its faults: an array of at most `MAX_PAIRS` pairs of a
/// topic filter and an array of permissions, each `pub` or `sub` (RFC 9431, 2.3), or a text that is unpadded
/// base64url of such an array.
pub fn read_scope(alloc: Global, text: &[u8]) -> Result<Scope, PolicyFault>
    ensures ok { IfOk result (λ s. scope_of_text text.now ≡ Ok s) }
    ensures err { IfErr result (λ e. (e ≡ PolicyFault.Memory) ⊎ (scope_of_text text.now ≡ Err e)) }
{
    let value = value_from(alloc, text)?;
    scope_from(alloc, &value)
}
