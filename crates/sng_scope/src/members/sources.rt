//! The member `sources`: an object of grants by IPv4 address.
ghost use Rattle.std.specs.Prelude.{◌≡◌, ◌⊎◌, [], IfOk, IfErr, Ok, Err, codes, length, ◌≤◌};
ghost use Rattle.serde_json.specs.Find.{get};
ghost use Rattle.serde_json.specs.View.{view, members_view};
ghost use Rattle.sng_scope.specs.Policies.{sources_of, sources_onto};

use super::{members_within, put};
use crate::grant_form::grant_from;
use crate::{PolicyFault, Sources};
use serde_json::{Map, Value};
use sng_grants::MAX_SOURCES;
use sng_text::read_ipv4;
use std::alloc::Global;
use std::collections::BTreeMap;

/// The sources that the policy lists, at most so many: none where it has no such member.
pub fn sources_in(
    alloc: Global,
    most: usize,
    ends: bool,
    policy: &Value,
) -> Result<Sources, PolicyFault>
    requires { most ≤ MAX_SOURCES }
    ensures ok { IfOk result (λ s. sources_of most ends (get (codes "sources") (view policy.now)) ≡ Ok s) }
    ensures err { IfErr result (λ e. (e ≡ PolicyFault.Memory)
        ⊎ (sources_of most ends (get (codes "sources") (view policy.now)) ≡ Err e)) }
    ensures few { IfOk result (λ s. length s ≤ most) }
{
    match policy.get("sources") {
        None => Ok(Sources::new(alloc)),
        Some(sources) => sources_of(alloc, ends, members_within(sources, most)?),
    }
}

/// The members come in the order of their texts, which is not that of the addresses: "10.0.0.10" stands
/// before "10.0.0.9". So a tree takes them, where a list would move at each all that stand behind it.
fn sources_of(
    alloc: Global,
    ends: bool,
    members: &Map<String, Value>,
) -> Result<Sources, PolicyFault>
    requires { length members.now.entries ≤ MAX_SOURCES }
    ensures ok { IfOk result (λ s. sources_onto ends [] (members_view members.now.entries) ≡ Ok s) }
    ensures err { IfErr result (λ e. (e ≡ PolicyFault.Memory)
        ⊎ (sources_onto ends [] (members_view members.now.entries) ≡ Err e)) }
    ensures few { IfOk result (λ s. length s ≤ length members.now.entries) }
{
    let mut sources = BTreeMap::new(alloc);
    for (name, value) in members {
        let Some(source) = read_ipv4(name.as_bytes()) else {
            return Err(PolicyFault::BadSource);
        };
        let grant = grant_from(alloc, ends, value)?;
        put(&mut sources, source, grant)?;
    }
    Sources::of(alloc, sources).map_err(|_| PolicyFault::Memory)
}
