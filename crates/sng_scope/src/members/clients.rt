//! The member `clients`: an object of grants by client id (MQTT-SN 1.2, 5.3.1).
ghost use Rattle.std.specs.Prelude.{◌≡◌, ◌⊎◌, [], IfOk, IfErr, Ok, Err, codes, length, ◌≤◌};
ghost use Rattle.serde_json.specs.Find.{get};
ghost use Rattle.serde_json.specs.View.{view, members_view};
ghost use Rattle.sng_scope.specs.Policies.{client_of, clients_of, clients_onto};

use super::members_within;
use crate::grant_form::grant_from;
use crate::{Clients, PolicyFault};
use serde_json::{Map, Value};
use sng_grants::MAX_POLICY_CLIENTS;
use sng_text::{ClientId, TextFault};
use std::alloc::Global;

/// The clients that the policy lists, at most so many: none where it has no such member.
pub fn clients_in(
    alloc: Global,
    most: usize,
    ends: bool,
    policy: &Value,
) -> Result<Clients, PolicyFault>
    requires { most ≤ MAX_POLICY_CLIENTS }
    ensures ok { IfOk result (λ c. clients_of most ends (get (codes "clients") (view policy.now)) ≡ Ok c) }
    ensures err { IfErr result (λ e. (e ≡ PolicyFault.Memory)
        ⊎ (clients_of most ends (get (codes "clients") (view policy.now)) ≡ Err e)) }
    ensures few { IfOk result (λ c. length c ≤ most) }
{
    match policy.get("clients") {
        None => Ok(Clients::new(alloc)),
        Some(clients) => clients_of(alloc, ends, members_within(clients, most)?),
    }
}

/// The members come in the order of their texts, which are the client ids: each goes behind those before it.
fn clients_of(
    alloc: Global,
    ends: bool,
    members: &Map<String, Value>,
) -> Result<Clients, PolicyFault>
    requires { length members.now.entries ≤ MAX_POLICY_CLIENTS }
    ensures ok { IfOk result (λ c. clients_onto ends [] (members_view members.now.entries) ≡ Ok c) }
    ensures err { IfErr result (λ e. (e ≡ PolicyFault.Memory)
        ⊎ (clients_onto ends [] (members_view members.now.entries) ≡ Err e)) }
    ensures few { IfOk result (λ c. length c ≤ length members.now.entries) }
{
    let mut clients = Clients::new(alloc);
    for (name, value) in members {
        let client = client_from(alloc, name.as_str())?;
        let grant = grant_from(alloc, ends, value)?;
        clients
            .insert(client, grant)
            .map_err(|_| PolicyFault::Memory)?;
    }
    Ok(clients)
}

fn client_from(alloc: Global, text: &str) -> Result<ClientId, PolicyFault>
    ensures ok { IfOk result (λ i. client_of text.now ≡ Ok i) }
    ensures err { IfErr result (λ e. (e ≡ PolicyFault.Memory) ⊎ (client_of text.now ≡ Err e)) }
{
    match ClientId::read(alloc, text.as_bytes()) {
        Ok(client) => Ok(client),
        Err(TextFault::Memory) => Err(PolicyFault::Memory),
        Err(_) => Err(PolicyFault::BadClientId),
    }
}
