//! The limits of a policy in JSON: an object of whole numbers, each within its range.
ghost use Rattle.std.specs.Prelude.{◌≡◌, ◌≤◌, IfOk, IfErr, Ok, Err, option_map};
ghost use Rattle.serde_json.specs.View.{view, members_view};
ghost use Rattle.sng_grants.specs.Limits.{IsBetween};
ghost use Rattle.sng_scope.specs.PolicyLimits.{is_limit, are_limits, limit_of, limits_of_object, limits_of};

use crate::PolicyFault;
use serde_json::{Map, Value};
use sng_grants::{
    DEFAULT_CLIENTS, DEFAULT_FLIGHT, DEFAULT_SOURCES, DEFAULT_TOPICS, DEFAULT_WAITING, Limits,
    MAX_FLIGHT, MAX_POLICY_CLIENTS, MAX_SOURCES, MAX_TOPICS, MAX_WAITING,
};

/// The limits that the member sets, or Shape. Where it is not there they are those of a policy that sets none.
pub fn limits_from(value: Option<&Value>) -> Result<Limits, PolicyFault>
    ensures ok { IfOk result (λ l. limits_of (option_map (λ v. view v.now) value.entry) ≡ Ok l) }
    ensures err { IfErr result (λ e. limits_of (option_map (λ v. view v.now) value.entry) ≡ Err e) }
{
    let Some(value) = value else {
        return Ok(Limits::new());
    };
    match value.as_object() {
        None => Err(PolicyFault::Shape),
        Some(members) => {
            if !are_limits(members) {
                return Err(PolicyFault::Shape);
            }
            limits_of_object(value)
        }
    }
}

/// The numbers of an object whose members are known.
fn limits_of_object(value: &Value) -> Result<Limits, PolicyFault>
    ensures ok { IfOk result (λ l. limits_of_object (view value.now) ≡ Ok l) }
    ensures err { IfErr result (λ e. limits_of_object (view value.now) ≡ Err e) }
{
    let clients = limit_from(DEFAULT_CLIENTS, 1, MAX_POLICY_CLIENTS, value.get("clients"))?;
    let in_flight = limit_from(
        DEFAULT_FLIGHT,
        DEFAULT_FLIGHT,
        MAX_FLIGHT,
        value.get("in_flight"),
    )?;
    let sources = limit_from(DEFAULT_SOURCES, 0, MAX_SOURCES, value.get("sources"))?;
    let topics = limit_from(DEFAULT_TOPICS, 0, MAX_TOPICS, value.get("topics"))?;
    let waiting = limit_from(
        DEFAULT_WAITING,
        DEFAULT_WAITING,
        MAX_WAITING,
        value.get("waiting"),
    )?;
    Ok(Limits {
        clients,
        sources,
        topics,
        waiting,
        in_flight,
    })
}

/// A whole number from the least to the most, and what it is where the member is not there.
fn limit_from(
    default: usize,
    least: usize,
    most: usize,
    value: Option<&Value>,
) -> Result<usize, PolicyFault>
    requires { IsBetween least most default }
    ensures ok { IfOk result
        (λ n. limit_of default least most (option_map (λ v. view v.now) value.entry) ≡ Ok n) }
    ensures err { IfErr result
        (λ e. limit_of default least most (option_map (λ v. view v.now) value.entry) ≡ Err e) }
    ensures within { IfOk result (λ n. IsBetween least most n) }
{
    let Some(value) = value else {
        return Ok(default);
    };
    let Some(number) = value.as_u64() else {
        return Err(PolicyFault::Shape);
    };
    if least as u64 <= number && number <= most as u64 {
        Ok(number as usize)
    } else {
        Err(PolicyFault::Shape)
    }
}

/// Whether each name is that of a limit.
fn are_limits(members: &Map<String, Value>) -> bool
    ensures { result ≡ are_limits (members_view members.now.entries) }
{
    for (name, _) in members {
        if !is_limit(name.as_str()) {
            return false;
        }
    }
    true
}

/// Whether the object of the limits may have a member of this name.
pub fn is_limit(name: &str) -> bool
    ensures { result ≡ is_limit name.now }
{
    name == "clients"
        || name == "in_flight"
        || name == "sources"
        || name == "topics"
        || name == "waiting"
}
