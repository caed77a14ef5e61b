//! What becomes of the text of a policy that an operator gives to a running gateway.
ghost use Rattle.sng_operator.specs.Texts.{Becomes};

use crate::in_force::InForce;
use sng_grants::Policy;
use sng_scope::{PolicyFault, read_policy};
use std::alloc::Global;

/// What becomes of a text.
#[derive(Drop)]
pub enum Fate {
    /// It is in force already: nothing.
    Unchanged,
    /// This policy is to come into force.
    Taken(Policy),
    /// It is refused for this fault, or there is no memory for it: the policy before stays.
    Refused(PolicyFault),
}

/// What becomes of the text where this is in force.
pub fn fate_of(alloc: Global, in_force: &InForce, text: &[u8]) -> Fate
    ensures { Becomes in_force.now.text text.now result }
{
    if in_force.is(text) {
        return Fate::Unchanged;
    }
    match read_policy(alloc, text) {
        Ok(policy) => Fate::Taken(policy),
        Err(fault) => Fate::Refused(fault),
    }
}
