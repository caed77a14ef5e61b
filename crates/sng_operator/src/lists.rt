//! How much a policy lists, as an operator is told it.
ghost use Rattle.std.specs.Prelude.{◌≡◌, length};
ghost use Rattle.sng_grants.specs.Ends.{next_end};
ghost use Rattle.sng_questions.specs.Ends.{ending_scopes};

use sng_grants::Policy;
use sng_questions::ends::ending_scopes;
use sng_times::Time;
use std::fmt;
use std::fmt::{Display, Formatter, Write};

/// How much a policy lists.
#[derive(Clone, Copy, Debug, PartialEq, Eq)]
pub struct Lists {
    pub clients: usize,
    pub sources: usize,
    /// The predefined topic ids.
    pub topics: usize,
    /// The scopes that end.
    pub ends: usize,
    /// When the first of them does, in ms of Unix time.
    pub first_end: Option<u64>,
}

impl Lists {
    pub fn of(policy: &Policy) -> Lists
        ensures clients { result.clients ≡ length policy.now.clients }
        ensures sources { result.sources ≡ length policy.now.sources }
        ensures topics { result.topics ≡ length policy.now.topics }
        ensures ends { result.ends ≡ ending_scopes policy.now }
        ensures first_end { result.first_end ≡ next_end policy.now }
    {
        Lists {
            clients: policy.clients.len(),
            sources: policy.sources.len(),
            topics: policy.topics.len(),
            ends: ending_scopes(policy),
            first_end: policy.next_end(),
        }
    }
}

impl Display for Lists {
    fn fmt<W: Write>(&self, f: &mut Formatter<W>) -> fmt::Result {
        let Lists {
            clients,
            sources,
            topics,
            ends,
            first_end,
        } = *self;
        write!(f, "{clients} clients, {sources} sources, {topics} topics")?;
        match first_end {
            Some(first) => write!(f, "; {ends} scopes end, the first at {}", Time(first)),
            None => Ok(()),
        }
    }
}
