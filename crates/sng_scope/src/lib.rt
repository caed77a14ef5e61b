//! Scopes and policies from their texts, and policies as texts (RFC 9237, RFC 9431: the list of pairs of
//! AIF-MQTT; RFC 9200, 5.8: their end). What they are as values stands in `sng_grants`.
#![tactic(auto)]

pub mod fault;
mod grant_form;
mod json_text;
pub mod laws;
mod limits_form;
mod members;
mod pairs;
mod permissions;
pub mod read;
mod scope_form;
mod topic_id;
pub mod write;

pub use fault::PolicyFault;
pub use grant_form::is_grant_member;
pub use json_text::value_from;
pub use limits_form::{is_limit, limits_from};
pub use members::{is_known, is_version, may_end, may_limit};
pub use permissions::says;
pub use read::{read_policy, read_scope};
pub use scope_form::bytes_from;
pub use sng_grants::{Clients, Grant, Limits, Pair, Policy, Scope, Sources, Topics};
pub use topic_id::topic_id_from;
pub use write::write_policy;
