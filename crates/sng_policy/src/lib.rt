//! What a policy allows at a clock: who may publish under a name, receive a message with it, and subscribe by a
//! filter (AIF-MQTT: RFC 9431, 2.3). A scope that has ended by then allows nothing.
#![tactic(auto)]

pub mod grant;
mod in_force;
pub mod laws;
pub mod listed;
pub mod names;
pub mod permission;
pub mod subscriptions;

pub use grant::{FilterGrant, NameGrant};
pub use in_force::InForce;
pub use listed::{lists, lists_source, same_scope, topic, topic_id};
pub use names::{grant_by, may_publish, may_receive, source_may_publish};
pub use permission::Permission;
pub use subscriptions::may_subscribe;
