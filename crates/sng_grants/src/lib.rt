//! Scopes and policies as values: who may publish and subscribe to what, and until when (RFC 9237, RFC 9431:
//! the list of pairs of AIF-MQTT), and their look-ups. `sng_scope` reads them from texts.
#![tactic(auto)]

mod comparing;
pub mod grant;
pub mod key;
pub mod laws;
pub mod limits;
pub mod listed;
pub mod policy;
pub mod scope;
pub mod topics;

pub use grant::{Grant, is_reached, sooner};
pub use key::Key;
pub use limits::{
    DEFAULT_CLIENTS, DEFAULT_FLIGHT, DEFAULT_SOURCES, DEFAULT_TOPICS, DEFAULT_WAITING, Limits,
    MAX_FLIGHT, MAX_PAIRS, MAX_POLICY_CLIENTS, MAX_SOURCES, MAX_TOPICS, MAX_WAITING,
};
pub use listed::Listed;
pub use policy::{Clients, Policy, Sources};
pub use scope::{Pair, Scope};
pub use topics::{Names, Topics};
