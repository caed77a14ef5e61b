//! The filters that stand for anybody, as a tree of their levels, so that who holds a filter that matches a
//! name is found without a look at the others (MQTT 3.1.1, 4.7).
//!
//! Contracts see who holds what at which QoS: `qos_at` of the tree, a client and a filter. Two trees of which
//! it says the same are the same to every call here.
#![tactic(auto)]

mod adding;
mod asking;
mod ending;
mod finding;
mod found;
pub mod holder;
pub mod node;
pub mod standing;

pub use holder::Holder;
pub use node::Node;
pub use standing::Standing;
