//! The messages (MQTT-SN 1.2, 5.4), a module for each kind: what a message holds, how its variable part is
//! decoded, how many octets that has, and how the message is written.
pub mod acks;
pub mod connect;
pub mod disconnect;
pub(crate) mod part;
pub mod ping;
pub mod publish;
pub mod register;
pub mod subscribe;
pub mod will;
