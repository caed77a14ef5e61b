//! What messages for a client let out and come to: their turns as they arrive, as they are handed over and as
//! they are sent again, each judged by the policy in force (MQTT-SN 1.2, 5.4.10, 5.4.12, 6.6, 6.10, 6.13 and
//! 6.14).
#![tactic(auto)]

pub mod again;
pub mod deliver;
pub mod hand_over;
pub mod known;
pub mod room;
pub mod serve;
pub mod turn;
