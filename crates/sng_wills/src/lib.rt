//! A client's will, and the dialogue by which the client states it (MQTT-SN 1.2, 6.2 and 6.4).
#![tactic(auto)]

mod comparing;
mod copying;
pub mod dialogue;
pub mod fault;
pub mod laws;
pub mod will;

pub use dialogue::WillDialogue;
pub use fault::WillFault;
pub use will::{Stage, StatedTopic, Will};
