//! The states of a client (MQTT-SN 1.2, 6.14), what leads from one to another, how long a client may stay
//! silent, and which of its MsgIds are open.
#![tactic(auto)]

pub mod laws;
pub mod limits;
pub mod open_ids;
pub mod silence;
pub mod state;
pub mod table;

pub use limits::{MAX_OPEN_IDS, SILENCE_MS_PER_SECOND};
pub use open_ids::OpenIds;
pub use silence::overdue;
pub use state::{ClientState, Cue};
pub use table::next;
