//! Scripts as lines: what a line says, and the line that says an event. Beside it, what each command does
//! with its input and as it ends.
#![tactic(auto)]

pub mod address;
mod datagram;
mod digits;
pub mod ending;
pub mod event_line;
pub mod file;
pub mod input;
pub mod laws;
pub mod limits;
pub mod number;
pub mod obstacle;
pub mod reader;
pub mod refused;
pub mod script;
pub mod sender;
pub mod status;

pub use limits::{MAX_LINE, MAX_READS};
pub use obstacle::Obstacle;
pub use script::{Line, LineFault, line_of};
pub use status::Status;
