//! The locked desk: one gateway and one book, which is cut into volumes, and a worker at a source of events.
#![tactic(auto)]

pub mod cutting;
pub mod desk;
pub mod ending;
mod events;
pub mod fault;
pub mod filer;
pub mod filing;
pub mod gate;
pub mod hand;
pub mod piece;
pub mod post;
pub mod source;
pub mod trail;
pub mod volume;
mod workers;
mod working;

pub use cutting::cut_when;
pub use desk::{Desk, Draft, Receipt, Share, act_locked};
pub use ending::{Next, NoSender, TickerEnd, WorkerEnd, WorkerFault};
pub use fault::{ActFault, NotActed};
pub use filer::Filer;
pub use filing::{Filing, NoFiling};
pub use gate::Gate;
pub use hand::Hand;
pub use piece::{Entries, Piece};
pub use post::ClockPost;
pub use source::{Beats, Datagrams, Got, Policies};
pub use trail::{Log, Refusal, Trail, join};
pub use volume::{SharedRows, Volume};
pub use workers::{policy_worker, ticker, udp_worker};
