//! The topic filters that stand for anybody, as they are kept upstream (MQTT 3.1.1, 3.8 and 3.9).
#![tactic(auto)]

pub mod copying;
pub mod filter;
pub mod laws;
mod owing;
mod places;
mod want;
pub mod wanted;

pub use copying::WantedCopy;
pub use filter::WantedFilter;
pub use wanted::Wanted;
