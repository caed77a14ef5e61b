//! Sources over memory, which tell all that they gave and all that was passed to them, as long as there is
//! memory to note it, and a filing, which tells all that it took. Each can fail at one call, counted from 1;
//! 0 is none.

mod connections;
mod counting;
mod devices;
mod filings;
mod gates;
mod lists;

pub use connections::MemoryUpstream;
pub use counting::Calls;
pub use devices::MemoryDatagrams;
pub use filings::MemoryFiling;
pub use gates::{FilingGate, OpenGate};
pub use lists::{MemoryBeats, MemoryPolicies};
