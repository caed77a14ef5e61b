//! What of the subscriptions ends as another policy comes into force, or as scopes end (MQTT-SN 1.2, 6.9): it is
//! planned with all memory, and carried out without any.
#![tactic(auto)]

mod replacing;
mod room;

pub use replacing::{SubscriptionEnd, end_all, endings, replace};
pub use room::room_after;
