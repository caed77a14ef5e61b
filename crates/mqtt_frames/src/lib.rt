//! MQTT packets as bytes (MQTT 3.1.1, sections 2 and 3).
#![tactic(auto)]

mod acknowledgements;
mod bare;
mod comparing;
mod connect;
mod copying;
pub mod fault;
mod fields;
mod first;
mod header;
mod kind;
pub mod laws;
pub mod limits;
pub mod list;
pub mod packet;
mod pending;
mod publish;
mod read_fault;
pub mod remaining;
mod spellable;
mod stream;
mod subscribe;
mod unsubscribe;
pub mod wire;

pub use acknowledgements::encode_publish_ack;
pub use bare::{encode_disconnect, encode_ping_request};
pub use connect::encode_connect;
pub use fault::{PacketFault, StreamFault};
pub use limits::{MAX_PACKET, MAX_REMAINING};
pub use list::List;
pub use packet::{
    Connect, ConnectAck, Packet, Publish, Request, RequestedQos, Subscribe, SubscribeAck,
    SubscribeCode, Unsubscribe,
};
pub use publish::write_publish;
pub use stream::Stream;
pub use subscribe::encode_subscribe;
pub use unsubscribe::encode_unsubscribe;
pub use wire::encode::encode;
