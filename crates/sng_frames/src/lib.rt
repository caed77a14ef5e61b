//! MQTT-SN frames as bytes (MQTT-SN 1.2, section 5): which message a datagram is, and which bytes a message
//! is sent as.
#![tactic(auto)]

pub mod fault;
pub mod flags;
pub mod frame;
pub mod laws;
pub mod limits;
pub mod message_type;
pub mod messages;
pub mod qos;
pub mod return_code;
pub mod wire;

pub use fault::FrameFault;
pub use flags::{Flags, TopicIdType};
pub use frame::SnFrame;
pub use limits::{MAX_DATAGRAM, MAX_PAYLOAD, MAX_REGISTERED_NAME, MAX_SHORT_LENGTH};
pub use message_type::MessageType;
pub use messages::acks::{
    SubscribeAck, TopicAck, write_connect_ack, write_publish_ack, write_publish_complete,
    write_publish_received, write_publish_release, write_register_ack, write_subscribe_ack,
    write_unsubscribe_ack,
};
pub use messages::connect::Connect;
pub use messages::disconnect::write_disconnect;
pub use messages::ping::write_ping_response;
pub use messages::publish::{Publish, write_publish};
pub use messages::register::{Register, write_register};
pub use messages::subscribe::TopicRequest;
pub use messages::will::{
    WillTopic, write_will_message_request, write_will_message_response, write_will_topic_request,
    write_will_topic_response,
};
pub use qos::FrameQos;
pub use return_code::ReturnCode;
pub use wire::decode::decode;
pub use wire::encode::encode;
