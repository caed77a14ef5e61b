//! The control packets of MQTT as values (MQTT 3.1.1, section 3).
//!
//! A value that no bytes spell can exist: a packet identifier of 0, a text whose length is no number of two
//! bytes, a SUBSCRIBE of nothing. Texts are any bytes: who reads them judges them.
use crate::List;
use sng_text::Octets;

/// A level of quality of service that is asked for or granted (4.3). A PUBLISH that is read or written has
/// one of the first two, by its packet identifier.
#[derive(Clone, Copy, Debug, PartialEq, Eq)]
pub enum RequestedQos {
    /// Level 0.
    AtMostOnce,
    /// Level 1.
    AtLeastOnce,
    /// Level 2.
    ExactlyOnce,
}

/// A CONNECT without a will, a user name and a password (3.1).
#[derive(Debug, Drop)]
pub struct Connect {
    /// Whether the server is to forget the session of before.
    pub clean_session: bool,
    /// The keep alive, in seconds; 0 turns it off.
    pub keep_alive: u16,
    /// The client identifier's bytes.
    pub client_id: Octets,
}

/// A CONNACK (3.2).
#[derive(Clone, Copy, Debug, PartialEq, Eq)]
pub struct ConnectAck {
    /// Whether the server has a session of before.
    pub session_present: bool,
    /// The return code: 0 where the connection is accepted. Any byte is read.
    pub code: u8,
}

/// A PUBLISH at QoS 0 or 1 (3.3).
#[derive(Debug, Drop)]
pub struct Publish {
    /// Whether the packet is sent again. Also read at QoS 0.
    pub dup: bool,
    /// Whether the message is kept.
    pub retain: bool,
    /// The packet identifier, at QoS 1; none at QoS 0.
    pub packet_id: Option<u16>,
    /// The topic name's bytes.
    pub name: Octets,
    /// The application message, which may be empty.
    pub payload: Octets,
}

/// A topic filter and the greatest quality of service that is asked for it (3.8.3).
#[derive(Debug, Drop)]
pub struct Request {
    /// The topic filter's bytes.
    pub filter: Octets,
    /// The greatest quality of service.
    pub qos: RequestedQos,
}

/// A SUBSCRIBE (3.8).
#[derive(Debug, Drop)]
pub struct Subscribe {
    /// The packet identifier.
    pub packet_id: u16,
    /// What is asked for, at least one request.
    pub requests: List<Request>,
}

/// The answer to a request (3.9.3).
#[derive(Clone, Copy, Debug, PartialEq, Eq)]
pub enum SubscribeCode {
    /// It is granted, with that greatest quality of service.
    Granted(RequestedQos),
    /// It is refused.
    Refused,
}

/// A SUBACK (3.9).
#[derive(Debug, Drop)]
pub struct SubscribeAck {
    /// The packet identifier of the SUBSCRIBE.
    pub packet_id: u16,
    /// A code for each request, in order; at least one.
    pub codes: List<SubscribeCode>,
}

/// An UNSUBSCRIBE (3.10).
#[derive(Debug, Drop)]
pub struct Unsubscribe {
    /// The packet identifier.
    pub packet_id: u16,
    /// The topic filters' bytes, at least one filter.
    pub filters: List<Octets>,
}

/// A control packet.
#[derive(Debug, Drop)]
pub enum Packet {
    /// Packet type 1.
    Connect(Connect),
    /// Packet type 2.
    ConnectAck(ConnectAck),
    /// Packet type 3.
    Publish(Publish),
    /// Packet type 4 (3.4), the packet identifier of a PUBLISH.
    PublishAck(u16),
    /// Packet type 8.
    Subscribe(Subscribe),
    /// Packet type 9.
    SubscribeAck(SubscribeAck),
    /// Packet type 10.
    Unsubscribe(Unsubscribe),
    /// Packet type 11 (3.11), the packet identifier of an UNSUBSCRIBE.
    UnsubscribeAck(u16),
    /// Packet type 12 (3.12).
    PingRequest,
    /// Packet type 13 (3.13).
    PingResponse,
    /// Packet type 14 (3.14).
    Disconnect,
}
