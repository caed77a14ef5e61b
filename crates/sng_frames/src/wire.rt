//! Frames from datagrams and datagrams from frames (MQTT-SN 1.2, 5.2).
pub mod decode;
pub mod encode;
pub mod framing;
