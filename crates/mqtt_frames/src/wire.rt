//! Packets from their bytes, and their bytes from packets (MQTT 3.1.1, sections 2 and 3).
pub mod decode;
pub mod encode;
