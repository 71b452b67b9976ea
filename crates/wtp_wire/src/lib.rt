//! The wire format of WebTransport over HTTP/3: frames, datagrams, stream headers, settings and
//! capsules.
#![tactic(auto)]

pub mod capsule;
mod codes;
pub mod datagram;
pub mod frame;
pub mod head;
mod item;
pub mod laws;
pub mod rules;
pub mod settings;
pub mod stream_header;
