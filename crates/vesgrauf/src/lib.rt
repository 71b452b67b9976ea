//! A whole connection of HTTP/3 and WebTransport, for clients and servers, over any QUIC library.
//!
//! What QUIC reports goes in as an [`Input`](input::Input), and [`next_event`](connection::Connection::next_event)
//! returns what happened. An event may be answered while it is handled, by the calls of
//! [`Connection`](connection::Connection). What QUIC is to do then comes out by
//! [`output`](connection::Connection::output), [`next_send`](connection::Connection::next_send) and
//! [`next_datagram`](connection::Connection::next_datagram).
#![tactic(auto)]

pub mod code;
pub mod config;
pub mod connection;
pub(crate) mod critical;
pub(crate) mod entry;
pub mod event;
pub mod fields;
pub mod input;
pub mod laws;
pub mod output;
pub mod refused;

pub use vesgrauf_ready::rank::Priority;
pub use wtp_connection::settings::PeerSettings;
pub use wtp_core::error::Code;
pub use wtp_core::ids::StatusCode;
pub use wtp_core::varint::VarInt;
pub use wtp_fields::fields::FieldList;
pub use wtp_frames::endpoint::Side;
pub use wtp_messages::malformed::Malformed;
pub use wtp_webtransport::close::Close;
pub use wtp_webtransport::event::Waits;
pub use wtp_webtransport::fault::Fault;
