//! Listings of recorded streams.

mod cut_source;
pub mod frames;
pub mod lines;
pub mod request;
pub mod stepped;

/// The stream that was recorded.
#[derive(Clone, Copy, Debug, PartialEq, Eq)]
pub enum ListKind {
    /// A stream in both directions that the peer opened.
    BiRemote,
    /// A stream in both directions that this end opened.
    BiLocal,
    /// A control stream of the peer, after its type number.
    Control,
}

/// A listing, and the status with which the program ends: 0, or 2 where a fault ends the stream.
#[derive(Debug, Drop)]
pub struct Listing {
    /// Its lines, each with its line feed.
    pub text: Vec<u8>,
    /// The status.
    pub status: u8,
}
