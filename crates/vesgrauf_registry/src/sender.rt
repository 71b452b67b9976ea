//! Who sends a frame or opens a stream.

/// The endpoint that sends a frame or opens a stream.
#[derive(Clone, Copy, Debug, PartialEq, Eq)]
pub enum Sender {
    /// Both endpoints.
    Both,
    /// Only the client.
    Client,
    /// Only the server.
    Server,
}
