//! Why a call of a queue changes nothing.

/// Why bytes are not queued. Nothing changes then.
#[derive(Clone, Copy, Debug, PartialEq, Eq)]
pub enum NotQueued {
    /// The stream was finished or reset.
    Over,
    /// The stream would have more than 2^62 - 1 bytes (RFC 9000, section 19.8).
    TooLong,
    /// Memory was refused. The call can be repeated.
    Memory,
}

/// Bytes that are not queued are given back.
#[derive(Debug, Drop)]
pub struct NotTaken {
    /// Why they are not.
    pub why: NotQueued,
    /// The bytes.
    pub bytes: Vec<u8>,
}

/// What QUIC is said to have taken was not shown, or what is acknowledged was not taken. Nothing changes then.
#[derive(Clone, Copy, Debug, PartialEq, Eq)]
pub struct NotShown;
