//! How a stream ends.
ghost use Rattle.std.specs.Prelude.{◌≡◌, ◌&&◌, ◌==◌, if◌then◌else◌};

/// A reset of the sending part of a stream (RFC 9000, section 19.4).
#[derive(Clone, Copy, Debug, PartialEq, Eq)]
pub struct Reset {
    /// The error code.
    pub code: u64,
    /// How many bytes at the start of the stream are to be delivered all the same: 0, unless RESET_STREAM_AT is sent
    /// (draft-ietf-quic-reliable-stream-reset).
    pub size: u64,
}

/// How a stream ends.
#[derive(Clone, Copy, Debug, PartialEq, Eq)]
pub enum Ending {
    /// More bytes may be queued.
    Open,
    /// The end follows what is queued.
    Finishing,
    /// QUIC took the end.
    Finished,
    /// It was reset, and QUIC did not take the reset yet.
    Resetting(Reset),
    /// QUIC took the reset.
    WasReset(Reset),
}

impl Ending {
    ghost use Rattle.vesgrauf_queue.specs.State.{is_finishing};

    // Returns how the stream ends once QUIC took bytes, and so many wait.
    pub(crate) fn after(self, waits: usize) -> Ending
        ensures { result ≡ (if is_finishing self && waits == 0 then Ending.Finished else self) }
    {
        match self {
            Ending::Finishing if waits == 0 => Ending::Finished,
            other => other,
        }
    }
}
