//! How a queue is bounded, and what it keeps.

/// How a queue is bounded, and what it keeps.
#[derive(Clone, Copy, Debug, PartialEq, Eq)]
pub struct QueueConfig {
    /// A queue with so many bytes is full. One call is always accepted by an empty queue.
    pub mark: usize,
    /// Whether bytes that QUIC took are kept until they are acknowledged, for libraries that send them again from
    /// where they are.
    pub keep_until_acked: bool,
    /// Whether bytes count until they are acknowledged, for libraries that take everything. If not, they count until
    /// QUIC takes them.
    pub bound_by_acked: bool,
}
