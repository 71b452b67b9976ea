//! What QUIC is to take next.
ghost use Rattle.std.specs.Prelude.{◌≡◌, ◌&&◌, ◌==◌, [], length};

/// What QUIC is to take next of a stream, in at most two slices.
#[derive(Clone, Copy, Debug, PartialEq, Eq)]
pub struct Next<'a> {
    /// The first bytes that wait.
    pub bytes: &'a [u8],
    /// The bytes after them. At most 16,384 bytes are in both slices.
    pub more: &'a [u8],
    /// Whether the stream ends after the bytes of both slices.
    pub fin: bool,
}

impl<'a> Next<'a> {
    /// Returns the first slice alone, for a library that takes one, and whether the stream ends after it.
    pub fn in_one_slice(self) -> Next<'a>
        ensures bytes { result.bytes.now ≡ self.entry.bytes.now }
        ensures more { result.more.now ≡ [] }
        ensures fin { result.fin ≡ (self.entry.fin && length self.entry.more.now == 0) }
    {
        Next {
            bytes: self.bytes,
            more: &[],
            fin: self.fin && self.more.is_empty(),
        }
    }
}
