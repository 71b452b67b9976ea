//! Bytes that came on a stream.
ghost use Rattle.std.specs.Prelude.{◌≡◌, take, drop, length};
ghost use Rattle.vesgrauf_stream.specs.Reading.{bytes_of};

/// Bytes of an event: a part of the input, or bytes that were kept from earlier inputs.
#[derive(Debug, Drop)]
pub enum Bytes<'a> {
    /// A part of the input, which is not copied.
    Input(&'a [u8]),
    /// Bytes of which some were kept.
    Kept(Vec<u8>),
}

impl<'a> Bytes<'a> {
    /// Returns the bytes.
    pub fn as_slice(&self) -> &[u8]
        ensures { result.now ≡ bytes_of self.now }
    {
        match self {
            Bytes::Input(bytes) => *bytes,
            Bytes::Kept(bytes) => bytes.as_slice(),
        }
    }
}

/// The bytes of an input that are not read yet, and whether the stream ends after them.
#[derive(Drop)]
pub struct Chunk<'a> {
    /// The bytes.
    pub(crate) bytes: &'a [u8],
    /// Whether the stream ends after them.
    pub(crate) fin: bool,
}

impl<'a> Chunk<'a> {
    /// Creates the input of bytes that came on a stream, which are borrowed. `fin`: the stream ends after
    /// them.
    pub fn new(bytes: &'a [u8], fin: bool) -> Self
        ensures bytes { result.bytes.now ≡ bytes.now }
        ensures fin { result.fin ≡ fin }
    {
        Chunk { bytes, fin }
    }

    /// Returns how many bytes are not read yet.
    pub fn len(&self) -> usize
        ensures { result ≡ length self.now.bytes.now }
    {
        self.bytes.len()
    }

    /// Returns the bytes that are not read yet.
    pub fn as_slice(&self) -> &[u8]
        ensures { result.now ≡ self.now.bytes.now }
    {
        self.bytes
    }

    /// Returns them as the caller lent them.
    pub fn all(&self) -> &'a [u8]
        ensures { result.now ≡ self.now.bytes.now }
    {
        self.bytes
    }

    /// Returns whether the stream ends after them.
    pub fn is_last(&self) -> bool
        ensures { result ≡ self.now.fin }
    {
        self.fin
    }

    // Returns the first `len` bytes: all, if they are fewer.
    pub(crate) fn front(&self, len: usize) -> &[u8]
        ensures { result.now ≡ take len self.now.bytes.now }
    {
        self.bytes.get(..len).unwrap_or(self.bytes)
    }

    // Takes the first `len` bytes: all, if they are fewer.
    pub(crate) fn consume(&mut self, len: usize)
        ensures bytes { self.new.bytes.now ≡ drop len self.old.bytes.now }
        ensures fin { self.new.fin ≡ self.old.fin }
    {
        self.bytes = self.bytes.get(len..).unwrap_or(&[]);
    }
}
