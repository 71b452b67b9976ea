//! Payloads stored in the frame itself.
ghost use Rattle.std.specs.Prelude.{◌≡◌, ◌≤◌, ◌↔◌, List, ℕ, length, take, IsSome, IfSome};

use std::marker::Model;

/// The maximum length of a payload stored in a frame, in bytes.
pub(crate) const MAX_SHORT: usize = 40;

/// Storage for a payload of at most 40 bytes. The length is stored separately.
#[derive(Drop)]
pub(crate) struct InlinePayload {
    // The payload, followed by bytes that are not part of it.
    bytes: [u8; MAX_SHORT],
    // Takes no space, but aligns the bytes, so that they are copied eight at a time. A one-byte
    // length then fits into the padding after an enum's tag.
    aligned: [u64; 0],
}

impl Model for InlinePayload {
    ghost Value = { List ℕ };

    ghost view = { λ r. r.bytes };
}

impl InlinePayload {
    /// Copies the first `len` bytes. Returns `None` if `len` is above 40 or if fewer than 40 bytes
    /// are given.
    ///
    /// Always copies 40 bytes, because a copy of constant length needs no function call.
    #[inline(always)]
    pub(crate) fn copy_from_prefix(bytes: &[u8], len: usize) -> Option<Self>
        ensures front { IfSome result (λ r. take len r ≡ take len bytes.now) }
        ensures room { IsSome result ↔ ((len ≤ 40) × (40 ≤ length bytes.now)) }
    {
        if len > MAX_SHORT {
            return None;
        }
        let front = bytes.first_chunk::<MAX_SHORT>()?;
        Some(InlinePayload {
            bytes: *front,
            aligned: [],
        })
    }

    /// Returns the first `len` bytes, or all 40 if `len` is larger.
    #[inline(always)]
    pub(crate) fn first(&self, len: u8) -> &[u8]
        ensures { result.now ≡ take len self.now }
    {
        &self.bytes[..(len as usize).min(MAX_SHORT)]
    }
}
