//! The body of a frame: its payload or session ID.
ghost use Rattle.std.specs.Prelude.{◌≡◌, ◌≤◌, None, length, take, IsSome, IfSome};
ghost use Rattle.wtp_wire.specs.Body.{payload_of, session_of};

use crate::frame::short::InlinePayload;
use std::alloc::Global;
use std::borrow::CowSlice;
use wtp_core::ids::SessionId;

/// A payload, or a session ID in its place.
#[derive(Drop)]
pub(crate) enum Body<'a> {
    /// A borrowed payload.
    Borrowed(&'a [u8]),
    /// A payload in a vector.
    Owned(Vec<u8>),
    /// A payload stored in the frame itself: its length, and its bytes.
    Short(u8, InlinePayload),
    /// The session ID of a WebTransport frame.
    Session(SessionId),
}

impl<'a> Body<'a> {
    ghost use Rattle.std.specs.Cow.{cow_slice_items};

    /// Creates a body with the given payload, without copying it.
    #[inline(always)]
    pub(crate) fn of(payload: CowSlice<'a, u8>) -> Self
        ensures payload { payload_of result ≡ cow_slice_items payload.entry }
        ensures plain { session_of result ≡ None }
    {
        match payload {
            CowSlice::Borrowed(bytes) => Body::Borrowed(bytes),
            CowSlice::Owned(bytes) => Body::Owned(bytes),
        }
    }

    /// Returns the payload, or no bytes if there is a session ID in its place.
    #[inline(always)]
    pub(crate) fn payload(&self) -> &[u8]
        ensures { result.now ≡ payload_of self.now }
    {
        match self {
            Body::Borrowed(bytes) => bytes,
            Body::Owned(bytes) => bytes.as_slice(),
            Body::Short(len, room) => room.first(*len),
            Body::Session(_) => &[],
        }
    }

    /// Returns the session ID, if there is one.
    #[inline(always)]
    pub(crate) fn session(&self) -> Option<SessionId>
        ensures { result ≡ session_of self.now }
    {
        match self {
            Body::Borrowed(_) | Body::Owned(_) | Body::Short(_, _) => None,
            Body::Session(session_id) => Some(*session_id),
        }
    }
}

impl Body<'static> {
    /// Copies the first `len` bytes. Returns `None` if there are fewer, or if allocation failed. If
    /// `len` is at most 40 and at least 40 bytes are given, this does not allocate and never fails.
    #[inline(always)]
    pub(crate) fn copy(alloc: Global, bytes: &[u8], len: usize) -> Option<Self>
        ensures within { IfSome result (λ _. len ≤ length bytes.now) }
        ensures copy { IfSome result (λ b. payload_of b ≡ take len bytes.now) }
        ensures plain { IfSome result (λ b. session_of b ≡ None) }
        ensures short { len ≤ 40 → 40 ≤ length bytes.now → IsSome result }
    {
        if let Some(room) = InlinePayload::copy_from_prefix(bytes, len) {
            return Some(Body::Short(len as u8, room));
        }
        let (payload, _) = bytes.split_at_checked(len)?;
        match Vec::from_slice(alloc, payload) {
            Ok(copy) => Some(Body::Owned(copy)),
            Err(_) => None,
        }
    }
}
