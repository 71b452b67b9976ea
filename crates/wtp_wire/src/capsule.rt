//! Capsules (RFC 9297, section 3.2), as the payload of a DATA frame contains them.
ghost use Rattle.std.specs.Prelude.{◌≡◌};

pub mod capsules;
mod cursor;
mod reading;

use crate::capsule::capsules::CloseWebTransportSession;
pub use crate::capsule::cursor::{
    AnyCapsule, CapsuleCursor, CapsuleSpan, CapsuleStep, UnknownCapsule,
};
pub use crate::capsule::reading::{CapsuleReading, TruncatedCapsule};
use crate::frame::{Frame, FrameKind};
use std::borrow::CowSlice;
use std::marker::Model;
use wtp_core::bytes::BytesReader;
pub use wtp_core::numbers::capsule_types;
use wtp_core::varint::VarInt;

/// The kind of a capsule.
#[derive(Clone, Copy, Debug, PartialEq, Eq)]
pub enum CapsuleKind {
    /// The capsule closes its WebTransport session: type 0x2843 (draft-ietf-webtrans-http3-02,
    /// section 5).
    CloseWebTransportSession,
}

impl CapsuleKind {
    ghost use Rattle.wtp_wire.specs.Capsule.{capsule_kind_of, capsule_number_of, max_value_len};

    /// Returns the type.
    pub fn id(self) -> VarInt
        ensures { result ≡ capsule_number_of self }
    {
        match self {
            CapsuleKind::CloseWebTransportSession => {
                capsule_types::CAPSULE_TYPE_CLOSE_WEBTRANSPORT_SESSION
            }
        }
    }

    /// Returns the length of the longest value that is read from a stream's data, in bytes: for a
    /// capsule that closes a session 1028, a code of 4 and a reason of at most 1024.
    pub fn max_value_len(self) -> usize
        ensures { result ≡ max_value_len self }
    {
        match self {
            CapsuleKind::CloseWebTransportSession => 4 + CloseWebTransportSession::MAX_REASON_LEN,
        }
    }

    /// Returns the kind of this type, or `None` if the type is unknown.
    pub fn parse(id: VarInt) -> Option<Self>
        ensures { result ≡ capsule_kind_of id }
    {
        match id {
            capsule_types::CAPSULE_TYPE_CLOSE_WEBTRANSPORT_SESSION => {
                Some(CapsuleKind::CloseWebTransportSession)
            }
            _ => None,
        }
    }
}

/// The reason a capsule was not read or not made.
#[derive(Debug, Drop, PartialEq, Eq, thiserror::Error)]
pub enum CapsuleError {
    /// Its value is longer than those of its kind may be.
    #[error("capsule is too long")]
    TooLong,
    /// Memory allocation failed.
    #[error("no memory")]
    Memory,
}

/// A capsule: its kind, and its payload.
#[derive(Debug, Drop)]
pub struct Capsule<'a> {
    kind: CapsuleKind,
    payload: CowSlice<'a, u8>,
}

/// A capsule that owns its payload.
pub type CapsuleOwned = Capsule<'static>;

impl<'a> Model for Capsule<'a> {
    ghost use Rattle.std.specs.Prelude.{ℕ, List};
    ghost use Rattle.std.specs.Cow.{cow_slice_items};
    ghost use Rattle.wtp_wire.specs.declared.capsule.CapsuleKind.{CapsuleKind};

    ghost Value = { CapsuleKind × List ℕ };

    ghost view = { λ c. (c.kind, cow_slice_items c.payload) };
}

impl<'a> Capsule<'a> {
    ghost use Rattle.wtp_wire.specs.Content.{kind_in, payload_in};
    ghost use Rattle.wtp_wire.specs.Capsule.{capsule_in};

    /// Returns the capsule at the start of a DATA frame's payload. Returns `None` if the payload
    /// does not start with a complete capsule of a known kind. The bytes after the capsule are not
    /// read.
    #[tactic(auto, unfolding(crate::specs::Capsule::capsule_in, crate::specs::Capsule::payload_after))]
    pub fn with_frame(frame: &'a Frame<'_>) -> Option<Self>
        requires { kind_in frame.now ≡ FrameKind.Data }
        ensures { result ≡ capsule_in (payload_in frame.now) }
    {
        let mut rest = frame.payload();
        let kind = CapsuleKind::parse(rest.get_varint()?)?;
        let len = rest.get_varint()?;
        let payload = rest.get_bytes(len.into_inner() as usize)?;
        Some(Capsule {
            kind,
            payload: CowSlice::Borrowed(payload),
        })
    }

    /// Returns the kind.
    pub fn kind(&self) -> CapsuleKind
        ensures { result ≡ self.now.0 }
    {
        self.kind
    }

    /// Returns the payload.
    pub fn payload(&self) -> &[u8]
        ensures { result.now ≡ self.now.1 }
    {
        match &self.payload {
            CowSlice::Borrowed(bytes) => bytes,
            CowSlice::Owned(bytes) => bytes.as_slice(),
        }
    }
}
