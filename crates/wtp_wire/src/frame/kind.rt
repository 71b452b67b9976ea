//! The kinds of frames, and their types on the wire.
ghost use Rattle.std.specs.Prelude.{◌≡◌, Some, IfSome};
ghost use Rattle.wtp_wire.specs.Kind.{is_exercise, kind_of, frame_type_of, registered_kind, IsKnown};

use std::marker::Model;
use wtp_core::numbers::{frame_kind_ids, is_reserved};
use wtp_core::varint::VarInt;

/// The kind of a frame.
#[derive(Clone, Copy, Debug, PartialEq, Eq)]
pub enum FrameKind {
    /// DATA (RFC 9114, section 7.2.1).
    Data,
    /// HEADERS (RFC 9114, section 7.2.2).
    Headers,
    /// SETTINGS (RFC 9114, section 7.2.4).
    Settings,
    /// WEBTRANSPORT_STREAM, type 0x41: associates its stream with a WebTransport session
    /// (draft-ietf-webtrans-http3-02, section 4.2).
    WebTransport,
    /// A type reserved to exercise the requirement that unknown types are ignored (RFC 9114,
    /// section 7.2.8).
    Exercise(VarInt),
}

impl FrameKind {
    /// Returns whether the type is reserved: `0x21 + 0x1f * n` for some `n` (RFC 9114, section
    /// 7.2.8).
    pub fn is_id_exercise(id: VarInt) -> bool
        ensures { result ≡ is_exercise id }
    {
        is_reserved(id)
    }

    /// Returns the type.
    pub fn id(self) -> VarInt
        ensures { result ≡ frame_type_of self }
    {
        match self {
            FrameKind::Data => frame_kind_ids::DATA,
            FrameKind::Headers => frame_kind_ids::HEADERS,
            FrameKind::Settings => frame_kind_ids::SETTINGS,
            FrameKind::WebTransport => frame_kind_ids::WEBTRANSPORT_STREAM,
            FrameKind::Exercise(id) => id,
        }
    }

    // Returns the kind with this type, except the reserved types.
    #[inline(always)]
    #[tactic(auto, unfolding(crate::specs::Kind::registered_kind))]
    fn find_registered(id: VarInt) -> Option<Self>
        ensures kind { result ≡ registered_kind id }
        ensures known { IfSome result IsKnown }
    {
        match id {
            frame_kind_ids::DATA => Some(FrameKind::Data),
            frame_kind_ids::HEADERS => Some(FrameKind::Headers),
            frame_kind_ids::SETTINGS => Some(FrameKind::Settings),
            frame_kind_ids::WEBTRANSPORT_STREAM => Some(FrameKind::WebTransport),
            _ => None,
        }
    }

    /// Returns the kind with this type, or `None` if the type is unknown.
    #[inline(always)]
    #[tactic(auto, unfolding(crate::specs::Kind::kind_of))]
    pub fn parse(id: VarInt) -> Option<Self>
        ensures kind { result ≡ kind_of id }
        ensures known { IfSome result IsKnown }
    {
        match FrameKind::find_registered(id) {
            Some(kind) => Some(kind),
            None if FrameKind::is_id_exercise(id) => Some(FrameKind::Exercise(id)),
            None => None,
        }
    }
}

/// A kind stored as its type, which takes half the space.
#[derive(Clone, Copy)]
pub(crate) struct FrameType {
    id: VarInt,
}

impl Model for FrameType {
    ghost use Rattle.wtp_wire.specs.declared.frame.kind.FrameKind.{FrameKind};
    ghost use Rattle.wtp_wire.specs.Kind.{frame_type_of};
    ghost use Rattle.wtp_wire.specs.FrameType.{kind_numbered, number_of_kind_numbered};

    ghost Value = { FrameKind };

    ghost view = { λ k. kind_numbered k.id };

    ghost inverse = { λ kind. record { id = frame_type_of kind } };

    ghost inverse_ok = { λ k h i. record { id = number_of_kind_numbered k.id i } };
}

impl FrameType {
    /// Stores a kind.
    #[inline(always)]
    #[tactic(auto, using(crate::proofs::KindLemmas::numbered))]
    pub(crate) fn of(kind: FrameKind) -> Self
        requires { IsKnown kind }
        ensures { result ≡ kind }
    {
        FrameType { id: kind.id() }
    }

    /// Stores a kind with its type, which must be the given one.
    #[inline(always)]
    #[tactic(auto, using(crate::proofs::KindLemmas::numbered))]
    pub(crate) fn with_number(id: VarInt, kind: FrameKind) -> Self
        requires { kind_of id ≡ Some kind }
        ensures { result ≡ kind }
    {
        FrameType { id }
    }

    /// Returns the kind.
    #[inline(always)]
    #[tactic(auto, unfolding(crate::specs::FrameType::kind_numbered))]
    pub(crate) fn kind(self) -> FrameKind
        ensures { result ≡ self }
    {
        match FrameKind::find_registered(self.id) {
            Some(kind) => kind,
            None => FrameKind::Exercise(self.id),
        }
    }

    /// Returns the type.
    #[inline(always)]
    #[tactic(auto, using(crate::proofs::KindLemmas::numbered))]
    pub(crate) fn id(self) -> VarInt
        ensures { result ≡ frame_type_of self }
    {
        self.id
    }
}
