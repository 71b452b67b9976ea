//! Names of frame types and stream types.
ghost use Rattle.std.specs.Prelude.{◌≡◌};
ghost use Rattle.vesgrauf_registry.specs.Frames.{frame_of, kind_of};
ghost use Rattle.vesgrauf_registry.specs.Streams.{stream_of};
ghost use Rattle.wt_inspection_model.specs.Names.{frame_name_of, frame_name_text, name_in, registered_name};
ghost use Rattle.wt_inspection_model.specs.Names.{registered_purpose, stream_name_of, stream_name_text};

use vesgrauf_registry::frames::{FrameType, find_frame};
use vesgrauf_registry::streams::{StreamContent, find_stream};
use wtp_core::varint::VarInt;
use wtp_wire::frame::FrameKind;
use wtp_wire::stream_header::StreamKind;

/// The name of a frame type.
#[derive(Clone, Copy, Debug, PartialEq, Eq)]
pub enum FrameName {
    /// A frame type that the library reads, or a reserved one.
    Read(FrameKind),
    /// CANCEL_PUSH (RFC 9114, section 7.2.3).
    CancelPush,
    /// PUSH_PROMISE (RFC 9114, section 7.2.5).
    PushPromise,
    /// GOAWAY (RFC 9114, section 7.2.6).
    Goaway,
    /// MAX_PUSH_ID (RFC 9114, section 7.2.7).
    MaxPushId,
    /// PRIORITY_UPDATE for a request or a push (RFC 9218, section 7.2).
    PriorityUpdate,
    /// An HTTP/2 frame type, which must not be sent (RFC 9114, section 7.2.8).
    Http2,
    /// An unknown type.
    Unknown,
}

impl FrameName {
    /// Returns the name of this type.
    #[tactic(auto, unfolding(crate::specs::Names::frame_name_of))]
    pub fn of(number: VarInt) -> Self
        ensures { result ≡ frame_name_of number }
    {
        if let Some(kind) = FrameKind::parse(number) {
            return FrameName::Read(kind);
        }
        match number.into_inner() {
            0xf_0700 | 0xf_0701 => FrameName::PriorityUpdate,
            other => FrameName::of_row(other),
        }
    }

    // Returns the name of a type that has no frame kind, by its row.
    fn of_row(number: u64) -> Self
        ensures { result ≡ name_in (kind_of number) }
    {
        match find_frame(number) {
            Some(row) => FrameName::of_kind(row.columns.kind),
            None => FrameName::Unknown,
        }
    }

    // Returns the name of a type with this kind, which is no frame kind.
    fn of_kind(kind: FrameType) -> Self
        ensures { result ≡ name_in kind }
    {
        match kind {
            FrameType::CancelPush => FrameName::CancelPush,
            FrameType::PushPromise => FrameName::PushPromise,
            FrameType::GoAway => FrameName::Goaway,
            FrameType::MaxPushId => FrameName::MaxPushId,
            FrameType::Http2 => FrameName::Http2,
            _ => FrameName::Unknown,
        }
    }

    /// Returns the text of the name: the name in the RFC, `reserved`, `unknown` or `HTTP/2`.
    #[tactic(auto, unfolding(vesgrauf_registry::specs::Frames::frame_of, vesgrauf_registry::specs::Frames::frames))]
    pub fn as_str(self) -> &'static str
        ensures { result.now ≡ frame_name_text self }
    {
        match self {
            FrameName::Read(FrameKind::Exercise(_)) => "reserved",
            FrameName::Read(kind) => registered_name(kind.id().into_inner()),
            FrameName::CancelPush => registered_name(0x03),
            FrameName::PushPromise => registered_name(0x05),
            FrameName::Goaway => registered_name(0x07),
            FrameName::MaxPushId => registered_name(0x0d),
            FrameName::PriorityUpdate => registered_name(0xf_0700),
            FrameName::Http2 => "HTTP/2",
            FrameName::Unknown => "unknown",
        }
    }
}

/// The name of a type of unidirectional stream.
#[derive(Clone, Copy, Debug, PartialEq, Eq)]
pub enum StreamName {
    /// A stream type that the library reads, or a reserved one.
    Read(StreamKind),
    /// A push stream (RFC 9114, section 6.2.2).
    Push,
    /// An unknown type.
    Unknown,
}

impl StreamName {
    /// Returns the name of this type.
    #[tactic(auto, unfolding(crate::specs::Names::stream_name_of))]
    pub fn of(number: VarInt) -> Self
        ensures { result ≡ stream_name_of number }
    {
        if let Some(kind) = StreamKind::parse(number) {
            return StreamName::Read(kind);
        }
        match find_stream(number.into_inner()) {
            Some(row) if matches!(row.columns.content, StreamContent::Push) => StreamName::Push,
            _ => StreamName::Unknown,
        }
    }

    /// Returns the text of the name: the purpose of the stream, `reserved` or `unknown`.
    #[tactic(auto, unfolding(vesgrauf_registry::specs::Streams::stream_of, vesgrauf_registry::specs::Streams::streams))]
    pub fn as_str(self) -> &'static str
        ensures { result.now ≡ stream_name_text self }
    {
        match self {
            StreamName::Read(StreamKind::Exercise(_)) => "reserved",
            StreamName::Read(kind) => registered_purpose(kind.id().into_inner()),
            StreamName::Push => registered_purpose(0x01),
            StreamName::Unknown => "unknown",
        }
    }
}

// Returns the name in the row of this frame type, or `unknown` if it has none.
fn registered_name(number: u64) -> &'static str
    ensures { result.now ≡ registered_name (frame_of number) }
{
    match find_frame(number) {
        Some(row) => row.name,
        None => "unknown",
    }
}

// Returns the purpose in the row of this stream type, or `unknown` if it has none.
fn registered_purpose(number: u64) -> &'static str
    ensures { result.now ≡ registered_purpose (stream_of number) }
{
    match find_stream(number) {
        Some(row) => row.columns.purpose,
        None => "unknown",
    }
}
