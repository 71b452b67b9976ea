//! Types of frames (RFC 9114, sections 7.2 and 11.2.1).
ghost use Rattle.std.specs.Prelude.{◌≡◌};
ghost use Rattle.vesgrauf_registry.specs.Frames.{kind_of};
ghost use Rattle.wtp_frames.specs.FrameType.{type_in, type_of};

use vesgrauf_registry::frames::{self, find_frame};

/// The type of a frame.
#[derive(Clone, Copy, Debug, PartialEq, Eq)]
pub enum FrameType {
    /// DATA (RFC 9114, section 7.2.1).
    Data,
    /// HEADERS (RFC 9114, section 7.2.2).
    Headers,
    /// CANCEL_PUSH (RFC 9114, section 7.2.3).
    CancelPush,
    /// SETTINGS (RFC 9114, section 7.2.4).
    Settings,
    /// PUSH_PROMISE (RFC 9114, section 7.2.5).
    PushPromise,
    /// GOAWAY (RFC 9114, section 7.2.6).
    GoAway,
    /// MAX_PUSH_ID (RFC 9114, section 7.2.7).
    MaxPushId,
    /// A type of HTTP/2 that has no counterpart in HTTP/3: PRIORITY, PING, WINDOW_UPDATE or
    /// CONTINUATION (RFC 9114, section 7.2.8).
    Http2,
    /// The first number of a bidirectional WebTransport stream, 0x41
    /// (draft-ietf-webtrans-http3-02, section 4.2).
    WebTransport,
    /// Any other type, reserved types included (RFC 9114, section 9).
    Unknown,
}

impl FrameType {
    /// Returns the type with this number.
    #[tactic(auto, using(crate::proofs::TypeLemmas::kind_is))]
    pub fn of(number: u64) -> Self
        ensures { result ≡ type_of number }
    {
        FrameType::of_row(number)
    }

    // Returns the type of the kind in the row of this number.
    fn of_row(number: u64) -> Self
        ensures { result ≡ type_in (kind_of number) }
    {
        match find_frame(number) {
            Some(row) => FrameType::of_kind(row.columns.kind),
            None => FrameType::Unknown,
        }
    }

    // Returns the type of this kind.
    fn of_kind(kind: frames::FrameType) -> Self
        ensures { result ≡ type_in kind }
    {
        match kind {
            frames::FrameType::Data => FrameType::Data,
            frames::FrameType::Headers => FrameType::Headers,
            frames::FrameType::CancelPush => FrameType::CancelPush,
            frames::FrameType::Settings => FrameType::Settings,
            frames::FrameType::PushPromise => FrameType::PushPromise,
            frames::FrameType::GoAway => FrameType::GoAway,
            frames::FrameType::MaxPushId => FrameType::MaxPushId,
            frames::FrameType::Http2 => FrameType::Http2,
            frames::FrameType::WebTransport => FrameType::WebTransport,
            frames::FrameType::Unknown => FrameType::Unknown,
        }
    }
}
