//! Frame types (RFC 9114, sections 7.2 and 11.2.1; RFC 9218, section 7.2; RFC 9412, section 2;
//! draft-ietf-webtrans-http3-02, section 4.2).
ghost use Rattle.std.specs.Prelude.{◌≡◌, option_map};
ghost use Rattle.vesgrauf_registry.specs.Table.{shown};
ghost use Rattle.vesgrauf_registry.specs.Frames.{frame_of};

use crate::row::{self, CName, Row};
use crate::sender::Sender;

/// The kind of a frame, by which its rules are chosen.
#[derive(Clone, Copy, Debug, PartialEq, Eq)]
pub enum FrameType {
    /// DATA (RFC 9114, section 7.2.1).
    Data,
    /// HEADERS (RFC 9114, section 7.2.2).
    Headers,
    /// CANCEL_PUSH (RFC 9114, section 7.2.3).
    CancelPush,
    /// SETTINGS (RFC 9114, section 7.2.4).
    Settings,
    /// PUSH_PROMISE (RFC 9114, section 7.2.5).
    PushPromise,
    /// GOAWAY (RFC 9114, section 7.2.6).
    GoAway,
    /// MAX_PUSH_ID (RFC 9114, section 7.2.7).
    MaxPushId,
    /// A type of HTTP/2 that has no counterpart in HTTP/3 (RFC 9114, section 7.2.8).
    Http2,
    /// The first number of a bidirectional WebTransport stream (draft-ietf-webtrans-http3-02,
    /// section 4.2).
    WebTransport,
    /// A type that is ignored: an extension that is not supported, or no registered type (RFC 9114,
    /// section 9).
    Unknown,
}

/// The payload of a frame.
#[derive(Clone, Copy, Debug, PartialEq, Eq)]
pub enum Form {
    /// Content, which is returned as it arrives.
    Content,
    /// A field section.
    Section,
    /// A push ID and a field section.
    Promise,
    /// One variable-length integer.
    Number,
    /// A payload that is returned whole, and the most bytes that it may have.
    Whole(u64),
    /// No payload: a session ID follows the type, and then the bytes of the application.
    Session,
    /// A payload that is not read.
    Unread,
}

/// Whether a frame is allowed on the control stream.
#[derive(Clone, Copy, Debug, PartialEq, Eq)]
pub enum OnControl {
    /// It is not.
    Never,
    /// Only as the first frame.
    First,
    /// After the first frame.
    Later,
}

/// What the standards say of a frame type.
#[derive(Clone, Copy)]
pub struct Frame {
    /// Its kind.
    pub kind: FrameType,
    /// Its payload.
    pub form: Form,
    /// Whether it is allowed on the control stream.
    pub control: OnControl,
    /// Whether it is allowed on a request stream.
    pub request: bool,
    /// Who sends it.
    pub sender: Sender,
}

// A frame of a message.
const MESSAGE: Frame = Frame {
    kind: FrameType::Unknown,
    form: Form::Unread,
    control: OnControl::Never,
    request: true,
    sender: Sender::Both,
};

// A frame of the control stream that has one number.
const CONTROL: Frame = Frame {
    kind: FrameType::Unknown,
    form: Form::Number,
    control: OnControl::Later,
    request: false,
    sender: Sender::Both,
};

// A frame of HTTP/2.
const HTTP2: Frame = Frame {
    kind: FrameType::Http2,
    form: Form::Unread,
    control: OnControl::Never,
    request: false,
    sender: Sender::Both,
};

/// The frame types. A type of HTTP/2 has the name that it has there; the registry calls it
/// "Reserved".
pub static FRAMES: [Row<Frame>; 15] = [
    // RFC 9114, section 7.2.1
    Row {
        number: 0x00,
        name: "DATA",
        c_name: CName::Same,
        columns: Frame {
            kind: FrameType::Data,
            form: Form::Content,
            ..MESSAGE
        },
    },
    // RFC 9114, section 7.2.2
    Row {
        number: 0x01,
        name: "HEADERS",
        c_name: CName::Same,
        columns: Frame {
            kind: FrameType::Headers,
            form: Form::Section,
            ..MESSAGE
        },
    },
    // RFC 9114, section 11.2.1
    Row {
        number: 0x02,
        name: "PRIORITY",
        c_name: CName::Absent,
        columns: HTTP2,
    },
    // RFC 9114, section 7.2.3
    Row {
        number: 0x03,
        name: "CANCEL_PUSH",
        c_name: CName::Absent,
        columns: Frame {
            kind: FrameType::CancelPush,
            ..CONTROL
        },
    },
    // RFC 9114, section 7.2.4
    Row {
        number: 0x04,
        name: "SETTINGS",
        c_name: CName::Same,
        columns: Frame {
            kind: FrameType::Settings,
            form: Form::Whole(4096),
            control: OnControl::First,
            ..CONTROL
        },
    },
    // RFC 9114, section 7.2.5
    Row {
        number: 0x05,
        name: "PUSH_PROMISE",
        c_name: CName::Absent,
        columns: Frame {
            kind: FrameType::PushPromise,
            form: Form::Promise,
            sender: Sender::Server,
            ..MESSAGE
        },
    },
    // RFC 9114, section 11.2.1
    Row {
        number: 0x06,
        name: "PING",
        c_name: CName::Absent,
        columns: HTTP2,
    },
    // RFC 9114, section 7.2.6
    Row {
        number: 0x07,
        name: "GOAWAY",
        c_name: CName::Absent,
        columns: Frame {
            kind: FrameType::GoAway,
            ..CONTROL
        },
    },
    // RFC 9114, section 11.2.1
    Row {
        number: 0x08,
        name: "WINDOW_UPDATE",
        c_name: CName::Absent,
        columns: HTTP2,
    },
    // RFC 9114, section 11.2.1
    Row {
        number: 0x09,
        name: "CONTINUATION",
        c_name: CName::Absent,
        columns: HTTP2,
    },
    // RFC 9412, section 2
    Row {
        number: 0x0c,
        name: "ORIGIN",
        c_name: CName::Absent,
        columns: Frame {
            form: Form::Unread,
            sender: Sender::Server,
            ..CONTROL
        },
    },
    // RFC 9114, section 7.2.7
    Row {
        number: 0x0d,
        name: "MAX_PUSH_ID",
        c_name: CName::Absent,
        columns: Frame {
            kind: FrameType::MaxPushId,
            sender: Sender::Client,
            ..CONTROL
        },
    },
    // draft-ietf-webtrans-http3-02, section 4.2
    Row {
        number: 0x41,
        name: "WEBTRANSPORT_STREAM",
        c_name: CName::Other("WEBTRANSPORT"),
        columns: Frame {
            kind: FrameType::WebTransport,
            form: Form::Session,
            ..MESSAGE
        },
    },
    // RFC 9218, section 7.2
    Row {
        number: 0x0f_0700,
        name: "PRIORITY_UPDATE",
        c_name: CName::Absent,
        columns: Frame {
            form: Form::Unread,
            sender: Sender::Client,
            ..CONTROL
        },
    },
    // RFC 9218, section 7.2
    Row {
        number: 0x0f_0701,
        name: "PRIORITY_UPDATE",
        c_name: CName::Absent,
        columns: Frame {
            form: Form::Unread,
            sender: Sender::Client,
            ..CONTROL
        },
    },
];

/// Returns the row of a frame type, or `None` if the type is not registered.
#[tactic(auto, unfolding(crate::specs::Frames::frame_of, crate::specs::Frames::frames, crate::specs::Table::row_among), using(crate::proofs::TableLemmas::shown_among))]
pub fn find_frame(number: u64) -> Option<&'static Row<Frame>>
    ensures { option_map (λ row. shown row.now) result ≡ frame_of number }
{
    row::find(&FRAMES, number)
}
