//! The items that an inspection finds.

pub mod capsule;
pub mod ending;
pub mod fields;
pub mod instruction;
pub mod names;
pub mod rule;
pub mod settings;

pub use capsule::{CapsuleItem, CloseReason, FlowLimit};
pub use ending::{Cut, End, Fault, FaultCode, Warning};
pub use fields::{FieldSection, Index, Line, SectionFault, Unknown};
pub use instruction::Instruction;
pub use names::{FrameName, StreamName};
pub use rule::Rule;
pub use settings::{SettingIssue, SettingLine};

/// The contents of the input: its items, and how it ends.
#[derive(Drop)]
pub struct Inspection {
    /// The items in order. Each byte of the input belongs to exactly one item.
    pub items: Vec<Item>,
    /// Protocol violations that do not stop reading, and hints. No contract says which they are.
    pub warnings: Vec<Warning>,
    /// How the input ends.
    pub end: End,
}

/// A range of bytes with one meaning.
#[derive(Drop)]
pub struct Item {
    /// The offset of the first byte.
    pub at: usize,
    /// The number of bytes.
    pub length: usize,
    /// The meaning of the bytes.
    pub content: Content,
}

/// The meaning of the bytes of an item.
#[derive(Drop)]
pub enum Content {
    /// The stream type of a unidirectional stream and the ID after it: the session ID of a
    /// WebTransport stream, or the push ID of a push stream (RFC 9114, section 6.2).
    Stream(StreamHead),
    /// A frame: its header, and the part of its payload that is present (RFC 9114, section 7.1).
    Frame(FrameItem),
    /// The frame type and session ID at the start of a bidirectional WebTransport stream
    /// (draft-ietf-webtrans-http3-02, section 4.2). The value is the session ID.
    Session(u64),
    /// Application data, or bytes of a stream without frames. They are not interpreted.
    Payload,
    /// A capsule outside a DATA frame (RFC 9297, section 3.2).
    Capsule(CapsuleItem),
    /// An HTTP Datagram (RFC 9297, section 2.1).
    Datagram(DatagramHead),
    /// An encoded field section (RFC 9204, section 4.5).
    Section(FieldSection),
    /// The payload of a SETTINGS frame (RFC 9114, section 7.2.4).
    Settings(Vec<SettingLine>),
    /// An instruction on an encoder or decoder stream of QPACK (RFC 9204, sections 4.3 and 4.4).
    Instruction(Instruction),
    /// Bytes that were not read: too few for an item, or at or after an error.
    Unread,
}

/// The header of a unidirectional stream.
#[derive(Clone, Copy, Debug, PartialEq, Eq)]
pub struct StreamHead {
    /// The stream type.
    pub number: u64,
    /// The name of the stream type.
    pub name: StreamName,
    /// The session ID, on a WebTransport stream.
    pub session: Option<u64>,
    /// The push ID, on a push stream (RFC 9114, section 4.6).
    pub push: Option<u64>,
}

/// A frame, other than the one that starts a WebTransport stream.
#[derive(Drop)]
pub struct FrameItem {
    /// The frame type.
    pub number: u64,
    /// The name of the frame type.
    pub name: FrameName,
    /// The length of the frame header (type and length), in bytes. The payload follows it.
    pub head: usize,
    /// The declared length of the payload, in bytes.
    pub announced: u64,
    /// The number of payload bytes that are present.
    pub present: usize,
    /// The contents of the payload.
    pub parts: Parts,
}

/// The contents of a frame payload.
#[derive(Drop)]
pub enum Parts {
    /// Bytes that are not interpreted.
    Opaque,
    /// The field lines of a HEADERS frame.
    Fields(FieldSection),
    /// The settings of a SETTINGS frame.
    Settings(Vec<SettingLine>),
    /// The capsules that end in this DATA frame.
    Capsules(Vec<CapsuleItem>),
    /// The contents of a frame about requests and pushes.
    Signal(Signal),
}

/// The contents of a frame about requests and pushes.
#[derive(Drop)]
pub enum Signal {
    /// The ID of a request stream or of a push, which is all that GOAWAY, MAX_PUSH_ID and
    /// CANCEL_PUSH contain (RFC 9114, sections 7.2.3, 7.2.6 and 7.2.7).
    Id(u64),
    /// The ID of the stream or push that PRIORITY_UPDATE is about, and its priority (RFC 9218,
    /// section 7.2). The priority need not be UTF-8.
    Priority(u64, Vec<u8>),
    /// The push ID of PUSH_PROMISE, and the header section of the promised request (RFC 9114,
    /// section 7.2.5).
    Promise(u64, FieldSection),
}

/// The header of a datagram. The payload follows it in the same item.
#[derive(Clone, Copy, Debug, PartialEq, Eq)]
pub struct DatagramHead {
    /// The quarter stream ID.
    pub quarter: u64,
    /// The session ID, which is four times the quarter stream ID.
    pub session: u64,
    /// The length of the payload, in bytes.
    pub payload: usize,
}
