//! Frames of HTTP/3 (RFC 9114, section 7): reading and writing, at once or poll by poll.
ghost use Rattle.std.specs.Prelude.{◌≡◌, ◌%◌, ◌≢◌, ◌<◌, ◌≤◌, ◌^◌, ◌+◌, length, IsTrue, IsSome, IsOk, OnOk, OnErr, Err, Some, None, ◌↔◌};
ghost use Rattle.wtp_core.specs.Writer.{LacksRoom, PutsParts};
ghost use Rattle.wtp_core.specs.Reader.{IsRest};
ghost use Rattle.wtp_core.specs.Cursor.{left_of, whole_of};
ghost use Rattle.wtp_core.specs.BufferWriter.{room_in, loan_of, IsUnwritten, Wrote};

mod body;
pub(crate) mod head;
mod kind;
pub mod reading;
mod short;
mod try_new;
mod whole;
pub mod writing;

use crate::frame::body::Body;
use crate::frame::head::{Announcement, get_head};
pub use crate::frame::kind::FrameKind;
use crate::frame::kind::FrameType;
use crate::item::{self, Item, Tail};
pub use reading::{FrameReading, IoReadError};
use std::borrow::CowSlice;
use std::fmt;
use std::marker::Model;
pub use writing::FrameWriting;
pub use wtp_core::bytes::IoWriteError;
use wtp_core::bytes::{
    BufferReader, BufferWriter, BytesReader, BytesWriter, EndOfBuffer, PutError,
};
use wtp_core::ids::SessionId;
pub use wtp_core::numbers::frame_kind_ids;
use wtp_core::varint::VarInt;

/// The reason why no frame was read at the start of the input.
#[derive(Debug, Drop, PartialEq, Eq, thiserror::Error)]
pub enum ParseError {
    /// A complete frame of an unknown type, which must be ignored (RFC 9114, section 9).
    #[error("cannot parse HTTP3 frame as ID is unknown")]
    UnknownFrame,
    /// A WebTransport frame with an invalid session ID (draft-ietf-webtrans-http3-02, section 4.2).
    #[error("cannot parse HTTP3 frame as session ID is invalid")]
    InvalidSessionId,
    /// A frame of a known type whose length is above 4096 bytes.
    #[error("cannot parse HTTP3 frame as payload limit is reached")]
    PayloadTooBig,
}

/// The reason why no frame was created.
#[derive(Debug, Drop, PartialEq, Eq, thiserror::Error)]
pub enum GenerateError {
    /// The payload would have more than 2^62 - 1 bytes.
    #[error("payload too long")]
    PayloadTooLong,
    /// Memory allocation failed.
    #[error("no memory")]
    Memory,
}

/// A frame whose payload is borrowed or owned. A short payload may be stored in the frame itself.
#[derive(Drop)]
pub struct Frame<'a> {
    kind: FrameType,
    body: Body<'a>,
}

/// A frame that owns its payload.
pub type FrameOwned = Frame<'static>;

impl<'a> Model for Frame<'a> {
    ghost use Rattle.wtp_wire.specs.Body.{payload_of, session_of};
    ghost use Rattle.wtp_wire.specs.Content.{Content, content, IsProper};

    ghost Value = { Content };

    ghost view = { λ f. content f.kind (payload_of f.body) (session_of f.body) };

    ghost invariant = { λ f. IsProper f.kind (payload_of f.body) (session_of f.body) };
}

// Prints the fields of the Rust crate's frame, which this one stores differently.
impl fmt::Debug for Frame<'_> {
    fn fmt<W: fmt::Write>(&self, f: &mut fmt::Formatter<W>) -> fmt::Result {
        f.debug_struct("Frame")
            .field("kind", &self.kind())
            .field("payload", &self.payload())
            .field("session_id", &self.session_id())
            .finish()
    }
}

impl<'a> Frame<'a> {
    ghost use Rattle.std.specs.Cow.{cow_slice_items};
    ghost use Rattle.wtp_wire.specs.Content.{kind_in, payload_in, session_in, DataOf, HeadersOf, SettingsOf, WebTransportOf, ExerciseOf};
    ghost use Rattle.wtp_wire.specs.Kind.{IsKnown, is_exercise, kind_of};
    ghost use Rattle.wtp_wire.specs.FramePrefix.{AnnouncesKind};
    ghost use Rattle.wtp_wire.specs.Front.{front, front_after};
    ghost use Rattle.wtp_wire.specs.FrameReading.{Answers, AnswersWhole};
    ghost use Rattle.wtp_wire.specs.PastNumber.{past_two};
    ghost use Rattle.wtp_wire.specs.Wire.{parts_of, wire, IsReadable};

    /// Creates a HEADERS frame with the given payload, an encoded field section (RFC 9114, section
    /// 7.2.2). Requires that the payload has fewer than 2^62 bytes; `try_new_headers` checks this.
    pub fn new_headers(payload: CowSlice<'a, u8>) -> Self
        requires { length (cow_slice_items payload) < 2 ^ 62 }
        ensures { result ≡ HeadersOf (cow_slice_items payload.entry) }
    {
        Frame {
            kind: FrameType::of(FrameKind::Headers),
            body: Body::of(payload),
        }
    }

    /// Creates a SETTINGS frame with the given payload (RFC 9114, section 7.2.4). Requires that the
    /// payload has fewer than 2^62 bytes; `try_new_settings` checks this.
    pub fn new_settings(payload: CowSlice<'a, u8>) -> Self
        requires { length (cow_slice_items payload) < 2 ^ 62 }
        ensures { result ≡ SettingsOf (cow_slice_items payload.entry) }
    {
        Frame {
            kind: FrameType::of(FrameKind::Settings),
            body: Body::of(payload),
        }
    }

    /// Creates the WebTransport frame, which associates its stream with a session
    /// (draft-ietf-webtrans-http3-02, section 4.2).
    pub fn new_webtransport(session_id: SessionId) -> Self
        ensures { result ≡ WebTransportOf session_id }
    {
        Frame {
            kind: FrameType::of(FrameKind::WebTransport),
            body: Body::Session(session_id),
        }
    }

    /// Creates a frame of a reserved type (RFC 9114, section 7.2.8). Requires that
    /// `FrameKind::is_id_exercise` returns `true` for the type, and that the payload has fewer than
    /// 2^62 bytes.
    pub fn new_exercise(id: VarInt, payload: CowSlice<'a, u8>) -> Self
        requires reserved { IsTrue (is_exercise id) }
        requires fits { length (cow_slice_items payload) < 2 ^ 62 }
        ensures { result ≡ ExerciseOf id (cow_slice_items payload.entry) }
    {
        Frame {
            kind: FrameType::of(FrameKind::Exercise(id)),
            body: Body::of(payload),
        }
    }

    /// Creates a DATA frame with the given payload (RFC 9114, section 7.2.1). Requires that the
    /// payload has fewer than 2^62 bytes; `try_new_data` checks this.
    pub fn new_data(payload: CowSlice<'a, u8>) -> Self
        requires { length (cow_slice_items payload) < 2 ^ 62 }
        ensures { result ≡ DataOf (cow_slice_items payload.entry) }
    {
        Frame {
            kind: FrameType::of(FrameKind::Data),
            body: Body::of(payload),
        }
    }

    /// Returns the kind.
    pub fn kind(&self) -> FrameKind
        ensures kind { result ≡ kind_in self.now }
        ensures known { IsKnown result }
        ensures opens { IsSome (session_in self.now) ↔ (result ≡ FrameKind.WebTransport) }
    {
        self.kind.kind()
    }

    /// Returns the payload, which is empty for a WebTransport frame.
    pub fn payload(&self) -> &[u8]
        ensures payload { result.now ≡ payload_in self.now }
        ensures fits { length result.now < 2 ^ 62 }
    {
        self.body.payload()
    }

    /// Returns the session ID of a WebTransport frame, and `None` for every other kind.
    pub fn session_id(&self) -> Option<SessionId>
        ensures { result ≡ session_in self.now }
    {
        self.body.session()
    }

    /// Reads the first frame of the input. Does not allocate.
    ///
    /// Returns `None` if there are too few bytes. The reader has then moved past those of the first
    /// two numbers that are complete, and no further. Errors:
    ///
    /// - `UnknownFrame`: the frame has an unknown type. The reader has moved past the whole frame.
    /// - `InvalidSessionId`: the frame has the WebTransport type and an invalid session ID. The
    ///   reader has moved past both.
    /// - `PayloadTooBig`: the frame has another known type and a length above 4096. The reader has
    ///   moved past both; the payload need not be there.
    #[inline(always)]
    pub fn read<R: BytesReader<'a>>(reader: &mut R) -> Result<Option<Self>, ParseError>
        ensures answer { Answers (front (R.left reader.old)) result (R.left reader.new) }
        ensures none { result ≡ Ok None → R.left reader.new ≡ past_two (R.left reader.old) }
        ensures rest { IsRest (R.left reader.new) (R.left reader.old) }
        ensures kept { R.kept reader.new ≡ R.kept reader.old }
    {
        let Some((id, announcement)) = get_head(reader) else {
            return Ok(None);
        };
        Self::read_body(reader, id, announcement)
    }

    /// Reads the rest of a frame after its head, given the type and the announcement of the head.
    #[inline(always)]
    fn read_body<R: BytesReader<'a>>(
        reader: &mut R,
        id: VarInt,
        announcement: Announcement,
    ) -> Result<Option<Self>, ParseError>
        requires { AnnouncesKind (kind_of id) announcement }
        ensures answer { Answers (front_after announcement (R.left reader.old)) result
            (R.left reader.new) }
        ensures none { result ≡ Ok None → R.left reader.new ≡ R.left reader.old }
        ensures rest { IsRest (R.left reader.new) (R.left reader.old) }
        ensures kept { R.kept reader.new ≡ R.kept reader.old }
    {
        match announcement {
            Announcement::Payload(kind, size) => match reader.get_bytes(size as usize) {
                Some(payload) => Ok(Some(Frame {
                    kind: FrameType::with_number(id, kind),
                    body: Body::Borrowed(payload),
                })),
                None => Ok(None),
            },
            Announcement::Session(session_id) => Ok(Some(Frame::new_webtransport(session_id))),
            Announcement::Skip(size) => match reader.get_bytes(size as usize) {
                Some(_) => Err(ParseError::UnknownFrame),
                None => Ok(None),
            },
            Announcement::BadSession => Err(ParseError::InvalidSessionId),
            Announcement::TooLong => Err(ParseError::PayloadTooBig),
            Announcement::Unfinished => Ok(None),
        }
    }

    /// Reads the first frame of the input as `read` does, and moves past it. If this returns `None`
    /// or an error, the reader does not move.
    #[inline(always)]
    pub fn read_from_buffer(reader: &mut BufferReader<'a>) -> Result<Option<Self>, ParseError>
        ensures answer { AnswersWhole (front (left_of reader.old)) result (left_of reader.old)
            (left_of reader.new) }
        ensures whole { whole_of reader.new ≡ whole_of reader.old }
    {
        item::read_from_buffer(reader)
    }

    /// Writes the frame, with each number in its shortest encoding.
    ///
    /// The parts are the type, the length or session ID, and the payload. On an error, the parts
    /// before the one that failed have been written.
    pub fn write<W: BytesWriter>(&self, writer: &mut W) -> Result<(), PutError>
        ensures parts { PutsParts W.grows (parts_of self.now) result (W.written writer.old)
            (W.room writer.old) (W.written writer.new) (W.room writer.new) }
        ensures full { result ≡ Err PutError.EndOfBuffer
            → LacksRoom (W.room writer.old) (length (wire self.now)) }
        ensures target { W.target writer.new ≡ W.target writer.old }
    {
        item::write(self, writer)
    }

    /// Writes the complete frame as `write` does. Returns `EndOfBuffer` exactly if less space than
    /// `write_size` is left; nothing is then written.
    pub fn write_to_buffer(&self, writer: &mut BufferWriter<'_>) -> Result<(), EndOfBuffer>
        ensures room { IsOk result ↔ (length (wire self.now) ≤ length (room_in writer.old)) }
        ensures ok { OnOk result (Wrote (wire self.now) writer.old writer.new) }
        ensures err { OnErr result (IsUnwritten writer.old writer.new) }
        ensures loan { loan_of writer.new ≡ loan_of writer.old }
    {
        item::write_to_buffer(self, writer)
    }

    /// Returns the number of bytes that `write` writes.
    pub fn write_size(&self) -> usize
        ensures size { result ≡ length (wire self.now) }
        ensures readable { length (payload_in self.now) ≤ 4096 → IsReadable self.now }
    {
        let head = self.kind.id().size();
        match self.body.session() {
            Some(session_id) => head + session_id.into_varint().size(),
            None => {
                let len = self.body.payload().len();
                head + VarInt::from_u64_unchecked(len as u64).size() + len
            }
        }
    }
}

impl<'a> Item<'a> for Frame<'a> {
    ghost use Rattle.wtp_wire.specs.Front.{front};
    ghost use Rattle.wtp_wire.specs.FrameReading.{Answers};
    ghost use Rattle.wtp_wire.specs.Wire.{parts_of};

    type Fault = ParseError;

    ghost is_read = { λ bytes result left. Answers (front bytes) result left };

    ghost parts = { parts_of };

    #[inline(always)]
    fn read_first(reader: &mut BufferReader<'a>) -> Result<Option<Self>, ParseError> {
        Frame::read(reader)
    }

    #[inline(always)]
    fn head(&self) -> (VarInt, Tail<'_>) {
        let tail = match self.body.session() {
            Some(session_id) => Tail::Session(session_id),
            None => Tail::Payload(self.body.payload()),
        };
        (self.kind.id(), tail)
    }

    fn write_size(&self) -> usize {
        Frame::write_size(self)
    }
}
