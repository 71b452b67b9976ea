//! Headers of unidirectional streams (RFC 9114, section 6.2): reading and writing, at once or poll
//! by poll.
ghost use Rattle.std.specs.Prelude.{◌≡◌, ◌≤◌, length, is_some, IfSome, IsOk, OnOk, OnErr, Err, Some, None, ◌↔◌};
ghost use Rattle.wtp_core.specs.Writer.{LacksRoom, PutsParts};
ghost use Rattle.wtp_core.specs.Reader.{IsRest};
ghost use Rattle.wtp_core.specs.Cursor.{left_of, whole_of};
ghost use Rattle.wtp_core.specs.BufferWriter.{room_in, loan_of, IsUnwritten, Wrote};

pub mod reading;
pub mod writing;

use crate::item::{self, Item, Tail};
pub use reading::{HeaderReading, IoReadError};
use std::marker::Model;
pub use writing::HeaderWriting;
pub use wtp_core::bytes::IoWriteError;
use wtp_core::bytes::{
    BufferReader, BufferWriter, BytesReader, BytesWriter, EndOfBuffer, PutError,
};
use wtp_core::ids::SessionId;
use wtp_core::numbers;
pub use wtp_core::numbers::stream_type_ids;
use wtp_core::varint::VarInt;

/// The reason why no header was read at the start of the input.
#[derive(Debug, Drop, PartialEq, Eq, thiserror::Error)]
pub enum ParseError {
    /// The type is unknown.
    #[error("cannot parse HTTP3 stream header as ID is unknown")]
    UnknownStream,
    /// The WebTransport type, followed by an invalid session ID.
    #[error("cannot parse HTTP3 stream header as session ID is invalid")]
    InvalidSessionId,
}

/// The kind of a unidirectional stream.
#[derive(Clone, Copy, Debug, PartialEq, Eq)]
pub enum StreamKind {
    /// The control stream (RFC 9114, section 6.2.1).
    Control,
    /// The QPACK encoder stream (RFC 9204, section 4.2).
    QPackEncoder,
    /// The QPACK decoder stream (RFC 9204, section 4.2).
    QPackDecoder,
    /// A stream of a WebTransport session, type 0x54 (draft-ietf-webtrans-http3-02, section 4.1).
    WebTransport,
    /// A type reserved to exercise the requirement that unknown types are ignored (RFC 9114,
    /// section 6.2.3).
    Exercise(VarInt),
}

impl StreamKind {
    ghost use Rattle.wtp_wire.specs.Kind.{is_exercise};
    ghost use Rattle.wtp_wire.specs.StreamKind.{has_session, stream_kind_of, stream_number_of, IsKnownStream};

    /// Returns whether the type is reserved: `0x21 + 0x1f * n` for some `n` (RFC 9114, section
    /// 6.2.3).
    pub fn is_id_exercise(id: VarInt) -> bool
        ensures { result ≡ is_exercise id }
    {
        numbers::is_reserved(id)
    }

    /// Returns the type.
    pub fn id(self) -> VarInt
        ensures { result ≡ stream_number_of self }
    {
        match self {
            StreamKind::Control => stream_type_ids::CONTROL_STREAM,
            StreamKind::QPackEncoder => stream_type_ids::QPACK_ENCODER_STREAM,
            StreamKind::QPackDecoder => stream_type_ids::QPACK_DECODER_STREAM,
            StreamKind::WebTransport => stream_type_ids::WEBTRANSPORT_STREAM,
            StreamKind::Exercise(id) => id,
        }
    }

    /// Returns the kind with this type, or `None` if the type is unknown.
    #[tactic(auto, unfolding(crate::specs::StreamKind::stream_kind_of))]
    pub fn parse(id: VarInt) -> Option<Self>
        ensures kind { result ≡ stream_kind_of id }
        ensures known { IfSome result IsKnownStream }
    {
        match id {
            stream_type_ids::CONTROL_STREAM => Some(StreamKind::Control),
            stream_type_ids::QPACK_ENCODER_STREAM => Some(StreamKind::QPackEncoder),
            stream_type_ids::QPACK_DECODER_STREAM => Some(StreamKind::QPackDecoder),
            stream_type_ids::WEBTRANSPORT_STREAM => Some(StreamKind::WebTransport),
            _ if StreamKind::is_id_exercise(id) => Some(StreamKind::Exercise(id)),
            _ => None,
        }
    }

    /// Returns whether a session ID follows the type.
    fn has_session(self) -> bool
        ensures { result ≡ has_session self }
    {
        matches!(self, StreamKind::WebTransport)
    }
}

/// The header of a unidirectional stream: its kind, and the session ID of a WebTransport stream.
#[derive(Clone, Copy, Debug)]
pub struct StreamHeader {
    kind: StreamKind,
    session_id: Option<SessionId>,
}

impl Model for StreamHeader {
    ghost use Rattle.wtp_wire.specs.Header.{Header, header, header_kind, header_session, IsProperHeader};

    ghost Value = { Header };

    ghost view = { λ h. header h.kind h.session_id };

    ghost invariant = { λ h. IsProperHeader h.kind h.session_id };

    ghost inverse = { λ h. record { kind = header_kind h; session_id = header_session h } };
}

impl StreamHeader {
    ghost use Rattle.wtp_wire.specs.Header.{header_kind, header_session, ControlHeader, WebTransportHeader};
    ghost use Rattle.wtp_wire.specs.StreamKind.{IsKnownStream, has_session};
    ghost use Rattle.wtp_wire.specs.HeaderFront.{header_front, session_header_front};
    ghost use Rattle.wtp_wire.specs.HeaderReading.{AnswersHeader, AnswersHeaderWhole};
    ghost use Rattle.wtp_wire.specs.PastNumber.{past_number};
    ghost use Rattle.wtp_wire.specs.HeaderWire.{header_parts, header_wire, IsReadableHeader};

    /// The maximum size of an encoded header, in bytes.
    pub const MAX_SIZE: usize = 16;

    /// Creates the header of the control stream.
    pub fn new_control() -> Self
        ensures { result ≡ ControlHeader }
    {
        StreamHeader {
            kind: StreamKind::Control,
            session_id: None,
        }
    }

    /// Creates the header of a WebTransport stream of this session (draft-ietf-webtrans-http3-02,
    /// section 4.1).
    pub fn new_webtransport(session_id: SessionId) -> Self
        ensures { result ≡ WebTransportHeader session_id }
    {
        StreamHeader {
            kind: StreamKind::WebTransport,
            session_id: Some(session_id),
        }
    }

    /// Returns the kind.
    pub fn kind(&self) -> StreamKind
        ensures kind { result ≡ header_kind self.now }
        ensures known { IsKnownStream result }
    {
        self.kind
    }

    /// Returns the session ID of a WebTransport stream, and `None` for every other kind.
    pub fn session_id(&self) -> Option<SessionId>
        ensures session { result ≡ header_session self.now }
        ensures opens { is_some result ≡ has_session (header_kind self.now) }
    {
        self.session_id
    }

    /// Reads the session ID after the WebTransport type.
    #[tactic(auto, using(wtp_core::proofs::RestLemmas::rests), unfolding(crate::specs::HeaderFront::session_header_front))]
    fn read_session<'a, R: BytesReader<'a>>(reader: &mut R) -> Result<Option<Self>, ParseError>
        ensures answer { AnswersHeader (session_header_front (R.left reader.old)) result
            (R.left reader.new) }
        ensures none { result ≡ Ok None → R.left reader.new ≡ R.left reader.old }
        ensures rest { IsRest (R.left reader.new) (R.left reader.old) }
        ensures kept { R.kept reader.new ≡ R.kept reader.old }
    {
        let Some(number) = reader.get_varint() else {
            return Ok(None);
        };
        match SessionId::try_from_varint(number) {
            Ok(session_id) => Ok(Some(StreamHeader::new_webtransport(session_id))),
            Err(_) => Err(ParseError::InvalidSessionId),
        }
    }

    /// Reads the header at the start of the input. Does not allocate.
    ///
    /// Returns `None` if there are too few bytes. The reader has then moved past the type if that
    /// is complete, and no further. Errors:
    ///
    /// - `UnknownStream`: the type is unknown. The reader has moved past it.
    /// - `InvalidSessionId`: the WebTransport type is followed by an invalid session ID. The reader
    ///   has moved past both.
    #[tactic(auto, unfolding(crate::specs::HeaderFront::header_front))]
    pub fn read<'a, R: BytesReader<'a>>(reader: &mut R) -> Result<Option<Self>, ParseError>
        ensures answer { AnswersHeader (header_front (R.left reader.old)) result
            (R.left reader.new) }
        ensures none { result ≡ Ok None → R.left reader.new ≡ past_number (R.left reader.old) }
        ensures rest { IsRest (R.left reader.new) (R.left reader.old) }
        ensures kept { R.kept reader.new ≡ R.kept reader.old }
    {
        let Some(id) = reader.get_varint() else {
            return Ok(None);
        };
        match StreamKind::parse(id) {
            Some(kind) if kind.has_session() => Self::read_session(reader),
            Some(kind) => Ok(Some(StreamHeader {
                kind,
                session_id: None,
            })),
            None => Err(ParseError::UnknownStream),
        }
    }

    /// Reads the header at the start of the input as `read` does, and moves past it. If this
    /// returns `None` or an error, the reader does not move.
    pub fn read_from_buffer(reader: &mut BufferReader<'_>) -> Result<Option<Self>, ParseError>
        ensures answer { AnswersHeaderWhole (header_front (left_of reader.old)) result
            (left_of reader.old) (left_of reader.new) }
        ensures whole { whole_of reader.new ≡ whole_of reader.old }
    {
        item::read_from_buffer(reader)
    }

    /// Writes the header, with each number in its shortest encoding.
    ///
    /// The parts are the type and the session ID. On an error, the parts before the one that failed
    /// have been written.
    pub fn write<W: BytesWriter>(&self, writer: &mut W) -> Result<(), PutError>
        ensures parts { PutsParts W.grows (header_parts self.now) result (W.written writer.old)
            (W.room writer.old) (W.written writer.new) (W.room writer.new) }
        ensures full { result ≡ Err PutError.EndOfBuffer
            → LacksRoom (W.room writer.old) (length (header_wire self.now)) }
        ensures target { W.target writer.new ≡ W.target writer.old }
    {
        item::write(self, writer)
    }

    /// Writes the complete header as `write` does. Returns `EndOfBuffer` exactly if less space than
    /// `write_size` is left; nothing is then written.
    pub fn write_to_buffer(&self, writer: &mut BufferWriter<'_>) -> Result<(), EndOfBuffer>
        ensures room { IsOk result ↔ (length (header_wire self.now) ≤ length (room_in writer.old)) }
        ensures ok { OnOk result (Wrote (header_wire self.now) writer.old writer.new) }
        ensures err { OnErr result (IsUnwritten writer.old writer.new) }
        ensures loan { loan_of writer.new ≡ loan_of writer.old }
    {
        item::write_to_buffer(self, writer)
    }

    /// Returns the number of bytes that `write` writes.
    pub fn write_size(&self) -> usize
        ensures size { result ≡ length (header_wire self.now) }
        ensures most { result ≤ Self.MAX_SIZE }
        ensures readable { IsReadableHeader self.now }
    {
        let head = self.kind.id().size();
        match self.session_id {
            Some(session_id) => head + session_id.into_varint().size(),
            None => head,
        }
    }
}

impl<'a> Item<'a> for StreamHeader {
    ghost use Rattle.wtp_wire.specs.HeaderFront.{header_front};
    ghost use Rattle.wtp_wire.specs.HeaderReading.{AnswersHeader};
    ghost use Rattle.wtp_wire.specs.HeaderWire.{header_parts};

    type Fault = ParseError;

    ghost is_read = { λ bytes result left. AnswersHeader (header_front bytes) result left };

    ghost parts = { header_parts };

    fn read_first(reader: &mut BufferReader<'a>) -> Result<Option<Self>, ParseError> {
        StreamHeader::read(reader)
    }

    fn head(&self) -> (VarInt, Tail<'_>) {
        let tail = match self.session_id {
            Some(session_id) => Tail::Session(session_id),
            None => Tail::Nothing,
        };
        (self.kind.id(), tail)
    }

    fn write_size(&self) -> usize {
        StreamHeader::write_size(self)
    }
}

// The limit: a type and a session ID of at most 8 bytes each (RFC 9000, section 16).
const _: () = prove!(StreamHeader::MAX_SIZE == 16);
