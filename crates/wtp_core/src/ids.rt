//! IDs of streams (RFC 9000, section 2.1) and of WebTransport sessions, quarter stream IDs (RFC
//! 9297, section 2.1), and HTTP status codes (RFC 9110, section 15).
ghost use Rattle.std.specs.Prelude.{◌≡◌, ◌*◌, ◌/◌, ◌%◌, ◌^◌, ◌<◌, ◌≤◌, ◌==◌, ◌↔◌, IsTrue, if◌then◌else◌};
ghost use Rattle.std.specs.Result.{OkIff};
ghost use Rattle.wtp_core.specs.Ids.{IsBidirectional, IsClientInitiated, IsSession, IsStatus, IsStatusText, status_in};

use crate::varint::VarInt;
use std::fmt;
use std::marker::Model;
use std::str::FromStr;

mod statuses;

/// The ID of a QUIC stream.
#[derive(Clone, Copy, PartialEq, Eq, PartialOrd, Ord, Hash)]
pub struct StreamId {
    id: VarInt,
}

impl Model for StreamId {
    ghost use Rattle.std.specs.Prelude.{ℕ};

    ghost Value = { ℕ };

    ghost view = { λ s. s.id };

    ghost inverse = { λ n. record { id = n } };
}

impl StreamId {
    /// The largest stream ID.
    pub const MAX: StreamId = StreamId { id: VarInt::MAX };

    /// Creates the stream ID with this number.
    pub fn new(varint: VarInt) -> Self
        ensures { result ≡ varint }
    {
        StreamId { id: varint }
    }

    /// Returns whether the stream is bidirectional: its second lowest bit is 0.
    pub fn is_bidirectional(self) -> bool
        ensures { IsTrue result ↔ IsBidirectional self }
    {
        self.id.into_inner() / 2 % 2 == 0
    }

    /// Returns whether the client opened the stream: its lowest bit is 0.
    pub fn is_client_initiated(self) -> bool
        ensures { IsTrue result ↔ IsClientInitiated self }
    {
        self.id.into_inner() % 2 == 0
    }

    /// Returns whether this endpoint opened the stream. `is_server` says whether it is the server.
    pub fn is_local(self, is_server: bool) -> bool
        ensures { IsTrue result ↔ (self % 2 ≡ (if is_server then 1 else 0)) }
    {
        self.id.into_inner() % 2 == u64::from(is_server)
    }

    /// Returns the number.
    pub fn into_u64(self) -> u64
        ensures value { result ≡ self }
        ensures below { self < 2 ^ 62 }
    {
        self.id.into_inner()
    }

    /// Returns the number.
    pub fn into_varint(self) -> VarInt
        ensures { result ≡ self }
    {
        self.id
    }
}

/// The number is not a valid session ID: one of its two lowest bits is 1.
#[derive(Debug, Drop, PartialEq, Eq, thiserror::Error)]
#[error("invalid session ID")]
pub struct InvalidSessionId;

/// The ID of a WebTransport session: the ID of a client-initiated bidirectional stream, so its two
/// lowest bits are 0.
#[derive(Clone, Copy, PartialEq, Eq, PartialOrd, Ord, Hash)]
pub struct SessionId {
    stream: StreamId,
}

impl Model for SessionId {
    ghost use Rattle.std.specs.Prelude.{ℕ};
    ghost use Rattle.wtp_core.specs.Ids.{IsSession};

    ghost Value = { ℕ };

    ghost view = { λ s. s.stream };

    ghost invariant = { λ s. IsSession s.stream };

    ghost inverse = { λ n. record { stream = n } };
}

impl SessionId {
    /// Returns the number.
    pub fn into_u64(self) -> u64
        ensures value { result ≡ self }
        ensures below { self < 2 ^ 62 }
        ensures session { IsSession self }
    {
        self.stream.into_u64()
    }

    /// Returns the number.
    pub fn into_varint(self) -> VarInt
        ensures value { result ≡ self }
        ensures session { IsSession self }
    {
        self.stream.into_varint()
    }

    /// Returns the ID of the session's stream.
    pub fn session_stream(self) -> StreamId
        ensures value { result ≡ self }
        ensures session { IsSession self }
    {
        self.stream
    }

    /// Returns the ID of this stream's session, or an error if one of its two lowest bits is 1.
    pub fn try_from_session_stream(stream_id: StreamId) -> Result<Self, InvalidSessionId>
        ensures { OkIff result (IsSession stream_id) stream_id }
    {
        if stream_id.into_u64() % 4 == 0 {
            Ok(SessionId { stream: stream_id })
        } else {
            Err(InvalidSessionId)
        }
    }

    /// Returns the session ID with this number, or an error if one of its two lowest bits is 1.
    pub fn try_from_varint(varint: VarInt) -> Result<Self, InvalidSessionId>
        ensures { OkIff result (IsSession varint) varint }
    {
        SessionId::try_from_session_stream(StreamId::new(varint))
    }

    /// Returns the ID of this stream's session. Requires that its two lowest bits are 0.
    pub fn from_session_stream_unchecked(stream_id: StreamId) -> Self
        requires { IsSession stream_id }
        ensures { result ≡ stream_id }
    {
        SessionId { stream: stream_id }
    }
}

/// The number is not a valid quarter stream ID: it is 2^60 or more.
#[derive(Debug, Drop, PartialEq, Eq, thiserror::Error)]
#[error("invalid QStream ID")]
pub struct InvalidQStreamId;

/// A quarter stream ID: a session ID divided by 4, as datagrams carry it.
#[derive(Clone, Copy, PartialEq, Eq, PartialOrd, Ord, Hash)]
pub struct QStreamId {
    id: VarInt,
}

impl Model for QStreamId {
    ghost use Rattle.std.specs.Prelude.{ℕ, ◌<◌, ◌^◌};

    ghost Value = { ℕ };

    ghost view = { λ q. q.id };

    ghost invariant = { λ q. q.id < 2 ^ 60 };

    ghost inverse = { λ n. record { id = n } };
}

impl QStreamId {
    /// The largest quarter stream ID, 2^60 - 1.
    pub const MAX: QStreamId = QStreamId {
        id: VarInt {
            value: 0x0fff_ffff_ffff_ffff,
        },
    };

    /// Returns the quarter stream ID of a session.
    pub fn from_session_id(session_id: SessionId) -> Self
        ensures { result ≡ session_id / 4 }
    {
        QStreamId {
            id: VarInt {
                value: session_id.into_u64() / 4,
            },
        }
    }

    /// Returns the ID of the session's stream.
    pub fn into_stream_id(self) -> StreamId
        ensures { result ≡ 4 * self }
    {
        self.into_session_id().session_stream()
    }

    /// Returns the ID of the session.
    pub fn into_session_id(self) -> SessionId
        ensures { result ≡ 4 * self }
    {
        SessionId {
            stream: StreamId {
                id: VarInt {
                    value: 4 * self.into_u64(),
                },
            },
        }
    }

    /// Returns the number.
    pub fn into_u64(self) -> u64
        ensures value { result ≡ self }
        ensures below { self < 2 ^ 60 }
    {
        self.id.into_inner()
    }

    /// Returns the number.
    pub fn into_varint(self) -> VarInt
        ensures value { result ≡ self }
        ensures below { self < 2 ^ 60 }
    {
        self.id
    }

    /// Returns the quarter stream ID with this number, or an error if it is 2^60 or more.
    pub fn try_from_varint(varint: VarInt) -> Result<Self, InvalidQStreamId>
        ensures { OkIff result (varint < 2 ^ 60) varint }
    {
        if varint.into_inner() < 0x1000_0000_0000_0000 {
            Ok(QStreamId { id: varint })
        } else {
            Err(InvalidQStreamId)
        }
    }
}

/// The number or the text is not an HTTP status code from 100 to 599.
#[derive(Debug, Drop, PartialEq, Eq, thiserror::Error)]
#[error("invalid HTTP status code")]
pub struct InvalidStatusCode;

/// An HTTP status code, from 100 to 599.
#[derive(Clone, Copy, PartialEq, Eq, PartialOrd, Ord, Hash)]
pub struct StatusCode {
    code: u16,
}

impl Model for StatusCode {
    ghost use Rattle.std.specs.Prelude.{ℕ};
    ghost use Rattle.wtp_core.specs.Ids.{IsStatus};

    ghost Value = { ℕ };

    ghost view = { λ s. s.code };

    ghost invariant = { λ s. IsStatus s.code };

    ghost inverse = { λ n. record { code = n } };
}

impl StatusCode {
    /// The largest code, 599.
    pub const MAX: StatusCode = StatusCode { code: 599 };

    /// The smallest code, 100.
    pub const MIN: StatusCode = StatusCode { code: 100 };

    /// Returns the status code with this number, or an error if it is not from 100 to 599.
    pub fn try_from_u32(value: u32) -> Result<Self, InvalidStatusCode>
        ensures { OkIff result (IsStatus value) value }
    {
        if (100..=599).contains(&value) {
            Ok(StatusCode { code: value as u16 })
        } else {
            Err(InvalidStatusCode)
        }
    }

    /// Returns the number.
    pub fn into_inner(self) -> u16
        ensures value { result ≡ self }
        ensures range { IsStatus self }
    {
        self.code
    }

    /// Returns whether the code means success: 200 to 299.
    pub fn is_successful(self) -> bool
        ensures { IsTrue result ↔ ((200 ≤ self) × (self ≤ 299)) }
    {
        200 <= self.code && self.code <= 299
    }
}

impl TryFrom<u8> for StatusCode {
    type Error = InvalidStatusCode;

    ghost try_from_gives = { λ n r. OkIff r (IsStatus n) n };

    fn try_from(value: u8) -> Result<Self, InvalidStatusCode> {
        StatusCode::try_from_u32(u32::from(value))
    }
}

impl TryFrom<u16> for StatusCode {
    type Error = InvalidStatusCode;

    ghost try_from_gives = { λ n r. OkIff r (IsStatus n) n };

    fn try_from(value: u16) -> Result<Self, InvalidStatusCode> {
        StatusCode::try_from_u32(u32::from(value))
    }
}

impl TryFrom<u32> for StatusCode {
    type Error = InvalidStatusCode;

    ghost try_from_gives = { λ n r. OkIff r (IsStatus n) n };

    fn try_from(value: u32) -> Result<Self, InvalidStatusCode> {
        StatusCode::try_from_u32(value)
    }
}

impl TryFrom<u64> for StatusCode {
    type Error = InvalidStatusCode;

    ghost try_from_gives = { λ n r. OkIff r (IsStatus n) n };

    fn try_from(value: u64) -> Result<Self, InvalidStatusCode> {
        match u32::try_from(value) {
            Ok(value) => StatusCode::try_from_u32(value),
            Err(_) => Err(InvalidStatusCode),
        }
    }
}

impl FromStr for StatusCode {
    type Err = InvalidStatusCode;

    ghost from_str_gives = { λ text r. OkIff r (IsStatusText text) (status_in text) };

    /// Parses a status code: an optional plus sign and at least one decimal digit.
    ///
    /// Returns `InvalidStatusCode` if the text has another form, or if the number is not from 100
    /// to 599.
    fn from_str(s: &str) -> Result<Self, InvalidStatusCode> {
        match s.parse::<u16>() {
            Ok(value) => StatusCode::try_from_u32(u32::from(value)),
            Err(_) => Err(InvalidStatusCode),
        }
    }
}

impl fmt::Display for StreamId {
    ghost use Rattle.std.specs.Prelude.{Some};
    ghost use Rattle.std.specs.Fmt.{decimal, styled_decimal};

    ghost output = { λ id. Some (decimal id) };

    ghost styled_output = { λ id style. Some (styled_decimal style id) };

    fn fmt<W: fmt::Write>(&self, f: &mut fmt::Formatter<W>) -> fmt::Result {
        fmt::Display::fmt(&self.into_u64(), f)
    }
}

impl fmt::Debug for StreamId {
    ghost use Rattle.std.specs.Prelude.{Some};
    ghost use Rattle.std.specs.Fmt.{decimal};

    ghost debug_output = { λ id. Some (decimal id) };

    fn fmt<W: fmt::Write>(&self, f: &mut fmt::Formatter<W>) -> fmt::Result {
        fmt::Display::fmt(self, f)
    }
}

impl fmt::Display for SessionId {
    ghost use Rattle.std.specs.Prelude.{Some};
    ghost use Rattle.std.specs.Fmt.{decimal, styled_decimal};

    ghost output = { λ id. Some (decimal id) };

    ghost styled_output = { λ id style. Some (styled_decimal style id) };

    fn fmt<W: fmt::Write>(&self, f: &mut fmt::Formatter<W>) -> fmt::Result {
        fmt::Display::fmt(&self.into_u64(), f)
    }
}

impl fmt::Debug for SessionId {
    ghost use Rattle.std.specs.Prelude.{Some};
    ghost use Rattle.std.specs.Fmt.{decimal};

    ghost debug_output = { λ id. Some (decimal id) };

    fn fmt<W: fmt::Write>(&self, f: &mut fmt::Formatter<W>) -> fmt::Result {
        fmt::Display::fmt(self, f)
    }
}

impl fmt::Display for QStreamId {
    ghost use Rattle.std.specs.Prelude.{Some};
    ghost use Rattle.std.specs.Fmt.{decimal, styled_decimal};

    ghost output = { λ id. Some (decimal id) };

    ghost styled_output = { λ id style. Some (styled_decimal style id) };

    fn fmt<W: fmt::Write>(&self, f: &mut fmt::Formatter<W>) -> fmt::Result {
        fmt::Display::fmt(&self.into_u64(), f)
    }
}

impl fmt::Debug for QStreamId {
    ghost use Rattle.std.specs.Prelude.{Some};
    ghost use Rattle.std.specs.Fmt.{decimal};

    ghost debug_output = { λ id. Some (decimal id) };

    fn fmt<W: fmt::Write>(&self, f: &mut fmt::Formatter<W>) -> fmt::Result {
        fmt::Display::fmt(self, f)
    }
}

impl fmt::Display for StatusCode {
    ghost use Rattle.std.specs.Prelude.{Some};
    ghost use Rattle.std.specs.Fmt.{decimal, styled_decimal};

    ghost output = { λ id. Some (decimal id) };

    ghost styled_output = { λ id style. Some (styled_decimal style id) };

    fn fmt<W: fmt::Write>(&self, f: &mut fmt::Formatter<W>) -> fmt::Result {
        fmt::Display::fmt(&self.into_inner(), f)
    }
}

impl fmt::Debug for StatusCode {
    ghost use Rattle.std.specs.Prelude.{Some};
    ghost use Rattle.std.specs.Fmt.{decimal};

    ghost debug_output = { λ id. Some (decimal id) };

    fn fmt<W: fmt::Write>(&self, f: &mut fmt::Formatter<W>) -> fmt::Result {
        fmt::Display::fmt(self, f)
    }
}

// The bounds.
const _: () = prove!(StreamId::MAX.id.value == 0x3fff_ffff_ffff_ffff);

const _: () = prove!(QStreamId::MAX.id.value == 0x0fff_ffff_ffff_ffff);

const _: () = prove!(StatusCode::MAX.code == 599);

const _: () = prove!(StatusCode::MIN.code == 100);
