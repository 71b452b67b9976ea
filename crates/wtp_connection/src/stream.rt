//! What a stream of the peer is for, by its first bytes (RFC 9114, section 6.2;
//! draft-ietf-webtrans-http3-02, sections 4.1 and 4.2).
ghost use Rattle.std.specs.Prelude.{◌≡◌, ◌≤◌, ◌==◌, false, length, drop, None, Some, MatchOption, IfSome};
ghost use Rattle.wtp_core.specs.Varint.{number_at};
ghost use Rattle.wtp_connection.specs.Opening.{with_session, type_purpose, frames_purpose, uni_at, bi_at, stream_of, waits_for, is_critical as is_critical_is, connected, remaining_of, is_for_critical, has_no_headers as has_no_headers_is, is_closed as is_closed_is, over_from, over_by, allows_bidirectional as allows_bidirectional_is, is_forbidden as is_forbidden_is, forbidden_at, end_unopened};
ghost use Rattle.wtp_connection.specs.Rows.{is_session_row, purpose_in, purpose_row};
ghost use Rattle.wtp_connection.specs.Ahead.{past_piece};
ghost use Rattle.wtp_connection.specs.Streams.{known_by_stream};
ghost use Rattle.wtp_frames.specs.Start.{message_reader};

pub mod words;

use crate::connection::Known;
use crate::instructions::DecoderPlace;
use vesgrauf_registry::streams::{StreamContent, find_stream};
use wtp_core::varint::first_varint;
use wtp_frames::endpoint::{Endpoint, Side};
use wtp_frames::fault::Fault;
use wtp_frames::reader::Reader;

/// What a stream of the peer is for.
#[derive(Clone, Copy)]
pub enum Purpose {
    /// The control stream.
    Control,
    /// A push.
    Push,
    /// The encoder stream of QPACK.
    Encoder,
    /// The decoder stream of QPACK.
    Decoder,
    /// A stream of a WebTransport session, with its ID.
    Session(u64),
    /// A stream with an invalid session ID.
    InvalidSession,
    /// A request, on a stream that a client opened.
    Message,
    /// A bidirectional stream that a server may not open.
    Foreign,
    /// A stream of an unknown or a reserved type.
    Ignored,
}

impl Purpose {
    // Returns whether a stream for this may not be closed.
    pub(crate) fn is_critical(self) -> bool
        ensures { result ≡ is_for_critical self }
    {
        matches!(self, Purpose::Control | Purpose::Encoder | Purpose::Decoder)
    }
}

/// The state of one stream. It holds no bytes.
#[derive(Drop)]
pub enum Stream {
    /// A unidirectional stream of the peer, before its type.
    Uni,
    /// A bidirectional stream of the peer, before its first number.
    Bi,
    /// A stream of frames, and whether it had a frame that is no DATA: SETTINGS of a control stream,
    /// HEADERS of a message.
    Frames(Reader, bool),
    /// A stream of this session, for which [`join`](crate::connection::Connection::join) was not
    /// called yet.
    Joining(u64),
    /// A stream of this session, which is to come. Its bytes wait.
    Waiting(u64),
    /// A stream of this session. Its bytes are the application's.
    Session(u64),
    /// The encoder stream of QPACK.
    Encoder,
    /// The decoder stream of QPACK.
    Decoder(DecoderPlace),
    /// A stream of an unknown type. Its bytes are discarded.
    Ignored,
    /// A message of which no HEADERS will come: its stream ended, was reset or was not read further
    /// before them. Its bytes are discarded.
    Incomplete,
    /// A stream that has ended or has an error. Its bytes are discarded.
    Over,
}

impl Stream {
    /// Creates the state of a stream that the peer opened, by its ID (RFC 9000, section 2.1). With
    /// [`accept`](crate::connection::Connection::accept) a server also remembers which requests have
    /// begun.
    pub fn of_peer(id: u64) -> Self
        ensures { result ≡ stream_of id }
    {
        if id % 4 >= 2 { Stream::Uni } else { Stream::Bi }
    }

    /// Creates the state of the peer's half of a request stream that was opened here: the response
    /// to it.
    pub fn of_request(endpoint: Endpoint) -> Self
        ensures { result ≡ Stream.Frames (message_reader endpoint) false }
    {
        Stream::Frames(Reader::message(endpoint), false)
    }

    /// Creates the state of the peer's half of a bidirectional stream that was opened here for this
    /// session. It has no header.
    pub fn of_session(session: u64) -> Self
        ensures { result ≡ Stream.Session session }
    {
        Stream::Session(session)
    }

    /// Returns the session that the stream waits for. Its bytes are to be passed again once
    /// [`join`](crate::connection::Connection::join) says what became of it.
    pub fn waits(&self) -> Option<u64>
        ensures { result ≡ waits_for self.now }
    {
        match self {
            Stream::Waiting(session) => Some(*session),
            _ => None,
        }
    }

    /// Says that the HEADERS that [`receive`](crate::connection::Connection::receive) returned are
    /// those of a CONNECT request that is answered with a 2xx status, or of that response: of the
    /// frames that are known DATA alone may follow, and any other one is `FrameUnexpected`, at its
    /// head (RFC 9114, section 4.4). Nothing changes before HEADERS, after trailers, and on a stream
    /// that is none of frames.
    pub fn tunnel(&mut self)
        ensures { self.new ≡ connected self.old }
    {
        if let Stream::Frames(reader, _) = self {
            reader.tunnel();
        }
    }

    /// Goes on after a piece that is [ahead](crate::connection::Connection::data_ahead), after which so
    /// many bytes of its frame are still to come.
    #[inline(always)]
    pub fn pass(&mut self, remaining: u64)
        ensures { self.new ≡ past_piece remaining self.old }
    {
        if let Stream::Frames(reader, _) = self {
            reader.pass(remaining);
        }
    }

    /// Returns how many bytes of the payload of a frame that is returned in pieces, or skipped, are
    /// still to come: after a piece of DATA those of its frame. It is 0 of a stream that is none of
    /// frames.
    pub fn remaining(&self) -> u64
        ensures { result ≡ remaining_of self.now }
    {
        match self {
            Stream::Frames(reader, _) => reader.remaining(),
            _ => 0,
        }
    }

    // Returns whether the stream may not be closed.
    #[tactic(auto, using(crate::proofs::EndLemmas::critical_end))]
    pub(crate) fn is_critical(&self) -> bool
        ensures { result ≡ is_critical_is self.now }
    {
        match self {
            Stream::Encoder | Stream::Decoder(_) => true,
            Stream::Frames(reader, _) => is_closed(reader.finish(0)),
            _ => false,
        }
    }

    // Returns whether the stream is a bidirectional one that the peer may not open.
    pub(crate) fn is_forbidden(&self, endpoint: Endpoint) -> bool
        ensures { result ≡ is_forbidden_is endpoint self.now }
    {
        match self {
            Stream::Bi => !allows_bidirectional(endpoint),
            _ => false,
        }
    }

    // Returns what the stream says of the session with its ID.
    pub(crate) fn known_session(&self) -> Known
        ensures { result ≡ known_by_stream self.now }
    {
        match self {
            Stream::Over => Known::Over,
            Stream::Incomplete => Known::Refused,
            Stream::Bi => Known::Coming,
            Stream::Frames(_, _) => {
                if self.is_critical() {
                    Known::Impossible
                } else {
                    Known::Coming
                }
            }
            _ => Known::Impossible,
        }
    }

    // Returns whether no HEADERS of the message came.
    pub(crate) fn has_no_headers(&self) -> bool
        ensures { result ≡ has_no_headers_is self.now }
    {
        matches!(self, Stream::Bi | Stream::Frames(_, false))
    }

    // Returns the state of the stream when it is over.
    pub(crate) fn when_over(&self) -> Self
        ensures { result ≡ over_from self.now }
    {
        match self {
            Stream::Bi | Stream::Frames(_, false) | Stream::Incomplete => Stream::Incomplete,
            _ => Stream::Over,
        }
    }

    // Returns the state of a stream after this error at its end.
    pub(crate) fn ended_by(fault: Fault) -> Self
        ensures { result ≡ over_by fault }
    {
        match fault {
            Fault::RequestIncomplete => Stream::Incomplete,
            _ => Stream::Over,
        }
    }
}

/// Returns whether the peer may open bidirectional streams: a client may, and a server if WebTransport is
/// enabled (RFC 9114, section 6.1).
fn allows_bidirectional(endpoint: Endpoint) -> bool
    ensures { result ≡ allows_bidirectional_is endpoint }
{
    match endpoint.side {
        Side::Client => endpoint.webtransport,
        Side::Server => true,
    }
}

/// Returns what the end of a bidirectional stream is after these bytes, before it is known what it is
/// for.
#[tactic(auto, using(crate::proofs::OpeningLemmas::unopened))]
pub(crate) fn unopened_end(endpoint: Endpoint, left: &[u8]) -> Result<(), Fault>
    ensures { result ≡ end_unopened endpoint left.now }
{
    if !allows_bidirectional(endpoint) {
        return Err(Fault::StreamCreation);
    }
    if first_varint(left).is_some() {
        return Err(Fault::Frame);
    }
    match (endpoint.side, left.is_empty()) {
        (Side::Client, true) => Ok(()),
        (Side::Client, false) => Err(Fault::StreamCreation),
        (Side::Server, true) => Err(Fault::RequestIncomplete),
        (Side::Server, false) => Err(Fault::Frame),
    }
}

// Returns whether this is the error of a stream that may not be closed.
fn is_closed(end: Result<(), Fault>) -> bool
    ensures { result ≡ is_closed_is end }
{
    match end {
        Err(Fault::ClosedCriticalStream) => true,
        _ => false,
    }
}

/// Returns what a unidirectional stream is for, and the size of what says so.
#[tactic(auto, unfolding(crate::specs::Opening::uni_at))]
pub(crate) fn uni_opening(endpoint: Endpoint, bytes: &[u8]) -> Option<(Purpose, usize)>
    ensures opening { MatchOption result (uni_at endpoint bytes.now ≡ None)
        (λ o. uni_at endpoint bytes.now ≡ Some (o.0, drop o.1 bytes.now)) }
    ensures within { IfSome result (λ o. o.1 ≤ length bytes.now) }
{
    match first_varint(bytes) {
        None => None,
        Some((number, first)) => {
            if is_session(number.into_inner()) && endpoint.webtransport {
                session_after(bytes, first)
            } else {
                Some((purpose_of(number.into_inner()), first))
            }
        }
    }
}

/// The same of a bidirectional stream. Of a request no byte is consumed.
#[tactic(auto, unfolding(crate::specs::Opening::bi_at))]
pub(crate) fn bi_opening(endpoint: Endpoint, bytes: &[u8]) -> Option<(Purpose, usize)>
    ensures opening { MatchOption result (bi_at endpoint bytes.now ≡ None)
        (λ o. bi_at endpoint bytes.now ≡ Some (o.0, drop o.1 bytes.now)) }
    ensures within { IfSome result (λ o. o.1 ≤ length bytes.now) }
{
    if !allows_bidirectional(endpoint) {
        return forbidden_opening(bytes);
    }
    match first_varint(bytes) {
        None => None,
        Some((number, first)) => {
            if number.into_inner() == 0x41 && endpoint.webtransport {
                session_after(bytes, first)
            } else {
                Some((frames_for(endpoint.side), 0))
            }
        }
    }
}

// Returns what a stream that may not be opened is for, once it has a byte.
#[tactic(auto, using(crate::proofs::OpeningLemmas::forbidden))]
fn forbidden_opening(bytes: &[u8]) -> Option<(Purpose, usize)>
    ensures opening { MatchOption result (forbidden_at bytes.now ≡ None)
        (λ o. forbidden_at bytes.now ≡ Some (o.0, drop o.1 bytes.now)) }
    ensures within { IfSome result (λ o. o.1 ≤ length bytes.now) }
{
    if bytes.is_empty() {
        None
    } else {
        Some((Purpose::Foreign, 0))
    }
}

// Returns whether a session ID follows this type. Its row is found when this is compiled, since its
// number is a constant.
#[tactic(auto, using(crate::proofs::RowLemmas::session_is))]
fn is_session(number: u64) -> bool
    ensures { result ≡ (number == 0x54) }
{
    number == 0x54 && is_session_row(0x54)
}

// Returns whether a session ID follows the type with this row.
fn is_session_row(number: u64) -> bool
    ensures { result ≡ is_session_row number }
{
    match find_stream(number) {
        Some(row) => matches!(row.columns.content, StreamContent::Session),
        None => false,
    }
}

// Returns the purpose of this type. The row of each type that has one here is found when this is
// compiled, since its number is a constant.
#[tactic(auto, using(crate::proofs::RowLemmas::purpose_is))]
fn purpose_of(number: u64) -> Purpose
    ensures { result ≡ type_purpose number }
{
    match number {
        0x00 => purpose_row(0x00),
        0x01 => purpose_row(0x01),
        0x02 => purpose_row(0x02),
        0x03 => purpose_row(0x03),
        _ => Purpose::Ignored,
    }
}

// Returns the purpose of the type with this row.
fn purpose_row(number: u64) -> Purpose
    ensures { result ≡ purpose_row number }
{
    match find_stream(number) {
        Some(row) => purpose_in(row.columns.content),
        None => Purpose::Ignored,
    }
}

// Returns the purpose of a stream with this content. Without WebTransport that of a session is of an
// unknown type.
fn purpose_in(content: StreamContent) -> Purpose
    ensures { result ≡ purpose_in content }
{
    match content {
        StreamContent::Control => Purpose::Control,
        StreamContent::Push => Purpose::Push,
        StreamContent::Encoder => Purpose::Encoder,
        StreamContent::Decoder => Purpose::Decoder,
        _ => Purpose::Ignored,
    }
}

// Returns the purpose of a bidirectional stream that belongs to no session.
fn frames_for(side: Side) -> Purpose
    ensures { result ≡ frames_purpose side }
{
    match side {
        Side::Client => Purpose::Foreign,
        Side::Server => Purpose::Message,
    }
}

// Returns the session whose ID is after the first bytes.
#[tactic(auto, using(crate::proofs::OpeningLemmas::sessions))]
fn session_after(bytes: &[u8], first: usize) -> Option<(Purpose, usize)>
    requires { first ≤ length bytes.now }
    ensures opening { MatchOption result (with_session (number_at (drop first bytes.now)) ≡ None)
        (λ o. with_session (number_at (drop first bytes.now)) ≡ Some (o.0, drop o.1 bytes.now)) }
    ensures within { IfSome result (λ o. o.1 ≤ length bytes.now) }
{
    match first_varint(bytes.split_at(first).1) {
        None => None,
        Some((number, second)) => {
            let session = number.into_inner();
            if session % 4 == 0 {
                Some((Purpose::Session(session), first + second))
            } else {
                Some((Purpose::InvalidSession, first + second))
            }
        }
    }
}
