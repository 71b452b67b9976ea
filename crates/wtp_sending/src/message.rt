//! The sending side of a message's stream (RFC 9114, sections 4.1 and 4.4).
ghost use Rattle.std.specs.Prelude.{◌≡◌, ◌<◌, ◌^◌, Ok, Err, OnOk, OnErr, IfErr, MatchResult, length, nat_le, true, false};
ghost use Rattle.wtp_qpack.specs.FieldSection.{shortest_section};
ghost use Rattle.wtp_fields.specs.FieldList.{list_size};
ghost use Rattle.wtp_messages.specs.declared.message.Role.TheVariants as role;
ghost use Rattle.wtp_messages.specs.Names.{has_value as has_value_is};
ghost use Rattle.wtp_sending.specs.Writing.{WritesAll, Fails};
ghost use Rattle.wtp_sending.specs.Message.{sending_of, headers_wire, LeadsToHead, MayBeHead, SendsHead, RefusesHead, RefusesHeaders, has_length_at};
ghost use Rattle.wtp_sending.specs.Message.{after_response as after_response_is, after_request as after_request_is, is_unsupported as is_unsupported_is};
ghost use Rattle.wtp_sending.specs.Message.{data_head, data_at, after_data, counts, after_bytes};
ghost use Rattle.wtp_sending.specs.Message.{SendsTrailers, LeadsToTrailers, RefusesTail, RefusesTrailers, LacksSection, after_end, opens, placed, Changes};
ghost use Rattle.wtp_sending.specs.Message.{of_connect};

mod encoded;
mod session;
pub mod words;

use crate::error::SendError;
use crate::peer::Peer;
use crate::write::{put_frame, put_two};
use std::alloc::Global;
use wtp_core::bytes::BytesWriter;
use wtp_core::ids::SessionId;
use wtp_core::varint::VarInt;
use wtp_fields::fields::{FieldList, left_after};
use wtp_messages::malformed::Malformed;
use wtp_messages::message::{Message, Role, Section};
use wtp_messages::response::{Asked, Response};
use wtp_wire::frame::{GenerateError, frame_kind_ids};

/// How much of a message was sent.
#[derive(Clone, Copy)]
enum Place {
    /// So many interim responses.
    Head(u8),
    /// The head, and any part of the content.
    Content,
    /// A CONNECT request that is not answered, which asks for a session or does not.
    Connecting(bool),
    /// Such a request and its 2xx response: bytes of any kind follow.
    Tunnel,
    /// The same for a session: capsules follow.
    Session,
    /// The trailers.
    Trailers,
    /// The end.
    Ended,
}

/// The sending side of the stream of a request: at a client the request, and at a server the
/// response. It has no bytes.
#[derive(Clone, Copy)]
pub struct Sending {
    id: SessionId,
    role: Role,
    peer: Peer,
    message: Message,
    place: Place,
    /// How many bytes of the last DATA frame are still to be sent.
    owed: u64,
}

impl Sending {
    /// Creates the sending side of a request's stream, at a client. The stream's ID is that of a
    /// bidirectional stream of a client.
    pub fn request(id: SessionId, peer: Peer) -> Self
        ensures { result ≡ sending_of id (role.Request peer.extended_connect) peer }
    {
        Sending::new(id, Role::Request(peer.extended_connect), peer)
    }

    /// Creates the sending side of the stream of a request that asked for this, at a server.
    pub fn response(id: SessionId, asked: Asked, peer: Peer) -> Self
        ensures { result ≡ sending_of id (role.Response asked) peer }
    {
        Sending::new(id, Role::Response(asked), peer)
    }

    fn new(id: SessionId, role: Role, peer: Peer) -> Self
        ensures { result ≡ sending_of id role peer }
    {
        Sending {
            id,
            role,
            peer,
            message: Message::new(role),
            place: Place::Head(0),
            owed: 0,
        }
    }

    /// Returns how many bytes of the last DATA frame are still to be sent.
    pub fn owed(&self) -> u64
        ensures { result ≡ self.now.owed }
    {
        self.owed
    }

    /// Writes HEADERS: those of a request, of an interim response, or of the final one. The fields
    /// are checked by the rules of their message and written in their order (RFC 9114, sections 4.1
    /// to 4.4).
    ///
    /// # Errors
    ///
    /// Nothing is written and nothing changes. The error is the first of those of
    /// [`Sending::check_headers`], if it has one. Otherwise it is [`SendError::TooLarge`] if the
    /// section has 2^62 bytes or more, [`SendError::EndOfBuffer`], or [`SendError::Memory`].
    pub fn headers<W: BytesWriter>(
        &mut self,
        alloc: Global,
        list: &FieldList,
        out: &mut W,
    ) -> Result<(), SendError>
        ensures sent { OnOk result (SendsHead self.old list.now self.new) }
        ensures refused { IfErr result (λ e. RefusesHeaders self.old list.now (W.room out.old) e) }
        ensures kept { OnErr result (self.new ≡ self.old) }
        ensures written { WritesAll (headers_wire list.now) result (W.written out.old)
            (W.room out.old) (W.written out.new) (W.room out.new) }
        ensures target { W.target out.new ≡ W.target out.old }
    {
        match self.head(list) {
            Ok((message, place)) => match put_section(alloc, list, out) {
                Ok(()) => {
                    self.message = message;
                    self.place = place;
                    Ok(())
                }
                Err(error) => Err(error),
            },
            Err(error) => Err(error),
        }
    }

    /// Checks that these fields may be sent by [`Sending::headers`] now, whatever memory and space
    /// there are.
    ///
    /// # Errors
    ///
    /// Of several reasons the first is returned: [`SendError::Unexpected`] after the head of the
    /// message; [`SendError::TooLarge`] if the section is larger than the peer accepts;
    /// [`SendError::Malformed`] with a rule that it breaks, also that of a `content-length` that a
    /// server must not send (RFC 9110, section 8.6); [`SendError::Unsupported`] if it asks for a
    /// session that the peer does not support, and [`SendError::TooManyInterim`] after 64 interim
    /// responses, as many as `wtp_frames` reads.
    pub fn check_headers(&self, list: &FieldList) -> Result<(), SendError>
        ensures { MatchResult result (λ u. MayBeHead self.now list.now)
            (λ e. RefusesHead self.now list.now e) }
    {
        match self.head(list) {
            Ok(_) => Ok(()),
            Err(error) => Err(error),
        }
    }

    /// Takes the head of the message. Returns the message and the place after it.
    fn head(&self, list: &FieldList) -> Result<(Message, Place), SendError>
        ensures { MatchResult result (λ x. LeadsToHead self.now list.now x.0 x.1)
            (λ e. RefusesHead self.now list.now e) }
    {
        let Place::Head(interims) = self.place else {
            return Err(SendError::Unexpected);
        };
        if self.message.has_head() {
            return Err(SendError::Unexpected);
        }
        if !fits(list, self.peer.max_section) {
            return Err(SendError::TooLarge);
        }
        let mut message = self.message;
        let place = match message.section(list)? {
            Section::Request(_) if is_unsupported(list, &self.peer) => {
                return Err(SendError::Unsupported);
            }
            Section::Request(_) => after_request(list),
            Section::Interim(response) => {
                check_sent(self.role, list, &response)?;
                if interims > 63 {
                    return Err(SendError::TooManyInterim);
                }
                Place::Head(interims + 1)
            }
            Section::Response(response) => {
                check_sent(self.role, list, &response)?;
                after_response(self.role, response.status)
            }
            Section::Trailers => return Err(SendError::Unexpected),
        };
        Ok((message, place))
    }

    /// Writes the head of a DATA frame with `len` bytes, which are to be sent after it:
    /// [`Sending::sent`] counts them (RFC 9114, section 7.2.1).
    ///
    /// # Errors
    ///
    /// Nothing is written and nothing changes. [`SendError::Unexpected`] before the head of the
    /// message and after its trailers, and on a CONNECT stream that is not a tunnel;
    /// [`SendError::DataMissing`] if bytes of the last DATA frame are still to be sent;
    /// [`SendError::EmptyData`] if `len` is 0; [`SendError::TooLarge`] from 2^62 on;
    /// [`SendError::Malformed`] for more content than `content-length` announced;
    /// [`SendError::EndOfBuffer`]; and [`SendError::Memory`] if the writer grows and allocation
    /// fails.
    pub fn data<W: BytesWriter>(&mut self, len: u64, out: &mut W) -> Result<(), SendError>
        ensures sent { OnOk result (after_data self.old len ≡ Ok self.new) }
        ensures refused { IfErr result (λ e. Fails (after_data self.old len) W.grows
            (W.room out.old) (length (data_head len)) e) }
        ensures kept { OnErr result (self.new ≡ self.old) }
        ensures written { WritesAll (data_head len) result (W.written out.old) (W.room out.old)
            (W.written out.new) (W.room out.new) }
        ensures target { W.target out.new ≡ W.target out.old }
    {
        let Ok(length) = VarInt::try_from_u64(len) else {
            return Err(SendError::TooLarge);
        };
        let next = self.announced(len)?;
        put_two(frame_kind_ids::DATA, length, out)?;
        *self = next;
        Ok(())
    }

    /// Returns the state after the head of a DATA frame with `len` bytes.
    fn announced(&self, len: u64) -> Result<Self, SendError>
        ensures { result ≡ data_at self.now len }
    {
        if self.owed > 0 {
            return Err(SendError::DataMissing);
        }
        if len == 0 {
            return Err(SendError::EmptyData);
        }
        match self.place {
            Place::Content => self.counted(len),
            Place::Tunnel => Ok(Sending { owed: len, ..*self }),
            _ => Err(SendError::Unexpected),
        }
    }

    /// Returns the state after so many bytes of content are announced.
    fn counted(&self, len: u64) -> Result<Self, SendError>
        ensures { result ≡ counts self.now len }
    {
        let mut message = self.message;
        match message.data(len) {
            Ok(()) => Ok(Sending {
                message,
                owed: len,
                ..*self
            }),
            Err(rule) => Err(SendError::Malformed(rule)),
        }
    }

    /// Counts `len` bytes of the last DATA frame as sent.
    ///
    /// # Errors
    ///
    /// [`SendError::DataExceeded`] if fewer are still to be sent. Nothing changes then.
    pub fn sent(&mut self, len: u64) -> Result<(), SendError>
        ensures { Changes (after_bytes self.old len) result self.old self.new }
    {
        if len > self.owed {
            return Err(SendError::DataExceeded);
        }
        self.owed -= len;
        Ok(())
    }

    /// Writes the trailers, which are checked and written as `headers` does it.
    ///
    /// # Errors
    ///
    /// Nothing is written and nothing changes. Of several reasons the first is returned:
    /// [`SendError::Unexpected`] before the head of the message, after its trailers, and on the
    /// stream of a CONNECT; [`SendError::DataMissing`] if bytes of the last DATA frame are still to
    /// be sent; [`SendError::TooLarge`] if the section is larger than the peer accepts;
    /// [`SendError::Malformed`] if there is less content than `content-length` announced, and with a
    /// rule that the trailers break; and then those of a frame that is not written, as in
    /// [`Sending::headers`].
    pub fn trailers<W: BytesWriter>(
        &mut self,
        alloc: Global,
        list: &FieldList,
        out: &mut W,
    ) -> Result<(), SendError>
        ensures sent { OnOk result (SendsTrailers self.old list.now self.new) }
        ensures refused { IfErr result (λ e. RefusesTrailers self.old list.now (W.room out.old) e) }
        ensures kept { OnErr result (self.new ≡ self.old) }
        ensures written { WritesAll (headers_wire list.now) result (W.written out.old)
            (W.room out.old) (W.written out.new) (W.room out.new) }
        ensures target { W.target out.new ≡ W.target out.old }
    {
        match self.tail(list) {
            Ok(message) => match put_section(alloc, list, out) {
                Ok(()) => {
                    self.message = message;
                    self.place = Place::Trailers;
                    Ok(())
                }
                Err(error) => Err(error),
            },
            Err(error) => Err(error),
        }
    }

    /// Takes the trailers. Returns the message after them.
    fn tail(&self, list: &FieldList) -> Result<Message, SendError>
        ensures { MatchResult result (λ m. LeadsToTrailers self.now list.now m)
            (λ e. RefusesTail self.now list.now e) }
    {
        let Place::Content = self.place else {
            return Err(SendError::Unexpected);
        };
        if self.owed > 0 {
            return Err(SendError::DataMissing);
        }
        if !fits(list, self.peer.max_section) {
            return Err(SendError::TooLarge);
        }
        self.message.finish()?;
        let mut message = self.message;
        let Section::Trailers = message.section(list)? else {
            return Err(SendError::Unexpected);
        };
        Ok(message)
    }

    /// Ends the message: the stream is to be ended with the last bytes that were written.
    ///
    /// # Errors
    ///
    /// Nothing changes. [`SendError::DataMissing`] if bytes of the last DATA frame are still to be
    /// sent; [`SendError::Malformed`] before the head of the message, and if there is less content
    /// than `content-length` announced; [`SendError::Unexpected`] after the end.
    pub fn finish(&mut self) -> Result<(), SendError>
        ensures { Changes (after_end self.old) result self.old self.new }
    {
        if self.owed > 0 {
            return Err(SendError::DataMissing);
        }
        match self.place {
            Place::Head(_) => return Err(SendError::Malformed(Malformed::MissingHead)),
            Place::Content | Place::Trailers => {
                if let Err(rule) = self.message.finish() {
                    return Err(SendError::Malformed(rule));
                }
            }
            Place::Connecting(_) | Place::Tunnel | Place::Session => {}
            Place::Ended => return Err(SendError::Unexpected),
        }
        self.place = Place::Ended;
        Ok(())
    }

    /// Opens the tunnel or the session, at a client: a 2xx response to the CONNECT request of this
    /// stream came. After any other response nothing but the end may be sent.
    ///
    /// # Errors
    ///
    /// [`SendError::Unexpected`] on any other stream, and after the first call. Nothing changes
    /// then.
    pub fn connected(&mut self) -> Result<(), SendError>
        ensures { Changes (placed self.old (opens self.old.place)) result self.old self.new }
    {
        let Place::Connecting(session) = self.place else {
            return Err(SendError::Unexpected);
        };
        self.place = if session {
            Place::Session
        } else {
            Place::Tunnel
        };
        Ok(())
    }

    /// Returns whether this is a CONNECT request that is not answered, or its tunnel or session.
    pub fn is_connect(&self) -> bool
        ensures { result ≡ of_connect self.now.place }
    {
        matches!(
            self.place,
            Place::Connecting(_) | Place::Tunnel | Place::Session
        )
    }
}

/// Writes the HEADERS frame of a list.
fn put_section<W: BytesWriter>(
    alloc: Global,
    list: &FieldList,
    out: &mut W,
) -> Result<(), SendError>
    ensures written { WritesAll (headers_wire list.now) result (W.written out.old)
        (W.room out.old) (W.written out.new) (W.room out.new) }
    ensures lacks { IfErr result (λ e. LacksSection list.now (W.room out.old) e) }
    ensures framed { OnOk result (length (shortest_section list.now) < 2 ^ 62) }
    ensures target { W.target out.new ≡ W.target out.old }
{
    match list.generate_frame(alloc) {
        Ok(frame) => put_frame(alloc, &frame, out),
        Err(GenerateError::Memory) => Err(SendError::Memory),
        Err(GenerateError::PayloadTooLong) => Err(SendError::TooLarge),
    }
}

/// Checks that a response may be sent to the request with this role, as [`Response::check_sent`] does.
fn check_sent(role: Role, list: &FieldList, response: &Response) -> Result<(), Malformed>
    ensures { MatchResult result (λ u. has_length_at role list.now response.now.status ≡ false)
        (λ rule. (has_length_at role list.now response.now.status ≡ true)
        × (rule ≡ Malformed.InvalidContentLength)) }
{
    match role {
        Role::Request(_) => Ok(()),
        Role::Response(asked) => response.check_sent(list, asked),
    }
}

/// Returns the place after a request.
fn after_request(list: &FieldList) -> Place
    ensures { result ≡ after_request_is list.now }
{
    if has_value(list, b":method", b"CONNECT") {
        Place::Connecting(has_value(list, b":protocol", b"webtransport"))
    } else {
        Place::Content
    }
}

/// Returns the place after a final response with this status.
fn after_response(role: Role, status: u32) -> Place
    ensures { result ≡ after_response_is role status }
{
    let success = status > 199 && status < 300;
    match role {
        Role::Response(Asked::Connect) if success => Place::Tunnel,
        Role::Response(Asked::Session) if success => Place::Session,
        _ => Place::Content,
    }
}

/// Returns whether a request asks for a session that the peer does not support.
fn is_unsupported(list: &FieldList, peer: &Peer) -> bool
    ensures { result ≡ is_unsupported_is peer.now list.now }
{
    has_value(list, b":protocol", b"webtransport") && !peer.sessions
}

/// Returns whether the first field of a name has this value.
fn has_value(list: &FieldList, name: &[u8], text: &[u8]) -> bool
    ensures { result ≡ has_value_is name.now text.now list.now }
{
    match list.first(name) {
        Some(value) => value == text,
        None => false,
    }
}

/// Returns whether the size of a list is at most the limit.
fn fits(list: &FieldList, limit: u64) -> bool
    ensures { result ≡ nat_le (list_size list.now) limit }
{
    let mut left = limit;
    let mut lines = list.iter();
    while let Some(line) = lines.next() {
        let Some(less) = left_after(left, line) else {
            return false;
        };
        left = less;
    }
    true
}
