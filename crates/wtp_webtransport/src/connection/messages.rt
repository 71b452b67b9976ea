//! Messages: their fields, content and end (RFC 9114, section 4.1).
ghost use Rattle.std.specs.Prelude.{◌≡◌, ◌≤◌, ◌<◌, ◌+◌, length};
ghost use Rattle.wtp_messages.specs.Content.{fits as fits_is};
ghost use Rattle.wtp_messages.specs.Names.{has_value as has_value_of};
ghost use Rattle.wtp_webtransport.specs.Events.{told_of};
ghost use Rattle.wtp_webtransport.specs.Receiving.{ReadGives, early_in, DataGives, taken_of, headers_given, interim_found, request_found, response_found, too_large as too_large_is, content_found, EndGives};
ghost use Rattle.wtp_webtransport.specs.Sessions.{asks_of};
ghost use Rattle.wtp_webtransport.specs.Streams.{with_message as with_message_is};

use crate::connection::{Connection, last};
use crate::event::{Event, HeadersKind, Received};
use crate::fault::Fault;
use crate::stream::{Delay, Part, Stream, Unread};
use std::alloc::Global;
use wtp_fields::fields::FieldList;
use wtp_messages::malformed::Malformed;
use wtp_messages::message::{Message, Section};
use wtp_messages::response::Asked;

impl Connection {
    // Takes the next fields of a message.
    pub(super) fn take<'a>(
        &mut self,
        stream: &mut Stream,
        message: Message,
        list: FieldList,
        span: Span,
        alloc: Global,
    ) -> Received<'a>
        ensures { ReadGives self.old stream.old message list span
            (result.consumed, told_of result.event, self.new, stream.new) }
    {
        let mut message = message;
        match section_of(message.section(&list)) {
            Taken::Request => self.request(stream, message, list, span, alloc),
            Taken::Interim(status) => self.interim(stream, status, list, span),
            Taken::Response(status) => respond(stream, message, status, list, span, alloc),
            Taken::Trailers => {
                stream.part = Part::Body(message);
                given(HeadersKind::Trailers, list, span.end)
            }
            Taken::Malformed(rule) => self.malformed(stream, rule, span.len),
        }
    }

    // Takes the header section of a request.
    fn request<'a>(
        &mut self,
        stream: &mut Stream,
        message: Message,
        list: FieldList,
        span: Span,
        alloc: Global,
    ) -> Received<'a>
        ensures { (result.consumed, told_of result.event, self.new, stream.new)
            ≡ request_found self.old stream.old message list span }
    {
        match self.asked_by(&list) {
            Asks::Plain => {
                stream.part = Part::Body(message);
                given(HeadersKind::Request, list, span.end)
            }
            Asks::Tunnel => {
                stream.part = Part::Unanswered(false, message);
                given(HeadersKind::Request, list, span.end)
            }
            Asks::TooEarly => wait(stream, span, Delay::Settings),
            Asks::Session => {
                stream.part = Part::Unanswered(true, message);
                stream.begin_capsules(alloc);
                Received {
                    consumed: span.end,
                    event: Event::SessionRequested(list),
                }
            }
        }
    }

    // Returns what a request asks for.
    fn asked_by(&self, list: &FieldList) -> Asks
        ensures { result ≡ asks_of self.now list.now }
    {
        if !has_value(list, b":method", b"CONNECT") {
            return Asks::Plain;
        }
        if !self.endpoint.webtransport || !has_value(list, b":protocol", b"webtransport") {
            return Asks::Tunnel;
        }
        if !self.configured {
            return Asks::TooEarly;
        }
        if self.allows_sessions() {
            Asks::Session
        } else {
            Asks::Tunnel
        }
    }
}

impl Connection {
    // Goes on after the section of an interim response.
    fn interim<'a>(
        &mut self,
        stream: &mut Stream,
        status: u32,
        list: FieldList,
        span: Span,
    ) -> Received<'a>
        ensures { (result.consumed, told_of result.event, self.new, stream.new)
            ≡ interim_found self.old stream.old status list span }
    {
        match self.streams.interim(&mut stream.frames) {
            None => given(HeadersKind::Interim(status), list, span.end),
            Some(fault) => self.fail(stream, Fault::Streams(fault), span.len),
        }
    }

    // Returns that a field section is larger than the limits, after `n` bytes.
    pub(super) fn too_large<'a>(
        &mut self,
        stream: &mut Stream,
        size: Option<u64>,
        n: usize,
    ) -> Received<'a>
        ensures { (result.consumed, told_of result.event, self.new, stream.new)
            ≡ too_large_is self.old stream.old size n }
    {
        if let Part::Head(_) = stream.part {
            self.streams.abandon(&mut stream.frames);
            stream.part = Part::NoMessage;
        }
        Received {
            consumed: n,
            event: Event::TooLarge(size),
        }
    }

    // Returns a piece of DATA, or of a stream of a session.
    pub(super) fn data<'a>(
        &mut self,
        stream: &mut Stream,
        start: usize,
        end: usize,
        bytes: &'a [u8],
    ) -> Received<'a>
        requires { (start < end) × (end ≤ length bytes.now) }
        ensures { DataGives self.old stream.old start end bytes.now
            (result.consumed, told_of result.event, self.new, stream.new) }
    {
        match stream.part {
            Part::Head(message) | Part::Body(message) => {
                self.content(stream, message, start, end, bytes)
            }
            Part::Session(_) => self.capsules(stream, &bytes[start..end], end, bytes.len()),
            Part::OfSession => Received {
                consumed: end,
                event: Event::StreamData(&bytes[start..end]),
            },
            _ => Received {
                consumed: end,
                event: Event::Data(&bytes[start..end]),
            },
        }
    }

    // Returns a piece of the content of a message, unless its DATA frame exceeds the announced length.
    fn content<'a>(
        &mut self,
        stream: &mut Stream,
        message: Message,
        start: usize,
        end: usize,
        bytes: &'a [u8],
    ) -> Received<'a>
        requires { (start < end) × (end ≤ length bytes.now) }
        ensures { (result.consumed, told_of result.event, self.new, stream.new)
            ≡ content_found self.old stream.old message start end bytes.now }
    {
        let mut message = message;
        let size = (end - start) as u64;
        if !fits(message.left(), size, stream.frames.remaining()) {
            return self.malformed(stream, Malformed::ContentTooLong, bytes.len());
        }
        let counted = message.data(size);
        prove!(counted.is_ok());
        stream.part = with_message(stream.part, message);
        Received {
            consumed: end,
            event: Event::Data(&bytes[start..end]),
        }
    }

    // Returns the end of a stream, if its message may end here.
    pub(super) fn finish<'a>(&mut self, stream: &mut Stream, len: usize) -> Received<'a>
        ensures { EndGives self.old stream.old len
            (result.consumed, told_of result.event, self.new, stream.new) }
    {
        match stream.part {
            Part::Head(message) | Part::Body(message) => match message.finish() {
                Ok(()) => last(stream, Event::End, len),
                Err(rule) => self.malformed(stream, rule, len),
            },
            Part::Session(_) => self.end_session(stream, len),
            _ => last(stream, Event::End, len),
        }
    }
}

/// Where a field section is in the bytes.
#[derive(Clone, Copy)]
pub(super) struct Span {
    /// The offset of its encoding.
    pub(super) start: usize,
    /// The offset of the byte after it.
    pub(super) end: usize,
    /// How many bytes there are.
    pub(super) len: usize,
}

/// What a request asks for.
#[derive(Clone, Copy)]
enum Asks {
    /// No CONNECT.
    Plain,
    /// A CONNECT without a session, or with one that this endpoint or the peer did not enable.
    Tunnel,
    /// A session, before SETTINGS of the peer came.
    TooEarly,
    /// A session.
    Session,
}

/// What the next section of a message is.
#[derive(Clone, Copy)]
enum Taken {
    /// The header section of a request.
    Request,
    /// That of an interim response, with its status.
    Interim(u32),
    /// That of a final response, with its status.
    Response(u32),
    /// The trailer section.
    Trailers,
    /// It breaks this rule.
    Malformed(Malformed),
}

// Returns what a section is.
fn section_of(section: Result<Section<'_>, Malformed>) -> Taken
    ensures { result ≡ taken_of section.entry }
{
    match section {
        Ok(Section::Request(_)) => Taken::Request,
        Ok(Section::Interim(response)) => Taken::Interim(response.status),
        Ok(Section::Response(response)) => Taken::Response(response.status),
        Ok(Section::Trailers) => Taken::Trailers,
        Err(rule) => Taken::Malformed(rule),
    }
}

// Returns that a field section came too early.
pub(super) fn wait<'a>(stream: &mut Stream, span: Span, delay: Delay) -> Received<'a>
    ensures { (result.consumed, told_of result.event, stream.new) ≡ early_in stream.old span delay }
{
    stream.unread = Unread::Early(span.end.saturating_sub(span.start), delay);
    Received {
        consumed: span.start,
        event: Event::Waits(delay.waits()),
    }
}

// Returns the event of a field section that ends at `end`.
fn given<'a>(kind: HeadersKind, list: FieldList, end: usize) -> Received<'a>
    ensures { (result.consumed, told_of result.event) ≡ headers_given kind list end }
{
    Received {
        consumed: end,
        event: Event::Headers(kind, list),
    }
}

// Returns whether the first field of a name has this value.
fn has_value(list: &FieldList, name: &[u8], text: &[u8]) -> bool
    ensures { result ≡ has_value_of name.now text.now list.now }
{
    match list.first(name) {
        Some(value) => value == text,
        None => false,
    }
}

// Takes the header section of a final response.
fn respond<'a>(
    stream: &mut Stream,
    message: Message,
    status: u32,
    list: FieldList,
    span: Span,
    alloc: Global,
) -> Received<'a>
    ensures { (result.consumed, told_of result.event, stream.new)
        ≡ response_found stream.old message status list span }
{
    let success = status >= 200 && status < 300;
    match stream.asked {
        Some(Asked::Session) if success => {
            stream.connect(true);
            stream.begin_capsules(alloc);
            Received {
                consumed: span.end,
                event: Event::SessionReady(status, list),
            }
        }
        Some(Asked::Session) => {
            stream.part = Part::Body(message);
            Received {
                consumed: span.end,
                event: Event::Rejected(status, list),
            }
        }
        Some(Asked::Connect) if success => {
            stream.connect(false);
            given(HeadersKind::Response(status), list, span.end)
        }
        _ => {
            stream.part = Part::Body(message);
            given(HeadersKind::Response(status), list, span.end)
        }
    }
}

// Returns whether what is left of an announced length is enough for a piece of a DATA frame and the
// bytes of the frame that remain after it.
pub(crate) fn fits(left: Option<u64>, piece: u64, remaining: u64) -> bool
    ensures { result ≡ fits_is left (piece + remaining) }
{
    match left {
        Some(left) => piece <= left && remaining <= left - piece,
        None => true,
    }
}

// Returns how far the stream is, with this state of its message.
fn with_message(part: Part, message: Message) -> Part
    ensures { result ≡ with_message_is part message }
{
    match part {
        Part::Head(_) => Part::Head(message),
        _ => Part::Body(message),
    }
}
