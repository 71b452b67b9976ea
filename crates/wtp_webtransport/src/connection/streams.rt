//! Streams of sessions, streams that end before their last byte, and datagrams.
ghost use Rattle.std.specs.Prelude.{◌≡◌, Ok, Err, MatchResult, option_map};
ghost use Rattle.wtp_webtransport.specs.Events.{told_of};
ghost use Rattle.wtp_webtransport.specs.Joining.{joins, resets, reset_told, stops_half, abandons, overflows, joining_of, joined_told, stops, takes, after_datagram, rejects, is_request as is_request_is, is_beyond as is_beyond_is};

use crate::connection::Connection;
use crate::event::{Event, Waits};
use crate::fault::Fault;
use crate::stream::{Part, Stream};
use wtp_connection::connection::Known;
use wtp_connection::stream::{Purpose, Stream as Frames};
use wtp_core::error::ErrorScope;
use wtp_frames::endpoint::Side;

impl Connection {
    /// Says what is known of the session of a stream: after [`Event::Joins`], and when that changes.
    ///
    /// Returns `Joined` once the session is open: the bytes of the stream follow. Returns `Waits` if
    /// the session is to come: the bytes of the stream are to be passed again after the call that says
    /// what became of it. Returns `StreamError` if the session is over or refused, and if 16 streams
    /// wait already, and `ConnectionError` if no session can have the ID. A request that asked for no
    /// session (`Known::Other`) is a `StreamError` at a server, and a `ConnectionError` at a client,
    /// which knows what it asked for. A stream that has joined its session before heeds `Known::Over`
    /// alone. Otherwise nothing changes, and it returns `More`.
    pub fn join(&mut self, stream: &mut Stream, known: Known) -> Event<'static>
        ensures { (told_of result, self.new, stream.new) ≡ joins self.old stream.old known }
    {
        if self.over {
            return Event::More;
        }
        let before = joining(&stream.frames);
        match self.streams.join(&mut stream.frames, known) {
            Some(fault) => self.close(Fault::Streams(fault)),
            None => joined(before, &stream.frames),
        }
    }

    /// Says that the peer reset a stream. Its bytes that were not returned are lost, and the stream
    /// is over.
    ///
    /// Returns `SessionLost` if it is the own stream of an open session, and otherwise `Reset`.
    /// `ConnectionError` is for the control stream (RFC 9114, section 6.2.1), those of QPACK (RFC 9204,
    /// section 4.2), and a bidirectional stream of a server where WebTransport is not enabled (RFC 9114,
    /// section 6.1). After the last event of the stream, and after an error of the connection,
    /// it returns `More`, and nothing changes. [`Stream::application_code`] has the code of the
    /// application, for a stream of a session.
    pub fn reset(&mut self, stream: &mut Stream) -> Event<'static>
        ensures { (told_of result, self.new, stream.new) ≡ resets self.old stream.old }
    {
        if self.over || stream.is_done() {
            return Event::More;
        }
        let held = stream.holds_session();
        match self.streams.reset(&mut stream.frames) {
            Some(fault) => match fault.scope() {
                ErrorScope::Stream => {
                    stream.end();
                    was_reset(held, Some(Fault::Streams(fault)))
                }
                _ => self.close(Fault::Streams(fault)),
            },
            None => {
                stream.end();
                was_reset(held, None)
            }
        }
    }

    /// Says that the peer asked to stop the own half of a bidirectional stream (STOP_SENDING). The
    /// own half is to be reset (RFC 9000, section 3.5).
    ///
    /// Returns `SessionLost` if it is the own stream of an open session, which ends by that: the
    /// stream is over. Otherwise the other half goes on, and it returns `More`.
    ///
    /// No session can follow a stop that comes before the answer to its request. A server then
    /// [abandons](Self::abandon) the stream. A client reads on, since a response counts although its
    /// request was stopped (RFC 9114, section 4.1), and abandons the stream after `SessionReady`.
    ///
    /// Of a stream that is opened in one direction see [`stopped`](Self::stopped).
    /// [`Stream::application_code`] has the code of the application, for a stream of a session.
    pub fn stop(&mut self, stream: &mut Stream) -> Event<'static>
        ensures { (told_of result, self.new, stream.new) ≡ stops_half self.old stream.old }
    {
        if !stream.holds_session() {
            return Event::More;
        }
        self.abandon(stream)
    }

    /// Ends the reading of a stream, for a reason of the application. The stream is over: its bytes
    /// are discarded. The control stream and those of QPACK stay as they are: the peer must not be
    /// asked to close them (RFC 9114, section 6.2.1; RFC 9204, section 4.2).
    ///
    /// Returns `SessionLost` if it is the own stream of an open session, and otherwise `More`. To close
    /// a session write the capsule and the end, and then abandon its stream: [`known`](Self::known) is
    /// `Over` from then on. After an error of the connection nothing changes.
    pub fn abandon(&mut self, stream: &mut Stream) -> Event<'static>
        ensures { (told_of result, self.new, stream.new) ≡ abandons self.old stream.old }
    {
        if self.over {
            return Event::More;
        }
        let held = stream.holds_session();
        stream.end();
        self.streams.abandon(&mut stream.frames);
        if held {
            Event::SessionLost
        } else {
            Event::More
        }
    }

    /// Says, at a server, that the stream with this ID came, where `goaway` is the ID in the last GOAWAY
    /// that this endpoint sent. Call it after [`Event::Opened`] with a message, and before the answer for
    /// each request that goes on when GOAWAY is sent.
    ///
    /// Returns `StreamError`, with the code H3_REQUEST_REJECTED, if the stream is a request from that ID
    /// on that is not complete: the client may send it again on another connection (RFC 9114, sections
    /// 4.1.1 and 5.2). Its bytes are discarded. Otherwise it returns `More`, and nothing changes: also if
    /// the stream belongs to a session, and after an error of the connection.
    ///
    /// A request whose `End` was returned is the caller's to reject. One that was processed must not be
    /// rejected, and the connection does not know which were: do not call this after the answer.
    pub fn reject(&mut self, stream: &mut Stream, id: u64, goaway: Option<u64>) -> Event<'static>
        ensures { (told_of result, self.new, stream.new) ≡ rejects self.old stream.old id goaway }
    {
        if self.over || !is_request(self.endpoint.side, stream.part) || !is_beyond(goaway, id) {
            return Event::More;
        }
        stream.end();
        self.streams.abandon(&mut stream.frames);
        Event::StreamError(Fault::Rejected)
    }

    /// Says that more bytes of a stream wait than the caller keeps. The stream is over: its bytes are
    /// discarded.
    ///
    /// Returns `StreamError`, with the code WEBTRANSPORT_BUFFERED_STREAM_REJECTED, if the stream waits
    /// for its session (draft-ietf-webtrans-http3-02, section 4.5), and otherwise `ConnectionError`, with
    /// H3_EXCESSIVE_LOAD (RFC 9114, section 10.5). If the stream is over, and after an error of the
    /// connection, it returns `More`, and nothing changes.
    pub fn overflow(&mut self, stream: &mut Stream) -> Event<'static>
        ensures { (told_of result, self.new, stream.new) ≡ overflows self.old stream.old }
    {
        if self.over {
            return Event::More;
        }
        match self.streams.overflow(&mut stream.frames) {
            None => Event::More,
            Some(fault) => self.close(Fault::Streams(fault)),
        }
    }

    /// Says that the peer asked to stop a stream that was opened here (STOP_SENDING). `own` is what
    /// that stream is for; of the own half of a bidirectional stream [`stop`](Self::stop) says what
    /// comes of its session. If there is no error, the own half is to be reset (RFC 9000, section 3.5);
    /// the other half goes on, and what else to do is the application's.
    ///
    /// # Errors
    ///
    /// `ClosedCriticalStream`, which ends the connection, if it is the own control stream (RFC 9114,
    /// section 6.2.1) or one of QPACK (RFC 9204, section 4.2). None after an error of the connection.
    pub fn stopped(&mut self, own: Purpose) -> Option<Fault>
        ensures { (self.new, result) ≡ stops self.old own }
    {
        if self.over {
            return None;
        }
        match self.streams.stopped(own) {
            Some(fault) => {
                self.close(Fault::Streams(fault));
                Some(Fault::Streams(fault))
            }
            None => None,
        }
    }

    /// Returns the session of a datagram and its payload, which may be empty. `bytes` is the payload
    /// of a QUIC datagram. [`known`](Self::known) says what is known of the session, and
    /// [`Known::datagram_for`] what is to be done with the datagram.
    ///
    /// Returns `None`, and the datagram is to be dropped, if the own SETTINGS do not enable datagrams
    /// ([`Endpoint::datagrams`](wtp_frames::endpoint::Endpoint)), and after an error of the
    /// connection.
    ///
    /// # Errors
    ///
    /// `Datagram`, which ends the connection, if it does not begin with a complete number, or if that
    /// number is 2^60 or more (RFC 9297, section 2.1).
    pub fn datagram<'a>(&mut self, bytes: &'a [u8]) -> Result<Option<(u64, &'a [u8])>, Fault>
        ensures taken { MatchResult result
            (λ d. takes self.old bytes.now ≡ Ok (option_map (λ p. (p.0, p.1.now)) d))
            (λ f. takes self.old bytes.now ≡ Err f) }
        ensures connection { self.new ≡ after_datagram self.old bytes.now }
    {
        if self.over {
            return Ok(None);
        }
        match self.streams.datagram(bytes) {
            Ok(datagram) => Ok(datagram),
            Err(fault) => {
                self.close(Fault::Streams(fault));
                Err(Fault::Streams(fault))
            }
        }
    }
}

// Returns the event of a reset. `held`: the stream has an open session.
fn was_reset(held: bool, fault: Option<Fault>) -> Event<'static>
    ensures { told_of result ≡ reset_told held fault }
{
    if held {
        Event::SessionLost
    } else {
        Event::Reset(fault)
    }
}

// Returns whether a stream is a request that goes on, at a server.
fn is_request(side: Side, part: Part) -> bool
    ensures { result ≡ is_request_is side part }
{
    match (side, part) {
        (Side::Server, Part::Head(_) | Part::Unanswered(_, _) | Part::Body(_)) => true,
        _ => false,
    }
}

// Returns whether a request comes after the last one that is processed.
fn is_beyond(goaway: Option<u64>, id: u64) -> bool
    ensures { result ≡ is_beyond_is goaway id }
{
    match goaway {
        Some(first) => id >= first,
        None => false,
    }
}

// Returns the session of a stream that is not joined with it yet.
fn joining(frames: &Frames) -> Option<u64>
    ensures { result ≡ joining_of frames.now }
{
    match frames {
        Frames::Joining(session) | Frames::Waiting(session) => Some(*session),
        _ => None,
    }
}

// Returns what became of a stream that belonged to this session.
fn joined(before: Option<u64>, frames: &Frames) -> Event<'static>
    ensures { told_of result ≡ joined_told before frames.now }
{
    match (before, frames) {
        (Some(session), Frames::Session(_)) => Event::Joined(session),
        (Some(session), Frames::Waiting(_)) => Event::Waits(Waits::Session(session)),
        _ => Event::More,
    }
}
