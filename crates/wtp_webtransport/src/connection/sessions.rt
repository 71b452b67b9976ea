//! The own streams of sessions, and what is known of a session (draft-ietf-webtrans-http3-02,
//! sections 3.1, 4 and 5; RFC 9297, section 3).
ghost use Rattle.std.specs.Prelude.{◌≡◌};
ghost use Rattle.wtp_connection.specs.Streams.{known_alone};
ghost use Rattle.wtp_webtransport.specs.Events.{told_of};
ghost use Rattle.wtp_webtransport.specs.Receiving.{CapsulesGive, ContentGives, SessionEndGives, goes_on_with, complete as complete_is, spoiled};
ghost use Rattle.wtp_webtransport.specs.Sessions.{allows_sessions as allows_sessions_is, known_of, known_of_message as known_of_message_is, known_of_other as known_of_other_is};

use crate::capsules::{CapsuleType, SessionCapsule};
use crate::close::Close;
use crate::connection::Connection;
use crate::event::{Event, Received};
use crate::fault::Fault;
use crate::stream::{Part, Stream};
use wtp_connection::connection::Known;
use wtp_connection::stream::Stream as Frames;
use wtp_frames::endpoint::Side;
use wtp_messages::response::Asked;
use wtp_wire::capsule::CapsuleError;

impl Connection {
    /// Returns whether the SETTINGS of the peer, if they came, and the own ones allow sessions: both
    /// enable WebTransport and datagrams, and those of the server extended CONNECT (RFC 9220, section
    /// 3). The peer may enable WebTransport by the setting of any draft that
    /// [`PeerSettings`](wtp_connection::settings::PeerSettings) knows.
    pub fn allows_sessions(&self) -> bool
        ensures { result ≡ allows_sessions_is self.now }
    {
        let peer = self.streams.peer_settings();
        let enabled = peer.enable_webtransport
            || peer.webtransport_max_sessions > 0
            || peer.wt_max_sessions > 0;
        let connects = match self.endpoint.side {
            Side::Client => peer.enable_connect_protocol,
            Side::Server => self.extended,
        };
        let own = self.endpoint.webtransport && self.endpoint.datagrams;
        self.configured && own && peer.h3_datagram && enabled && connects
    }

    /// Returns what is known of the session whose ID is that of this stream. It is `Other` while a
    /// message goes on whose request asked for something else: a datagram for it is an error of its
    /// stream (RFC 9297, section 2). After the end of such a stream it is `Refused`, at a client
    /// `Impossible`, and datagrams are dropped (RFC 9297, section 2.1).
    /// [`datagram_for`](Known::datagram_for) says which.
    pub fn known(&self, its: &Stream) -> Known
        ensures { result ≡ known_of self.now its.now }
    {
        match its.part {
            Part::Session(_) => Known::Open,
            Part::Closed(_) | Part::Ending | Part::Losing | Part::Past => Known::Over,
            Part::Unanswered(true, _) => Known::Coming,
            Part::Head(_) => match (self.endpoint.side, its.asked) {
                (Side::Server, _) | (Side::Client, Some(Asked::Session)) => Known::Coming,
                _ => self.known_of_message(its),
            },
            Part::OfSession => Known::Impossible,
            Part::NoMessage => self.known_of_other(its),
            _ => self.known_of_message(its),
        }
    }

    // Returns what is known of a session whose stream has a message instead.
    fn known_of_message(&self, its: &Stream) -> Known
        ensures { result ≡ known_of_message_is self.now its.now }
    {
        match self.endpoint.side {
            Side::Server => match &its.capsules {
                Some(_) => Known::Refused,
                None => Known::Other,
            },
            Side::Client => match its.asked {
                Some(Asked::Session) => Known::Refused,
                Some(_) => Known::Other,
                None => Known::Impossible,
            },
        }
    }

    // Returns what is known of a session whose stream has no message, or none any more.
    fn known_of_other(&self, its: &Stream) -> Known
        ensures { result ≡ known_of_other_is self.now its.now }
    {
        match (&its.frames, self.endpoint.side, its.asked) {
            (Frames::Bi, Side::Server, _) => Known::Coming,
            (_, Side::Server, _) => Known::Refused,
            (_, Side::Client, Some(Asked::Session)) => Known::Refused,
            (_, Side::Client, _) => Known::Impossible,
        }
    }

    /// Returns what is known of a session if the caller has no stream with its ID, as
    /// `wtp_connection::connection::Connection::known_without_stream`. At a client it is `Impossible`,
    /// and to [`join`](Self::join) a stream with that ends the connection: keep the [`Stream`] of each
    /// session that was asked for as long as the connection lives, or pass [`Known::Over`] yourself.
    pub fn known_without_stream(&self, session: u64) -> Known
        ensures { result ≡ known_alone self.now.streams session }
    {
        self.streams.known_without_stream(session)
    }

    // Reads content of a session of this size that could not be read before.
    pub(super) fn capsules_again<'a>(
        &mut self,
        stream: &mut Stream,
        size: usize,
        bytes: &'a [u8],
    ) -> Received<'a>
        ensures { ContentGives self.old stream.old size bytes.now
            (result.consumed, told_of result.event, self.new, stream.new) }
    {
        if bytes.len() < size {
            return Received {
                consumed: 0,
                event: Event::More,
            };
        }
        self.capsules(stream, &bytes[..size], size, bytes.len())
    }

    // Reads a piece of the content of a session, which ends at `end`.
    pub(super) fn capsules<'a>(
        &mut self,
        stream: &mut Stream,
        piece: &[u8],
        end: usize,
        len: usize,
    ) -> Received<'a>
        ensures { CapsulesGive self.old stream.old piece.now end len
            (result.consumed, told_of result.event, self.new, stream.new) }
    {
        let mut rest = piece;
        match stream.next_capsule(&mut rest) {
            Ok(None) => go_on(stream, Event::Skipped, rest.len(), end),
            Ok(Some(capsule)) => self.complete(stream, capsule, rest.len(), end, len),
            Err(CapsuleError::TooLong) => self.spoil(stream, len),
            Err(CapsuleError::Memory) => go_on(stream, Event::NoMemory, rest.len(), end),
        }
    }

    // Returns what a capsule is to its session, with `left` bytes left of the content.
    fn complete<'a>(
        &mut self,
        stream: &mut Stream,
        capsule: SessionCapsule,
        left: usize,
        end: usize,
        len: usize,
    ) -> Received<'a>
        ensures { (result.consumed, told_of result.event, self.new, stream.new)
            ≡ complete_is capsule.0 self.old stream.old capsule.1 left end len }
    {
        match capsule.kind {
            CapsuleType::Close => match Close::read(capsule) {
                Some(close) => {
                    stream.part = Part::Closed(left > 0);
                    Received {
                        consumed: end,
                        event: Event::SessionClosed(close),
                    }
                }
                None => self.spoil(stream, len),
            },
            CapsuleType::Datagram => go_on(stream, Event::Datagram(capsule.value), left, end),
            CapsuleType::Drain => go_on(stream, Event::Draining, left, end),
        }
    }

    // Ends a session's own stream, whose capsules are invalid, with all `len` bytes.
    pub(super) fn spoil<'a>(&mut self, stream: &mut Stream, len: usize) -> Received<'a>
        ensures { (result.consumed, told_of result.event, self.new, stream.new)
            ≡ spoiled self.old stream.old len }
    {
        self.streams.abandon(&mut stream.frames);
        self.fail(stream, Fault::Capsule, len)
    }

    // Ends a session by the end of its own stream, which may not be within a capsule.
    pub(super) fn end_session<'a>(&mut self, stream: &mut Stream, len: usize) -> Received<'a>
        ensures { SessionEndGives self.old stream.old len
            (result.consumed, told_of result.event, self.new, stream.new) }
    {
        if !stream.is_between_capsules() {
            return self.spoil(stream, len);
        }
        stream.part = Part::Ending;
        Received {
            consumed: len,
            event: Event::SessionClosed(Close::clean()),
        }
    }
}

// Goes on with a session, of whose content `left` bytes before `end` are left.
fn go_on<'a>(stream: &mut Stream, event: Event<'a>, left: usize, end: usize) -> Received<'a>
    ensures { (result.consumed, told_of result.event, stream.new)
        ≡ goes_on_with stream.old (told_of event.entry) left end }
{
    stream.part = Part::Session(left);
    Received {
        consumed: end.saturating_sub(left),
        event,
    }
}
