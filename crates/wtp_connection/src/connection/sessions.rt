//! Streams of sessions, and streams that end before their last byte.
ghost use Rattle.std.specs.Prelude.{◌≡◌, option_map};
ghost use Rattle.wtp_connection.specs.Opening.{over_from};
ghost use Rattle.wtp_connection.specs.Streams.{joins, tells_interim, known_alone, known_of, other_fault as other_fault_is, waits, settles, refuses, freed, without, reset_answer, resets, stops, overflows, abandons};

use crate::connection::{Connection, Known};
use crate::fault::Fault;
use crate::requests::Beginning;
use crate::stream::{Purpose, Stream};
use wtp_frames::endpoint::Side;
use wtp_frames::fault::Fault as StreamFault;

/// How many streams may wait for sessions that are to come.
const MAX_WAITING: u32 = 16;

impl Connection {
    /// Says what is known of the session of a stream: after `Opened(Session(..), _)`, and when that
    /// changes. A stream whose session is open returns its bytes, which waited, from the next call
    /// of [`receive`](Self::receive) on.
    ///
    /// # Errors
    ///
    /// `SessionGone`, `BufferedStreamRejected` (also if 16 streams wait already) and `Id`. The
    /// stream is over then. After an error of the connection there is none, and nothing changes.
    pub fn join(&mut self, stream: &mut Stream, known: Known) -> Option<Fault>
        ensures { (self.new, stream.new, result) ≡ joins self.old stream.old known }
    {
        if self.over {
            return None;
        }
        match stream {
            Stream::Joining(session) => {
                let session = *session;
                match known {
                    Known::Coming => self.wait(stream, session),
                    _ => self.settle(stream, session, known),
                }
            }
            Stream::Waiting(session) => {
                let session = *session;
                match known {
                    Known::Coming => None,
                    _ => {
                        self.free();
                        self.settle(stream, session, known)
                    }
                }
            }
            Stream::Session(_) => match known {
                Known::Over => self.refuse(stream, StreamFault::SessionGone),
                _ => None,
            },
            _ => None,
        }
    }

    /// Returns what is known of a session if the caller has no stream with its ID: at a server, that
    /// its request is to come, or that it came and is over. It may be `Refused` if another request came
    /// that is 512 places or more ahead of its own, also if its own came. It is `Impossible` if no
    /// client opens a bidirectional stream with this ID (RFC 9000, section 2.1).
    ///
    /// A client keeps the stream of each session that it asked for, or passes `Known::Over` itself:
    /// without a stream the answer is `Impossible`, which ends the connection.
    pub fn known_without_stream(&self, session: u64) -> Known
        ensures { result ≡ known_alone self.now session }
    {
        match self.endpoint.side {
            Side::Client => Known::Impossible,
            Side::Server => {
                if session % 4 != 0 {
                    return Known::Impossible;
                }
                match self.begun.beginning(session / 4) {
                    Beginning::Begun => Known::Over,
                    Beginning::NotBegun => Known::Coming,
                    Beginning::Lost => Known::Refused,
                }
            }
        }
    }

    /// Returns what is known of a session, as far as streams say it: `its` is the stream with its ID,
    /// if the caller has one. Such a stream is that of a request: the session is `Coming` until the
    /// stream is over, and then `Over`, or `Refused` if no HEADERS of the request came. Whether the request asked for a session and how it was
    /// answered is the caller's to say, as `Open`, `Refused` and `Other`. It is `Impossible` if the
    /// stream belongs to a session itself. Without a stream see
    /// [`known_without_stream`](Self::known_without_stream).
    pub fn known(&self, session: u64, its: Option<&Stream>) -> Known
        ensures { result ≡ known_of self.now session (option_map (λ s. s.now) its.entry) }
    {
        match its {
            None => self.known_without_stream(session),
            Some(stream) => {
                if session % 4 == 0 {
                    stream.known_session()
                } else {
                    Known::Impossible
                }
            }
        }
    }

    // Lets a stream wait for its session, if it has a place.
    fn wait(&mut self, stream: &mut Stream, session: u64) -> Option<Fault>
        ensures { (self.new, stream.new, result) ≡ waits self.old session }
    {
        if self.waiting < MAX_WAITING {
            self.waiting += 1;
            *stream = Stream::Waiting(session);
            None
        } else {
            self.refuse(stream, StreamFault::BufferedStreamRejected)
        }
    }

    // Joins a stream with a session that is not to come.
    fn settle(&mut self, stream: &mut Stream, session: u64, known: Known) -> Option<Fault>
        ensures { (self.new, stream.new, result) ≡ settles self.old session known }
    {
        match known {
            Known::Coming => {
                *stream = Stream::Waiting(session);
                None
            }
            Known::Open => {
                *stream = Stream::Session(session);
                None
            }
            Known::Over => self.refuse(stream, StreamFault::SessionGone),
            Known::Refused => self.refuse(stream, StreamFault::BufferedStreamRejected),
            Known::Other => self.refuse(stream, other_fault(self.endpoint.side)),
            Known::Impossible => self.refuse(stream, StreamFault::Id),
        }
    }

    // Ends a stream by this error.
    fn refuse(&mut self, stream: &mut Stream, fault: StreamFault) -> Option<Fault>
        ensures { (self.new, stream.new, result) ≡ refuses self.old fault }
    {
        self.close(Fault::Stream(fault));
        *stream = Stream::Over;
        Some(Fault::Stream(fault))
    }

    /// Says that the HEADERS that [`receive`](Self::receive) returned last on this stream are those of
    /// an interim response: the HEADERS of the final one are still to come (RFC 9114, section 4.1).
    /// Call it before the next call of `receive` for the stream; which HEADERS these are is in their
    /// fields (RFC 9110, section 15.2). Nothing changes if HEADERS are not the last frame, and at a
    /// server.
    ///
    /// # Errors
    ///
    /// `TooManyInterim` after 64 interim responses, which ends that stream alone. After an error of
    /// the connection there is none, and nothing changes.
    pub fn interim(&mut self, stream: &mut Stream) -> Option<Fault>
        ensures { (self.new, stream.new, result) ≡ tells_interim self.old stream.old }
    {
        match stream {
            _ if self.over => None,
            Stream::Frames(reader, _) => match reader.interim() {
                Ok(()) => None,
                Err(fault) => self.refuse(stream, fault),
            },
            _ => None,
        }
    }

    /// Says that the peer reset a stream. Its bytes that were not returned are lost, and the stream
    /// is over. A stream that waits for its session waits no longer.
    ///
    /// # Errors
    ///
    /// `ClosedCriticalStream`, which ends the connection, if it is the control stream (RFC 9114,
    /// section 6.2.1) or one of QPACK (RFC 9204, section 4.2). `StreamCreation`, which ends the
    /// connection, if it is a bidirectional stream of a server and WebTransport is not enabled (RFC 9114,
    /// section 6.1). `RequestIncomplete`, which ends that stream alone, at a server that has no HEADERS
    /// of the request: its own half should be reset with this code (RFC 9114, section 4.1.1). None
    /// after an error of the connection.
    pub fn reset(&mut self, stream: &mut Stream) -> Option<Fault>
        ensures { (self.new, stream.new, result) ≡ resets self.old stream.old }
    {
        if stream.is_critical() && !self.over {
            return self.refuse(stream, StreamFault::ClosedCriticalStream);
        }
        if stream.is_forbidden(self.endpoint) && !self.over {
            return self.refuse(stream, StreamFault::StreamCreation);
        }
        let answer = self.answer_to_reset(stream);
        self.leave(stream);
        answer
    }

    // Returns what the own half of a stream that is not critical is to be reset with, if there is a
    // rule for it.
    fn answer_to_reset(&self, stream: &Stream) -> Option<Fault>
        ensures { result ≡ reset_answer self.now stream.now }
    {
        match self.endpoint.side {
            Side::Client => None,
            Side::Server => {
                if stream.has_no_headers() && !self.over {
                    Some(Fault::Stream(StreamFault::RequestIncomplete))
                } else {
                    None
                }
            }
        }
    }

    /// Says that the peer asked to stop a stream that was opened here (STOP_SENDING). `own` is what
    /// that stream is for. If there is no error, the own half is to be reset (RFC 9000, section 3.5);
    /// the other half goes on, and what else to do is the application's.
    ///
    /// # Errors
    ///
    /// `ClosedCriticalStream`, which ends the connection, if it is the own control stream (RFC 9114,
    /// section 6.2.1) or one of QPACK (RFC 9204, section 4.2). None after an error of the connection.
    pub fn stopped(&mut self, own: Purpose) -> Option<Fault>
        ensures { (self.new, result) ≡ stops self.old own }
    {
        if own.is_critical() && !self.over {
            let fault = Fault::Stream(StreamFault::ClosedCriticalStream);
            self.close(fault);
            return Some(fault);
        }
        None
    }

    /// Says that more bytes of a stream are left over than the caller holds. The stream is over.
    ///
    /// # Errors
    ///
    /// `BufferedStreamRejected`, which ends that stream alone, if it is to be joined with its session;
    /// it waits no longer (WebTransport over HTTP/3, "Buffering Incoming Streams and Datagrams").
    /// `ExcessiveLoad`, which ends the connection, of every other stream (RFC 9114, section 10.5). None
    /// if the stream is over, and after an error of the connection; nothing changes then.
    pub fn overflow(&mut self, stream: &mut Stream) -> Option<Fault>
        ensures { (self.new, stream.new, result) ≡ overflows self.old stream.old }
    {
        match stream {
            _ if self.over => None,
            Stream::Joining(_) => self.refuse(stream, StreamFault::BufferedStreamRejected),
            Stream::Waiting(_) => {
                self.free();
                self.refuse(stream, StreamFault::BufferedStreamRejected)
            }
            Stream::Incomplete | Stream::Over => None,
            _ => self.refuse(stream, StreamFault::ExcessiveLoad),
        }
    }

    /// Ends the reading of a stream, for a reason of the application. The stream is over: its bytes
    /// are discarded. A stream that waits for its session waits no longer.
    ///
    /// The control stream and those of QPACK stay as they are: the peer must not be asked to close
    /// them (RFC 9114, section 6.2.1; RFC 9204, section 4.2).
    pub fn abandon(&mut self, stream: &mut Stream)
        ensures { (self.new, stream.new) ≡ abandons self.old stream.old }
    {
        if stream.is_critical() {
            return;
        }
        self.leave(stream);
    }

    // Ends a stream, which gives its place back if it waits.
    fn leave(&mut self, stream: &mut Stream)
        ensures connection { self.new ≡ without self.old stream.old }
        ensures over { stream.new ≡ over_from stream.old }
    {
        match stream {
            Stream::Waiting(_) => self.free(),
            _ => {}
        }
        *stream = stream.when_over();
    }

    // Counts one stream less that waits.
    fn free(&mut self)
        ensures { self.new ≡ freed self.old }
    {
        self.waiting = self.waiting.saturating_sub(1);
    }
}

// Returns the error of a stream whose session's request asked for none. A client made the request
// itself, and so knows that this is no session's ID.
fn other_fault(side: Side) -> StreamFault
    ensures { result ≡ other_fault_is side }
{
    match side {
        Side::Client => StreamFault::Id,
        Side::Server => StreamFault::BufferedStreamRejected,
    }
}
