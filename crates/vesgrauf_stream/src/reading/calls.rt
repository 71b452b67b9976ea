//! What a stream waits for, and how its reading goes on or ends.
ghost use Rattle.std.specs.Prelude.{◌≡◌, ◌≢◌, ◌<◌, ◌^◌, ℕ, [], length, MatchOption};
ghost use Rattle.wtp_core.specs.ApplicationCodes.{http3_number};
ghost use Rattle.wtp_webtransport.specs.Events.{told_of};
ghost use Rattle.wtp_webtransport.specs.Joining.{joins, resets, stops_half, abandons, overflows, rejects};
ghost use Rattle.wtp_webtransport.specs.Sessions.{known_of};
ghost use Rattle.wtp_webtransport.specs.Streams.{answered, waits_for, is_request_head as is_request_head_is, IsOfSession};
ghost use Rattle.vesgrauf_stream.specs.Moves.{Moves};
ghost use Rattle.vesgrauf_stream.specs.Reading.{IsStill, kept_of};

use crate::reading::Reading;
use wtp_connection::connection::Known;
use wtp_webtransport::connection::Connection;
use wtp_webtransport::event::{Event, Waits};

impl Reading {
    /// Returns what the stream waits for, as [`Stream::waits`](wtp_webtransport::stream::Stream::waits) does.
    pub fn waits(&self) -> Option<Waits>
        ensures { result ≡ waits_for self.now.stream }
    {
        self.stream.waits()
    }

    /// Returns whether the stream has a request whose header section was not read.
    pub fn is_request_head(&self) -> bool
        ensures { result ≡ is_request_head_is self.now.stream }
    {
        self.stream.is_request_head()
    }

    /// Returns whether the end of the stream came.
    pub fn has_end(&self) -> bool
        ensures { result ≡ self.now.ended }
    {
        self.ended
    }

    /// Returns the application's error code in a RESET_STREAM or STOP_SENDING with this code, if the stream is one of
    /// a session.
    pub fn application_code(&self, code: u64) -> Option<u32>
        ensures { MatchOption result
            (IsOfSession self.now.stream.part → (n : ℕ) → n < 2 ^ 32 → code ≢ http3_number n)
            (λ n. IsOfSession self.now.stream.part × (code ≡ http3_number n)) }
    {
        self.stream.application_code(code)
    }

    /// Returns what is known of the session whose own stream this is.
    pub fn known(&self, shared: &Connection) -> Known
        ensures { result ≡ known_of shared.now self.now.stream }
    {
        shared.known(&self.stream)
    }

    /// Says that the CONNECT request on the stream is answered with this status.
    pub fn answer(&mut self, status: u32)
        ensures stream { self.new.stream ≡ answered self.old.stream status }
        ensures moves { Moves self.old.stream self.new.stream }
        ensures rest { IsStill self.old self.new }
    {
        self.stream.answer(status);
    }

    /// Joins the stream with its session, by what is known of that.
    pub fn join_session(&mut self, shared: &mut Connection, known: Known) -> Event<'static>
        ensures told { (told_of result, shared.new, self.new.stream) ≡ joins shared.old self.old.stream known }
        ensures moves { Moves self.old.stream self.new.stream }
        ensures rest { IsStill self.old self.new }
    {
        shared.join(&mut self.stream, known)
    }

    /// The peer reset the stream.
    pub fn reset(&mut self, shared: &mut Connection) -> Event<'static>
        ensures told { (told_of result, shared.new, self.new.stream) ≡ resets shared.old self.old.stream }
        ensures moves { Moves self.old.stream self.new.stream }
        ensures rest { IsStill self.old self.new }
    {
        shared.reset(&mut self.stream)
    }

    /// The peer asked to stop the own half of the stream.
    pub fn stop(&mut self, shared: &mut Connection) -> Event<'static>
        ensures told { (told_of result, shared.new, self.new.stream) ≡ stops_half shared.old self.old.stream }
        ensures moves { Moves self.old.stream self.new.stream }
        ensures rest { IsStill self.old self.new }
    {
        shared.stop(&mut self.stream)
    }

    /// Ends the reading of the stream.
    pub fn abandon(&mut self, shared: &mut Connection) -> Event<'static>
        ensures told { (told_of result, shared.new, self.new.stream) ≡ abandons shared.old self.old.stream }
        ensures moves { Moves self.old.stream self.new.stream }
        ensures rest { IsStill self.old self.new }
    {
        shared.abandon(&mut self.stream)
    }

    /// Rejects the request on the stream with this ID if it comes after the own GOAWAY.
    pub fn reject(
        &mut self,
        shared: &mut Connection,
        id: u64,
        goaway: Option<u64>,
    ) -> Event<'static>
        ensures told { (told_of result, shared.new, self.new.stream) ≡ rejects shared.old self.old.stream id goaway }
        ensures moves { Moves self.old.stream self.new.stream }
        ensures rest { IsStill self.old self.new }
    {
        shared.reject(&mut self.stream, id, goaway)
    }

    /// More bytes of the stream wait than the caller keeps.
    pub fn overflow(&mut self, shared: &mut Connection) -> Event<'static>
        ensures told { (told_of result, shared.new, self.new.stream) ≡ overflows shared.old self.old.stream }
        ensures moves { Moves self.old.stream self.new.stream }
        ensures rest { IsStill self.old self.new }
    {
        shared.overflow(&mut self.stream)
    }

    /// Drops the bytes that are kept. Returns how many.
    pub fn drop_kept(&mut self) -> usize
        ensures count { result ≡ length (kept_of self.old) }
        ensures kept { kept_of self.new ≡ [] }
        ensures stream { self.new.stream ≡ self.old.stream }
        ensures ended { self.new.ended ≡ self.old.ended }
    {
        let len = self.len();
        self.buffer.clear();
        self.used = 0;
        len
    }
}
