//! The states of streams.
ghost use Rattle.std.specs.Prelude.{◌≡◌, ◌≢◌, ◌⊎◌, ◌+◌, nat_lt, [], Some, None, MatchOption, MatchResult};
ghost use Rattle.wtp_messages.specs.declared.response.Asked.{Asked};
ghost use Rattle.wtp_webtransport.specs.declared.stream.Stream.{Stream};
ghost use Rattle.wtp_webtransport.specs.Streams.{session_stream, answered, waits_for};
ghost use Rattle.wtp_webtransport.specs.Words.{held_in, IsSound};
ghost use Rattle.wt_c.specs.Connections.{stream_with, held_by, HasStream, IsNoConnection, IsNoStream};
ghost use Rattle.wt_c.specs.ConnectionEvents.{wait_number, wait_session};
ghost use Rattle.wt_c.specs.ConnectionCalls.{place_within, stream_within, limited_words, blank, IsWithoutStream, EachStream, member_of, member_at as member_at_is, member_numbers, Accepts, Requests, asked_at as asked_at_is};
ghost use Rattle.wt_c.specs.Changes.{blank_words as blank_words_of, restored};

use crate::connections::WtConnection;
use crate::connections::events::waits_of;
use crate::status::{INVALID, OK};
use crate::texts::Rejection;
use std::alloc::Global;
use wtp_connection::stream::words::StreamWords as FramesWords;
use wtp_messages::response::Asked;
use wtp_webtransport::stream::Stream;
use wtp_webtransport::stream::words::StreamWords;

/// The state of a stream. The bytes of a capsule that is cut are held beside it.
#[repr(C)]
#[derive(Clone, Copy)]
pub struct WtStream {
    /// Its frames, its message and its capsules.
    pub words: StreamWords,
    /// 0.
    pub reserved: [u64; 3],
}

// Returns whether so many bytes are more than a limit.
fn exceeds(held: usize, missing: u64, max: u64) -> bool
    ensures { result ≡ nat_lt max (held + missing) }
{
    let held = held as u64;
    held > max || missing > max - held
}

// Returns the words without a cut datagram that is longer than the limit.
fn limit(words: StreamWords, max: u64) -> StreamWords
    ensures { result ≡ limited_words max words }
{
    let mut words = words;
    let place = words.capsules;
    if place.kind == 3 && place.missing > 0 && exceeds(place.held, place.missing, max) {
        words.capsules.kind = 2;
        words.capsules.held = 0;
    }
    words
}

impl WtStream {
    // Creates the struct of a stream.
    pub(crate) fn of(stream: &Stream) -> Self
        ensures stream { result ≡ stream_with stream.now }
        ensures sound { IsSound stream.now.capsules }
    {
        WtStream {
            words: stream.to_words(),
            reserved: [0; 3],
        }
    }

    // Creates the struct of a stream after a datagram of a capsule that is longer than the limit
    // and cut was dropped. Returns it with the bytes that are held.
    #[tactic(auto, using(crate::proofs::LimitLemmas::words_within, crate::proofs::LimitLemmas::none_held, crate::proofs::LimitLemmas::same_held))]
    pub(crate) fn within(stream: &Stream, max_datagram: u64) -> (Self, &[u8])
        ensures stream { result.0 ≡ stream_with (stream_within max_datagram stream.now) }
        ensures held { result.1.now ≡ held_in (place_within max_datagram stream.now.capsules) }
        ensures sound { IsSound stream.now.capsules }
    {
        let words = limit(stream.to_words(), max_datagram);
        let left = if words.capsules.held == 0 {
            &[]
        } else {
            stream.held()
        };
        let after = WtStream {
            words,
            reserved: [0; 3],
        };
        (after, left)
    }

    // Returns the stream with the bytes that are held, which are the first of these.
    #[tactic(auto, using(crate::proofs::ConnectionLemmas::no_stream, crate::proofs::ConnectionLemmas::no_stream_zeros, crate::proofs::ConnectionLemmas::one_stream))]
    pub(crate) fn stream(&self, alloc: Global, held: &[u8]) -> Result<Stream, Rejection>
        ensures { MatchResult result (λ s. HasStream s self.now held.now) (λ e.
            (e ≡ Rejection.Invalid → IsNoStream self.now held.now)
            × (e ≡ Rejection.Memory → held_by self.now held.now ≢ [])) }
    {
        let size = self.words.capsules.held;
        if size > held.len() || self.reserved != [0; 3] {
            return Err(Rejection::Invalid);
        }
        match Stream::from_words(alloc, self.words, &held[..size]) {
            Ok(Some(stream)) => Ok(stream),
            Ok(None) => Err(Rejection::Invalid),
            Err(_) => Err(Rejection::Memory),
        }
    }

    // Returns the stream with the bytes of a capsule that is cut forgotten, or `None` if no stream
    // has this struct.
    #[tactic(auto, using(crate::proofs::BlankLemmas::without_zeros))]
    pub(crate) fn blank(&self, alloc: Global) -> Option<Stream>
        ensures { MatchOption result (IsWithoutStream self.now)
            (λ t. EachStream self.now (λ s. t ≡ blank s)) }
    {
        if self.reserved != [0; 3] {
            return None;
        }
        match Stream::from_words(alloc, blank_words(self.words), &[]) {
            Ok(stream) => stream,
            Err(_) => unreachable!(),
        }
    }

    // Returns the struct of a stream that was made blank, and changed. What is held stays.
    pub(crate) fn after(&self, stream: &Stream) -> Self
        ensures { result ≡ restored self.now stream.now }
    {
        let mut words = stream.to_words();
        if words.capsules.kind != 0 {
            words.capsules = self.words.capsules;
        }
        WtStream {
            words,
            reserved: [0; 3],
        }
    }
}

// Returns the words with the bytes of a capsule that is cut forgotten.
fn blank_words(words: StreamWords) -> StreamWords
    ensures { result ≡ blank_words_of words }
{
    let mut words = words;
    if words.capsules.kind == 0 || words.capsules.kind > 5 {
        return words;
    }
    words.capsules.kind = 2;
    words.capsules.missing = 1;
    words.capsules.held = 0;
    words
}

/// Creates the state of a stream that the peer opened, by its ID (RFC 9000, section 2.1).
///
/// Returns `OK`, or `INVALID` if no connection has `connection`; nothing changes then.
#[unsafe(no_mangle)]
pub extern "C" fn wt_stream_accept(
    connection: &mut WtConnection,
    id: u64,
    stream: &mut WtStream,
) -> i32
    ensures answers { (result ≡ OK) ⊎ (result ≡ INVALID) }
    ensures accepted { result ≡ OK → Accepts connection.old id connection.new stream.new }
    ensures invalid { result ≡ INVALID → IsNoConnection connection.old
        × (connection.new ≡ connection.old) × (stream.new ≡ stream.old) }
{
    let Some(mut common) = connection.connection() else {
        return INVALID;
    };
    let opened = common.accept(id);
    connection.set(&common);
    *stream = WtStream::of(&opened);
    OK
}

// Returns what a request asks for by its number.
pub(crate) fn asked_at(number: u32) -> Option<Asked>
    ensures { result ≡ asked_at_is number }
{
    match number {
        0 => Some(Asked::Other),
        1 => Some(Asked::Head),
        2 => Some(Asked::Connect),
        3 => Some(Asked::Session),
        _ => None,
    }
}

/// Creates the state of the peer's half of a request stream that was opened here: the response. The
/// request is a HEAD request (1), CONNECT (2), one for a session (3), or another (0).
///
/// Returns `OK`, or `INVALID` if `asked` is above 3, or if no connection has `connection`; `stream`
/// does not change then.
#[unsafe(no_mangle)]
pub extern "C" fn wt_stream_of_request(
    connection: &WtConnection,
    asked: u32,
    stream: &mut WtStream,
) -> i32
    ensures answers { (result ≡ OK) ⊎ (result ≡ INVALID) }
    ensures request { result ≡ OK → (a : Asked) × (asked_at_is asked ≡ Some a)
        × Requests connection.now a stream.new }
    ensures invalid { result ≡ INVALID → (asked_at_is asked ≡ None)
        ⊎ IsNoConnection connection.now }
    ensures same { result ≢ OK → stream.new ≡ stream.old }
{
    let Some(asked) = asked_at(asked) else {
        return INVALID;
    };
    let Some(common) = connection.connection() else {
        return INVALID;
    };
    *stream = WtStream::of(&common.open(asked));
    OK
}

/// Creates the state of the peer's half of a bidirectional stream that was opened here for a
/// session. It has no header. Returns `OK`.
#[unsafe(no_mangle)]
pub extern "C" fn wt_stream_of_session(session: u64, stream: &mut WtStream) -> i32
    ensures answer { result ≡ OK }
    ensures stream { stream_with (session_stream session) ≡ stream.new }
{
    *stream = WtStream::of(&Stream::of_session(session));
    OK
}

/// Says that the CONNECT request of a stream is answered with this status. With 2xx its session is
/// open, or its content is a tunnel. Nothing changes with 1xx, and if the stream does not wait for
/// an answer.
///
/// Returns `OK`, or `INVALID` if no stream has `stream`; nothing changes then. The bytes that are
/// held stay.
#[unsafe(no_mangle)]
pub extern "C" fn wt_stream_answer(alloc: Global, stream: &mut WtStream, status: u32) -> i32
    ensures answers { (result ≡ OK) ⊎ (result ≡ INVALID) }
    ensures answered { result ≡ OK → EachStream stream.old
        (λ s. (stream_with (answered s status) ≡ stream.new)
        × (held_in (answered s status).capsules ≡ held_in s.capsules)) }
    ensures invalid { result ≡ INVALID → IsWithoutStream stream.old × (stream.new ≡ stream.old) }
{
    match stream.blank(alloc) {
        None => INVALID,
        Some(mut state) => {
            state.answer(status);
            *stream = stream.after(&state);
            OK
        }
    }
}

/// Says what a stream waits for.
///
/// Returns `OK` with the number in `waits`: for nothing (0), for its session (1), whose ID is
/// `session`, for the SETTINGS of the peer (2), or for the answer to its request (3); `session` is
/// 0 if it does not wait for one. Returns `INVALID` if no stream has `stream`; nothing changes
/// then.
#[unsafe(no_mangle)]
#[tactic(auto, using(crate::proofs::BlankLemmas::waits_number, crate::proofs::BlankLemmas::waits_session))]
pub extern "C" fn wt_stream_waits(
    alloc: Global,
    stream: &WtStream,
    waits: &mut u32,
    session: &mut u64,
) -> i32
    ensures answers { (result ≡ OK) ⊎ (result ≡ INVALID) }
    ensures waits { result ≡ OK → EachStream stream.now
        (λ s. waits.new ≡ wait_number (waits_for s)) }
    ensures session { result ≡ OK → EachStream stream.now
        (λ s. session.new ≡ wait_session (waits_for s)) }
    ensures invalid { result ≡ INVALID → IsWithoutStream stream.now × (waits.new ≡ waits.old)
        × (session.new ≡ session.old) }
{
    match stream.blank(alloc) {
        None => INVALID,
        Some(state) => {
            let (number, of) = waits_of(state.waits());
            *waits = number;
            *session = of;
            OK
        }
    }
}

// Returns the session that a stream belongs to or waits for, by its words.
fn member_at(words: FramesWords) -> Option<u64>
    ensures { result ≡ member_at_is words }
{
    match words.kind {
        3 | 4 | 5 => Some(words.number),
        _ => None,
    }
}

/// Says which session a stream belongs to, or waits for.
///
/// Returns `OK`: `belongs` is 1, and `session` the ID of the session, or both are 0. Returns
/// `INVALID` if no stream has `stream`; nothing changes then.
#[unsafe(no_mangle)]
#[tactic(auto, using(crate::proofs::BlankLemmas::member_is))]
pub extern "C" fn wt_stream_belongs(
    alloc: Global,
    stream: &WtStream,
    belongs: &mut u32,
    session: &mut u64,
) -> i32
    ensures answers { (result ≡ OK) ⊎ (result ≡ INVALID) }
    ensures session { result ≡ OK → EachStream stream.now (λ s. (belongs.new, session.new)
        ≡ member_numbers (member_of s.frames)) }
    ensures invalid { result ≡ INVALID → IsWithoutStream stream.now × (belongs.new ≡ belongs.old)
        × (session.new ≡ session.old) }
{
    if stream.blank(alloc).is_none() {
        return INVALID;
    }
    match member_at(stream.words.frames) {
        Some(of) => {
            *belongs = 1;
            *session = of;
        }
        None => {
            *belongs = 0;
            *session = 0;
        }
    }
    OK
}
