//! The frames of one stream, read from bytes that the caller holds.
ghost use Rattle.std.specs.Prelude.{◌≡◌, ◌+◌, ◌<◌, ◌≤◌, length, drop, false, Some, None, MatchOption, MatchResult, IfSome};
ghost use Rattle.wtp_frames.specs.FrameType.{type_of};
ghost use Rattle.wtp_frames.specs.Run.{head_at, action_at, is_failed, counted as counted_is, after_data as after_data_is};
ghost use Rattle.wtp_frames.specs.Reading.{MoveIs, StepIs, payload_move as payload_move_is, all_passed, by_end};
ghost use Rattle.wtp_frames.specs.First.{first, given, moves, moved_by};
ghost use Rattle.wtp_frames.specs.Start.{message_reader, control_reader};
ghost use Rattle.wtp_frames.specs.Interim.{ends_in_section as ends_in_section_is, after_interim};
ghost use Rattle.wtp_frames.specs.Tunnel.{after_connect};

pub mod ahead;
pub mod words;

use crate::endpoint::{Endpoint, Side};
use crate::fault::Fault;
use crate::frame_type::FrameType;
use crate::rules::{Action, MAX_IDLE, accept, action_for, after_section};
use wtp_core::varint::first_varint;

/// The largest number of interim responses that may come before the final one.
const MAX_INTERIM: u32 = 64;

/// How far a stream went.
#[derive(Clone, Copy)]
pub enum Place {
    /// A message, before its HEADERS.
    BeforeHeaders,
    /// A message, after its HEADERS.
    Body,
    /// A message, after its trailers.
    AfterTrailers,
    /// The stream of a CONNECT request that was answered with a 2xx status: DATA alone may follow.
    Tunnel,
    /// A control stream, before SETTINGS.
    BeforeSettings,
    /// A control stream, after SETTINGS: the last GOAWAY and the last MAX_PUSH_ID.
    AfterSettings(Option<u64>, Option<u64>),
    /// An error of the stream was returned.
    Failed(Fault),
}

/// The state of reading one stream of frames. It holds no bytes of the stream.
#[derive(Drop)]
pub struct Reader {
    /// The receiving endpoint.
    endpoint: Endpoint,
    /// How far the stream went.
    place: Place,
    /// How many bytes of the payload of the frame that is streamed or skipped are still to come.
    remaining: u64,
    /// Whether these are returned, as pieces of DATA.
    streamed: bool,
    /// How many frames without content came, one after the other.
    idle: u32,
    /// How many interim responses came.
    interims: u32,
}

/// What is next on a stream of frames.
#[derive(Clone, Copy)]
pub enum Step {
    /// A frame that is returned whole: its type, the offset of its payload, and the offset of the
    /// byte after it. The bytes up to there are consumed.
    Frame(FrameType, usize, usize),
    /// A piece of DATA: the offset of its first byte, and the offset of the byte after it. The
    /// bytes up to there are consumed.
    Data(usize, usize),
    /// A field section that is larger than [`Endpoint::max_section`]: its size, and how many bytes
    /// are consumed. Its payload is skipped.
    TooLarge(u64, usize),
    /// More bytes are needed, after this many that are consumed.
    More(usize),
    /// An error of the stream or of the connection. All bytes are consumed. It is returned once.
    Fault(Fault),
}

/// One move of a reader, of which a step makes some.
#[derive(Clone, Copy)]
pub(crate) enum Move {
    /// So many bytes are consumed.
    Passed(usize),
    /// A frame that is returned whole: its type, and where its payload begins and ends.
    Whole(FrameType, usize, usize),
    /// So many bytes are a piece of DATA.
    Streamed(usize),
    /// A field section of this size is skipped, and so many bytes are consumed.
    TooLarge(u64, usize),
    /// More bytes are needed.
    Stuck,
    /// The stream has an error.
    Failed(Fault),
}

impl Reader {
    /// Creates the reader of a message: of a request at a server, of its response at a client.
    pub fn message(endpoint: Endpoint) -> Self
        ensures { result ≡ message_reader endpoint }
    {
        Reader {
            endpoint,
            place: Place::BeforeHeaders,
            remaining: 0,
            streamed: false,
            idle: 0,
            interims: 0,
        }
    }

    /// Creates the reader of the peer's control stream, from the byte after its stream type.
    pub fn control(endpoint: Endpoint) -> Self
        ensures { result ≡ control_reader endpoint }
    {
        Reader {
            endpoint,
            place: Place::BeforeSettings,
            remaining: 0,
            streamed: false,
            idle: 0,
            interims: 0,
        }
    }

    /// Returns the next frame or piece in the bytes that follow those consumed before.
    ///
    /// It does not allocate. After `More(n)`, the bytes from offset `n` on are to be passed again,
    /// with more bytes after them; they are at most 15 bytes more than the largest payload that is
    /// returned whole here. After an error the reader consumes all bytes and returns `More`.
    /// However the bytes of a stream are cut, its frames, its bytes of DATA and its error are the
    /// same.
    pub fn next(&mut self, bytes: &[u8]) -> Step
        ensures step { StepIs result self.old bytes.now self.new }
        ensures first { given result bytes.now self.new ≡ first self.old bytes.now }
    {
        let mut at: usize = 0;
        'moves: loop {
            match self.advance(bytes.split_at(at).1) {
                Move::Passed(n) => at += n,
                Move::Whole(kind, start, end) => return Step::Frame(kind, at + start, at + end),
                Move::Streamed(n) => return Step::Data(at, at + n),
                Move::TooLarge(size, n) => return Step::TooLarge(size, at + n),
                Move::Stuck => return Step::More(at),
                Move::Failed(fault) => return Step::Fault(fault),
            }
        }
    }

    /// Says that the HEADERS that [`next`](Self::next) returned last are those of an interim
    /// response: the HEADERS of the final one are still to come (RFC 9114, section 4.1). Call it
    /// before the next call of `next`; which HEADERS these are is in their fields (RFC 9110, section
    /// 15.2). Nothing changes if HEADERS are not the last frame, and at a server.
    ///
    /// # Errors
    ///
    /// `TooManyInterim` after 64 interim responses. The reader then consumes all bytes and returns
    /// `More`.
    pub fn interim(&mut self) -> Result<(), Fault>
        ensures { MatchResult result (λ _. after_interim self.old ≡ (self.new, None))
            (λ f. after_interim self.old ≡ (self.new, Some f)) }
    {
        if !self.ends_in_section() {
            return Ok(());
        }
        if self.interims < MAX_INTERIM {
            self.interims += 1;
            self.place = Place::BeforeHeaders;
            return Ok(());
        }
        self.place = Place::Failed(Fault::TooManyInterim);
        Err(Fault::TooManyInterim)
    }

    /// Says that the HEADERS that [`next`](Self::next) returned are those of a CONNECT request that
    /// is answered with a 2xx status, or of that response: of the frames that are known DATA alone
    /// may follow (RFC 9114, section 4.4). Any other one is `FrameUnexpected`, at its head. Nothing
    /// changes before HEADERS, and after trailers.
    pub fn tunnel(&mut self)
        ensures { self.new ≡ after_connect self.old }
    {
        if let Place::Body = self.place {
            self.place = Place::Tunnel;
        }
    }

    /// Returns how many bytes of the payload of the frame that is returned in pieces, or skipped,
    /// are still to come. After a piece of DATA these are the bytes of its frame after the piece.
    pub fn remaining(&self) -> u64
        ensures { result ≡ self.now.remaining }
    {
        self.remaining
    }

    // Returns whether HEADERS are the last frame of a response.
    fn ends_in_section(&self) -> bool
        ensures { result ≡ ends_in_section_is self.now }
    {
        match self.endpoint.side {
            Side::Server => false,
            Side::Client => {
                matches!(self.place, Place::Body) && !self.streamed && self.idle == 0
            }
        }
    }

    // Makes one move.
    fn advance(&mut self, bytes: &[u8]) -> Move
        ensures moves { MoveIs result self.old bytes.now self.new }
        ensures exact { moved_by result bytes.now self.new ≡ moves self.old bytes.now }
    {
        if self.has_failed() {
            return pass_all(bytes.len());
        }
        if self.remaining > 0 {
            return self.advance_payload(bytes);
        }
        match first_head(bytes) {
            None => Move::Stuck,
            Some((number, len, start)) => {
                let kind = FrameType::of(number);
                match action_for(self.endpoint, self.place, self.idle, kind, len) {
                    Action::Give => self.take_frame(bytes, number, kind, len, start),
                    Action::Stream => {
                        self.remaining = len;
                        self.streamed = true;
                        self.idle = after_data(self.idle, len);
                        Move::Passed(start)
                    }
                    Action::Skip => {
                        self.remaining = len;
                        self.streamed = false;
                        self.idle = counted(self.idle);
                        Move::Passed(start)
                    }
                    Action::SkipSection => {
                        self.place = after_section(self.place);
                        self.remaining = len;
                        self.streamed = false;
                        self.idle = 0;
                        Move::TooLarge(len, start)
                    }
                    Action::Refuse(fault) => {
                        self.place = Place::Failed(fault);
                        Move::Failed(fault)
                    }
                }
            }
        }
    }

    // Returns whether an error was returned.
    fn has_failed(&self) -> bool
        ensures { result ≡ is_failed self.now.place }
    {
        match self.place {
            Place::Failed(_) => true,
            _ => false,
        }
    }

    // Returns or skips payload bytes.
    fn advance_payload(&mut self, bytes: &[u8]) -> Move
        requires intact { is_failed self.old.place ≡ false }
        requires some { 0 < self.old.remaining }
        ensures moves { MoveIs result self.old bytes.now self.new }
        ensures exact { moved_by result bytes.now self.new ≡ moves self.old bytes.now }
    {
        let len = bytes.len();
        if len == 0 {
            return Move::Stuck;
        }
        if (len as u64) < self.remaining {
            self.remaining -= len as u64;
            return payload_move(self.streamed, len);
        }
        let n = self.remaining as usize;
        self.remaining = 0;
        payload_move(self.streamed, n)
    }

    // Returns a whole frame, if its payload is there.
    fn take_frame(
        &mut self,
        bytes: &[u8],
        number: u64,
        kind: FrameType,
        size: u64,
        start: usize,
    ) -> Move
        requires intact { is_failed self.old.place ≡ false }
        requires none { self.old.remaining ≡ 0 }
        requires kind { kind ≡ type_of number }
        requires head { head_at bytes.now ≡ Some (number, size, drop start bytes.now) }
        requires within { start ≤ length bytes.now }
        requires given { action_at self.old kind size ≡ Action.Give }
        ensures moves { MoveIs result self.old bytes.now self.new }
        ensures exact { moved_by result bytes.now self.new ≡ moves self.old bytes.now }
    {
        if size > (bytes.len() - start) as u64 {
            return Move::Stuck;
        }
        let end = start + size as usize;
        match accept(self.endpoint.side, self.place, kind, &bytes[start..end]) {
            Ok(place) => {
                self.place = place;
                self.streamed = false;
                self.idle = 0;
                Move::Whole(kind, start, end)
            }
            Err(fault) => {
                self.place = Place::Failed(fault);
                Move::Failed(fault)
            }
        }
    }

    /// Checks that the stream may end here, with `left` bytes left over after `More`.
    ///
    /// # Errors
    ///
    /// `Frame` within a frame, `ClosedCriticalStream` of a control stream, `RequestIncomplete` and
    /// `Message` before the HEADERS of a request and of a response. After an error that was
    /// returned before there is none.
    pub fn finish(&self, left: usize) -> Result<(), Fault>
        ensures { result ≡ by_end self.now.endpoint.side self.now.place (self.now.remaining + left) }
    {
        match self.place {
            Place::BeforeHeaders => {
                if self.remaining > 0 || left > 0 {
                    return Err(Fault::Frame);
                }
                match self.endpoint.side {
                    Side::Client => Err(Fault::Message),
                    Side::Server => Err(Fault::RequestIncomplete),
                }
            }
            Place::Body | Place::AfterTrailers | Place::Tunnel => {
                if self.remaining > 0 || left > 0 {
                    return Err(Fault::Frame);
                }
                Ok(())
            }
            Place::BeforeSettings | Place::AfterSettings(_, _) => {
                Err(Fault::ClosedCriticalStream)
            }
            Place::Failed(_) => Ok(()),
        }
    }
}

// Consumes all bytes.
fn pass_all(len: usize) -> Move
    ensures { result ≡ all_passed len }
{
    if len == 0 {
        Move::Stuck
    } else {
        Move::Passed(len)
    }
}

// Counts one more frame without content.
fn counted(idle: u32) -> u32
    ensures { result ≡ counted_is idle }
{
    if idle < MAX_IDLE { idle + 1 } else { idle }
}

// Counts one more DATA frame if it has no content, and otherwise counts from 0.
fn after_data(idle: u32, len: u64) -> u32
    ensures { result ≡ after_data_is idle len }
{
    if len == 0 {
        return counted(idle);
    }
    0
}

// Returns the move by payload bytes.
fn payload_move(streamed: bool, n: usize) -> Move
    ensures { result ≡ payload_move_is streamed n }
{
    if streamed {
        Move::Streamed(n)
    } else {
        Move::Passed(n)
    }
}

/// Returns the type and the length at the start of the bytes, and the size of both.
#[tactic(auto, unfolding(crate::specs::Run::head_at), using(crate::proofs::HeadLemmas::heads))]
fn first_head(bytes: &[u8]) -> Option<(u64, u64, usize)>
    ensures head { MatchOption result (head_at bytes.now ≡ None)
        (λ h. head_at bytes.now ≡ Some (h.0, h.1, drop h.2 bytes.now)) }
    ensures within { IfSome result (λ h. h.2 ≤ length bytes.now) }
{
    let (number, first) = first_varint(bytes)?;
    let (length, second) = first_varint(bytes.split_at(first).1)?;
    Some((number.into_inner(), length.into_inner(), first + second))
}
