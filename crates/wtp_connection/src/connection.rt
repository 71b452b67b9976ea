//! What the streams of a connection have in common. It holds no bytes and no table of streams.
ghost use Rattle.std.specs.Prelude.{◌≡◌, ◌≤◌, ◌||◌, length, drop, true, false, None, Some, MatchOption, IfSome, IfErr};
ghost use Rattle.wtp_connection.specs.Streams.{connection_of, opens, opening_result, closed_by, accepts};
ghost use Rattle.wtp_connection.specs.First.{first_found, first_seen, found_by};
ghost use Rattle.wtp_connection.specs.Receiving.{FoundIs, StepIsFound, IsNearer, IsFirst, IsInside, opening_of, has_frame, settings_of, settings_after, HasGiven, step_found, encoder_found, decoder_found, fails, more_in, finish_of};

pub mod ahead;
pub mod datagrams;
mod resumption;
mod sessions;
pub mod words;

use crate::fault::Fault;
use crate::fields::Fields;
use crate::instructions::{DecoderPlace, sets_nothing};
use crate::requests::Begun;
use crate::settings::PeerSettings;
use crate::stream::{Purpose, Stream, bi_opening, uni_opening, unopened_end};
use wtp_core::error::ErrorScope;
use wtp_frames::endpoint::{Endpoint, Side};
use wtp_frames::fault::Fault as StreamFault;
use wtp_frames::frame_type::FrameType;
use wtp_frames::reader::{Reader, Step};

/// What the streams of a connection have in common.
#[derive(Drop)]
pub struct Connection {
    /// The receiving endpoint.
    endpoint: Endpoint,
    /// Whether the peer opened its control stream.
    control: bool,
    /// Whether the peer opened its encoder stream.
    encoder: bool,
    /// Whether the peer opened its decoder stream.
    decoder: bool,
    /// How many streams wait for sessions that are to come.
    waiting: u32,
    /// The settings of the peer.
    peer: PeerSettings,
    /// Whether these are remembered of a session that is resumed.
    resumed: bool,
    /// At a server, which requests of the client have begun.
    begun: Begun,
    /// Whether an error ended the connection.
    over: bool,
}

/// What is known of the session of a stream.
#[derive(Clone, Copy)]
pub enum Known {
    /// Its request has not come, or has no answer yet.
    Coming,
    /// It is established.
    Open,
    /// It is over.
    Over,
    /// Its request was refused, or ended before its HEADERS.
    Refused,
    /// Its request asked for no session.
    Other,
    /// No session can have this ID.
    Impossible,
}

/// What is next on a stream.
#[derive(Clone, Copy)]
pub enum Found {
    /// What the stream is for, after this many bytes that are consumed.
    Opened(Purpose, usize),
    /// SETTINGS of the peer: what they define, the offset of their payload, and the offset of the
    /// byte after it. The bytes up to there are consumed.
    Settings(PeerSettings, usize, usize),
    /// Another frame that is returned whole: its type, the offset of its payload, and the offset of
    /// the byte after it. The bytes up to there are consumed.
    Frame(FrameType, usize, usize),
    /// A piece of DATA or of a stream of a session: the offset of its first byte, and the offset of
    /// the byte after it. The bytes up to there are consumed.
    Data(usize, usize),
    /// A field section that is larger than the endpoint's limit: its size, and how many bytes are
    /// consumed. Its payload is skipped.
    TooLarge(u64, usize),
    /// More bytes are needed, after this many that are consumed.
    More(usize),
    /// An error of the stream or of the connection. All bytes are consumed. It is returned once.
    Fault(Fault),
    /// The stream ended without an error. All bytes are consumed.
    End,
}

impl Connection {
    /// Creates a connection.
    pub fn new(endpoint: Endpoint) -> Self
        ensures { result ≡ connection_of endpoint }
    {
        Connection {
            endpoint,
            control: false,
            encoder: false,
            decoder: false,
            waiting: 0,
            peer: PeerSettings::new(),
            resumed: false,
            begun: Begun::new(),
            over: false,
        }
    }

    /// Creates the state of a stream that the peer opened, by its ID (RFC 9000, section 2.1). A server
    /// remembers which requests have begun.
    pub fn accept(&mut self, id: u64) -> Stream
        ensures { (self.new, result) ≡ accepts self.old id }
    {
        match self.endpoint.side {
            Side::Client => {}
            Side::Server => {
                if id % 4 == 0 {
                    self.begun.insert(id / 4);
                }
            }
        }
        Stream::of_peer(id)
    }

    /// Returns what is next in the bytes of a stream that follow those consumed before. `fin`: the
    /// stream ends right after `bytes`.
    ///
    /// It does not allocate. After `More(n)`, the bytes from offset `n` on are to be passed again,
    /// with more bytes after them or after [`join`](Self::join). An error is returned once, with
    /// all bytes consumed. After an error that ends the connection every call consumes all bytes of
    /// every stream and returns `More`. Only SETTINGS change
    /// [`peer_settings`](Self::peer_settings).
    pub fn receive(
        &mut self,
        stream: &mut Stream,
        bytes: &[u8],
        fin: bool,
        _fields: &mut Fields,
    ) -> Found
        ensures found { FoundIs result self.old stream.old bytes.now fin self.new stream.new }
        ensures first { found_by result bytes.now self.new stream.new
            ≡ first_found fin self.old stream.old bytes.now }
        ensures progress { IsNearer result stream.old bytes.now stream.new }
        ensures settings { settings_of self.new ≡ settings_after result self.old }
        ensures given { HasGiven result stream.old stream.new }
        ensures fields { _fields.new ≡ _fields.old }
    {
        let found = self.step(stream, bytes);
        if fin {
            return match consumed_by_more(found) {
                Some(n) => self.finish(stream, bytes.split_at(n).1, n),
                None => found,
            };
        }
        found
    }
}

impl Connection {
    // Returns what is next, where the stream goes on.
    fn step(&mut self, stream: &mut Stream, bytes: &[u8]) -> Found
        ensures found { StepIsFound result self.old stream.old bytes.now self.new stream.new }
        ensures first { found_by result bytes.now self.new stream.new
            ≡ first_seen self.old stream.old bytes.now }
        ensures progress { IsNearer result stream.old bytes.now stream.new }
        ensures settings { settings_of self.new ≡ settings_after result self.old }
        ensures given { HasGiven result stream.old stream.new }
    {
        if self.over {
            return Found::More(bytes.len());
        }
        match stream {
            Stream::Uni => {
                let opening = uni_opening(self.endpoint, bytes);
                self.open(stream, bytes, opening)
            }
            Stream::Bi => {
                let opening = bi_opening(self.endpoint, bytes);
                self.open(stream, bytes, opening)
            }
            Stream::Frames(reader, given) => {
                let step = reader.next(bytes);
                *given = had_frame(step, *given);
                self.judge(stream, step, bytes)
            }
            Stream::Session(_) => {
                if bytes.len() == 0 {
                    Found::More(0)
                } else {
                    Found::Data(0, bytes.len())
                }
            }
            Stream::Joining(_) | Stream::Waiting(_) => Found::More(0),
            Stream::Encoder => self.read_encoder(stream, bytes),
            Stream::Decoder(place) => {
                let next = place.after(bytes);
                self.go_on(stream, next, bytes.len())
            }
            Stream::Ignored | Stream::Incomplete | Stream::Over => Found::More(bytes.len()),
        }
    }

    // Returns what a step of a stream of frames is for the connection.
    fn judge(&mut self, stream: &mut Stream, step: Step, bytes: &[u8]) -> Found
        requires { IsInside step bytes.now }
        ensures { (result, self.new, stream.new) ≡ step_found self.old stream.old step bytes.now }
    {
        match step {
            Step::Frame(FrameType::Settings, start, end) => {
                match self.configure(&bytes[start..end]) {
                    Ok(settings) => Found::Settings(settings, start, end),
                    Err(fault) => self.fail(stream, fault),
                }
            }
            Step::Frame(kind, start, end) => Found::Frame(kind, start, end),
            Step::Data(start, end) => Found::Data(start, end),
            Step::TooLarge(size, n) => Found::TooLarge(size, n),
            Step::More(n) => Found::More(n),
            Step::Fault(fault) => {
                self.close(Fault::Stream(fault));
                Found::Fault(Fault::Stream(fault))
            }
        }
    }

    // Reads the encoder stream of QPACK.
    fn read_encoder(&mut self, stream: &mut Stream, bytes: &[u8]) -> Found
        ensures { (result, self.new, stream.new) ≡ encoder_found self.old stream.old bytes.now }
    {
        if sets_nothing(bytes) {
            Found::More(bytes.len())
        } else {
            self.fail(stream, Fault::EncoderStream)
        }
    }

    // Goes on at this place of the decoder stream of QPACK, after all `len` bytes.
    fn go_on(&mut self, stream: &mut Stream, next: Option<DecoderPlace>, len: usize) -> Found
        ensures { (result, self.new, stream.new) ≡ decoder_found self.old next len }
    {
        match next {
            None => self.fail(stream, Fault::DecoderStream),
            Some(place) => {
                *stream = Stream::Decoder(place);
                Found::More(len)
            }
        }
    }

    // Ends a stream by this error.
    fn fail(&mut self, stream: &mut Stream, fault: Fault) -> Found
        ensures { (result, self.new, stream.new) ≡ fails self.old fault }
    {
        self.close(fault);
        *stream = Stream::Over;
        Found::Fault(fault)
    }

    // Ends the connection if this error does.
    fn close(&mut self, fault: Fault)
        ensures { self.new ≡ closed_by self.old fault }
    {
        match fault.scope() {
            ErrorScope::Stream => {}
            _ => self.over = true,
        }
    }

    // Opens a stream, if its first bytes say what it is for.
    fn open(
        &mut self,
        stream: &mut Stream,
        bytes: &[u8],
        opening: Option<(Purpose, usize)>,
    ) -> Found
        requires intact { self.old.over ≡ false }
        requires first { IsFirst stream.old }
        requires opening { MatchOption opening (opening_of self.old.endpoint stream.old bytes.now ≡ None)
            (λ o. opening_of self.old.endpoint stream.old bytes.now ≡ Some (o.0, drop o.1 bytes.now)) }
        requires within { IfSome opening (λ o. o.1 ≤ length bytes.now) }
        ensures found { StepIsFound result self.old stream.old bytes.now self.new stream.new }
        ensures first { found_by result bytes.now self.new stream.new
            ≡ first_seen self.old stream.old bytes.now }
        ensures progress { IsNearer result stream.old bytes.now stream.new }
        ensures settings { settings_of self.new ≡ settings_after result self.old }
        ensures given { HasGiven result stream.old stream.new }
    {
        match opening {
            None => Found::More(0),
            Some((purpose, n)) => match self.opened(purpose) {
                Ok(next) => {
                    *stream = next;
                    Found::Opened(purpose, n)
                }
                Err(fault) => self.fail(stream, fault),
            },
        }
    }

    // Returns the state of a stream for this purpose, or the error.
    fn opened(&mut self, purpose: Purpose) -> Result<Stream, Fault>
        ensures opened { opens self.old purpose ≡ opening_result result self.new }
        ensures refused { IfErr result (λ _. self.new ≡ self.old) }
    {
        match purpose {
            Purpose::Control => {
                if self.control {
                    return Err(Fault::Stream(StreamFault::StreamCreation));
                }
                self.control = true;
                Ok(Stream::Frames(Reader::control(self.endpoint), false))
            }
            Purpose::Encoder => {
                if self.encoder {
                    return Err(Fault::Stream(StreamFault::StreamCreation));
                }
                self.encoder = true;
                Ok(Stream::Encoder)
            }
            Purpose::Decoder => {
                if self.decoder {
                    return Err(Fault::Stream(StreamFault::StreamCreation));
                }
                self.decoder = true;
                Ok(Stream::Decoder(DecoderPlace::Between))
            }
            Purpose::Push => match self.endpoint.side {
                Side::Client => Err(Fault::Stream(StreamFault::Id)),
                Side::Server => Err(Fault::Stream(StreamFault::StreamCreation)),
            },
            Purpose::Session(session) => Ok(Stream::Joining(session)),
            Purpose::InvalidSession => Err(Fault::Stream(StreamFault::Id)),
            Purpose::Message => Ok(Stream::Frames(Reader::message(self.endpoint), false)),
            Purpose::Foreign => Err(Fault::Stream(StreamFault::StreamCreation)),
            Purpose::Ignored => Ok(Stream::Ignored),
        }
    }

    // Returns what the end of a stream is, with these bytes left over after `consumed`.
    fn finish(&mut self, stream: &mut Stream, left: &[u8], consumed: usize) -> Found
        ensures { (result, self.new, stream.new) ≡ finish_of self.old stream.old left.now consumed }
    {
        if self.over {
            return Found::More(consumed);
        }
        let end = match stream {
            Stream::Joining(_) | Stream::Waiting(_) | Stream::Incomplete | Stream::Over => {
                return Found::More(consumed);
            }
            Stream::Bi => unopened_end(self.endpoint, left),
            Stream::Frames(reader, _) => reader.finish(left.len()),
            Stream::Encoder | Stream::Decoder(_) => Err(StreamFault::ClosedCriticalStream),
            Stream::Uni | Stream::Session(_) | Stream::Ignored => Ok(()),
        };
        match end {
            Ok(()) => {
                *stream = Stream::Over;
                Found::End
            }
            Err(fault) => {
                self.close(Fault::Stream(fault));
                *stream = Stream::ended_by(fault);
                Found::Fault(Fault::Stream(fault))
            }
        }
    }

    /// Returns the settings of the peer. Until its SETTINGS come each one has its default, or the value
    /// that is remembered of the session that is [resumed](Self::resuming) (RFC 9114, section 7.2.4.2).
    pub fn peer_settings(&self) -> PeerSettings
        ensures { result ≡ self.now.peer }
    {
        self.peer
    }

    /// Returns how many streams wait for sessions that are to come.
    pub fn waiting(&self) -> u32
        ensures { result ≡ self.now.waiting }
    {
        self.waiting
    }
}

// Returns whether a frame that is no DATA came, with this step or before it.
fn had_frame(step: Step, before: bool) -> bool
    ensures { result ≡ (has_frame step || before) }
{
    match step {
        Step::Frame(_, _, _) | Step::TooLarge(_, _) => true,
        _ => before,
    }
}

// Returns how many bytes are consumed, if more are needed.
fn consumed_by_more(found: Found) -> Option<usize>
    ensures { result ≡ more_in found }
{
    match found {
        Found::More(n) => Some(n),
        _ => None,
    }
}
