//! The state of a stream in numbers of a fixed size, as a caller in C keeps it.
ghost use Rattle.std.specs.Prelude.{◌≡◌, MatchOption};
ghost use Rattle.wtp_connection.specs.declared.stream.Stream.{Stream};
ghost use Rattle.wtp_connection.specs.Words.{bare_stream, session_stream_words, decoder_words, stream_words, stream_at};

use crate::instructions::DecoderPlace;
use crate::stream::Stream;
use wtp_frames::reader::Reader;
use wtp_frames::reader::words::{ReaderWords, flag_at, flag_of};

/// The state of a [`Stream`]. Numbers that a variant does not have are 0.
#[repr(C)]
#[derive(Clone, Copy, PartialEq, Eq)]
pub struct StreamWords {
    /// The reader of a stream of frames.
    pub reader: ReaderWords,
    /// The session, or the sum of the bytes of a number on the decoder stream.
    pub number: u64,
    /// What the number in the next byte of the decoder stream is multiplied with.
    pub weight: u64,
    /// The variant, from 0 on; the decoder stream has two, between instructions and within one.
    pub kind: u32,
    /// Whether a stream of frames had a frame that is no DATA: 1 or 0.
    pub given: u8,
    /// 0.
    pub reserved: u8,
    /// 0.
    pub reserved_half: u16,
}

impl StreamWords {
    // Creates the words of a variant without numbers.
    fn bare(kind: u32) -> Self
        ensures { result ≡ bare_stream kind }
    {
        StreamWords {
            reader: ReaderWords::none(),
            number: 0,
            weight: 0,
            kind,
            given: 0,
            reserved: 0,
            reserved_half: 0,
        }
    }

    // Creates the words of a variant with a session.
    fn of_session(kind: u32, session: u64) -> Self
        ensures { result ≡ session_stream_words kind session }
    {
        StreamWords {
            reader: ReaderWords::none(),
            number: session,
            weight: 0,
            kind,
            given: 0,
            reserved: 0,
            reserved_half: 0,
        }
    }

    // Creates the words of the decoder stream.
    fn of_decoder(place: DecoderPlace) -> Self
        ensures { result ≡ decoder_words place }
    {
        match place {
            DecoderPlace::Between => StreamWords::bare(7),
            DecoderPlace::Within(sum, weight) => StreamWords {
                reader: ReaderWords::none(),
                number: sum,
                weight,
                kind: 8,
                given: 0,
                reserved: 0,
                reserved_half: 0,
            },
        }
    }
}

impl Stream {
    /// Returns the words of the stream.
    pub fn to_words(&self) -> StreamWords
        ensures { result ≡ stream_words self.now }
    {
        match self {
            Stream::Uni => StreamWords::bare(0),
            Stream::Bi => StreamWords::bare(1),
            Stream::Frames(reader, given) => StreamWords {
                reader: reader.to_words(),
                number: 0,
                weight: 0,
                kind: 2,
                given: flag_of(*given),
                reserved: 0,
                reserved_half: 0,
            },
            Stream::Joining(session) => StreamWords::of_session(3, *session),
            Stream::Waiting(session) => StreamWords::of_session(4, *session),
            Stream::Session(session) => StreamWords::of_session(5, *session),
            Stream::Encoder => StreamWords::bare(6),
            Stream::Decoder(place) => StreamWords::of_decoder(*place),
            Stream::Ignored => StreamWords::bare(9),
            Stream::Incomplete => StreamWords::bare(10),
            Stream::Over => StreamWords::bare(11),
        }
    }

    /// Creates the stream of these words. Other words than those of a stream give any stream.
    pub fn from_words_unchecked(words: StreamWords) -> Self
        ensures { result ≡ stream_at words }
    {
        match words.kind {
            0 => Stream::Uni,
            1 => Stream::Bi,
            2 => Stream::Frames(
                Reader::from_words_unchecked(words.reader),
                flag_at(words.given),
            ),
            3 => Stream::Joining(words.number),
            4 => Stream::Waiting(words.number),
            5 => Stream::Session(words.number),
            6 => Stream::Encoder,
            7 => Stream::Decoder(DecoderPlace::Between),
            8 => Stream::Decoder(DecoderPlace::Within(words.number, words.weight)),
            9 => Stream::Ignored,
            10 => Stream::Incomplete,
            _ => Stream::Over,
        }
    }

    /// Creates the stream of these words, or returns `None` if they are those of no stream.
    #[tactic(auto, using(crate::proofs::WordLemmas::no_stream))]
    pub fn from_words(words: StreamWords) -> Option<Self>
        ensures { MatchOption result ((s : Stream) → ¬ (stream_words s ≡ words))
            (λ s. stream_words s ≡ words) }
    {
        let stream = Stream::from_words_unchecked(words);
        if stream.to_words() == words {
            Some(stream)
        } else {
            None
        }
    }
}

/// The words of a stream give that stream.
#[tactic(auto, using(crate::proofs::WordLemmas::stream_is_read))]
pub fn words_are_read()
    ensures { (s : Stream) → stream_at (stream_words s) ≡ s }
{}
