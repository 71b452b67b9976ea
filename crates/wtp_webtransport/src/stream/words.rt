//! The state of a stream in numbers of a fixed size and bytes that are held, as a caller in C keeps
//! it.
ghost use Rattle.std.specs.Prelude.{◌≡◌, ◌≢◌, [], MatchBool, MatchOption, MatchResult};
ghost use Rattle.wtp_webtransport.specs.declared.stream.Stream.{Stream};
ghost use Rattle.wtp_webtransport.specs.Words.{bare_part, message_part, part_words, part_at, unread_words, unread_at, asked_words, asked_option_at, no_capsules, capsule_words, held_in, IsSound, stream_words, stream_at, AreWordsOf};

use crate::capsules::Capsules;
use crate::capsules::words::CapsuleWords;
use crate::stream::{Delay, Part, Stream, Unread};
use std::alloc::{AllocError, Global};
use wtp_connection::stream::Stream as Frames;
use wtp_connection::stream::words::StreamWords as FramesWords;
use wtp_frames::reader::words::flag_of;
use wtp_messages::message::Message;
use wtp_messages::message::words::MessageWords;
use wtp_messages::response::Asked;

/// How far the message of a stream went. Numbers that a variant does not have are 0.
#[repr(C)]
#[derive(Clone, Copy, PartialEq, Eq)]
pub struct PartWords {
    /// The message.
    pub message: MessageWords,
    /// How many of the next bytes are content of a session that was not read yet.
    pub size: usize,
    /// The variant, from 0 on.
    pub kind: u32,
    /// Whether a request asks for a session, or more content came after a session was closed: 1 or 0.
    pub flag: u32,
}

/// What is next in the bytes of a stream, and was found there before.
#[repr(C)]
#[derive(Clone, Copy, PartialEq, Eq)]
pub struct UnreadWords {
    /// The size of a field section.
    pub size: usize,
    /// How many insertions it needs.
    pub count: u64,
    /// The variant, from 0 on; the section that is too early has two, for SETTINGS and for the table.
    pub kind: u64,
}

/// The state of a [`Stream`]. The bytes of a capsule that is cut are held beside it.
#[repr(C)]
#[derive(Clone, Copy, PartialEq, Eq)]
pub struct StreamWords {
    /// The state of its frames.
    pub frames: FramesWords,
    /// The state of its message.
    pub part: PartWords,
    /// What is next in the bytes.
    pub unread: UnreadWords,
    /// The state of its capsules.
    pub capsules: CapsuleWords,
    /// What the request asked for, from 1 on, if the message is the response to it.
    pub asked: u64,
}

impl PartWords {
    // Creates the words of a variant without a message.
    fn bare(kind: u32) -> Self
        ensures { result ≡ bare_part kind }
    {
        PartWords {
            message: MessageWords::none(),
            size: 0,
            kind,
            flag: 0,
        }
    }

    // Creates the words of a variant with a message.
    fn with(kind: u32, flag: bool, message: Message) -> Self
        ensures { result ≡ message_part kind flag message }
    {
        PartWords {
            message: message.to_words(),
            size: 0,
            kind,
            flag: flag_of(flag) as u32,
        }
    }

    // Creates the words of a part.
    fn of(part: Part) -> Self
        ensures { result ≡ part_words part }
    {
        match part {
            Part::NoMessage => PartWords::bare(0),
            Part::OfSession => PartWords::bare(1),
            Part::Head(message) => PartWords::with(2, false, message),
            Part::Body(message) => PartWords::with(3, false, message),
            Part::Unanswered(session, message) => PartWords::with(4, session, message),
            Part::Tunnel => PartWords::bare(5),
            Part::Session(size) => PartWords {
                message: MessageWords::none(),
                size,
                kind: 6,
                flag: 0,
            },
            Part::Closed(more) => PartWords {
                message: MessageWords::none(),
                size: 0,
                kind: 7,
                flag: flag_of(more) as u32,
            },
            Part::Ending => PartWords::bare(8),
            Part::Losing => PartWords::bare(9),
            Part::Past => PartWords::bare(10),
        }
    }

    // Returns the part of these words.
    fn to_part(self) -> Part
        ensures { result ≡ part_at self }
    {
        match self.kind {
            0 => Part::NoMessage,
            1 => Part::OfSession,
            2 => Part::Head(Message::from_words_unchecked(self.message)),
            3 => Part::Body(Message::from_words_unchecked(self.message)),
            4 => Part::Unanswered(self.flag != 0, Message::from_words_unchecked(self.message)),
            5 => Part::Tunnel,
            6 => Part::Session(self.size),
            7 => Part::Closed(self.flag != 0),
            8 => Part::Ending,
            9 => Part::Losing,
            _ => Part::Past,
        }
    }
}

impl UnreadWords {
    // Creates the words of a variant.
    fn with(kind: u64, size: usize, count: u64) -> Self
        ensures { result ≡ record { size = size; count = count; kind = kind } }
    {
        UnreadWords { size, count, kind }
    }

    // Creates the words of what is next.
    fn of(unread: Unread) -> Self
        ensures { result ≡ unread_words unread }
    {
        match unread {
            Unread::Nothing => UnreadWords::with(0, 0, 0),
            Unread::Early(size, Delay::Settings) => UnreadWords::with(1, size, 0),
            Unread::Section(size) => UnreadWords::with(2, size, 0),
            Unread::Early(size, Delay::Table(required)) => UnreadWords::with(3, size, required),
        }
    }

    // Returns what is next by these words.
    fn to_unread(self) -> Unread
        ensures { result ≡ unread_at self }
    {
        match self.kind {
            0 => Unread::Nothing,
            1 => Unread::Early(self.size, Delay::Settings),
            2 => Unread::Section(self.size),
            _ => Unread::Early(self.size, Delay::Table(self.count)),
        }
    }
}

// Returns the number of what a request asked for.
fn asked_number(asked: Option<Asked>) -> u64
    ensures { result ≡ asked_words asked }
{
    match asked {
        None => 0,
        Some(asked) => 1 + asked.number() as u64,
    }
}

// Returns what a request asked for by its number.
fn asked_at(number: u64) -> Option<Asked>
    ensures { result ≡ asked_option_at number }
{
    match number {
        0 => None,
        1 => Some(Asked::Head),
        2 => Some(Asked::Connect),
        3 => Some(Asked::Session),
        _ => Some(Asked::Other),
    }
}

// Returns the words of the capsules.
fn words_of(capsules: &Option<Capsules>) -> CapsuleWords
    ensures words { result ≡ capsule_words capsules.now }
    ensures sound { IsSound capsules.now }
{
    match capsules {
        Some(capsules) => capsules.to_words(),
        None => CapsuleWords::none(),
    }
}

impl Stream {
    /// Returns the words of the stream.
    pub fn to_words(&self) -> StreamWords
        ensures words { result ≡ stream_words self.now }
        ensures sound { IsSound self.now.capsules }
    {
        StreamWords {
            frames: self.frames.to_words(),
            part: PartWords::of(self.part),
            unread: UnreadWords::of(self.unread),
            capsules: words_of(&self.capsules),
            asked: asked_number(self.asked),
        }
    }

    /// Returns the bytes that are held: of a capsule that is cut.
    pub fn held(&self) -> &[u8]
        ensures { result.now ≡ held_in self.now.capsules }
    {
        match &self.capsules {
            Some(capsules) => capsules.held(),
            None => &[],
        }
    }

    // Creates the stream of these words, with the bytes that are held. Other words than those of a
    // stream give any stream.
    fn from_words_unchecked(
        alloc: Global,
        words: StreamWords,
        held: &[u8],
    ) -> Result<Self, AllocError>
        ensures { MatchResult result (λ s. s ≡ stream_at words held.now) (λ _. held.now ≢ []) }
    {
        match Capsules::from_words(alloc, words.capsules, held) {
            Ok(capsules) => Ok(Stream {
                frames: Frames::from_words_unchecked(words.frames),
                part: words.part.to_part(),
                asked: asked_at(words.asked),
                unread: words.unread.to_unread(),
                capsules,
            }),
            Err(error) => Err(error),
        }
    }

    /// Creates the stream of these words, with the bytes that are [`held`](Self::held), or returns
    /// `None` if they are those of no stream.
    ///
    /// # Errors
    ///
    /// `AllocError` if allocation failed, which does not happen if no bytes are held.
    pub fn from_words(
        alloc: Global,
        words: StreamWords,
        held: &[u8],
    ) -> Result<Option<Self>, AllocError>
        ensures { MatchResult result
            (λ o. MatchOption o ((s : Stream) → IsSound s.capsules → ¬ (AreWordsOf s words held.now))
            (λ s. AreWordsOf s words held.now))
            (λ _. held.now ≢ []) }
    {
        match Stream::from_words_unchecked(alloc, words, held) {
            Ok(stream) => Ok(stream.if_of(words, held)),
            Err(error) => Err(error),
        }
    }

    // Returns this stream, which these words and bytes gave, if they are its own.
    #[tactic(auto, using(crate::proofs::WordLemmas::no_stream, crate::proofs::WordLemmas::no_bytes))]
    fn if_of(self, words: StreamWords, held: &[u8]) -> Option<Self>
        requires { self ≡ stream_at words held.now }
        ensures { MatchOption result ((s : Stream) → IsSound s.capsules → ¬ (AreWordsOf s words held.now))
            (λ s. AreWordsOf s words held.now) }
    {
        if !self.has_words(words) {
            return None;
        }
        if !self.has_held(held) {
            return None;
        }
        Some(self)
    }

    // Returns whether these are the words of the stream.
    fn has_words(&self, words: StreamWords) -> bool
        ensures { MatchBool result (stream_words self.now ≡ words) (¬ (stream_words self.now ≡ words)) }
    {
        self.to_words() == words
    }

    // Returns whether these are the bytes that are held.
    fn has_held(&self, held: &[u8]) -> bool
        ensures { MatchBool result (held_in self.now.capsules ≡ held.now)
            (¬ (held_in self.now.capsules ≡ held.now)) }
    {
        self.held() == held
    }
}

/// The words of a stream give that stream.
#[tactic(auto, using(crate::proofs::WordLemmas::stream_is_read))]
pub fn words_are_read()
    ensures { (s : Stream) → IsSound s.capsules → stream_at (stream_words s) (held_in s.capsules) ≡ s }
{}
