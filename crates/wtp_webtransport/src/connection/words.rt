//! The state of a connection in numbers of a fixed size, as a caller in C keeps it.
ghost use Rattle.std.specs.Prelude.{◌≡◌, IfSome, MatchBool, MatchOption};
ghost use Rattle.wtp_webtransport.specs.declared.connection.Connection.{Connection};
ghost use Rattle.wtp_webtransport.specs.Words.{connection_words, connection_at, without_table};

use crate::connection::{Connection, Streams};
use wtp_connection::connection::words::ConnectionWords as StreamsWords;
use wtp_frames::reader::words::{EndpointWords, OptionWords, flag_at, flag_of};

/// The state of a [`Connection`] but for its dynamic table, which has memory of its own.
#[repr(C)]
#[derive(Clone, Copy, PartialEq, Eq)]
pub struct ConnectionWords {
    /// The state of the frames of its streams.
    pub streams: StreamsWords,
    /// The receiving endpoint.
    pub endpoint: EndpointWords,
    /// The ID in the last GOAWAY of the peer.
    pub goaway: OptionWords,
    /// Whether this endpoint allows extended CONNECT: 1 or 0.
    pub extended: u8,
    /// Whether SETTINGS of the peer came: 1 or 0.
    pub configured: u8,
    /// Whether an error ended the connection: 1 or 0.
    pub over: u8,
    /// 0.
    pub reserved: u8,
    /// 0.
    pub reserved_word: u32,
}

impl Connection {
    /// Returns the words of the connection. They have nothing of its dynamic table.
    pub fn to_words(&self) -> ConnectionWords
        ensures { result ≡ connection_words self.now }
    {
        ConnectionWords {
            streams: self.streams.to_words(),
            endpoint: EndpointWords::of(self.endpoint),
            goaway: OptionWords::of(self.goaway),
            extended: flag_of(self.extended),
            configured: flag_of(self.configured),
            over: flag_of(self.over),
            reserved: 0,
            reserved_word: 0,
        }
    }

    // Creates the connection of these words. Other words than those of a connection give any
    // connection.
    fn from_words_unchecked(words: ConnectionWords) -> Self
        ensures { result ≡ connection_at words }
    {
        Connection {
            streams: Streams::from_words_unchecked(words.streams),
            endpoint: words.endpoint.to_endpoint(),
            extended: flag_at(words.extended),
            configured: flag_at(words.configured),
            goaway: words.goaway.to_option(),
            over: flag_at(words.over),
            decoder: None,
            read: None,
        }
    }

    /// Creates the connection of these words, without a dynamic table, or returns `None` if they are
    /// those of no connection.
    #[tactic(auto, using(crate::proofs::WordLemmas::no_connection))]
    pub fn from_words(words: ConnectionWords) -> Option<Self>
        ensures words { MatchOption result ((c : Connection) → ¬ (connection_words c ≡ words))
            (λ c. connection_words c ≡ words) }
        ensures alone { IfSome result (λ c. without_table c ≡ c) }
    {
        let connection = Connection::from_words_unchecked(words);
        if connection.has_words(words) {
            Some(connection)
        } else {
            None
        }
    }

    // Returns whether these are the words of the connection.
    fn has_words(&self, words: ConnectionWords) -> bool
        ensures { MatchBool result (connection_words self.now ≡ words)
            (¬ (connection_words self.now ≡ words)) }
    {
        let own = self.to_words();
        if !are_same(own.streams, words.streams) {
            return false;
        }
        if own.endpoint != words.endpoint || own.goaway != words.goaway {
            return false;
        }
        own.extended == words.extended
            && own.configured == words.configured
            && own.over == words.over
            && own.reserved == words.reserved
            && own.reserved_word == words.reserved_word
    }
}

// Returns whether two connections have the same words.
fn are_same(one: StreamsWords, other: StreamsWords) -> bool
    ensures { MatchBool result (one ≡ other) (¬ (one ≡ other)) }
{
    one == other
}

/// The words of a connection give that connection, without its dynamic table.
#[tactic(auto, using(crate::proofs::WordLemmas::connection_is_read))]
pub fn words_are_read()
    ensures { (c : Connection) → connection_at (connection_words c) ≡ without_table c }
{}
