//! The state of a connection in numbers of a fixed size, as a caller in C keeps it.
ghost use Rattle.std.specs.Prelude.{◌≡◌, MatchOption};
ghost use Rattle.wtp_connection.specs.declared.connection.Connection.{Connection};
ghost use Rattle.wtp_connection.specs.Words.{connection_words, connection_at};

use crate::connection::Connection;
use crate::requests::Begun;
use crate::requests::words::BegunWords;
use crate::settings::PeerSettings;
use crate::settings::words::SettingsWords;
use wtp_frames::reader::words::{EndpointWords, flag_at, flag_of};

/// The state of a [`Connection`].
#[repr(C)]
#[derive(Clone, Copy, PartialEq, Eq)]
pub struct ConnectionWords {
    /// The receiving endpoint.
    pub endpoint: EndpointWords,
    /// Whether the peer opened its control stream: 1 or 0.
    pub control: u8,
    /// Whether the peer opened its encoder stream: 1 or 0.
    pub encoder: u8,
    /// Whether the peer opened its decoder stream: 1 or 0.
    pub decoder: u8,
    /// Whether the settings of the peer are remembered: 1 or 0.
    pub resumed: u8,
    /// How many streams wait for sessions that are to come.
    pub waiting: u32,
    /// The settings of the peer.
    pub peer: SettingsWords,
    /// At a server, which requests of the client have begun.
    pub begun: BegunWords,
    /// Whether an error ended the connection: 1 or 0.
    pub over: u64,
}

impl Connection {
    /// Returns the words of the connection.
    pub fn to_words(&self) -> ConnectionWords
        ensures { result ≡ connection_words self.now }
    {
        ConnectionWords {
            endpoint: EndpointWords::of(self.endpoint),
            control: flag_of(self.control),
            encoder: flag_of(self.encoder),
            decoder: flag_of(self.decoder),
            resumed: flag_of(self.resumed),
            waiting: self.waiting,
            peer: self.peer.to_words(),
            begun: self.begun.to_words(),
            over: flag_of(self.over) as u64,
        }
    }

    /// Creates the connection of these words. Other words than those of a connection give any
    /// connection.
    pub fn from_words_unchecked(words: ConnectionWords) -> Self
        ensures { result ≡ connection_at words }
    {
        Connection {
            endpoint: words.endpoint.to_endpoint(),
            control: flag_at(words.control),
            encoder: flag_at(words.encoder),
            decoder: flag_at(words.decoder),
            waiting: words.waiting,
            peer: PeerSettings::from_words(words.peer),
            resumed: flag_at(words.resumed),
            begun: Begun::from_words(words.begun),
            over: words.over != 0,
        }
    }

    /// Creates the connection of these words, or returns `None` if they are those of no connection.
    #[tactic(auto, using(crate::proofs::WordLemmas::no_connection))]
    pub fn from_words(words: ConnectionWords) -> Option<Self>
        ensures { MatchOption result ((c : Connection) → ¬ (connection_words c ≡ words))
            (λ c. connection_words c ≡ words) }
    {
        let connection = Connection::from_words_unchecked(words);
        if connection.to_words() == words {
            Some(connection)
        } else {
            None
        }
    }
}

/// The words of a connection give that connection.
#[tactic(auto, using(crate::proofs::WordLemmas::connection_is_read))]
pub fn words_are_read()
    ensures { (c : Connection) → connection_at (connection_words c) ≡ c }
{}
