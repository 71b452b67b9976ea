//! The state of the stream of a message in numbers of a fixed size, as a caller in C keeps it.
ghost use Rattle.std.specs.Prelude.{◌≡◌, MatchBool, MatchOption};
ghost use Rattle.wtp_messages.specs.Words.{role_number, role_at};
ghost use Rattle.wtp_sending.specs.declared.message.Sending.{Sending};
ghost use Rattle.wtp_sending.specs.Words.{peer_words, peer_at, bare_place, place_words, place_at, sending_words, sending_at, IsOfRequest};

use super::{Place, Sending};
use crate::peer::Peer;
use wtp_core::ids::SessionId;
use wtp_core::varint::VarInt;
use wtp_frames::reader::words::{flag_at, flag_of};
use wtp_messages::message::words::MessageWords;
use wtp_messages::message::{Message, Role};
use wtp_messages::response::Asked;

/// A [`Peer`].
#[repr(C)]
#[derive(Clone, Copy, PartialEq, Eq)]
pub struct PeerWords {
    /// The largest field section, or `u64::MAX`.
    pub max_section: u64,
    /// Whether extended CONNECT is allowed: 1 or 0.
    pub extended_connect: u8,
    /// Whether sessions are: 1 or 0.
    pub sessions: u8,
    /// 0.
    pub reserved: u16,
    /// 0.
    pub reserved_half: u32,
}

/// How much of a message was sent. Numbers that a variant does not have are 0.
#[repr(C)]
#[derive(Clone, Copy, PartialEq, Eq)]
pub struct PlaceWords {
    /// The variant, from 1 on.
    pub kind: u16,
    /// How many interim responses were sent.
    pub interims: u8,
    /// Whether a CONNECT request that is not answered asks for a session: 1 or 0.
    pub session: u8,
}

/// The state of a [`Sending`].
#[repr(C)]
#[derive(Clone, Copy, PartialEq, Eq)]
pub struct SendingWords {
    /// The ID of the stream.
    pub id: u64,
    /// How many bytes of the last DATA frame are still to be sent.
    pub owed: u64,
    /// The message.
    pub message: MessageWords,
    /// What the peer allows.
    pub peer: PeerWords,
    /// How much was sent.
    pub place: PlaceWords,
    /// The role, with the number that it has in the words of a message.
    pub role: u16,
    /// 0.
    pub reserved: u16,
}

// Returns the number of a role.
fn number_of(role: Role) -> u16
    ensures { result ≡ role_number role }
{
    match role {
        Role::Request(false) => 0,
        Role::Request(true) => 1,
        Role::Response(asked) => 2 + asked.number(),
    }
}

// Returns the role of a number.
fn role_of(number: u16) -> Role
    ensures { result ≡ role_at number }
{
    match number {
        0 => Role::Request(false),
        1 => Role::Request(true),
        _ => Role::Response(Asked::at(number - 2)),
    }
}

impl PeerWords {
    // Creates the words of what a peer allows.
    fn of(peer: Peer) -> Self
        ensures { result ≡ peer_words peer }
    {
        PeerWords {
            max_section: peer.max_section,
            extended_connect: flag_of(peer.extended_connect),
            sessions: flag_of(peer.sessions),
            reserved: 0,
            reserved_half: 0,
        }
    }

    // Returns what the peer allows.
    fn to_peer(self) -> Peer
        ensures { result ≡ peer_at self }
    {
        Peer {
            extended_connect: flag_at(self.extended_connect),
            sessions: flag_at(self.sessions),
            max_section: self.max_section,
        }
    }
}

impl PlaceWords {
    // Creates the words of a variant without numbers.
    fn bare(kind: u16) -> Self
        ensures { result ≡ bare_place kind }
    {
        PlaceWords {
            kind,
            interims: 0,
            session: 0,
        }
    }

    // Creates the words of a place.
    fn of(place: Place) -> Self
        ensures { result ≡ place_words place }
    {
        match place {
            Place::Head(interims) => PlaceWords {
                kind: 1,
                interims,
                session: 0,
            },
            Place::Content => PlaceWords::bare(2),
            Place::Connecting(session) => PlaceWords {
                kind: 3,
                interims: 0,
                session: flag_of(session),
            },
            Place::Tunnel => PlaceWords::bare(4),
            Place::Session => PlaceWords::bare(5),
            Place::Trailers => PlaceWords::bare(6),
            Place::Ended => PlaceWords::bare(7),
        }
    }

    // Returns the place of these words.
    fn to_place(self) -> Place
        ensures { result ≡ place_at self }
    {
        match self.kind {
            1 => Place::Head(self.interims),
            2 => Place::Content,
            3 => Place::Connecting(flag_at(self.session)),
            4 => Place::Tunnel,
            5 => Place::Session,
            6 => Place::Trailers,
            _ => Place::Ended,
        }
    }
}

impl Sending {
    /// Returns the words of the state.
    pub fn to_words(&self) -> SendingWords
        ensures words { result ≡ sending_words self.now }
        ensures request { IsOfRequest self.now.id }
    {
        SendingWords {
            id: self.id.into_u64(),
            owed: self.owed,
            message: self.message.to_words(),
            peer: PeerWords::of(self.peer),
            place: PlaceWords::of(self.place),
            role: number_of(self.role),
            reserved: 0,
        }
    }

    // Creates the state on the stream with this ID of the words that follow it.
    fn from_words_unchecked(id: SessionId, words: SendingWords) -> Self
        ensures { result ≡ record (sending_at words) { id = id } }
    {
        Sending {
            id,
            role: role_of(words.role),
            peer: words.peer.to_peer(),
            message: Message::from_words_unchecked(words.message),
            place: words.place.to_place(),
            owed: words.owed,
        }
    }

    // Returns whether these are the words of the state.
    fn has_words(&self, words: SendingWords) -> bool
        ensures { MatchBool result (sending_words self.now ≡ words)
            (¬ (sending_words self.now ≡ words)) }
    {
        let own = self.to_words();
        if own.message != words.message || own.peer != words.peer {
            return false;
        }
        if own.place != words.place {
            return false;
        }
        own.id == words.id
            && own.owed == words.owed
            && own.role == words.role
            && own.reserved == words.reserved
    }

    /// Creates the state of these words, or returns `None` if they are those of no state.
    #[tactic(auto, using(crate::proofs::WordLemmas::no_sending, crate::proofs::WordLemmas::no_number, crate::proofs::WordLemmas::no_request))]
    pub fn from_words(words: SendingWords) -> Option<Self>
        ensures { MatchOption result
            ((s : Sending) → IsOfRequest s.id → ¬ (sending_words s ≡ words))
            (λ s. sending_words s ≡ words) }
    {
        let Ok(number) = VarInt::try_from_u64(words.id) else {
            return None;
        };
        let Ok(id) = SessionId::try_from_varint(number) else {
            return None;
        };
        let sending = Sending::from_words_unchecked(id, words);
        if sending.has_words(words) {
            Some(sending)
        } else {
            None
        }
    }
}

/// The words of a state give that state.
#[tactic(auto, using(crate::proofs::WordLemmas::sending_is_read))]
pub fn words_are_read()
    ensures { (s : Sending) → sending_at (sending_words s) ≡ s }
{}
