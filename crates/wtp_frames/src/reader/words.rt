//! The state of a reader in numbers of a fixed size, as a caller in C keeps it.
ghost use Rattle.std.specs.Prelude.{◌≡◌, MatchOption};
ghost use Rattle.wtp_frames.specs.declared.reader.Reader.{Reader};
ghost use Rattle.wtp_frames.specs.Words.{flag_number, flag_at as flag_at_is, optional_words, optional_at, side_number, side_at, fault_number, fault_at, endpoint_words, endpoint_at, bare_place, place_words, place_at, no_reader, reader_words, reader_at};

use crate::endpoint::{Endpoint, Side};
use crate::fault::Fault;
use crate::reader::{Place, Reader};

/// A number that may be absent.
#[repr(C)]
#[derive(Clone, Copy, PartialEq, Eq)]
pub struct OptionWords {
    /// Whether there is a number: 1 or 0.
    pub present: u64,
    /// The number, or 0.
    pub value: u64,
}

/// An [`Endpoint`].
#[repr(C)]
#[derive(Clone, Copy, PartialEq, Eq)]
pub struct EndpointWords {
    /// The largest encoded field section that is returned, in bytes.
    pub max_section: u32,
    /// The side: 0 for a client, 1 for a server.
    pub side: u8,
    /// Whether WebTransport is enabled: 1 or 0.
    pub webtransport: u8,
    /// Whether datagrams are enabled: 1 or 0.
    pub datagrams: u8,
    /// 0.
    pub reserved: u8,
}

/// A [`Place`]. Numbers that a variant does not have are 0.
#[repr(C)]
#[derive(Clone, Copy, PartialEq, Eq)]
pub struct PlaceWords {
    /// The variant, from 0 on.
    pub kind: u32,
    /// The error: the variant of [`Fault`], from 0 on.
    pub fault: u32,
    /// The last GOAWAY.
    pub goaway: OptionWords,
    /// The last MAX_PUSH_ID.
    pub push: OptionWords,
}

/// The state of a [`Reader`].
#[repr(C)]
#[derive(Clone, Copy, PartialEq, Eq)]
pub struct ReaderWords {
    /// The receiving endpoint.
    pub endpoint: EndpointWords,
    /// How far the stream went.
    pub place: PlaceWords,
    /// How many bytes of a payload are still to come.
    pub remaining: u64,
    /// Whether these are returned, as pieces of DATA: 1 or 0.
    pub streamed: u64,
    /// How many frames without content came, one after the other.
    pub idle: u32,
    /// How many interim responses came.
    pub interims: u32,
}

/// Returns 1 for `true` and 0 for `false`.
pub fn flag_of(flag: bool) -> u8
    ensures { result ≡ flag_number flag }
{
    if flag { 1 } else { 0 }
}

/// Returns whether a flag is set.
pub fn flag_at(number: u8) -> bool
    ensures { result ≡ flag_at_is number }
{
    number != 0
}

impl OptionWords {
    /// Creates the words of a number that may be absent.
    pub fn of(number: Option<u64>) -> Self
        ensures { result ≡ optional_words number }
    {
        match number {
            Some(value) => OptionWords { present: 1, value },
            None => OptionWords {
                present: 0,
                value: 0,
            },
        }
    }

    /// Returns the number.
    pub fn to_option(self) -> Option<u64>
        ensures { result ≡ optional_at self }
    {
        if self.present != 0 {
            Some(self.value)
        } else {
            None
        }
    }
}

impl Side {
    // Returns the number of the side.
    fn number(self) -> u8
        ensures { result ≡ side_number self }
    {
        match self {
            Side::Client => 0,
            Side::Server => 1,
        }
    }

    // Returns the side of a number.
    fn at(number: u8) -> Self
        ensures { result ≡ side_at number }
    {
        match number {
            0 => Side::Client,
            _ => Side::Server,
        }
    }
}

impl Fault {
    /// Returns the number of the variant, from 0 on.
    pub fn number(self) -> u32
        ensures { result ≡ fault_number self }
    {
        match self {
            Fault::ClosedCriticalStream => 0,
            Fault::FrameUnexpected => 1,
            Fault::Frame => 2,
            Fault::ExcessiveLoad => 3,
            Fault::TooManyInterim => 4,
            Fault::Id => 5,
            Fault::MissingSettings => 6,
            Fault::RequestIncomplete => 7,
            Fault::Message => 8,
            Fault::StreamCreation => 9,
            Fault::BufferedStreamRejected => 10,
            Fault::SessionGone => 11,
        }
    }

    // Returns the variant of a number.
    fn at(number: u32) -> Self
        ensures { result ≡ fault_at number }
    {
        match number {
            0 => Fault::ClosedCriticalStream,
            1 => Fault::FrameUnexpected,
            2 => Fault::Frame,
            3 => Fault::ExcessiveLoad,
            4 => Fault::TooManyInterim,
            5 => Fault::Id,
            6 => Fault::MissingSettings,
            7 => Fault::RequestIncomplete,
            8 => Fault::Message,
            9 => Fault::StreamCreation,
            10 => Fault::BufferedStreamRejected,
            _ => Fault::SessionGone,
        }
    }
}

impl EndpointWords {
    /// Creates the words of an endpoint.
    pub fn of(endpoint: Endpoint) -> Self
        ensures { result ≡ endpoint_words endpoint }
    {
        EndpointWords {
            max_section: endpoint.max_section,
            side: endpoint.side.number(),
            webtransport: flag_of(endpoint.webtransport),
            datagrams: flag_of(endpoint.datagrams),
            reserved: 0,
        }
    }

    /// Returns the endpoint of these words. Other words than those of an endpoint give any one.
    pub fn to_endpoint(self) -> Endpoint
        ensures { result ≡ endpoint_at self }
    {
        Endpoint {
            side: Side::at(self.side),
            webtransport: flag_at(self.webtransport),
            datagrams: flag_at(self.datagrams),
            max_section: self.max_section,
        }
    }
}

impl PlaceWords {
    // Creates the words of a variant without numbers.
    fn bare(kind: u32) -> Self
        ensures { result ≡ bare_place kind }
    {
        PlaceWords {
            kind,
            fault: 0,
            goaway: OptionWords::of(None),
            push: OptionWords::of(None),
        }
    }

    // Creates the words of a place.
    fn of(place: Place) -> Self
        ensures { result ≡ place_words place }
    {
        match place {
            Place::BeforeHeaders => PlaceWords::bare(0),
            Place::Body => PlaceWords::bare(1),
            Place::AfterTrailers => PlaceWords::bare(2),
            Place::Tunnel => PlaceWords::bare(3),
            Place::BeforeSettings => PlaceWords::bare(4),
            Place::AfterSettings(goaway, push) => PlaceWords {
                kind: 5,
                fault: 0,
                goaway: OptionWords::of(goaway),
                push: OptionWords::of(push),
            },
            Place::Failed(fault) => PlaceWords {
                kind: 6,
                fault: fault.number(),
                goaway: OptionWords::of(None),
                push: OptionWords::of(None),
            },
        }
    }

    // Returns the place of these words.
    fn to_place(self) -> Place
        ensures { result ≡ place_at self }
    {
        match self.kind {
            0 => Place::BeforeHeaders,
            1 => Place::Body,
            2 => Place::AfterTrailers,
            3 => Place::Tunnel,
            4 => Place::BeforeSettings,
            5 => Place::AfterSettings(self.goaway.to_option(), self.push.to_option()),
            _ => Place::Failed(Fault::at(self.fault)),
        }
    }
}

impl ReaderWords {
    /// Creates the words where there is no reader: 0.
    pub fn none() -> Self
        ensures { result ≡ no_reader }
    {
        ReaderWords {
            endpoint: EndpointWords {
                max_section: 0,
                side: 0,
                webtransport: 0,
                datagrams: 0,
                reserved: 0,
            },
            place: PlaceWords::bare(0),
            remaining: 0,
            streamed: 0,
            idle: 0,
            interims: 0,
        }
    }
}

impl Reader {
    /// Returns the words of the reader.
    pub fn to_words(&self) -> ReaderWords
        ensures { result ≡ reader_words self.now }
    {
        ReaderWords {
            endpoint: EndpointWords::of(self.endpoint),
            place: PlaceWords::of(self.place),
            remaining: self.remaining,
            streamed: flag_of(self.streamed) as u64,
            idle: self.idle,
            interims: self.interims,
        }
    }

    /// Creates the reader of these words. Other words than those of a reader give any reader.
    pub fn from_words_unchecked(words: ReaderWords) -> Self
        ensures { result ≡ reader_at words }
    {
        Reader {
            endpoint: words.endpoint.to_endpoint(),
            place: words.place.to_place(),
            remaining: words.remaining,
            streamed: words.streamed != 0,
            idle: words.idle,
            interims: words.interims,
        }
    }

    /// Creates the reader of these words, or returns `None` if they are those of no reader.
    #[tactic(auto, using(crate::proofs::WordLemmas::is_read))]
    pub fn from_words(words: ReaderWords) -> Option<Self>
        ensures { MatchOption result ((r : Reader) → ¬ (reader_words r ≡ words))
            (λ r. reader_words r ≡ words) }
    {
        let reader = Reader::from_words_unchecked(words);
        if reader.to_words() == words {
            Some(reader)
        } else {
            None
        }
    }
}

/// The words of a reader give that reader.
#[tactic(auto, using(crate::proofs::WordLemmas::is_read))]
pub fn words_are_read()
    ensures { (r : Reader) → reader_at (reader_words r) ≡ r }
{}
