//! Capsule types (RFC 9297, sections 3.2, 3.5 and 5.4; WebTransport over HTTP/3).
ghost use Rattle.std.specs.Prelude.{◌≡◌, option_map};
ghost use Rattle.vesgrauf_registry.specs.Table.{shown};
ghost use Rattle.vesgrauf_registry.specs.Capsules.{capsule_of};

use crate::row::{self, CName, Row};

/// What a capsule says to its session, and so the form of its value.
#[derive(Clone, Copy, Debug, PartialEq, Eq)]
pub enum Meaning {
    /// A datagram: its payload.
    Datagram,
    /// The session is closed: a code of four bytes, and a reason.
    Close,
    /// The session will be closed soon. The value is empty.
    Drain,
    /// A limit of the session: one variable-length integer. The capsule is skipped.
    Limit,
    /// A limit of a stream: its ID and the limit. The capsule is skipped.
    StreamLimit,
}

/// What the standards say of a capsule type.
#[derive(Clone, Copy)]
pub struct Capsule {
    /// What it says to its session.
    pub meaning: Meaning,
    /// The longest value that is read, in bytes.
    pub longest: u64,
    /// Whether a capsule with a longer value is malformed. Otherwise it is skipped.
    pub bounded: bool,
}

// A limit of a session.
const LIMIT: Capsule = Capsule {
    meaning: Meaning::Limit,
    longest: 8,
    bounded: true,
};

// A limit of a stream.
const STREAM_LIMIT: Capsule = Capsule {
    meaning: Meaning::StreamLimit,
    longest: 16,
    bounded: true,
};

/// The capsule types.
pub static CAPSULES: [Row<Capsule>; 11] = [
    // RFC 9297, section 3.5
    Row {
        number: 0x00,
        name: "DATAGRAM",
        c_name: CName::Absent,
        columns: Capsule {
            meaning: Meaning::Datagram,
            longest: 65_535,
            bounded: false,
        },
    },
    // draft-ietf-webtrans-http3-02, section 5
    Row {
        number: 0x2843,
        name: "CLOSE_WEBTRANSPORT_SESSION",
        c_name: CName::Other("CLOSE_SESSION"),
        columns: Capsule {
            meaning: Meaning::Close,
            longest: 1028,
            bounded: true,
        },
    },
    // draft-ietf-webtrans-http3-07, section 4.6
    Row {
        number: 0x78ae,
        name: "DRAIN_WEBTRANSPORT_SESSION",
        c_name: CName::Absent,
        columns: Capsule {
            meaning: Meaning::Drain,
            longest: 0,
            bounded: true,
        },
    },
    // later drafts of WebTransport over HTTP/3
    Row {
        number: 0x190b_4d3d,
        name: "WT_MAX_DATA",
        c_name: CName::Absent,
        columns: LIMIT,
    },
    // later drafts of WebTransport over HTTP/3
    Row {
        number: 0x190b_4d3e,
        name: "WT_MAX_STREAM_DATA",
        c_name: CName::Absent,
        columns: STREAM_LIMIT,
    },
    // later drafts of WebTransport over HTTP/3
    Row {
        number: 0x190b_4d3f,
        name: "WT_MAX_STREAMS_BIDI",
        c_name: CName::Absent,
        columns: LIMIT,
    },
    // later drafts of WebTransport over HTTP/3
    Row {
        number: 0x190b_4d40,
        name: "WT_MAX_STREAMS_UNI",
        c_name: CName::Absent,
        columns: LIMIT,
    },
    // later drafts of WebTransport over HTTP/3
    Row {
        number: 0x190b_4d41,
        name: "WT_DATA_BLOCKED",
        c_name: CName::Absent,
        columns: LIMIT,
    },
    // later drafts of WebTransport over HTTP/3
    Row {
        number: 0x190b_4d42,
        name: "WT_STREAM_DATA_BLOCKED",
        c_name: CName::Absent,
        columns: STREAM_LIMIT,
    },
    // later drafts of WebTransport over HTTP/3
    Row {
        number: 0x190b_4d43,
        name: "WT_STREAMS_BLOCKED_BIDI",
        c_name: CName::Absent,
        columns: LIMIT,
    },
    // later drafts of WebTransport over HTTP/3
    Row {
        number: 0x190b_4d44,
        name: "WT_STREAMS_BLOCKED_UNI",
        c_name: CName::Absent,
        columns: LIMIT,
    },
];

/// Returns the row of a capsule type, or `None` if the type is not registered.
#[tactic(auto, unfolding(crate::specs::Capsules::capsule_of, crate::specs::Capsules::capsules, crate::specs::Table::row_among), using(crate::proofs::TableLemmas::shown_among))]
pub fn find_capsule(number: u64) -> Option<&'static Row<Capsule>>
    ensures { option_map (λ row. shown row.now) result ≡ capsule_of number }
{
    row::find(&CAPSULES, number)
}
