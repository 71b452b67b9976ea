//! Types of unidirectional streams (RFC 9114, sections 6.2 and 11.2.4; RFC 9204, sections 4.2 and
//! 8.2; draft-ietf-webtrans-http3-02, section 4.1).
ghost use Rattle.std.specs.Prelude.{◌≡◌, option_map};
ghost use Rattle.vesgrauf_registry.specs.Streams.{shown_stream, stream_of};

use crate::row::{self, CName, Row};
use crate::sender::Sender;

/// What follows the type of a stream.
#[derive(Clone, Copy, Debug, PartialEq, Eq)]
pub enum StreamContent {
    /// The frames of the control stream.
    Control,
    /// A push ID, and then the frames of a response.
    Push,
    /// Encoder instructions of QPACK.
    Encoder,
    /// Decoder instructions of QPACK.
    Decoder,
    /// A session ID, and then the bytes of the application.
    Session,
}

/// What the standards say of a type of unidirectional streams.
#[derive(Clone, Copy)]
pub struct UniStream {
    /// The purpose of the stream, as it is printed.
    pub purpose: &'static str,
    /// What follows the type.
    pub content: StreamContent,
    /// Whether each endpoint opens at most one, which must not be closed.
    pub critical: bool,
    /// Who opens it.
    pub opener: Sender,
}

/// The types of unidirectional streams.
pub static STREAMS: [Row<UniStream>; 5] = [
    // RFC 9114, section 6.2.1
    Row {
        number: 0x00,
        name: "Control Stream",
        c_name: CName::Other("CONTROL"),
        columns: UniStream {
            purpose: "control",
            content: StreamContent::Control,
            critical: true,
            opener: Sender::Both,
        },
    },
    // RFC 9114, section 6.2.2
    Row {
        number: 0x01,
        name: "Push Stream",
        c_name: CName::Absent,
        columns: UniStream {
            purpose: "push",
            content: StreamContent::Push,
            critical: false,
            opener: Sender::Server,
        },
    },
    // RFC 9204, section 4.2
    Row {
        number: 0x02,
        name: "QPACK Encoder Stream",
        c_name: CName::Other("QPACK_ENCODER"),
        columns: UniStream {
            purpose: "QPACK encoder",
            content: StreamContent::Encoder,
            critical: true,
            opener: Sender::Both,
        },
    },
    // RFC 9204, section 4.2
    Row {
        number: 0x03,
        name: "QPACK Decoder Stream",
        c_name: CName::Other("QPACK_DECODER"),
        columns: UniStream {
            purpose: "QPACK decoder",
            content: StreamContent::Decoder,
            critical: true,
            opener: Sender::Both,
        },
    },
    // draft-ietf-webtrans-http3-02, section 4.1
    Row {
        number: 0x54,
        name: "WebTransport stream",
        c_name: CName::Other("WEBTRANSPORT"),
        columns: UniStream {
            purpose: "WebTransport",
            content: StreamContent::Session,
            critical: false,
            opener: Sender::Both,
        },
    },
];

/// Returns the row of a stream type, or `None` if the type is not registered.
#[tactic(auto, unfolding(crate::specs::Streams::stream_of, crate::specs::Streams::streams, crate::specs::Table::row_among), using(crate::proofs::TableLemmas::shown_among))]
pub fn find_stream(number: u64) -> Option<&'static Row<UniStream>>
    ensures { option_map (λ row. shown_stream row.now) result ≡ stream_of number }
{
    row::find(&STREAMS, number)
}
