//! Messages on their streams (RFC 9114, sections 4.1, 4.1.2, 4.2 and 4.4; RFC 9204, section 4.5 and
//! Appendix A).
use crate::playing::{Case, play};
use std::alloc::Global;
use std::process::Abort;
use wtp_messages::response::Asked;

/// A stream, and the text of its events.
pub(crate) struct Row {
    pub(crate) case: Case,
    pub(crate) bytes: &'static [u8],
    pub(crate) events: &'static str,
}

/// Requests.
static REQUESTS: [Row; 26] = [
    Row {
        case: Case::Request,
        bytes: &[0x01, 0x08, 0x00, 0x00, 0xd1, 0xd7, 0xc1, 0x50, 0x01, 0x61],
        events: "request 4; end; ",
    },
    // POST with content-length 3 in two DATA frames, and trailers (x: y)
    Row {
        case: Case::Request,
        bytes: &[
            0x01, 0x0b, 0x00, 0x00, 0xd4, 0xd7, 0xc1, 0x50, 0x01, 0x61, 0x54, 0x01, 0x33, 0x00,
            0x02, 0x61, 0x62, 0x00, 0x01, 0x63, 0x01, 0x06, 0x00, 0x00, 0x21, 0x78, 0x01, 0x79,
        ],
        events: "request 5; data 3; trailers; end; ",
    },
    // content-length 3, and 2 bytes
    Row {
        case: Case::Request,
        bytes: &[
            0x01, 0x0b, 0x00, 0x00, 0xd4, 0xd7, 0xc1, 0x50, 0x01, 0x61, 0x54, 0x01, 0x33, 0x00,
            0x02, 0x61, 0x62,
        ],
        events: "request 5; data 2; malformed: the content is shorter than announced; ",
    },
    // content-length 3, and 4 bytes
    Row {
        case: Case::Request,
        bytes: &[
            0x01, 0x0b, 0x00, 0x00, 0xd4, 0xd7, 0xc1, 0x50, 0x01, 0x61, 0x54, 0x01, 0x33, 0x00,
            0x04, 0x61, 0x62, 0x63, 0x64,
        ],
        events: "request 5; malformed: the content is longer than announced; ",
    },
    // content-length 3, and 2 bytes in each of two DATA frames
    Row {
        case: Case::Request,
        bytes: &[
            0x01, 0x0b, 0x00, 0x00, 0xd4, 0xd7, 0xc1, 0x50, 0x01, 0x61, 0x54, 0x01, 0x33, 0x00,
            0x02, 0x61, 0x62, 0x00, 0x02, 0x63, 0x64,
        ],
        events: "request 5; data 2; malformed: the content is longer than announced; ",
    },
    // content-length 3, and the first byte of a DATA frame of 4
    Row {
        case: Case::Request,
        bytes: &[
            0x01, 0x0b, 0x00, 0x00, 0xd4, 0xd7, 0xc1, 0x50, 0x01, 0x61, 0x54, 0x01, 0x33, 0x00,
            0x04, 0x61,
        ],
        events: "request 5; malformed: the content is longer than announced; ",
    },
    // content-length 1, and the end after the head of a DATA frame of 2 (RFC 9114, section 7.1)
    Row {
        case: Case::Request,
        bytes: &[
            0x01, 0x0b, 0x00, 0x00, 0xd4, 0xd7, 0xc1, 0x50, 0x01, 0x61, 0x54, 0x01, 0x31, 0x00,
            0x02,
        ],
        events: "request 5; connection error 262; ",
    },
    // content-length 0, and a byte
    Row {
        case: Case::Request,
        bytes: &[
            0x01, 0x09, 0x00, 0x00, 0xd4, 0xd7, 0xc1, 0x50, 0x01, 0x61, 0xc4, 0x00, 0x01, 0x61,
        ],
        events: "request 5; malformed: the content is longer than announced; ",
    },
    // no :path
    Row {
        case: Case::Request,
        bytes: &[
            0x01, 0x07, 0x00, 0x00, 0xd1, 0xd7, 0x50, 0x01, 0x61, 0x00, 0x00,
        ],
        events: "malformed: there is no :path; ",
    },
    // a dynamic line
    Row {
        case: Case::Request,
        bytes: &[0x01, 0x03, 0x00, 0x00, 0x80],
        events: "connection error 512; ",
    },
    // an index after the last of the static table, 98
    Row {
        case: Case::Request,
        bytes: &[0x01, 0x04, 0x00, 0x00, 0xff, 0x24],
        events: "connection error 512; ",
    },
    // an index of 2^64 or more
    Row {
        case: Case::Request,
        bytes: &[
            0x01, 0x0d, 0x00, 0x00, 0xff, 0xff, 0xff, 0xff, 0xff, 0xff, 0xff, 0xff, 0xff, 0xff,
            0x7f,
        ],
        events: "connection error 512; ",
    },
    // Huffman text that is a padding of eight bits
    Row {
        case: Case::Request,
        bytes: &[0x01, 0x05, 0x00, 0x00, 0x51, 0x81, 0xff],
        events: "connection error 512; ",
    },
    // a Required Insert Count of 1
    Row {
        case: Case::Request,
        bytes: &[0x01, 0x08, 0x01, 0x00, 0xd1, 0xd7, 0xc1, 0x50, 0x01, 0x61],
        events: "connection error 512; ",
    },
    // a Sign bit of 1, with a Delta Base of 0 and of 5
    Row {
        case: Case::Request,
        bytes: &[0x01, 0x08, 0x00, 0x80, 0xd1, 0xd7, 0xc1, 0x50, 0x01, 0x61],
        events: "connection error 512; ",
    },
    Row {
        case: Case::Request,
        bytes: &[0x01, 0x08, 0x00, 0x85, 0xd1, 0xd7, 0xc1, 0x50, 0x01, 0x61],
        events: "connection error 512; ",
    },
    // a Delta Base of 5 without it
    Row {
        case: Case::Request,
        bytes: &[0x01, 0x08, 0x00, 0x05, 0xd1, 0xd7, 0xc1, 0x50, 0x01, 0x61],
        events: "request 4; end; ",
    },
    // trailers with a Required Insert Count of 1
    Row {
        case: Case::Request,
        bytes: &[
            0x01, 0x08, 0x00, 0x00, 0xd1, 0xd7, 0xc1, 0x50, 0x01, 0x61, 0x01, 0x06, 0x01, 0x00,
            0x21, 0x78, 0x01, 0x79,
        ],
        events: "request 4; connection error 512; ",
    },
    // no prefix, and one that is cut
    Row {
        case: Case::Request,
        bytes: &[0x01, 0x00],
        events: "connection error 512; ",
    },
    Row {
        case: Case::Request,
        bytes: &[0x01, 0x01, 0x00],
        events: "connection error 512; ",
    },
    // DATA before HEADERS
    Row {
        case: Case::Request,
        bytes: &[0x00, 0x01, 0x61],
        events: "connection error 261; ",
    },
    // no HEADERS
    Row {
        case: Case::Request,
        bytes: &[],
        events: "stream error 269; ",
    },
    // a second header section as trailers: a pseudo-header field
    Row {
        case: Case::Request,
        bytes: &[
            0x01, 0x08, 0x00, 0x00, 0xd1, 0xd7, 0xc1, 0x50, 0x01, 0x61, 0x01, 0x03, 0x00, 0x00,
            0xd1,
        ],
        events: "request 4; malformed: a pseudo-header field is not defined here; ",
    },
    // the head of a section of 65,537 bytes, and that of such trailers
    Row {
        case: Case::Request,
        bytes: &[0x01, 0x80, 0x01, 0x00, 0x01],
        events: "too large; ",
    },
    Row {
        case: Case::Request,
        bytes: &[
            0x01, 0x08, 0x00, 0x00, 0xd1, 0xd7, 0xc1, 0x50, 0x01, 0x61, 0x01, 0x80, 0x01, 0x00,
            0x01, 0x00,
        ],
        events: "request 4; too large; connection error 262; ",
    },
    // nine lines of at least 34 bytes
    Row {
        case: Case::Request,
        bytes: &[
            0x01, 0x0b, 0x00, 0x00, 0xd1, 0xd1, 0xd1, 0xd1, 0xd1, 0xd1, 0xd1, 0xd1, 0xd1, 0x00,
            0x01, 0x61,
        ],
        events: "too large; ",
    },
];

/// CONNECT a:1 and its answers.
static TUNNELS: [Row; 10] = [
    Row {
        case: Case::Request,
        bytes: &[
            0x01, 0x08, 0x00, 0x00, 0xcf, 0x50, 0x03, 0x61, 0x3a, 0x31, 0x00, 0x01, 0x61,
        ],
        events: "request 2; waits; ",
    },
    Row {
        case: Case::Answered(200),
        bytes: &[
            0x01, 0x08, 0x00, 0x00, 0xcf, 0x50, 0x03, 0x61, 0x3a, 0x31, 0x00, 0x01, 0x61, 0x00,
            0x01, 0x62,
        ],
        events: "request 2; data 2; end; ",
    },
    // no port (RFC 9110, section 9.3.6)
    Row {
        case: Case::Request,
        bytes: &[0x01, 0x06, 0x00, 0x00, 0xcf, 0x50, 0x01, 0x61],
        events: "malformed: the authority is invalid; ",
    },
    // trailers in a tunnel
    Row {
        case: Case::Answered(299),
        bytes: &[
            0x01, 0x08, 0x00, 0x00, 0xcf, 0x50, 0x03, 0x61, 0x3a, 0x31, 0x00, 0x01, 0x61, 0x01,
            0x06, 0x00, 0x00, 0x21, 0x78, 0x01, 0x79,
        ],
        events: "request 2; data 1; connection error 261; ",
    },
    // the response to CONNECT, with a content-length, which means nothing
    Row {
        case: Case::Response(Asked::Connect),
        bytes: &[
            0x01, 0x06, 0x00, 0x00, 0xd9, 0x54, 0x01, 0x33, 0x00, 0x01, 0x61,
        ],
        events: "response 200; data 1; end; ",
    },
    // the head of HEADERS in a tunnel, after an unknown frame
    Row {
        case: Case::Answered(200),
        bytes: &[
            0x01, 0x08, 0x00, 0x00, 0xcf, 0x50, 0x03, 0x61, 0x3a, 0x31, 0x21, 0x01, 0x00, 0x00,
            0x01, 0x61, 0x01, 0x40, 0x64,
        ],
        events: "request 2; data 1; connection error 261; ",
    },
    // the head of PUSH_PROMISE in a tunnel, at a client
    Row {
        case: Case::Response(Asked::Connect),
        bytes: &[0x01, 0x03, 0x00, 0x00, 0xd9, 0x00, 0x01, 0x61, 0x05, 0x03],
        events: "response 200; data 1; connection error 261; ",
    },
    // a DATA frame that is cut in a tunnel
    Row {
        case: Case::Response(Asked::Connect),
        bytes: &[0x01, 0x03, 0x00, 0x00, 0xd9, 0x00, 0x02, 0x61],
        events: "response 200; data 1; connection error 262; ",
    },
    // trailers after a refusal
    Row {
        case: Case::Answered(405),
        bytes: &[
            0x01, 0x08, 0x00, 0x00, 0xcf, 0x50, 0x03, 0x61, 0x3a, 0x31, 0x00, 0x01, 0x61, 0x01,
            0x06, 0x00, 0x00, 0x21, 0x78, 0x01, 0x79,
        ],
        events: "request 2; data 1; trailers; end; ",
    },
    // the response to CONNECT, with trailers
    Row {
        case: Case::Response(Asked::Connect),
        bytes: &[
            0x01, 0x03, 0x00, 0x00, 0xd9, 0x00, 0x01, 0x61, 0x01, 0x06, 0x00, 0x00, 0x21, 0x78,
            0x01, 0x79,
        ],
        events: "response 200; data 1; connection error 261; ",
    },
];

/// Responses.
static RESPONSES: [Row; 12] = [
    Row {
        case: Case::Response(Asked::Other),
        bytes: &[0x01, 0x03, 0x00, 0x00, 0xd9, 0x00, 0x02, 0x61, 0x62],
        events: "response 200; data 2; end; ",
    },
    // after two interim ones
    Row {
        case: Case::Response(Asked::Other),
        bytes: &[
            0x01, 0x03, 0x00, 0x00, 0xd8, 0x01, 0x03, 0x00, 0x00, 0xd8, 0x01, 0x03, 0x00, 0x00,
            0xd9, 0x00, 0x02, 0x61, 0x62,
        ],
        events: "interim 103; interim 103; response 200; data 2; end; ",
    },
    // DATA after an interim one
    Row {
        case: Case::Response(Asked::Other),
        bytes: &[0x01, 0x03, 0x00, 0x00, 0xd8, 0x00, 0x01, 0x61],
        events: "interim 103; connection error 261; ",
    },
    // an interim one only
    Row {
        case: Case::Response(Asked::Other),
        bytes: &[0x01, 0x03, 0x00, 0x00, 0xd8],
        events: "interim 103; stream error 270; ",
    },
    // content in the answer to HEAD
    Row {
        case: Case::Response(Asked::Head),
        bytes: &[0x01, 0x03, 0x00, 0x00, 0xd9, 0x00, 0x01, 0x61],
        events: "response 200; malformed: the content is longer than announced; ",
    },
    // HEAD, with content-length 3 and no content
    Row {
        case: Case::Response(Asked::Head),
        bytes: &[0x01, 0x06, 0x00, 0x00, 0xd9, 0x54, 0x01, 0x33],
        events: "response 200; end; ",
    },
    // 204 with content-length 3 and no content, and with a byte of content
    Row {
        case: Case::Response(Asked::Other),
        bytes: &[0x01, 0x07, 0x00, 0x00, 0xff, 0x01, 0x54, 0x01, 0x33],
        events: "response 204; end; ",
    },
    Row {
        case: Case::Response(Asked::Other),
        bytes: &[0x01, 0x04, 0x00, 0x00, 0xff, 0x01, 0x00, 0x01, 0x61],
        events: "response 204; malformed: the content is longer than announced; ",
    },
    // 304 with a byte of content
    Row {
        case: Case::Response(Asked::Other),
        bytes: &[0x01, 0x03, 0x00, 0x00, 0xda, 0x00, 0x01, 0x61],
        events: "response 304; malformed: the content is longer than announced; ",
    },
    // 304 with content-length 3 and no content
    Row {
        case: Case::Response(Asked::Other),
        bytes: &[0x01, 0x06, 0x00, 0x00, 0xda, 0x54, 0x01, 0x33],
        events: "response 304; end; ",
    },
    // no :status
    Row {
        case: Case::Response(Asked::Other),
        bytes: &[0x01, 0x02, 0x00, 0x00],
        events: "malformed: there is no :status; ",
    },
    // HEADERS after trailers
    Row {
        case: Case::Response(Asked::Other),
        bytes: &[
            0x01, 0x03, 0x00, 0x00, 0xd9, 0x01, 0x06, 0x00, 0x00, 0x21, 0x78, 0x01, 0x79, 0x01,
            0x06, 0x00, 0x00, 0x21, 0x78, 0x01, 0x79,
        ],
        events: "response 200; trailers; connection error 261; ",
    },
];

/// Compares the events of a row with those wanted, however its bytes are cut.
pub(crate) fn check<R: Abort>(rt: &R, alloc: Global, row: &Row) {
    let len = row.case.prefix().len().saturating_add(row.bytes.len());
    for size in 1..len.saturating_add(2) {
        let Ok(events) = play(alloc, row.case, row.bytes, size) else {
            continue;
        };
        let came = events.as_str();
        let wanted = row.events;
        assert!(rt;
            came == wanted,
            "at most {size} bytes: {came}, and not {wanted}"
        );
    }
}

#[test]
fn requests_by_their_rules(rt: HostRuntime) {
    for row in &REQUESTS {
        check(&rt, rt.alloc(), row);
    }
}

#[test]
fn tunnels_by_their_rules(rt: HostRuntime) {
    for row in &TUNNELS {
        check(&rt, rt.alloc(), row);
    }
}

#[test]
fn responses_by_their_rules(rt: HostRuntime) {
    for row in &RESPONSES {
        check(&rt, rt.alloc(), row);
    }
}

#[test]
fn interim_responses_have_a_bound(rt: HostRuntime) {
    let mut bytes = Vec::new(rt.alloc());
    let mut wanted = String::new(rt.alloc());
    for _interim in 0..65u32 {
        if bytes.extend_from_slice(b"\x01\x03\x00\x00\xd8").is_err() {
            return;
        }
    }
    for _interim in 0..64u32 {
        if wanted.push_str("interim 103; ").is_err() {
            return;
        }
    }
    if wanted.push_str("stream error 263; ").is_err() {
        return;
    }
    for size in [1usize, 400] {
        let case = Case::Response(Asked::Other);
        let Ok(events) = play(rt.alloc(), case, bytes.as_slice(), size) else {
            continue;
        };
        let came = events.as_str();
        assert!(rt; came == wanted.as_str(), "at most {size} bytes: {came}");
    }
}
