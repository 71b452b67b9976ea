//! Inspections of recorded streams and datagrams. The recordings are those in
//! `tools/recordings.d`; the expected items are from their index.
use crate::same::assert_same;
use std::alloc::Global;
use std::process::Abort;
use wt_inspection::item::Parts;
use wt_inspection::{Content, End, Inspection, Item, Recorded, inspect};

/// A recording, and what is found in it.
struct Row {
    case: &'static str,
    kind: Recorded,
    bytes: &'static [u8],
    /// Whether more bytes may follow.
    open: bool,
    /// The offset, length and name of each item.
    items: &'static [(usize, usize, &'static str)],
    /// The state at the end, and the code of an error.
    end: (&'static str, u64),
}

static STREAMS: [Row; 28] = [
    Row {
        case: "a session request of Chromium, and a reserved capsule",
        kind: Recorded::Bi,

        // recorded: chr07-1-c2s-0.bin
        bytes: b"\x01\x40\x55\x00\x00\xd7\xcf\x50\x8a\x08\x9d\x5c\x0b\x81\x70\xdc\x69\xa6\x59\x51\
        \x84\x62\x42\xd5\xeb\x2f\x00\xb9\x5d\x87\x49\xc8\x7a\x3f\x89\xf0\x58\xd3\x60\xea\x45\
        \x67\xb1\x3f\x2f\x0e\x41\x48\xb7\x82\xc6\x9b\x07\x52\x2b\x3d\x89\x5a\x74\xa6\xb6\x56\
        \x92\xc1\xca\x90\x0b\x01\x31\x5f\x4b\x90\x9d\x29\xae\xe3\x0c\x04\x4e\xae\x05\xc0\xb8\
        \x6e\x34\xd3\x2d\x7f\x00\x1b\xca\xe5\xd2\x4c\x4c\xb7\xcf\xfb\x12\x72\xf4\x7e\xf4\x67\
        \x8e\x73\xa1\x6c\x16\xec\x42\x85\xb2\x11\x8e\x9f\x5a",
        open: false,
        items: &[(0, 88, "HEADERS"), (88, 29, "DATA")],
        end: ("whole", 0),
    },
    Row {
        case: "a section that needs the dynamic table, and what follows it",
        kind: Recorded::Bi,

        // recorded: chrdyn-0-c2s-0.bin
        bytes: b"\x01\x0a\x07\x00\xd7\xcf\x85\x84\x83\x82\x81\x80\x00\x34\xc6\xe1\xff\xfd\xf6\xd8\
        \x78\x63\x2b\x7d\xf1\xbc\x7a\x62\xb9\x55\x56\x96\xe7\x3c\x20\xf3\xe2\x0d\x4b\x90\x21\
        \x78\x37\x29\xf5\xe8\x0d\x7d\x54\xe1\xb0\xcd\x47\x8f\x47\xe0\xa5\xb0\x6d\x94\xc6\x74\
        \x85\x24\x4b\xbf\x00\x12\x68\x43\x0f\x00\x00\x12\x34\x62\x79\x65\x2c\x20\x77\xc3\xb6\
        \x72\x6c\x64",
        open: false,
        items: &[(0, 12, "HEADERS"), (12, 54, "DATA"), (66, 20, "DATA")],
        end: ("whole", 0),
    },
    Row {
        case: "a GET whose content would be an invalid capsule in a session",
        kind: Recorded::Bi,
        bytes: b"\x01\x05\x00\x00\xd1\xd7\xc1\x00\x06\x68\x43\x03abc",
        open: false,
        items: &[(0, 7, "HEADERS"), (7, 8, "DATA")],
        end: ("whole", 0),
    },
    Row {
        case: "a CONNECT without :protocol, and such content",
        kind: Recorded::Bi,
        bytes: b"\x01\x06\x00\x00\xcf\x50\x01a\x00\x06\x68\x43\x03abc",
        open: false,
        items: &[(0, 8, "HEADERS"), (8, 8, "DATA")],
        end: ("whole", 0),
    },
    Row {
        case: "payload is not read as frames",
        kind: Recorded::Bi,
        bytes: b"\x40\x41\x00\x00\x05ab",
        open: false,
        items: &[(0, 3, "WEBTRANSPORT_STREAM"), (3, 4, "payload")],
        end: ("whole", 0),
    },
    Row {
        case: "an invalid session ID",
        kind: Recorded::Bi,
        bytes: b"\x40\x41\x01\x00\x05ab",
        open: false,
        items: &[(0, 7, "unread")],
        end: ("fault", 0x108),
    },
    Row {
        case: "a WebTransport stream after an unknown frame (draft-ietf-webtrans-http3-02, section 4.2)",
        kind: Recorded::Bi,
        bytes: b"\x40\x42\x00\x40\x41\x00abc",
        open: false,
        items: &[(0, 3, "unknown"), (3, 6, "unread")],
        end: ("fault", 0x106),
    },
    Row {
        case: "the same after a reserved frame",
        kind: Recorded::Bi,
        bytes: b"\x21\x00\x40\x41\x00abc",
        open: false,
        items: &[(0, 2, "reserved"), (2, 6, "unread")],
        end: ("fault", 0x106),
    },
    Row {
        case: "the same after DATA, open",
        kind: Recorded::Bi,
        bytes: b"\x00\x01a\x40\x41\x00abc",
        open: true,
        items: &[(0, 3, "DATA"), (3, 6, "unread")],
        end: ("fault", 0x106),
    },
    Row {
        case: "a stream that ends within a frame",
        kind: Recorded::Bi,
        bytes: b"\x00\x05a",
        open: false,
        items: &[(0, 3, "DATA")],
        end: ("fault", 0x106),
    },
    Row {
        case: "a frame type of HTTP/2",
        kind: Recorded::Bi,
        bytes: b"\x00\x01a\x06\x00\x00\x00",
        open: false,
        items: &[(0, 3, "DATA"), (3, 2, "HTTP/2"), (5, 2, "unread")],
        end: ("fault", 0x105),
    },
    Row {
        case: "a response of aioquic",
        kind: Recorded::Response,

        // recorded: chr07-0-s2c-0.bin
        bytes: b"\x01\x1f\x00\x00\xd9\x2f\x0d\x41\x48\xb7\x82\xc6\x9b\x07\x52\x2b\x3d\x89\x5a\x74\
        \xa6\xb6\x56\x92\xc1\xca\x9f\x85\x92\xc1\xca\x90\x0b",
        open: false,
        items: &[(0, 33, "HEADERS")],
        end: ("whole", 0),
    },
    Row {
        case: "the start of a control stream of Chromium",
        kind: Recorded::Uni,

        // recorded: chr07-2-c2s-2.bin, bytes 0 to 52
        bytes: b"\x00\x04\x1b\x01\x80\x01\x00\x00\x06\x80\x04\x00\x00\x07\x40\x64\x33\x01\xc0\x00\
        \x00\x11\x7b\x2b\x8c\xe8\xbe\xd1\x10\x0f\xc0\x00\x00\x0f\x7c\xde\x1f\xb4\x01\x29\x80\
        \x0f\x07\x00\x07\x00\x75\x3d\x31\x2c\x20\x69",
        open: false,
        items: &[
            (0, 1, "control"),
            (1, 29, "SETTINGS"),
            (30, 10, "reserved"),
            (40, 12, "PRIORITY_UPDATE"),
        ],
        end: ("whole", 0),
    },
    Row {
        case: "the encoder stream of aioquic",
        kind: Recorded::Uni,

        // recorded: nginx-c2s-6.bin
        bytes: b"\x02\x3f\xe1\x1f\xc0\x8a\xa0\xe4\x1d\x13\x9d\x09\xb8\xd3\x4c\xb7\xff\x20\x87\xae\
        \xc3\xc6\x56\x02\xb8\x3f\xc1\x88\x60\xd5\x48\x5f\x2b\xce\x9a\x68",
        open: true,
        items: &[
            (0, 1, "QPACK encoder"),
            (1, 3, "Set Dynamic Table Capacity"),
            (4, 12, "Insert with Name Reference"),
            (16, 10, "Insert with Name Reference"),
            (26, 10, "Insert with Name Reference"),
        ],
        end: ("whole", 0),
    },
    Row {
        case: "an insertion with an index above the static table",
        kind: Recorded::Uni,
        bytes: b"\x02\x20\xff\x24\x01a\x00",
        open: true,
        items: &[
            (0, 1, "QPACK encoder"),
            (1, 1, "Set Dynamic Table Capacity"),
            (2, 5, "unread"),
        ],
        end: ("fault", 0x201),
    },
    Row {
        case: "an acknowledgment that is cut",
        kind: Recorded::Uni,
        bytes: b"\x03\x48\xff\x80",
        open: false,
        items: &[
            (0, 1, "QPACK decoder"),
            (1, 1, "Stream Cancellation"),
            (2, 2, "unread"),
        ],
        end: ("cut", 0),
    },
    Row {
        case: "a setting of HTTP/2",
        kind: Recorded::Uni,
        bytes: b"\x00\x04\x02\x02\x00",
        open: false,
        items: &[(0, 1, "control"), (1, 4, "SETTINGS")],
        end: ("fault", 0x109),
    },
    Row {
        case: "a unidirectional stream of Chromium",
        kind: Recorded::Uni,

        // recorded: chr07-0-c2s-14.bin
        bytes: b"\x40\x54\x00\x68\x65\x6c\x6c\x6f\x20\x6f\x6e\x65\x20\x77\x61\x79",
        open: false,
        items: &[(0, 3, "WebTransport"), (3, 13, "payload")],
        end: ("whole", 0),
    },
    Row {
        case: "a datagram of aioquic",
        kind: Recorded::Datagram,
        bytes: b"\x00\x65\x63\x68\x6f\x3a",
        open: false,
        items: &[(0, 6, "datagram")],
        end: ("whole", 0),
    },
    Row {
        case: "an empty datagram",
        kind: Recorded::Datagram,
        bytes: b"",
        open: false,
        items: &[],
        end: ("fault", 0x33),
    },
    Row {
        case: "an open stream within a frame",
        kind: Recorded::Bi,
        bytes: b"\x00\x05a",
        open: true,
        items: &[(0, 3, "DATA")],
        end: ("cut", 0),
    },
    Row {
        case: "a capacity of 4096 (RFC 9204, section 4.3.1)",
        kind: Recorded::Uni,
        bytes: b"\x02\x3f\xe1\x1f",
        open: true,
        items: &[
            (0, 1, "QPACK encoder"),
            (1, 3, "Set Dynamic Table Capacity"),
        ],
        end: ("whole", 0),
    },
    Row {
        case: "a push stream: its push ID, and a response (RFC 9114, section 4.6)",
        kind: Recorded::Uni,
        bytes: b"\x01\x05\x01\x03\x00\x00\xd9",
        open: false,
        items: &[(0, 2, "push"), (2, 5, "HEADERS")],
        end: ("whole", 0),
    },
    Row {
        case: "an invalid session ID of a unidirectional stream",
        kind: Recorded::Uni,
        bytes: b"\x40\x54\x01ab",
        open: false,
        items: &[(0, 5, "unread")],
        end: ("fault", 0x108),
    },
    Row {
        case: "the content of two DATA frames of Chromium",
        kind: Recorded::Capsules,
        bytes: b"\xc6\xe1\xff\xfd\xf6\xd8\x78\x63\x2b\x7d\xf1\xbc\x7a\x62\xb9\x55\x56\x96\xe7\x3c\
        \x20\xf3\xe2\x0d\x4b\x90\x21\x78\x37\x29\xf5\xe8\x0d\x7d\x54\xe1\xb0\xcd\x47\x8f\x47\xe0\
        \xa5\xb0\x6d\x94\xc6\x74\x85\x24\x4b\xbf\x68\x43\x0f\x00\x00\x12\x34\x62\x79\x65\x2c\x20\
        \x77\xc3\xb6\x72\x6c\x64",
        open: false,
        items: &[(0, 52, "reserved"), (52, 18, "CLOSE_WEBTRANSPORT_SESSION")],
        end: ("whole", 0),
    },
    Row {
        case: "a close capsule without room for its code",
        kind: Recorded::Capsules,
        bytes: b"\x68\x43\x03abc",
        open: false,
        items: &[(0, 6, "CLOSE_WEBTRANSPORT_SESSION")],
        end: ("fault", 0x33),
    },
    Row {
        case: "a field section alone",
        kind: Recorded::Section,
        bytes: b"\x00\x00\xd9",
        open: false,
        items: &[(0, 3, "section")],
        end: ("whole", 0),
    },
    Row {
        case: "a setting twice",
        kind: Recorded::Settings,
        bytes: b"\x33\x01\x33\x01",
        open: false,
        items: &[(0, 4, "settings")],
        end: ("fault", 0x109),
    },
];

/// Returns the name of an item in the rows.
fn name_of(item: &Item) -> &'static str {
    match &item.content {
        Content::Stream(head) => head.name.as_str(),
        Content::Frame(frame) => frame.name.as_str(),
        Content::Session(_) => "WEBTRANSPORT_STREAM",
        Content::Payload => "payload",
        Content::Capsule(capsule) => capsule.name,
        Content::Datagram(_) => "datagram",
        Content::Section(_) => "section",
        Content::Settings(_) => "settings",
        Content::Instruction(instruction) => instruction.name(),
        Content::Unread => "unread",
    }
}

/// Returns the state of an end, and the error code if it is an error.
fn state_of(end: End) -> (&'static str, u64) {
    match end {
        End::Complete => ("whole", 0),
        End::Cut(_) => ("cut", 0),
        End::Fault(fault) => ("fault", fault.code.code().number().into_inner()),
    }
}

/// Asserts the items and the end of a row.
fn check_row<R: Abort>(rt: &R, alloc: Global, row: &Row) {
    let found = inspect(alloc, row.kind, row.bytes, row.open).expect(rt, "memory");
    assert_same(rt, found.items.len(), row.items.len(), row.case);
    for (item, wanted) in found.items.iter().zip(row.items.iter()) {
        let came = (item.at, item.length, name_of(item));
        assert_same(rt, came, *wanted, row.case);
    }
    assert_same(rt, state_of(found.end), row.end, row.case);
}

#[test]
fn streams_are_inspected(rt: HostRuntime) {
    for row in &STREAMS {
        check_row(&rt, rt.alloc(), row);
    }
}

/// Returns the number of capsules in the last item, and the error code of a close among them.
fn capsules_in(found: &Inspection) -> (usize, Option<u64>) {
    let Some(item) = found.items.last() else {
        return (0, None);
    };
    let Content::Frame(frame) = &item.content else {
        return (0, None);
    };
    let Parts::Capsules(capsules) = &frame.parts else {
        return (0, None);
    };
    let close = capsules.last().and_then(|capsule| capsule.close.as_ref());
    (capsules.len(), close.map(|close| close.code))
}

/// The capsules that end in the last item of each of the first recordings: their number, and the
/// error code of a close.
static CAPSULES: [(usize, Option<u64>); 4] = [(1, None), (1, Some(4660)), (0, None), (0, None)];

/// Asserts the capsules in the last item of a row.
fn check_capsules<R: Abort>(rt: &R, alloc: Global, row: &Row, wanted: (usize, Option<u64>)) {
    let found = inspect(alloc, row.kind, row.bytes, row.open).expect(rt, "memory");
    assert_same(rt, capsules_in(&found), wanted, row.case);
}

#[test]
fn capsules_are_found(rt: HostRuntime) {
    for (row, wanted) in STREAMS.iter().zip(CAPSULES.iter()) {
        check_capsules(&rt, rt.alloc(), row, *wanted);
    }
}
