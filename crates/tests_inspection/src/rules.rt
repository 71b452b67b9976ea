//! The rules that recordings break, and the hints about them, by the sections of the standards that
//! each row names.
use crate::same::assert_same;
use std::alloc::Global;
use std::process::Abort;
use wt_inspection::item::{Parts, Rule, Signal};
use wt_inspection::{Content, Inspection, Recorded, inspect};

/// A recording, and the rules that it breaks.
struct Row {
    case: &'static str,
    kind: Recorded,
    bytes: &'static [u8],
    open: bool,
    rules: &'static [Rule],
}

static ROWS: [Row; 14] = [
    Row {
        case: "GOAWAY without an ID (RFC 9114, section 7.1)",
        kind: Recorded::Uni,
        bytes: b"\x00\x04\x00\x07\x00",
        open: true,
        rules: &[Rule::BadIdFrame],
    },
    Row {
        case: "GOAWAY of 4 and then of 8 (RFC 9114, section 5.2)",
        kind: Recorded::Uni,
        bytes: b"\x00\x04\x00\x07\x01\x04\x07\x01\x08",
        open: true,
        rules: &[Rule::GrowingGoaway],
    },
    Row {
        case: "GOAWAY of 8, 4 and 4",
        kind: Recorded::Uni,
        bytes: b"\x00\x04\x00\x07\x01\x08\x07\x01\x04\x07\x01\x04",
        open: true,
        rules: &[],
    },
    Row {
        case: "MAX_PUSH_ID of 8 and then of 4 (RFC 9114, section 7.2.7)",
        kind: Recorded::Uni,
        bytes: b"\x00\x04\x00\x0d\x01\x08\x0d\x01\x04",
        open: true,
        rules: &[Rule::ShrinkingMaxPushId],
    },
    Row {
        case: "a priority of stream 2, which is no request (RFC 9218, section 7.2)",
        kind: Recorded::Uni,
        bytes: b"\x00\x04\x00\x80\x0f\x07\x00\x02\x02u",
        open: true,
        rules: &[Rule::PriorityOfNoRequest],
    },
    Row {
        case: "a control stream that begins with GOAWAY (RFC 9114, section 6.2.1)",
        kind: Recorded::Uni,
        bytes: b"\x00\x07\x01\x04",
        open: true,
        rules: &[Rule::MissingSettings],
    },
    Row {
        case: "a control stream that ends (RFC 9114, section 6.2.1)",
        kind: Recorded::Uni,
        bytes: b"\x00\x04\x00",
        open: false,
        rules: &[Rule::ClosedControlStream],
    },
    Row {
        case: "SETTINGS_H3_DATAGRAM of 2 (RFC 9297, section 2.1.1)",
        kind: Recorded::Settings,
        bytes: b"\x33\x02",
        open: false,
        rules: &[Rule::BadSetting],
    },
    Row {
        case: "an unknown setting twice (RFC 9114, section 7.2.4)",
        kind: Recorded::Settings,
        bytes: b"\x80\xff\xd2\x77\x01\x80\xff\xd2\x77\x02",
        open: false,
        rules: &[Rule::RepeatedSetting],
    },
    Row {
        case: "DATA after trailers (RFC 9114, section 4.1)",
        kind: Recorded::Response,
        bytes: b"\x01\x03\x00\x00\xd9\x01\x06\x00\x00\x21x\x01y\x00\x01a",
        open: false,
        rules: &[Rule::LateData],
    },
    Row {
        case: "HEADERS in a tunnel (RFC 9114, section 4.4)",
        kind: Recorded::SessionResponse,
        bytes: b"\x01\x03\x00\x00\xd9\x01\x06\x00\x00\x21x\x01y",
        open: true,
        rules: &[Rule::InTunnel],
    },
    Row {
        case: "capsules after a response that names none",
        kind: Recorded::Response,
        bytes: b"\x01\x03\x00\x00\xd9\x00\x0a\x68\x43\x07\x00\x00\x00\x07bye",
        open: false,
        rules: &[Rule::LikeCapsules],
    },
    Row {
        case: "the same of a session",
        kind: Recorded::SessionResponse,
        bytes: b"\x01\x03\x00\x00\xd9\x00\x0a\x68\x43\x07\x00\x00\x00\x07bye",
        open: false,
        rules: &[],
    },
    Row {
        case: "bytes after the close of a session (draft-ietf-webtrans-http3-02, section 5)",
        kind: Recorded::SessionResponse,
        bytes: b"\x01\x03\x00\x00\xd9\x00\x0a\x68\x43\x07\x00\x00\x00\x07bye\x00\x02\x00\x00",
        open: false,
        rules: &[Rule::DataAfterClose],
    },
];

/// Asserts the rules of a row.
fn check_row<R: Abort>(rt: &R, alloc: Global, row: &Row) {
    let found = inspect(alloc, row.kind, row.bytes, row.open).expect(rt, "memory");
    assert_same(rt, found.warnings.len(), row.rules.len(), row.case);
    for (warning, wanted) in found.warnings.iter().zip(row.rules.iter()) {
        assert_same(rt, warning.rule, *wanted, row.case);
    }
}

#[test]
fn broken_rules_are_found(rt: HostRuntime) {
    for row in &ROWS {
        check_row(&rt, rt.alloc(), row);
    }
}

/// Returns the ID that the last frame contains, if it is about requests or pushes.
fn last_id(found: &Inspection) -> Option<u64> {
    let Content::Frame(frame) = &found.items.last()?.content else {
        return None;
    };
    match &frame.parts {
        Parts::Signal(Signal::Id(id)) => Some(*id),
        Parts::Signal(Signal::Priority(id, _)) => Some(*id),
        Parts::Signal(Signal::Promise(id, _)) => Some(*id),
        _ => None,
    }
}

/// The last frame of a control stream, and the ID in it (RFC 9114, section 7.2; RFC 9218, section
/// 7.2).
static IDS: [(&[u8], Option<u64>); 6] = [
    (b"\x00\x04\x00\x07\x01\x04", Some(4)),
    (b"\x00\x04\x00\x0d\x02\x40\x64", Some(100)),
    (b"\x00\x04\x00\x03\x01\x02", Some(2)),
    (b"\x00\x04\x00\x80\x0f\x07\x00\x04\x04u=1", Some(4)),
    (b"\x00\x04\x00\x05\x04\x03\x00\x00\xd1", Some(3)),
    (b"\x00\x04\x00\x07\x02\x04\x04", None),
];

#[test]
fn ids_are_found(rt: HostRuntime) {
    for (bytes, wanted) in &IDS {
        let found = inspect(rt.alloc(), Recorded::Uni, *bytes, true).expect(&rt, "memory");
        assert_same(&rt, last_id(&found), *wanted, "an ID");
    }
}
