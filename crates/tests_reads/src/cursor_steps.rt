//! Single calls of a cursor over bytes, and the rules of each kind of stream.
use crate::same::assert_same;
use std::process::Abort;
use wtransport_proto::error::ErrorCode;
use wtransport_proto::frame::FrameKind;
use wtransport_proto::ids::SessionId;
use wtransport_proto::stream::{CursorStep, FrameCursor, FrameSpan, StreamRole, fault_of};
use wtransport_proto::varint::VarInt;

/// The result of one call: the type, session ID and payload offset of a frame, if one is found,
/// and the number of bytes consumed; or an error code.
type Step = Result<(Option<(u64, Option<u64>, usize)>, usize), ErrorCode>;

/// Returns the result of one call in this form.
fn step_of(step: CursorStep) -> Step {
    match step {
        CursorStep::Frame(place) => {
            let end = place.end;
            Ok((Some(found_at(place)), end))
        }
        CursorStep::More(n) => Ok((None, n)),
        CursorStep::Fault(code) => Err(code),
    }
}

/// Returns the type, session ID and payload offset of a frame.
fn found_at(place: FrameSpan) -> (u64, Option<u64>, usize) {
    let session = number_of(place.session_id);
    (place.kind.id().into_inner(), session, place.start)
}

/// Returns the number of a session ID.
fn number_of(session: Option<SessionId>) -> Option<u64> {
    Some(session?.into_u64())
}

/// One call for a stream that the peer opened.
struct StepRow {
    case: &'static str,
    /// Whether no frame was read, and how many bytes are left to skip, before the call.
    before: (bool, u64),
    bytes: &'static [u8],
    step: Step,
    /// The same two values after it.
    after: (bool, u64),
}

static STEPS: [StepRow; 15] = [
    StepRow {
        case: "no byte",
        before: (true, 0),
        bytes: b"",
        step: Ok((None, 0)),
        after: (true, 0),
    },
    StepRow {
        case: "a type",
        before: (true, 0),
        bytes: b"\x00",
        step: Ok((None, 0)),
        after: (true, 0),
    },
    StepRow {
        case: "a cut payload is left",
        before: (true, 0),
        bytes: b"\x00\x02a",
        step: Ok((None, 0)),
        after: (true, 0),
    },
    StepRow {
        case: "an unknown frame is consumed",
        before: (true, 0),
        bytes: b"\x0a\x00\x00",
        step: Ok((None, 2)),
        after: (true, 0),
    },
    StepRow {
        case: "a cut head is left",
        before: (true, 0),
        bytes: b"\x0a\x40",
        step: Ok((None, 0)),
        after: (true, 0),
    },
    StepRow {
        case: "a cut unknown frame is consumed",
        before: (true, 0),
        bytes: b"\x0a\x05abc",
        step: Ok((None, 5)),
        after: (true, 2),
    },
    StepRow {
        case: "the longest unknown frame",
        before: (true, 0),
        bytes: b"\x0a\xff\xff\xff\xff\xff\xff\xff\xff",
        step: Ok((None, 9)),
        after: (true, 0x3fff_ffff_ffff_ffff),
    },
    StepRow {
        case: "bytes that are due",
        before: (true, 5),
        bytes: b"abc",
        step: Ok((None, 3)),
        after: (true, 2),
    },
    StepRow {
        case: "the last bytes that are due",
        before: (true, 3),
        bytes: b"abc",
        step: Ok((None, 3)),
        after: (true, 0),
    },
    StepRow {
        case: "a session, and none of its stream's bytes",
        before: (true, 2),
        bytes: b"ab\x40\x41\x04cd",
        step: Ok((Some((0x41, Some(4), 5)), 5)),
        after: (false, 0),
    },
    StepRow {
        case: "data",
        before: (false, 0),
        bytes: b"\x0a\x00\x00\x02ab\x00",
        step: Ok((Some((0x00, None, 4)), 6)),
        after: (false, 0),
    },
    StepRow {
        case: "a late session",
        before: (false, 1),
        bytes: b"a\x40\x41\x04",
        step: Err(ErrorCode::Frame),
        after: (false, 1),
    },
    StepRow {
        case: "a refused frame does not count",
        before: (true, 0),
        bytes: b"\x04\x00",
        step: Err(ErrorCode::FrameUnexpected),
        after: (true, 0),
    },
    StepRow {
        case: "no session",
        before: (true, 0),
        bytes: b"\x40\x41\x02",
        step: Err(ErrorCode::Id),
        after: (true, 0),
    },
    StepRow {
        case: "length 4097",
        before: (true, 1),
        bytes: b"a\x00\x50\x01",
        step: Err(ErrorCode::ExcessiveLoad),
        after: (true, 1),
    },
];

/// Asserts the result of one call by its row.
fn check_step<R: Abort>(rt: &R, row: &StepRow) {
    let role = StreamRole::BiRemote;
    let (first, skip_remaining) = row.before;
    let mut cursor = FrameCursor {
        role,
        first,
        skip_remaining,
    };
    assert_same(rt, step_of(cursor.next(row.bytes)), row.step, row.case);
    let (first, skip_remaining) = row.after;
    assert_same(
        rt,
        cursor,
        FrameCursor {
            role,
            first,
            skip_remaining,
        },
        row.case,
    );
}

#[test]
fn one_call_answers_by_the_first_frame(rt: HostRuntime) {
    for row in &STEPS {
        check_step(&rt, row);
    }
}

/// The errors of a frame by the kind of stream.
struct RuleRow {
    /// The type of the frame.
    id: u32,
    /// Whether it is the first.
    first: bool,
    /// The error on a stream that the peer opened.
    remote: Option<ErrorCode>,
    /// The error on a stream that this end opened.
    local: Option<ErrorCode>,
    /// The error on a control stream.
    control: Option<ErrorCode>,
}

const UNEXPECTED: Option<ErrorCode> = Some(ErrorCode::FrameUnexpected);

/// RFC 9114, table 1, and the WEBTRANSPORT_STREAM frame.
static RULES: [RuleRow; 7] = [
    RuleRow {
        id: 0x00,
        first: true,
        remote: None,
        local: None,
        control: UNEXPECTED,
    },
    RuleRow {
        id: 0x01,
        first: true,
        remote: None,
        local: None,
        control: UNEXPECTED,
    },
    RuleRow {
        id: 0x04,
        first: true,
        remote: UNEXPECTED,
        local: UNEXPECTED,
        control: None,
    },
    RuleRow {
        id: 0x41,
        first: true,
        remote: None,
        local: UNEXPECTED,
        control: UNEXPECTED,
    },
    RuleRow {
        id: 0x41,
        first: false,
        remote: Some(ErrorCode::Frame),
        local: UNEXPECTED,
        control: UNEXPECTED,
    },
    RuleRow {
        id: 0x21,
        first: true,
        remote: None,
        local: None,
        control: None,
    },
    RuleRow {
        id: 0x21,
        first: false,
        remote: None,
        local: None,
        control: None,
    },
];

/// Returns the error for a frame of this type, or a sentinel that matches no row if the type is
/// unknown.
fn fault(role: StreamRole, first: bool, id: u32) -> Option<ErrorCode> {
    match FrameKind::parse(VarInt::from_u32(id)) {
        Some(kind) => fault_of(role, first, kind),
        None => Some(ErrorCode::NoError),
    }
}

#[test]
fn each_stream_has_its_rule(rt: HostRuntime) {
    for row in &RULES {
        let came = fault(StreamRole::BiRemote, row.first, row.id);
        assert_same(&rt, came, row.remote, "opened by the peer");
        let came = fault(StreamRole::BiLocal, row.first, row.id);
        assert_same(&rt, came, row.local, "opened here");
        let came = fault(StreamRole::Session, row.first, row.id);
        assert_same(&rt, came, row.local, "of a session");
        let came = fault(StreamRole::UniRemote, row.first, row.id);
        assert_same(&rt, came, row.control, "a control stream");
    }
}
