//! Worked rows of capsules, and the effect of failed allocations.
use crate::same::assert_same;
use std::borrow::CowSlice;
use std::process::Abort;
use wtp_core::error::{ErrorCode, Refused};
use wtp_core::varint::VarInt;
use wtp_wire::capsule::capsules::CloseWebTransportSession;
use wtp_wire::capsule::{Capsule, CapsuleKind, capsule_types};
use wtp_wire::frame::Frame;

/// Returns the result of reading a close from this payload of a DATA frame, or `None` if it
/// contains no capsule.
fn read<R: Abort + AllocGlobal>(
    rt: &R,
    payload: &[u8],
) -> Option<Result<CloseWebTransportSession, Refused>> {
    assert!(rt; payload.len() < 2048);
    let frame = Frame::new_data(CowSlice::Borrowed(payload));
    let capsule = Capsule::with_frame(&frame)?;
    match capsule.kind() {
        CapsuleKind::CloseWebTransportSession => {
            Some(CloseWebTransportSession::with_capsule(rt.alloc(), &capsule))
        }
    }
}

/// Returns the result of `read`, again if allocation failed.
fn answer<R: Abort + AllocGlobal>(
    rt: &R,
    payload: &[u8],
) -> Option<Result<CloseWebTransportSession, Refused>> {
    match read(rt, payload) {
        Some(Err(Refused::Memory)) => read(rt, payload),
        answer => answer,
    }
}

/// Asserts the result of reading a close from this payload of a DATA frame: the error code and
/// reason, an error, or `None` if it contains no capsule.
fn check<R: Abort + AllocGlobal>(
    rt: &R,
    payload: &[u8],
    wanted: Option<Result<(u64, &[u8]), Refused>>,
    case: &str,
) {
    match answer(rt, payload) {
        Some(Ok(close)) => {
            let came = (close.error_code().into_inner(), close.reason().as_bytes());
            assert_same(rt, Some(Ok(came)), wanted, case);
        }
        Some(Err(fault)) => assert_same(rt, Some(Err(fault)), wanted, case),
        None => assert_same(rt, None, wanted, case),
    }
}

/// Asserts the kind and value length of the close capsule in this payload of a DATA frame.
fn check_close<R: Abort>(rt: &R, payload: &[u8], len: usize, case: &str) {
    assert!(rt; payload.len() < 2048);
    let frame = Frame::new_data(CowSlice::Borrowed(payload));
    let capsule = Capsule::with_frame(&frame).expect(rt, "a capsule");
    let came = (capsule.kind(), capsule.payload().len());
    let kind = CapsuleKind::CloseWebTransportSession;
    assert_same(rt, came, (kind, len), case);
}

/// The payload of a capsule that closes a session.
struct CloseRow {
    case: &'static str,
    payload: &'static [u8],
    /// The error code.
    code: u64,
    reason: &'static [u8],
}

/// Payloads that close a session.
static CLOSES: [CloseRow; 3] = [
    CloseRow {
        case: "bytes follow",
        payload: &[0x68, 0x43, 0x05, 0x00, 0x00, 0x00, 0x07, 0x78, 0xff, 0xff],
        code: 7,
        reason: b"x",
    },
    CloseRow {
        case: "no reason",
        payload: &[0x68, 0x43, 0x04, 0x00, 0x00, 0x00, 0x00],
        code: 0,
        reason: b"",
    },
    CloseRow {
        case: "longer encodings",
        payload: &[0x80, 0x00, 0x28, 0x43, 0x40, 0x04, 0x01, 0x02, 0x03, 0x04],
        code: 0x0102_0304,
        reason: b"",
    },
];

#[test]
fn sessions_are_closed_past_refused_memory(rt: HostRuntime) {
    for row in &CLOSES {
        let wanted = Some(Ok((row.code, row.reason)));
        check(&rt, row.payload, wanted, row.case);
    }
}

#[test]
fn the_close_capsule_has_its_number(rt: HostRuntime) {
    let number = capsule_types::CAPSULE_TYPE_CLOSE_WEBTRANSPORT_SESSION;
    assert_same(&rt, number.into_inner(), 0x2843, "the number");
    let kind = CapsuleKind::parse(number).expect(&rt, "a kind");
    assert_same(&rt, kind, CapsuleKind::CloseWebTransportSession, "the kind");
}

/// Unknown capsule types: DATAGRAM (RFC 9297, section 3.5), the numbers next to the known type, a
/// reserved type (section 5.4), and the largest type.
static UNKNOWN_TYPES: [u64; 5] = [0x00, 0x2842, 0x2844, 0x17, 0x3fff_ffff_ffff_ffff];

#[test]
fn other_types_have_no_kind(rt: HostRuntime) {
    for number in &UNKNOWN_TYPES {
        let id = VarInt::try_from_u64(*number).expect(&rt, "a number");
        assert_same(&rt, CapsuleKind::parse(id), None, *number);
    }
}

/// The result of an invalid payload.
const FAULT: Option<Result<(u64, &[u8]), Refused>> = Some(Err(Refused::Code(ErrorCode::Datagram)));

#[test]
fn bad_closes_are_refused(rt: HostRuntime) {
    let short = &[0x68, 0x43, 0x03, 0x00, 0x00, 0x00];
    check(&rt, short, FAULT, "three bytes");
    let no_text = &[0x68, 0x43, 0x05, 0x00, 0x00, 0x00, 0x00, 0xff];
    check(&rt, no_text, FAULT, "no UTF-8");
}

/// Payloads without a complete known capsule, and the case.
static OTHERS: [(&[u8], &str); 5] = [
    (&[], "nothing"),
    (&[0x68, 0x43, 0x04, 0x00, 0x00, 0x00], "cut"),
    (&[0x68, 0x43], "no length"),
    (&[0x28, 0x04, 0x00, 0x00, 0x00, 0x00], "another type"),
    (
        &[0x68, 0x43, 0xff, 0xff, 0xff, 0xff, 0xff, 0xff, 0xff, 0xff],
        "the longest length",
    ),
];

#[test]
fn other_payloads_are_no_capsules(rt: HostRuntime) {
    for (payload, word) in &OTHERS {
        check(&rt, payload, None, word);
    }
}

/// Returns this capsule header, followed by a reason of 1025 bytes.
fn long_payload(head: &[u8; 8]) -> [u8; 1033] {
    let mut payload = [0x61; 1033];
    payload[..8].copy_from_slice(head);
    payload
}

#[test]
fn reasons_have_a_limit_past_refused_memory(rt: HostRuntime) {
    let fits = long_payload(&[0x68, 0x43, 0x44, 0x04, 0x00, 0x00, 0x00, 0x00]);
    check_close(&rt, &fits, 1028, "a byte follows");
    let reason = &fits[8..1032];
    check(&rt, &fits[..1032], Some(Ok((0, reason))), "1024 bytes");
    let over = long_payload(&[0x68, 0x43, 0x44, 0x05, 0x00, 0x00, 0x00, 0x00]);
    check(&rt, &over, FAULT, "1025 bytes");
}
