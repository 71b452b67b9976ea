//! The pairs in a SETTINGS payload, read one by one, including unknown ones.
use crate::same::assert_same;
use crate::texts::prints;
use std::process::Abort;
use wtp_core::error::ErrorCode;
use wtp_core::varint::VarInt;
use wtp_wire::settings::{SettingId, SettingPairs};

/// The payload of a SETTINGS frame (RFC 9114, section 7.2.4), its pairs, the error after them,
/// and the case.
struct Row {
    case: &'static str,
    payload: &'static [u8],
    pairs: &'static [(u64, u64)],
    fault: Option<ErrorCode>,
}

static ROWS: [Row; 9] = [
    Row {
        case: "no setting",
        payload: &[],
        pairs: &[],
        fault: None,
    },
    Row {
        case: "known, exercise and unknown ones, in the order of the payload",
        payload: &[0x33, 0x01, 0x40, 0x40, 0x05, 0x0a, 0x40, 0x07, 0x06, 0x00],
        pairs: &[(0x33, 1), (0x40, 5), (0x0a, 7), (0x06, 0)],
        fault: None,
    },
    Row {
        case: "a known one twice, and an unknown one twice",
        payload: &[0x08, 0x01, 0x0a, 0x02, 0x0a, 0x03, 0x08, 0x00],
        pairs: &[(0x08, 1), (0x0a, 2), (0x0a, 3), (0x08, 0)],
        fault: None,
    },
    Row {
        case: "the largest number and the largest value",
        payload: &[
            0xff, 0xff, 0xff, 0xff, 0xff, 0xff, 0xff, 0xff, 0xff, 0xff, 0xff, 0xff, 0xff, 0xff,
            0xff, 0xff,
        ],
        pairs: &[(0x3fff_ffff_ffff_ffff, 0x3fff_ffff_ffff_ffff)],
        fault: None,
    },
    Row {
        case: "an identifier without a value",
        payload: &[0x33, 0x01, 0x08],
        pairs: &[(0x33, 1)],
        fault: Some(ErrorCode::Frame),
    },
    Row {
        case: "a truncated value",
        payload: &[0x33, 0x01, 0x06, 0x80, 0x00, 0x40],
        pairs: &[(0x33, 1)],
        fault: Some(ErrorCode::Frame),
    },
    Row {
        case: "SETTINGS_ENABLE_PUSH of HTTP/2, and a pair after it",
        payload: &[0x0a, 0x01, 0x02, 0x00, 0x33, 0x01],
        pairs: &[(0x0a, 1)],
        fault: Some(ErrorCode::Settings),
    },
    Row {
        case: "the identifier 0x00, in two bytes",
        payload: &[0x40, 0x00, 0x00],
        pairs: &[],
        fault: Some(ErrorCode::Settings),
    },
    Row {
        case: "an identifier of HTTP/2 without a value",
        payload: &[0x05],
        pairs: &[],
        fault: Some(ErrorCode::Frame),
    },
];

/// Returns the next item as numbers.
fn next_item(items: &mut SettingPairs<'_>) -> Option<Result<(u64, u64), ErrorCode>> {
    match items.next()? {
        Ok(pair) => Some(Ok((pair.id.into_inner(), pair.value.into_inner()))),
        Err(code) => Some(Err(code)),
    }
}

/// Asserts the items of a row: each pair, the error, and the end twice.
fn check_row<R: Abort>(rt: &R, row: &Row) {
    let case = row.case;
    let mut items = SettingPairs::new(row.payload);
    for pair in row.pairs {
        assert_same(rt, next_item(&mut items), Some(Ok(*pair)), case);
    }
    if let Some(code) = row.fault {
        assert_same(rt, next_item(&mut items), Some(Err(code)), case);
    }
    let end = (next_item(&mut items), next_item(&mut items));
    assert_same(rt, end, (None, None), case);
}

#[test]
fn pairs_are_returned_in_the_order_of_the_payload(rt: HostRuntime) {
    for row in &ROWS {
        check_row(&rt, row);
    }
}

#[test]
fn a_copy_of_the_pairs_has_those_that_are_left(rt: HostRuntime) {
    let mut items = SettingPairs::new(&[0x33, 0x01, 0x0a, 0x02]);
    let _ = next_item(&mut items);
    let mut left = items.clone().expect(&rt, "memory");
    let pair = left.next().expect(&rt, "a pair").expect(&rt, "no fault");
    let text = "SettingPair { id: 10, value: 2 }";
    prints(&rt, &pair, text, "a pair");
    assert_same(&rt, next_item(&mut left), None, "the end of the copy");
    let second = next_item(&mut items);
    assert_same(&rt, second, Some(Ok((0x0a, 2))), "the one that was copied");
}

/// A number, and whether it is an HTTP/2 setting that is reserved in HTTP/3 (RFC 9114, section
/// 11.2.2).
static RESERVED: [(u64, bool); 8] = [
    (0x00, true),
    (0x01, false),
    (0x02, true),
    (0x03, true),
    (0x04, true),
    (0x05, true),
    (0x06, false),
    (0x3fff_ffff_ffff_ffff, false),
];

#[test]
fn settings_of_http2_are_reserved(rt: HostRuntime) {
    for (number, wanted) in &RESERVED {
        let id = VarInt::try_from_u64(*number).expect(&rt, "a number");
        assert_same(&rt, SettingId::is_reserved(id), *wanted, *number);
    }
}
