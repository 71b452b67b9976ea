//! The names of settings in the standards, and settings listed one by one.
use crate::same::assert_same;
use crate::settings::{answer, check_frame};
use crate::texts::prints;
use std::process::Abort;
use wtp_core::varint::VarInt;
use wtp_wire::settings::{SettingId, Settings, SettingsIter};

/// Identifiers, and their names in the standards: RFC 9204, section 5; RFC 9114, sections 7.2.4.1
/// and 11.2.2; RFC 9220, section 3; RFC 9297, section 2.1.1; draft-ietf-webtrans-http3-02,
/// section 3.1; draft-ietf-webtrans-http3-07, section 8.2.
static NAMES: [(u64, &str); 10] = [
    (0x01, "SETTINGS_QPACK_MAX_TABLE_CAPACITY"),
    (0x06, "SETTINGS_MAX_FIELD_SECTION_SIZE"),
    (0x07, "SETTINGS_QPACK_BLOCKED_STREAMS"),
    (0x08, "SETTINGS_ENABLE_CONNECT_PROTOCOL"),
    (0x33, "SETTINGS_H3_DATAGRAM"),
    (0x2b60_3742, "SETTINGS_ENABLE_WEBTRANSPORT"),
    (0xc671_706a, "SETTINGS_WEBTRANSPORT_MAX_SESSIONS"),
    (0x21, "0x21"),
    (0x40, "0x40"),
    (0x3fff_ffff_ffff_fffe, "0x3ffffffffffffffe"),
];

/// Numbers that are not identifiers of settings: those of HTTP/2, which are reserved, and unknown
/// ones.
static UNKNOWN: [(u64, &str); 8] = [
    (0x00, "the first that is reserved"),
    (0x02, "SETTINGS_ENABLE_PUSH of HTTP/2"),
    (0x05, "the last that is reserved"),
    (0x09, "after the connect protocol"),
    (0x20, "before the first exercise setting"),
    (0x22, "after the first exercise setting"),
    (0x34, "after the datagrams"),
    (0x3fff_ffff_ffff_ffff, "the largest number"),
];

/// Returns the setting with this identifier.
fn setting_of<R: Abort>(rt: &R, number: u64) -> Option<SettingId> {
    SettingId::parse(VarInt::try_from_u64(number).expect(rt, "a number"))
}

/// Asserts the name and the number of the setting with this identifier.
fn check_name<R: Abort + AllocGlobal>(rt: &R, number: u64, name: &str) {
    let id = setting_of(rt, number).expect(rt, "no such setting");
    assert_same(rt, id.id().into_inner(), number, name);
    let text = id.to_string(rt.alloc()).expect(rt, "memory");
    assert_same(rt, text.as_str(), name, "its name");
}

#[test]
fn settings_have_their_names(rt: HostRuntime) {
    for (number, name) in &NAMES {
        check_name(&rt, *number, name);
    }
}

#[test]
fn other_numbers_have_no_setting(rt: HostRuntime) {
    for (number, case) in &UNKNOWN {
        assert_same(&rt, setting_of(&rt, *number), None, case);
    }
}

/// The payload of a SETTINGS frame, the settings in it, in ascending order of their identifiers,
/// and the case.
type Row = (&'static [u8], &'static [(u64, u64)], &'static str);

/// SETTINGS payloads.
static PAYLOADS: [Row; 5] = [
    (&[], &[], "no setting"),
    (
        &[0x0a, 0x01, 0x0a, 0x02],
        &[],
        "unknown ones are not listed",
    ),
    (
        &[0x33, 0x01, 0x08, 0x01, 0x06, 0x07],
        &[(0x06, 7), (0x08, 1), (0x33, 1)],
        "in another order",
    ),
    (
        &[0x40, 0x40, 0x05, 0x21, 0x00, 0x40, 0x33, 0x01],
        &[(0x21, 0), (0x33, 1), (0x40, 5)],
        "exercise settings, in two bytes",
    ),
    (
        &[
            0xc0, 0x00, 0x00, 0x00, 0xc6, 0x71, 0x70, 0x6a, 0x03, 0xab, 0x60, 0x37, 0x42, 0x01,
            0x07, 0x01, 0x01, 0x02, 0x06, 0x80, 0x00, 0x40, 0x00,
        ],
        &[
            (0x01, 2),
            (0x06, 16384),
            (0x07, 1),
            (0x2b60_3742, 1),
            (0xc671_706a, 3),
        ],
        "of WebTransport",
    ),
];

/// Returns the next pair of a list of settings, as numbers.
fn next_pair(listed: &mut SettingsIter<'_>) -> Option<(u64, u64)> {
    let (id, value) = listed.next()?;
    Some((id.id().into_inner(), value.into_inner()))
}

/// Asserts the listed settings: each pair, the number of pairs left before it, and the end.
fn check_listed<R: Abort>(rt: &R, settings: &Settings, pairs: &[(u64, u64)], case: &str) {
    let mut listed = settings.iter();
    let mut left = pairs.len();
    for pair in pairs {
        let came = (listed.size_hint(), next_pair(&mut listed));
        assert_same(rt, came, ((left, Some(left)), Some(*pair)), case);
        left = left.saturating_sub(1);
    }
    assert_same(rt, (listed.len(), next_pair(&mut listed)), (0, None), case);
}

/// Asserts the settings in the payload of a row.
fn check_row<R: Abort + AllocGlobal>(rt: &R, row: &Row) {
    let (payload, pairs, case) = *row;
    let settings = answer(rt, payload).expect(rt, case);
    check_listed(rt, &settings, pairs, case);
}

#[test]
fn settings_are_listed_past_refused_memory(rt: HostRuntime) {
    for row in &PAYLOADS {
        check_row(&rt, row);
    }
}

#[test]
fn the_size_of_field_sections_is_limited(rt: HostRuntime) {
    let size = VarInt::from_u32(16384);
    let builder = Settings::builder(rt.alloc()).max_field_section_size(size);
    let settings = builder.expect(&rt, "memory").build();
    check_listed(&rt, &settings, &[(0x06, 16384)], "one setting");
    check_frame(&rt, &settings, b"\x06\x80\x00\x40\x00", "its payload");
}

/// Asserts the debug output of a list after its first setting, and the number of settings left in
/// an earlier copy.
fn check_left<R: Abort + AllocGlobal>(rt: &R, settings: &Settings) {
    let mut listed = settings.iter();
    let left = listed.clone().expect(rt, "memory");
    let _ = listed.next();
    assert_same(rt, left.len(), 3, "a copy");
    let text = "{Exercise(33): 5, H3Datagram: 1}";
    prints(rt, &listed, text, "those that are left");
}

#[test]
fn settings_are_printed(rt: HostRuntime) {
    let settings = answer(&rt, &[0x33, 0x01, 0x21, 0x05, 0x06, 0x07]).expect(&rt, "settings");
    let text = "Settings({MaxFieldSectionSize: 7, Exercise(33): 5, H3Datagram: 1})";
    prints(&rt, &settings, text, "settings");
    check_left(&rt, &settings);
}
