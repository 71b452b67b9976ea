//! Entries that are inserted again, and to which no line refers; dynamic names; fields that are never
//! indexed; and the largest entry.
use crate::appendix::{AUTHORITY, CUSTOM, CUSTOM2, PATH};
use crate::encoders::{AB, CD, OLD_AB, OLD_CD, OLD_ROOT, ROOT, Row, Step, assert_rows};
use wtp_dynamic_encoder::proposal::{Indexing, Proposal};

// Fields that are inserted if the policy says so.

const NEW_AUTHORITY: Proposal<'static> = Proposal {
    name: b":authority",
    value: b"www.example.com",
    indexing: Indexing::ByPolicy,
};

const NEW_PATH: Proposal<'static> = Proposal {
    name: b":path",
    value: b"/sample/path",
    indexing: Indexing::ByPolicy,
};

const NEW_CUSTOM: Proposal<'static> = Proposal {
    name: b"custom-key",
    value: b"custom-value",
    indexing: Indexing::ByPolicy,
};

// Fields that are never indexed, or otherwise are by the policy.

const SECRET_AB: Proposal<'static> = Proposal {
    name: b"a",
    value: b"b",
    indexing: Indexing::Never,
};

const SECRET_ROOT: Proposal<'static> = Proposal {
    name: b":path",
    value: b"/",
    indexing: Indexing::Never,
};

const SECRET_AUTHORIZATION: Proposal<'static> = Proposal {
    name: b"authorization",
    value: b"a",
    indexing: Indexing::Never,
};

const AUTHORIZATION: Proposal<'static> = Proposal {
    name: b"authorization",
    value: b"a",
    indexing: Indexing::Without,
};

const SIZE_34: Proposal<'static> = Proposal {
    name: b"c",
    value: b"d",
    indexing: Indexing::ByPolicy,
};

const SIZE_35: Proposal<'static> = Proposal {
    name: b"c",
    value: b"de",
    indexing: Indexing::ByPolicy,
};

const SIZE_68: Proposal<'static> = Proposal {
    name: b"c",
    value: VALUE_35,
    indexing: Indexing::ByPolicy,
};

const SIZE_69: Proposal<'static> = Proposal {
    name: b"c",
    value: VALUE_36,
    indexing: Indexing::ByPolicy,
};

const INSERTED_69: Proposal<'static> = Proposal {
    name: b"c",
    value: VALUE_36,
    indexing: Indexing::Insert,
};

const VALUE_35: &[u8] = b"!!!!!!!!!!!!!!!!!!!!!!!!!!!!!!!!!!!";

const VALUE_36: &[u8] = b"!!!!!!!!!!!!!!!!!!!!!!!!!!!!!!!!!!!!";

static ROWS: [Row; 6] = [
    // RFC 9204, Appendix B.
    (
        "an entry that is draining is inserted again, and one has a dynamic name",
        1,
        &[
            Step::Follows(1024, 64, 256),
            Step::Resizes(220, true),
            Step::Sends(
                4,
                &[NEW_AUTHORITY, NEW_PATH],
                b"\x03\x00\x81\x80",
                &[AUTHORITY, PATH],
            ),
            Step::Hears(b"\x84", "", 2),
            Step::Inserts(CUSTOM, true),
            Step::Hears(b"\x01", "", 3),
            Step::Sends(
                8,
                &[NEW_AUTHORITY, OLD_ROOT, NEW_CUSTOM],
                b"\x05\x00\x80\xc1\x81",
                &[AUTHORITY, ROOT, CUSTOM],
            ),
            Step::Writes(b"\x02"),
            Step::Has(&[AUTHORITY, PATH, CUSTOM, AUTHORITY]),
            Step::Hears(b"\x48", "", 3),
            Step::Inserts(CUSTOM2, true),
            Step::Has(&[PATH, CUSTOM, AUTHORITY, CUSTOM2]),
        ],
    ),
    // The value in the Huffman code is of RFC 7541, section C.4.3.
    (
        "an insertion with a dynamic name",
        1,
        &[
            Step::Resizes(220, true),
            Step::Inserts((b"custom-key", b""), true),
            Step::Inserts(CUSTOM, true),
            Step::Writes(b"\x80\x89\x25\xa8\x49\xe9\x5b\xb8\xe8\xb4\xbf"),
            Step::Inserts((b"custom-key", b""), true),
            Step::Writes(b"\xb4\xbf\x01"),
        ],
    ),
    (
        "no line refers to an entry that is draining",
        1,
        &[
            Step::Follows(1024, 34, 256),
            Step::Resizes(102, true),
            Step::Inserts(AB, true),
            Step::Inserts(CD, true),
            Step::Hears(b"\x02", "", 2),
            Step::Sends(0, &[OLD_AB, OLD_CD], b"\x03\x00\x81\x80", &[AB, CD]),
            Step::Inserts((b"e", b"f"), true),
            Step::Sends(0, &[OLD_AB, OLD_CD], b"\x03\x01\x21a\x01b\x81", &[AB, CD]),
        ],
    ),
    (
        "an entry that would be draining at once is not inserted",
        1,
        &[
            Step::Follows(1024, 34, 256),
            Step::Resizes(102, true),
            Step::Sends(
                0,
                &[SIZE_69, INSERTED_69],
                b"\x00\x00\
                \x21c\x24!!!!!!!!!!!!!!!!!!!!!!!!!!!!!!!!!!!!\
                \x21c\x24!!!!!!!!!!!!!!!!!!!!!!!!!!!!!!!!!!!!",
                &[(b"c", VALUE_36), (b"c", VALUE_36)],
            ),
            Step::Has(&[]),
            Step::Sends(0, &[SIZE_68], b"\x02\x00\x80", &[(b"c", VALUE_35)]),
            Step::Has(&[(b"c", VALUE_35)]),
        ],
    ),
    (
        "a field that is never indexed is a static entry, or a literal with the bit N",
        1,
        &[
            Step::Resizes(220, true),
            Step::Sends(
                0,
                &[SECRET_AB, SECRET_ROOT, SECRET_AUTHORIZATION, AUTHORIZATION],
                b"\x00\x00\x31a\x01b\xc1\x7f\x45\x01a\x5f\x45\x01a",
                &[AB, ROOT, (b"authorization", b"a"), (b"authorization", b"a")],
            ),
            Step::Has(&[]),
            Step::Inserts(AB, true),
            Step::Sends(0, &[SECRET_AB], b"\x02\x00\x60\x01b", &[AB]),
        ],
    ),
    (
        "the policy inserts no larger entries",
        1,
        &[
            Step::Follows(34, 0, 256),
            Step::Resizes(220, true),
            Step::Sends(
                0,
                &[SIZE_34, SIZE_35],
                b"\x02\x00\x80\x40\x02de",
                &[CD, (b"c", b"de")],
            ),
            Step::Has(&[CD]),
        ],
    ),
];

#[test]
fn policies(rt: HostRuntime) {
    assert_rows(&rt, rt.alloc(), &ROWS);
}
