//! Sections of lists that are sent, by the static table (RFC 9204, section 4.5 and appendix A). They are
//! those of nghttp3 0.8 with a table capacity of 0, where it is told which fields are never indexed; but
//! for the last, since it writes a literal of each such field.
use crate::field_lists::{assert_list, list_of};
use crate::same::assert_same;
use std::alloc::Global;
use std::process::Abort;
use wtp_fields::fields::FieldList;

/// The fields of a list, and its section.
struct Row {
    case: &'static str,
    fields: &'static [(&'static [u8], &'static [u8])],
    section: &'static [u8],
}

/// Entries, literals, and literals of sensitive fields, which have the bit N (sections 4.5.4 and 4.5.6).
static ROWS: [Row; 16] = [
    Row {
        case: "a status that is not the first entry",
        fields: &[(b":status", b"200")],
        section: b"\x00\x00\xd9",
    },
    Row {
        case: "an index of 64 or more",
        fields: &[(b":status", b"500")],
        section: b"\x00\x00\xff\x08",
    },
    Row {
        case: "the last entry of a name",
        fields: &[(b"x-frame-options", b"sameorigin")],
        section: b"\x00\x00\xff\x23",
    },
    Row {
        case: "a status that is no entry: the first entry with the name",
        fields: &[(b":status", b"418")],
        section: b"\x00\x00\x5f\x09\x03\x34\x31\x38",
    },
    Row {
        case: "a value in the Huffman code",
        fields: &[(b"x-frame-options", b"allow")],
        section: b"\x00\x00\x5f\x52\x84\x1d\x14\x1f\xc7",
    },
    Row {
        case: "a name without an entry",
        fields: &[(b"x-name", b"caf\xe9")],
        section: b"\x00\x00\x2d\xf2\xb5\x43\xa4\xbf\x04\x63\x61\x66\xe9",
    },
    Row {
        case: "an empty name",
        fields: &[(b"", b"")],
        section: b"\x00\x00\x20\x00",
    },
    Row {
        case: "a request",
        fields: &[
            (b":method", b"GET"),
            (b":scheme", b"https"),
            (b":authority", b"example.com"),
            (b":path", b"/"),
        ],
        section: b"\x00\x00\xd1\xd7\x50\x88\x2f\x91\xd3\x5d\x05\x5c\x87\xa7\xc1",
    },
    Row {
        case: "ten fields of a browser",
        fields: &[
            (b":method", b"GET"),
            (b":scheme", b"https"),
            (b":authority", b"www.example.com"),
            (b":path", b"/index.html"),
            (
                b"user-agent",
                b"Mozilla/5.0 (X11; Linux x86_64) AppleWebKit/537.36 (KHTML, like Gecko) Chrome/131.0.0.0 Safari/537.36",
            ),
            (b"accept", b"*/*"),
            (b"accept-encoding", b"gzip, deflate, br"),
            (b"accept-language", b"en-US,en;q=0.9"),
            (b"cache-control", b"no-cache"),
            (b"content-type", b"application/json"),
        ],
        section: b"\x00\x00\xd1\xd7\x50\x8c\xf1\xe3\xc2\xe5\xf2\x3a\x6b\xa0\xab\x90\xf4\xff\x51\x88\x60\xd5\x48\x5f\x2b\xce\x9a\x68\x5f\x50\xce\xd0\x7f\x66\xa2\x81\xb0\xda\xe0\x53\xfa\xfc\x08\x7e\xd4\xce\x6a\xad\xf2\xa7\x97\x9c\x89\xc6\xbf\xb5\x21\xae\xba\x0b\xc8\xb1\xe6\x32\x58\x6d\x97\x57\x65\xc5\x3f\xac\xd8\xf7\xe8\xcf\xf4\xa5\x06\xea\x55\x31\x14\x9d\x4f\xfd\xa9\x7a\x7b\x0f\x49\x58\x0b\x21\x5c\x0b\x81\x70\x29\xb8\x72\x8e\xc3\x30\xdb\x2e\xae\xcb\x9f\xdd\xdf\x5f\x39\x8b\x2d\x4b\x70\xdd\xf4\x5a\xbe\xfb\x40\x05\xdf\xe7\xee",
    },
    Row {
        case: "a response of entries",
        fields: &[
            (b":status", b"200"),
            (b"content-type", b"text/html; charset=utf-8"),
            (b"content-encoding", b"gzip"),
            (b"cache-control", b"no-cache"),
            (b"vary", b"accept-encoding"),
            (b"accept-ranges", b"bytes"),
            (b"access-control-allow-origin", b"*"),
            (b"x-content-type-options", b"nosniff"),
            (b"x-frame-options", b"deny"),
            (
                b"strict-transport-security",
                b"max-age=31536000; includesubdomains; preload",
            ),
        ],
        section: b"\x00\x00\xd9\xf4\xeb\xe7\xfb\xe0\xe3\xfd\xff\x22\xfa",
    },
    Row {
        case: "credentials",
        fields: &[(b"authorization", b"Basic YTpi")],
        section: b"\x00\x00\x7f\x45\x88\xba\x34\x18\x8a\x73\xdf\x59\xbf",
    },
    Row {
        case: "credentials for a proxy",
        fields: &[(b"proxy-authorization", b"a")],
        section: b"\x00\x00\x3f\x07\xae\xc3\xf9\xf4\xb0\xed\x4c\xe7\xb0\xde\xc6\x93\x1e\xaf\x01\x61",
    },
    Row {
        case: "a cookie that is set",
        fields: &[(b"set-cookie", b"a=b")],
        section: b"\x00\x00\x7e\x03\x61\x3d\x62",
    },
    Row {
        case: "a cookie of 19 bytes",
        fields: &[(b"cookie", b"0123456789012345678")],
        section: b"\x00\x00\x75\x8e\x00\x44\xcb\x4d\xb8\xeb\xcf\x80\x22\x65\xa6\xdc\x75\xef",
    },
    Row {
        case: "a cookie of 20 bytes",
        fields: &[(b"cookie", b"01234567890123456789")],
        section: b"\x00\x00\x55\x8f\x00\x44\xcb\x4d\xb8\xeb\xcf\x80\x22\x65\xa6\xdc\x75\xe7\xff",
    },
    Row {
        case: "sensitive fields that are entries",
        fields: &[
            (b"authorization", b""),
            (b"cookie", b""),
            (b"set-cookie", b""),
        ],
        section: b"\x00\x00\xff\x15\xc5\xce",
    },
];

/// Returns the list of fields, made once more where memory was refused.
fn made(rt: &impl Abort, alloc: Global, fields: &[(&[u8], &[u8])]) -> FieldList {
    match FieldList::from_fields(alloc, fields) {
        Ok(list) => list,
        Err(_) => FieldList::from_fields(alloc, fields).expect(rt, "memory"),
    }
}

#[test]
fn sections_of_lists_past_refused_memory(rt: HostRuntime) {
    for row in &ROWS {
        let list = made(&rt, rt.alloc(), row.fields);
        let section = match list.encode(rt.alloc()) {
            Ok(section) => section,
            Err(_) => list.encode(rt.alloc()).expect(&rt, "memory"),
        };
        assert_same(&rt, section.as_slice(), row.section, row.case);
        let back = list_of(rt.alloc(), section.as_slice(), 4096).expect(&rt, "refused");
        assert_list(&rt, &back, row.fields, row.case);
    }
}
