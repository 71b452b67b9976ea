//! Field lists: sections as bytes, with repeated names and under a limit; the status and the target
//! of a message; fields that are pushed; lists that are sent and read back; and refused memory.
use crate::same::assert_same;
use std::alloc::Global;
use std::process::Abort;
use wtp_core::error::ErrorCode;
use wtp_core::ids::StatusCode;
use wtp_fields::fields::{FieldList, FieldSectionError, PushError, ToHeadersError};
use wtp_fields::qpack::DecodingError;
use wtp_fields::session::{HeadersParseError, UrlParseError};
use wtp_wire::frame::{FrameKind, FrameOwned};

/// The list of a section, read once more where memory was refused.
pub(crate) fn list_of(
    alloc: Global,
    section: &[u8],
    limit: u64,
) -> Result<FieldList, FieldSectionError> {
    match FieldList::decode(alloc, section, limit) {
        Err(FieldSectionError::Memory) => FieldList::decode(alloc, section, limit),
        result => result,
    }
}

/// Asserts that a list has these fields and no other, in this order.
pub(crate) fn assert_list(
    rt: &impl Abort,
    list: &FieldList,
    fields: &[(&[u8], &[u8])],
    case: &str,
) {
    assert_same(rt, list.len(), fields.len(), case);
    assert_same(rt, list.is_empty(), fields.is_empty(), case);
    for (line, (name, value)) in list.iter().zip(fields) {
        assert_same(rt, line.name, *name, case);
        assert_same(rt, line.value, *value, case);
    }
}

/// A section, and the list that it has.
struct SectionRow {
    case: &'static str,
    section: &'static [u8],
    /// The size of the fields.
    size: u64,
    fields: &'static [(&'static [u8], &'static [u8])],
}

/// Sections. The second is the first of RFC 9204, appendix B.1.
static SECTIONS: [SectionRow; 6] = [
    SectionRow {
        case: "no line",
        section: b"\x00\x00",
        size: 0,
        fields: &[],
    },
    SectionRow {
        case: "RFC 9204, appendix B.1",
        section: b"\x00\x00\x51\x0b/index.html",
        size: 48,
        fields: &[(b":path", b"/index.html")],
    },
    SectionRow {
        case: "RFC 7541, appendix C.6.1: a Huffman value",
        section: b"\x00\x00\x5f\x09\x82\x64\x02",
        size: 42,
        fields: &[(b":status", b"302")],
    },
    SectionRow {
        case: "two set-cookie",
        section: b"\x00\x00\xd9\x5e\x01a\x5e\x01b",
        size: 128,
        fields: &[
            (b":status", b"200"),
            (b"set-cookie", b"a"),
            (b"set-cookie", b"b"),
        ],
    },
    SectionRow {
        case: "a value of Latin-1",
        section: b"\x00\x00\x26x-name\x04caf\xe9",
        size: 42,
        fields: &[(b"x-name", b"caf\xe9")],
    },
    SectionRow {
        case: "entries of the static table",
        section: b"\x00\x00\xcf\xd7\xc1",
        size: 128,
        fields: &[
            (b":method", b"CONNECT"),
            (b":scheme", b"https"),
            (b":path", b"/"),
        ],
    },
];

/// Asserts that a section has its fields under the limit of their size, and none under one less.
fn assert_section(rt: &impl Abort, alloc: Global, row: &SectionRow) {
    let SectionRow {
        case,
        section,
        size,
        fields,
    } = *row;
    let list = list_of(alloc, section, size).expect(rt, "refused");
    assert_list(rt, &list, fields, case);
    if size > 0 {
        let fault = list_of(alloc, section, size - 1).err();
        assert_same(rt, fault, Some(FieldSectionError::TooLarge), case);
    }
}

#[test]
fn sections_past_refused_memory(rt: HostRuntime) {
    for row in &SECTIONS {
        assert_section(&rt, rt.alloc(), row);
    }
}

/// A section that has no list.
struct RefusedRow {
    case: &'static str,
    section: &'static [u8],
    limit: u64,
    error: FieldSectionError,
}

/// Sections without a list under a limit, and the reason.
static REFUSED: [RefusedRow; 7] = [
    RefusedRow {
        case: "no prefix",
        section: b"",
        limit: 0,
        error: FieldSectionError::Decoding(DecodingError::UnexpectedFin),
    },
    RefusedRow {
        case: "a value that is cut",
        section: b"\x00\x00\x5e\x02a",
        limit: 100,
        error: FieldSectionError::Decoding(DecodingError::UnexpectedFin),
    },
    RefusedRow {
        case: "an index after the static table",
        section: b"\x00\x00\xff\x24",
        limit: 100,
        error: FieldSectionError::Decoding(DecodingError::IndexNotfound),
    },
    RefusedRow {
        case: "no Huffman text: the padding has zeros (RFC 7541, section 5.2)",
        section: b"\x00\x00\x5e\x81\x00",
        limit: 100,
        error: FieldSectionError::Decoding(DecodingError::InvalidString),
    },
    RefusedRow {
        case: "a line that fits before one of the dynamic table",
        section: b"\x00\x00\xc1\x80",
        limit: 38,
        error: FieldSectionError::Decoding(DecodingError::DynamicNotSupported),
    },
    RefusedRow {
        case: "a line that does not fit before one of the dynamic table",
        section: b"\x00\x00\xc1\x80",
        limit: 37,
        error: FieldSectionError::TooLarge,
    },
    RefusedRow {
        case: "a field counts 32 bytes more than its texts",
        section: b"\x00\x00\xc1",
        limit: 6,
        error: FieldSectionError::TooLarge,
    },
];

#[test]
fn refused_lists_past_refused_memory(rt: HostRuntime) {
    for row in &REFUSED {
        let fault = list_of(rt.alloc(), row.section, row.limit).err();
        assert_same(&rt, fault, Some(row.error), row.case);
        let code = match row.error {
            FieldSectionError::Decoding(_) => Some(ErrorCode::Decompression),
            FieldSectionError::TooLarge | FieldSectionError::Memory => None,
        };
        assert_same(&rt, row.error.code(), code, row.case);
    }
}

/// The sections of responses, and their status codes (RFC 9110, section 15).
static STATUSES: [(&[u8], Result<u16, HeadersParseError>); 13] = [
    (b"\x00\x00\x5f\x09\x03200", Ok(200)),
    (b"\x00\x00\xd9", Ok(200)),
    (b"\x00\x00\x5f\x09\x03100", Ok(100)),
    (b"\x00\x00\x5f\x09\x03599", Ok(599)),
    (b"\x00\x00\xd9\xdb", Ok(404)),
    (
        b"\x00\x00\x5f\x09\x04+200",
        Err(HeadersParseError::InvalidStatusCode),
    ),
    (
        b"\x00\x00\x5f\x09\x040200",
        Err(HeadersParseError::InvalidStatusCode),
    ),
    (
        b"\x00\x00\x5f\x09\x0299",
        Err(HeadersParseError::InvalidStatusCode),
    ),
    (
        b"\x00\x00\x5f\x09\x03099",
        Err(HeadersParseError::InvalidStatusCode),
    ),
    (
        b"\x00\x00\x5f\x09\x03600",
        Err(HeadersParseError::InvalidStatusCode),
    ),
    (
        b"\x00\x00\x5f\x09\x042000",
        Err(HeadersParseError::InvalidStatusCode),
    ),
    (
        b"\x00\x00\x5f\x09\x032x0",
        Err(HeadersParseError::InvalidStatusCode),
    ),
    (b"\x00\x00", Err(HeadersParseError::MissingStatusCode)),
];

#[test]
fn statuses_past_refused_memory(rt: HostRuntime) {
    for (section, wanted) in &STATUSES {
        let list = list_of(rt.alloc(), section, 4096).expect(&rt, "refused");
        match (list.status(), wanted) {
            (Ok(code), Ok(number)) => assert_same(&rt, code.into_inner(), *number, "the status"),
            (Err(fault), Err(error)) => {
                assert_same(&rt, &fault, error, "the fault");
                assert_same(
                    &rt,
                    fault.code(),
                    Some(ErrorCode::Message),
                    "a fault of the message",
                );
            }
            _ => panic!(&rt; "a status, or a fault: {section:?}"),
        }
    }
}

/// A request whose authority is Latin-1, with `:path` twice.
static REQUEST: &[u8] =
    b"\x00\x00\xcf\xd7\x27\x02:protocol\x0cwebtransport\x50\x04caf\xe9\x51\x01x\xc1";

/// Sections, and the first fault of a request.
static FAULTS: [(&[u8], HeadersParseError); 8] = [
    (b"\x00\x00", HeadersParseError::MissingMethod),
    (b"\x00\x00\xd1", HeadersParseError::MethodNotConnect),
    (b"\x00\x00\xcf", HeadersParseError::MissingScheme),
    (b"\x00\x00\xcf\xd6", HeadersParseError::SchemeNotHttps),
    (b"\x00\x00\xcf\xd7", HeadersParseError::MissingProtocol),
    (
        b"\x00\x00\xcf\xd7\x27\x02:protocol\x01a",
        HeadersParseError::ProtocolNotWebTransport,
    ),
    (
        b"\x00\x00\xcf\xd7\x27\x02:protocol\x0cwebtransport\xc1",
        HeadersParseError::MissingAuthority,
    ),
    (
        b"\x00\x00\xcf\xd7\x27\x02:protocol\x0cwebtransport\xc0",
        HeadersParseError::MissingPath,
    ),
];

#[test]
fn requests_as_lists_past_refused_memory(rt: HostRuntime) {
    let list = list_of(rt.alloc(), REQUEST, 4096).expect(&rt, "refused");
    let target = list.session_request().expect(&rt, "a request");
    assert_same(&rt, target.authority, b"caf\xe9", "Latin-1");
    assert_same(&rt, target.path, b"/", "the last counts");
    assert_same(
        &rt,
        list.first(b":path"),
        Some(b"x".as_slice()),
        "the first path",
    );
    assert_same(
        &rt,
        list.last(b":path"),
        Some(b"/".as_slice()),
        "the last path",
    );
    assert_same(&rt, list.first(b"path"), None, "no such name");
    assert_same(&rt, list.is_utf8(), false, "not UTF-8");
    assert_same(
        &rt,
        list.to_headers(rt.alloc()).err(),
        Some(ToHeadersError::NotUtf8),
        "no map",
    );
    for (section, error) in &FAULTS {
        let list = list_of(rt.alloc(), section, 4096).expect(&rt, "refused");
        assert_same(
            &rt,
            list.session_request().err().as_ref(),
            Some(error),
            "the first fault",
        );
    }
}

#[test]
fn repeated_names_past_refused_memory(rt: HostRuntime) {
    let list = list_of(rt.alloc(), b"\x00\x00\xd9\x5e\x01a\x5e\x01b", 128).expect(&rt, "refused");
    let mut values = list.all(b"set-cookie");
    assert_same(
        &rt,
        values.next(),
        Some(b"a".as_slice()),
        "the first cookie",
    );
    assert_same(
        &rt,
        values.next(),
        Some(b"b".as_slice()),
        "the second cookie",
    );
    assert_same(&rt, values.next(), None, "no third");
    assert_same(
        &rt,
        list.get(2).map(|line| line.value),
        Some(b"b".as_slice()),
        "by its index",
    );
    assert_same(&rt, list.get(3).is_none(), true, "past the last");
    let headers = match list.to_headers(rt.alloc()) {
        Err(ToHeadersError::Memory) => list.to_headers(rt.alloc()),
        result => result,
    };
    let headers = headers.expect(&rt, "a map");
    assert_same(
        &rt,
        headers.get("set-cookie"),
        Some("b"),
        "the last value of a name",
    );
    assert_same(&rt, headers.get(":status"), Some("200"), "the status");
}

/// Names and values that are refused, and why.
static UNPUSHED: [(&[u8], &[u8], PushError); 15] = [
    (b"", b"a", PushError::EmptyName),
    (b":path", b"/", PushError::PseudoHeader),
    (b":Path", b"/", PushError::PseudoHeader),
    (b"X-name", b"a", PushError::UpperCase),
    (b"x-namE", b"\r\n", PushError::UpperCase),
    (b"x name", b"a", PushError::NotAToken),
    (b"x:name", b"a", PushError::NotAToken),
    (b"x\xe9", b"a", PushError::NotAToken),
    (b"x-name", b"a\r\nb: c", PushError::ForbiddenValue),
    (b"x-name", b"a\n", PushError::ForbiddenValue),
    (b"x-name", b"\x00", PushError::ForbiddenValue),
    (b"x-name", b"\x7f", PushError::ForbiddenValue),
    (b"x-name", b"\x1f", PushError::ForbiddenValue),
    (b"x-name", b" a", PushError::ForbiddenValue),
    (b"x-name", b"a\t", PushError::ForbiddenValue),
];

/// The fields that are pushed to the list of a response.
static PUSHED: [(&[u8], &[u8]); 7] = [
    (b":status", b"200"),
    (b"set-cookie", b"a"),
    (b"!#$%&'*+-.^_`|~09az", b"a b\tc"),
    (b"set-cookie", b"b"),
    (b"x-name", b"caf\xe9"),
    (b"x-empty", b""),
    (b"set-cookie", b"a"),
];

/// Pushes a field. Where memory was refused the list must be as it was, and the field is pushed
/// once more.
fn push(rt: &impl Abort, list: &mut FieldList, name: &[u8], value: &[u8]) -> Result<(), PushError> {
    let before = list.len();
    match list.push(name, value) {
        Err(PushError::Memory) => {
            assert_same(rt, list.len(), before, "nothing is changed");
            list.push(name, value)
        }
        result => result,
    }
}

/// The frame of a list, made once more where memory was refused.
fn frame_of_list(rt: &impl Abort, alloc: Global, list: &FieldList) -> FrameOwned {
    match list.generate_frame(alloc) {
        Ok(frame) => frame,
        Err(_) => list.generate_frame(alloc).expect(rt, "memory"),
    }
}

#[test]
fn pushed_fields_past_refused_memory(rt: HostRuntime) {
    let mut list = match FieldList::response(rt.alloc(), StatusCode::OK) {
        Ok(list) => list,
        Err(_) => FieldList::response(rt.alloc(), StatusCode::OK).expect(&rt, "memory"),
    };
    for (name, value, error) in &UNPUSHED {
        assert_same(
            &rt,
            push(&rt, &mut list, name, value),
            Err(*error),
            "refused",
        );
    }
    assert_list(&rt, &list, &PUSHED[..1], "nothing is changed");
    for (name, value) in &PUSHED[1..] {
        assert_same(&rt, push(&rt, &mut list, name, value), Ok(()), "pushed");
    }
    assert_list(&rt, &list, &PUSHED, "in their order");
    let frame = frame_of_list(&rt, rt.alloc(), &list);
    assert_same(&rt, frame.kind(), FrameKind::Headers, "a HEADERS frame");
    let back = list_of(rt.alloc(), frame.payload(), 4096).expect(&rt, "refused");
    assert_list(&rt, &back, &PUSHED, "what was sent");
}

/// Returns the list of the request for the URL of these tests.
fn request_of_url(rt: &impl Abort, alloc: Global) -> FieldList {
    let url = "https://example.org:4433/chat?x=1";
    match FieldList::request(alloc, url) {
        Err(UrlParseError::Memory) => FieldList::request(alloc, url),
        result => result,
    }
    .expect(rt, "a request")
}

#[test]
fn requests_of_urls_past_refused_memory(rt: HostRuntime) {
    let fields: [(&[u8], &[u8]); 5] = [
        (b":method", b"CONNECT"),
        (b":scheme", b"https"),
        (b":protocol", b"webtransport"),
        (b":authority", b"example.org:4433"),
        (b":path", b"/chat?x=1"),
    ];
    assert_list(&rt, &request_of_url(&rt, rt.alloc()), &fields, "a request");
    let list = match FieldList::from_fields(rt.alloc(), &fields) {
        Ok(list) => list,
        Err(_) => FieldList::from_fields(rt.alloc(), &fields).expect(&rt, "memory"),
    };
    assert_list(&rt, &list, &fields, "the same fields");
    for (text, error) in [
        ("http://example.org/", UrlParseError::SchemeNotHttps),
        ("https://", UrlParseError::EmptyHost),
        ("/chat", UrlParseError::RelativeUrlWithoutBase),
    ] {
        let fault = match FieldList::request(rt.alloc(), text).err() {
            Some(UrlParseError::Memory) => FieldList::request(rt.alloc(), text).err(),
            fault => fault,
        };
        assert_same(&rt, fault, Some(error), text);
    }
}

#[test]
fn sent_responses_past_refused_memory(rt: HostRuntime) {
    let response = list_of(rt.alloc(), b"\x00\x00\xd9\x5e\x01a\x5e\x01b", 128).expect(
        &rt, "refused",
    );
    let frame = frame_of_list(&rt, rt.alloc(), &response);
    assert_same(
        &rt,
        frame.payload(),
        b"\x00\x00\xd9\x7e\x01a\x7e\x01b".as_slice(),
        "an entry, and literals that are never indexed",
    );
}

#[test]
fn sent_requests_past_refused_memory(rt: HostRuntime) {
    let mut list = request_of_url(&rt, rt.alloc());
    let origin = b"https://example.org";
    assert_same(
        &rt,
        push(&rt, &mut list, b"origin", origin),
        Ok(()),
        "pushed",
    );
    let frame = frame_of_list(&rt, rt.alloc(), &list);
    let back = list_of(rt.alloc(), frame.payload(), 4096).expect(&rt, "refused");
    let target = back.session_request().expect(&rt, "a request");
    let authority = b"example.org:4433".as_slice();
    assert_same(&rt, target.authority, authority, "the authority");
    assert_same(&rt, target.path, b"/chat?x=1".as_slice(), "the path");
    assert_same(
        &rt,
        back.last(b"origin"),
        Some(origin.as_slice()),
        "the origin",
    );
}
