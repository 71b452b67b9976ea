//! Requests from URLs and from header maps, their frames, their fields, and failed allocations.
use crate::header_maps::{assert_fields, frame_of, map_of};
use crate::same::assert_same;
use std::alloc::Global;
use std::borrow::CowSlice;
use std::process::Abort;
use wtp_core::error::{ErrorCode, Refused};
use wtp_fields::headers::Headers;
use wtp_fields::session::{
    HeadersParseError, InsertError, ReservedHeader, SessionRequest, UrlParseError, request_of_frame,
};
use wtp_wire::frame::{Frame, FrameKind, FrameOwned};

/// Returns the request for a URL, built again if allocation failed.
fn request_for(alloc: Global, url: &str) -> Result<SessionRequest, UrlParseError> {
    match SessionRequest::new(alloc, url) {
        Err(UrlParseError::Memory) => SessionRequest::new(alloc, url),
        outcome => outcome,
    }
}

/// Asserts that a request has this authority and path, the fields of every request, and no
/// others.
fn assert_request(
    rt: &impl Abort,
    request: &SessionRequest,
    authority: &'static str,
    path: &'static str,
    case: &str,
) {
    assert_same(rt, request.authority(), authority, case);
    assert_same(rt, request.path(), path, case);
    let fields = [
        (":authority", authority),
        (":method", "CONNECT"),
        (":path", path),
        (":protocol", "webtransport"),
        (":scheme", "https"),
    ];
    assert_fields(rt, request.headers(), &fields, case);
}

/// A URL, and the authority and path of its request.
struct UrlRow {
    case: &'static str,
    url: &'static str,
    authority: &'static str,
    path: &'static str,
}

/// Valid URLs.
static URLS: [UrlRow; 4] = [
    UrlRow {
        case: "a port, and a query",
        url: "https://localhost:4433/foo/bar?p1=1&p2=2",
        authority: "localhost:4433",
        path: "/foo/bar?p1=1&p2=2",
    },
    UrlRow {
        case: "the default port, and a fragment",
        url: "https://example.com:443/x#f",
        authority: "example.com",
        path: "/x",
    },
    UrlRow {
        case: "no path, and an empty query",
        url: "https://example.com?",
        authority: "example.com",
        path: "/?",
    },
    UrlRow {
        case: "a user part, and an IPv6 address",
        url: "https://user:password@[::1]:8443/",
        authority: "user:password@[::1]:8443",
        path: "/",
    },
];

/// Asserts that the request for the URL of a row has its authority and path.
fn assert_requested(rt: &impl Abort, alloc: Global, row: &UrlRow) {
    let UrlRow {
        case,
        url,
        authority,
        path,
    } = *row;
    let request = request_for(alloc, url).expect(rt, url);
    assert_request(rt, &request, authority, path, case);
}

#[test]
fn urls_past_refused_memory(rt: HostRuntime) {
    for row in &URLS {
        assert_requested(&rt, rt.alloc(), row);
    }
}

/// Invalid URLs, and the error for each.
static REFUSED_URLS: [(&str, UrlParseError); 9] = [
    ("http://localhost:4433", UrlParseError::SchemeNotHttps),
    ("wss://localhost", UrlParseError::SchemeNotHttps),
    ("https://", UrlParseError::EmptyHost),
    ("https://\u{fdd0}zyx.com", UrlParseError::IdnaError),
    ("https://localhost:65536", UrlParseError::InvalidPort),
    ("https://1.2.3.256", UrlParseError::InvalidIpv4Address),
    ("https://[::g]", UrlParseError::InvalidIpv6Address),
    ("web+x://local<host", UrlParseError::InvalidDomainCharacter),
    ("/foo/bar", UrlParseError::RelativeUrlWithoutBase),
];

#[test]
fn refused_urls_past_refused_memory(rt: HostRuntime) {
    for (url, fault) in &REFUSED_URLS {
        let came = request_for(rt.alloc(), url).err();
        assert_same(&rt, came.as_ref(), Some(fault), url);
    }
}

/// Inserts a field into a request.
fn insert_once(request: &mut SessionRequest, name: &str, value: &str) -> Result<(), InsertError> {
    request.insert(name, value)
}

/// Inserts a field into a request. If allocation failed, asserts that the field is unchanged, and
/// inserts it again.
fn insert(rt: &impl Abort, request: &mut SessionRequest, row: &InsertedRow) {
    let (name, value, before) = *row;
    match insert_once(request, name, value) {
        Err(InsertError::Memory) => {
            assert_same(rt, request.get(name), before, "nothing is changed");
            insert_once(request, name, value)
        }
        outcome => outcome,
    }
    .expect(rt, name);
}

/// Asserts the values of the fields that a client may set.
fn assert_given(
    rt: &impl Abort,
    request: &SessionRequest,
    (origin, agent, x): (Option<&str>, Option<&str>, Option<&str>),
    case: &str,
) {
    assert_same(rt, request.origin(), origin, case);
    assert_same(rt, request.user_agent(), agent, case);
    assert_same(rt, request.get("x"), x, case);
}

/// A field name, its value, and its previous value.
type InsertedRow = (&'static str, &'static str, Option<&'static str>);

/// Fields that are inserted, one after another.
static INSERTED: [InsertedRow; 4] = [
    ("origin", "https://a.example", None),
    ("user-agent", "agent", None),
    ("x", "y", None),
    ("x", "z", Some("y")),
];

/// Returns a request for a URL, with the inserted fields.
fn request_with_fields(rt: &impl Abort, alloc: Global) -> SessionRequest {
    let mut request = request_for(alloc, "https://example.com/").expect(rt, "no request");
    assert_given(rt, &request, (None, None, None), "no field is inserted");
    for row in &INSERTED {
        insert(rt, &mut request, row);
    }
    request
}

/// The names of the pseudo-header fields that a request sets itself.
static RESERVED: [&str; 5] = [":method", ":scheme", ":protocol", ":authority", ":path"];

/// Asserts that a name is reserved, so a field with this name cannot be inserted.
fn assert_reserved(rt: &impl Abort, request: &mut SessionRequest, name: &'static str) {
    assert_same(
        rt,
        SessionRequest::RESERVED_HEADERS.contains(&name),
        true,
        name,
    );
    let outcome = request.insert(name, "example");
    assert_same(
        rt,
        outcome,
        Err(InsertError::Reserved(ReservedHeader)),
        name,
    );
}

#[test]
fn fields_of_a_request_past_refused_memory(rt: HostRuntime) {
    let mut request = request_with_fields(&rt, rt.alloc());
    let given = (Some("https://a.example"), Some("agent"), Some("z"));
    assert_given(&rt, &request, given, "the last value of a name");
    assert_same(
        &rt,
        SessionRequest::RESERVED_HEADERS.len(),
        5,
        "reserved names",
    );
    for name in &RESERVED {
        assert_reserved(&rt, &mut request, name);
    }
    let wanted = ("example.com", "/", 8);
    assert_parts(&rt, &request, wanted, "no reserved field is changed");
}

/// Returns why these fields are not a valid request.
fn fault_of(headers: Headers) -> Option<HeadersParseError> {
    SessionRequest::try_from(headers).err()
}

/// The case, pairs, and the error for the request with these fields.
type FaultRow = (
    &'static str,
    &'static [(&'static str, &'static str)],
    Option<HeadersParseError>,
);

/// Errors are checked in the order of the first five.
static FAULTS: [FaultRow; 10] = [
    (
        "a request",
        &[
            (":method", "CONNECT"),
            (":scheme", "https"),
            (":protocol", "webtransport"),
            (":authority", "example.com"),
            (":path", "/"),
        ],
        None,
    ),
    (
        "all but the method",
        &[
            (":scheme", "https"),
            (":protocol", "webtransport"),
            (":authority", "example.com"),
            (":path", "/"),
        ],
        Some(HeadersParseError::MissingMethod),
    ),
    (
        "another method, and no path",
        &[
            (":method", "GET"),
            (":scheme", "https"),
            (":protocol", "webtransport"),
            (":authority", "example.com"),
        ],
        Some(HeadersParseError::MethodNotConnect),
    ),
    (
        "a method alone",
        &[(":method", "CONNECT")],
        Some(HeadersParseError::MissingScheme),
    ),
    (
        "another scheme, and no more",
        &[(":method", "CONNECT"), (":scheme", "http")],
        Some(HeadersParseError::SchemeNotHttps),
    ),
    (
        "a method and a scheme",
        &[(":method", "CONNECT"), (":scheme", "https")],
        Some(HeadersParseError::MissingProtocol),
    ),
    (
        "another protocol, and no more",
        &[
            (":method", "CONNECT"),
            (":scheme", "https"),
            (":protocol", "websocket"),
        ],
        Some(HeadersParseError::ProtocolNotWebTransport),
    ),
    (
        "all but the authority",
        &[
            (":method", "CONNECT"),
            (":scheme", "https"),
            (":protocol", "webtransport"),
            (":path", "/"),
        ],
        Some(HeadersParseError::MissingAuthority),
    ),
    (
        "all but the path",
        &[
            (":method", "CONNECT"),
            (":scheme", "https"),
            (":protocol", "webtransport"),
            (":authority", "example.com"),
        ],
        Some(HeadersParseError::MissingPath),
    ),
    ("no field", &[], Some(HeadersParseError::MissingMethod)),
];

#[test]
fn faults_of_requests_past_refused_memory(rt: HostRuntime) {
    for (case, pairs, first) in &FAULTS {
        assert_same(&rt, &fault_of(map_of(&rt, rt.alloc(), pairs)), first, case);
    }
}

/// Reads the request in a frame, again if allocation failed.
fn receive(alloc: Global, frame: &Frame<'_>) -> Result<SessionRequest, Refused> {
    match request_of_frame(alloc, frame) {
        Err(Refused::Memory) => request_of_frame(alloc, frame),
        outcome => outcome,
    }
}

/// Returns the frame of the request for `https://example.com/`.
fn request_frame(rt: &impl Abort, alloc: Global) -> FrameOwned {
    let request = request_for(alloc, "https://example.com/").expect(rt, "no request");
    frame_of(rt, alloc, request.headers())
}

/// Asserts the authority, the path and the number of fields of a request.
fn assert_parts(
    rt: &impl Abort,
    request: &SessionRequest,
    (authority, path, fields): (&str, &str, usize),
    case: &str,
) {
    assert_same(rt, request.authority(), authority, case);
    assert_same(rt, request.path(), path, case);
    assert_same(rt, request.headers().as_ref().len(), fields, case);
}

#[test]
fn sent_request_past_refused_memory(rt: HostRuntime) {
    let frame = request_frame(&rt, rt.alloc());
    assert_same(&rt, frame.kind(), FrameKind::Headers, "the frame");
    assert_same(&rt, frame.write_size(), 42, "the size of the frame");
    assert_same(&rt, frame.payload(), PAYLOAD, "the payload of the frame");
    let back = receive(rt.alloc(), &frame).expect(&rt, "refused");
    assert_parts(&rt, &back, ("example.com", "/", 5), "what comes back");
}

/// The payload of the request for `https://example.com/`.
static PAYLOAD: &[u8] =
    b"\x00\x00\x50\x88\x2f\x91\xd3\x5d\x05\x5c\x87\xa7\xcf\xc1\x2f\x00\xb9\x5d\x87\x49\xc8\x7a\x3f\
    \x89\xf0\x58\xd3\x60\xea\x45\x67\xb1\x3f\x5f\x07\x84\x9d\x29\xad\x1f";

/// The case, the payload of a HEADERS frame that is not a request, and the error code.
static REFUSED_PAYLOADS: [(&str, &[u8], ErrorCode); 3] = [
    (
        "a payload that is no section",
        b"\x00",
        ErrorCode::Decompression,
    ),
    ("a map without a method", b"\x00\x00", ErrorCode::Message),
    (
        "a request without a path",
        b"\x00\x00\xcf\xd7\x27\x02:protocol\x0cwebtransport\x50\x01a",
        ErrorCode::Message,
    ),
];

/// Asserts that a frame is rejected as a request, with this error code.
fn assert_refused(rt: &impl Abort, alloc: Global, frame: Frame<'_>, code: ErrorCode, case: &str) {
    assert_same(
        rt,
        receive(alloc, &frame).err(),
        Some(Refused::Code(code)),
        case,
    );
}

/// Asserts that the HEADERS frame with this payload is rejected.
fn assert_refused_payload(
    rt: &impl Abort,
    alloc: Global,
    payload: &[u8],
    code: ErrorCode,
    case: &str,
) {
    assert!(rt; payload.len() < 2048);
    let frame = Frame::new_headers(CowSlice::Borrowed(payload));
    assert_refused(rt, alloc, frame, code, case);
}

#[test]
fn refused_frames_past_refused_memory(rt: HostRuntime) {
    let data = Frame::new_data(CowSlice::Borrowed(&[]));
    assert_refused(
        &rt,
        rt.alloc(),
        data,
        ErrorCode::FrameUnexpected,
        "another kind",
    );
    for (case, payload, code) in &REFUSED_PAYLOADS {
        assert_refused_payload(&rt, rt.alloc(), payload, *code, case);
    }
}
