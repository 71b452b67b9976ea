//! Responses by status code and from header maps, their frames, their fields, and failed
//! allocations.
use crate::header_maps::{assert_fields, frame_of, map_of};
use crate::same::assert_same;
use std::alloc::{AllocError, Global};
use std::process::Abort;
use wtp_core::ids::StatusCode;
use wtp_fields::session::{AddError, HeadersParseError, SessionResponse};

/// The calls that create a response.
#[derive(Clone, Copy)]
enum Call {
    WithStatusCode,
    Ok,
    Forbidden,
    NotFound,
    TooManyRequests,
}

/// Returns the result of a call.
fn call_once(alloc: Global, call: Call) -> Result<SessionResponse, AllocError> {
    match call {
        Call::WithStatusCode => SessionResponse::with_status_code(alloc, StatusCode::OK),
        Call::Ok => SessionResponse::ok(alloc),
        Call::Forbidden => SessionResponse::forbidden(alloc),
        Call::NotFound => SessionResponse::not_found(alloc),
        Call::TooManyRequests => SessionResponse::too_many_requests(alloc),
    }
}

/// Returns the response that a call creates.
fn response(rt: &impl Abort, alloc: Global, call: Call) -> SessionResponse {
    match call_once(alloc, call) {
        Ok(response) => response,
        Err(AllocError) => call_once(alloc, call).expect(rt, "memory"),
    }
}

/// A call, and the status code and payload of its response.
type CallRow = (Call, u16, &'static [u8]);

/// All calls.
static CALLS: [CallRow; 5] = [
    (Call::WithStatusCode, 200, b"\x00\x00\x5f\x09\x82\x10\x01"),
    (Call::Ok, 200, b"\x00\x00\x5f\x09\x82\x10\x01"),
    (Call::Forbidden, 403, b"\x00\x00\x5f\x09\x03403"),
    (Call::NotFound, 404, b"\x00\x00\x5f\x09\x03404"),
    (Call::TooManyRequests, 429, b"\x00\x00\x5f\x09\x03429"),
];

/// Asserts that the call of a row creates a response with its status code and payload.
fn assert_response(rt: &impl Abort, alloc: Global, row: &CallRow) {
    let (call, code, payload) = *row;
    let response = response(rt, alloc, call);
    let frame = frame_of(rt, alloc, response.headers());
    assert_same(rt, response.code().into_inner(), code, code);
    assert_same(rt, frame.payload(), payload, code);
}

#[test]
fn responses_past_refused_memory(rt: HostRuntime) {
    for row in &CALLS {
        assert_response(&rt, rt.alloc(), row);
    }
}

/// Adds a field to a response.
fn add_once(response: &mut SessionResponse, name: &str, value: &str) -> Result<(), AddError> {
    response.add(name, value)
}

/// Adds a field to a response. If allocation failed, asserts that the field is unchanged, and
/// adds it again.
fn add(
    rt: &impl Abort,
    response: &mut SessionResponse,
    (name, value): (&str, &str),
    before: Option<&str>,
) {
    match add_once(response, name, value) {
        Err(AddError::Memory) => {
            let came = response.headers().get(name);
            assert_same(rt, came, before, "nothing is changed");
            add_once(response, name, value)
        }
        outcome => outcome,
    }
    .expect(rt, name);
}

/// Texts that are not status codes.
static NO_CODES: [&str; 7] = ["abc", "", "+", "99", "600", "65736", "2 00"];

/// Asserts that a text cannot be added as the status of a response, whose status code stays 200.
fn assert_no_code(rt: &impl Abort, response: &mut SessionResponse, text: &str) {
    let outcome = add_once(response, ":status", text);
    assert_same(rt, outcome, Err(AddError::InvalidStatusCode), text);
    assert_same(rt, response.code(), StatusCode::OK, text);
}

/// The fields after a status and another field were added.
static ADDED: [(&str, &str); 2] = [(":status", "0404"), ("x", "y")];

/// Asserts that a status and another field can be added to a response.
fn assert_added(rt: &impl Abort, response: &mut SessionResponse) {
    add(rt, response, ("x", "y"), None);
    add(rt, response, (":status", "0404"), Some("200"));
    assert_same(rt, response.code(), StatusCode::NOT_FOUND, "0404");
    let case = "a good text is kept as it is written";
    assert_fields(rt, response.headers(), &ADDED, case);
}

#[test]
fn fields_of_a_response_past_refused_memory(rt: HostRuntime) {
    let mut response = response(&rt, rt.alloc(), Call::Ok);
    for text in &NO_CODES {
        assert_no_code(&rt, &mut response, text);
    }
    assert_added(&rt, &mut response);
}

/// Returns the response with the map of these pairs.
fn response_once(
    rt: &impl Abort,
    alloc: Global,
    pairs: &[(&str, &str)],
) -> Result<SessionResponse, HeadersParseError> {
    SessionResponse::try_from(map_of(rt, alloc, pairs))
}

/// Returns the response with the map of these pairs, built again if allocation failed.
fn response_of(
    rt: &impl Abort,
    alloc: Global,
    pairs: &[(&str, &str)],
) -> Result<SessionResponse, HeadersParseError> {
    match response_once(rt, alloc, pairs) {
        Err(HeadersParseError::Memory) => response_once(rt, alloc, pairs),
        outcome => outcome,
    }
}

/// The case, pairs, and the error for the response with these fields.
type NoResponseRow = (
    &'static str,
    &'static [(&'static str, &'static str)],
    HeadersParseError,
);

/// Maps that are not valid responses.
static NO_RESPONSES: [NoResponseRow; 4] = [
    (
        "no status",
        &[("x", "y")],
        HeadersParseError::MissingStatusCode,
    ),
    (
        "letters",
        &[(":status", "abc")],
        HeadersParseError::InvalidStatusCode,
    ),
    (
        "below 100",
        &[(":status", "99")],
        HeadersParseError::InvalidStatusCode,
    ),
    (
        "above 599",
        &[(":status", "600")],
        HeadersParseError::InvalidStatusCode,
    ),
];

/// A status as text, and its digits in the response.
static STATUSES: [(&str, &str); 3] = [("0200", "200"), ("+403", "403"), ("599", "599")];

/// Asserts that a map with this text as its status is a response with these digits and no other
/// field.
fn assert_status(rt: &impl Abort, alloc: Global, (text, digits): (&str, &str)) {
    let response = response_of(rt, alloc, &[(":status", text), ("x", "y")]).expect(rt, text);
    assert_fields(rt, response.headers(), &[(":status", digits)], text);
}

#[test]
fn responses_of_maps_past_refused_memory(rt: HostRuntime) {
    for row in &STATUSES {
        assert_status(&rt, rt.alloc(), *row);
    }
    for (case, pairs, fault) in &NO_RESPONSES {
        let came = response_of(&rt, rt.alloc(), pairs).err();
        assert_same(&rt, came.as_ref(), Some(fault), case);
    }
}
