//! Responses after interim ones, on a stream of a connection (RFC 9114, section 4.1).
use crate::reading::{connection_of, read};
use crate::same::assert_same;
use std::process::Abort;
use wtp_connection::connection::{Connection, Found};
use wtp_connection::fault::Fault;
use wtp_connection::fields::Fields;
use wtp_connection::stream::Stream;
use wtp_core::error::ErrorScope;
use wtp_frames::endpoint::{Endpoint, Side};
use wtp_frames::frame_type::FrameType;

/// A response after interim ones.
struct Row {
    case: &'static str,
    /// How many interim responses come before it.
    interims: u32,
    /// Its bytes.
    bytes: &'static [u8],
    /// How many sections and how many bytes of DATA are returned.
    frames: usize,
    data: usize,
    /// The code of the error; 0 if there is none.
    code: u64,
    ends_connection: bool,
}

/// The rows of RFC 9114, section 4.1.
static ROWS: [Row; 6] = [
    Row {
        case: "a response after an interim one",
        interims: 1,
        bytes: &[0x01, 0x01, 0xd9, 0x00, 0x01, 0x61],
        frames: 1,
        data: 1,
        code: 0,
        ends_connection: false,
    },
    Row {
        case: "a response with trailers after three",
        interims: 3,
        bytes: &[0x01, 0x01, 0xd9, 0x00, 0x02, 0x61, 0x62, 0x01, 0x01, 0xd2],
        frames: 2,
        data: 2,
        code: 0,
        ends_connection: false,
    },
    Row {
        case: "a response after 64",
        interims: 64,
        bytes: &[0x01, 0x01, 0xd9],
        frames: 1,
        data: 0,
        code: 0,
        ends_connection: false,
    },
    Row {
        case: "DATA after an interim response",
        interims: 2,
        bytes: &[0x00, 0x01, 0x61],
        frames: 0,
        data: 0,
        code: 0x105,
        ends_connection: true,
    },
    Row {
        case: "a section after trailers",
        interims: 1,
        bytes: &[0x01, 0x01, 0xd9, 0x01, 0x01, 0xd2, 0x01, 0x01, 0xd2],
        frames: 2,
        data: 0,
        code: 0x105,
        ends_connection: true,
    },
    Row {
        case: "no response after an interim one (4.1.2)",
        interims: 1,
        bytes: &[0x21, 0x00],
        frames: 0,
        data: 0,
        code: 0x10e,
        ends_connection: false,
    },
];

/// Reads so many interim responses, the bytes of each in pieces of this size, and returns the error
/// of the last one.
fn tell(
    connection: &mut Connection,
    stream: &mut Stream,
    interims: u32,
    size: usize,
) -> Option<Fault> {
    let mut fault = None;
    for _turn in 0..interims {
        read(connection, stream, &[0x01, 0x02, 0xd8, 0xd1], size, false);
        fault = connection.interim(stream);
    }
    fault
}

#[test]
fn responses_come_after_interim_ones(rt: HostRuntime) {
    for row in &ROWS {
        for size in 1..5usize {
            let mut connection = connection_of(false, true);
            let mut stream = Stream::of_request(Endpoint::new(Side::Client));
            let fault = tell(&mut connection, &mut stream, row.interims, size);
            assert_same(&rt, fault.is_none(), true, row.case);
            let came = read(&mut connection, &mut stream, row.bytes, size, true);
            assert_same(
                &rt,
                (came.frames, came.data),
                (row.frames, row.data),
                row.case,
            );
            assert_same(
                &rt,
                (came.code, came.ends_connection),
                (row.code, row.ends_connection),
                row.case,
            );
        }
    }
}

#[test]
fn the_last_response_may_not_be_an_interim_one(rt: HostRuntime) {
    let headers = [0x01, 0x02, 0xd8, 0xd1];
    let mut connection = connection_of(false, true);
    let mut fields = Fields::new();
    let mut stream = Stream::of_request(Endpoint::new(Side::Client));
    let found = connection.receive(&mut stream, &headers, true, &mut fields);
    let is_section = matches!(found, Found::Frame(FrameType::Headers, 2, 4));
    let is_told = connection.interim(&mut stream).is_none();
    assert_same(
        &rt,
        (is_section, is_told),
        (true, true),
        "HEADERS with the end of the stream",
    );
    let end = read(&mut connection, &mut stream, &[], 1, true);
    assert_same(
        &rt,
        (end.code, end.ends_connection, end.ends),
        (0x10e, false, 0),
        "no final response (4.1.2)",
    );
}

#[test]
fn too_many_interim_responses_end_their_stream_alone(rt: HostRuntime) {
    let mut connection = connection_of(false, true);
    let mut stream = Stream::of_request(Endpoint::new(Side::Client));
    let fault = tell(&mut connection, &mut stream, 65, 3);
    let is_load = match fault {
        Some(fault) => {
            fault.code().number().into_inner() == 0x107
                && matches!(fault.scope(), ErrorScope::Stream)
        }
        None => false,
    };
    assert_same(&rt, is_load, true, "the 65th is an error of the stream");
    let rest = read(&mut connection, &mut stream, &[0x01, 0x01, 0xd9], 3, true);
    assert_same(
        &rt,
        (rest.frames, rest.ends),
        (0, 0),
        "nothing is read after it",
    );
    let mut other = Stream::of_request(Endpoint::new(Side::Client));
    let next = read(&mut connection, &mut other, &[0x01, 0x01, 0xd9], 3, true);
    assert_same(&rt, (next.frames, next.ends), (1, 1), "other streams go on");
}
