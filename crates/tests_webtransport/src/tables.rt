//! The dynamic table of a connection, by the example of RFC 9204, Appendix B: sections that wait for their
//! insertions, what the encoder is told, and errors.
use crate::playing::server;
use std::alloc::{AllocError, Global};
use std::process::Abort;
use wtp_connection::stream::Purpose;
use wtp_dynamic_decoder::decoder::QpackDecoder;
use wtp_webtransport::connection::Connection;
use wtp_webtransport::event::{Event, HeadersKind, Waits};
use wtp_webtransport::fields::Fields;
use wtp_webtransport::stream::Stream;

/// The type of an encoder stream, and the instructions of Appendix B.2: the capacity 220, `:authority`
/// `www.example.com` and `:path` `/sample/path`.
static INSERTIONS: [u8; 35] = [
    0x02, 0x3f, 0xbd, 0x01, 0xc0, 0x0f, 0x77, 0x77, 0x77, 0x2e, 0x65, 0x78, 0x61, 0x6d, 0x70, 0x6c,
    0x65, 0x2e, 0x63, 0x6f, 0x6d, 0xc1, 0x0c, 0x2f, 0x73, 0x61, 0x6d, 0x70, 0x6c, 0x65, 0x2f, 0x70,
    0x61, 0x74, 0x68,
];

/// HEADERS with the section of Appendix B.2, and `:method` `GET` and `:scheme` `https` before its lines.
static REQUEST: [u8; 8] = [0x01, 0x06, 0x03, 0x81, 0xd1, 0xd7, 0x10, 0x11];

/// Insert `custom-key` `custom-value` (Appendix B.3).
static CUSTOM: [u8; 24] = [
    0x4a, 0x63, 0x75, 0x73, 0x74, 0x6f, 0x6d, 0x2d, 0x6b, 0x65, 0x79, 0x0c, 0x63, 0x75, 0x73, 0x74,
    0x6f, 0x6d, 0x2d, 0x76, 0x61, 0x6c, 0x75, 0x65,
];

/// Returns the connection of a server that allows a table of 220 bytes, and memory for its sections.
fn with_table(alloc: Global) -> (Connection, Fields) {
    let mut connection = server(false);
    connection.allow_table(QpackDecoder::new(alloc, 220, 1));
    (connection, Fields::new(alloc, 1000))
}

/// Opens the encoder stream and reads these bytes of it, after its type. Returns the last event.
fn insert(connection: &mut Connection, fields: &mut Fields, bytes: &[u8]) -> (Stream, u64) {
    let mut encoder = connection.accept(2);
    let opened = connection.receive(&mut encoder, bytes, false, fields);
    let rest = bytes.get(opened.consumed..).unwrap_or(&[]);
    let count = match opened.event {
        Event::Opened(Purpose::Encoder) => inserted(connection, &mut encoder, fields, rest),
        _ => u64::MAX,
    };
    (encoder, count)
}

/// Reads these bytes of the encoder stream. Returns how many entries were inserted, if all are consumed.
fn inserted(
    connection: &mut Connection,
    encoder: &mut Stream,
    fields: &mut Fields,
    bytes: &[u8],
) -> u64 {
    let received = connection.receive(encoder, bytes, false, fields);
    match received.event {
        Event::Inserted(count) if received.consumed == bytes.len() => count,
        _ => u64::MAX,
    }
}

/// Opens a request on a stream.
fn open(connection: &mut Connection, fields: &mut Fields, id: u64, bytes: &[u8]) -> Stream {
    let mut stream = connection.accept(id);
    connection.receive(&mut stream, bytes, true, fields);
    stream
}

/// Returns whether the rest of the stream is the request of Appendix B.2.
fn is_request(
    connection: &mut Connection,
    fields: &mut Fields,
    stream: &mut Stream,
    bytes: &[u8],
) -> bool {
    let received = connection.receive(stream, bytes, true, fields);
    received.consumed == bytes.len() && has_request(&received.event)
}

/// Returns whether an event has the fields of the request of Appendix B.2.
fn has_request(event: &Event<'_>) -> bool {
    let Event::Headers(HeadersKind::Request, list) = event else {
        return false;
    };
    list.len() == 4
        && list.first(b":authority") == Some(b"www.example.com".as_slice())
        && list.first(b":path") == Some(b"/sample/path".as_slice())
}

/// Returns the code of an error that ends the connection, or 0.
fn code_of(event: &Event<'_>) -> u64 {
    match event {
        Event::ConnectionError(fault) => fault.code().number().into_inner(),
        _ => 0,
    }
}

#[test]
fn a_section_waits_for_its_insertions(rt: HostRuntime) {
    let (mut connection, mut fields) = with_table(rt.alloc());
    let mut stream = open(&mut connection, &mut fields, 4, REQUEST.as_slice());
    let early = connection.receive(&mut stream, REQUEST.as_slice(), true, &mut fields);
    let waits = matches!(early.event, Event::Waits(Waits::Table(2))) && early.consumed == 2;
    assert!(rt; waits, "the section needs two insertions");
    assert!(rt;
        stream.waits() == Some(Waits::Table(2)),
        "the stream waits for them"
    );
    let rest = REQUEST.get(2..).unwrap_or(&[]);
    let again = connection.receive(&mut stream, rest, true, &mut fields);
    let waits = matches!(again.event, Event::Waits(Waits::Table(2))) && again.consumed == 0;
    assert!(rt; waits, "it still waits");
    let (mut encoder, count) = insert(&mut connection, &mut fields, &INSERTIONS[..20]);
    assert!(rt; count == 0, "an instruction that is cut inserts nothing");
    let count = inserted(
        &mut connection,
        &mut encoder,
        &mut fields,
        &INSERTIONS[20..],
    );
    assert!(rt;
        count == 2 && connection.insert_count() == 2,
        "both entries are inserted"
    );
    let mut out = Vec::new(rt.alloc());
    let told = connection.acknowledge(4, &mut out).is_ok();
    assert!(rt;
        told && out.is_empty(),
        "a section that waited is not acknowledged"
    );
    let read = is_request(&mut connection, &mut fields, &mut stream, rest);
    assert!(rt; read, "the section is read once its entries are there");
    let told = connection.acknowledge(4, &mut out).is_ok()
        && connection.acknowledge(4, &mut out).is_ok();
    assert!(rt;
        told && out.as_slice() == [0x84].as_slice(),
        "it is acknowledged once (Appendix B.2)"
    );
    let end = connection.receive(&mut stream, &[], true, &mut fields);
    assert!(rt; matches!(end.event, Event::End), "the request ends");
}

/// Appends what the encoder is told in Appendix B.3 and B.4, after the acknowledgment of B.2.
fn tell(
    connection: &mut Connection,
    fields: &mut Fields,
    out: &mut Vec<u8>,
) -> Result<u64, AllocError> {
    let (mut encoder, _count) = insert(connection, fields, INSERTIONS.as_slice());
    let mut stream = open(connection, fields, 4, REQUEST.as_slice());
    is_request(connection, fields, &mut stream, REQUEST.as_slice());
    connection.acknowledge(4, out)?;
    connection.increment(out)?;
    inserted(connection, &mut encoder, fields, CUSTOM.as_slice());
    connection.increment(out)?;
    connection.increment(out)?;
    connection.cancel(8, out)?;
    Ok(inserted(connection, &mut encoder, fields, &[0x02]))
}

#[test]
fn the_encoder_is_told_what_was_read(rt: HostRuntime) {
    let (mut connection, mut fields) = with_table(rt.alloc());
    let mut out = Vec::new(rt.alloc());
    let count = tell(&mut connection, &mut fields, &mut out);
    assert!(rt;
        matches!(count, Ok(4)),
        "the duplicate of Appendix B.4 is the fourth entry"
    );
    assert!(rt;
        out.as_slice() == [0x84, 0x01, 0x48].as_slice(),
        "the acknowledgment, the increment and the cancellation of Appendix B"
    );
    let mut none = server(false);
    let mut silent = Vec::new(rt.alloc());
    let told = none.acknowledge(4, &mut silent).is_ok()
        && none.increment(&mut silent).is_ok()
        && none.cancel(8, &mut silent).is_ok();
    assert!(rt;
        told && silent.is_empty() && none.insert_count() == 0,
        "without a table there is nothing to tell"
    );
}

/// HEADERS that are errors of QPACK after three insertions.
static WRONG: [(&str, &[u8]); 6] = [
    (
        "a reference past the required insert count (RFC 9204, 2.2.1)",
        &[0x01, 0x05, 0x03, 0x81, 0xd1, 0xd7, 0x12],
    ),
    (
        "an encoded insert count above the range (4.5.1.1)",
        &[0x01, 0x03, 0x0e, 0x00, 0xd1],
    ),
    (
        "a base below zero (4.5.1.2)",
        &[0x01, 0x03, 0x03, 0x82, 0xd1],
    ),
    (
        "an encoded insert count that stands for none (4.5.1.1)",
        &[0x01, 0x03, 0x01, 0x00, 0xd1],
    ),
    (
        "a relative index past the required insert count (2.2.1)",
        &[0x01, 0x03, 0x02, 0x01, 0x80],
    ),
    (
        "a base below zero without entries (4.5.1.2)",
        &[0x01, 0x03, 0x00, 0x80, 0xd1],
    ),
];

/// Returns the code of the error with which the section of a request ends the connection, after the
/// insertions if there is a table.
fn section_code(alloc: Global, has_table: bool, section: &[u8]) -> u64 {
    let (mut connection, mut fields) = with_table(alloc);
    if has_table {
        let (mut encoder, _count) = insert(&mut connection, &mut fields, INSERTIONS.as_slice());
        inserted(
            &mut connection,
            &mut encoder,
            &mut fields,
            CUSTOM.as_slice(),
        );
    } else {
        connection = server(false);
    }
    let mut stream = open(&mut connection, &mut fields, 0, section);
    code_of(
        &connection
            .receive(&mut stream, section, true, &mut fields)
            .event,
    )
}

/// Returns the code of the error with which the encoder stream ends the connection.
fn instruction_code(alloc: Global, bytes: &[u8], fin: bool) -> (u64, bool) {
    let (mut connection, mut fields) = with_table(alloc);
    let mut encoder = connection.accept(2);
    connection.receive(&mut encoder, &[0x02], false, &mut fields);
    let code = code_of(
        &connection
            .receive(&mut encoder, bytes, fin, &mut fields)
            .event,
    );
    let after = connection.receive(&mut encoder, &[0x3f], false, &mut fields);
    (
        code,
        matches!(after.event, Event::More) && after.consumed == 1,
    )
}

#[test]
fn errors_of_the_table_end_the_connection(rt: HostRuntime) {
    let alloc = rt.alloc();
    assert!(rt;
        section_code(alloc, false, REQUEST.as_slice()) == 0x200,
        "a table is named where none is allowed"
    );
    for (case, section) in &WRONG {
        assert!(rt; section_code(alloc, true, section) == 0x200, "{case}");
    }
    assert!(rt;
        instruction_code(alloc, &[0x3f, 0xbe, 0x01], false) == (0x201, true),
        "the capacity 221 is above the limit"
    );
    assert!(rt;
        instruction_code(alloc, &[0x3f, 0xbd, 0x01, 0x00], false) == (0x201, true),
        "the duplicate of no entry"
    );
    assert!(rt;
        instruction_code(alloc, &[], true) == (0x104, true),
        "the encoder stream is not to be closed"
    );
    let (mut connection, _fields) = with_table(alloc);
    let code = code_of(&connection.too_many_blocked());
    let after = matches!(connection.too_many_blocked(), Event::More);
    assert!(rt; code == 0x200 && after, "too many streams wait");
}

/// `:method` `GET`, `:scheme` `https`, `:authority` `a` and `:path` `/`, without the table.
static PLAIN: [u8; 10] = [0x01, 0x08, 0x00, 0x00, 0xd1, 0xd7, 0x50, 0x01, 0x61, 0xc1];

/// Reads a request on a stream, after its first event. Returns how many fields it has, or 0 of another event.
fn request(connection: &mut Connection, fields: &mut Fields, id: u64, bytes: &[u8]) -> usize {
    let mut stream = open(connection, fields, id, bytes);
    match connection.receive(&mut stream, bytes, true, fields).event {
        Event::Headers(HeadersKind::Request, list) => list.len(),
        _ => 0,
    }
}

/// Returns what is written for the request of Appendix B.2 on stream 0, which is acknowledged after the
/// cancellations of these streams.
fn told_after(alloc: Global, cancelled: &[u64]) -> Result<Vec<u8>, AllocError> {
    let (mut connection, mut fields) = with_table(alloc);
    insert(&mut connection, &mut fields, INSERTIONS.as_slice());
    request(&mut connection, &mut fields, 0, REQUEST.as_slice());
    let mut out = Vec::new(alloc);
    for id in cancelled {
        connection.cancel(*id, &mut out)?;
    }
    connection.acknowledge(0, &mut out)?;
    connection.acknowledge(0, &mut out)?;
    Ok(out)
}

/// The streams that are cancelled between a section and its acknowledgment, and what is written.
static CANCELLED: [(&str, &[u64], &[u8]); 5] = [
    ("none", &[], &[0x80]),
    ("another stream (4.4.1)", &[4], &[0x44, 0x80]),
    ("another stream twice", &[4, 4], &[0x44, 0x44, 0x80]),
    ("its own stream (2.2.2.2)", &[0], &[0x40]),
    (
        "two streams, of which one may be its own",
        &[4, 0],
        &[0x44, 0x40],
    ),
];

#[test]
fn a_cancellation_keeps_the_acknowledgment_of_another_stream(rt: HostRuntime) {
    for (case, cancelled, wanted) in &CANCELLED {
        match told_after(rt.alloc(), cancelled) {
            Ok(told) => assert!(rt; told.as_slice() == *wanted, "{case}"),
            Err(_) => assert!(rt; false, "memory"),
        }
    }
}

#[test]
fn a_section_is_acknowledged_for_its_stream_alone(rt: HostRuntime) {
    let (mut connection, mut fields) = with_table(rt.alloc());
    let (mut encoder, _count) = insert(&mut connection, &mut fields, INSERTIONS.as_slice());
    let malformed = [0x01, 0x04, 0x03, 0x81, 0x10, 0x11];
    let mut out = Vec::new(rt.alloc());
    let none = request(&mut connection, &mut fields, 0, malformed.as_slice()) == 0;
    let told = connection.acknowledge(0, &mut out).is_ok()
        && connection.cancel(0, &mut out).is_ok();
    assert!(rt;
        none && told && out.as_slice() == [0x80, 0x40].as_slice(),
        "a malformed request without a method is acknowledged, and then cancelled"
    );
    out.clear();
    request(&mut connection, &mut fields, 4, malformed.as_slice());
    let plain = request(&mut connection, &mut fields, 8, PLAIN.as_slice()) == 4;
    let told = connection.acknowledge(8, &mut out).is_ok();
    assert!(rt;
        plain && told && out.is_empty(),
        "a request without the table"
    );
    request(&mut connection, &mut fields, 12, REQUEST.as_slice());
    let told = connection.cancel(12, &mut out).is_ok()
        && connection.acknowledge(12, &mut out).is_ok();
    assert!(rt;
        told && out.as_slice() == [0x4c].as_slice(),
        "nothing is acknowledged after a cancellation"
    );
    out.clear();
    inserted(
        &mut connection,
        &mut encoder,
        &mut fields,
        CUSTOM.as_slice(),
    );
    inserted(&mut connection, &mut encoder, &mut fields, &[0x02]);
    let third = [0x01, 0x07, 0x05, 0x00, 0xd1, 0xd7, 0x80, 0xc1, 0x81];
    let read = request(&mut connection, &mut fields, 200, third.as_slice()) == 5;
    let told = connection.acknowledge(200, &mut out).is_ok();
    assert!(rt;
        read && told && out.as_slice() == [0xff, 0x49].as_slice(),
        "the section of Appendix B.4, on a stream with an ID of two bytes"
    );
    let before = connection.insert_count();
    let last = [
        0x81, 0x0d, 0x63, 0x75, 0x73, 0x74, 0x6f, 0x6d, 0x2d, 0x76, 0x61, 0x6c, 0x75, 0x65, 0x32,
    ];
    let count = inserted(&mut connection, &mut encoder, &mut fields, last.as_slice());
    assert!(rt; before == 4 && count == 5, "the insertion of Appendix B.5");
    let evicted = [0x01, 0x06, 0x06, 0x00, 0xd1, 0xd7, 0x84, 0xc1];
    let mut stream = open(&mut connection, &mut fields, 204, evicted.as_slice());
    let code = code_of(
        &connection
            .receive(&mut stream, &evicted, true, &mut fields)
            .event,
    );
    assert!(rt; code == 0x200, "it evicted the first entry");
}

#[test]
fn a_table_past_refused_memory(rt: HostRuntime) {
    let (mut connection, mut fields) = with_table(rt.alloc());
    let mut encoder = connection.accept(2);
    connection.receive(&mut encoder, INSERTIONS.as_slice(), false, &mut fields);
    let read = connection.receive(&mut encoder, &INSERTIONS[1..], false, &mut fields);
    if !matches!(read.event, Event::Inserted(2)) {
        let ends = code_of(&read.event) == 0x0102 && read.consumed == 34;
        assert!(rt; ends, "an instruction without memory ends the connection");
        let after = connection.receive(&mut encoder, &[0x02], false, &mut fields);
        let rests = matches!(after.event, Event::More) && after.consumed == 1;
        assert!(rt; rests, "nothing is read after it");
        return;
    }
    let mut stream = open(&mut connection, &mut fields, 4, REQUEST.as_slice());
    let first = connection.receive(&mut stream, REQUEST.as_slice(), true, &mut fields);
    let read = match first.event {
        Event::NoMemory if first.consumed == 2 => {
            is_request(&mut connection, &mut fields, &mut stream, &REQUEST[2..])
        }
        event => has_request(&event) && first.consumed == 8,
    };
    assert!(rt; read, "the section is read, or read again");
    let mut out = Vec::new(rt.alloc());
    let told = match connection.acknowledge(4, &mut out) {
        Ok(()) => true,
        Err(_) => out.is_empty() && connection.acknowledge(4, &mut out).is_ok(),
    };
    assert!(rt;
        told && out.as_slice() == [0x84].as_slice(),
        "it is acknowledged, or acknowledged again"
    );
}
