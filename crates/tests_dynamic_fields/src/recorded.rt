//! Sections of real stacks (`tools/recordings.d`), with the encoder stream of the same direction.
use crate::reading::{Field, assert_list, decode_past_refusal, decoder_of, name_of};
use std::alloc::Global;
use std::process::Abort;
use wtp_dynamic_decoder::decoder::QpackDecoder;
use wtp_dynamic_fields::section::{Decoded, TableSectionError};

/// A recorded section, and what the stack says of it.
struct Row {
    case: &'static str,
    /// The encoder stream of the direction, after its type.
    orders: &'static [u8],
    section: &'static [u8],
    /// The Required Insert Count: with a capacity of 4096 the first byte, less 1 (RFC 9204, section
    /// 4.5.1.1).
    required: u64,
    fields: &'static [Field],
    /// The Section Acknowledgment on stream 4: 1, and the number in seven bits (section 4.4.1). A
    /// section that does not refer to the table has none.
    told: &'static [u8],
}

/// The encoder stream of Chromium, to aioquic with a capacity of 4096.
const CHROMIUM: &[u8] =
    // recorded: chrdyn-0-c2s-10.bin, bytes 1 to 128
    b"\x3f\xe1\x1f\xc0\x8a\x08\x9d\x5c\x0b\x81\x70\xdc\x69\xa6\x59\xc1\x90\x60\x93\x8d\x3f\
    \xe5\x87\x3d\x30\x07\xe3\xcc\x0a\xde\x65\x58\x5f\x67\xb9\x5d\x87\x49\xc8\x7a\x3f\x89\
    \xf0\x58\xd3\x60\xea\x45\x67\xb1\x3f\x75\x41\x48\xb7\x82\xc6\x9b\x07\x52\x2b\x3d\x89\
    \x5a\x74\xa6\xb6\x56\x92\xc1\xca\x90\x0b\x01\x31\xff\x1b\x90\x9d\x29\xae\xe3\x0c\x04\
    \x4e\xae\x05\xc0\xb8\x6e\x34\xd3\x2d\x7f\x70\xf0\x95\x87\xdc\x66\xa0\x71\xd0\x55\xab\
    \xb0\xe9\x39\x0f\x42\x3f\x8f\xfe\x49\x38\xd2\xb0\xbf\x9f\xa5\x3f\x92\x4e\x34\xac\x1f\
    \xe7";

/// The encoder stream of aioquic, to nginx with a capacity of 4096.
const AIOQUIC: &[u8] =
    // recorded: nginx-c2s-6.bin, bytes 1 to 36
    b"\x3f\xe1\x1f\xc0\x8a\xa0\xe4\x1d\x13\x9d\x09\xb8\xd3\x4c\xb7\xff\x20\x87\xae\xc3\xc6\
    \x56\x02\xb8\x3f\xc1\x88\x60\xd5\x48\x5f\x2b\xce\x9a\x68";

static ROWS: [Row; 5] = [
    Row {
        case: "Chromium's request for a session",
        orders: CHROMIUM,
        required: 6,
        // recorded: chrdyn-0-c2s-0.bin, bytes 2 to 12
        section: b"\x07\x00\xd7\xcf\x85\x84\x83\x82\x81\x80",
        fields: &[
            (b":scheme", b"https"),
            (b":method", b"CONNECT"),
            (b":authority", b"127.0.0.1:4433"),
            (b":path", b"/chat?room=1&x=%C3%A9"),
            (b":protocol", b"webtransport"),
            (b"sec-webtransport-http3-draft02", b"1"),
            (b"origin", b"http://127.0.0.1:4434"),
            (b"wt-available-protocols", b"\"chat-2\", \"chat-1\""),
        ],
        told: b"\x84",
    },
    Row {
        case: "aioquic's second request, with an entry past the Base",
        orders: AIOQUIC,
        required: 2,
        // recorded: nginx-c2s-4.bin, bytes 2 to 16
        section: b"\x03\x81\xd1\xd7\x10\x51\x86\x62\x93\x48\xba\x7c\xa7\x11",
        fields: &[
            (b":method", b"GET"),
            (b":scheme", b"https"),
            (b":authority", b"localhost:4435"),
            (b":path", b"/mid.txt"),
            (b"user-agent", b"probe/1.0"),
        ],
        told: b"\x84",
    },
    Row {
        case: "aioquic's last request",
        orders: AIOQUIC,
        required: 3,
        // recorded: nginx-c2s-20.bin, bytes 2 to 9
        section: b"\x04\x80\xd1\xd7\x81\x10\x80",
        fields: &[
            (b":method", b"GET"),
            (b":scheme", b"https"),
            (b":authority", b"localhost:4435"),
            (b":path", b"/index.html"),
            (b"user-agent", b"probe/1.0"),
        ],
        told: b"\x84",
    },
    Row {
        case: "nghttp3's response, without the table",
        orders: b"",
        required: 0,
        // recorded: nghttp3static-s2c-8.bin, bytes 2 to 24
        section: b"\x00\x00\xd9\x5f\x4d\x84\xae\xc3\xc6\x5f\xf4\x5e\x82\x1c\x01\x5e\x03\x62\x3d\x32\
        \xff\x14",
        fields: &[
            (b":status", b"200"),
            (b"server", b"probe"),
            (b"content-type", b"text/html; charset=utf-8"),
            (b"set-cookie", b"a=1"),
            (b"set-cookie", b"b=2"),
            (b"alt-svc", b"clear"),
        ],
        told: b"",
    },
    Row {
        case: "nginx's response, without the table",
        orders: AIOQUIC,
        required: 0,
        // recorded: nginx-s2c-0.bin, bytes 3 to 148
        section: b"\x00\x00\xd9\x5f\x4d\x89\xaa\x63\x55\xe5\x80\xae\x27\x17\x67\x56\x97\xd0\x7a\xbe\
        \x94\x13\x2a\x69\x3f\x75\x04\x01\x38\xa0\x59\xb8\xd3\x57\x1a\x7d\x4c\x5a\x37\xff\x5f\
        \x26\x87\x49\x7c\xa5\x89\xd3\x4d\x1f\x54\x02\x31\x33\x5a\x97\xd0\x7a\xbe\x94\x13\x2a\
        \x69\x3f\x75\x04\x01\x38\xa0\x59\xb8\xd3\x57\x1a\x75\x4c\x5a\x37\xff\x2b\x2a\x47\x37\
        \x8a\xfe\x5c\x8c\x0d\x34\xcb\x52\xad\x27\xf3\x2d\x1d\x09\x59\x1d\xc9\x89\x9d\x98\x3f\
        \x9b\x8d\x34\xcb\x7f\xcf\x2d\xf2\xb5\x23\xab\xd7\x82\x3d\x45\x2d\xf2\xb5\x23\xab\xd7\
        \x03\x74\x77\x6f\x2f\x02\x19\x08\x5a\xd2\xb5\x83\xaa\x62\xa3\x84\x8f\xd2\x4a\x8f",
        fields: &[
            (b":status", b"200"),
            (b"server", b"nginx/1.26.3"),
            (b"date", b"Mon, 23 Nov 2026 13:44:49 GMT"),
            (b"content-type", b"text/html"),
            (b"content-length", b"13"),
            (b"last-modified", b"Mon, 23 Nov 2026 13:44:47 GMT"),
            (b"etag", b"\"6b04434f-d\""),
            (b"alt-svc", b"h3=\":4435\""),
            (b"x-many", b"one"),
            (b"x-many", b"two"),
            (b"accept-ranges", b"bytes"),
        ],
        told: b"",
    },
];

/// The size of fields (RFC 9114, section 4.2.2).
fn size_of(fields: &[Field]) -> u64 {
    let mut size: u64 = 0;
    for (name, value) in fields {
        size = size.saturating_add(name.len() as u64);
        size = size.saturating_add(value.len() as u64).saturating_add(32);
    }
    size
}

/// Asserts that a section that came before its entries waits.
fn assert_waits(rt: &impl Abort, alloc: Global, row: &Row) {
    let mut decoder = decoder_of(rt, alloc, 1, b"");
    match decode_past_refusal(alloc, &mut decoder, 4, row.section, u64::MAX) {
        Ok(Decoded::Blocked(required)) => {
            assert!(rt; required == row.required, "{}: {required}", row.case)
        }
        Ok(Decoded::Fields(_, _)) => panic!(rt; "{}: it does not wait", row.case),
        Err(error) => panic!(rt; "{}: {}", row.case, name_of(error)),
    }
}

/// Asserts that a section that was read is acknowledged.
fn assert_acknowledged(rt: &impl Abort, alloc: Global, decoder: &mut QpackDecoder, row: &Row) {
    let mut out = Vec::new(alloc);
    assert!(rt; row.required <= decoder.insert_count(), "{}", row.case);
    if decoder.acknowledge(4, row.required, &mut out).is_err() {
        let again = decoder.acknowledge(4, row.required, &mut out);
        assert!(rt; again.is_ok(), "{}: memory", row.case);
    }
    assert!(rt; out.as_slice() == row.told, "{}: what is told", row.case);
}

/// Asserts what a section is read as: its fields with a limit of their size, and none with less.
fn assert_row(rt: &impl Abort, alloc: Global, row: &Row) {
    if row.required > 0 {
        assert_waits(rt, alloc, row);
    }
    let mut decoder = decoder_of(rt, alloc, 0, row.orders);
    let size = size_of(row.fields);
    let less = size.saturating_sub(1);
    match decode_past_refusal(alloc, &mut decoder, 4, row.section, less) {
        Err(TableSectionError::TooLarge) => (),
        _ => panic!(rt; "{}: it is not too large", row.case),
    }
    match decode_past_refusal(alloc, &mut decoder, 4, row.section, size) {
        Ok(Decoded::Fields(list, required)) => {
            assert_list(rt, &list, row.fields, row.case);
            assert!(rt; required == row.required, "{}: its count", row.case);
        }
        Ok(Decoded::Blocked(count)) => panic!(rt; "{}: it waits for {count}", row.case),
        Err(error) => panic!(rt; "{}: {}", row.case, name_of(error)),
    }
    assert_acknowledged(rt, alloc, &mut decoder, row);
}

#[test]
fn recorded_sections_past_refused_memory(rt: HostRuntime) {
    for row in &ROWS {
        assert_row(&rt, rt.alloc(), row);
    }
}
