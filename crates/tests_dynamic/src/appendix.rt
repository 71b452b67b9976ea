//! The example of RFC 9204, Appendix B.
use crate::streams::{Field, assert_fields, assert_table, read_cut};
use std::test::Fail;
use wtp_dynamic::acknowledgment::{self, Acknowledgment};
use wtp_dynamic::answer::{Answer, decode};
use wtp_dynamic::stream::EncoderStream;

pub(crate) const AUTHORITY: Field = (b":authority", b"www.example.com");

pub(crate) const PATH: Field = (b":path", b"/sample/path");

pub(crate) const CUSTOM: Field = (b"custom-key", b"custom-value");

pub(crate) const CUSTOM2: Field = (b"custom-key", b"custom-value2");

/// The encoder stream, by the sections B.2 to B.5.
pub(crate) const STREAM_B2: &[u8] = b"\x3f\xbd\x01\xc0\x0fwww.example.com\xc1\x0c/sample/path";

pub(crate) const STREAM_B3: &[u8] = b"\x4acustom-key\x0ccustom-value";

pub(crate) const STREAM_B4: &[u8] = b"\x02";

pub(crate) const STREAM_B5: &[u8] = b"\x81\x0dcustom-value2";

/// The sections on request streams.
const SECTION_B1: &[u8] = b"\x00\x00\x51\x0b/index.html";

pub(crate) const SECTION_B2: &[u8] = b"\x03\x81\x10\x11";

pub(crate) const SECTION_B4: &[u8] = b"\x05\x00\x80\xc1\x81";

#[test]
fn example_of_the_standard(rt: HostRuntime) -> Result<(), Fail> {
    let alloc = rt.alloc();
    let mut stream = EncoderStream::new(alloc, 220);
    let index: Field = (b":path", b"/index.html");
    assert_fields(&rt, alloc, stream.table(), SECTION_B1, &[index], "B.1");

    let early = decode(alloc, stream.table(), SECTION_B2);
    assert!(rt; matches!(&early, Ok(Answer::Blocked(2))));
    stream.read(alloc, STREAM_B2)?;
    assert_eq!(rt; stream.table().capacity(), 220);
    assert_eq!(rt; stream.table().size(), 106);
    assert_table(&rt, stream.table(), &[AUTHORITY, PATH], "B.2");
    assert_fields(
        &rt,
        alloc,
        stream.table(),
        SECTION_B2,
        &[AUTHORITY, PATH],
        "B.2",
    );

    stream.read(alloc, STREAM_B3)?;
    assert_eq!(rt; stream.table().size(), 160);
    assert_table(&rt, stream.table(), &[AUTHORITY, PATH, CUSTOM], "B.3");

    stream.read(alloc, STREAM_B4)?;
    assert_eq!(rt; stream.table().size(), 217);
    assert_table(
        &rt,
        stream.table(),
        &[AUTHORITY, PATH, CUSTOM, AUTHORITY],
        "B.4",
    );
    let root: Field = (b":path", b"/");
    let wanted = [AUTHORITY, root, CUSTOM];
    assert_fields(&rt, alloc, stream.table(), SECTION_B4, &wanted, "B.4");

    stream.read(alloc, STREAM_B5)?;
    assert_eq!(rt; stream.table().size(), 215);
    assert_table(
        &rt,
        stream.table(),
        &[PATH, CUSTOM, AUTHORITY, CUSTOM2],
        "B.5",
    );
    assert_fields(&rt, alloc, stream.table(), SECTION_B4, &wanted, "B.5");
    Ok(())
}

/// The decoder's instructions of B.2 to B.4.
#[test]
fn instructions_of_the_decoder(rt: HostRuntime) -> Result<(), Fail> {
    let mut out = Vec::new(rt.alloc());
    acknowledgment::write(rt.alloc(), &mut out, Acknowledgment::Section(4))?;
    acknowledgment::write(rt.alloc(), &mut out, Acknowledgment::Increment(1))?;
    acknowledgment::write(rt.alloc(), &mut out, Acknowledgment::Cancellation(8))?;
    assert_eq!(rt; out.as_slice(), b"\x84\x01\x48".as_slice());
    let first = acknowledgment::read(b"\x84\x01\x48");
    assert!(rt; matches!(first, Ok((Acknowledgment::Section(4), b"\x01\x48"))));
    let second = acknowledgment::read(b"\x01\x48");
    assert!(rt; matches!(second, Ok((Acknowledgment::Increment(1), b"\x48"))));
    let third = acknowledgment::read(b"\x48");
    assert!(rt; matches!(third, Ok((Acknowledgment::Cancellation(8), b""))));
    Ok(())
}

/// The whole stream, cut at each place.
#[test]
fn stream_cut_anywhere(rt: HostRuntime) -> Result<(), Fail> {
    let alloc = rt.alloc();
    let mut whole = Vec::new(alloc);
    for part in [STREAM_B2, STREAM_B3, STREAM_B4, STREAM_B5] {
        whole.extend_from_slice(part)?;
    }
    for cut in 0..whole.len() + 1 {
        let (stream, fault) = read_cut(alloc, 220, whole.as_slice(), cut);
        assert_eq!(rt; fault, "");
        assert_eq!(rt; stream.held(), 0);
        assert_eq!(rt; stream.table().insert_count(), 5);
        assert_table(
            &rt,
            stream.table(),
            &[PATH, CUSTOM, AUTHORITY, CUSTOM2],
            "cut",
        );
    }
    Ok(())
}
