//! The bounds: long sections, long payloads, and frames without content.
use crate::reading::summary_of;
use crate::same::assert_same;
use std::process::Abort;
use wtp_core::varint::VarInt;
use wtp_frames::endpoint::{Endpoint, Side};
use wtp_frames::fault::Fault;
use wtp_frames::reader::{Reader, Step};

/// Returns the reader of a request at a server that takes sections of at most four bytes.
fn small_reader() -> Reader {
    let mut endpoint = Endpoint::new(Side::Server);
    endpoint.max_section = 4;
    Reader::message(endpoint)
}

#[test]
fn large_sections_are_skipped(rt: HostRuntime) {
    let bytes: &[u8] = &[
        0x01, 0x05, 1, 2, 3, 4, 5, 0x00, 0x02, 7, 8, 0x01, 0x04, 1, 2, 3, 4,
    ];
    for size in 1..18usize {
        let found = summary_of(small_reader(), bytes, size);
        let came = (
            found.too_large,
            found.frames,
            found.whole,
            found.data,
            found.faults,
        );
        assert_same(
            &rt,
            came,
            (1, 1, 4, 2, 0),
            "a section of five bytes, and trailers of four",
        );
    }
    let mut reader = small_reader();
    let step = reader.next(&[0x01, 0xbf, 0xff, 0xff, 0xff]);
    let came = match step {
        Step::TooLarge(size, consumed) => (size, consumed),
        _ => (0, 0),
    };
    assert_same(
        &rt,
        came,
        (0x3fff_ffff, 5),
        "its size is reported at its head",
    );
}

/// Asserts what a run of frames without content leads to: `times` frames, each of these bytes.
fn check_idle<R: Abort>(rt: &R, frame: &[u8], times: u32, wanted: bool) {
    let mut reader = Reader::message(Endpoint::new(Side::Server));
    reader.next(&[0x01, 0x01, 0xd1]);
    let mut is_fault = false;
    for _turn in 0..times {
        match reader.next(frame) {
            Step::Fault(fault) => is_fault = fault.code().number().into_inner() == 0x107,
            _ => {}
        }
    }
    assert_same(rt, is_fault, wanted, times);
}

#[test]
fn frames_without_content_are_counted(rt: HostRuntime) {
    check_idle(&rt, &[0x21, 0x00], 1024, false);
    check_idle(&rt, &[0x21, 0x00], 1025, true);
    check_idle(&rt, &[0x00, 0x00], 1024, false);
    check_idle(&rt, &[0x00, 0x00], 1025, true);
    check_idle(&rt, &[0x21, 0x00, 0x00, 0x01, 0xaa], 1500, false);
}

#[test]
fn a_fault_comes_once(rt: HostRuntime) {
    let mut reader = Reader::message(Endpoint::new(Side::Server));
    let first = matches!(
        reader.next(&[0x04, 0x00, 0x01]),
        Step::Fault(Fault::FrameUnexpected)
    );
    let second = match reader.next(&[0x01, 0x01, 0xd1]) {
        Step::More(n) => n,
        _ => 0,
    };
    let third = reader.finish(0).is_ok();
    assert_same(
        &rt,
        (first, second, third),
        (true, 3, true),
        "later bytes are consumed",
    );
}

#[test]
fn payloads_of_any_length_are_read(rt: HostRuntime) {
    let mut reader = Reader::message(Endpoint::new(Side::Server));
    reader.next(&[0x01, 0x01, 0xd1, 0x00]);
    let head: &[u8] = &[0x00, 0xff, 0xff, 0xff, 0xff, 0xff, 0xff, 0xff, 0xff, 1, 2];
    let came = match reader.next(head) {
        Step::Data(from, to) => (from, to),
        _ => (0, 0),
    };
    assert_same(&rt, came, (9, 11), "DATA of 2^62 - 1 bytes");
    let open = reader.finish(0).is_err();
    assert_same(&rt, open, true, "an end within it");
    assert_same(
        &rt,
        VarInt::MAX.into_inner(),
        0x3fff_ffff_ffff_ffff,
        "its length",
    );
}
