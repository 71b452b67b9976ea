//! Bytes that a source has buffered and shows before it is polled, and frames that are read from
//! them.
use crate::polled::frame_answers::{Answer, NO_SESSION, UNEXPECTED_FIN, UNKNOWN};
use crate::polled::readings::{Reading, check_polls};
use crate::same::assert_same;
use std::process::Abort;
use test_io::{End, OneByteSource};
use wtp_core::bytes::{AsyncRead, Polled, ReadStep};
use wtp_wire::frame::{FrameOwned, FrameReading};

/// A source that shows a limited number of buffered bytes, and returns the others when it is
/// polled.
#[derive(Drop)]
struct Window<'a> {
    rest: &'a [u8],
    most: usize,
}

impl AsyncRead for Window<'_> {
    ghost use Rattle.std.specs.Prelude.{Some};
    ghost use Rattle.wtp_core.specs.Source.{all_ahead};

    ghost model = { λ s. Some (all_ahead s.rest.now) };

    fn poll_read(&mut self, buf: &mut [u8]) -> ReadStep {
        self.rest.poll_read(buf)
    }

    fn buffered(&self) -> &[u8] {
        self.rest.split_at(self.rest.len().min(self.most)).0
    }

    fn take_buffered(&mut self, count: usize) -> bool {
        count <= self.most && self.rest.take_buffered(count)
    }
}

/// The number of bytes to take from a slice, whether they are taken, and the bytes then left.
type Take = (usize, bool, &'static [u8]);

/// Calls, one after another.
static TAKES: [Take; 4] = [
    (6, false, b"abcde"),
    (3, true, b"de"),
    (2, true, b""),
    (0, true, b""),
];

/// Asserts the result of taking bytes from a slice.
fn check_take<R: Abort>(rt: &R, source: &mut &[u8], row: &Take) {
    let (count, takes, left) = *row;
    let is_taken = source.take_buffered(count);
    let came = (is_taken, *source, source.buffered());
    assert_same(rt, came, (takes, left, left), count);
}

#[test]
fn a_slice_has_buffered_all_of_its_bytes(rt: HostRuntime) {
    let mut source = b"abcde".as_slice();
    assert_same(&rt, source.buffered(), b"abcde".as_slice(), "the whole");
    for row in &TAKES {
        check_take(&rt, &mut source, row);
    }
}

#[test]
fn a_source_need_not_have_buffered_any(rt: HostRuntime) {
    let mut source = OneByteSource::new(b"abc", End::Fin);
    assert_same(&rt, source.buffered(), [].as_slice(), "no byte is shown");
    assert_same(&rt, source.take_buffered(1), false, "no byte is taken");
    assert_same(&rt, source.rest(), b"abc".as_slice(), "the rest");
}

/// Asserts that a DATA frame with a payload of `len` bytes, followed by `after` bytes, is read
/// from a slice.
fn check_sizes<R: Abort + AllocGlobal>(rt: &R, bytes: &[u8], len: usize, after: usize) {
    let end = len.saturating_add(3);
    let all = end.saturating_add(after);
    let payload = NUMBERED.get(3..end).expect(rt, "the payload");
    let mut source = bytes.get(..all).expect(rt, "the frame, the rest");
    let wanted = Polled::Ready(Ok((0x00, None, payload)));
    let mut reading = FrameReading::new(rt.alloc());
    reading.check(rt, &mut source, &wanted, payload, after);
    assert_same(rt, (Some(source), len), (bytes.get(end..all), len), after);
}

#[test]
fn a_frame_has_56_bytes(rt: HostRuntime) {
    assert_same(&rt, size_of::<FrameOwned>(), 56, "size");
}

/// The payload lengths, and the numbers of bytes after the frame.
static SIZES: [u8; 15] = [0, 1, 2, 24, 25, 31, 32, 33, 34, 39, 40, 41, 48, 64, 128];

static AFTER: [usize; 13] = [0, 1, 2, 29, 30, 31, 32, 33, 38, 39, 40, 41, 100];

/// The header of a DATA frame, whose length is set in the third byte, and bytes after it.
static NUMBERED: [u8; 256] = [
    0x00, 0x40, 0x02, 0x03, 0x04, 0x05, 0x06, 0x07, 0x08, 0x09, 0x0a, 0x0b, 0x0c, 0x0d, 0x0e, 0x0f,
    0x10, 0x11, 0x12, 0x13, 0x14, 0x15, 0x16, 0x17, 0x18, 0x19, 0x1a, 0x1b, 0x1c, 0x1d, 0x1e, 0x1f,
    0x20, 0x21, 0x22, 0x23, 0x24, 0x25, 0x26, 0x27, 0x28, 0x29, 0x2a, 0x2b, 0x2c, 0x2d, 0x2e, 0x2f,
    0x30, 0x31, 0x32, 0x33, 0x34, 0x35, 0x36, 0x37, 0x38, 0x39, 0x3a, 0x3b, 0x3c, 0x3d, 0x3e, 0x3f,
    0x40, 0x41, 0x42, 0x43, 0x44, 0x45, 0x46, 0x47, 0x48, 0x49, 0x4a, 0x4b, 0x4c, 0x4d, 0x4e, 0x4f,
    0x50, 0x51, 0x52, 0x53, 0x54, 0x55, 0x56, 0x57, 0x58, 0x59, 0x5a, 0x5b, 0x5c, 0x5d, 0x5e, 0x5f,
    0x60, 0x61, 0x62, 0x63, 0x64, 0x65, 0x66, 0x67, 0x68, 0x69, 0x6a, 0x6b, 0x6c, 0x6d, 0x6e, 0x6f,
    0x70, 0x71, 0x72, 0x73, 0x74, 0x75, 0x76, 0x77, 0x78, 0x79, 0x7a, 0x7b, 0x7c, 0x7d, 0x7e, 0x7f,
    0x80, 0x81, 0x82, 0x83, 0x84, 0x85, 0x86, 0x87, 0x88, 0x89, 0x8a, 0x8b, 0x8c, 0x8d, 0x8e, 0x8f,
    0x90, 0x91, 0x92, 0x93, 0x94, 0x95, 0x96, 0x97, 0x98, 0x99, 0x9a, 0x9b, 0x9c, 0x9d, 0x9e, 0x9f,
    0xa0, 0xa1, 0xa2, 0xa3, 0xa4, 0xa5, 0xa6, 0xa7, 0xa8, 0xa9, 0xaa, 0xab, 0xac, 0xad, 0xae, 0xaf,
    0xb0, 0xb1, 0xb2, 0xb3, 0xb4, 0xb5, 0xb6, 0xb7, 0xb8, 0xb9, 0xba, 0xbb, 0xbc, 0xbd, 0xbe, 0xbf,
    0xc0, 0xc1, 0xc2, 0xc3, 0xc4, 0xc5, 0xc6, 0xc7, 0xc8, 0xc9, 0xca, 0xcb, 0xcc, 0xcd, 0xce, 0xcf,
    0xd0, 0xd1, 0xd2, 0xd3, 0xd4, 0xd5, 0xd6, 0xd7, 0xd8, 0xd9, 0xda, 0xdb, 0xdc, 0xdd, 0xde, 0xdf,
    0xe0, 0xe1, 0xe2, 0xe3, 0xe4, 0xe5, 0xe6, 0xe7, 0xe8, 0xe9, 0xea, 0xeb, 0xec, 0xed, 0xee, 0xef,
    0xf0, 0xf1, 0xf2, 0xf3, 0xf4, 0xf5, 0xf6, 0xf7, 0xf8, 0xf9, 0xfa, 0xfb, 0xfc, 0xfd, 0xfe, 0xff,
];

#[test]
fn payloads_of_all_sizes_are_read_from_a_slice(rt: HostRuntime) {
    let mut bytes = NUMBERED;
    for len in &SIZES {
        bytes[2] = *len;
        for after in &AFTER {
            check_sizes(&rt, &bytes, usize::from(*len), *after);
        }
    }
}

/// DATA, an unknown frame, session 4, an empty exercise frame, HEADERS of two bytes, and an
/// invalid session ID.
const FRAMES: &[u8; 22] = &[
    0x00, 0x03, 0x61, 0x62, 0x63, 0x02, 0x02, 0xff, 0xff, 0x40, 0x41, 0x04, 0x21, 0x00, 0x01, 0x02,
    0x00, 0x00, 0x40, 0x41, 0x03, 0x00,
];

/// The results of polling these bytes.
static ALL: [Answer<'static>; 7] = [
    Polled::Ready(Ok((0x00, None, b"abc"))),
    UNKNOWN,
    Polled::Ready(Ok((0x41, Some(4), b""))),
    Polled::Ready(Ok((0x21, None, b""))),
    Polled::Ready(Ok((0x01, None, &[0x00, 0x00]))),
    NO_SESSION,
    UNEXPECTED_FIN,
];

/// Asserts the frames that are read from a source that shows at most `most` buffered bytes.
fn check_window<R: Abort + AllocGlobal>(rt: &R, most: usize) {
    let mut source = Window { rest: FRAMES, most };
    let shown = FRAMES.get(..most).unwrap_or(&[]);
    check_polls::<_, FrameReading, _>(rt, &mut source, &ALL, shown);
    assert_same(rt, source.rest, [].as_slice(), most);
}

#[test]
fn frames_are_the_same_however_much_is_buffered(rt: HostRuntime) {
    for most in 0..=FRAMES.len() {
        check_window(&rt, most);
    }
}
