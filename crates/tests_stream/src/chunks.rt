//! A stream in chunks of each size (RFC 9114, sections 4.1 and 7.2; RFC 9204, appendix A).
use crate::hearing::Hearing;
use std::alloc::AllocError;
use std::process::Abort;

/// GET https://a/ in a HEADERS frame, content in two DATA frames, and a frame of a reserved type between
/// them.
static UPLOAD: &[u8] = b"\x01\x08\x00\x00\xd1\xd7\x50\x01a\xc1\x00\x03one\x21\x02xx\x00\x03two";

/// The HEADERS frame alone, and the first byte of a DATA frame of 8,000 bytes, whose length has two.
static CUT_HEAD: &[u8] = b"\x01\x08\x00\x00\xd1\xd7\x50\x01a\xc1\x00\x5f";

/// Passes a stream in chunks of this size, with its end.
fn pass_all(hearing: &mut Hearing, bytes: &[u8], size: usize) -> Result<(), AllocError> {
    let mut rest = bytes;
    for _turn in 0..64u32 {
        let chunk = rest.get(..size).unwrap_or(rest);
        rest = rest.get(size..).unwrap_or(&[]);
        hearing.pass(chunk, rest.is_empty())?;
        if rest.is_empty() {
            return Ok(());
        }
    }
    Ok(())
}

#[test]
fn a_request_comes_in_chunks_of_each_size(rt: HostRuntime) -> Result<(), AllocError> {
    for size in 1..=UPLOAD.len() {
        let mut hearing = Hearing::new(rt.alloc());
        pass_all(&mut hearing, UPLOAD, size)?;
        assert!(rt;
            hearing.notes.as_slice() == b"RonetwoE".as_slice(),
            "in chunks of {size}"
        );
        assert!(rt; hearing.kept() == 0, "nothing is kept");
    }
    Ok(())
}

#[test]
fn content_of_one_input_is_not_copied(rt: HostRuntime) -> Result<(), AllocError> {
    let mut hearing = Hearing::new(rt.alloc());
    hearing.pass(UPLOAD, true)?;
    assert!(rt;
        hearing.notes.as_slice() == b"RonetwoE".as_slice(),
        "all is heard"
    );
    assert!(rt; hearing.copied == 0, "and nothing copied");
    Ok(())
}

#[test]
fn few_bytes_are_copied_with_a_cut_head(rt: HostRuntime) -> Result<(), AllocError> {
    let alloc = rt.alloc();
    let mut hearing = Hearing::new(alloc);
    hearing.pass(CUT_HEAD, false)?;
    assert!(rt; hearing.kept() == 2, "the head of the frame is cut");
    // its length, 8,000, is 0x5f40
    let mut rest = Vec::new(alloc);
    rest.push(0x40)?;
    rest.resize(8_001, b'x')?;
    hearing.pass(rest.as_slice(), true)?;
    assert!(rt; hearing.notes.len() == 8_002, "R, the content, E");
    assert!(rt; hearing.kept() == 0, "nothing is kept");
    assert!(rt; hearing.copied < 1_024, "copied with the head");
    Ok(())
}
