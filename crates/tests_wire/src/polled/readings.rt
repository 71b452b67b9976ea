//! Checks for every polled reader, over bytes at once and over a source that returns one byte per
//! poll and then ends.
use crate::same::assert_same;
use std::alloc::Global;
use std::fmt::{Debug, Display};
use std::process::Abort;
use test_io::{End, OneByteSource, ScriptedSource};
use wtp_core::bytes::{AsyncRead, IoReadError, Polled, ReadStep};

/// A reader of numbers, buffers, frames or headers.
pub(crate) trait Reading {
    /// The value of a poll that is ready.
    type Ready: Drop;

    /// Returns the result of a poll whose source returned no more bytes, for this reason.
    fn stopped(stop: IoReadError) -> Polled<Self::Ready>;

    /// Asserts the result of one poll of a source with the bytes of a row.
    fn check<R: Abort, S: AsyncRead, N: Display + Drop>(
        &mut self,
        rt: &R,
        source: &mut S,
        wanted: &Polled<Self::Ready>,
        row: &[u8],
        case: N,
    );
}

/// A reader that can be created without a buffer.
pub(crate) trait NewReading: Reading + Drop {
    /// Creates a reader that has read nothing.
    fn new_reading(alloc: Global) -> Self;
}

/// Asserts a result for the bytes of a row.
pub(crate) fn assert_same_of<R: Abort, T: PartialEq + Debug, N: Display + Drop>(
    rt: &R,
    row: &[u8],
    came: &T,
    wanted: &T,
    case: N,
) {
    assert_same(rt, (row, came), (row, wanted), case);
}

/// Asserts the results of polling a new reader.
pub(crate) fn check_polls<R: Abort + AllocGlobal, K: NewReading, S: AsyncRead>(
    rt: &R,
    source: &mut S,
    each: &[Polled<K::Ready>],
    row: &[u8],
) {
    check_each(rt, &mut K::new_reading(rt.alloc()), source, each, row);
}

/// Asserts the results of the next polls.
pub(crate) fn check_each<R: Abort, K: Reading, S: AsyncRead>(
    rt: &R,
    reading: &mut K,
    source: &mut S,
    each: &[Polled<K::Ready>],
    row: &[u8],
) {
    for (at, wanted) in each.iter().enumerate() {
        reading.check(rt, source, wanted, row, at);
    }
}

/// Asserts the results of the next polls of a source that returns the bytes in these steps.
/// Returns the bytes that it has not returned.
pub(crate) fn check_answers<'a, R: Abort, K: Reading>(
    rt: &R,
    reading: &mut K,
    (bytes, steps): (&'a [u8], &'a [ReadStep]),
    each: &[Polled<K::Ready>],
) -> &'a [u8] {
    let mut source = ScriptedSource::new(bytes, steps);
    check_each(rt, reading, &mut source, each, bytes);
    source.rest()
}

/// Asserts that the next polls all return `Pending`, for a source with the bytes of a row.
pub(crate) fn check_pending<R: Abort, K: Reading>(
    rt: &R,
    reading: &mut K,
    source: &mut OneByteSource<'_>,
    row: &[u8],
    polls: usize,
) {
    for at in 0..polls {
        reading.check(rt, source, &Polled::Pending, row, at);
    }
}

/// Asserts that each of two polls returns the error for this reason.
fn check_stops<R: Abort, K: Reading, S: AsyncRead>(
    rt: &R,
    reading: &mut K,
    source: &mut S,
    row: &[u8],
    stop: IoReadError,
) {
    let wanted = K::stopped(stop);
    reading.check(rt, source, &wanted, row, "stops");
    reading.check(rt, source, &wanted, row, "stops again");
}

/// Asserts the results for the last bytes of a source, one by one up to its end: too few bytes,
/// then the error for the end, twice.
pub(crate) fn check_tail<R: Abort, K: Reading>(
    rt: &R,
    reading: &mut K,
    source: &mut OneByteSource<'_>,
    (row, end): (&[u8], End),
    held: usize,
) {
    check_pending(rt, reading, source, row, held.saturating_add(1));
    check_stops(rt, reading, source, row, end.fault(held));
}

/// Asserts the results for a proper prefix, byte by byte up to this end: the error for the end,
/// twice.
pub(crate) fn check_end<R: Abort, K: Reading>(rt: &R, reading: &mut K, front: &[u8], end: End) {
    let mut source = OneByteSource::new(front, end);
    check_tail(rt, reading, &mut source, (front, end), front.len());
}

/// All endings.
pub(crate) static ENDS: [End; 3] = End::ALL;

/// Asserts the results for a proper prefix, at once and byte by byte up to each end.
fn check_cut<R: Abort + AllocGlobal, K: NewReading>(rt: &R, front: &[u8]) {
    let mut whole = front;
    let fin = End::Fin.fault(front.len());
    check_stops(rt, &mut K::new_reading(rt.alloc()), &mut whole, front, fin);
    for end in &ENDS {
        check_end(rt, &mut K::new_reading(rt.alloc()), front, *end);
    }
}

/// Asserts the results for each proper prefix.
pub(crate) fn check_fronts<R: Abort + AllocGlobal, K: NewReading>(rt: &R, bytes: &[u8]) {
    for len in 0..bytes.len() {
        check_cut::<R, K>(rt, bytes.get(..len).unwrap_or(&[]));
    }
}

/// Asserts that the bytes are read at once, followed by the end.
pub(crate) fn check_whole<R: Abort, K: Reading>(
    rt: &R,
    reading: &mut K,
    bytes: &[u8],
    answer: &Polled<K::Ready>,
) {
    let mut whole = bytes;
    reading.check(rt, &mut whole, answer, bytes, "whole");
    assert_same(rt, (bytes, whole), (bytes, &[]), "whole");
    check_stops(rt, reading, &mut whole, bytes, IoReadError::ImmediateFin);
}

/// Asserts that the bytes are read one by one, followed by the end.
pub(crate) fn check_slow<R: Abort, K: Reading>(
    rt: &R,
    reading: &mut K,
    bytes: &[u8],
    answer: &Polled<K::Ready>,
) {
    let mut slow = OneByteSource::new(bytes, End::Fin);
    check_pending(rt, reading, &mut slow, bytes, bytes.len());
    reading.check(rt, &mut slow, answer, bytes, "byte by byte");
    assert_same(rt, (bytes, slow.rest()), (bytes, &[]), "byte by byte");
    check_tail(rt, reading, &mut slow, (bytes, End::Fin), 0);
}

/// Asserts that one new reader reads the bytes at once and byte by byte, each time followed by
/// the end.
pub(crate) fn check_read<R: Abort + AllocGlobal, K: NewReading>(
    rt: &R,
    bytes: &[u8],
    answer: &Polled<K::Ready>,
) {
    let mut reading = K::new_reading(rt.alloc());
    check_whole(rt, &mut reading, bytes, answer);
    check_slow(rt, &mut reading, bytes, answer);
}
