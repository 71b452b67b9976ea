//! Capsules found in bytes that the caller holds, split in every way.
use crate::capsule_readings::{Ending, RECORDED, ROWS};
use crate::same::assert_same;
use std::process::Abort;
use wtp_core::varint::VarInt;
use wtp_wire::capsule::{AnyCapsule, CapsuleCursor, CapsuleStep, UnknownCapsule};

/// Data of which some bytes have arrived, and some of those are consumed.
#[derive(Drop)]
struct Coming<'a> {
    data: &'a [u8],
    consumed: usize,
    cursor: CapsuleCursor,
}

impl<'a> Coming<'a> {
    /// Returns the bytes that the caller holds once the first `come` bytes have arrived.
    fn held(&self, come: usize) -> &'a [u8] {
        self.data.get(self.consumed..come).unwrap_or(&[])
    }

    /// Returns the value of the next capsule, or the error that its value is too long, or `None`
    /// for neither.
    fn next(&mut self, come: usize) -> Option<Result<&'a [u8], Ending>> {
        let held = self.held(come);
        match self.cursor.next(held) {
            CapsuleStep::Capsule(place) => {
                self.consumed = self.consumed.saturating_add(place.end);
                Some(Ok(place.value(held)))
            }
            CapsuleStep::More(n) => {
                self.consumed = self.consumed.saturating_add(n);
                None
            }
            CapsuleStep::TooLong => Some(Err(Ending::TooLong)),
        }
    }

    /// Returns how the data ends.
    fn finish(&self) -> Ending {
        match self.cursor.finish(self.held(self.data.len())) {
            Ok(()) => Ending::Clean,
            Err(_) => Ending::Cut,
        }
    }

    /// Returns the next value or, if there is none, how the data ends. The data arrives in two
    /// pieces.
    fn step(&mut self, cut: usize) -> Result<&'a [u8], Ending> {
        match self.next(cut) {
            Some(found) => found,
            None => match self.next(self.data.len()) {
                Some(found) => found,
                None => Err(self.finish()),
            },
        }
    }
}

/// Asserts the values of the capsules in data that is split at this offset, and how it ends.
fn check_cut<R: Abort>(
    rt: &R,
    data: &[u8],
    cut: usize,
    values: &[&'static [u8]],
    ending: Ending,
    case: &str,
) {
    let mut coming = Coming {
        data,
        consumed: 0,
        cursor: CapsuleCursor::new(),
    };
    for value in values {
        assert_same(rt, (coming.step(cut), cut), (Ok(*value), cut), case);
    }
    assert_same(rt, (coming.step(cut), cut), (Err(ending), cut), case);
}

/// Asserts these capsules and this end for data that is split at each offset.
fn check_cuts<R: Abort>(rt: &R, data: &[u8], values: &[&'static [u8]], ending: Ending, case: &str) {
    for cut in 0..=data.len() {
        check_cut(rt, data, cut, values, ending, case);
    }
}

#[test]
fn held_data_may_be_cut_anywhere(rt: HostRuntime) {
    for row in &ROWS {
        check_cuts(&rt, row.data, row.values, row.ending, row.case);
    }
}

/// Asserts the close in the payloads, split at each offset.
fn check_close<R: Abort + AllocGlobal>(rt: &R, pieces: &[&[u8]], value: &'static [u8], case: &str) {
    let mut data = Vec::new(rt.alloc());
    for piece in pieces {
        data.extend_from_slice(piece).expect(rt, "memory");
    }
    check_cuts(rt, data.as_slice(), &[value], Ending::Clean, case);
}

#[test]
fn recorded_closes_may_be_cut_anywhere(rt: HostRuntime) {
    for (pieces, value, case) in &RECORDED {
        check_close(&rt, pieces, value, case);
    }
}

#[test]
fn unknown_capsules_are_found_by_number(rt: HostRuntime) {
    // A reserved type (RFC 9297, section 5.4), a length of 3 and one byte of the value; then the
    // rest of it, and a type in two bytes of a capsule that closes its session.
    let mut cursor = CapsuleCursor::new();
    let found = AnyCapsule::Unknown(UnknownCapsule {
        number: VarInt::from_u32(0x17),
        announced: VarInt::from_u32(3),
        start: 2,
    });
    assert_same(
        &rt,
        cursor.next_any(&[0x17, 3, 7]),
        found,
        "a reserved type",
    );
    assert_same(&rt, cursor.missing(&[]), 3, "its value");
    assert_same(
        &rt,
        cursor.next_any(&[7, 8]),
        AnyCapsule::More(2),
        "two bytes",
    );
    assert_same(&rt, cursor.missing(&[]), 1, "one is left");
    let left = [0x68, 0x43];
    assert_same(
        &rt,
        cursor.next_any(&[9, 0x68, 0x43]),
        AnyCapsule::More(1),
        "the last, and a type",
    );
    assert_same(
        &rt,
        cursor.missing(&left),
        1,
        "a length of at least one byte",
    );
}
