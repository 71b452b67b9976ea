//! The order of turns, by rows: each is worked out from RFC 9218, section 10.

use crate::rank::{Kind, Priority};
use crate::ready::Ready;
use std::process::Abort;

/// A stream: its ID, its urgency or `None` if it is critical, whether it is incremental, and how many
/// turns it needs.
type Stream = (u64, Option<u8>, bool, usize);

/// Streams, of how many turns one goes round all, and the turns.
type Row = (&'static [Stream], u64, &'static [u64]);

static ROWS: [Row; 9] = [
    // The more urgent first; of one urgency the incremental ones by turns.
    (
        &[
            (0, Some(5), false, 2),
            (4, Some(1), false, 3),
            (8, Some(3), true, 2),
            (12, Some(3), true, 2),
        ],
        100,
        &[4, 4, 4, 8, 12, 8, 12, 0, 0],
    ),
    // Of one urgency by the IDs, one after the other.
    (
        &[
            (8, Some(3), false, 2),
            (0, Some(3), false, 2),
            (4, Some(3), false, 1),
        ],
        100,
        &[0, 0, 4, 8, 8],
    ),
    // Critical streams before the most urgent message.
    (
        &[
            (0, Some(0), false, 2),
            (3, None, false, 1),
            (7, None, false, 2),
        ],
        100,
        &[3, 7, 7, 0, 0],
    ),
    // All urgencies, from 0 to 7.
    (
        &[
            (0, Some(7), false, 1),
            (4, Some(6), true, 1),
            (8, Some(5), false, 1),
            (12, Some(4), true, 1),
            (16, Some(3), false, 1),
            (20, Some(2), true, 1),
            (24, Some(1), false, 1),
            (28, Some(0), true, 1),
        ],
        100,
        &[28, 24, 20, 16, 12, 8, 4, 0],
    ),
    // Short messages on incremental streams go out in the order of their IDs, in whichever order they
    // became ready.
    (
        &[
            (22, Some(3), true, 1),
            (14, Some(3), true, 1),
            (26, Some(3), true, 1),
            (18, Some(3), true, 1),
        ],
        100,
        &[14, 18, 22, 26],
    ),
    // Three incremental streams share, and the one that needs most is the last.
    (
        &[
            (0, Some(3), true, 3),
            (4, Some(3), true, 1),
            (8, Some(3), true, 2),
        ],
        100,
        &[0, 4, 8, 0, 8, 0],
    ),
    // Two incremental streams of other urgencies do not share.
    (
        &[(0, Some(2), true, 2), (4, Some(1), true, 2)],
        100,
        &[4, 4, 0, 0],
    ),
    // Each third turn goes round all, so the least urgent is not kept waiting for ever.
    (
        &[(0, Some(0), false, 9), (4, Some(7), false, 2)],
        3,
        &[0, 0, 4, 0, 0, 0, 0, 0, 4, 0, 0],
    ),
    // And a stream behind another of its own urgency is not either.
    (
        &[(0, Some(3), false, 6), (4, Some(3), false, 2)],
        2,
        &[0, 4, 0, 0, 0, 4, 0, 0],
    ),
];

/// Returns what a stream is for.
fn kind_of(stream: &Stream) -> Kind {
    match stream.1 {
        None => Kind::Critical,
        Some(urgency) => Kind::Message(Priority {
            urgency,
            incremental: stream.2,
        }),
    }
}

#[test]
fn turns_are_in_order(rt: HostRuntime) {
    for row in &ROWS {
        let mut ready = Ready::new(rt.alloc(), row.1);
        for stream in row.0 {
            ready
                .insert(stream.0, kind_of(stream))
                .expect(&rt, "memory");
        }
        for (i, wanted) in row.2.iter().enumerate() {
            let id = ready.next().expect(&rt, "a stream");
            assert_eq!(rt; id, *wanted);
            let before = row.2.iter().take(i).filter(|turn| **turn == id).count();
            for stream in row.0 {
                if stream.0 == id {
                    ready.turn_taken(id, kind_of(stream));
                    if before.saturating_add(1) == stream.3 {
                        ready.remove(id, kind_of(stream));
                    }
                }
            }
        }
        assert!(rt; ready.next().is_none(), "nothing is left");
    }
}

#[test]
fn another_priority_is_another_place(rt: HostRuntime) {
    let urgent = Kind::Message(Priority {
        urgency: 0,
        incremental: false,
    });
    let normal = Kind::Message(Priority::DEFAULT);
    let mut ready = Ready::new(rt.alloc(), 100);
    ready.insert(0, normal).expect(&rt, "memory");
    ready.insert(4, normal).expect(&rt, "memory");
    assert_eq!(rt; ready.next(), Some(0));
    ready.change(4, normal, urgent).expect(&rt, "memory");
    assert_eq!(rt; ready.next(), Some(4));
    // A stream that is not ready does not become so.
    ready.change(8, normal, urgent).expect(&rt, "memory");
    ready.remove(4, urgent);
    assert_eq!(rt; ready.next(), Some(0));
    ready.remove(0, normal);
    assert_eq!(rt; ready.next(), None);
}

/// An incremental stream of the usual urgency.
static SHARED: Kind = Kind::Message(Priority {
    urgency: 3,
    incremental: true,
});

/// Takes turns, which are to be of these streams.
fn take_turns(rt: &impl Abort, ready: &mut Ready, wanted: &[u64]) {
    for id in wanted {
        assert_eq!(rt; ready.next(), Some(*id));
        ready.turn_taken(*id, SHARED);
    }
}

#[test]
fn later_streams_wait_for_the_next_round(rt: HostRuntime) {
    let mut ready = Ready::new(rt.alloc(), 100);
    ready.insert(4, SHARED).expect(&rt, "memory");
    ready.insert(8, SHARED).expect(&rt, "memory");
    take_turns(&rt, &mut ready, &[4]);
    // The round ends with 8, whatever comes behind it.
    ready.insert(12, SHARED).expect(&rt, "memory");
    take_turns(&rt, &mut ready, &[8, 4]);
    ready.insert(16, SHARED).expect(&rt, "memory");
    take_turns(&rt, &mut ready, &[8, 12, 4, 8, 12, 16, 4]);
    // Now 8 is the first, and is not served twice in a row though 20 came later.
    ready.remove(12, SHARED);
    ready.remove(16, SHARED);
    ready.insert(20, SHARED).expect(&rt, "memory");
    ready.remove(4, SHARED);
    take_turns(&rt, &mut ready, &[8, 20, 8]);
}

#[test]
fn the_first_of_a_class_begins_anew(rt: HostRuntime) {
    let mut ready = Ready::new(rt.alloc(), 3);
    ready.insert(4, SHARED).expect(&rt, "memory");
    ready.insert(12, SHARED).expect(&rt, "memory");
    take_turns(&rt, &mut ready, &[4]);
    ready.turn_taken(4, SHARED);
    ready.remove(4, SHARED);
    ready.remove(12, SHARED);
    assert_eq!(rt; ready.next(), None);
    // Neither what is left of the round nor a turn of the round of all comes first.
    ready.insert(8, SHARED).expect(&rt, "memory");
    ready.insert(0, SHARED).expect(&rt, "memory");
    take_turns(&rt, &mut ready, &[0, 8]);
}
