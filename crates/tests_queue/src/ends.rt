//! The end and the reset (RFC 9000, section 3.1).
use crate::bytes::{PLAIN, push, take};
use vesgrauf_queue::ending::Reset;
use vesgrauf_queue::error::NotQueued;
use vesgrauf_queue::queue::Queue;
use vesgrauf_queue::spares::Spares;

#[test]
fn the_end_comes_alone_after_all_bytes(rt: HostRuntime) {
    let mut spares = Spares::new(rt.alloc());
    let mut queue = Queue::new(rt.alloc(), PLAIN);
    push(&rt, &mut queue, &mut spares, b"", b"ab");
    take(&rt, &mut queue, &mut spares, b"ab", false);
    assert!(rt; queue.next().is_none(), "no end yet");
    assert!(rt; queue.finish() && !queue.finish(), "it is ended once");
    take(&rt, &mut queue, &mut spares, b"", true);
    assert!(rt; queue.next().is_none(), "no second end");
    assert!(rt;
        queue.push(&mut spares, b"", b"c") == Err(NotQueued::Over),
        "and no bytes after it"
    );
    assert!(rt;
        queue.reset(&mut spares, 0x10c, 0),
        "a reset may follow the end"
    );
    assert!(rt;
        queue.next_reset()
            == Some(Reset {
                code: 0x10c,
                size: 0
            }),
        "it is to be put"
    );
}

#[test]
fn a_reset_drops_what_waits(rt: HostRuntime) {
    let mut spares = Spares::new(rt.alloc());
    let mut queue = Queue::new(rt.alloc(), PLAIN);
    push(&rt, &mut queue, &mut spares, b"", b"abcdef");
    take(&rt, &mut queue, &mut spares, b"ab", false);
    assert!(rt; queue.finish(), "it is open");
    assert!(rt; queue.reset(&mut spares, 7, 0), "it was not reset");
    assert!(rt;
        queue.next().is_none() && queue.counted() == 0,
        "neither bytes nor an end are to be put"
    );
    assert!(rt;
        queue.next_reset() == Some(Reset { code: 7, size: 0 }),
        "but the reset"
    );
    assert!(rt;
        queue.reset_sent().is_ok() && queue.reset_sent().is_err(),
        "once"
    );
    assert!(rt;
        !queue.reset(&mut spares, 8, 0) && queue.next_reset().is_none(),
        "and no other"
    );
}

#[test]
fn a_head_is_put_before_the_reset(rt: HostRuntime) {
    let mut spares = Spares::new(rt.alloc());
    let mut queue = Queue::new(rt.alloc(), PLAIN);
    push(&rt, &mut queue, &mut spares, b"\x40\x54\x04", b"hello");
    take(&rt, &mut queue, &mut spares, b"\x40", false);
    assert!(rt; queue.reset(&mut spares, 9, 3), "it was not reset");
    assert!(rt; queue.next_reset().is_none(), "the head comes first");
    take(&rt, &mut queue, &mut spares, b"\x54\x04", false);
    assert!(rt; queue.next().is_none(), "and no more");
    assert!(rt;
        queue.next_reset() == Some(Reset { code: 9, size: 3 }),
        "then the reset"
    );
}
