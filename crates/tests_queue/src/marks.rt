//! When a queue is full, and when there is room again.
use crate::bytes::{PLAIN, take};
use std::process::Abort;
use vesgrauf_queue::config::QueueConfig;
use vesgrauf_queue::queue::Queue;
use vesgrauf_queue::spares::Spares;

/// Queues bytes, and asserts whether there is room after them.
fn fill<R: Abort>(rt: &R, queue: &mut Queue, spares: &mut Spares, bytes: &[u8], room: bool) {
    assert!(rt;
        queue.push(spares, b"", bytes) == Ok(room),
        "whether there is room"
    );
}

#[test]
fn one_writable_follows_a_refusal(rt: HostRuntime) {
    let mut spares = Spares::new(rt.alloc());
    let mut queue = Queue::new(rt.alloc(), QueueConfig { mark: 10, ..PLAIN });
    fill(&rt, &mut queue, &mut spares, b"abcd", true);
    assert!(rt; queue.admits() && !queue.take_writable(), "nothing is owed");
    fill(&rt, &mut queue, &mut spares, b"efghij", false);
    assert!(rt;
        queue.is_full() && !queue.admits(),
        "it has as many bytes as the mark"
    );
    take(&rt, &mut queue, &mut spares, b"abcd", false);
    assert!(rt;
        queue.admits() && !queue.take_writable(),
        "less than half is free"
    );
    take(&rt, &mut queue, &mut spares, b"e", false);
    assert!(rt;
        queue.take_writable() && !queue.take_writable(),
        "half is free, told once"
    );
}

#[test]
fn one_call_fits_an_empty_queue(rt: HostRuntime) {
    let mut spares = Spares::new(rt.alloc());
    let mut queue = Queue::new(rt.alloc(), QueueConfig { mark: 0, ..PLAIN });
    assert!(rt; queue.admits(), "it is empty");
    fill(&rt, &mut queue, &mut spares, b"abcd", false);
    assert!(rt; !queue.admits(), "one call is queued");
    take(&rt, &mut queue, &mut spares, b"abcd", false);
    assert!(rt;
        queue.take_writable() && queue.admits(),
        "it is empty again"
    );
}

#[test]
fn what_is_not_acknowledged_counts(rt: HostRuntime) {
    let mut spares = Spares::new(rt.alloc());
    let mut queue = Queue::new(
        rt.alloc(),
        QueueConfig {
            mark: 4,
            bound_by_acked: true,
            ..PLAIN
        },
    );
    fill(&rt, &mut queue, &mut spares, b"abcd", false);
    take(&rt, &mut queue, &mut spares, b"abcd", false);
    assert!(rt; queue.counted() == 4 && !queue.admits(), "QUIC took all");
    assert!(rt; queue.acked(&mut spares, 2).is_ok(), "half has come");
    assert!(rt;
        queue.take_writable() && queue.admits(),
        "there is room again"
    );
}
