//! Bytes that QUIC took are kept until they are acknowledged.
use crate::bytes::{filled, push, take};
use vesgrauf_queue::config::QueueConfig;
use vesgrauf_queue::queue::Queue;
use vesgrauf_queue::spares::Spares;

const KEPT: QueueConfig = QueueConfig {
    mark: 1_000_000,
    keep_until_acked: true,
    bound_by_acked: false,
};

#[test]
fn bytes_are_kept_past_refused_memory(rt: HostRuntime) {
    let mut spares = Spares::new(rt.alloc());
    let mut queue = Queue::new(rt.alloc(), KEPT);
    push(&rt, &mut queue, &mut spares, b"", b"abcdef");
    take(&rt, &mut queue, &mut spares, b"abcd", false);
    assert!(rt; queue.first_kept() == b"abcd".as_slice(), "what QUIC took");
    let large = filled(&rt, rt.alloc(), b'z', 10_000);
    push(&rt, &mut queue, &mut spares, b"", large.as_slice());
    push(&rt, &mut queue, &mut spares, b"", large.as_slice());
    take(&rt, &mut queue, &mut spares, b"ef", false);
    take(&rt, &mut queue, &mut spares, large.as_slice(), false);
    assert!(rt; queue.first_kept().starts_with(b"abcdefz"), "and more");
    assert!(rt;
        queue.acked(&mut spares, 20_000).is_err(),
        "more than QUIC took"
    );
    assert!(rt; queue.acked(&mut spares, 2).is_ok(), "two bytes have come");
    assert!(rt;
        queue.first_kept().starts_with(b"cdefz"),
        "the others are kept"
    );
    assert!(rt; queue.reset(&mut spares, 1, 0), "it was not reset");
    assert!(rt;
        queue.first_kept().starts_with(b"cdefz"),
        "after a reset too"
    );
    assert!(rt; queue.acked(&mut spares, 10_004).is_ok(), "all have come");
    assert!(rt; queue.first_kept().is_empty(), "nothing is kept");
}
