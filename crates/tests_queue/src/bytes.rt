//! What is queued comes in order, and where it lies.
use std::alloc::Global;
use std::process::Abort;
use vesgrauf_queue::config::QueueConfig;
use vesgrauf_queue::error::NotQueued;
use vesgrauf_queue::queue::Queue;
use vesgrauf_queue::spares::Spares;

/// QUIC takes what it is shown, and the mark is above all that the tests queue.
pub(crate) const PLAIN: QueueConfig = QueueConfig {
    mark: 1_000_000,
    keep_until_acked: false,
    bound_by_acked: false,
};

/// Queues a head and bytes, also if memory is refused once.
pub(crate) fn push<R: Abort>(
    rt: &R,
    queue: &mut Queue,
    spares: &mut Spares,
    head: &[u8],
    bytes: &[u8],
) {
    let before = queue.counted();
    for _turn in 0..2u32 {
        match queue.push(spares, head, bytes) {
            Ok(_) => return,
            Err(why) => {
                assert!(rt; why == NotQueued::Memory, "memory alone is refused");
                assert!(rt; queue.counted() == before, "nothing changes");
            }
        }
    }
    panic!(rt; "two allocations are refused");
}

/// Gives bytes to the queue, also if memory is refused once.
fn give<R: Abort>(rt: &R, queue: &mut Queue, spares: &mut Spares, head: &[u8], bytes: Vec<u8>) {
    let before = queue.counted();
    if let Err(refused) = queue.push_owned(spares, head, bytes) {
        assert!(rt; refused.why == NotQueued::Memory, "memory alone is refused");
        assert!(rt; queue.counted() == before, "nothing changes");
        assert!(rt;
            queue.push_owned(spares, head, refused.bytes).is_ok(),
            "it is queued by a later call"
        );
    }
}

/// QUIC takes at most `most` bytes of the first slice, and asserts which.
pub(crate) fn take<R: Abort>(
    rt: &R,
    queue: &mut Queue,
    spares: &mut Spares,
    bytes: &[u8],
    fin: bool,
) {
    match queue.next() {
        Some(next) => {
            assert!(rt; next.bytes.starts_with(bytes), "the bytes that are next");
            let ends = next.in_one_slice().fin && bytes.len() == next.bytes.len();
            assert!(rt; ends == fin, "whether the end comes with them");
        }
        None => panic!(rt; "something is to be put"),
    }
    assert!(rt; queue.sent(spares, bytes.len()).is_ok(), "it was shown");
}

/// Returns so many bytes of a value, also if memory is refused once.
pub(crate) fn filled<R: Abort>(rt: &R, alloc: Global, value: u8, len: usize) -> Vec<u8> {
    for _turn in 0..2u32 {
        if let Ok(bytes) = vec![in alloc; value; len] {
            return bytes;
        }
    }
    panic!(rt; "two allocations are refused");
}

#[test]
fn bytes_come_in_order_past_refused_memory(rt: HostRuntime) {
    let mut spares = Spares::new(rt.alloc());
    let mut queue = Queue::new(rt.alloc(), PLAIN);
    push(&rt, &mut queue, &mut spares, b"", b"HEADERS");
    push(&rt, &mut queue, &mut spares, b"\x00\x05", b"hello");
    take(&rt, &mut queue, &mut spares, b"HEADERS\x00\x05he", false);
    let given = filled(&rt, rt.alloc(), b'x', 5_000);
    let whole = filled(&rt, rt.alloc(), b'x', 5_000);
    give(&rt, &mut queue, &mut spares, b"\x00\x53\x88", given);
    push(&rt, &mut queue, &mut spares, b"\x00\x01", b"!");
    let few = filled(&rt, rt.alloc(), b'y', 2);
    give(&rt, &mut queue, &mut spares, b"\x00\x02", few);
    assert!(rt; queue.finish(), "it is open");
    take(&rt, &mut queue, &mut spares, b"llo\x00\x53\x88", false);
    take(&rt, &mut queue, &mut spares, whole.as_slice(), false);
    take(&rt, &mut queue, &mut spares, b"\x00\x01!\x00\x02", false);
    take(&rt, &mut queue, &mut spares, b"yy", true);
    assert!(rt; queue.next().is_none(), "all is put");
}

#[test]
fn a_head_lies_with_its_bytes(rt: HostRuntime) {
    let mut spares = Spares::new(rt.alloc());
    let mut queue = Queue::new(rt.alloc(), PLAIN);
    let bytes = filled(&rt, rt.alloc(), b'a', 9_000);
    push(
        &rt,
        &mut queue,
        &mut spares,
        b"\x00\x63\x28",
        bytes.as_slice(),
    );
    push(
        &rt,
        &mut queue,
        &mut spares,
        b"\x00\x63\x28",
        bytes.as_slice(),
    );
    match queue.next() {
        Some(next) => {
            assert!(rt; next.bytes.len() == 9_003, "the head and all of its bytes");
            assert!(rt;
                next.more.len() == 16_384 - 9_003,
                "as much of the next ones as is shown at once"
            );
            assert!(rt;
                next.more.starts_with(b"\x00\x63\x28a"),
                "which begin with their head"
            );
        }
        None => panic!(rt; "bytes wait"),
    }
    assert!(rt;
        queue.sent(&mut spares, 16_385).is_err(),
        "more than is shown"
    );
    assert!(rt; queue.sent(&mut spares, 9_004).is_ok(), "of both slices");
    assert!(rt;
        queue.next().is_some_and(|next| next.bytes.len() == 9_002),
        "the rest of the second"
    );
}

#[test]
fn given_bytes_come_in_a_slice_of_their_own(rt: HostRuntime) {
    let mut spares = Spares::new(rt.alloc());
    let mut queue = Queue::new(rt.alloc(), PLAIN);
    let bytes = filled(&rt, rt.alloc(), b'b', 20_000);
    give(&rt, &mut queue, &mut spares, b"\x00\x80\x00\x4e\x20", bytes);
    match queue.next() {
        Some(next) => {
            assert!(rt;
                next.bytes == b"\x00\x80\x00\x4e\x20".as_slice(),
                "the head alone"
            );
            assert!(rt;
                next.more.len() == 16_379,
                "as many of the bytes as are shown at once"
            );
            assert!(rt; !next.in_one_slice().fin, "which are not the end");
        }
        None => panic!(rt; "bytes wait"),
    }
}
