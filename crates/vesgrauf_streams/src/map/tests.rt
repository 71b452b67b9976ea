//! The map beside a tree with the same entries.

use crate::map::StreamMap;
use std::alloc::Global;
use std::collections::BTreeMap;
use std::process::Abort;

/// Returns the next of some numbers without order (a linear congruential generator, with Knuth's constants).
fn next_number(number: &mut u64) -> u64 {
    *number = number
        .wrapping_mul(6_364_136_223_846_793_005)
        .wrapping_add(1_442_695_040_888_963_407);
    *number >> 33
}

/// The map has what the tree has, at this ID and from it on.
fn compare<R: Abort>(rt: &R, map: &StreamMap<u64>, tree: &BTreeMap<u64, u64>, id: u64) {
    assert_eq!(rt; map.len(), tree.len());
    assert_eq!(rt; map.get(&id).copied(), tree.get(&id).copied());
    let first = map.next_from(id).map(|(at, value)| (at, *value));
    let wanted = tree.range(id..).next().map(|(at, value)| (*at, *value));
    assert_eq!(rt; first, wanted);
}

/// Puts, writes, removes and looks up at random among so many IDs.
fn go_on<R: Abort>(rt: &R, alloc: Global, ids: u64, calls: u32) {
    let mut map: StreamMap<u64> = StreamMap::new(alloc);
    let mut tree: BTreeMap<u64, u64> = BTreeMap::new(alloc);
    let mut number = ids;
    for _ in 0..calls {
        let id = next_number(&mut number).checked_rem(ids).unwrap_or(0);
        let value = next_number(&mut number);
        match next_number(&mut number) % 4 {
            0 => {
                let old = map.insert(id, value).ok().expect(rt, "memory");
                assert_eq!(rt; old, tree.insert(id, value).ok().expect(rt, "memory"));
            }
            1 => {
                if let Some(there) = map.get_mut(&id) {
                    *there = value;
                }
                if let Some(there) = tree.get_mut(&id) {
                    *there = value;
                }
            }
            2 => assert_eq!(rt; map.remove(&id), tree.remove(&id)),
            _ => {}
        }
        compare(rt, &map, &tree, id);
    }
}

#[test]
fn it_has_what_a_tree_has(rt: HostRuntime) {
    for ids in [1, 2, 7, 64, 65, 300, 5_000] {
        go_on(&rt, rt.alloc(), ids, 3_000);
    }
}

#[test]
fn a_removed_stream_leaves_its_slot(rt: HostRuntime) {
    let mut map: StreamMap<u64> = StreamMap::new(rt.alloc());
    for id in 0..1_000u64 {
        map.insert(4 * id, id).ok().expect(&rt, "memory");
        assert_eq!(rt; map.get(&(4 * id)).copied(), Some(id));
        if id >= 10 {
            assert_eq!(rt; map.remove(&(4 * (id - 10))), Some(id - 10));
        }
    }
    assert_eq!(rt; map.len(), 10);
    assert_eq!(rt; map.slots.len(), 11);
}
