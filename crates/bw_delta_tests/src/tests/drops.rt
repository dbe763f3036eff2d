// Records and replays that are dropped give their memory back.
use super::making::{heap_within, insert, leaf_of, replay_at};
use crate::tests::assertions::{assert_equal, assert_that};
use bw_delta::{Arena, Delta};
use bw_fixtures::LONG;
use bw_memory::Alloc;
use std::process::Abort;

// Makes an arena with a record whose value takes memory, and drops it.
fn drop_arena<R: Abort>(rt: &R, alloc: Alloc) {
    let mut arena = Arena::new(alloc);
    arena.make_room().expect(rt, "memory");
    arena.append(Delta::Put(insert(rt, alloc, 0, b"a", LONG)), 7);
    assert_that(rt, alloc.used() > 0);
    drop(arena);
}

// Reads a leaf with a change over it, and drops what was read.
fn drop_replay<R: Abort>(rt: &R, alloc: Alloc) {
    let leaf = leaf_of(rt, alloc, LONG);
    let write = insert(rt, alloc, 0, b"b", LONG);
    let kept = alloc.used();
    let replay = replay_at(rt, alloc, &[&leaf], None, &[&write], 1);
    assert_that(rt, alloc.used() > kept);
    drop(replay);
    assert_equal(rt, alloc.used(), kept);
}

#[test]
fn what_is_dropped_gives_its_memory_back(rt: HostRuntime) {
    let alloc = heap_within(&rt, rt.alloc(), 65536);
    drop_arena(&rt, alloc);
    assert_equal(&rt, alloc.used(), 0);
    drop_replay(&rt, alloc);
    assert_equal(&rt, alloc.used(), 0);
}
