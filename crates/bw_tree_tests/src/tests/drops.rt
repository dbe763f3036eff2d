// Trees and scans that are dropped give their memory back. Those of an adopted batch stand in the tests of bw_post.
use super::making::{LONG, key, stage, three_with, value};
use crate::tests::assertions::{assert_equal, assert_that};
use bw_memory::{Alloc, Heap};
use bw_model::Op;
use bw_tree::{Scans, Tree};
use std::process::Abort;
use std::test::Fail;

// An upsert of a value that takes memory.
fn upsert<R: Abort>(rt: &R, alloc: Alloc) -> Op {
    Op::Upsert(key(rt, alloc, b"d"), value(rt, alloc, LONG))
}

// Makes a tree with a staged batch, and drops it.
fn drop_tree<R: Abort>(rt: &R, alloc: Alloc) {
    let mut tree = three_with(rt, alloc, LONG);
    stage(rt, &mut tree, &[upsert(rt, alloc)]).expect(rt, "memory");
    assert_that(rt, alloc.used() > 0);
    drop(tree);
}

// Reads the leaves of a tree, and drops what was read.
fn drop_scans<R: Abort>(rt: &R, alloc: Alloc, tree: &Tree) {
    let kept = alloc.used();
    let from = key(rt, alloc, b"");
    let mut scans = Scans::new(alloc, tree.look());
    let pairs = scans.scan(&from, None, 9, 0).expect(rt, "memory");
    drop(pairs);
    assert_that(rt, alloc.used() > kept);
    drop(scans);
    assert_equal(rt, alloc.used(), kept);
}

#[test]
fn what_is_dropped_gives_its_memory_back(rt: HostRuntime) -> Result<(), Fail> {
    let alloc = Heap::within(rt.alloc(), 65536).leak(rt.alloc())?;
    drop_tree(&rt, alloc);
    assert_equal(&rt, alloc.used(), 0);
    drop_scans(&rt, alloc, &three_with(&rt, alloc, LONG));
    assert_equal(&rt, alloc.used(), 0);
    Ok(())
}
