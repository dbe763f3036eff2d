// Each growth of memory refused in turn.
use super::making::{LONG, has, heap, key, leaves, stage, stands, three_leaves, three_with, value};
use crate::tests::assertions::{assert_equal, assert_that};
pub use bw_fixtures::was_refused;
use bw_memory::Alloc;
use bw_model::Op;
use bw_tree::{Memory, Tree};
use std::process::Abort;

// Makes a tree of three leaves where this growth is refused. Whether it was.
fn tree_refused<R: Abort>(rt: &R, alloc: Alloc, growth: u64) -> bool {
    let all = leaves(rt, alloc, b"3");
    alloc.refuse(growth);
    let made = Tree::from_level(alloc, all);
    let refused = was_refused(alloc, growth);
    assert_equal(rt, made.is_err(), refused);
    if let Ok(tree) = &made {
        stands(rt, tree, 3, &[0, 1, 2, 3], 0);
    }
    refused
}

#[test]
fn each_growth_of_a_tree_is_refused(rt: HostRuntime) {
    let alloc = heap(&rt, rt.alloc());
    for growth in 1..100 {
        if !tree_refused(&rt, alloc, growth) {
            assert_that(&rt, growth > 3);
            return;
        }
    }
    panic!(rt; "no run met no refusal")
}

// Two writes of a long key and long values.
fn batch<R: Abort>(rt: &R, alloc: Alloc) -> [Op; 2] {
    [
        Op::Upsert(key(rt, alloc, LONG), value(rt, alloc, LONG)),
        Op::Update(key(rt, alloc, b"c"), value(rt, alloc, LONG)),
    ]
}

// Stages a batch where this growth is refused, and compares the tree after that. Whether it was.
fn stage_refused<R: Abort>(rt: &R, alloc: Alloc, growth: u64) -> bool {
    let mut tree = three_leaves(rt, alloc);
    let ops = batch(rt, alloc);
    alloc.refuse(growth);
    let staged = stage(rt, &mut tree, &ops);
    let refused = was_refused(alloc, growth);
    assert_equal(rt, staged.is_err(), refused);
    stands(rt, &tree, 3, &[0, 1, 2, 3], if refused { 0 } else { 2 });
    has(rt, alloc, &tree, 9, &[(b"c", Some(b"3")), (LONG, None)]);
    refused
}

#[test]
fn each_growth_of_a_stage_is_refused(rt: HostRuntime) {
    let alloc = heap(&rt, rt.alloc());
    for growth in 1..100 {
        if !stage_refused(&rt, alloc, growth) {
            assert_that(&rt, growth > 4);
            return;
        }
    }
    panic!(rt; "no run met no refusal")
}

#[test]
fn a_refused_batch_is_staged_again(rt: HostRuntime) {
    let alloc = heap(&rt, rt.alloc());
    let mut tree = three_leaves(&rt, alloc);
    let ops = batch(&rt, alloc);
    alloc.refuse(4);
    if stage(&rt, &mut tree, &ops).is_err() {
        alloc.refuse(0);
        let staged = stage(&rt, &mut tree, &ops).expect(&rt, "memory");
        assert_equal(
            &rt,
            (staged.base, staged.floor, staged.records),
            (0, 4294967296, 2),
        );
        return;
    }
    panic!(rt; "the growth was not refused")
}

#[test]
fn the_copy_of_a_value_is_refused(rt: HostRuntime) {
    let alloc = heap(&rt, rt.alloc());
    let tree = three_with(&rt, alloc, LONG);
    let at = key(&rt, alloc, b"c");
    alloc.refuse(1);
    assert_equal(&rt, tree.value_at(&at, 0).err(), Some(Memory));
    assert_equal(&rt, alloc.left(), 0);
    alloc.refuse(2);
    let found = tree.value_at(&at, 0).expect(&rt, "memory");
    assert_equal(&rt, alloc.left(), 1);
    alloc.refuse(0);
    assert_equal(&rt, found, Some(value(&rt, alloc, LONG)));
    stands(&rt, &tree, 3, &[0, 1, 2, 3], 0);
}
