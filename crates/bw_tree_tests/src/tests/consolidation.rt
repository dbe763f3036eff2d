// Levels above the leaves, and records and stamps that start over.
use super::making::{empty, has, has_no_batch, heap, key, stands, three_leaves};
use crate::tests::assertions::assert_equal;
use bw_tree::Tree;
use std::process::Abort;

#[test]
fn one_leaf_has_no_page_above(rt: HostRuntime) {
    let alloc = heap(&rt, rt.alloc());
    let tree = empty(&rt, alloc);
    assert_equal(&rt, tree.above(1, &key(&rt, alloc, b"a")), None);
}

// Starts over a tree of three leaves, where its mapping words name their base pages.
fn start_over<R: Abort>(rt: &R, tree: &mut Tree) {
    has_no_batch(rt, tree);
    assert!(rt; tree.heads() == [0, 1, 2, 3].as_slice());
    tree.restart();
}

#[test]
fn a_tree_of_base_pages_starts_over(rt: HostRuntime) {
    let alloc = heap(&rt, rt.alloc());
    let mut tree = three_leaves(&rt, alloc);
    alloc.refuse(1);
    start_over(&rt, &mut tree);
    assert_equal(&rt, alloc.left(), 1);
    alloc.refuse(0);
    stands(&rt, &tree, 3, &[0, 1, 2, 3], 0);
    has(&rt, alloc, &tree, 7, &[(b"a", Some(b"1")), (b"d", None)]);
}
