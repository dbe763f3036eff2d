// What a tree of three leaves tells of each of them.
ghost use Rattle.std.specs.List.{Contains};
ghost use Rattle.bw_tree.specs.Levels.{row};

use super::making::{are, heap, key, three_leaves};
use crate::tests::assertions::{assert_equal, assert_that};
use bw_memory::Alloc;
use bw_tree::{Leaf, PageId, Tree};
use std::process::Abort;

// The leaf whose range has a key.
fn leaf_at<R: Abort>(rt: &R, alloc: Alloc, tree: &Tree, bytes: &[u8]) -> PageId
    ensures { Contains (row tree.now.levels 0) result }
{
    tree.route(&key(rt, alloc, bytes))
}

// Compares the low key and pairs of a leaf's base page.
fn is_leaf<R: Abort>(rt: &R, leaf: &Leaf, low: &[u8], wanted: &[(&'static [u8], &'static [u8])]) {
    assert_equal(rt, leaf.low().bytes(), low);
    assert_that(rt, are(leaf.pairs(), wanted));
}

#[test]
fn each_leaf_has_its_base_page(rt: HostRuntime) {
    let alloc = heap(&rt, rt.alloc());
    let tree = three_leaves(&rt, alloc);
    let page = leaf_at(&rt, alloc, &tree, b"b");
    let first = tree.leaf(alloc, page).expect(&rt, "memory");
    is_leaf(&rt, first.base, b"", &[(b"a", b"1"), (b"b", b"2")]);
    let page = leaf_at(&rt, alloc, &tree, b"z");
    let third = tree.leaf(alloc, page).expect(&rt, "memory");
    is_leaf(&rt, third.base, b"e", &[(b"e", b"5")]);
}

#[test]
fn each_leaf_ends_where_the_next_begins(rt: HostRuntime) {
    let alloc = heap(&rt, rt.alloc());
    let tree = three_leaves(&rt, alloc);
    let wanted: [(&[u8], Option<&[u8]>); 3] = [
        (b"b", Some(b"c")),
        (b"d", Some(b"e")),
        (b"z", None),
    ];
    for (bytes, end) in wanted {
        let page = leaf_at(&rt, alloc, &tree, bytes);
        assert_equal(&rt, tree.end(page).map(|key| key.bytes()), end);
    }
}

#[test]
fn a_leaf_is_read_at_once_without_memory(rt: HostRuntime) {
    let alloc = heap(&rt, rt.alloc());
    let tree = three_leaves(&rt, alloc);
    let page = leaf_at(&rt, alloc, &tree, b"d");
    alloc.refuse(1);
    let leaf = tree.leaf(alloc, page).expect(&rt, "memory");
    assert_equal(&rt, alloc.left(), 1);
    assert_equal(&rt, leaf.writes.len(), 0);
    is_leaf(&rt, leaf.base, b"c", &[(b"c", b"3")]);
    let end: Option<&[u8]> = Some(b"e");
    assert_equal(&rt, leaf.end.map(|key| key.bytes()), end);
    assert_equal(&rt, leaf.side, Some(PageId(2)));
}
