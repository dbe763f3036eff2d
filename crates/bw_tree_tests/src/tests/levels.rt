// What a tree of three levels tells of each page, over a split that isn't finished.
use super::making::{
    LONG, TextPair, are, has_no_batch, heap, is_key, key, split_page, stage, three_leaves,
    three_with, value,
};
use super::refused::was_refused;
use crate::tests::assertions::{assert_equal, assert_that};
use bw_memory::Alloc;
use bw_model::Op;
use bw_page::{Inner, Page};
use bw_tree::{Leaf, PageId, Tree};
use std::process::Abort;

// Where a range begins and ends, and the right neighbour.
type Bounds = (&'static [u8], Option<&'static [u8]>, Option<u32>);

// Splits a page, which is a base page by itself with more than `keep` entries.
fn split<R: Abort>(rt: &R, tree: &mut Tree, page: u32, keep: usize) {
    split_page(rt, tree, PageId(page), keep).expect(rt, "memory");
}

// Puts a root over a root that was split.
fn grow<R: Abort>(rt: &R, tree: &mut Tree) {
    has_no_batch(rt, tree);
    let Some(_) = tree.in_level(tree.root()) else {
        panic!(rt; "a root of no level");
    };
    assert!(rt; tree.right_of(tree.root()).is_some());
    tree.new_root().expect(rt, "memory");
}

// The leaves 0, 6, 1 and 2 under the pages 3 and 4 under the root 5. Leaf 6 was split off leaf 0, and isn't named yet.
fn three_levels<R: Abort>(rt: &R, alloc: Alloc) -> Tree {
    let mut tree = three_leaves(rt, alloc);
    split(rt, &mut tree, 3, 2);
    grow(rt, &mut tree);
    split(rt, &mut tree, 0, 1);
    tree
}

// The identifier of this number, if there is one.
fn id(number: Option<u32>) -> Option<PageId> {
    match number {
        Some(number) => Some(PageId(number)),
        None => None,
    }
}

// Compares the left neighbour of a page, and the page that names it.
fn has_beside<R: Abort>(rt: &R, tree: &Tree, page: u32, left: Option<u32>, namer: Option<u32>) {
    assert_equal(rt, tree.left_of(PageId(page)), id(left));
    assert_equal(rt, tree.namer(PageId(page)), id(namer));
}

#[test]
fn each_page_has_its_left_neighbour_and_its_namer(rt: HostRuntime) {
    let alloc = heap(&rt, rt.alloc());
    let tree = three_levels(&rt, alloc);
    alloc.refuse(1);
    has_beside(&rt, &tree, 0, None, Some(3));
    has_beside(&rt, &tree, 6, Some(0), None);
    has_beside(&rt, &tree, 1, Some(6), Some(3));
    has_beside(&rt, &tree, 2, Some(1), Some(4));
    has_beside(&rt, &tree, 3, None, Some(5));
    has_beside(&rt, &tree, 4, Some(3), Some(5));
    has_beside(&rt, &tree, 5, None, None);
    has_beside(&rt, &tree, 7, None, None);
    has_beside(&rt, &tree, u32::MAX, None, None);
    assert_equal(&rt, alloc.left(), 1);
}

#[test]
fn the_parts_of_a_root_have_no_namer(rt: HostRuntime) {
    let alloc = heap(&rt, rt.alloc());
    let mut tree = three_leaves(&rt, alloc);
    split(&rt, &mut tree, 3, 2);
    has_beside(&rt, &tree, 3, None, None);
    has_beside(&rt, &tree, 4, Some(3), None);
    has_beside(&rt, &tree, 2, Some(1), Some(4));
}

#[test]
fn pages_without_a_record_are_plain(rt: HostRuntime) {
    let alloc = heap(&rt, rt.alloc());
    let tree = three_levels(&rt, alloc);
    for page in [1, 2, 4, 5, 6] {
        assert_that(&rt, tree.is_plain(PageId(page)));
    }
    for page in [0, 3, 7, u32::MAX] {
        assert_that(&rt, !tree.is_plain(PageId(page)));
    }
}

// Whether a leaf has these bounds and pairs.
fn is_leaf(leaf: &Leaf, bounds: Bounds, pairs: &[TextPair]) -> bool {
    leaf.low().bytes() == bounds.0
        && is_key(leaf.high(), bounds.1)
        && leaf.side() == id(bounds.2)
        && are(leaf.pairs(), pairs)
}

// The state of a page as of stamp 0.
fn state_of<R: Abort>(rt: &R, tree: &Tree, page: u32) -> Option<Page> {
    tree.state(PageId(page), 0).expect(rt, "memory")
}

// Compares the state of a leaf.
fn has_leaf<R: Abort>(rt: &R, tree: &Tree, page: u32, bounds: Bounds, pairs: &[TextPair]) {
    let state = state_of(rt, tree, page);
    match &state {
        Some(Page::Leaf(leaf)) => assert_that(rt, is_leaf(leaf, bounds, pairs)),
        _ => panic!(rt; "page {page} is no leaf"),
    }
}

// Whether an inner page has this level, these bounds and so many children.
fn is_inner(inner: &Inner, level: u32, bounds: Bounds, children: usize) -> bool {
    inner.level() == level
        && inner.low().bytes() == bounds.0
        && is_key(inner.high(), bounds.1)
        && inner.side() == id(bounds.2)
        && inner.children().len() == children
}

// Compares the state of an inner page.
fn has_inner<R: Abort>(
    rt: &R,
    tree: &Tree,
    page: u32,
    level: u32,
    bounds: Bounds,
    children: usize,
) {
    let state = state_of(rt, tree, page);
    match &state {
        Some(Page::Inner(inner)) => assert_that(rt, is_inner(inner, level, bounds, children)),
        _ => panic!(rt; "page {page} is no inner page"),
    }
}

// Whether an identifier names no page of a level.
fn is_unused<R: Abort>(rt: &R, tree: &Tree, page: u32) -> bool {
    state_of(rt, tree, page).is_none()
}

#[test]
fn each_page_has_its_state(rt: HostRuntime) {
    let alloc = heap(&rt, rt.alloc());
    let tree = three_levels(&rt, alloc);
    has_leaf(&rt, &tree, 0, (b"", Some(b"b"), Some(6)), &[(b"a", b"1")]);
    has_leaf(&rt, &tree, 6, (b"b", Some(b"c"), Some(1)), &[(b"b", b"2")]);
    has_leaf(&rt, &tree, 2, (b"e", None, None), &[(b"e", b"5")]);
    has_inner(&rt, &tree, 3, 1, (b"", Some(b"e"), Some(4)), 2);
    has_inner(&rt, &tree, 4, 1, (b"e", None, None), 1);
    has_inner(&rt, &tree, 5, 2, (b"", None, None), 2);
    assert_that(&rt, is_unused(&rt, &tree, 7));
    assert_that(&rt, is_unused(&rt, &tree, u32::MAX));
}

#[test]
fn a_staged_batch_is_in_no_state_yet(rt: HostRuntime) {
    let alloc = heap(&rt, rt.alloc());
    let mut tree = three_leaves(&rt, alloc);
    let upsert = Op::Upsert(key(&rt, alloc, b"c"), value(&rt, alloc, b"9"));
    stage(&rt, &mut tree, &[upsert]).expect(&rt, "memory");
    has_leaf(&rt, &tree, 1, (b"c", Some(b"e"), Some(2)), &[(b"c", b"3")]);
}

// Asks for the state of a page where this growth is refused. Whether it was.
fn state_refused<R: Abort>(rt: &R, alloc: Alloc, tree: &Tree, page: u32, growth: u64) -> bool {
    alloc.refuse(growth);
    let state = tree.state(PageId(page), 0);
    let refused = was_refused(alloc, growth);
    assert_equal(rt, state.is_err(), refused);
    refused
}

// Refuses each growth of the state of a page in turn.
fn each_refused<R: Abort>(rt: &R, alloc: Alloc, tree: &Tree, page: u32, least: u64) {
    for growth in 1..100 {
        if !state_refused(rt, alloc, tree, page, growth) {
            assert_that(rt, growth > least);
            return;
        }
    }
    panic!(rt; "no run met no refusal")
}

#[test]
fn each_growth_of_a_state_is_refused(rt: HostRuntime) {
    let alloc = heap(&rt, rt.alloc());
    let tree = three_with(&rt, alloc, LONG);
    each_refused(&rt, alloc, &tree, 1, 1);
    each_refused(&rt, alloc, &tree, 3, 0);
}
