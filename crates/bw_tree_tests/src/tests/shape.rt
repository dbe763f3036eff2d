// The lists of trees' pages.
use super::making::{LONG, empty, heap, is_key, split_page, stands, three_leaves, three_with};
use super::refused::was_refused;
use crate::tests::assertions::{assert_equal, assert_that};
use bw_memory::Alloc;
use bw_tree::{PageId, PageShape, Tree};
use std::process::Abort;

// A page: its identifier and level, where its range begins and ends, its pairs or children, and its writes.
type Wanted = (u32, u32, &'static [u8], Option<&'static [u8]>, usize, usize);

// Whether a page is listed so.
fn is(page: &PageShape, wanted: &Wanted) -> bool {
    page.page == PageId(wanted.0)
        && page.level == wanted.1
        && page.low.bytes() == wanted.2
        && is_key(page.high.as_ref(), wanted.3)
        && page.pairs == wanted.4
        && page.writes == wanted.5
}

// Compares pages.
fn are_pages<R: Abort>(rt: &R, pages: &[PageShape], wanted: &[Wanted]) {
    assert_equal(rt, pages.len(), wanted.len());
    for (page, wanted) in pages.iter().zip(wanted) {
        assert_that(rt, is(page, wanted));
    }
}

// Compares the pages of a tree.
fn has_pages<R: Abort>(rt: &R, tree: &Tree, wanted: &[Wanted]) {
    let pages = tree.shape().expect(rt, "the pages");
    are_pages(rt, &pages, wanted);
}

#[test]
fn an_empty_tree_is_one_leaf(rt: HostRuntime) {
    let alloc = heap(&rt, rt.alloc());
    has_pages(&rt, &empty(&rt, alloc), &[(0, 0, b"", None, 0, 0)]);
}

// The pages of the tree of three leaves.
const THREE: &[Wanted] = &[
    (0, 0, b"", Some(b"c"), 2, 0),
    (1, 0, b"c", Some(b"e"), 1, 0),
    (2, 0, b"e", None, 1, 0),
    (3, 1, b"", None, 3, 0),
];

#[test]
fn three_leaves_stand_before_their_root(rt: HostRuntime) {
    let alloc = heap(&rt, rt.alloc());
    has_pages(&rt, &three_leaves(&rt, alloc), THREE);
}

// The same with the first leaf split.
const SPLIT: &[Wanted] = &[
    (0, 0, b"", Some(b"b"), 1, 0),
    (4, 0, b"b", Some(b"c"), 1, 0),
    (1, 0, b"c", Some(b"e"), 1, 0),
    (2, 0, b"e", None, 1, 0),
    (3, 1, b"", None, 3, 0),
];

#[test]
fn a_page_that_was_split_off_stands_right_behind(rt: HostRuntime) {
    let alloc = heap(&rt, rt.alloc());
    let mut tree = three_leaves(&rt, alloc);
    split_page(&rt, &mut tree, PageId(0), 1).expect(&rt, "memory");
    has_pages(&rt, &tree, SPLIT);
}

// Lists the pages of a tree with a long value where this growth is refused. Whether it was.
fn shape_refused<R: Abort>(rt: &R, alloc: Alloc, tree: &Tree, growth: u64) -> bool {
    alloc.refuse(growth);
    let pages = tree.shape();
    let refused = was_refused(alloc, growth);
    assert_equal(rt, pages.is_err(), refused);
    refused
}

#[test]
fn each_growth_of_a_list_is_refused(rt: HostRuntime) {
    let alloc = heap(&rt, rt.alloc());
    let tree = three_with(&rt, alloc, LONG);
    for growth in 1..100 {
        if !shape_refused(&rt, alloc, &tree, growth) {
            assert_that(&rt, growth > 5);
            stands(&rt, &tree, 3, &[0, 1, 2, 3], 0);
            return;
        }
    }
    panic!(rt; "no run met no refusal")
}
