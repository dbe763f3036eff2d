// Leaves that part in two, of which the page above knows nothing yet.
use super::making::{
    LONG, has, has_first, has_last, has_no_batch, heap, key, leaf_of_key, one_long, split_page,
    stands, three_leaves,
};
use super::refused::was_refused;
use crate::tests::assertions::{assert_equal, assert_that};
use bw_memory::Alloc;
use bw_tree::{Memory, PageId, Tree};
use std::process::Abort;

/// The word of the first record.
pub const FLOOR: u64 = 4294967296;

/// Splits the leaf that has a key, which is a base page by itself with more than `keep` pairs.
pub fn split<R: Abort>(
    rt: &R,
    alloc: Alloc,
    tree: &mut Tree,
    bytes: &[u8],
    keep: usize,
) -> Result<PageId, Memory> {
    let page = leaf_of_key(rt, alloc, tree, bytes);
    split_page(rt, tree, page, keep)
}

// Consolidates the leaf that has a key.
fn consolidate<R: Abort>(
    rt: &R,
    alloc: Alloc,
    tree: &mut Tree,
    bytes: &[u8],
) -> Result<(), Memory> {
    has_no_batch(rt, tree);
    let page = tree.route(&key(rt, alloc, bytes));
    tree.consolidate(page)
}

/// Compares the leaf of a key.
pub fn routes<R: Abort>(rt: &R, alloc: Alloc, tree: &Tree, bytes: &[u8], wanted: u32) {
    assert_equal(rt, leaf_of_key(rt, alloc, tree, bytes), PageId(wanted));
}

/// Compares how many entries a page has that is a base page by itself.
pub fn has_entries<R: Abort>(rt: &R, tree: &Tree, page: PageId, wanted: usize) {
    assert!(rt; (page.0 as usize) < tree.heads().len());
    assert!(rt; tree.heads()[page.0 as usize] < FLOOR);
    assert_eq!(rt; tree.entries(page), wanted);
}

// What the three leaves hold, and a key that is in none.
const HELD: &[(&[u8], Option<&[u8]>)] = &[
    (b"a", Some(b"1")),
    (b"aa", None),
    (b"b", Some(b"2")),
    (b"c", Some(b"3")),
    (b"e", Some(b"5")),
];

// Their pairs.
const ALL: &[(&[u8], &[u8])] = &[(b"a", b"1"), (b"b", b"2"), (b"c", b"3"), (b"e", b"5")];

// The last three of them.
const LAST: &[(&[u8], &[u8])] = &[(b"e", b"5"), (b"c", b"3"), (b"b", b"2")];

// Compares what is read of the three leaves.
fn holds<R: Abort>(rt: &R, alloc: Alloc, tree: &Tree) {
    has(rt, alloc, tree, 0, HELD);
    has_first(rt, alloc, tree, (b"", None, 9), ALL);
    has_last(rt, alloc, tree, (b"", None, 3), LAST);
}

#[test]
fn a_leaf_parts_in_two(rt: HostRuntime) {
    let alloc = heap(&rt, rt.alloc());
    let mut tree = three_leaves(&rt, alloc);
    assert_equal(&rt, split(&rt, alloc, &mut tree, b"a", 1), Ok(PageId(4)));
    stands(&rt, &tree, 3, &[FLOOR, 1, 2, 3, 4], 1);
    routes(&rt, alloc, &tree, b"", 0);
    routes(&rt, alloc, &tree, b"aa", 0);
    routes(&rt, alloc, &tree, b"b", 4);
    routes(&rt, alloc, &tree, b"bb", 4);
    routes(&rt, alloc, &tree, b"c", 1);
    holds(&rt, alloc, &tree);
    has_entries(&rt, &tree, PageId(4), 1);
}

#[test]
fn the_left_part_is_consolidated_with_no_memory(rt: HostRuntime) {
    let alloc = heap(&rt, rt.alloc());
    let mut tree = three_leaves(&rt, alloc);
    split(&rt, alloc, &mut tree, b"b", 1).expect(&rt, "memory");
    alloc.refuse(1);
    consolidate(&rt, alloc, &mut tree, b"a").expect(&rt, "memory");
    assert_equal(&rt, alloc.left(), 1);
    alloc.refuse(0);
    stands(&rt, &tree, 3, &[0, 1, 2, 3, 4], 1);
    routes(&rt, alloc, &tree, b"b", 4);
    holds(&rt, alloc, &tree);
}

// Splits a leaf where this growth is refused, and compares the tree after that. Whether that stopped it: the last two growths
// only give room back, and the leaf is split without it.
fn split_refused<R: Abort>(rt: &R, alloc: Alloc, growth: u64) -> bool {
    let mut tree = three_leaves(rt, alloc);
    alloc.refuse(growth);
    let parted = split(rt, alloc, &mut tree, b"a", 1);
    let refused = was_refused(alloc, growth);
    assert_that(rt, parted.is_ok() || refused);
    if parted.is_err() {
        stands(rt, &tree, 3, &[0, 1, 2, 3], 0);
    }
    holds(rt, alloc, &tree);
    parted.is_err()
}

#[test]
fn each_growth_of_a_split_is_refused(rt: HostRuntime) {
    let alloc = heap(&rt, rt.alloc());
    for growth in 1..100 {
        if !split_refused(&rt, alloc, growth) {
            assert_that(&rt, growth > 3);
            return;
        }
    }
    panic!(rt; "no run met no refusal")
}

// Splits the one leaf of a tree at a long key, and consolidates what is left of it where the first growth is refused, and then
// where the second one is.
fn consolidate_refused<R: Abort>(rt: &R, alloc: Alloc, tree: &mut Tree) {
    split(rt, alloc, tree, b"a", 1).expect(rt, "memory");
    alloc.refuse(1);
    assert_that(rt, consolidate(rt, alloc, tree, b"a").is_err());
    assert_equal(rt, alloc.left(), 0);
    stands(rt, tree, 0, &[FLOOR, 1], 1);
    alloc.refuse(2);
    assert_that(rt, consolidate(rt, alloc, tree, b"a").is_ok());
    assert_equal(rt, alloc.left(), 1);
    alloc.refuse(0);
    stands(rt, tree, 0, &[0, 1], 1);
}

// What that tree holds, and a key that is in none.
const KEPT: &[(&[u8], Option<&[u8]>)] = &[(b"a", Some(b"1")), (LONG, Some(LONG)), (b"b", None)];

#[test]
fn the_copy_of_a_long_end_is_the_one_growth_of_a_consolidation(rt: HostRuntime) {
    let alloc = heap(&rt, rt.alloc());
    let mut tree = one_long(&rt, alloc);
    consolidate_refused(&rt, alloc, &mut tree);
    has(&rt, alloc, &tree, 0, KEPT);
}
