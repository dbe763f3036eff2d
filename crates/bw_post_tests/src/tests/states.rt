// States of leaves with the writes of an adopted batch over them.
use super::making::{Pair, memory};
use super::rows::adopted;
use crate::tests::assertions::{assert_equal, assert_that};
use bw_fixtures::{are, was_refused};
use bw_memory::Alloc;
use bw_page::{Page, PageId};
use bw_post::Tree;
use std::process::Abort;

// Whether a state is that of a leaf with these pairs.
fn is_leaf(state: Option<&Page>, pairs: &[Pair]) -> bool {
    match state {
        Some(Page::Leaf(leaf)) => are(leaf.pairs(), pairs),
        _ => false,
    }
}

// Compares the pairs of a leaf as of a stamp.
fn has_leaf<R: Abort>(rt: &R, tree: &Tree, page: u32, stamp: u64, pairs: &[Pair]) {
    let state = tree.state(PageId(page), stamp).expect(rt, "memory");
    assert_that(rt, is_leaf(state.as_ref(), pairs));
}

#[test]
fn a_leaf_has_its_state_as_of_each_stamp(rt: HostRuntime) {
    let alloc = memory(&rt, rt.alloc());
    let tree = adopted(&rt, alloc);
    has_leaf(&rt, &tree, 1, 0, &[(b"c", b"3")]);
    has_leaf(&rt, &tree, 1, 1, &[(b"c", b"9")]);
    has_leaf(&rt, &tree, 2, 1, &[(b"e", b"5")]);
    has_leaf(&rt, &tree, 2, 2, &[]);
    assert_that(&rt, tree.is_plain(PageId(0)));
    assert_that(&rt, !tree.is_plain(PageId(1)));
}

// Asks for the state of a leaf with a write where this growth is refused. Whether it was: behind the first five growths two
// only give room back, and the state is told without them.
fn state_refused<R: Abort>(rt: &R, alloc: Alloc, tree: &Tree, growth: u64) -> bool {
    alloc.refuse(growth);
    let state = tree.state(PageId(1), 3);
    let refused = was_refused(alloc, growth);
    assert_equal(rt, state.is_err(), refused && growth <= 5);
    refused
}

#[test]
fn each_growth_of_a_state_is_refused(rt: HostRuntime) {
    let alloc = memory(&rt, rt.alloc());
    let tree = adopted(&rt, alloc);
    for growth in 1..100 {
        if !state_refused(&rt, alloc, &tree, growth) {
            assert_equal(&rt, growth, 8);
            return;
        }
    }
    panic!(rt; "no run met no refusal")
}
