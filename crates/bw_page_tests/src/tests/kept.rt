// What pages keep of a heap: no more than their pairs or children need.
use super::making::{
    cut, cut_inner, from_start_and_c, has_children, joined, small_heap, upper_half,
    upper_half_inner, with_two,
};
use crate::tests::assertions::assert_equal;
use bw_fixtures::key;
use bw_memory::Alloc;
use bw_model::Pairs;
use bw_page::{Leaf, PageId};
use std::process::Abort;

// A pair of 8 and 8 bytes takes 24 in a list that has just the room for its pairs, and no bound takes any here.
const PAIR: u64 = 24;

// The leaf from the start on and below `e`, with page 1 at its right: four pairs of 8 and 8 bytes, and room for more.
fn four<R: Abort>(rt: &R, alloc: Alloc) -> Leaf {
    let mut pairs = Pairs::with_capacity(alloc, 10, 1000).expect(rt, "memory");
    pairs.push(b"aaaaaaaa", b"11111111").expect(rt, "memory");
    pairs.push(b"bbbbbbbb", b"22222222").expect(rt, "memory");
    pairs.push(b"cccccccc", b"33333333").expect(rt, "memory");
    pairs.push(b"dddddddd", b"44444444").expect(rt, "memory");
    let (low, high) = (
        key(alloc, b"").expect(rt, "memory"),
        key(alloc, b"e").expect(rt, "memory"),
    );
    Leaf::from_pairs(low, Some(high), Some(PageId(1)), pairs)
}

// The last leaf, from `e` on: one such pair, and room for more.
fn from_e<R: Abort>(rt: &R, alloc: Alloc) -> Leaf {
    let mut pairs = Pairs::with_capacity(alloc, 10, 1000).expect(rt, "memory");
    pairs.push(b"eeeeeeee", b"55555555").expect(rt, "memory");
    Leaf::from_pairs(key(alloc, b"e").expect(rt, "memory"), None, None, pairs)
}

// Copies the upper half of a leaf, which is let go then.
fn keep_a_half<R: Abort>(rt: &R, alloc: Alloc) {
    let leaf = four(rt, alloc);
    let half = upper_half(rt, &leaf, 1).expect(rt, "memory");
    drop(leaf);
    assert_equal(rt, alloc.used(), 3 * PAIR);
    assert_equal(rt, half.pairs().len(), 3);
}

// Cuts a leaf, and lets each part go in turn.
fn keep_both_parts<R: Abort>(rt: &R, alloc: Alloc) {
    let mut leaf = four(rt, alloc);
    let half = cut(rt, &mut leaf, 1).expect(rt, "memory");
    assert_equal(rt, alloc.used(), 4 * PAIR);
    drop(half);
    assert_equal(rt, alloc.used(), PAIR);
    assert_equal(rt, leaf.pairs().len(), 1);
}

// Joins two leaves, which are let go then.
fn keep_a_joined_leaf<R: Abort>(rt: &R, alloc: Alloc) {
    let (left, right) = (four(rt, alloc), from_e(rt, alloc));
    let leaf = joined(rt, &left, &right).expect(rt, "memory");
    drop(left);
    drop(right);
    assert_equal(rt, alloc.used(), 5 * PAIR);
    assert_equal(rt, leaf.pairs().len(), 5);
}

#[test]
fn a_half_of_a_leaf_keeps_what_its_pairs_need(rt: HostRuntime) {
    let alloc = small_heap(&rt, rt.alloc());
    keep_a_half(&rt, alloc);
    assert_equal(&rt, alloc.used(), 0);
    keep_both_parts(&rt, alloc);
    assert_equal(&rt, alloc.used(), 0);
}

#[test]
fn a_joined_leaf_keeps_what_its_pairs_need(rt: HostRuntime) {
    let alloc = small_heap(&rt, rt.alloc());
    keep_a_joined_leaf(&rt, alloc);
    assert_equal(&rt, alloc.used(), 0);
}

// A child takes the bytes of its separator and eight more, likewise: the first one, which has none, and `c`.
const FIRST: u64 = 8;

const C: u64 = 9;

// Makes a page of two children, which is joined of two.
fn keep_two_children<R: Abort>(rt: &R, alloc: Alloc) {
    let inner = from_start_and_c(rt, alloc);
    assert_equal(rt, alloc.used(), FIRST + C);
    assert_equal(rt, inner.children().len(), 2);
}

// Cuts such a page, and lets a part go.
fn keep_the_first_child<R: Abort>(rt: &R, alloc: Alloc) {
    let mut inner = from_start_and_c(rt, alloc);
    let half = cut_inner(rt, &mut inner, 1).expect(rt, "memory");
    assert_equal(rt, alloc.used(), FIRST + C);
    drop(half);
    assert_equal(rt, alloc.used(), FIRST);
    assert_equal(rt, inner.children().len(), 1);
}

// Copies the upper half of such a page, which is let go then.
fn keep_the_last_child<R: Abort>(rt: &R, alloc: Alloc) {
    let inner = from_start_and_c(rt, alloc);
    let half = upper_half_inner(rt, &inner, 1).expect(rt, "memory");
    drop(inner);
    assert_equal(rt, alloc.used(), C);
    assert_equal(rt, half.children().len(), 1);
}

#[test]
fn inner_pages_keep_what_their_children_need(rt: HostRuntime) {
    let alloc = small_heap(&rt, rt.alloc());
    keep_two_children(&rt, alloc);
    assert_equal(&rt, alloc.used(), 0);
    keep_the_first_child(&rt, alloc);
    assert_equal(&rt, alloc.used(), 0);
    keep_the_last_child(&rt, alloc);
    assert_equal(&rt, alloc.used(), 0);
}

// Puts two children into such a page, of which one stands in place of another, and lets that page go.
fn keep_three_children<R: Abort>(rt: &R, alloc: Alloc) {
    let inner = from_start_and_c(rt, alloc);
    let (b, c) = (
        key(alloc, b"b").expect(rt, "b"),
        key(alloc, b"c").expect(rt, "c"),
    );
    let more = with_two(rt, alloc, &inner, (b, PageId(3)), (c, PageId(4)), 0).expect(rt, "memory");
    drop(inner);
    assert_equal(rt, alloc.used(), FIRST + 9 + C);
    has_children(rt, &more, &[(b"", 0), (b"b", 3), (b"c", 4)]);
}

#[test]
fn a_page_that_gets_children_keeps_what_they_need(rt: HostRuntime) {
    let alloc = small_heap(&rt, rt.alloc());
    keep_three_children(&rt, alloc);
    assert_equal(&rt, alloc.used(), 0);
}
