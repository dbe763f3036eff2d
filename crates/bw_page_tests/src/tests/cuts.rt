// Pages that are cut and narrowed in their place, against the halves that are copies.
use super::making::{
    TextPair, cut, cut_inner, from_start_and_c, has_children, heap, key, three_children,
    upper_half, upper_half_inner, with_child,
};
use crate::tests::assertions::{assert_equal, assert_that};
use bw_fixtures::{LONG, are, was_refused};
use bw_key::Key;
use bw_memory::Alloc;
use bw_model::Pairs;
use bw_page::{Inner, Leaf, PageId};
use std::process::Abort;

// The leaf from the start on and below `c`, with page 1 at its right: a, a long key with a long value, b.
fn three<R: Abort>(rt: &R, alloc: Alloc) -> Leaf {
    let mut pairs = Pairs::new(alloc);
    pairs.push(b"a", b"1").expect(rt, "memory");
    pairs.push(LONG, LONG).expect(rt, "memory");
    pairs.push(b"b", b"3").expect(rt, "memory");
    let (low, high) = (
        bw_fixtures::key(alloc, b"").expect(rt, "memory"),
        bw_fixtures::key(alloc, b"c").expect(rt, "memory"),
    );
    Leaf::from_pairs(low, Some(high), Some(PageId(1)), pairs)
}

// Compares a leaf with its bounds and pairs.
fn is_leaf<R: Abort>(rt: &R, leaf: &Leaf, low: &[u8], high: &[u8], side: u32, wanted: &[TextPair]) {
    assert_equal(rt, leaf.low().bytes(), low);
    assert_equal(rt, leaf.high().map(|end| end.bytes()), Some(high));
    assert_equal(rt, leaf.side(), Some(PageId(side)));
    assert_that(rt, are(leaf.pairs(), wanted));
}

// The pairs of the leaf of three.
const THREE: &[TextPair] = &[(b"a", b"1"), (LONG, LONG), (b"b", b"3")];

// Those from place 1 on.
const UPPER: &[TextPair] = &[(LONG, LONG), (b"b", b"3")];

#[test]
fn a_leaf_is_cut_where_its_upper_half_begins(rt: HostRuntime) {
    let alloc = heap(&rt, rt.alloc());
    let mut leaf = three(&rt, alloc);
    let copy = upper_half(&rt, &leaf, 1).expect(&rt, "memory");
    let half = cut(&rt, &mut leaf, 1).expect(&rt, "memory");
    is_leaf(&rt, &copy, LONG, b"c", 1, UPPER);
    is_leaf(&rt, &half, LONG, b"c", 1, UPPER);
    is_leaf(&rt, &leaf, b"", b"c", 1, &[(b"a", b"1")]);
}

// Cuts the leaf of three pairs where this growth is refused, and compares it after that.
fn leaf_refused<R: Abort>(rt: &R, alloc: Alloc, leaf: &mut Leaf, growth: u64) {
    alloc.refuse(growth);
    assert_that(rt, cut(rt, leaf, 1).is_err());
    assert_equal(rt, alloc.left(), 0);
    is_leaf(rt, leaf, b"", b"c", 1, THREE);
}

// Cuts it where only room that the pairs leave, for their bytes or their ends, isn't given back.
fn leaf_keeps_room<R: Abort>(rt: &R, alloc: Alloc, growth: u64) {
    let mut leaf = three(rt, alloc);
    alloc.refuse(growth);
    assert_that(rt, cut(rt, &mut leaf, 1).is_ok());
    assert_that(rt, was_refused(alloc, growth));
    is_leaf(rt, &leaf, b"", b"c", 1, &[(b"a", b"1")]);
}

#[test]
fn a_leaf_is_whole_after_each_growth_of_a_cut_that_is_refused(rt: HostRuntime) {
    let alloc = heap(&rt, rt.alloc());
    let mut leaf = three(&rt, alloc);
    leaf_refused(&rt, alloc, &mut leaf, 1);
    leaf_refused(&rt, alloc, &mut leaf, 2);
    leaf_refused(&rt, alloc, &mut leaf, 3);
    leaf_keeps_room(&rt, alloc, 4);
    leaf_keeps_room(&rt, alloc, 5);
}

// Narrows a leaf to an end behind its low key.
fn narrow<R: Abort>(rt: &R, leaf: &mut Leaf, end: Key, side: PageId) {
    assert!(rt; *leaf.low() < end);
    leaf.narrow(end, side);
}

#[test]
fn a_leaf_is_narrowed_with_no_memory(rt: HostRuntime) {
    let alloc = heap(&rt, rt.alloc());
    let mut leaf = three(&rt, alloc);
    let end = key(&rt, alloc, b"b");
    alloc.refuse(1);
    narrow(&rt, &mut leaf, end, PageId(7));
    assert_equal(&rt, alloc.left(), 1);
    is_leaf(&rt, &leaf, b"", b"b", 7, &[(b"a", b"1"), (LONG, LONG)]);
}

#[test]
fn an_inner_page_is_cut_where_its_upper_half_begins(rt: HostRuntime) {
    let alloc = heap(&rt, rt.alloc());
    let mut inner = three_children(&rt, alloc);
    let copy = upper_half_inner(&rt, &inner, 1).expect(&rt, "memory");
    let half = cut_inner(&rt, &mut inner, 1).expect(&rt, "memory");
    has_children(&rt, &copy, &[(LONG, 5), (b"c", 1)]);
    has_children(&rt, &half, &[(LONG, 5), (b"c", 1)]);
    has_children(&rt, &inner, &[(b"", 0)]);
    assert_that(&rt, half.low().bytes() == LONG);
    assert_that(&rt, half.high().is_none() && inner.high().is_none());
}

// Cuts the page of three children where this growth is refused, and compares it after that.
fn inner_refused<R: Abort>(rt: &R, alloc: Alloc, inner: &mut Inner, growth: u64) {
    alloc.refuse(growth);
    assert_that(rt, cut_inner(rt, inner, 1).is_err());
    assert_equal(rt, alloc.left(), 0);
    has_children(rt, inner, &[(b"", 0), (LONG, 5), (b"c", 1)]);
}

// Cuts it where only the room that the children leave isn't given back: that for their ends, since no byte of a separator
// stays.
fn inner_keeps_room<R: Abort>(rt: &R, alloc: Alloc, growth: u64) {
    let mut inner = three_children(rt, alloc);
    alloc.refuse(growth);
    assert_that(rt, cut_inner(rt, &mut inner, 1).is_ok());
    assert_that(rt, was_refused(alloc, growth));
    has_children(rt, &inner, &[(b"", 0)]);
}

#[test]
fn an_inner_page_is_whole_after_each_growth_of_a_cut_that_is_refused(rt: HostRuntime) {
    let alloc = heap(&rt, rt.alloc());
    let mut inner = three_children(&rt, alloc);
    inner_refused(&rt, alloc, &mut inner, 1);
    inner_refused(&rt, alloc, &mut inner, 2);
    inner_refused(&rt, alloc, &mut inner, 3);
    inner_keeps_room(&rt, alloc, 4);
}

// Narrows an inner page to an end behind its low key.
fn narrow_inner<R: Abort>(rt: &R, inner: &mut Inner, end: Key, side: PageId) {
    assert!(rt; *inner.low() < end);
    inner.narrow(end, side);
}

#[test]
fn an_inner_page_is_narrowed_with_no_memory(rt: HostRuntime) {
    let alloc = heap(&rt, rt.alloc());
    let mut inner = from_start_and_c(&rt, alloc);
    let end = key(&rt, alloc, b"c");
    alloc.refuse(1);
    narrow_inner(&rt, &mut inner, end, PageId(7));
    assert_equal(&rt, alloc.left(), 1);
    has_children(&rt, &inner, &[(b"", 0)]);
    assert_equal(
        &rt,
        inner.high().map(|end| end.bytes()),
        Some(b"c".as_slice()),
    );
    assert_equal(&rt, inner.side(), Some(PageId(7)));
}

// Above the other long text and below `c`, and above `c`.
const LONGER: &[u8] = b"b text of more than 24 bytes";

const LONGEST: &[u8] = b"d text of more than 24 bytes";

// The page from the start on and below the last long text, with page 7 at its right: two children before one of a long
// separator, and one behind it.
fn four_children<R: Abort>(rt: &R, alloc: Alloc) -> Inner {
    let three = three_children(rt, alloc);
    let sep = key(rt, alloc, LONGER);
    let mut inner = with_child(rt, &three, &sep, PageId(6)).expect(rt, "memory");
    narrow_inner(rt, &mut inner, key(rt, alloc, LONGEST), PageId(7));
    inner
}

// Compares a page of this level with its lower end and its children. It ends where the page of four does.
fn is_inner<R: Abort>(rt: &R, inner: &Inner, low: &[u8], wanted: &[(&'static [u8], u32)]) {
    assert_equal(rt, inner.level(), 1);
    assert_equal(rt, inner.low().bytes(), low);
    assert_equal(rt, inner.high().map(|end| end.bytes()), Some(LONGEST));
    assert_equal(rt, inner.side(), Some(PageId(7)));
    has_children(rt, inner, wanted);
}

// The children of the page of four.
const FOUR: &[(&[u8], u32)] = &[(b"", 0), (LONG, 5), (LONGER, 6), (b"c", 1)];

// Cuts the page of four children where this growth is refused, and compares it after that.
fn four_refused<R: Abort>(rt: &R, alloc: Alloc, inner: &mut Inner, growth: u64) {
    alloc.refuse(growth);
    assert_that(rt, cut_inner(rt, inner, 2).is_err());
    assert_equal(rt, alloc.left(), 0);
    is_inner(rt, inner, b"", FOUR);
}

// Cuts it where this growth doesn't matter, and compares both parts. How many growths were left then until that one.
fn four_cut<R: Abort>(rt: &R, alloc: Alloc, growth: u64) -> u64 {
    let mut inner = four_children(rt, alloc);
    alloc.refuse(growth);
    let half = cut_inner(rt, &mut inner, 2).expect(rt, "memory");
    let left = alloc.left();
    alloc.refuse(0);
    is_inner(rt, &inner, b"", &FOUR[..2]);
    is_inner(rt, &half, LONGER, &FOUR[2..]);
    left
}

// One growth for each bound of the half, two for its children, and two that give back room for separators and for ends.
#[test]
fn a_cut_between_long_bounds_takes_six_growths(rt: HostRuntime) {
    let alloc = heap(&rt, rt.alloc());
    let mut inner = four_children(&rt, alloc);
    for growth in 1..=4 {
        four_refused(&rt, alloc, &mut inner, growth);
    }
    // The one behind it was asked for.
    assert_equal(&rt, four_cut(&rt, alloc, 5), u64::MAX);
    assert_equal(&rt, four_cut(&rt, alloc, 6), 0);
    assert_equal(&rt, four_cut(&rt, alloc, 7), 1);
}
