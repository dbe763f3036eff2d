// Leaves.
use super::making::{TextPair, c_with, heap, joined, key, up_to_c, upper_half};
use crate::tests::assertions::{assert_equal, assert_that};
use bw_fixtures::are;
use bw_key::Key;
use bw_memory::Alloc;
use bw_model::Pairs;
use bw_page::{Leaf, PageId};
use std::process::Abort;

// The leaf of the keys from `c` on and below `h`, with page 7 at its right.
fn c_to_h<R: Abort>(rt: &R, alloc: Alloc) -> Leaf {
    let mut pairs = Pairs::new(alloc);
    pairs.push(b"c", b"3").expect(rt, "memory");
    pairs.push(b"d", b"4").expect(rt, "memory");
    pairs.push(b"dd", b"").expect(rt, "memory");
    pairs.push(b"f", b"6").expect(rt, "memory");
    let (low, high) = (
        bw_fixtures::key(alloc, b"c").expect(rt, "memory"),
        bw_fixtures::key(alloc, b"h").expect(rt, "memory"),
    );
    Leaf::from_pairs(low, Some(high), Some(PageId(7)), pairs)
}

// Compares a leaf's pairs with the bytes of the wanted ones.
fn has_pairs<R: Abort>(rt: &R, leaf: &Leaf, wanted: &[TextPair]) {
    assert_that(rt, are(leaf.pairs(), wanted));
}

// Compares the low key of a leaf, which is the last one.
fn is_last_from<R: Abort>(rt: &R, leaf: &Leaf, low: &[u8]) {
    assert_equal(rt, leaf.low().bytes(), low);
    assert_that(rt, leaf.high().is_none());
    assert_that(rt, leaf.side().is_none());
}

#[test]
fn an_empty_leaf_has_all_keys_and_no_pair(rt: HostRuntime) {
    let alloc = heap(&rt, rt.alloc());
    alloc.refuse(1);
    let leaf = Leaf::empty(alloc);
    assert_equal(&rt, alloc.left(), 1);
    is_last_from(&rt, &leaf, b"");
    has_pairs(&rt, &leaf, &[]);
    assert_equal(&rt, leaf.find(&key(&rt, alloc, b"")), None);
}

#[test]
fn a_leaf_has_its_bounds_and_pairs(rt: HostRuntime) {
    let alloc = heap(&rt, rt.alloc());
    let leaf = c_to_h(&rt, alloc);
    assert_equal(&rt, leaf.low().bytes(), b"c".as_slice());
    assert_equal(
        &rt,
        leaf.high().map(|high| high.bytes()),
        Some(b"h".as_slice()),
    );
    assert_equal(&rt, leaf.side(), Some(PageId(7)));
    has_pairs(
        &rt,
        &leaf,
        &[(b"c", b"3"), (b"d", b"4"), (b"dd", b""), (b"f", b"6")],
    );
}

// Keys of that leaf with their values, and some that it doesn't have.
const FOUND: &[(&[u8], Option<&[u8]>)] = &[
    (b"c", Some(b"3")),
    (b"d", Some(b"4")),
    (b"dd", Some(b"")),
    (b"f", Some(b"6")),
    (b"", None),
    (b"b", None),
    (b"cc", None),
    (b"e", None),
    (b"g", None),
    (b"h", None),
    (b"z", None),
];

// Compares the value that a leaf has at a key. Finding it takes no memory.
fn has_at<R: Abort>(rt: &R, alloc: Alloc, leaf: &Leaf, bytes: &[u8], wanted: Option<&[u8]>) {
    let key = key(rt, alloc, bytes);
    alloc.refuse(1);
    assert_equal(rt, leaf.find(&key), wanted);
    assert_equal(rt, alloc.left(), 1);
}

// Compares the value that is found from a place on, and the place behind it.
fn finds_near<R: Abort>(
    rt: &R,
    leaf: &Leaf,
    key: &Key,
    near: usize,
    wanted: (Option<&[u8]>, usize),
) {
    let (found, next) = leaf.find_near(key, near);
    assert_equal(rt, found, wanted.0);
    assert_equal(rt, next, wanted.1);
}

#[test]
fn a_value_is_found_from_any_place(rt: HostRuntime) {
    let alloc = heap(&rt, rt.alloc());
    let leaf = c_to_h(&rt, alloc);
    let (there, behind, last) = (
        key(&rt, alloc, b"d"),
        key(&rt, alloc, b"e"),
        key(&rt, alloc, b"g"),
    );
    for near in 0..6 {
        finds_near(&rt, &leaf, &there, near, (Some(b"4".as_slice()), 2));
        finds_near(&rt, &leaf, &behind, near, (None, 3));
        finds_near(&rt, &leaf, &last, near, (None, 4));
    }
}

#[test]
fn a_key_is_found_among_the_pairs_alone(rt: HostRuntime) {
    let alloc = heap(&rt, rt.alloc());
    let leaf = c_to_h(&rt, alloc);
    for (bytes, wanted) in FOUND {
        has_at(&rt, alloc, &leaf, *bytes, *wanted);
    }
}

// Compares the keys of a leaf's range.
fn has_between<R: Abort>(
    rt: &R,
    leaf: &Leaf,
    low: &Key,
    high: Option<&Key>,
    wanted: &[&'static [u8]],
) {
    let pairs = leaf.between(low, high);
    assert!(rt; pairs.len() == wanted.len());
    for (place, key) in wanted.iter().enumerate() {
        assert!(rt; pairs.key_at(place) == *key);
    }
}

#[test]
fn a_range_has_its_pairs_and_takes_no_memory(rt: HostRuntime) {
    let alloc = heap(&rt, rt.alloc());
    let leaf = c_to_h(&rt, alloc);
    let (d, e, f) = (
        key(&rt, alloc, b"d"),
        key(&rt, alloc, b"e"),
        key(&rt, alloc, b"f"),
    );
    alloc.refuse(1);
    has_between(&rt, &leaf, &d, Some(&f), &[b"d", b"dd"]);
    has_between(&rt, &leaf, &e, None, &[b"f"]);
    has_between(&rt, &leaf, &f, Some(&d), &[]);
    assert_equal(&rt, alloc.left(), 1);
}

// Two leaves as one: a 1, b 2, c 3.
fn a_to_c<R: Abort>(rt: &R, alloc: Alloc) -> Leaf {
    let (left, right) = (up_to_c(rt, alloc), c_with(rt, alloc, b"3"));
    joined(rt, &left, &right).expect(rt, "memory")
}

#[test]
fn two_leaves_join(rt: HostRuntime) {
    let alloc = heap(&rt, rt.alloc());
    let leaf = a_to_c(&rt, alloc);
    is_last_from(&rt, &leaf, b"");
    has_pairs(&rt, &leaf, &[(b"a", b"1"), (b"b", b"2"), (b"c", b"3")]);
}

#[test]
fn the_upper_half_begins_with_the_first_pair_that_moves(rt: HostRuntime) {
    let alloc = heap(&rt, rt.alloc());
    let leaf = a_to_c(&rt, alloc);
    let half = upper_half(&rt, &leaf, 1).expect(&rt, "memory");
    is_last_from(&rt, &half, b"b");
    has_pairs(&rt, &half, &[(b"b", b"2"), (b"c", b"3")]);
}

#[test]
fn page_names_are_their_numbers(rt: HostRuntime) {
    assert_equal(&rt, PageId(3), PageId(3));
    assert_ne!(rt; PageId(3), PageId(4));
    assert_equal(&rt, PageId(u32::MAX).0, 4294967295);
}

#[test]
fn a_key_at_a_place_is_one_of_its_own(rt: HostRuntime) {
    let alloc = heap(&rt, rt.alloc());
    let leaf = c_to_h(&rt, alloc);
    assert!(rt; leaf.pairs().len() == 4);
    let key = leaf.key_at(2).expect(&rt, "memory");
    assert!(rt; key.bytes() == b"dd".as_slice());
}
