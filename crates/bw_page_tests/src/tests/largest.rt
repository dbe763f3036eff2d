// Leaves with the shortest and the longest keys and values that there are, side by side.
use super::making::{TextPair, cut, heap, joined, key, upper_half};
use crate::tests::assertions::{assert_equal, assert_that};
use bw_fixtures::{are, is_run_of};
use bw_memory::Alloc;
use bw_model::Pairs;
use bw_page::{Leaf, PageId};
use std::process::Abort;

// Keys of 64 bytes, the most: k alone, k and an l behind it, and m alone.
const K: &[u8] = &[107; 64];

const KL: &[u8] = b"kkkkkkkkkkkkkkkkkkkkkkkkkkkkkkkkkkkkkkkkkkkkkkkkkkkkkkkkkkkkkkkl";

const M: &[u8] = &[109; 64];

// Values of 1,024 bytes, the most.
const V: &[u8] = &[118; 1024];

const W: &[u8] = &[119; 1024];

// The leaf from the start on and below M: no byte at no byte, V at a, no byte at K, W at KL.
fn below_m<R: Abort>(rt: &R, alloc: Alloc) -> Leaf {
    let mut pairs = Pairs::new(alloc);
    pairs.push(b"", b"").expect(rt, "memory");
    pairs.push(b"a", V).expect(rt, "memory");
    pairs.push(K, b"").expect(rt, "memory");
    pairs.push(KL, W).expect(rt, "memory");
    let (low, high) = (
        bw_fixtures::key(alloc, b"").expect(rt, "memory"),
        bw_fixtures::key(alloc, M).expect(rt, "memory"),
    );
    Leaf::from_pairs(low, Some(high), Some(PageId(1)), pairs)
}

// The last leaf, from M on: V at M, no byte at z.
fn from_m<R: Abort>(rt: &R, alloc: Alloc) -> Leaf {
    let mut pairs = Pairs::new(alloc);
    pairs.push(M, V).expect(rt, "memory");
    pairs.push(b"z", b"").expect(rt, "memory");
    let low = bw_fixtures::key(alloc, M).expect(rt, "memory");
    Leaf::from_pairs(low, None, None, pairs)
}

// Compares a leaf with its lower end and its pairs.
fn is_from<R: Abort>(rt: &R, leaf: &Leaf, low: &[u8], wanted: &[TextPair]) {
    assert_equal(rt, leaf.low().bytes(), low);
    assert_that(rt, are(leaf.pairs(), wanted));
}

// Compares the value that a leaf has at a key.
fn has_at<R: Abort>(rt: &R, alloc: Alloc, leaf: &Leaf, bytes: &[u8], wanted: Option<&[u8]>) {
    let key = key(rt, alloc, bytes);
    assert_equal(rt, leaf.find(&key), wanted);
}

#[test]
fn the_longest_keys_are_found_beside_the_shortest(rt: HostRuntime) {
    let alloc = heap(&rt, rt.alloc());
    let leaf = below_m(&rt, alloc);
    has_at(&rt, alloc, &leaf, b"", Some(b""));
    has_at(&rt, alloc, &leaf, b"a", Some(V));
    has_at(&rt, alloc, &leaf, K, Some(b""));
    has_at(&rt, alloc, &leaf, KL, Some(W));
}

// Just above a key, or just below it: 63 bytes of k, and 64 with another last one.
const BESIDE: &[&[u8]] = &[
    b"\0",
    b"a\0",
    b"kkkkkkkkkkkkkkkkkkkkkkkkkkkkkkkkkkkkkkkkkkkkkkkkkkkkkkkkkkkkkkk",
    b"kkkkkkkkkkkkkkkkkkkkkkkkkkkkkkkkkkkkkkkkkkkkkkkkkkkkkkkkkkkkkkkj",
    b"kkkkkkkkkkkkkkkkkkkkkkkkkkkkkkkkkkkkkkkkkkkkkkkkkkkkkkkkkkkkkkkm",
    M,
];

#[test]
fn no_key_beside_the_longest_is_found(rt: HostRuntime) {
    let alloc = heap(&rt, rt.alloc());
    let leaf = below_m(&rt, alloc);
    for bytes in BESIDE {
        has_at(&rt, alloc, &leaf, *bytes, None);
    }
}

// Compares the keys and values from one key on and below another.
fn has_between<R: Abort>(
    rt: &R,
    alloc: Alloc,
    leaf: &Leaf,
    ends: (&[u8], &[u8]),
    wanted: &[TextPair],
) {
    let low = key(rt, alloc, ends.0);
    let high = key(rt, alloc, ends.1);
    assert_that(rt, is_run_of(&leaf.between(&low, Some(&high)), wanted));
}

#[test]
fn a_range_ends_at_the_shortest_and_the_longest_keys(rt: HostRuntime) {
    let alloc = heap(&rt, rt.alloc());
    let leaf = below_m(&rt, alloc);
    has_between(&rt, alloc, &leaf, (b"", b""), &[]);
    has_between(&rt, alloc, &leaf, (b"", b"a"), &[(b"", b"")]);
    has_between(&rt, alloc, &leaf, (b"\0", K), &[(b"a", V)]);
    has_between(&rt, alloc, &leaf, (K, KL), &[(K, b"")]);
    has_between(&rt, alloc, &leaf, (KL, M), &[(KL, W)]);
    has_between(
        &rt,
        alloc,
        &leaf,
        (b"a", M),
        &[(b"a", V), (K, b""), (KL, W)],
    );
}

#[test]
fn the_upper_half_begins_at_one_of_the_longest_keys(rt: HostRuntime) {
    let alloc = heap(&rt, rt.alloc());
    let leaf = below_m(&rt, alloc);
    let half = upper_half(&rt, &leaf, 2).expect(&rt, "memory");
    is_from(&rt, &half, K, &[(K, b""), (KL, W)]);
    assert_equal(&rt, half.high().map(|end| end.bytes()), Some(M));
    let last = upper_half(&rt, &leaf, 3).expect(&rt, "memory");
    is_from(&rt, &last, KL, &[(KL, W)]);
}

#[test]
fn a_leaf_is_cut_at_one_of_the_longest_keys(rt: HostRuntime) {
    let alloc = heap(&rt, rt.alloc());
    let mut leaf = below_m(&rt, alloc);
    let half = cut(&rt, &mut leaf, 2).expect(&rt, "memory");
    is_from(&rt, &half, K, &[(K, b""), (KL, W)]);
    assert_equal(&rt, half.high().map(|end| end.bytes()), Some(M));
    is_from(&rt, &leaf, b"", &[(b"", b""), (b"a", V)]);
}

// The pairs of both leaves.
const JOINED: &[TextPair] = &[
    (b"", b""),
    (b"a", V),
    (K, b""),
    (KL, W),
    (M, V),
    (b"z", b""),
];

#[test]
fn two_leaves_join_at_one_of_the_longest_keys(rt: HostRuntime) {
    let alloc = heap(&rt, rt.alloc());
    let (left, right) = (below_m(&rt, alloc), from_m(&rt, alloc));
    let leaf = joined(&rt, &left, &right).expect(&rt, "memory");
    is_from(&rt, &leaf, b"", JOINED);
    assert_that(&rt, leaf.high().is_none());
    has_at(&rt, alloc, &leaf, M, Some(V));
    has_at(&rt, alloc, &leaf, b"z", Some(b""));
}
