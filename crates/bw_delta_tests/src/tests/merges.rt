// The pairs of one part merged with the writes, and those of replays, where each write has its effect by itself.
use super::making::{
    are_distinct, first, heap, key, last, leaf_of, pairs_under, replay_at, value, write,
};
use crate::tests::assertions::{assert_equal, assert_that};
use bw_delta::{Op, Write, leaf_as_of};
use bw_fixtures::{LONG, Random, are};
use bw_key::Key;
use bw_memory::Alloc;
use bw_model::{Pairs, Value};
use bw_page::Leaf;
use std::process::Abort;

// Keys of leaves, writes and bounds: one begins another, and one takes memory.
const KEYS: [&[u8]; 6] = [b"a", b"b", b"bb", b"c", LONG, b"d"];

// Values of writes.
const VALUES: [&[u8]; 3] = [b"1", b"2", LONG];

// A key of these.
fn drawn_key<R: Abort>(rt: &R, alloc: Alloc, random: &mut Random) -> Key {
    key(rt, alloc, KEYS[random.below(6)])
}

// A value of these.
fn drawn_value<R: Abort>(rt: &R, alloc: Alloc, random: &mut Random) -> Value {
    value(rt, alloc, VALUES[random.below(3)])
}

// An operation that writes.
fn drawn_op<R: Abort>(rt: &R, alloc: Alloc, random: &mut Random) -> Op {
    let key = drawn_key(rt, alloc, random);
    match random.below(5) {
        0 => Op::Insert(key, drawn_value(rt, alloc, random)),
        1 => Op::Upsert(key, drawn_value(rt, alloc, random)),
        2 => Op::Update(key, drawn_value(rt, alloc, random)),
        3 => Op::Delete(key),
        _ => {
            let old = drawn_value(rt, alloc, random);
            Op::SwapIf(key, old, drawn_value(rt, alloc, random))
        }
    }
}

// Eight writes with stamps below 11, in no order.
fn drawn_writes<R: Abort>(rt: &R, alloc: Alloc, random: &mut Random) -> Vec<Write, Alloc> {
    let first = random.below(11) as u64;
    let mut writes = Vec::new(alloc);
    for at in 0..8 {
        let stamp = (at * 5 + first) % 11;
        let op = drawn_op(rt, alloc, random);
        writes
            .push(write(rt, alloc, stamp, &op))
            .expect(rt, "memory");
    }
    writes
}

// References to writes.
fn refs_to<'a, R: Abort>(rt: &R, alloc: Alloc, writes: &'a [Write]) -> Vec<&'a Write, Alloc> {
    let mut refs = Vec::new(alloc);
    for write in writes {
        refs.push(write).expect(rt, "memory");
    }
    refs
}

// What a replay of the writes has as of a stamp, and the same from the last pair on.
fn replayed<R: Abort>(
    rt: &R,
    alloc: Alloc,
    parts: &[&Leaf],
    (low, high): (&Key, Option<&Key>),
    writes: &[&Write],
    stamp: u64,
) -> (Pairs, Pairs) {
    let replay = replay_at(rt, alloc, parts, high, writes, stamp);
    let first = first(alloc, &replay, (low, high), 99).expect(rt, "memory");
    let last = last(alloc, &replay, (low, high), 99).expect(rt, "memory");
    (first, last)
}

// Whether one list is the other, turned round.
fn are_turned(pairs: &Pairs, turned: &Pairs) -> bool {
    if pairs.len() != turned.len() {
        return false;
    }
    let count = pairs.len();
    for place in 0..count {
        let behind = count - 1 - place;
        if pairs.key_at(place) != turned.key_at(behind) {
            return false;
        }
        if pairs.value_at(place) != turned.value_at(behind) {
            return false;
        }
    }
    true
}

// Compares what the writes leave of a leaf with what replays have of it, alone and with an empty one.
fn compare_at<R: Abort>(
    rt: &R,
    alloc: Alloc,
    (leaf, empty): (&Leaf, &Leaf),
    bounds: (&Key, Option<&Key>),
    writes: &[&Write],
    stamp: u64,
) {
    let merged = pairs_under(rt, alloc, &[leaf], bounds, writes, stamp);
    let merged = merged.expect(rt, "memory");
    let (first, last) = replayed(rt, alloc, &[leaf], bounds, writes, stamp);
    assert_equal(rt, &merged, &first);
    assert_that(rt, are_turned(&merged, &last));
    let (first, last) = replayed(rt, alloc, &[leaf, empty], bounds, writes, stamp);
    assert_equal(rt, &merged, &first);
    assert_that(rt, are_turned(&merged, &last));
}

// Compares them as of each stamp.
fn compare_bounds<R: Abort>(
    rt: &R,
    alloc: Alloc,
    leaves: (&Leaf, &Leaf),
    bounds: (&Key, Option<&Key>),
    writes: &[&Write],
) {
    for stamp in 0..12 {
        compare_at(rt, alloc, leaves, bounds, writes, stamp);
    }
}

// Compares them over all keys, and from a key on, below one, and between the two.
fn compare<R: Abort>(rt: &R, alloc: Alloc, leaves: (&Leaf, &Leaf), writes: &[&Write]) {
    let least = key(rt, alloc, b"");
    let (low, high) = (key(rt, alloc, b"b"), key(rt, alloc, b"cc"));
    compare_bounds(rt, alloc, leaves, (&least, None), writes);
    compare_bounds(rt, alloc, leaves, (&low, None), writes);
    compare_bounds(rt, alloc, leaves, (&least, Some(&high)), writes);
    compare_bounds(rt, alloc, leaves, (&low, Some(&high)), writes);
}

// The leaf of all keys with what writes leave of no pair.
fn leaf_under<R: Abort>(rt: &R, alloc: Alloc, empty: &Leaf, writes: &[&Write]) -> Leaf {
    let least = bw_fixtures::key(alloc, b"").expect(rt, "memory");
    assert!(rt; are_distinct(writes));
    let pairs = leaf_as_of(alloc, &[empty, empty], &least, None, writes, 11).expect(rt, "memory");
    Leaf::from_pairs(least, None, None, pairs)
}

// The leaf of all keys with what random writes leave of no pair.
fn drawn_leaf<R: Abort>(rt: &R, alloc: Alloc, empty: &Leaf, random: &mut Random) -> Leaf {
    let writes = drawn_writes(rt, alloc, random);
    leaf_under(rt, alloc, empty, &refs_to(rt, alloc, &writes))
}

// Compares what random writes leave of a random leaf.
fn compare_drawn<R: Abort>(rt: &R, alloc: Alloc, empty: &Leaf, random: &mut Random) {
    let leaf = drawn_leaf(rt, alloc, empty, random);
    let writes = drawn_writes(rt, alloc, random);
    let refs = refs_to(rt, alloc, &writes);
    compare(rt, alloc, (&leaf, empty), &refs);
}

#[test]
fn merged_pairs_are_those_of_replays(rt: HostRuntime) {
    let alloc = heap(&rt, rt.alloc());
    let empty = Leaf::empty(alloc);
    let mut random = Random::new(7);
    for _ in 0..100 {
        compare_drawn(&rt, alloc, &empty, &mut random);
    }
}

#[test]
fn writes_over_an_empty_leaf_are_those_of_replays(rt: HostRuntime) {
    let alloc = heap(&rt, rt.alloc());
    let empty = Leaf::empty(alloc);
    let writes = drawn_writes(&rt, alloc, &mut Random::new(3));
    let refs = refs_to(&rt, alloc, &writes);
    compare(&rt, alloc, (&empty, &empty), &refs);
}

#[test]
fn a_leaf_without_writes_is_copied_in_two_growths(rt: HostRuntime) {
    let alloc = heap(&rt, rt.alloc());
    let leaf = leaf_of(&rt, alloc, b"1");
    let least = key(&rt, alloc, b"");
    alloc.refuse(3);
    let pairs = pairs_under(&rt, alloc, &[&leaf], (&least, None), &[], 9);
    assert_equal(&rt, alloc.left(), 1);
    assert_that(&rt, are(&pairs.expect(&rt, "memory"), &[(b"a", b"1")]));
}
