// More keys changed than a replay leaves beside the pairs of its page.
use super::making::{
    a_and_b, advanced, delete_at, first, heap, heap_within, insert, key, last, pairs_under,
    replay_of,
};
use crate::tests::assertions::{assert_equal, assert_that};
use bw_delta::{Memory, Replay, Write};
use bw_fixtures::{LONG, was_refused};
use bw_key::Key;
use bw_memory::Alloc;
use bw_model::Pairs;
use bw_page::Leaf;
use std::process::Abort;

// What is inserted at stamps 0 to 25, each key with itself as value: not in the order of the keys.
const INSERTED: &[&[u8]] = &[
    b"c", b"o", b"e", b"q", b"g", b"s", b"i", b"u", b"k", b"w", b"m", b"y", b"", LONG, b"d", b"p",
    b"f", b"r", b"h", b"t", b"j", b"v", b"l", b"x", b"n", b"z",
];

// What is deleted at stamps 26 to 36, one of a leaf with a 1 and b 2 among them.
const DELETED: &[&[u8]] = &[
    b"c", b"b", b"d", b"f", b"h", b"j", b"l", b"n", b"p", b"r", b"t",
];

// What is left behind stamp 36.
const LEFT: &[(&[u8], &[u8])] = &[
    (b"", b""),
    (b"a", b"1"),
    (LONG, LONG),
    (b"e", b"e"),
    (b"g", b"g"),
    (b"i", b"i"),
    (b"k", b"k"),
    (b"m", b"m"),
    (b"o", b"o"),
    (b"q", b"q"),
    (b"s", b"s"),
    (b"u", b"u"),
    (b"v", b"v"),
    (b"w", b"w"),
    (b"x", b"x"),
    (b"y", b"y"),
    (b"z", b"z"),
];

// The write of a key with this stamp: an insert, or behind stamp 25 a delete.
fn write_at<R: Abort>(rt: &R, alloc: Alloc, stamp: usize, bytes: &[u8]) -> Write {
    if stamp < INSERTED.len() {
        return insert(rt, alloc, stamp as u64, bytes, bytes);
    }
    delete_at(rt, alloc, stamp as u64, bytes)
}

// All writes.
fn writes<R: Abort>(rt: &R, alloc: Alloc) -> Vec<Write, Alloc> {
    let mut writes = Vec::new(alloc);
    for (stamp, bytes) in INSERTED.iter().chain(DELETED).enumerate() {
        let write = write_at(rt, alloc, stamp, bytes);
        writes.push(write).expect(rt, "memory");
    }
    writes
}

// References to them.
fn lent<'a, R: Abort>(rt: &R, alloc: Alloc, writes: &'a [Write]) -> Vec<&'a Write, Alloc> {
    let mut lent = Vec::new(alloc);
    for write in writes {
        lent.push(write).expect(rt, "memory");
    }
    lent
}

// Takes a replay on to a stamp, and compares its pairs with those that are merged at once.
fn compare_at<'a, R: Abort>(
    rt: &R,
    alloc: Alloc,
    replay: Replay<'a>,
    leaf: &Leaf,
    writes: &[&Write],
    stamp: u64,
) -> Replay<'a> {
    let least = key(rt, alloc, b"");
    let replay = advanced(rt, replay, stamp).expect(rt, "memory");
    let read = first(alloc, &replay, (&least, None), 99).expect(rt, "memory");
    let merged = pairs_under(rt, alloc, &[leaf], (&least, None), writes, stamp);
    assert_that(rt, read.all().is_same(&merged.expect(rt, "memory").all()));
    replay
}

// Compares a replay of the writes as of each stamp.
fn compare<'a, R: Abort>(rt: &R, alloc: Alloc, leaf: &'a Leaf, writes: &[&'a Write]) {
    let mut replay = replay_of(rt, alloc, &[leaf], None, writes).expect(rt, "memory");
    for stamp in 0..38 {
        replay = compare_at(rt, alloc, replay, leaf, writes, stamp);
    }
}

#[test]
fn many_changes_are_read_as_of_each_stamp(rt: HostRuntime) {
    let alloc = heap(&rt, rt.alloc());
    let leaf = a_and_b(&rt, alloc);
    let writes = writes(&rt, alloc);
    compare(&rt, alloc, &leaf, &lent(&rt, alloc, &writes));
}

// The last pairs as of a stamp behind all writes, to which a replay goes at once.
fn read_back<R: Abort>(
    rt: &R,
    alloc: Alloc,
    leaf: &Leaf,
    least: &Key,
    writes: &[&Write],
) -> Result<Pairs, Memory> {
    let replay = replay_of(rt, alloc, &[leaf], None, writes)?;
    let replay = advanced(rt, replay, 37)?;
    last(alloc, &replay, (least, None), 99)
}

// Whether the pairs are those that are left, the greatest key first.
fn are_left(pairs: &Pairs) -> bool {
    if pairs.len() != LEFT.len() {
        return false;
    }
    for (place, (key, value)) in LEFT.iter().rev().enumerate() {
        if pairs.key_at(place) != *key || pairs.value_at(place) != *value {
            return false;
        }
    }
    true
}

// Reads back where this growth is refused: what is left, or nothing where memory was asked for that is needed. It answers
// whether a growth was refused that isn't.
fn is_forgiven<R: Abort>(rt: &R, left: Result<Pairs, Memory>) -> bool {
    match left {
        Ok(pairs) => {
            assert_that(rt, are_left(&pairs));
            true
        }
        Err(_) => false,
    }
}

#[test]
fn each_growth_of_many_changes_is_refused(rt: HostRuntime) {
    let alloc = heap(&rt, rt.alloc());
    let (leaf, least) = (a_and_b(&rt, alloc), key(&rt, alloc, b""));
    let writes = writes(&rt, alloc);
    let lent = lent(&rt, alloc, &writes);
    let mut forgiven: u64 = 0;
    for growth in 1..200 {
        alloc.refuse(growth);
        let left = read_back(&rt, alloc, &leaf, &least, &lent);
        let is_read = is_forgiven(&rt, left);
        if !was_refused(alloc, growth) {
            assert_that(&rt, is_read);
            assert_that(&rt, forgiven > 0);
            return;
        }
        forgiven = forgiven.saturating_add(is_read as u64);
    }
    panic!(rt; "no run met no refusal")
}

// Reads back what is left behind all writes, which stands in a list of its own then, in two growths.
fn is_read_in_two<R: Abort>(rt: &R, alloc: Alloc, leaf: &Leaf, writes: &[&Write]) {
    let least = key(rt, alloc, b"");
    let replay = replay_of(rt, alloc, &[leaf], None, writes).expect(rt, "memory");
    let replay = advanced(rt, replay, 37).expect(rt, "memory");
    alloc.refuse(3);
    let left = last(alloc, &replay, (&least, None), 99).expect(rt, "memory");
    assert_equal(rt, alloc.left(), 1);
    assert_that(rt, are_left(&left));
}

#[test]
fn a_read_back_makes_its_room_at_once(rt: HostRuntime) {
    let alloc = heap(&rt, rt.alloc());
    let leaf = a_and_b(&rt, alloc);
    let writes = writes(&rt, alloc);
    is_read_in_two(&rt, alloc, &leaf, &lent(&rt, alloc, &writes));
}

// How many bytes more are in use once a replay over a leaf with a 1 and b 2 passed so many writes, first this many of them.
fn used_by<R: Abort>(
    rt: &R,
    alloc: Alloc,
    leaf: &Leaf,
    writes: &[&Write],
    stamps: [u64; 2],
) -> u64 {
    let replay = replay_of(rt, alloc, &[leaf], None, writes).expect(rt, "memory");
    let before = alloc.used();
    let replay = advanced(rt, replay, stamps[0]).expect(rt, "memory");
    let replay = advanced(rt, replay, stamps[1]).expect(rt, "memory");
    assert_equal(rt, replay.stamp(), stamps[1]);
    alloc.used().saturating_sub(before)
}

// Up to eight changes, and an eighth of the pairs, lie beside the pairs, in one block of a map; with one more all pairs lie in a
// list of their own, which takes the bytes of their keys and values and eight for each.
#[test]
fn many_changes_are_made_in_a_copy(rt: HostRuntime) {
    let alloc = heap_within(&rt, rt.alloc(), 65536);
    let leaf = a_and_b(&rt, alloc);
    let writes = writes(&rt, alloc);
    let lent = lent(&rt, alloc, &writes);
    let beside = used_by(&rt, alloc, &leaf, &lent, [0, 1]);
    assert_that(&rt, beside > 0);
    assert_equal(&rt, used_by(&rt, alloc, &leaf, &lent, [1, 8]), beside);
    assert_equal(&rt, used_by(&rt, alloc, &leaf, &lent, [1, 9]), 11 * 10);
    assert_equal(&rt, used_by(&rt, alloc, &leaf, &lent, [10, 10]), 12 * 10);
    // Over 14 pairs, two of them of other lengths, nine more are few.
    assert_equal(&rt, used_by(&rt, alloc, &leaf, &lent, [12, 12]), 14 * 10);
}
