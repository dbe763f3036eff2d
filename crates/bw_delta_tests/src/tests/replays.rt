// The pairs of a page as of stamps that rise.
use super::making::{
    TextPair, a_and_b, advanced, delete, delete_at, first, heap, heap_within, insert, is_left, key,
    last, leaf_of, replay_at, replay_of, update,
};
use crate::tests::assertions::{assert_equal, assert_that};
use bw_delta::{Memory, Replay, Write};
use bw_fixtures::{LONG, are, was_refused};
use bw_key::Key;
use bw_memory::Alloc;
use bw_model::Pairs;
use bw_page::Leaf;
use std::process::Abort;

// Compares the first pairs of a replay from a key on.
fn has_first<R: Abort>(
    rt: &R,
    alloc: Alloc,
    replay: &Replay,
    low: &[u8],
    most: u64,
    wanted: &[TextPair],
) {
    let low = key(rt, alloc, low);
    let pairs = first(alloc, replay, (&low, None), most).expect(rt, "memory");
    assert_that(rt, are(&pairs, wanted));
}

// Compares the last pairs of a replay below a key.
fn has_last<R: Abort>(
    rt: &R,
    alloc: Alloc,
    replay: &Replay,
    high: &[u8],
    most: u64,
    wanted: &[TextPair],
) {
    let (low, high) = (key(rt, alloc, b""), key(rt, alloc, high));
    let pairs = last(alloc, replay, (&low, Some(&high)), most).expect(rt, "memory");
    assert_that(rt, are(&pairs, wanted));
}

// Compares the first pairs of a leaf of all keys with a 1 and b 2.
fn compare_firsts<R: Abort>(rt: &R, alloc: Alloc, replay: &Replay) {
    has_first(rt, alloc, replay, b"a", 9, &[(b"a", b"1"), (b"b", b"2")]);
    has_first(rt, alloc, replay, b"a", 1, &[(b"a", b"1")]);
    has_first(rt, alloc, replay, b"b", 9, &[(b"b", b"2")]);
    has_first(rt, alloc, replay, b"b", 0, &[]);
}

// Compares the last pairs of that leaf.
fn compare_lasts<R: Abort>(rt: &R, alloc: Alloc, replay: &Replay) {
    has_last(rt, alloc, replay, b"c", 9, &[(b"b", b"2"), (b"a", b"1")]);
    has_last(rt, alloc, replay, b"b", 9, &[(b"a", b"1")]);
    has_last(rt, alloc, replay, b"c", 1, &[(b"b", b"2")]);
}

#[test]
fn a_leaf_is_read_from_both_ends(rt: HostRuntime) {
    let alloc = heap(&rt, rt.alloc());
    let leaf = a_and_b(&rt, alloc);
    let replay = replay_at(&rt, alloc, &[&leaf], None, &[], 0);
    compare_firsts(&rt, alloc, &replay);
    compare_lasts(&rt, alloc, &replay);
}

#[test]
fn a_leaf_under_a_write_is_read_from_both_ends(rt: HostRuntime) {
    let alloc = heap(&rt, rt.alloc());
    let leaf = leaf_of(&rt, alloc, b"1");
    let insert = insert(&rt, alloc, 0, b"b", b"2");
    let replay = replay_at(&rt, alloc, &[&leaf], None, &[&insert], 1);
    compare_firsts(&rt, alloc, &replay);
    compare_lasts(&rt, alloc, &replay);
}

// Begins a replay of writes over a leaf, and takes it on to a stamp in so many growths.
fn advances_in<R: Abort>(
    rt: &R,
    alloc: Alloc,
    leaf: &Leaf,
    writes: &[&Write],
    (stamp, growths): (u64, u64),
) {
    let replay = replay_of(rt, alloc, &[leaf], None, writes).expect(rt, "memory");
    alloc.refuse(growths.saturating_add(1));
    let _replay = advanced(rt, replay, stamp).expect(rt, "memory");
    assert_equal(rt, alloc.left(), 1);
}

#[test]
fn a_leaf_without_writes_is_read_where_it_stands(rt: HostRuntime) {
    let alloc = heap(&rt, rt.alloc());
    let leaf = a_and_b(&rt, alloc);
    alloc.refuse(1);
    let _replay = replay_at(&rt, alloc, &[&leaf], None, &[], 9);
    assert_equal(&rt, alloc.left(), 1);
}

#[test]
fn a_leaf_takes_no_memory_up_to_its_first_write(rt: HostRuntime) {
    let alloc = heap(&rt, rt.alloc());
    let leaf = leaf_of(&rt, alloc, b"1");
    let delete = delete(&rt, alloc, 5);
    advances_in(&rt, alloc, &leaf, &[&delete], (5, 0));
}

// Compares the pairs of that leaf without a, and with aa 3 and c 4.
fn compare_changed<R: Abort>(rt: &R, alloc: Alloc, replay: &Replay) {
    let changed: &[TextPair] = &[(b"aa", b"3"), (b"b", b"2"), (b"c", b"4")];
    has_first(rt, alloc, replay, b"", 9, changed);
    has_first(rt, alloc, replay, b"", 2, &[(b"aa", b"3"), (b"b", b"2")]);
    has_last(rt, alloc, replay, b"d", 2, &[(b"c", b"4"), (b"b", b"2")]);
    has_last(rt, alloc, replay, b"c", 9, &[(b"b", b"2"), (b"aa", b"3")]);
}

#[test]
fn changes_lie_among_the_pairs_of_a_leaf(rt: HostRuntime) {
    let alloc = heap(&rt, rt.alloc());
    let leaf = a_and_b(&rt, alloc);
    let delete = delete(&rt, alloc, 1);
    let between = insert(&rt, alloc, 2, b"aa", b"3");
    let behind = insert(&rt, alloc, 3, b"c", b"4");
    let writes = &[&delete, &between, &behind];
    compare_changed(
        &rt,
        alloc,
        &replay_at(&rt, alloc, &[&leaf], None, writes, 9),
    );
}

#[test]
fn a_change_takes_no_memory_for_the_pairs_beside_it(rt: HostRuntime) {
    let alloc = heap(&rt, rt.alloc());
    let leaf = leaf_of(&rt, alloc, LONG);
    let insert = insert(&rt, alloc, 0, b"b", b"2");
    advances_in(&rt, alloc, &leaf, &[&insert], (1, 1));
}

// How many bytes more are in use once a replay of a leaf was taken on to 9.
fn used_by<R: Abort>(rt: &R, alloc: Alloc, leaf: &Leaf, writes: &[&Write]) -> u64 {
    let replay = replay_of(rt, alloc, &[leaf], None, writes).expect(rt, "memory");
    let before = alloc.used();
    let replay = advanced(rt, replay, 9).expect(rt, "memory");
    assert_equal(rt, replay.stamp(), 9);
    alloc.used().saturating_sub(before)
}

#[test]
fn a_key_that_comes_and_goes_is_no_change(rt: HostRuntime) {
    let alloc = heap_within(&rt, rt.alloc(), 65536);
    let stays = insert(&rt, alloc, 1, b"b", b"2");
    let comes = insert(&rt, alloc, 2, LONG, LONG);
    let goes = delete_at(&rt, alloc, 3, LONG);
    let (absent, late) = (delete(&rt, alloc, 2), delete(&rt, alloc, 3));
    let empty = Leaf::empty(alloc);
    let used = used_by(&rt, alloc, &empty, &[&stays, &absent, &late]);
    assert_that(&rt, used > 0);
    let again = used_by(&rt, alloc, &empty, &[&stays, &comes, &goes]);
    assert_equal(&rt, again, used);
}

#[test]
fn a_write_without_an_effect_is_no_change(rt: HostRuntime) {
    let alloc = heap(&rt, rt.alloc());
    let leaf = leaf_of(&rt, alloc, LONG);
    let insert = insert(&rt, alloc, 1, b"a", b"2");
    advances_in(&rt, alloc, &leaf, &[&insert], (2, 0));
}

// A replay looks a key up by a copy of it.
#[test]
fn a_write_without_an_effect_at_a_long_key_takes_a_growth(rt: HostRuntime) {
    let alloc = heap(&rt, rt.alloc());
    let leaf = leaf_of(&rt, alloc, b"1");
    let delete = delete_at(&rt, alloc, 1, LONG);
    advances_in(&rt, alloc, &leaf, &[&delete], (2, 1));
}

#[test]
fn of_two_parts_the_first_has_the_value(rt: HostRuntime) {
    let alloc = heap(&rt, rt.alloc());
    let (above, below) = (leaf_of(&rt, alloc, b"9"), a_and_b(&rt, alloc));
    let replay = replay_at(&rt, alloc, &[&above, &below], None, &[], 0);
    has_first(&rt, alloc, &replay, b"", 9, &[(b"a", b"9"), (b"b", b"2")]);
}

// A leaf may reach past the end of its page.
#[test]
fn below_its_end_a_leaf_is_read_with_its_writes(rt: HostRuntime) {
    let alloc = heap(&rt, rt.alloc());
    let (leaf, end) = (a_and_b(&rt, alloc), key(&rt, alloc, b"b"));
    let insert = insert(&rt, alloc, 0, b"aa", b"3");
    let replay = replay_at(&rt, alloc, &[&leaf], Some(&end), &[&insert], 1);
    has_last(&rt, alloc, &replay, b"b", 9, &[(b"aa", b"3"), (b"a", b"1")]);
}

#[test]
fn below_their_end_two_parts_are_read(rt: HostRuntime) {
    let alloc = heap(&rt, rt.alloc());
    let (above, below) = (leaf_of(&rt, alloc, b"9"), a_and_b(&rt, alloc));
    let end = key(&rt, alloc, b"b");
    let replay = replay_at(&rt, alloc, &[&above, &below], Some(&end), &[], 0);
    has_last(&rt, alloc, &replay, b"b", 9, &[(b"a", b"9")]);
}

// What an update to 3 at 7, a delete at 2 and an insert of 9 at 5 leave of a 4 at `a`, as of stamps that rise.
const LEFT: &[(u64, Option<&'static [u8]>)] = &[
    (2, Some(b"4")),
    (3, None),
    (5, None),
    (6, Some(b"9")),
    (8, Some(b"3")),
];

// Takes a replay on to a stamp, and compares its pairs.
fn compare_at<'a, R: Abort>(
    rt: &R,
    alloc: Alloc,
    replay: Replay<'a>,
    least: &Key,
    (stamp, wanted): (u64, Option<&'static [u8]>),
) -> Replay<'a> {
    let replay = advanced(rt, replay, stamp).expect(rt, "memory");
    assert_equal(rt, replay.stamp(), stamp);
    let pairs = first(alloc, &replay, (least, None), 9).expect(rt, "memory");
    assert_that(rt, is_left(&pairs, wanted));
    replay
}

// Compares a replay of the writes as of each stamp.
fn compare<R: Abort>(rt: &R, alloc: Alloc, leaf: &Leaf, writes: &[&Write]) {
    let least = key(rt, alloc, b"");
    let mut replay = replay_of(rt, alloc, &[leaf], None, writes).expect(rt, "memory");
    for row in LEFT {
        replay = compare_at(rt, alloc, replay, &least, *row);
    }
}

#[test]
fn a_replay_goes_on_from_stamp_to_stamp(rt: HostRuntime) {
    let alloc = heap(&rt, rt.alloc());
    let leaf = leaf_of(&rt, alloc, b"4");
    let update = update(&rt, alloc, 7, b"3");
    let delete = delete(&rt, alloc, 2);
    let insert = insert(&rt, alloc, 5, b"a", b"9");
    compare(&rt, alloc, &leaf, &[&update, &delete, &insert]);
    compare(&rt, alloc, &leaf, &[&insert, &update, &delete]);
}

// The pairs as of a stamp, read at once.
fn read_at<R: Abort>(
    rt: &R,
    alloc: Alloc,
    leaf: &Leaf,
    least: &Key,
    writes: &[&Write],
) -> Result<Pairs, Memory> {
    let replay = replay_of(rt, alloc, &[leaf], None, writes)?;
    let replay = advanced(rt, replay, 9)?;
    first(alloc, &replay, (least, None), 9)
}

// What an insert and an update leave of a leaf, where this growth is refused.
fn read_leaf<R: Abort>(rt: &R, alloc: Alloc, growth: u64) -> Result<Pairs, Memory> {
    let leaf = leaf_of(rt, alloc, LONG);
    let least = key(rt, alloc, b"");
    let insert = insert(rt, alloc, 2, LONG, LONG);
    let update = update(rt, alloc, 1, LONG);
    let late = delete(rt, alloc, 9);
    alloc.refuse(growth);
    read_at(rt, alloc, &leaf, &least, &[&late, &insert, &update])
}

#[test]
fn each_growth_of_a_replay_is_refused(rt: HostRuntime) {
    let alloc = heap(&rt, rt.alloc());
    for growth in 1..100 {
        let left = read_leaf(&rt, alloc, growth);
        if !was_refused(alloc, growth) {
            let pairs = left.expect(&rt, "memory");
            assert_that(&rt, are(&pairs, &[(b"a", LONG), (LONG, LONG)]));
            assert_that(&rt, growth > 5);
            return;
        }
        assert_that(&rt, left.is_err());
    }
    panic!(rt; "no run met no refusal")
}
