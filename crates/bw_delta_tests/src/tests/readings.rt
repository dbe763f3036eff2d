// What stamped writes leave, in each order of the slice.
use super::making::{
    TextPair, delete, delete_at, heap, insert, is_left, key, leaf_of, pairs_under, update, value,
    value_under, write,
};
use crate::tests::assertions::assert_that;
use bw_delta::{Op, Write, contents_are_history};
use bw_fixtures::{are, pair, two, up_to_c};
use bw_key::Key;
use bw_memory::Alloc;
use bw_model::Value;
use bw_page::Leaf;
use std::process::Abort;

// What three writes at `a` leave over a 4, as of each stamp: an update at 7, a delete at 2 and an insert at 5.
const LEFT: &[(u64, Option<&'static [u8]>)] = &[
    (0, Some(b"4")),
    (2, Some(b"4")),
    (5, None),
    (6, Some(b"9")),
    (7, Some(b"9")),
    (8, Some(b"3")),
];

// Whether a value has these bytes, or there is none.
fn is(value: Option<&Value>, wanted: Option<&'static [u8]>) -> bool {
    match (value, wanted) {
        (Some(value), Some(bytes)) => value.bytes() == bytes,
        (None, None) => true,
        _ => false,
    }
}

// Compares what the writes leave over a 4, in this order of the slice.
fn compare<R: Abort>(
    rt: &R,
    alloc: Alloc,
    order: &[&Write],
    stamp: u64,
    wanted: Option<&'static [u8]>,
) {
    let left = value_under(rt, alloc, Some(b"4"), order, stamp).expect(rt, "memory");
    assert_that(rt, is(left.as_ref(), wanted));
}

// Compares what they leave of the leaf with a 4 at `a`.
fn compare_leaf<R: Abort>(
    rt: &R,
    alloc: Alloc,
    order: &[&Write],
    stamp: u64,
    wanted: Option<&'static [u8]>,
) {
    let leaf = leaf_of(rt, alloc, b"4");
    let low = key(rt, alloc, b"");
    let pairs = pairs_under(rt, alloc, &[&leaf], (&low, None), order, stamp);
    assert_that(rt, is_left(&pairs.expect(rt, "memory"), wanted));
}

// Compares both as of each stamp.
fn compare_all<R: Abort>(rt: &R, alloc: Alloc, order: &[&Write]) {
    for (stamp, wanted) in LEFT {
        compare(rt, alloc, order, *stamp, *wanted);
        compare_leaf(rt, alloc, order, *stamp, *wanted);
    }
}

#[test]
fn each_order_of_the_writes_leaves_the_same(rt: HostRuntime) {
    let alloc = heap(&rt, rt.alloc());
    let update = update(&rt, alloc, 7, b"3");
    let delete = delete(&rt, alloc, 2);
    let insert = insert(&rt, alloc, 5, b"a", b"9");
    compare_all(&rt, alloc, &[&update, &delete, &insert]);
    compare_all(&rt, alloc, &[&update, &insert, &delete]);
    compare_all(&rt, alloc, &[&delete, &update, &insert]);
    compare_all(&rt, alloc, &[&delete, &insert, &update]);
    compare_all(&rt, alloc, &[&insert, &update, &delete]);
    compare_all(&rt, alloc, &[&insert, &delete, &update]);
}

// The leaf from `c` on: c 3, e 5.
fn from_c<R: Abort>(rt: &R, alloc: Alloc) -> Leaf {
    let (c, e) = (
        pair(alloc, b"c", b"3").expect(rt, "memory"),
        pair(alloc, b"e", b"5").expect(rt, "memory"),
    );
    let pairs = two(alloc, c, e).expect(rt, "memory");
    let low = bw_fixtures::key(alloc, b"c").expect(rt, "memory");
    Leaf::from_pairs(low, None, None, pairs)
}

// Compares the pairs of a range as of a stamp, under a delete of c at 2, an upsert of a at 0 and an insert of d at 1.
fn compare_range<R: Abort>(
    rt: &R,
    alloc: Alloc,
    range: (&Key, Option<&Key>),
    stamp: u64,
    wanted: &[TextPair],
) {
    let (first, second) = (up_to_c(alloc).expect(rt, "memory"), from_c(rt, alloc));
    let upsert = Op::Upsert(key(rt, alloc, b"a"), value(rt, alloc, b"9"));
    let c = delete_at(rt, alloc, 2, b"c");
    let a = write(rt, alloc, 0, &upsert);
    let d = insert(rt, alloc, 1, b"d", b"4");
    let pairs = pairs_under(rt, alloc, &[&first, &second], range, &[&c, &a, &d], stamp);
    assert_that(rt, are(&pairs.expect(rt, "memory"), wanted));
}

#[test]
fn pairs_and_writes_outside_the_range_count_for_nothing(rt: HostRuntime) {
    let alloc = heap(&rt, rt.alloc());
    let (b, e) = (key(&rt, alloc, b"b"), key(&rt, alloc, b"e"));
    let range = (&b, Some(&e));
    let at_2: &[TextPair] = &[(b"b", b"2"), (b"c", b"3"), (b"d", b"4")];
    compare_range(&rt, alloc, range, 2, at_2);
    compare_range(&rt, alloc, range, 9, &[(b"b", b"2"), (b"d", b"4")]);
}

#[test]
fn all_pairs_are_in_the_range_of_all_keys(rt: HostRuntime) {
    let alloc = heap(&rt, rt.alloc());
    let least = key(&rt, alloc, b"");
    let wanted: &[TextPair] = &[(b"a", b"9"), (b"b", b"2"), (b"d", b"4"), (b"e", b"5")];
    compare_range(&rt, alloc, (&least, None), 9, wanted);
}

#[test]
fn the_law_is_called(_rt: HostRuntime) {
    contents_are_history();
}
