// Each growth of memory refused in turn.
use super::making::{delete, heap, insert, key, leaf_of, pairs_under, update, value, value_under};
use crate::tests::assertions::{assert_equal, assert_that};
use bw_delta::Memory;
use bw_fixtures::{LONG, was_refused};
use bw_memory::Alloc;
use bw_model::{Pairs, Value};
use bw_page::Leaf;
use std::process::Abort;

// What a delete and an insert leave of a value, where this growth is refused.
fn read_value<R: Abort>(rt: &R, alloc: Alloc, growth: u64) -> Result<Option<Value>, Memory> {
    let first = delete(rt, alloc, 1);
    let insert = insert(rt, alloc, 2, b"a", LONG);
    let late = delete(rt, alloc, 9);
    alloc.refuse(growth);
    value_under(rt, alloc, Some(LONG), &[&late, &insert, &first], 9)
}

#[test]
fn each_growth_of_a_value_is_refused(rt: HostRuntime) {
    let alloc = heap(&rt, rt.alloc());
    for growth in 1..100 {
        let left = read_value(&rt, alloc, growth);
        if !was_refused(alloc, growth) {
            let left = left.expect(&rt, "memory");
            assert_equal(&rt, left, Some(value(&rt, alloc, LONG)));
            assert_equal(&rt, growth, 3);
            return;
        }
        assert_that(&rt, left.is_err());
    }
    panic!(rt; "no run met no refusal")
}

// What an insert and an update leave of parts, where this growth is refused.
fn read_parts<R: Abort>(
    rt: &R,
    alloc: Alloc,
    parts: &[&Leaf],
    growth: u64,
) -> Result<Pairs, Memory> {
    let low = key(rt, alloc, b"");
    let insert = insert(rt, alloc, 2, LONG, LONG);
    let update = update(rt, alloc, 1, LONG);
    let late = delete(rt, alloc, 9);
    alloc.refuse(growth);
    let writes = &[&late, &insert, &update];
    pairs_under(rt, alloc, parts, (&low, None), writes, 9)
}

// Refuses one growth of a reading. It answers `Memory` where it needs that growth.
fn refuse_growth<R: Abort>(
    rt: &R,
    alloc: Alloc,
    parts: &[&Leaf],
    growth: u64,
    (needed, all): (u64, u64),
) {
    let left = read_parts(rt, alloc, parts, growth);
    assert_equal(rt, was_refused(alloc, growth), growth < all);
    if growth <= needed {
        assert_that(rt, left.is_err());
    } else {
        assert_equal(rt, left.expect(rt, "memory").len(), 2);
    }
}

#[test]
fn each_growth_of_a_leaf_is_refused(rt: HostRuntime) {
    let alloc = heap(&rt, rt.alloc());
    let leaf = leaf_of(&rt, alloc, LONG);
    // The last two give back room that the pairs don't need. Where one is refused, that stays.
    for growth in 1..=7 {
        refuse_growth(&rt, alloc, &[&leaf], growth, (4, 7));
    }
}

#[test]
fn each_growth_of_two_parts_is_refused(rt: HostRuntime) {
    let alloc = heap(&rt, rt.alloc());
    let (leaf, empty) = (leaf_of(&rt, alloc, LONG), Leaf::empty(alloc));
    // A value, a map and two lists for one part, and then what one part takes.
    for growth in 1..=11 {
        refuse_growth(&rt, alloc, &[&leaf, &empty], growth, (8, 11));
    }
}
