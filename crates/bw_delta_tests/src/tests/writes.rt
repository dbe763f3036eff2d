// Whose memory a write has, how much, and what it does.
use super::making::{heap, heap_within, key, value};
use crate::tests::assertions::{assert_equal, assert_that};
use bw_delta::{Delta, Memory, Op, Write};
use bw_fixtures::LONG;
use bw_memory::Alloc;
use std::process::Abort;

// A value of 26 bytes, which takes memory by itself.
const OTHER: &[u8] = b"abcdefghijklmnopqrstuvwxyz";

// One that a swap doesn't wait for.
const THIRD: &[u8] = b"x";

// A swap at a key of 28 bytes, of a value of as many for one of 26.
fn swap<R: Abort>(rt: &R, alloc: Alloc) -> Op {
    let (old, new) = (value(rt, alloc, LONG), value(rt, alloc, OTHER));
    Op::SwapIf(key(rt, alloc, LONG), old, new)
}

// Whether a write is that swap with stamp 7.
fn is_swap(write: &Write) -> bool {
    write.stamp() == 7
        && write.key() == LONG
        && write.effect(Some(LONG)) == Some(OTHER)
        && write.effect(Some(OTHER)) == Some(OTHER)
        && write.effect(Some(THIRD)) == Some(THIRD)
        && write.effect(None).is_none()
}

// The write of an operation.
fn write_of(alloc: Alloc, op: &Op) -> Result<Option<Write>, Memory> {
    Write::from_op(alloc, op, 7, Write::size_of_op(op))
}

// Makes the write of an operation in a heap, and drops it.
fn write_in<R: Abort>(rt: &R, alloc: Alloc, op: &Op) {
    match write_of(alloc, op).expect(rt, "memory") {
        Some(write) => {
            assert_that(rt, is_swap(&write));
            assert_equal(rt, alloc.used(), 82);
        }
        None => panic!(rt; "a swap writes"),
    }
}

#[test]
fn a_write_has_the_memory_of_its_own_heap(rt: HostRuntime) {
    let ops = heap(&rt, rt.alloc());
    let own = heap_within(&rt, rt.alloc(), 82);
    let op = swap(&rt, ops);
    ops.refuse(1);
    write_in(&rt, own, &op);
    assert_equal(&rt, ops.left(), 1);
    assert_equal(&rt, own.used(), 0);
}

// Whether the write of an operation was refused.
fn is_refused(alloc: Alloc, op: &Op) -> bool {
    write_of(alloc, op).err() == Some(Memory)
}

#[test]
fn a_write_takes_one_growth_for_all_its_bytes(rt: HostRuntime) {
    let alloc = heap(&rt, rt.alloc());
    let op = swap(&rt, alloc);
    alloc.refuse(1);
    assert_that(&rt, is_refused(alloc, &op));
    assert_equal(&rt, alloc.left(), 0);
    alloc.refuse(2);
    assert_that(&rt, !is_refused(alloc, &op));
    assert_equal(&rt, alloc.left(), 1);
}

// An upsert of 16 bytes.
fn upsert<R: Abort>(rt: &R, alloc: Alloc, at: &[u8]) -> Op {
    Op::Upsert(key(rt, alloc, at), value(rt, alloc, &OTHER[..16]))
}

#[test]
fn a_key_and_a_value_of_24_bytes_together_take_no_memory(rt: HostRuntime) {
    let alloc = heap(&rt, rt.alloc());
    let short = upsert(&rt, alloc, b"abcdefgh");
    let long = upsert(&rt, alloc, b"abcdefghi");
    alloc.refuse(1);
    assert_that(&rt, !is_refused(alloc, &short));
    assert_equal(&rt, alloc.left(), 1);
    assert_that(&rt, is_refused(alloc, &long));
}

// Compares the size of an operation.
fn has_size<R: Abort>(rt: &R, op: &Op, size: usize) {
    assert_equal(rt, Write::size_of_op(op), size);
}

#[test]
fn the_size_of_an_operation_is_that_of_its_key_and_values(rt: HostRuntime) {
    let alloc = heap(&rt, rt.alloc());
    let at = || key(&rt, alloc, LONG);
    let one = || value(&rt, alloc, THIRD);
    has_size(&rt, &swap(&rt, alloc), 82);
    has_size(&rt, &upsert(&rt, alloc, b"abcdefghi"), 25);
    has_size(&rt, &Op::Insert(at(), one()), 29);
    has_size(&rt, &Op::Update(at(), one()), 29);
    has_size(&rt, &Op::Delete(at()), 28);
    has_size(&rt, &Op::Get(at()), 0);
}

// One with too little room keeps the same bytes, by further growths.
#[test]
fn a_write_in_too_little_room_is_the_same(rt: HostRuntime) {
    let alloc = heap(&rt, rt.alloc());
    let op = swap(&rt, alloc);
    alloc.refuse(2);
    assert_equal(&rt, Write::from_op(alloc, &op, 7, 28).err(), Some(Memory));
    alloc.refuse(0);
    match Write::from_op(alloc, &op, 7, 0).expect(&rt, "memory") {
        Some(write) => assert_that(&rt, is_swap(&write)),
        None => panic!(rt; "a swap writes"),
    }
}

// A write of no value keeps its key alone.
#[test]
fn a_delete_takes_the_bytes_of_its_key(rt: HostRuntime) {
    let ops = heap(&rt, rt.alloc());
    let own = heap_within(&rt, rt.alloc(), LONG.len() as u64);
    let op = Op::Delete(key(&rt, ops, LONG));
    let write = write_of(own, &op).expect(&rt, "memory");
    assert_equal(&rt, own.used(), LONG.len() as u64);
    drop(write);
    assert_equal(&rt, own.used(), 0);
}

#[test]
fn a_record_is_72_bytes(rt: HostRuntime) {
    assert_equal(&rt, size_of::<Write>(), 64);
    assert_equal(&rt, size_of::<Delta>(), 72);
}
