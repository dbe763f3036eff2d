// Sweeps that are refused again and again: each page is due once, so the list of them doesn't grow.
use super::maker::Maker;
use super::records::leaves;
use crate::tests::assertions::assert_equal;
use bw_batch::{Index, Op, OpenGate, Options, Refusal, Value};
use bw_memory::{Alloc, Heap};
use std::process::Abort;
use std::thread::Threads;

// The limit of the index's heap, in bytes.
const LIMIT: u64 = 1 << 20;

// How many of them are left: more than some lists of pages take, and fewer than the long value has.
const ROOM: u64 = 900;

// The value at a.
const LONG: [u8; 1000] = [7; 1000];

// How many sweeps are refused.
const SWEEPS: u32 = 100;

// Seventeen letters on small pages, with a write of the long value over the first leaf. That leaf, and the page above it, which
// was split, begin at the least key, and both have records. One operation more makes a sweep due.
fn seventeen<R: Abort + Threads + Sync>(rt: &R, make: &Maker<R>, alloc: Alloc) -> Index {
    let options = Options::new(1, 64, 1, 4, 1, 26, 26).expect(rt, "options");
    let mut index = Index::new(alloc, options).expect(rt, "an index");
    leaves(rt, &mut index, &make.inserts(b'q'), 25);
    let long = Value::new(alloc, &LONG).expect(rt, "a value");
    let write = [Op::Upsert(make.key(b'a'), long)];
    leaves(rt, &mut index, &write, 26);
    index
}

// Takes memory until little is left.
fn fill<R: Abort>(rt: &R, alloc: Alloc) -> Vec<u8, Alloc> {
    let left = LIMIT.saturating_sub(alloc.used());
    let bytes = left.saturating_sub(ROOM);
    Vec::with_capacity(alloc, bytes as usize).expect(rt, "memory")
}

// Runs a batch before which the sweep is refused where it would consolidate the first leaf. How many bytes are in use then.
fn is_refused<R: Abort + Threads + Sync>(
    rt: &R,
    alloc: Alloc,
    index: &mut Index,
    ops: &[Op],
) -> u64 {
    match index.run(rt, ops, &OpenGate) {
        Ok(_) => panic!(rt; "a sweep without memory"),
        Err(refusal) => assert_equal(rt, refusal, Refusal::Memory),
    }
    assert_equal(rt, index.tree().records(), 26);
    alloc.used()
}

// Has sweeps refused in turn. The first one lists the pages that are due, the second one adds them to that list, and from there
// on no more memory is in use.
fn are_refused<R: Abort + Threads + Sync>(rt: &R, alloc: Alloc, index: &mut Index, ops: &[Op]) {
    let _full = fill(rt, alloc);
    is_refused(rt, alloc, index, ops);
    let used = is_refused(rt, alloc, index, ops);
    for _ in 2..SWEEPS {
        assert_equal(rt, is_refused(rt, alloc, index, ops), used);
    }
}

#[test]
fn a_hundred_refused_sweeps_list_each_page_once(rt: HostRuntime) {
    let make = Maker::new(&rt, rt.alloc());
    let alloc = Heap::within(rt.alloc(), LIMIT)
        .leak(rt.alloc())
        .expect(&rt, "a heap");
    let mut index = seventeen(&rt, &make, alloc);
    let ops = [make.get(b'a')];
    are_refused(&rt, alloc, &mut index, &ops);
    leaves(&rt, &mut index, &ops, 0);
}
