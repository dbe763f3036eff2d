// How many records there are: one for each write, each split and each index entry since the last sweep.
use super::maker::Maker;
use crate::tests::assertions::{assert_equal, assert_that};
use bw_batch::{Index, Op, OpenGate, Options};
use bw_tree::PageShape;
use std::process::Abort;
use std::thread::Threads;

/// Runs a batch, behind which there are so many records.
pub fn leaves<R: Abort + Threads + Sync>(rt: &R, index: &mut Index, ops: &[Op], records: usize) {
    let done = index.run(rt, ops, &OpenGate).expect(rt, "memory");
    assert_that(rt, !done.tidy.stopped);
    assert_equal(rt, index.tree().records(), records);
}

// Whether a page is the leaf of the keys below d, with three pairs, two writes over them.
fn is_first(page: &PageShape) -> bool {
    let ends = match &page.high {
        Some(high) => high.bytes() == b"d".as_slice(),
        None => false,
    };
    page.level == 0 && page.low.bytes().is_empty() && ends && page.pairs == 3 && page.writes == 2
}

#[test]
fn splits_and_entries_make_a_sweep_due(rt: HostRuntime) {
    let make = Maker::new(&rt, rt.alloc());
    let options = Options::new(4, 64, 2, 4, 0, 12, 19).expect(&rt, "options");
    let mut index = Index::new(make.alloc, options).expect(&rt, "an index");
    // 12 writes; the splits of the root and of its two halves; and entries for what is right of those halves.
    leaves(&rt, &mut index, &make.inserts(b'l'), 17);
    leaves(&rt, &mut index, &[make.upsert(b'a', 1)], 18);
    // With two operations more there might be more than 19 records, so a sweep comes first.
    let last = [make.upsert(b'a', 2), make.upsert(b'a', 3)];
    leaves(&rt, &mut index, &last, 2);
    let shape = index.tree().shape().expect(&rt, "memory");
    let first = shape.first().expect(&rt, "a leaf");
    assert_that(&rt, is_first(first));
}

#[test]
fn seventeen_keys_leave_25_records(rt: HostRuntime) {
    let make = Maker::new(&rt, rt.alloc());
    let options = Options::new(4, 64, 1, 4, 1, 65536, 1048576).expect(&rt, "options");
    let mut index = Index::new(make.alloc, options).expect(&rt, "an index");
    // 17 writes; five splits, of which the leaf that was the root and its root then had no entry: they got a root each.
    leaves(&rt, &mut index, &make.inserts(b'q'), 25);
    leaves(&rt, &mut index, &[make.get(b'a')], 25);
}
