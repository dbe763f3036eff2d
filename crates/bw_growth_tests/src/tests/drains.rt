// Indexes that lose all their keys.
use super::numbers::{count_absent, delete, get, held, run, upsert};
use super::trees::working;
use crate::tests::assertions::{assert_equal, assert_that};
use bw_batch::{Index, Op, OpenGate, Options};
use bw_fixtures::heap;
use bw_memory::{Alloc, Heap};
use std::process::Abort;
use std::test::Fail;
use std::thread::Threads;

// How many keys there are.
const KEYS: u32 = 100_000;

// The number of the key at a place: rising, or to and fro.
fn number_at(place: u32, is_scattered: bool) -> u32 {
    if is_scattered {
        place.reverse_bits()
    } else {
        place
    }
}

// Upserts of the keys from one place up to another.
fn upserts<R: Abort>(
    rt: &R,
    alloc: Alloc,
    from: u32,
    to: u32,
    is_scattered: bool,
) -> Vec<Op, Alloc> {
    let mut ops = Vec::new(alloc);
    for place in from..to {
        let number = number_at(place, is_scattered);
        ops.push(upsert(rt, alloc, number, place))
            .expect(rt, "memory");
    }
    ops
}

// An index of all keys, put by batches of 10,000.
fn filled<R: Abort + Threads + Sync>(
    rt: &R,
    alloc: Alloc,
    options: Options,
    is_scattered: bool,
) -> Index {
    let mut index = Index::new(alloc, options).expect(rt, "an index");
    for batch in 0..10u32 {
        let from = batch * 10_000;
        let ops = upserts(rt, alloc, from, from + 10_000, is_scattered);
        assert_equal(rt, run(rt, &mut index, &ops), 10_000);
    }
    assert_equal(rt, held(rt, &index), KEYS as usize);
    index
}

// Deletes of the keys from one place up to another.
fn deletes<R: Abort>(
    rt: &R,
    alloc: Alloc,
    from: u32,
    to: u32,
    is_scattered: bool,
) -> Vec<Op, Alloc> {
    let mut ops = Vec::new(alloc);
    for place in from..to {
        let number = number_at(place, is_scattered);
        ops.push(delete(rt, alloc, number)).expect(rt, "memory");
    }
    ops
}

// Deletes all keys by batches of so many, and answers how many were absent.
fn drain<R: Abort + Threads + Sync>(
    rt: &R,
    alloc: Alloc,
    index: &mut Index,
    operations: u32,
    is_scattered: bool,
) -> usize {
    let mut absent = 0usize;
    for batch in 0..KEYS.div_ceil(operations.max(1)) {
        let from = batch.saturating_mul(operations);
        let to = from.saturating_add(operations).min(KEYS);
        let ops = deletes(rt, alloc, from, to, is_scattered);
        let done = index.run(rt, &ops, &OpenGate).expect(rt, "memory");
        assert_that(rt, !done.tidy.stopped);
        absent = absent.saturating_add(count_absent(done.replies.as_slice()));
    }
    absent
}

// How many pages an index has.
fn pages<R: Abort>(rt: &R, index: &Index) -> usize {
    index.shape().expect(rt, "memory").len()
}

// The index has no pair, on one leaf.
fn is_one_empty_leaf<R: Abort>(rt: &R, index: &Index) {
    assert_that(rt, index.is_empty());
    assert_equal(rt, held(rt, index), 0);
    let shape = index.shape().expect(rt, "memory");
    assert_equal(rt, shape.len(), 1);
    assert_equal(rt, index.tree().heads().len(), 1);
    for leaf in &shape {
        assert_that(
            rt,
            leaf.level == 0 && leaf.pairs == 0 && leaf.high.is_none(),
        );
    }
}

// Each leaf has a left neighbour under the same page when it goes, as pages above are merged while others go.
#[test]
fn rising_keys_go_by_small_batches_and_leave_one_leaf(rt: HostRuntime) {
    let alloc = heap(rt.alloc()).expect(&rt, "a heap");
    let mut index = filled(&rt, alloc, working(&rt, 1, 64), false);
    assert_equal(&rt, drain(&rt, alloc, &mut index, 64, false), 0);
    is_one_empty_leaf(&rt, &index);
}

// Runs so many batches of no operation.
fn run_empty<R: Abort + Threads + Sync>(rt: &R, index: &mut Index, batches: u64) {
    for _ in 0..batches {
        assert_equal(rt, run(rt, index, &[]), 0);
    }
}

// A leaf that is the first one under its page stays when its keys go. Once that page is merged, the tidying behind the next
// batch merges the leaf too.
#[test]
fn scattered_keys_go_and_leave_one_leaf_behind_two_more_batches(rt: HostRuntime) {
    let alloc = heap(rt.alloc()).expect(&rt, "a heap");
    let mut index = filled(&rt, alloc, working(&rt, 1, 64), true);
    assert_equal(&rt, drain(&rt, alloc, &mut index, 10_000, true), 0);
    assert_that(&rt, index.is_empty());
    assert_that(&rt, pages(&rt, &index) < 100);
    run_empty(&rt, &mut index, 2);
    is_one_empty_leaf(&rt, &index);
}

// Options with which a sweep is due before any batch of 10,000 operations that finds a record.
fn sweeping<R: Abort>(rt: &R) -> Options {
    Options::new(1, 64, 8, 64, 16, 10_000, 10_000).expect(rt, "options")
}

// Runs a batch of so many reads.
fn read_some<R: Abort + Threads + Sync>(rt: &R, alloc: Alloc, index: &mut Index, reads: u32) {
    let mut ops = Vec::new(alloc);
    for number in 0..reads {
        ops.push(get(rt, alloc, number)).expect(rt, "memory");
    }
    index.run(rt, &ops, &OpenGate).expect(rt, "memory");
}

// Runs 10,000 of them, before which a sweep is due, and which leave no record.
fn sweep<R: Abort + Threads + Sync>(rt: &R, alloc: Alloc, index: &mut Index) {
    assert_that(rt, index.tree().records() > 0);
    read_some(rt, alloc, index, 10_000);
    assert_equal(rt, index.tree().records(), 0);
}

// What a new index keeps of a heap.
fn kept_by_new<R: Abort>(rt: &R, alloc: Alloc) -> u64 {
    let before = alloc.used();
    let index = Index::new(alloc, sweeping(rt)).expect(rt, "an index");
    let kept = alloc.used().saturating_sub(before);
    drop(index);
    kept
}

// At most twice what a new index has, though both lists in segments, of records and of base pages, have had more than one.
fn keeps_little<R: Abort>(rt: &R, alloc: Alloc, index: &Index, new: u64) {
    is_one_empty_leaf(rt, index);
    assert_that(rt, alloc.used() <= new.saturating_mul(2));
}

#[test]
fn an_index_drained_from_the_left_keeps_little_behind_a_sweep(rt: HostRuntime) -> Result<(), Fail> {
    let alloc = Heap::within(rt.alloc(), 1 << 30).leak(rt.alloc())?;
    let new = kept_by_new(&rt, alloc);
    let mut index = filled(&rt, alloc, sweeping(&rt), false);
    assert_equal(&rt, drain(&rt, alloc, &mut index, 64, false), 0);
    sweep(&rt, alloc, &mut index);
    keeps_little(&rt, alloc, &index, new);
    Ok(())
}

// Each batch finds the records of the one before it, so that a sweep comes first. The last leaves go behind the batches of reads.
#[test]
fn an_index_drained_to_and_fro_keeps_little_behind_sweeps(rt: HostRuntime) -> Result<(), Fail> {
    let alloc = Heap::within(rt.alloc(), 1 << 30).leak(rt.alloc())?;
    let new = kept_by_new(&rt, alloc);
    let mut index = filled(&rt, alloc, sweeping(&rt), true);
    assert_equal(&rt, drain(&rt, alloc, &mut index, 10_000, true), 0);
    for _ in 0..3u32 {
        read_some(&rt, alloc, &mut index, 10_000);
    }
    keeps_little(&rt, alloc, &index, new);
    Ok(())
}

// Options with which no delete makes a leaf due, since a chain may have as many writes as a leaf has pairs, and with which
// a sweep is due before a batch of 10,000 operations that finds the records of all puts and deletes, and of no more.
fn long_chains<R: Abort>(rt: &R) -> Options {
    Options::new(1, 64, 64, 64, 16, 10_000, 215_000).expect(rt, "options")
}

// No batch writes to the leaves once their keys have gone, so a sweep alone consolidates them; and the tidying behind it
// merges them.
#[test]
fn leaves_that_are_not_due_go_behind_a_sweep(rt: HostRuntime) {
    let alloc = heap(rt.alloc()).expect(&rt, "a heap");
    let mut index = filled(&rt, alloc, long_chains(&rt), true);
    assert_equal(&rt, drain(&rt, alloc, &mut index, 10_000, true), 0);
    assert_that(&rt, index.is_empty() && index.tree().records() > 200_000);
    run_empty(&rt, &mut index, 2);
    assert_that(&rt, pages(&rt, &index) > 1_000);
    read_some(&rt, alloc, &mut index, 10_000);
    run_empty(&rt, &mut index, 2);
    is_one_empty_leaf(&rt, &index);
}

// Upserts of these numbers, and then deletes of those, in one batch.
fn write<R: Abort + Threads + Sync>(
    rt: &R,
    alloc: Alloc,
    index: &mut Index,
    put: &[u32],
    gone: &[u32],
) {
    let mut ops = Vec::new(alloc);
    for number in put {
        ops.push(upsert(rt, alloc, *number, *number))
            .expect(rt, "memory");
    }
    for number in gone {
        ops.push(delete(rt, alloc, *number)).expect(rt, "memory");
    }
    assert_that(rt, index.run(rt, &ops, &OpenGate).is_ok());
}

// The right leaf of two loses its pairs while the left one has no room: four pairs, and one more in its chain. Then the left
// one loses its own. Nothing is written to the right one any more, and no sweep consolidates it, but the tidying behind one
// looks at all leaves.
#[test]
fn a_leaf_that_found_no_room_goes_behind_a_sweep(rt: HostRuntime) {
    let alloc = heap(rt.alloc()).expect(&rt, "a heap");
    let options = Options::new(1, 64, 1, 4, 2, 16, 30).expect(&rt, "options");
    let mut index = Index::new(alloc, options).expect(&rt, "an index");
    write(&rt, alloc, &mut index, &[0, 10, 20, 30, 40, 50], &[]);
    write(&rt, alloc, &mut index, &[5, 0, 30], &[50]);
    write(&rt, alloc, &mut index, &[7], &[30, 40]);
    write(&rt, alloc, &mut index, &[], &[0, 5, 7, 10, 20]);
    run_empty(&rt, &mut index, 2);
    assert_that(&rt, index.is_empty());
    assert_equal(&rt, pages(&rt, &index), 3);
    read_some(&rt, alloc, &mut index, 16);
    run_empty(&rt, &mut index, 1);
    is_one_empty_leaf(&rt, &index);
}
