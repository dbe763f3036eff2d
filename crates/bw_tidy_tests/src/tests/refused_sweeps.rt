// Each growth of memory refused in turn, where a sweep comes before each batch but the first.
use super::maker::{Maker, same};
use crate::tests::assertions::{assert_equal, assert_that};
use bw_batch::{Index, Op, OpenGate, Options, Refusal, Reply};
use bw_fixtures::{are, heap, was_refused};
use bw_memory::Alloc;
use std::process::Abort;
use std::thread::Threads;

// A key and its value.
type Pair = (&'static [u8], &'static [u8]);

// How many batches there are.
const BATCHES: u32 = 3;

// The batch of this number.
fn batch<R: Abort>(rt: &R, make: &Maker<R>, number: u32) -> Vec<Op, Alloc> {
    let ops = match number {
        0 => [
            make.upsert(b'a', 1),
            make.upsert(b'a', 2),
            make.upsert(b'a', 3),
        ],
        1 => [make.upsert(b'a', 4), make.get(b'a'), make.delete(b'a')],
        _ => [make.get(b'a'), make.insert(b'a', 7), make.get(b'a')],
    };
    Vec::from_array(make.alloc, ops).expect(rt, "memory")
}

// The replies to it.
fn replies<R: Abort>(rt: &R, make: &Maker<R>, number: u32) -> Vec<Reply, Alloc> {
    let replies = match number {
        0 => [Reply::New, make.was(1), make.was(2)],
        1 => [make.was(3), make.found(4), make.was(4)],
        _ => [Reply::Absent, Reply::Inserted, make.found(7)],
    };
    Vec::from_array(make.alloc, replies).expect(rt, "memory")
}

// The pairs before it.
fn pairs_before(number: u32) -> &'static [Pair] {
    match number {
        1 => &[(b"a", &[0, 0, 0, 3])],
        BATCHES => &[(b"a", &[0, 0, 0, 7])],
        _ => &[],
    }
}

// The index holds the pairs before this batch.
fn is_before<R: Abort>(rt: &R, index: &Index, number: u32) {
    let pairs = index.contents().expect(rt, "memory");
    assert_that(rt, are(&pairs, pairs_before(number)));
}

// The next stamp, how many records there are, and the mapping word of the one page.
fn numbers(index: &Index) -> (u64, usize, Option<u64>) {
    let tree = index.tree();
    (
        tree.next_stamp(),
        tree.records(),
        tree.heads().first().copied(),
    )
}

// Runs the batch of this number.
fn run<R: Abort + Threads + Sync>(
    rt: &R,
    index: &mut Index,
    ops: &[Op],
    wanted: &[Reply],
) -> Option<bool> {
    match index.run(rt, ops, &OpenGate) {
        Ok(done) => {
            same(rt, done.replies.as_slice(), wanted);
            Some(done.tidy.stopped)
        }
        Err(refusal) => {
            assert_equal(rt, refusal, Refusal::Memory);
            None
        }
    }
}

// Runs the batch of this number where a growth may be refused, and again where the batch was. Whether a refusal was seen.
fn run_twice<R: Abort + Threads + Sync>(
    rt: &R,
    make: &Maker<R>,
    index: &mut Index,
    number: u32,
) -> bool {
    let ops = batch(rt, make, number);
    let wanted = replies(rt, make, number);
    let stood = numbers(index);
    if let Some(stopped) = run(rt, index, &ops, &wanted) {
        return stopped;
    }
    is_before(rt, index, number);
    // No sweep is due before the first batch.
    assert_that(rt, number > 0 || numbers(index) == stood);
    assert_equal(rt, run(rt, index, &ops, &wanted), Some(false));
    true
}

// Runs the batches where this growth is refused, on an index whose memory is its own. Whether it was refused.
fn is_refused<R: Abort + Threads + Sync>(
    rt: &R,
    make: &Maker<R>,
    alloc: Alloc,
    options: Options,
    growth: u64,
) -> bool {
    let mut index = Index::new(alloc, options).expect(rt, "an index");
    let mut seen = 0u64;
    alloc.refuse(growth);
    for number in 0..BATCHES {
        if run_twice(rt, make, &mut index, number) {
            seen = seen.saturating_add(1);
        }
    }
    let refused = was_refused(alloc, growth);
    assert_that(rt, seen <= refused as u64);
    is_before(rt, &index, BATCHES);
    refused
}

// So many writes in a chain, and so many records.
fn swept<R: Abort>(rt: &R, chain: u64, record_max: u64) -> Options {
    Options::new(4, 1, chain, 64, 16, 3, record_max).expect(rt, "options")
}

// Refuses each growth in turn, on a heap of its own.
fn refuse_in_turn<R: Abort + Threads + Sync>(
    rt: &R,
    make: &Maker<R>,
    alloc: Alloc,
    options: Options,
) {
    for growth in 1..1000 {
        if !is_refused(rt, make, alloc, options, growth) {
            assert_that(rt, growth > 20);
            return;
        }
    }
    panic!(rt; "no run met no refusal");
}

#[test]
fn batches_meet_each_refusal_and_so_do_their_sweeps(rt: HostRuntime) {
    let make = Maker::new(&rt, rt.alloc());
    let alloc = heap(rt.alloc()).expect(&rt, "a heap");
    refuse_in_turn(&rt, &make, alloc, swept(&rt, 8, 3));
}

// The three writes of the first batch are consolidated beside the second one, and a sweep comes before the third.
#[test]
fn batches_meet_each_refusal_beside_a_consolidation_and_before_a_sweep(rt: HostRuntime) {
    let make = Maker::new(&rt, rt.alloc());
    let alloc = heap(rt.alloc()).expect(&rt, "a heap");
    refuse_in_turn(&rt, &make, alloc, swept(&rt, 6, 6).with_beside(true));
}

#[test]
fn batches_and_sweeps_meet_each_refusal_with_consolidation_beside(rt: HostRuntime) {
    let make = Maker::new(&rt, rt.alloc());
    let alloc = heap(rt.alloc()).expect(&rt, "a heap");
    refuse_in_turn(&rt, &make, alloc, swept(&rt, 8, 3).with_beside(true));
}
