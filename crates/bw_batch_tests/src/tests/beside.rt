// Leaves that workers consolidate beside the posting of a batch.
use super::running::{Row, WORKERS, answers, have_replies, holds, ops_of, run, working_beside};
use super::trees::{Listed, has_pages, insert};
use crate::tests::assertions::{assert_equal, assert_that};
use bw_batch::{Done, Index, Op, OpenGate, Options, Refusal};
use bw_fixtures::TextOp::{Get, Upsert};
use bw_fixtures::TextReply::{Absent, Found, New, Was};
use bw_fixtures::{heap, was_refused};
use bw_memory::Alloc;
use std::process::Abort;
use std::thread::Threads;

// One worker, and two writes in a chain: a chain of one write is long enough.
fn two_in_a_chain<R: Abort>(rt: &R, page_max: u64) -> Options {
    Options::new(1, 64, 2, page_max, 1, 65536, 1048576).expect(rt, "options")
}

// Runs a batch, and compares what it answered, how many leaves were replaced, and the pages.
fn run_beside<R: Abort + Threads + Sync>(
    rt: &R,
    alloc: Alloc,
    index: &mut Index,
    batch: &[Row],
    replaced: u64,
    pages: &[Listed],
) {
    let ops = ops_of(rt, alloc, batch);
    let done = index.run(rt, &ops, &OpenGate).expect(rt, "memory");
    answers(rt, &done, batch);
    assert_equal(rt, done.replaced, replaced);
    has_pages(rt, index, pages);
}

const FIRST: &[Row] = &[(Upsert("a", "1"), New)];

const SECOND: &[Row] = &[(Upsert("a", "2"), Was("1")), (Get("a"), Found("2"))];

// A leaf of one pair, with so many writes over it.
const ONE_WRITE: &[Listed] = &[(0, 0, "", None, 1, 1)];

const TWO_WRITES: &[Listed] = &[(0, 0, "", None, 1, 2)];

#[test]
fn a_leaf_takes_the_place_of_its_chain(rt: HostRuntime) {
    let alloc = heap(rt.alloc()).expect(&rt, "a heap");
    for (beside, replaced, behind) in [(true, 1, ONE_WRITE), (false, 0, TWO_WRITES)] {
        let options = two_in_a_chain(&rt, 64).with_beside(beside);
        let mut index = Index::new(alloc, options).expect(&rt, "an index");
        run_beside(&rt, alloc, &mut index, FIRST, 0, ONE_WRITE);
        run_beside(&rt, alloc, &mut index, SECOND, replaced, behind);
    }
}

#[test]
fn a_leaf_that_was_written_to_is_consolidated_behind_its_batch(rt: HostRuntime) {
    let alloc = heap(rt.alloc()).expect(&rt, "a heap");
    let options = two_in_a_chain(&rt, 64).with_eager(true);
    let mut index = Index::new(alloc, options).expect(&rt, "an index");
    run_beside(&rt, alloc, &mut index, FIRST, 0, NO_WRITE);
    run_beside(&rt, alloc, &mut index, SECOND, 0, NO_WRITE);
}

const READS: &[Row] = &[(Get("a"), Found("1")), (Get("b"), Absent)];

const NO_WRITE: &[Listed] = &[(0, 0, "", None, 1, 0)];

#[test]
fn a_leaf_that_is_read_is_replaced_too(rt: HostRuntime) {
    let alloc = heap(rt.alloc()).expect(&rt, "a heap");
    let options = two_in_a_chain(&rt, 64).with_beside(true);
    let mut index = Index::new(alloc, options).expect(&rt, "an index");
    run(&rt, alloc, &mut index, FIRST);
    run_beside(&rt, alloc, &mut index, READS, 1, NO_WRITE);
    run_beside(&rt, alloc, &mut index, READS, 0, NO_WRITE);
}

const ENDS: &[Row] = &[(Upsert("a", "6"), Was("a")), (Upsert("e", "7"), Was("e"))];

const BOTH_WRITTEN: &[Listed] = &[
    (0, 0, "", Some("c"), 2, 1),
    (1, 0, "c", None, 3, 1),
    (2, 1, "", None, 2, 0),
];

const LEFT_READ: &[Row] = &[(Get("a"), Found("6"))];

const LEFT_REPLACED: &[Listed] = &[
    (0, 0, "", Some("c"), 2, 0),
    (1, 0, "c", None, 3, 1),
    (2, 1, "", None, 2, 0),
];

#[test]
fn a_leaf_that_has_no_key_of_the_batch_stays(rt: HostRuntime) {
    let alloc = heap(rt.alloc()).expect(&rt, "a heap");
    let options = two_in_a_chain(&rt, 4).with_beside(true);
    let mut index = Index::new(alloc, options).expect(&rt, "an index");
    insert(&rt, alloc, &mut index, 5);
    run_beside(&rt, alloc, &mut index, ENDS, 0, BOTH_WRITTEN);
    run_beside(&rt, alloc, &mut index, LEFT_READ, 1, LEFT_REPLACED);
}

// A write to each of the five leaves of seventeen letters, and a read of each.
const WRITES: &[Row] = &[
    (Upsert("a", "1"), Was("a")),
    (Upsert("e", "2"), Was("e")),
    (Upsert("i", "3"), Was("i")),
    (Upsert("m", "4"), Was("m")),
    (Upsert("o", "5"), Was("o")),
];

const FIVE_READS: &[Row] = &[
    (Get("a"), Found("1")),
    (Get("e"), Found("2")),
    (Get("i"), Found("3")),
    (Get("m"), Found("4")),
    (Get("o"), Found("5")),
];

// Runs the reads of five leaves with a write each by so many workers: no post comes before, so that all five are replaced.
fn replaces_five<R: Abort + Threads + Sync>(rt: &R, alloc: Alloc, workers: u64) {
    let options = Options::new(workers, 1, 2, 4, 1, 65536, 1048576)
        .expect(rt, "options")
        .with_beside(true);
    let mut index = Index::new(alloc, options).expect(rt, "an index");
    insert(rt, alloc, &mut index, 17);
    run(rt, alloc, &mut index, WRITES);
    let reads = ops_of(rt, alloc, FIVE_READS);
    let done = index.run(rt, &reads, &OpenGate).expect(rt, "memory");
    answers(rt, &done, FIVE_READS);
    assert_equal(rt, done.replaced, 5);
}

#[test]
fn each_number_of_workers_replaces_all_leaves(rt: HostRuntime) {
    let alloc = heap(rt.alloc()).expect(&rt, "a heap");
    for &workers in WORKERS {
        replaces_five(&rt, alloc, workers);
    }
}

// The next stamp, how many records there are, and the mapping word of the one page.
fn numbers(index: &Index) -> (u64, usize, Option<u64>) {
    let tree = index.tree();
    (
        tree.next_stamp(),
        tree.records(),
        tree.heads().first().copied(),
    )
}

// Runs a batch, and again where it was refused, which left all as it was.
fn run_again<R: Abort + Threads + Sync>(rt: &R, index: &mut Index, ops: &[Op]) -> Done {
    let stood = numbers(index);
    match index.run(rt, ops, &OpenGate) {
        Ok(done) => done,
        Err(refusal) => {
            assert_equal(rt, refusal, Refusal::Memory);
            assert_that(rt, numbers(index) == stood);
            index.run(rt, ops, &OpenGate).expect(rt, "memory")
        }
    }
}

// Runs both batches where this growth is refused. Whether it was, and whether the leaf was left out then.
fn run_refused<R: Abort + Threads + Sync>(
    rt: &R,
    alloc: Alloc,
    first: &[Op],
    second: &[Op],
    growth: u64,
) -> (bool, bool) {
    let mut index = Index::new(alloc, working_beside(rt, 1, 64)).expect(rt, "an index");
    alloc.refuse(growth);
    run_again(rt, &mut index, first);
    let done = run_again(rt, &mut index, second);
    let refused = was_refused(alloc, growth);
    have_replies(rt, done.replies.as_slice(), SECOND);
    holds(rt, &index, &[("a", "2")]);
    assert_that(rt, refused || done.replaced == 1);
    assert_that(rt, done.replaced == 1 || !done.tidy.stopped);
    (refused, done.replaced == 0)
}

// A fold that finds no memory refuses no batch: some growth is refused, and both batches go on without the leaf.
#[test]
fn a_leaf_that_finds_no_memory_is_left_out(rt: HostRuntime) {
    let alloc = heap(rt.alloc()).expect(&rt, "a heap");
    let other = heap(rt.alloc()).expect(&rt, "a heap");
    let first = ops_of(&rt, other, FIRST);
    let second = ops_of(&rt, other, SECOND);
    let mut left_out = 0u64;
    for growth in 1..1000 {
        let (refused, is_left_out) = run_refused(&rt, alloc, &first, &second, growth);
        if !refused {
            assert_that(&rt, growth > 20 && left_out > 1);
            return;
        }
        left_out = left_out.saturating_add(is_left_out as u64);
    }
    panic!(rt; "no run met no refusal");
}
