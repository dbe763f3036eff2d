// Pages that are merged behind batches of deletes.
use super::running::{Row, WORKERS, ops_of, run as read};
use super::trees::{FIVE, Listed, has_pages, insert, run, small_pages};
use super::turns::{Batches, compare_with};
use crate::tests::assertions::{assert_equal, assert_that};
use bw_batch::{Index, Op, OpenGate, Options, Refusal, Tidy};
use bw_fixtures::TextOp::{Delete, Get, Insert, Scan};
use bw_fixtures::TextReply::{Absent, Inserted, Pairs, Was};
use bw_fixtures::{TextOp, heap, was_refused};
use bw_memory::Alloc;
use std::process::Abort;
use std::thread::Threads;

// Deletes of five letters, each with its own text as its value.
const DELETES: &[Row] = &[
    (Delete("a"), Was("a")),
    (Delete("b"), Was("b")),
    (Delete("c"), Was("c")),
    (Delete("d"), Was("d")),
    (Delete("e"), Was("e")),
];

// Inserts of other values.
const INSERTS: &[Row] = &[
    (Insert("a", "6"), Inserted),
    (Insert("b", "7"), Inserted),
    (Insert("c", "8"), Inserted),
    (Insert("d", "9"), Inserted),
    (Insert("e", "10"), Inserted),
];

// A scan of all, and deletes.
const SCAN: &[Row] = &[
    (
        Scan("", None, 9),
        Pairs(&[("a", "6"), ("b", "7"), ("c", "8"), ("d", "9"), ("e", "10")]),
    ),
    (Delete("a"), Was("6")),
    (Delete("b"), Was("7")),
    (Delete("c"), Was("8")),
    (Delete("d"), Was("9")),
    (Delete("e"), Was("10")),
];

// Reads of no pairs.
const READS: &[Row] = &[(Scan("", None, 9), Pairs(&[])), (Get("c"), Absent)];

// Both leaves are consolidated, and the right one is merged into the left one. Then the root has one child, and goes.
const EMPTIED: Tidy = Tidy {
    consolidated: 2,
    splits: 0,
    merges: 1,
    stopped: false,
};

// One leaf without pairs and writes.
const EMPTY: &[Listed] = &[(0, 0, "", None, 0, 0)];

// An index of five letters on two leaves.
fn five<R: Abort + Threads + Sync>(rt: &R, alloc: Alloc) -> Index {
    let mut index = small_pages(rt, alloc);
    insert(rt, alloc, &mut index, 5);
    has_pages(rt, &index, FIVE);
    index
}

// Runs deletes, and compares what tidying behind them did, and the empty leaf that it left.
fn empty<R: Abort + Threads + Sync>(rt: &R, index: &mut Index, deletes: &[Op], tidy: Tidy) {
    let done = index.run(rt, deletes, &OpenGate).expect(rt, "memory");
    assert_equal(rt, done.tidy, tidy);
    has_pages(rt, index, EMPTY);
    assert_that(rt, index.is_empty());
}

#[test]
fn five_deletes_leave_an_empty_leaf(rt: HostRuntime) {
    let alloc = heap(rt.alloc()).expect(&rt, "a heap");
    let mut index = five(&rt, alloc);
    empty(&rt, &mut index, &ops_of(&rt, alloc, DELETES), EMPTIED);
    assert_equal(&rt, index.tree().heads().len(), 1);
}

#[test]
fn five_letters_come_and_go_twice(rt: HostRuntime) {
    let alloc = heap(rt.alloc()).expect(&rt, "a heap");
    let mut index = five(&rt, alloc);
    read(&rt, alloc, &mut index, DELETES);
    read(&rt, alloc, &mut index, INSERTS);
    read(&rt, alloc, &mut index, SCAN);
    has_pages(&rt, &index, EMPTY);
    read(&rt, alloc, &mut index, READS);
}

// Inserts of five letters, and deletes of them.
const FIRST: &[Row] = &[
    (Insert("a", "1"), Inserted),
    (Insert("b", "2"), Inserted),
    (Insert("c", "3"), Inserted),
    (Insert("d", "4"), Inserted),
    (Insert("e", "5"), Inserted),
];

const GONE: &[Row] = &[
    (Delete("a"), Was("1")),
    (Delete("b"), Was("2")),
    (Delete("c"), Was("3")),
    (Delete("d"), Was("4")),
    (Delete("e"), Was("5")),
];

const TWICE: Batches = &[FIRST, GONE, INSERTS, SCAN];

// Small pages, with so many workers, and pieces of so many records.
fn small<R: Abort>(rt: &R, workers: u64, piece: u64) -> Options {
    Options::new(workers, piece, 1, 4, 1, 65536, 1048576).expect(rt, "options")
}

// Five letters come and go twice, and when they have gone once, one leaf is left of two.
fn come_and_go<R: Abort + Threads + Sync>(rt: &R, alloc: Alloc, options: Options) {
    compare_with(rt, alloc, options, TWICE, &[]);
    let mut index = Index::new(alloc, options).expect(rt, "an index");
    read(rt, alloc, &mut index, FIRST);
    has_pages(rt, &index, FIVE);
    read(rt, alloc, &mut index, GONE);
    has_pages(rt, &index, EMPTY);
}

#[test]
fn each_number_of_workers_merges_leaves(rt: HostRuntime) {
    let alloc = heap(rt.alloc()).expect(&rt, "a heap");
    for &workers in WORKERS {
        come_and_go(&rt, alloc, small(&rt, workers, 1));
        come_and_go(&rt, alloc, small(&rt, workers, 4096));
        come_and_go(&rt, alloc, small(&rt, workers, 1).with_beside(true));
        come_and_go(&rt, alloc, small(&rt, workers, 4096).with_beside(true));
    }
}

// Seventeen letters in the order of keys, and deletes of them.
const SEVENTEEN: &[TextOp] = &[
    Delete("a"),
    Delete("b"),
    Delete("c"),
    Delete("d"),
    Delete("e"),
    Delete("f"),
    Delete("g"),
    Delete("h"),
    Delete("i"),
    Delete("j"),
    Delete("k"),
    Delete("l"),
    Delete("m"),
    Delete("n"),
    Delete("o"),
    Delete("p"),
    Delete("q"),
];

// The leaves of e to h, of m and n and of o to q are merged to their left. That of i to l begins under another page than its
// left neighbour and stays, and so do both pages above: one child each isn't less than one.
const TWO_UNDER_TWO: &[Listed] = &[
    (0, 0, "", Some("i"), 0, 0),
    (1, 0, "i", None, 0, 0),
    (2, 1, "", Some("i"), 1, 0),
    (6, 1, "i", None, 1, 0),
    (7, 2, "", None, 2, 0),
];

#[test]
fn leaves_under_two_pages_stay_apart(rt: HostRuntime) {
    let alloc = heap(rt.alloc()).expect(&rt, "a heap");
    let mut index = small_pages(&rt, alloc);
    insert(&rt, alloc, &mut index, 17);
    let tidy = run(&rt, alloc, &mut index, SEVENTEEN);
    assert_that(&rt, !tidy.stopped && tidy.merges == 3);
    has_pages(&rt, &index, TWO_UNDER_TWO);
    assert_that(&rt, index.is_empty());
}

// Runs the deletes where this growth is refused, and again where the batch was. What tidying did, and whether the growth was
// refused.
fn delete<R: Abort + Threads + Sync>(
    rt: &R,
    alloc: Alloc,
    index: &mut Index,
    deletes: &[Op],
    growth: u64,
) -> (Tidy, bool) {
    alloc.refuse(growth);
    let outcome = index.run(rt, deletes, &OpenGate);
    let refused = was_refused(alloc, growth);
    match outcome {
        Ok(done) => {
            assert_that(rt, refused || !done.tidy.stopped);
            (done.tidy, refused)
        }
        Err(refusal) => {
            assert_that(rt, refused && refusal == Refusal::Memory);
            has_pages(rt, index, FIVE);
            let done = index.run(rt, deletes, &OpenGate).expect(rt, "memory");
            (done.tidy, refused)
        }
    }
}

// What tidying did up to a stop, and behind it.
fn both(before: Tidy, behind: Tidy) -> Tidy {
    Tidy {
        consolidated: before.consolidated.saturating_add(behind.consolidated),
        splits: before.splits.saturating_add(behind.splits),
        merges: before.merges.saturating_add(behind.merges),
        stopped: behind.stopped,
    }
}

// Runs the deletes on an index of its own where this growth is refused, and then a read: in all, tidying did what it does
// without a refusal. Whether the growth was refused.
fn is_refused<R: Abort + Threads + Sync>(rt: &R, alloc: Alloc, growth: u64) -> bool {
    let mut index = five(rt, alloc);
    let deletes = ops_of(rt, alloc, DELETES);
    let (tidy, refused) = delete(rt, alloc, &mut index, &deletes, growth);
    let behind = run(rt, alloc, &mut index, &[Get("c")]);
    assert_equal(rt, both(tidy, behind), EMPTIED);
    has_pages(rt, &index, EMPTY);
    read(rt, alloc, &mut index, READS);
    refused
}

#[test]
fn five_deletes_meet_each_refusal(rt: HostRuntime) {
    let alloc = heap(rt.alloc()).expect(&rt, "a heap");
    for growth in 1..1000 {
        if !is_refused(&rt, alloc, growth) {
            assert_that(&rt, growth > 20);
            return;
        }
    }
    panic!(rt; "no batch met no refusal");
}
