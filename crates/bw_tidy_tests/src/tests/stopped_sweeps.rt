// A stop, and a sweep behind it: the splits that the stop left are finished all the same.
use super::levels::{are_named, are_within, is_root_split, is_whole};
use super::maker::Maker;
use super::rows::{Row, holds};
use super::stopping::run_stopped;
use crate::tests::assertions::{assert_equal, assert_that};
use bw_batch::{Index, Op, OpenGate, Options, Tree};
use bw_fixtures::was_refused;
use std::process::Abort;
use std::thread::Threads;

// What was unfinished behind sweeps.
#[derive(Clone, Copy)]
struct Seen {
    // a leaf that was the root, without a root above it
    leaf_root: bool,
    // an inner page that was, too
    inner_root: bool,
    // a leaf that no page names
    leaf: bool,
    // an inner page that no page names
    inner: bool,
}

// Nothing.
const NOTHING: Seen = Seen {
    leaf_root: false,
    inner_root: false,
    leaf: false,
    inner: false,
};

// Whether no split is unfinished.
fn is_finished<R: Abort>(rt: &R, make: &Maker<R>, tree: &Tree) -> bool {
    let shape = tree.shape().expect(rt, "memory");
    is_whole(rt, make.alloc, tree, &shape)
}

// Adds what is unfinished in a tree. Inner pages are looked at behind all leaves.
fn see<R: Abort>(rt: &R, make: &Maker<R>, seen: &mut Seen, tree: &Tree) {
    let shape = tree.shape().expect(rt, "memory");
    let named = are_named(rt, make.alloc, tree, &shape);
    match (is_root_split(tree, &shape), tree.root_level()) {
        (true, 0) => seen.leaf_root = true,
        (true, _) => seen.inner_root = true,
        (false, 0 | 1) => seen.leaf = seen.leaf || !named,
        (false, _) => seen.inner = seen.inner || !named,
    }
}

// An empty index of small pages, which keeps so few records.
fn small_pages<R: Abort>(rt: &R, make: &Maker<R>, record_max: u64) -> Index {
    let options = Options::new(1, 64, 1, 4, 1, record_max, record_max).expect(rt, "options");
    Index::new(make.alloc, options).expect(rt, "an index")
}

// Runs a batch of so many reads of a that a sweep comes before it. Tidying is refused behind it. Nothing is put over a pair, so
// no list has more room than it needs: a growth that gave some back might be refused and not noticed.
fn run_swept<R: Abort + Threads + Sync>(
    rt: &R,
    make: &Maker<R>,
    index: &mut Index,
    record_max: u64,
) {
    let mut ops = Vec::new(make.alloc);
    for _ in 0..record_max {
        ops.push(make.get(b'a')).expect(rt, "memory");
    }
    let tidy = run_stopped(rt, make.alloc, index, &ops);
    assert_that(rt, tidy.stopped);
    assert_equal(rt, index.tree().next_stamp(), record_max);
}

// Runs an empty batch, behind which no split is left to be finished, and no leaf is over a limit.
fn tidy<R: Abort + Threads + Sync>(rt: &R, make: &Maker<R>, index: &mut Index, row: &Row) {
    let done = index.run(rt, &[], &OpenGate).expect(rt, "memory");
    assert_that(rt, !done.tidy.stopped);
    let shape = index.tree().shape().expect(rt, "memory");
    are_within(rt, &shape, 1, 4);
    assert_that(rt, is_whole(rt, make.alloc, index.tree(), &shape));
    holds(rt, make, index, row);
}

// Goes on behind a stop: a sweep comes, and then the pages are tidied.
fn go_on<R: Abort + Threads + Sync>(
    rt: &R,
    make: &Maker<R>,
    index: &mut Index,
    row: &Row,
    record_max: u64,
    seen: &mut Seen,
) {
    let whole = is_finished(rt, make, index.tree());
    run_swept(rt, make, index, record_max);
    assert_equal(rt, is_finished(rt, make, index.tree()), whole);
    holds(rt, make, index, row);
    see(rt, make, seen, index.tree());
    tidy(rt, make, index, row);
}

// Whether the inserts of a row were accepted, and tidying behind them stopped.
fn is_stopped<R: Abort + Threads + Sync>(rt: &R, index: &mut Index, ops: &[Op]) -> bool {
    match index.run(rt, ops, &OpenGate) {
        Ok(done) => done.tidy.stopped,
        Err(_) => false,
    }
}

// Inserts a row where this growth is refused, and goes on where tidying stopped. Whether it was refused.
fn is_refused<R: Abort + Threads + Sync>(
    rt: &R,
    make: &Maker<R>,
    row: &Row,
    record_max: u64,
    growth: u64,
    seen: &mut Seen,
) -> bool {
    let mut index = small_pages(rt, make, record_max);
    make.alloc.refuse(growth);
    let stopped = is_stopped(rt, &mut index, &row.inserts.ops);
    let refused = was_refused(make.alloc, growth);
    if stopped {
        go_on(rt, make, &mut index, row, record_max, seen);
    }
    refused
}

// Refuses each growth of a batch of inserts in turn. What was unfinished behind sweeps then.
fn refuse_in_turn<R: Abort + Threads + Sync>(
    rt: &R,
    make: &Maker<R>,
    last: u8,
    record_max: u64,
) -> Seen {
    let row = Row::new(rt, make, last);
    let mut seen = NOTHING;
    for growth in 1..1000 {
        if !is_refused(rt, make, &row, record_max, growth, &mut seen) {
            return seen;
        }
    }
    panic!(rt; "no batch met no refusal");
}

#[test]
fn splits_of_seventeen_letters_are_finished_behind_a_sweep(rt: HostRuntime) {
    let make = Maker::new(&rt, rt.alloc());
    let seen = refuse_in_turn(&rt, &make, b'q', 27);
    assert_that(&rt, seen.leaf_root && seen.inner_root && seen.leaf);
}

// 33 keys make so many leaves that an inner page below the root is split, too.
#[test]
fn splits_of_33_keys_are_finished_behind_a_sweep(rt: HostRuntime) {
    let make = Maker::new(&rt, rt.alloc());
    let seen = refuse_in_turn(&rt, &make, b'a' + 32, 53);
    assert_that(&rt, seen.leaf_root && seen.leaf && seen.inner);
}
