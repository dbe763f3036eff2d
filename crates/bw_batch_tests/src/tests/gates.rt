// Workers that wait for one another at a gate.
use super::running::{Row, answers, ops_of, working};
use crate::tests::assertions::assert_equal;
use bw_batch::{Done, Gate, Index};
use bw_fixtures::TextOp::Upsert;
use bw_fixtures::TextReply::{New, Was};
use bw_fixtures::heap;
use bw_memory::Alloc;
use std::process::Abort;
use std::sync::atomic::{AtomicU64, Ordering};
use std::thread::Threads;

// How often a worker that waits looks whether the others have come.
const TURNS: u64 = 200_000_000;

// One of two writes waits until the other one was posted. It counts the calls of both kinds.
#[derive(Drop)]
struct Turn {
    late: u64,
    turns: u64,
    posted: AtomicU64,
    calls: AtomicU64,
    gave_up: AtomicU64,
}

impl Turn {
    fn new(late: u64, turns: u64) -> Turn {
        Turn {
            late,
            turns,
            posted: AtomicU64::new(0),
            calls: AtomicU64::new(0),
            gave_up: AtomicU64::new(0),
        }
    }
}

impl Gate for Turn {
    fn before(&self, r: u64) {
        self.calls.fetch_add(1, Ordering::SeqCst);
        if r != self.late {
            return;
        }
        for _ in 0..self.turns {
            if self.posted.load(Ordering::SeqCst) == 1 {
                return;
            }
        }
        self.gave_up.store(1, Ordering::SeqCst);
    }

    fn after(&self, r: u64) {
        self.calls.fetch_add(1, Ordering::SeqCst);
        if r != self.late {
            self.posted.store(1, Ordering::SeqCst);
        }
    }
}

// Runs a batch by so many workers, in pieces of so many records.
fn run_gated<R: Abort + Threads + Sync, G: Gate>(
    rt: &R,
    alloc: Alloc,
    (workers, piece): (u64, u64),
    batch: &[Row],
    gate: &G,
) -> Done {
    let ops = ops_of(rt, alloc, batch);
    let mut index = Index::new(alloc, working(rt, workers, piece)).expect(rt, "an index");
    index.run(rt, &ops, gate).expect(rt, "memory")
}

const TWO: &[Row] = &[(Upsert("a", "1"), New), (Upsert("a", "2"), Was("1"))];

// Has one of two workers wait for the other one.
fn run_late<R: Abort + Threads + Sync>(rt: &R, alloc: Alloc, late: u64) {
    let turn = Turn::new(late, TURNS);
    let done = run_gated(rt, alloc, (2, 1), TWO, &turn);
    assert_equal(rt, turn.gave_up.load(Ordering::SeqCst), 0);
    assert_equal(rt, turn.calls.load(Ordering::SeqCst), 4);
    answers(rt, &done, TWO);
}

#[test]
fn replies_dont_depend_on_who_posts_first(rt: HostRuntime) {
    let alloc = heap(rt.alloc()).expect(&rt, "a heap");
    run_late(&rt, alloc, 0);
    run_late(&rt, alloc, 1);
}

// The first of them waits for the second in vain.
#[test]
fn a_piece_is_posted_by_one_worker(rt: HostRuntime) {
    let alloc = heap(rt.alloc()).expect(&rt, "a heap");
    let turn = Turn::new(0, TURNS / 10);
    let done = run_gated(&rt, alloc, (2, 2), TWO, &turn);
    assert_equal(&rt, turn.gave_up.load(Ordering::SeqCst), 1);
    answers(&rt, &done, TWO);
}

// Each write waits until so many have come.
#[derive(Drop)]
struct Meeting {
    wanted: u64,
    came: AtomicU64,
    gave_up: AtomicU64,
}

impl Gate for Meeting {
    fn before(&self, _r: u64) {
        self.came.fetch_add(1, Ordering::SeqCst);
        for _ in 0..TURNS {
            if self.came.load(Ordering::SeqCst) >= self.wanted {
                return;
            }
        }
        self.gave_up.store(1, Ordering::SeqCst);
    }

    fn after(&self, _r: u64) {}
}

const FOUR: &[Row] = &[
    (Upsert("a", "1"), New),
    (Upsert("b", "2"), New),
    (Upsert("c", "3"), New),
    (Upsert("d", "4"), New),
];

#[test]
fn four_workers_post_at_once(rt: HostRuntime) {
    let alloc = heap(rt.alloc()).expect(&rt, "a heap");
    let meeting = Meeting {
        wanted: 4,
        came: AtomicU64::new(0),
        gave_up: AtomicU64::new(0),
    };
    let done = run_gated(&rt, alloc, (4, 1), FOUR, &meeting);
    assert_equal(&rt, meeting.gave_up.load(Ordering::SeqCst), 0);
    answers(&rt, &done, FOUR);
}
