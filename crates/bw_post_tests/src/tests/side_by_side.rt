// Posting by many workers.
ghost use Rattle.std.specs.Prelude.{◌≡◌, ◌<◌, ◌≤◌, None};

use super::making::{FLOOR, has, memory, upsert};
use crate::tests::assertions::{assert_equal, assert_that};
use bw_fixtures::key;
use bw_group::Grouping;
use bw_memory::Alloc;
use bw_model::Op;
use bw_post::{Gate, OpenGate, Posting, Tree, post_all};
use std::process::Abort;
use std::sync::atomic::{AtomicU64, Ordering};
use std::thread::Threads;

// More turns than a thread takes to start.
const TURNS: u64 = 200000000;

// One record waits so many turns until another one was posted. All calls are counted.
#[derive(Drop)]
struct Turn {
    late: u64,
    first: u64,
    turns: u64,
    posted: AtomicU64,
    calls: AtomicU64,
    gave_up: AtomicU64,
}

impl Turn {
    fn new(late: u64, first: u64, turns: u64) -> Turn {
        Turn {
            late,
            first,
            turns,
            posted: AtomicU64::new(0),
            calls: AtomicU64::new(0),
            gave_up: AtomicU64::new(0),
        }
    }
}

impl Gate for Turn {
    fn before(&self, r: u64) {
        self.calls.fetch_add(1, Ordering::SeqCst);
        if r != self.late {
            return;
        }
        for _ in 0..self.turns {
            if self.posted.load(Ordering::SeqCst) == 1 {
                return;
            }
        }
        self.gave_up.store(1, Ordering::SeqCst);
    }

    fn after(&self, r: u64) {
        self.calls.fetch_add(1, Ordering::SeqCst);
        if r == self.first {
            self.posted.store(1, Ordering::SeqCst);
        }
    }
}

// So many puts at one key: 0, 1, 2 and so on.
fn puts<R: Abort>(rt: &R, alloc: Alloc, count: u64) -> Vec<Op, Alloc> {
    let mut ops = Vec::new(alloc);
    for number in 0..count {
        let digit = (number % 10) as u8 + b'0';
        ops.push(upsert(rt, alloc, b"a", &[digit]))
            .expect(rt, "memory");
    }
    ops
}

// Posts puts at one key to a tree by so many workers, each of which claims so many at once, and adopts them. How many exchanges
// they lost.
fn adopt<R: Abort + Threads + Sync, G: Gate>(
    rt: &R,
    alloc: Alloc,
    tree: &mut Tree,
    ops: &[Op],
    piece: u64,
    workers: u64,
    gate: &G,
) -> u64
    requires none { tree.old.staged ≡ None }
    requires piece { (0 < piece) × (piece ≤ 4096) }
{
    assert!(rt; ops.len() <= 65536 && tree.next_stamp() == 0);
    tree.stage(ops).expect(rt, "memory");
    let grouping = Grouping::new(rt, alloc, ops, 1).expect(rt, "memory");
    let posting = post_all(rt, alloc, tree, &grouping, piece, workers, gate);
    let Posting {
        pages,
        closed,
        lost,
        ..
    } = posting.expect(rt, "memory");
    tree.adopt_on(pages, closed);
    lost
}

// The same with a tree of its own.
fn posted<R: Abort + Threads + Sync, G: Gate>(
    rt: &R,
    alloc: Alloc,
    ops: &[Op],
    piece: u64,
    workers: u64,
    gate: &G,
) -> (Tree, u64)
    requires piece { (0 < piece) × (piece ≤ 4096) }
{
    let mut tree = Tree::new(alloc).expect(rt, "memory");
    let lost = adopt(rt, alloc, &mut tree, ops, piece, workers, gate);
    (tree, lost)
}

// Posts two puts by two workers, this one of which is late, and compares what is read.
fn is_posted_late<R: Abort + Threads + Sync>(rt: &R, alloc: Alloc, ops: &[Op], late: u64) {
    let turn = Turn::new(late, 1u64.saturating_sub(late), TURNS);
    let (tree, _) = posted(rt, alloc, ops, 1, 2, &turn);
    assert_equal(rt, turn.gave_up.load(Ordering::SeqCst), 0);
    assert_equal(rt, turn.calls.load(Ordering::SeqCst), 4);
    assert_equal(rt, tree.heads(), [FLOOR.saturating_add(late)].as_slice());
    has(rt, alloc, &tree, 0, &[(b"a", None)]);
    has(rt, alloc, &tree, 1, &[(b"a", Some(b"0"))]);
    has(rt, alloc, &tree, 2, &[(b"a", Some(b"1"))]);
}

#[test]
fn two_workers_post_in_either_order(rt: HostRuntime) {
    let alloc = memory(&rt, rt.alloc());
    let ops = puts(&rt, alloc, 2);
    is_posted_late(&rt, alloc, &ops, 0);
    is_posted_late(&rt, alloc, &ops, 1);
}

// The writes of a piece are posted by one worker, in their order.
#[test]
fn a_piece_is_posted_by_one_worker(rt: HostRuntime) {
    let alloc = memory(&rt, rt.alloc());
    let ops = puts(&rt, alloc, 4);
    let turn = Turn::new(0, 1, TURNS / 10);
    let (tree, _) = posted(&rt, alloc, &ops, 2, 2, &turn);
    assert_equal(&rt, turn.gave_up.load(Ordering::SeqCst), 1);
    assert_equal(&rt, tree.records(), 4);
}

// Each record waits until so many have come.
#[derive(Drop)]
struct Meeting {
    wanted: u64,
    came: AtomicU64,
    gave_up: AtomicU64,
}

impl Gate for Meeting {
    fn before(&self, _r: u64) {
        self.came.fetch_add(1, Ordering::SeqCst);
        for _ in 0..TURNS {
            if self.came.load(Ordering::SeqCst) >= self.wanted {
                return;
            }
        }
        self.gave_up.store(1, Ordering::SeqCst);
    }

    fn after(&self, _r: u64) {}
}

#[test]
fn four_workers_post_at_once(rt: HostRuntime) {
    let alloc = memory(&rt, rt.alloc());
    let ops = puts(&rt, alloc, 4);
    let meeting = Meeting {
        wanted: 4,
        came: AtomicU64::new(0),
        gave_up: AtomicU64::new(0),
    };
    let (tree, _) = posted(&rt, alloc, &ops, 1, 4, &meeting);
    assert_equal(&rt, meeting.gave_up.load(Ordering::SeqCst), 0);
    assert_equal(&rt, tree.records(), 4);
}

// Compares the value at the key as of each stamp.
fn each_is_read<R: Abort>(rt: &R, alloc: Alloc, tree: &Tree, count: u64) {
    let name = key(alloc, b"a").expect(rt, "memory");
    for stamp in 1..count {
        let digit = ((stamp - 1) % 10) as u8 + b'0';
        let found = tree.value_at(&name, stamp).expect(rt, "memory");
        assert_equal(
            rt,
            found.as_ref().map(|value| value.bytes()),
            Some([digit].as_slice()),
        );
    }
}

// Posts puts by so many workers in pieces of so many, and compares what is read.
fn is_each_posted<R: Abort + Threads + Sync>(
    rt: &R,
    alloc: Alloc,
    ops: &[Op],
    piece: u64,
    workers: u64,
)
    requires piece { (0 < piece) × (piece ≤ 4096) }
{
    let (tree, lost) = posted(rt, alloc, ops, piece, workers, &OpenGate);
    assert_that(rt, workers > 1 || lost == 0);
    assert_equal(rt, tree.records(), 200);
    each_is_read(rt, alloc, &tree, 200);
}

#[test]
fn each_number_of_workers_posts_each_write_once(rt: HostRuntime) {
    let alloc = memory(&rt, rt.alloc());
    let ops = puts(&rt, alloc, 200);
    for workers in [1u64, 2, 16, 64] {
        is_each_posted(&rt, alloc, &ops, 1, workers);
        is_each_posted(&rt, alloc, &ops, 64, workers);
        is_each_posted(&rt, alloc, &ops, 4096, workers);
    }
}
