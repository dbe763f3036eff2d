// A tree over three leaves, and batches of reads.
ghost use Rattle.std.specs.Prelude.{◌≡◌, ℕ, ◌<◌, ◌≤◌, length, IfOk, None};
ghost use Rattle.std.specs.List.{AllByRecursion};
ghost use Rattle.bw_delta.specs.Batches.{write_of};
ghost use Rattle.bw_group.specs.Homes.{AreHomes};
ghost use Rattle.bw_look.specs.View.{contents_at};

use bw_answer::{Findings, Limits, replies, replies_in_parts};
use bw_fixtures::{LONG, heap, key, pair, three_leaves, two, value};
use bw_group::{Grouping, Homes, find_homes};
use bw_key::{Key, Memory};
use bw_memory::Alloc;
use bw_model::{Op, Pairs, Replies, Reply, Value};
use bw_tree::Tree;
use std::alloc::Global;
use std::process::Abort;
use std::thread::Threads;

/// A heap of a test's own.
pub fn memory<R: Abort>(rt: &R, global: Global) -> Alloc {
    heap(global).expect(rt, "memory")
}

/// The tree over three leaves, with no write over any: a 1 and b 2; c and a long text; e 5.
pub fn three<R: Abort>(rt: &R, alloc: Alloc) -> Tree
    ensures { (stamp : ℕ) → contents_at result stamp ≡ contents_at result 0 }
{
    let leaves = three_leaves(alloc, LONG).expect(rt, "memory");
    Tree::from_level(alloc, leaves).expect(rt, "memory")
}

// The key of these bytes.
fn key_of<R: Abort>(rt: &R, alloc: Alloc, bytes: &[u8]) -> Key {
    key(alloc, bytes).expect(rt, "memory")
}

/// Six reads: e, a, two pairs from b on, d, c, and two pairs back from e.
pub fn six_reads<R: Abort>(rt: &R, alloc: Alloc) -> [Op; 6]
    ensures { AllByRecursion (λ op. write_of op ≡ None) result }
{
    [
        Op::Get(key_of(rt, alloc, b"e")),
        Op::Get(key_of(rt, alloc, b"a")),
        Op::Scan {
            from: key_of(rt, alloc, b"b"),
            to: None,
            most: 2,
        },
        Op::Get(key_of(rt, alloc, b"d")),
        Op::Get(key_of(rt, alloc, b"c")),
        Op::Rscan {
            from: key_of(rt, alloc, b""),
            to: Some(key_of(rt, alloc, b"e")),
            most: 2,
        },
    ]
}

// A scan for two pairs from b on.
fn scan_from_b<R: Abort>(rt: &R, alloc: Alloc) -> Op
    ensures { write_of result ≡ None }
{
    Op::Scan {
        from: key_of(rt, alloc, b"b"),
        to: None,
        most: 2,
    }
}

/// Four scans for two pairs from b on: they meet on two leaves.
pub fn four_scans<R: Abort>(rt: &R, alloc: Alloc) -> [Op; 4]
    ensures { AllByRecursion (λ op. write_of op ≡ None) result }
{
    [
        scan_from_b(rt, alloc),
        scan_from_b(rt, alloc),
        scan_from_b(rt, alloc),
        scan_from_b(rt, alloc),
    ]
}

/// The reply to each of the four scans.
pub fn scan_reply<R: Abort>(rt: &R, alloc: Alloc) -> Reply {
    Reply::Pairs(b_and_c(rt, alloc, true))
}

// The pair of a key and its value.
fn pair_of<R: Abort>(rt: &R, alloc: Alloc, at: &[u8], bytes: &[u8]) -> (Key, Value) {
    pair(alloc, at, bytes).expect(rt, "memory")
}

// The pairs b 2 and c, in this order or in the other.
fn b_and_c<R: Abort>(rt: &R, alloc: Alloc, is_rising: bool) -> Pairs {
    let b = pair_of(rt, alloc, b"b", b"2");
    let c = pair_of(rt, alloc, b"c", LONG);
    let pairs = if is_rising {
        two(alloc, b, c)
    } else {
        two(alloc, c, b)
    };
    pairs.expect(rt, "the pairs")
}

// The reply of a get that finds these bytes.
fn found<R: Abort>(rt: &R, alloc: Alloc, bytes: &[u8]) -> Reply {
    Reply::Found(value(alloc, bytes).expect(rt, "memory"))
}

/// The replies to the six reads.
pub fn six_replies<R: Abort>(rt: &R, alloc: Alloc) -> [Reply; 6] {
    [
        found(rt, alloc, b"5"),
        found(rt, alloc, b"1"),
        Reply::Pairs(b_and_c(rt, alloc, true)),
        Reply::Absent,
        found(rt, alloc, LONG),
        Reply::Pairs(b_and_c(rt, alloc, false)),
    ]
}

// The read of this number: mostly a get at one of seven keys.
fn read<R: Abort>(rt: &R, alloc: Alloc, number: u64) -> Op
    ensures { write_of result ≡ None }
{
    let from = key_of(rt, alloc, &[b'a' + (number % 7) as u8]);
    match number % 16 {
        3 => Op::Scan {
            from,
            to: None,
            most: 2,
        },
        11 => Op::Rscan {
            from,
            to: None,
            most: 2,
        },
        _ => Op::Get(from),
    }
}

/// So many reads.
pub fn reads<R: Abort>(rt: &R, alloc: Alloc, count: u64) -> Vec<Op, Alloc>
    ensures len { length result.items ≡ count }
    ensures reads { AllByRecursion (λ op. write_of op ≡ None) result.items }
{
    let mut ops = Vec::new(alloc);
    for number in 0..count {
        ops.push(read(rt, alloc, number)).expect(rt, "memory");
    }
    ops
}

/// The replies to reads, by a tree without writes and so many workers.
pub fn replies_by_workers<R: Threads + Sync>(
    rt: &R,
    alloc: Alloc,
    tree: &Tree,
    ops: &[Op],
    workers: u64,
) -> Result<Replies, Memory>
    requires quiet { (stamp : ℕ) → contents_at tree.now stamp ≡ contents_at tree.now 0 }
    requires reads { AllByRecursion (λ op. write_of op ≡ None) ops.now }
    requires few { length ops.now ≤ 20000 }
{
    let batch = Grouping::new(rt, alloc, ops, 1)?;
    let homes = find_homes(rt, alloc, tree, &batch, workers)?;
    replies(
        rt,
        alloc,
        tree,
        0,
        &batch,
        &homes,
        workers,
        &mut no_findings(alloc),
    )
}

/// The replies to reads, by a tree without writes, in at most so many parts.
pub fn replies_by_parts<R: Threads + Sync>(
    rt: &R,
    alloc: Alloc,
    tree: &Tree,
    ops: &[Op],
    count: usize,
) -> Result<Replies, Memory>
    requires quiet { (stamp : ℕ) → contents_at tree.now stamp ≡ contents_at tree.now 0 }
    requires reads { AllByRecursion (λ op. write_of op ≡ None) ops.now }
    requires few { length ops.now ≤ 20000 }
    requires count { 0 < count }
{
    let batch = Grouping::new(rt, alloc, ops, 1)?;
    let homes = find_homes(rt, alloc, tree, &batch, 1)?;
    replies_in_parts(
        rt,
        alloc,
        tree,
        0,
        &batch,
        &homes,
        count,
        &mut no_findings(alloc),
    )
}

// Nothing is found of leaves.
fn no_findings(alloc: Alloc) -> Findings {
    Findings::new(alloc, Limits::new(8, 8, 2), false)
}

/// The homes of a batch, by so many workers.
pub fn homes_of<R: Threads + Sync>(
    rt: &R,
    alloc: Alloc,
    tree: &Tree,
    ops: &[Op],
    workers: u64,
) -> Result<Homes, Memory>
    requires { length ops.now ≤ 5000 }
    ensures { IfOk result (AreHomes tree.now ops.now) }
{
    let batch = Grouping::new(rt, alloc, ops, 1)?;
    find_homes(rt, alloc, tree, &batch, workers)
}
