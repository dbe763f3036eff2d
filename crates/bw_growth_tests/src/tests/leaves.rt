// Batches over many leaves, compared with the plain program.
ghost use Rattle.std.specs.Prelude.{◌<◌};

use super::compared::{Compared, has_replaced, run_both};
use super::trees::{LONG, map_of, tree_of, working};
use crate::tests::assertions::assert_that;
use bw_batch::{Index, Key, Op, Options, Value};
use bw_fixtures::{Random, heap, key, value};
use bw_memory::Alloc;
use std::process::Abort;
use std::thread::Threads;

const VALUES: [&str; 3] = ["", "1", LONG];

// Both over so many leaves.
fn over_leaves<R: Abort>(rt: &R, alloc: Alloc, count: u32, step: u32, options: Options) -> Compared
    requires { 0 < count }
{
    let tree = tree_of(rt, alloc, count, step);
    Compared {
        index: Index::from_tree(alloc, options, tree).expect(rt, "an index"),
        map: map_of(rt, alloc, count, step),
        replaced: 0,
    }
}

// A key of one byte or two.
fn draw_key<R: Abort>(rt: &R, alloc: Alloc, random: &mut Random) -> Key {
    let byte = random.below(256) as u8;
    let bytes = [byte, 0];
    let len = 1 + random.below(2);
    key(alloc, &bytes[..len]).expect(rt, "a key")
}

// The end of a range, where it has one.
fn draw_end<R: Abort>(rt: &R, alloc: Alloc, random: &mut Random) -> Option<Key> {
    match random.below(2) {
        0 => None,
        _ => Some(draw_key(rt, alloc, random)),
    }
}

fn draw_value<R: Abort>(rt: &R, alloc: Alloc, random: &mut Random) -> Value {
    let text = VALUES[random.below(3)];
    value(alloc, text.as_bytes()).expect(rt, "a value")
}

// A swap of the value 1 for another one.
fn draw_swap<R: Abort>(rt: &R, alloc: Alloc, random: &mut Random) -> Op {
    let one = value(alloc, b"1").expect(rt, "a value");
    Op::SwapIf(
        draw_key(rt, alloc, random),
        one,
        draw_value(rt, alloc, random),
    )
}

// An operation that writes.
fn draw_write<R: Abort>(rt: &R, alloc: Alloc, random: &mut Random) -> Op {
    let key = draw_key(rt, alloc, random);
    match random.below(4) {
        0 => Op::Insert(key, draw_value(rt, alloc, random)),
        1 => Op::Upsert(key, draw_value(rt, alloc, random)),
        2 => Op::Update(key, draw_value(rt, alloc, random)),
        _ => Op::Delete(key),
    }
}

// A read of one key or of a range.
fn draw_read<R: Abort>(rt: &R, alloc: Alloc, random: &mut Random) -> Op {
    let from = draw_key(rt, alloc, random);
    let most = random.below(40) as u64;
    match random.below(5) {
        0 => Op::Get(from),
        1 | 2 => Op::Scan {
            from,
            to: draw_end(rt, alloc, random),
            most,
        },
        _ => Op::Rscan {
            from,
            to: draw_end(rt, alloc, random),
            most,
        },
    }
}

// An operation that is drawn: each kind as often as each other one, and scans twice as often.
fn draw<R: Abort>(rt: &R, alloc: Alloc, random: &mut Random) -> Op {
    match random.below(10) {
        0..4 => draw_write(rt, alloc, random),
        4 => draw_swap(rt, alloc, random),
        _ => draw_read(rt, alloc, random),
    }
}

// A batch of so many operations.
fn batch<R: Abort>(rt: &R, alloc: Alloc, random: &mut Random, len: usize) -> Vec<Op, Alloc> {
    let mut ops = Vec::new(alloc);
    for _ in 0..len {
        ops.push(draw(rt, alloc, random)).expect(rt, "memory");
    }
    ops
}

// Runs a batch that is drawn, and accepted.
fn run_drawn<R: Abort + Threads + Sync>(
    rt: &R,
    alloc: Alloc,
    random: &mut Random,
    both: &mut Compared,
    len: usize,
) {
    let ops = batch(rt, alloc, random, len);
    assert_that(rt, run_both(rt, both, &ops).is_none());
}

// Runs so many batches of so many operations, drawn from a seed.
fn compare<R: Abort + Threads + Sync>(
    rt: &R,
    alloc: Alloc,
    seed: u64,
    both: &mut Compared,
    (batches, len): (u64, usize),
) {
    let mut random = Random::new(seed);
    assert_that(rt, run_both(rt, both, &[]).is_none());
    for _ in 0..batches {
        run_drawn(rt, alloc, &mut random, both, len);
    }
}

#[test]
fn batches_over_many_leaves_are_answered_as_by_the_plain_program(rt: HostRuntime) {
    let alloc = heap(rt.alloc()).expect(&rt, "a heap");
    let mut both = over_leaves(&rt, alloc, 64, 4, working(&rt, 4, 64));
    compare(&rt, alloc, 20130408, &mut both, (40, 80));
}

#[test]
fn batches_over_250_leaves_are_answered_as_by_the_plain_program(rt: HostRuntime) {
    let alloc = heap(rt.alloc()).expect(&rt, "a heap");
    let mut both = over_leaves(&rt, alloc, 250, 1, working(&rt, 4, 64));
    compare(&rt, alloc, 20180610, &mut both, (10, 200));
}

// Numbers of workers.
const WORKERS: &[u64] = &[1, 2, 16, 64];

// Long batches with these options.
fn compare_long<R: Abort + Threads + Sync>(rt: &R, alloc: Alloc, options: Options, batches: u64) {
    let mut both = over_leaves(rt, alloc, 64, 4, options);
    let seed = options.workers().wrapping_add(options.piece());
    compare(rt, alloc, seed, &mut both, (batches, 1000));
    has_replaced(rt, &both, &options);
}

#[test]
fn long_batches_are_answered_alike_by_any_number_of_workers(rt: HostRuntime) {
    let alloc = heap(rt.alloc()).expect(&rt, "a heap");
    for &workers in WORKERS {
        compare_long(&rt, alloc, working(&rt, workers, 1), 2);
        compare_long(&rt, alloc, working(&rt, workers, 64), 2);
        compare_long(&rt, alloc, working(&rt, workers, 4096), 2);
    }
}

#[test]
fn long_batches_are_answered_alike_beside_consolidations(rt: HostRuntime) {
    let alloc = heap(rt.alloc()).expect(&rt, "a heap");
    for &workers in WORKERS {
        compare_long(&rt, alloc, working(&rt, workers, 1).with_beside(true), 4);
        compare_long(&rt, alloc, working(&rt, workers, 64).with_beside(true), 4);
    }
}
