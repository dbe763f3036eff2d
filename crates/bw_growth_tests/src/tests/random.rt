// Some thousand operations drawn from a seed, compared with the plain program.
use super::compared::{Compared, has_replaced, run_both};
use super::trees::LONG;
use crate::tests::assertions::assert_equal;
use bw_batch::{Index, Op, Options, Refusal};
use bw_fixtures::{Random, TextOp, heap, op};
use bw_memory::Alloc;
use bw_model::ReferenceMap;
use std::process::Abort;
use std::thread::Threads;

const KEYS: [&str; 6] = ["", "a", "a\0", LONG, "ab", "b"];

const VALUES: [&str; 4] = ["", "0", "18446744073709551615", LONG];

fn drawn_key(random: &mut Random) -> &'static str {
    KEYS[random.below(6)]
}

fn drawn_end(random: &mut Random) -> Option<&'static str> {
    KEYS.get(random.below(7)).copied()
}

fn drawn_value(random: &mut Random) -> &'static str {
    VALUES[random.below(4)]
}

fn drawn_most(random: &mut Random) -> u64 {
    random.below(5) as u64
}

// An operation that is drawn.
fn draw(random: &mut Random) -> TextOp {
    let key = drawn_key(random);
    match random.below(8) {
        0 => TextOp::Get(key),
        1 => TextOp::Insert(key, drawn_value(random)),
        2 => TextOp::Upsert(key, drawn_value(random)),
        3 => TextOp::Update(key, drawn_value(random)),
        4 => TextOp::Delete(key),
        5 => TextOp::SwapIf(key, drawn_value(random), drawn_value(random)),
        6 => TextOp::Scan(key, drawn_end(random), drawn_most(random)),
        _ => TextOp::Rscan(key, drawn_end(random), drawn_most(random)),
    }
}

// A batch of up to 60 operations.
fn batch<R: Abort>(rt: &R, alloc: Alloc, random: &mut Random) -> Vec<Op, Alloc> {
    let mut ops = Vec::new(alloc);
    for _ in 0..random.below(61) {
        let op = op(alloc, draw(random)).expect(rt, "memory");
        ops.push(op).expect(rt, "memory");
    }
    ops
}

// Runs a batch that is drawn. It is refused where it is too long.
fn run_drawn<R: Abort + Threads + Sync>(
    rt: &R,
    alloc: Alloc,
    random: &mut Random,
    both: &mut Compared,
) {
    let ops = batch(rt, alloc, random);
    let refusal = run_both(rt, both, &ops);
    let ops = ops.len() as u64;
    let expected = match ops > 48 {
        true => Some(Refusal::TooLong { ops, most: 48 }),
        false => None,
    };
    assert_equal(rt, refusal, expected);
}

// So many workers, pieces of so many records, so many writes in a chain, and batches of up to 48 operations.
fn limited<R: Abort>(rt: &R, workers: u64, piece: u64, chain: u64) -> Options {
    Options::new(workers, piece, chain, 64, 16, 48, 1048576).expect(rt, "options")
}

// Runs batches that are drawn from a seed, some 1,800 writes on a few keys: the one leaf is consolidated among them, and
// with so few keys never split.
fn compare<R: Abort + Threads + Sync>(rt: &R, alloc: Alloc, seed: u64, options: Options) {
    let mut random = Random::new(seed);
    let mut both = Compared {
        index: Index::new(alloc, options).expect(rt, "an index"),
        map: ReferenceMap::new(alloc),
        replaced: 0,
    };
    for _ in 0..150u64 {
        run_drawn(rt, alloc, &mut random, &mut both);
    }
    has_replaced(rt, &both, &options);
}

#[test]
fn batches_are_answered_as_by_the_plain_program(rt: HostRuntime) {
    let alloc = heap(rt.alloc()).expect(&rt, "a heap");
    for workers in [1u64, 2, 16, 64] {
        compare(&rt, alloc, 2013, limited(&rt, workers, 1, 8));
        compare(&rt, alloc, 20180610, limited(&rt, workers, 64, 8));
        compare(&rt, alloc, 65536, limited(&rt, workers, 4096, 8));
    }
}

// With leaves consolidated beside the posting, chains of three lengths.
fn compare_beside<R: Abort + Threads + Sync>(rt: &R, alloc: Alloc, workers: u64, piece: u64) {
    for chain in [1, 2, 8] {
        let options = limited(rt, workers, piece, chain).with_beside(true);
        compare(rt, alloc, workers.wrapping_add(chain), options);
    }
}

#[test]
fn batches_beside_consolidations_are_answered_as_by_the_plain_program(rt: HostRuntime) {
    let alloc = heap(rt.alloc()).expect(&rt, "a heap");
    for workers in [1u64, 2, 16, 64] {
        compare_beside(&rt, alloc, workers, 1);
        compare_beside(&rt, alloc, workers, 64);
    }
}
