// Scans over leaves that their own batch empties and fills again, compared with the plain program.
use super::compared::{Compared, run_both};
use super::numbers::{delete, upsert};
use crate::tests::assertions::assert_equal;
use bw_batch::{Index, Op, Options};
use bw_fixtures::{Random, heap, key};
use bw_memory::Alloc;
use bw_model::ReferenceMap;
use std::process::Abort;
use std::thread::Threads;

// Keys enough for some thirty leaves of up to four pairs.
const KEYS: u32 = 96;

// A scan of a few pairs from the key of a number on, forth or back, sometimes below another one.
fn scan<R: Abort>(rt: &R, alloc: Alloc, random: &mut Random) -> Op {
    let from = (random.below(KEYS as usize) as u32).to_be_bytes();
    let to = (random.below(KEYS as usize) as u32).to_be_bytes();
    let from = key(alloc, &from).expect(rt, "a key");
    let to = match random.below(3) {
        0 => Some(key(alloc, &to).expect(rt, "a key")),
        _ => None,
    };
    let most = 1 + random.below(3) as u64;
    match random.below(2) {
        0 => Op::Scan { from, to, most },
        _ => Op::Rscan { from, to, most },
    }
}

// A scan of the whole range for one pair, forth or back.
fn scan_all<R: Abort>(rt: &R, alloc: Alloc, random: &mut Random) -> Op {
    let from = key(alloc, b"").expect(rt, "a key");
    let (to, most) = (None, 1);
    match random.below(2) {
        0 => Op::Scan { from, to, most },
        _ => Op::Rscan { from, to, most },
    }
}

// One of six operations is a write that puts a pair, and one takes one away; in a batch that empties, three.
fn draw<R: Abort>(rt: &R, alloc: Alloc, random: &mut Random, empties: bool) -> Op {
    let number = random.below(KEYS as usize) as u32;
    match random.below(6) {
        0 => upsert(rt, alloc, number, number),
        1 => delete(rt, alloc, number),
        2 | 3 if empties => delete(rt, alloc, number),
        2 | 4 => scan_all(rt, alloc, random),
        _ => scan(rt, alloc, random),
    }
}

// Operations that are drawn.
fn batch<R: Abort>(rt: &R, alloc: Alloc, random: &mut Random, empties: bool) -> Vec<Op, Alloc> {
    let mut ops = Vec::new(alloc);
    for _ in 0..600u64 {
        ops.push(draw(rt, alloc, random, empties))
            .expect(rt, "memory");
    }
    ops
}

// The writes of all keys.
fn all_keys<R: Abort>(rt: &R, alloc: Alloc) -> Vec<Op, Alloc> {
    let mut ops = Vec::new(alloc);
    for number in 0..KEYS {
        ops.push(upsert(rt, alloc, number, 1)).expect(rt, "memory");
    }
    ops
}

// Batches over small leaves: each batch begins with all keys, so that the leaves are there which it empties.
fn compare<R: Abort + Threads + Sync>(rt: &R, alloc: Alloc, workers: u64, seed: u64) {
    let mut random = Random::new(seed);
    let options = Options::new(workers, 16, 1, 4, 2, 1024, 1048576).expect(rt, "options");
    let mut both = Compared {
        index: Index::new(alloc, options).expect(rt, "an index"),
        map: ReferenceMap::new(alloc),
        replaced: 0,
    };
    for turn in 0..8u64 {
        let ops = all_keys(rt, alloc);
        assert_equal(rt, run_both(rt, &mut both, &ops), None);
        let ops = batch(rt, alloc, &mut random, turn % 4 != 3);
        assert_equal(rt, run_both(rt, &mut both, &ops), None);
    }
}

#[test]
fn scans_pass_leaves_that_their_batch_empties(rt: HostRuntime) {
    let alloc = heap(rt.alloc()).expect(&rt, "a heap");
    for seed in [3u64, 5, 8] {
        compare(&rt, alloc, 1, seed);
        compare(&rt, alloc, 4, seed);
    }
}
