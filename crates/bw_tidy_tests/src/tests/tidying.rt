// Batches that are drawn from a seed, behind which an index has the pages of the plain program, and answers what a map does.
use super::literal::PlainTree;
use super::maker::{Maker, same};
use super::pages::same_pages;
use crate::tests::assertions::{assert_equal, assert_that};
use bw_batch::{Index, Op, OpenGate, Options, Reply};
use bw_fixtures::Random;
use bw_memory::Alloc;
use bw_model::ReferenceMap;
use std::process::Abort;
use std::thread::Threads;

/// How many batches there are.
pub const BATCHES: u64 = 80;

/// How many of them in a row grow the index, before as many shrink it.
pub const ROW: u64 = 20;

// How many keys.
const KEYS: usize = 200;

// The most operations of a batch.
const LONGEST: usize = 100;

/// So many records make no sweep due.
pub const AMPLE: u64 = 1_048_576;

// With so many a sweep is due before many batches.
const FEW: u64 = 250;

fn drawn_key(random: &mut Random) -> u8 {
    random.below(KEYS) as u8 + 1
}

fn drawn_end(random: &mut Random) -> Option<u8> {
    match random.below(3) {
        0 => None,
        _ => Some(drawn_key(random)),
    }
}

fn drawn_value(random: &mut Random) -> u32 {
    random.below(3) as u32
}

fn drawn_most(random: &mut Random) -> u64 {
    random.below(40) as u64
}

// An operation that is drawn: mostly a delete, where the index is to shrink.
fn draw<R: Abort>(make: &Maker<R>, random: &mut Random, shrinks: bool) -> Op {
    let key = drawn_key(random);
    if shrinks && random.below(4) > 0 {
        return make.delete(key);
    }
    match random.below(12) {
        0 => make.get(key),
        1 => make.scan(key, drawn_end(random), drawn_most(random)),
        2 => make.rscan(key, drawn_end(random), drawn_most(random)),
        3 => make.update(key, drawn_value(random)),
        4 => make.swap_if(key, drawn_value(random), drawn_value(random)),
        5 | 6 => make.delete(key),
        7 | 8 => make.insert(key, drawn_value(random)),
        _ => make.upsert(key, drawn_value(random)),
    }
}

/// A batch of 1 to 12 operations that are drawn, or of 100.
pub fn batch<R: Abort>(
    rt: &R,
    make: &Maker<R>,
    random: &mut Random,
    shrinks: bool,
) -> Vec<Op, Alloc> {
    let len = match random.below(10) {
        0 => LONGEST,
        _ => random.below(12) + 1,
    };
    let mut ops = Vec::new(make.alloc);
    for _ in 0..len {
        ops.push(draw(make, random, shrinks)).expect(rt, "memory");
    }
    ops
}

/// Limits of pages.
#[derive(Clone, Copy)]
pub struct Sizes {
    pub chain_max: u64,
    pub page_max: u64,
    pub page_min: u64,
}

// With one write in a chain and four pairs no page is merged, or an empty one, or one of one pair.
const SPLIT: Sizes = Sizes {
    chain_max: 1,
    page_max: 4,
    page_min: 0,
};

const EMPTY: Sizes = Sizes {
    chain_max: 1,
    page_max: 4,
    page_min: 1,
};

const SMALL: Sizes = Sizes {
    chain_max: 1,
    page_max: 4,
    page_min: 2,
};

// With three writes in a chain.
const LONG_SPLIT: Sizes = Sizes {
    chain_max: 3,
    page_max: 5,
    page_min: 0,
};

const LONG: Sizes = Sizes {
    chain_max: 3,
    page_max: 6,
    page_min: 3,
};

// With none: each leaf that was written to is consolidated.
const NO_CHAINS: Sizes = Sizes {
    chain_max: 0,
    page_max: 4,
    page_min: 2,
};

/// An index, the plain program that tidies, and the one that answers.
#[derive(Drop)]
pub struct Compared {
    pub index: Index,
    pub plain: PlainTree,
    pub map: ReferenceMap,
}

/// All of them empty, with these limits.
pub fn empty<R: Abort>(
    rt: &R,
    make: &Maker<R>,
    workers: u64,
    limits: Sizes,
    record_max: u64,
) -> Compared {
    let Sizes {
        chain_max,
        page_max,
        page_min,
    } = limits;
    let batch_max = LONGEST as u64;
    let chain = chain_max.max(1);
    let options = Options::new(workers, 1, chain, page_max, page_min, batch_max, record_max)
        .expect(rt, "options")
        .with_eager(chain_max == 0);
    Compared {
        index: Index::new(make.alloc, options).expect(rt, "an index"),
        plain: PlainTree::new(
            rt,
            make.alloc,
            chain_max as usize,
            page_max as usize,
            page_min as usize,
            record_max as usize,
        ),
        map: ReferenceMap::new(make.alloc),
    }
}

/// Compares the pairs.
pub fn same_pairs<R: Abort>(rt: &R, index: &Index, map: &ReferenceMap) {
    let pairs = index.contents().expect(rt, "memory");
    let expected = map.entries().expect(rt, "memory");
    assert_equal(rt, pairs, expected);
}

/// Has a map run a batch, and compares what an index answered.
pub fn same_replies<R: Abort>(rt: &R, map: &mut ReferenceMap, ops: &[Op], replies: &[Reply]) {
    let expected = map.run(ops).expect(rt, "memory");
    same(rt, replies, expected.as_slice());
}

/// Runs a batch by all, and compares the replies, what tidying did, the pages and the pairs. How many pages were merged.
pub fn run<R: Abort + Threads + Sync>(rt: &R, all: &mut Compared, ops: &[Op]) -> u64 {
    let done = all.index.run(rt, ops, &OpenGate).expect(rt, "memory");
    same_replies(rt, &mut all.map, ops, done.replies.as_slice());
    all.plain.run(rt, ops);
    assert_equal(rt, done.tidy, all.plain.tidy(rt));
    same_pages(rt, &all.index, &all.plain);
    same_pairs(rt, &all.index, &all.map);
    done.tidy.merges
}

// What was seen along the batches.
#[derive(Clone, Copy)]
struct Seen {
    merges: u64,
    // the most pages at once
    pages: usize,
}

// Runs batches that are drawn by all. In turn many of them grow the index, and as many shrink it.
fn run_all<R: Abort + Threads + Sync>(rt: &R, make: &Maker<R>, all: &mut Compared) -> Seen {
    let mut random = Random::new(20130408);
    let mut seen = Seen {
        merges: 0,
        pages: 0,
    };
    for number in 0..BATCHES {
        let ops = batch(rt, make, &mut random, number / ROW % 2 == 1);
        seen.merges = seen.merges.saturating_add(run(rt, all, &ops));
        seen.pages = seen.pages.max(all.plain.pages().len());
    }
    seen
}

// Runs batches with these limits, by one worker and by four, without sweeps, and with sweeps between them. Pages are merged,
// if they are to be.
fn compare<R: Abort + Threads + Sync>(rt: &R, make: &Maker<R>, limits: Sizes, record_max: u64) {
    for workers in [1u64, 4] {
        let mut all = empty(rt, make, workers, limits, record_max);
        let seen = run_all(rt, make, &mut all);
        assert_that(rt, seen.pages > 30);
        assert_that(rt, seen.merges > 20 || limits.page_min == 0);
        assert_equal(rt, all.plain.sweeps() > 2, record_max == FEW);
    }
}

#[test]
fn small_pages_are_split_as_by_the_plain_program(rt: HostRuntime) {
    let make = Maker::new(&rt, rt.alloc());
    compare(&rt, &make, SPLIT, AMPLE);
}

#[test]
fn chains_stay_and_pages_are_split_as_by_the_plain_program(rt: HostRuntime) {
    let make = Maker::new(&rt, rt.alloc());
    compare(&rt, &make, LONG_SPLIT, AMPLE);
}

#[test]
fn empty_pages_are_merged_as_by_the_plain_program(rt: HostRuntime) {
    let make = Maker::new(&rt, rt.alloc());
    compare(&rt, &make, EMPTY, AMPLE);
}

#[test]
fn small_pages_are_merged_as_by_the_plain_program(rt: HostRuntime) {
    let make = Maker::new(&rt, rt.alloc());
    compare(&rt, &make, SMALL, AMPLE);
}

#[test]
fn chains_stay_and_pages_are_merged_as_by_the_plain_program(rt: HostRuntime) {
    let make = Maker::new(&rt, rt.alloc());
    compare(&rt, &make, LONG, AMPLE);
}

#[test]
fn small_pages_are_merged_as_by_the_plain_program_among_sweeps(rt: HostRuntime) {
    let make = Maker::new(&rt, rt.alloc());
    compare(&rt, &make, SMALL, FEW);
}

#[test]
fn chains_stay_and_pages_are_merged_as_by_the_plain_program_among_sweeps(rt: HostRuntime) {
    let make = Maker::new(&rt, rt.alloc());
    compare(&rt, &make, LONG, FEW);
}

#[test]
fn no_chain_stays_as_by_the_plain_program(rt: HostRuntime) {
    let make = Maker::new(&rt, rt.alloc());
    compare(&rt, &make, NO_CHAINS, AMPLE);
}

#[test]
fn no_chain_stays_as_by_the_plain_program_among_sweeps(rt: HostRuntime) {
    let make = Maker::new(&rt, rt.alloc());
    compare(&rt, &make, NO_CHAINS, FEW);
}
