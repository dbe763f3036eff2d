// The pages of an index beside those of the plain program where that marks nothing: behind each batch it looks at all pages
// alike, and knows nothing of the batches before, as the tidying of a whole tree does.
//
// All pages are compared, with their identifiers, ranges, entries and writes, and what tidying did, behind each batch up to the
// one behind which a page right above the leaves was merged: its first leaf has another left neighbour under the same page
// then, and the index alone looks at it once more, though nothing was written there. Where one page stands above all leaves
// there is no such merge, and no batch is left out.
use super::literal::PlainTree;
use super::maker::Maker;
use super::tidying::{AMPLE, BATCHES, Compared, ROW, Sizes, batch, empty, run};
use crate::tests::assertions::{assert_equal, assert_that};
use bw_fixtures::Random;
use std::process::Abort;
use std::thread::Threads;

// All leaves stand under one page: 200 keys make some 13 leaves.
const WIDE: Sizes = Sizes {
    chain_max: 1,
    page_max: 32,
    page_min: 16,
};

// The same with three writes in a chain.
const WIDE_LONG: Sizes = Sizes {
    chain_max: 3,
    page_max: 30,
    page_min: 15,
};

// These make three levels. An inner page has one child too seldom for a merge.
const HIGH: Sizes = Sizes {
    chain_max: 1,
    page_max: 8,
    page_min: 2,
};

// These make four, and pages above the leaves are merged.
const SMALL: Sizes = Sizes {
    chain_max: 1,
    page_max: 4,
    page_min: 2,
};

// How many seeds there are for each.
const SEEDS: u64 = 4;

// What was seen along the batches.
#[derive(Clone, Copy)]
struct Seen {
    // how many batches were compared, and how many pages were merged behind them
    batches: u64,
    merges: u64,
    // the highest level
    level: u32,
}

// All of them empty, of which the plain program marks nothing.
fn unmarked<R: Abort>(rt: &R, make: &Maker<R>, workers: u64, limits: Sizes) -> Compared {
    let mut all = empty(rt, make, workers, limits, AMPLE);
    all.plain.mark_nothing();
    all
}

// The level of the root.
fn root_level(plain: &PlainTree) -> u32 {
    match plain.pages().last() {
        Some(root) => root.level,
        None => 0,
    }
}

// Runs batches that are drawn by all, up to one behind which a page right above the leaves was merged.
fn run_all<R: Abort + Threads + Sync>(
    rt: &R,
    make: &Maker<R>,
    all: &mut Compared,
    seed: u64,
    seen: &mut Seen,
) {
    let mut random = Random::new(seed);
    for number in 0..BATCHES {
        if all.plain.has_merged_above() {
            return;
        }
        let ops = batch(rt, make, &mut random, number / ROW % 2 == 1);
        seen.merges = seen.merges.saturating_add(run(rt, all, &ops));
        seen.level = seen.level.max(root_level(&all.plain));
        seen.batches = seen.batches.saturating_add(1);
    }
}

// The same from some seeds, by one worker and by four in turn.
fn run_seeds<R: Abort + Threads + Sync>(rt: &R, make: &Maker<R>, limits: Sizes) -> Seen {
    let mut seen = Seen {
        batches: 0,
        merges: 0,
        level: 0,
    };
    for seed in 1..=SEEDS {
        let workers = if seed % 2 == 0 { 4 } else { 1 };
        let mut all = unmarked(rt, make, workers, limits);
        run_all(rt, make, &mut all, seed, &mut seen);
    }
    seen
}

// No batch is left out, and the root comes to this level.
fn compare<R: Abort + Threads + Sync>(rt: &R, make: &Maker<R>, limits: Sizes, level: u32) {
    let seen = run_seeds(rt, make, limits);
    assert_equal(rt, (seen.batches, seen.level), (SEEDS * BATCHES, level));
    assert_that(rt, seen.merges > 10);
}

#[test]
fn leaves_under_one_page_are_those_of_a_program_that_marks_nothing(rt: HostRuntime) {
    let make = Maker::new(&rt, rt.alloc());
    compare(&rt, &make, WIDE, 1);
}

#[test]
fn leaves_with_chains_are_those_of_a_program_that_marks_nothing(rt: HostRuntime) {
    let make = Maker::new(&rt, rt.alloc());
    compare(&rt, &make, WIDE_LONG, 1);
}

#[test]
fn three_levels_are_those_of_a_program_that_marks_nothing(rt: HostRuntime) {
    let make = Maker::new(&rt, rt.alloc());
    compare(&rt, &make, HIGH, 2);
}

#[test]
fn small_pages_are_those_of_a_program_that_marks_nothing_until_inner_ones_are_merged(
    rt: HostRuntime,
) {
    let make = Maker::new(&rt, rt.alloc());
    let seen = run_seeds(&rt, &make, SMALL);
    assert_equal(&rt, seen.level, 3);
    assert_that(&rt, seen.batches > SEEDS * ROW && seen.merges > 20);
}
