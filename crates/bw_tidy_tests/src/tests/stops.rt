// Several stops, behind which leaves are looked at in the order of their keys, none twice, and none is forgotten.
use super::literal::PlainTree;
use super::maker::Maker;
use super::pages::same_pages;
use super::stopping::run_stopped;
use crate::tests::assertions::{assert_equal, assert_that};
use bw_batch::{Index, Op, OpenGate, Options, Tidy};
use bw_memory::Alloc;
use std::process::Abort;
use std::thread::Threads;

// Nothing was done before the stop.
const STOPPED: Tidy = Tidy {
    consolidated: 0,
    splits: 0,
    merges: 0,
    stopped: true,
};

// A leaf was consolidated before the stop, and not merged.
const CUT: Tidy = Tidy {
    consolidated: 1,
    splits: 0,
    merges: 0,
    stopped: true,
};

// A leaf was consolidated, and one that was consolidated before was merged.
const MERGED: Tidy = Tidy {
    consolidated: 1,
    splits: 0,
    merges: 1,
    stopped: false,
};

/// An index, and the plain program that tidies.
#[derive(Drop)]
pub struct Compared {
    pub index: Index,
    pub plain: PlainTree,
}

/// Both of them empty, with one write in a chain, so many entries on a page, and a merge where it has fewer than that.
pub fn empty<R: Abort>(rt: &R, make: &Maker<R>, page_max: u64, page_min: u64) -> Compared {
    let options = Options::new(1, 64, 1, page_max, page_min, 64, 1048576).expect(rt, "options");
    let (most, least) = (page_max as usize, page_min as usize);
    Compared {
        index: Index::new(make.alloc, options).expect(rt, "an index"),
        plain: PlainTree::new(rt, make.alloc, 1, most, least, 1048576),
    }
}

/// Upserts of these keys.
pub fn upserts<R: Abort>(rt: &R, make: &Maker<R>, keys: &[u8]) -> Vec<Op, Alloc> {
    let mut ops = Vec::new(make.alloc);
    for key in keys {
        ops.push(make.upsert(*key, 1)).expect(rt, "memory");
    }
    ops
}

/// Runs a batch by both and tidies.
pub fn run<R: Abort + Threads + Sync>(rt: &R, both: &mut Compared, ops: &[Op]) {
    let done = both.index.run(rt, ops, &OpenGate).expect(rt, "memory");
    both.plain.run(rt, ops);
    assert_equal(rt, done.tidy, both.plain.tidy(rt));
    same_pages(rt, &both.index, &both.plain);
}

// Runs a batch behind which tidying is refused, by the plain program without tidying.
fn stop<R: Abort + Threads + Sync>(rt: &R, make: &Maker<R>, both: &mut Compared, keys: &[u8]) {
    let ops = upserts(rt, make, keys);
    let tidy = run_stopped(rt, make.alloc, &mut both.index, &ops);
    assert_equal(rt, tidy, STOPPED);
    both.plain.run(rt, &ops);
    same_pages(rt, &both.index, &both.plain);
}

// Three keys on each of four leaves.
fn four_leaves<R: Abort + Threads + Sync>(rt: &R, make: &Maker<R>, page_min: u64) -> Compared {
    let keys = [10, 20, 30, 40, 50, 60, 70, 80, 90, 100, 110, 120];
    let mut both = empty(rt, make, 4, page_min);
    run(rt, &mut both, &upserts(rt, make, &keys));
    both
}

#[test]
fn leaves_are_looked_at_in_their_order_behind_several_stops(rt: HostRuntime) {
    let make = Maker::new(&rt, rt.alloc());
    let mut both = four_leaves(&rt, &make, 0);
    stop(&rt, &make, &mut both, &[101, 102]);
    stop(&rt, &make, &mut both, &[41, 42, 71, 72]);
    stop(&rt, &make, &mut both, &[11, 12, 101, 43]);
    run(&rt, &mut both, &[]);
    run(&rt, &mut both, &upserts(&rt, &make, &[13, 73]));
}

/// Deletes of these keys.
pub fn deletes<R: Abort>(rt: &R, make: &Maker<R>, keys: &[u8]) -> Vec<Op, Alloc> {
    let mut ops = Vec::new(make.alloc);
    for key in keys {
        ops.push(make.delete(*key)).expect(rt, "memory");
    }
    ops
}

// Deletes all keys but one of the third leaf, by a batch of which this growth is refused, and by the plain program without
// tidying. Whether tidying stopped between the leaf's consolidation and its merge.
fn is_cut<R: Abort + Threads + Sync>(
    rt: &R,
    make: &Maker<R>,
    both: &mut Compared,
    growth: u64,
) -> bool {
    let ops = deletes(rt, make, &[80, 90]);
    make.alloc.refuse(growth);
    let outcome = both.index.run(rt, &ops, &OpenGate);
    make.alloc.refuse(0);
    both.plain.run(rt, &ops);
    match outcome {
        Ok(done) => done.tidy == CUT,
        Err(_) => false,
    }
}

// Behind such a stop has the next tidying stop, too, at the first leaf. The one behind that consolidates the first leaf, and
// merges the third one. Whether there was such a stop.
fn is_cut_twice<R: Abort + Threads + Sync>(rt: &R, make: &Maker<R>, growth: u64) -> bool {
    let mut both = four_leaves(rt, make, 2);
    if !is_cut(rt, make, &mut both, growth) {
        return false;
    }
    let ops = upserts(rt, make, &[10, 20]);
    assert_equal(
        rt,
        run_stopped(rt, make.alloc, &mut both.index, &ops),
        STOPPED,
    );
    both.plain.run(rt, &ops);
    let done = both.index.run(rt, &[], &OpenGate).expect(rt, "memory");
    assert_equal(rt, done.tidy, MERGED);
    both.plain.tidy(rt);
    same_pages(rt, &both.index, &both.plain);
    true
}

#[test]
fn a_leaf_that_was_begun_is_merged_behind_two_stops(rt: HostRuntime) {
    let make = Maker::new(&rt, rt.alloc());
    let mut cuts = 0u64;
    for growth in 1..100 {
        if is_cut_twice(&rt, &make, growth) {
            cuts = cuts.saturating_add(1);
        }
    }
    assert_that(&rt, cuts > 1);
}

// Behind a stop runs a batch that is long enough for its leaves to be looked at while it is answered. It consolidates the first
// leaf, and the third one is merged. Whether there was such a stop.
fn is_merged_behind_many<R: Abort + Threads + Sync>(rt: &R, make: &Maker<R>, growth: u64) -> bool {
    let mut both = four_leaves(rt, make, 2);
    if !is_cut(rt, make, &mut both, growth) {
        return false;
    }
    let ops = upserts(rt, make, &[10; 64]);
    let done = both.index.run(rt, &ops, &OpenGate).expect(rt, "memory");
    assert_equal(rt, done.tidy, MERGED);
    both.plain.run(rt, &ops);
    both.plain.tidy(rt);
    same_pages(rt, &both.index, &both.plain);
    true
}

#[test]
fn a_leaf_that_was_begun_is_merged_behind_a_long_batch(rt: HostRuntime) {
    let make = Maker::new(&rt, rt.alloc());
    let mut cuts = 0u64;
    for growth in 1..100 {
        if is_merged_behind_many(&rt, &make, growth) {
            cuts = cuts.saturating_add(1);
        }
    }
    assert_that(&rt, cuts > 1);
}
