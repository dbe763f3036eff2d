// Each growth of memory refused in turn.
use super::making::{FLOOR, memory};
use super::scripts::Call::{Consolidate, FinishSplit, GrowRoot, Split};
use super::scripts::Start::FivePairs;
use super::scripts::Step::{Done, Seen};
use super::scripts::{Call, Refusal, Step, make, refuse_each, take_all, tree_after};
use super::sights::Sight::Stands;
use super::steps::NAMED_ONCE;
use crate::tests::assertions::{assert_equal, assert_that};
use bw_fixtures::was_refused;
use bw_memory::Alloc;
use bw_shape::{Did, Memory};
use std::process::Abort;

const NOT_PARTED: &[Step] = &[Seen(Stands(0, &[0]))];

const PARTED: &[Step] = &[Seen(Stands(0, &[FLOOR, 1]))];

// Splits the leaf where this growth is refused, and compares the tree after that. Whether that stopped it: the last two
// growths only give room back, and the leaf is split without it.
fn split_refused<R: Abort>(rt: &R, alloc: Alloc, growth: u64) -> bool {
    let mut tree = tree_after(rt, alloc, FivePairs, &[]);
    alloc.refuse(growth);
    let parted = make(&mut tree, Split(0, 2));
    let refused = was_refused(alloc, growth);
    if parted == Err(Memory) {
        assert_that(rt, refused);
        take_all(rt, alloc, &mut tree, NOT_PARTED);
        return true;
    }
    assert_equal(rt, parted, Ok(Did::Done));
    take_all(rt, alloc, &mut tree, PARTED);
    false
}

// Grows the root over two leaves.
const A_ROOT: Refusal = Refusal {
    start: FivePairs,
    before: &[Done(Split(0, 2))],
    call: GrowRoot,
    first: PARTED,
    later: PARTED,
    done: &[Seen(Stands(2, &[FLOOR, 1, 2]))],
};

const AS_BEFORE: &[Step] = &[Seen(Stands(2, &[FLOOR, FLOOR + 1, FLOOR + 2, FLOOR + 3, 4]))];

const CONSOLIDATED: &[Step] = &[Seen(Stands(2, &[FLOOR, FLOOR + 1, 2, FLOOR + 3, 4]))];

// Consolidates an inner page with an index entry over it.
const A_CONSOLIDATION: Refusal = Refusal {
    start: FivePairs,
    before: NAMED_ONCE,
    call: Consolidate(2),
    first: AS_BEFORE,
    later: AS_BEFORE,
    done: CONSOLIDATED,
};

// Finishes a split. The page above is consolidated before it gets an entry.
const AN_INDEX_ENTRY: Refusal = Refusal {
    start: FivePairs,
    before: NAMED_ONCE,
    call: FinishSplit(3),
    first: AS_BEFORE,
    later: CONSOLIDATED,
    done: &[Seen(Stands(2, &[FLOOR, FLOOR + 1, FLOOR + 4, FLOOR + 3, 4]))],
};

#[test]
fn each_growth_of_an_index_entry_is_refused(rt: HostRuntime) {
    refuse_each(&rt, rt.alloc(), &AN_INDEX_ENTRY, 3);
}

#[test]
fn each_growth_of_a_consolidation_is_refused(rt: HostRuntime) {
    refuse_each(&rt, rt.alloc(), &A_CONSOLIDATION, 2);
}

// Makes a call where the next growth is refused, and takes these steps after that. What came of the call, and how many growths
// are left until one is refused.
fn made_without_memory<R: Abort>(
    rt: &R,
    alloc: Alloc,
    before: &[Step],
    call: Call,
    steps: &[Step],
) -> (Result<Did, Memory>, u64) {
    let mut tree = tree_after(rt, alloc, FivePairs, before);
    alloc.refuse(1);
    let made = make(&mut tree, call);
    let left = alloc.left();
    alloc.refuse(0);
    take_all(rt, alloc, &mut tree, steps);
    (made, left)
}

const INNER_PAGE_PARTED: &[Step] = &[
    Done(Split(0, 2)),
    Done(GrowRoot),
    Done(Split(2, 1)),
    Seen(Stands(2, &[FLOOR, 1, FLOOR + 1, 3])),
];

const INNER_PAGE_CONSOLIDATED: &[Step] = &[Seen(Stands(2, &[FLOOR, 1, 2, 3]))];

#[test]
fn a_page_that_was_split_is_consolidated_with_no_memory(rt: HostRuntime) {
    let alloc = memory(&rt, rt.alloc());
    let (made, left) = made_without_memory(
        &rt,
        alloc,
        INNER_PAGE_PARTED,
        Consolidate(2),
        INNER_PAGE_CONSOLIDATED,
    );
    assert_equal(&rt, made, Ok(Did::Done));
    assert_equal(&rt, left, 1);
}

#[test]
fn each_growth_of_a_split_is_refused(rt: HostRuntime) {
    let alloc = memory(&rt, rt.alloc());
    for growth in 1..100 {
        if !split_refused(&rt, alloc, growth) {
            assert_that(&rt, growth > 3);
            return;
        }
    }
    panic!(rt; "no run met no refusal")
}

const THE_ROOT_GROWS_LATER: &[Step] = &[
    Seen(Stands(0, &[FLOOR, 1])),
    Done(GrowRoot),
    Seen(Stands(2, &[FLOOR, 1, 2])),
];

#[test]
fn a_refused_root_grows_later(rt: HostRuntime) {
    let alloc = memory(&rt, rt.alloc());
    let before = &[Done(Split(0, 2))];
    let (made, _) = made_without_memory(&rt, alloc, before, GrowRoot, THE_ROOT_GROWS_LATER);
    assert_equal(&rt, made, Err(Memory));
}

#[test]
fn each_growth_of_a_new_root_is_refused(rt: HostRuntime) {
    refuse_each(&rt, rt.alloc(), &A_ROOT, 1);
}
