// Each growth of a merge refused in turn.
use super::making::{FLOOR, memory};
use super::merging::{MERGED, TWO_LEAVES};
use super::scripts::Call::{
    Absorb, Consolidate, DropRoot, FinishAbsorb, FinishSplit, GrowRoot, Split,
};
use super::scripts::Start::FivePairs;
use super::scripts::Step::{Done, Seen};
use super::scripts::{Refusal, Step, make, refuse_each, take_all, tree_after};
use super::sights::Sight::{Finds, Records, Stands};
use crate::tests::assertions::{assert_equal, assert_that};
use bw_fixtures::was_refused;
use bw_memory::Alloc;
use bw_shape::{Did, Memory, PageId};
use std::process::Abort;

const NOT_MERGED: &[Step] = &[Seen(Stands(2, &[0, 1, 2])), Seen(Records(1))];

const STILL_NAMED: &[Step] = &[Seen(Stands(2, &[FLOOR + 2, 1, 2]))];

const BARE: &[Step] = &[Seen(Stands(2, &[0, 1, 2]))];

// Merges two leaves.
const A_MERGE: Refusal = Refusal {
    start: FivePairs,
    before: TWO_LEAVES,
    call: Absorb(1),
    first: NOT_MERGED,
    later: NOT_MERGED,
    done: STILL_NAMED,
};

// Merges the second of three leaves, the last of which isn't named, into the first: there are four records then, and no room
// for a fifth one.
const MERGED_WITH_NO_ROOM: &[Step] = &[
    Done(Split(0, 2)),
    Done(GrowRoot),
    Done(Consolidate(0)),
    Done(Split(1, 1)),
    Done(Consolidate(1)),
    Done(Absorb(1)),
];

const NAMED_WITH_NO_ROOM: &[Step] = &[Seen(Stands(2, &[FLOOR + 3, 1, 2, 3]))];

// Finishes that merge.
const A_DROPPED_ENTRY: Refusal = Refusal {
    start: FivePairs,
    before: MERGED_WITH_NO_ROOM,
    call: FinishAbsorb(1),
    first: NAMED_WITH_NO_ROOM,
    later: NAMED_WITH_NO_ROOM,
    done: &[Seen(Stands(2, &[FLOOR + 3, 1, FLOOR + 4, 3]))],
};

// What leads to a merge of leaf 3 into leaf 1 under the root 2, which has a record of a child, and to three splits behind it:
// there are eight records then, and no room for a ninth one.
const UNDER_A_RECORD_WITH_NO_ROOM: &[Step] = &[
    Done(Split(0, 2)),
    Done(GrowRoot),
    Done(Consolidate(0)),
    Done(Split(1, 1)),
    Done(FinishSplit(1)),
    Done(Consolidate(1)),
    Done(Absorb(3)),
    Done(Split(0, 1)),
    Done(Consolidate(1)),
    Done(Split(1, 1)),
    Done(Split(5, 1)),
];

const A_RECORD_ABOVE: &[Step] = &[Seen(Stands(
    2,
    &[FLOOR + 5, FLOOR + 6, FLOOR + 2, 3, 4, FLOOR + 7, 6],
))];

const CONSOLIDATED_ABOVE: &[Step] = &[Seen(Stands(
    2,
    &[FLOOR + 5, FLOOR + 6, 2, 3, 4, FLOOR + 7, 6],
))];

const DROPPED_ABOVE: &[Step] = &[Seen(Stands(
    2,
    &[FLOOR + 5, FLOOR + 6, FLOOR + 8, 3, 4, FLOOR + 7, 6],
))];

// Finishes a merge under a page with a record where this growth is refused, and compares the tree after that: the page may
// be consolidated. Whether it was.
fn rebase_refused<R: Abort>(rt: &R, alloc: Alloc, growth: u64) -> bool {
    let mut tree = tree_after(rt, alloc, FivePairs, UNDER_A_RECORD_WITH_NO_ROOM);
    alloc.refuse(growth);
    let finished = make(&mut tree, FinishAbsorb(3));
    if !was_refused(alloc, growth) {
        assert_equal(rt, finished, Ok(Did::Done));
        take_all(rt, alloc, &mut tree, DROPPED_ABOVE);
        return false;
    }
    assert_equal(rt, finished, Err(Memory));
    let steps = if tree.is_plain(PageId(2)) {
        CONSOLIDATED_ABOVE
    } else {
        A_RECORD_ABOVE
    };
    take_all(rt, alloc, &mut tree, steps);
    true
}

// What leads to leaf 0 alone under the root 2, which has a record, and as many removed pages as their list has room for: three
// times a leaf is merged into leaf 0, which parts again, and then a fourth one is.
const FOUR_REMOVED: &[Step] = &[
    Done(Split(0, 2)),
    Done(GrowRoot),
    Done(Consolidate(0)),
    Done(Absorb(1)),
    Done(FinishAbsorb(1)),
    Done(Consolidate(0)),
    Done(Split(0, 2)),
    Done(FinishSplit(0)),
    Done(Consolidate(0)),
    Done(Absorb(3)),
    Done(FinishAbsorb(3)),
    Done(Consolidate(0)),
    Done(Split(0, 2)),
    Done(FinishSplit(0)),
    Done(Consolidate(0)),
    Done(Absorb(4)),
    Done(FinishAbsorb(4)),
    Done(Consolidate(0)),
    Done(Split(0, 2)),
    Done(FinishSplit(0)),
    Done(Consolidate(0)),
    Done(Absorb(5)),
    Done(FinishAbsorb(5)),
];

const THE_ROOT_STAYS: &[Step] = &[Seen(Stands(2, &[FLOOR + 17, 1, FLOOR + 18, 3, 4, 5]))];

// Drops a root that has a record.
const A_ROOT_THAT_GOES: Refusal = Refusal {
    start: FivePairs,
    before: FOUR_REMOVED,
    call: DropRoot,
    first: THE_ROOT_STAYS,
    later: THE_ROOT_STAYS,
    done: &[Seen(Stands(0, &[FLOOR + 17, 1, 2, 3, 4, 5]))],
};

#[test]
fn each_growth_of_a_merge_is_refused(rt: HostRuntime) {
    refuse_each(&rt, rt.alloc(), &A_MERGE, 1);
}

#[test]
fn each_growth_of_a_dropped_entry_is_refused(rt: HostRuntime) {
    refuse_each(&rt, rt.alloc(), &A_DROPPED_ENTRY, 1);
}

#[test]
fn an_entry_whose_record_has_room_is_dropped_with_no_memory(rt: HostRuntime) {
    let alloc = memory(&rt, rt.alloc());
    let mut tree = tree_after(&rt, alloc, FivePairs, MERGED);
    alloc.refuse(1);
    assert_equal(&rt, make(&mut tree, FinishAbsorb(1)), Ok(Did::Done));
    assert_equal(&rt, alloc.left(), 1);
}

// A page that took over its neighbour, or lost a child, has what its record tells already.
#[test]
fn behind_a_merge_both_pages_are_consolidated_with_no_memory(rt: HostRuntime) {
    let alloc = memory(&rt, rt.alloc());
    let mut tree = tree_after(&rt, alloc, FivePairs, MERGED);
    assert_equal(&rt, make(&mut tree, FinishAbsorb(1)), Ok(Did::Done));
    alloc.refuse(1);
    assert_equal(&rt, make(&mut tree, Consolidate(0)), Ok(Did::Done));
    assert_equal(&rt, make(&mut tree, Consolidate(2)), Ok(Did::Done));
    assert_equal(&rt, alloc.left(), 1);
    alloc.refuse(0);
    take_all(&rt, alloc, &mut tree, BARE);
}

// What leads to two inner pages under the root 4, and to their merge: page 2 has both leaves.
const INNER_PAGES_MERGED: &[Step] = &[
    Done(Split(0, 2)),
    Done(GrowRoot),
    Done(Consolidate(0)),
    Done(Split(2, 1)),
    Done(GrowRoot),
    Done(Consolidate(2)),
    Done(Absorb(3)),
];

const INNER_PAGE_BARE: &[Step] = &[
    Seen(Stands(4, &[0, 1, 2, 3, 4])),
    Seen(Finds(0, b"c", Some(1))),
];

#[test]
fn an_inner_page_that_took_over_its_neighbour_is_consolidated_with_no_memory(rt: HostRuntime) {
    let alloc = memory(&rt, rt.alloc());
    let mut tree = tree_after(&rt, alloc, FivePairs, INNER_PAGES_MERGED);
    alloc.refuse(1);
    assert_equal(&rt, make(&mut tree, Consolidate(2)), Ok(Did::Done));
    assert_equal(&rt, alloc.left(), 1);
    alloc.refuse(0);
    take_all(&rt, alloc, &mut tree, INNER_PAGE_BARE);
}

#[test]
fn each_growth_of_an_entry_under_a_record_is_refused(rt: HostRuntime) {
    let alloc = memory(&rt, rt.alloc());
    for growth in 1..100 {
        if !rebase_refused(&rt, alloc, growth) {
            assert_that(&rt, growth > 2);
            return;
        }
    }
    panic!(rt; "no run met no refusal")
}

#[test]
fn each_growth_of_a_root_that_goes_is_refused(rt: HostRuntime) {
    refuse_each(&rt, rt.alloc(), &A_ROOT_THAT_GOES, 1);
}
