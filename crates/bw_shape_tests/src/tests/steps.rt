// Splits of leaves and of inner pages, roots that grow, and consolidation.
use super::making::{FLOOR, Pair};
use super::scripts::Call::{Consolidate, FinishSplit, GrowRoot, Split};
use super::scripts::Start::FivePairs;
use super::scripts::Step::{Done, NotNeeded, Seen};
use super::scripts::{Step, play};
use super::shapes::Wanted;
use super::sights::Sight::{Finds, Folds, Leaf, Level, Pages, Routes, Stands};
use super::tidying::ROOTLESS;

const A_LEAF_PARTS_AND_THE_ROOT_GROWS: &[Step] = &[
    Done(Split(0, 2)),
    Seen(Stands(0, &[FLOOR, 1])),
    Seen(Pages(ROOTLESS)),
    Seen(Routes(b"c", 1)),
    Seen(Finds(0, b"b", Some(0))),
    Seen(Finds(0, b"c", Some(1))),
    Seen(Finds(1, b"c", None)),
    NotNeeded(Split(0, 2)),
    Done(GrowRoot),
    Seen(Stands(2, &[FLOOR, 1, 2])),
    Seen(Finds(1, b"c", Some(2))),
    Seen(Level(2, Some(1))),
    NotNeeded(GrowRoot),
];

#[test]
fn a_leaf_of_five_pairs_parts_and_the_root_grows(rt: HostRuntime) {
    play(
        &rt,
        rt.alloc(),
        FivePairs,
        &[],
        A_LEAF_PARTS_AND_THE_ROOT_GROWS,
    );
}

const NO_STEP_IS_NEEDED: &[Step] = &[
    NotNeeded(Split(0, 0)),
    NotNeeded(Split(0, 5)),
    NotNeeded(Split(9, 1)),
    NotNeeded(FinishSplit(0)),
    NotNeeded(FinishSplit(9)),
    NotNeeded(Consolidate(0)),
    NotNeeded(Consolidate(9)),
    NotNeeded(GrowRoot),
    Seen(Level(9, None)),
    Seen(Stands(0, &[0])),
];

#[test]
fn a_step_that_is_not_needed_changes_nothing(rt: HostRuntime) {
    play(&rt, rt.alloc(), FivePairs, &[], NO_STEP_IS_NEEDED);
}

const AN_INNER_PAGE_PARTS: &[Step] = &[
    Done(Split(0, 2)),
    Done(GrowRoot),
    Done(Split(2, 1)),
    Seen(Stands(2, &[FLOOR, 1, FLOOR + 1, 3])),
    Seen(Finds(1, b"b", Some(2))),
    Seen(Finds(1, b"c", Some(3))),
    Done(GrowRoot),
    Seen(Stands(4, &[FLOOR, 1, FLOOR + 1, 3, 4])),
    Done(Consolidate(2)),
    NotNeeded(Consolidate(2)),
    Done(Consolidate(0)),
    Seen(Stands(4, &[0, 1, 2, 3, 4])),
    Done(Split(0, 1)),
    Seen(Stands(4, &[FLOOR + 2, 1, 2, 3, 4, 5])),
    Seen(Finds(0, b"b", Some(5))),
];

#[test]
fn an_inner_page_parts_too(rt: HostRuntime) {
    play(&rt, rt.alloc(), FivePairs, &[], AN_INNER_PAGE_PARTS);
}

const FIRST_TWO: &[Pair] = &[(b"a", b"1"), (b"b", b"2")];

const LAST_THREE: &[Pair] = &[(b"c", b"3"), (b"d", b"4"), (b"e", b"5")];

// What five pairs become where their leaf is split, and a root comes over the halves.
const HALVES: &[Wanted] = &[
    (0, 0, b"", Some(b"c"), 2, 0),
    (1, 0, b"c", None, 3, 0),
    (2, 1, b"", None, 2, 0),
];

// What those become where the right leaf is split, too.
const THREE: &[Wanted] = &[
    (0, 0, b"", Some(b"c"), 2, 0),
    (1, 0, b"c", Some(b"d"), 1, 0),
    (3, 0, b"d", None, 2, 0),
    (2, 1, b"", None, 3, 0),
];

const A_LEAF_PARTS_AND_ITS_RIGHT_HALF: &[Step] = &[
    Done(Split(0, 2)),
    Seen(Leaf(1, LAST_THREE)),
    NotNeeded(FinishSplit(0)),
    Done(GrowRoot),
    NotNeeded(GrowRoot),
    NotNeeded(FinishSplit(0)),
    Seen(Routes(b"a", 0)),
    Seen(Routes(b"c", 1)),
    Seen(Pages(HALVES)),
    Done(Split(1, 1)),
    Seen(Stands(2, &[FLOOR, FLOOR + 1, 2, 3])),
    Done(FinishSplit(1)),
    Seen(Stands(2, &[FLOOR, FLOOR + 1, FLOOR + 2, 3])),
    NotNeeded(FinishSplit(1)),
    NotNeeded(FinishSplit(3)),
    NotNeeded(GrowRoot),
    Done(Consolidate(2)),
    NotNeeded(Consolidate(2)),
    Seen(Routes(b"c", 1)),
    Seen(Routes(b"d", 3)),
    Seen(Pages(THREE)),
    Seen(Stands(2, &[FLOOR, FLOOR + 1, 2, 3])),
];

// The root that comes over the halves of a leaf names both. What comes of the right half's split it names by a record, until
// it is consolidated.
#[test]
fn a_leaf_parts_and_then_its_right_half(rt: HostRuntime) {
    play(
        &rt,
        rt.alloc(),
        FivePairs,
        &[],
        A_LEAF_PARTS_AND_ITS_RIGHT_HALF,
    );
}

const HALVES_ARE_FOLDED: &[Step] = &[
    Done(Split(0, 2)),
    Seen(Folds(b"a", FIRST_TWO, Some(1))),
    Seen(Folds(b"c", LAST_THREE, None)),
    Seen(Stands(0, &[FLOOR, 1])),
];

#[test]
fn a_leaf_that_was_split_is_made_without_its_chain(rt: HostRuntime) {
    play(&rt, rt.alloc(), FivePairs, &[], HALVES_ARE_FOLDED);
}

/// What leads to a root over the leaves 0, 1, 3 and 4, which names the first three, the third one by a record. Leaf 3 was split.
pub const NAMED_ONCE: &[Step] = &[
    Done(Split(0, 2)),
    Done(GrowRoot),
    Done(Split(1, 1)),
    Done(FinishSplit(1)),
    Done(Split(3, 1)),
];

const A_RECORD_IS_CONSOLIDATED_FIRST: &[Step] = &[
    Done(FinishSplit(3)),
    Seen(Stands(2, &[FLOOR, FLOOR + 1, FLOOR + 4, FLOOR + 3, 4])),
    NotNeeded(FinishSplit(3)),
    NotNeeded(FinishSplit(1)),
    Done(Consolidate(2)),
    NotNeeded(FinishSplit(3)),
    Seen(Stands(2, &[FLOOR, FLOOR + 1, 2, FLOOR + 3, 4])),
    Seen(Finds(0, b"e", Some(4))),
];

#[test]
fn a_page_above_that_has_a_record_is_consolidated_first(rt: HostRuntime) {
    play(
        &rt,
        rt.alloc(),
        FivePairs,
        NAMED_ONCE,
        A_RECORD_IS_CONSOLIDATED_FIRST,
    );
}

const AN_INNER_SPLIT_IS_FINISHED: &[Step] = &[
    Done(Split(0, 2)),
    Done(GrowRoot),
    Done(Split(2, 1)),
    NotNeeded(FinishSplit(2)),
    Done(GrowRoot),
    Done(Consolidate(0)),
    Done(Split(0, 1)),
    Done(FinishSplit(0)),
    Seen(Stands(4, &[FLOOR + 2, 1, FLOOR + 3, 3, 4, 5])),
    Done(Consolidate(2)),
    Done(Split(2, 1)),
    Done(FinishSplit(2)),
    Seen(Stands(4, &[FLOOR + 2, 1, FLOOR + 4, 3, FLOOR + 5, 5, 6])),
    NotNeeded(FinishSplit(2)),
    NotNeeded(GrowRoot),
    Seen(Finds(1, b"b", Some(6))),
    Seen(Finds(0, b"b", Some(5))),
];

#[test]
fn a_split_of_an_inner_page_is_finished(rt: HostRuntime) {
    play(&rt, rt.alloc(), FivePairs, &[], AN_INNER_SPLIT_IS_FINISHED);
}
