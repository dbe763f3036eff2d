// Identifiers that are given back, and new pages that take them.
use super::making::FIVE_PAIRS;
use super::merging::{ONE_LEAF, TWO_PAIRS};
use super::scripts::Call::{
    Absorb, Consolidate, DropRoot, FinishAbsorb, FinishSplit, GrowRoot, Release, Split,
};
use super::scripts::Start::{FivePairs, TwoPairs};
use super::scripts::Step::{Done, NotNeeded, Seen, Trimmed};
use super::scripts::{Refusal, Step, play, refuse_each};
use super::shapes::Wanted;
use super::sights::Sight::{Holds, IsFree, Pages, Root, Routes};

/// Both pairs on leaves of their own.
pub const ONE_EACH: &[Wanted] = &[(0, 0, b"", Some(b"c"), 1, 0), (1, 0, b"c", None, 1, 0)];

// The same, where the second leaf has another identifier.
const ON_ANOTHER: &[Wanted] = &[(0, 0, b"", Some(b"c"), 1, 0), (2, 0, b"c", None, 1, 0)];

const ONE_LEAF_AND_TWO_AGAIN: &[Step] = &[
    Seen(Root(2)),
    Done(Absorb(1)),
    Seen(Routes(b"c", 0)),
    Seen(Holds(TWO_PAIRS)),
    NotNeeded(Release(1)),
    Done(FinishAbsorb(1)),
    NotNeeded(FinishAbsorb(1)),
    Done(Release(1)),
    NotNeeded(Release(1)),
    Seen(Holds(TWO_PAIRS)),
    Done(DropRoot),
    NotNeeded(DropRoot),
    Seen(Pages(ONE_LEAF)),
    Seen(Holds(TWO_PAIRS)),
    Done(Consolidate(0)),
    Done(Split(0, 1)),
    Seen(Pages(ONE_EACH)),
    Seen(Holds(TWO_PAIRS)),
];

// A leaf goes, its index entry after it, then its identifier, and then the root. The leaf that is left is split again, and the
// new page takes the identifier.
#[test]
fn two_leaves_become_one_and_part_again(rt: HostRuntime) {
    play(&rt, rt.alloc(), TwoPairs, &[], ONE_LEAF_AND_TWO_AGAIN);
}

const BOTH_ARE_TAKEN: &[Step] = &[
    Done(Absorb(1)),
    NotNeeded(Release(1)),
    Done(FinishAbsorb(1)),
    Done(DropRoot),
    Done(Release(2)),
    Done(Release(1)),
    NotNeeded(Release(1)),
    Seen(Holds(TWO_PAIRS)),
    Done(Consolidate(0)),
    Done(Split(0, 1)),
    Seen(Pages(ONE_EACH)),
    Done(GrowRoot),
    Seen(Root(2)),
    Seen(Holds(TWO_PAIRS)),
];

// A leaf that was removed gives its identifier back once no index entry names it, and so does the root that went. The
// pages that come next take them, the least one first.
#[test]
fn new_pages_take_what_was_given_back(rt: HostRuntime) {
    play(&rt, rt.alloc(), TwoPairs, &[], BOTH_ARE_TAKEN);
}

const NONE_IS_GIVEN_BACK: &[Step] = &[
    NotNeeded(Release(0)),
    NotNeeded(Release(1)),
    NotNeeded(Release(2)),
    NotNeeded(Release(3)),
    Seen(Holds(TWO_PAIRS)),
];

// Pages on levels keep their identifiers, and those that were never given out aren't given back.
#[test]
fn pages_on_levels_are_not_given_back(rt: HostRuntime) {
    play(&rt, rt.alloc(), TwoPairs, &[], NONE_IS_GIVEN_BACK);
}

/// What leads to the leaves 0, 1 and 3 under the root 2, which names all three. The leaf 3 is removed into the leaf 1, and that
/// one into the leaf 0. The root still names both.
pub const REMOVED_TWICE: &[Step] = &[
    Done(Split(0, 2)),
    Done(GrowRoot),
    Done(Split(1, 1)),
    Done(FinishSplit(1)),
    Done(Consolidate(0)),
    Done(Consolidate(1)),
    Done(Absorb(3)),
    Done(Consolidate(1)),
    Done(Absorb(1)),
];

const THE_LEFT_ONE_IS_LAST: &[Step] = &[
    Seen(Holds(FIVE_PAIRS)),
    Seen(Routes(b"c", 0)),
    Seen(Routes(b"e", 0)),
    Done(FinishAbsorb(1)),
    Seen(Holds(FIVE_PAIRS)),
    Seen(Routes(b"e", 0)),
    NotNeeded(Release(1)),
    NotNeeded(Release(3)),
    Done(FinishAbsorb(3)),
    NotNeeded(Release(1)),
    Done(Release(3)),
    Done(Release(1)),
    Seen(Holds(FIVE_PAIRS)),
];

// A page into which another one was removed is given back after that one.
#[test]
fn a_left_neighbour_is_given_back_last(rt: HostRuntime) {
    play(
        &rt,
        rt.alloc(),
        FivePairs,
        REMOVED_TWICE,
        THE_LEFT_ONE_IS_LAST,
    );
}

const THE_LAST_ARE_FORGOTTEN: &[Step] = &[
    Trimmed(3),
    Done(Absorb(1)),
    Done(FinishAbsorb(1)),
    Done(DropRoot),
    Done(Release(2)),
    Trimmed(2),
    Done(Release(1)),
    Trimmed(1),
    Seen(Holds(TWO_PAIRS)),
    Done(Consolidate(0)),
    Done(Split(0, 1)),
    Trimmed(2),
    Seen(Holds(TWO_PAIRS)),
];

// Free identifiers behind the last page are forgotten, and given out anew.
#[test]
fn free_identifiers_behind_the_last_page_are_forgotten(rt: HostRuntime) {
    play(&rt, rt.alloc(), TwoPairs, &[], THE_LAST_ARE_FORGOTTEN);
}

/// What leads to two leaves under the inner pages 2 and 3 and the root 4, of which 3 goes and then 4, behind it leaf 1, and then
/// the root 2.
pub const WITHOUT_TWO_ROOTS: &[Step] = &[
    Done(Split(0, 2)),
    Done(GrowRoot),
    Done(Consolidate(0)),
    Done(Split(2, 1)),
    Done(GrowRoot),
    Done(Consolidate(2)),
    Done(Absorb(3)),
    Done(FinishAbsorb(3)),
    Done(DropRoot),
    Done(Consolidate(2)),
    Done(Absorb(1)),
    Done(FinishAbsorb(1)),
    Done(DropRoot),
];

const THE_OLD_ROOT_IS_FIRST: &[Step] = &[
    Seen(Root(0)),
    NotNeeded(Release(0)),
    Done(Release(3)),
    NotNeeded(Release(2)),
    Done(Release(4)),
    Done(Release(2)),
    Done(Release(1)),
    NotNeeded(Release(2)),
    Seen(Holds(FIVE_PAIRS)),
];

// Of two roots that went, the one that took the other's place is given back after that one.
#[test]
fn an_old_root_is_given_back_before_its_child(rt: HostRuntime) {
    play(
        &rt,
        rt.alloc(),
        FivePairs,
        WITHOUT_TWO_ROOTS,
        THE_OLD_ROOT_IS_FIRST,
    );
}

const REFUSED_AND_GIVEN_BACK: &[Step] = &[
    Seen(IsFree(2, false)),
    Done(Release(2)),
    Seen(IsFree(2, true)),
    Done(Consolidate(0)),
    Done(Split(0, 1)),
    Seen(Pages(ON_ANOTHER)),
];

// Gives the root's identifier back, and where that was refused, once more.
const A_RELEASE: Refusal = Refusal {
    start: TwoPairs,
    before: &[Done(Absorb(1)), Done(FinishAbsorb(1)), Done(DropRoot)],
    call: Release(2),
    first: REFUSED_AND_GIVEN_BACK,
    later: REFUSED_AND_GIVEN_BACK,
    done: &[
        Seen(IsFree(2, true)),
        Done(Consolidate(0)),
        Done(Split(0, 1)),
        Seen(Pages(ON_ANOTHER)),
    ],
};

// Where memory is refused, the identifier isn't given back, and isn't lost.
#[test]
fn each_growth_of_an_identifier_given_back_is_refused(rt: HostRuntime) {
    refuse_each(&rt, rt.alloc(), &A_RELEASE, 1);
}
