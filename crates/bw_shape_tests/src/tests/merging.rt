// Pages merged into their left neighbours, index entries that go, and roots with one child.
ghost use Rattle.std.specs.Prelude.{◌≡◌, [], ◌∷◌, Some, None};

use super::making::{FLOOR, Pair, memory};
use super::scripts::Call::{
    Absorb, Consolidate, DropRoot, FinishAbsorb, FinishSplit, GrowRoot, Split,
};
use super::scripts::Start::{FivePairs, TwoPairs};
use super::scripts::Step::{Done, NotNeeded, Seen, Tidied};
use super::scripts::{Step, play, take_all, tree_after};
use super::shapes::Wanted;
use super::sights::Sight::{
    Finds, Holds, Level, Namer, NamerOfRemoved, NoLowKey, Pages, Removed, RemovedInto, Stands,
};
use bw_fixtures::key;
use bw_memory::Alloc;
use bw_model::Pairs;
use bw_page::Leaf;
use bw_shape::{PageId, Tree};
use std::process::Abort;

// The leaf up to c, with page 1 at its right: a 1.
fn up_to_c<R: Abort>(rt: &R, alloc: Alloc) -> Leaf
    ensures low { result.low ≡ [] }
    ensures high { result.high ≡ Some (99 ∷ []) }
    ensures side { result.side ≡ Some 1 }
{
    let mut pairs = Pairs::new(alloc);
    pairs.push(b"a", b"1").expect(rt, "a pair");
    let low = key(alloc, b"").expect(rt, "a key");
    let high = key(alloc, b"c").expect(rt, "a key");
    Leaf::from_pairs(low, Some(high), Some(PageId(1)), pairs)
}

// The leaf from c on: c 3.
fn from_c<R: Abort>(rt: &R, alloc: Alloc) -> Leaf
    ensures low { result.low ≡ 99 ∷ [] }
    ensures high { result.high ≡ None }
    ensures side { result.side ≡ None }
{
    let mut pairs = Pairs::new(alloc);
    pairs.push(b"c", b"3").expect(rt, "a pair");
    Leaf::from_pairs(key(alloc, b"c").expect(rt, "a key"), None, None, pairs)
}

/// The tree of these two leaves, with page 2 as their root.
pub fn of_two_pairs<R: Abort>(rt: &R, alloc: Alloc) -> Tree
    ensures { result.staged ≡ None }
{
    let leaves = vec![in alloc; up_to_c(rt, alloc), from_c(rt, alloc)].expect(rt, "the leaves");
    Tree::from_level(alloc, leaves).expect(rt, "a tree")
}

/// All that is read of that tree.
pub const TWO_PAIRS: &[Pair] = &[(b"a", b"1"), (b"c", b"3")];

/// What leads to the tree of five pairs as two leaves without records, 0 and 1, under the root 2, which names both.
pub const TWO_LEAVES: &[Step] = &[Done(Split(0, 2)), Done(GrowRoot), Done(Consolidate(0))];

/// Both pairs on one leaf.
pub const ONE_LEAF: &[Wanted] = &[(0, 0, b"", None, 2, 0)];

const A_LEFT_MERGE_IS_FINISHED: &[Step] = &[
    Done(Absorb(1)),
    Tidied(0, 0),
    Seen(Pages(ONE_LEAF)),
    Seen(Holds(TWO_PAIRS)),
];

// A merge was left where the page above still names the leaf. Tidying all pages finishes it, and the root goes.
#[test]
fn a_merge_that_was_left_is_finished(rt: HostRuntime) {
    play(&rt, rt.alloc(), TwoPairs, &[], A_LEFT_MERGE_IS_FINISHED);
}

const A_LEAF_IS_MERGED: &[Step] = &[
    Seen(Stands(2, &[0, 1, 2])),
    Done(Absorb(1)),
    Seen(Stands(2, &[FLOOR + 2, 1, 2])),
    Seen(Level(1, None)),
    Seen(Finds(0, b"c", Some(0))),
    Seen(Finds(0, b"b", Some(0))),
    NotNeeded(Absorb(1)),
    Done(FinishAbsorb(1)),
    Seen(Stands(2, &[FLOOR + 2, 1, FLOOR + 3])),
    NotNeeded(FinishAbsorb(1)),
    Done(DropRoot),
    Seen(Stands(0, &[FLOOR + 2, 1, 2])),
    NotNeeded(DropRoot),
    Done(Consolidate(0)),
    Seen(Stands(0, &[0, 1, 2])),
    Done(Split(0, 1)),
    Seen(Stands(0, &[FLOOR + 4, 1, 2, 3])),
];

#[test]
fn a_leaf_is_merged_into_its_left_neighbour(rt: HostRuntime) {
    play(&rt, rt.alloc(), FivePairs, TWO_LEAVES, A_LEAF_IS_MERGED);
}

const NO_MERGE_IS_NEEDED: &[Step] = &[
    NotNeeded(Absorb(0)),
    NotNeeded(Absorb(2)),
    NotNeeded(Absorb(9)),
    NotNeeded(FinishAbsorb(1)),
    NotNeeded(FinishAbsorb(9)),
    NotNeeded(DropRoot),
    Seen(Stands(2, &[0, 1, 2])),
];

#[test]
fn a_merge_that_is_not_needed_changes_nothing(rt: HostRuntime) {
    play(&rt, rt.alloc(), FivePairs, TWO_LEAVES, NO_MERGE_IS_NEEDED);
}

const A_RECORD_IS_IN_THE_WAY: &[Step] = &[
    Done(Split(1, 1)),
    Seen(Stands(2, &[0, FLOOR + 1, 2, 3])),
    NotNeeded(Absorb(1)),
    NotNeeded(Absorb(3)),
    Done(Consolidate(1)),
    NotNeeded(Absorb(3)),
    Done(Absorb(1)),
    Seen(Stands(2, &[FLOOR + 3, 1, 2, 3])),
    Seen(Finds(0, b"c", Some(0))),
    Seen(Finds(0, b"d", Some(3))),
];

// A page that has a record, or whose left neighbour has one, isn't merged; nor is one that the level above doesn't name.
#[test]
fn a_page_with_a_record_is_not_merged(rt: HostRuntime) {
    play(
        &rt,
        rt.alloc(),
        FivePairs,
        TWO_LEAVES,
        A_RECORD_IS_IN_THE_WAY,
    );
}

// What leads to leaves 0, 1 and 3 under the root 2, which names the last one by a record, behind the merge of that one into
// leaf 1.
const MERGED_UNDER_A_RECORD: &[Step] = &[
    Done(Split(0, 2)),
    Done(GrowRoot),
    Done(Consolidate(0)),
    Done(Split(1, 1)),
    Done(FinishSplit(1)),
    Done(Consolidate(1)),
    Done(Absorb(3)),
];

const AN_ENTRY_GOES_BEHIND_A_RECORD: &[Step] = &[
    Seen(Stands(2, &[0, FLOOR + 4, FLOOR + 2, 3])),
    Done(FinishAbsorb(3)),
    Seen(Stands(2, &[0, FLOOR + 4, FLOOR + 5, 3])),
    NotNeeded(FinishAbsorb(3)),
    Seen(Finds(0, b"d", Some(1))),
    NotNeeded(DropRoot),
];

#[test]
fn a_page_above_with_a_record_drops_an_entry(rt: HostRuntime) {
    play(
        &rt,
        rt.alloc(),
        FivePairs,
        MERGED_UNDER_A_RECORD,
        AN_ENTRY_GOES_BEHIND_A_RECORD,
    );
}

// What leads from those two leaves to a new page that begins where the removed one did.
const MERGED_AND_PARTED: &[Step] = &[
    Done(Split(0, 2)),
    Done(GrowRoot),
    Done(Consolidate(0)),
    Done(Absorb(1)),
    Done(Consolidate(0)),
    Done(Split(0, 2)),
];

const AN_ENTRY_IS_TAKEN: &[Step] = &[
    Seen(Stands(2, &[FLOOR + 3, 1, 2, 3])),
    Seen(Finds(0, b"c", Some(3))),
    Seen(Namer(3, None)),
    Seen(NamerOfRemoved(1, Some(2))),
    Done(FinishSplit(0)),
    Seen(Namer(3, Some(2))),
    Seen(NamerOfRemoved(1, None)),
    NotNeeded(FinishAbsorb(1)),
    NotNeeded(FinishSplit(0)),
    Seen(Stands(2, &[FLOOR + 3, 1, FLOOR + 4, 3])),
    Seen(Finds(0, b"c", Some(3))),
];

// A page may begin where a removed one did before that merge is finished. It takes the place of that one's entry.
#[test]
fn a_new_page_takes_the_entry_of_a_removed_one(rt: HostRuntime) {
    play(
        &rt,
        rt.alloc(),
        FivePairs,
        MERGED_AND_PARTED,
        AN_ENTRY_IS_TAKEN,
    );
}

const AN_ENTRY_OF_ITS_OWN: &[Step] = &[
    Done(FinishAbsorb(1)),
    Done(FinishSplit(0)),
    Seen(Stands(2, &[FLOOR + 3, 1, FLOOR + 5, 3])),
    Seen(Finds(0, b"c", Some(3))),
];

// And where the merge is finished first, it gets an entry of its own.
#[test]
fn a_new_page_gets_an_entry_where_a_removed_one_had_its(rt: HostRuntime) {
    play(
        &rt,
        rt.alloc(),
        FivePairs,
        MERGED_AND_PARTED,
        AN_ENTRY_OF_ITS_OWN,
    );
}

/// What leads to those two leaves, the second of which was removed, and is still named.
pub const MERGED: &[Step] = &[
    Done(Split(0, 2)),
    Done(GrowRoot),
    Done(Consolidate(0)),
    Done(Absorb(1)),
];

// Compares the children of page 2, which has no record: the second one of two is page 1.
fn names_the_removed_page<R: Abort>(rt: &R, tree: &Tree) {
    assert!(rt; tree.is_plain(PageId(2)));
    assert!(rt; tree.child_at(PageId(2), 1) == Some(PageId(1)));
    assert!(rt; tree.child_at(PageId(2), 2) == None);
}

const NO_PAGE_BEGINS: &[Step] = &[
    NotNeeded(Split(2, 1)),
    Seen(Stands(2, &[FLOOR + 2, 1, 2])),
    Done(FinishAbsorb(1)),
    Seen(Stands(2, &[FLOOR + 2, 1, FLOOR + 3])),
];

// An inner page isn't split in front of an entry of a removed page, so that it can always drop that one.
#[test]
fn no_page_begins_with_a_removed_one(rt: HostRuntime) {
    let alloc = memory(&rt, rt.alloc());
    let mut tree = tree_after(&rt, alloc, FivePairs, MERGED);
    names_the_removed_page(&rt, &tree);
    take_all(&rt, alloc, &mut tree, NO_PAGE_BEGINS);
}

const UNDER_TWO_PAGES: &[Step] = &[
    Done(Split(2, 1)),
    NotNeeded(Absorb(1)),
    NotNeeded(Absorb(3)),
    NotNeeded(DropRoot),
    Seen(Stands(2, &[0, 1, FLOOR + 1, 3])),
];

// And the root doesn't go: it has one child, and a right neighbour.
#[test]
fn leaves_under_two_pages_are_not_merged(rt: HostRuntime) {
    play(&rt, rt.alloc(), FivePairs, TWO_LEAVES, UNDER_TWO_PAGES);
}

const INNER_PAGES_ARE_MERGED: &[Step] = &[
    Done(Split(2, 1)),
    Done(GrowRoot),
    Done(Consolidate(2)),
    Seen(Stands(4, &[0, 1, 2, 3, 4])),
    Done(Absorb(3)),
    Seen(Stands(4, &[0, 1, FLOOR + 3, 3, 4])),
    Seen(Finds(1, b"c", Some(2))),
    Seen(Finds(0, b"c", Some(1))),
    Done(FinishAbsorb(3)),
    Done(DropRoot),
    Seen(Stands(2, &[0, 1, FLOOR + 3, 3, 4])),
    NotNeeded(DropRoot),
    Done(Consolidate(2)),
    Done(Absorb(1)),
    Done(FinishAbsorb(1)),
    Done(DropRoot),
    Seen(Stands(0, &[FLOOR + 6, 1, 2, 3, 4])),
];

#[test]
fn inner_pages_are_merged_too(rt: HostRuntime) {
    play(
        &rt,
        rt.alloc(),
        FivePairs,
        TWO_LEAVES,
        INNER_PAGES_ARE_MERGED,
    );
}

const WHERE_A_PAGE_BEGAN: &[Step] = &[
    Seen(Removed(1, false)),
    Seen(Removed(9, false)),
    Seen(NamerOfRemoved(1, None)),
    Done(Absorb(1)),
    Seen(RemovedInto(1, 0, 0, b"c")),
    Seen(NamerOfRemoved(1, Some(2))),
    Done(FinishAbsorb(1)),
    Seen(Removed(1, true)),
    Seen(NamerOfRemoved(1, None)),
];

#[test]
fn what_is_left_of_a_page_says_where_it_began(rt: HostRuntime) {
    play(&rt, rt.alloc(), FivePairs, TWO_LEAVES, WHERE_A_PAGE_BEGAN);
}

const A_ROOT_LEADS_TO_ITS_CHILD: &[Step] = &[
    Done(Absorb(1)),
    Done(FinishAbsorb(1)),
    Seen(Removed(2, false)),
    Done(DropRoot),
    Seen(RemovedInto(2, 0, 1, b"")),
    Seen(Level(2, None)),
    Seen(NoLowKey(2)),
    Seen(NamerOfRemoved(2, None)),
    NotNeeded(FinishAbsorb(2)),
    Seen(Holds(TWO_PAIRS)),
];

// A root that goes is a removed page, which leads to the page that takes its place.
#[test]
fn what_is_left_of_a_root_leads_to_its_child(rt: HostRuntime) {
    play(&rt, rt.alloc(), TwoPairs, &[], A_ROOT_LEADS_TO_ITS_CHILD);
}
