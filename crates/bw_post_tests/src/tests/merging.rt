// Batches over trees in which a merge isn't finished.
ghost use Rattle.std.specs.Prelude.{◌≡◌, None};

use super::half_done::{
    AS_OF_5, AS_OF_7, AS_OF_8, AS_OF_9, AS_OF_10, BEHIND_HALVES, BEHIND_LEAVES, ON_HALVES,
    ON_LEAVES,
};
use super::making::{Pair, memory};
use super::scripts::Call::{Absorb, Consolidate, DropRoot, FinishAbsorb, GrowRoot, Split, Sweep};
use super::scripts::Start::Empty;
use super::scripts::Step::{Done, Run, Seen, Tidied};
use super::scripts::{Step, play, take_all, tree_after};
use super::sights::Range;
use super::sights::Sight::{Has, Holds, Pages, Records, Scans, ScansBack};
use super::tidying::Bounds::{FivePairs, FourPairs};
use super::tidying::{FIVE, FIVE_PUTS};
use crate::tests::assertions::assert_equal;
use bw_fixtures::TextOp::Delete;
use bw_post::Tree;
use bw_shape::{Limits, Tidy, tidy};
use std::process::Abort;

// Two leaves under a root, the right one of which was merged into the left one.
const HALF_MERGED: &[Step] = &[
    Run(FIVE_PUTS, &[0]),
    Tidied(FourPairs, &[0], (1, 1)),
    Seen(Pages(FIVE)),
    Done(Consolidate(0)),
    Done(Absorb(1)),
    Seen(Pages(&[(0, 0, b"", None, 5, 0), (2, 1, b"", None, 2, 0)])),
];

const POSTED_TO_A_MERGED_LEAF: &[Step] = &[
    Run(ON_HALVES, &[0]),
    Seen(Has(5, AS_OF_5)),
    Seen(Has(6, AS_OF_5)),
    Seen(Has(7, AS_OF_7)),
    Seen(Holds(8, BEHIND_HALVES)),
    Done(FinishAbsorb(1)),
    Seen(Pages(&[(0, 0, b"", None, 5, 2), (2, 1, b"", None, 1, 0)])),
    Done(DropRoot),
    Seen(Has(5, AS_OF_5)),
    Seen(Has(6, AS_OF_5)),
    Seen(Has(7, AS_OF_7)),
    Seen(Holds(8, BEHIND_HALVES)),
    Run(ON_LEAVES, &[0]),
    Seen(Has(8, AS_OF_8)),
    Seen(Has(9, AS_OF_9)),
    Seen(Has(10, AS_OF_10)),
    Seen(Holds(11, BEHIND_LEAVES)),
    Seen(Pages(&[(0, 0, b"", None, 4, 4)])),
    Tidied(FivePairs, &[0], (1, 0)),
    Seen(Pages(&[(0, 0, b"", None, 4, 0)])),
];

#[test]
fn a_batch_is_posted_to_a_merged_leaf(rt: HostRuntime) {
    play(&rt, rt.alloc(), Empty, HALF_MERGED, POSTED_TO_A_MERGED_LEAF);
}

const SWEPT_AND_FINISHED: &[Step] = &[
    Run(ON_HALVES, &[0]),
    Done(Sweep),
    Seen(Records(0)),
    Seen(Holds(0, BEHIND_HALVES)),
    Done(FinishAbsorb(1)),
    Seen(Holds(0, BEHIND_HALVES)),
    Seen(Pages(&[(0, 0, b"", None, 5, 0), (2, 1, b"", None, 1, 0)])),
];

#[test]
fn a_sweep_leaves_a_merge_to_be_finished(rt: HostRuntime) {
    play(&rt, rt.alloc(), Empty, HALF_MERGED, SWEPT_AND_FINISHED);
}

// Page 1, which is removed, began at c.
const FROM_REMOVED: Range = Range {
    from: b"c",
    to: None,
    most: 9,
    stamp: 5,
};

const OVER_BOTH: Range = Range {
    from: b"b",
    to: Some(b"d"),
    most: 9,
    stamp: 8,
};

const TWO: Range = Range {
    from: b"b",
    to: None,
    most: 2,
    stamp: 8,
};

const OLD: &[Pair] = &[(b"c", b"3"), (b"d", b"4"), (b"e", b"5")];

const BOTH: &[Pair] = &[(b"b", b"8"), (b"c", b"3")];

const SCANS_GO_ON: &[Step] = &[
    Run(ON_HALVES, &[0]),
    Seen(Scans(FROM_REMOVED, OLD)),
    Seen(Scans(OVER_BOTH, BOTH)),
    Seen(Scans(TWO, BOTH)),
    Seen(ScansBack(OVER_BOTH, &[(b"c", b"3"), (b"b", b"8")])),
    Seen(ScansBack(TWO, &[(b"e", b"5"), (b"d", b"9")])),
    Seen(Has(8, &[(b"cc", None), (b"f", None)])),
];

#[test]
fn scans_go_on_in_what_was_a_removed_page(rt: HostRuntime) {
    play(&rt, rt.alloc(), Empty, HALF_MERGED, SCANS_GO_ON);
}

// A leaf under each of two inner pages, the right one of which was merged into the left one.
const HALF_MERGED_ABOVE: &[Step] = &[
    Run(FIVE_PUTS, &[0]),
    Tidied(FourPairs, &[0], (1, 1)),
    Seen(Pages(FIVE)),
    Done(Split(2, 1)),
    Done(GrowRoot),
    Done(Consolidate(2)),
    Done(Absorb(3)),
];

const POSTED_BELOW_A_MERGED_PAGE: &[Step] = &[
    Seen(Pages(&[
        (0, 0, b"", Some(b"c"), 2, 0),
        (1, 0, b"c", None, 3, 0),
        (2, 1, b"", None, 2, 0),
        (4, 2, b"", None, 2, 0),
    ])),
    Run(ON_HALVES, &[0, 1]),
    Seen(Has(5, AS_OF_5)),
    Seen(Has(6, AS_OF_5)),
    Seen(Has(7, AS_OF_7)),
    Seen(Holds(8, BEHIND_HALVES)),
    Done(FinishAbsorb(3)),
    Seen(Has(5, AS_OF_5)),
    Seen(Has(6, AS_OF_5)),
    Seen(Has(7, AS_OF_7)),
    Seen(Holds(8, BEHIND_HALVES)),
    Done(DropRoot),
    Run(ON_LEAVES, &[0, 1]),
    Seen(Has(8, AS_OF_8)),
    Seen(Has(9, AS_OF_9)),
    Seen(Has(10, AS_OF_10)),
    Seen(Holds(11, BEHIND_LEAVES)),
    Seen(Pages(&[
        (0, 0, b"", Some(b"c"), 2, 1),
        (1, 0, b"c", None, 2, 3),
        (2, 1, b"", None, 2, 0),
    ])),
];

#[test]
fn a_batch_is_posted_below_a_merged_page(rt: HostRuntime) {
    play(
        &rt,
        rt.alloc(),
        Empty,
        HALF_MERGED_ABOVE,
        POSTED_BELOW_A_MERGED_PAGE,
    );
}

// A tree of two leaves, of the right one of which a batch leaves one pair.
const A_SMALL_LEAF: &[Step] = &[
    Run(FIVE_PUTS, &[0]),
    Tidied(FourPairs, &[0], (1, 1)),
    Seen(Pages(FIVE)),
    Done(Consolidate(0)),
    Run(&[Delete("d"), Delete("e")], &[1]),
];

// Tidies all pages, where a leaf has two pairs at least: one leaf is consolidated and merged.
fn tidies_to_one_leaf<R: Abort>(rt: &R, tree: &mut Tree)
    requires { tree.old.staged ≡ None }
    ensures { tree.new.staged ≡ None }
{
    let wanted = Tidy {
        consolidated: 1,
        splits: 0,
        merges: 1,
        stopped: false,
    };
    assert_equal(rt, tidy(tree, &Limits::new(1, 4, 2)), wanted);
}

const ONE_LEAF: &[Step] = &[
    Seen(Pages(&[(0, 0, b"", None, 3, 0)])),
    Seen(Holds(7, &[(b"a", b"1"), (b"b", b"2"), (b"c", b"3")])),
];

// A batch leaves one pair of the right leaf. Where a leaf has two at least, tidying of all pages merges it into the left one,
// which is the root then.
#[test]
fn a_leaf_that_a_batch_left_too_small_is_merged(rt: HostRuntime) {
    let alloc = memory(&rt, rt.alloc());
    let mut tree = tree_after(&rt, alloc, Empty, A_SMALL_LEAF);
    tidies_to_one_leaf(&rt, &mut tree);
    take_all(&rt, alloc, &mut tree, ONE_LEAF);
}
