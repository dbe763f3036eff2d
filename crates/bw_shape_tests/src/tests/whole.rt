// Tidying of all pages of a tree.
ghost use Rattle.std.specs.Prelude.{◌≡◌, ◌<◌, ◌≤◌, None, length};

use super::leaves::{reads_numbers, tree_of};
use super::making::{FIVE_PAIRS, FLOOR, memory};
use super::scripts::Call::{Consolidate, FinishSplit, GrowRoot, Split};
use super::scripts::Start::FivePairs;
use super::scripts::Step::{Done, NotNeeded, Seen, Tidied};
use super::scripts::{Step, play, take_all, tree_after};
use super::shapes::{Wanted, has_pages_of};
use super::sights::Sight::{Holds, Pages, Root, Stands, Words};
use super::tidying::{A, BEHIND_Q, FIVE, SEVENTEEN, did, four_pairs};
use crate::tests::assertions::{assert_equal, assert_that};
use bw_fixtures::was_refused;
use bw_memory::Alloc;
use bw_shape::{Limits, Tidy, Tree, tidy};
use std::alloc::Global;
use std::process::Abort;

// What the pairs of the 17 keys from `a` to `q` become, where they were split into 8, 4 and 5 before.
const PARTED: &[Wanted] = &[
    (0, 0, b"", Some(b"e"), 4, 0),
    (4, 0, b"e", Some(b"i"), 4, 0),
    (1, 0, b"i", Some(b"m"), 4, 0),
    (2, 0, b"m", Some(b"o"), 2, 0),
    (5, 0, b"o", None, 3, 0),
    (3, 1, b"", Some(b"i"), 2, 0),
    (6, 1, b"i", None, 3, 0),
    (7, 2, b"", None, 2, 0),
];

// Where the leaves of nine letters end.
const NINE: &[u16] = &[
    A + 1,
    A + 2,
    A + 3,
    A + 4,
    A + 5,
    A + 6,
    A + 7,
    A + 8,
    A + 9,
];

// What nine leaves of one pair under one root become: the root parts into four and five, and the five into two and three.
const UNDER_THREE: &[Wanted] = &[
    (0, 0, b"", Some(b"b"), 1, 0),
    (1, 0, b"b", Some(b"c"), 1, 0),
    (2, 0, b"c", Some(b"d"), 1, 0),
    (3, 0, b"d", Some(b"e"), 1, 0),
    (4, 0, b"e", Some(b"f"), 1, 0),
    (5, 0, b"f", Some(b"g"), 1, 0),
    (6, 0, b"g", Some(b"h"), 1, 0),
    (7, 0, b"h", Some(b"i"), 1, 0),
    (8, 0, b"i", None, 1, 0),
    (9, 1, b"", Some(b"e"), 4, 0),
    (10, 1, b"e", Some(b"g"), 2, 0),
    (12, 1, b"g", None, 3, 0),
    (11, 2, b"", None, 3, 0),
];

// What five pairs become where the first leaf and the page above it were split, and that page once more.
const NAMED: &[Wanted] = &[
    (0, 0, b"", Some(b"b"), 1, 0),
    (5, 0, b"b", Some(b"c"), 1, 0),
    (1, 0, b"c", None, 3, 0),
    (2, 1, b"", Some(b"b"), 1, 0),
    (6, 1, b"b", Some(b"c"), 1, 0),
    (3, 1, b"c", None, 1, 0),
    (4, 2, b"", None, 3, 0),
];

// What those become where inner pages have two children at least: the second and the third one go into the first one, which
// is the root then.
const MERGED: &[Wanted] = &[
    (0, 0, b"", Some(b"b"), 1, 0),
    (5, 0, b"b", Some(b"c"), 1, 0),
    (1, 0, b"c", None, 3, 0),
    (2, 1, b"", None, 3, 0),
];

const NOTHING_IS_LEFT: &[Step] = &[
    Tidied(0, 1),
    Seen(Pages(FIVE)),
    Seen(Holds(FIVE_PAIRS)),
    Tidied(0, 0),
    Seen(Pages(FIVE)),
];

#[test]
fn all_pages_are_tidied_and_then_nothing_is_left(rt: HostRuntime) {
    play(&rt, rt.alloc(), FivePairs, &[], NOTHING_IS_LEFT);
}

// Takes steps on the tree over leaves of the pairs of the numbers from `A` on, and compares all that is read of it.
fn play_on_numbers<R: Abort>(rt: &R, global: Global, ends: &[u16], to: u16, steps: &[Step])
    requires some { 0 < length ends.now }
    requires few { length ends.now ≤ 9 }
{
    let alloc = memory(rt, global);
    let mut tree = tree_of(rt, alloc, A, ends);
    take_all(rt, alloc, &mut tree, steps);
    reads_numbers(rt, alloc, &tree, A, to);
}

const LEVEL_BY_LEVEL: &[Step] = &[Tidied(1, 5), Seen(Pages(SEVENTEEN))];

#[test]
fn all_pages_are_tidied_level_by_level(rt: HostRuntime) {
    play_on_numbers(&rt, rt.alloc(), &[BEHIND_Q], BEHIND_Q, LEVEL_BY_LEVEL);
}

const A_ROOT_ABOVE: &[Step] = &[
    Done(Split(0, 2)),
    Tidied(0, 0),
    Seen(Pages(FIVE)),
    Seen(Holds(FIVE_PAIRS)),
];

#[test]
fn a_split_root_gets_a_root_above_it(rt: HostRuntime) {
    play(&rt, rt.alloc(), FivePairs, &[], A_ROOT_ABOVE);
}

const EACH_IS_FINISHED: &[Step] = &[
    Done(Split(0, 8)),
    Done(Split(1, 4)),
    Tidied(1, 3),
    Seen(Pages(PARTED)),
];

#[test]
fn each_split_that_was_left_is_finished(rt: HostRuntime) {
    play_on_numbers(&rt, rt.alloc(), &[BEHIND_Q], BEHIND_Q, EACH_IS_FINISHED);
}

const THE_ROOT_PARTS: &[Step] = &[Tidied(0, 2), Seen(Pages(UNDER_THREE))];

#[test]
fn a_root_over_nine_leaves_parts(rt: HostRuntime) {
    play_on_numbers(&rt, rt.alloc(), NINE, A + 9, THE_ROOT_PARTS);
}

// What leads to the tree of five pairs whose first inner page was split, and isn't the root: the new page, 6, has no index entry.
const UNNAMED: &[Step] = &[
    Done(Split(0, 2)),
    Done(GrowRoot),
    Done(Split(2, 1)),
    Done(GrowRoot),
    Done(Consolidate(0)),
    Done(Split(0, 1)),
    Done(FinishSplit(0)),
    Done(Consolidate(2)),
    Done(Split(2, 1)),
];

const A_PAGE_IS_NAMED: &[Step] = &[
    Seen(Stands(4, &[FLOOR + 2, 1, FLOOR + 4, 3, 4, 5, 6])),
    Tidied(0, 0),
    Seen(Stands(4, &[FLOOR + 2, 1, FLOOR + 4, 3, FLOOR + 5, 5, 6])),
    Seen(Pages(NAMED)),
    NotNeeded(FinishSplit(2)),
];

#[test]
fn a_split_inner_page_that_was_left_is_named(rt: HostRuntime) {
    play(&rt, rt.alloc(), FivePairs, UNNAMED, A_PAGE_IS_NAMED);
}

// Tidies a tree whose inner pages have two children at least, and compares how many merges that took.
fn merges<R: Abort>(rt: &R, tree: &mut Tree, wanted: u64)
    requires { tree.old.staged ≡ None }
    ensures { tree.new.staged ≡ None }
{
    let wanted = Tidy {
        merges: wanted,
        ..did(0, 0)
    };
    assert_equal(rt, tidy(tree, &Limits::new(1, 4, 2)), wanted);
}

const TWO_ARE_MERGED: &[Step] = &[
    Seen(Pages(MERGED)),
    Seen(Root(2)),
    Seen(Words(6)),
    Seen(Holds(FIVE_PAIRS)),
];

const AS_MERGED: &[Step] = &[Seen(Pages(MERGED))];

// Inner pages with too few children are merged. The leaves of one pair have no writes, and stay.
#[test]
fn inner_pages_of_one_child_are_merged_where_two_are_the_least(rt: HostRuntime) {
    let alloc = memory(&rt, rt.alloc());
    let mut tree = tree_after(&rt, alloc, FivePairs, UNNAMED);
    merges(&rt, &mut tree, 2);
    take_all(&rt, alloc, &mut tree, TWO_ARE_MERGED);
    merges(&rt, &mut tree, 0);
    take_all(&rt, alloc, &mut tree, AS_MERGED);
}

// The tree of 17 pairs.
fn seventeen<R: Abort>(rt: &R, alloc: Alloc) -> Tree
    ensures { result.staged ≡ None }
{
    tree_of(rt, alloc, A, &[BEHIND_Q])
}

// Tidies a tree of 17 pairs where this growth is refused, and where it was, once more. Whether it was refused.
fn tidy_on<R: Abort>(rt: &R, alloc: Alloc, tree: &mut Tree, growth: u64) -> bool
    requires { tree.old.staged ≡ None }
{
    alloc.refuse(growth);
    let stopped = tidy(tree, &four_pairs()).stopped;
    let refused = was_refused(alloc, growth);
    assert_that(rt, refused || !stopped);
    reads_numbers(rt, alloc, tree, A, BEHIND_Q);
    if refused {
        assert_that(rt, !tidy(tree, &four_pairs()).stopped);
    }
    refused
}

// Does that with a tree of its own. The pages come out as they do without a refusal. Whether the growth was refused.
fn tidy_refused<R: Abort>(rt: &R, alloc: Alloc, wanted: &Tree, growth: u64) -> bool {
    let mut tree = seventeen(rt, alloc);
    let refused = tidy_on(rt, alloc, &mut tree, growth);
    has_pages_of(rt, &tree, wanted);
    reads_numbers(rt, alloc, &tree, A, BEHIND_Q);
    refused
}

#[test]
fn each_growth_of_a_whole_tree_is_refused(rt: HostRuntime) {
    let alloc = memory(&rt, rt.alloc());
    let mut wanted = seventeen(&rt, alloc);
    take_all(&rt, alloc, &mut wanted, LEVEL_BY_LEVEL);
    for growth in 1..1000 {
        if !tidy_refused(&rt, alloc, &wanted, growth) {
            assert_that(&rt, growth > 12);
            return;
        }
    }
    panic!(rt; "no run met no refusal")
}
