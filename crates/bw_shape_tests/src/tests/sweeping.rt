// Sweeps of trees whose pages were split.
ghost use Rattle.std.specs.Prelude.{◌≡◌, None};

use super::making::{FIVE_PAIRS, FLOOR, five, memory, stands, sweep_does};
use super::merging::TWO_PAIRS;
use super::releasing::{ONE_EACH, REMOVED_TWICE, WITHOUT_TWO_ROOTS};
use super::scripts::Call::{Absorb, DropRoot, FinishAbsorb, GrowRoot, Split, Sweep};
use super::scripts::Start::{FivePairs, TwoPairs};
use super::scripts::Step::{Done, Seen, Swept};
use super::scripts::{Refusal, Step, play, refuse_each, take_all, tree_after};
use super::sights::Sight::{Free, Holds, Pages, Records, Stands};
use super::steps::NAMED_ONCE;
use crate::tests::assertions::assert_that;
use bw_shape::{Limits, Tree, tidy};
use std::process::Abort;

// A tree of two leaves and two pages above them, the left ones with a record each, is swept.
const NO_RECORD_IS_LEFT: &[Step] = &[
    Done(Split(0, 2)),
    Done(GrowRoot),
    Done(Split(2, 1)),
    Seen(Stands(2, &[FLOOR, 1, FLOOR + 1, 3])),
    Swept,
    Seen(Stands(2, &[0, 1, 2, 3])),
    Done(Split(1, 2)),
    Seen(Stands(2, &[0, FLOOR, 2, 3, 4])),
];

#[test]
fn a_sweep_leaves_no_record(rt: HostRuntime) {
    play(&rt, rt.alloc(), FivePairs, &[], NO_RECORD_IS_LEFT);
}

#[test]
fn a_tree_without_records_is_swept_as_well(rt: HostRuntime) {
    let alloc = memory(&rt, rt.alloc());
    let mut tree = five(&rt, alloc);
    alloc.refuse(1);
    sweep_does(&rt, &mut tree);
    alloc.refuse(0);
    stands(&rt, alloc, &tree, 0, &[0]);
}

const ALL_CONSOLIDATED: &[Step] = &[Seen(Stands(2, &[0, 1, 2, 3, 4]))];

const REFUSED_AND_CONSOLIDATED: &[Step] = &[
    Seen(Records(4)),
    Seen(Holds(FIVE_PAIRS)),
    Swept,
    Seen(Stands(2, &[0, 1, 2, 3, 4])),
];

// Sweeps a tree, and where that was refused, once more.
const A_SWEEP: Refusal = Refusal {
    start: FivePairs,
    before: NAMED_ONCE,
    call: Sweep,
    first: REFUSED_AND_CONSOLIDATED,
    later: REFUSED_AND_CONSOLIDATED,
    done: ALL_CONSOLIDATED,
};

#[test]
fn each_growth_of_a_sweep_is_refused(rt: HostRuntime) {
    refuse_each(&rt, rt.alloc(), &A_SWEEP, 1);
}

const THE_LEAST_IS_TAKEN: &[Step] = &[
    Done(Absorb(1)),
    Done(FinishAbsorb(1)),
    Done(DropRoot),
    Seen(Free(&[false, false, false, true])),
    Swept,
    Seen(Free(&[false, true, true, true])),
    Seen(Holds(TWO_PAIRS)),
    Done(Split(0, 1)),
    Seen(Pages(ONE_EACH)),
];

// A sweep gives back the identifiers of a leaf that was removed and of a root that went, and the next page takes the least one.
#[test]
fn a_sweep_gives_back_what_nothing_leads_to(rt: HostRuntime) {
    play(&rt, rt.alloc(), TwoPairs, &[], THE_LEAST_IS_TAKEN);
}

const REFUSED_AND_GIVEN_BACK: &[Step] = &[
    Seen(Holds(FIVE_PAIRS)),
    Swept,
    Seen(Free(&[false, true, true, true, true])),
    Seen(Holds(FIVE_PAIRS)),
];

// Sweeps a tree of which two roots, an inner page and a leaf went, and where that was refused, once more.
const A_SWEEP_OVER_PAGES_THAT_WENT: Refusal = Refusal {
    start: FivePairs,
    before: WITHOUT_TWO_ROOTS,
    call: Sweep,
    first: REFUSED_AND_GIVEN_BACK,
    later: REFUSED_AND_GIVEN_BACK,
    done: &[
        Seen(Free(&[false, true, true, true, true])),
        Seen(Holds(FIVE_PAIRS)),
    ],
};

// A sweep that is refused as it gives identifiers back loses none: the next one gives back what is left.
#[test]
fn each_growth_of_a_sweep_over_pages_that_went_is_refused(rt: HostRuntime) {
    refuse_each(&rt, rt.alloc(), &A_SWEEP_OVER_PAGES_THAT_WENT, 1);
}

const ONE_SWEEP_FOR_BOTH: &[Step] = &[
    Swept,
    Seen(Free(&[false, false, false, false])),
    Done(FinishAbsorb(1)),
    Swept,
    Seen(Free(&[false, false, false, false])),
    Done(FinishAbsorb(3)),
    Swept,
    Seen(Free(&[false, true, false, true])),
    Seen(Holds(FIVE_PAIRS)),
];

// A page into which another one was removed is given back by the same sweep as that one, and none as long as an index entry
// leads to it.
#[test]
fn a_sweep_gives_back_a_left_neighbour_behind_the_page_removed_into_it(rt: HostRuntime) {
    play(
        &rt,
        rt.alloc(),
        FivePairs,
        REMOVED_TWICE,
        ONE_SWEEP_FOR_BOTH,
    );
}

// Tidies a tree with room for eight entries on a page.
fn tidies_to_the_end<R: Abort>(rt: &R, tree: &mut Tree)
    requires { tree.old.staged ≡ None }
    ensures { tree.new.staged ≡ None }
{
    let limits = Limits::new(1, 8, 0);
    assert_that(rt, !tidy(tree, &limits).stopped);
}

const BOTH_ARE_GIVEN_BACK: &[Step] = &[
    Seen(Free(&[false, true, true, true])),
    Seen(Holds(FIVE_PAIRS)),
];

// So it is by the tidying of all pages, which finishes both merges.
#[test]
fn tidying_gives_back_a_left_neighbour_behind_the_page_removed_into_it(rt: HostRuntime) {
    let alloc = memory(&rt, rt.alloc());
    let mut tree = tree_after(&rt, alloc, FivePairs, REMOVED_TWICE);
    tidies_to_the_end(&rt, &mut tree);
    take_all(&rt, alloc, &mut tree, BOTH_ARE_GIVEN_BACK);
}
