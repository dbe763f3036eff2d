// Halves of one leaf that get their index entries at once: the tree is the one that the public steps make.
ghost use Rattle.std.specs.Prelude.{◌≡◌, None};
ghost use Rattle.bw_shape.specs.Limits.{AreWithinBut};

use super::leaves::{reads_numbers, tree_of};
use super::making::memory;
use super::scripts::Call::{FinishSplit, GrowRoot, Split};
use super::scripts::Step::Done;
use super::scripts::{Step, does, take_all};
use super::shapes::{counts_pages, has_pages_of, has_small_pages};
use super::tidying::{due_within, four_pairs, tidied, tidy_short};
use crate::tests::assertions::assert_that;
use bw_memory::Alloc;
use bw_shape::{Did, Due, Limits, PageId, Tree, consolidate, finish_split, tidy_due};
use bw_tree::PageShape;
use std::process::Abort;

// The pairs' numbers, each of whose keys has two bytes.
const FROM: u16 = 4096;

const TO: u16 = 6096;

// Tidies a tree where these pages are due, to the end.
fn tidy_whole<R: Abort>(rt: &R, alloc: Alloc, tree: &mut Tree, pages: &[PageId])
    requires { tree.old.staged ≡ None }
    ensures { tree.new.staged ≡ None }
{
    assert_that(rt, !tidied(rt, alloc, tree, pages).stopped);
}

// How many entries a page has.
fn entries_of<R: Abort>(rt: &R, tree: &Tree, page: PageId) -> usize {
    assert!(rt; (page.0 as usize) < tree.heads().len());
    tree.entries(page)
}

// How many identifiers of pages there are.
fn count_pages<R: Abort>(rt: &R, tree: &Tree) -> u32 {
    u32::try_from(tree.heads().len()).expect(rt, "few pages")
}

// Consolidates and splits a page that has more than four entries, and finishes the split. The new page, if it was split.
fn halve<R: Abort>(rt: &R, tree: &mut Tree, page: PageId) -> Option<PageId>
    requires { tree.old.staged ≡ None }
    ensures { tree.new.staged ≡ None }
{
    let count = entries_of(rt, tree, page);
    if count <= 4 {
        return None;
    }
    consolidate(tree, page).expect(rt, "memory");
    let right = count_pages(rt, tree);
    does(rt, tree, Split(page.0, count / 2), Did::Done);
    if finish_split(tree, page).expect(rt, "memory") == Did::NotNeeded {
        does(rt, tree, GrowRoot, Did::Done);
    }
    Some(PageId(right))
}

// Looks at the last one of these pages, if there is one: where it has more than four entries, it's split, and its halves are
// the last ones then.
fn halve_last<R: Abort>(rt: &R, tree: &mut Tree, pages: &mut Vec<PageId, Alloc>)
    requires { tree.old.staged ≡ None }
    ensures { tree.new.staged ≡ None }
{
    let Some(page) = pages.pop() else {
        return;
    };
    if let Some(right) = halve(rt, tree, page) {
        pages.push(right).expect(rt, "a list");
        pages.push(page).expect(rt, "a list");
    }
}

// Splits these pages, the last one first, into halves until none has more than four entries.
fn halve_all<R: Abort>(rt: &R, tree: &mut Tree, mut pages: Vec<PageId, Alloc>)
    requires { tree.old.staged ≡ None }
    ensures { tree.new.staged ≡ None }
{
    'halves: for _ in 0..9999 {
        halve_last(rt, tree, &mut pages);
    }
}

// Adds the pages of a level to a list.
fn add_level<R: Abort>(rt: &R, all: &[PageShape], level: u32, pages: &mut Vec<PageId, Alloc>) {
    for page in all {
        if page.level == level {
            pages.push(page.page).expect(rt, "a list");
        }
    }
}

// The pages of a level, the first one last.
fn level_of<R: Abort>(rt: &R, alloc: Alloc, tree: &Tree, level: u32) -> Vec<PageId, Alloc> {
    let mut pages = Vec::new(alloc);
    let all = tree.shape().expect(rt, "the pages");
    add_level(rt, &all, level, &mut pages);
    pages.reverse();
    pages
}

// Splits the pages of all levels, level by level, each new page named as soon as it is there.
fn tidy_by_steps<R: Abort>(rt: &R, alloc: Alloc, tree: &mut Tree)
    requires { tree.old.staged ≡ None }
    ensures { tree.new.staged ≡ None }
{
    for level in 0..9 {
        let pages = level_of(rt, alloc, tree, level);
        halve_all(rt, tree, pages);
    }
}

// Compares the pages of a tree with those that the public steps make of a tree of one leaf.
fn stands_as_by_steps<R: Abort>(rt: &R, alloc: Alloc, tree: &Tree) {
    let mut other = tree_of(rt, alloc, FROM, &[TO]);
    tidy_by_steps(rt, alloc, &mut other);
    has_small_pages(rt, tree);
    has_pages_of(rt, tree, &other);
}

// Compares that each right neighbour of a page has its index entry.
fn are_named<R: Abort>(rt: &R, tree: &mut Tree)
    requires { tree.old.staged ≡ None }
    ensures { tree.new.staged ≡ None }
{
    for page in 0..count_pages(rt, tree) {
        does(rt, tree, FinishSplit(page), Did::NotNeeded);
    }
}

#[test]
fn a_leaf_of_2000_pairs_is_what_steps_make_of_it(rt: HostRuntime) {
    let alloc = memory(&rt, rt.alloc());
    let mut tree = tree_of(&rt, alloc, FROM, &[TO]);
    tidy_whole(&rt, alloc, &mut tree, &[PageId(0)]);
    stands_as_by_steps(&rt, alloc, &tree);
    are_named(&rt, &mut tree);
    reads_numbers(&rt, alloc, &tree, FROM, TO);
}

// What tidying the leaf may take. There are 511 splits of leaves and 166 of inner pages, with four growths each: the bytes and
// the ends of the entries that go, and room that those which stay give back. Of the new pages 672 get an index entry. To name
// them one by one copies the children of the page above for each, two growths more: 4,052 together. At once all of them take
// some 120.
const MOST: u64 = 3200;

#[test]
fn new_pages_of_2000_pairs_are_named_at_once(rt: HostRuntime) {
    let alloc = memory(&rt, rt.alloc());
    let mut tree = tree_of(&rt, alloc, FROM, &[TO]);
    alloc.refuse(0);
    tidy_whole(&rt, alloc, &mut tree, &[PageId(0)]);
    let growths = alloc.left().wrapping_neg();
    assert_that(&rt, growths > 677);
    assert_that(&rt, growths <= MOST);
}

// The leaf in the middle becomes eight.
const MIDDLE: &[u16] = &[4098, 4118, 4120];

// Tidies three leaves where this growth is refused, and then to the end. Whether it was refused.
fn tidy_in_two<R: Abort>(
    rt: &R,
    alloc: Alloc,
    tree: &mut Tree,
    limits: &Limits,
    due: &mut Due,
    growth: u64,
) -> bool
    requires none { tree.old.staged ≡ None }
    requires within { AreWithinBut limits.now tree.old due.old.pages }
    ensures { tree.new.staged ≡ None }
{
    let (_, refused) = tidy_short(rt, alloc, tree, limits, due, growth);
    reads_numbers(rt, alloc, tree, FROM, 4120);
    assert_that(rt, !tidy_due(tree, limits, due).stopped);
    refused
}

// The same where the leaf in the middle is due.
fn tidy_on<R: Abort>(rt: &R, alloc: Alloc, tree: &mut Tree, growth: u64) -> bool
    requires { tree.old.staged ≡ None }
    ensures { tree.new.staged ≡ None }
{
    let limits = four_pairs();
    let mut due = due_within(rt, alloc, tree, &limits, &[PageId(1)]);
    tidy_in_two(rt, alloc, tree, &limits, &mut due, growth)
}

// Does that, and compares the pages with those of a tree that was tidied at once. Whether the growth was refused.
fn middle_refused<R: Abort>(rt: &R, alloc: Alloc, wanted: &Tree, growth: u64) -> bool {
    let mut tree = tree_of(rt, alloc, FROM, MIDDLE);
    let refused = tidy_on(rt, alloc, &mut tree, growth);
    has_pages_of(rt, &tree, wanted);
    are_named(rt, &mut tree);
    refused
}

#[test]
fn a_stop_at_each_growth_leaves_what_is_tidied_to_the_same_pages(rt: HostRuntime) {
    let alloc = memory(&rt, rt.alloc());
    let mut wanted = tree_of(&rt, alloc, FROM, MIDDLE);
    tidy_whole(&rt, alloc, &mut wanted, &[PageId(1)]);
    for growth in 1..1000 {
        if !middle_refused(&rt, alloc, &wanted, growth) {
            assert_that(&rt, growth > 20);
            return;
        }
    }
    panic!(rt; "no run met no refusal")
}

// What gives the page above three leaves a record.
const A_RECORD: &[Step] = &[Done(Split(1, 2)), Done(FinishSplit(1))];

#[test]
fn new_pages_are_named_over_a_page_with_a_record(rt: HostRuntime) {
    let alloc = memory(&rt, rt.alloc());
    let mut tree = tree_of(&rt, alloc, FROM, &[4098, 4102, 4112]);
    take_all(&rt, alloc, &mut tree, A_RECORD);
    tidy_whole(&rt, alloc, &mut tree, &[PageId(2)]);
    are_named(&rt, &mut tree);
    has_small_pages(&rt, &tree);
    counts_pages(&rt, &tree, 10);
    reads_numbers(&rt, alloc, &tree, FROM, 4112);
}
