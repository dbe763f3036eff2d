// Tidying of trees whose pages have too many entries: up to four are within the limits.
ghost use Rattle.std.specs.Prelude.{◌≡◌, ℕ, ◌<◌, ◌≤◌, ◌^◌, ◌⊎◌, true, None, reverse, length};
ghost use Rattle.std.specs.List.{Contains};
ghost use Rattle.bw_tree.specs.Levels.{row};
ghost use Rattle.bw_tree.specs.Searches.{IsInLevels};
ghost use Rattle.bw_tree.specs.Slots.{slot_at};
ghost use Rattle.bw_shape.specs.Limits.{AreWithinBut, IsWithin};

use super::leaves::{reads_numbers, tree_of};
use super::making::{five, memory, reads_all};
use super::shapes::{Wanted, counts_pages, has_pages, has_small_pages};
use crate::tests::assertions::{assert_equal, assert_that};
use bw_fixtures::was_refused;
use bw_memory::Alloc;
use bw_shape::{Due, Limits, PageId, Tidy, Tree, tidy_due};
use std::process::Abort;

/// The number whose key is this letter, or the one behind it.
pub const A: u16 = 97;

const BEHIND_B: u16 = 99;

const BEHIND_D: u16 = 101;

const BEHIND_E: u16 = 102;

const BEHIND_H: u16 = 105;

const BEHIND_J: u16 = 107;

const BEHIND_L: u16 = 109;

/// See `A`.
pub const BEHIND_Q: u16 = 114;

/// What five pairs become.
pub const FIVE: &[Wanted] = &[
    (0, 0, b"", Some(b"c"), 2, 0),
    (1, 0, b"c", None, 3, 0),
    (2, 1, b"", None, 2, 0),
];

/// What the pairs of the 17 keys from `a` to `q` become.
pub const SEVENTEEN: &[Wanted] = &[
    (0, 0, b"", Some(b"e"), 4, 0),
    (3, 0, b"e", Some(b"i"), 4, 0),
    (1, 0, b"i", Some(b"m"), 4, 0),
    (4, 0, b"m", Some(b"o"), 2, 0),
    (5, 0, b"o", None, 3, 0),
    (2, 1, b"", Some(b"i"), 2, 0),
    (6, 1, b"i", None, 3, 0),
    (7, 2, b"", None, 2, 0),
];

/// The limits of all these tests.
pub fn four_pairs() -> Limits {
    Limits::new(1, 4, 1)
}

// Whether a page is one of these, or keeps to the limits of a leaf.
fn is_due_or_within(tree: &Tree, limits: &Limits, pages: &[PageId], page: PageId) -> bool
    requires { page < length tree.now.heads }
    ensures { result ≡ true → Contains (row tree.now.levels 0) page →
        Contains (reverse pages.now) page ⊎ IsWithin limits.now (slot_at tree.now.slots page) }
{
    pages.contains(&page)
        || (tree.count_writes(page) as u64 <= limits.chain_max()
            && tree.entries(page) as u64 <= limits.page_max())
}

// What every tree keeps of its mapping words that the next one needs: more facts are too many for the search.
fn know_words(tree: &Tree)
    ensures there { (p : ℕ) → IsInLevels tree.now.levels p → p < length tree.now.heads }
    ensures few { length tree.now.heads ≤ 2 ^ 32 }
{
    tree.know_records();
}

// Whether each page is one of these, or keeps to the limits of a leaf.
fn are_within_but(tree: &Tree, limits: &Limits, pages: &[PageId]) -> bool
    ensures { result ≡ true → AreWithinBut limits.now tree.now (reverse pages.now) }
{
    know_words(tree);
    for page in 0..tree.heads().len() {
        if !is_due_or_within(tree, limits, pages, PageId(page as u32)) {
            return false;
        }
    }
    true
}

// These pages, the first one next.
fn due_of<R: Abort>(rt: &R, alloc: Alloc, tree: &Tree, pages: &[PageId]) -> Due
    ensures { result.pages ≡ reverse pages.now }
{
    let mut list = Vec::new(alloc);
    list.extend_from_slice(pages).expect(rt, "a list");
    let mut due = Due::new(alloc);
    due.add(tree, list, &[]).expect(rt, "a list");
    due
}

/// The same, where each other page keeps to the limits of a leaf.
pub fn due_within<R: Abort>(
    rt: &R,
    alloc: Alloc,
    tree: &Tree,
    limits: &Limits,
    pages: &[PageId],
) -> Due
    ensures { AreWithinBut limits.now tree.now result.pages }
{
    assert!(rt; are_within_but(tree, limits, pages));
    due_of(rt, alloc, tree, pages)
}

/// Tidies a tree where this growth is refused. What that did, and whether the growth was refused.
pub fn tidy_short<R: Abort>(
    rt: &R,
    alloc: Alloc,
    tree: &mut Tree,
    limits: &Limits,
    due: &mut Due,
    growth: u64,
) -> (Tidy, bool)
    requires none { tree.old.staged ≡ None }
    requires within { AreWithinBut limits.now tree.old due.old.pages }
    ensures none { tree.new.staged ≡ None }
    ensures within { AreWithinBut limits.now tree.new due.new.pages }
{
    alloc.refuse(growth);
    let did = tidy_due(tree, limits, due);
    let refused = was_refused(alloc, growth);
    assert_that(rt, refused || !did.stopped);
    (did, refused)
}

/// What tidying did that wasn't stopped.
pub fn did(consolidated: u64, splits: u64) -> Tidy {
    Tidy {
        consolidated,
        splits,
        merges: 0,
        stopped: false,
    }
}

/// Tidies a tree where these pages are due. What that did.
pub fn tidied<R: Abort>(rt: &R, alloc: Alloc, tree: &mut Tree, pages: &[PageId]) -> Tidy
    requires { tree.old.staged ≡ None }
    ensures { tree.new.staged ≡ None }
{
    let limits = four_pairs();
    let mut due = due_within(rt, alloc, tree, &limits, pages);
    tidy_due(tree, &limits, &mut due)
}

// Tidies a tree where these pages are due, and compares what that did.
fn tidy_does<R: Abort>(rt: &R, alloc: Alloc, tree: &mut Tree, pages: &[PageId], wanted: Tidy)
    requires { tree.old.staged ≡ None }
    ensures { tree.new.staged ≡ None }
{
    assert_equal(rt, tidied(rt, alloc, tree, pages), wanted);
}

#[test]
fn a_leaf_of_five_pairs_is_split_once(rt: HostRuntime) {
    let alloc = memory(&rt, rt.alloc());
    let mut tree = five(&rt, alloc);
    tidy_does(&rt, alloc, &mut tree, &[PageId(0)], did(0, 1));
    has_pages(&rt, &tree, FIVE);
    reads_all(&rt, alloc, &tree);
    tidy_does(&rt, alloc, &mut tree, &[PageId(0), PageId(1)], did(0, 0));
    has_pages(&rt, &tree, FIVE);
    reads_all(&rt, alloc, &tree);
}

#[test]
fn a_leaf_of_seventeen_pairs_is_split_level_by_level(rt: HostRuntime) {
    let alloc = memory(&rt, rt.alloc());
    let mut tree = tree_of(&rt, alloc, A, &[BEHIND_Q]);
    tidy_does(&rt, alloc, &mut tree, &[PageId(0)], did(1, 5));
    has_pages(&rt, &tree, SEVENTEEN);
    reads_numbers(&rt, alloc, &tree, A, BEHIND_Q);
}

const ONE_SPLIT: &[Wanted] = &[
    (0, 0, b"", Some(b"c"), 2, 0),
    (1, 0, b"c", Some(b"f"), 3, 0),
    (4, 0, b"f", Some(b"i"), 3, 0),
    (2, 0, b"i", None, 2, 0),
    (3, 1, b"", None, 4, 0),
];

#[test]
fn of_three_leaves_that_are_due_one_is_split(rt: HostRuntime) {
    let alloc = memory(&rt, rt.alloc());
    let mut tree = tree_of(&rt, alloc, A, &[BEHIND_B, BEHIND_H, BEHIND_J]);
    let due = [PageId(0), PageId(1), PageId(2)];
    tidy_does(&rt, alloc, &mut tree, &due, did(0, 1));
    has_pages(&rt, &tree, ONE_SPLIT);
    reads_numbers(&rt, alloc, &tree, A, BEHIND_J);
}

const ROOT_SPLIT: &[Wanted] = &[
    (0, 0, b"", Some(b"c"), 2, 0),
    (1, 0, b"c", Some(b"f"), 3, 0),
    (5, 0, b"f", Some(b"i"), 3, 0),
    (2, 0, b"i", Some(b"k"), 2, 0),
    (3, 0, b"k", None, 2, 0),
    (4, 1, b"", Some(b"f"), 2, 0),
    (6, 1, b"f", None, 3, 0),
    (7, 2, b"", None, 2, 0),
];

#[test]
fn a_root_with_a_fifth_child_is_split_too(rt: HostRuntime) {
    let alloc = memory(&rt, rt.alloc());
    let mut tree = tree_of(&rt, alloc, A, &[BEHIND_B, BEHIND_H, BEHIND_J, BEHIND_L]);
    let due = [PageId(0), PageId(1), PageId(2), PageId(3)];
    tidy_does(&rt, alloc, &mut tree, &due, did(0, 2));
    has_pages(&rt, &tree, ROOT_SPLIT);
    reads_numbers(&rt, alloc, &tree, A, BEHIND_L);
}

const FOUR: &[Wanted] = &[(0, 0, b"", None, 4, 0)];

#[test]
fn a_leaf_of_four_pairs_stays(rt: HostRuntime) {
    let alloc = memory(&rt, rt.alloc());
    let mut tree = tree_of(&rt, alloc, A, &[BEHIND_D]);
    tidy_does(&rt, alloc, &mut tree, &[PageId(0), PageId(9)], did(0, 0));
    has_pages(&rt, &tree, FOUR);
    reads_numbers(&rt, alloc, &tree, A, BEHIND_D);
}

// Both outcomes as one.
fn both(before: Tidy, after: Tidy) -> Tidy {
    Tidy {
        consolidated: before.consolidated.saturating_add(after.consolidated),
        splits: before.splits.saturating_add(after.splits),
        merges: before.merges.saturating_add(after.merges),
        stopped: after.stopped,
    }
}

// Tidies a tree of one leaf where this growth is refused, and where it was, tidies it again without a refusal. Compares what
// is read in between. What that did in all, and whether the growth was refused.
fn tidy_in_two<R: Abort>(
    rt: &R,
    alloc: Alloc,
    tree: &mut Tree,
    limits: &Limits,
    due: &mut Due,
    growth: u64,
    end: u16,
) -> (Tidy, bool)
    requires none { tree.old.staged ≡ None }
    requires within { AreWithinBut limits.now tree.old due.old.pages }
{
    let (did, refused) = tidy_short(rt, alloc, tree, limits, due, growth);
    reads_numbers(rt, alloc, tree, A, end);
    if !refused {
        return (did, false);
    }
    (both(did, tidy_due(tree, limits, due)), true)
}

// Does that, and compares what was done. Whether the growth was refused.
fn tidy_refused<R: Abort>(
    rt: &R,
    alloc: Alloc,
    tree: &mut Tree,
    growth: u64,
    end: u16,
    wanted: Tidy,
) -> bool
    requires { tree.old.staged ≡ None }
{
    let limits = four_pairs();
    let mut due = due_within(rt, alloc, tree, &limits, &[PageId(0)]);
    let (did, refused) = tidy_in_two(rt, alloc, tree, &limits, &mut due, growth, end);
    assert_equal(rt, did, wanted);
    refused
}

// Tidies a leaf of five pairs where this growth is refused. Whether it was.
fn five_refused<R: Abort>(rt: &R, alloc: Alloc, growth: u64) -> bool {
    let mut tree = tree_of(rt, alloc, A, &[BEHIND_E]);
    let refused = tidy_refused(rt, alloc, &mut tree, growth, BEHIND_E, did(0, 1));
    has_pages(rt, &tree, FIVE);
    reads_numbers(rt, alloc, &tree, A, BEHIND_E);
    refused
}

#[test]
fn each_growth_of_a_split_leaf_is_refused(rt: HostRuntime) {
    let alloc = memory(&rt, rt.alloc());
    for growth in 1..1000 {
        if !five_refused(&rt, alloc, growth) {
            assert_that(&rt, growth > 6);
            return;
        }
    }
    panic!(rt; "no run met no refusal")
}

// Tidies a leaf of 17 pairs where this growth is refused. Whether it was.
fn seventeen_refused<R: Abort>(rt: &R, alloc: Alloc, growth: u64) -> bool {
    let mut tree = tree_of(rt, alloc, A, &[BEHIND_Q]);
    let refused = tidy_refused(rt, alloc, &mut tree, growth, BEHIND_Q, did(1, 5));
    has_pages(rt, &tree, SEVENTEEN);
    reads_numbers(rt, alloc, &tree, A, BEHIND_Q);
    refused
}

#[test]
fn each_growth_of_leaves_and_pages_above_is_refused(rt: HostRuntime) {
    let alloc = memory(&rt, rt.alloc());
    for growth in 1..1000 {
        if !seventeen_refused(&rt, alloc, growth) {
            assert_that(&rt, growth > 12);
            return;
        }
    }
    panic!(rt; "no run met no refusal")
}

/// Five pairs on two leaves without a root over them.
pub const ROOTLESS: &[Wanted] = &[(0, 0, b"", Some(b"c"), 2, 0), (1, 0, b"c", None, 3, 0)];

// Tidies a leaf of five pairs where this growth is refused. Where that leaves two leaves without a root over them, all pairs
// are read, and tidying again puts it there. Whether it left them so.
fn leaves_no_root<R: Abort>(
    rt: &R,
    alloc: Alloc,
    tree: &mut Tree,
    limits: &Limits,
    due: &mut Due,
    growth: u64,
) -> bool
    requires none { tree.old.staged ≡ None }
    requires within { AreWithinBut limits.now tree.old due.old.pages }
{
    let (stopped, _) = tidy_short(rt, alloc, tree, limits, due, growth);
    if !stopped.stopped || tree.heads().len() != 2 {
        return false;
    }
    assert_equal(rt, (stopped.consolidated, stopped.splits), (0, 1));
    has_pages(rt, tree, ROOTLESS);
    reads_all(rt, alloc, tree);
    assert_equal(rt, tidy_due(tree, limits, due), did(0, 0));
    has_pages(rt, tree, FIVE);
    reads_all(rt, alloc, tree);
    true
}

// The same with a tree of its own.
fn root_refused<R: Abort>(rt: &R, alloc: Alloc, growth: u64) -> bool {
    let limits = four_pairs();
    let mut tree = five(rt, alloc);
    let mut due = due_within(rt, alloc, &tree, &limits, &[PageId(0)]);
    leaves_no_root(rt, alloc, &mut tree, &limits, &mut due, growth)
}

#[test]
fn a_refused_root_is_put_there_by_the_next_tidying(rt: HostRuntime) {
    let alloc = memory(&rt, rt.alloc());
    let mut runs = 0u64;
    for growth in 1..100 {
        if root_refused(&rt, alloc, growth) {
            runs = runs.saturating_add(1);
        }
    }
    assert_that(&rt, runs > 0);
}

// How many pairs the largest leaf has, from this number on, each of whose keys has two bytes.
const MANY: u16 = 4096;

const FROM: u16 = 4096;

#[test]
fn a_leaf_of_many_pairs_becomes_levels_of_small_pages(rt: HostRuntime) {
    let alloc = memory(&rt, rt.alloc());
    let mut tree = tree_of(&rt, alloc, FROM, &[FROM + MANY]);
    tidy_does(&rt, alloc, &mut tree, &[PageId(0)], did(511, 1359));
    counts_pages(&rt, &tree, 1365);
    has_small_pages(&rt, &tree);
    reads_numbers(&rt, alloc, &tree, FROM, FROM + MANY);
}
