// Indexes over trees of which merges and splits were left half done: they are read by their links, and finished by the tidying
// behind the first batch.
ghost use Rattle.std.specs.Prelude.{◌≡◌, None};

use super::compared::{Compared, are_same, follow};
use super::trees::{map_of, tree_of};
use crate::tests::assertions::{assert_equal, assert_that};
use bw_batch::{Index, Op, OpenGate, Options, PageId, Refusal, Tree};
use bw_fixtures::TextOp::{Delete, Get, Rscan, Scan, Upsert};
use bw_fixtures::{TextOp, heap, ops, was_refused};
use bw_memory::Alloc;
use bw_shape::{Did, absorb, consolidate, drop_root, finish_absorb, grow_root, split};
use std::process::Abort;
use std::thread::Threads;

// Leaves of one pair, at the least key and from there on at the bytes 49, 98, 147, 196.
const LEAVES: u32 = 5;

const STEP: u32 = 49;

// The page above the leaves.
const ROOT: PageId = PageId(5);

// The page that a split makes.
const NEW: PageId = PageId(6);

// Merges a page into its left neighbour, and leaves it at that: the page above still names it.
fn merge<R: Abort>(rt: &R, tree: &mut Tree, page: u32)
    requires { tree.old.staged ≡ None }
    ensures { tree.new.staged ≡ None }
{
    assert_equal(rt, absorb(tree, PageId(page)), Ok(Did::Done));
}

// Splits a page of two pairs, and leaves it at that: the page above doesn't name the new one.
fn part<R: Abort>(rt: &R, tree: &mut Tree, page: u32)
    requires { tree.old.staged ≡ None }
    ensures { tree.new.staged ≡ None }
{
    assert_equal(rt, consolidate(tree, PageId(page)), Ok(Did::Done));
    assert_equal(rt, split(tree, PageId(page), 1), Ok(Did::Done));
}

// Two merges are half done: the second leaf is in the first one, and the fourth in the third.
fn half_merged<R: Abort>(rt: &R, alloc: Alloc) -> Tree
    ensures { result.staged ≡ None }
{
    let mut tree = tree_of(rt, alloc, LEAVES, STEP);
    merge(rt, &mut tree, 1);
    merge(rt, &mut tree, 3);
    tree
}

// A merge and a split are half done: the fourth leaf is in the third one, and what was the second one is parted from the first.
fn half_parted<R: Abort>(rt: &R, alloc: Alloc) -> Tree
    ensures { result.staged ≡ None }
{
    let mut tree = tree_of(rt, alloc, LEAVES, STEP);
    merge(rt, &mut tree, 1);
    assert_equal(rt, finish_absorb(&mut tree, PageId(1)), Ok(Did::Done));
    part(rt, &mut tree, 0);
    merge(rt, &mut tree, 3);
    tree
}

// The root is parted, and the merge of its parts is half done: the new root names the second one, which is in the first one.
fn half_merged_above<R: Abort>(rt: &R, alloc: Alloc) -> Tree
    ensures { result.staged ≡ None }
{
    let mut tree = tree_of(rt, alloc, LEAVES, STEP);
    assert_equal(rt, split(&mut tree, ROOT, 3), Ok(Did::Done));
    assert_equal(rt, grow_root(&mut tree), Ok(Did::Done));
    assert_equal(rt, consolidate(&mut tree, ROOT), Ok(Did::Done));
    merge(rt, &mut tree, NEW.0);
    tree
}

// That merge is finished and the new root is gone, but neither identifier was given back.
fn lowered<R: Abort>(rt: &R, alloc: Alloc) -> Tree
    ensures { result.staged ≡ None }
{
    let mut tree = half_merged_above(rt, alloc);
    assert_equal(rt, finish_absorb(&mut tree, NEW), Ok(Did::Done));
    assert_equal(rt, drop_root(&mut tree), Ok(Did::Done));
    tree
}

// Pages of up to 64 pairs, which stay where they have as few as here: there is no left neighbour with which they have fewer.
fn options<R: Abort>(rt: &R, workers: u64) -> Options {
    Options::new(workers, 1, 8, 64, 0, 65536, 1048576).expect(rt, "options")
}

// An index over a tree, and the plain program's map of the same pairs.
fn over<R: Abort>(rt: &R, alloc: Alloc, tree: Tree, workers: u64) -> Compared
    requires { tree.staged ≡ None }
{
    Compared {
        index: Index::from_tree(alloc, options(rt, workers), tree).expect(rt, "an index"),
        map: map_of(rt, alloc, LEAVES, STEP),
        replaced: 0,
    }
}

// Writes to what was each leaf, and reads over their seams.
const BATCH: &[TextOp] = &[
    Scan("", None, 9),
    Rscan("", None, 9),
    Scan("1", Some("b"), 9),
    Delete("1"),
    Upsert("2", "2"),
    Upsert("c", "3"),
    Get("1"),
    Get("b"),
    Scan("", None, 9),
    Rscan("0", None, 9),
];

// Reads, and a write to a leaf into which another one went.
const BEHIND: &[TextOp] = &[Scan("", None, 9), Upsert("d", "4"), Rscan("", None, 9)];

// Runs a batch with ample memory by both, and compares what they answer and hold.
fn run<R: Abort + Threads + Sync>(rt: &R, alloc: Alloc, both: &mut Compared, texts: &[TextOp]) {
    let ops = ops(alloc, texts).expect(rt, "memory");
    let outcome = both.index.run(rt, &ops, &OpenGate);
    let followed = follow(rt, &mut both.map, &ops, &outcome);
    assert_equal(rt, followed, Ok(true));
    are_same(rt, both);
}

// The pages of these identifiers went, and nothing names them any more.
fn have_gone<R: Abort>(rt: &R, tree: &Tree, pages: &[u32]) {
    for page in pages {
        assert_that(rt, tree.is_free(PageId(*page)));
    }
}

// How many pages the root names, if the page is on a level.
fn children_of_root(tree: &Tree) -> Option<usize> {
    tree.in_level(ROOT)?;
    Some(tree.entries(ROOT))
}

fn has_children<R: Abort>(rt: &R, tree: &Tree, count: usize) {
    assert_equal(rt, tree.root(), ROOT);
    assert_equal(rt, children_of_root(tree), Some(count));
}

#[test]
fn half_done_merges_are_read_and_finished(rt: HostRuntime) {
    let alloc = heap(rt.alloc()).expect(&rt, "a heap");
    for workers in [1u64, 4] {
        let mut both = over(&rt, alloc, half_merged(&rt, alloc), workers);
        are_same(&rt, &both);
        has_children(&rt, both.index.tree(), 5);
        run(&rt, alloc, &mut both, BATCH);
        has_children(&rt, both.index.tree(), 3);
        have_gone(&rt, both.index.tree(), &[1, 3]);
        run(&rt, alloc, &mut both, BEHIND);
    }
}

// Behind the batch the first root is the root again, over all leaves, and both pages that came with the second one are gone.
fn comes_down<R: Abort + Threads + Sync>(rt: &R, alloc: Alloc, tree: Tree, workers: u64)
    requires { tree.staged ≡ None }
{
    let mut both = over(rt, alloc, tree, workers);
    are_same(rt, &both);
    run(rt, alloc, &mut both, BATCH);
    has_children(rt, both.index.tree(), 5);
    have_gone(rt, both.index.tree(), &[6, 7]);
    run(rt, alloc, &mut both, BEHIND);
}

#[test]
fn a_half_done_merge_of_inner_pages_is_read_and_finished(rt: HostRuntime) {
    let alloc = heap(rt.alloc()).expect(&rt, "a heap");
    for workers in [1u64, 4] {
        comes_down(&rt, alloc, half_merged_above(&rt, alloc), workers);
    }
}

#[test]
fn a_root_that_went_is_given_back(rt: HostRuntime) {
    let alloc = heap(rt.alloc()).expect(&rt, "a heap");
    for workers in [1u64, 4] {
        comes_down(&rt, alloc, lowered(&rt, alloc), workers);
    }
}

#[test]
fn a_half_done_split_is_read_and_finished(rt: HostRuntime) {
    let alloc = heap(rt.alloc()).expect(&rt, "a heap");
    let mut both = over(&rt, alloc, half_parted(&rt, alloc), 1);
    are_same(&rt, &both);
    has_children(&rt, both.index.tree(), 4);
    assert_equal(&rt, both.index.tree().namer(NEW), None);
    run(&rt, alloc, &mut both, BATCH);
    has_children(&rt, both.index.tree(), 4);
    assert_equal(&rt, both.index.tree().namer(NEW), Some(ROOT));
    have_gone(&rt, both.index.tree(), &[1, 3]);
    run(&rt, alloc, &mut both, BEHIND);
}

// Runs the batch where this growth is refused, and again where the batch was. Whether it was refused.
fn run_refused<R: Abort + Threads + Sync>(
    rt: &R,
    alloc: Alloc,
    both: &mut Compared,
    growth: u64,
) -> bool {
    let ops = ops(alloc, BATCH).expect(rt, "memory");
    alloc.refuse(growth);
    let outcome = both.index.run(rt, &ops, &OpenGate);
    let refused = was_refused(alloc, growth);
    match follow(rt, &mut both.map, &ops, &outcome) {
        Ok(is_tidied) => assert_that(rt, refused || is_tidied),
        Err(refusal) => assert_that(rt, refused && refusal == Refusal::Memory),
    }
    are_same(rt, both);
    if outcome.is_err() {
        run(rt, alloc, both, BATCH);
    }
    refused
}

// The same over such a tree. The batch behind it has tidying go on to its end.
fn is_refused<R: Abort + Threads + Sync>(rt: &R, alloc: Alloc, growth: u64) -> bool {
    let mut both = over(rt, alloc, half_merged(rt, alloc), 1);
    let refused = run_refused(rt, alloc, &mut both, growth);
    run(rt, alloc, &mut both, BEHIND);
    has_children(rt, both.index.tree(), 3);
    have_gone(rt, both.index.tree(), &[1, 3]);
    refused
}

#[test]
fn half_done_merges_are_finished_behind_each_refusal(rt: HostRuntime) {
    let alloc = heap(rt.alloc()).expect(&rt, "a heap");
    for growth in 1..1000 {
        if !is_refused(&rt, alloc, growth) {
            assert_that(&rt, growth > 20);
            return;
        }
    }
    panic!(rt; "no batch met no refusal");
}
