// Trees of which some leaves are consolidated.
ghost use Rattle.std.specs.Prelude.{◌≡◌, None};

use super::making::{BATCH, FLOOR, Pair, Words, adopt, holds, memory, stands};
use super::scripts::Start::ThreeLeaves;
use super::scripts::Step::{Consolidated, RunAnywhere, Seen, StartedOver};
use super::scripts::{Step, play, tree_after};
use super::sights::Sight::{Holds, Stands};
use crate::tests::assertions::assert_equal;
use bw_fixtures::TextOp::Upsert;
use bw_fixtures::{TextOp, key, was_refused};
use bw_key::Memory;
use bw_memory::Alloc;
use bw_page::PageId;
use bw_post::Tree;
use std::process::Abort;
use std::thread::Threads;

// What the batch leaves of the three leaves.
const AFTER: &[Pair] = &[(b"a", b"1"), (b"b", b"2"), (b"c", b"9")];

// What leads to the tree over three leaves, two of which have the batch's writes over them.
const WRITTEN: &[Step] = &[RunAnywhere(BATCH)];

// Consolidates the leaf that has a key.
fn consolidate<R: Abort>(
    rt: &R,
    alloc: Alloc,
    tree: &mut Tree,
    bytes: &[u8],
) -> Result<PageId, Memory>
    requires { tree.old.staged ≡ None }
    ensures { tree.new.staged ≡ None }
{
    let page = tree.route(&key(alloc, bytes).expect(rt, "memory"));
    tree.consolidate(page)?;
    Ok(page)
}

/// Consolidates the leaf that has a key, and compares its page.
pub fn consolidates<R: Abort>(rt: &R, alloc: Alloc, tree: &mut Tree, bytes: &[u8], wanted: u32)
    requires { tree.old.staged ≡ None }
    ensures { tree.new.staged ≡ None }
{
    assert_equal(rt, consolidate(rt, alloc, tree, bytes), Ok(PageId(wanted)));
}

const ONE_AND_ANOTHER: &[Step] = &[
    Consolidated(b"d", 1),
    Seen(Stands(&[0, 1, FLOOR + 1, 3], 2, 3)),
    Seen(Holds(3, AFTER)),
    Consolidated(b"e", 2),
    Seen(Stands(&[0, 1, 2, 3], 2, 3)),
    Seen(Holds(3, AFTER)),
];

#[test]
fn one_leaf_of_three_is_consolidated(rt: HostRuntime) {
    play(&rt, rt.alloc(), ThreeLeaves, WRITTEN, ONE_AND_ANOTHER);
}

/// Starts over a tree of three leaves and their root, where its mapping words name their base pages.
pub fn start_over<R: Abort>(rt: &R, tree: &mut Tree)
    requires { tree.old.staged ≡ None }
    ensures { tree.new.staged ≡ None }
{
    assert!(rt; tree.heads() == [0, 1, 2, 3].as_slice());
    tree.restart();
}

const BOTH_AND_OVER: &[Step] = &[
    Consolidated(b"c", 1),
    Consolidated(b"e", 2),
    StartedOver,
    Seen(Stands(&[0, 1, 2, 3], 0, 0)),
    Seen(Holds(0, AFTER)),
];

#[test]
fn a_tree_of_consolidated_leaves_starts_over(rt: HostRuntime) {
    play(&rt, rt.alloc(), ThreeLeaves, WRITTEN, BOTH_AND_OVER);
}

// What leads to a tree of which one of those leaves is consolidated.
const ONE_CONSOLIDATED: &[Step] = &[RunAnywhere(BATCH), Consolidated(b"c", 1)];

const AGAIN: &[TextOp] = &[Upsert("c", "7")];

// What the posting of that put leaves: its record is the third one.
const BEHIND_TWO: Words = Words {
    pages: &[1],
    heads: &[FLOOR + 2],
    links: &[1],
};

const BEHIND_IT: &[Pair] = &[(b"a", b"1"), (b"b", b"2"), (b"c", b"7")];

#[test]
fn a_batch_is_posted_over_a_consolidated_leaf(rt: HostRuntime) {
    let alloc = memory(&rt, rt.alloc());
    let mut tree = tree_after(&rt, alloc, ThreeLeaves, ONE_CONSOLIDATED);
    adopt(&rt, alloc, &mut tree, AGAIN, &BEHIND_TWO);
    stands(&rt, &tree, &[0, FLOOR + 2, FLOOR + 1, 3], 3, 3);
    holds(&rt, alloc, &tree, 3, AFTER);
    holds(&rt, alloc, &tree, 4, BEHIND_IT);
    tree.undo();
    stands(&rt, &tree, &[0, 1, FLOOR + 1, 3], 2, 3);
}

// Consolidates a leaf where this growth is refused, and compares the tree after that. Whether it was: behind the first
// five growths two only give room back, and the leaf is consolidated without them.
fn is_refused<R: Abort>(rt: &R, alloc: Alloc, tree: &mut Tree, growth: u64) -> bool
    requires { tree.old.staged ≡ None }
{
    alloc.refuse(growth);
    let is_err = consolidate(rt, alloc, tree, b"c").is_err();
    let refused = was_refused(alloc, growth);
    assert_equal(rt, is_err, refused && growth <= 5);
    if is_err {
        stands(rt, tree, &[0, FLOOR, FLOOR + 1, 3], 2, 3);
    }
    holds(rt, alloc, tree, 3, AFTER);
    refused
}

// The same with a tree of its own.
fn consolidation_refused<R: Abort + Threads + Sync>(rt: &R, alloc: Alloc, growth: u64) -> bool {
    let mut tree = tree_after(rt, alloc, ThreeLeaves, WRITTEN);
    is_refused(rt, alloc, &mut tree, growth)
}

#[test]
fn each_growth_of_a_consolidation_is_refused(rt: HostRuntime) {
    let alloc = memory(&rt, rt.alloc());
    for growth in 1..100 {
        if !consolidation_refused(&rt, alloc, growth) {
            assert_equal(&rt, growth, 8);
            return;
        }
    }
    panic!(rt; "no run met no refusal")
}
