// Scripts: what a test does with a tree in turn, and what it compares in between. The calls stand here once for all tests, as
// their contracts are proved in each body that makes them.
ghost use Rattle.std.specs.Prelude.{◌≡◌, None};

use super::making::{five, memory, sweep_does};
use super::merging::of_two_pairs;
use super::sights::{Sight, compare};
use super::tidying::{did, four_pairs};
use crate::tests::assertions::{assert_equal, assert_that};
use bw_fixtures::was_refused;
use bw_memory::Alloc;
use bw_shape::{
    Did, Memory, PageId, Tree, absorb, consolidate, drop_root, finish_absorb, finish_split,
    grow_root, release, split, sweep, tidy,
};
use std::alloc::Global;
use std::process::Abort;

/// A tree that a script begins with.
#[derive(Clone, Copy)]
pub enum Start {
    /// One leaf with five pairs.
    FivePairs,
    /// Two leaves with a pair each, under the root 2.
    TwoPairs,
}

/// A call that restructures a tree, by its function's name.
#[derive(Clone, Copy)]
pub enum Call {
    Split(u32, usize),
    FinishSplit(u32),
    GrowRoot,
    Consolidate(u32),
    Absorb(u32),
    FinishAbsorb(u32),
    DropRoot,
    Release(u32),
    Sweep,
}

/// A step of a script.
#[derive(Clone, Copy)]
pub enum Step {
    /// A call, which is made.
    Done(Call),
    /// A call that isn't needed.
    NotNeeded(Call),
    /// A sweep, behind which there is neither a record nor a stamp.
    Swept,
    /// Free identifiers behind the last page are forgotten, and so many words are left.
    Trimmed(usize),
    /// Tidying of all pages, which consolidates and splits so many.
    Tidied(u64, u64),
    /// What the tree is compared with.
    Seen(Sight),
}

// Sweeps a tree, which is always done.
fn sweep_all(tree: &mut Tree) -> Result<Did, Memory>
    requires { tree.old.staged ≡ None }
    ensures { tree.new.staged ≡ None }
{
    sweep(tree)?;
    Ok(Did::Done)
}

/// Makes a call.
pub fn make(tree: &mut Tree, call: Call) -> Result<Did, Memory>
    requires { tree.old.staged ≡ None }
    ensures { tree.new.staged ≡ None }
{
    match call {
        Call::Split(page, keep) => split(tree, PageId(page), keep),
        Call::FinishSplit(page) => finish_split(tree, PageId(page)),
        Call::GrowRoot => grow_root(tree),
        Call::Consolidate(page) => consolidate(tree, PageId(page)),
        Call::Absorb(page) => absorb(tree, PageId(page)),
        Call::FinishAbsorb(page) => finish_absorb(tree, PageId(page)),
        Call::DropRoot => drop_root(tree),
        Call::Release(page) => release(tree, PageId(page)),
        Call::Sweep => sweep_all(tree),
    }
}

/// Makes a call, and compares what that did.
pub fn does<R: Abort>(rt: &R, tree: &mut Tree, call: Call, wanted: Did)
    requires { tree.old.staged ≡ None }
    ensures { tree.new.staged ≡ None }
{
    assert_equal(rt, make(tree, call), Ok(wanted));
}

// Forgets the free identifiers behind the last page, and looks at how many are left.
fn trims<R: Abort>(rt: &R, tree: &mut Tree, wanted: usize)
    requires { tree.old.staged ≡ None }
    ensures { tree.new.staged ≡ None }
{
    tree.trim();
    assert_equal(rt, tree.heads().len(), wanted);
}

// Tidies a whole tree, and compares what that did.
fn tidies<R: Abort>(rt: &R, tree: &mut Tree, consolidated: u64, splits: u64)
    requires { tree.old.staged ≡ None }
    ensures { tree.new.staged ≡ None }
{
    let wanted = did(consolidated, splits);
    assert_equal(rt, tidy(tree, &four_pairs()), wanted);
}

// Takes a step.
fn take<R: Abort>(rt: &R, alloc: Alloc, tree: &mut Tree, step: Step)
    requires { tree.old.staged ≡ None }
    ensures { tree.new.staged ≡ None }
{
    match step {
        Step::Done(call) => does(rt, tree, call, Did::Done),
        Step::NotNeeded(call) => does(rt, tree, call, Did::NotNeeded),
        Step::Swept => sweep_does(rt, tree),
        Step::Trimmed(left) => trims(rt, tree, left),
        Step::Tidied(consolidated, splits) => tidies(rt, tree, consolidated, splits),
        Step::Seen(sight) => compare(rt, alloc, tree, sight),
    }
}

/// Takes all steps.
pub fn take_all<R: Abort>(rt: &R, alloc: Alloc, tree: &mut Tree, steps: &[Step])
    requires { tree.old.staged ≡ None }
    ensures { tree.new.staged ≡ None }
{
    for step in steps {
        take(rt, alloc, tree, *step);
    }
}

// The tree that a script begins with.
fn first<R: Abort>(rt: &R, alloc: Alloc, start: Start) -> Tree
    ensures { result.staged ≡ None }
{
    match start {
        Start::FivePairs => five(rt, alloc),
        Start::TwoPairs => of_two_pairs(rt, alloc),
    }
}

/// The tree behind these steps.
pub fn tree_after<R: Abort>(rt: &R, alloc: Alloc, start: Start, steps: &[Step]) -> Tree
    ensures { result.staged ≡ None }
{
    let mut tree = first(rt, alloc, start);
    take_all(rt, alloc, &mut tree, steps);
    tree
}

/// Plays a script in memory of its own: steps that lead to a tree, and those that are tested on it.
pub fn play<R: Abort>(rt: &R, global: Global, start: Start, before: &[Step], steps: &[Step]) {
    let alloc = memory(rt, global);
    let mut tree = tree_after(rt, alloc, start, before);
    take_all(rt, alloc, &mut tree, steps);
}

/// A call each growth of which is refused in turn.
pub struct Refusal {
    pub start: Start,
    /// The steps that lead to the tree.
    pub before: &'static [Step],
    pub call: Call,
    /// The steps behind one of the first two growths that is refused: two are what a page takes that is consolidated first.
    pub first: &'static [Step],
    /// Those behind a later one.
    pub later: &'static [Step],
    /// And those where none was.
    pub done: &'static [Step],
}

// Makes the call where this growth is refused, and takes the steps behind it. Whether it was refused.
fn refuses<R: Abort>(rt: &R, alloc: Alloc, tree: &mut Tree, refusal: &Refusal, growth: u64) -> bool
    requires { tree.old.staged ≡ None }
{
    alloc.refuse(growth);
    let made = make(tree, refusal.call);
    if !was_refused(alloc, growth) {
        assert_equal(rt, made, Ok(Did::Done));
        take_all(rt, alloc, tree, refusal.done);
        return false;
    }
    assert_equal(rt, made, Err(Memory));
    let steps = if growth <= 2 {
        refusal.first
    } else {
        refusal.later
    };
    take_all(rt, alloc, tree, steps);
    true
}

// The same on a tree of its own.
fn is_refused<R: Abort>(rt: &R, alloc: Alloc, refusal: &Refusal, growth: u64) -> bool {
    let mut tree = tree_after(rt, alloc, refusal.start, refusal.before);
    refuses(rt, alloc, &mut tree, refusal, growth)
}

/// Refuses each growth of a call in turn. More than so many tries come to the last one, in which none is refused.
pub fn refuse_each<R: Abort>(rt: &R, global: Global, refusal: &Refusal, least: u64) {
    let alloc = memory(rt, global);
    for growth in 1..100 {
        if !is_refused(rt, alloc, refusal, growth) {
            assert_that(rt, growth > least);
            return;
        }
    }
    panic!(rt; "no run met no refusal")
}
