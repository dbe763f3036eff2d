// Scripts: what a test does with a tree in turn, and what it compares in between. The calls stand here once for all tests, as
// their contracts are proved in each body that makes them.
ghost use Rattle.std.specs.Prelude.{◌≡◌, None};

use super::consolidation::{consolidates, start_over};
use super::making::{are_pages, batch, memory, post, three, upsert};
use super::sights::{Sight, compare};
use super::tidying::{Bounds, tidies};
use crate::tests::assertions::assert_equal;
use bw_fixtures::TextOp;
use bw_group::Homes;
use bw_memory::Alloc;
use bw_model::Op;
use bw_page::PageId;
use bw_post::{Posting, Tree};
use bw_shape::{
    Did, Memory, absorb, consolidate, drop_root, finish_absorb, finish_split, grow_root, split,
    sweep,
};
use std::alloc::Global;
use std::process::Abort;
use std::thread::Threads;

/// A tree that a script begins with.
#[derive(Clone, Copy)]
pub enum Start {
    /// One leaf without a pair.
    Empty,
    /// Three leaves: a 1 and b 2; c 3; e 5.
    ThreeLeaves,
}

/// A call that restructures a tree, by its function's name.
#[derive(Clone, Copy)]
pub enum Call {
    Split(u32, usize),
    FinishSplit(u32),
    GrowRoot,
    Consolidate(u32),
    Absorb(u32),
    FinishAbsorb(u32),
    DropRoot,
    Sweep,
}

/// A step of a script.
#[derive(Clone, Copy)]
pub enum Step {
    /// A batch that is posted, adopted and accepted, and the pages of its keys.
    Run(&'static [TextOp], &'static [u32]),
    /// The same, whose pages aren't compared.
    RunAnywhere(&'static [TextOp]),
    /// A batch of upserts of the letters from one on and below another, each with itself as its value, on page 0.
    Write(u8, u8),
    /// Tidying where these pages are due, which consolidates and splits so many.
    Tidied(Bounds, &'static [u32], (u64, u64)),
    /// A call, which is made.
    Done(Call),
    /// A call that isn't needed.
    NotNeeded(Call),
    /// The leaf that has a key is consolidated, without a look whether that is needed.
    Consolidated(&'static [u8], u32),
    /// The tree of three leaves and their root starts over, where its mapping words name their base pages.
    StartedOver,
    /// What the tree is compared with.
    Seen(Sight),
}

// Makes a call.
fn make(tree: &mut Tree, call: Call) -> Result<Did, Memory>
    requires { tree.old.staged ≡ None }
    ensures { tree.new.staged ≡ None }
{
    match call {
        Call::Split(page, keep) => split(tree, PageId(page), keep),
        Call::FinishSplit(page) => finish_split(tree, PageId(page)),
        Call::GrowRoot => grow_root(tree),
        Call::Consolidate(page) => consolidate(tree, PageId(page)),
        Call::Absorb(page) => absorb(tree, PageId(page)),
        Call::FinishAbsorb(page) => finish_absorb(tree, PageId(page)),
        Call::DropRoot => drop_root(tree),
        Call::Sweep => sweep(tree).map(|_| Did::Done),
    }
}

// Makes a call, and compares what that did.
fn does<R: Abort>(rt: &R, tree: &mut Tree, call: Call, wanted: Did)
    requires { tree.old.staged ≡ None }
    ensures { tree.new.staged ≡ None }
{
    assert_equal(rt, make(tree, call), Ok(wanted));
}

// Posts a batch, adopts and accepts it. The pages of its keys.
fn run<R: Abort + Threads + Sync>(rt: &R, alloc: Alloc, tree: &mut Tree, ops: &[Op]) -> Homes
    requires { tree.old.staged ≡ None }
    ensures { tree.new.staged ≡ None }
{
    let Posting {
        homes,
        pages,
        closed,
        ..
    } = post(rt, alloc, tree, ops, 64);
    tree.adopt_on(pages, closed);
    tree.accept();
    homes
}

// Runs a batch of texts. The pages of its keys.
fn run_texts<R: Abort + Threads + Sync>(
    rt: &R,
    alloc: Alloc,
    tree: &mut Tree,
    texts: &[TextOp],
) -> Homes
    requires { tree.old.staged ≡ None }
    ensures { tree.new.staged ≡ None }
{
    let ops = batch(rt, alloc, texts);
    run(rt, alloc, tree, &ops)
}

// Runs a batch of texts.
fn runs<R: Abort + Threads + Sync>(rt: &R, alloc: Alloc, tree: &mut Tree, texts: &[TextOp])
    requires { tree.old.staged ≡ None }
    ensures { tree.new.staged ≡ None }
{
    run_texts(rt, alloc, tree, texts);
}

// Runs a batch of texts, and compares the pages of its keys.
fn runs_on<R: Abort + Threads + Sync>(
    rt: &R,
    alloc: Alloc,
    tree: &mut Tree,
    texts: &[TextOp],
    wanted: &[u32],
)
    requires { tree.old.staged ≡ None }
    ensures { tree.new.staged ≡ None }
{
    let homes = run_texts(rt, alloc, tree, texts);
    are_pages(rt, homes.pages(), wanted);
}

// Upserts of the letters from one on and below another, each with itself as its value.
fn letters<R: Abort>(rt: &R, alloc: Alloc, from: u8, to: u8) -> Vec<Op, Alloc> {
    let mut ops = Vec::new(alloc);
    for letter in from..to {
        ops.push(upsert(rt, alloc, &[letter], &[letter]))
            .expect(rt, "memory");
    }
    ops
}

// Runs a batch of them, whose keys have page 0.
fn run_letters<R: Abort + Threads + Sync>(rt: &R, alloc: Alloc, tree: &mut Tree, from: u8, to: u8)
    requires { tree.old.staged ≡ None }
    ensures { tree.new.staged ≡ None }
{
    let ops = letters(rt, alloc, from, to);
    let homes = run(rt, alloc, tree, &ops);
    are_pages(rt, homes.pages(), &[0]);
}

// Takes a step.
fn take<R: Abort + Threads + Sync>(rt: &R, alloc: Alloc, tree: &mut Tree, step: Step)
    requires { tree.old.staged ≡ None }
    ensures { tree.new.staged ≡ None }
{
    match step {
        Step::Run(texts, homes) => runs_on(rt, alloc, tree, texts, homes),
        Step::RunAnywhere(texts) => runs(rt, alloc, tree, texts),
        Step::Write(from, to) => run_letters(rt, alloc, tree, from, to),
        Step::Tidied(bounds, pages, wanted) => tidies(rt, alloc, tree, bounds, pages, wanted),
        Step::Done(call) => does(rt, tree, call, Did::Done),
        Step::NotNeeded(call) => does(rt, tree, call, Did::NotNeeded),
        Step::Consolidated(bytes, page) => consolidates(rt, alloc, tree, bytes, page),
        Step::StartedOver => start_over(rt, tree),
        Step::Seen(sight) => compare(rt, alloc, tree, sight),
    }
}

/// Takes all steps.
pub fn take_all<R: Abort + Threads + Sync>(rt: &R, alloc: Alloc, tree: &mut Tree, steps: &[Step])
    requires { tree.old.staged ≡ None }
    ensures { tree.new.staged ≡ None }
{
    for step in steps {
        take(rt, alloc, tree, *step);
    }
}

// The tree that a script begins with.
fn first<R: Abort>(rt: &R, alloc: Alloc, start: Start) -> Tree
    ensures { result.staged ≡ None }
{
    match start {
        Start::Empty => Tree::new(alloc).expect(rt, "memory"),
        Start::ThreeLeaves => three(rt, alloc),
    }
}

/// The tree behind these steps.
pub fn tree_after<R: Abort + Threads + Sync>(
    rt: &R,
    alloc: Alloc,
    start: Start,
    steps: &[Step],
) -> Tree
    ensures { result.staged ≡ None }
{
    let mut tree = first(rt, alloc, start);
    take_all(rt, alloc, &mut tree, steps);
    tree
}

/// Plays a script in memory of its own: steps that lead to a tree, and those that are tested on it.
pub fn play<R: Abort + Threads + Sync>(
    rt: &R,
    global: Global,
    start: Start,
    before: &[Step],
    steps: &[Step],
) {
    let alloc = memory(rt, global);
    let mut tree = tree_after(rt, alloc, start, before);
    take_all(rt, alloc, &mut tree, steps);
}
