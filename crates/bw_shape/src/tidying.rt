// Tidying: the pages that are due are looked at, level by level.
ghost use Rattle.std.specs.Prelude.{◌≡◌, ℕ, ◌<◌, false, List, [], None, length, IfOk, OnErr, OnOk};
ghost use Rattle.bw_shape.specs.Limits.{AreWithinBut};
ghost use Rattle.bw_shape.specs.Tidying.{HasNoneDue, HoldsAll, KeepsWithin};

use crate::due::Due;
use crate::finishing::finish_steps;
use crate::limits::Limits;
use crate::outcome::Tidy;
use crate::page_lists::inner_pages;
use crate::visits::visit;
use bw_key::Memory;
use bw_steps::{Did, drop_root};
use bw_tree::Tree;

/// Looks at the pages that are due: a leaf with more writes than `chain_max`, or with more pairs under them than
/// `page_max`, is consolidated. It's split into halves until none has too many pairs, or, with fewer than `page_min`, merged
/// into its left neighbour, where one page above names both and the two have at most `page_max` pairs. A page above that got
/// or lost index entries is looked at next, and so is its right neighbour, level by level, by the same two limits on how many
/// children it has. Where one is merged, its first child is looked at the next time, a leaf only for too few pairs. A root
/// that was split gets a root above it, and one that has one child alone goes. Free identifiers behind the last page are
/// forgotten at the end. No batch is staged.
///
/// At the first `Memory` it stops, and what it didn't look at stays due. Where it doesn't stop, no leaf is over a limit,
/// if none was that wasn't due. It costs some walks along the chain of each page that is due, and for each page that is over
/// a limit a copy of its entries and the sorting of its writes. Each split moves the half that goes. The new pages that came
/// of one get their index entries at once, for a search each and a copy of the children of the page above. A page with too
/// few entries costs some searches. A merge copies the entries of both pages and, where the number of the left one's pairs
/// isn't clear from its entries and writes, those of that one once more. An identifier that is given back costs a search, and
/// a look at each removed page whose own isn't given back.
pub fn tidy_due(tree: &mut Tree, limits: &Limits, due: &mut Due) -> Tidy
    requires none { tree.old.staged ≡ None }
    requires within { AreWithinBut limits.now tree.old due.old.pages }
    ensures holds { HoldsAll tree.old tree.new }
    ensures within { AreWithinBut limits.now tree.new due.new.pages }
    ensures all { result.stopped ≡ false → HasNoneDue due.new }
{
    let mut counts = Tidy::default();
    let stopped = visit_all(tree, limits, due, &mut counts).is_err();
    Tidy { stopped, ..counts }
}

// Looks at the pages that are due, level by level from the leaves up, and then at the root.
fn visit_all(
    tree: &mut Tree,
    limits: &Limits,
    due: &mut Due,
    counts: &mut Tidy,
) -> Result<(), Memory>
    requires none { tree.old.staged ≡ None }
    requires within { AreWithinBut limits.now tree.old due.old.pages }
    ensures holds { HoldsAll tree.old tree.new }
    ensures within { AreWithinBut limits.now tree.new due.new.pages }
    ensures all { OnOk result (HasNoneDue due.new) }
{
    finish_given(tree, due)?;
    go_on(tree, due)?;
    due.begin(tree, limits)?;
    visit_levels(tree, limits, due, counts)?;
    lower(tree, due)?;
    forget_free(tree);
    Ok(())
}

// Finishes the splits and the merges of a tree that was given, if that wasn't done yet. All inner pages are due then.
fn finish_given(tree: &mut Tree, due: &mut Due) -> Result<(), Memory>
    requires { tree.old.staged ≡ None }
    ensures holds { HoldsAll tree.old tree.new }
    ensures within { (pages : List ℕ) → KeepsWithin tree.old tree.new pages pages }
    ensures pages { due.new.pages ≡ due.old.pages }
    ensures ok { OnOk result (due.new.given ≡ false) }
    ensures rest { due.new ≡ record due.old { above = due.new.above; given = due.new.given } }
    ensures err { OnErr result (due.new ≡ due.old) }
{
    if !due.is_given() {
        return Ok(());
    }
    finish_steps(tree)?;
    let inner = inner_pages(due.alloc(), tree)?;
    due.set_above(inner);
    due.set_given(false);
    Ok(())
}

// Finishes the splits, the merge or the giving back of identifiers at which tidying stopped, if it did.
fn go_on(tree: &mut Tree, due: &mut Due) -> Result<(), Memory>
    requires { tree.old.staged ≡ None }
    ensures holds { HoldsAll tree.old tree.new }
    ensures within { KeepsWithin tree.old tree.new due.old.pages due.new.pages }
    ensures finished { OnOk result (due.new.unfinished ≡ None) }
    ensures rest { due.new ≡ record due.old { above = due.new.above; unfinished = due.new.unfinished } }
    ensures kept { OnErr result (due.new.unfinished ≡ None → ⊥) }
{
    let Some(page) = due.unfinished() else {
        return Ok(());
    };
    due.finish_merge(tree, page)?;
    due.finish(tree, page)?;
    due.set_unfinished(None);
    Ok(())
}

// Looks at the pages that are due, level by level from the leaves up.
fn visit_levels(
    tree: &mut Tree,
    limits: &Limits,
    due: &mut Due,
    counts: &mut Tidy,
) -> Result<(), Memory>
    requires none { tree.old.staged ≡ None }
    requires within { AreWithinBut limits.now tree.old due.old.pages }
    requires finished { due.old.unfinished ≡ None }
    ensures holds { HoldsAll tree.old tree.new }
    ensures within { AreWithinBut limits.now tree.new due.new.pages }
    ensures all { OnOk result (HasNoneDue due.new) }
{
    visit_level(tree, limits, due, counts, 0)?;
    let mut level = 0;
    while let Some(next) = due.rise(tree, level)? {
        visit_level(tree, limits, due, counts, next)?;
        level = next;
    }
    Ok(())
}

// Looks at one page of a level after another.
fn visit_level(
    tree: &mut Tree,
    limits: &Limits,
    due: &mut Due,
    counts: &mut Tidy,
    level: u32,
) -> Result<(), Memory>
    requires none { tree.old.staged ≡ None }
    requires within { AreWithinBut limits.now tree.old due.old.pages }
    requires finished { due.old.unfinished ≡ None }
    ensures holds { HoldsAll tree.old tree.new }
    ensures within { AreWithinBut limits.now tree.new due.new.pages }
    ensures finished { OnOk result (due.new.unfinished ≡ None) }
    ensures all { OnOk result (due.new.pages ≡ []) }
{
    while let Some(page) = due.next() {
        visit(tree, limits, due, counts, page, level)?;
    }
    Ok(())
}

// Drops the root while it is an inner page with one child alone.
fn lower(tree: &mut Tree, due: &mut Due) -> Result<(), Memory>
    requires { tree.old.staged ≡ None }
    ensures holds { HoldsAll tree.old tree.new }
    ensures within { (pages : List ℕ) → KeepsWithin tree.old tree.new pages pages }
    ensures ok { OnOk result (due.new ≡ due.old) }
    ensures pages { due.new.pages ≡ due.old.pages }
{
    while lower_once(tree, due)? == Did::Done {}
    Ok(())
}

// Forgets the free identifiers behind the last page.
fn forget_free(tree: &mut Tree)
    requires { tree.old.staged ≡ None }
    ensures holds { HoldsAll tree.old tree.new }
    ensures within { (due : List ℕ) → KeepsWithin tree.old tree.new due due }
{
    tree.trim();
}

// Drops such a root, and gives its identifier back, if nothing leads to it. Where that is left to do, it is unfinished.
fn lower_once(tree: &mut Tree, due: &mut Due) -> Result<Did, Memory>
    requires { tree.old.staged ≡ None }
    ensures holds { HoldsAll tree.old tree.new }
    ensures within { (pages : List ℕ) → KeepsWithin tree.old tree.new pages pages }
    ensures ok { OnOk result (due.new ≡ due.old) }
    ensures pages { due.new.pages ≡ due.old.pages }
    ensures kept { OnErr result (due.new.unfinished ≡ None → tree.new ≡ tree.old) }
    ensures fewer { IfOk result (λ did. did ≡ Did.Done → length tree.new.levels < length tree.old.levels) }
{
    tree.know_levels();
    let root = tree.root();
    let did = drop_root(tree)?;
    if did == Did::Done {
        due.release_from(tree, root)?;
    }
    Ok(did)
}
