// A sweep: every chain is consolidated, identifiers to which nothing leads are given back, and records and stamps start over.
ghost use Rattle.std.specs.Prelude.{◌≡◌, ℕ, ◌<◌, ◌⊎◌, None, OnOk, OnErr, length};
ghost use Rattle.std.specs.List.{Contains};
ghost use Rattle.bw_level.specs.Levels.{row};
ghost use Rattle.bw_shape.specs.Tidying.{HasBoth, KeepsWithin};
ghost use Rattle.bw_shape.specs.Sweeps.{ArePlainBelow, HoldsButFreed, HoldsSame, IsPlainAt, IsSwept, KeepsPlain, KeepsPlainTaken};

use crate::due::Due;
use crate::page_lists::{leaf_pages, recorded_pages};
use bw_key::Memory;
use bw_page::PageId;
use bw_steps::{consolidate, release_all};
use bw_tree::Tree;

/// Starts records and stamps over: every chain is consolidated, there is no record any more, and the next stamp is 0. What
/// the tree holds is the same, as of every stamp. Identifiers of pages that stand on no level and to which nothing leads, as
/// `release` has it, are given back: none is left that might be. No batch is staged.
///
/// It costs a look at each mapping word, what `consolidate` does for each page that has records, what `release_all` does for
/// each removed page, and a step for each record. After `Memory` the tree holds the same as of the same next stamp, and some
/// pages may have been consolidated, and some identifiers given back.
pub fn sweep(tree: &mut Tree) -> Result<(), Memory>
    requires { tree.old.staged ≡ None }
    ensures ok { OnOk result (IsSwept tree.old tree.new) }
    ensures err { OnErr result (HoldsButFreed tree.old tree.new) }
    ensures kept { KeepsPlainTaken tree.old tree.new }
    ensures levels { tree.new.levels ≡ tree.old.levels }
{
    consolidate_all(tree)?;
    release_all(tree)?;
    tree.restart();
    Ok(())
}

/// The same, with the pages due that had records, beside those that were due before: a consolidated leaf may have too many
/// pairs. All leaves are marked, so that the next tidying merges each that has few pairs, though no batch writes to it. It costs
/// lists of these pages and of all leaves, which are sorted, too. After `Memory` the pages are due and the leaves marked where
/// any page was consolidated.
pub fn sweep_due(tree: &mut Tree, due: &mut Due) -> Result<(), Memory>
    requires { tree.old.staged ≡ None }
    ensures ok { OnOk result (IsSwept tree.old tree.new) }
    ensures err { OnErr result (HoldsButFreed tree.old tree.new) }
    ensures within { KeepsWithin tree.old tree.new due.old.pages due.new.pages }
    ensures kept { (p : ℕ) → Contains due.old.pages p → Contains due.new.pages p }
    ensures marked { OnOk result (HasBoth due.old.marked (row tree.old.levels 0) due.new.marked) }
    ensures before { HasBoth due.old.marked (row tree.old.levels 0) due.new.marked ⊎ (tree.new ≡ tree.old) }
    ensures rest { due.new ≡ record due.old { pages = due.new.pages; marked = due.new.marked } }
{
    tree.know_records();
    let pages = recorded_pages(due.alloc(), tree)?;
    let leaves = leaf_pages(tree)?;
    due.add(tree, pages, &leaves)?;
    sweep(tree)
}

// Consolidates every page that has records.
fn consolidate_all(tree: &mut Tree) -> Result<(), Memory>
    requires { tree.old.staged ≡ None }
    ensures same { HoldsSame tree.old tree.new }
    ensures kept { KeepsPlain tree.old tree.new }
    ensures plain { OnOk result (ArePlainBelow tree.new (length tree.new.heads)) }
{
    for page in 0..tree.heads().len() {
        consolidate_at(tree, page)?;
    }
    Ok(())
}

// Consolidates the page of this mapping word where it has records.
fn consolidate_at(tree: &mut Tree, place: usize) -> Result<(), Memory>
    requires none { tree.old.staged ≡ None }
    requires there { place < length tree.old.heads }
    ensures ok { OnOk result (IsPlainAt tree.old tree.new place) }
    ensures err { OnErr result (tree.new ≡ tree.old) }
{
    tree.know_records();
    consolidate(tree, PageId(place as u32))?;
    Ok(())
}
