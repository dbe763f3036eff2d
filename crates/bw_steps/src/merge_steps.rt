// The steps by which pages are merged, and by which the tree loses a level.
ghost use Rattle.std.specs.Prelude.{◌≡◌, ℕ, None, Decides, MatchOption, IfOk, OnOk, OnErr};
ghost use Rattle.bw_level.specs.Children.{MayDropChild};
ghost use Rattle.bw_level.specs.Roots.{HasOneChild};
ghost use Rattle.bw_tree.specs.TreeMerges.{HasLostChild, MayMerge};
ghost use Rattle.bw_look.specs.RemovedPages.{IsNamerOfRemoved};
ghost use Rattle.bw_look.specs.PageStates.{IsNamer};
ghost use Rattle.bw_steps.specs.MergeSteps.{IsAbsorptionFinishStep, IsAbsorptionStep, IsLoweringStep};
ghost use Rattle.bw_steps.specs.Steps.{IsSameOver};

use crate::steps::{Did, rebase};
use bw_key::{Key, Memory};
use bw_page::PageId;
use bw_tree::Tree;

/// Merges a page into its left neighbour, which gets its entries and its right neighbour. The page is a removed one from
/// then on: the level above still names it, and a search that comes to it goes on at the left neighbour. It isn't needed
/// where the page or that neighbour has a record, where it has no left neighbour or stands on no level, and where no page of
/// the level above names both. No batch is staged.
///
/// It costs some searches and copies the entries of both pages, those of leaves as blocks; there are two records more. After
/// `Memory` the tree is as before.
pub fn absorb(tree: &mut Tree, page: PageId) -> Result<Did, Memory>
    requires { tree.old.staged ≡ None }
    ensures ok { IfOk result (IsAbsorptionStep tree.old tree.new page) }
    ensures err { OnErr result (tree.new ≡ tree.old) }
{
    tree.know_levels();
    let Some(left) = absorber(tree, page) else {
        return Ok(Did::NotNeeded);
    };
    tree.set_merge(page, left)?;
    Ok(Did::Done)
}

// The left neighbour that a page may be merged into.
fn absorber(tree: &Tree, page: PageId) -> Option<PageId>
    ensures { MatchOption result ((q : ℕ) → MayMerge tree.now q page → ⊥) (λ q. MayMerge tree.now q page) }
{
    tree.know_levels();
    tree.know_records();
    let Some(left) = tree.left_of(page) else {
        return None;
    };
    if !tree.is_plain(page) {
        return None;
    }
    if !tree.is_plain(left) {
        return None;
    }
    if !are_under_one(tree, page, left) {
        return None;
    }
    Some(left)
}

/// Whether one page of the level above names both.
pub fn are_under_one(tree: &Tree, page: PageId, other: PageId) -> bool
    ensures { Decides result ((parent : ℕ) × (IsNamer tree.now page parent × IsNamer tree.now other parent)) }
{
    tree.know_levels();
    let Some(parent) = tree.namer(page) else {
        return false;
    };
    let Some(namer) = tree.namer(other) else {
        return false;
    };
    parent.0 == namer.0
}

/// Finishes a merge: the page of the level above that still names the removed page drops its index entry. It isn't needed
/// for a page that isn't a removed one, and where none names it any more. No batch is staged.
///
/// It costs a search, a copy of one key, and one record; where the page above has a record, that page is consolidated first,
/// which copies its children where the record is of a new one. After `Memory` the tree is as before, but that the page above
/// may be consolidated.
pub fn finish_absorb(tree: &mut Tree, page: PageId) -> Result<Did, Memory>
    requires { tree.old.staged ≡ None }
    ensures ok { IfOk result (IsAbsorptionFinishStep tree.old tree.new page) }
    ensures err { OnErr result (IsSameOver (IsNamerOfRemoved tree.old page) tree.old tree.new) }
{
    tree.know_levels();
    tree.know_entries();
    let Some(parent) = tree.namer_of_removed(page) else {
        return Ok(Did::NotNeeded);
    };
    let Some(removed) = tree.removed(page) else {
        unreachable!();
    };
    let sep = removed.low.copy()?;
    drop_child(tree, parent, sep)?;
    Ok(Did::Done)
}

// Takes a removed child that isn't the first one from an inner page, consolidated first where it has a record.
fn drop_child(tree: &mut Tree, parent: PageId, sep: Key) -> Result<(), Memory>
    requires none { tree.old.staged ≡ None }
    requires drops { MayDropChild tree.old.slots tree.old.levels parent sep }
    ensures ok { OnOk result (HasLostChild tree.old tree.new parent sep) }
    ensures err { OnErr result (IsSameOver (λ p. p ≡ parent) tree.old tree.new) }
{
    rebase(tree, parent)?;
    tree.unset_child(parent, sep)
}

/// Makes the root's only child the root: the tree has one level fewer. The old root is a removed page from then on, with that
/// child as its left neighbour, until its identifier is given back. It isn't needed where the root is a leaf, and where it
/// has another child or a right neighbour. No batch is staged.
///
/// It costs a search and some walks along the root's chain. After `Memory` the tree is as before.
pub fn drop_root(tree: &mut Tree) -> Result<Did, Memory>
    requires { tree.old.staged ≡ None }
    ensures ok { IfOk result (IsLoweringStep tree.old tree.new) }
    ensures err { OnErr result (tree.new ≡ tree.old) }
{
    tree.know_levels();
    if !has_one_child(tree) {
        return Ok(Did::NotNeeded);
    }
    tree.lower_root()?;
    Ok(Did::Done)
}

// Whether the root is an inner page with one child, and without a right neighbour.
fn has_one_child(tree: &Tree) -> bool
    ensures { Decides result ((child : ℕ) × HasOneChild tree.now.slots tree.now.root child) }
{
    tree.know_levels();
    tree.know_records();
    let root = tree.root();
    if tree.root_level() == 0 {
        return false;
    }
    tree.right_of(root).is_none() && tree.entries(root) == 1
}
