// The steps by which a tree changes its pages.
ghost use Rattle.std.specs.Prelude.{◌≡◌, ◌<◌, ◌≤◌, ◌^◌, true, false, None, Decides, MatchOption, IfOk, OnOk, OnErr, slice_index};
ghost use Rattle.std.specs.List.{Contains};
ghost use Rattle.bw_level.specs.Children.{FitsChild};
ghost use Rattle.bw_level.specs.Levels.{row};
ghost use Rattle.bw_level.specs.Splits.{HasNoRemovedAt};
ghost use Rattle.bw_tree.specs.TreeChildren.{IsNamed};
ghost use Rattle.bw_level.specs.Searches.{IsInLevels};
ghost use Rattle.bw_tree.specs.Consolidation.{IsRebased};
ghost use Rattle.bw_look.specs.Routing.{IsInLevel, IsInnerPage};
ghost use Rattle.bw_look.specs.PageStates.{IsPlain, leaf_as_of};
ghost use Rattle.bw_tree.specs.TreeSplits.{IsSplittable};
ghost use Rattle.bw_steps.specs.Steps.{IsConsolidationStep, IsFinishStep, IsFinished, HasLostChain, IsNamerToBe, IsRootStep, IsSameOver, IsSplitStep};

use bw_key::{Key, Memory};
use bw_page::{Leaf, PageId};
use bw_tree::Tree;

/// What became of a step.
#[derive(Clone, Copy, Debug, PartialEq, Eq)]
pub enum Did {
    /// It was taken.
    Done,
    /// It wasn't needed, and nothing has changed.
    NotNeeded,
}

/// Consolidates a page: what its chain makes of its base page takes the place of that page, a leaf's as of the next stamp.
/// It isn't needed where the page has no record, as a page of no level. No batch is staged.
///
/// It costs a look at the page's mapping word, for a page that has writes or a new child a copy of its entries and the sorting
/// of its writes, and for one that was split a copy of a key. After `Memory` the tree is as before.
pub fn consolidate(tree: &mut Tree, page: PageId) -> Result<Did, Memory>
    requires { tree.old.staged ≡ None }
    ensures ok { IfOk result (IsConsolidationStep tree.old tree.new page) }
    ensures err { OnErr result (tree.new ≡ tree.old) }
{
    tree.know_records();
    if tree.is_plain(page) {
        return Ok(Did::NotNeeded);
    }
    let Some(level) = tree.in_level(page) else {
        return Ok(Did::NotNeeded);
    };
    lose_chain(tree, page, level)?;
    Ok(Did::Done)
}

/// What a leaf's chain makes of it as of a stamp, for a worker that consolidates the leaf beside the posting of a batch: its
/// range, its right neighbour, and the pairs that its writes below the stamp leave. A staged batch may wait. It costs a walk
/// along the chain, the sorting of its writes, and a copy of the pairs. `Memory` is answered where a list or a copy finds none.
pub fn fold_beside(tree: &Tree, page: PageId, stamp: u64) -> Result<Leaf, Memory>
    requires { Contains (row tree.now.levels 0) page }
    ensures { IfOk result (λ leaf. leaf ≡ leaf_as_of tree.now page stamp) }
{
    tree.leaf_as_of(page, stamp)
}

/// Consolidates a page of a level that has a record. It costs what `consolidate` does. After `Memory` the tree is as before.
pub fn lose_chain(tree: &mut Tree, page: PageId, level: u32) -> Result<(), Memory>
    requires none { tree.old.staged ≡ None }
    requires page { IsInLevel tree.old page level }
    requires had { 2 ^ 32 ≤ slice_index tree.old.heads page }
    ensures ok { OnOk result (HasLostChain tree.old tree.new page) }
    ensures err { OnErr result (tree.new ≡ tree.old) }
{
    if level == 0 {
        return tree.consolidate(page);
    }
    tree.consolidate_inner(page)
}

/// Splits a page: its entries from place `keep` on go to a new page right of it, which no page above names yet. It isn't
/// needed where the page has a record, has no more than `keep` entries or stands on no level, where `keep` is 0, and where
/// the first entry that would move names a removed page. No batch is staged.
///
/// The entries that go are moved, those of a leaf as blocks, and the key at which they begin is copied. After `Memory` the tree
/// is as before.
pub fn split(tree: &mut Tree, page: PageId, keep: usize) -> Result<Did, Memory>
    requires { tree.old.staged ≡ None }
    ensures ok { IfOk result (IsSplitStep tree.old tree.new page keep) }
    ensures err { OnErr result (tree.new ≡ tree.old) }
{
    if !is_splittable(tree, page, keep) {
        return Ok(Did::NotNeeded);
    }
    tree.set_split(page, keep)?;
    Ok(Did::Done)
}

// Whether a page may be split there.
fn is_splittable(tree: &Tree, page: PageId, keep: usize) -> bool
    ensures yes { result ≡ true → IsSplittable tree.now page keep }
    ensures no { result ≡ false → IsSplittable tree.now page keep → ⊥ }
{
    let Some(_) = tree.in_level(page) else {
        return false;
    };
    may_part(tree, page, keep)
}

/// Whether a page of a level may be split there. It costs some looks at its mapping word and its base page.
pub fn may_part(tree: &Tree, page: PageId, keep: usize) -> bool
    requires { IsInLevels tree.now.levels page }
    ensures yes { result ≡ true → IsSplittable tree.now page keep }
    ensures no { result ≡ false → IsSplittable tree.now page keep → ⊥ }
{
    tree.know_records();
    if !tree.is_plain(page) {
        return false;
    }
    if keep == 0 {
        return false;
    }
    if keep >= tree.entries(page) {
        return false;
    }
    moves_no_removed(tree, page, keep)
}

// Whether the first entry that would move doesn't name a removed page.
fn moves_no_removed(tree: &Tree, page: PageId, keep: usize) -> bool
    requires { IsPlain tree.now page }
    ensures { Decides result (HasNoRemovedAt tree.now.slots page keep) }
{
    let Some(child) = tree.child_at(page, keep) else {
        return true;
    };
    tree.removed(child).is_none()
}

/// Finishes the split of a page: its right neighbour gets an index entry on the page of the level above in whose range it
/// begins. It isn't needed where the page has no right neighbour, where that one has its entry already, on the root's level,
/// and where the page stands on no level. No batch is staged.
///
/// It costs a search, a copy of one key and one record; where the page above has a record, that page is consolidated
/// first, which copies its children where the record is of a new one. After `Memory` the tree is as before, but that the page
/// above may be consolidated.
pub fn finish_split(tree: &mut Tree, page: PageId) -> Result<Did, Memory>
    requires { tree.old.staged ≡ None }
    ensures ok { IfOk result (IsFinishStep tree.old tree.new page) }
    ensures err { OnErr result (IsSameOver (IsNamerToBe tree.old page) tree.old tree.new) }
{
    match name_right(tree, page)? {
        Some(_) => Ok(Did::Done),
        None => Ok(Did::NotNeeded),
    }
}

// The same, with the page above that has the index entry now, if it got one.
fn name_right(tree: &mut Tree, page: PageId) -> Result<Option<PageId>, Memory>
    requires { tree.old.staged ≡ None }
    ensures ok { IfOk result (λ parent. MatchOption parent (IsFinishStep tree.old tree.new page Did.NotNeeded)
        (IsFinished tree.old tree.new page)) }
    ensures err { OnErr result (IsSameOver (IsNamerToBe tree.old page) tree.old tree.new) }
{
    tree.know_levels();
    tree.know_entries();
    let Some(_) = tree.in_level(page) else {
        return Ok(None);
    };
    let Some(unnamed) = tree.unnamed_right(page) else {
        return Ok(None);
    };
    let parent = unnamed.parent;
    let child = unnamed.page;
    let sep = unnamed.sep.copy()?;
    name_child(tree, parent, sep, child)?;
    Ok(Some(parent))
}

// Lets an inner page name a page of the level below, consolidated first where it has a record.
fn name_child(tree: &mut Tree, parent: PageId, sep: Key, child: PageId) -> Result<(), Memory>
    requires none { tree.old.staged ≡ None }
    requires fits { FitsChild tree.old.slots tree.old.levels parent sep child }
    ensures ok { OnOk result (IsNamed tree.old tree.new parent sep child) }
    ensures err { OnErr result (IsSameOver (λ p. p ≡ parent) tree.old tree.new) }
{
    rebase(tree, parent)?;
    tree.set_child(parent, sep, child)
}

/// Leaves an inner page as a base page by itself.
pub(crate) fn rebase(tree: &mut Tree, inner: PageId) -> Result<(), Memory>
    requires none { tree.old.staged ≡ None }
    requires page { IsInnerPage tree.old inner }
    ensures ok { OnOk result (IsRebased tree.old tree.new inner) }
    ensures err { OnErr result (tree.new ≡ tree.old) }
{
    if tree.is_plain(inner) {
        return Ok(());
    }
    tree.consolidate_inner(inner)
}

/// Puts a new root over a root that was split: the old root and its right neighbour are its children. It isn't needed where
/// the root has no right neighbour. No batch is staged.
///
/// It costs a walk along the root's chain. After `Memory` the tree is as before.
pub fn grow_root(tree: &mut Tree) -> Result<Did, Memory>
    requires { tree.old.staged ≡ None }
    ensures ok { IfOk result (IsRootStep tree.old tree.new) }
    ensures err { OnErr result (tree.new ≡ tree.old) }
{
    tree.know_levels();
    if tree.right_of(tree.root()).is_none() {
        return Ok(Did::NotNeeded);
    }
    tree.new_root()?;
    Ok(Did::Done)
}
