// Identifiers that are given back one after another: that of a removed page, and then that of the page into which it was removed.
ghost use Rattle.std.specs.Prelude.{◌≡◌, ℕ, ◌<◌, ◌⊎◌, Some, None, IfOk, IfSome, OnErr, OnOk};
ghost use Rattle.bw_level.specs.Slots.{left_of};
ghost use Rattle.bw_tree.specs.TreeFreeing.{MayBeFreed};
ghost use Rattle.bw_steps.specs.Releasing.{AreFreed, HasNoneToFree, IsLeftOut, IsLeftToFree, taken_count};

use crate::releasing::release;
use crate::steps::Did;
use bw_key::Memory;
use bw_page::PageId;
use bw_tree::Tree;

/// Gives back each identifier of a page that stands on no level and to which nothing leads. After `Memory` some of them may
/// have been given back.
///
/// It costs a list of the removed pages whose identifiers aren't given back, and for each of them a search and a look at each
/// of them, so the square of a list that merges alone have made long. Any other page stands on a level, and costs nothing.
pub fn release_all(tree: &mut Tree) -> Result<(), Memory>
    requires { tree.old.staged ≡ None }
    ensures freed { AreFreed tree.old tree.new }
    ensures none { OnOk result (HasNoneToFree tree.new) }
{
    tree.know_records();
    let pages = tree.removed_pages()?;
    for place in 0..pages.len() {
        let mut next = pages[place];
        release_run(tree, &mut next)?;
    }
    Ok(())
}

/// Gives an identifier back as `release` does. Where that was one of a removed page, nothing may lead any more to the page into
/// which it was removed: then that one's is given back, too, and so on to the left. `next` is the page that it has come to: after
/// `Memory` those before it have been given back, and a run that begins at it goes on.
///
/// It costs what `release` does, once more than identifiers are given back.
pub fn release_run(tree: &mut Tree, next: &mut PageId) -> Result<(), Memory>
    requires { tree.old.staged ≡ None }
    ensures freed { AreFreed tree.old tree.new }
    ensures none { OnOk result (IsLeftOut tree.old tree.new next.old) }
    ensures left { OnErr result (IsLeftToFree tree.old tree.new next.old next.new) }
{
    while let Some(left) = release_next(tree, *next)? {
        *next = left;
    }
    Ok(())
}

// Gives an identifier back. Where that was one of a removed page, it answers the page into which it was removed.
fn release_next(tree: &mut Tree, page: PageId) -> Result<Option<PageId>, Memory>
    requires { tree.old.staged ≡ None }
    ensures freed { AreFreed tree.old tree.new }
    ensures next { IfOk result (λ next. (p : ℕ) → MayBeFreed tree.new p →
        (next ≡ Some p) ⊎ ((p ≡ page → ⊥) × MayBeFreed tree.old p)) }
    ensures fewer { IfOk result (λ next. IfSome next (λ left.
        taken_count tree.new.slots < taken_count tree.old.slots)) }
    ensures err { OnErr result (tree.new ≡ tree.old) }
{
    let left = removed_into(tree, page);
    match release(tree, page)? {
        Did::Done => Ok(left),
        Did::NotNeeded => Ok(None),
    }
}

// The page into which a page was removed, if it is a removed one.
fn removed_into(tree: &Tree, page: PageId) -> Option<PageId>
    ensures { result ≡ left_of tree.now.slots page }
{
    match tree.removed(page) {
        Some(removed) => Some(removed.left),
        None => None,
    }
}
