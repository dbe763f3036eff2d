// Splits and merges of a whole tree that are unfinished.
ghost use Rattle.std.specs.Prelude.{◌≡◌, ℕ, List, None};
ghost use Rattle.bw_shape.specs.Tidying.{HoldsAll, KeepsWithin};

use crate::page_lists::{inner_pages, leaf_pages};
use bw_key::Memory;
use bw_page::PageId;
use bw_steps::{finish_absorb, finish_split, grow_root, release_run};
use bw_tree::Tree;

/// Finishes each merge, gives a root that was split a root above it, and finishes each split, level by level from the leaves
/// up. It costs a list of all pages, a search for each and two for each removed page, and for each split that it finishes a copy
/// of the children of the page above. After `Memory` some of them are finished.
pub(crate) fn finish_steps(tree: &mut Tree) -> Result<(), Memory>
    requires { tree.old.staged ≡ None }
    ensures holds { HoldsAll tree.old tree.new }
    ensures within { (pages : List ℕ) → KeepsWithin tree.old tree.new pages pages }
{
    finish_merges(tree)?;
    let leaves = leaf_pages(tree)?;
    let inner = inner_pages(*leaves.allocator(), tree)?;
    tree.know_levels();
    grow_root(tree)?;
    finish_each(tree, &leaves)?;
    finish_each(tree, &inner)
}

// Finishes each merge, of which a removed page is left: it isn't in the list of any level.
fn finish_merges(tree: &mut Tree) -> Result<(), Memory>
    requires { tree.old.staged ≡ None }
    ensures holds { HoldsAll tree.old tree.new }
    ensures within { (pages : List ℕ) → KeepsWithin tree.old tree.new pages pages }
{
    let pages = tree.removed_pages()?;
    for place in 0..pages.len() {
        finish_merge(tree, pages[place])?;
    }
    Ok(())
}

// Finishes the merge of a page that was removed, and gives its identifier back where nothing leads to the page, and then that of
// a removed page to which it alone still led.
fn finish_merge(tree: &mut Tree, page: PageId) -> Result<(), Memory>
    requires { tree.old.staged ≡ None }
    ensures holds { HoldsAll tree.old tree.new }
    ensures within { (pages : List ℕ) → KeepsWithin tree.old tree.new pages pages }
{
    let mut next = page;
    finish_absorb(tree, page)?;
    release_run(tree, &mut next)
}

// Finishes the splits of these pages.
fn finish_each(tree: &mut Tree, pages: &[PageId]) -> Result<(), Memory>
    requires { tree.old.staged ≡ None }
    ensures holds { HoldsAll tree.old tree.new }
    ensures within { (pages : List ℕ) → KeepsWithin tree.old tree.new pages pages }
{
    for page in pages {
        finish_split(tree, *page)?;
    }
    Ok(())
}
