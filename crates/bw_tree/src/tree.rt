// The tree.
ghost use Rattle.std.specs.Prelude.{◌≡◌, ◌-◌, ◌<◌, [], ◌∷◌, None, length, IfOk};
ghost use Rattle.std.specs.FinMap.{empty};
ghost use Rattle.bw_chain.specs.Removed.{HasNoRemoved};

use crate::freed::Freed;
use crate::making::{base_pages, separators, words};
use bw_chain::{Chains, FLOOR};
use bw_key::{Key, Memory};
use bw_look::Stage;
use bw_memory::Alloc;
use bw_page::{Inner, Leaf, Page, PageId};
use bw_segment::Segmented;
use std::marker::Model;

mod batch_life;
mod freeing;
mod merges;
mod naming;
mod new_children;
mod page_consolidation;
mod page_splits;
mod readers;
mod restart;
mod roots;
mod trimming;

/// Pages, named by identifiers, whose present states are chains of delta records over base pages.
///
/// The mapping table is a list of words, one for each identifier. A word below 2^32 names a base page, and one from
/// there on the newest record of the page's chain.
pub struct Tree {
    heads: Vec<u64, Alloc>,
    chains: Chains,
    root: PageId,
    // the stamp of the next operation
    next: u64,
    // the batch whose writes are the last records
    staged: Option<Stage>,
    // identifiers that were given back, the least one first: those that aren't free any more are passed over
    freed: Freed,
}

// Not derived: whoever drops one calls this, and its proof is spared the parts.
impl Drop for Tree {
    fn drop(self) {
        let Tree {
            heads: _heads,
            chains: _chains,
            root: _root,
            next: _next,
            staged: _staged,
            freed: _freed,
        } = self;
    }
}

impl Model for Tree {
    ghost use Rattle.bw_look.specs.View.{TreeView};
    ghost use Rattle.bw_look.specs.Trees.{IsTree, view_of};

    ghost Value = { TreeView };

    ghost view = { λ t. view_of t.heads.items t.chains.bases t.chains.records t.root t.next t.staged };

    ghost invariant = { λ t. IsTree t.heads.items t.chains.bases t.chains.records t.root t.next t.staged };
}

impl Tree {
    ghost use Rattle.bw_look.specs.Trees.{IsTree};
    ghost use Rattle.bw_look.specs.View.{contents_at};
    ghost use Rattle.bw_tree.specs.Making.{AreAbutting, IsOverLeaves, count_from, tree_over};

    /// The tree of one empty leaf, page 0, which is the root.
    pub fn new(alloc: Alloc) -> Result<Tree, Memory>
        ensures contents { IfOk result (λ tree. contents_at tree 0 ≡ empty) }
        ensures root { IfOk result (λ tree. tree.root ≡ 0) }
        ensures heads { IfOk result (λ tree. tree.heads ≡ 0 ∷ []) }
        ensures records { IfOk result (λ tree. tree.records ≡ 0) }
        ensures next { IfOk result (λ tree. tree.next ≡ 0) }
        ensures staged { IfOk result (λ tree. tree.staged ≡ None) }
    {
        let mut leaves = Vec::new(alloc);
        leaves.push(Leaf::empty(alloc))?;
        Tree::from_level(alloc, leaves)
    }

    /// The tree over these leaves, of which there is at least one: each ends where the next begins, and names it by its
    /// place as its right neighbour.
    ///
    /// The leaf at place i is page i. Where there are more than one, the root is the page behind them, which has all
    /// of them as its children. After `Memory` the leaves are gone.
    pub fn from_level(alloc: Alloc, leaves: Vec<Leaf, Alloc>) -> Result<Tree, Memory>
        requires { AreAbutting 0 [] leaves.items }
        ensures { IfOk result (λ tree. IsOverLeaves tree leaves.entry.items) }
    {
        if leaves.len() as u64 >= FLOOR {
            return Err(Memory);
        }
        let children = separators(alloc, &leaves)?;
        let mut bases = base_pages(alloc, leaves)?;
        if bases.len() > 1 {
            let low = Key::new(alloc, &[]).unwrap();
            let root = Inner::from_children(1, low, None, None, children);
            bases.push(Some(Page::Inner(root)))?;
            return Tree::over(alloc, bases);
        }
        Tree::over(alloc, bases)
    }

    // The tree whose pages are base pages, each named by its place. The last one is the root.
    fn over(alloc: Alloc, bases: Segmented<Option<Page>>) -> Result<Tree, Memory>
        requires tree { IsTree (count_from 0 (length bases.items)) bases.items [] (length bases.items - 1) 0 None }
        requires none { HasNoRemoved bases.items }
        ensures { IfOk result (λ tree. tree ≡ tree_over bases.items) }
    {
        let count = bases.len();
        Ok(Tree {
            heads: words(alloc, count as u64)?,
            chains: Chains::new(alloc, bases),
            root: PageId((count - 1) as u32),
            next: 0,
            staged: None,
            freed: Freed::new(alloc),
        })
    }

    /// The identifier of the root.
    pub fn root(&self) -> PageId
        ensures { result ≡ self.now.root }
    {
        self.root
    }

    /// The stamp of the next operation.
    pub fn next_stamp(&self) -> u64
        ensures { result ≡ self.now.next }
    {
        self.next
    }

    /// How many delta records there are.
    pub fn records(&self) -> usize
        ensures { result ≡ self.now.records }
    {
        self.chains.len()
    }

    /// The mapping words, by the identifiers of their pages.
    pub fn heads(&self) -> &[u64]
        ensures { result.now ≡ self.now.heads }
    {
        &self.heads
    }
}
