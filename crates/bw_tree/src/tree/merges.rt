// Pages that are absorbed by their left neighbours, their index entries, and roots that have one child.
ghost use Rattle.std.specs.Prelude.{◌≡◌, ℕ, None, OnOk, OnErr};
ghost use Rattle.bw_level.specs.Roots.{HasOneChild, removed_root};

use super::Tree;
use bw_key::{Key, Memory};
use bw_page::PageId;

impl Tree {
    ghost use Rattle.bw_tree.specs.TreeMerges.{HasLostChild, HasMerged, IsLowered, MayLoseChild, MayMerge};

    /// Merges a page into its left neighbour, which gets its entries and goes on to its end. The page is a removed one from
    /// then on: a search that comes to it, as the page above still names it, goes on at the left neighbour. Both are base
    /// pages by themselves, which one page of the level above names, and no batch is staged.
    ///
    /// It adds two records, one of them over the left neighbour, and copies the entries of both, those of leaves as blocks.
    /// `Memory` is answered where a list or the copy of a key finds none, and where there are 2^32 - 1 records; the tree is
    /// as before.
    pub fn set_merge(&mut self, page: PageId, left: PageId) -> Result<(), Memory>
        requires none { self.old.staged ≡ None }
        requires pages { MayMerge self.old left page }
        ensures ok { OnOk result (HasMerged self.old self.new left page) }
        ensures err { OnErr result (self.new ≡ self.old) }
    {
        let head = self.heads[left.0 as usize];
        let right = self.heads[page.0 as usize];
        let word = self.chains.merge(head, right, left)?;
        self.heads[left.0 as usize] = word;
        Ok(())
    }

    /// Drops an inner page's index entry at a separator, which isn't the first one and is a removed page's, as after a merge.
    /// The page is a base page by itself, and no batch is staged.
    ///
    /// It adds one record, over the page, and moves the children behind that one. `Memory` is answered where the list of records
    /// can't grow, and where there are 2^32 of them; the tree is as before.
    pub fn unset_child(&mut self, parent: PageId, sep: Key) -> Result<(), Memory>
        requires none { self.old.staged ≡ None }
        requires page { MayLoseChild self.old parent sep }
        ensures ok { OnOk result (HasLostChild self.old self.new parent sep) }
        ensures err { OnErr result (self.new ≡ self.old) }
    {
        let head = self.heads[parent.0 as usize];
        let word = self.chains.drop_child(head, sep)?;
        self.heads[parent.0 as usize] = word;
        Ok(())
    }

    /// Makes the root's only child the root: the tree has one level fewer. The old root is a removed page from then on, with
    /// that child as its left neighbour, so that the child isn't free to be given back before it. It stands on no level, and
    /// no page of a level names it. The root has no right neighbour, and no batch is staged.
    ///
    /// It costs a search, and some walks along the root's chain. `Memory` is answered where the list of removed pages can't
    /// grow; the tree is as before.
    pub fn lower_root(&mut self) -> Result<(), Memory>
        requires none { self.old.staged ≡ None }
        requires root { (child : ℕ) × HasOneChild self.old.slots self.old.root child }
        ensures ok { OnOk result ((child : ℕ) → HasOneChild self.old.slots self.old.root child
            → IsLowered self.old self.new child) }
        ensures err { OnErr result (self.new ≡ self.old) }
    {
        let root = self.root;
        let tree = self.look();
        let child = tree.only_child();
        let removed = tree.removed_root(child);
        let number = self
            .chains
            .remove_base(self.heads[root.0 as usize], removed)?;
        self.heads[root.0 as usize] = number;
        self.root = child;
        Ok(())
    }
}
