// Consolidation of one page in its place.
ghost use Rattle.std.specs.Prelude.{◌≡◌, ◌<◌, None, length, IfOk, OnOk, OnErr};
ghost use Rattle.std.specs.Bool.{MatchBool};
ghost use Rattle.std.specs.List.{Contains};

use super::Tree;
use bw_key::Memory;
use bw_page::{Inner, Leaf, Page, PageId};

impl Tree {
    ghost use Rattle.bw_chain.specs.Removed.{IsNotRemoved};
    ghost use Rattle.bw_level.specs.Levels.{row};
    ghost use Rattle.bw_level.specs.Changes.{plain};
    ghost use Rattle.bw_level.specs.Searches.{IsInLevels};
    ghost use Rattle.bw_level.specs.Slots.{slot_at};
    ghost use Rattle.bw_tree.specs.Consolidation.{IsConsolidated, IsRebased};
    ghost use Rattle.bw_look.specs.PageStates.{leaf_as_of};
    ghost use Rattle.bw_look.specs.Routing.{IsInnerPage};

    /// Consolidates a leaf: what its writes make of its base page, as of the next stamp, takes the place of that page (ICDE
    /// 2013). No batch is staged.
    ///
    /// The records of its chain stay among the others, and no word leads to them any more. It sorts the writes of this one
    /// leaf and copies its pairs. Where a split alone lies over the base page, it copies the key at which the leaf ends and no
    /// pair, and where an absorption alone does nothing. After `Memory` the tree is as before.
    pub fn consolidate(&mut self, page: PageId) -> Result<(), Memory>
        requires none { self.old.staged ≡ None }
        requires leaf { Contains (row self.old.levels 0) page }
        ensures ok { OnOk result (IsConsolidated self.old self.new page) }
        ensures err { OnErr result (self.new ≡ self.old) }
    {
        self.know_levels();
        if self.consolidate_in_place(page)? {
            self.know_records();
            return Ok(());
        }
        self.merge_writes(page)
    }

    // The same by a merge of the leaf's pairs with its writes.
    fn merge_writes(&mut self, page: PageId) -> Result<(), Memory>
        requires none { self.old.staged ≡ None }
        requires leaf { Contains (row self.old.levels 0) page }
        ensures ok { OnOk result (IsConsolidated self.old self.new page) }
        ensures err { OnErr result (self.new ≡ self.old) }
    {
        let leaf = self.look().leaf_as_of(page, self.next)?;
        self.put_leaf(page, leaf);
        Ok(())
    }

    // Where a page's chain is one change over its base page, neither a write nor a new child, has that page take the place of
    // the chain. Whether it did: else the tree is as before.
    fn consolidate_in_place(&mut self, page: PageId) -> Result<bool, Memory>
        requires none { self.old.staged ≡ None }
        requires in_levels { IsInLevels self.old.levels page }
        ensures ok { IfOk result
            (λ done. MatchBool done (IsRebased self.old self.new page) (self.new ≡ self.old)) }
        ensures err { OnErr result (self.new ≡ self.old) }
    {
        let head = self.heads[page.0 as usize];
        let Some(word) = self.chains.consolidate_in_place(head)? else {
            return Ok(false);
        };
        self.heads[page.0 as usize] = word;
        Ok(true)
    }

    /// Puts a leaf that was consolidated as of the next stamp in the place of its chain. No batch is staged. It takes no memory.
    pub fn put_leaf(&mut self, page: PageId, leaf: Leaf)
        requires none { self.old.staged ≡ None }
        requires leaf { Contains (row self.old.levels 0) page }
        requires consolidated { leaf ≡ leaf_as_of self.old page self.old.next }
        ensures { IsConsolidated self.old self.new page }
    {
        self.chains.replace_base(page, Page::Leaf(leaf));
        self.heads[page.0 as usize] = page.0 as u64;
    }

    /// Consolidates an inner page: what its chain makes of its base page takes the place of that page, so that the page
    /// has no record any more. No batch is staged.
    ///
    /// It costs a look at the page's record, and a copy of the page's children where that is of a new child or there is none;
    /// where it is a split, a copy of the key at which the page ends, and of no child. After `Memory` the tree is as before.
    pub fn consolidate_inner(&mut self, page: PageId) -> Result<(), Memory>
        requires none { self.old.staged ≡ None }
        requires inner { IsInnerPage self.old page }
        ensures ok { OnOk result (IsRebased self.old self.new page) }
        ensures err { OnErr result (self.new ≡ self.old) }
    {
        self.know_records();
        if self.consolidate_in_place(page)? {
            return Ok(());
        }
        let inner = self.look().inner_page(page)?;
        self.rebase(page, Page::Inner(inner));
        Ok(())
    }

    // Puts a page that is what a chain makes in the place of the chain.
    fn rebase(&mut self, page: PageId, state: Page)
        requires none { self.old.staged ≡ None }
        requires there { page < length self.old.heads }
        requires same { slot_at self.old.slots page ≡ plain state }
        requires stays { IsNotRemoved state }
        ensures { IsRebased self.old self.new page }
    {
        self.chains.replace_base(page, state);
        self.heads[page.0 as usize] = page.0 as u64;
    }
}
