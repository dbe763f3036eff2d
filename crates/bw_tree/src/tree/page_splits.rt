// Pages that part in two.
ghost use Rattle.std.specs.Prelude.{◌≡◌, None, IfOk, OnErr};

use super::Tree;
use crate::mapping_words::put_own;
use bw_key::Memory;
use bw_page::PageId;

impl Tree {
    ghost use Rattle.bw_tree.specs.TreeSplits.{IsSplit, IsSplittable};

    /// Splits a leaf or an inner page: its entries from place `keep` on go to a new page right of it, whose identifier is
    /// answered. The page gets a delta record with the key at which it ends now and its new neighbour (ICDE 2013). No batch
    /// is staged.
    ///
    /// No page above names the new one yet: searches and scans come to it by the side link, as in a B-link tree. It doesn't
    /// begin with a removed page's entry, so that such an entry can always be dropped. The entries that go are moved, those
    /// of a leaf as blocks, and the base page keeps the others and its bounds. `Memory` is answered where the copy of a key
    /// that is a bound or a list finds none, and where no identifier is free; the tree is as before.
    pub fn set_split(&mut self, page: PageId, keep: usize) -> Result<PageId, Memory>
        requires none { self.old.staged ≡ None }
        requires page { IsSplittable self.old page keep }
        ensures ok { IfOk result (IsSplit self.old self.new page keep) }
        ensures err { OnErr result (self.new ≡ self.old) }
    {
        let head = self.heads[page.0 as usize];
        let to = self.freed.unused(&self.chains)?;
        self.heads.reserve(1)?;
        let word = self.chains.split(head, keep, to)?;
        self.freed.taken(to);
        self.heads[page.0 as usize] = word;
        put_own(&mut self.heads, to);
        Ok(to)
    }
}
