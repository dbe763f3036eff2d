// Identifiers of pages that are given back.
ghost use Rattle.std.specs.Prelude.{◌≡◌, None, OnOk, OnErr};

use super::Tree;
use bw_key::Memory;
use bw_page::PageId;

impl Tree {
    ghost use Rattle.bw_tree.specs.TreeFreeing.{HasFreed, MayBeFreed};

    /// Gives back the identifier of a page that stands on no level and to which nothing leads: no page of a level has an index
    /// entry for it, and it is no removed page's left neighbour. Then no delta of a chain names it, either
    /// (`bw_look::no_delta_names_unreached`). The page's base page is let go, and a new page may take the identifier, which is
    /// noted for that. No batch is staged.
    ///
    /// It costs a place among the identifiers that were given back. `Memory` is answered where their list can't grow; the tree
    /// is as before.
    pub fn free(&mut self, page: PageId) -> Result<(), Memory>
        requires none { self.old.staged ≡ None }
        requires page { MayBeFreed self.old page }
        ensures ok { OnOk result (HasFreed self.old self.new page) }
        ensures err { OnErr result (self.new ≡ self.old) }
    {
        self.freed.reserve()?;
        self.chains.free_base(page);
        self.freed.add(page);
        Ok(())
    }
}
