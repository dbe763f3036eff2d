// Index entries: inner pages that name one more page.
ghost use Rattle.std.specs.Prelude.{◌≡◌, None, OnOk, OnErr};

use super::Tree;
use bw_delta::Delta;
use bw_key::{Key, Memory};
use bw_page::PageId;

impl Tree {
    ghost use Rattle.bw_tree.specs.TreeChildren.{IsNamed, MayHaveChild};

    /// Lets an inner page name a page of the level below, as after a split: it gets a delta record with the key at which the
    /// child begins, a key of its range above its low key (ICDE 2013). Searches for keys from there on then come to the
    /// child at once, and not by the side link of its left neighbour. A child that stands at that key already, which is this
    /// page itself or a removed one, is replaced. The page has no record yet, and no batch is staged.
    ///
    /// It adds one record and copies nothing. `Memory` is answered where the list of records can't grow, and where there are
    /// 2^32 of them; the tree is as before.
    pub fn set_child(&mut self, parent: PageId, sep: Key, child: PageId) -> Result<(), Memory>
        requires none { self.old.staged ≡ None }
        requires page { MayHaveChild self.old parent sep child }
        ensures ok { OnOk result (IsNamed self.old self.new parent sep child) }
        ensures err { OnErr result (self.new ≡ self.old) }
    {
        let head = self.heads[parent.0 as usize];
        let word = self
            .chains
            .add_record(Delta::AddChild { sep, child }, head)?;
        self.heads[parent.0 as usize] = word;
        Ok(())
    }
}
