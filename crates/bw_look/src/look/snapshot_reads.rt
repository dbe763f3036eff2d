// What is read of a tree: values, and what its leaves have.
ghost use Rattle.std.specs.Prelude.{◌≡◌, IfOk};
ghost use Rattle.std.specs.List.{Contains};
ghost use Rattle.std.specs.Option.{option_copied};
ghost use Rattle.std.specs.FinMap.{get};
ghost use Rattle.bw_level.specs.Slots.{slot_at};
ghost use Rattle.bw_chain.specs.LeafChains.{IsLeafChain};
ghost use Rattle.bw_level.specs.Levels.{row};
ghost use Rattle.bw_level.specs.Scans.{high_of};
ghost use Rattle.bw_look.specs.View.{ArePairsUnder, contents_at};

use super::Look;
use bw_chain::LeafChain;
use bw_delta::value_as_of;
use bw_key::{Key, Memory};
use bw_memory::Alloc;
use bw_model::Value;
use bw_page::PageId;

impl<'a> Look<'a> {
    /// The value at a key as of a stamp: what the writes below the stamp leave of the value on the key's base page.
    ///
    /// Of the chain of the key's leaf it sorts the writes to the key, and copies the one value that it answers.
    /// `Memory` is answered where the list or the copy finds none.
    pub fn value_at(&self, key: &Key, stamp: u64) -> Result<Option<Value>, Memory>
        ensures { IfOk result (λ value. value ≡ get (contents_at self.now stamp) key.now) }
    {
        let page = self.route(key);
        let head = self.heads[page.0 as usize];
        let alloc = *self.heads.allocator();
        let found = self.chains.writes_at(alloc, head, key)?;
        let start = self.chains.base_value_at(head, key);
        value_as_of(alloc, start, &found, stamp)
    }

    /// All that is read of a leaf: its writes, its base page, where its range ends, and its right neighbour. It costs one
    /// walk along the leaf's chain. Memory is taken for the list of the writes alone, and none where the leaf has none.
    /// `Memory` is answered where the list finds none.
    pub fn leaf(&self, alloc: Alloc, page: PageId) -> Result<LeafChain<'a>, Memory>
        requires { Contains (row self.now.levels 0) page }
        ensures leaf { IfOk result (IsLeafChain (slot_at self.now.slots page)) }
        ensures values { IfOk result (λ leaf. ArePairsUnder self.now page leaf.base.now.pairs) }
    {
        self.chains.leaf(alloc, self.heads[page.0 as usize])
    }

    /// Reads what a search of a leaf is about to read: up to 16 of the newest records of its chain, and up to 40 keys of its
    /// base page. Whoever does so for some leaves before it searches the first of them waits for their memory once, and not
    /// for one leaf after another. It takes no memory.
    ///
    /// What is answered is made of what was read, and says nothing. The compiler drops reads of which nothing is used, so
    /// callers use it as a guess that may be any number.
    pub fn prefetch(&self, page: PageId) -> usize {
        match self.heads.get(page.0 as usize) {
            Some(head) => self.chains.prefetch(page, *head),
            None => 0,
        }
    }

    /// Where a leaf's range ends: a walk along its chain.
    pub fn end(&self, page: PageId) -> Option<&'a Key>
        requires { Contains (row self.now.levels 0) page }
        ensures { option_copied result ≡ high_of (slot_at self.now.slots page) }
    {
        self.chains.end(self.heads[page.0 as usize]).0
    }
}
