// What is read of a leaf's chain.
ghost use Rattle.std.specs.Prelude.{◌≡◌, ◌++◌, ◌∷◌, [], true, IfOk, OnOk};
ghost use Rattle.std.specs.Option.{option_copied};
ghost use Rattle.bw_delta.specs.Batches.{writes_to};
ghost use Rattle.bw_delta.specs.History.{pointed_to};
ghost use Rattle.bw_level.specs.Slots.{is_leaf, side_of_slot};
ghost use Rattle.bw_level.specs.Reading.{EndsAbove, HasPairsUnder, base_of};
ghost use Rattle.bw_chain.specs.Chains.{writes_on, IsChain, page_at};
ghost use Rattle.bw_chain.specs.LeafChains.{IsLeafChain, LeadsToSame};
ghost use Rattle.bw_level.specs.Scans.{high_of};
ghost use Rattle.bw_level.specs.Before.{low_of};

use crate::chains::Chains;
use crate::leaf_chain::LeafChain;
use bw_delta::{Delta, Write};
use bw_key::{Key, Memory};
use bw_level::end_over;
use bw_memory::Alloc;
use bw_page::{Leaf, Page, PageId};

// How many writes a list of them has room for at first: twice the default limit of a chain's. A chain that a batch has just
// made due has about so many, and a list that doubles from few would move them five times.
const FIRST_WRITES: usize = 64;

impl Chains {
    /// The writes to a key in a leaf's chain, the newest first.
    pub fn writes_at(
        &self,
        alloc: Alloc,
        head: u64,
        key: &Key,
    ) -> Result<Vec<&Write, Alloc>, Memory>
        requires ends { IsChain self.now head }
        requires leaf { is_leaf (page_at self.now head) ≡ true }
        ensures { IfOk result (λ found. pointed_to found.items ≡ writes_to key.now (writes_on self.now head)) }
    {
        let mut found = Vec::new(alloc);
        let mut word = head;
        while let Some((delta, under)) = self.record(word) {
            match delta {
                Delta::Put(write) => {
                    if key.bytes() == write.key() {
                        found.push(write)?;
                    }
                }
                _ => return Ok(found),
            }
            word = under;
        }
        Ok(found)
    }

    /// The value at a key under the writes of a leaf's chain.
    pub fn base_value_at(&self, head: u64, key: &Key) -> Option<&[u8]>
        requires ends { IsChain self.now head }
        requires above { EndsAbove (page_at self.now head) key.now }
        ensures { option_copied result ≡ base_of (page_at self.now head) key.now }
    {
        match self.under_writes(head).1? {
            Page::Leaf(leaf) => leaf.find(key),
            _ => None,
        }
    }

    /// All that is read of a leaf, by one walk along its chain. Memory is taken for the list of the writes alone, and none
    /// where there are none: at first for 64 of them, and then by doubling. `Memory` is answered where the list finds none.
    pub fn leaf(&self, alloc: Alloc, head: u64) -> Result<LeafChain<'_>, Memory>
        requires ends { IsChain self.now head }
        requires leaf { is_leaf (page_at self.now head) ≡ true }
        ensures { IfOk result (IsLeafChain (page_at self.now head)) }
    {
        let (writes, word) = self.walk(alloc, head)?;
        let (end, side) = self.end(word);
        Ok(LeafChain {
            writes,
            base: self.base_leaf(word),
            end,
            side,
        })
    }

    // The writes of a leaf's chain, the newest first, and the word of what lies under them.
    fn walk(&self, alloc: Alloc, head: u64) -> Result<(Vec<&Write, Alloc>, u64), Memory>
        requires ends { IsChain self.now head }
        requires leaf { is_leaf (page_at self.now head) ≡ true }
        ensures writes { IfOk result (λ walked. pointed_to walked.0.items ≡ writes_on self.now head) }
        ensures under { IfOk result (λ walked. LeadsToSame self.now head walked.1) }
    {
        let mut found = Vec::new(alloc);
        let mut word = head;
        while let Some((delta, under)) = self.record(word) {
            match delta {
                Delta::Put(write) => add_write(&mut found, write)?,
                _ => return Ok((found, word)),
            }
            word = under;
        }
        Ok((found, word))
    }

    /// Where a leaf's range ends, and its right neighbour.
    pub fn end(&self, head: u64) -> (Option<&Key>, Option<PageId>)
        requires ends { IsChain self.now head }
        requires leaf { is_leaf (page_at self.now head) ≡ true }
        ensures high { option_copied result.0 ≡ high_of (page_at self.now head) }
        ensures side { result.1 ≡ side_of_slot (page_at self.now head) }
    {
        let (delta, base) = self.under_writes(head);
        let Some(base) = base else {
            unreachable!();
        };
        match base {
            Page::Leaf(leaf) => end_over(delta, leaf),
            Page::Inner(_) | Page::Gone(_) => unreachable!(),
        }
    }

    /// The base page under a leaf's chain.
    pub fn base_leaf(&self, head: u64) -> &Leaf
        requires ends { IsChain self.now head }
        requires leaf { is_leaf (page_at self.now head) ≡ true }
        ensures values { HasPairsUnder (page_at self.now head) result.now.pairs }
        ensures low { result.now.low ≡ low_of (page_at self.now head) }
    {
        let Some(base) = self.under_writes(head).1 else {
            unreachable!();
        };
        match base {
            Page::Leaf(leaf) => leaf,
            _ => unreachable!(),
        }
    }
}

// Adds a write to a list, which makes room for many at its first one. `Memory` is answered where it finds none.
fn add_write<'a>(found: &mut Vec<&'a Write, Alloc>, write: &'a Write) -> Result<(), Memory>
    ensures { OnOk result (found.new.items ≡ found.old.items ++ write.entry ∷ []) }
{
    if found.is_empty() {
        found.reserve(FIRST_WRITES)?;
    }
    found.push(write)?;
    Ok(())
}
