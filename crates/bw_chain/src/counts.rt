// How much a page has: writes over its base page, and entries under them.
ghost use Rattle.std.specs.Prelude.{◌≡◌, ℕ, ◌<◌, ◌≤◌, ◌^◌, Some, length, true};
ghost use Rattle.bw_chain.specs.Chains.{IsChain, floor_word, link_of, page_at, writes_on};
ghost use Rattle.bw_level.specs.Slots.{is_leaf};
ghost use Rattle.bw_level.specs.Splits.{slot_entries};

use crate::chains::{Chains, FLOOR};
use bw_delta::Delta;
use bw_level::{count_over, count_plain};
use bw_page::Page;

impl Chains {
    /// How many writes a page has over its base page; an inner page has none. It costs a walk along the links of its chain,
    /// and takes no memory. There are at most 2^32 records.
    pub fn count_writes(&self, head: u64) -> usize
        requires ends { IsChain self.now head }
        requires few { length self.now.records ≤ 2 ^ 32 }
        ensures { result ≡ length (writes_on self.now head) }
    {
        match self.under_writes(head).1 {
            Some(Page::Leaf(_)) => self.count_puts(head),
            _ => 0,
        }
    }

    // The same of a leaf. Of its records the lowest alone is looked at.
    fn count_puts(&self, head: u64) -> usize
        requires ends { IsChain self.now head }
        requires leaf { is_leaf (page_at self.now head) ≡ true }
        requires few { length self.now.records ≤ 2 ^ 32 }
        ensures { result ≡ length (writes_on self.now head) }
    {
        let mut count = 0;
        let mut word = head;
        while let Some(under) = self.link(word) {
            if under < FLOOR {
                return count + self.count_lowest(word);
            }
            count += 1;
            word = under;
        }
        count
    }

    // How many writes a leaf's chain of one record has: one or none.
    fn count_lowest(&self, word: u64) -> usize
        requires ends { IsChain self.now word }
        requires leaf { is_leaf (page_at self.now word) ≡ true }
        requires last { (under : ℕ) → link_of self.now.records word ≡ Some under → under < floor_word }
        ensures count { result ≡ length (writes_on self.now word) }
        ensures few { result ≤ 1 }
    {
        let Some((delta, _)) = self.record(word) else {
            return 0;
        };
        match delta {
            Delta::Put(_) => 1,
            _ => 0,
        }
    }

    /// How many entries a page has under its writes: pairs, or children. A page that was removed has none. It costs a walk
    /// along the chain's links and, where a change lies over the base page, a binary search. It takes no memory.
    pub fn count_entries(&self, head: u64) -> usize
        requires { IsChain self.now head }
        ensures { result ≡ slot_entries (page_at self.now head) }
    {
        match self.under_writes(head) {
            (Some(delta), Some(base)) => count_over(delta, base),
            (None, Some(base)) => count_plain(base),
            (_, None) => 0,
        }
    }
}
