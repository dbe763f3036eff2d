// Base pages that take over their right neighbours, and that lose a child.
ghost use Rattle.std.specs.Prelude.{◌≡◌, ◌≢◌, ◌+◌, ◌<◌, ◌^◌, true, is_some, length, slice_get, IfOk, OnOk, OnErr};
ghost use Rattle.bw_level.specs.Before.{low_at, low_of};
ghost use Rattle.bw_level.specs.Changes.{based, plain};
ghost use Rattle.bw_chain.specs.Chains.{IsChain, floor_word, page_at};
ghost use Rattle.bw_chain.specs.Restructuring.{HasLost, IsJoined, absorption};
ghost use Rattle.bw_level.specs.Merges.{AreNeighbours, slot_joined, slot_removed};
ghost use Rattle.bw_level.specs.Slots.{IsSoundInner};
ghost use Rattle.bw_level.specs.Targets.{IsLinked};

use crate::chains::{Chains, FLOOR};
use crate::records::{append_both, make_room};
use bw_delta::Delta;
use bw_key::{Key, Memory};
use bw_level::{drop_child, join};
use bw_page::{Page, PageId, RemovedPage};

impl Chains {
    /// Joins a page and its right neighbour, neither of which has a record: the base page of the first gets the entries of
    /// both and goes on to the end of the second. What is left of that one says that it was removed, into the page `left`.
    /// Answers the word that names the record of it, which stands over the first page; another record tells of the removal.
    ///
    /// The entries of both are copied, those of leaves as blocks. `Memory` is answered where a list or the copy of a key
    /// finds none, and where there are 2^32 - 1 records; all is as before.
    pub fn merge(&mut self, word: u64, right: u64, left: PageId) -> Result<u64, Memory>
        requires ends { IsChain self.old word }
        requires right_ends { IsChain self.old right }
        requires plain { word < floor_word }
        requires right_plain { right < floor_word }
        requires neighbours { AreNeighbours (page_at self.old word) (page_at self.old right) }
        ensures ok { OnOk result (IsJoined self.old self.new word right left) }
        ensures word { IfOk result (λ word. word ≡ 2 ^ 32 + length self.old.records + 1) }
        ensures few { OnOk result (length self.old.records + 1 < 2 ^ 32) }
        ensures err { OnErr result (self.new ≡ self.old) }
    {
        let page = self.joined(word, right)?;
        let number = PageId(right as u32);
        let removed = self.removed(number, left)?;
        let absorption = self.absorption(number);
        self.removed.reserve(1)?;
        let removal = Delta::Removed { left };
        let record = append_both(&mut self.arena, removal, right, absorption, word)?;
        self.bases.set(word as usize, Some(page));
        self.bases.set(right as usize, Some(removed));
        self.removed.push(number).unwrap();
        Ok(record)
    }

    // Both pages as one.
    fn joined(&self, word: u64, right: u64) -> Result<Page, Memory>
        requires ends { IsChain self.now word }
        requires right_ends { IsChain self.now right }
        requires plain { word < floor_word }
        requires right_plain { right < floor_word }
        requires neighbours { AreNeighbours (page_at self.now word) (page_at self.now right) }
        ensures { IfOk result (λ page. plain page ≡ slot_joined (page_at self.now word) (page_at self.now right)) }
    {
        let Some(page) = self.base(word) else {
            unreachable!();
        };
        let Some(other) = self.base(right) else {
            unreachable!();
        };
        join(page, other)
    }

    // What is left of a page that is removed into this left neighbour.
    fn removed(&self, number: PageId, left: PageId) -> Result<Page, Memory>
        requires ends { IsChain self.now number }
        requires there { is_some (low_at (page_at self.now number)) ≡ true }
        ensures { IfOk result (λ page. plain page ≡ slot_removed left (page_at self.now number)) }
    {
        self.know_base(number);
        let Some(low) = self.low(number) else {
            unreachable!();
        };
        Ok(Page::Gone(RemovedPage {
            left,
            level: self.level(number),
            low: low.copy()?,
        }))
    }

    // That a number by itself names its base page. It does nothing.
    fn know_base(&self, number: PageId)
        requires { IsChain self.now number }
        ensures { page_at self.now number ≡ based (slice_get self.now.bases number) }
    {
        let _word = number.0 as u64;
    }

    // The record of the absorption of a page.
    fn absorption(&self, number: PageId) -> Delta
        requires ends { IsChain self.now number }
        requires linked { IsLinked (page_at self.now number) }
        ensures { result ≡ absorption number (page_at self.now number) }
    {
        let base = number.0 as u64;
        match self.neighbour(base) {
            Some((_, _, next)) => Delta::Absorb {
                base,
                side: Some(next),
            },
            None => Delta::Absorb { base, side: None },
        }
    }

    /// Takes the child at a separator, which isn't the first one, from an inner page without a record. Answers the word that
    /// names the record of it, which stands over the page.
    ///
    /// It moves the children behind that one, and copies none. `Memory` is answered where there is no room for the record, and
    /// where there are 2^32 of them; all is as before.
    pub fn drop_child(&mut self, word: u64, sep: Key) -> Result<u64, Memory>
        requires ends { IsChain self.old word }
        requires plain { word < floor_word }
        requires inner { IsSoundInner (page_at self.old word) }
        requires other { sep ≢ low_of (page_at self.old word) }
        ensures ok { OnOk result (HasLost self.old self.new word sep) }
        ensures word { IfOk result (λ word. word ≡ 2 ^ 32 + length self.old.records) }
        ensures few { OnOk result (length self.old.records < 2 ^ 32) }
        ensures err { OnErr result (self.new ≡ self.old) }
    {
        make_room(&mut self.arena)?;
        let Some(mut base) = self.bases.replace(word as usize, None) else {
            unreachable!();
        };
        drop_child(&mut base, &sep);
        self.bases.set(word as usize, Some(base));
        let record = FLOOR + self.arena.len() as u64;
        self.arena.append(Delta::DropChild { sep }, word);
        Ok(record)
    }
}
