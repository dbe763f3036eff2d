// Base pages that part in two, and that take the places of chains over them.
ghost use Rattle.std.specs.Prelude.{◌≡◌, ◌+◌, ◌<◌, ◌≤◌, ◌^◌, is_some, length, Some, IfOk, IfSome, OnOk, OnErr, MatchOption};
ghost use Rattle.bw_chain.specs.Chains.{IsChain, floor_word, page_at, record_at};
ghost use Rattle.bw_level.specs.Slots.{IsSound};
ghost use Rattle.bw_level.specs.Splits.{slot_entries};
ghost use Rattle.bw_chain.specs.Restructuring.{IsCut, IsRebasedAt, is_in_base, is_split, is_told};

use crate::bases::put_base;
use crate::chains::{Chains, FLOOR};
use crate::records::make_room;
use bw_delta::Delta;
use bw_key::Memory;
use bw_level::{cut, narrow};
use bw_page::PageId;

impl Chains {
    /// Parts a page without a record: its base page keeps the entries before place `keep` and its bounds, and a record says
    /// where the page ends now, with the right neighbour `to`. The base page of that number, which was vacant or is the one
    /// behind all others, has the other entries. Answers the word that names the record.
    ///
    /// The entries that go are moved, those of a leaf as blocks. `Memory` is answered where their list finds none, the copy
    /// of a key that is a bound, or a place in the lists of records and of base pages, and where there are 2^32 records; all
    /// is as before.
    pub fn split(&mut self, word: u64, keep: usize, to: PageId) -> Result<u64, Memory>
        requires ends { IsChain self.old word }
        requires place { to ≤ length self.old.bases }
        requires plain { word < floor_word }
        requires some { 0 < keep }
        requires fewer { keep < slot_entries (page_at self.old word) }
        ensures cut { OnOk result (IsCut self.old self.new word keep to) }
        ensures word { IfOk result (λ word. word ≡ 2 ^ 32 + length self.old.records) }
        ensures few { OnOk result (length self.old.records < 2 ^ 32) }
        ensures err { OnErr result (self.new ≡ self.old) }
    {
        self.bases.make_room()?;
        make_room(&mut self.arena)?;
        let Some(mut base) = self.bases.replace(word as usize, None) else {
            unreachable!();
        };
        let cut = cut(&mut base, keep);
        self.bases.set(word as usize, Some(base));
        let (sep, right) = cut?;
        let record = FLOOR + self.arena.len() as u64;
        self.arena.append(Delta::Split { sep, to }, word);
        put_base(&mut self.bases, to.0 as usize, right);
        Ok(record)
    }

    /// Where a chain is one change over its base page, neither a write nor a new child, has that page take the place of the
    /// chain, and answers its number, which as a mapping word names it. Under a split the base page is ended where that says;
    /// an absorption and a dropped child tell of what it has already.
    ///
    /// It copies one key where the change is a split, and no entry. `Memory` is answered where that copy finds none; all is as
    /// before.
    pub fn consolidate_in_place(&mut self, head: u64) -> Result<Option<u64>, Memory>
        requires ends { IsChain self.old head }
        requires sound { IsSound (page_at self.old head) }
        ensures some { IfOk result (λ number. is_some number ≡ is_in_base (record_at self.old.records head)) }
        ensures ok { IfOk result
            (λ number. MatchOption number (self.new ≡ self.old) (IsRebasedAt self.old self.new head)) }
        ensures err { OnErr result (self.new ≡ self.old) }
    {
        if let Some(number) = self.changed_base(head) {
            return Ok(Some(number));
        }
        self.narrow(head)
    }

    // The number of the base page under a chain that is an absorption or a dropped child over it.
    fn changed_base(&self, head: u64) -> Option<u64>
        requires ends { IsChain self.now head }
        requires sound { IsSound (page_at self.now head) }
        ensures some { is_some result ≡ is_told (record_at self.now.records head) }
        ensures same { IfSome result (IsRebasedAt self.now self.now head) }
    {
        let (delta, number) = self.record(head)?;
        match delta {
            Delta::Absorb { .. } | Delta::DropChild { .. } => Some(number),
            _ => None,
        }
    }

    // Where a chain is a split over its base page, ends that page where the split says, and answers its number.
    fn narrow(&mut self, head: u64) -> Result<Option<u64>, Memory>
        requires ends { IsChain self.old head }
        requires sound { IsSound (page_at self.old head) }
        ensures some { IfOk result (λ number. is_some number ≡ is_split (record_at self.old.records head)) }
        ensures ok { IfOk result
            (λ number. MatchOption number (self.new ≡ self.old) (IsRebasedAt self.old self.new head)) }
        ensures err { OnErr result (self.new ≡ self.old) }
    {
        let Some((Delta::Split { sep, to }, number)) = self.record(head) else {
            return Ok(None);
        };
        let (high, side) = (sep.copy()?, *to);
        let Some(mut base) = self.bases.replace(number as usize, None) else {
            unreachable!();
        };
        narrow(&mut base, high, side);
        self.bases.set(number as usize, Some(base));
        Ok(Some(number))
    }
}
