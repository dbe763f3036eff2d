// Base pages and records that are added.
ghost use Rattle.std.specs.Prelude.{◌≡◌, ◌+◌, ◌<◌, ◌≤◌, ◌^◌, ◌++◌, [], ◌∷◌, length, Some, IfOk, OnOk, OnErr};
ghost use Rattle.bw_chain.specs.Placing.{put_at};
ghost use Rattle.bw_chain.specs.Removed.{IsNotRemoved};

use crate::bases::put_base;
use crate::chains::Chains;
use crate::records::append_record;
use bw_delta::Delta;
use bw_key::Memory;
use bw_page::{Page, PageId};

impl Chains {
    /// Adds the base page of a new page, which isn't a removed one, and whose identifier is its number: one that is vacant, or
    /// the one behind all others. As a mapping word the number names the page without a record. `Memory` is answered where
    /// the list of base pages can't grow; all is as before.
    pub fn add_base(&mut self, number: PageId, page: Page) -> Result<(), Memory>
        requires place { number ≤ length self.old.bases }
        requires page { IsNotRemoved page }
        ensures records { self.new.records ≡ self.old.records }
        ensures ok { OnOk result (self.new.bases ≡ put_at self.old.bases number (Some page)) }
        ensures err { OnErr result (self.new.bases ≡ self.old.bases) }
    {
        self.bases.make_room()?;
        put_base(&mut self.bases, number.0 as usize, page);
        Ok(())
    }

    /// Adds a record with its link word behind the others, and answers the word that names it. `Memory` is answered where
    /// there is no room for it, and where there are 2^32 records; all is as before.
    pub fn add_record(&mut self, delta: Delta, link: u64) -> Result<u64, Memory>
        ensures bases { self.new.bases ≡ self.old.bases }
        ensures ok { OnOk result (self.new.records ≡ self.old.records ++ (delta, link) ∷ []) }
        ensures word { IfOk result (λ word. word ≡ 2 ^ 32 + length self.old.records) }
        ensures few { OnOk result (length self.old.records < 2 ^ 32) }
        ensures err { OnErr result (self.new.records ≡ self.old.records) }
    {
        append_record(&mut self.arena, delta, link)
    }
}
