// Words that may take the places of mapping words beside the posting of a batch.
ghost use Rattle.std.specs.Prelude.{◌≡◌, ℕ, ◌<◌, None, length, map, slice_index_or, IfOk};
ghost use Rattle.std.specs.List.{AllByRecursion};
ghost use Rattle.bw_look.specs.Folding.{spare_of};

use super::Look;
use bw_key::Memory;
use bw_memory::Alloc;
use bw_page::PageId;

impl<'a> Look<'a> {
    /// For each page the word that may take the place of its mapping word while a batch is posted: the number of its base
    /// page, where it is a leaf with at least half as many writes as a chain may have, rounded up, and one at least. It costs
    /// a walk along the chain of each page. `Memory` is answered where the list finds none.
    pub fn spare(&self, chain_max: u64) -> Result<Vec<Option<u64>, Alloc>, Memory>
        ensures pages { IfOk result (λ spares. length spares.items ≡ length self.now.heads) }
        ensures spares { IfOk result (λ spares. (p : ℕ) → p < length self.now.heads →
            slice_index_or spares.items p None ≡ spare_of self.now chain_max p) }
    {
        self.know_records();
        let mut spares = Vec::with_capacity(*self.heads.allocator(), self.heads.len())?;
        for page in 0..self.heads.len() {
            spares.push(self.spare_of(PageId(page as u32), chain_max))?;
        }
        Ok(spares)
    }

    /// The same for these pages alone, in their order.
    pub fn spare_on(
        &self,
        pages: &[PageId],
        chain_max: u64,
    ) -> Result<Vec<Option<u64>, Alloc>, Memory>
        requires { AllByRecursion (λ p. p < length self.now.heads) pages.now }
        ensures { IfOk result (λ spares. spares.items ≡ map (spare_of self.now chain_max) pages.now) }
    {
        let mut spares = Vec::with_capacity(*self.heads.allocator(), pages.len())?;
        for page in pages {
            spares.push(self.spare_of(*page, chain_max))?;
        }
        Ok(spares)
    }

    // The word that may take the place of a page's mapping word, if one may.
    fn spare_of(&self, page: PageId, chain_max: u64) -> Option<u64>
        requires { page < length self.now.heads }
        ensures { result ≡ spare_of self.now chain_max page }
    {
        let ripe = (chain_max / 2 + chain_max % 2).max(1);
        if (self.count_writes(page) as u64) < ripe {
            return None;
        }
        Some(page.0 as u64)
    }
}
