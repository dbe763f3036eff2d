// Identifiers that are free, and those that may be given back.
ghost use Rattle.std.specs.Prelude.{◌≡◌, ℕ, Some, Decides, IfOk};
ghost use Rattle.bw_level.specs.Freeing.{IsUnreached};
ghost use Rattle.bw_level.specs.Slots.{Free, left_of, slot_at};

use super::Look;
use bw_key::Memory;
use bw_memory::Alloc;
use bw_page::PageId;

impl<'a> Look<'a> {
    ghost use Rattle.bw_look.specs.RemovedPages.{HasEachRemoved};

    /// Whether an identifier is free, as one that was never given out. It costs two looks at the base page, and takes no memory.
    pub fn is_free(&self, page: PageId) -> bool
        ensures { Decides result (slot_at self.now.slots page ≡ Free) }
    {
        if self.low_key(page).is_some() {
            return false;
        }
        self.removed(page).is_none()
    }

    /// Whether nothing leads to a page: it stands on no level, no page of a level has an index entry for it, and it is no
    /// removed page's left neighbour. For a page of no level it costs a look at each removed page whose identifier isn't given
    /// back, and for a removed one a search. It takes no memory.
    pub fn is_unreached(&self, page: PageId) -> bool
        ensures { Decides result (IsUnreached self.now.slots self.now.levels page) }
    {
        self.know_levels();
        self.know_entries();
        if self.in_level(page).is_some() {
            return false;
        }
        if self.namer_of_removed(page).is_some() {
            return false;
        }
        !self.is_left(page)
    }

    /// The removed pages whose identifiers aren't given back, and some whose identifiers were. It costs a list of them, for
    /// which `Memory` is answered where it finds none.
    pub fn removed_pages(&self) -> Result<Vec<PageId, Alloc>, Memory>
        ensures { IfOk result (λ pages. HasEachRemoved self.now.slots pages.items) }
    {
        let mut pages = Vec::new(*self.heads.allocator());
        pages.extend_from_slice(self.chains.removed_numbers())?;
        Ok(pages)
    }

    // Whether a page is a removed one's left neighbour.
    fn is_left(&self, page: PageId) -> bool
        ensures { Decides result ((removed : ℕ) × (left_of self.now.slots removed ≡ Some page)) }
    {
        self.chains.is_left(page)
    }
}
