// On which level a page is, where it begins, and what is left of a removed one: no record over a base page changes that.
ghost use Rattle.std.specs.Prelude.{◌≡◌, slice_get};
ghost use Rattle.std.specs.Option.{option_copied};
ghost use Rattle.bw_level.specs.Before.{low_at, removed_at};
ghost use Rattle.bw_level.specs.Changes.{based};
ghost use Rattle.bw_level.specs.Slots.{slot_level};

use crate::chains::Chains;
use bw_key::Key;
use bw_page::{Page, PageId, RemovedPage};

impl Chains {
    /// The level of the base page of a number: 0 for a leaf, for a page that was removed, and where there is none, and one more
    /// for each level above. It takes no memory.
    pub fn level(&self, number: PageId) -> u32
        ensures { result ≡ slot_level (based (slice_get self.now.bases number)) }
    {
        match self.base(number.0 as u64) {
            Some(Page::Inner(inner)) => inner.level(),
            _ => 0,
        }
    }

    /// Where the range of the base page of a number begins, or none for a page that was removed and where there is no page. It
    /// takes no memory.
    pub fn low(&self, number: PageId) -> Option<&Key>
        ensures { option_copied result ≡ low_at (based (slice_get self.now.bases number)) }
    {
        match self.base(number.0 as u64)? {
            Page::Leaf(leaf) => Some(leaf.low()),
            Page::Inner(inner) => Some(inner.low()),
            Page::Gone(_) => None,
        }
    }

    /// What is left of the page of a number, if its base page says that it was removed. It takes no memory.
    pub fn removed_page(&self, number: PageId) -> Option<&RemovedPage>
        ensures { option_copied result ≡ removed_at (based (slice_get self.now.bases number)) }
    {
        match self.base(number.0 as u64)? {
            Page::Gone(removed) => Some(removed),
            Page::Leaf(_) | Page::Inner(_) => None,
        }
    }
}
