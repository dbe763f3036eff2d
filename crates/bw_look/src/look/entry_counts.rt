// How much a page has.
ghost use Rattle.std.specs.Prelude.{◌≡◌, ◌<◌, length};
ghost use Rattle.bw_level.specs.Reading.{writes_over};
ghost use Rattle.bw_level.specs.Slots.{slot_at};
ghost use Rattle.bw_level.specs.Splits.{slot_child, slot_entries};
ghost use Rattle.bw_look.specs.PageStates.{IsPlain};

use super::Look;
use bw_page::PageId;

impl<'a> Look<'a> {
    /// How many entries a page has under its writes: the pairs of a leaf, or the children of an inner page. It costs a walk
    /// along the page's chain and, where the page was split or given a child, a binary search. It takes no memory.
    pub fn entries(&self, page: PageId) -> usize
        requires { page < length self.now.heads }
        ensures { result ≡ slot_entries (slot_at self.now.slots page) }
    {
        self.chains.count_entries(self.heads[page.0 as usize])
    }

    /// The child at a place among those of an inner page that is a base page by itself, or none for a leaf and behind the last
    /// one. It takes no memory.
    pub fn child_at(&self, page: PageId, place: usize) -> Option<PageId>
        requires { IsPlain self.now page }
        ensures { result ≡ slot_child place (slot_at self.now.slots page) }
    {
        self.chains.child_at(self.heads[page.0 as usize], place)
    }

    /// How many writes a page has over its base page; an inner page has none. It costs a walk along the page's chain, and
    /// takes no memory.
    pub fn count_writes(&self, page: PageId) -> usize
        requires { page < length self.now.heads }
        ensures { result ≡ length (writes_over (slot_at self.now.slots page)) }
    {
        self.chains.count_writes(self.heads[page.0 as usize])
    }
}
