// What is told of one page: whether it is a base page by itself, its left neighbour, which page names it, and its state.
ghost use Rattle.std.specs.Prelude.{◌≡◌, Decides, IfOk, MatchOption};
ghost use Rattle.std.specs.List.{Contains};
ghost use Rattle.std.specs.Option.{option_copied};
ghost use Rattle.bw_level.specs.Before.{low_at, low_of};
ghost use Rattle.bw_level.specs.Levels.{row};
ghost use Rattle.bw_level.specs.Searches.{IsInLevels, plain_inner};
ghost use Rattle.bw_level.specs.Slots.{slot_at};
ghost use Rattle.bw_look.specs.Routing.{IsInNoLevel, IsInnerPage};

use super::Look;
use bw_chain::FLOOR;
use bw_key::{Key, Memory};
use bw_level::Target;
use bw_page::{Inner, Leaf, Page, PageId};

impl<'a> Look<'a> {
    ghost use Rattle.bw_look.specs.PageStates.{HasNoLeft, HasNoNamer, IsAbove, IsLeft, IsNamer, IsPlain, IsState, leaf_as_of};

    /// Whether a page is a base page by itself, with no record over it. An identifier that was never given out names none. It
    /// is a look at the page's mapping word.
    pub fn is_plain(&self, page: PageId) -> bool
        ensures { Decides result (IsPlain self.now page) }
    {
        match self.heads.get(page.0 as usize) {
            Some(head) => *head < FLOOR,
            None => false,
        }
    }

    /// The key at which a page begins, or none for a free identifier, a removed page, and one that was never given out. It is
    /// a look at the page's base page, and takes no memory.
    pub fn low_key(&self, page: PageId) -> Option<&'a Key>
        ensures { option_copied result ≡ low_at (slot_at self.now.slots page) }
    {
        self.chains.low(page)
    }

    /// The left neighbour of a page, whose side link leads to it, or none for the first page of a level and for a page of no
    /// level. It costs a search for what lies before the key at which the page begins, and takes no memory.
    pub fn left_of(&self, page: PageId) -> Option<PageId>
        ensures { MatchOption result (HasNoLeft self.now page) (IsLeft self.now page) }
    {
        self.know_levels();
        let Some(level) = self.in_level(page) else {
            return None;
        };
        let low = self.low(page);
        if low.bytes().is_empty() {
            return None;
        }
        self.on_level(level, Target::Before(Some(low)))
    }

    /// The page of the level above that names a page: that has an index entry for it, at the key where it begins. It is none
    /// for a page that isn't named yet, as the right part of a split that isn't finished, on the root's level, and for a page
    /// of no level. It costs a search for that key, and one more among the separators of the page above. It takes no memory.
    pub fn namer(&self, page: PageId) -> Option<PageId>
        ensures { MatchOption result (HasNoNamer self.now page) (IsNamer self.now page) }
    {
        self.know_levels();
        let Some(level) = self.in_level(page) else {
            return None;
        };
        if level >= self.root_level() {
            return None;
        }
        let Some(parent) = self.above(level + 1, self.low(page)) else {
            return None;
        };
        if self.names(parent, page) {
            return Some(parent);
        }
        None
    }

    // Whether the page in whose range another one of the level below begins names that one.
    fn names(&self, parent: PageId, page: PageId) -> bool
        requires { IsAbove self.now page parent }
        ensures { Decides result (IsNamer self.now page parent) }
    {
        self.know_levels();
        self.has_child(parent, self.low(page), page)
    }

    /// The state of a page as of a stamp: a leaf with the writes below the stamp applied, or an inner page as its chain makes
    /// it, each with its range and side link. It is none for a page of no level: a free identifier, or a removed page. The
    /// writes of an adopted batch stand over their leaves, and those of a staged one don't yet.
    ///
    /// It costs a walk along the page's chain and a copy of its entries, and for a leaf the sorting of its writes. `Memory` is
    /// answered where a list or a copy finds none.
    pub fn state(&self, page: PageId, stamp: u64) -> Result<Option<Page>, Memory>
        ensures { IfOk result (λ state.
            MatchOption state (IsInNoLevel self.now page) (IsState self.now page stamp)) }
    {
        self.know_levels();
        let Some(level) = self.in_level(page) else {
            return Ok(None);
        };
        if level == 0 {
            return Ok(Some(Page::Leaf(self.leaf_as_of(page, stamp)?)));
        }
        Ok(Some(Page::Inner(self.inner_page(page)?)))
    }

    /// A leaf as of a stamp: one walk along its chain, the sorting of its writes, and a copy of its pairs. `Memory` is answered
    /// where a list or a copy finds none.
    pub fn leaf_as_of(&self, page: PageId, stamp: u64) -> Result<Leaf, Memory>
        requires { Contains (row self.now.levels 0) page }
        ensures { IfOk result (λ leaf. leaf ≡ leaf_as_of self.now page stamp) }
    {
        self.know_levels();
        let alloc = *self.heads.allocator();
        let leaf = self.leaf(alloc, page)?;
        let low = leaf.base.low();
        let pairs = leaf.pairs_as_of(alloc, low, leaf.end, stamp)?;
        Ok(Leaf::from_pairs(low.copy()?, copy_end(leaf.end)?, leaf.side, pairs))
    }

    /// The inner page that an inner page's chain makes, as a page that has no record. It costs a walk along the chain and a
    /// copy of the page's children. `Memory` is answered where the copy finds none.
    pub fn inner_page(&self, page: PageId) -> Result<Inner, Memory>
        requires { IsInnerPage self.now page }
        ensures { IfOk result (λ inner. slot_at self.now.slots page ≡ plain_inner inner) }
    {
        self.chains.inner_page(self.heads[page.0 as usize])
    }

    // The key at which a page of a level begins.
    fn low(&self, page: PageId) -> &'a Key
        requires { IsInLevels self.now.levels page }
        ensures { result.now ≡ low_of (slot_at self.now.slots page) }
    {
        self.know_levels();
        match self.low_key(page) {
            Some(low) => low,
            None => unreachable!(),
        }
    }
}

/// The same end of a range again.
pub(super) fn copy_end(end: Option<&Key>) -> Result<Option<Key>, Memory>
    ensures { IfOk result (λ copy. copy ≡ option_copied end.entry) }
{
    match end {
        Some(key) => Ok(Some(key.copy()?)),
        None => Ok(None),
    }
}
