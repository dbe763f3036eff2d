// Searches of a tree.
ghost use Rattle.std.specs.Prelude.{◌≡◌, ℕ, ◌<◌, ◌≤◌, [], true, T, length, is_some, IfSome, MatchOption};
ghost use Rattle.std.specs.Option.{option_copied};
ghost use Rattle.bw_model.specs.Contents.{is_below_end};
ghost use Rattle.bw_level.specs.Slots.{slot_at, slot_level, side_of, is_leaf};
ghost use Rattle.bw_level.specs.Levels.{IsHome, IsHomeAt};
ghost use Rattle.bw_level.specs.Before.{IsBefore};
ghost use Rattle.bw_level.specs.Roots.{IsNeighbour};
ghost use Rattle.bw_level.specs.Searches.{IsInLevels, IsSearching, plain_inner};
ghost use Rattle.bw_level.specs.Targets.{AreAtHome, IsLinked, IsTurnFor, StartsFrom, lies_from};
ghost use Rattle.bw_look.specs.Routing.{AreAtHomeOn, IsFoundEnd, IsInLevel, IsInNoLevel, IsInnerPage};

use super::Look;
use bw_key::Key;
use bw_level::{Target, Turn};
use bw_page::{Inner, PageId};

/// The leaf that a search found, and the last page from which it went down, if it went down.
#[derive(Clone, Copy)]
pub(crate) struct Found {
    pub(crate) leaf: PageId,
    pub(crate) above: Option<PageId>,
}

impl<'a> Look<'a> {
    /// The one leaf of the leaf level whose range has the key.
    ///
    /// A search goes down from the root by the greatest separator that isn't above the key, left from a removed page,
    /// and right past the end of a page that was split (B-link trees): for each page a binary search and a walk along the
    /// whole chain, which is as long as there are records over the page. It takes no memory.
    pub fn route(&self, key: &Key) -> PageId
        ensures home { IsHome self.now.slots self.now.levels key.now result }
        ensures only { (page : ℕ) → IsHome self.now.slots self.now.levels key.now page → page ≡ result }
        ensures there { result < length self.now.heads }
        ensures leaf { is_leaf (slot_at self.now.slots result) ≡ true }
    {
        self.know_levels();
        self.search(Target::Home(key))
    }

    /// The leaf whose range has the keys right below an end, or the last one where there is none: the search is that of
    /// `route`, by the greatest separator below the end. It takes no memory.
    pub fn route_before(&self, end: Option<&Key>) -> PageId
        requires { T (is_below_end (option_copied end) []) }
        ensures { IsBefore self.now.slots self.now.levels (option_copied end.entry) result }
    {
        self.search(Target::Before(end))
    }

    /// The page of a level whose range has the key, the leaves' level being 0, or none where the tree has no such level: the
    /// search is that of `route`, and ends there. It takes no memory.
    pub fn above(&self, level: u32, key: &Key) -> Option<PageId>
        ensures { MatchOption result (length self.now.levels ≤ level)
            (IsHomeAt self.now.slots self.now.levels key.now level) }
    {
        self.on_level(level, Target::Home(key))
    }

    /// The page of a level that a search is for, or none where the tree has no such level.
    pub(super) fn on_level(&self, level: u32, target: Target<'_>) -> Option<PageId>
        requires { T (lies_from target []) }
        ensures { MatchOption result (length self.now.levels ≤ level) (AreAtHomeOn self.now target.entry level) }
    {
        self.know_levels();
        if self.level(self.root) < level {
            return None;
        }
        let mut page = self.root;
        loop {
            match self.turn(page, target) {
                Turn::Here => return Some(page),
                Turn::Right(next) => page = next,
                Turn::Left(next) => page = next,
                Turn::Down(next) => {
                    if self.level(page) == level {
                        return Some(page);
                    }
                    page = next;
                }
            }
        }
    }

    // The leaf that a search is for.
    fn search(&self, target: Target<'_>) -> PageId
        requires { T (lies_from target []) }
        ensures homes { AreAtHome self.now.slots self.now.levels target.entry result }
        ensures there { result < length self.now.heads }
    {
        self.search_from(None, target).leaf
    }

    /// The leaf that a search is for, from a page on where it may begin, or from the root.
    pub(crate) fn search_from(&self, start: Option<PageId>, target: Target<'_>) -> Found
        requires starts { T (lies_from target []) }
        requires begins { IfSome start (IsSearching self.now.slots self.now.levels target) }
        ensures homes { AreAtHome self.now.slots self.now.levels target.entry result.leaf }
        ensures there { result.leaf < length self.now.heads }
        ensures above { IfSome result.above (IsInnerPage self.now) }
    {
        let mut page = start.unwrap_or(self.root);
        let mut above = None;
        loop {
            match self.turn(page, target) {
                Turn::Here => return Found { leaf: page, above },
                Turn::Right(next) => page = next,
                Turn::Down(next) => {
                    above = Some(page);
                    page = next;
                }
                Turn::Left(next) => page = next,
            }
        }
    }

    /// Where the range of the leaf ends that a search is for, if the search ends where it begins: at this page.
    pub(crate) fn end_for(&self, page: PageId, target: Target<'_>) -> Option<Option<&'a Key>>
        requires starts { T (lies_from target []) }
        requires begins { IsSearching self.now.slots self.now.levels target page }
        ensures { IfSome result (IsFoundEnd self.now target.entry page) }
    {
        self.chains.end_for(self.heads[page.0 as usize], target)
    }

    // Where it goes on from a page.
    fn turn(&self, page: PageId, target: Target<'_>) -> Turn
        requires there { page < length self.now.slots }
        requires starts { StartsFrom (slot_at self.now.slots page) target }
        requires linked { IsLinked (slot_at self.now.slots page) }
        ensures { IsTurnFor target.entry (slot_at self.now.slots page) result }
    {
        self.chains.turn_at(self.heads[page.0 as usize], target)
    }

    /// The level on which a page stands, the leaves' being 0, or none where it stands on no level. It is a look at the page's
    /// base page, since each page stands on a level, and takes no memory.
    pub fn in_level(&self, page: PageId) -> Option<u32>
        ensures level { MatchOption result (IsInNoLevel self.now page) (IsInLevel self.now page) }
        ensures there { IfSome result (λ level. page < length self.now.heads) }
    {
        self.know_levels();
        self.know_records();
        match self.low_key(page) {
            Some(_) => Some(self.level(page)),
            None => None,
        }
    }

    /// The right neighbour of a page of a level, if it has one. It costs a walk along the page's chain, and takes no memory.
    pub fn right_of(&self, page: PageId) -> Option<PageId>
        requires { IsInLevels self.now.levels page }
        ensures { result ≡ side_of self.now.slots page }
    {
        let Some(found) = self.neighbour(page) else {
            return None;
        };
        Some(found.2)
    }

    /// The level of a page of a level, where its range ends, and its right neighbour, if it has one.
    pub(crate) fn neighbour(&self, page: PageId) -> Option<(u32, &'a Key, PageId)>
        requires { IsInLevels self.now.levels page }
        ensures there { is_some result ≡ is_some (side_of self.now.slots page) }
        ensures page { IfSome result
            (λ found. IsNeighbour (slot_at self.now.slots page) found.0 found.1.now found.2) }
    {
        self.chains.neighbour(self.heads[page.0 as usize])
    }

    /// The level of a page. It is a look at its base page.
    pub(crate) fn level(&self, page: PageId) -> u32
        ensures { result ≡ slot_level (slot_at self.now.slots page) }
    {
        self.chains.level(page)
    }

    /// The inner page that a page of a level is, where no change lies over its base page. It is a look at its mapping word.
    pub fn inner(&self, page: PageId) -> Option<&'a Inner>
        requires { IsInLevels self.now.levels page }
        ensures { IfSome result (λ inner. slot_at self.now.slots page ≡ plain_inner inner.now) }
    {
        self.chains.inner(self.heads[page.0 as usize])
    }
}
