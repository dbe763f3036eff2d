// Pages that were removed, the pages that still name them, and roots that have one child.
ghost use Rattle.std.specs.Prelude.{◌≡◌, ℕ, MatchOption};
ghost use Rattle.std.specs.Option.{option_copied};
ghost use Rattle.bw_level.specs.Before.{removed_at};
ghost use Rattle.bw_level.specs.Roots.{HasOneChild, removed_root};
ghost use Rattle.bw_level.specs.Slots.{slot_at, slot_level};

use super::Look;
use bw_key::Key;
use bw_page::{PageId, RemovedPage};

impl<'a> Look<'a> {
    ghost use Rattle.bw_look.specs.RemovedPages.{HasNoNamerOfRemoved, IsNamerOfRemoved};

    /// What is left of a page that was removed, or none for another page, a free identifier and one that was never given out.
    /// It is a look at its base page, and takes no memory.
    pub fn removed(&self, page: PageId) -> Option<&'a RemovedPage>
        ensures { option_copied result ≡ removed_at (slot_at self.now.slots page) }
    {
        self.chains.removed_page(page)
    }

    /// The page of the level above that still names a page which was removed, as after a merge that isn't finished: at the key
    /// where the removed page began. It is none where no page names it, and for a page that isn't a removed one. It costs a
    /// search for that key, and one more among the separators of the page above. It takes no memory.
    pub fn namer_of_removed(&self, page: PageId) -> Option<PageId>
        ensures { MatchOption result (HasNoNamerOfRemoved self.now page) (IsNamerOfRemoved self.now page) }
    {
        self.know_levels();
        let Some(removed) = self.removed(page) else {
            return None;
        };
        if removed.level >= self.root_level() {
            return None;
        }
        let Some(parent) = self.above(removed.level + 1, &removed.low) else {
            return None;
        };
        if self.has_child(parent, &removed.low, page) {
            return Some(parent);
        }
        None
    }

    /// The child of a root that has one alone: the page of the level below that has the least key. It costs a search.
    pub fn only_child(&self) -> PageId
        requires { (child : ℕ) × HasOneChild self.now.slots self.now.root child }
        ensures { HasOneChild self.now.slots self.now.root result }
    {
        self.know_levels();
        self.first_page(self.root_level() - 1)
    }

    /// What is left of the root where it is removed into this child.
    pub fn removed_root(&self, child: PageId) -> RemovedPage
        ensures { result ≡ removed_root (slot_level (slot_at self.now.slots self.now.root)) child }
    {
        RemovedPage {
            left: child,
            level: self.level(self.root),
            low: Key::new(*self.heads.allocator(), &[]).unwrap(),
        }
    }
}
