// Pages that no page above names yet.
ghost use Rattle.std.specs.Prelude.{Decides, MatchOption};
ghost use Rattle.bw_level.specs.Children.{HasChildAt};
ghost use Rattle.bw_level.specs.Searches.{IsInLevels};
ghost use Rattle.bw_level.specs.Slots.{slot_at};
ghost use Rattle.bw_level.specs.Turns.{StartsUpto};

use super::Look;
use bw_key::Key;
use bw_page::PageId;

/// A page that no page above names yet, as a split leaves it.
#[derive(Clone, Copy)]
pub struct Unnamed<'a> {
    /// The page.
    pub page: PageId,
    /// The key at which it begins.
    pub sep: &'a Key,
    /// The page of the level above in whose range that key lies.
    pub parent: PageId,
}

impl<'a> Look<'a> {
    ghost use Rattle.bw_look.specs.Unnamed.{HasNoUnnamed, IsUnnamed};
    ghost use Rattle.bw_look.specs.Routing.{IsInnerPage};

    /// The right neighbour of a page of a level, if it has one that the level above doesn't name yet: where the key at which
    /// it begins is at home on a page that doesn't name it at that key. It is none on the root's level, which has no level
    /// above.
    ///
    /// It costs a walk along the page's chain, a search for the key, and one more among the separators of the page above. It
    /// takes no memory.
    pub fn unnamed_right(&self, page: PageId) -> Option<Unnamed<'a>>
        requires { IsInLevels self.now.levels page }
        ensures { MatchOption result (HasNoUnnamed self.now page)
            (λ u. IsUnnamed self.now page u.parent u.sep.now u.page) }
    {
        let Some(found) = self.neighbour(page) else {
            return None;
        };
        if found.0 >= self.level(self.root) {
            return None;
        }
        let Some(parent) = self.above(found.0 + 1, found.1) else {
            return None;
        };
        if self.has_child(parent, found.1, found.2) {
            return None;
        }
        Some(Unnamed {
            page: found.2,
            sep: found.1,
            parent,
        })
    }

    /// Whether an inner page that doesn't begin above a key has this child at it.
    pub(super) fn has_child(&self, page: PageId, key: &Key, child: PageId) -> bool
        requires inner { IsInnerPage self.now page }
        requires starts { StartsUpto (slot_at self.now.slots page) key.now }
        ensures { Decides result (HasChildAt (slot_at self.now.slots page) key.now child) }
    {
        self.chains
            .has_child(self.heads[page.0 as usize], key, child)
    }
}
