// Index entries of inner pages.
ghost use Rattle.std.specs.Prelude.{◌≡◌, ◌<◌, Decides};
ghost use Rattle.bw_chain.specs.Chains.{IsChain, floor_word, page_at};
ghost use Rattle.bw_level.specs.Children.{HasChildAt};
ghost use Rattle.bw_level.specs.Slots.{IsSoundInner};
ghost use Rattle.bw_level.specs.Splits.{slot_child};
ghost use Rattle.bw_level.specs.Turns.{StartsUpto};

use crate::chains::Chains;
use bw_key::Key;
use bw_level::{child_in_place, child_over};
use bw_page::{Page, PageId};

impl Chains {
    /// Whether an inner page, which doesn't begin above a key, has this child at it. It costs a walk along the chain's links
    /// and a binary search among the separators, and takes no memory.
    pub fn has_child(&self, head: u64, key: &Key, child: PageId) -> bool
        requires ends { IsChain self.now head }
        requires inner { IsSoundInner (page_at self.now head) }
        requires starts { StartsUpto (page_at self.now head) key.now }
        ensures { Decides result (HasChildAt (page_at self.now head) key.now child) }
    {
        let (delta, base) = self.under_writes(head);
        let Some(base) = base else {
            unreachable!();
        };
        match base {
            Page::Inner(inner) => child_over(delta, inner, key, child),
            Page::Leaf(_) | Page::Gone(_) => unreachable!(),
        }
    }

    /// The child at a place among those of a page without a record, if it is an inner one that has so many. It takes no memory.
    pub fn child_at(&self, word: u64, place: usize) -> Option<PageId>
        requires ends { IsChain self.now word }
        requires plain { word < floor_word }
        ensures { result ≡ slot_child place (page_at self.now word) }
    {
        child_in_place(self.base(word), place)
    }
}
