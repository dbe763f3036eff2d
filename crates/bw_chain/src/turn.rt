// Where a search goes on from a page.
ghost use Rattle.bw_chain.specs.Chains.{IsChain, page_at};
ghost use Rattle.bw_level.specs.Targets.{IsLinked, IsTurnFor, StartsFrom};

use crate::chains::Chains;
use bw_level::{Target, Turn, turn_over, turn_plain};

impl Chains {
    /// Where a search goes on from a page, whose range doesn't begin behind what is sought. The chain is walked by its
    /// links, and a binary search goes through the separators of an inner page. It takes no memory.
    pub fn turn_at(&self, head: u64, target: Target<'_>) -> Turn
        requires ends { IsChain self.now head }
        requires starts { StartsFrom (page_at self.now head) target }
        requires linked { IsLinked (page_at self.now head) }
        ensures { IsTurnFor target.entry (page_at self.now head) result }
    {
        match self.under_writes(head) {
            (Some(delta), Some(base)) => turn_over(delta, base, target),
            (None, Some(base)) => turn_plain(base, target),
            (_, None) => unreachable!(),
        }
    }
}
