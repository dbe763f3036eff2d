// Where the range of the leaf ends that a search is for.
ghost use Rattle.std.specs.Prelude.{◌≡◌, is_some, IfSome};
ghost use Rattle.std.specs.Option.{option_copied};
ghost use Rattle.bw_chain.specs.Chains.{IsChain, page_at};
ghost use Rattle.bw_level.specs.LeafEnds.{ends_at};
ghost use Rattle.bw_level.specs.Scans.{high_of};

use crate::chains::Chains;
use bw_key::Key;
use bw_level::{Target, leaf_end_over, leaf_end_plain};

impl Chains {
    /// Where the range of a leaf ends, if what is sought doesn't lie past it; a search that stands at the leaf then ends
    /// there. That is what `turn_at` and `end` tell, by one walk along the links of its chain. It takes no memory.
    pub fn end_for(&self, head: u64, target: Target<'_>) -> Option<Option<&Key>>
        requires { IsChain self.now head }
        ensures some { is_some result ≡ ends_at target.entry (page_at self.now head) }
        ensures end { IfSome result (λ end. option_copied end ≡ high_of (page_at self.now head)) }
    {
        match self.under_writes(head) {
            (Some(delta), Some(base)) => leaf_end_over(delta, base, target),
            (None, Some(base)) => leaf_end_plain(base, target),
            (_, None) => None,
        }
    }
}
