// The right neighbours of pages.
ghost use Rattle.std.specs.Prelude.{◌≡◌, Some, is_some, IfSome};
ghost use Rattle.bw_chain.specs.Chains.{IsChain, page_at};
ghost use Rattle.bw_level.specs.Roots.{IsNeighbour};
ghost use Rattle.bw_level.specs.Slots.{side_of_slot};
ghost use Rattle.bw_level.specs.Targets.{IsLinked};

use crate::chains::Chains;
use bw_key::Key;
use bw_level::{neighbour_over, neighbour_plain};
use bw_page::PageId;

impl Chains {
    /// The level of a page, the key where its range ends, and its right neighbour, where it has one. It costs a walk along
    /// the chain's links, and takes no memory.
    pub fn neighbour(&self, head: u64) -> Option<(u32, &Key, PageId)>
        requires ends { IsChain self.now head }
        requires linked { IsLinked (page_at self.now head) }
        ensures there { is_some result ≡ is_some (side_of_slot (page_at self.now head)) }
        ensures page { IfSome result (λ found. IsNeighbour (page_at self.now head) found.0 found.1.now found.2) }
    {
        match self.under_writes(head) {
            (Some(delta), Some(base)) => neighbour_over(delta, base),
            (None, Some(base)) => neighbour_plain(base),
            (_, None) => None,
        }
    }
}
