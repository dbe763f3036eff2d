// Leaves that take the places of base pages.
ghost use Rattle.std.specs.Prelude.{◌≡◌};
ghost use Rattle.bw_look.specs.Folding.{put_leaves};

use bw_chain::Chains;
use bw_memory::Alloc;
use bw_page::{Leaf, Page, PageId};

/// A leaf that takes the place of its page's base page: one that was consolidated beside the posting of a batch, or, where that
/// batch is undone, the one that was there before.
#[derive(Drop)]
pub struct Folded {
    /// Its page.
    pub page: PageId,
    /// Before a batch is adopted, what the page's chain makes of it as of the batch's first stamp.
    pub leaf: Leaf,
}

/// Puts leaves in the places of the base pages of their pages. It takes no memory.
#[tactic(auto, using(crate::proofs::PutLemmas::put_more))]
pub(crate) fn put_leaves(chains: &mut Chains, folded: Vec<Folded, Alloc>)
    ensures bases { chains.new.bases ≡ put_leaves chains.old.bases folded.entry.items }
    ensures records { chains.new.records ≡ chains.old.records }
{
    for Folded { page, leaf } in folded {
        chains.replace_base(page, Page::Leaf(leaf));
    }
}
