// Leaves that take the places of base pages.
ghost use Rattle.std.specs.Prelude.{◌≡◌, ℕ, ◌≤◌};
ghost use Rattle.std.specs.List.{AllByRecursion};
ghost use Rattle.bw_core.specs.World.{times};
ghost use Rattle.bw_chain.specs.Supports.{IsLeafAt};
ghost use Rattle.bw_look.specs.Folding.{pages_of, put_leaves};

use bw_chain::Chains;
use bw_look::Folded;

/// Swaps leaves with the base pages of their pages, which are leaves. It takes no memory.
pub(crate) fn swap_leaves(chains: &mut Chains, folded: &mut [Folded])
    requires leaves { AllByRecursion (λ f. IsLeafAt chains.old.bases f.page) folded.old }
    requires once { (p : ℕ) → times p (pages_of folded.old) ≤ 1 }
    ensures bases { chains.new.bases ≡ put_leaves chains.old.bases folded.old }
    ensures back { put_leaves chains.new.bases folded.new ≡ chains.old.bases }
    ensures records { chains.new.records ≡ chains.old.records }
{
    for place in 0..folded.len() {
        let entry = &mut folded[place];
        chains.swap_leaf(entry.page, &mut entry.leaf);
    }
}
