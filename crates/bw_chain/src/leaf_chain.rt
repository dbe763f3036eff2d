// A leaf as it is read from its chain.
ghost use Rattle.std.specs.Prelude.{◌≡◌, IfOk};
ghost use Rattle.std.specs.Option.{option_copied};
ghost use Rattle.bw_delta.specs.History.{pointed_to, HasDistinctStamps};
ghost use Rattle.bw_chain.specs.LeafChains.{IsLeafChain};
ghost use Rattle.bw_level.specs.Scans.{ArePairsOn, IsLeafReplay};
ghost use Rattle.bw_level.specs.Slots.{Slot};

use bw_delta::{Replay, Write, leaf_as_of};
use bw_key::{Key, Memory};
use bw_level::lower_end;
use bw_memory::Alloc;
use bw_model::Pairs;
use bw_page::{Leaf, PageId};

/// A leaf as its chain has it.
#[derive(Drop)]
pub struct LeafChain<'a> {
    /// The writes over its base page, the newest first.
    pub writes: Vec<&'a Write, Alloc>,
    /// The page under them, which begins where the leaf does and may end behind it.
    pub base: &'a Leaf,
    /// Where its range ends.
    pub end: Option<&'a Key>,
    /// Its right neighbour.
    pub side: Option<PageId>,
}

impl<'a> LeafChain<'a> {
    /// The pairs as of stamp 0, which go on to later stamps. The m writes cost about m log2 m comparisons of their stamps,
    /// and the pairs nothing. `Memory` is answered where the sorted list of the writes finds none.
    pub fn replay(&self, alloc: Alloc) -> Result<Replay<'a>, Memory>
        requires { HasDistinctStamps (pointed_to self.now.writes.items) }
        ensures stamp { IfOk result (λ replay. replay.stamp ≡ 0) }
        ensures replay { IfOk result (λ replay. (slot : Slot) → IsLeafChain slot self.now → IsLeafReplay slot replay) }
    {
        Replay::new(alloc, &[self.base], self.end, &self.writes)
    }

    /// The pairs as of a stamp, from a key on and below another: those of the base page, merged with the writes below the
    /// stamp. The m writes in that range are sorted, in about m log2 m key comparisons, and each pair is copied once.
    /// `Memory` is answered where a list or a copy finds none.
    pub fn pairs_as_of(
        &self,
        alloc: Alloc,
        low: &Key,
        high: Option<&Key>,
        stamp: u64,
    ) -> Result<Pairs, Memory>
        requires { HasDistinctStamps (pointed_to self.now.writes.items) }
        ensures { IfOk result (λ pairs. (slot : Slot) → IsLeafChain slot self.now →
            ArePairsOn slot low.now (option_copied high.entry) stamp pairs) }
    {
        let end = lower_end(self.end, high);
        leaf_as_of(alloc, &[self.base], low, end, &self.writes, stamp)
    }
}
