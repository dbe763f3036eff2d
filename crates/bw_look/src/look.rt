// A tree that is lent to be read.
ghost use Rattle.std.specs.Prelude.{◌≡◌, ℕ, ◌<◌, ◌≤◌, ◌^◌, [], length, slice_index};
ghost use Rattle.bw_delta.specs.History.{HasDistinctStamps};
ghost use Rattle.bw_level.specs.Entries.{AreExact};
ghost use Rattle.bw_level.specs.Levels.{AreLevels, row};
ghost use Rattle.bw_level.specs.Reading.{row_writes, writes_over};
ghost use Rattle.bw_level.specs.Searches.{AllStand, IsInLevels};
ghost use Rattle.bw_level.specs.Slots.{slot_at};

use crate::staging::Stage;
use bw_chain::Chains;
use bw_memory::Alloc;
use bw_page::PageId;
use std::marker::Model;

mod children;
mod entry_counts;
mod identifiers;
mod page_states;
mod removed_pages;
mod search;
mod shape;
mod snapshot_reads;
mod spares;
mod staged_batch;

pub use children::Unnamed;
pub use shape::PageShape;

/// A tree, lent to be read: pages, named by identifiers, whose present states are chains of delta records over base pages.
///
/// The mapping table is a list of words, one for each identifier. A word below 2^32 names a base page, and one from there
/// on the newest record of the page's chain. What is lent stays as it is for as long as it is lent.
#[derive(Drop)]
pub struct Look<'a> {
    heads: &'a Vec<u64, Alloc>,
    chains: &'a Chains,
    root: PageId,
    // the stamp of the next operation
    next: u64,
    // the batch whose writes are the last records
    staged: &'a Option<Stage>,
}

impl<'a> Model for Look<'a> {
    ghost use Rattle.bw_look.specs.View.{TreeView};
    ghost use Rattle.bw_look.specs.Trees.{IsTree, view_of};

    ghost Value = { TreeView };

    ghost view = { λ t.
        view_of t.heads.now.items t.chains.now.bases t.chains.now.records t.root t.next t.staged.now };

    ghost invariant = { λ t.
        IsTree t.heads.now.items t.chains.now.bases t.chains.now.records t.root t.next t.staged.now };
}

impl<'a> Look<'a> {
    ghost use Rattle.bw_look.specs.Trees.{ArePlaced, IsTree, view_of};
    ghost use Rattle.bw_look.specs.View.{HomeIsOneIn, HomesHoldAll, LeavesHaveDistinctStamps};

    /// The tree of these mapping words and chains, with this root, this next stamp and this staged batch.
    pub fn new(
        heads: &'a Vec<u64, Alloc>,
        chains: &'a Chains,
        root: PageId,
        next: u64,
        staged: &'a Option<Stage>,
    ) -> Look<'a>
        requires { IsTree heads.now.items chains.now.bases chains.now.records root next staged.now }
        ensures { result ≡ view_of heads.now.items chains.now.bases chains.now.records root next staged.now }
    {
        Look {
            heads,
            chains,
            root,
            next,
            staged,
        }
    }

    /// The same again, to be read as long.
    pub fn again(&self) -> Look<'a>
        ensures { result ≡ self.now }
    {
        Look {
            heads: self.heads,
            chains: self.chains,
            root: self.root,
            next: self.next,
            staged: self.staged,
        }
    }

    /// What every tree keeps: a key has one home, what the tree holds at a key is what its home holds there, and no two
    /// writes over a leaf have one stamp. A caller's proof knows it behind this call, which does nothing.
    pub fn know_homes(&self)
        ensures one { HomeIsOneIn self.now }
        ensures values { HomesHoldAll self.now }
        ensures distinct { LeavesHaveDistinctStamps self.now }
    {
        // A look at a field is what makes the type's rule known here.
        let _ = &self.root;
    }

    /// What every tree keeps of its levels: they are lawful, and no two writes over the leaves have one stamp. A caller's
    /// proof knows it behind this call, which does nothing.
    pub fn know_levels(&self)
        ensures lawful { AreLevels self.now.slots self.now.root self.now.levels }
        ensures distinct { HasDistinctStamps (row_writes self.now.slots (row self.now.levels 0)) }
    {
        // A look at a field is what makes the type's rule known here.
        let _ = &self.root;
    }

    /// What every tree keeps of its index entries: each names the page of the level below that begins at its separator, or a
    /// removed page, with which no page begins, and none names a page that another one names. So once the entry at the key
    /// where a page begins is gone, no separator names the page, which is what giving its identifier back asks. A caller's
    /// proof knows it behind this call, which does nothing.
    pub fn know_entries(&self)
        ensures { AreExact self.now.slots self.now.levels }
    {
        // A look at a field is what makes the type's rule known here.
        let _ = &self.root;
    }

    /// What every tree keeps of its pages and their mapping words: a page of a level has one, each page stands on a level, and
    /// so does one that has records, one that has none has no writes, and each page has an identifier of 32 bits. A caller's
    /// proof knows it behind this call, which does nothing.
    pub fn know_records(&self)
        ensures stand { AllStand self.now.slots self.now.levels }
        ensures there { (p : ℕ) → IsInLevels self.now.levels p → p < length self.now.heads }
        ensures placed { ArePlaced self.now.heads self.now.levels }
        ensures bare { (p : ℕ) → slice_index self.now.heads p < 2 ^ 32 → writes_over (slot_at self.now.slots p) ≡ [] }
        ensures slots { length self.now.slots ≡ length self.now.heads }
        ensures few { length self.now.heads ≤ 2 ^ 32 }
    {
        // A look at a field is what makes the type's rule known here.
        let _ = &self.root;
    }
}
