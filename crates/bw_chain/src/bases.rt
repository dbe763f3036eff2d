// Base pages that take the place of others, new ones, and some that go.
ghost use Rattle.std.specs.Prelude.{◌≡◌, ℕ, ◌<◌, ◌≤◌, length, take, Decides, Some, None, slice_get, slice_set, IfOk, OnErr};
ghost use Rattle.bw_level.specs.Changes.{based};
ghost use Rattle.bw_chain.specs.Chains.{IsChain};
ghost use Rattle.bw_chain.specs.Placing.{put_at};
ghost use Rattle.bw_page.specs.declared.pages.Page.TheVariants.{Gone as GonePage, Leaf as LeafPage};
ghost use Rattle.bw_page.specs.declared.pages.RemovedPage.{RemovedPage};
ghost use Rattle.bw_chain.specs.Removed.{HasAllRemoved, IsNotRemoved, IsRemovedAt, IsRemovedInto};
ghost use Rattle.bw_level.specs.Slots.{Free};
ghost use Rattle.bw_chain.specs.Supports.{IsLeafAt, base_under};
ghost use Rattle.bw_chain.specs.Vacancy.{AreVacantFrom, IsTakenBefore};

use crate::chains::Chains;
use bw_key::Memory;
use bw_memory::Alloc;
use bw_page::{Leaf, Page, PageId, RemovedPage};
use bw_segment::Segmented;
use std::mem;

impl Chains {
    /// Puts a page in the place of the base page of a number, where there is such a number. It isn't a removed page. It takes
    /// no memory.
    pub fn replace_base(&mut self, number: PageId, page: Page)
        requires { IsNotRemoved page }
        ensures bases { self.new.bases ≡ slice_set self.old.bases number (Some page) }
        ensures records { self.new.records ≡ self.old.records }
    {
        if (number.0 as usize) < self.bases.len() {
            self.bases.set(number.0 as usize, Some(page));
        }
    }

    /// Swaps a leaf that is the base page of a number with another leaf. It takes no memory.
    pub fn swap_leaf(&mut self, number: PageId, leaf: &mut Leaf)
        requires { IsLeafAt self.old.bases number }
        ensures leaf { slice_get self.old.bases number ≡ Some (Some (LeafPage leaf.new)) }
        ensures bases { self.new.bases ≡ slice_set self.old.bases number (Some (LeafPage leaf.old)) }
        ensures records { self.new.records ≡ self.old.records }
    {
        match self.bases.replace(number.0 as usize, None) {
            Some(Page::Leaf(base)) => {
                let swapped = mem::replace(leaf, base);
                self.bases.set(number.0 as usize, Some(Page::Leaf(swapped)));
            }
            _ => unreachable!(),
        }
    }

    /// Puts a removed page in the place of the base page under a chain, and answers its number, which as a mapping word names
    /// the page without a record. It costs a walk along the chain's links. `Memory` is answered where the list of removed
    /// pages can't grow; all is as before.
    pub fn remove_base(&mut self, head: u64, removed: RemovedPage) -> Result<u64, Memory>
        requires { IsChain self.old head }
        ensures number { IfOk result (λ number. number ≡ base_under self.old.records head) }
        ensures bases { let gone = Some (GonePage removed) in
            IfOk result (λ number. self.new.bases ≡ slice_set self.old.bases number gone) }
        ensures records { self.new.records ≡ self.old.records }
        ensures err { OnErr result (self.new ≡ self.old) }
    {
        let number = self.base_number(head);
        self.removed.reserve(1)?;
        self.bases.set(number as usize, Some(Page::Gone(removed)));
        self.removed.push(PageId(number as u32)).unwrap();
        Ok(number)
    }

    /// Lets the base page of a number go, which is vacant from then on. It costs a look at the last ones of the base pages that
    /// say of their page that it was removed, and takes no memory.
    pub fn free_base(&mut self, number: PageId)
        requires { number < length self.old.bases }
        ensures bases { self.new.bases ≡ slice_set self.old.bases number None }
        ensures records { self.new.records ≡ self.old.records }
    {
        self.bases.set(number.0 as usize, None);
        pass_removed(&self.bases, &mut self.removed);
    }

    /// The numbers of all base pages that say of their page that it was removed, and of some that did.
    pub fn removed_numbers(&self) -> &[PageId]
        ensures { HasAllRemoved self.now.bases result.now }
    {
        &self.removed
    }

    /// Whether a base page says that its page was removed into this left neighbour. It costs a look at each that says so, and
    /// at some that did, and takes no memory.
    pub fn is_left(&self, page: PageId) -> bool
        ensures { Decides result ((n : ℕ) × IsRemovedInto self.now.bases page n) }
    {
        for number in &self.removed {
            if self.is_left_of(page, *number) {
                return true;
            }
        }
        false
    }

    // Whether the base page of a number says so.
    fn is_left_of(&self, page: PageId, number: PageId) -> bool
        ensures { Decides result (IsRemovedInto self.now.bases page number) }
    {
        match self.base(number.0 as u64) {
            Some(Page::Gone(removed)) => removed.left == page,
            _ => false,
        }
    }

    /// How many numbers of base pages there are, with those that are vacant.
    pub fn base_count(&self) -> usize
        ensures { result ≡ length self.now.bases }
    {
        self.bases.len()
    }

    /// Whether there is no base page of a number.
    #[tactic(auto, using(crate::proofs::VacancyLemmas::vacant_at))]
    pub fn is_vacant(&self, number: PageId) -> bool
        ensures { Decides result (based (slice_get self.now.bases number) ≡ Free) }
    {
        self.base(number.0 as u64).is_none()
    }

    /// Lets the vacant numbers behind the last base page go, and answers how many numbers are left. It is never refused,
    /// and costs a step for each number that goes.
    pub fn trim_bases(&mut self) -> usize
        ensures vacant { AreVacantFrom self.old.bases result }
        ensures last { IsTakenBefore self.old.bases result }
        ensures bases { self.new.bases ≡ take result self.old.bases }
        ensures records { self.new.records ≡ self.old.records }
    {
        let count = self.taken_count();
        self.bases.truncate(count);
        count
    }

    // How many numbers there are up to the last one that isn't vacant.
    fn taken_count(&self) -> usize
        ensures vacant { AreVacantFrom self.now.bases result }
        ensures last { IsTakenBefore self.now.bases result }
    {
        let mut count = self.bases.len();
        while count > 0 {
            if self.base(count as u64 - 1).is_some() {
                return count;
            }
            count -= 1;
        }
        0
    }

    // The number of the base page under a chain.
    fn base_number(&self, head: u64) -> u64
        requires { IsChain self.now head }
        ensures { result ≡ base_under self.now.records head }
    {
        let mut word = head;
        while let Some(under) = self.link(word) {
            word = under;
        }
        word
    }
}

#[tactic(auto, using(crate::proofs::PlacingLemmas::put_set, crate::proofs::PlacingLemmas::put_last))]
/// Puts a base page at a number that is vacant, or behind all others, for which there is room.
pub(crate) fn put_base(bases: &mut Segmented<Option<Page>>, number: usize, page: Page)
    requires place { number ≤ length bases.old.items }
    requires room { 0 < bases.old.room }
    ensures { bases.new.items ≡ put_at bases.old.items number (Some page) }
{
    if number < bases.len() {
        bases.set(number, Some(page));
        return;
    }
    bases.push_reserved(Some(page));
}

// Takes the last numbers from a list with those of all removed pages, up to one that is of a removed page still.
fn pass_removed(bases: &Segmented<Option<Page>>, numbers: &mut Vec<PageId, Alloc>)
    ensures { HasAllRemoved bases.now.items numbers.old.items → HasAllRemoved bases.now.items numbers.new.items }
{
    while let Some(number) = numbers.last().copied() {
        if is_removed(bases, number) {
            return;
        }
        numbers.pop();
    }
}

// Whether the base page of a number says that its page was removed.
fn is_removed(bases: &Segmented<Option<Page>>, number: PageId) -> bool
    ensures { Decides result ((removed : RemovedPage) × IsRemovedAt bases.now.items number removed) }
{
    matches!(bases.get(number.0 as usize), Some(Some(Page::Gone(_))))
}
