// The pages that tidying is to look at.
ghost use Rattle.std.specs.Prelude.{◌≡◌, ℕ, ◌+◌, ◌<◌, ◌≤◌, true, false, [], ◌∷◌, ◌++◌, None, Some, length, reverse, take, MatchOption, IsOk, IfOk, OnOk, OnErr};
ghost use Rattle.bw_look.specs.RemovedPages.{HasNoNamerOfRemoved};
ghost use Rattle.bw_tree.specs.TreeSplits.{IsSplittable};
ghost use Rattle.bw_steps.specs.Releasing.{AreFreed, IsLeftOut, IsLeftToFree};
ghost use Rattle.bw_shape.specs.Tidying.{AreAmong, HasBoth, HasFinished, HasNoPage, HoldsAll, IsLeftToFinish, KeepsWithin, no_due};
ghost use Rattle.bw_shape.specs.Visits.{IsNext, IsNextBefore, IsSplitNext};

use crate::limits::Limits;
use crate::page_lists::{
    by_low_key, first_below, least_level, mark, pages_on, pages_over, sort_by_low_key,
};
use crate::siblings::may_merge;
use bw_key::Memory;
use bw_memory::Alloc;
use bw_page::PageId;
use bw_steps::{finish_absorb, grow_root, name_rights, release_run};
use bw_tree::Tree;
use std::marker::Model;

/// The pages that are due: those of a batch, and those that tidying didn't come to.
#[derive(Drop)]
pub struct Due {
    // the next one last, so that what a split adds is looked at next
    pages: Vec<PageId, Alloc>,
    // inner pages to look at behind those, level by level
    above: Vec<PageId, Alloc>,
    // inner pages to look at the next time
    later: Vec<PageId, Alloc>,
    // leaves that were consolidated where tidying stopped before they were split or merged, if need be: they are due still,
    // and the first one in the order of keys stands last, since no leaf is looked at before those that are left of it
    begun: Vec<PageId, Alloc>,
    // leaves that are due the next time if they may be merged: the first ones under pages that were merged, which have another
    // left neighbour then, those that were consolidated beside the posting of a batch, and behind a sweep all
    marked: Vec<PageId, Alloc>,
    // the first leaf under a page that is to be merged
    moving: Option<PageId>,
    // where tidying stopped: the page whose new right neighbours may not be named yet, or the removed one that may be named
    // still, or whose identifier may not be given back yet
    unfinished: Option<PageId>,
    // whether the pages are all those of a tree that was given: splits and merges of it may be unfinished
    given: bool,
}

impl Model for Due {
    ghost use Rattle.bw_shape.specs.Tidying.{DueView};

    ghost Value = { DueView };

    ghost view = { λ d. record {
      pages = d.pages.items;
      above = d.above.items;
      later = d.later.items;
      begun = d.begun.items;
      marked = d.marked.items;
      moving = d.moving;
      unfinished = d.unfinished;
      given = d.given;
    } };
}

impl Due {
    /// No page.
    pub fn new(alloc: Alloc) -> Due
        ensures { result ≡ no_due }
    {
        Due {
            pages: Vec::new(alloc),
            above: Vec::new(alloc),
            later: Vec::new(alloc),
            begun: Vec::new(alloc),
            marked: Vec::new(alloc),
            moving: None,
            unfinished: None,
            given: false,
        }
    }

    /// These leaves are due and, once they were looked at, these inner pages, and no others any more.
    pub(crate) fn set_pages(&mut self, mut leaves: Vec<PageId, Alloc>, inner: Vec<PageId, Alloc>)
        ensures { self.new ≡ record self.old { pages = reverse leaves.entry.items; above = inner.entry.items } }
    {
        leaves.reverse();
        self.pages = leaves;
        self.above = inner;
    }

    /// Once the pages were looked at, these inner pages are due, and no others any more.
    pub(crate) fn set_above(&mut self, inner: Vec<PageId, Alloc>)
        ensures { self.new ≡ record self.old { above = inner.entry.items } }
    {
        self.above = inner;
    }

    /// Whether the pages are all those of a tree that was given, of which splits and merges may be unfinished.
    pub(crate) fn is_given(&self) -> bool
        ensures { result ≡ self.now.given }
    {
        self.given
    }

    /// The pages are such ones, or aren't any more.
    pub(crate) fn set_given(&mut self, given: bool)
        ensures { self.new ≡ record self.old { given = given } }
    {
        self.given = given;
    }

    /// Adds pages of the tree that come in the order of the keys at which they begin, and marks leaves: where these have few
    /// pairs then, and a left neighbour under the same page, the next tidying merges them. Where other pages are
    /// due already all of them are sorted, so that they are looked at in that order, each once. It costs the sorting of the
    /// leaves, too, with those that were marked since the last tidying. It takes no memory where no page is added or none was
    /// due, and no leaf is marked. After `Memory` all is as before.
    pub fn add(
        &mut self,
        tree: &Tree,
        pages: Vec<PageId, Alloc>,
        leaves: &[PageId],
    ) -> Result<(), Memory>
        ensures ok { OnOk result (HasBoth pages.entry.items self.old.pages self.new.pages) }
        ensures alone { self.old.pages ≡ [] → OnOk result (self.new.pages ≡ reverse pages.entry.items) }
        ensures marked { OnOk result (HasBoth self.old.marked leaves.now self.new.marked) }
        ensures nothing { leaves.now ≡ [] → pages.entry.items ≡ [] → IsOk result }
        ensures first { leaves.now ≡ [] → self.old.pages ≡ [] → IsOk result }
        ensures rest { self.new ≡ record self.old { pages = self.new.pages; marked = self.new.marked } }
        ensures err { OnErr result (self.new ≡ self.old) }
    {
        if pages.is_empty() {
            return self.mark(leaves);
        }
        let mut pages = self.joined(tree, pages)?;
        pages.reverse();
        self.mark(leaves)?;
        self.pages = pages;
        Ok(())
    }

    // These pages with those that are due, in the order of keys.
    fn joined(
        &self,
        tree: &Tree,
        mut pages: Vec<PageId, Alloc>,
    ) -> Result<Vec<PageId, Alloc>, Memory>
        ensures both { IfOk result (λ both. HasBoth pages.entry.items self.now.pages both.items) }
        ensures alone { self.now.pages ≡ [] → IfOk result (λ both. both.items ≡ pages.entry.items) }
        ensures first { self.now.pages ≡ [] → IsOk result }
    {
        if self.pages.is_empty() {
            return Ok(pages);
        }
        pages.extend_from_slice(&self.pages)?;
        sort_by_low_key(tree, &mut pages);
        pages.dedup();
        Ok(pages)
    }

    /// Where its memory comes from.
    pub fn alloc(&self) -> Alloc {
        *self.pages.allocator()
    }

    /// The pages, the next one last.
    pub fn pages(&self) -> &[PageId]
        ensures { result.now ≡ self.now.pages }
    {
        &self.pages
    }

    /// Whether leaves among them were consolidated where tidying stopped before they were split or merged.
    pub fn has_leaves_begun(&self) -> bool
        ensures none { result ≡ false → self.now.begun ≡ [] }
        ensures some { result ≡ true → self.now.begun ≡ [] → ⊥ }
    {
        !self.begun.is_empty()
    }

    /// These pages are due in place of those that were, the next one last. Of them these leaves were consolidated, and are to be
    /// split or merged, if need be: they stand in the same order.
    pub fn keep(&mut self, left: Vec<PageId, Alloc>, begun: Vec<PageId, Alloc>)
        requires { AreAmong begun.items left.items }
        ensures { self.new ≡ record self.old { pages = left.entry.items; begun = begun.entry.items } }
    {
        self.pages = left;
        self.begun = begun;
    }

    /// The next page.
    pub(crate) fn next(&self) -> Option<PageId>
        ensures { MatchOption result (self.now.pages ≡ []) (IsNext self.now.pages) }
    {
        self.pages.last().copied()
    }

    /// Goes on to the least level above this one on which pages are left to be looked at: they are the next ones, in the order
    /// of keys. Answers that level, or nothing where no page is left. It costs some looks at each inner page that is left.
    /// After `Memory` they are as before.
    pub(crate) fn rise(&mut self, tree: &Tree, level: u32) -> Result<Option<u32>, Memory>
        requires { self.old.pages ≡ [] }
        ensures next { IfOk result (λ next. MatchOption next (HasNoPage self.new) (λ n. level < n)) }
        ensures unfinished { self.new.unfinished ≡ self.old.unfinished }
    {
        let Some(next) = least_level(tree, &self.above, level) else {
            self.above.clear();
            return Ok(None);
        };
        let alloc = self.alloc();
        let mut pages = pages_on(alloc, tree, &self.above, next)?;
        let above = pages_over(alloc, tree, &self.above, next)?;
        sort_by_low_key(tree, &mut pages);
        pages.dedup();
        pages.reverse();
        self.pages = pages;
        self.above = above;
        Ok(Some(next))
    }

    /// The pages that were left for the next time are looked at this time, with those that a stop left, each once: of the leaves
    /// that were marked those that may be merged. It costs the sorting of these pages, a look at each marked leaf, and where
    /// there are such leaves a copy of the list of pages. After `Memory` all leaves are marked still.
    #[tactic(auto, using(crate::proofs::TidyLemmas::kept_alike))]
    pub(crate) fn begin(&mut self, tree: &Tree, limits: &Limits) -> Result<(), Memory>
        ensures within { KeepsWithin tree.now tree.now self.old.pages self.new.pages }
        ensures none { OnOk result ((self.new.later ≡ []) × (self.new.marked ≡ [])) }
        ensures marked { OnErr result (self.new.marked ≡ self.old.marked) }
        ensures unfinished { self.new.unfinished ≡ self.old.unfinished }
    {
        self.above.extend_from_slice(&self.later)?;
        self.later.clear();
        sort_by_low_key(tree, &mut self.above);
        self.above.dedup();
        let leaves = self.mergeable_leaves(tree, limits)?;
        if !leaves.is_empty() {
            self.begin_leaves(tree, leaves)?;
        }
        // Behind a sweep all leaves stood there, and there is no need of the room.
        self.marked = Vec::new(self.alloc());
        Ok(())
    }

    // The marked leaves that may be merged, in the order of the pages that are due.
    fn mergeable_leaves(&self, tree: &Tree, limits: &Limits) -> Result<Vec<PageId, Alloc>, Memory> {
        let mut leaves = self
            .marked
            .iter()
            .filter(|leaf| may_merge(tree, limits, **leaf))
            .copied()
            .collect::<Vec<PageId, Alloc>>(self.alloc())?;
        sort_by_low_key(tree, &mut leaves);
        leaves.reverse();
        Ok(leaves)
    }

    // These leaves are due, as those are that were consolidated before a stop. All of these stand in the order of the pages.
    fn begin_leaves(&mut self, tree: &Tree, mut leaves: Vec<PageId, Alloc>) -> Result<(), Memory>
        ensures kept { AreAmong self.old.pages self.new.pages }
        ensures rest { self.new ≡ record self.old { pages = self.new.pages; begun = self.new.begun } }
    {
        self.pages = self.with_leaves(tree, &leaves)?;
        leaves.extend_from_slice(&self.begun)?;
        leaves.sort_unstable();
        self.begun = self.among(&leaves)?;
        Ok(())
    }

    // The pages that are due and these leaves, which stand in the same order, each once. To sort all of them would look at two
    // pages for each comparison.
    fn with_leaves(&self, tree: &Tree, leaves: &[PageId]) -> Result<Vec<PageId, Alloc>, Memory>
        ensures { IfOk result (λ all. AreAmong self.now.pages all.items) }
    {
        let room = self.pages.len().saturating_add(leaves.len());
        let mut all = Vec::with_capacity(self.alloc(), room)?;
        let mut start = 0;
        for leaf in leaves {
            start = self.add_as_far_as(tree, start, *leaf, &mut all)?;
        }
        all.extend_from_slice(&self.pages[start..])?;
        Ok(all)
    }

    // Adds the pages from a place on that come before a leaf, and the leaf, if it isn't the next one. Answers the place behind
    // those pages.
    fn add_as_far_as(
        &self,
        tree: &Tree,
        start: usize,
        leaf: PageId,
        all: &mut Vec<PageId, Alloc>,
    ) -> Result<usize, Memory>
        requires { start ≤ length self.now.pages }
        ensures bound { IfOk result (λ end. end ≤ length self.now.pages) }
        ensures among { AreAmong (take start self.now.pages) all.old.items →
            IfOk result (λ end. AreAmong (take end self.now.pages) all.new.items) }
    {
        let end = self.place_before(tree, start, leaf);
        all.extend_from_slice(&self.pages[start..end])?;
        if self.pages.get(end).copied() != Some(leaf) {
            all.push(leaf)?;
        }
        Ok(end)
    }

    // The place behind those of the pages from a place on that come before a leaf.
    fn place_before(&self, tree: &Tree, start: usize, leaf: PageId) -> usize
        requires { start ≤ length self.now.pages }
        ensures more { start ≤ result }
        ensures bound { result ≤ length self.now.pages }
    {
        let found = self.pages[start..].binary_search_by(|page| by_low_key(tree, leaf, *page));
        match found {
            Ok(count) => start + count,
            Err(count) => start + count,
        }
    }

    // Those of the pages that are among these, which are sorted.
    fn among(&self, sorted: &[PageId]) -> Result<Vec<PageId, Alloc>, Memory> {
        let pages = self
            .pages
            .iter()
            .filter(|page| sorted.binary_search(*page).is_ok())
            .copied()
            .collect::<Vec<PageId, Alloc>>(self.alloc())?;
        Ok(pages)
    }

    // These leaves are due the next time, if they have few pairs then.
    fn mark(&mut self, leaves: &[PageId]) -> Result<(), Memory>
        ensures ok { OnOk result (HasBoth self.old.marked leaves.now self.new.marked) }
        ensures nothing { leaves.now ≡ [] → IsOk result }
        ensures rest { self.new ≡ record self.old { marked = self.new.marked } }
        ensures err { OnErr result (self.new ≡ self.old) }
    {
        if leaves.is_empty() {
            return Ok(());
        }
        self.marked.extend_from_slice(leaves)?;
        self.marked.sort_unstable();
        self.marked.dedup();
        Ok(())
    }

    /// The next page, an inner one, is looked at behind those of its level.
    pub(crate) fn put_off(&mut self, page: PageId) -> Result<(), Memory>
        requires { IsNext self.old.pages page }
        ensures ok { OnOk result (self.old.pages ≡ self.new.pages ++ page ∷ []) }
        ensures above { OnOk result (self.new.above ≡ self.old.above ++ page ∷ []) }
        ensures rest { self.new ≡ record self.old { pages = self.new.pages; above = self.new.above } }
        ensures err { OnErr result (self.new ≡ self.old) }
    {
        self.above.push(page)?;
        self.pages.pop();
        Ok(())
    }

    /// A page is to be merged into its left neighbour. Its first child gets a left neighbour under the same page then, and is
    /// looked at the next time. It costs a search.
    pub(crate) fn mark_later(&mut self, tree: &Tree, page: PageId, level: u32) -> Result<(), Memory>
        ensures { self.new ≡ record self.old { later = self.new.later; moving = self.new.moving } }
    {
        self.moving = None;
        if level == 0 {
            return Ok(());
        }
        let Some(child) = first_below(tree, page, level) else {
            return Ok(());
        };
        if level > 1 {
            return Ok(self.later.push(child)?);
        }
        self.marked.reserve(1)?;
        self.moving = Some(child);
        Ok(())
    }

    /// The next page was looked at.
    pub(crate) fn pass(&mut self)
        ensures pages { (p : ℕ) → IsNext self.old.pages p → self.old.pages ≡ self.new.pages ++ p ∷ [] }
        ensures rest { self.new ≡ record self.old { pages = self.new.pages; begun = self.new.begun } }
    {
        if let Some(page) = self.pages.pop() {
            self.end_leaf(page);
        }
    }

    /// How many pages are due before those above.
    pub(crate) fn len(&self) -> usize
        ensures { result ≡ length self.now.pages }
    {
        self.pages.len()
    }

    /// The next page, where there are more than so many.
    pub(crate) fn next_before(&self, others: usize) -> Option<PageId>
        ensures { MatchOption result (length self.now.pages ≤ others) (IsNextBefore self.now.pages others) }
    {
        if self.pages.len() <= others {
            return None;
        }
        self.pages.last().copied()
    }

    /// Whether the next page is a leaf that was consolidated before tidying stopped: then it is due still.
    pub(crate) fn has_begun(&self, page: PageId) -> bool
        ensures { result ≡ true → IsNext self.now.begun page }
    {
        self.begun.last().copied() == Some(page)
    }

    /// The next page, a leaf, is to be consolidated.
    pub(crate) fn begin_leaf(&mut self, page: PageId) -> Result<(), Memory>
        ensures ok { OnOk result (IsNext self.new.begun page) }
        ensures rest { self.new ≡ record self.old { begun = self.new.begun } }
        ensures err { OnErr result (self.new ≡ self.old) }
    {
        if !self.has_begun(page) {
            self.begun.push(page)?;
        }
        Ok(())
    }

    /// The page, if it is a leaf that was consolidated, need not be merged any more, and where it is to be split it is over a
    /// limit.
    pub(crate) fn end_leaf(&mut self, page: PageId)
        ensures { self.new ≡ record self.old { begun = self.new.begun } }
    {
        if self.has_begun(page) {
            self.begun.pop();
        }
    }

    /// The page whose splits or whose merge may not be finished yet, or whose identifier may be left to be given back.
    pub(crate) fn unfinished(&self) -> Option<PageId>
        ensures { result ≡ self.now.unfinished }
    {
        self.unfinished
    }

    /// The splits or the merge of this page may not be finished yet, or its identifier is left to be given back, or of none.
    pub(crate) fn set_unfinished(&mut self, unfinished: Option<PageId>)
        ensures { self.new ≡ record self.old { unfinished = unfinished } }
    {
        self.unfinished = unfinished;
    }

    /// Splits the next page in two, which are the next ones then, the left one first.
    pub(crate) fn split_next(
        &mut self,
        tree: &mut Tree,
        page: PageId,
        keep: usize,
    ) -> Result<(), Memory>
        requires none { tree.old.staged ≡ None }
        requires page { IsSplittable tree.old page keep }
        requires next { IsNext self.old.pages page }
        ensures ok { OnOk result (IsSplitNext tree.old tree.new self.old.pages self.new.pages page keep) }
        ensures err { OnErr result (tree.new ≡ tree.old) }
        ensures pages { OnErr result (self.new.pages ≡ self.old.pages) }
    {
        self.pages.reserve(1)?;
        let right = tree.set_split(page, keep)?;
        self.pages.pop();
        self.pages.push(right).unwrap();
        self.pages.push(page).unwrap();
        Ok(())
    }

    /// The next page was merged into its left neighbour, and the page above still names it.
    pub(crate) fn pass_merged(&mut self, page: PageId)
        ensures pages { IsNext self.old.pages page → self.old.pages ≡ self.new.pages ++ page ∷ [] }
        ensures above { self.new.above ≡ self.old.above }
        ensures unfinished { self.new.unfinished ≡ Some page }
    {
        self.pages.pop();
        self.end_leaf(page);
        if let Some(leaf) = self.moving.take() {
            // There is room for it.
            let _ = self.marked.push(leaf);
        }
        self.unfinished = Some(page);
    }

    /// Finishes the splits of a page: its right neighbours are named above it, or a root that was split gets one above it. The
    /// page that names them is looked at behind the pages of the levels below it, and so is its right neighbour. After
    /// `Memory` the tree is as before.
    pub(crate) fn finish(&mut self, tree: &mut Tree, page: PageId) -> Result<(), Memory>
        requires { tree.old.staged ≡ None }
        ensures ok { OnOk result (HasFinished tree.old tree.new self.new.above page) }
        ensures rest { self.new ≡ record self.old { above = self.new.above } }
        ensures err { OnErr result (tree.new ≡ tree.old) }
        ensures holds { HoldsAll tree.old tree.new }
        ensures within { KeepsWithin tree.old tree.new self.old.pages self.new.pages }
        ensures pages { self.new.pages ≡ self.old.pages }
    {
        self.above.reserve(2)?;
        let alloc = *self.above.allocator();
        if let Some(parent) = name_rights(tree, alloc, page)? {
            mark(&mut self.above, tree, parent);
            return Ok(());
        }
        tree.know_levels();
        grow_root(tree)?;
        Ok(())
    }

    /// Finishes the merge of a page, if it is a removed one: the page above no longer names it, and its identifier is given
    /// back, if nothing else leads to it, and then that of a removed page to which it alone still led. The page above is looked
    /// at behind the pages of the levels below it, and so is its right neighbour. After `Memory` the merge may be unfinished,
    /// or identifiers are left that may be given back: tidying goes on at the page that is unfinished then, if it was this one.
    pub(crate) fn finish_merge(&mut self, tree: &mut Tree, page: PageId) -> Result<(), Memory>
        requires { tree.old.staged ≡ None }
        ensures holds { HoldsAll tree.old tree.new }
        ensures within { KeepsWithin tree.old tree.new self.old.pages self.new.pages }
        ensures pages { self.new.pages ≡ self.old.pages }
        ensures rest { self.new ≡ record self.old { above = self.new.above; unfinished = self.new.unfinished } }
        ensures ok { OnOk result (self.new.unfinished ≡ self.old.unfinished) }
        ensures unnamed { OnOk result (HasNoNamerOfRemoved tree.new page) }
        ensures none { OnOk result (IsLeftOut tree.old tree.new page) }
        ensures err { self.old.unfinished ≡ Some page →
            OnErr result (MatchOption self.new.unfinished ⊥ (IsLeftToFinish tree.old tree.new page)) }
    {
        self.above.reserve(2)?;
        tree.know_levels();
        let Some(parent) = tree.namer_of_removed(page) else {
            return self.release_from(tree, page);
        };
        finish_absorb(tree, page)?;
        mark(&mut self.above, tree, parent);
        self.release_from(tree, page)
    }

    /// Gives the identifier of a page back, if nothing leads to it, and then that of a removed page to which it alone still led,
    /// and so on. After `Memory` the page at which it stopped is unfinished.
    pub(crate) fn release_from(&mut self, tree: &mut Tree, page: PageId) -> Result<(), Memory>
        requires { tree.old.staged ≡ None }
        ensures freed { AreFreed tree.old tree.new }
        ensures pages { self.new.pages ≡ self.old.pages }
        ensures rest { self.new ≡ record self.old { unfinished = self.new.unfinished } }
        ensures ok { OnOk result (self.new ≡ self.old) }
        ensures none { OnOk result (IsLeftOut tree.old tree.new page) }
        ensures err { OnErr result (MatchOption self.new.unfinished ⊥ (IsLeftToFree tree.old tree.new page)) }
    {
        let mut next = page;
        let released = release_run(tree, &mut next);
        if released.is_err() {
            self.unfinished = Some(next);
        }
        released
    }
}
