// What is read of a tree: scans by `Scans`, and the rest each by the call of that name on a `Look` at it.
ghost use Rattle.std.specs.Prelude.{◌≡◌, ℕ, ◌+◌, ◌<◌, ◌≤◌, ◌^◌, [], true, None, Some, length, slice_get, slice_index};
ghost use Rattle.std.specs.Prelude.{Decides, IfOk, IfSome, MatchOption, map, slice_index_or};
ghost use Rattle.std.specs.List.{AllByRecursion, Contains};
ghost use Rattle.std.specs.Option.{option_copied};
ghost use Rattle.std.specs.FinMap.{get};
ghost use Rattle.bw_delta.specs.History.{HasDistinctStamps};
ghost use Rattle.bw_chain.specs.LeafChains.{IsLeafChain};
ghost use Rattle.bw_level.specs.Before.{low_at, removed_at};
ghost use Rattle.bw_level.specs.Entries.{AreExact};
ghost use Rattle.bw_level.specs.Freeing.{IsUnreached};
ghost use Rattle.bw_level.specs.Levels.{AreLevels, IsHome, IsHomeAt, row};
ghost use Rattle.bw_level.specs.Reading.{pairs_under, row_writes, writes_over};
ghost use Rattle.bw_level.specs.Scans.{high_of};
ghost use Rattle.bw_level.specs.Searches.{AllStand, IsInLevels};
ghost use Rattle.bw_level.specs.Slots.{Free, is_leaf, side_of, slot_at};
ghost use Rattle.bw_level.specs.Splits.{slot_child, slot_entries};

use super::Tree;
use bw_chain::LeafChain;
use bw_delta::Write;
use bw_key::{Key, Memory};
use bw_look::{Look, PageShape, Staged, Unnamed};
use bw_memory::Alloc;
use bw_model::{Pairs, Value};
use bw_page::{Leaf, Page, PageId, RemovedPage};
use bw_scan::Scans;

impl Tree {
    ghost use Rattle.bw_look.specs.Unnamed.{HasNoUnnamed, IsUnnamed};
    ghost use Rattle.bw_look.specs.RemovedPages.{HasEachRemoved};
    ghost use Rattle.bw_look.specs.RemovedPages.{HasNoNamerOfRemoved, IsNamerOfRemoved};
    ghost use Rattle.bw_look.specs.Folding.{spare_of};
    ghost use Rattle.bw_look.specs.PageStates.{HasNoLeft, HasNoNamer, IsLeft, IsNamer, IsPlain, IsState, leaf_as_of};
    ghost use Rattle.bw_look.specs.Routing.{IsInLevel, IsInNoLevel};
    ghost use Rattle.bw_look.specs.Shapes.{pairs_on, shape_of};
    ghost use Rattle.bw_look.specs.StagedBatches.{IsStagedAs};
    ghost use Rattle.bw_look.specs.Trees.{ArePlaced};
    ghost use Rattle.bw_look.specs.View.{ArePairsUnder, HomeIsOneIn, HomesHoldAll, LeavesHaveDistinctStamps};
    ghost use Rattle.bw_look.specs.View.{contents_at, first_pairs, last_pairs, staged_writes};

    /// The tree, lent to be read.
    pub fn look(&self) -> Look<'_>
        ensures { result ≡ self.now }
    {
        Look::new(
            &self.heads,
            &self.chains,
            self.root,
            self.next,
            &self.staged,
        )
    }

    /// The one leaf of the leaf level whose range has the key.
    ///
    /// A search goes down from the root by the greatest separator that isn't above the key, left from a removed page,
    /// and right past the end of a page that was split (B-link trees): for each page a binary search and a walk along the
    /// whole chain, which is as long as there are records over the page. It takes no memory.
    pub fn route(&self, key: &Key) -> PageId
        ensures home { IsHome self.now.slots self.now.levels key.now result }
        ensures only { (page : ℕ) → IsHome self.now.slots self.now.levels key.now page → page ≡ result }
        ensures there { result < length self.now.heads }
        ensures leaf { is_leaf (slot_at self.now.slots result) ≡ true }
    {
        self.look().route(key)
    }

    /// The page of a level whose range has the key, the leaves' level being 0, or none where the tree has no such level: the
    /// search is that of `route`, and ends there. It takes no memory.
    pub fn above(&self, level: u32, key: &Key) -> Option<PageId>
        ensures { MatchOption result (length self.now.levels ≤ level)
            (IsHomeAt self.now.slots self.now.levels key.now level) }
    {
        self.look().above(level, key)
    }

    /// The level on which a page stands, the leaves' being 0, or none where it stands on no level. It is a look at the page's
    /// base page, and takes no memory.
    pub fn in_level(&self, page: PageId) -> Option<u32>
        ensures level { MatchOption result (IsInNoLevel self.now page) (IsInLevel self.now page) }
        ensures there { IfSome result (λ level. page < length self.now.heads) }
    {
        self.look().in_level(page)
    }

    /// The right neighbour of a page of a level, if it has one. It costs a walk along the page's chain, and takes no memory.
    pub fn right_of(&self, page: PageId) -> Option<PageId>
        requires { IsInLevels self.now.levels page }
        ensures { result ≡ side_of self.now.slots page }
    {
        self.look().right_of(page)
    }

    /// Whether a page is a base page by itself, with no record over it. An identifier that was never given out names none. It
    /// is a look at the page's mapping word.
    pub fn is_plain(&self, page: PageId) -> bool
        ensures { Decides result (IsPlain self.now page) }
    {
        self.look().is_plain(page)
    }

    /// The key at which a page begins, or none for a free identifier, a removed page, and one that was never given out. It is
    /// a look at the page's base page, and takes no memory.
    pub fn low_key(&self, page: PageId) -> Option<&Key>
        ensures { option_copied result ≡ low_at (slot_at self.now.slots page) }
    {
        self.look().low_key(page)
    }

    /// The left neighbour of a page, whose side link leads to it, or none for the first page of a level and for a page of no
    /// level. It costs a search for what lies before the key at which the page begins, and takes no memory.
    pub fn left_of(&self, page: PageId) -> Option<PageId>
        ensures { MatchOption result (HasNoLeft self.now page) (IsLeft self.now page) }
    {
        self.look().left_of(page)
    }

    /// The page of the level above that names a page: that has an index entry for it, at the key where it begins. It is none
    /// for a page that isn't named yet, as the right part of a split that isn't finished, on the root's level, and for a page
    /// of no level. It costs a search for that key, and one more among the separators of the page above. It takes no memory.
    pub fn namer(&self, page: PageId) -> Option<PageId>
        ensures { MatchOption result (HasNoNamer self.now page) (IsNamer self.now page) }
    {
        self.look().namer(page)
    }

    /// The state of a page as of a stamp: a leaf with the writes below the stamp applied, or an inner page as its chain makes
    /// it, each with its range and side link. It is none for a page of no level: a free identifier, or a removed page. The
    /// writes of an adopted batch stand over their leaves, and those of a staged one don't yet.
    ///
    /// It costs a walk along the page's chain and a copy of its entries, and for a leaf the sorting of its writes. `Memory` is
    /// answered where a list or a copy finds none.
    pub fn state(&self, page: PageId, stamp: u64) -> Result<Option<Page>, Memory>
        ensures { IfOk result (λ state.
            MatchOption state (IsInNoLevel self.now page) (IsState self.now page stamp)) }
    {
        self.look().state(page, stamp)
    }

    /// The pages of all levels, the lowest level first, each level in the order of keys.
    ///
    /// It is a picture for people and tests, and not for the hot path. It costs a search for each level, and for each page
    /// some walks along its chain and copies of its bounds. Of a leaf it sorts the writes and copies all pairs too, and of
    /// an inner page its children. The writes of an adopted batch are listed over their leaves, and count among the pairs
    /// once the batch is accepted. `Memory` is answered where a list or a copy finds none.
    pub fn shape(&self) -> Result<Vec<PageShape, Alloc>, Memory>
        ensures { IfOk result (λ shape. shape.items ≡ shape_of self.now) }
    {
        self.look().shape()
    }

    /// A leaf has no more pairs than its base page and the writes over it together. It does nothing: its contract says it.
    pub fn know_pairs(&self)
        ensures { (p : ℕ) → Contains (row self.now.levels 0) p → pairs_on self.now (slot_at self.now.slots p)
            ≤ length (pairs_under (slot_at self.now.slots p)) + length (writes_over (slot_at self.now.slots p)) }
    {
        self.look().know_pairs();
    }

    /// The level of the root: 0 where it is a leaf, and one more for each level above the leaves.
    pub fn root_level(&self) -> u32
        ensures { result + 1 ≡ length self.now.levels }
    {
        self.look().root_level()
    }

    /// The pages of a level, in the order of keys. It costs a search, and for each page a walk along its chain. `Memory` is
    /// answered where the list finds none.
    pub fn level_pages(&self, level: u32) -> Result<Vec<PageId, Alloc>, Memory>
        requires { level < length self.now.levels }
        ensures { IfOk result (λ pages. pages.items ≡ row self.now.levels level) }
    {
        self.look().level_pages(level)
    }

    /// The value at a key as of a stamp: what the writes below the stamp leave of the value on the key's base page.
    ///
    /// Of the chain of the key's leaf it sorts the writes to the key, and copies the one value that it answers.
    /// `Memory` is answered where the list or the copy finds none.
    pub fn value_at(&self, key: &Key, stamp: u64) -> Result<Option<Value>, Memory>
        ensures { IfOk result (λ value. value ≡ get (contents_at self.now stamp) key.now) }
    {
        self.look().value_at(key, stamp)
    }

    /// All that is read of a leaf: its writes, its base page, where its range ends, and its right neighbour. It costs one
    /// walk along the leaf's chain. Memory is taken for the list of the writes alone, and none where the leaf has none.
    /// `Memory` is answered where the list finds none.
    pub fn leaf(&self, alloc: Alloc, page: PageId) -> Result<LeafChain<'_>, Memory>
        requires { Contains (row self.now.levels 0) page }
        ensures leaf { IfOk result (IsLeafChain (slot_at self.now.slots page)) }
        ensures values { IfOk result (λ leaf. ArePairsUnder self.now page leaf.base.now.pairs) }
    {
        self.look().leaf(alloc, page)
    }

    /// Reads what a search of a leaf is about to read: up to 16 of the newest records of its chain, and up to 40 keys of its
    /// base page. Whoever does so for some leaves before it searches the first of them waits for their memory once, and not
    /// for one leaf after another. It takes no memory.
    ///
    /// What is answered is made of what was read, and says nothing. The compiler drops reads of which nothing is used, so
    /// callers use it as a guess that may be any number.
    pub fn prefetch(&self, page: PageId) -> usize {
        self.look().prefetch(page)
    }

    /// Where a leaf's range ends: a walk along its chain.
    pub fn end(&self, page: PageId) -> Option<&Key>
        requires { Contains (row self.now.levels 0) page }
        ensures { option_copied result ≡ high_of (slot_at self.now.slots page) }
    {
        self.look().end(page)
    }

    /// The first pairs of a range of keys as of a stamp, in the order of their keys: those from `from` on and below
    /// `to`, and no more than `most` of them.
    ///
    /// From the leaf of `from` on it reads leaf after leaf, each of which it searches for, until there are enough pairs or a leaf
    /// ends the range. The writes of a leaf below the stamp have their effects beside it, whatever `most` is; `Scans` does
    /// so once for many scans. Memory is taken for the pairs that are answered and, for one leaf with writes at a time, for
    /// lists of the writes and for a map of the keys that they changed, and none by `most`. `Memory` is answered where a
    /// list, a map or a copy finds none.
    pub fn scan_at(
        &self,
        from: &Key,
        to: Option<&Key>,
        most: u64,
        stamp: u64,
    ) -> Result<Pairs, Memory>
        ensures { IfOk result (λ pairs. pairs ≡ first_pairs self.now from.now (option_copied to.entry) most stamp) }
    {
        let mut scans = Scans::once(*self.heads.allocator(), self.look());
        scans.scan(from, to, most, stamp)
    }

    /// The last pairs of a range of keys as of a stamp, the greatest key first: those from `from` on and below `to`,
    /// and no more than `most` of them.
    ///
    /// From the leaf that has the last of the range on it reads leaf after leaf back, until there are enough pairs or a
    /// leaf begins the range. Side links lead to the right alone, so it searches for each leaf from the root. Else the
    /// costs are those of `scan_at`. `Memory` is answered where a list, a map or a copy finds none.
    pub fn rscan_at(
        &self,
        from: &Key,
        to: Option<&Key>,
        most: u64,
        stamp: u64,
    ) -> Result<Pairs, Memory>
        ensures { IfOk result (λ pairs. pairs ≡ last_pairs self.now from.now (option_copied to.entry) most stamp) }
    {
        let mut scans = Scans::once(*self.heads.allocator(), self.look());
        scans.scan_back(from, to, most, stamp)
    }

    /// How many entries a page has under its writes: the pairs of a leaf, or the children of an inner page. It costs a walk
    /// along the page's chain and, where the page was split or given a child, a binary search. It takes no memory.
    pub fn entries(&self, page: PageId) -> usize
        requires { page < length self.now.heads }
        ensures { result ≡ slot_entries (slot_at self.now.slots page) }
    {
        self.look().entries(page)
    }

    /// The child at a place among those of an inner page that is a base page by itself, or none for a leaf and behind the last
    /// one. It takes no memory.
    pub fn child_at(&self, page: PageId, place: usize) -> Option<PageId>
        requires { IsPlain self.now page }
        ensures { result ≡ slot_child place (slot_at self.now.slots page) }
    {
        self.look().child_at(page, place)
    }

    /// How many writes a page has over its base page; an inner page has none. It costs a walk along the page's chain, and
    /// takes no memory.
    pub fn count_writes(&self, page: PageId) -> usize
        requires { page < length self.now.heads }
        ensures { result ≡ length (writes_over (slot_at self.now.slots page)) }
    {
        self.look().count_writes(page)
    }

    /// A leaf as of a stamp: one walk along its chain, the sorting of its writes, and a copy of its pairs. `Memory` is answered
    /// where a list or a copy finds none.
    pub fn leaf_as_of(&self, page: PageId, stamp: u64) -> Result<Leaf, Memory>
        requires { Contains (row self.now.levels 0) page }
        ensures { IfOk result (λ leaf. leaf ≡ leaf_as_of self.now page stamp) }
    {
        self.look().leaf_as_of(page, stamp)
    }

    /// For each page the word that may take the place of its mapping word while a batch is posted: the number of its base
    /// page, where it is a leaf with at least half as many writes as a chain may have, rounded up, and one at least. It costs
    /// a walk along the chain of each page. `Memory` is answered where the list finds none.
    pub fn spare(&self, chain_max: u64) -> Result<Vec<Option<u64>, Alloc>, Memory>
        ensures pages { IfOk result (λ spares. length spares.items ≡ length self.now.heads) }
        ensures spares { IfOk result (λ spares. (p : ℕ) → p < length self.now.heads →
            slice_index_or spares.items p None ≡ spare_of self.now chain_max p) }
    {
        self.look().spare(chain_max)
    }

    /// The same for these pages alone, in their order.
    pub fn spare_on(
        &self,
        pages: &[PageId],
        chain_max: u64,
    ) -> Result<Vec<Option<u64>, Alloc>, Memory>
        requires { AllByRecursion (λ p. p < length self.now.heads) pages.now }
        ensures { IfOk result (λ spares. spares.items ≡ map (spare_of self.now chain_max) pages.now) }
    {
        self.look().spare_on(pages, chain_max)
    }

    /// The right neighbour of a page of a level, if it has one that the level above doesn't name yet: where the key at which
    /// it begins is at home on a page that doesn't name it at that key. It is none on the root's level, which has no level
    /// above.
    ///
    /// It costs a walk along the page's chain, a search for the key, and one more among the separators of the page above. It
    /// takes no memory.
    pub fn unnamed_right(&self, page: PageId) -> Option<Unnamed<'_>>
        requires { IsInLevels self.now.levels page }
        ensures { MatchOption result (HasNoUnnamed self.now page)
            (λ u. IsUnnamed self.now page u.parent u.sep.now u.page) }
    {
        self.look().unnamed_right(page)
    }

    /// Whether an identifier is free, as one that was never given out. It costs two looks at the base page, and takes no memory.
    pub fn is_free(&self, page: PageId) -> bool
        ensures { Decides result (slot_at self.now.slots page ≡ Free) }
    {
        self.look().is_free(page)
    }

    /// Whether nothing leads to a page: it stands on no level, no page of a level has an index entry for it, and it is no
    /// removed page's left neighbour. For a page of no level it costs a look at each removed page whose identifier isn't given
    /// back, and for a removed one a search. It takes no memory.
    pub fn is_unreached(&self, page: PageId) -> bool
        ensures { Decides result (IsUnreached self.now.slots self.now.levels page) }
    {
        self.look().is_unreached(page)
    }

    /// The removed pages whose identifiers aren't given back, and some whose identifiers were. It costs a list of them, for
    /// which `Memory` is answered where it finds none.
    pub fn removed_pages(&self) -> Result<Vec<PageId, Alloc>, Memory>
        ensures { IfOk result (λ pages. HasEachRemoved self.now.slots pages.items) }
    {
        self.look().removed_pages()
    }

    /// What is left of a page that was removed, or none for another page, a free identifier and one that was never given out.
    /// It is a look at its base page, and takes no memory.
    pub fn removed(&self, page: PageId) -> Option<&RemovedPage>
        ensures { option_copied result ≡ removed_at (slot_at self.now.slots page) }
    {
        self.look().removed(page)
    }

    /// The page of the level above that still names a page which was removed, as after a merge that isn't finished: at the key
    /// where the removed page began. It is none where no page names it, and for a page that isn't a removed one. It costs a
    /// search for that key, and one more among the separators of the page above. It takes no memory.
    pub fn namer_of_removed(&self, page: PageId) -> Option<PageId>
        ensures { MatchOption result (HasNoNamerOfRemoved self.now page) (IsNamerOfRemoved self.now page) }
    {
        self.look().namer_of_removed(page)
    }

    /// The batch that is staged, if one is.
    pub fn staged(&self) -> Option<Staged>
        ensures { MatchOption result (self.now.staged ≡ None) (IsStagedAs self.now) }
    {
        self.look().staged()
    }

    /// The write of a staged record, by its place among them.
    pub fn staged_write(&self, place: u64) -> &Write
        requires { place < length (staged_writes self.now.staged) }
        ensures { slice_get (staged_writes self.now.staged) place ≡ Some result.now }
    {
        self.look().staged_write(place)
    }

    /// What every tree keeps: a key has one home, what the tree holds at a key is what its home holds there, and no two
    /// writes over a leaf have one stamp. A caller's proof knows it behind this call, which does nothing.
    pub fn know_homes(&self)
        ensures one { HomeIsOneIn self.now }
        ensures values { HomesHoldAll self.now }
        ensures distinct { LeavesHaveDistinctStamps self.now }
    {
        self.look().know_homes();
    }

    /// What every tree keeps of its levels: they are lawful, and no two writes over the leaves have one stamp. A caller's
    /// proof knows it behind this call, which does nothing.
    pub fn know_levels(&self)
        ensures lawful { AreLevels self.now.slots self.now.root self.now.levels }
        ensures distinct { HasDistinctStamps (row_writes self.now.slots (row self.now.levels 0)) }
    {
        self.look().know_levels();
    }

    /// What every tree keeps of its index entries: each names the page of the level below that begins at its separator, or a
    /// removed page, with which no page begins, and none names a page that another one names. So once the entry at the key
    /// where a page begins is gone, no separator names the page, which is what giving its identifier back asks. A caller's
    /// proof knows it behind this call, which does nothing.
    pub fn know_entries(&self)
        ensures { AreExact self.now.slots self.now.levels }
    {
        self.look().know_entries();
    }

    /// What every tree keeps of its pages and their mapping words: a page of a level has one, each page stands on a level, and
    /// so does one that has records, one that has none has no writes, and each page has an identifier of 32 bits. A caller's
    /// proof knows it behind this call, which does nothing.
    pub fn know_records(&self)
        ensures stand { AllStand self.now.slots self.now.levels }
        ensures there { (p : ℕ) → IsInLevels self.now.levels p → p < length self.now.heads }
        ensures placed { ArePlaced self.now.heads self.now.levels }
        ensures bare { (p : ℕ) → slice_index self.now.heads p < 2 ^ 32 → writes_over (slot_at self.now.slots p) ≡ [] }
        ensures slots { length self.now.slots ≡ length self.now.heads }
        ensures few { length self.now.heads ≤ 2 ^ 32 }
    {
        self.look().know_records();
    }
}
