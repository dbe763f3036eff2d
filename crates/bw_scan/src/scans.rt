// Scans of a tree.
ghost use Rattle.std.specs.Prelude.{◌≡◌, ◌≤◌, ◌++◌, [], true, false, T, reverse, take, filter, IfOk, IfSome, OnOk};
ghost use Rattle.std.specs.List.{Contains};
ghost use Rattle.std.specs.Option.{option_copied};
ghost use Rattle.std.specs.FinMap.{is_sorted};
ghost use Rattle.bw_key.specs.Order.{key_cmp};
ghost use Rattle.bw_model.specs.Contents.{is_below_end, is_pair_in_range, pairs_of_range};
ghost use Rattle.bw_level.specs.Slots.{Slot, slot_at};
ghost use Rattle.bw_level.specs.Before.{IsBefore, low_of};
ghost use Rattle.bw_level.specs.Levels.{IsHome, row};
ghost use Rattle.bw_scan.specs.Replaying.{EndsBefore, HasNoPairs, IsKept, IsReadLeaf, filled, in_order, pairs_on, wanted_on};
ghost use Rattle.bw_scan.specs.Cursors.{HasRead};
ghost use Rattle.bw_look.specs.View.{contents_at, first_pairs, last_pairs};

use bw_delta::Replay;
use bw_key::{Key, Memory};
use bw_level::{lower_end, reaches};
use bw_look::Look;
use bw_memory::Alloc;
use bw_model::{Pairs, is_below};
use bw_page::PageId;
use std::collections::BTreeMap;
use std::marker::Model;

mod gaps;

use gaps::Gap;

/// Scans of a tree, one after another, each as of a stamp of its own.
///
/// Each leaf that was read is kept, and a later scan goes on from the stamp of the one before it. Its pairs are read where
/// they stand, and what its writes made of some of them is kept beside it, or among a copy of its pairs where it is much. So
/// with stamps that rise, each write of a leaf has its effect once for all scans, and its chain is walked a fixed number of
/// times, however many scans read it. A scan of leaves that are kept costs a few searches for each of them, among those that
/// are kept and among its pairs, one for each key in its range whose change is kept beside the pairs, up to eight and an eighth
/// of these, and a copy of what it answers. Leaves side by side without a pair are passed at once by
/// later scans, until one of them is written to. At a stamp that falls the writes of a leaf have their effects again. What was
/// kept stays in memory.
pub struct Scans<'a> {
    tree: Look<'a>,
    alloc: Alloc,
    // whether leaves are kept from scan to scan
    keeps: bool,
    // the leaves that were read, each as of the last scan that read it
    leaves: BTreeMap<PageId, ReadLeaf<'a>, Alloc>,
    // and by the keys that they begin at
    pages: BTreeMap<Key, PageId, Alloc>,
    // ranges without pairs, by a page that lies there
    gaps: BTreeMap<PageId, Gap, Alloc>,
}

// Not derived: whoever drops one calls this, and its proof is spared the parts.
impl Drop for Scans<'_> {
    fn drop(self) {
        let Scans {
            tree: _tree,
            alloc: _alloc,
            keeps: _keeps,
            leaves: _leaves,
            pages: _pages,
            gaps: _gaps,
        } = self;
    }
}

/// A leaf that was read: where its range lies, and its pairs.
#[derive(Drop)]
pub(crate) struct ReadLeaf<'a> {
    pub(crate) low: &'a Key,
    pub(crate) end: Option<&'a Key>,
    pub(crate) replay: Replay<'a>,
}

impl<'a> ReadLeaf<'a> {
    /// What a scan reads of a leaf: its bounds, and its pairs as of stamp 0, which go on to later stamps.
    pub(crate) fn new(tree: &Look<'a>, alloc: Alloc, page: PageId) -> Result<ReadLeaf<'a>, Memory>
        requires { Contains (row tree.now.levels 0) page }
        ensures stamp { IfOk result (λ leaf. leaf.replay.stamp ≡ 0) }
        ensures leaf { IfOk result (IsReadLeaf (slot_at tree.now.slots page)) }
    {
        tree.know_homes();
        let leaf = tree.leaf(alloc, page)?;
        let replay = leaf.replay(alloc)?;
        Ok(ReadLeaf {
            low: leaf.base.low(),
            end: leaf.end,
            replay,
        })
    }

    // The leaf with its pairs as of a stamp that isn't below theirs.
    pub(crate) fn as_of(self, stamp: u64) -> Result<ReadLeaf<'a>, Memory>
        requires { self.replay.stamp ≤ stamp }
        ensures stamp { IfOk result (λ leaf. leaf.replay.stamp ≡ stamp) }
        ensures leaf { IfOk result (λ leaf. (slot : Slot) → IsReadLeaf slot self.entry → IsReadLeaf slot leaf) }
    {
        let ReadLeaf { low, end, replay } = self;
        let replay = replay.advance(stamp)?;
        Ok(ReadLeaf { low, end, replay })
    }
}

/// The order in which a scan reads.
#[derive(Clone, Copy)]
pub(crate) enum Order {
    Rising,
    Falling,
}

/// How a scan reads: in this order, until there are so many pairs, as of a stamp.
#[derive(Clone, Copy)]
pub(crate) struct Scan {
    order: Order,
    most: u64,
    stamp: u64,
}

impl<'a> Model for Scans<'a> {
    ghost use Rattle.bw_scan.specs.Replaying.{AreScans, ScansView};

    ghost Value = { ScansView };

    ghost view = { λ s. record { tree = s.tree } };

    ghost invariant = { λ s. AreScans s.tree s.leaves s.gaps };
}

impl<'a> Scans<'a> {
    /// No scan yet. It takes no memory.
    pub fn new(alloc: Alloc, tree: Look<'a>) -> Scans<'a>
        ensures { result.tree ≡ tree.entry }
    {
        Scans {
            tree,
            alloc,
            keeps: true,
            leaves: BTreeMap::new(alloc),
            pages: BTreeMap::new(alloc),
            gaps: BTreeMap::new(alloc),
        }
    }

    /// One scan that keeps no leaf behind it. It takes no memory.
    pub fn once(alloc: Alloc, tree: Look<'a>) -> Scans<'a>
        ensures { result.tree ≡ tree.entry }
    {
        Scans {
            tree,
            alloc,
            keeps: false,
            leaves: BTreeMap::new(alloc),
            pages: BTreeMap::new(alloc),
            gaps: BTreeMap::new(alloc),
        }
    }

    /// The first pairs of a range of keys as of a stamp, in the order of their keys: those from `from` on and below `to`, and
    /// no more than `most` of them.
    ///
    /// From the leaf of `from` on it reads leaf after leaf, until there are enough pairs or a leaf ends the range. It searches
    /// for each leaf that isn't kept. `Memory` is answered where a list, a map or a copy finds none; further scans can be made.
    pub fn scan(
        &mut self,
        from: &Key,
        to: Option<&Key>,
        most: u64,
        stamp: u64,
    ) -> Result<Pairs, Memory>
        ensures tree { self.new.tree ≡ self.old.tree }
        ensures pairs { IfOk result (λ pairs. pairs
            ≡ first_pairs self.old.tree from.now (option_copied to.entry) most stamp) }
    {
        let read = Pairs::new(self.alloc);
        if asks_for_none(from, to, most) {
            return Ok(read);
        }
        self.scan_on(from, from, to, most, stamp, read)
    }

    /// The first pairs of a range of keys as of a stamp, of which those below a key were read. `Memory` is answered as by
    /// `scan`.
    pub(crate) fn scan_on(
        &mut self,
        from: &Key,
        start: &Key,
        to: Option<&Key>,
        most: u64,
        stamp: u64,
        read: Pairs,
    ) -> Result<Pairs, Memory>
        requires { let all = pairs_of_range (contents_at self.old.tree stamp) from.now (option_copied to) in
            HasRead all most read from.now start.now }
        ensures tree { self.new.tree ≡ self.old.tree }
        ensures pairs { IfOk result (λ pairs. pairs
            ≡ first_pairs self.old.tree from.now (option_copied to.entry) most stamp) }
    {
        self.tree.know_levels();
        let mut read = read;
        let mut at = start;
        let mut before = None;
        loop {
            let page = self.route(at);
            let count = read.len();
            let Some(end) = self.read_leaf(page, at, to, most, stamp, &mut read)? else {
                return Ok(read);
            };
            if read.len() as u64 >= most {
                return Ok(read);
            }
            let Some(end) = self.skip(page, before, end, read.len() > count, stamp)? else {
                return Ok(read);
            };
            if !is_below(end, to) {
                return Ok(read);
            }
            before = Some(page);
            at = end;
        }
    }

    /// The last pairs of a range of keys as of a stamp, the greatest key first: those from `from` on and below `to`, and no
    /// more than `most` of them.
    ///
    /// From the leaf that has the last of the range on it reads leaf after leaf back, until there are enough pairs or a leaf
    /// begins the range. Side links lead to the right alone, so it searches from the root for each leaf that isn't kept.
    /// `Memory` is answered as by `scan`.
    pub fn scan_back(
        &mut self,
        from: &Key,
        to: Option<&Key>,
        most: u64,
        stamp: u64,
    ) -> Result<Pairs, Memory>
        ensures tree { self.new.tree ≡ self.old.tree }
        ensures pairs { IfOk result (λ pairs. pairs
            ≡ last_pairs self.old.tree from.now (option_copied to.entry) most stamp) }
    {
        let mut read = Pairs::new(self.alloc);
        if asks_for_none(from, to, most) {
            return Ok(read);
        }
        let mut end = to;
        let mut behind = None;
        loop {
            let page = self.route_before(end);
            let count = read.len();
            let low = self.read_leaf_back(page, from, end, most, stamp, &mut read)?;
            if read.len() as u64 >= most {
                return Ok(read);
            }
            let low = self.skip_back(page, behind, low, read.len() > count, stamp)?;
            if *low <= *from {
                return Ok(read);
            }
            behind = Some(page);
            end = Some(low);
        }
    }

    // Adds the pairs of a range that lie on a leaf, as of a stamp, until there are so many in all. It answers where the leaf's
    // range ends, if it doesn't reach the end of this one.
    fn read_leaf(
        &mut self,
        page: PageId,
        from: &Key,
        to: Option<&Key>,
        most: u64,
        stamp: u64,
        read: &mut Pairs,
    ) -> Result<Option<&'a Key>, Memory>
        requires { Contains (row self.old.tree.levels 0) page }
        ensures tree { self.new.tree ≡ self.old.tree }
        ensures read { let there = pairs_on self.old.tree stamp from.now (option_copied to.entry) page in
            OnOk result (read.new ≡ filled most read.old there) }
        ensures end { IfOk result (EndsBefore (slot_at self.old.tree.slots page) (option_copied to.entry)) }
    {
        self.tree.know_levels();
        let order = Order::Rising;
        let scan = Scan { order, most, stamp };
        let leaf = self.read_pairs(scan, page, from, to, read)?;
        let end = if reaches(leaf.end, to) {
            None
        } else {
            leaf.end
        };
        self.keep(page, leaf)?;
        Ok(end)
    }

    // The same of the last pairs, the greatest key first. It answers where the leaf's range begins.
    fn read_leaf_back(
        &mut self,
        page: PageId,
        from: &Key,
        to: Option<&Key>,
        most: u64,
        stamp: u64,
        read: &mut Pairs,
    ) -> Result<&'a Key, Memory>
        requires { Contains (row self.old.tree.levels 0) page }
        ensures tree { self.new.tree ≡ self.old.tree }
        ensures read { let there = pairs_on self.old.tree stamp from.now (option_copied to.entry) page in
            OnOk result (read.new ≡ filled most read.old (reverse there)) }
        ensures low { IfOk result (λ low. low.now ≡ low_of (slot_at self.old.tree.slots page)) }
    {
        let order = Order::Falling;
        let scan = Scan { order, most, stamp };
        let leaf = self.read_pairs(scan, page, from, to, read)?;
        let low = leaf.low;
        self.keep(page, leaf)?;
        Ok(low)
    }

    // The same in the order of a scan. It answers the leaf, which is no longer kept.
    fn read_pairs(
        &mut self,
        scan: Scan,
        page: PageId,
        from: &Key,
        to: Option<&Key>,
        read: &mut Pairs,
    ) -> Result<ReadLeaf<'a>, Memory>
        requires { Contains (row self.old.tree.levels 0) page }
        ensures tree { self.new.tree ≡ self.old.tree }
        ensures read { let there = wanted_on self.old.tree scan from.now (option_copied to.entry) page in
            OnOk result (read.new ≡ filled scan.most read.old there) }
        ensures leaf { IfOk result (IsReadLeaf (slot_at self.old.tree.slots page)) }
    {
        self.tree.know_levels();
        let left = scan.most.saturating_sub(read.len() as u64);
        let leaf = self.take_leaf(page, scan.stamp)?;
        let end = lower_end(leaf.end, to);
        add_pairs(&leaf.replay, scan.order, from, end, left, read)?;
        Ok(leaf)
    }

    // The leaf whose range has a key: one that is kept, or else the tree's route.
    fn route(&self, key: &Key) -> PageId
        ensures { IsHome self.now.tree.slots self.now.tree.levels key.now result }
    {
        match self.kept_home(key) {
            Some(page) => page,
            None => self.tree.route(key),
        }
    }

    // The same among those that are kept.
    fn kept_home(&self, key: &Key) -> Option<PageId>
        ensures { IfSome result (IsHome self.now.tree.slots self.now.tree.levels key.now) }
    {
        self.tree.know_levels();
        let (_, page) = self.pages.range(..=key).next_back()?;
        let leaf = self.leaves.get(page)?;
        if *key < *leaf.low || !is_below(key, leaf.end) {
            return None;
        }
        Some(*page)
    }

    // The leaf whose range has the keys right below an end: one that is kept, or else the tree's.
    fn route_before(&self, end: Option<&Key>) -> PageId
        requires { T (is_below_end (option_copied end) []) }
        ensures { IsBefore self.now.tree.slots self.now.tree.levels (option_copied end.entry) result }
    {
        match self.kept_before(end) {
            Some(page) => page,
            None => self.tree.route_before(end),
        }
    }

    // The same among those that are kept.
    fn kept_before(&self, end: Option<&Key>) -> Option<PageId>
        ensures { IfSome result (IsBefore self.now.tree.slots self.now.tree.levels (option_copied end.entry)) }
    {
        self.tree.know_levels();
        let last = match end {
            Some(end) => self.pages.range(..end).next_back()?,
            None => self.pages.last_key_value()?,
        };
        let page = *last.1;
        let leaf = self.leaves.get(&page)?;
        if !is_below(leaf.low, end) || !reaches(leaf.end, end) {
            return None;
        }
        Some(page)
    }

    // Keeps a leaf for the next scan.
    fn keep(&mut self, page: PageId, leaf: ReadLeaf<'a>) -> Result<(), Memory>
        requires { IsKept self.old.tree page leaf }
        ensures { self.new.tree ≡ self.old.tree }
    {
        if self.keeps {
            self.leaves.insert(page, leaf)?;
        }
        Ok(())
    }

    // A leaf with its pairs as of a stamp, which is no longer kept.
    fn take_leaf(&mut self, page: PageId, stamp: u64) -> Result<ReadLeaf<'a>, Memory>
        requires { Contains (row self.old.tree.levels 0) page }
        ensures tree { self.new.tree ≡ self.old.tree }
        ensures stamp { IfOk result (λ leaf. leaf.replay.stamp ≡ stamp) }
        ensures leaf { IfOk result (IsReadLeaf (slot_at self.old.tree.slots page)) }
    {
        let leaf = match self.take_kept(page, stamp) {
            Some(leaf) => leaf,
            None => self.new_leaf(page)?,
        };
        leaf.as_of(stamp)
    }

    // The same as of an earlier stamp, or of this one, if it was kept so.
    fn take_kept(&mut self, page: PageId, stamp: u64) -> Option<ReadLeaf<'a>>
        ensures tree { self.new.tree ≡ self.old.tree }
        ensures stamp { IfSome result (λ leaf. leaf.replay.stamp ≤ stamp) }
        ensures leaf { IfSome result (IsReadLeaf (slot_at self.old.tree.slots page)) }
    {
        let leaf = self.leaves.remove(&page)?;
        if leaf.replay.stamp() > stamp {
            return None;
        }
        Some(leaf)
    }

    // The same as of stamp 0, from the tree.
    fn new_leaf(&mut self, page: PageId) -> Result<ReadLeaf<'a>, Memory>
        requires { Contains (row self.old.tree.levels 0) page }
        ensures tree { self.new.tree ≡ self.old.tree }
        ensures stamp { IfOk result (λ leaf. leaf.replay.stamp ≡ 0) }
        ensures leaf { IfOk result (IsReadLeaf (slot_at self.old.tree.slots page)) }
    {
        let leaf = ReadLeaf::new(&self.tree, self.alloc, page)?;
        if self.keeps {
            self.pages.insert(leaf.low.copy()?, page)?;
        }
        Ok(leaf)
    }
}

// Adds the pairs of a leaf from a key on and below another, in this order, no more than `most` of them.
pub(crate) fn add_pairs(
    replay: &Replay<'_>,
    order: Order,
    low: &Key,
    high: Option<&Key>,
    most: u64,
    read: &mut Pairs,
) -> Result<(), Memory>
    ensures sorted { T (is_sorted key_cmp replay.now.pairs) }
    ensures added { let there = filter (is_pair_in_range low.now (option_copied high.entry)) replay.now.pairs in
        OnOk result (read.new ≡ read.old ++ take most (in_order order there)) }
{
    match order {
        Order::Rising => replay.add_first(low, high, most, read),
        Order::Falling => replay.add_last(low, high, most, read),
    }
}

// Whether no pair is asked for: none at all, or those of a range that doesn't begin below its end.
pub(crate) fn asks_for_none(from: &Key, to: Option<&Key>, most: u64) -> bool
    ensures none { result ≡ true → HasNoPairs from.now (option_copied to.entry) most }
    ensures begins { result ≡ false → T (is_below_end (option_copied to.entry) from.now) }
{
    most == 0 || !is_below(from, to)
}
