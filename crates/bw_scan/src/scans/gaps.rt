// Ranges of keys without a pair, which scans pass at once.
ghost use Rattle.std.specs.Prelude.{◌≡◌, ℕ, ◌≤◌, None, Some, T, false, true, IfOk, IfSome};
ghost use Rattle.std.specs.Option.{option_copied};
ghost use Rattle.std.specs.Ordering.{is_lt};
ghost use Rattle.std.specs.FinMap.{find};
ghost use Rattle.bw_key.specs.Order.{KeyBytes, key_cmp};
ghost use Rattle.bw_model.specs.Contents.{is_in_range};
ghost use Rattle.bw_level.specs.Scans.{Reaches};
ghost use Rattle.bw_scan.specs.Gaps.{HasNone, IsGap, IsGapAt};

use super::{Order, ReadLeaf, Scans};
use bw_key::{Key, Memory};
use bw_level::reaches;
use bw_memory::Alloc;
use bw_model::Pairs;
use bw_page::PageId;

/// Leaves side by side that have no pair as of any stamp from one on up to another: the first and the last of them.
#[derive(Clone, Copy)]
pub(crate) struct Gap {
    first: PageId,
    last: PageId,
    since: u64,
    until: u64,
}

impl Gap {
    // Whether it is known as of a stamp.
    fn holds_at(&self, stamp: u64) -> bool
        ensures { result ≡ true → (self.now.since ≤ stamp) × (stamp ≤ self.now.until) }
    {
        self.since <= stamp && stamp <= self.until
    }
}

impl<'a> ReadLeaf<'a> {
    // Whether the leaf has a pair. Where no memory is found it is said to have one.
    fn has_pairs(&self, alloc: Alloc) -> bool
        ensures { result ≡ false → (key : KeyBytes) →
            T (is_in_range self.now.low.now (option_copied self.now.end) key) →
            find key_cmp key self.now.replay.pairs ≡ None }
    {
        let mut first = Pairs::new(alloc);
        match self.replay.add_first(self.low, self.end, 1, &mut first) {
            Ok(()) => first.len() > 0,
            Err(_) => true,
        }
    }
}

impl<'a> Scans<'a> {
    // Where a scan goes on behind a leaf that it has read, and the leaf `before` that: where the leaf ends or, where it has
    // found no pair, at the end of the leaves behind it that have none; nowhere, where the last one has no end.
    pub(super) fn skip(
        &mut self,
        page: PageId,
        before: Option<PageId>,
        end: &'a Key,
        has_found: bool,
        stamp: u64,
    ) -> Result<Option<&'a Key>, Memory>
        ensures tree { self.new.tree ≡ self.old.tree }
        ensures none { IfOk result (λ next. HasNone self.old.tree stamp end.now (option_copied next)) }
        ensures behind { IfOk result (λ next. Reaches (option_copied next) (Some end.now)) }
    {
        if has_found {
            return Ok(Some(end));
        }
        let Some(gap) = self.gap(page, stamp)? else {
            return Ok(Some(end));
        };
        if let Some(before) = before {
            self.widen(before, Order::Rising, &gap)?;
        }
        Ok(self.end_of(&gap, end))
    }

    // The same for a scan back: where the leaf begins or, where the scan has found no pair, the leaves before it that have none.
    pub(super) fn skip_back(
        &mut self,
        page: PageId,
        behind: Option<PageId>,
        low: &'a Key,
        has_found: bool,
        stamp: u64,
    ) -> Result<&'a Key, Memory>
        ensures tree { self.new.tree ≡ self.old.tree }
        ensures none { IfOk result (λ next. HasNone self.old.tree stamp next.now (Some low.now)) }
        ensures before { IfOk result (λ next. is_lt (key_cmp low.now next.now) ≡ false) }
    {
        if has_found {
            return Ok(low);
        }
        let Some(gap) = self.gap(page, stamp)? else {
            return Ok(low);
        };
        if let Some(behind) = behind {
            self.widen(behind, Order::Falling, &gap)?;
        }
        Ok(self.low_of(&gap, low))
    }

    // Where leaves without pairs end, if a key lies among them; else the key.
    fn end_of(&self, gap: &Gap, key: &'a Key) -> Option<&'a Key>
        ensures none { (stamp : ℕ) → IsGapAt self.now.tree stamp (Some gap.now) →
            HasNone self.now.tree stamp key.now (option_copied result) }
        ensures behind { Reaches (option_copied result) (Some key.now) }
    {
        let (first, last) = (self.leaves.get(&gap.first), self.leaves.get(&gap.last));
        match (first, last) {
            (Some(first), Some(last)) if *first.low <= *key && reaches(last.end, Some(key)) =>
                last.end,
            _ => Some(key),
        }
    }

    // Where they begin, if the keys right below a key lie among them; else the key.
    fn low_of(&self, gap: &Gap, key: &'a Key) -> &'a Key
        ensures none { (stamp : ℕ) → IsGapAt self.now.tree stamp (Some gap.now) →
            HasNone self.now.tree stamp result.now (Some key.now) }
        ensures before { is_lt (key_cmp key.now result.now) ≡ false }
    {
        let (first, last) = (self.leaves.get(&gap.first), self.leaves.get(&gap.last));
        match (first, last) {
            (Some(first), Some(last)) if *first.low <= *key && reaches(last.end, Some(key)) =>
                first.low,
            _ => key,
        }
    }

    // Leaves without pairs among which one lies that was read as of a stamp, if it has none.
    fn gap(&mut self, page: PageId, stamp: u64) -> Result<Option<Gap>, Memory>
        ensures tree { self.new.tree ≡ self.old.tree }
        ensures gap { IfOk result (IsGapAt self.old.tree stamp) }
    {
        if let Some(known) = self.known_gap(page, stamp) {
            return Ok(Some(known));
        }
        if let Some(gap) = self.leaf_gap(page, stamp) {
            self.gaps.insert(page, gap)?;
        }
        Ok(self.known_gap(page, stamp))
    }

    // Those that are kept for the leaf.
    fn known_gap(&self, page: PageId, stamp: u64) -> Option<Gap>
        ensures { IsGapAt self.now.tree stamp result }
    {
        let gap = self.gaps.get(&page)?;
        if !gap.holds_at(stamp) {
            return None;
        }
        Some(*gap)
    }

    // The leaf alone.
    fn leaf_gap(&self, page: PageId, stamp: u64) -> Option<Gap>
        ensures { IsGapAt self.now.tree stamp result }
    {
        self.tree.know_levels();
        self.tree.know_homes();
        let leaf = self.leaves.get(&page)?;
        if leaf.has_pairs(self.alloc) {
            return None;
        }
        let gap = Gap {
            first: page,
            last: page,
            since: leaf.replay.stamp(),
            until: leaf.replay.until(),
        };
        if !gap.holds_at(stamp) {
            return None;
        }
        Some(gap)
    }

    // Joins the leaves that are kept for a page, if any are, and others that lie behind them in this order. So a scan that
    // passes many of these leaves each of them twice as many at a time to the scans behind it.
    fn widen(&mut self, page: PageId, order: Order, gap: &Gap) -> Result<(), Memory>
        requires { IsGap self.old.tree gap.now }
        ensures { self.new.tree ≡ self.old.tree }
    {
        if let Some(wide) = self.wider(page, order, gap) {
            self.gaps.insert(page, wide)?;
        }
        Ok(())
    }

    // Both, joined.
    fn wider(&self, page: PageId, order: Order, gap: &Gap) -> Option<Gap>
        requires { IsGap self.now.tree gap.now }
        ensures { IfSome result (IsGap self.now.tree) }
    {
        let known = self.gaps.get(&page)?;
        match order {
            Order::Rising => self.joined(known, gap),
            Order::Falling => self.joined(gap, known),
        }
    }

    // Leaves without pairs and others that lie among them or right behind them, as of the stamps at which both have none.
    fn joined(&self, left: &Gap, right: &Gap) -> Option<Gap>
        requires left { IsGap self.now.tree left.now }
        requires right { IsGap self.now.tree right.now }
        ensures { IfSome result (IsGap self.now.tree) }
    {
        let before = self.leaves.get(&left.last)?;
        let behind = self.leaves.get(&right.first)?;
        if !reaches(before.end, Some(behind.low)) {
            return None;
        }
        Some(Gap {
            first: left.first,
            last: right.last,
            since: left.since.max(right.since),
            until: left.until.min(right.until),
        })
    }
}
