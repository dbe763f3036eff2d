// Tidying as a plain program. It knows all keys and all pages, and has no list of pages that are due, but marks on the first
// leaves under pages that were merged, and behind a sweep on all, at which it looks once more, as the index does. Where it is
// told to mark nothing, it looks at all pages alike.
use bw_batch::{Key, Op, Tidy};
use bw_memory::Alloc;
use std::process::Abort;

/// A page. Keys are numbers from 1 to 255, and 0 is the least key of all.
#[derive(Clone, Copy)]
pub struct PlainPage {
    /// Its identifier.
    pub page: usize,
    /// 0 for a leaf, and one more for each level above.
    pub level: u32,
    /// Where its range begins.
    pub low: u8,
    /// Where its range ends, if it ends.
    pub high: Option<u8>,
    /// The writes of a leaf's chain.
    pub writes: usize,
    // a leaf's pairs without those writes
    base: usize,
    // whether a split or a merge stands in its chain
    is_changed: bool,
    // whether there was a sweep, or the page above a leaf was merged, under which it was the first one
    is_marked: bool,
}

// One leaf without pairs.
const EMPTY: PlainPage = PlainPage {
    page: 0,
    level: 0,
    low: 0,
    high: None,
    writes: 0,
    base: 0,
    is_changed: false,
    is_marked: false,
};

// Tidying takes fewer looks at pages.
const LOOKS: u64 = 100_000;

// Whether a key is in a page's range.
fn is_in(page: &PlainPage, key: u8) -> bool {
    match page.high {
        Some(high) => page.low <= key && key < high,
        None => page.low <= key,
    }
}

// The number of a key.
fn number_of(key: &Key) -> u8 {
    key.bytes().first().copied().unwrap_or(0)
}

/// A tree of plain pages.
#[derive(Drop)]
pub struct PlainTree {
    chain_max: usize,
    page_max: usize,
    page_min: usize,
    record_max: usize,
    // the keys that have a value, in their order
    keys: Vec<u8, Alloc>,
    // the leaves from left to right, and behind them the pages of each level above
    pages: Vec<PlainPage, Alloc>,
    // how many identifiers are given out, and those that were given back, in their order
    identifiers: usize,
    freed: Vec<usize, Alloc>,
    counts: Tidy,
    // whether it marks leaves, and whether a page right above the leaves was merged
    marks: bool,
    has_merged_above: bool,
    // the records and the stamps since the last sweep
    records: usize,
    stamps: usize,
    sweeps: usize,
}

impl PlainTree {
    /// A tree of one empty leaf, with these limits.
    pub fn new<R: Abort>(
        rt: &R,
        alloc: Alloc,
        chain_max: usize,
        page_max: usize,
        page_min: usize,
        record_max: usize,
    ) -> PlainTree {
        let mut pages = Vec::new(alloc);
        pages.push(EMPTY).expect(rt, "memory");
        PlainTree {
            chain_max,
            page_max,
            page_min,
            record_max,
            keys: Vec::new(alloc),
            pages,
            identifiers: 1,
            freed: Vec::new(alloc),
            counts: Tidy::default(),
            marks: true,
            has_merged_above: false,
            records: 0,
            stamps: 0,
            sweeps: 0,
        }
    }

    /// It marks no leaf from now on.
    pub fn mark_nothing(&mut self) {
        self.marks = false;
    }

    /// Whether a page right above the leaves was merged: its first leaf got a left neighbour under the same page.
    pub fn has_merged_above(&self) -> bool {
        self.has_merged_above
    }

    /// The leaves from left to right, and behind them the pages of each level above.
    pub fn pages(&self) -> &[PlainPage] {
        &self.pages
    }

    /// How many identifiers are given out, with those that were given back and aren't forgotten.
    pub fn identifiers(&self) -> usize {
        self.identifiers
    }

    /// How many records there are since the last sweep: one for each write, each split, each index entry and each that went,
    /// and two for each merge.
    pub fn records(&self) -> usize {
        self.records
    }

    /// How many operations there were since the last sweep.
    pub fn stamps(&self) -> usize {
        self.stamps
    }

    /// How many sweeps there were.
    pub fn sweeps(&self) -> usize {
        self.sweeps
    }

    /// Writes what a batch writes, behind a sweep where there might be too many records.
    pub fn run<R: Abort>(&mut self, rt: &R, ops: &[Op]) {
        if self.records.saturating_add(ops.len()) > self.record_max {
            self.sweep(rt);
        }
        for op in ops {
            self.apply(rt, op);
        }
        self.stamps = self.stamps.saturating_add(ops.len());
    }

    // Writes what an operation writes.
    fn apply<R: Abort>(&mut self, rt: &R, op: &Op) {
        match op {
            Op::Get(_) | Op::Scan { .. } | Op::Rscan { .. } => {}
            Op::Insert(key, _) | Op::Upsert(key, _) => {
                self.write(number_of(key));
                self.put(rt, number_of(key));
            }
            Op::Delete(key) => {
                self.write(number_of(key));
                self.remove(number_of(key));
            }
            Op::Update(key, _) | Op::SwapIf(key, _, _) => self.write(number_of(key)),
        }
    }

    // A write in the chain of a key's leaf.
    fn write(&mut self, key: u8) {
        for page in &mut self.pages {
            if page.level == 0 && is_in(page, key) {
                page.writes = page.writes.saturating_add(1);
            }
        }
        self.records = self.records.saturating_add(1);
    }

    // The key has a value.
    fn put<R: Abort>(&mut self, rt: &R, key: u8) {
        if let Err(place) = self.keys.binary_search(&key) {
            self.keys.insert(place, key).expect(rt, "memory");
        }
    }

    // The key has none.
    fn remove(&mut self, key: u8) {
        if let Ok(place) = self.keys.binary_search(&key) {
            self.keys.remove(place);
        }
    }

    // Consolidates all pages, and starts records and stamps over. All leaves are marked.
    fn sweep<R: Abort>(&mut self, rt: &R) {
        for place in 0..self.pages.len() {
            let page = self.pages.get(place).copied().expect(rt, "a page");
            let entries = self.count_entries(rt, &page);
            let page = PlainPage {
                is_marked: self.marks && page.level == 0,
                ..page
            };
            self.bare(rt, place, &page, entries);
        }
        self.records = 0;
        self.stamps = 0;
        self.sweeps = self.sweeps.saturating_add(1);
    }

    // Consolidates the page at a place, which has so many entries.
    fn bare<R: Abort>(&mut self, rt: &R, place: usize, page: &PlainPage, entries: usize) {
        let bare = PlainPage {
            base: entries,
            writes: 0,
            is_changed: false,
            ..*page
        };
        assert!(rt; place < self.pages.len());
        self.pages[place] = bare;
    }

    /// How many entries a page has.
    pub fn count_entries<R: Abort>(&self, rt: &R, page: &PlainPage) -> usize {
        self.entries(rt, page).len()
    }

    // Where the entries of a page begin: the keys in a leaf, or the pages below an inner page.
    fn entries<R: Abort>(&self, rt: &R, page: &PlainPage) -> Vec<u8, Alloc> {
        let mut entries = Vec::new(*self.keys.allocator());
        let Some(below) = page.level.checked_sub(1) else {
            for key in &self.keys {
                if is_in(page, *key) {
                    entries.push(*key).expect(rt, "memory");
                }
            }
            return entries;
        };
        for child in &self.pages {
            if child.level == below && is_in(page, child.low) {
                entries.push(child.low).expect(rt, "memory");
            }
        }
        entries
    }

    /// Tidies, and answers what that did. The halves of a page that is split stand in its place, so they are looked at next,
    /// and inner pages stand behind all pages below them. A page that is merged leaves its place to the next one.
    pub fn tidy<R: Abort>(&mut self, rt: &R) -> Tidy {
        self.counts = Tidy::default();
        let mut place = 0usize;
        for _ in 0..LOOKS {
            let Some(page) = self.pages.get(place).copied() else {
                self.lower(rt);
                self.forget();
                return self.counts;
            };
            if !self.look_once(rt, place, &page) {
                place = place.saturating_add(1);
            }
        }
        panic!(rt; "tidying goes on and on")
    }

    // Drops the root, the last page, while it has one child alone.
    fn lower<R: Abort>(&mut self, rt: &R) {
        for _ in 0..LOOKS {
            let root = self.pages.last().copied().expect(rt, "a root");
            if root.level == 0 || self.count_entries(rt, &root) > 1 {
                return;
            }
            self.pages.pop();
            self.free(rt, root.page);
        }
    }

    // Forgets the free identifiers behind the last page.
    fn forget(&mut self) {
        for _ in 0..LOOKS {
            let last = self.identifiers.saturating_sub(1);
            if self.freed.last().copied() != Some(last) {
                return;
            }
            self.freed.pop();
            self.identifiers = last;
        }
    }

    // The least identifier that was given back, or the one behind all others.
    fn take(&mut self) -> usize {
        if let Some(least) = self.freed.first().copied() {
            self.freed.remove(0);
            return least;
        }
        let page = self.identifiers;
        self.identifiers = self.identifiers.saturating_add(1);
        page
    }

    // An identifier is given back.
    fn free<R: Abort>(&mut self, rt: &R, page: usize) {
        if let Err(place) = self.freed.binary_search(&page) {
            self.freed.insert(place, page).expect(rt, "memory");
        }
    }

    // Looks at the page at a place, which is not marked any more then.
    fn look_once<R: Abort>(&mut self, rt: &R, place: usize, page: &PlainPage) -> bool {
        if !page.is_marked {
            return self.look(rt, place, page, false);
        }
        let page = PlainPage {
            is_marked: false,
            ..*page
        };
        assert!(rt; place < self.pages.len());
        self.pages[place] = page;
        self.look(rt, place, &page, true)
    }

    // Looks at the page at a place. Whether another page stands there now, which is to be looked at.
    fn look<R: Abort>(&mut self, rt: &R, place: usize, page: &PlainPage, is_marked: bool) -> bool {
        let entries = self.entries(rt, page);
        if !self.is_due(page) && !(is_marked && self.may_merge(place, page)) {
            return false;
        }
        self.count_consolidated(page);
        if entries.len() > self.page_max {
            self.split(rt, place, page, &entries);
            return true;
        }
        if page.level == 0 {
            self.bare(rt, place, page, entries.len());
        }
        entries.len() < self.page_min && self.merge(rt, place, page, entries.len())
    }

    // A page is consolidated, which counts where it is a leaf and has records.
    fn count_consolidated(&mut self, page: &PlainPage) {
        if page.level == 0 && (page.writes > 0 || page.is_changed) {
            self.counts.consolidated = self.counts.consolidated.saturating_add(1);
        }
    }

    // Whether a page is due, as each inner page is.
    fn is_due(&self, page: &PlainPage) -> bool {
        match page.level {
            0 => page.writes > self.chain_max || page.base > self.page_max,
            _ => true,
        }
    }

    // Whether the page at a place has few pairs, and a left neighbour under the same page.
    fn may_merge(&self, place: usize, page: &PlainPage) -> bool {
        page.base < self.page_min && self.sibling(place, page).is_some()
    }

    // The page left of a place that one page of the level above names together with the page there.
    fn sibling(&self, place: usize, page: &PlainPage) -> Option<PlainPage> {
        let left = self.pages.get(place.checked_sub(1)?).copied()?;
        let parent = self.parent(page)?;
        if left.level == page.level && is_in(&parent, left.low) {
            return Some(left);
        }
        None
    }

    // The page of the level above that names a page.
    fn parent(&self, page: &PlainPage) -> Option<PlainPage> {
        for above in &self.pages {
            if above.level == page.level.saturating_add(1) && is_in(above, page.low) {
                return Some(*above);
            }
        }
        None
    }

    // Merges the page at a place, which has so many entries, into the one before it, if it may be. Whether it was.
    fn merge<R: Abort>(&mut self, rt: &R, place: usize, page: &PlainPage, entries: usize) -> bool {
        let Some(left) = self.sibling(place, page) else {
            return false;
        };
        let base = self.count_entries(rt, &left).saturating_add(entries);
        if base > self.page_max {
            return false;
        }
        self.count_consolidated(&left);
        let joined = PlainPage {
            high: page.high,
            writes: 0,
            base,
            is_changed: true,
            ..left
        };
        self.join(rt, place, joined);
        if page.level == 1 {
            self.mark_first(page.low);
        }
        self.free(rt, page.page);
        self.counts.merges = self.counts.merges.saturating_add(1);
        self.records = self.records.saturating_add(3);
        true
    }

    // The leaf of a key was the first one under a page that was merged.
    fn mark_first(&mut self, key: u8) {
        self.has_merged_above = true;
        if !self.marks {
            return;
        }
        for page in &mut self.pages {
            if page.level == 0 && is_in(page, key) {
                page.is_marked = true;
            }
        }
    }

    // Puts a page in the place of two, the second of which stood at this place.
    fn join<R: Abort>(&mut self, rt: &R, place: usize, joined: PlainPage) {
        assert!(rt; place > 0 && place < self.pages.len());
        self.pages.remove(place);
        self.pages[place - 1] = joined;
    }

    // Splits a page in the middle of its entries.
    fn split<R: Abort>(&mut self, rt: &R, place: usize, page: &PlainPage, entries: &[u8]) {
        let keep = entries.len() / 2;
        let middle = entries.get(keep).copied().expect(rt, "an entry");
        let left = PlainPage {
            high: Some(middle),
            writes: 0,
            base: keep,
            is_changed: true,
            ..*page
        };
        let right = PlainPage {
            page: self.take(),
            low: middle,
            writes: 0,
            base: entries.len() - keep,
            is_changed: false,
            ..*page
        };
        self.part(rt, place, left, right);
        self.counts.splits = self.counts.splits.saturating_add(1);
        self.records = self.records.saturating_add(1);
    }

    // Puts two halves in the place of a page. The right one gets an index entry, or both a new root where that was the root.
    fn part<R: Abort>(&mut self, rt: &R, place: usize, left: PlainPage, right: PlainPage) {
        assert!(rt; place < self.pages.len());
        self.pages[place] = left;
        self.pages.insert(place + 1, right).expect(rt, "memory");
        if place + 2 < self.pages.len() {
            self.records = self.records.saturating_add(1);
            return;
        }
        let root = PlainPage {
            page: self.take(),
            level: left.level.saturating_add(1),
            ..EMPTY
        };
        self.pages.push(root).expect(rt, "memory");
    }
}
