// The children of inner pages.
ghost use Rattle.std.specs.Prelude.{◌≡◌, ℕ, ◌-◌, ◌^◌, ◌<◌, ◌≤◌, [], ◌∷◌, ◌++◌, drop, filter, length, not, slice_index_or, slice_range, take, IfOk, OnErr, OnOk, T};
ghost use Rattle.std.specs.FinMap.{is_sorted, put};
ghost use Rattle.std.specs.Ordering.{is_lt};
ghost use Rattle.bw_key.specs.Order.{KeyBytes, key_cmp, key_eq};
ghost use Rattle.bw_model.specs.Sorted.{place_of};
ghost use Rattle.bw_packed.specs.Search.{EndsAt};
ghost use Rattle.bw_page.specs.Inners.{is_upto};
ghost use Rattle.bw_page.specs.MergedEntries.{HasAdded, put_all};
ghost use Rattle.bw_page.specs.Pages.{below};

use crate::pages::PageId;
use bw_key::{Key, Memory};
use bw_memory::Alloc;
use bw_packed::{Keyed, Packed};
use std::marker::Model;
use std::ops::Range;

/// The key of an inner page's entry is its separator, which is all that the entry has but the child.
impl Keyed for PageId {
    ghost key = { λ child bytes. bytes };

    fn key<'a>(&self, bytes: &'a [u8]) -> &'a [u8] {
        bytes
    }
}

/// Separators, each with its child.
///
/// They lie packed, as a leaf's pairs do: a child takes the bytes of its separator and eight more, in two blocks of memory for
/// all. Contracts see the list of separators with their children.
#[derive(Debug)]
pub struct Children {
    entries: Packed<PageId>,
}

// Not derived: whoever drops one calls this, and its proof is spared the parts.
impl Drop for Children {
    fn drop(self) {
        let Children { entries: _entries } = self;
    }
}

impl Model for Children {
    ghost use Rattle.std.specs.Prelude.{List, ℕ};

    ghost Value = { List (List ℕ × ℕ) };

    ghost view = { λ c. c.entries };
}

impl Children {
    /// No children, with room for so many, whose separators have so many bytes together. It takes two growths at most, and
    /// answers `Memory` where one of them is refused.
    pub fn with_capacity(alloc: Alloc, children: usize, bytes: usize) -> Result<Children, Memory>
        ensures { IfOk result (λ list. list ≡ []) }
    {
        Ok(Children {
            entries: Packed::with_capacity(alloc, children, bytes)?,
        })
    }

    /// What the children take their memory from.
    pub(crate) fn allocator(&self) -> Alloc {
        self.entries.allocator()
    }

    /// How many children there are.
    pub fn len(&self) -> usize
        ensures value { result ≡ length self.now }
        ensures limit { result < 2 ^ 63 }
    {
        self.entries.len()
    }

    /// The separator at a place.
    pub fn separator(&self, place: usize) -> &[u8]
        requires { place < length self.now }
        ensures { (d : KeyBytes × ℕ) → result.now ≡ (slice_index_or self.now place d).0 }
    {
        self.entries.bytes_at(place)
    }

    /// The child at a place.
    pub fn child(&self, place: usize) -> PageId
        requires { place < length self.now }
        ensures { (d : KeyBytes × ℕ) → result ≡ (slice_index_or self.now place d).1 }
    {
        self.entries.tag_at(place)
    }

    /// Adds a child behind the others. `Memory` is answered where a growth is refused, or where the separators would have
    /// 2^32 bytes or more together, and then the list stays as it is.
    pub fn push(&mut self, sep: &Key, child: PageId) -> Result<(), Memory>
        ensures ok { OnOk result (self.new ≡ self.old ++ (sep.now, child) ∷ []) }
        ensures err { OnErr result (self.new ≡ self.old) }
    {
        self.entries.push(sep.bytes(), child)
    }

    /// How many children at the front have a smaller separator, in about log2 n key comparisons for n children.
    pub fn place(&self, key: &Key) -> usize
        requires { T (is_sorted key_cmp self.now) }
        ensures value { result ≡ place_of key.now self.now }
        ensures bound { result ≤ length self.now }
    {
        self.place_in(0..self.len(), key)
    }

    /// How many children of a range of places have a smaller separator, where these come first in it, in about log2 n key
    /// comparisons for n children.
    pub fn place_in(&self, range: Range<usize>, key: &Key) -> usize
        requires ordered { range.start ≤ range.end }
        requires within { range.end ≤ length self.now }
        ensures bound { result ≤ range.end - range.start }
        ensures parts { EndsAt (λ e. is_lt (key_cmp e.0 key.now)) (slice_range self.now range.start range.end) result }
    {
        self.entries.place(range, key.bytes())
    }

    /// How many have a separator that isn't above the key, likewise.
    pub fn place_behind(&self, range: Range<usize>, key: &Key) -> usize
        requires ordered { range.start ≤ range.end }
        requires within { range.end ≤ length self.now }
        ensures bound { result ≤ range.end - range.start }
        ensures parts { EndsAt (λ e. is_upto e.0 key.now) (slice_range self.now range.start range.end) result }
    {
        self.entries.place_behind(range, key.bytes())
    }

    /// The children of a range of places, in a list of their own with just the room that it needs: one block of separators is
    /// copied, and one of ends. `Memory` is answered where one of two growths is refused.
    pub fn copy(&self, range: Range<usize>) -> Result<Children, Memory>
        requires ordered { range.start ≤ range.end }
        requires within { range.end ≤ length self.now }
        ensures { IfOk result (λ copy. copy ≡ slice_range self.now range.start range.end) }
    {
        let Range { start, end } = range;
        let bytes = self.entries.bytes_in(start..end);
        let mut copy = Children::with_capacity(self.allocator(), end - start, bytes)?;
        copy.extend(self, start..end)?;
        Ok(copy)
    }

    // Adds the children of a range of places of another list.
    fn extend(&mut self, other: &Children, range: Range<usize>) -> Result<(), Memory>
        requires ordered { range.start ≤ range.end }
        requires within { range.end ≤ length other.now }
        ensures ok { OnOk result (self.new ≡ self.old ++ slice_range other.now range.start range.end) }
        ensures err { OnErr result (self.new ≡ self.old) }
    {
        self.entries.extend(&other.entries, range)
    }

    // How many bytes all separators have.
    fn byte_count(&self) -> usize {
        self.entries.bytes_in(0..self.len())
    }

    /// The children of two lists, one behind the other.
    pub(crate) fn joined(&self, right: &Children) -> Result<Children, Memory>
        ensures { IfOk result (λ all. all ≡ self.now ++ right.now) }
    {
        let count = self.len().saturating_add(right.len());
        let bytes = self.byte_count().saturating_add(right.byte_count());
        let mut all = Children::with_capacity(self.allocator(), count, bytes)?;
        all.extend(self, 0..self.len())?;
        all.extend(right, 0..right.len())?;
        Ok(all)
    }

    /// These children with one more, in place of one that stands at its separator.
    pub(crate) fn with(&self, sep: &Key, child: PageId) -> Result<Children, Memory>
        requires { T (is_sorted key_cmp self.now) }
        ensures { IfOk result (λ all. all ≡ put key_cmp sep.now child self.now) }
    {
        let len = self.len();
        let at = self.place(sep);
        let rest = self.behind(at, sep);
        let kept = self.entries.bytes_in(0..at) + self.entries.bytes_in(rest..len);
        let count = at + 1 + (len - rest);
        let bytes = kept + sep.bytes().len();
        let mut all = Children::with_capacity(self.allocator(), count, bytes)?;
        all.extend(self, 0..at)?;
        all.push(sep, child)?;
        all.extend(self, rest..len)?;
        Ok(all)
    }

    // Where the children begin whose separators are above a key, from a place on at which or behind which the key would
    // stand.
    fn behind(&self, at: usize, key: &Key) -> usize
        requires { at ≤ length self.now }
        ensures from { at ≤ result }
        ensures within { result ≤ length self.now }
        ensures put { (start : ℕ) → start ≤ at → at - start ≡ place_of key.now (drop start self.now) → (child : ℕ) →
            (take (at - start) (drop start self.now) ++ (key.now, child) ∷ []) ++ drop result self.now
            ≡ put key_cmp key.now child (drop start self.now) }
    {
        if at < self.len() && self.separator(at) == key.bytes() {
            at + 1
        } else {
            at
        }
    }

    /// These children with more of them, whose separators rise, each in place of one that stands at its separator. Each of the
    /// new ones costs a binary search among the children behind the one before it; the others are copied once, by runs.
    pub(crate) fn with_all(&self, more: &[(Key, PageId)]) -> Result<Children, Memory>
        requires children { T (is_sorted key_cmp self.now) }
        requires more { T (is_sorted key_cmp more.now) }
        ensures { IfOk result (λ all. all ≡ put_all more.now self.now) }
    {
        let count = self.len().saturating_add(more.len());
        let bytes = self.byte_count().saturating_add(byte_count_of(more));
        let mut all = Children::with_capacity(self.allocator(), count, bytes)?;
        let mut passed = 0;
        for entry in more {
            passed = all.add_entry(self, passed, entry)?;
        }
        all.extend(self, passed..self.len())?;
        // Where some stand in place of others there was room for more.
        if all.len() < count {
            all.entries.shrink_to_fit();
        }
        Ok(all)
    }

    // Adds the children of another list from a place on that come before an entry, and that entry. Answers the place where
    // the rest begins.
    fn add_entry(
        &mut self,
        children: &Children,
        passed: usize,
        entry: &(Key, PageId),
    ) -> Result<usize, Memory>
        requires sorted { T (is_sorted key_cmp children.now) }
        requires within { passed ≤ length children.now }
        ensures within { IfOk result (λ next. next ≤ length children.now) }
        ensures ok { IfOk result (λ next. HasAdded self.old self.new
            (drop passed children.now) (drop next children.now) entry.now) }
    {
        let at = passed + children.place_in(passed..children.len(), &entry.0);
        self.extend(children, passed..at)?;
        self.push(&entry.0, entry.1)?;
        Ok(children.behind(at, &entry.0))
    }

    /// Takes away the child at a separator, if there is one: about log2 n key comparisons for n children, and the children
    /// behind that one are moved. It takes no memory.
    pub(crate) fn remove(&mut self, sep: &Key)
        requires { T (is_sorted key_cmp self.old) }
        ensures { self.new ≡ filter (λ entry. not (key_eq sep.now entry.0)) self.old }
    {
        let at = self.place(sep);
        if at < self.len() && self.separator(at) == sep.bytes() {
            self.entries.remove(at);
        }
    }

    /// Copies the children from a place on to a list of their own, and leaves the others. `Memory` is answered where that list
    /// finds none, and all is as before. The room that they leave is given back, by growths that may be refused: then it stays.
    pub(crate) fn cut(&mut self, keep: usize) -> Result<Children, Memory>
        requires { keep ≤ length self.old }
        ensures kept { OnOk result (self.new ≡ take keep self.old) }
        ensures rest { IfOk result (λ rest. rest ≡ drop keep self.old) }
        ensures err { OnErr result (self.new ≡ self.old) }
    {
        let rest = self.copy(keep..self.len())?;
        self.entries.truncate(keep);
        self.entries.shrink_to_fit();
        Ok(rest)
    }

    /// Lets the children go whose separators aren't below the given key, in about log2 n key comparisons.
    pub(crate) fn keep_below(&mut self, key: &Key)
        requires { T (is_sorted key_cmp self.old) }
        ensures { self.new ≡ below key.now self.old }
    {
        let end = self.place(key);
        self.entries.truncate(end);
    }
}

// How many bytes the separators of these entries have together.
fn byte_count_of(entries: &[(Key, PageId)]) -> usize {
    let mut count: usize = 0;
    for entry in entries {
        count = count.saturating_add(entry.0.bytes().len());
    }
    count
}
