// What a search is for.
ghost use Rattle.std.specs.Prelude.{◌≡◌, ℕ, ◌-◌, ◌<◌, ◌≤◌, T, length, is_some, slice_index_or, slice_range};
ghost use Rattle.std.specs.Option.{option_copied};
ghost use Rattle.std.specs.FinMap.{is_sorted, put};
ghost use Rattle.bw_key.specs.Order.{KeyBytes, key_cmp};
ghost use Rattle.bw_level.specs.Searches.{IsFromPlace, IsPlaceFor, IsStretch};
ghost use Rattle.bw_level.specs.Targets.{IsChildFor, IsEntryFor, IsPast, PartsChildren, lies_from};

use bw_key::{Key, compare_bytes};
use bw_page::{Children, Inner, PageId};
use std::ops::Range;

/// The leaf that a search is for. On its way down it asks of a page's end and of separators only on which side of them
/// the leaf lies.
#[derive(Clone, Copy, Debug)]
pub enum Target<'a> {
    /// The leaf whose range has this key.
    Home(&'a Key),
    /// The leaf whose range has the keys right below this end. `None` is the end of all keys.
    Before(Option<&'a Key>),
}

impl Target<'_> {
    /// Whether it lies at a key or behind it.
    pub(crate) fn lies_from(self, at: &[u8]) -> bool
        ensures { result ≡ lies_from self.entry at.now }
    {
        match self {
            Target::Home(key) => !compare_bytes(key.bytes(), at).is_lt(),
            Target::Before(Some(end)) => compare_bytes(at, end.bytes()).is_lt(),
            Target::Before(None) => true,
        }
    }

    /// The right neighbour of a page, where this lies past the page's range.
    pub(crate) fn past(self, high: Option<&Key>, side: Option<PageId>) -> Option<PageId>
        requires { is_some side ≡ is_some high }
        ensures { IsPast self.entry (option_copied high.entry) side result }
    {
        match high {
            Some(high) if self.lies_from(high.bytes()) => side,
            _ => None,
        }
    }

    /// The child with the last separator that this isn't before, in about log2 n key comparisons for n children.
    pub(crate) fn child(self, inner: &Inner) -> PageId
        requires { T (lies_from self inner.now.low) }
        ensures { IsChildFor self.entry inner.now.children result }
    {
        inner.children().child(self.last_place(inner))
    }

    /// The same where an inner page has a further child at a separator, in place of one that stands there. It takes at
    /// most two key comparisons more.
    pub(crate) fn child_with(self, inner: &Inner, sep: &Key, child: PageId) -> PageId
        requires { T (lies_from self inner.now.low) }
        ensures { IsChildFor self.entry (put key_cmp sep.now child inner.now.children) result }
    {
        let children = inner.children();
        let last = self.last_place(inner);
        if !self.lies_from(sep.bytes())
            || compare_bytes(sep.bytes(), children.separator(last)).is_lt()
        {
            return children.child(last);
        }
        child
    }

    /// The place of the last separator that this isn't before.
    pub(crate) fn last_place(self, inner: &Inner) -> usize
        requires { T (lies_from self inner.now.low) }
        ensures within { result < length inner.now.children }
        ensures entry { (d : KeyBytes × ℕ) →
            IsEntryFor self.entry inner.now.children (slice_index_or inner.now.children result d) }
        ensures sorted { T (is_sorted key_cmp inner.now.children) }
    {
        let children = inner.children();
        self.count(children) - 1
    }

    /// The place of the child with the last separator that this isn't before, if there is one. The search goes on from a
    /// place: about 2 log2 d key comparisons where the child stands d places behind it, and about log2 n, for n children,
    /// where it stands before it.
    pub fn place_from(self, inner: &Inner, from: usize) -> Option<usize>
        ensures { IsPlaceFor self.entry inner.now.children result }
    {
        self.count_from(inner.children(), from).checked_sub(1)
    }

    // How many children, from the first on, have a separator that this isn't before, found from a place on.
    fn count_from(self, children: &Children, from: usize) -> usize
        requires { T (is_sorted key_cmp children.now) }
        ensures parts { PartsChildren self.entry children.now result }
        ensures bound { result ≤ length children.now }
    {
        if from >= children.len() || !self.lies_from(children.separator(from)) {
            return self.count(children);
        }
        let (start, end) = self.stretch(children, from);
        start + self.count_in(children, start..end)
    }

    // The places between which the first separator is that this is before, by steps from a place on, each of which is
    // twice the one before it.
    fn stretch(self, children: &Children, from: usize) -> (usize, usize)
        requires sorted { T (is_sorted key_cmp children.now) }
        requires there { from < length children.now }
        requires from { IsFromPlace self children.now from }
        ensures { IsStretch self.entry children.now result.0 result.1 }
    {
        let mut last = from;
        let mut step: usize = 1;
        loop {
            let next = last.saturating_add(step);
            if next >= children.len() {
                return (last + 1, children.len());
            }
            if !self.lies_from(children.separator(next)) {
                return (last + 1, next);
            }
            last = next;
            step = step.saturating_add(step);
        }
    }

    // How many children, from the first on, have a separator that this isn't before.
    fn count(self, children: &Children) -> usize
        requires { T (is_sorted key_cmp children.now) }
        ensures parts { PartsChildren self.entry children.now result }
        ensures bound { result ≤ length children.now }
    {
        self.count_in(children, 0..children.len())
    }

    // The same of a range of places.
    fn count_in(self, children: &Children, range: Range<usize>) -> usize
        requires sorted { T (is_sorted key_cmp children.now) }
        requires ordered { range.start ≤ range.end }
        requires within { range.end ≤ length children.now }
        ensures parts { PartsChildren self.entry (slice_range children.now range.start range.end) result }
        ensures bound { result ≤ range.end - range.start }
    {
        match self {
            Target::Home(key) => children.place_behind(range, key),
            Target::Before(end) => match end {
                Some(end) => children.place_in(range, end),
                None => range.end - range.start,
            },
        }
    }
}
