// Runs of pairs.
ghost use Rattle.std.specs.Prelude.{◌≡◌, IfOk, ℕ, ◌-◌, ◌+◌, ◌^◌, ◌<◌, ◌≤◌, ◌==◌, List, drop, length, slice_index_or, slice_range, take};
ghost use Rattle.std.specs.List.{sum_by};
ghost use Rattle.std.specs.Ordering.{is_lt};
ghost use Rattle.bw_key.specs.Order.{key_cmp, key_eq};
ghost use Rattle.bw_packed.specs.Pairs.{pair_eq, pairs_eq};
ghost use Rattle.bw_packed.specs.Search.{EndsAt, IsSearched};

use crate::iter::Iter;
use crate::pairs::Pairs;
use bw_key::Memory;
use bw_memory::Alloc;
use std::marker::Model;
use std::ops::Range;

/// Pairs that stand one behind the other in a list, to look at: what a slice is of a vector. It copies nothing, and
/// contracts see the list of these pairs.
#[derive(Drop)]
pub struct Run<'a> {
    pairs: &'a Pairs,
    start: usize,
    end: usize,
}

impl<'a> Model for Run<'a> {
    ghost use Rattle.std.specs.Prelude.{List, ℕ, slice_range};
    ghost use Rattle.bw_packed.specs.Pairs.{ArePlacesOf};

    ghost Value = { List (List ℕ × List ℕ) };

    ghost view = { λ r. slice_range r.pairs.now r.start r.end };

    ghost invariant = { λ r. ArePlacesOf r.start r.end r.pairs.now };
}

impl<'a> Run<'a> {
    /// The pairs of a range of places of a list.
    pub(crate) fn new(pairs: &'a Pairs, range: Range<usize>) -> Run<'a>
        requires ordered { range.start ≤ range.end }
        requires within { range.end ≤ length pairs.now }
        ensures { result ≡ slice_range pairs.now range.start range.end }
    {
        let Range { start, end } = range;
        Run { pairs, start, end }
    }

    /// The list, and the places in it.
    pub(crate) fn parts(&self) -> (&'a Pairs, Range<usize>)
        ensures ordered { result.1.start ≤ result.1.end }
        ensures within { result.1.end ≤ length result.0.now }
        ensures run { slice_range result.0.now result.1.start result.1.end ≡ self.now }
    {
        (self.pairs, self.start..self.end)
    }

    /// How many pairs there are.
    pub fn len(&self) -> usize
        ensures { result ≡ length self.now }
    {
        self.end - self.start
    }

    /// Whether there is no pair.
    pub fn is_empty(&self) -> bool
        ensures { result ≡ (length self.now == 0) }
    {
        self.start == self.end
    }

    /// The pairs one after another, from the first one on.
    pub fn iter(&self) -> Iter<'a>
        ensures { result ≡ self.now }
    {
        Iter {
            rest: Run::new(self.pairs, self.start..self.end),
        }
    }

    /// The key at a place.
    pub fn key_at(&self, place: usize) -> &'a [u8]
        requires { place < length self.now }
        ensures { (d : List ℕ × List ℕ) → result.now ≡ (slice_index_or self.now place d).0 }
    {
        self.pairs.key_at(self.start + place)
    }

    /// The value at a place.
    pub fn value_at(&self, place: usize) -> &'a [u8]
        requires { place < length self.now }
        ensures { (d : List ℕ × List ℕ) → result.now ≡ (slice_index_or self.now place d).1 }
    {
        self.pairs.value_at(self.start + place)
    }

    /// How many bytes the keys and values have together.
    pub fn byte_count(&self) -> usize
        ensures value { result ≡ sum_by (λ pair. length pair.0 + length pair.1) self.now }
        ensures limit { result < 2 ^ 32 }
    {
        self.pairs.bytes_in(self.start..self.end)
    }

    /// The same pairs in a list of their own, with just the room that they need. `Memory` is answered where one of two
    /// growths is refused.
    pub fn copy(&self, alloc: Alloc) -> Result<Pairs, Memory>
        ensures { IfOk result (λ copy. copy ≡ self.now) }
    {
        let mut copy = Pairs::with_capacity(alloc, self.len(), self.byte_count())?;
        copy.extend(self)?;
        Ok(copy)
    }

    /// The first pairs, so many of them, and the others.
    pub fn split_at(&self, middle: usize) -> (Run<'a>, Run<'a>)
        requires { middle ≤ length self.now }
        ensures front { result.0 ≡ take middle self.now }
        ensures back { result.1 ≡ drop middle self.now }
    {
        let middle = self.start + middle;
        let front = Run::new(self.pairs, self.start..middle);
        (front, Run::new(self.pairs, middle..self.end))
    }

    /// How many pairs have a key below the given one, where these come first, in about log2 n key comparisons for n pairs.
    pub fn place(&self, key: &[u8]) -> usize
        ensures bound { result ≤ length self.now }
        ensures parts { EndsAt (λ pair. is_lt (key_cmp pair.0 key.now)) self.now result }
    {
        self.pairs.place(self.start..self.end, key)
    }

    /// The place of a key, or else, in `Err`, the place where it would stand, in about log2 n key comparisons for n pairs.
    /// Their keys rise.
    pub fn binary_search(&self, key: &[u8]) -> Result<usize, usize>
        ensures { IsSearched (λ pair. is_lt (key_cmp pair.0 key.now)) (λ pair. key_eq pair.0 key.now) self.now result }
    {
        let place = self.place(key);
        if place < self.len() && self.key_at(place) == key {
            Ok(place)
        } else {
            Err(place)
        }
    }

    /// Whether another run has the same pairs.
    pub fn is_same(&self, other: &Run<'_>) -> bool
        ensures { result ≡ pairs_eq self.now other.now }
    {
        if self.len() != other.len() {
            return false;
        }
        for place in 0..self.len() {
            if !self.is_same_at(other, place) {
                return false;
            }
        }
        true
    }

    // Whether both have the same pair at a place.
    fn is_same_at(&self, other: &Run<'_>, place: usize) -> bool
        requires here { place < length self.now }
        requires there { place < length other.now }
        ensures { (d : List ℕ × List ℕ) →
            result ≡ pair_eq (slice_index_or self.now place d) (slice_index_or other.now place d) }
    {
        self.key_at(place) == other.key_at(place) && self.value_at(place) == other.value_at(place)
    }
}
