// Sorted lists, searched by halves.
ghost use Rattle.std.specs.Prelude.{◌≡◌, ℕ, ◌-◌, ◌<◌, ◌≤◌, List, length, not, slice_index_or, slice_range};
ghost use Rattle.std.specs.Ordering.{is_lt};
ghost use Rattle.bw_key.specs.Order.{key_cmp};
ghost use Rattle.bw_packed.specs.Search.{EndsAt, is_before};

use crate::list::Packed;
use bw_key::compare_bytes;
use std::ops::Range;

/// A tag that tells what of its entry's bytes is the entry's key.
pub trait Keyed: Copy {
    ghost key: { Self → List ℕ → List ℕ };

    /// The key of an entry with this tag and these bytes.
    fn key<'a>(&self, bytes: &'a [u8]) -> &'a [u8]
        ensures { result.now ≡ key self.now bytes.now };
}

/// What a search by halves looks for: the first entry whose key isn't below the given one, or the first whose key is above it.
#[derive(Clone, Copy, Debug)]
enum Bound {
    Lower,
    Upper,
}

impl<E: Keyed> Packed<E> {
    /// The key of the entry at a place.
    pub fn key_at(&self, place: usize) -> &[u8]
        requires { place < length self.now }
        ensures { (d : List ℕ × E) →
            let entry = slice_index_or self.now place d in result.now ≡ E.key entry.1 entry.0 }
    {
        self.tag_at(place).key(self.bytes_at(place))
    }

    /// How many entries of a range of places have a key below the given one, where these come first in it, in about log2 n
    /// key comparisons for n entries.
    pub fn place(&self, range: Range<usize>, key: &[u8]) -> usize
        requires ordered { range.start ≤ range.end }
        requires within { range.end ≤ length self.now }
        ensures bound { result ≤ range.end - range.start }
        ensures parts { EndsAt (λ e. is_lt (key_cmp (E.key e.1 e.0) key.now))
            (slice_range self.now range.start range.end) result }
    {
        self.search(range, key, Bound::Lower)
    }

    /// How many have a key that isn't above the given one, likewise.
    pub fn place_behind(&self, range: Range<usize>, key: &[u8]) -> usize
        requires ordered { range.start ≤ range.end }
        requires within { range.end ≤ length self.now }
        ensures bound { result ≤ range.end - range.start }
        ensures parts { EndsAt (λ e. not (is_lt (key_cmp key.now (E.key e.1 e.0))))
            (slice_range self.now range.start range.end) result }
    {
        self.search(range, key, Bound::Upper)
    }

    // How many entries of a range of places come before a key's bound, by halves.
    fn search(&self, range: Range<usize>, key: &[u8], bound: Bound) -> usize
        requires ordered { range.start ≤ range.end }
        requires within { range.end ≤ length self.now }
        ensures bound { result ≤ range.end - range.start }
        ensures parts { EndsAt (λ e. is_before bound key.now (E.key e.1 e.0))
            (slice_range self.now range.start range.end) result }
    {
        let Range { start, end } = range;
        let mut size = end - start;
        if size == 0 {
            return 0;
        }
        let mut base = 0;
        while size > 1 {
            let half = size / 2;
            let middle = base + half;
            base = if self.is_before(start + middle, key, bound) {
                middle
            } else {
                base
            };
            size -= half;
        }
        if self.is_before(start + base, key, bound) {
            base + 1
        } else {
            base
        }
    }

    // Whether the entry at a place comes before a key's bound.
    fn is_before(&self, place: usize, key: &[u8], bound: Bound) -> bool
        requires { place < length self.now }
        ensures { (d : List ℕ × E) → result ≡
            is_before bound key.now (E.key (slice_index_or self.now place d).1 (slice_index_or self.now place d).0) }
    {
        match bound {
            Bound::Lower => compare_bytes(self.key_at(place), key).is_lt(),
            Bound::Upper => !compare_bytes(key, self.key_at(place)).is_lt(),
        }
    }
}
