// Lists of pairs.
ghost use Rattle.std.specs.Prelude.{◌≡◌, ℕ, ◌+◌, ◌^◌, ◌<◌, ◌≤◌, ◌++◌, ◌∷◌, [], List, length, take, slice_range, slice_index_or, IfOk, OnOk, OnErr, ◌==◌, ◌-◌, min};
ghost use Rattle.std.specs.List.{sum_by};
ghost use Rattle.std.specs.Ordering.{is_lt};
ghost use Rattle.bw_key.specs.Order.{key_cmp};
ghost use Rattle.bw_packed.specs.Search.{EndsAt};

use crate::iter::Iter;
use crate::list::Packed;
use crate::runs::Run;
use crate::sorted_search::Keyed;
use bw_key::Memory;
use bw_memory::Alloc;
use std::alloc::AllocError;
use std::marker::Model;
use std::ops::Range;

/// How many of an entry's first bytes are its key.
#[derive(Clone, Copy, Debug)]
struct KeyLen(u32);

impl Model for KeyLen {
    ghost use Rattle.std.specs.Prelude.{ℕ};

    ghost Value = { ℕ };

    ghost view = { λ k. k.0 };

    ghost inverse = { λ n. record { 0 = n } };
}

impl KeyLen {
    // A key has no more bytes than its entry, which this need not know.
    fn within(self, bytes: &[u8]) -> usize
        ensures { result ≡ min self (length bytes.now) }
    {
        bytes.len().min(self.0 as usize)
    }
}

impl Keyed for KeyLen {
    ghost use Rattle.std.specs.Prelude.{take};

    ghost key = { λ k bytes. take k bytes };

    fn key<'a>(&self, bytes: &'a [u8]) -> &'a [u8] {
        &bytes[..self.within(bytes)]
    }
}

/// Keys and their values.
///
/// A pair takes the bytes of both and eight more, in two blocks of memory for all pairs. Contracts see the list of pairs.
#[derive(Debug)]
pub struct Pairs {
    entries: Packed<KeyLen>,
}

// Not derived: whoever drops one calls this, and its proof is spared the parts.
impl Drop for Pairs {
    fn drop(self) {
        let Pairs { entries: _entries } = self;
    }
}

impl Model for Pairs {
    ghost use Rattle.std.specs.Prelude.{List, ℕ, map};
    ghost use Rattle.bw_packed.specs.Pairs.{pair_of};

    ghost Value = { List (List ℕ × List ℕ) };

    ghost view = { λ p. map pair_of p.entries };
}

impl Pairs {
    /// No pairs. It takes no memory.
    pub fn new(alloc: Alloc) -> Pairs
        ensures { result ≡ [] }
    {
        Pairs {
            entries: Packed::new(alloc),
        }
    }

    /// No pairs, with room for so many, whose keys and values have so many bytes together. It takes two growths at most,
    /// and answers `Memory` where one of them is refused.
    pub fn with_capacity(alloc: Alloc, pairs: usize, bytes: usize) -> Result<Pairs, Memory>
        ensures { IfOk result (λ list. list ≡ []) }
    {
        Ok(Pairs {
            entries: Packed::with_capacity(alloc, pairs, bytes)?,
        })
    }

    /// How many pairs there are.
    pub fn len(&self) -> usize
        ensures { result ≡ length self.now }
    {
        self.entries.len()
    }

    /// Whether there is no pair.
    pub fn is_empty(&self) -> bool
        ensures { result ≡ (length self.now == 0) }
    {
        self.entries.is_empty()
    }

    /// The pairs one after another, from the first one on; `for (key, value) in &pairs` reads them so.
    pub fn iter(&self) -> Iter<'_>
        ensures { result ≡ self.now }
    {
        self.all().iter()
    }

    /// The key at a place.
    pub fn key_at(&self, place: usize) -> &[u8]
        requires { place < length self.now }
        ensures { (d : List ℕ × List ℕ) → result.now ≡ (slice_index_or self.now place d).0 }
    {
        self.entries.key_at(place)
    }

    /// The value at a place.
    pub fn value_at(&self, place: usize) -> &[u8]
        requires { place < length self.now }
        ensures { (d : List ℕ × List ℕ) → result.now ≡ (slice_index_or self.now place d).1 }
    {
        let bytes = self.entries.bytes_at(place);
        &bytes[self.entries.tag_at(place).within(bytes)..]
    }

    /// An equal list with just the room that it needs, from the allocator of this one. `Memory` is answered where one of
    /// two growths is refused.
    pub fn copy(&self) -> Result<Pairs, Memory>
        ensures { IfOk result (λ copy. copy ≡ self.now) }
    {
        self.all().copy(self.allocator())
    }

    /// How many bytes the keys and values of a range of places have together.
    pub fn bytes_in(&self, range: Range<usize>) -> usize
        requires ordered { range.start ≤ range.end }
        requires within { range.end ≤ length self.now }
        ensures value { let pairs = slice_range self.now range.start range.end in
            result ≡ sum_by (λ pair. length pair.0 + length pair.1) pairs }
        ensures limit { result < 2 ^ 32 }
    {
        self.entries.bytes_in(range)
    }

    /// All pairs, to look at.
    pub fn all(&self) -> Run<'_>
        ensures { result ≡ self.now }
    {
        self.run(0..self.len())
    }

    /// The pairs of a range of places, to look at.
    pub fn run(&self, range: Range<usize>) -> Run<'_>
        requires ordered { range.start ≤ range.end }
        requires within { range.end ≤ length self.now }
        ensures { result ≡ slice_range self.now range.start range.end }
    {
        Run::new(self, range)
    }

    /// What the pairs take their memory from.
    pub fn allocator(&self) -> Alloc {
        self.entries.allocator()
    }

    /// Adds a pair. `Memory` is answered where a growth is refused, or where the bytes of all pairs would be more than
    /// `BYTES_MAX`, and then the list stays as it is.
    pub fn push(&mut self, key: &[u8], value: &[u8]) -> Result<(), Memory>
        ensures ok { OnOk result (self.new ≡ self.old ++ (key.now, value.now) ∷ []) }
        ensures err { OnErr result (self.new ≡ self.old) }
    {
        let key_len = u32::try_from(key.len()).map_err(|_| Memory)?;
        self.entries.push_parts(key, value, KeyLen(key_len))
    }

    /// Adds a run of pairs: one copy of a block of bytes, and one addition for each pair. It answers as `push` does.
    pub fn extend(&mut self, run: &Run<'_>) -> Result<(), Memory>
        ensures ok { OnOk result (self.new ≡ self.old ++ run.now) }
        ensures err { OnErr result (self.new ≡ self.old) }
    {
        let (pairs, range) = run.parts();
        self.entries.extend(&pairs.entries, range)
    }

    /// Makes room for so many more pairs, whose keys and values have so many bytes together: one growth of each of two blocks
    /// at most, where `push` and `extend` would grow them again and again. `Memory` is answered where a growth is refused.
    pub fn reserve(&mut self, pairs: usize, bytes: usize) -> Result<(), Memory>
        ensures { self.new ≡ self.old }
    {
        self.entries.reserve(pairs, bytes)
    }

    /// Leaves the first pairs, so many of them. It takes no memory, and gives none back.
    pub fn truncate(&mut self, len: usize)
        ensures { self.new ≡ take len self.old }
    {
        self.entries.truncate(len);
    }

    /// Gives back the room that isn't used. Where a smaller block is refused, the larger one stays.
    pub fn shrink_to_fit(&mut self)
        ensures { self.new ≡ self.old }
    {
        self.entries.shrink_to_fit();
    }

    /// How many pairs of a range of places have a key below the given one, where these come first.
    pub(crate) fn place(&self, range: Range<usize>, key: &[u8]) -> usize
        requires ordered { range.start ≤ range.end }
        requires within { range.end ≤ length self.now }
        ensures bound { result ≤ range.end - range.start }
        ensures parts { let pairs = slice_range self.now range.start range.end in
            EndsAt (λ pair. is_lt (key_cmp pair.0 key.now)) pairs result }
    {
        self.entries.place(range, key)
    }
}

/// An equal list with just the room that it needs, from the allocator of this one: two growths at most.
impl Clone for Pairs {
    ghost is_clone = { λ pairs copy. copy ≡ pairs };

    fn clone(&self) -> Result<Pairs, AllocError> {
        match self.copy() {
            Ok(copy) => Ok(copy),
            Err(_) => Err(AllocError),
        }
    }
}

impl PartialEq for Pairs {
    ghost use Rattle.bw_packed.specs.Pairs.{pairs_eq, pairs_eq_laws};

    ghost eq = { pairs_eq };

    ghost laws = { pairs_eq_laws };

    fn eq(&self, other: &Pairs) -> bool {
        self.all().is_same(&other.all())
    }
}

impl Eq for Pairs {
    ghost use Rattle.bw_packed.specs.Pairs.{pairs_eq_equiv};

    ghost laws = { pairs_eq_equiv };
}
