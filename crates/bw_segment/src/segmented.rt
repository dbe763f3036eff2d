// Lists in segments.
ghost use Rattle.std.specs.Prelude.{◌≡◌, ◌+◌, ◌^◌, ◌<◌, ◌≤◌, ◌++◌, ◌∷◌, [], length, take, drop, slice_get, slice_set, vec_capacity, Some, IfOk, OnOk, OnErr};
ghost use Rattle.std.specs.Option.{option_map};

use bw_key::Memory;
use bw_memory::Alloc;
use std::marker::Model;
use std::mem;

/// How many entries a segment has.
pub const SEGMENT: usize = 1024;

/// The most segments that are full: 2^32.
pub const SEGMENTS_MAX: usize = 1 << 32;

/// A list in segments of `SEGMENT` entries, of which the last one may have fewer.
///
/// An entry that was added stays where it is in memory, but for those of the first segment, and of one that was cut: these
/// grow as a `Vec` does, so that a short list takes little. Each other segment is made at once. Entries are found by their
/// places in constant time.
pub struct Segmented<T> {
    full: Vec<Vec<T, Alloc>, Alloc>,
    last: Vec<T, Alloc>,
}

// Not derived: whoever drops one calls this, and its proof is spared the parts.
impl<T: Drop> Drop for Segmented<T> {
    fn drop(self) {
        let Segmented {
            full: _full,
            last: _last,
        } = self;
    }
}

impl<T> Model for Segmented<T> {
    ghost use Rattle.std.specs.Prelude.{◌-◌, length, vec_capacity, map, min};
    ghost use Rattle.bw_segment.specs.Segments.{IsSegmented, SegmentedView, joined};

    ghost Value = { SegmentedView T };

    ghost view = { λ s. record {
      items = joined (map (λ v. v.items) s.full.items) s.last.items;
      room = min 1024 (vec_capacity s.last) - length s.last.items;
    } };

    ghost invariant = { λ s. IsSegmented (map (λ v. v.items) s.full.items) s.last.items };
}

impl<T: Drop> Segmented<T> {
    /// The empty list. It takes no memory.
    pub fn new(alloc: Alloc) -> Segmented<T>
        ensures { result.items ≡ [] }
    {
        Segmented {
            full: Vec::new(alloc),
            last: Vec::new(alloc),
        }
    }

    /// An empty list with room for so many entries, or for a segment of them where they are more. `Memory` is answered where
    /// that is refused.
    pub fn with_capacity(alloc: Alloc, capacity: usize) -> Result<Segmented<T>, Memory>
        ensures { IfOk result (λ list. list.items ≡ []) }
    {
        Ok(Segmented {
            full: Vec::new(alloc),
            last: Vec::with_capacity(alloc, capacity.min(SEGMENT))?,
        })
    }

    /// The allocator that the list has its memory from. Contracts don't see it.
    pub fn allocator(&self) -> Alloc {
        *self.last.allocator()
    }

    /// How many entries there are.
    pub fn len(&self) -> usize
        ensures { result ≡ length self.now.items }
    {
        self.full.len() * SEGMENT + self.last.len()
    }

    /// The entry at a place, if there is one.
    pub fn get(&self, place: usize) -> Option<&T>
        ensures { option_map (λ entry. entry.now) result ≡ slice_get self.now.items place }
    {
        let segment = place / SEGMENT;
        if segment < self.full.len() {
            Some(&self.full[segment][place % SEGMENT])
        } else if segment == self.full.len() {
            self.last.get(place % SEGMENT)
        } else {
            None
        }
    }

    /// Puts an entry in the place of another, which it answers.
    pub fn replace(&mut self, place: usize, entry: T) -> T
        requires { place < length self.old.items }
        ensures old { slice_get self.old.items place ≡ Some result }
        ensures items { self.new.items ≡ slice_set self.old.items place entry }
        ensures room { self.new.room ≡ self.old.room }
    {
        let segment = place / SEGMENT;
        if segment < self.full.len() {
            return replace_in(&mut self.full[segment], place % SEGMENT, entry);
        }
        replace_in(&mut self.last, place % SEGMENT, entry)
    }

    /// Puts an entry in the place of another, which is dropped.
    pub fn set(&mut self, place: usize, entry: T)
        requires { place < length self.old.items }
        ensures items { self.new.items ≡ slice_set self.old.items place entry }
        ensures room { self.new.room ≡ self.old.room }
    {
        let _old = self.replace(place, entry);
    }

    /// Makes room for one more entry, which in one call of 1,024 means a new segment, and in some calls a growth of the first
    /// one, or of one that was cut. `Memory` is answered where a growth is refused, and where `SEGMENTS_MAX` segments are full;
    /// the list is as before.
    pub fn make_room(&mut self) -> Result<(), Memory>
        ensures items { self.new.items ≡ self.old.items }
        ensures ok { OnOk result (0 < self.new.room) }
    {
        if self.last.len() < SEGMENT {
            self.last.reserve(1)?;
            return Ok(());
        }
        let next = Vec::with_capacity(*self.last.allocator(), SEGMENT)?;
        begin_segment(&mut self.full, &mut self.last, next)
    }

    /// Adds an entry behind the others. It takes no memory: room was made.
    pub fn push_reserved(&mut self, entry: T)
        requires { 0 < self.old.room }
        ensures items { self.new.items ≡ self.old.items ++ entry ∷ [] }
        ensures room { self.old.room ≡ self.new.room + 1 }
    {
        self.last.push_reserved(entry);
    }

    /// Adds an entry behind the others. `Memory` is answered as by `make_room`, and then the list is as before.
    pub fn push(&mut self, entry: T) -> Result<(), Memory>
        ensures ok { OnOk result (self.new.items ≡ self.old.items ++ entry ∷ []) }
        ensures err { OnErr result (self.new.items ≡ self.old.items) }
    {
        self.make_room()?;
        self.push_reserved(entry);
        Ok(())
    }

    /// Adds the entries of another list behind the others. Where this list has a multiple of `SEGMENT` entries, each segment
    /// of the other that stands behind full ones is taken as it is, and no entry is moved. Else they are moved one by one.
    /// `Memory` is answered as by `make_room`, and then the list is as before.
    pub fn append(&mut self, other: Segmented<T>) -> Result<(), Memory>
        ensures ok { OnOk result (self.new.items ≡ self.old.items ++ other.items) }
        ensures err { OnErr result (self.new.items ≡ self.old.items) }
    {
        let len = self.len();
        let appended = self.append_segments(other);
        if appended.is_err() {
            self.truncate(len);
        }
        appended
    }

    // Adds the entries of another list, or some of them.
    fn append_segments(&mut self, other: Segmented<T>) -> Result<(), Memory>
        ensures ok { OnOk result (self.new.items ≡ self.old.items ++ other.items) }
        ensures others { take (length self.old.items) self.new.items ≡ self.old.items }
    {
        let Segmented { full, last } = other;
        for segment in full {
            self.append_segment(segment)?;
        }
        self.append_segment(last)
    }

    // Adds the entries of a segment, or some of them.
    fn append_segment(&mut self, segment: Vec<T, Alloc>) -> Result<(), Memory>
        requires { length segment.items ≤ 1024 }
        ensures ok { OnOk result (self.new.items ≡ self.old.items ++ segment.entry.items) }
        ensures others { take (length self.old.items) self.new.items ≡ self.old.items }
    {
        if self.last.is_empty() {
            self.last = segment;
            return Ok(());
        }
        if self.last.len() == SEGMENT {
            return begin_segment(&mut self.full, &mut self.last, segment);
        }
        for entry in segment {
            self.push(entry)?;
        }
        Ok(())
    }

    /// Leaves the first `len` entries, or all where there are no more. The segments behind them are given back. So is room of
    /// the list of their names, and of the last one where some of its entries went and under a quarter of its room is left to
    /// the others. It costs a step for each entry that goes, and a copy of what is left in smaller blocks; where one is
    /// refused, the room stays.
    pub fn truncate(&mut self, len: usize)
        ensures { self.new.items ≡ take len self.old.items }
    {
        let segment = len / SEGMENT;
        if segment < self.full.len() {
            self.full.truncate(segment + 1);
            let Some(last) = self.full.pop() else {
                unreachable!();
            };
            self.full.shrink_to(segment.saturating_mul(2));
            let _old = mem::replace(&mut self.last, last);
            cut(&mut self.last, len % SEGMENT);
        } else if segment == self.full.len() {
            cut(&mut self.last, len % SEGMENT);
        }
    }
}

impl<T: Copy + Drop> Segmented<T> {
    /// Puts entries in the places of others, from the one at `start` on. It takes no memory.
    pub fn overwrite(&mut self, start: usize, entries: &[T])
        requires { start + length entries.now ≤ length self.old.items }
        ensures items { self.new.items
            ≡ take start self.old.items ++ entries.now ++ drop (start + length entries.now) self.old.items }
        ensures room { self.new.room ≡ self.old.room }
    {
        // A look at a field is what makes the type's rule known here: there are fewer entries than can be counted.
        let _ = &self.last;
        for (place, entry) in entries.iter().enumerate() {
            self.set(start + place, *entry);
        }
    }
}

// Puts the last segment behind the full ones, as it is full, too, and another in its place. After `Memory` all is as before.
fn begin_segment<T: Drop>(
    full: &mut Vec<Vec<T, Alloc>, Alloc>,
    last: &mut Vec<T, Alloc>,
    next: Vec<T, Alloc>,
) -> Result<(), Memory>
    ensures full { OnOk result (full.new.items ≡ full.old.items ++ last.old ∷ []) }
    ensures last { OnOk result (last.new ≡ next.entry) }
    ensures few { OnOk result (length full.new.items ≤ 2 ^ 32) }
    ensures err { OnErr result ((full.new.items ≡ full.old.items) × (last.new ≡ last.old)) }
{
    if full.len() >= SEGMENTS_MAX {
        return Err(Memory);
    }
    full.reserve(1)?;
    full.push_reserved(mem::replace(last, next));
    Ok(())
}

// Leaves the first `len` entries. Where some went and the others take under a quarter of the room, as much again is left.
fn cut<T: Drop>(entries: &mut Vec<T, Alloc>, len: usize)
    ensures { entries.new.items ≡ take len entries.old.items }
{
    let before = entries.len();
    entries.truncate(len);
    if len < before && len < entries.capacity() / 4 {
        entries.shrink_to(len.saturating_mul(2));
    }
}

// Puts an entry in the place of another in one segment.
fn replace_in<T: Drop>(entries: &mut Vec<T, Alloc>, place: usize, entry: T) -> T
    requires { place < length entries.old.items }
    ensures old { slice_get entries.old.items place ≡ Some result }
    ensures items { entries.new.items ≡ slice_set entries.old.items place entry }
    ensures capacity { vec_capacity entries.new ≡ vec_capacity entries.old }
{
    mem::replace(&mut entries[place], entry)
}
