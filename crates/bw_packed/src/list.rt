// Lists of byte strings, each with a tag.
ghost use Rattle.std.specs.Prelude.{◌≡◌, ℕ, suc, ◌<◌, ◌≤◌, ◌++◌, ◌∷◌, [], List, length, take, drop, slice_range, slice_index_or, IfOk, OnOk, OnErr, ◌==◌, ◌+◌, ◌-◌, ◌^◌, map, vec_len, vec_capacity};
ghost use Rattle.std.specs.List.{remove, sum_by};
ghost use Rattle.bw_packed.specs.Lists.{RiseTo, moved, start_at};

use crate::BYTES_MAX;
use bw_key::Memory;
use bw_memory::Alloc;
use std::marker::Model;
use std::ops::Range;

/// Where an entry's bytes end among those of all, and its tag.
#[derive(Clone, Copy, Debug)]
struct Entry<E: Copy> {
    end: u32,
    tag: E,
}

impl<E: Copy> Entry<E> {
    // The entry where its bytes, which stood from one place on, stand from another on.
    fn moved(&self, from: usize, to: usize) -> Entry<E>
        requires behind { from ≤ self.now.end }
        requires fits { (self.now.end - from) + to < 2 ^ 32 }
        ensures { result ≡ moved from to self.now }
    {
        Entry {
            end: (self.end as usize - from + to) as u32,
            tag: self.tag,
        }
    }
}

/// A list of entries: byte strings, each with a tag.
///
/// The bytes of all entries lie one behind the other in one block of memory. Another block has for each entry where its
/// bytes end, in four bytes, and its tag. Contracts see the list of these pairs.
#[derive(Debug)]
pub struct Packed<E: Copy> {
    bytes: Vec<u8, Alloc>,
    entries: Vec<Entry<E>, Alloc>,
}

// Not derived: whoever drops one calls this, and its proof is spared the parts.
impl<E: Copy> Drop for Packed<E> {
    fn drop(self) {
        let Packed {
            bytes: _bytes,
            entries: _entries,
        } = self;
    }
}

impl<E: Copy> Model for Packed<E> {
    ghost use Rattle.std.specs.Prelude.{List, ℕ};

    ghost Value = { List (List ℕ × E) };

    ghost use Rattle.bw_packed.specs.Lists.{unpacked, IsPacked};

    ghost view = { λ p. unpacked 0 p.bytes.items p.entries.items };

    ghost invariant = { λ p. IsPacked p.bytes.items p.entries.items };
}

impl<E: Copy> Packed<E> {
    /// The empty list. It takes no memory.
    pub fn new(alloc: Alloc) -> Packed<E>
        ensures { result ≡ [] }
    {
        Packed {
            bytes: Vec::new(alloc),
            entries: Vec::new(alloc),
        }
    }

    /// The empty list with room for so many entries, of so many bytes together. It takes two growths at most, and
    /// answers `Memory` where one of them is refused.
    pub fn with_capacity(alloc: Alloc, entries: usize, bytes: usize) -> Result<Packed<E>, Memory>
        ensures { IfOk result (λ list. list ≡ []) }
    {
        Ok(Packed {
            bytes: Vec::with_capacity(alloc, bytes)?,
            entries: Vec::with_capacity(alloc, entries)?,
        })
    }

    /// What the list takes its memory from.
    pub fn allocator(&self) -> Alloc {
        *self.bytes.allocator()
    }

    /// How many entries there are.
    pub fn len(&self) -> usize
        ensures value { result ≡ length self.now }
        ensures limit { result < 2 ^ 63 }
    {
        self.entries.len()
    }

    /// Whether there is no entry.
    pub fn is_empty(&self) -> bool
        ensures { result ≡ (length self.now == 0) }
    {
        self.entries.is_empty()
    }

    /// The bytes of the entry at a place.
    pub fn bytes_at(&self, place: usize) -> &[u8]
        requires { place < length self.now }
        ensures { (d : List ℕ × E) → result.now ≡ (slice_index_or self.now place d).0 }
    {
        let start = start_of(&self.entries, place);
        let end = self.entries[place].end as usize;
        &self.bytes[start..end]
    }

    /// The tag of the entry at a place.
    pub fn tag_at(&self, place: usize) -> E
        requires { place < length self.now }
        ensures { (d : List ℕ × E) → result ≡ (slice_index_or self.now place d).1 }
    {
        self.entries[place].tag
    }

    /// How many bytes the entries of a range of places have together.
    pub fn bytes_in(&self, range: Range<usize>) -> usize
        requires ordered { range.start ≤ range.end }
        requires within { range.end ≤ length self.now }
        ensures value { result ≡ sum_by (λ e. length e.0) (slice_range self.now range.start range.end) }
        ensures limit { result < 2 ^ 32 }
    {
        let entries = self.entries.as_slice();
        start_of(entries, range.end) - start_of(entries, range.start)
    }

    /// Adds an entry. `Memory` is answered where a growth is refused, or where all bytes would be more than `BYTES_MAX`,
    /// and then the list stays as it is.
    pub fn push(&mut self, bytes: &[u8], tag: E) -> Result<(), Memory>
        ensures ok { OnOk result (self.new ≡ self.old ++ (bytes.now, tag) ∷ []) }
        ensures err { OnErr result (self.new ≡ self.old) }
    {
        self.push_parts(bytes, &[], tag)
    }

    /// Adds an entry whose bytes are those of two parts, one behind the other. It answers as `push` does.
    pub fn push_parts(&mut self, first: &[u8], second: &[u8], tag: E) -> Result<(), Memory>
        ensures ok { OnOk result (self.new ≡ self.old ++ (first.now ++ second.now, tag) ∷ []) }
        ensures err { OnErr result (self.new ≡ self.old) }
    {
        let end = end_behind(self.bytes.len(), first.len() + second.len())?;
        self.entries.reserve(1)?;
        push_bytes(&mut self.bytes, first, second)?;
        self.entries.push_reserved(Entry { end, tag });
        Ok(())
    }

    /// Adds the entries of a range of places of another list: one copy of a block of bytes, and one addition for each
    /// end. It answers as `push` does.
    pub fn extend(&mut self, other: &Packed<E>, range: Range<usize>) -> Result<(), Memory>
        requires ordered { range.start ≤ range.end }
        requires within { range.end ≤ length other.now }
        ensures ok { OnOk result (self.new ≡ self.old ++ slice_range other.now range.start range.end) }
        ensures err { OnErr result (self.new ≡ self.old) }
    {
        let Range { start, end } = range;
        let entries = other.entries.as_slice();
        let from = start_of(entries, start);
        let run = &other.bytes[from..start_of(entries, end)];
        let to = self.bytes.len();
        let _end = end_behind(to, run.len())?;
        self.entries.reserve(end - start)?;
        self.bytes.extend_from_slice(run)?;
        push_moved(&mut self.entries, &entries[start..end], from, to);
        Ok(())
    }

    /// Makes room for so many more entries, of so many bytes together. `Memory` is answered where a growth is refused.
    pub fn reserve(&mut self, entries: usize, bytes: usize) -> Result<(), Memory>
        ensures { self.new ≡ self.old }
    {
        self.entries.reserve(entries)?;
        self.bytes.reserve(bytes)?;
        Ok(())
    }

    /// Leaves the first entries, so many of them. It takes no memory, and gives none back.
    pub fn truncate(&mut self, len: usize)
        ensures { self.new ≡ take len self.old }
    {
        if len < self.entries.len() {
            let end = start_of(&self.entries, len);
            self.bytes.truncate(end);
            self.entries.truncate(len);
        }
    }

    /// Takes away the entry at a place. It takes no memory, and gives none back: the bytes and the ends behind that entry are
    /// moved.
    pub fn remove(&mut self, place: usize)
        requires { place < length self.old }
        ensures { self.new ≡ remove self.old place }
    {
        let start = start_of(&self.entries, place);
        let end = self.entries[place].end as usize;
        remove_bytes(&mut self.bytes, start, end);
        remove_entry(&mut self.entries, place, end, start);
    }

    /// Gives back the room that isn't used. Where a smaller block is refused, the larger one stays.
    pub fn shrink_to_fit(&mut self)
        ensures { self.new ≡ self.old }
    {
        self.bytes.shrink_to_fit();
        self.entries.shrink_to_fit();
    }
}

// Where the bytes of the entry at a place begin, and behind the last place where they end.
fn start_of<E: Copy>(entries: &[Entry<E>], place: usize) -> usize
    requires { place ≤ length entries.now }
    ensures { result ≡ start_at 0 entries.now place }
{
    if place == 0 {
        0
    } else {
        entries[place - 1].end as usize
    }
}

// Where bytes end that are added behind others, if that can be counted.
fn end_behind(len: usize, more: usize) -> Result<u32, Memory>
    requires { len < 2 ^ 32 }
    ensures { IfOk result (λ end. end ≡ len + more) }
{
    if more > BYTES_MAX - len {
        return Err(Memory);
    }
    Ok((len + more) as u32)
}

// Adds two parts, one behind the other.
fn push_bytes(list: &mut Vec<u8, Alloc>, first: &[u8], second: &[u8]) -> Result<(), Memory>
    ensures ok { OnOk result (list.new.items ≡ list.old.items ++ (first.now ++ second.now)) }
    ensures err { OnErr result (list.new.items ≡ list.old.items) }
{
    list.reserve(first.len() + second.len())?;
    list.extend_from_slice(first).unwrap();
    list.extend_from_slice(second).unwrap();
    Ok(())
}

// Adds entries whose bytes stood from one place on, and stand from another on now. There is room for them.
fn push_moved<E: Copy>(list: &mut Vec<Entry<E>, Alloc>, run: &[Entry<E>], from: usize, to: usize)
    requires room { vec_len list.old + length run.now ≤ vec_capacity list.old }
    requires ends { (stop : ℕ) × (RiseTo from run.now stop × ((stop - from) + to < 2 ^ 32)) }
    ensures { list.new.items ≡ list.old.items ++ map (moved from to) run.now }
{
    for entry in run {
        list.push_reserved(entry.moved(from, to));
    }
}

// Takes away the bytes from one place up to another.
fn remove_bytes(list: &mut Vec<u8, Alloc>, start: usize, end: usize)
    requires rising { start ≤ end }
    requires within { end ≤ length list.old.items }
    ensures { list.new.items ≡ take start list.old.items ++ drop end list.old.items }
{
    let len = list.len();
    list.copy_within(end..len, start);
    list.truncate(len - (end - start));
}

// Takes away the entry at a place. The bytes of those behind it stood from one place on, and stand from another on now.
fn remove_entry<E: Copy>(list: &mut Vec<Entry<E>, Alloc>, place: usize, from: usize, to: usize)
    requires there { place < length list.old.items }
    requires ends { (stop : ℕ) × (RiseTo from (drop (suc place) list.old.items) stop × ((stop - from) + to < 2 ^ 32)) }
    ensures { list.new.items ≡ take place list.old.items ++ map (moved from to) (drop (suc place) list.old.items) }
{
    let _removed = list.remove(place);
    for i in place..list.len() {
        list[i] = list[i].moved(from, to);
    }
}
