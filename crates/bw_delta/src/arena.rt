// Delta records in the order in which they were made.
ghost use Rattle.std.specs.Prelude.{◌≡◌, ◌+◌, ◌<◌, ◌≤◌, [], ◌∷◌, ◌++◌, length, take, drop, slice_get, IfOk, OnOk, OnErr};
ghost use Rattle.std.specs.Option.{option_map};
ghost use Rattle.bw_delta.specs.Arenas.{deltas_of, links_of};

use crate::deltas::Delta;
use bw_key::Memory;
use bw_memory::Alloc;
use bw_segment::Segmented;
use std::marker::Model;

/// An append-only list of delta records, each with one link word: the word of what stands under it in its chain.
///
/// The links lie in a list of their own, so that a walk along a chain touches 8 bytes a record. Both lists grow by segments,
/// so that few records that stand are moved for one that is added: those of one segment at the most.
pub struct Arena {
    deltas: Segmented<Delta>,
    links: Segmented<u64>,
}

// Not derived: whoever drops one calls this, and its proof is spared the parts.
impl Drop for Arena {
    fn drop(self) {
        let Arena {
            deltas: _deltas,
            links: _links,
        } = self;
    }
}

impl Model for Arena {
    ghost use Rattle.std.specs.Prelude.{◌≡◌, length, min};
    ghost use Rattle.std.specs.List.{zip};
    ghost use Rattle.bw_delta.specs.Arenas.{ArenaView};

    ghost Value = { ArenaView };

    ghost view = { λ a. record { records = zip a.deltas.items a.links.items; room = min a.deltas.room a.links.room } };

    ghost invariant = { λ a. length a.links.items ≡ length a.deltas.items };
}

impl Arena {
    /// An arena with no record. It takes no memory.
    pub fn new(alloc: Alloc) -> Arena
        ensures { result.records ≡ [] }
    {
        Arena {
            deltas: Segmented::new(alloc),
            links: Segmented::new(alloc),
        }
    }

    /// An arena with no record, and with room for so many, or for a segment of them where they are more. `Memory` is answered
    /// where that is refused.
    pub fn with_capacity(alloc: Alloc, capacity: usize) -> Result<Arena, Memory>
        ensures { IfOk result (λ arena. arena.records ≡ []) }
    {
        Ok(Arena {
            deltas: Segmented::with_capacity(alloc, capacity)?,
            links: Segmented::with_capacity(alloc, capacity)?,
        })
    }

    /// How many records there are.
    pub fn len(&self) -> usize
        ensures { result ≡ length self.now.records }
    {
        self.deltas.len()
    }

    /// Makes room for one more record. After `Memory` the records are as before.
    pub fn make_room(&mut self) -> Result<(), Memory>
        ensures records { self.new.records ≡ self.old.records }
        ensures ok { OnOk result (0 < self.new.room) }
    {
        self.deltas.make_room()?;
        self.links.make_room()?;
        Ok(())
    }

    /// Adds a record with its link word behind the others. It takes no memory: room was made.
    pub fn append(&mut self, delta: Delta, link: u64)
        requires { 0 < self.old.room }
        ensures records { self.new.records ≡ self.old.records ++ (delta, link) ∷ [] }
        ensures room { self.old.room ≡ self.new.room + 1 }
    {
        self.deltas.push_reserved(delta);
        self.links.push_reserved(link);
    }

    /// Adds the records of another arena behind the others, with their link words. Behind full segments those of the other are
    /// taken as they are, as by `Segmented::append`, and no record is moved. After `Memory` the records are as before.
    pub fn append_all(&mut self, other: Arena) -> Result<(), Memory>
        ensures ok { OnOk result (self.new.records ≡ self.old.records ++ other.records) }
        ensures err { OnErr result (self.new.records ≡ self.old.records) }
    {
        let before = self.len();
        let Arena { deltas, links } = other;
        self.deltas.append(deltas)?;
        if let Err(memory) = self.links.append(links) {
            self.deltas.truncate(before);
            return Err(memory);
        }
        Ok(())
    }

    /// Gives the records from place `start` on these link words. It takes no memory.
    pub fn set_links(&mut self, start: usize, links: &[u64])
        requires { start + length links.now ≤ length self.old.records }
        ensures deltas { deltas_of self.new.records ≡ deltas_of self.old.records }
        ensures links { let old = links_of self.old.records in
            links_of self.new.records ≡ take start old ++ links.now ++ drop (start + length links.now) old }
        ensures room { self.new.room ≡ self.old.room }
    {
        self.links.overwrite(start, links);
    }

    /// Leaves the first `len` records, or all where there are no more, and gives back the segments behind them, as
    /// `Segmented::truncate` does. It is never refused.
    pub fn truncate(&mut self, len: usize)
        ensures { self.new.records ≡ take len self.old.records }
    {
        self.deltas.truncate(len);
        self.links.truncate(len);
    }

    /// Leaves no record, and of each list no segment that had one.
    pub fn clear(&mut self)
        ensures { self.new.records ≡ [] }
    {
        self.truncate(0);
    }

    /// The record at a place, with its link word.
    pub fn get(&self, at: usize) -> Option<(&Delta, u64)>
        ensures { option_map (λ entry. (entry.0.now, entry.1)) result ≡ slice_get self.now.records at }
    {
        let delta = self.deltas.get(at)?;
        let link = self.links.get(at)?;
        Some((delta, *link))
    }

    /// The link word of the record at a place.
    pub fn link(&self, at: usize) -> Option<u64>
        ensures { result ≡ slice_get (links_of self.now.records) at }
    {
        self.links.get(at).copied()
    }
}
