// Base pages and the chains of delta records over them.
ghost use Rattle.std.specs.Prelude.{◌≡◌, ℕ, ◌+◌, ◌<◌, ◌≤◌, ◌^◌, ◌++◌, length, take, drop, slice_get, Some, OnOk, OnErr};
ghost use Rattle.std.specs.List.{AllByRecursion};
ghost use Rattle.std.specs.Option.{option_map};
ghost use Rattle.bw_delta.specs.Arenas.{deltas_of, links_of};
ghost use Rattle.bw_level.specs.Changes.{based};
ghost use Rattle.bw_chain.specs.Chains.{IsChain, chains_over, floor_word, link_of, page_at, record_at};
ghost use Rattle.bw_chain.specs.PlacedWrites.{writes_at_places};
ghost use Rattle.bw_chain.specs.Records.{IsWrite, IsWriteAt, unlinked};
ghost use Rattle.bw_chain.specs.Removed.{HasNoRemoved};
ghost use Rattle.bw_level.specs.Turns.{IsNoWrite, slot_without_writes, over, plain_at};

use crate::record_parts::append_writes_by;
use crate::records::{append_writes, put_write};
use bw_delta::{Arena, Delta, Write};
use bw_key::Memory;
use bw_memory::Alloc;
use bw_model::Op;
use bw_page::{Page, PageId};
use bw_segment::Segmented;
use std::marker::Model;
use std::thread::Threads;

/// Mapping words from here on name records.
pub const FLOOR: u64 = 1 << 32;

/// What mapping words name: base pages by their numbers, and records. A vacant number has no page.
#[derive(Drop)]
pub struct Chains {
    pub(crate) bases: Segmented<Option<Page>>,
    pub(crate) arena: Arena,
    // the numbers of the base pages which say that their page was removed, and maybe some that did
    pub(crate) removed: Vec<PageId, Alloc>,
}

impl Model for Chains {
    ghost use Rattle.bw_chain.specs.Chains.{ChainsView};
    ghost use Rattle.bw_chain.specs.Removed.{HasAllRemoved};

    ghost Value = { ChainsView };

    ghost view = { λ c. record { bases = c.bases.items; records = c.arena.records } };

    ghost invariant = { λ c. HasAllRemoved c.bases.items c.removed.items };
}

impl Chains {
    /// These base pages, none of them a removed one, and no record yet. It takes no memory.
    pub fn new(alloc: Alloc, bases: Segmented<Option<Page>>) -> Chains
        requires { HasNoRemoved bases.items }
        ensures { result ≡ chains_over bases.items }
    {
        Chains {
            bases,
            arena: Arena::new(alloc),
            removed: Vec::new(alloc),
        }
    }

    /// How many records there are.
    pub fn len(&self) -> usize
        ensures { result ≡ length self.now.records }
    {
        self.arena.len()
    }

    /// Appends the writes of a batch, those of the operations at these places in their order, each with its stamp and with no
    /// link yet: that of the operation at place i is `base + i`. Each key and value that is written is copied, with the
    /// allocator of the base pages.
    ///
    /// `Memory` is answered where one finds none, and where there would be more than 2^32 records; all is as before.
    pub fn append_writes(&mut self, ops: &[Op], base: u64, places: &[u32]) -> Result<(), Memory>
        requires there { AllByRecursion (λ p. p < length ops.now) places.now }
        requires fits { base + length ops.now ≤ 2 ^ 40 }
        requires few { length self.old.records ≤ 2 ^ 32 }
        ensures bases { self.new.bases ≡ self.old.bases }
        ensures ok { OnOk result
            (self.new.records ≡ self.old.records ++ unlinked (writes_at_places base ops.now places.now)) }
        ensures err { OnErr result (self.new.records ≡ self.old.records) }
        ensures few { length self.new.records ≤ 2 ^ 32 }
    {
        append_writes(self.bases.allocator(), &mut self.arena, ops, base, places)
    }

    /// The same by so many workers, one for each 4,096 places at the most, whom `rt` starts: each copies the keys and values of a
    /// part of the writes, and most records are made in the segments in which they stay. Of 0 and of 1 none is started.
    pub fn append_writes_by<R: Threads + Sync>(
        &mut self,
        rt: &R,
        ops: &[Op],
        base: u64,
        places: &[u32],
        workers: u64,
    ) -> Result<(), Memory>
        requires there { AllByRecursion (λ p. p < length ops.now) places.now }
        requires fits { base + length ops.now ≤ 2 ^ 40 }
        requires few { length self.old.records ≤ 2 ^ 32 }
        ensures bases { self.new.bases ≡ self.old.bases }
        ensures ok { OnOk result
            (self.new.records ≡ self.old.records ++ unlinked (writes_at_places base ops.now places.now)) }
        ensures err { OnErr result (self.new.records ≡ self.old.records) }
        ensures few { length self.new.records ≤ 2 ^ 32 }
    {
        let alloc = self.bases.allocator();
        append_writes_by(rt, alloc, &mut self.arena, ops, base, places, workers)
    }

    /// Gives the records from place `start` on these link words. It takes no memory.
    pub fn set_links(&mut self, start: usize, links: &[u64])
        requires { start + length links.now ≤ length self.old.records }
        ensures bases { self.new.bases ≡ self.old.bases }
        ensures deltas { deltas_of self.new.records ≡ deltas_of self.old.records }
        ensures links { let old = links_of self.old.records in
            links_of self.new.records ≡ take start old ++ links.now ++ drop (start + length links.now) old }
    {
        self.arena.set_links(start, links);
    }

    /// Takes back all records but the first `len` ones. It is never refused: what is left of a segment moves to a smaller block
    /// only where there is memory for it.
    pub fn truncate(&mut self, len: usize)
        ensures bases { self.new.bases ≡ self.old.bases }
        ensures records { self.new.records ≡ take len self.old.records }
    {
        self.arena.truncate(len);
    }

    /// The write that a record is, by its place among them.
    pub fn write_at(&self, place: usize) -> &Write
        requires { IsWrite self.now.records place }
        ensures { IsWriteAt self.now.records place result.now }
    {
        match self.arena.get(place) {
            Some((delta, _)) => put_write(delta),
            None => unreachable!(),
        }
    }

    // The record that a word names, if it names one, with the word of what stands under it.
    pub(crate) fn record(&self, word: u64) -> Option<(&Delta, u64)>
        ensures { option_map (λ r. (r.0.now, r.1)) result ≡ record_at self.now.records word }
    {
        if word < FLOOR {
            return None;
        }
        self.arena.get((word - FLOOR) as usize)
    }

    // The base page that a word names, if it names one.
    pub(crate) fn base(&self, word: u64) -> Option<&Page>
        ensures { plain_at result ≡ based (slice_get self.now.bases word) }
    {
        self.bases.get(word as usize)?.as_ref()
    }

    // The word under the record that a word names, if it names one.
    #[tactic(auto, using(crate::proofs::ChainLemmas::link_among, crate::proofs::ChainLemmas::no_link))]
    pub(crate) fn link(&self, word: u64) -> Option<u64>
        ensures { result ≡ link_of self.now.records word }
    {
        if word < FLOOR {
            return None;
        }
        self.arena.link((word - FLOOR) as usize)
    }

    // The word of a chain's lowest record, or of its base page where there is no record. It reads links alone.
    fn lowest(&self, head: u64) -> u64
        requires { IsChain self.now head }
        ensures ends { IsChain self.now result }
        ensures same { slot_without_writes (page_at self.now head) ≡ slot_without_writes (page_at self.now result) }
        ensures last { (under : ℕ) → link_of self.now.records result ≡ Some under → under < floor_word }
    {
        let mut word = head;
        while let Some(under) = self.link(word) {
            if under < FLOOR {
                return word;
            }
            word = under;
        }
        word
    }

    // What lies under the writes of a chain: at most one change, and a base page. The chain is walked by its links, and
    // of its records the lowest alone is looked at.
    pub(crate) fn under_writes(&self, head: u64) -> (Option<&Delta>, Option<&Page>)
        requires { IsChain self.now head }
        ensures same { slot_without_writes (page_at self.now head)
            ≡ slot_without_writes (over self.now.bases result.0 (plain_at result.1)) }
        ensures other { IsNoWrite result.0 }
    {
        let word = self.lowest(head);
        let Some((delta, under)) = self.record(word) else {
            return (None, self.base(word));
        };
        match delta {
            Delta::Put(_) => (None, self.base(under)),
            _ => (Some(delta), self.base(under)),
        }
    }
}
