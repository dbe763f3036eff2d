//! An index and a map that run the same batches.
ghost use Rattle.std.specs.Prelude.{◌<◌};

use crate::leaves::{Filling, leaves_for};
use crate::load::{BATCH, Load, fresh};
use crate::runs::Runs;
use crate::workload::{Kind, Order, Random, answer, drawn, upserts};
use anyhow::Result;
use bw_batch::{Index, Key, Op, OpenGate, Options, Replies, Reply, Tree, Value};
use bw_memory::Alloc;
use std::collections::BTreeMap;
use std::thread::Threads;
use std::time::{Clock, Instant};

/// As many records as the program keeps where nothing is said.
pub const RECORDS_DEFAULT: u64 = 1 << 20;

/// What an index of so many workers is told, which sweeps at so many records.
pub fn options(workers: u64, record_max: u64) -> Result<Options> {
    Ok(Options::new(workers, 64, 8, 64, 16, BATCH, record_max)?)
}

/// What an index is told where nothing else is said.
pub fn options_of(workers: u64) -> Result<Options> {
    options(workers, RECORDS_DEFAULT)
}

/// Where the memory of operations and replies, of an index and of a map comes from.
#[derive(Clone, Copy)]
pub struct Heaps {
    pub ops: Alloc,
    pub index: Alloc,
    pub map: Alloc,
}

/// All from one heap.
pub fn one_heap(alloc: Alloc) -> Heaps {
    Heaps {
        ops: alloc,
        index: alloc,
        map: alloc,
    }
}

/// An index over a leaf for each 44 of so many keys.
pub fn index_over(alloc: Alloc, options: Options, keys: u64, filling: Filling) -> Result<Index> {
    let tree = Tree::from_level(alloc, leaves_for(alloc, keys, filling)?)?;
    Ok(Index::from_tree(alloc, options, tree)?)
}

/// An index and a map with the same pairs.
pub struct Rivals {
    pub index: Index,
    pub map: BTreeMap<Key, Value, Alloc>,
}

// Not derived: whoever drops both calls this, and its proof is spared the parts.
impl Drop for Rivals {
    fn drop(self) {
        let Rivals {
            index: _index,
            map: _map,
        } = self;
    }
}

impl Rivals {
    /// Both without keys.
    pub fn new(heaps: Heaps, options: Options) -> Result<Rivals> {
        Ok(Rivals {
            index: Index::new(heaps.index, options)?,
            map: BTreeMap::new(heaps.map),
        })
    }

    // Both without keys, the index over a leaf for each 44 of so many keys.
    fn over_leaves(heaps: Heaps, options: Options, keys: u64) -> Result<Rivals> {
        Ok(Rivals {
            index: index_over(heaps.index, options, keys, Filling::Empty)?,
            map: BTreeMap::new(heaps.map),
        })
    }

    /// Both with so many rising keys, put by batches, the index over a leaf for each 44 of them.
    pub fn filled<R: Threads + Clock + Sync>(
        rt: &R,
        heaps: Heaps,
        options: Options,
        keys: u64,
    ) -> Result<Rivals> {
        let mut rivals = Rivals::over_leaves(heaps, options, keys)?;
        rivals.fill(rt, heaps.ops, Order::Rising, keys)?;
        Ok(rivals)
    }

    /// Both with so many scattered keys, put by batches, the index over the pages that it made for them.
    pub fn grown<R: Threads + Clock + Sync>(
        rt: &R,
        heaps: Heaps,
        options: Options,
        keys: u64,
    ) -> Result<Rivals> {
        let mut rivals = Rivals::new(heaps, options)?;
        rivals.fill(rt, heaps.ops, Order::Scattered, keys)?;
        Ok(rivals)
    }

    // Puts so many keys in both, by the longest batches.
    fn fill<R: Threads + Clock + Sync>(
        &mut self,
        rt: &R,
        alloc: Alloc,
        order: Order,
        keys: u64,
    ) -> Result<()> {
        let mut runs = Runs::new(alloc);
        self.put(rt, alloc, order, fresh(keys, BATCH), &mut runs)
    }

    /// Puts the keys of a load in both, by its batches.
    pub fn put<R: Threads + Clock + Sync>(
        &mut self,
        rt: &R,
        alloc: Alloc,
        order: Order,
        load: Load,
        runs: &mut Runs,
    ) -> Result<()> {
        for place in 0..load.rounds {
            let from = place.saturating_mul(load.operations);
            let to = from.saturating_add(load.operations).min(load.keys);
            self.put_places(rt, alloc, order, from, to, runs)?;
        }
        Ok(())
    }

    // Puts the keys that come from place `from` on and before `to` in both, by one batch.
    fn put_places<R: Threads + Clock + Sync>(
        &mut self,
        rt: &R,
        alloc: Alloc,
        order: Order,
        from: u64,
        to: u64,
        runs: &mut Runs,
    ) -> Result<()> {
        let ops = upserts(alloc, order, from, to)?;
        self.run(rt, alloc, &ops, runs)
    }

    /// Runs the batches of a load, which are drawn from a seed.
    pub fn run_drawn<R: Threads + Clock + Sync>(
        &mut self,
        rt: &R,
        alloc: Alloc,
        load: Load,
        kind: Kind,
        seed: u64,
        runs: &mut Runs,
    ) -> Result<()>
        requires { 0 < load.keys }
    {
        let mut random = Random { state: seed };
        for _ in 0..load.rounds {
            self.run_next(rt, alloc, &mut random, load, kind, runs)?;
        }
        Ok(())
    }

    // Runs one batch of a load, which is drawn.
    fn run_next<R: Threads + Clock + Sync>(
        &mut self,
        rt: &R,
        alloc: Alloc,
        random: &mut Random,
        load: Load,
        kind: Kind,
        runs: &mut Runs,
    ) -> Result<()>
        requires { 0 < load.keys }
    {
        let ops = drawn(alloc, random, load, kind)?;
        self.run(rt, alloc, &ops, runs)
    }

    /// Runs a batch on both, times it, and counts the replies that are the same.
    pub fn run<R: Threads + Clock + Sync>(
        &mut self,
        rt: &R,
        alloc: Alloc,
        ops: &[Op],
        runs: &mut Runs,
    ) -> Result<()> {
        let replies = run_index(rt, &mut self.index, ops, runs)?;
        let expected = self.run_map(rt, alloc, ops, runs)?;
        runs.count_same(replies.as_slice(), &expected);
        Ok(())
    }

    // Runs a batch on the map, and times it.
    fn run_map<R: Clock>(
        &mut self,
        rt: &R,
        alloc: Alloc,
        ops: &[Op],
        runs: &mut Runs,
    ) -> Result<Vec<Reply, Alloc>> {
        let start = Instant::now(rt)?;
        let replies = answers(alloc, &mut self.map, ops)?;
        runs.map.push(start.elapsed(rt)?)?;
        Ok(replies)
    }

    /// The index alone.
    pub fn into_index(self) -> Index {
        let Rivals { index, map: _map } = self;
        index
    }
}

/// Runs a batch on an index, and times it.
pub fn run_index<R: Threads + Clock + Sync>(
    rt: &R,
    index: &mut Index,
    ops: &[Op],
    runs: &mut Runs,
) -> Result<Replies> {
    let start = Instant::now(rt)?;
    let replies = replies_of(rt, index, ops, runs)?;
    runs.index.push(start.elapsed(rt)?)?;
    Ok(replies)
}

// Runs a batch on an index, and counts the leaves that were replaced.
fn replies_of<R: Threads + Sync>(
    rt: &R,
    index: &mut Index,
    ops: &[Op],
    runs: &mut Runs,
) -> Result<Replies> {
    let done = index.run(rt, ops, &OpenGate)?;
    runs.replaced = runs.replaced.saturating_add(done.replaced);
    Ok(done.replies)
}

// What a map answers to the operations of a batch, one after another.
fn answers(
    alloc: Alloc,
    map: &mut BTreeMap<Key, Value, Alloc>,
    ops: &[Op],
) -> Result<Vec<Reply, Alloc>> {
    let mut replies = Vec::with_capacity(alloc, ops.len())?;
    for op in ops {
        put_answer(alloc, map, op, &mut replies)?;
    }
    Ok(replies)
}

fn put_answer(
    alloc: Alloc,
    map: &mut BTreeMap<Key, Value, Alloc>,
    op: &Op,
    replies: &mut Vec<Reply, Alloc>,
) -> Result<()> {
    replies.push(answer(alloc, map, op)?)?;
    Ok(())
}
