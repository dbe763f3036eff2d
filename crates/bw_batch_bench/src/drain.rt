//! An index and a map that lose all their keys.
ghost use Rattle.std.specs.Prelude.{◌<◌};

use crate::insertion::FRESH;
use crate::load::{BATCH, Load, SEED, fresh};
use crate::memory::{counting_heap, own_heaps};
use crate::rivals::{Heaps, Rivals, one_heap, options, options_of};
use crate::runs::Runs;
use crate::workload::{Draw, Kind, Order, Random, deletes, numbers};
use anyhow::Result;
use bw_batch::{Index, OpenGate};
use bw_memory::Alloc;
use std::alloc::Global;
use std::thread::Threads;
use std::time::Clock;

/// The order in which keys go, by batches of how many, and how many workers the index has.
#[derive(Clone, Copy)]
pub struct Drain {
    pub order: Order,
    pub load: Load,
    pub workers: u64,
}

// Deletes all keys of both.
fn run_drain<R: Threads + Clock + Sync>(
    rt: &R,
    alloc: Alloc,
    rivals: &mut Rivals,
    drain: Drain,
    runs: &mut Runs,
) -> Result<()>
    requires { 0 < drain.load.operations }
{
    let mut random = Random { state: SEED };
    let numbers = numbers(alloc, &mut random, drain.order, drain.load.keys)?;
    delete(rt, alloc, rivals, &numbers, drain.load.operations, runs)
}

// Deletes the keys of these numbers from both, by batches of so many operations.
fn delete<R: Threads + Clock + Sync>(
    rt: &R,
    alloc: Alloc,
    rivals: &mut Rivals,
    numbers: &[u64],
    operations: u64,
    runs: &mut Runs,
) -> Result<()>
    requires { 0 < operations }
{
    for some in numbers.chunks(operations as usize) {
        delete_some(rt, alloc, rivals, some, runs)?;
    }
    Ok(())
}

// By one batch.
fn delete_some<R: Threads + Clock + Sync>(
    rt: &R,
    alloc: Alloc,
    rivals: &mut Rivals,
    numbers: &[u64],
    runs: &mut Runs,
) -> Result<()> {
    let ops = deletes(alloc, numbers)?;
    rivals.run(rt, alloc, &ops, runs)
}

// Runs two batches of no operation, behind which leaves without pairs are merged that had no left neighbour under their page.
fn run_empty<R: Threads + Sync>(rt: &R, index: &mut Index) -> Result<()> {
    for _ in 0..2u64 {
        index.run(rt, &[], &OpenGate)?;
    }
    Ok(())
}

/// Deletes all keys of an index and a map, and prints what came of it.
pub fn print_drain<R: Threads + Clock + Sync + Print>(
    rt: &R,
    alloc: Alloc,
    drain: Drain,
    is_timed: bool,
) -> Result<()>
    requires { 0 < drain.load.operations }
{
    let Load {
        keys,
        operations,
        ..
    } = drain.load;
    let (words, workers) = (drain.order.words(), drain.workers);
    println!(rt; "{keys} keys go, {words}, batches of {operations}, workers {workers}:")?;
    let mut runs = Runs::new(alloc);
    print_pages(rt, alloc, drain, &mut runs)?;
    if is_timed {
        runs.print_longest(rt, operations)?;
    }
    Ok(())
}

// Prints how many pages are left of an index that loses all its keys.
fn print_pages<R: Threads + Clock + Sync + Print>(
    rt: &R,
    alloc: Alloc,
    drain: Drain,
    runs: &mut Runs,
) -> Result<()>
    requires { 0 < drain.load.operations }
{
    let keys = drain.load.keys;
    let options = options_of(drain.workers)?;
    let mut rivals = Rivals::grown(rt, one_heap(alloc), options, keys)?;
    run_drain(rt, alloc, &mut rivals, drain, runs)?;
    let pages = pages_of(&rivals.index)?;
    run_empty(rt, &mut rivals.index)?;
    let behind = pages_of(&rivals.index)?;
    let same = runs.same;
    println!(rt;
        "  {same} of {keys} replies are the map's; pages left: {pages}, behind two more batches {behind}"
    )?;
    Ok(())
}

fn pages_of(index: &Index) -> Result<usize> {
    Ok(index.shape()?.len())
}

// The bytes that an index without keys has in use at first.
fn bytes_of_new(global: Global, workers: u64) -> Result<u64> {
    let heap = counting_heap(global)?;
    let index = Index::new(heap, options(workers, BATCH)?)?;
    let used = heap.used();
    drop(index);
    Ok(used)
}

// Runs a batch of reads, before which an index sweeps whose records are to be no more than one batch has.
fn sweep<R: Threads + Clock + Sync>(rt: &R, alloc: Alloc, rivals: &mut Rivals) -> Result<()> {
    let load = Load {
        keys: 1,
        draw: Draw::Uniform,
        operations: BATCH,
        rounds: 1,
    };
    let mut runs = Runs::new(alloc);
    rivals.run_drawn(rt, alloc, load, Kind::Gets, SEED, &mut runs)
}

/// Deletes all keys of an index and a map, each with a heap of its own, and prints how many bytes they have in use before
/// that and after it, and behind a sweep. The index has at most the records of one batch.
pub fn print_left<R: Threads + Clock + Sync + Print>(
    rt: &R,
    global: Global,
    alloc: Alloc,
    drain: Drain,
) -> Result<()>
    requires { 0 < drain.load.operations }
{
    let heaps = own_heaps(global, alloc)?;
    let new = bytes_of_new(global, drain.workers)?;
    let options = options(drain.workers, BATCH)?;
    let mut rivals = Rivals::grown(rt, heaps, options, drain.load.keys)?;
    let (index, map) = (heaps.index.used(), heaps.map.used());
    println!(rt; "    bytes before: index {index}, map {map}")?;
    let mut runs = Runs::new(alloc);
    run_drain(rt, alloc, &mut rivals, drain, &mut runs)?;
    print_bytes_left(rt, heaps, &mut rivals, new)
}

// Prints how many bytes an index and a map have in use that lost their keys, and behind a sweep.
fn print_bytes_left<R: Threads + Clock + Sync + Print>(
    rt: &R,
    heaps: Heaps,
    rivals: &mut Rivals,
    new: u64,
) -> Result<()> {
    let (index, map) = (heaps.index.used(), heaps.map.used());
    let records = rivals.index.tree().records();
    println!(rt;
        "    bytes after: index {index} with {records} records, map {map}; a new index has {new}"
    )?;
    sweep(rt, heaps.ops, rivals)?;
    run_empty(rt, &mut rivals.index)?;
    let (swept, records) = (heaps.index.used(), rivals.index.tree().records());
    println!(rt; "    behind a sweep: index {swept} with {records} records")?;
    Ok(())
}

/// Deletes all keys of an index and a map of many keys, in both orders.
pub fn print_all_drains<R: Threads + Clock + Sync + Print>(
    rt: &R,
    global: Global,
    alloc: Alloc,
) -> Result<()> {
    for load in [fresh(FRESH, BATCH), fresh(FRESH, 64)] {
        for order in [Order::Rising, Order::Scattered] {
            print_drains(rt, global, alloc, order, load)?;
        }
    }
    Ok(())
}

// In one order, with 1 worker and with 4.
fn print_drains<R: Threads + Clock + Sync + Print>(
    rt: &R,
    global: Global,
    alloc: Alloc,
    order: Order,
    load: Load,
) -> Result<()>
    requires { 0 < load.operations }
{
    for workers in [1, 4] {
        let drain = Drain {
            order,
            load,
            workers,
        };
        print_drain(rt, alloc, drain, true)?;
        print_left(rt, global, alloc, drain)?;
    }
    Ok(())
}
