//! An empty index and an empty map that get keys.

use crate::load::{BATCH, Load, fresh};
use crate::rivals::{Rivals, one_heap, options};
use crate::runs::Runs;
use crate::workload::Order;
use anyhow::Result;
use bw_memory::Alloc;
use std::thread::Threads;
use std::time::Clock;

/// How many keys are put in an empty index.
pub const FRESH: u64 = 1 << 20;

/// So many records that no sweep is due while keys are put.
pub const RECORDS: u64 = 1 << 24;

// So few that some sweeps are.
const FEW_RECORDS: u64 = 1 << 18;

/// The order in which keys are put, by batches of how many, how many records the index has at the most, and how many
/// workers.
#[derive(Clone, Copy)]
pub struct Insertion {
    pub order: Order,
    pub load: Load,
    pub record_max: u64,
    pub workers: u64,
}

/// Puts keys in one order, and prints what came of it.
pub fn print_insertion<R: Threads + Clock + Sync + Print>(
    rt: &R,
    alloc: Alloc,
    insertion: Insertion,
    is_timed: bool,
) -> Result<()> {
    let words = insertion.order.words();
    let Load {
        keys,
        operations,
        ..
    } = insertion.load;
    let (most, workers) = (insertion.record_max, insertion.workers);
    println!(rt;
        "{keys} fresh keys, {words}, batches of {operations}, at most {most} records, workers {workers}:"
    )?;
    let mut runs = Runs::new(alloc);
    insert(rt, alloc, insertion, &mut runs)?;
    print_runs(rt, &mut runs, insertion.load, is_timed)
}

// Puts keys in an empty index and an empty map.
fn insert<R: Threads + Clock + Sync>(
    rt: &R,
    alloc: Alloc,
    insertion: Insertion,
    runs: &mut Runs,
) -> Result<()> {
    let options = options(insertion.workers, insertion.record_max)?;
    let mut rivals = Rivals::new(one_heap(alloc), options)?;
    rivals.put(rt, alloc, insertion.order, insertion.load, runs)
}

fn print_runs<R: Print>(rt: &R, runs: &mut Runs, load: Load, is_timed: bool) -> Result<()> {
    let (same, keys) = (runs.same, load.keys);
    println!(rt; "  {same} of {keys} replies are the map's")?;
    if is_timed {
        runs.print_longest(rt, load.operations)?;
    }
    Ok(())
}

/// Puts many keys in an empty index, in both orders.
pub fn print_all_insertions<R: Threads + Clock + Sync + Print>(rt: &R, alloc: Alloc) -> Result<()> {
    for order in [Order::Rising, Order::Scattered] {
        print_insertions(rt, alloc, order, RECORDS, 1)?;
        print_insertions(rt, alloc, order, FEW_RECORDS, 1)?;
        print_insertions(rt, alloc, order, RECORDS, 4)?;
    }
    Ok(())
}

// By long batches and by short ones.
fn print_insertions<R: Threads + Clock + Sync + Print>(
    rt: &R,
    alloc: Alloc,
    order: Order,
    record_max: u64,
    workers: u64,
) -> Result<()> {
    for load in [fresh(FRESH, BATCH), fresh(FRESH, 64)] {
        let insertion = Insertion {
            order,
            load,
            record_max,
            workers,
        };
        print_insertion(rt, alloc, insertion, true)?;
    }
    Ok(())
}
