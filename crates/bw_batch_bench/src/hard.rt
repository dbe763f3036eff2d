//! How long hard batches take, and how much longer with twice the operations.

use crate::hard_batches::{HARD_KINDS, HardBatch, HardKind, operations};
use crate::load::BATCH;
use crate::rivals::{options_of, run_index};
use crate::runs::{Runs, middle};
use crate::workload::{Order, upserts};
use anyhow::Result;
use bw_batch::{Index, OpenGate};
use bw_memory::Alloc;
use std::thread::Threads;
use std::time::Clock;

// How many operations the batches have of which nothing is timed.
const SHORT: u64 = 240;

// How often a batch is timed.
const ROUNDS: u64 = 5;

// An index of one worker with the keys that a batch needs.
fn index_for<R: Threads + Sync>(rt: &R, alloc: Alloc, batch: HardBatch) -> Result<Index> {
    let mut index = Index::new(alloc, options_of(1)?)?;
    let ops = upserts(alloc, Order::Rising, 0, batch.keys())?;
    index.run(rt, &ops, &OpenGate)?;
    Ok(index)
}

// Runs a batch on an index of its own, times it, and answers how many operations were answered.
fn run<R: Threads + Clock + Sync>(
    rt: &R,
    alloc: Alloc,
    batch: HardBatch,
    runs: &mut Runs,
) -> Result<usize> {
    let mut index = index_for(rt, alloc, batch)?;
    let ops = operations(alloc, batch)?;
    let replies = run_index(rt, &mut index, &ops, runs)?;
    Ok(replies.as_slice().len())
}

// The time in the middle, in milliseconds.
fn middle_time<R: Threads + Clock + Sync>(rt: &R, alloc: Alloc, batch: HardBatch) -> Result<f64> {
    let mut runs = Runs::new(alloc);
    for _ in 0..ROUNDS {
        run(rt, alloc, batch, &mut runs)?;
    }
    runs.index.sort_unstable();
    Ok(middle(&runs.index)?.as_secs_f64() * 1e3)
}

fn print_count<R: Threads + Clock + Sync + Print>(
    rt: &R,
    alloc: Alloc,
    kind: HardKind,
) -> Result<()> {
    let mut runs = Runs::new(alloc);
    let batch = HardBatch { kind, count: SHORT };
    let answered = run(rt, alloc, batch, &mut runs)?;
    println!(rt; "{kind}: {answered} of {SHORT} answered")?;
    Ok(())
}

/// Runs a short batch of each kind, and prints how many of its operations were answered.
pub fn print_counts<R: Threads + Clock + Sync + Print>(rt: &R, alloc: Alloc) -> Result<()> {
    for kind in HARD_KINDS {
        print_count(rt, alloc, *kind)?;
    }
    Ok(())
}

fn print_time<R: Threads + Clock + Sync + Print>(
    rt: &R,
    alloc: Alloc,
    kind: HardKind,
) -> Result<()> {
    let count = BATCH / 2;
    let half = middle_time(rt, alloc, HardBatch { kind, count })?;
    let whole = middle_time(rt, alloc, HardBatch { kind, count: BATCH })?;
    println!(rt; "{kind}: {half:.1} ms, {whole:.1} ms, {:.2}", whole / half)?;
    Ok(())
}

/// Times batches of half the operations and of all that a batch may have, and prints both and their ratio.
pub fn print_times<R: Threads + Clock + Sync + Print>(rt: &R, alloc: Alloc) -> Result<()> {
    for kind in HARD_KINDS {
        print_time(rt, alloc, *kind)?;
    }
    Ok(())
}
