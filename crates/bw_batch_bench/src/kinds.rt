//! Batches of each kind, on an index and a map that are filled for them.
ghost use Rattle.std.specs.Prelude.{◌<◌};

use crate::load::{LARGE, Load, SEED, SMALL};
use crate::rivals::{Rivals, one_heap, options_of};
use crate::runs::Runs;
use crate::workload::{Draw, Kind};
use anyhow::Result;
use bw_memory::Alloc;
use std::thread::Threads;
use std::time::Clock;

// Operations of small batches, and how many of them are run.
const SIZES: [u64; 4] = [1, 8, 64, 1024];

const SMALL_ROUNDS: u64 = 1001;

// All kinds. The last one has new keys, so that those behind it would run over more.
const ALL: [Kind; 4] = [
    Kind::Gets,
    Kind::GetsAndUpserts,
    Kind::ScansAndUpserts,
    Kind::ScansAndNewKeys,
];

/// Runs batches of one kind, and prints what came of them.
pub fn print_kind<R: Threads + Clock + Sync + Print>(
    rt: &R,
    alloc: Alloc,
    rivals: &mut Rivals,
    load: Load,
    kind: Kind,
    is_timed: bool,
) -> Result<()>
    requires { 0 < load.keys }
{
    let mut runs = Runs::new(alloc);
    rivals.run_drawn(rt, alloc, load, kind, SEED, &mut runs)?;
    print_runs(rt, &mut runs, load, kind, is_timed)
}

// Prints what came of batches of one kind.
fn print_runs<R: Print>(
    rt: &R,
    runs: &mut Runs,
    load: Load,
    kind: Kind,
    is_timed: bool,
) -> Result<()> {
    let words = kind.words();
    let same = runs.same;
    let all = load.rounds.saturating_mul(load.operations);
    println!(rt; "  {words}: {same} of {all} replies are the map's")?;
    if is_timed {
        runs.print_times(rt, load.operations)?;
    }
    Ok(())
}

/// Runs batches with 1, 2 and 4 workers.
pub fn print_load<R: Threads + Clock + Sync + Print>(
    rt: &R,
    alloc: Alloc,
    load: Load,
    is_timed: bool,
) -> Result<()>
    requires { 0 < load.keys }
{
    for workers in [1, 2, 4] {
        let keys = load.keys;
        println!(rt; "{keys} keys, workers {workers}:")?;
        print_kinds(rt, alloc, load, workers, is_timed)?;
    }
    Ok(())
}

// Runs batches of all kinds.
fn print_kinds<R: Threads + Clock + Sync + Print>(
    rt: &R,
    alloc: Alloc,
    load: Load,
    workers: u64,
    is_timed: bool,
) -> Result<()>
    requires { 0 < load.keys }
{
    let mut rivals = Rivals::filled(rt, one_heap(alloc), options_of(workers)?, load.keys)?;
    for kind in ALL {
        print_kind(rt, alloc, &mut rivals, load, kind, is_timed)?;
    }
    Ok(())
}

/// Runs batches of few operations with one worker, over few keys and over many.
pub fn print_all_small<R: Threads + Clock + Sync + Print>(rt: &R, alloc: Alloc) -> Result<()> {
    print_small(rt, alloc, SMALL.keys)?;
    print_small(rt, alloc, LARGE.keys)
}

fn print_small<R: Threads + Clock + Sync + Print>(rt: &R, alloc: Alloc, keys: u64) -> Result<()>
    requires { 0 < keys }
{
    let mut rivals = Rivals::filled(rt, one_heap(alloc), options_of(1)?, keys)?;
    for operations in SIZES {
        print_size(rt, alloc, &mut rivals, keys, operations)?;
    }
    Ok(())
}

// Runs batches of so few operations.
fn print_size<R: Threads + Clock + Sync + Print>(
    rt: &R,
    alloc: Alloc,
    rivals: &mut Rivals,
    keys: u64,
    operations: u64,
) -> Result<()>
    requires { 0 < keys }
{
    println!(rt; "{keys} keys, batches of {operations}:")?;
    let load = Load {
        keys,
        draw: Draw::Uniform,
        operations,
        rounds: SMALL_ROUNDS,
    };
    print_kind(rt, alloc, rivals, load, Kind::Gets, true)?;
    print_kind(rt, alloc, rivals, load, Kind::GetsAndUpserts, true)
}
