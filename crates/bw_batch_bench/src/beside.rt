//! An index whose leaves are consolidated beside the posting of a batch, and one whose leaves are not.
ghost use Rattle.std.specs.Prelude.{◌<◌};

use crate::kinds::print_kind;
use crate::load::{BRIEF, LARGE, Load, SEED, SMALL};
use crate::rivals::{Rivals, one_heap, options_of, run_index};
use crate::runs::{Runs, cost_of};
use crate::workload::{Draw, Kind, Random, drawn};
use anyhow::Result;
use bw_batch::{Index, Options};
use bw_memory::Alloc;
use std::num::nearest_u64_to_f64;
use std::thread::Threads;
use std::time::Clock;

/// Compares the replies of an index with consolidation beside the posting and of a map over few keys.
pub fn print_checked_beside<R: Threads + Clock + Sync + Print>(rt: &R, alloc: Alloc) -> Result<()> {
    let load = Load {
        draw: Draw::Skewed,
        ..BRIEF
    };
    let options = options_of(4)?.with_beside(true);
    let keys = load.keys;
    println!(rt; "{keys} keys, skewed, workers 4, beside:")?;
    let mut rivals = Rivals::filled(rt, one_heap(alloc), options, keys)?;
    print_kind(rt, alloc, &mut rivals, load, Kind::GetsAndUpserts, false)
}

// Runs a batch of half gets and half upserts on an index.
fn run_one<R: Threads + Clock + Sync>(
    rt: &R,
    alloc: Alloc,
    index: &mut Index,
    random: &mut Random,
    load: Load,
    runs: &mut Runs,
) -> Result<()>
    requires { 0 < load.keys }
{
    let ops = drawn(alloc, random, load, Kind::GetsAndUpserts)?;
    run_index(rt, index, &ops, runs)?;
    Ok(())
}

// Runs such batches, as many as a load has.
fn run_all<R: Threads + Clock + Sync>(
    rt: &R,
    alloc: Alloc,
    index: &mut Index,
    load: Load,
    runs: &mut Runs,
) -> Result<()>
    requires { 0 < load.keys }
{
    let mut random = Random { state: SEED };
    for _ in 0..load.rounds {
        run_one(rt, alloc, index, &mut random, load, runs)?;
    }
    Ok(())
}

// Runs such batches on an index of all keys.
fn run_alone<R: Threads + Clock + Sync>(
    rt: &R,
    alloc: Alloc,
    options: Options,
    load: Load,
    runs: &mut Runs,
) -> Result<()>
    requires { 0 < load.keys }
{
    let rivals = Rivals::filled(rt, one_heap(alloc), options, load.keys)?;
    let mut index = rivals.into_index();
    run_all(rt, alloc, &mut index, load, runs)
}

// Prints what an operation costs with these options, in nanoseconds, and how many leaves were replaced a batch.
fn print_alone<R: Threads + Clock + Sync + Print>(
    rt: &R,
    alloc: Alloc,
    options: Options,
    load: Load,
) -> Result<()>
    requires { 0 < load.keys }
{
    let mut runs = Runs::new(alloc);
    run_alone(rt, alloc, options, load, &mut runs)?;
    print_runs(rt, options, load, &mut runs)
}

fn print_runs<R: Print>(rt: &R, options: Options, load: Load, runs: &mut Runs) -> Result<()> {
    let cost = cost_of(&mut runs.index, load.operations)?;
    let (middle, mean) = (cost.middle, cost.mean);
    let replaced = nearest_u64_to_f64(runs.replaced) / nearest_u64_to_f64(load.rounds);
    let words = match options.beside() {
        true => "beside ",
        false => "without",
    };
    println!(rt;
        "    {words} middle {middle:7.1}, mean {mean:7.1}, {replaced:.0} leaves replaced a batch"
    )?;
    Ok(())
}

// Without and with it, with 1, 2 and 4 workers.
fn print_both<R: Threads + Clock + Sync + Print>(rt: &R, alloc: Alloc, load: Load) -> Result<()>
    requires { 0 < load.keys }
{
    let (keys, draw) = (load.keys, load.draw.words());
    for workers in [1, 2, 4] {
        println!(rt; "{keys} keys, {draw}, workers {workers}:")?;
        let options = options_of(workers)?;
        print_alone(rt, alloc, options, load)?;
        print_alone(rt, alloc, options.with_beside(true), load)?;
    }
    Ok(())
}

/// Times batches of half gets and half upserts without consolidation beside the posting, and with it.
pub fn print_besides<R: Threads + Clock + Sync + Print>(rt: &R, alloc: Alloc) -> Result<()> {
    for draw in [Draw::Uniform, Draw::Skewed] {
        print_both(rt, alloc, Load { draw, ..SMALL })?;
        print_both(rt, alloc, Load { draw, ..LARGE })?;
    }
    Ok(())
}
