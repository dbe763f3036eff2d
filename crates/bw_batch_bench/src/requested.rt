//! The batches that a request describes.

use crate::request::Request;
use crate::rivals::{Rivals, one_heap};
use crate::runs::Runs;
use anyhow::Result;
use bw_memory::Alloc;
use std::thread::Threads;
use std::time::Clock;

/// Runs the batches that a request asks for, on an index and a map that are filled for them.
pub fn run_requested<R: Threads + Clock + Sync>(
    rt: &R,
    alloc: Alloc,
    request: &Request,
    runs: &mut Runs,
) -> Result<()> {
    let options = request.options()?;
    let mut rivals = Rivals::filled(rt, one_heap(alloc), options, request.keys)?;
    rivals.run_drawn(rt, alloc, request.load(), request.kind, request.seed, runs)
}

/// Runs the batches that a request asks for, and prints what they cost.
pub fn print_requested<R: Threads + Clock + Sync + Print>(
    rt: &R,
    alloc: Alloc,
    request: &Request,
) -> Result<()> {
    let mut runs = Runs::new(alloc);
    run_requested(rt, alloc, request, &mut runs)?;
    print_runs(rt, request, &mut runs)
}

// Prints what the batches of a request cost.
fn print_runs<R: Print>(rt: &R, request: &Request, runs: &mut Runs) -> Result<()> {
    let Request {
        keys,
        workers,
        batch,
        batches,
        seed,
        ..
    } = *request;
    let words = request.kind.words();
    let draw = request.draw.words();
    println!(rt;
        "{keys} keys, {draw}, {workers} workers, {batches} batches of {batch} {words}, seed {seed}:"
    )?;
    runs.print_times(rt, batch)?;
    if request.beside {
        let replaced = runs.replaced;
        println!(rt; "    {replaced} leaves replaced")?;
    }
    runs.print_rate(rt, batch)
}
