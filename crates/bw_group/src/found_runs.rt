// Runs of points that are at home on one leaf, which workers search for side by side.
ghost use Rattle.std.specs.Prelude.{◌<◌, IfOk};
ghost use Rattle.std.specs.List.{AllByRecursion};
ghost use Rattle.std.specs.List.Sorted.{IsSortedBy};
ghost use Rattle.std.specs.Ordering.{is_lt};
ghost use Rattle.bw_key.specs.Order.{key_cmp};
ghost use Rattle.bw_group.specs.FoundRuns.{AreFoundIn, IsFoundRun};
ghost use Rattle.bw_group.specs.Points.{entries_of};

use crate::homes::find_run;
use crate::points::Point;
use bw_key::Memory;
use bw_memory::Alloc;
use bw_tree::{PageId, Routes, Tree};
use std::thread::{Threads, for_each_mut};

// How many points are worth a thread: the searches for their leaves take longer than its start.
const LEAST_POINTS: usize = 4096;

/// The run of points that begins at a place: their leaf, and the place at which the run ends.
#[derive(Clone, Copy)]
pub(crate) struct FoundRun {
    pub(crate) start: usize,
    pub(crate) page: PageId,
    pub(crate) end: usize,
}

// The points from one place on and before another, and the runs that were found there.
#[derive(Drop)]
struct Part {
    start: usize,
    stop: usize,
    runs: Vec<FoundRun, Alloc>,
}

/// Searches for the runs of points by so many workers, one for each 4,096 points at the most. Each goes through as many points
/// as another, in a thread of its own where one can be made. One worker alone finds none, and takes no memory.
///
/// They come in the order of the points. A worker's first run may begin within the last one of the worker before it. One whose
/// list finds no memory leaves out the rest; `Memory` is answered where the list of all finds none.
pub(crate) fn find_runs<R: Threads + Sync>(
    rt: &R,
    alloc: Alloc,
    tree: &Tree,
    points: &[Point<'_>],
    workers: u64,
) -> Result<Vec<FoundRun, Alloc>, Memory>
    requires { IsSortedBy (λ d e. is_lt (key_cmp d.0 e.0)) (entries_of points.now) }
    ensures { IfOk result (λ runs. AllByRecursion (IsFoundRun tree.now points.now) runs.items) }
{
    let count = ((points.len() / LEAST_POINTS) as u64).min(workers) as usize;
    if count < 2 {
        return Ok(Vec::new(alloc));
    }
    let mut parts = parts_of(alloc, points.len(), count)?;
    search_all(rt, tree, points, count, &mut parts);
    let mut runs = Vec::new(alloc);
    for part in &parts {
        runs.extend_from_slice(&part.runs)?;
    }
    Ok(runs)
}

// So many parts of so many points, one as long as another.
fn parts_of(alloc: Alloc, len: usize, count: usize) -> Result<Vec<Part, Alloc>, Memory>
    requires { 0 < count }
{
    let size = len.div_ceil(count);
    let mut parts = Vec::with_capacity(alloc, count)?;
    for number in 0..count {
        let start = size.saturating_mul(number);
        parts.push(Part {
            start,
            stop: start.saturating_add(size),
            runs: Vec::new(alloc),
        })?;
    }
    Ok(parts)
}

// Has so many workers search, each in parts of its own.
fn search_all<R: Threads + Sync>(
    rt: &R,
    tree: &Tree,
    points: &[Point<'_>],
    workers: usize,
    parts: &mut [Part],
)
    requires workers { 0 < workers }
    requires sorted { IsSortedBy (λ d e. is_lt (key_cmp d.0 e.0)) (entries_of points.now) }
    ensures { AllByRecursion (AreFoundIn tree.now points.now) parts.new }
{
    let search = move |_place: usize, part: &mut Part|
        requires { IsSortedBy (λ d e. is_lt (key_cmp d.0 e.0)) (entries_of points.now) }
        ensures { AreFoundIn tree.entry.now points.entry.now part.exit.now }
    {
        search_part(tree, points, part);
    };
    for_each_mut(rt, parts, workers, &search);
}

// Searches for the runs of a part's points.
fn search_part(tree: &Tree, points: &[Point<'_>], part: &mut Part)
    requires { IsSortedBy (λ d e. is_lt (key_cmp d.0 e.0)) (entries_of points.now) }
    ensures { AreFoundIn tree.now points.now part.new }
{
    part.runs.clear();
    let stop = part.stop.min(points.len());
    let mut routes = Routes::new(tree.look());
    let mut start = part.start;
    while start < stop {
        let run = find_run(tree, &mut routes, points, start);
        start = run.end;
        if part.runs.push(run).is_err() {
            return;
        }
    }
}
