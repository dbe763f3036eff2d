// Batches one by one and all at once, by each number of workers.
use super::running::{Row, WORKERS, holds, is_accepted, ops_of, run, working, working_beside};
use crate::tests::assertions::assert_equal;
use bw_batch::{Done, Index, Op, OpenGate, Options, Refusal};
use bw_fixtures::{TextPair, heap};
use bw_memory::Alloc;
use std::alloc::Global;
use std::process::Abort;
use std::thread::Threads;

/// Batches in their order.
pub type Batches = &'static [&'static [Row]];

/// The operations of batches.
pub fn all_ops<R: Abort>(
    rt: &R,
    alloc: Alloc,
    batches: &[&'static [Row]],
) -> Vec<Vec<Op, Alloc>, Alloc> {
    let mut all = Vec::new(alloc);
    for batch in batches {
        all.push(ops_of(rt, alloc, batch)).expect(rt, "memory");
    }
    all
}

// Runs the batches one by one on an empty index.
fn run_in_turn<R: Abort + Threads + Sync>(
    rt: &R,
    alloc: Alloc,
    options: Options,
    batches: &[&'static [Row]],
    after: &[TextPair],
) {
    let mut index = Index::new(alloc, options).expect(rt, "an index");
    for batch in batches {
        run(rt, alloc, &mut index, batch);
    }
    holds(rt, &index, after);
}

// Each batch was accepted, with its replies.
fn are_accepted<R: Abort>(rt: &R, outcomes: &[Result<Done, Refusal>], batches: &[&'static [Row]]) {
    assert_equal(rt, outcomes.len(), batches.len());
    for (outcome, batch) in outcomes.iter().zip(batches) {
        is_accepted(rt, outcome, batch);
    }
}

// Runs the batches all at once on an empty index.
fn run_at_once<R: Abort + Threads + Sync>(
    rt: &R,
    alloc: Alloc,
    options: Options,
    batches: &[&'static [Row]],
    after: &[TextPair],
) {
    let mut index = Index::new(alloc, options).expect(rt, "an index");
    let all = all_ops(rt, alloc, batches);
    let outcomes = index.run_all(rt, &all, &OpenGate).expect(rt, "memory");
    are_accepted(rt, &outcomes, batches);
    holds(rt, &index, after);
}

/// Runs them one by one and all at once, with these options. Compares the replies, and the pairs in the end.
pub fn compare_with<R: Abort + Threads + Sync>(
    rt: &R,
    alloc: Alloc,
    options: Options,
    batches: &[&'static [Row]],
    after: &[TextPair],
) {
    run_in_turn(rt, alloc, options, batches, after);
    run_at_once(rt, alloc, options, batches, after);
}

/// Runs the batches with each number of workers, in the smallest pieces and in the greatest, without and with leaves that are
/// consolidated beside the posting. Compares the replies, and the pairs in the end.
pub fn compare<R: Abort + Threads + Sync>(
    rt: &R,
    global: Global,
    batches: &[&'static [Row]],
    after: &[TextPair],
) {
    let alloc = heap(global).expect(rt, "a heap");
    for &workers in WORKERS {
        compare_with(rt, alloc, working(rt, workers, 1), batches, after);
        compare_with(rt, alloc, working(rt, workers, 4096), batches, after);
        compare_with(rt, alloc, working_beside(rt, workers, 1), batches, after);
        compare_with(rt, alloc, working_beside(rt, workers, 4096), batches, after);
    }
}
