// Batches behind which tidying is refused.
use bw_batch::{Index, Op, OpenGate, Tidy};
use bw_memory::Alloc;
use std::process::Abort;
use std::thread::Threads;

// Mapping words below this one name base pages.
const FLOOR: u64 = 1 << 32;

// Pages that are base pages by themselves. A refused sweep may have consolidated some.
fn count_plain(index: &Index) -> usize {
    let words = index.tree().heads();
    words.iter().filter(|word| **word < FLOOR).count()
}

/// Runs a batch where each growth is refused, one after another, until the batch isn't: then the growth behind its last one
/// was. Where a refused sweep has consolidated a page it begins again at the first growth, since there are fewer then. What
/// tidying did.
pub fn run_stopped<R: Abort + Threads + Sync>(
    rt: &R,
    alloc: Alloc,
    index: &mut Index,
    ops: &[Op],
) -> Tidy {
    let mut growth = 1u64;
    for _ in 1..1000 {
        let plain = count_plain(index);
        alloc.refuse(growth);
        let outcome = index.run(rt, ops, &OpenGate);
        alloc.refuse(0);
        if let Ok(done) = outcome {
            return done.tidy;
        }
        let stays = count_plain(index) == plain;
        growth = if stays { growth.saturating_add(1) } else { 1 };
    }
    panic!(rt; "no batch was accepted");
}
