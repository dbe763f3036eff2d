// How many blocks of memory small batches of reads take.
use crate::tests::assertions::assert_equal;
use bw_batch::{Index, OpenGate, Options};
use bw_fixtures::TextOp::{Get, Upsert};
use bw_fixtures::{TextOp, heap, ops};
use bw_memory::Alloc;
use std::process::Abort;
use std::thread::Threads;

// Runs a batch. How many blocks of memory were asked for meanwhile.
fn blocks_of<R: Abort + Threads + Sync>(
    rt: &R,
    alloc: Alloc,
    index: &mut Index,
    batch: &[TextOp],
) -> u64 {
    let ops = ops(alloc, batch).expect(rt, "memory");
    alloc.refuse(0);
    let outcome = index.run(rt, &ops, &OpenGate);
    let blocks = alloc.left().wrapping_neg();
    let done = outcome.expect(rt, "memory");
    assert_equal(rt, done.replies.as_slice().len(), batch.len());
    blocks
}

// An index of one leaf without writes over its base page.
fn consolidated<R: Abort + Threads + Sync>(rt: &R, alloc: Alloc) -> Index {
    let options = Options::default().with_eager(true);
    let mut index = Index::new(alloc, options).expect(rt, "memory");
    blocks_of(rt, alloc, &mut index, &[Upsert("a", "1"), Upsert("b", "2")]);
    index
}

// The points, their answers and the replies: the pages and their numbers have room without a block.
#[test]
fn a_batch_of_up_to_eight_gets_takes_three_blocks(rt: HostRuntime) {
    let alloc = heap(rt.alloc()).expect(&rt, "a heap");
    let mut index = consolidated(&rt, alloc);
    let one = blocks_of(&rt, alloc, &mut index, &[Get("a")]);
    assert_equal(&rt, one, 3);
    let eight = blocks_of(&rt, alloc, &mut index, &[Get("b"); 8]);
    assert_equal(&rt, eight, 3);
    let nine = blocks_of(&rt, alloc, &mut index, &[Get("b"); 9]);
    assert_equal(&rt, nine, 4);
}
