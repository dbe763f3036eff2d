// Indexes, and batches that they run, whose operations and replies are rows of texts.
use crate::tests::assertions::{assert_equal, assert_that};
use bw_batch::{Done, Index, Op, OpenGate, Options, Refusal, Reply};
use bw_fixtures::{TextOp, TextPair, TextReply, have_texts, is_reply, op, ops};
use bw_memory::Alloc;
use std::process::Abort;
use std::thread::Threads;

/// Longer than a key or a value that takes no memory.
pub const LONG: &str = "a text of more than 24 bytes";

/// Numbers of workers.
pub const WORKERS: &[u64] = &[1, 2, 16, 64];

/// An operation and its reply.
pub type Row = (TextOp, TextReply);

/// Options with so many workers, and pieces of so many records.
pub fn working<R: Abort>(rt: &R, workers: u64, piece: u64) -> Options {
    Options::new(workers, piece, 8, 64, 16, 65536, 1048576).expect(rt, "options")
}

/// The same, with leaves consolidated beside the posting: a chain of one write is long enough.
pub fn working_beside<R: Abort>(rt: &R, workers: u64, piece: u64) -> Options {
    Options::new(workers, piece, 2, 64, 16, 65536, 1048576)
        .expect(rt, "options")
        .with_beside(true)
}

/// Options with this `batch_max`.
pub fn options_up_to<R: Abort>(rt: &R, batch_max: u64) -> Options {
    Options::new(4, 64, 8, 64, 16, batch_max, 1048576).expect(rt, "options")
}

/// An empty index with this `batch_max`.
pub fn index_up_to<R: Abort>(rt: &R, alloc: Alloc, batch_max: u64) -> Index {
    Index::new(alloc, options_up_to(rt, batch_max)).expect(rt, "an index")
}

/// The operations of a batch.
pub fn ops_of<R: Abort>(rt: &R, alloc: Alloc, batch: &[Row]) -> Vec<Op, Alloc> {
    let mut ops = Vec::new(alloc);
    for (text, _) in batch {
        let op = op(alloc, *text).expect(rt, "memory");
        ops.push(op).expect(rt, "memory");
    }
    ops
}

/// Compares the replies to a batch.
pub fn have_replies<R: Abort>(rt: &R, replies: &[Reply], batch: &[Row]) {
    assert_equal(rt, replies.len(), batch.len());
    for (reply, (_, text)) in replies.iter().zip(batch) {
        assert_that(rt, is_reply(reply, *text));
    }
}

/// Compares what an accepted batch answered, and sees that it was tidied.
pub fn answers<R: Abort>(rt: &R, done: &Done, batch: &[Row]) {
    have_replies(rt, done.replies.as_slice(), batch);
    assert_that(rt, !done.tidy.stopped);
}

/// Sees that a batch was accepted, and compares what it answered.
pub fn is_accepted<R: Abort>(rt: &R, outcome: &Result<Done, Refusal>, batch: &[Row]) {
    match outcome {
        Ok(done) => answers(rt, done, batch),
        Err(_) => panic!(rt; "the batch was refused"),
    }
}

/// Runs a batch, and compares what it answered.
pub fn run<R: Abort + Threads + Sync>(rt: &R, alloc: Alloc, index: &mut Index, batch: &[Row]) {
    let ops = ops_of(rt, alloc, batch);
    let outcome = index.run(rt, &ops, &OpenGate);
    is_accepted(rt, &outcome, batch);
}

/// Why a batch is refused, if it is.
pub fn refusal_of<R: Abort + Threads + Sync>(
    rt: &R,
    index: &mut Index,
    ops: &[Op],
) -> Option<Refusal> {
    index.run(rt, ops, &OpenGate).err()
}

/// Whether a batch was refused for its length.
pub fn is_too_long(outcome: &Result<Done, Refusal>, ops: u64, most: u64) -> bool {
    match outcome {
        Ok(_) => false,
        Err(refusal) => *refusal == Refusal::TooLong { ops, most },
    }
}

/// Why the batch of these texts is refused, if it is.
pub fn refusal_of_texts<R: Abort + Threads + Sync>(
    rt: &R,
    alloc: Alloc,
    index: &mut Index,
    texts: &[TextOp],
) -> Option<Refusal> {
    let ops = ops(alloc, texts).expect(rt, "memory");
    refusal_of(rt, index, &ops)
}

/// Compares the pairs of an index, and their number.
pub fn holds<R: Abort>(rt: &R, index: &Index, pairs: &[TextPair]) {
    let contents = index.contents().expect(rt, "memory");
    assert_that(rt, have_texts(&contents, pairs));
    assert_equal(rt, index.len(), pairs.len() as u64);
    assert_equal(rt, index.is_empty(), pairs.is_empty());
}
